//! A line of tricks, judged for a deal.

ghost use Rattle.std.specs.Prelude.{◌≡◌, ◌≤◌, bytes_eq, codes, length, true};
ghost use Rattle.pbn_text.specs.Games.{deal_text as text_of_deal};
ghost use Rattle.std.specs.List.{list_all};
ghost use Rattle.input.specs.Lines.{has_deal, if_same, is_deal_end, is_of_deal, told_of};

use crate::refused_line::LineFault;
use boards::Tricks;
use cards::Deal;
use pbn_text::deal_text;

/// How many bytes the end of a line has that names a deal.
const END: usize = 70;

fn is_of_deal(byte: u8) -> bool
    ensures { result ≡ is_of_deal byte }
{
    matches!(
        byte,
        b'2'..=b'9' | b'A' | b'J' | b'K' | b'Q' | b'T' | b'.' | b' '
    )
}

fn all_are_of_deal(bytes: &[u8]) -> bool
    ensures { result ≡ list_all is_of_deal bytes.now }
{
    bytes.iter().all(|byte| is_of_deal(*byte))
}

fn is_start(front: &[u8]) -> bool
    ensures { result ≡ bytes_eq front.now (codes " N:") }
{
    front == b" N:".as_slice()
}

/// Whether the end of a line names a deal.
fn is_deal_end(end: &[u8]) -> bool
    requires { 3 ≤ length end.now }
    ensures { result ≡ is_deal_end end.now }
{
    is_start(&end[..3]) && all_are_of_deal(&end[3..])
}

/// Whether the line names a deal.
fn has_deal(line: &[u8]) -> bool
    ensures value { result ≡ has_deal line.now }
    ensures room { result ≡ true → 70 ≤ length line.now }
{
    line.len() >= END && is_deal_end(&line[line.len() - END..])
}

/// Whether the value is the deal's.
fn is_same(value: &[u8], deal: &Deal) -> bool
    ensures { result ≡ bytes_eq value.now (text_of_deal deal.now) }
{
    value == deal_text(deal).as_slice()
}

/// Returns the tricks of a line, unless it tells none or is for another deal.
fn if_same(tricks: Option<Tricks>, same: bool) -> Result<Tricks, LineFault>
    ensures { result ≡ if_same tricks same }
{
    match tricks {
        None => Err(LineFault::NotTricks),
        Some(tricks) if same => Ok(tricks),
        Some(_) => Err(LineFault::OtherDeal),
    }
}

/// Returns what the line tells of the deal.
///
/// # Errors
/// `NotTricks`: it isn't a line of tricks. `OtherDeal`: it is one of another deal.
#[tactic(auto, unfolding(crate::specs::Lines::told_of))]
pub(crate) fn judge(line: &[u8], deal: &Deal) -> Result<Tricks, LineFault>
    ensures { result ≡ told_of deal.now line.now }
{
    if !has_deal(line) {
        return if_same(Tricks::read(line), true);
    }
    let tricks = Tricks::read(&line[..line.len() - END]);
    let end = &line[line.len() - END..];
    if_same(tricks, is_same(&end[1..], deal))
}
