//! The line above every table: how many deals of how many candidates.

ghost use Rattle.std.specs.Prelude.{◌≡◌, ◌≤◌, ◌+◌, ◌^◌, ◌++◌, length};
ghost use Rattle.boards.specs.declared.buffer.TheConstants.{CAPACITY};
ghost use Rattle.statistics.specs.Sentence.{one_in, sentence, share};

use crate::fractions::{Digits, put_fraction, rounded};
use crate::numbers::put_commas;
use boards::TextBuffer;

/// Appends the sentence, without the end of its line.
#[tactic(auto, unfolding(crate::specs::Sentence::sentence))]
pub(crate) fn put_sentence(text: &mut TextBuffer, deals: u64, candidates: u64)
    requires deals { deals ≤ 2 ^ 40 }
    requires room { length text.old + 200 ≤ CAPACITY }
    ensures text { text.new ≡ text.old ++ sentence deals candidates }
    ensures most { length text.new ≤ length text.old + 160 }
{
    put_commas(text, deals);
    text.put(b" of ");
    put_commas(text, candidates);
    text.put(b" deals");
    put_share(text, deals, candidates);
    put_one_in(text, deals, candidates);
}

/// Appends the deals per cent of the candidates, if there are any.
fn put_share(text: &mut TextBuffer, deals: u64, candidates: u64)
    requires deals { deals ≤ 2 ^ 40 }
    requires room { length text.old + 60 ≤ CAPACITY }
    ensures text { text.new ≡ text.old ++ share deals candidates }
    ensures most { length text.new ≤ length text.old + 44 }
{
    if candidates == 0 {
        return;
    }
    text.put(b": ");
    put_fraction(
        text,
        Digits::Three,
        100 * u128::from(deals),
        u128::from(candidates),
    );
    text.put(b" %");
}

/// Appends one in how many candidates is a deal, if that is two or more.
fn put_one_in(text: &mut TextBuffer, deals: u64, candidates: u64)
    requires { length text.old + 60 ≤ CAPACITY }
    ensures text { text.new ≡ text.old ++ one_in deals candidates }
    ensures most { length text.new ≤ length text.old + 36 }
{
    if deals == 0 {
        return;
    }
    let candidates_a_deal = rounded(u128::from(candidates), u128::from(deals)) as u64;
    if candidates_a_deal < 2 {
        return;
    }
    text.put(b", one in ");
    put_commas(text, candidates_a_deal);
}
