//! What helps a person with a plan, a label or a hand that is refused: the option, what it was
//! given, and what it takes.

ghost use Rattle.std.specs.Prelude.{◌≡◌, ◌++◌, [], option_map, string_bytes, unwrap_or};
ghost use Rattle.std.specs.Prelude.{IfOk, OnOk};
ghost use Rattle.explain.specs.Advice.{IsAdviceOn, IsAdviceOnHand, candidates_advice, given_text};
ghost use Rattle.explain.specs.Advice.{label_advice, label_rule, plan_advice, range_line};
ghost use Rattle.explain.specs.Advice.{seat_option, text_line};
ghost use Rattle.requests.specs.Requests.{look_of, search_of};

use boards::{Format, MAX_CAPTION_CHARS, MAX_LABEL_LEN, PlanError};
use cards::{MAX_CANDIDATES, MAX_CAPACITY, MAX_WORKERS, Seat};
use command_line::put_cut;
use itoa::Buffer;
use jobs::Failure;
use requests::{LabelName, Look, Search};
use std::alloc::{AllocError, Global};

/// Returns a line to be printed below the one that names the refusal of a plan, a label or a hand:
/// the option, what it was given, and what it takes. Returns `None` for any other failure, and if
/// there is nothing wrong with the hand.
///
/// What a label or a hand was given is shown as on a terminal, cut to 72 columns.
///
/// # Errors
/// `AllocError` if an allocation failed.
pub fn advise(
    alloc: Global,
    search: &Search<'_>,
    look: &Look<'_>,
    failure: &Failure,
) -> Result<Option<String>, AllocError>
    ensures { IfOk result (λ line. IsAdviceOn (search_of search.now) (look_of look.now) failure.now
        (option_map string_bytes line)) }
{
    match failure {
        Failure::Plan(error) => Ok(Some(of_plan(alloc, search, look, *error)?)),
        Failure::Label(name) => Ok(Some(of_label(alloc, look, *name)?)),
        Failure::Hand(seat) => of_hand(alloc, search, *seat),
        _ => Ok(None),
    }
}

/// The line for the number of a plan.
fn of_plan(
    alloc: Global,
    search: &Search<'_>,
    look: &Look<'_>,
    error: PlanError,
) -> Result<String, AllocError>
    ensures { IfOk result (λ line. string_bytes line
        ≡ plan_advice (search_of search.now) (look_of look.now) error) }
{
    match error {
        PlanError::Range => of_candidates(alloc, search),
        PlanError::Workers => {
            let workers = u64::from(search.workers());
            of_number(
                alloc,
                "workers",
                workers,
                1,
                u64::from(MAX_WORKERS),
                " workers, or auto",
            )
        }
        PlanError::Capacity => {
            let lane = u64::from(search.lane());
            of_number(alloc, "lane", lane, 1, u64::from(MAX_CAPACITY), " deals")
        }
        PlanError::Boards => {
            let boards = u64::from(search.boards.unwrap_or(0));
            of_number(alloc, "boards", boards, 1, u64::from(u32::MAX), " boards")
        }
        PlanError::FirstBoard => {
            of_number(
                alloc,
                "first-board",
                look.first_board(),
                1,
                MAX_CANDIDATES,
                "",
            )
        }
    }
}

/// The line for candidates that there aren't: for the first, if there isn't even that.
fn of_candidates(alloc: Global, search: &Search<'_>) -> Result<String, AllocError>
    ensures { IfOk result (λ line. string_bytes line ≡ candidates_advice (search_of search.now)) }
{
    let first = search.first;
    if first > MAX_CANDIDATES {
        return of_number(alloc, "first", first, 0, MAX_CANDIDATES, "");
    }
    let most = MAX_CANDIDATES - first;
    let candidates = search.candidates();
    of_number(
        alloc,
        "candidates",
        candidates,
        0,
        most,
        " from this --first on",
    )
}

/// The line for a number that is out of range.
fn of_number(
    alloc: Global,
    option: &str,
    value: u64,
    least: u64,
    most: u64,
    unit: &str,
) -> Result<String, AllocError>
    ensures { IfOk result (λ line.
        string_bytes line ≡ range_line option.now value least most unit.now) }
{
    let mut line = String::new(alloc);
    line.push_str("  --")?;
    line.push_str(option)?;
    line.push_str(" ")?;
    line.push_str(Buffer::new().format(value))?;
    line.push_str(": ")?;
    line.push_str(Buffer::new().format(least))?;
    line.push_str(" to ")?;
    line.push_str(Buffer::new().format(most))?;
    line.push_str(unit)?;
    line.push_str("\n")?;
    Ok(line)
}

/// The line for a label that can't be written.
fn of_label(alloc: Global, look: &Look<'_>, name: LabelName) -> Result<String, AllocError>
    ensures { IfOk result (λ line. string_bytes line ≡ label_advice (look_of look.now) name) }
{
    match name {
        LabelName::Event => of_text(alloc, "event", look.event, label_rule(look.format)),
        LabelName::Site => of_text(alloc, "site", look.site, label_rule(look.format)),
        LabelName::Date => of_text(alloc, "date", look.date, DATE_RULE),
    }
}

/// The line for a text that isn't a hand, or has a card of an earlier one; none if it is one.
fn of_hand(alloc: Global, search: &Search<'_>, seat: Seat) -> Result<Option<String>, AllocError>
    ensures { IfOk result (λ line.
        IsAdviceOnHand (search_of search.now) seat (option_map string_bytes line)) }
{
    let Some(text) = search.hands.given_at(seat) else {
        return Ok(None);
    };
    let Some(fault) = search.hands.fault_at(seat) else {
        return Ok(None);
    };
    let mut line = String::new(alloc);
    put_given(&mut line, option_of(seat), text)?;
    fault.put_rule(&mut line)?;
    line.push_str("\n")?;
    Ok(Some(line))
}

/// The option of the seat's hand.
fn option_of(seat: Seat) -> &'static str
    ensures { result.now ≡ seat_option seat }
{
    match seat {
        Seat::North => "north",
        Seat::East => "east",
        Seat::South => "south",
        Seat::West => "west",
    }
}

// The rules name the lengths.
const _: () = prove!(MAX_LABEL_LEN == 100);

const _: () = prove!(MAX_CAPTION_CHARS == 100);

/// What an event and a site may be in the format.
fn label_rule(format: Format) -> &'static str
    ensures { result.now ≡ label_rule format }
{
    match format {
        Format::Pbn => "at most 100 characters of ASCII, from space to ~, without \" and \\",
        _ => "at most 100 characters, without control characters and direction marks",
    }
}

/// What a date may be.
const DATE_RULE: &str = "a date is written YYYY.MM.DD, as 2024.05.01";

/// The line for a text that an option doesn't take.
fn of_text(
    alloc: Global,
    option: &str,
    text: Option<&str>,
    rule: &str,
) -> Result<String, AllocError>
    ensures { IfOk result (λ line. string_bytes line
        ≡ text_line option.now (option_map (λ s. s.now) text.entry) rule.now) }
{
    let mut line = String::new(alloc);
    put_given(&mut line, option, text_or_empty(text))?;
    line.push_str(rule)?;
    line.push_str("\n")?;
    Ok(line)
}

fn text_or_empty<'a>(text: Option<&'a str>) -> &'a str
    ensures { result.now ≡ unwrap_or (option_map (λ s. s.now) text.entry) [] }
{
    match text {
        Some(text) => text,
        None => "",
    }
}

/// Appends the option, and the text that it was given.
fn put_given(line: &mut String, option: &str, text: &str) -> Result<(), AllocError>
    ensures { OnOk result
        (string_bytes line.new ≡ string_bytes line.old ++ given_text option.now text.now) }
{
    line.push_str("  --")?;
    line.push_str(option)?;
    line.push_str(" \"")?;
    put_cut(line, text.as_bytes())?;
    line.push_str("\": ")
}
