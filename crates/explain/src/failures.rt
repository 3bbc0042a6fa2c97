//! What helps a person with a failure, below the line that names it.

use crate::advice::advise;
use crate::{rewritten, words};
use boards::Cause;
use input::records::{RecordFault, RefusedRecord};
use input::{LineFault, RefusedLine};
use jobs::Failure;
use requests::{QuestionName, Request};
use std::alloc::Global;
use std::io;

/// What helps with a table of one question that could be too large.
const TOO_MANY_ROWS: &str =
    "  hint: --of has a row for each answer: take smaller factors, or ask for a condition\n";

/// What helps with a table of two questions that could be too large.
const TOO_LARGE: &str =
    "  hint: rows of --of times columns of --by: add up fewer values, or ask for a condition\n";

/// Why reading or writing failed, if the system said so.
#[derive(Clone, Copy)]
pub struct Reasons<'a> {
    pub output: Option<&'a io::Error>,
    /// The number of the system's error.
    pub input: Option<i32>,
}

/// Returns what helps with a failure, to be printed below the line that names it; none if nothing
/// does, or if memory runs out. The words are those of the command line; without a request they
/// were refused. With the text of definitions, of a condition or of a question
/// `explain_conditions` helps.
pub fn help(
    alloc: Global,
    words: &[String],
    request: Option<&Request<'_>>,
    failure: &Failure,
    reasons: Reasons<'_>,
) -> Option<String> {
    match failure {
        Failure::CommandLine(text) => words::hint(alloc, words, text.as_str()),
        Failure::Plan(_) | Failure::Label(_) | Failure::Hand(_) => plan_help(
            alloc, request, failure,
        ),
        Failure::Cells(QuestionName::Of) => String::from_str(alloc, TOO_MANY_ROWS).ok(),
        Failure::Cells(QuestionName::By) => String::from_str(alloc, TOO_LARGE).ok(),
        Failure::Interrupted(Cause::Output) => reason_of_output(alloc, reasons),
        Failure::Input => reason_of_input(alloc, reasons),
        Failure::Line(line) => String::from_str(alloc, line_help(*line)).ok(),
        Failure::Record(line) => String::from_str(alloc, record_help(*line)?).ok(),
        Failure::Definitions(_) | Failure::Condition(_) | Failure::Question(..) => None,
        Failure::Interrupted(_) | Failure::EndOfInput => None,
    }
}

/// What helps with a plan, a label or a hand that is refused.
fn plan_help(alloc: Global, request: Option<&Request<'_>>, failure: &Failure) -> Option<String> {
    let (search, look) = request?.searched()?;
    let mut text = advise(alloc, &search, &look, failure).unwrap_or(None)?;
    let hint = match failure {
        Failure::Label(name) => rewritten::hint(alloc, &look, *name),
        Failure::Hand(seat) => rewritten::hand_hint(alloc, &search.hands, *seat),
        _ => None,
    };
    if let Some(hint) = hint {
        text.push_str(hint.as_str()).ok()?;
    }
    Some(text)
}

/// The system's reason why the output failed.
fn reason_of_output(alloc: Global, reasons: Reasons<'_>) -> Option<String> {
    let reason = reasons.output?;
    format!(in alloc; "  {reason}\n").ok()
}

/// The system's reason why the input couldn't be read, by the number of its error.
fn reason_of_input(alloc: Global, reasons: Reasons<'_>) -> Option<String> {
    let error = io::Error::from_raw_os_error(reasons.input?);
    format!(in alloc; "  {error}\n").ok()
}

/// What helps with a line of the input that is refused.
fn line_help(line: RefusedLine) -> &'static str {
    match line.fault {
        LineFault::NotTricks => {
            "  hint: deals-tricks writes such lines of a file of the boards, and with --numbers \
             --add those that deals pick --tricks reads\n"
        }
        LineFault::Missing if line.line == 1 =>
            "  hint: no line came: is deals-tricks installed?\n",
        LineFault::Missing => "  hint: each board needs a line of the tricks of all boards\n",
        LineFault::OtherDeal | LineFault::MoreThanBoards => {
            "  hint: the tricks are of other boards: let deals-tricks count those of these\n"
        }
        LineFault::NotANumber | LineFault::NotBelow | LineFault::TooMany => {
            "  hint: each line has the number of one candidate, as deals find writes it; lines \
             with tricks need --tricks; boards of a file are for deals show\n"
        }
    }
}

/// What helps with a line of games that is refused.
fn record_help(line: RefusedRecord) -> Option<&'static str> {
    match line.fault {
        RecordFault::NotADeal => Some(
            "  hint: a deal has 52 cards, thirteen at each seat, in capitals, T for the ten, one \
             blank between hands: [Deal \"N:72.AT64.75.AT872 ...\"]\n",
        ),
        RecordFault::NotANumber => Some("  hint: boards have numbers from 1 to 1099511627776\n"),
        RecordFault::NotADealer => Some("  hint: the dealer is N, E, S or W\n"),
        RecordFault::NotAVulnerability => Some("  hint: None, NS, EW or All is vulnerable\n"),
        RecordFault::NotATag => Some(
            "  hint: a tag is a name and a text in quotes: [Board \"1\"]\n",
        ),
        RecordFault::TooLong => None,
    }
}
