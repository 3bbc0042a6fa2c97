//! Why a request is not served, or not all of it: the failures with their statuses.

ghost use Rattle.std.specs.Prelude.{◌≡◌, ◌-◌, ◌^◌, ◌<◌, OnOk};
ghost use Rattle.sinks.specs.Appended.{AppendsAll};
ghost use Rattle.sinks.specs.Sinks.{CountsFault};
ghost use Rattle.boards.specs.declared.cause.Cause.TheVariants.{Memory, Output};
ghost use Rattle.jobs.specs.Failures.{definitions_failure, failure_of, question_failure};
ghost use Rattle.jobs.specs.Failures.{status_of};
ghost use Rattle.jobs.specs.Lines.{cause_line, condition_line, fault_text, hand_line};
ghost use Rattle.jobs.specs.Lines.{input_line, label_line, line_of, plan_line};
ghost use Rattle.jobs.specs.Lines.{cells_line, question_line, record_fault_text, record_line};
ghost use Rattle.jobs.specs.Lines.{definitions_line, text_line};
ghost use Rattle.jobs.specs.declared.failure.Failure.TheVariants.{Interrupted};
ghost use Rattle.sinks.specs.Messages.{text_of};

use boards::{Cause, PlanError};
use cards::{MAX_CANDIDATES, Seat};
use cond_lang::{CondError, MOST_PARTS};
use input::records::{RecordFault, RefusedRecord};
use input::{LineFault, RefusedLine};
use requests::{LabelName, QuestionName};
use sinks::{Message, Sink, SinkFault};
use statistics::MAX_CELLS;
use std::alloc::AllocError;

/// Why a request is not served, or not all of it.
#[derive(Drop)]
pub enum Failure {
    /// The words ask for nothing; with the text that says so.
    CommandLine(String),
    Plan(PlanError),
    /// The label can't be written in the format.
    Label(LabelName),
    /// The text of this seat's hand is malformed, or has a card of an earlier one.
    Hand(Seat),
    /// The definitions are refused, but not because memory ran out.
    Definitions(CondError),
    /// The condition is refused, but not because memory ran out.
    Condition(CondError),
    /// The text of a question is refused, but not because memory ran out.
    Question(QuestionName, CondError),
    /// The table of the answers could have more than 1,048,576 cells; with the last question.
    Cells(QuestionName),
    /// The output failed, memory ran out, a thread wasn't started, or a worker ended too soon.
    Interrupted(Cause),
    /// A line of the input is refused.
    Line(RefusedLine),
    /// A line of the games that the input has is refused.
    Record(RefusedRecord),
    /// The input couldn't be read.
    Input,
    /// The input ended too soon.
    EndOfInput,
}

impl From<SinkFault> for Failure {
    ghost from_gives = { λ _ e. e ≡ Interrupted Output };

    fn from(_fault: SinkFault) -> Failure {
        Failure::Interrupted(Cause::Output)
    }
}

impl From<AllocError> for Failure {
    ghost from_gives = { λ _ e. e ≡ Interrupted Memory };

    fn from(_error: AllocError) -> Failure {
        Failure::Interrupted(Cause::Memory)
    }
}

impl From<CondError> for Failure {
    ghost from_gives = { λ error e. e ≡ failure_of error };

    fn from(error: CondError) -> Failure {
        match error {
            CondError::Memory => Failure::Interrupted(Cause::Memory),
            refused => Failure::Condition(refused),
        }
    }
}

// The lines name these limits.
const _: () = prove!(MAX_CANDIDATES == 1_099_511_627_776);

const _: () = prove!(MAX_CELLS == 1_048_576);

const _: () = prove!(MOST_PARTS == 16_384);

/// The line that tells that memory ran out.
const OUT_OF_MEMORY: &str = "out of memory\n";

fn of_plan(error: PlanError) -> &'static str
    ensures { result.now ≡ plan_line error }
{
    match error {
        PlanError::Range => "plan refused: range\n",
        PlanError::Workers => "plan refused: workers\n",
        PlanError::Capacity => "plan refused: lane capacity\n",
        PlanError::Boards => "plan refused: boards\n",
        PlanError::FirstBoard => "plan refused: first board\n",
    }
}

fn of_label(label: LabelName) -> &'static str
    ensures { result.now ≡ label_line label }
{
    match label {
        LabelName::Event => "label refused: event\n",
        LabelName::Site => "label refused: site\n",
        LabelName::Date => "label refused: date\n",
    }
}

fn of_hand(seat: Seat) -> &'static str
    ensures { result.now ≡ hand_line seat }
{
    match seat {
        Seat::North => "hand refused: north\n",
        Seat::East => "hand refused: east\n",
        Seat::South => "hand refused: south\n",
        Seat::West => "hand refused: west\n",
    }
}

/// The line of a text of the language that is refused: how it begins if the fault has a place, and
/// what it is if the text is too long or has too many parts.
fn of_text(
    at_byte: &'static str,
    too_long: &'static str,
    too_many: &'static str,
    error: CondError,
) -> Message<'static>
    ensures { text_of result
        ≡ text_line at_byte.entry.now too_long.entry.now too_many.entry.now error }
{
    match error {
        CondError::TooLong => Message::plain(too_long),
        CondError::Byte { at } => Message::with(at_byte, at as u64, ": unexpected byte\n"),
        CondError::Word { at } => Message::with(at_byte, at as u64, ": unknown word\n"),
        CondError::Number { at } => Message::with(at_byte, at as u64, ": number too long\n"),
        CondError::Syntax { at } => Message::with(at_byte, at as u64, ": syntax\n"),
        CondError::TooManyParts => Message::plain(too_many),
        CondError::Memory => Message::plain(OUT_OF_MEMORY),
    }
}

fn of_names(error: CondError) -> Message<'static>
    ensures { text_of result ≡ definitions_line error }
{
    of_text(
        "let refused at byte ",
        "let refused: longer than 4096 bytes\n",
        "let refused: more than 16384 parts\n",
        error,
    )
}

fn of_condition(error: CondError) -> Message<'static>
    ensures { text_of result ≡ condition_line error }
{
    of_text(
        "condition refused at byte ",
        "condition refused: longer than 1024 bytes\n",
        "condition refused: more than 16384 parts\n",
        error,
    )
}

fn of_cells(name: QuestionName) -> &'static str
    ensures { result.now ≡ cells_line name }
{
    match name {
        QuestionName::Of => "of refused: more than 1048576 cells\n",
        QuestionName::By => "by refused: more than 1048576 cells\n",
    }
}

fn of_question(name: QuestionName, error: CondError) -> Message<'static>
    ensures { text_of result ≡ question_line name error }
{
    match name {
        QuestionName::Of => of_text(
            "of refused at byte ",
            "of refused: longer than 1024 bytes\n",
            "of refused: more than 16384 parts\n",
            error,
        ),
        QuestionName::By => of_text(
            "by refused at byte ",
            "by refused: longer than 1024 bytes\n",
            "by refused: more than 16384 parts\n",
            error,
        ),
    }
}

fn of_cause(cause: Cause) -> Message<'static>
    ensures { text_of result ≡ cause_line cause }
{
    const WORKER: &str = "worker ";
    match cause {
        Cause::Memory => Message::plain(OUT_OF_MEMORY),
        Cause::Spawn => Message::plain("thread not started\n"),
        Cause::Output => Message::plain("output failed\n"),
        Cause::Stopped { worker } => Message::with(WORKER, u64::from(worker), " stopped\n"),
        Cause::Unclosed { worker } => Message::with(WORKER, u64::from(worker), " not closed\n"),
    }
}

fn of_fault(fault: LineFault) -> &'static str
    ensures { result.now ≡ fault_text fault }
{
    match fault {
        LineFault::NotANumber => ": not a number\n",
        LineFault::NotBelow => ": not below 1099511627776\n",
        LineFault::TooMany => ": too many numbers\n",
        LineFault::NotTricks => ": not tricks\n",
        LineFault::Missing => ": missing\n",
        LineFault::OtherDeal => ": tricks of another deal\n",
        LineFault::MoreThanBoards => ": more than the boards\n",
    }
}

fn of_line(refused: RefusedLine) -> Message<'static>
    ensures { text_of result ≡ input_line refused }
{
    Message::with(
        "input refused at line ",
        refused.line,
        of_fault(refused.fault),
    )
}

fn of_record_fault(fault: RecordFault) -> &'static str
    ensures { result.now ≡ record_fault_text fault }
{
    match fault {
        RecordFault::NotADeal => ": not a deal\n",
        RecordFault::NotANumber => ": not a board's number\n",
        RecordFault::NotADealer => ": not a dealer\n",
        RecordFault::NotAVulnerability => ": not a vulnerability\n",
        RecordFault::NotATag => ": not a tag\n",
        RecordFault::TooLong => ": longer than 4096 bytes\n",
    }
}

fn of_record(refused: RefusedRecord) -> Message<'static>
    ensures { text_of result ≡ record_line refused }
{
    Message::with(
        "input refused at line ",
        refused.line,
        of_record_fault(refused.fault),
    )
}

impl Failure {
    /// The failure of definitions that are refused so.
    pub(crate) fn of_definitions(error: CondError) -> Failure
        ensures { result ≡ definitions_failure error }
    {
        match error {
            CondError::Memory => Failure::Interrupted(Cause::Memory),
            refused => Failure::Definitions(refused),
        }
    }

    /// The failure of a question whose text is refused so.
    pub(crate) fn of_question(name: QuestionName, error: CondError) -> Failure
        ensures { result ≡ question_failure name error }
    {
        match error {
            CondError::Memory => Failure::Interrupted(Cause::Memory),
            refused => Failure::Question(name, refused),
        }
    }

    /// The exit status.
    pub fn status(&self) -> u8
        ensures { result ≡ status_of self.now }
    {
        match self {
            Failure::CommandLine(_) | Failure::Plan(_) | Failure::Label(_) => 2,
            Failure::Hand(_) => 2,
            Failure::Definitions(_) | Failure::Condition(_) => 3,
            Failure::Question(..) | Failure::Cells(_) => 3,
            Failure::Interrupted(cause) => match cause {
                Cause::Output => 4,
                Cause::Memory => 5,
                Cause::Spawn | Cause::Stopped { .. } | Cause::Unclosed { .. } => 6,
            },
            Failure::Line(_) | Failure::Record(_) => 7,
            Failure::Input | Failure::EndOfInput => 7,
        }
    }

    fn message(&self) -> Message<'_>
        ensures { text_of result ≡ line_of self.now }
    {
        match self {
            Failure::CommandLine(text) => Message::plain(text.as_str()),
            Failure::Plan(error) => Message::plain(of_plan(*error)),
            Failure::Label(label) => Message::plain(of_label(*label)),
            Failure::Hand(seat) => Message::plain(of_hand(*seat)),
            Failure::Definitions(error) => of_names(*error),
            Failure::Condition(error) => of_condition(*error),
            Failure::Question(name, error) => of_question(*name, *error),
            Failure::Cells(name) => Message::plain(of_cells(*name)),
            Failure::Interrupted(cause) => of_cause(*cause),
            Failure::Line(refused) => of_line(*refused),
            Failure::Record(refused) => of_record(*refused),
            Failure::Input => Message::plain("input failed\n"),
            Failure::EndOfInput => Message::plain("input failed\n"),
        }
    }

    /// Says it to the user: one line, or the text of a refused command line.
    ///
    /// # Errors
    /// `SinkFault` if the sink failed.
    pub fn say<E: Sink>(&self, err: &mut E) -> Result<(), SinkFault>
        requires { E.faults err.old < 2 ^ 64 - 1 }
        ensures text { OnOk result
            (AppendsAll (E.bytes err.old) (E.bytes err.new) (line_of self.now)) }
        ensures faults { CountsFault (E.faults err.old) (E.faults err.new) result }
    {
        self.message().print(err)
    }
}
