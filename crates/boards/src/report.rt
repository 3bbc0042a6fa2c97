//! The report of a run that wrote all that its plan asks for.

ghost use Rattle.std.specs.Prelude.{◌-◌, ◌+◌, ◌^◌, ◌<◌, ◌≤◌, ◌++◌, OnOk, Option};
ghost use Rattle.sinks.specs.Appended.{AppendsAll};
ghost use Rattle.sinks.specs.Sinks.{CountsFault};
ghost use Rattle.boards.specs.Reports.{boards_text, candidates_text, goes_on_at, goes_on_from};
ghost use Rattle.boards.specs.Reports.{next_line, report_line, shortfall};

use crate::{Format, Plan};
use cards::MAX_CANDIDATES;
use sinks::{Message, Sink, SinkFault, put_all};

/// How many boards a run wrote, and from how many candidates.
#[derive(Clone, Copy)]
pub struct Report {
    pub plan: Plan,
    pub format: Format,
    /// The candidates up to the one whose board met the limit, or all.
    pub candidates: u64,
    pub boards: u64,
    ghost within: { candidates ≤ plan.count },
    ghost accepted: { boards ≤ candidates },
}

/// Says how many boards there are.
fn put_boards<E: Sink>(boards: u64, err: &mut E) -> Result<(), SinkFault>
    requires { E.faults err.old < 2 ^ 64 - 1 }
    ensures text { OnOk result (AppendsAll (E.bytes err.old) (E.bytes err.new)
        (boards_text boards)) }
    ensures faults { CountsFault (E.faults err.old) (E.faults err.new) result }
{
    let noun = if boards == 1 { " board" } else { " boards" };
    Message::with("", boards, noun).print(err)
}

/// Says which candidates were tried: this many, from `first` on.
fn put_candidates<E: Sink>(first: u64, candidates: u64, err: &mut E) -> Result<(), SinkFault>
    requires faults { E.faults err.old < 2 ^ 64 - 1 }
    requires range { first + candidates ≤ 2 ^ 40 }
    ensures text { OnOk result (AppendsAll (E.bytes err.old) (E.bytes err.new)
        (candidates_text first candidates)) }
    ensures faults { CountsFault (E.faults err.old) (E.faults err.new) result }
{
    if candidates == 0 {
        return put_all(err, b"no candidates");
    }
    if candidates == 1 {
        return Message::with("1 candidate, number ", first, ",").print(err);
    }
    Message::with("", candidates, " candidates, numbers ").print(err)?;
    Message::with("", first, " to ").print(err)?;
    Message::with("", first + candidates - 1, ",").print(err)
}

/// Says that there are fewer boards than were asked for.
fn put_shortfall<E: Sink>(asked: Option<u32>, boards: u64, err: &mut E) -> Result<(), SinkFault>
    requires { E.faults err.old < 2 ^ 64 - 1 }
    ensures text { OnOk result (AppendsAll (E.bytes err.old) (E.bytes err.new)
        (shortfall asked boards)) }
    ensures faults { CountsFault (E.faults err.old) (E.faults err.new) result }
{
    match asked {
        Some(most) if boards < u64::from(most) => {
            Message::with(", fewer than the ", u64::from(most), " asked for").print(err)
        }
        _ => Ok(()),
    }
}

/// Says where a further run goes on, if a candidate and a board come after.
fn put_next<E: Sink>(first: u64, board: u64, err: &mut E) -> Result<(), SinkFault>
    requires { E.faults err.old < 2 ^ 64 - 1 }
    ensures text { OnOk result (AppendsAll (E.bytes err.old) (E.bytes err.new)
        (goes_on_at first board)) }
    ensures faults { CountsFault (E.faults err.old) (E.faults err.new) result }
{
    if first == MAX_CANDIDATES || board > MAX_CANDIDATES {
        return Ok(());
    }
    Message::with("next: --first ", first, " --first-board ").print(err)?;
    Message::with("", board, "\n").print(err)
}

/// Says at which candidate a further run goes on, if one comes after.
fn put_next_candidate<E: Sink>(first: u64, err: &mut E) -> Result<(), SinkFault>
    requires { E.faults err.old < 2 ^ 64 - 1 }
    ensures text { OnOk result (AppendsAll (E.bytes err.old) (E.bytes err.new)
        (goes_on_from first)) }
    ensures faults { CountsFault (E.faults err.old) (E.faults err.new) result }
{
    if first == MAX_CANDIDATES {
        return Ok(());
    }
    Message::with("next: --first ", first, "\n").print(err)
}

impl Report {
    /// Says how many boards from which candidates.
    fn say_counts<E: Sink>(&self, err: &mut E) -> Result<(), SinkFault>
        requires { E.faults err.old < 2 ^ 64 - 1 }
        ensures text { OnOk result (AppendsAll (E.bytes err.old) (E.bytes err.new)
            (report_line self.now.plan self.now.candidates self.now.boards)) }
        ensures faults { CountsFault (E.faults err.old) (E.faults err.new) result }
    {
        put_boards(self.boards, err)?;
        put_all(err, b" from ")?;
        put_candidates(self.plan.first(), self.candidates, err)?;
        Message::with(" of seed ", u64::from(self.plan.seed()), "").print(err)?;
        put_shortfall(self.plan.limit(), self.boards, err)?;
        put_all(err, b"\n")
    }

    /// Says where to go on.
    fn say_next<E: Sink>(&self, err: &mut E) -> Result<(), SinkFault>
        requires { E.faults err.old < 2 ^ 64 - 1 }
        ensures text { OnOk result (AppendsAll (E.bytes err.old) (E.bytes err.new)
            (next_line self.now.format self.now.plan self.now.candidates self.now.boards)) }
        ensures faults { CountsFault (E.faults err.old) (E.faults err.new) result }
    {
        let first = self.plan.first() + self.candidates;
        if self.format.numbers_boards() {
            put_next(first, self.plan.first_board() + self.boards, err)
        } else {
            put_next_candidate(first, err)
        }
    }

    /// Says it to the user: how many boards from which candidates, and where to go on.
    ///
    /// # Errors
    /// `SinkFault` if the sink failed.
    pub fn say<E: Sink>(&self, err: &mut E) -> Result<(), SinkFault>
        requires { E.faults err.old < 2 ^ 64 - 1 }
        ensures text { OnOk result (AppendsAll (E.bytes err.old) (E.bytes err.new)
            (report_line self.now.plan self.now.candidates self.now.boards
            ++ next_line self.now.format self.now.plan self.now.candidates self.now.boards)) }
        ensures faults { CountsFault (E.faults err.old) (E.faults err.new) result }
    {
        self.say_counts(err)?;
        self.say_next(err)
    }
}
