//! The writer of a run: it takes the verdicts in turn and writes the boards of the accepted ones.

ghost use Rattle.std.specs.Prelude.{◌≡◌, ◌<◌, ◌≤◌, vec_len};

use crate::join::Written;
use boards::{Notation, Plan, is_full, put_board};
use lanes::{LaneOut, Slot, Turns};
use sinks::{Sink, SinkFault, put_all};
use std::sync::Wait;
use std::sync::atomic::AtomicBool;

/// After how many verdicts, or a few more, the sink hears how far the run has come. That is some
/// milliseconds at most, and the sink may read a clock each time.
const BETWEEN_WATCHES: u64 = 4096;

/// How far the writer has come: whose turn it is, how many verdicts were taken, and how many boards
/// were written.
#[derive(Drop)]
pub(crate) struct Progress {
    pub(crate) turns: Turns,
    pub(crate) taken: u64,
    pub(crate) boards: u64,
    ghost turn: { turns.turn ≡ taken },
    ghost fewer: { boards ≤ taken },
}

impl Progress {
    ghost use Rattle.std.specs.Prelude.{◌≡◌, ◌-◌, ◌+◌, ◌<◌, ◌^◌, cond, true};
    ghost use Rattle.std.specs.Prelude.{List, OnErr, OnOk};
    ghost use Rattle.sinks.specs.Appended.{append_known, AppendsPart};
    ghost use Rattle.lanes.specs.Slots.{verdict_in};
    ghost use Rattle.sinks.specs.Sinks.{CountsFault};
    ghost use Rattle.dealrun.specs.internal.Writing.{CountsOne, board_text, text_of_verdict};
    ghost use Rattle.dealrun.specs.internal.Writing.{with_verdict};
    ghost use Rattle.boards.specs.declared.board.Board.{Board};

    /// Counts a verdict that was taken, and writes its board if it is accepted. Only then it asks
    /// for the deal.
    // In line, since to copy a verdict that was made just now takes 10 ns.
    #[inline(always)]
    fn write<N: Notation, S: Sink>(
        &mut self,
        plan: &Plan,
        notation: &mut N,
        sink: &mut S,
        slot: &Slot,
    ) -> Result<(), SinkFault>
        requires taken { self.old.taken < 2 ^ 40 }
        requires faults { S.faults sink.old < 2 ^ 64 - 1 }
        ensures layout { N.layout notation.new ≡ N.layout notation.old }
        ensures taken { CountsOne self.old self.new }
        ensures faults { CountsFault (S.faults sink.old) (S.faults sink.new) result }
        ensures boards { OnOk result (self.new.boards
            ≡ cond (verdict_in slot.now).accepted (self.old.boards + 1) self.old.boards) }
        ensures bytes { OnOk result (S.bytes sink.new ≡ append_known (S.bytes sink.old)
            (text_of_verdict (N.layout notation.old) plan.now self.old.boards
            (verdict_in slot.now))) }
        ensures printed { OnOk result ((before : List Board) → N.has_printed notation.old before
            → N.has_printed notation.new
            (with_verdict plan.now self.old.boards (verdict_in slot.now) before)) }
        ensures broken { OnErr result (((verdict_in slot.now).accepted ≡ true)
            × (self.new.boards ≡ self.old.boards)
            × AppendsPart (S.bytes sink.old) (S.bytes sink.new)
            (board_text (N.layout notation.old) plan.now self.old.boards (verdict_in slot.now))) }
    {
        self.turns.advance();
        self.taken += 1;
        if slot.accepted() {
            let board = self.boards;
            put_board(plan, notation, board, slot.number(), &slot.deal(), sink)?;
            self.boards += 1;
        }
        Ok(())
    }

    /// Counts the verdict of a rejected candidate.
    #[inline(always)]
    fn pass(&mut self)
        requires { self.old.taken < 2 ^ 40 }
        ensures taken { CountsOne self.old self.new }
        ensures boards { self.new.boards ≡ self.old.boards }
    {
        self.turns.advance();
        self.taken += 1;
    }

    /// Tells the sink how far the run has come, each time that `BETWEEN_WATCHES` more verdicts were
    /// taken. At the last call `before` were.
    #[inline(always)]
    fn report_progress<S: Sink>(&self, before: u64, sink: &mut S)
        ensures bytes { S.bytes sink.new ≡ S.bytes sink.old }
        ensures faults { S.faults sink.new ≡ S.faults sink.old }
    {
        if self.taken / BETWEEN_WATCHES != before / BETWEEN_WATCHES {
            sink.watch(self.taken, self.boards);
        }
    }
}

/// The writer: the plan, the lanes that it takes from, and how far it has come.
#[derive(Drop)]
pub(crate) struct Writer {
    pub(crate) plan: Plan,
    pub(crate) lanes: Vec<LaneOut>,
    pub(crate) progress: Progress,
    ghost some: { 0 < plan.workers },
    ghost long: { vec_len lanes ≡ plan.workers },
    ghost workers: { progress.turns.workers ≡ plan.workers },
    ghost few: { progress.taken ≤ plan.count },
}

impl Writer {
    ghost use Rattle.std.specs.Prelude.{◌≡◌, ◌≢◌, ◌-◌, ◌^◌, ◌<◌, ◌≤◌, ◌↔◌, [], ℕ, IsTrue, List};
    ghost use Rattle.std.specs.Prelude.{OnOk, Option, Some, vec_len};
    ghost use Rattle.boards.specs.declared.board.Board.{Board};
    ghost use Rattle.boards.specs.Layouts.{Layout};
    ghost use Rattle.conditions.specs.Form.{Form};
    ghost use Rattle.sinks.specs.Sinks.{CountsFault};
    ghost use Rattle.dealrun.specs.internal.Ends.{Finishes};
    ghost use Rattle.dealrun.specs.internal.Writing.{FaultsBeside, Goes, GoesOn, HasEnough};
    ghost use Rattle.dealrun.specs.internal.Writing.{IsFresh, KeepsLanes, Resumes, WritesBeside};

    /// The writer of a plan's run, which took no verdict from these lanes yet.
    pub(crate) fn new(plan: &Plan, lanes: Vec<LaneOut>) -> Writer
        requires { vec_len lanes ≡ plan.now.workers }
        ensures given { (result.plan ≡ plan.now) × (result.lanes ≡ lanes) }
        ensures start { (result.progress.taken ≡ 0) × (result.progress.boards ≡ 0) }
    {
        let turns = Turns::at_start(plan.workers());
        let progress = Progress {
            turns,
            taken: 0,
            boards: 0,
        };
        Writer {
            plan: *plan,
            lanes,
            progress,
        }
    }

    /// Whether the plan's limit of boards is met.
    fn is_full(&self) -> bool
        ensures { IsTrue result ↔ (self.now.plan.limit ≡ Some self.now.progress.boards) }
    {
        is_full(&self.plan, self.progress.boards)
    }

    /// Takes the verdicts of rejected candidates in turn, up to the first that has to be waited for
    /// or is accepted.
    // A loop of its own, since nearly all verdicts on a rare condition are taken here.
    fn pass_rejected(&mut self)
        ensures plan { self.new.plan ≡ self.old.plan }
        ensures boards { self.new.progress.boards ≡ self.old.progress.boards }
        ensures taken { self.old.progress.taken ≤ self.new.progress.taken }
        ensures lanes { KeepsLanes self.old.lanes.items self.new.lanes.items }
        ensures wrote { (layout : Layout) (base bytes : Option (List ℕ)) (boards : List Board)
            → self.old.plan.limit ≢ Some self.old.progress.boards
            → GoesOn layout (λ printed. printed ≡ boards) self.old base bytes
            → GoesOn layout (λ printed. printed ≡ boards) self.new base bytes }
    {
        for _taken in self.progress.taken..self.plan.count() {
            let lane = &mut self.lanes[self.progress.turns.lane() as usize];
            if !lane.take_rejected() {
                return;
            }
            self.progress.pass();
        }
    }

    /// Takes the verdicts in turn and writes their boards, until all were taken, the limit of
    /// boards is met, or there is none and the flag is up.
    fn write_boards<R: Wait, N: Notation, S: Sink>(
        &mut self,
        rt: &R,
        notation: &mut N,
        sink: &mut S,
        stop: &AtomicBool,
    ) -> Result<(), SinkFault>
        requires { S.faults sink.old < 2 ^ 64 - 1 }
        ensures plan { self.new.plan ≡ self.old.plan }
        ensures lanes { KeepsLanes self.old.lanes.items self.new.lanes.items }
        ensures layout { N.layout notation.new ≡ N.layout notation.old }
        ensures faults { CountsFault (S.faults sink.old) (S.faults sink.new) result }
        ensures wrote { (base : Option (List ℕ))
            → GoesOn (N.layout notation.old) (N.has_printed notation.old) self.old base
            (S.bytes sink.old)
            → Goes (N.layout notation.old) (N.has_printed notation.new) self.new base result
            (S.bytes sink.new) }
        ensures end { OnOk result ((base : Option (List ℕ)) (form : Form)
            → Resumes (N.layout notation.old) (N.has_printed notation.old) form self.old base
            (S.bytes sink.old)
            → HasEnough self.new) }
    {
        if self.is_full() {
            return Ok(());
        }
        for _turn in self.progress.taken..self.plan.count() {
            let before = self.progress.taken;
            self.pass_rejected();
            if self.progress.taken == self.plan.count() {
                return Ok(());
            }
            let lane = &mut self.lanes[self.progress.turns.lane() as usize];
            if !lane.wait_for_verdict(rt, stop) {
                // Its contract says that nothing is left in the lane if it is settled.
                let _settled = lane.is_settled();
                return Ok(());
            }
            let slot = lane.take_slot();
            self.progress.write(&self.plan, notation, sink, &slot)?;
            self.progress.report_progress(before, sink);
            if self.is_full() {
                return Ok(());
            }
        }
        Ok(())
    }

    /// Writes the header, and then the boards as `write_boards` does.
    fn write_header_and_boards<R: Wait, N: Notation, S: Sink>(
        &mut self,
        rt: &R,
        notation: &mut N,
        sink: &mut S,
        stop: &AtomicBool,
    ) -> Result<(), SinkFault>
        requires faults { S.faults sink.old < 2 ^ 64 - 1 }
        requires fresh { IsFresh self.old }
        requires printed { N.has_printed notation.old [] }
        ensures plan { self.new.plan ≡ self.old.plan }
        ensures lanes { KeepsLanes self.old.lanes.items self.new.lanes.items }
        ensures layout { N.layout notation.new ≡ N.layout notation.old }
        ensures faults { CountsFault (S.faults sink.old) (S.faults sink.new) result }
        ensures wrote { Goes (N.layout notation.old) (N.has_printed notation.new) self.new
            (S.bytes sink.old) result (S.bytes sink.new) }
    {
        put_all(sink, notation.header())?;
        self.write_boards(rt, notation, sink, stop)
    }

    /// Writes while the workers run.
    pub(crate) fn write_beside_workers<R: Wait, N: Notation, S: Sink>(
        &mut self,
        rt: &R,
        notation: &mut N,
        sink: &mut S,
        stop: &AtomicBool,
    ) -> Written
        requires faults { S.faults sink.old < 2 ^ 64 - 1 }
        requires fresh { IsFresh self.old }
        requires printed { N.has_printed notation.old [] }
        ensures plan { self.new.plan ≡ self.old.plan }
        ensures lanes { KeepsLanes self.old.lanes.items self.new.lanes.items }
        ensures layout { N.layout notation.new ≡ N.layout notation.old }
        ensures faults { FaultsBeside result (S.faults sink.old) (S.faults sink.new) }
        ensures wrote { WritesBeside (N.layout notation.old) (N.has_printed notation.new)
            self.new result (S.bytes sink.old) (S.bytes sink.new) }
    {
        match self.write_header_and_boards(rt, notation, sink, stop) {
            Ok(()) if self.is_full() => Written::Full,
            Ok(()) => Written::Open,
            Err(_) => Written::Failed,
        }
    }

    /// Writes what is left in the lanes, and the footer. Unless the limit of boards is met already,
    /// the workers sent all, so it waits for none.
    pub(crate) fn write_rest<R: Wait, N: Notation, S: Sink>(
        &mut self,
        rt: &R,
        notation: &mut N,
        sink: &mut S,
        stop: &AtomicBool,
    ) -> Result<(), SinkFault>
        requires { S.faults sink.old < 2 ^ 64 - 1 }
        ensures plan { self.new.plan ≡ self.old.plan }
        ensures layout { N.layout notation.new ≡ N.layout notation.old }
        ensures faults { CountsFault (S.faults sink.old) (S.faults sink.new) result }
        ensures ends { (base : Option (List ℕ)) (form : Form)
            → Resumes (N.layout notation.old) (N.has_printed notation.old) form self.old base
            (S.bytes sink.old)
            → Finishes (N.layout notation.old) self.old.plan form self.new base result
            (S.bytes sink.new) }
    {
        self.write_boards(rt, notation, sink, stop)?;
        // Its contract says that no seat has more than thirteen fixed cards: each deal is a
        // partition.
        let _fixed = self.plan.fixed();
        notation.put_footer(self.progress.taken, sink)
    }
}
