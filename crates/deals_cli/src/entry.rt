//! The program over its words and two sinks.

ghost use Rattle.std.specs.Prelude.{◌≡◌, ◌≢◌, ◌⊎◌, ◌+◌, ◌-◌, ◌^◌, ◌<◌, ◌≤◌, ◌==◌};
ghost use Rattle.std.specs.Prelude.{None, Some, if◌then◌else◌, map, string_bytes};
ghost use Rattle.command_line.specs.CommandLine.{asked};
ghost use Rattle.deals_cli.specs.Program.{Answers, HasReport, IsFlushedAfter, IsStatusFor};
ghost use Rattle.deals_cli.specs.Program.{TellsUnasked, TellsWhy, TellsWhyFrom};
ghost use Rattle.deals_cli.specs.Program.{WantsBytes, WantsInput};
ghost use Rattle.jobs.specs.Failures.{CountsInput, faults_in, status_in};
ghost use Rattle.requests.specs.Requests.{Wish};
ghost use Rattle.jobs.specs.Statuses.{IsStatus, IsStatusWithInput};
ghost use Rattle.deals_cli.specs.Wishes.{Appends, AppendsFrom};

use crate::ending::conclude;
use crate::task::{perform, prepare};
use boards::Report;
use command_line::read_words;
use input::{NoBytes, Source};
use jobs::Failure;
use sinks::Sink;
use std::alloc::Global;
use std::sync::Wait;
use std::thread::Threads;

/// Does what the words ask for. `pick`, `show`, `seed` and `make --tricks` alone read the input.
fn answer<R: Threads + Wait + Clone + Send + 'static, I: Source, O: Sink>(
    rt: &R,
    alloc: Global,
    words: &[String],
    input: &mut I,
    out: &mut O,
) -> Result<Option<Report>, Failure>
    requires output { O.faults out.old < 2 ^ 64 - 1 }
    requires input { I.faults input.old < 2 ^ 64 - 1 }
    ensures answers { Answers (map string_bytes words.now) result
        (I.rest input.old) (I.rest input.new) (O.bytes out.old) (O.bytes out.new) }
    ensures faults { O.faults out.new ≡ O.faults out.old + faults_in result }
    ensures input { CountsInput result (I.faults input.old) (I.faults input.new) }
    ensures unread { (WantsInput (map string_bytes words.now) → ⊥)
        → (I.rest input.new ≡ I.rest input.old) × (I.faults input.new ≡ I.faults input.old) }
    ensures flushed { IsFlushedAfter (status_in result) (O.is_flushed out.new) }
{
    let read = read_words(alloc, words);
    match prepare(alloc, words, &read) {
        Ok(task) => perform(rt, alloc, task, input, out),
        Err(failure) => Err(failure),
    }
}

/// Runs the program over an input, and returns its exit status. `pick`, `show`, `seed` and
/// `make --tricks` alone read the input.
///
/// The statuses are those of `program`, and one more. 7: a line of the input is refused, the input
/// couldn't be read, or it ended before the four bytes of a seed; what is on `out` is flushed. It
/// may wait for its workers and its input.
pub fn program_with_input<R: Threads + Wait + Clone + Send + 'static, I: Source, O: Sink, E: Sink>(
    rt: &R,
    alloc: Global,
    words: &[String],
    input: &mut I,
    out: &mut O,
    err: &mut E,
) -> u8
    requires input { I.faults input.old < 2 ^ 64 - 1 }
    requires out { O.faults out.old < 2 ^ 64 - 1 }
    requires err { E.faults err.old < 2 ^ 64 - 1 }
    // What the words ask for was written, if the status is 0.
    ensures text { (w : Wish) → asked (map string_bytes words.now) ≡ Some w → result ≡ 0
        → AppendsFrom w (I.rest input.old) (I.rest input.new)
        (O.bytes out.old) (O.bytes out.new) }
    // The status says what of it was accepted, and what refused; for words that ask for nothing,
    // whether they ask for help, or are refused.
    ensures asked { IsStatusFor (map string_bytes words.now) result }
    // If it isn't 0, it is the status of the first failure that is due: the output has what that
    // leaves, the input failed once if that says so, and may have before the output did, and the
    // error output has its line, unless it failed itself.
    ensures told { (w : Wish) → asked (map string_bytes words.now) ≡ Some w → result ≢ 0
        → TellsWhyFrom w result (I.rest input.old) (I.rest input.new)
        (I.faults input.old) (I.faults input.new) (O.bytes out.old) (O.bytes out.new)
        (E.faults err.new ≡ E.faults err.old) (E.bytes err.old) (E.bytes err.new) }
    // For words that ask for nothing it is clap's refusal, memory that ran out or the output's
    // failure, and that is said.
    ensures told_unasked { asked (map string_bytes words.now) ≡ None → result ≢ 0
        → TellsUnasked result (E.faults err.new ≡ E.faults err.old)
        (E.bytes err.old) (E.bytes err.new) }
    // There are seven statuses.
    ensures status { IsStatusWithInput result }
    // Nothing was written if something is refused or memory ran out.
    ensures untouched { (result ≡ 2) ⊎ (result ≡ 3) ⊎ (result ≡ 5)
        → O.bytes out.new ≡ O.bytes out.old }
    // The status is 4 if and only if the output failed, once.
    ensures output { O.faults out.new ≡ O.faults out.old + (if result == 4 then 1 else 0) }
    // The input failed with status 7 alone, or before the output did; only words that want it have
    // it read.
    ensures input { result ≢ 4 → result ≢ 7 → I.faults input.new ≡ I.faults input.old }
    ensures unread { (WantsInput (map string_bytes words.now) → ⊥)
        → (I.rest input.new ≡ I.rest input.old) × (I.faults input.new ≡ I.faults input.old) }
    // With status 0 or 7 all that was written is passed on.
    ensures flushed { IsFlushedAfter result (O.is_flushed out.new) }
    // With status 0 a report that was asked for is on the error output, unless that failed itself,
    // and else nothing.
    ensures report { result ≡ 0 → HasReport (map string_bytes words.now)
        (E.faults err.new ≡ E.faults err.old) (E.bytes err.old) (E.bytes err.new) }
    // A fault of the error output is at most one, and ends nothing.
    ensures said { (E.faults err.old ≤ E.faults err.new)
        × (E.faults err.new ≤ E.faults err.old + 1) }
{
    let ended = answer(rt, alloc, words, input, out);
    conclude(&ended, err)
}

/// Runs the program, and returns its exit status. The first word is the program's name.
///
/// 0: done, or help or the version was asked for, whose text is on `out`; 2: the command line, the
/// plan, a label or a hand is refused; 3: definitions, the condition or a question are refused; 4:
/// the output failed; 5: out of memory; 6: a thread couldn't be started, or a worker stopped or
/// wasn't closed. What went wrong is said on `err`, in one line but for clap's texts, and a report
/// if that is asked for; faults of `err` are ignored. It may wait for its workers.
///
/// There is no input: a `seed`, and a `make --tricks` that has boards, end with 7, unless something
/// else ends them.
pub fn program<R: Threads + Wait + Clone + Send + 'static, O: Sink, E: Sink>(
    rt: &R,
    alloc: Global,
    words: &[String],
    out: &mut O,
    err: &mut E,
) -> u8
    requires out { O.faults out.old < 2 ^ 64 - 1 }
    requires err { E.faults err.old < 2 ^ 64 - 1 }
    // What the words ask for was written, if the status is 0.
    ensures text { (w : Wish) → asked (map string_bytes words.now) ≡ Some w → result ≡ 0
        → Appends w (O.bytes out.old) (O.bytes out.new) }
    // The status says what of it was accepted, and what refused; for words that ask for nothing,
    // whether they ask for help, or are refused.
    ensures asked { IsStatusFor (map string_bytes words.now) result }
    // If it isn't 0, it is the status of the first failure that is due: the output has what that
    // leaves, and the error output its line, unless it failed itself.
    ensures told { (w : Wish) → asked (map string_bytes words.now) ≡ Some w → result ≢ 0
        → TellsWhy w result (O.bytes out.old) (O.bytes out.new)
        (E.faults err.new ≡ E.faults err.old) (E.bytes err.old) (E.bytes err.new) }
    // For words that ask for nothing it is clap's refusal, memory that ran out or the output's
    // failure, and that is said.
    ensures told_unasked { asked (map string_bytes words.now) ≡ None → result ≢ 0
        → TellsUnasked result (E.faults err.new ≡ E.faults err.old)
        (E.bytes err.old) (E.bytes err.new) }
    // There are six statuses. Words that ask for a seed, or for boards with tricks, have one more:
    // 7, that there is no input.
    ensures status { (WantsBytes (map string_bytes words.now) → ⊥) → IsStatus result }
    ensures statuses { IsStatusWithInput result }
    // Nothing was written if something is refused or memory ran out.
    ensures untouched { (result ≡ 2) ⊎ (result ≡ 3) ⊎ (result ≡ 5)
        → O.bytes out.new ≡ O.bytes out.old }
    // The status is 4 if and only if the output failed, once.
    ensures output { O.faults out.new ≡ O.faults out.old + (if result == 4 then 1 else 0) }
    // With status 0 or 7 all that was written is passed on.
    ensures flushed { IsFlushedAfter result (O.is_flushed out.new) }
    // With status 0 a report that was asked for is on the error output, unless that failed itself,
    // and else nothing.
    ensures report { result ≡ 0 → HasReport (map string_bytes words.now)
        (E.faults err.new ≡ E.faults err.old) (E.bytes err.old) (E.bytes err.new) }
    // A fault of the error output is at most one, and ends nothing.
    ensures said { (E.faults err.old ≤ E.faults err.new)
        × (E.faults err.new ≤ E.faults err.old + 1) }
{
    program_with_input(rt, alloc, words, &mut NoBytes, out, err)
}
