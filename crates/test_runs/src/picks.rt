//! Lines of LIN that were worked out by hand, of two candidates of seed 0, picked by their numbers.

use crate::support::{equals, holds};
use boards::{Captions, Plan};
use input::numbers::{PickFault, pick};
use input::{LineFault, NoBytes, Reader, RefusedLine};
use notations::{AnyPrinter, Format};
use sinks::{Fuse, MemSink};
use std::alloc::{AllocError, AllocGlobal};
use std::io::{Error, ErrorKind, Read, Result};
use std::process::Abort;
use std::test::Fail;

const FIRST: &[u8] = b"qx|o1|md|3SQJ43HQ732DQT3CK9,ST6HKJ9DKJ9842CJ3,S72HAT64D75CAT872,\
    SAK985H85DA6CQ654|sv|o|ah|Board 1|pg||\n";

const BOTH: &[u8] = b"qx|o1|md|3SQJ43HQ732DQT3CK9,ST6HKJ9DKJ9842CJ3,S72HAT64D75CAT872,\
    SAK985H85DA6CQ654|sv|o|ah|Board 1|pg||\n\
    qx|o2|md|4SJT2HAJTDT964CK95,S9H87632DAK872C87,SAQ764HKQDCQJT643,\
    SK853H954DQJ53CA2|sv|n|ah|Board 2|pg||\n";

/// An input that gives a byte at a time, is interrupted before each, and may fail at its end.
#[derive(Drop)]
struct Drops<'a> {
    rest: &'a [u8],
    interrupted: bool,
    fails: bool,
}

impl Read for Drops<'_> {
    fn read(&mut self, piece: &mut [u8]) -> Result<usize> {
        self.interrupted = !self.interrupted;
        if self.interrupted {
            return Err(Error::from(ErrorKind::Interrupted));
        }
        if self.rest.is_empty() && self.fails {
            return Err(Error::from(ErrorKind::IsADirectory));
        }
        if self.rest.is_empty() || piece.is_empty() {
            return Ok(0);
        }
        piece[0] = self.rest[0];
        self.rest = &self.rest[1..];
        Ok(1)
    }
}

/// Aborts unless picking from this reader ends so and writes this text.
fn check<R: Read + Drop>(
    rt: &(impl Abort + AllocGlobal),
    reader: R,
    ends: std::result::Result<u64, PickFault>,
    text: &[u8],
) -> std::result::Result<(), Fail> {
    let plan = Plan::new(0, 0, 0, 1, 64)?;
    let mut printer = AnyPrinter::new(rt.alloc(), Format::Lin, &Captions::none())?;
    let mut input = Reader::new(reader);
    let mut sink = MemSink::new(rt.alloc());
    let ended = pick(&plan, &mut printer, &mut input, &mut sink);
    equals(rt, &ended, &ends);
    equals(rt, &sink.bytes(), &text);
    Ok(())
}

/// The input's third line isn't a number.
const THIRD: PickFault = PickFault::Refused(RefusedLine {
    line: 3,
    fault: LineFault::NotANumber,
});

/// The numbers of both candidates, a byte at a time.
fn dropping(fails: bool) -> Drops<'static> {
    Drops {
        rest: b"0\n1",
        interrupted: false,
        fails,
    }
}

/// Each end of the input, and the boards before it.
#[test]
fn picks_to_the_end(rt: HostRuntime) -> std::result::Result<(), Fail> {
    check(&rt, b"0\r\n\n 1".as_slice(), Ok(2), BOTH)?;
    check(&rt, b"".as_slice(), Ok(0), b"")?;
    check(&rt, b"0\n\none\n1\n".as_slice(), Err(THIRD), FIRST)?;
    check(&rt, dropping(false), Ok(2), BOTH)?;
    check(&rt, dropping(true), Err(PickFault::Input), FIRST)?;
    Ok(())
}

#[test]
fn picks_nothing_and_into_an_output_that_fails(rt: HostRuntime) -> std::result::Result<(), Fail> {
    let plan = Plan::new(0, 0, 0, 1, 64)?;
    picks_nothing(&rt, &plan)?;
    picks_until_the_output_fails(&rt, &plan)?;
    Ok(())
}

fn picks_nothing(
    rt: &(impl Abort + AllocGlobal),
    plan: &Plan,
) -> std::result::Result<(), AllocError> {
    let mut printer = AnyPrinter::new(rt.alloc(), Format::Lin, &Captions::none())?;
    let mut sink = MemSink::new(rt.alloc());
    let ended = pick(plan, &mut printer, &mut NoBytes, &mut sink);
    equals(rt, &ended, &Ok(0));
    holds(rt, "nothing written", sink.bytes().is_empty());
    Ok(())
}

fn picks_until_the_output_fails(
    rt: &(impl Abort + AllocGlobal),
    plan: &Plan,
) -> std::result::Result<(), AllocError> {
    let mut printer = AnyPrinter::new(rt.alloc(), Format::Lin, &Captions::none())?;
    let mut sink = Fuse::new(MemSink::new(rt.alloc()), 2, 1000, true);
    let mut input = Reader::new(b"0\n1\n".as_slice());
    let ended = pick(plan, &mut printer, &mut input, &mut sink);
    equals(rt, &ended, &Err(PickFault::Output));
    equals(rt, &sink.bytes(), &FIRST);
    Ok(())
}
