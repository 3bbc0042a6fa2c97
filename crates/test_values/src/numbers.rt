//! Texts of numbers, and what they say.

use crate::support::same;
use input::numbers::NumberScanner;
use input::{LineFault, NoBytes, Reader, RefusedLine, Source, SourceFault};
use std::alloc::{AllocError, Global};
use std::io::{self, Error, ErrorKind, Read};
use std::process::Abort;
use std::test::Fail;

/// The numbers of a text, and the line that is refused.
fn scan(alloc: Global, text: &[u8]) -> Result<(Vec<u64>, Option<RefusedLine>), AllocError> {
    let mut scanner = NumberScanner::new();
    let mut numbers = Vec::new(alloc);
    for byte in text {
        match scanner.take(*byte) {
            Ok(Some(number)) => numbers.push(number)?,
            Ok(None) => {}
            Err(refused) => return Ok((numbers, Some(refused))),
        }
    }
    match scanner.finish() {
        Ok(Some(number)) => numbers.push(number)?,
        Ok(None) => {}
        Err(refused) => return Ok((numbers, Some(refused))),
    }
    Ok((numbers, None))
}

const NO_NUMBER: LineFault = LineFault::NotANumber;

const TOO_LARGE: LineFault = LineFault::NotBelow;

/// A text, its numbers, and the line that is refused with what is wrong with it.
type Text = (&'static [u8], &'static [u64], Option<(u64, LineFault)>);

const TEXTS: [Text; 18] = [
    (b"2\n0\n2\n", &[2, 0, 2], None),
    (b" 2\t\r\n\r\n\n0\r\n2", &[2, 0, 2], None),
    (b"", &[], None),
    (b" \t \r\n\t", &[], None),
    (
        b"0000000000001\n1099511627775 ",
        &[1, 1_099_511_627_775],
        None,
    ),
    (b"1\n2\nthree\n4\n", &[1, 2], Some((3, NO_NUMBER))),
    (b"1\n\n10995116277760\n", &[1], Some((3, NO_NUMBER))),
    (b"1\n00000000000001", &[1], Some((2, NO_NUMBER))),
    (b"1\n-2\n", &[1], Some((2, NO_NUMBER))),
    (b"1\n2\0\n", &[1], Some((2, NO_NUMBER))),
    (b"1\r2\n", &[], Some((1, NO_NUMBER))),
    (b"1\n2\r", &[1], Some((2, NO_NUMBER))),
    (b"1\r\r\n", &[], Some((1, NO_NUMBER))),
    (b"1 2\n", &[], Some((1, NO_NUMBER))),
    (b"1\x0c\n", &[], Some((1, NO_NUMBER))),
    (b"1\n\n1099511627776\n", &[1], Some((3, TOO_LARGE))),
    (b"9999999999999", &[], Some((1, TOO_LARGE))),
    (b"1099511627776 x", &[], Some((1, NO_NUMBER))),
];

#[test]
fn texts_say_numbers(rt: HostRuntime) {
    for (text, numbers, refused) in TEXTS.iter() {
        says(&rt, rt.alloc(), text, numbers, *refused);
    }
}

#[test]
fn a_line_may_be_long(rt: HostRuntime) -> Result<(), Fail> {
    let mut text = vec![in rt.alloc(); b' '; 1 << 20]?;
    text.extend_from_slice(b"7\n8\n\n99999999999999")?;
    let refused = Some((4, NO_NUMBER));
    says(&rt, rt.alloc(), text.as_slice(), &[7, 8], refused);
    Ok(())
}

/// The text says these numbers before the line that is refused.
fn says(
    rt: &impl Abort,
    alloc: Global,
    text: &[u8],
    numbers: &[u64],
    refused: Option<(u64, LineFault)>,
) {
    let (found, end) = scan(alloc, text).expect(rt, "memory");
    same(rt, found.as_slice(), numbers);
    same(rt, end.map(|end| (end.line, end.fault)), refused);
}

/// A reader that is interrupted once, gives a byte, and then fails.
#[derive(Drop)]
struct Broken {
    calls: u8,
}

impl Read for Broken {
    fn read(&mut self, piece: &mut [u8]) -> io::Result<usize> {
        self.calls = self.calls.saturating_add(1);
        if self.calls == 2 && !piece.is_empty() {
            piece[0] = b'7';
            return Ok(1);
        }
        if self.calls == 1 {
            return Err(Error::from(ErrorKind::Interrupted));
        }
        Err(Error::from(ErrorKind::IsADirectory))
    }
}

#[test]
fn a_source_gives_what_its_reader_has(rt: HostRuntime) {
    let mut source = Reader::new(b"12\n".as_slice());
    let mut piece = [0u8; 2];
    same(&rt, (source.read(&mut piece), piece), (Ok(2), *b"12"));
    same(&rt, (source.read(&mut piece), piece[0]), (Ok(1), b'\n'));
    same(&rt, source.read(&mut piece), Ok(0));
    same(&rt, NoBytes.read(&mut piece), Ok(0));
}

#[test]
fn a_source_fails_with_its_reader(rt: HostRuntime) {
    let mut broken = Reader::new(Broken { calls: 0 });
    let mut piece = [0u8; 2];
    same(&rt, (broken.read(&mut piece), piece[0]), (Ok(1), b'7'));
    same(&rt, broken.read(&mut piece), Err(SourceFault));
    same(&rt, broken.read(&mut piece), Err(SourceFault));
}
