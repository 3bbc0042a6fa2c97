//! Lines of tricks, and what they tell.

use crate::support::same;
use boards::Tricks;
use input::{NoBytes, Reader, read_four};

const DIGITS: &[u8] = b"97b8997b892624426244";

/// A line, and its digits, score and contract.
type Line = (&'static [u8], &'static [u8], &'static [u8], &'static [u8]);

const LINES: [Line; 9] = [
    (b"-", b"", b"", b""),
    (b"97b8997b892624426244", DIGITS, b"", b""),
    (b"97B8997B892624426244", DIGITS, b"", b""),
    (b"0123456789abcdABCD00", b"0123456789abcdabcd00", b"", b""),
    (b"97b8997b892624426244 NS 450", DIGITS, b"NS 450", b""),
    (b"97b8997b892624426244 EW 0", DIGITS, b"EW 0", b""),
    (b"97b8997b892624426244 EW 7600", DIGITS, b"EW 7600", b""),
    (
        b"97b8997b892624426244 NS 450 4H-NS+1",
        DIGITS,
        b"NS 450",
        b"4H-NS+1",
    ),
    (
        b"97b8997b892624426244 NS 450 3N*=,4s/EW-1+2345678910",
        DIGITS,
        b"NS 450",
        b"3N*=,4s/EW-1+2345678910",
    ),
];

/// Texts that are no line of tricks.
const MALFORMED: [&[u8]; 13] = [
    b"",
    b" ",
    b"--",
    b"- ",
    b"97b8997b89262442624",
    b"97b8997b8926244262444",
    b"97e8997b892624426244",
    b"97b8997b892624426244 ",
    b"97b8997b892624426244 NS",
    b"97b8997b892624426244 SN 450",
    b"97b8997b892624426244 NS 14500",
    b"97b8997b892624426244 NS  450",
    b"97b8997b892624426244 NS 450 4H NS",
];

#[test]
fn lines_tell_tricks(rt: HostRuntime) {
    for (line, digits, score, contract) in LINES {
        let Some(tricks) = Tricks::read(line) else {
            return same(&rt, line.len(), 0);
        };
        same(&rt, tricks.digits(), digits);
        same(&rt, tricks.score(), score);
        same(&rt, tricks.contract(), contract);
    }
}

#[test]
fn malformed_lines_tell_none(rt: HostRuntime) {
    for line in MALFORMED {
        same(&rt, Tricks::read(line).is_some(), false);
    }
}

#[test]
fn four_bytes_are_read(rt: HostRuntime) {
    same(
        &rt,
        read_four(&mut Reader::new(b"\x01\x02\x03\x04\x05".as_slice())),
        Ok([1, 2, 3, 4]),
    );
    same(
        &rt,
        read_four(&mut Reader::new(b"\x01\x02\x03".as_slice())).is_err(),
        true,
    );
    same(&rt, read_four(&mut NoBytes).is_err(), true);
}
