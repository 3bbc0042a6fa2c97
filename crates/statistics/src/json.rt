//! JSON: strings, and the items of arrays.

ghost use Rattle.std.specs.Prelude.{◌≡◌, ◌≤◌, ◌<◌, ◌+◌, ◌-◌, ◌^◌, ◌||◌, ◌++◌, IfOk, decimal, length};
ghost use Rattle.boards.specs.declared.buffer.TheConstants.{CAPACITY};
ghost use Rattle.sinks.specs.Sinks.{AppendsOrBreaksOff, CountsFault};
ghost use Rattle.statistics.specs.Json.{hex_digit, json_pair, json_value, plain_byte};
ghost use Rattle.statistics.specs.Json.{string_byte, string_of};
ghost use Rattle.statistics.specs.internal.Items.{after, has_some};

use boards::TextBuffer;
use itoa::Buffer;
use sinks::{Sink, SinkFault, put_all};
use std::alloc::{AllocError, Global};

/// Returns the text as a string.
///
/// # Errors
/// `AllocError` if the allocation of the string failed.
pub(crate) fn string_of(alloc: Global, text: &[u8]) -> Result<Vec<u8>, AllocError>
    ensures { IfOk result (λ s. s.items ≡ string_of text.now) }
{
    let mut string = Vec::from_slice(alloc, b"\"")?;
    for byte in text {
        string.extend_from_slice(string_byte(*byte).as_bytes())?;
    }
    string.extend_from_slice(b"\"")?;
    Ok(string)
}

/// A byte in a string: quotes, backslashes and control characters are escaped.
#[tactic(auto, unfolding(crate::specs::Json::string_byte))]
fn string_byte(byte: u8) -> TextBuffer
    ensures { result ≡ string_byte byte }
{
    let mut text = TextBuffer::new();
    match byte {
        b'"' => text.put(b"\\\""),
        b'\\' => text.put(b"\\\\"),
        0x08 => text.put(b"\\b"),
        0x09 => text.put(b"\\t"),
        0x0A => text.put(b"\\n"),
        0x0C => text.put(b"\\f"),
        0x0D => text.put(b"\\r"),
        _ => put_plain_byte(&mut text, byte),
    }
    text
}

/// Appends a byte that no letter stands for: a control character as four digits.
fn put_plain_byte(text: &mut TextBuffer, byte: u8)
    requires { length text.old + 6 ≤ CAPACITY }
    ensures { text.new ≡ text.old ++ plain_byte byte }
{
    if byte < 0x20 {
        text.put(b"\\u00");
        text.put(&[hex_digit(byte / 16), hex_digit(byte % 16)]);
    } else {
        text.put(&[byte]);
    }
}

/// 0 to 9 and a to f.
fn hex_digit(number: u8) -> u8
    requires { number < 16 }
    ensures { result ≡ hex_digit number }
{
    if number < 10 {
        0x30 + number
    } else {
        0x57 + number
    }
}

/// The item of a number, if it came.
#[tactic(auto, unfolding(crate::specs::Json::json_value))]
pub(crate) fn json_value(number: u32, count: u64) -> TextBuffer
    ensures { result ≡ json_value number count }
{
    let mut text = TextBuffer::new();
    if count > 0 {
        text.put(b",[");
        text.put_number(u64::from(number));
        text.put(b",");
        text.put_number(count);
        text.put(b"]");
    }
    text
}

/// The item of a pair of numbers, if it came.
#[tactic(auto, unfolding(crate::specs::Json::json_pair))]
pub(crate) fn json_pair(row: u32, column: u32, count: u64) -> TextBuffer
    ensures { result ≡ json_pair row column count }
{
    let mut text = TextBuffer::new();
    if count > 0 {
        text.put(b",[");
        text.put_number(u64::from(row));
        text.put(b",");
        text.put_number(u64::from(column));
        text.put(b",");
        text.put_number(count);
        text.put(b"]");
    }
    text
}

/// Appends a member: its name, as it is written, and a number.
pub(crate) fn put_member(text: &mut TextBuffer, name: &[u8], number: u128)
    requires name { length name.now ≤ 100 }
    requires room { length text.old + 200 ≤ CAPACITY }
    ensures text { text.new ≡ text.old ++ (name.now ++ decimal number) }
    ensures most { length text.new ≤ length text.old + 140 }
{
    let mut digits = Buffer::new();
    text.put(name);
    text.put(digits.format(number).as_bytes());
}

/// Writes an item of an array, which begins with a comma: without it, unless another item is before
/// it. Returns whether some item was written by then. An empty text isn't an item.
///
/// # Errors
/// `SinkFault` if the sink failed: a proper prefix of the item was written.
pub(crate) fn put_item<S: Sink>(
    sink: &mut S,
    any: bool,
    item: &TextBuffer,
) -> Result<bool, SinkFault>
    requires { S.faults sink.old < 2 ^ 64 - 1 }
    ensures any { IfOk result (λ b. b ≡ any || has_some item.now) }
    ensures bytes { AppendsOrBreaksOff (S.bytes sink.old) (S.bytes sink.new) result
        (after any item.now) }
    ensures faults { CountsFault (S.faults sink.old) (S.faults sink.new) result }
{
    let bytes = item.as_bytes();
    if any || bytes.is_empty() {
        put_all(sink, bytes)?;
        Ok(any)
    } else {
        put_all(sink, &bytes[1..])?;
        Ok(true)
    }
}

/// Writes the text between two others.
///
/// # Errors
/// `SinkFault` if the sink failed: a proper prefix of the three was written.
pub(crate) fn put_between<S: Sink>(
    sink: &mut S,
    before: &[u8],
    text: &[u8],
    last: &[u8],
) -> Result<(), SinkFault>
    requires { S.faults sink.old < 2 ^ 64 - 1 }
    ensures bytes { AppendsOrBreaksOff (S.bytes sink.old) (S.bytes sink.new) result
        (before.now ++ text.now ++ last.now) }
    ensures faults { CountsFault (S.faults sink.old) (S.faults sink.new) result }
{
    put_all(sink, before)?;
    put_all(sink, text)?;
    put_all(sink, last)
}
