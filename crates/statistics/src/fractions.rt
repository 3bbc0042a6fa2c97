//! Fractions, rounded to a whole number or to some digits, and square roots.

ghost use Rattle.std.specs.Prelude.{◌≡◌, ◌≤◌, ◌<◌, ◌+◌, ◌*◌, ◌%◌, ◌^◌, ◌++◌, length};
ghost use Rattle.boards.specs.declared.buffer.TheConstants.{CAPACITY};
ghost use Rattle.statistics.specs.Fractions.{digits_of};
ghost use Rattle.statistics.specs.Rounded.{fraction, last_digits, rounded, whole_root, with_point};

use crate::numbers::put_commas;
use boards::TextBuffer;

/// How many digits a fraction has after its point.
#[derive(Clone, Copy)]
pub(crate) enum Digits {
    /// Two.
    Two,
    /// Three.
    Three,
}

/// Returns a / b as a whole number, the half up.
pub(crate) fn rounded(a: u128, b: u128) -> u128
    requires divisor { 0 < b }
    requires above { a < 2 ^ 100 }
    requires below { b < 2 ^ 100 }
    ensures { result ≡ rounded a b }
{
    (2 * a + b) / (2 * b)
}

/// Appends a number of hundredths or thousandths: its whole part, a point, and the digits.
pub(crate) fn put_with_point(text: &mut TextBuffer, digits: Digits, number: u64)
    requires { length text.old + 50 ≤ CAPACITY }
    ensures text { text.new ≡ text.old ++ with_point (digits_of digits) number }
    ensures most { length text.new ≤ length text.old + 40 }
{
    match digits {
        Digits::Two => {
            put_commas(text, number / 100);
            text.put(b".");
            put_two(text, number % 100);
        }
        Digits::Three => {
            put_commas(text, number / 1000);
            text.put(b".");
            put_three(text, number % 1000);
        }
    }
}

/// Appends the number's last two digits, zeros included.
fn put_two(text: &mut TextBuffer, number: u64)
    requires { length text.old + 2 ≤ CAPACITY }
    ensures text { text.new ≡ text.old ++ last_digits 2 number }
    ensures len { length text.new ≡ length text.old + 2 }
{
    text.put(&[digit(number / 10), digit(number)]);
}

/// Appends the number's last three digits, zeros included.
fn put_three(text: &mut TextBuffer, number: u64)
    requires { length text.old + 3 ≤ CAPACITY }
    ensures text { text.new ≡ text.old ++ last_digits 3 number }
    ensures len { length text.new ≡ length text.old + 3 }
{
    put_two(text, number / 10);
    text.put(&[digit(number)]);
}

/// Returns the number's last digit.
fn digit(number: u64) -> u8
    ensures { result ≡ 0x30 + number % 10 }
{
    b'0' + (number % 10) as u8
}

/// Appends a / b, rounded to this many digits.
pub(crate) fn put_fraction(text: &mut TextBuffer, digits: Digits, a: u128, b: u128)
    requires divisor { 0 < b }
    requires above { a < 2 ^ 90 }
    requires below { b < 2 ^ 90 }
    requires whole { a ≤ b * 2 ^ 50 }
    requires room { length text.old + 50 ≤ CAPACITY }
    ensures text { text.new ≡ text.old ++ fraction (digits_of digits) a b }
    ensures most { length text.new ≤ length text.old + 40 }
{
    let parts = match digits {
        Digits::Two => 100,
        Digits::Three => 1000,
    };
    put_with_point(text, digits, rounded(parts * a, b) as u64);
}

/// Appends a part of the whole, per cent.
pub(crate) fn put_per_cent(text: &mut TextBuffer, part: u64, whole: u64)
    requires some { 0 < whole }
    requires part { part ≤ whole }
    requires room { length text.old + 50 ≤ CAPACITY }
    ensures text { text.new ≡ text.old ++ fraction 2 (100 * part) whole }
    ensures most { length text.new ≤ length text.old + 40 }
{
    put_fraction(text, Digits::Two, 100 * u128::from(part), u128::from(whole));
}

/// Returns the whole square root: the greatest number whose square is at most `n`.
pub(crate) fn whole_root(n: u128) -> u64
    requires { n < 2 ^ 68 }
    ensures { result ≡ whole_root n }
{
    let mut low = 0;
    let mut high = 1 << 34;
    while low + 1 < high {
        let middle = (low + high) / 2;
        if middle * middle <= n {
            low = middle;
        } else {
            high = middle;
        }
    }
    low as u64
}
