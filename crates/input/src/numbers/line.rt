//! A line that is read byte by byte.

ghost use Rattle.std.specs.Prelude.{◌≡◌, ◌+◌, ◌*◌, ◌<◌, ℕ, List, [], ◌∷◌, Err, false, true, nat_lt};
ghost use Rattle.input.specs.declared.numbers.line.NumberPart.TheVariants.{Digits};
ghost use Rattle.input.specs.Scans.{line_from};
ghost use Rattle.input.specs.internal.Lines.{start_of_line};
ghost use Rattle.input.specs.declared.refused_line.LineFault.TheVariants.{NotANumber};

use crate::refused_line::LineFault;
use cards::MAX_CANDIDATES;
use std::marker::Model;

/// The most digits that a number has.
const MOST_DIGITS: u8 = 13;

/// What a line has had so far.
#[derive(Clone, Copy)]
pub enum NumberPart {
    /// Nothing but spaces and tabs.
    Blank,
    /// Digits after them.
    Digits,
    /// Spaces and tabs after those.
    Over,
}

/// A line that is read byte by byte: the number that its digits write, and how many those are.
#[derive(Drop)]
pub struct NumberLine {
    part: NumberPart,
    value: u64,
    digits: u8,
}

impl Model for NumberLine {
    ghost use Rattle.std.specs.Prelude.{◌<◌, ◌≤◌, ◌^◌};
    ghost use Rattle.input.specs.Scans.{LineView};

    ghost Value = { LineView };

    ghost view = { λ l. record { part = l.part; value = l.value; digits = l.digits } };

    ghost invariant = { λ l. record {
      small : l.value < 10 ^ l.digits;
      few : l.digits ≤ 13;
    } };
}

impl NumberLine {
    /// Nothing was read.
    pub fn new() -> NumberLine
        ensures { result ≡ start_of_line }
    {
        NumberLine {
            part: NumberPart::Blank,
            value: 0,
            digits: 0,
        }
    }

    /// Takes a digit after others, if there may be one more.
    fn take_digit(&mut self, digit: u8) -> bool
        requires { digit < 10 }
        ensures taken { result ≡ nat_lt self.old.digits 13 }
        ensures value { result ≡ true → self.new ≡ record {
          part = Digits;
          value = self.old.value * 10 + digit;
          digits = self.old.digits + 1;
        } }
    {
        if self.digits == MOST_DIGITS {
            return false;
        }
        self.part = NumberPart::Digits;
        self.value = self.value * 10 + u64::from(digit);
        self.digits += 1;
        true
    }

    /// Takes the next byte of the line, unless it isn't allowed there.
    pub fn take(&mut self, byte: u8) -> bool
        ensures taken { result ≡ true → (rest : List ℕ)
            → line_from self.old (byte ∷ rest) ≡ line_from self.new rest }
        ensures refused { result ≡ false → (rest : List ℕ)
            → line_from self.old (byte ∷ rest) ≡ Err NotANumber }
    {
        match (self.part, byte) {
            (NumberPart::Blank, b' ' | b'\t') => true,
            (NumberPart::Blank, b'0'..=b'9') => {
                self.part = NumberPart::Digits;
                self.value = u64::from(byte - b'0');
                self.digits = 1;
                true
            }
            (NumberPart::Digits, b'0'..=b'9') => self.take_digit(byte - b'0'),
            (NumberPart::Digits | NumberPart::Over, b' ' | b'\t') => {
                self.part = NumberPart::Over;
                true
            }
            _ => false,
        }
    }

    /// What the line says if it ends here.
    pub fn says(&self) -> Result<Option<u64>, LineFault>
        ensures { result ≡ line_from self.now [] }
    {
        if self.part == NumberPart::Blank {
            return Ok(None);
        }
        if self.value < MAX_CANDIDATES {
            Ok(Some(self.value))
        } else {
            Err(LineFault::NotBelow)
        }
    }
}
