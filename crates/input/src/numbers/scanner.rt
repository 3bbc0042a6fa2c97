//! A text of numbers that is read byte by byte.

ghost use Rattle.std.specs.Prelude.{◌≡◌, ◌≢◌, ◌+◌, ◌-◌, ◌<◌, ◌≤◌, ◌^◌, ◌++◌, ◌∷◌, [], ℕ, List};
ghost use Rattle.std.specs.Prelude.{false, None, Some, IfErr, IfOk, IfSome, length};
ghost use Rattle.input.specs.NumberTexts.{Said, said, with_line};
ghost use Rattle.input.specs.Scans.{HasScanned, after, line_from, list_of, said_from};
ghost use Rattle.input.specs.internal.Lines.{start_of_line};

use crate::numbers::line::NumberLine;
use crate::refused_line::{LineFault, RefusedLine};
use cards::MAX_CANDIDATES;
use std::marker::Model;

/// The most numbers that are read.
const MOST_NUMBERS: u64 = MAX_CANDIDATES;

/// Reads a text of numbers byte by byte: it keeps what the line has had so far, and how many lines
/// and numbers there were.
#[derive(Drop)]
pub struct NumberScanner {
    line: NumberLine,
    after_cr: bool,
    lines: u64,
    numbers: u64,
}

impl Model for NumberScanner {
    ghost use Rattle.std.specs.Prelude.{◌≤◌, ◌^◌};
    ghost use Rattle.input.specs.Scans.{ScannerView};

    ghost Value = { ScannerView };

    ghost view = { λ s. record {
      line = s.line;
      after_cr = s.after_cr;
      lines = s.lines;
      numbers = s.numbers;
    } };

    ghost invariant = { λ s. s.numbers ≤ 2 ^ 40 };
}

impl NumberScanner {
    /// Nothing was read.
    pub fn new() -> NumberScanner
        ensures scanned { HasScanned result [] [] }
        ensures lines { result.lines ≡ 0 }
    {
        NumberScanner {
            line: NumberLine::new(),
            after_cr: false,
            lines: 0,
            numbers: 0,
        }
    }

    /// How many numbers there were.
    pub fn numbers(&self) -> u64
        ensures value { result ≡ self.now.numbers }
        ensures range { result ≤ 2 ^ 40 }
    {
        self.numbers
    }

    /// The line that is refused so.
    fn refused(&self, fault: LineFault) -> RefusedLine
        requires { self.now.lines < 2 ^ 64 - 1 }
        ensures { result ≡ record { line = self.now.lines + 1; fault = fault } }
    {
        RefusedLine {
            line: self.lines + 1,
            fault,
        }
    }

    /// What the line says if it ends here.
    fn line_says(&self) -> Result<Option<u64>, RefusedLine>
        requires { self.now.lines < 2 ^ 64 - 1 }
        ensures said { IfOk result (λ n. (later : ℕ → Said)
            → with_line self.now.lines self.now.numbers (line_from self.now.line []) later
            ≡ after (list_of n) (later (self.now.numbers + length (list_of n)))) }
        ensures room { IfOk result (λ n. IfSome n (λ k. (k < 2 ^ 40)
            × (self.now.numbers < 2 ^ 40))) }
        ensures refused { IfErr result (λ e. (later : ℕ → Said)
            → with_line self.now.lines self.now.numbers (line_from self.now.line []) later
            ≡ record { numbers = []; refused = Some e }) }
    {
        match self.line.says() {
            Ok(None) => Ok(None),
            Ok(Some(_)) if self.numbers == MOST_NUMBERS => Err(self.refused(LineFault::TooMany)),
            Ok(Some(number)) => Ok(Some(number)),
            Err(fault) => Err(self.refused(fault)),
        }
    }

    /// Takes the end of a line.
    fn end_line(&mut self) -> Result<Option<u64>, RefusedLine>
        requires { self.old.lines < 2 ^ 64 - 1 }
        ensures said { IfOk result (λ n. (rest : List ℕ)
            → said_from self.old (10 ∷ rest) ≡ after (list_of n) (said_from self.new rest)) }
        ensures counts { IfOk result (λ n. self.new ≡ record {
          line = start_of_line;
          after_cr = false;
          lines = self.old.lines + 1;
          numbers = self.old.numbers + length (list_of n);
        }) }
        ensures below { IfOk result (λ n. IfSome n (λ k. k < 2 ^ 40)) }
        ensures refused { IfErr result (λ e. (rest : List ℕ)
            → said_from self.old (10 ∷ rest) ≡ record { numbers = []; refused = Some e }) }
    {
        let number = self.line_says()?;
        self.line = NumberLine::new();
        self.after_cr = false;
        self.lines += 1;
        if number.is_some() {
            self.numbers += 1;
        }
        Ok(number)
    }

    /// Takes the next byte of a line.
    fn go_on(&mut self, byte: u8) -> Result<(), RefusedLine>
        requires lines { self.old.lines < 2 ^ 64 - 1 }
        requires within { byte ≢ 10 }
        ensures said { IfOk result (λ _. (rest : List ℕ)
            → said_from self.old (byte ∷ rest) ≡ said_from self.new rest) }
        ensures counts { IfOk result (λ _. (self.new.lines ≡ self.old.lines)
            × (self.new.numbers ≡ self.old.numbers)) }
        ensures refused { IfErr result (λ e. (rest : List ℕ)
            → said_from self.old (byte ∷ rest) ≡ record { numbers = []; refused = Some e }) }
    {
        if self.after_cr {
            return Err(self.refused(LineFault::NotANumber));
        }
        if byte == b'\r' {
            self.after_cr = true;
            return Ok(());
        }
        if self.line.take(byte) {
            Ok(())
        } else {
            Err(self.refused(LineFault::NotANumber))
        }
    }

    /// Takes the next byte of the text, and returns the number of the line that it ends, if it ends
    /// one that has a number.
    ///
    /// # Errors
    ///
    /// The line, if it is refused, whatever comes after.
    pub fn take(&mut self, byte: u8) -> Result<Option<u64>, RefusedLine>
        requires { self.old.lines < 2 ^ 64 - 1 }
        ensures scanned { (text numbers : List ℕ) → HasScanned self.old text numbers
            → IfOk result (λ n.
            HasScanned self.new (text ++ byte ∷ []) (numbers ++ list_of n)) }
        ensures below { IfOk result (λ n. IfSome n (λ k. k < 2 ^ 40)) }
        ensures lines { IfOk result (λ _. self.new.lines ≤ self.old.lines + 1) }
        ensures refused { (text numbers : List ℕ) → HasScanned self.old text numbers
            → IfErr result (λ e. (rest : List ℕ) → said (text ++ byte ∷ rest)
            ≡ record { numbers = numbers; refused = Some e }) }
    {
        if byte == b'\n' {
            return self.end_line();
        }
        self.go_on(byte)?;
        Ok(None)
    }

    /// What the last line says, where the text ends here.
    ///
    /// # Errors
    ///
    /// The line, if it is refused.
    pub fn finish(&self) -> Result<Option<u64>, RefusedLine>
        requires { self.now.lines < 2 ^ 64 - 1 }
        ensures said { (text numbers : List ℕ) → HasScanned self.now text numbers
            → IfOk result (λ n.
            said text ≡ record { numbers = numbers ++ list_of n; refused = None }) }
        ensures below { IfOk result (λ n. IfSome n (λ k. k < 2 ^ 40)) }
        ensures refused { (text numbers : List ℕ) → HasScanned self.now text numbers
            → IfErr result (λ e. said text ≡ record { numbers = numbers; refused = Some e }) }
    {
        if self.after_cr {
            return Err(self.refused(LineFault::NotANumber));
        }
        self.line_says()
    }
}
