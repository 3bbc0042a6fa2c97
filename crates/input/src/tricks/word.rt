//! The number before a line, and what comes after it.

ghost use Rattle.std.specs.Prelude.{◌≡◌, ◌<◌, ◌^◌, IfOk, IfSome, false, position};
ghost use Rattle.input.specs.NumberTexts.{has_lf, is_blank, line_says};
ghost use Rattle.input.specs.TricksPicked.{behind_word, first_word};

use crate::blank::is_blank;
use crate::numbers::NumberScanner;
use crate::refused_line::LineFault;

/// Returns where the first blank is.
fn first_blank(line: &[u8]) -> Option<usize>
    ensures { result ≡ position is_blank line.now }
{
    line.iter().position(|byte| is_blank(*byte))
}

/// Returns what is before the first blank, and what comes after it.
pub(crate) fn split_word(line: &[u8]) -> (&[u8], &[u8])
    ensures word { result.0.now ≡ first_word line.now }
    ensures behind { result.1.now ≡ behind_word line.now }
{
    match first_blank(line) {
        Some(end) => (&line[..end], &line[end + 1..]),
        None => (line, &line[line.len()..]),
    }
}

/// Returns the number that the word is, if it isn't empty, as `pick` reads it.
pub(crate) fn number_in(word: &[u8]) -> Result<Option<u64>, LineFault>
    requires { has_lf word.now ≡ false }
    ensures says { result ≡ line_says word.now }
    ensures below { IfOk result (λ n. IfSome n (λ k. k < 2 ^ 40)) }
{
    let mut scanner = NumberScanner::new();
    for byte in word {
        match scanner.take(*byte) {
            Ok(_) => {}
            Err(refused) => return Err(refused.fault),
        }
    }
    match scanner.finish() {
        Ok(number) => Ok(number),
        Err(refused) => Err(refused.fault),
    }
}
