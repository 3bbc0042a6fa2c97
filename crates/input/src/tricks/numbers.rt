//! The numbers of a text.

ghost use Rattle.std.specs.Prelude.{◌≡◌, ◌++◌, IfOk};
ghost use Rattle.input.specs.NumberTexts.{said};
ghost use Rattle.input.specs.Scans.{list_of};

use crate::numbers::NumberScanner;
use std::alloc::{AllocError, Global};

/// Appends the number, if there is one.
fn keep(numbers: &mut Vec<u64>, number: Option<u64>) -> Result<(), AllocError>
    ensures { IfOk result (λ _. numbers.new.items ≡ numbers.old.items ++ list_of number) }
{
    match number {
        Some(number) => {
            numbers.push(number)?;
            Ok(())
        }
        None => Ok(()),
    }
}

/// Returns the numbers that the text says, up to the first line that is refused.
///
/// # Errors
/// `AllocError` if an allocation failed.
pub fn numbers_of(alloc: Global, text: &[u8]) -> Result<Vec<u64>, AllocError>
    ensures { IfOk result (λ v. v.items ≡ (said text.now).numbers) }
{
    let mut numbers = Vec::new(alloc);
    let mut scanner = NumberScanner::new();
    for byte in text {
        match scanner.take(*byte) {
            Ok(number) => keep(&mut numbers, number)?,
            Err(_) => return Ok(numbers),
        }
    }
    match scanner.finish() {
        Ok(number) => {
            keep(&mut numbers, number)?;
            Ok(numbers)
        }
        Err(_) => Ok(numbers),
    }
}
