//! Four bytes that are read from a source.

ghost use Rattle.std.specs.Prelude.{◌≡◌, ◌-◌, ◌<◌, ◌^◌, ◌∷◌, [], IfOk, IsErrOf};
ghost use Rattle.std.specs.Io.KnownBytes.{Consumes};
ghost use Rattle.input.specs.FourBytes.{CountsBytes, EndsBefore};
ghost use Rattle.input.specs.declared.four_bytes.BytesFault.TheVariants.{Ended};

use crate::source::Source;

/// Why four bytes weren't read.
#[derive(Clone, Copy, Debug, PartialEq, Eq)]
pub enum BytesFault {
    /// The input ended before.
    Ended,
    /// The input couldn't be read.
    Failed,
}

/// Reads the next byte.
fn read_byte<I: Source>(input: &mut I) -> Result<u8, BytesFault>
    requires { I.faults input.old < 2 ^ 64 - 1 }
    ensures given { IfOk result (λ b. Consumes (I.rest input.old) (I.rest input.new) (b ∷ [])) }
    ensures ended { IsErrOf result Ended → EndsBefore 1 (I.rest input.old) (I.rest input.new) }
    ensures faults { CountsBytes result (I.faults input.old) (I.faults input.new) }
{
    let mut piece = [0u8];
    match input.read(&mut piece) {
        Ok(0) => Err(BytesFault::Ended),
        Ok(_) => Ok(piece[0]),
        Err(_) => Err(BytesFault::Failed),
    }
}

/// Reads the next four bytes, in as many reads as it takes.
///
/// # Errors
/// `Ended` if the input has fewer; `Failed` if it couldn't be read.
pub fn read_four<I: Source>(input: &mut I) -> Result<[u8; 4], BytesFault>
    requires { I.faults input.old < 2 ^ 64 - 1 }
    ensures given { IfOk result (λ bytes. Consumes (I.rest input.old) (I.rest input.new) bytes) }
    ensures ended { IsErrOf result Ended → EndsBefore 4 (I.rest input.old) (I.rest input.new) }
    ensures faults { CountsBytes result (I.faults input.old) (I.faults input.new) }
{
    let first = read_byte(input)?;
    let second = read_byte(input)?;
    let third = read_byte(input)?;
    let fourth = read_byte(input)?;
    Ok([first, second, third, fourth])
}
