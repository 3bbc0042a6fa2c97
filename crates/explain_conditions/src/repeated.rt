//! A character several times.

ghost use Rattle.std.specs.Prelude.{◌≡◌, ◌<◌, ◌++◌, replicate, string_bytes, OnOk};

use std::alloc::AllocError;

/// Appends an ASCII character this many times.
pub(crate) fn put_repeated(
    out: &mut String,
    character: char,
    count: usize,
) -> Result<(), AllocError>
    requires { character < 128 }
    ensures { OnOk result (string_bytes out.new
        ≡ string_bytes out.old ++ replicate count character) }
{
    for done in 0..count {
        out.push(character)?;
    }
    Ok(())
}
