//! Bytes as they are shown on a terminal.

ghost use Rattle.std.specs.Prelude.{◌≡◌, ◌<◌, ◌++◌, map, string_bytes, OnOk};
ghost use Rattle.sinks.specs.Shown.{shown};

use std::alloc::AllocError;

/// A byte as it is shown: printable ASCII as it is, a tab as a space, any other as `?`.
fn shown(byte: u8) -> u8
    ensures value { result ≡ shown byte }
    ensures plain { result < 128 }
{
    if 32 <= byte && byte < 127 {
        byte
    } else if byte == b'\t' {
        b' '
    } else {
        b'?'
    }
}

/// Appends the bytes as they are shown on a terminal: a tab as a space, and what would disturb the
/// terminal, or isn't ASCII, as `?`.
///
/// # Errors
/// `AllocError` if an allocation failed.
pub fn put_shown(out: &mut String, bytes: &[u8]) -> Result<(), AllocError>
    ensures { OnOk result (string_bytes out.new ≡ string_bytes out.old ++ map shown bytes.now) }
{
    for byte in bytes {
        out.push(char::from(shown(*byte)))?;
    }
    Ok(())
}
