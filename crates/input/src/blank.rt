//! Blanks: spaces and tabs.

ghost use Rattle.std.specs.Prelude.{◌≡◌};
ghost use Rattle.input.specs.NumberTexts.{is_blank};

/// Whether the byte is a space or a tab.
pub(crate) fn is_blank(byte: u8) -> bool
    ensures { result ≡ is_blank byte }
{
    byte == b' ' || byte == b'\t'
}
