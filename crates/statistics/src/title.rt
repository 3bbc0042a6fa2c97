//! The title of a question in a table.

ghost use Rattle.std.specs.Prelude.{◌≡◌, ◌≤◌, length};
ghost use Rattle.statistics.specs.Counting.{is_shown, title_of};

use std::marker::Model;

/// How many bytes a title has room for.
const CAPACITY: usize = 72;

/// A title, which contracts see as the list of its bytes.
#[derive(Drop)]
pub(crate) struct Title {
    bytes: [u8; CAPACITY],
    len: usize,
}

impl Model for Title {
    ghost use Rattle.std.specs.Prelude.{List, ℕ, ◌≤◌, take};

    ghost Value = { List ℕ };

    ghost view = { λ t. take t.len t.bytes };

    ghost invariant = { λ t. t.len ≤ 72 };
}

impl Title {
    /// The title of a question's text: the text, if it may come in a table.
    pub(crate) fn of(text: &[u8]) -> Title
        ensures { result ≡ title_of text.now }
    {
        if is_shown(text) {
            Title::copied(text)
        } else {
            Title::copied(b"value")
        }
    }

    /// The title's bytes.
    pub(crate) fn as_bytes(&self) -> &[u8]
        ensures value { result.now ≡ self.now }
        ensures few { length result.now ≤ 72 }
    {
        &self.bytes[..self.len]
    }

    /// The title that is this text.
    fn copied(text: &[u8]) -> Title
        requires { length text.now ≤ 72 }
        ensures { result ≡ text.now }
    {
        let mut bytes = [0; CAPACITY];
        bytes[..text.len()].copy_from_slice(text);
        Title {
            bytes,
            len: text.len(),
        }
    }
}

/// Whether the text may come in a table: at most 72 bytes of printable ASCII.
fn is_shown(text: &[u8]) -> bool
    ensures { result ≡ is_shown text.now }
{
    if text.len() > CAPACITY {
        return false;
    }
    for byte in text {
        if *byte < 0x20 || *byte > 0x7E {
            return false;
        }
    }
    true
}
