//! Sets of kinds of tokens, as the rules for hints take them.

use cond_lang::Kind;

/// Kinds of tokens, as a set.
#[derive(Clone, Copy)]
pub struct Kinds {
    /// Of each kind in [`Kind::ALL`], in that order, whether it is in the set.
    ///
    /// [`Kind::ALL`]: cond_lang::Kind::ALL
    pub holds: [bool; Kind::COUNT],
    /// Whether they are those of a question.
    pub is_question: bool,
}

impl Kinds {
    /// No kinds.
    pub(crate) fn none() -> Kinds {
        Kinds {
            holds: [false; Kind::COUNT],
            is_question: false,
        }
    }

    /// Whether the kind is in the set, which has no names.
    pub(crate) fn has(&self, kind: Kind) -> bool {
        match self.holds.get(kind.place()) {
            Some(holds) => *holds,
            None => false,
        }
    }
}
