//! Values that are asked for by a word.

/// The words that ask for a type's values.
#[derive(Drop)]
pub struct Words<T: Copy + 'static> {
    /// Each word, with what it asks for.
    pub table: &'static [(&'static str, T)],
    /// The words, as help lists them.
    pub list: &'static str,
}

/// Words, each with what it asks for.
#[macro_export]
macro_rules! words {
    ($first:literal => $value:expr $(, $word:literal => $other:expr)*) => {
        $crate::Words {
            table: &[($first, $value) $(, ($word, $other))*],
            list: concat!($first $(, ", ", $word)*),
        }
    };
}
