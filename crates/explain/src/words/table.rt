//! Tables of words that people try: a text with a row in each line.
//!
//! A row is what it is of, or some of that with `|` between them, the words, `=>` and a text. The
//! word `*` is any.

use std::alloc::Global;

/// The text of the first row of this that has the word in small letters.
pub(crate) fn find_small(
    alloc: Global,
    table: &'static str,
    of: &str,
    word: &str,
) -> Option<&'static str> {
    find(table, of, word.to_ascii_lowercase(alloc).ok()?.as_str())
}

/// The text of the first row of this that has the word.
pub(crate) fn find(table: &'static str, of: &str, word: &str) -> Option<&'static str> {
    for line in table.lines() {
        if let Some((row, text)) = line.trim_ascii_start().split_once(" => ")
            && let Some((known, words)) = row.split_once(' ')
            && is_one_of(known, '|', of)
            && is_one_of(words, ' ', word)
        {
            return Some(text);
        }
    }
    None
}

/// Whether the text is one of these, which have the sign between them.
fn is_one_of(texts: &str, sign: char, text: &str) -> bool {
    texts.split(sign).any(|known| known == text || known == "*")
}
