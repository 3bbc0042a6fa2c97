//! The words of a line of tricks.

ghost use Rattle.std.specs.Prelude.{◌≡◌, ◌∷◌, ◌==◌, option_map, position};
ghost use Rattle.std.specs.Char.{is_ascii_digit};
ghost use Rattle.std.specs.List.{list_all};
ghost use Rattle.boards.specs.TricksLines.{are_points, are_tricks, are_with_par, is_contract, is_contract_byte};
ghost use Rattle.boards.specs.TricksLines.{is_side, is_tricks, words_of};
ghost use Rattle.boards.specs.TricksTags.{is_score};
ghost use Rattle.boards.specs.internal.TricksWords.{words_behind};

/// How many declarers in how many denominations.
const DIGITS: usize = 20;

/// Returns where the first space is.
fn first_space(text: &[u8]) -> Option<usize>
    ensures { result ≡ position (λ b. b == 32) text.now }
{
    text.iter().position(|byte| *byte == b' ')
}

/// Returns the first word, and what comes after its space, if there is one.
pub(crate) fn split_word(text: &[u8]) -> (&[u8], Option<&[u8]>)
    ensures { words_of text.now ≡ result.0.now ∷ words_behind (option_map (λ s. s.now) result.1) }
{
    match first_space(text) {
        Some(end) => (&text[..end], Some(&text[end + 1..])),
        None => (text, None),
    }
}

fn is_tricks(byte: u8) -> bool
    ensures { result ≡ is_tricks byte }
{
    matches!(byte, b'0'..=b'9' | b'a'..=b'd' | b'A'..=b'D')
}

fn all_are_tricks(word: &[u8]) -> bool
    ensures { result ≡ list_all is_tricks word.now }
{
    word.iter().all(|byte| is_tricks(*byte))
}

/// Whether the word has the twenty numbers of tricks.
pub(crate) fn are_tricks(word: &[u8]) -> bool
    ensures { result ≡ are_tricks word.now }
{
    word.len() == DIGITS && all_are_tricks(word)
}

fn is_side(word: &[u8]) -> bool
    ensures { result ≡ is_side word.now }
{
    word == b"NS".as_slice() || word == b"EW".as_slice()
}

fn all_are_digits(word: &[u8]) -> bool
    ensures { result ≡ list_all is_ascii_digit word.now }
{
    word.iter().all(|byte| byte.is_ascii_digit())
}

fn are_points(word: &[u8]) -> bool
    ensures { result ≡ are_points word.now }
{
    (1..=4).contains(&word.len()) && all_are_digits(word)
}

/// Whether the value is a side and its points.
pub(crate) fn is_score(value: &[u8]) -> bool
    ensures { result ≡ is_score value.now }
{
    value.len() > 3 && is_side(&value[..2]) && value[2] == b' ' && are_points(&value[3..])
}

/// Whether these are tricks, a side and a score.
pub(crate) fn are_with_par(tricks: &[u8], side: &[u8], points: &[u8]) -> bool
    ensures { result ≡ are_with_par tricks.now side.now points.now }
{
    are_tricks(tricks) && is_side(side) && are_points(points)
}

fn is_contract_byte(byte: u8) -> bool
    ensures { result ≡ is_contract_byte byte }
{
    byte.is_ascii_alphanumeric() || matches!(byte, b'+' | b'-' | b'*' | b'=' | b',' | b'/')
}

fn all_are_of_contracts(word: &[u8]) -> bool
    ensures { result ≡ list_all is_contract_byte word.now }
{
    word.iter().all(|byte| is_contract_byte(*byte))
}

/// Whether the word is a contract.
pub(crate) fn is_contract(word: &[u8]) -> bool
    ensures { result ≡ is_contract word.now }
{
    (1..=24).contains(&word.len()) && all_are_of_contracts(word)
}
