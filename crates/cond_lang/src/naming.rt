//! The names that a text gives, as its pieces are read.

ghost use Rattle.std.specs.Prelude.{◌≡◌, ◌+◌, ◌<◌, ◌≤◌, length, map, position};
ghost use Rattle.std.specs.Str.{bytes_eq};
ghost use Rattle.cond_lang.specs.Cut.{name_or, named_piece, naming_after, no_names, name_number};
ghost use Rattle.cond_lang.specs.declared.scanner.Piece.TheVariants.{UnknownWord};

use crate::scanner::{Piece, Token};
use arrayvec::ArrayVec;
use std::marker::Model;

/// The names that the text gives as far as it is read, and whether its last token is `let`.
#[derive(Drop)]
pub(crate) struct Names<'a, const N: usize> {
    given: ArrayVec<&'a [u8], N>,
    is_after_let: bool,
}

impl<'a, const N: usize> Model for Names<'a, N> {
    ghost use Rattle.std.specs.Prelude.{map};
    ghost use Rattle.cond_lang.specs.Cut.{Naming};

    ghost Value = { Naming };

    ghost view = { λ n. record {
      given = map (λ p. p.now) n.given.items;
      after_let = n.is_after_let;
    } };
}

impl<'a, const N: usize> Names<'a, N> {
    pub(crate) fn none() -> Self
        ensures { result ≡ no_names }
    {
        Names {
            given: ArrayVec::new(),
            is_after_let: false,
        }
    }

    /// The names.
    pub(crate) fn given(self) -> ArrayVec<&'a [u8], N>
        ensures { map (λ p. p.now) result.items ≡ self.entry.given }
    {
        self.given
    }

    /// What the piece of these bytes is behind the names, to which it may add one.
    pub(crate) fn named(&mut self, bytes: &'a [u8], piece: Piece) -> Piece
        requires room { length self.old.given < N }
        requires small { N ≤ 5121 }
        ensures value { result ≡ named_piece self.old (bytes.now, piece) }
        ensures after { self.new ≡ naming_after self.old (bytes.now, piece) }
        ensures few { length self.new.given ≤ length self.old.given + 1 }
    {
        match piece {
            Piece::Separator => {}
            Piece::UnknownWord => return self.letters(bytes),
            Piece::Token(Token::Let) => self.is_after_let = true,
            _ => self.is_after_let = false,
        }
        piece
    }

    /// What letters are that are no known word and no ranks.
    fn letters(&mut self, letters: &'a [u8]) -> Piece
        requires room { length self.old.given < N }
        requires small { N ≤ 5121 }
        ensures value { result ≡ name_or self.old (name_number self.old letters.now) }
        ensures after { self.new ≡ naming_after self.old (letters.now, UnknownWord) }
        ensures few { length self.new.given ≤ length self.old.given + 1 }
    {
        let is_new = self.is_after_let;
        self.is_after_let = false;
        if let Some(number) = number_of(self.given.as_slice(), letters) {
            return Piece::Token(Token::Name(number as u16));
        }
        if !is_new {
            return Piece::UnknownWord;
        }
        let number = self.given.len() as u16;
        self.given.push(letters);
        Piece::Token(Token::Name(number))
    }
}

/// The number of the name with these letters.
fn number_of(names: &[&[u8]], letters: &[u8]) -> Option<usize>
    ensures { result ≡ position (λ q. bytes_eq q letters.now) (map (λ q. q.now) names.now) }
{
    for (number, name) in names.iter().enumerate() {
        if *name == letters {
            return Some(number);
        }
    }
    None
}
