//! What is known of a board's tricks: how many each declarer makes in each denomination, and par.
//! It is read from a line of text.
//!
//! A line is 20 digits, `0` to `d` for 0 to 13, the tricks of declarer North, South, East and West,
//! each in notrump, spades, hearts, diamonds and clubs. If par is known, a space, `NS` or `EW`, a
//! space and the score for that side follow, 1 to 4 digits; and perhaps a space and a contract, 1
//! to 24 letters, digits and signs of `+-*=,/`. `-` alone says that nothing is known.

ghost use Rattle.std.specs.Prelude.{◌≡◌, ◌≤◌, ◌++◌, ◌∷◌, [], length, map, true};
ghost use Rattle.std.specs.Char.{to_ascii_lowercase};
ghost use Rattle.boards.specs.TricksLines.{IsTold, are_tricks, are_with_par};
ghost use Rattle.boards.specs.TricksLines.{known, nothing_known, told, told_by};
ghost use Rattle.boards.specs.TricksTags.{tagged};
ghost use Rattle.boards.specs.internal.TricksWords.{IsScored};

mod words;

use self::words::{are_tricks, are_with_par, is_contract, is_score, split_word};
use arrayvec::ArrayVec;
use std::marker::Model;

/// What is known of a board: the tricks of each declarer in each denomination, par for one side,
/// and a contract that scores it. It takes 64 bytes.
#[derive(Drop)]
pub struct Tricks {
    digits: ArrayVec<u8, 20>,
    score: ArrayVec<u8, 7>,
    contract: ArrayVec<u8, 24>,
}

impl Model for Tricks {
    ghost use Rattle.boards.specs.TricksLines.{IsTold, TricksView};

    ghost Value = { TricksView };

    ghost view = { λ t. record {
      digits = t.digits.items;
      score = t.score.items;
      contract = t.contract.items;
    } };

    ghost invariant = { λ t. IsTold (record {
      digits = t.digits.items;
      score = t.score.items;
      contract = t.contract.items;
    }) };
}

impl Tricks {
    /// Reads a line without its line ending. Returns `None` if and only if it is malformed. The
    /// digits `A` to `D` are read as `a` to `d`.
    pub fn read(line: &[u8]) -> Option<Tricks>
        ensures { result ≡ told line.now }
    {
        let (tricks, after) = split_word(line);
        let Some(after) = after else {
            return Tricks::alone(tricks);
        };
        let (side, after) = split_word(after);
        let Some(after) = after else {
            return None;
        };
        let (points, after) = split_word(after);
        if !are_with_par(tricks, side, points) {
            return None;
        }
        let Some(after) = after else {
            return Some(Tricks::with_par(tricks, side, points, &[]));
        };
        let (contract, after) = split_word(after);
        if after.is_some() {
            return None;
        }
        if !is_contract(contract) {
            return None;
        }
        Some(Tricks::with_par(tricks, side, points, contract))
    }

    /// Reads the values of the tags `DoubleDummyTricks`, `OptimumScore` and `ParContract`, each
    /// empty if there is no such tag. A malformed value is ignored, and so are par without tricks
    /// and a contract without a score.
    #[tactic(auto, unfolding(crate::specs::TricksTags::tagged))]
    pub fn tagged(tricks: &[u8], score: &[u8], contract: &[u8]) -> Tricks
        ensures { result ≡ tagged tricks.now score.now contract.now }
    {
        if !are_tricks(tricks) {
            return Tricks::none();
        }
        if !is_score(score) {
            return Tricks::scored(tricks, &[], &[]);
        }
        if !is_contract(contract) {
            return Tricks::scored(tricks, score, &[]);
        }
        Tricks::scored(tricks, score, contract)
    }

    /// Nothing is known.
    fn none() -> Tricks
        ensures { result ≡ nothing_known }
    {
        Tricks {
            digits: ArrayVec::new(),
            score: ArrayVec::new(),
            contract: ArrayVec::new(),
        }
    }

    /// Returns tricks with a score, if it isn't empty, and its contract, if that isn't.
    fn scored(tricks: &[u8], score: &[u8], contract: &[u8]) -> Tricks
        requires tricks { are_tricks tricks.now ≡ true }
        requires score { IsScored score.now contract.now }
        ensures { result ≡ known tricks.now score.now contract.now }
    {
        Tricks {
            digits: small(tricks),
            score: kept(score),
            contract: kept(contract),
        }
    }

    /// Returns what a word tells by itself.
    fn alone(word: &[u8]) -> Option<Tricks>
        ensures { result ≡ told_by (word.now ∷ []) }
    {
        if word == b"-".as_slice() {
            return Some(Tricks::none());
        }
        if !are_tricks(word) {
            return None;
        }
        Some(Tricks::scored(word, &[], &[]))
    }

    /// Returns tricks with a score, and the contract, if it isn't empty.
    fn with_par(tricks: &[u8], side: &[u8], points: &[u8], contract: &[u8]) -> Tricks
        requires par { are_with_par tricks.now side.now points.now ≡ true }
        requires contract { length contract.now ≤ 24 }
        ensures { result ≡ known tricks.now (side.now ++ (32 ∷ points.now)) contract.now }
    {
        Tricks {
            digits: small(tricks),
            score: score_of(side, points),
            contract: kept(contract),
        }
    }

    /// Returns the 20 numbers of tricks, `0` to `9` and `a` to `d`, those of declarer North, South,
    /// East and West, each in notrump, spades, hearts, diamonds and clubs; nothing if they aren't
    /// known.
    pub fn digits(&self) -> &[u8]
        ensures value { result.now ≡ self.now.digits }
        ensures told { IsTold self.now }
    {
        &self.digits
    }

    /// Returns par as it was given, such as `NS 450`; nothing if it isn't known.
    pub fn score(&self) -> &[u8]
        ensures value { result.now ≡ self.now.score }
        ensures told { IsTold self.now }
    {
        &self.score
    }

    /// Returns a contract that scores par, such as `4H-NS+1`; nothing if none is known.
    pub fn contract(&self) -> &[u8]
        ensures value { result.now ≡ self.now.contract }
        ensures told { IsTold self.now }
    {
        &self.contract
    }
}

/// Returns the numbers of tricks in small letters.
fn small(tricks: &[u8]) -> ArrayVec<u8, 20>
    requires { are_tricks tricks.now ≡ true }
    ensures { result.items ≡ map to_ascii_lowercase tricks.now }
{
    let mut digits = ArrayVec::new();
    for digit in tricks {
        digits.push(digit.to_ascii_lowercase());
    }
    digits
}

/// Returns a side and its points, with a space between them.
fn score_of(side: &[u8], points: &[u8]) -> ArrayVec<u8, 7>
    requires side { length side.now ≡ 2 }
    requires points { length points.now ≤ 4 }
    ensures { result.items ≡ side.now ++ (32 ∷ points.now) }
{
    let mut score = ArrayVec::new();
    let _fits = score.try_extend_from_slice(side);
    score.push(b' ');
    let _fits = score.try_extend_from_slice(points);
    score
}

/// Returns the bytes of a text.
fn kept<const N: usize>(text: &[u8]) -> ArrayVec<u8, N>
    requires { length text.now ≤ N }
    ensures { result.items ≡ text.now }
{
    let mut bytes = ArrayVec::new();
    let _fits = bytes.try_extend_from_slice(text);
    bytes
}
