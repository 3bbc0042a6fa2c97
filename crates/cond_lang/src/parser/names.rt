//! Names: what is kept of each, their arguments, and the definitions that give them.

ghost use Rattle.std.specs.Prelude.{◌≡◌, ◌≢◌, ◌≤◌, [], length, true, Err, IfOk};
ghost use Rattle.cond_lang.specs.Definitions.{BeginsWith};
ghost use Rattle.cond_lang.specs.Grammar.{Meanings};
ghost use Rattle.cond_lang.specs.Text.{kinds};
ghost use Rattle.cond_lang.specs.internal.Arguments.{is_argument};
ghost use Rattle.cond_lang.specs.internal.Defining.{AreSound, IsSound, meaning, meanings};
ghost use Rattle.cond_lang.specs.internal.Defining.{definition, definitions, body, is_body};
ghost use Rattle.cond_lang.specs.internal.Defining.{new_name, params, param, behind_seat};
ghost use Rattle.cond_lang.specs.internal.Defining.{word_is, word_suit, ends_body, left_by};
ghost use Rattle.cond_lang.specs.internal.Defining.{AreCounted, parts_in};
ghost use Rattle.cond_lang.specs.internal.Reading.{Gives, args, suit_in_brackets, a_value};
ghost use Rattle.cond_lang.specs.internal.Reading.{reading};

use super::{Parser, Refusal};
use crate::classes::{Bound, Choice, Class, Params};
use crate::scanner::{Placed, Token};
use cards::{Seat, Suit};
use std::alloc::Global;

/// A name that was given, with all that its uses need.
#[derive(Drop)]
pub(crate) struct Named<'a> {
    pub(super) params: Params,
    pub(super) is_value: bool,
    /// The tokens from its body on: each use reads the body again.
    pub(super) body: &'a [Placed],
    /// How many parts it has with the arguments of each place, or `u32::MAX` if it has more.
    pub(super) parts: [u32; 16],
}

impl<'a> Parser<'a> {
    /// `( suit )`
    fn suit_in_brackets(&mut self, bound: Bound) -> Result<Suit, Refusal>
        ensures gives { Gives (λ s. s) result self.new (suit_in_brackets bound self.old) }
        ensures shorter { length self.new ≤ length self.old }
    {
        self.open()?;
        let suit = self.suit(bound)?;
        self.close()?;
        Ok(suit)
    }

    /// A name's arguments.
    pub(super) fn args(&mut self, bound: Bound, params: Params) -> Result<Choice, Refusal>
        ensures gives { Gives (λ x. x) result self.new (args bound params self.old) }
        ensures argument { IfOk result (λ x. is_argument params x ≡ true) }
        ensures shorter { length self.new ≤ length self.old }
    {
        match params {
            Params::Plain => Ok(Choice::FIRST),
            Params::OfSeat => Ok(Choice::of(Suit::Spades, self.seat_in_brackets(bound)?)),
            Params::OfSuit => Ok(Choice::of(self.suit_in_brackets(bound)?, Seat::North)),
            Params::OfBoth => {
                let (seat, suit) = self.seat_and_suit(bound)?;
                Ok(Choice::of(suit, seat))
            }
        }
    }

    /// All definitions, in their order.
    pub(super) fn definitions(&mut self) -> Result<Vec<Named<'a>>, Refusal>
        ensures gives { Gives (λ names. meanings names.items) result self.new
            (definitions [] self.old) }
        ensures sound { IfOk result (λ names. AreSound names.items) }
        ensures shorter { length self.new ≤ length self.old }
    {
        let mut names = Vec::new(self.alloc);
        while let Some(Token::Let) = self.peek() {
            self.advance();
            let named = self.definition(names.as_slice())?;
            names.push(named)?;
        }
        Ok(names)
    }

    /// The definitions in their order, as far as they are whole. The only error is `Memory`.
    pub(super) fn whole_definitions(&mut self) -> Result<Vec<Named<'a>>, Refusal>
        ensures sound { IfOk result (λ names. AreSound names.items) }
        ensures begins { IfOk result (λ names. BeginsWith (meanings names.items) self.old) }
        ensures all { IfOk result (λ names. (N : Meanings) → BeginsWith N self.old
            → length N ≤ length names.items) }
        ensures err { result ≢ Err Refusal.Syntax }
    {
        let mut names = Vec::new(self.alloc);
        while let Some(Token::Let) = self.peek() {
            self.advance();
            match self.definition(names.as_slice()) {
                Ok(named) => names.push(named)?,
                Err(Refusal::Syntax) => return Ok(names),
                Err(Refusal::Memory) => return Err(Refusal::Memory),
            }
        }
        Ok(names)
    }

    /// A new name, its parameters and its body, after `let`
    #[tactic(auto, unfolding(crate::specs::internal::Defining::definition))]
    fn definition(&mut self, names: &[Named<'a>]) -> Result<Named<'a>, Refusal>
        requires { AreSound names.now }
        ensures gives { Gives (meaning (meanings names.now)) result self.new
            (definition (meanings names.now) self.old) }
        ensures sound { IfOk result (λ m. IsSound (meanings names.now) m) }
        ensures shorter { length self.new ≤ length self.old }
    {
        self.new_name(names.len())?;
        let params = self.params()?;
        self.is_body(names, params)
    }

    /// `is ( body )`
    fn is_body(&mut self, names: &[Named<'a>], params: Params) -> Result<Named<'a>, Refusal>
        requires { AreSound names.now }
        ensures gives { Gives (meaning (meanings names.now)) result self.new
            (is_body (meanings names.now) params self.old) }
        ensures sound { IfOk result (λ m. IsSound (meanings names.now) m) }
        ensures shorter { length self.new ≤ length self.old }
    {
        self.word_is()?;
        self.open()?;
        let named = self.body(names, params)?;
        self.close()?;
        Ok(named)
    }

    /// A body: a value, if its bracket ends it, and else a condition. There is no room for its
    /// tree, since it is read for its parts alone.
    fn body(&mut self, names: &[Named<'a>], params: Params) -> Result<Named<'a>, Refusal>
        requires { AreSound names.now }
        ensures gives { Gives (meaning (meanings names.now)) result self.new
            (body (meanings names.now) params self.old) }
        ensures sound { IfOk result (λ m. IsSound (meanings names.now) m) }
        ensures shorter { length self.new ≤ length self.old }
    {
        let start = self.rest;
        let bound = Bound::given(params, Choice::FIRST);
        let is_value = self.is_value(names, bound)?;
        if !is_value {
            self.rest = start;
            self.cond(names, 0, bound)?;
        }
        let parts = Parser::all_parts(self.alloc, names, start, params, is_value)?;
        Ok(Named {
            params,
            is_value,
            body: start,
            parts,
        })
    }

    /// Whether a value comes next, and a closing bracket. The only error is `Memory`.
    fn is_value(&mut self, names: &[Named<'a>], bound: Bound) -> Result<bool, Refusal>
        requires { AreSound names.now }
        ensures is { IfOk result (λ b. b
            ≡ ends_body (reading (meanings names.now) bound a_value self.old)) }
        ensures left { IfOk result (λ b. b ≡ true
            → self.new ≡ left_by (reading (meanings names.now) bound a_value self.old)) }
        ensures err { result ≢ Err Refusal.Syntax }
        ensures shorter { length self.new ≤ length self.old }
    {
        match self.value(names, 0, bound) {
            Ok(_) => Ok(matches!(self.peek(), Some(Token::Close))),
            Err(Refusal::Syntax) => Ok(false),
            Err(Refusal::Memory) => Err(Refusal::Memory),
        }
    }

    /// How many parts a body has with the arguments of each place. The only error is `Memory`.
    fn all_parts(
        alloc: Global,
        names: &[Named<'a>],
        start: &'a [Placed],
        params: Params,
        is_value: bool,
    ) -> Result<[u32; 16], Refusal>
        requires { AreSound names.now }
        ensures counted { IfOk result (λ parts. AreCounted (meanings names.now) params is_value
            (kinds start.entry.now) parts) }
        ensures err { result ≢ Err Refusal.Syntax }
    {
        let mut parts = [0; 16];
        for place in 0..16 {
            let choice = Choice::at(place);
            if params.is_argument(choice) {
                let bound = Bound::given(params, choice);
                parts[place] = Parser::parts_with(alloc, names, start, bound, is_value)?;
            }
        }
        Ok(parts)
    }

    /// How many parts a body has where the classes are bound so. The only error is `Memory`.
    fn parts_with(
        alloc: Global,
        names: &[Named<'a>],
        start: &'a [Placed],
        bound: Bound,
        is_value: bool,
    ) -> Result<u32, Refusal>
        requires { AreSound names.now }
        ensures parts { IfOk result (λ n. n ≡ parts_in (meanings names.now) is_value bound
            (kinds start.entry.now)) }
        ensures err { result ≢ Err Refusal.Syntax }
    {
        let mut parser = Parser::new(alloc, start);
        // A body was read with the first arguments, and what can be read with one is with each: the
        // parts of one that can't be read are those of `0` and of `0==0`.
        if is_value {
            return match parser.value(names, 0, bound) {
                Ok(value) => Ok(value.parts),
                Err(Refusal::Syntax) => Ok(1),
                Err(Refusal::Memory) => Err(Refusal::Memory),
            };
        }
        match parser.cond(names, 0, bound) {
            Ok(tree) => Ok(tree.parts),
            Err(Refusal::Syntax) => Ok(2),
            Err(Refusal::Memory) => Err(Refusal::Memory),
        }
    }

    /// The name with this number.
    fn new_name(&mut self, number: usize) -> Result<(), Refusal>
        ensures gives { Gives (λ _. tt) result self.new (new_name number self.old) }
        ensures shorter { length self.new ≤ length self.old }
    {
        let Some(Token::Name(name)) = self.peek() else {
            return Err(Refusal::Syntax);
        };
        if name as usize != number {
            return Err(Refusal::Syntax);
        }
        self.advance();
        Ok(())
    }

    /// Nothing, or parameters in brackets.
    fn params(&mut self) -> Result<Params, Refusal>
        ensures gives { Gives (λ p. p) result self.new (params self.old) }
        ensures shorter { length self.new ≤ length self.old }
    {
        if let Some(Token::Open) = self.peek() {
            self.advance();
            let params = self.param()?;
            self.close()?;
            return Ok(params);
        }
        Ok(Params::Plain)
    }

    /// `seat`, `suit`, or `seat , suit`
    fn param(&mut self) -> Result<Params, Refusal>
        ensures gives { Gives (λ p. p) result self.new (param self.old) }
        ensures shorter { length self.new ≤ length self.old }
    {
        match self.peek() {
            Some(Token::Class(Class::Seat)) => {
                self.advance();
                self.behind_seat()
            }
            Some(Token::Class(Class::Suit)) => {
                self.advance();
                Ok(Params::OfSuit)
            }
            _ => Err(Refusal::Syntax),
        }
    }

    /// Nothing, or `, suit`, after the word `seat`
    fn behind_seat(&mut self) -> Result<Params, Refusal>
        ensures gives { Gives (λ p. p) result self.new (behind_seat self.old) }
        ensures shorter { length self.new ≤ length self.old }
    {
        if let Some(Token::Comma) = self.peek() {
            self.advance();
            self.word_suit()?;
            return Ok(Params::OfBoth);
        }
        Ok(Params::OfSeat)
    }

    /// The word `suit`.
    fn word_suit(&mut self) -> Result<(), Refusal>
        ensures gives { Gives (λ _. tt) result self.new (word_suit self.old) }
        ensures shorter { length self.new ≤ length self.old }
    {
        let Some(Token::Class(Class::Suit)) = self.peek() else {
            return Err(Refusal::Syntax);
        };
        self.advance();
        Ok(())
    }

    fn word_is(&mut self) -> Result<(), Refusal>
        ensures gives { Gives (λ _. tt) result self.new (word_is self.old) }
        ensures shorter { length self.new ≤ length self.old }
    {
        let Some(Token::Is) = self.peek() else {
            return Err(Refusal::Syntax);
        };
        self.advance();
        Ok(())
    }
}
