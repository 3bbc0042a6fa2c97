//! The parser: it reads the tokens from the left, with one token in sight, and builds the tree as
//! it goes.
//!
//! `names` are those given before, and each use reads its name's body again, with the arguments
//! bound. `room` is how many parts a tree may have to be kept: a use of a name that has more isn't
//! read, and its parts are counted alone. So the time that a text takes is bounded by the parts
//! that are kept, however many it has.

ghost use Rattle.std.specs.Prelude.{◌≡◌, ◌≢◌, ◌≤◌, ℕ, List, Option, Some, Err, true, false, ◌∷◌};
ghost use Rattle.std.specs.Prelude.{length, slice_get, IfOk};
ghost use Rattle.cond_lang.specs.declared.scanner.Token.{Token as AToken};
ghost use Rattle.cond_lang.specs.declared.classes.Choice.{Choice as AChoice};
ghost use Rattle.cond_lang.specs.declared.classes.Params.{Params as AreParams};
ghost use Rattle.cond_lang.specs.declared.scanner.Token.TheVariants.{Name};
ghost use Rattle.conditions.specs.Form.{Amount, Form};
ghost use Rattle.cond_lang.specs.Grammar.{condition, value};
ghost use Rattle.cond_lang.specs.Text.{kinds};
ghost use Rattle.cond_lang.specs.internal.Arguments.{is_argument};
ghost use Rattle.cond_lang.specs.internal.Defining.{AreSound, meanings};
ghost use Rattle.cond_lang.specs.internal.Growing.{AreGrown, GivesBy, IsGrown, IsGrownValue};
ghost use Rattle.cond_lang.specs.internal.Reading.{front};
ghost use Rattle.cond_lang.specs.internal.Reading.{atom_of, value_used, reading, a_value};
ghost use Rattle.cond_lang.specs.internal.Reading.{comparing_by, condition_used_by};
ghost use Rattle.cond_lang.specs.internal.Reading.{test_by, a_unit, a_both, a_cond};
ghost use Rattle.cond_lang.specs.internal.Reading.{with_choice_by, quantified_by};

mod counts;
mod grown;
mod lists;
mod names;
mod terminals;

use crate::classes::{Bound, Choice, Class, Quantifier};
use crate::scanner::{Placed, Token};
use conditions::Tree;
use grown::{Grown, GrownValue, room_behind};
pub(crate) use lists::{is_value_name, parse_tokens, read_as_far, read_definitions, read_value};
use names::Named;
use std::alloc::{AllocFailed, Global};
use std::marker::Model;

/// Why the parser stopped.
#[derive(Drop)]
pub(crate) enum Refusal {
    /// No condition goes on with the token in sight.
    Syntax,
    /// An allocation failed.
    Memory,
}

impl<T: Drop> From<AllocFailed<T>> for Refusal {
    ghost use Rattle.std.specs.Prelude.{◌≡◌};
    ghost use Rattle.cond_lang.specs.declared.parser.Refusal.TheVariants.{Memory};

    ghost from_gives = { λ _ r. r ≡ Memory };

    fn from(_failed: AllocFailed<T>) -> Refusal {
        Refusal::Memory
    }
}

/// A quantifier and its class, and how many parts there is room for with all of the class.
#[derive(Clone, Copy)]
struct Each {
    quantifier: Quantifier,
    class: Class,
    room: u32,
}

/// The tokens that are left, which is all that contracts see of a parser.
///
/// After a `Syntax` the token in sight is the one that was refused.
#[derive(Drop)]
pub(crate) struct Parser<'a> {
    alloc: Global,
    rest: &'a [Placed],
}

impl<'a> Model for Parser<'a> {
    ghost use Rattle.std.specs.Prelude.{List, map};
    ghost use Rattle.cond_lang.specs.declared.scanner.Token.{Token as AToken};

    ghost Value = { List AToken };

    ghost view = { λ p. map (λ s. s.token) p.rest.now };
}

impl<'a> Parser<'a> {
    pub(crate) fn new(alloc: Global, rest: &'a [Placed]) -> Self
        ensures { result ≡ kinds rest.entry.now }
    {
        Parser { alloc, rest }
    }

    /// How many tokens are left.
    pub(crate) fn left(&self) -> usize
        ensures { result ≡ length self.now }
    {
        self.rest.len()
    }

    /// The token in sight.
    fn peek(&self) -> Option<Token>
        ensures { result ≡ front self.now }
    {
        match self.rest {
            [] => None,
            [first, ..] => Some(first.token),
        }
    }

    /// Passes the token in sight.
    fn advance(&mut self)
        requires { (t : AToken) × (rest : List AToken) × (self.old ≡ t ∷ rest) }
        ensures { (t : AToken) × (self.old ≡ t ∷ self.new) }
    {
        self.rest = &self.rest[1..];
    }

    /// A number, that many times what is counted, what is counted, or the name of a value.
    #[cycle(values)]
    #[tactic(auto, unfolding(crate::specs::internal::Reading::atom_of))]
    fn atom(&mut self, names: &[Named<'a>], room: u32, bound: Bound) -> Result<GrownValue, Refusal>
        requires { AreSound names.now }
        ensures gives { GivesBy (IsGrownValue room) result self.new
            (atom_of (meanings names.now) bound self.old) }
        ensures shorter { length self.new ≤ length self.old }
    {
        match self.peek() {
            Some(Token::Name(number)) => self.value_used(names, room, bound, number),
            _ => Ok(GrownValue::one(room, self.number_or_count(bound)?)),
        }
    }

    /// The name of a value, and its arguments.
    #[cycle(values)]
    #[inline(never)]
    fn value_used(
        &mut self,
        names: &[Named<'a>],
        room: u32,
        bound: Bound,
        number: u16,
    ) -> Result<GrownValue, Refusal>
        requires sound { AreSound names.now }
        requires sight { (rest : List AToken) × (self.old ≡ Name number ∷ rest) }
        ensures gives { (rest : List AToken) → self.old ≡ Name number ∷ rest
            → GivesBy (IsGrownValue room) result self.new
            (value_used (slice_get (meanings names.now) number) bound number rest) }
        ensures shorter { length self.new ≤ length self.old }
    {
        let Some(named) = names.get(number as usize) else {
            return Err(Refusal::Syntax);
        };
        if !named.is_value {
            return Err(Refusal::Syntax);
        }
        self.advance();
        let choice = self.args(bound, named.params)?;
        Parser::amount_named(self.alloc, names, room, number, choice)
    }

    /// What the name of a value stands for with these arguments: its body, read again.
    #[cycle(values)]
    #[inline(never)]
    fn amount_named(
        alloc: Global,
        names: &[Named<'a>],
        room: u32,
        number: u16,
        choice: Choice,
    ) -> Result<GrownValue, Refusal>
        requires { AreSound names.now }
        ensures ok { (p : AreParams) (f : AChoice → Amount)
            → slice_get (meanings names.now) number ≡ Some (value p f)
            → is_argument p choice ≡ true → IfOk result (λ v. IsGrownValue room v (f choice)) }
        ensures err { (p : AreParams) (f : AChoice → Amount)
            → slice_get (meanings names.now) number ≡ Some (value p f)
            → is_argument p choice ≡ true → result ≢ Err Refusal.Syntax }
    {
        let index = number as usize;
        let Some(named) = names.get(index) else {
            return Err(Refusal::Syntax);
        };
        let parts = named.parts[choice.place()];
        if parts > room {
            return Ok(GrownValue { parts, value: None });
        }
        let mut parser = Parser::new(alloc, named.body);
        parser.value(&names[..index], room, Bound::given(named.params, choice))
    }

    /// Atoms with `+` between them.
    #[cycle(values)]
    fn value(&mut self, names: &[Named<'a>], room: u32, bound: Bound) -> Result<GrownValue, Refusal>
        requires { AreSound names.now }
        ensures gives { GivesBy (IsGrownValue room) result self.new
            (reading (meanings names.now) bound a_value self.old) }
        ensures shorter { length self.new ≤ length self.old }
    {
        let mut left = self.atom(names, room, bound)?;
        while let Some(Token::Plus) = self.peek() {
            self.advance();
            let room_behind = room.saturating_sub(left.parts);
            let right = self.atom(names, room_behind, bound)?;
            left = GrownValue::sum(self.alloc, room, left, right)?;
        }
        Ok(left)
    }

    /// A value, and `in number - number` or `op value`.
    fn comparison(&mut self, names: &[Named<'a>], room: u32, bound: Bound) -> Result<Grown, Refusal>
        requires { AreSound names.now }
        ensures gives { GivesBy (IsGrown room) result self.new
            (comparing_by (reading (meanings names.now)) bound self.old) }
        ensures shorter { length self.new ≤ length self.old }
    {
        let left = self.value(names, room, bound)?;
        if let Some(Token::In) = self.peek() {
            self.advance();
            let (least, most) = self.range()?;
            return Grown::within(self.alloc, left, least, most);
        }
        let op = self.relation()?;
        let room_behind = room.saturating_sub(left.parts);
        let right = self.value(names, room_behind, bound)?;
        Grown::compare(self.alloc, room, left, op, right)
    }

    /// One test with no `not`, no bracket and no quantifier before it.
    #[cycle(conditions)]
    #[inline(never)]
    fn test(&mut self, names: &[Named<'a>], room: u32, bound: Bound) -> Result<Grown, Refusal>
        requires { AreSound names.now }
        ensures gives { GivesBy (IsGrown room) result self.new
            (test_by (meanings names.now) (reading (meanings names.now)) bound self.old) }
        ensures shorter { length self.new ≤ length self.old }
    {
        match self.peek() {
            Some(Token::Balanced) => {
                self.advance();
                let seat = self.open_seat(bound)?;
                self.close()?;
                Grown::one(self.alloc, room, Tree::Balanced(seat))
            }
            Some(Token::Shape) => {
                self.advance();
                let (seat, items) = self.seat_and_items(bound)?;
                Grown::one(self.alloc, room, Tree::shape(seat, items))
            }
            Some(Token::Pattern) => {
                self.advance();
                let (seat, items) = self.seat_and_items(bound)?;
                Grown::one(self.alloc, room, Tree::pattern(seat, items))
            }
            Some(Token::Stops) => {
                self.advance();
                let (seat, suit) = self.seat_and_suit(bound)?;
                Grown::one(self.alloc, room, Tree::Stops(seat, suit))
            }
            Some(Token::Name(number)) => self.condition_used(names, room, bound, number),
            _ => self.comparison(names, room, bound),
        }
    }

    /// The name of a condition and its arguments, or a comparison that begins with a name.
    #[cycle(conditions)]
    fn condition_used(
        &mut self,
        names: &[Named<'a>],
        room: u32,
        bound: Bound,
        number: u16,
    ) -> Result<Grown, Refusal>
        requires sound { AreSound names.now }
        requires sight { (rest : List AToken) × (self.old ≡ Name number ∷ rest) }
        ensures gives { (rest : List AToken) → self.old ≡ Name number ∷ rest
            → GivesBy (IsGrown room) result self.new
            (condition_used_by (slice_get (meanings names.now) number)
            (reading (meanings names.now)) bound number rest) }
        ensures shorter { length self.new ≤ length self.old }
    {
        let Some(named) = names.get(number as usize) else {
            return self.comparison(names, room, bound);
        };
        if named.is_value {
            return self.comparison(names, room, bound);
        }
        self.advance();
        let choice = self.args(bound, named.params)?;
        Parser::tree_named(self.alloc, names, room, number, choice)
    }

    /// What the name of a condition stands for with these arguments: its body, read again.
    #[cycle(conditions)]
    #[inline(never)]
    fn tree_named(
        alloc: Global,
        names: &[Named<'a>],
        room: u32,
        number: u16,
        choice: Choice,
    ) -> Result<Grown, Refusal>
        requires { AreSound names.now }
        ensures ok { (p : AreParams) (f : AChoice → Form)
            → slice_get (meanings names.now) number ≡ Some (condition p f)
            → is_argument p choice ≡ true → IfOk result (λ g. IsGrown room g (f choice)) }
        ensures err { (p : AreParams) (f : AChoice → Form)
            → slice_get (meanings names.now) number ≡ Some (condition p f)
            → is_argument p choice ≡ true → result ≢ Err Refusal.Syntax }
    {
        let index = number as usize;
        let Some(named) = names.get(index) else {
            return Err(Refusal::Syntax);
        };
        let parts = named.parts[choice.place()];
        if parts > room {
            return Ok(Grown { parts, tree: None });
        }
        let mut parser = Parser::new(alloc, named.body);
        parser.cond(&names[..index], room, Bound::given(named.params, choice))
    }

    // A text has up to 1,024 opening brackets, and each keeps a frame of the next three functions
    // on the stack. So they carry trees in boxes, and leave the rest to functions that aren't
    // inlined.

    /// One test.
    #[cycle(conditions)]
    fn unit(&mut self, names: &[Named<'a>], room: u32, bound: Bound) -> Result<Grown, Refusal>
        requires { AreSound names.now }
        ensures gives { GivesBy (IsGrown room) result self.new
            (reading (meanings names.now) bound a_unit self.old) }
        ensures shorter { length self.new ≤ length self.old }
    {
        match self.peek() {
            Some(Token::Not) => {
                self.advance();
                let inner = self.unit(names, room, bound)?;
                Grown::negation(self.alloc, inner)
            }
            Some(Token::Open) => {
                self.advance();
                let inner = self.cond(names, room, bound)?;
                self.close()?;
                Ok(inner)
            }
            Some(Token::Quantifier(_)) => self.quantified(names, room, bound),
            _ => self.test(names, room, bound),
        }
    }

    /// Tests with `and` between them.
    #[cycle(conditions)]
    fn both(&mut self, names: &[Named<'a>], room: u32, bound: Bound) -> Result<Grown, Refusal>
        requires { AreSound names.now }
        ensures gives { GivesBy (IsGrown room) result self.new
            (reading (meanings names.now) bound a_both self.old) }
        ensures shorter { length self.new ≤ length self.old }
    {
        let mut left = self.unit(names, room, bound)?;
        while let Some(Token::And) = self.peek() {
            self.advance();
            let room_behind = room.saturating_sub(left.parts);
            let right = self.unit(names, room_behind, bound)?;
            left = Grown::joined(self.alloc, room, Quantifier::Every, left, right)?;
        }
        Ok(left)
    }

    /// What `and` joins, with `or` between.
    #[cycle(conditions)]
    fn cond(&mut self, names: &[Named<'a>], room: u32, bound: Bound) -> Result<Grown, Refusal>
        requires { AreSound names.now }
        ensures gives { GivesBy (IsGrown room) result self.new
            (reading (meanings names.now) bound a_cond self.old) }
        ensures shorter { length self.new ≤ length self.old }
    {
        let mut left = self.both(names, room, bound)?;
        while let Some(Token::Or) = self.peek() {
            self.advance();
            let room_behind = room.saturating_sub(left.parts);
            let right = self.both(names, room_behind, bound)?;
            left = Grown::joined(self.alloc, room, Quantifier::Any, left, right)?;
        }
        Ok(left)
    }

    /// `any` or `every`, and `class ( cond )`: the condition is read once for each suit or
    /// seat of the class, from the same token on. At most seven quantifiers enclose each other.
    #[cycle(conditions)]
    #[inline(never)]
    fn quantified(&mut self, names: &[Named<'a>], room: u32, bound: Bound) -> Result<Grown, Refusal>
        requires { AreSound names.now }
        ensures gives { GivesBy (IsGrown room) result self.new
            (quantified_by (reading (meanings names.now)) bound self.old) }
        ensures shorter { length self.new ≤ length self.old }
    {
        let quantifier = self.quantifier(bound)?;
        let class = self.class(bound)?;
        self.open()?;
        let start = self.rest;
        let each = Each {
            quantifier,
            class,
            room,
        };
        let first = self.with_choice(names, start, bound, each, Choice::FIRST, None)?;
        let second = self.with_choice(names, start, bound, each, Choice::SECOND, first)?;
        let third = self.with_choice(names, start, bound, each, Choice::THIRD, second)?;
        let last = self.with_choice(names, start, bound, each, Choice::FOURTH, third)?;
        let Some(tree) = last else {
            return Err(Refusal::Syntax);
        };
        self.close()?;
        Ok(tree)
    }

    /// The tree of the condition that begins at `start`, with the suit or the seat in the place of
    /// the class's word, after the tree of those before it. One that isn't of the class adds
    /// nothing.
    #[cycle(conditions)]
    #[inline(never)]
    fn with_choice(
        &mut self,
        names: &[Named<'a>],
        start: &'a [Placed],
        bound: Bound,
        each: Each,
        choice: Choice,
        left: Option<Grown>,
    ) -> Result<Option<Grown>, Refusal>
        requires sound { AreSound names.now }
        requires passed { length self.old ≤ length start.now }
        ensures gives { (t : Option Form) → AreGrown each.room left t
            → GivesBy (AreGrown each.room) result self.new
            (with_choice_by (reading (meanings names.now)) bound each.quantifier each.class
            (kinds start.entry.now) choice t self.old) }
        ensures shorter { length self.new ≤ length start.entry.now }
    {
        if !bound.is_member(each.class, choice) {
            return Ok(left);
        }
        self.rest = start;
        let room = each.room;
        let tree = self.cond(
            names,
            room_behind(room, &left),
            bound.with(each.class, choice),
        )?;
        Ok(Some(Grown::behind(self.alloc, room, each.quantifier, left, tree)?))
    }
}
