//! The parser's smallest parts: single tokens, and the short runs of tokens that its rules share.

ghost use Rattle.std.specs.Prelude.{◌<◌, ◌≤◌, length, IfOk};
ghost use Rattle.cond_lang.specs.internal.Reading.{Gives, opened, closed, comma, dash, seat, suit};
ghost use Rattle.cond_lang.specs.internal.Reading.{quantifier, class, seat_and_suit};
ghost use Rattle.cond_lang.specs.internal.Reading.{digits, ranks, item, relation, open_seat};
ghost use Rattle.cond_lang.specs.internal.Reading.{open_seat_comma, seat_in_brackets, range};
ghost use Rattle.cond_lang.specs.internal.Reading.{comma_suit_close, ranks_close};
ghost use Rattle.cond_lang.specs.internal.Reading.{items, seat_and_items};

use super::{Parser, Refusal};
use crate::classes::{Bound, Class, Quantifier};
use crate::scanner::Token;
use cards::{Honours, Seat, Suit};
use conditions::{Item, Op};

impl<'a> Parser<'a> {
    pub(super) fn open(&mut self) -> Result<(), Refusal>
        ensures gives { Gives (λ _. tt) result self.new (opened self.old) }
        ensures shorter { length self.new ≤ length self.old }
    {
        let Some(Token::Open) = self.peek() else {
            return Err(Refusal::Syntax);
        };
        self.advance();
        Ok(())
    }

    pub(super) fn close(&mut self) -> Result<(), Refusal>
        ensures gives { Gives (λ _. tt) result self.new (closed self.old) }
        ensures shorter { length self.new ≤ length self.old }
    {
        let Some(Token::Close) = self.peek() else {
            return Err(Refusal::Syntax);
        };
        self.advance();
        Ok(())
    }

    pub(super) fn comma(&mut self) -> Result<(), Refusal>
        ensures gives { Gives (λ _. tt) result self.new (comma self.old) }
        ensures shorter { length self.new ≤ length self.old }
    {
        let Some(Token::Comma) = self.peek() else {
            return Err(Refusal::Syntax);
        };
        self.advance();
        Ok(())
    }

    pub(super) fn dash(&mut self) -> Result<(), Refusal>
        ensures gives { Gives (λ _. tt) result self.new (dash self.old) }
        ensures shorter { length self.new ≤ length self.old }
    {
        let Some(Token::Dash) = self.peek() else {
            return Err(Refusal::Syntax);
        };
        self.advance();
        Ok(())
    }

    /// A seat, a bound class, which is the seat that it means, or a neighbour of such a seat.
    #[cycle(seats)]
    pub(super) fn seat(&mut self, bound: Bound) -> Result<Seat, Refusal>
        ensures gives { Gives (λ q. q) result self.new (seat bound self.old) }
        ensures shorter { length self.new ≤ length self.old }
    {
        let named = match self.peek() {
            Some(Token::Seat(seat)) => Some(seat),
            Some(Token::Class(class)) => bound.seat_of(class),
            Some(Token::Neighbour(neighbour)) => {
                self.advance();
                self.open()?;
                let seat = self.seat(bound)?;
                self.close()?;
                return Ok(neighbour.of(seat));
            }
            _ => None,
        };
        let Some(seat) = named else {
            return Err(Refusal::Syntax);
        };
        self.advance();
        Ok(seat)
    }

    /// A suit, or a bound class, which is the suit that it means.
    pub(super) fn suit(&mut self, bound: Bound) -> Result<Suit, Refusal>
        ensures gives { Gives (λ s. s) result self.new (suit bound self.old) }
        ensures shorter { length self.new ≤ length self.old }
    {
        let named = match self.peek() {
            Some(Token::Suit(suit)) => Some(suit),
            Some(Token::Class(class)) => bound.suit_of(class),
            _ => None,
        };
        let Some(suit) = named else {
            return Err(Refusal::Syntax);
        };
        self.advance();
        Ok(suit)
    }

    /// A quantifier, where some class can be bound.
    pub(super) fn quantifier(&mut self, bound: Bound) -> Result<Quantifier, Refusal>
        ensures gives { Gives (λ k. k) result self.new (quantifier bound self.old) }
        ensures shorter { length self.new ≤ length self.old }
        ensures passed { IfOk result (λ _. length self.new < length self.old) }
    {
        let Some(Token::Quantifier(quantifier)) = self.peek() else {
            return Err(Refusal::Syntax);
        };
        if !bound.can_quantify() {
            return Err(Refusal::Syntax);
        }
        self.advance();
        Ok(quantifier)
    }

    /// A class that can be bound.
    pub(super) fn class(&mut self, bound: Bound) -> Result<Class, Refusal>
        ensures gives { Gives (λ c. c) result self.new (class bound self.old) }
        ensures shorter { length self.new ≤ length self.old }
    {
        let Some(Token::Class(class)) = self.peek() else {
            return Err(Refusal::Syntax);
        };
        if !bound.can_bind(class) {
            return Err(Refusal::Syntax);
        }
        self.advance();
        Ok(class)
    }

    pub(super) fn number(&mut self) -> Result<u16, Refusal>
        ensures gives { Gives (λ n. n) result self.new (digits self.old) }
        ensures shorter { length self.new ≤ length self.old }
    {
        let Some(Token::Number(number)) = self.peek() else {
            return Err(Refusal::Syntax);
        };
        self.advance();
        Ok(number)
    }

    pub(super) fn ranks(&mut self) -> Result<Honours, Refusal>
        ensures gives { Gives (λ h. h) result self.new (ranks self.old) }
        ensures shorter { length self.new ≤ length self.old }
    {
        let Some(Token::Ranks(ranks)) = self.peek() else {
            return Err(Refusal::Syntax);
        };
        self.advance();
        Ok(ranks)
    }

    /// A number or `x`.
    pub(super) fn item(&mut self) -> Result<Item, Refusal>
        ensures gives { Gives (λ i. i) result self.new (item self.old) }
        ensures shorter { length self.new ≤ length self.old }
    {
        let item = match self.peek() {
            Some(Token::Number(number)) => Item::Length(number),
            Some(Token::X) => Item::Any,
            _ => return Err(Refusal::Syntax),
        };
        self.advance();
        Ok(item)
    }

    pub(super) fn relation(&mut self) -> Result<Op, Refusal>
        ensures gives { Gives (λ o. o) result self.new (relation self.old) }
        ensures shorter { length self.new ≤ length self.old }
    {
        let Some(Token::Relation(op)) = self.peek() else {
            return Err(Refusal::Syntax);
        };
        self.advance();
        Ok(op)
    }

    /// `( seat`
    pub(super) fn open_seat(&mut self, bound: Bound) -> Result<Seat, Refusal>
        ensures gives { Gives (λ q. q) result self.new (open_seat bound self.old) }
        ensures shorter { length self.new ≤ length self.old }
    {
        self.open()?;
        self.seat(bound)
    }

    /// `( seat )`
    pub(super) fn seat_in_brackets(&mut self, bound: Bound) -> Result<Seat, Refusal>
        ensures gives { Gives (λ q. q) result self.new (seat_in_brackets bound self.old) }
        ensures shorter { length self.new ≤ length self.old }
    {
        let seat = self.open_seat(bound)?;
        self.close()?;
        Ok(seat)
    }

    /// `( seat ,`
    pub(super) fn open_seat_comma(&mut self, bound: Bound) -> Result<Seat, Refusal>
        ensures gives { Gives (λ q. q) result self.new (open_seat_comma bound self.old) }
        ensures shorter { length self.new ≤ length self.old }
    {
        let seat = self.open_seat(bound)?;
        self.comma()?;
        Ok(seat)
    }

    /// `ranks )`
    pub(super) fn ranks_close(&mut self) -> Result<Honours, Refusal>
        ensures gives { Gives (λ h. h) result self.new (ranks_close self.old) }
        ensures shorter { length self.new ≤ length self.old }
    {
        let ranks = self.ranks()?;
        self.close()?;
        Ok(ranks)
    }

    /// `number - number`
    pub(super) fn range(&mut self) -> Result<(u16, u16), Refusal>
        ensures gives { Gives (λ p. (p.0, p.1)) result self.new (range self.old) }
        ensures shorter { length self.new ≤ length self.old }
    {
        let least = self.number()?;
        self.dash()?;
        let most = self.number()?;
        Ok((least, most))
    }

    /// `, suit )`
    fn comma_suit_close(&mut self, bound: Bound) -> Result<Suit, Refusal>
        ensures gives { Gives (λ s. s) result self.new (comma_suit_close bound self.old) }
        ensures shorter { length self.new ≤ length self.old }
    {
        self.comma()?;
        let suit = self.suit(bound)?;
        self.close()?;
        Ok(suit)
    }

    /// `( seat , suit )`
    pub(super) fn seat_and_suit(&mut self, bound: Bound) -> Result<(Seat, Suit), Refusal>
        ensures gives { Gives (λ p. (p.0, p.1)) result self.new (seat_and_suit bound self.old) }
        ensures shorter { length self.new ≤ length self.old }
    {
        let seat = self.open_seat(bound)?;
        let suit = self.comma_suit_close(bound)?;
        Ok((seat, suit))
    }

    /// `item - item - item - item`
    #[tactic(auto, unfolding(crate::specs::internal::Reading::items))]
    pub(super) fn items(&mut self) -> Result<[Item; 4], Refusal>
        ensures gives { Gives (λ n. n) result self.new (items self.old) }
        ensures shorter { length self.new ≤ length self.old }
    {
        let spades = self.item()?;
        self.dash()?;
        let hearts = self.item()?;
        self.dash()?;
        let diamonds = self.item()?;
        self.dash()?;
        let clubs = self.item()?;
        Ok([spades, hearts, diamonds, clubs])
    }

    /// `( seat , item - item - item - item )`
    #[tactic(auto, unfolding(crate::specs::internal::Reading::seat_and_items))]
    pub(super) fn seat_and_items(&mut self, bound: Bound) -> Result<(Seat, [Item; 4]), Refusal>
        ensures gives { Gives (λ p. (p.0, p.1)) result self.new (seat_and_items bound self.old) }
        ensures shorter { length self.new ≤ length self.old }
    {
        let seat = self.open_seat(bound)?;
        self.comma()?;
        let items = self.items()?;
        self.close()?;
        Ok((seat, items))
    }
}
