//! Numbers, and what counts in a hand: a measure, cards of some ranks, or a length.

ghost use Rattle.std.specs.Prelude.{◌≡◌, ◌≤◌, length, IfOk};
ghost use Rattle.conditions.specs.Form.{amount_of};
ghost use Rattle.conditions.specs.Limits.{atoms_of};
ghost use Rattle.cond_lang.specs.internal.Reading.{Gives, rest_of_measure, rest_of_cards};
ghost use Rattle.cond_lang.specs.internal.Reading.{number_or_count, rest_of_number};
ghost use Rattle.cond_lang.specs.internal.Reading.{count_of, suit_and_ranks, suit_count};

use super::{Parser, Refusal};
use crate::classes::Bound;
use crate::scanner::Token;
use cards::{Measure, Seat};
use conditions::{Count, Value};

impl<'a> Parser<'a> {
    /// A number, that many times what is counted, or what is counted.
    #[tactic(auto, unfolding(crate::specs::internal::Reading::number_or_count))]
    pub(super) fn number_or_count(&mut self, bound: Bound) -> Result<Value, Refusal>
        ensures gives { Gives amount_of result self.new (number_or_count bound self.old) }
        ensures one { IfOk result (λ v. atoms_of (amount_of v) ≡ 1) }
        ensures shorter { length self.new ≤ length self.old }
    {
        match self.peek() {
            Some(Token::Number(number)) => {
                self.advance();
                self.rest_of_number(bound, number)
            }
            _ => Ok(Value::Count(self.count(bound)?)),
        }
    }

    /// Nothing, or `* counted`, after a number
    fn rest_of_number(&mut self, bound: Bound, number: u16) -> Result<Value, Refusal>
        ensures gives { Gives amount_of result self.new (rest_of_number bound number self.old) }
        ensures one { IfOk result (λ v. atoms_of (amount_of v) ≡ 1) }
        ensures shorter { length self.new ≤ length self.old }
    {
        if let Some(Token::Star) = self.peek() {
            self.advance();
            return Ok(Value::Times(number, self.count(bound)?));
        }
        Ok(Value::Number(number))
    }

    /// A measure of a hand or suit, cards of some ranks, or a length.
    #[tactic(auto, unfolding(crate::specs::internal::Reading::count_of))]
    fn count(&mut self, bound: Bound) -> Result<Count, Refusal>
        ensures gives { Gives (λ k. k) result self.new (count_of bound self.old) }
        ensures shorter { length self.new ≤ length self.old }
    {
        match self.peek() {
            Some(Token::Measure(measure)) => {
                self.advance();
                let seat = self.open_seat(bound)?;
                self.rest_of_measure(bound, measure, seat)
            }
            Some(Token::Len) => {
                self.advance();
                let (seat, suit) = self.seat_and_suit(bound)?;
                Ok(Count::Length(seat, suit))
            }
            Some(Token::Cards) => {
                self.advance();
                let seat = self.open_seat_comma(bound)?;
                self.rest_of_cards(bound, seat)
            }
            _ => self.suit_count(bound),
        }
    }

    /// The length of a hand's suit by its order among the four.
    fn suit_count(&mut self, bound: Bound) -> Result<Count, Refusal>
        ensures gives { Gives (λ k. k) result self.new (suit_count bound self.old) }
        ensures shorter { length self.new ≤ length self.old }
    {
        match self.peek() {
            Some(Token::Ordered(order)) => {
                self.advance();
                Ok(Count::Ordered(order, self.seat_in_brackets(bound)?))
            }
            _ => Err(Refusal::Syntax),
        }
    }

    /// `)` or `, suit )` after `measure ( seat`
    fn rest_of_measure(
        &mut self,
        bound: Bound,
        measure: Measure,
        seat: Seat,
    ) -> Result<Count, Refusal>
        ensures gives { Gives (λ k. k) result self.new
            (rest_of_measure bound measure seat self.old) }
        ensures shorter { length self.new ≤ length self.old }
    {
        if let Some(Token::Comma) = self.peek() {
            self.advance();
            let suit = self.suit(bound)?;
            self.close()?;
            return Ok(Count::SuitTotal(measure, seat, suit));
        }
        self.close()?;
        Ok(Count::Total(measure, seat))
    }

    /// `ranks )` or `suit , ranks )` after `cards ( seat ,`
    fn rest_of_cards(&mut self, bound: Bound, seat: Seat) -> Result<Count, Refusal>
        ensures gives { Gives (λ k. k) result self.new (rest_of_cards bound seat self.old) }
        ensures shorter { length self.new ≤ length self.old }
    {
        match self.peek() {
            Some(Token::Suit(_)) => self.suit_and_ranks(bound, seat),
            Some(Token::Class(_)) => self.suit_and_ranks(bound, seat),
            _ => Ok(Count::Cards(seat, self.ranks_close()?)),
        }
    }

    /// `suit , ranks )` after `cards ( seat ,`
    fn suit_and_ranks(&mut self, bound: Bound, seat: Seat) -> Result<Count, Refusal>
        ensures gives { Gives (λ k. k) result self.new (suit_and_ranks bound seat self.old) }
        ensures shorter { length self.new ≤ length self.old }
    {
        let suit = self.suit(bound)?;
        self.comma()?;
        Ok(Count::SuitCards(seat, suit, self.ranks_close()?))
    }
}
