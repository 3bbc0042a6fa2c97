//! Trees as text: each variant by its name, with its fields in brackets.

use cards::{Honours, Seat, Suit};
use cond_lang::{Count, Item, Op, Tree, Value, measure_word, order_word};
use std::alloc::{AllocError, Global};

/// The tree as text.
pub fn tree_text(alloc: Global, tree: &Tree) -> Result<String, AllocError> {
    match tree {
        Tree::AnyOf(left, right) => two(
            alloc,
            "AnyOf",
            tree_text(alloc, left)?,
            tree_text(alloc, right)?,
        ),
        Tree::AllOf(left, right) => two(
            alloc,
            "AllOf",
            tree_text(alloc, left)?,
            tree_text(alloc, right)?,
        ),
        Tree::Negation(inner) => one(alloc, "Negation", tree_text(alloc, inner)?),
        Tree::Compare { left, op, right } => compared(
            alloc,
            value_text(alloc, left)?,
            *op,
            value_text(alloc, right)?,
        ),
        Tree::Within(value, least, most) => {
            within(alloc, value_text(alloc, value)?, *least, *most)
        }
        Tree::Balanced(seat) => call(alloc, "Balanced", &[seat_text(*seat)]),
        Tree::Shape(seat, lengths) => of_seat(alloc, "Shape", *seat, listed(alloc, lengths)?),
        Tree::Pattern(seat, lengths) => of_seat(alloc, "Pattern", *seat, listed(alloc, lengths)?),
        Tree::LooseShape(seat, items) => {
            of_seat(alloc, "LooseShape", *seat, items_text(alloc, items)?)
        }
        Tree::LoosePattern(seat, items) => {
            of_seat(alloc, "LoosePattern", *seat, items_text(alloc, items)?)
        }
        Tree::Stops(seat, suit) => call(alloc, "Stops", &[seat_text(*seat), suit_text(*suit)]),
    }
}

fn count_text(alloc: Global, count: &Count) -> Result<String, AllocError> {
    match count {
        Count::Total(measure, seat) => {
            call(alloc, "Total", &[measure_word(*measure), seat_text(*seat)])
        }
        Count::SuitTotal(measure, seat, suit) => call(
            alloc,
            "SuitTotal",
            &[measure_word(*measure), seat_text(*seat), suit_text(*suit)],
        ),
        Count::Cards(seat, ranks) => of_seat(alloc, "Cards", *seat, ranks_text(alloc, *ranks)?),
        Count::SuitCards(seat, suit, ranks) => {
            let ranks = ranks_text(alloc, *ranks)?;
            call(
                alloc,
                "SuitCards",
                &[seat_text(*seat), suit_text(*suit), ranks.as_str()],
            )
        }
        Count::Length(seat, suit) => call(alloc, "Length", &[seat_text(*seat), suit_text(*suit)]),
        Count::Ordered(order, seat) => call(
            alloc,
            "Ordered",
            &[order_word(*order), seat_text(*seat)],
        ),
    }
}

fn value_text(alloc: Global, value: &Value) -> Result<String, AllocError> {
    match value {
        Value::Number(number) => one(alloc, "Number", number.to_string(alloc)?),
        Value::Count(count) => count_text(alloc, count),
        Value::Times(factor, count) => two(
            alloc,
            "Times",
            factor.to_string(alloc)?,
            count_text(alloc, count)?,
        ),
        Value::Sum(left, right) => two(
            alloc,
            "Sum",
            value_text(alloc, left)?,
            value_text(alloc, right)?,
        ),
    }
}

/// A variant and its fields.
fn call(alloc: Global, name: &str, fields: &[&str]) -> Result<String, AllocError> {
    let fields = fields.join(alloc, ", ")?;
    [name, "(", fields.as_str(), ")"].concat(alloc)
}

fn one(alloc: Global, name: &str, field: String) -> Result<String, AllocError> {
    call(alloc, name, &[field.as_str()])
}

fn two(alloc: Global, name: &str, left: String, right: String) -> Result<String, AllocError> {
    call(alloc, name, &[left.as_str(), right.as_str()])
}

fn of_seat(alloc: Global, name: &str, seat: Seat, field: String) -> Result<String, AllocError> {
    call(alloc, name, &[seat_text(seat), field.as_str()])
}

fn compared(alloc: Global, left: String, op: Op, right: String) -> Result<String, AllocError> {
    [
        "Compare { left: ",
        left.as_str(),
        ", op: ",
        op_text(op),
        ", right: ",
        right.as_str(),
        " }",
    ]
    .concat(alloc)
}

fn within(alloc: Global, value: String, least: u16, most: u16) -> Result<String, AllocError> {
    let least = least.to_string(alloc)?;
    let most = most.to_string(alloc)?;
    call(
        alloc,
        "Within",
        &[value.as_str(), least.as_str(), most.as_str()],
    )
}

/// The four lengths in square brackets.
fn listed(alloc: Global, lengths: &[u16; 4]) -> Result<String, AllocError> {
    format!(in alloc; "{lengths:?}")
}

/// The four items in square brackets, an `x` as `Any`.
fn items_text(alloc: Global, items: &[Item; 4]) -> Result<String, AllocError> {
    let mut text = String::new(alloc);
    for item in items {
        text.push_str(if text.is_empty() { "[" } else { ", " })?;
        match item {
            Item::Length(length) => {
                let length = one(alloc, "Length", length.to_string(alloc)?)?;
                text.push_str(length.as_str())?;
            }
            Item::Any => text.push_str("Any")?,
        }
    }
    text.push_str("]")?;
    Ok(text)
}

/// The letters of the ranks that are counted.
fn ranks_text(alloc: Global, ranks: Honours) -> Result<String, AllocError> {
    let letters = [
        (ranks.ace, 'A'),
        (ranks.king, 'K'),
        (ranks.queen, 'Q'),
        (ranks.jack, 'J'),
        (ranks.ten, 'T'),
    ];
    let mut text = String::new(alloc);
    for (is_counted, letter) in letters {
        if is_counted {
            text.push(letter)?;
        }
    }
    Ok(text)
}

fn seat_text(seat: Seat) -> &'static str {
    match seat {
        Seat::North => "North",
        Seat::East => "East",
        Seat::South => "South",
        Seat::West => "West",
    }
}

fn suit_text(suit: Suit) -> &'static str {
    match suit {
        Suit::Spades => "Spades",
        Suit::Hearts => "Hearts",
        Suit::Diamonds => "Diamonds",
        Suit::Clubs => "Clubs",
    }
}

fn op_text(op: Op) -> &'static str {
    match op {
        Op::Equal => "Equal",
        Op::NotEqual => "NotEqual",
        Op::Less => "Less",
        Op::AtMost => "AtMost",
        Op::More => "More",
        Op::AtLeast => "AtLeast",
    }
}
