//! What may come at a fault, as a line of text.

ghost use Rattle.std.specs.Prelude.{◌≡◌, ◌≤◌, ◌++◌, [], length, map, not, string_bytes, IfOk};
ghost use Rattle.std.specs.Prelude.{OnOk, if◌then◌else◌};
ghost use Rattle.cond_lang.specs.Kinds.{IsListed};
ghost use Rattle.cond_lang.specs.declared.words.Kind.{Kind as AKind};
ghost use Rattle.explain_conditions.specs.Expected.{begins_test, begins_value, each, expected_line, has_all};
ghost use Rattle.explain_conditions.specs.Expected.{is_described, is_in, joined, kind_name, kind_text};
ghost use Rattle.explain_conditions.specs.Expected.{names_that, separator, term_text, terms};
ghost use Rattle.explain_conditions.specs.internal.Kinds.{in_set, of_value};

use crate::kinds::KindSet;
use cond_lang::{Class, Kind, Neighbour, Quantifier, measure_word, order_word};
use sinks::put_shown;
use std::alloc::{AllocError, Global};

/// What a person is told may come there: a kind, or all kinds that begin a value or a condition.
#[derive(Clone, Copy)]
pub(crate) enum Term {
    Condition,
    Value,
    NewName,
    One(Kind),
}

/// The kinds in three parts.
#[derive(Clone, Copy)]
pub(crate) enum KindGroup {
    /// Those that begin a condition and no value.
    Test,
    /// Those that begin a value.
    Value,
    /// All others.
    Other,
}

/// Whether the kind begins a condition and no value.
fn begins_test(kind: Kind) -> bool
    ensures { result ≡ begins_test kind }
{
    match kind {
        Kind::Not | Kind::Open | Kind::Balanced | Kind::Shape | Kind::Pattern => true,
        Kind::Quantifier(_) | Kind::Stops => true,
        _ => false,
    }
}

/// Whether the kind begins a value.
fn begins_value(kind: Kind) -> bool
    ensures { result ≡ begins_value kind }
{
    match kind {
        Kind::Number | Kind::Measure(_) | Kind::Cards => true,
        Kind::Len | Kind::Ordered(_) => true,
        _ => false,
    }
}

/// Whether the kind is in the part.
fn is_in(part: KindGroup, kind: Kind) -> bool
    ensures { result ≡ is_in part kind }
{
    match part {
        KindGroup::Test => begins_test(kind),
        KindGroup::Value => begins_value(kind),
        KindGroup::Other => !begins_test(kind) && !begins_value(kind),
    }
}

/// Appends the line that says what may come there, in a text with these names; after `let` only a
/// new one may.
pub(crate) fn put_expected(
    alloc: Global,
    out: &mut String,
    can: &KindSet,
    names: &[&[u8]],
    is_new: bool,
) -> Result<(), AllocError>
    requires { length names.now ≤ 5121 }
    ensures { OnOk result (string_bytes out.new ≡ string_bytes out.old
        ++ expected_line is_new (map (λ p. p.now) names.now) (of_value can.now) (in_set can.now)) }
{
    let terms = terms(alloc, can, names, is_new)?;
    out.push_str("  expected ")?;
    put_joined(out, names, terms.as_slice())?;
    out.push_str("\n")
}

/// The terms for the kinds of the set, and for the names.
#[tactic(auto, unfolding(crate::specs::Expected::terms))]
fn terms(
    alloc: Global,
    can: &KindSet,
    names: &[&[u8]],
    is_new: bool,
) -> Result<Vec<Term>, AllocError>
    requires { length names.now ≤ 5121 }
    ensures { IfOk result (λ ts. ts.items
        ≡ terms is_new (map (λ p. p.now) names.now) (of_value can.now) (in_set can.now)) }
{
    let mut terms = Vec::new(alloc);
    if is_new {
        terms.push(Term::NewName)?;
        return Ok(terms);
    }
    let value = has_all(can, KindGroup::Value, &Kind::ALL);
    if has_all(can, KindGroup::Test, &Kind::ALL) && value {
        terms.push(Term::Condition)?;
    } else {
        put_each(&mut terms, can, KindGroup::Test, &Kind::ALL)?;
        if value {
            terms.push(Term::Value)?;
        } else {
            put_each(&mut terms, can, KindGroup::Value, &Kind::ALL)?;
        }
    }
    put_names(&mut terms, can, false, names)?;
    put_names(&mut terms, can, true, names)?;
    put_each(&mut terms, can, KindGroup::Other, &Kind::ALL)?;
    Ok(terms)
}

/// Whether the name stands for a value, or for a condition.
fn is_wanted(can: &KindSet, of_values: bool, name: u16) -> bool
    ensures { result ≡ (if of_values then of_value can.now (AKind.Name name)
        else not (of_value can.now (AKind.Name name))) }
{
    if of_values {
        can.is_value(name)
    } else {
        !can.is_value(name)
    }
}

/// Appends those of the names that are in the set and stand for values, or for conditions.
fn put_names(
    terms: &mut Vec<Term>,
    can: &KindSet,
    of_values: bool,
    mut names: &[&[u8]],
) -> Result<(), AllocError>
    requires { length names.now ≤ 5121 }
    ensures { OnOk result (terms.new.items ≡ terms.old.items
        ++ names_that of_values (of_value can.now) (in_set can.now)
        (map (λ p. p.now) names.entry.now)) }
{
    let mut number: u16 = 0;
    while let [_, more @ ..] = names {
        let name = Kind::Name(number);
        if can.has(name) && is_wanted(can, of_values, number) {
            terms.push(Term::One(name))?;
        }
        number += 1;
        names = more;
    }
    Ok(())
}

/// Whether all these kinds that are in the part are in the set.
fn has_all(can: &KindSet, part: KindGroup, kinds: &[Kind]) -> bool
    ensures { result ≡ has_all (in_set can.now) part kinds.now }
{
    kinds
        .iter()
        .all(|kind| !is_in(part, *kind) || can.has(*kind))
}

/// Appends those of the kinds that are in the part and in the set, each by itself.
fn put_each(
    terms: &mut Vec<Term>,
    can: &KindSet,
    part: KindGroup,
    kinds: &[Kind],
) -> Result<(), AllocError>
    ensures { OnOk result (terms.new.items
        ≡ terms.old.items ++ each (in_set can.now) part kinds.now) }
{
    for kind in kinds {
        if is_in(part, *kind) && can.has(*kind) {
            terms.push(Term::One(*kind))?;
        }
    }
    Ok(())
}

/// Appends the terms, with commas and `or` between them.
fn put_joined(out: &mut String, names: &[&[u8]], mut terms: &[Term]) -> Result<(), AllocError>
    ensures { OnOk result (string_bytes out.new ≡ string_bytes out.old
        ++ joined (map (λ p. p.now) names.now) terms.entry.now) }
{
    while let [term, more @ ..] = terms {
        put_term(out, names, *term)?;
        out.push_str(separator(more.len()))?;
        terms = more;
    }
    Ok(())
}

/// What comes after a term with this many more to come.
fn separator(more: usize) -> &'static str
    ensures { result.now ≡ separator more }
{
    match more {
        0 => "",
        1 => " or ",
        _ => ", ",
    }
}

/// Appends what the term is called.
fn put_term(out: &mut String, names: &[&[u8]], term: Term) -> Result<(), AllocError>
    ensures { OnOk result (string_bytes out.new ≡ string_bytes out.old
        ++ term_text (map (λ p. p.now) names.now) term) }
{
    match term {
        Term::Condition => out.push_str("a condition such as balanced(north)"),
        Term::Value => out.push_str("a value such as hcp(north)"),
        Term::NewName => out.push_str("a new name"),
        Term::One(Kind::Name(number)) => put_name(out, names, number),
        Term::One(kind) => put_kind(out, kind),
    }
}

/// Appends the name with this number, in quotes.
fn put_name(out: &mut String, names: &[&[u8]], number: u16) -> Result<(), AllocError>
    ensures { OnOk result (string_bytes out.new ≡ string_bytes out.old
        ++ kind_text (map (λ p. p.now) names.now) (AKind.Name number)) }
{
    out.push_str("\"")?;
    if let Some(name) = names.get(number as usize) {
        put_shown(out, name)?;
    }
    out.push_str("\"")
}

/// Appends what the kind is called, in quotes if it is written so.
fn put_kind(out: &mut String, kind: Kind) -> Result<(), AllocError>
    requires { IsListed kind }
    ensures { OnOk result (string_bytes out.new ≡ string_bytes out.old ++ kind_text [] kind) }
{
    if is_described(kind) {
        return out.push_str(kind_name(kind));
    }
    out.push_str("\"")?;
    out.push_str(kind_name(kind))?;
    out.push_str("\"")
}

/// Whether the kind is described, since several texts are of it or none.
fn is_described(kind: Kind) -> bool
    ensures { result ≡ is_described kind }
{
    match kind {
        Kind::Number | Kind::Relation | Kind::Seat => true,
        Kind::Suit | Kind::Ranks | Kind::End => true,
        _ => false,
    }
}

/// The text of the kind, or what describes it.
fn kind_name(kind: Kind) -> &'static str
    ensures { result.now ≡ kind_name kind }
{
    match kind {
        Kind::Let => "let",
        Kind::Not => "not",
        Kind::Open => "(",
        Kind::Balanced => "balanced",
        Kind::Shape => "shape",
        Kind::Pattern => "pattern",
        Kind::Quantifier(Quantifier::Any) => "any",
        Kind::Quantifier(Quantifier::Every) => "every",
        Kind::Stops => "stops",
        Kind::Number => "a number",
        Kind::Measure(measure) => measure_word(measure),
        Kind::Cards => "cards",
        Kind::Len => "len",
        Kind::Ordered(order) => order_word(order),
        Kind::Plus => "+",
        Kind::Star => "*",
        Kind::Relation => "a comparison such as >=",
        Kind::In => "in",
        Kind::Dash => "-",
        Kind::X => "x",
        Kind::Comma => ",",
        Kind::Seat => "a seat",
        Kind::Class(Class::Seat) => "seat",
        Kind::Class(Class::NorthSouth) => "ns",
        Kind::Class(Class::EastWest) => "ew",
        Kind::Neighbour(Neighbour::Partner) => "partner",
        Kind::Neighbour(Neighbour::Left) => "left",
        Kind::Neighbour(Neighbour::Right) => "right",
        Kind::Suit => "a suit",
        Kind::Class(Class::Suit) => "suit",
        Kind::Class(Class::Major) => "major",
        Kind::Class(Class::Minor) => "minor",
        Kind::Class(Class::Other) => "other",
        Kind::Ranks => "ranks such as akq",
        Kind::Name(_) => "",
        Kind::Is => "is",
        Kind::Close => ")",
        Kind::And => "and",
        Kind::Or => "or",
        Kind::End => "the end",
    }
}
