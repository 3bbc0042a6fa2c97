//! Which hint a fault gets.

use crate::rules::filling::first_in;
use crate::rules::kinds::Kinds;
use crate::rules::parts::Parts;
use crate::rules::tables::{
    calls, classes, compared, factors, given, honours, instead, joins, lessons, letters, limits,
    lists, more_or_less, names, nouns, or_more, phrases, plain, ranges, ranks, rest, scripts,
    several, shapes, short, sides, signs, suits, texts, whole,
};
use crate::rules::{bounds, likeness, outside};
use std::alloc::{AllocError, Global};

/// A hint's bytes, if there is one.
pub type Said = Result<Option<Vec<u8>>, AllocError>;

/// What may have a hint: the rules of a table, or code.
#[derive(Clone, Copy)]
enum HintSource {
    Rules(&'static str),
    Outside,
    Bounds,
    NameLikeness,
    Likeness,
}

/// What is asked of a piece that isn't in the language, and of a token that isn't allowed there.
static EITHER: [HintSource; 14] = [
    HintSource::Rules(given::RULES),
    HintSource::Rules(texts::RULES),
    HintSource::Rules(whole::RULES),
    HintSource::Rules(plain::RULES),
    HintSource::Rules(sides::RULES),
    HintSource::Outside,
    HintSource::Rules(phrases::RULES),
    HintSource::Rules(suits::RULES),
    HintSource::Rules(classes::RULES),
    HintSource::Bounds,
    HintSource::Rules(several::RULES),
    HintSource::Rules(lists::RULES),
    HintSource::Rules(ranges::RULES),
    HintSource::Rules(more_or_less::RULES),
];

/// What is asked of a piece after `EITHER`.
static PIECE: [HintSource; 16] = [
    HintSource::NameLikeness,
    HintSource::Rules(lessons::RULES),
    HintSource::Rules(or_more::RULES),
    HintSource::Rules(limits::RULES),
    HintSource::Rules(compared::RULES),
    HintSource::Rules(letters::RULES),
    HintSource::Rules(nouns::RULES),
    HintSource::Rules(scripts::RULES),
    HintSource::Rules(short::RULES),
    HintSource::Rules(instead::RULES),
    HintSource::Rules(honours::RULES),
    HintSource::Rules(ranks::RULES),
    HintSource::Rules(names::RULES),
    HintSource::Likeness,
    HintSource::Rules(signs::RULES),
    HintSource::Rules(rest::RULES),
];

/// What is asked of a token after `EITHER`; before it, the rules for shapes.
static TOKEN: [HintSource; 3] = [
    HintSource::Rules(factors::RULES),
    HintSource::Rules(calls::RULES),
    HintSource::Rules(joins::RULES),
];

/// Returns the hint for the piece at the byte `at` of the text, which isn't in the language, if a
/// rule has one.
///
/// # Errors
/// `AllocError` if an allocation failed.
pub fn of_piece(alloc: Global, text: &[u8], at: usize) -> Said {
    let parts = Parts::of(alloc, text, at, Kinds::none())?;
    let said = of_either(alloc, &parts)?;
    if said.is_some() {
        return Ok(said);
    }
    first_of(alloc, &parts, &PIECE)
}

/// Returns the hint for the token at the byte `at` of the text, or for its end, where only these
/// kinds may come, if a rule has one.
///
/// # Errors
/// `AllocError` if an allocation failed.
pub fn of_syntax(alloc: Global, text: &[u8], at: usize, can: &Kinds) -> Said {
    let parts = Parts::of(alloc, text, at, *can)?;
    let said = first_in(alloc, &parts, shapes::RULES)?;
    if said.is_some() {
        return Ok(said);
    }
    let said = of_either(alloc, &parts)?;
    if said.is_some() {
        return Ok(said);
    }
    first_of(alloc, &parts, &TOKEN)
}

fn of_either(alloc: Global, parts: &Parts) -> Said {
    first_of(alloc, parts, &EITHER)
}

/// The first hint that one of these has.
fn first_of(alloc: Global, parts: &Parts, sources: &[HintSource]) -> Said {
    for source in sources {
        let said = hint_of(alloc, parts, *source)?;
        if said.is_some() {
            return Ok(said);
        }
    }
    Ok(None)
}

fn hint_of(alloc: Global, parts: &Parts, source: HintSource) -> Said {
    match source {
        HintSource::Outside => outside::hint(alloc, parts),
        HintSource::Bounds => bounds::hint(alloc, parts),
        HintSource::NameLikeness => likeness::name_hint(alloc, parts),
        HintSource::Likeness => likeness::hint(alloc, parts),
        HintSource::Rules(rules) => first_in(alloc, parts, rules),
    }
}
