//! Conditions: a refused growth is `Memory`, and leaves nothing after.

use crate::support::{equals, holds};
use cards::{Deal, Places};
use cond_lang::{Cond, CondError, parse};
use lcg48::Lcg48;
use std::process::Abort;

/// Conditions that hold of every deal, so a part that was lost would show.
const ALWAYS: [&[u8]; 6] = [
    b"0==0",
    b"not not 1==1",
    b"1+2+3==6",
    b"(0==1 or 0==0) and not (1==2 and 2==2)",
    b"hcp(north)+hcp(east)+hcp(south)+hcp(west)==40",
    b"balanced(north) or not balanced(north) or shape(east,4-4-4-1) or pattern(west,5-4-3-1)",
];

fn first_deal() -> Deal {
    Deal::shuffled(&Places::draw(&mut Lcg48::seeded(0)))
}

/// Aborts unless the condition holds of the deal, or was refused since memory ran out.
fn holds_or_wants_memory(rt: &impl Abort, condition: &Result<Cond, CondError>, deal: &Deal) {
    match condition {
        Ok(condition) => holds(rt, "the condition holds", condition.holds(deal)),
        Err(error) => equals(rt, error, &CondError::Memory),
    }
}

/// A text is parsed, or refused since memory ran out.
#[test]
fn parses_or_wants_memory(rt: HostRuntime) {
    let deal = first_deal();
    for text in ALWAYS.iter() {
        holds_or_wants_memory(&rt, &parse(rt.alloc(), text), &deal);
    }
}

/// A malformed condition is never accepted.
#[test]
fn refuses_or_wants_memory(rt: HostRuntime) {
    let parsed = parse(rt.alloc(), b"not (1+2==3 and 4+5==9) or 6==");
    let is_refused = matches!(
        parsed,
        Err(CondError::Memory) | Err(CondError::Syntax { at: 30 })
    );
    holds(&rt, "no condition", is_refused);
}

fn checks_clone(rt: &impl Abort, condition: &Cond, deal: &Deal) {
    holds_or_wants_memory(rt, &condition.try_clone(), deal);
    holds(rt, "the original holds", condition.holds(deal));
}

/// A clone holds as its original does, which stays as it was where the clone is refused.
#[test]
fn clones_or_wants_memory(rt: HostRuntime) {
    let deal = first_deal();
    for text in ALWAYS.iter() {
        if let Ok(condition) = parse(rt.alloc(), text) {
            checks_clone(&rt, &condition, &deal);
        }
    }
}
