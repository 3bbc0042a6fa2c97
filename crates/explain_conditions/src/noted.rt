//! The line on a condition that no deal meets.

ghost use Rattle.std.specs.Prelude.{◌≡◌, ◌++◌, IfOk, MatchOption, OnOk};
ghost use Rattle.std.specs.Prelude.{false, string_bytes, true};
ghost use Rattle.cards.specs.Fixed.{none_fixed};
ghost use Rattle.conditions.specs.declared.limits.TheConstants.{MOST_PARTS};
ghost use Rattle.cond_lang.specs.Form.{form_of};
ghost use Rattle.cond_lang.specs.Limits.{HasAtMostAtoms};
ghost use Rattle.explain_conditions.specs.Note.{ends, note_line, turned_line, turned_range};
ghost use Rattle.screens.specs.Never.{is_never};

use cards::Fixed;
use cond_lang::{Cond, Tree};
use itoa::Buffer;
use screens::unmet::{is_never, is_never_met};
use std::alloc::{AllocError, Global};

/// Returns the note on a condition that no deal around the fixed cards meets, a line with its end:
/// that a range has its ends turned, if that is why, or that it is the fixed cards. Of any other
/// condition there is none.
///
/// # Errors
/// `AllocError` if an allocation failed.
pub fn note(alloc: Global, condition: &Cond, fixed: &Fixed) -> Result<Option<String>, AllocError>
    ensures { IfOk result (λ said. MatchOption said (is_never fixed.now condition.now ≡ false)
        (λ text. (is_never fixed.now condition.now ≡ true)
        × (string_bytes text ≡ note_line (is_never none_fixed condition.now)
        (turned_range fixed.now condition.now)))) }
{
    if !is_never(condition, fixed) {
        return Ok(None);
    }
    let always = is_never(condition, &Fixed::none());
    let mut out = String::new(alloc);
    put_note(&mut out, always, turned_range(condition.tree(), fixed))?;
    Ok(Some(out))
}

/// The ends of the first range that are turned, and for which no deal meets the tree.
fn turned_range(tree: &Tree, fixed: &Fixed) -> Option<(u16, u16)>
    requires { HasAtMostAtoms MOST_PARTS (form_of tree.now) }
    ensures { result ≡ turned_range fixed.now (form_of tree.now) }
{
    match tree {
        Tree::AnyOf(left, right) if is_never_met(tree, fixed) => {
            turned_range(left, fixed).or(turned_range(right, fixed))
        }
        Tree::AllOf(left, right) => turned_range(left, fixed).or(turned_range(right, fixed)),
        Tree::Within(_, first, last) if last < first => Some((*first, *last)),
        _ => None,
    }
}

/// Appends the note.
fn put_note(out: &mut String, always: bool, range: Option<(u16, u16)>) -> Result<(), AllocError>
    ensures { OnOk result (string_bytes out.new
        ≡ string_bytes out.old ++ note_line always range) }
{
    if let Some((first, last)) = range {
        return put_turned(out, first, last);
    }
    if always {
        out.push_str("note: no deal meets this condition, by its numbers alone\n")
    } else {
        out.push_str("note: no deal with these cards meets this condition, by its numbers alone\n")
    }
}

/// Appends the note on a range whose ends are turned.
#[tactic(auto, unfolding(crate::specs::Note::turned_line))]
fn put_turned(out: &mut String, first: u16, last: u16) -> Result<(), AllocError>
    ensures { OnOk result (string_bytes out.new ≡ string_bytes out.old ++ turned_line first last) }
{
    out.push_str("note: no deal meets this condition: in ")?;
    put_ends(out, first, last)?;
    out.push_str(" has its ends turned; write in ")?;
    put_ends(out, last, first)?;
    out.push_str("\n")
}

/// Appends the two ends of a range.
fn put_ends(out: &mut String, first: u16, last: u16) -> Result<(), AllocError>
    ensures { OnOk result (string_bytes out.new ≡ string_bytes out.old ++ ends first last) }
{
    out.push_str(Buffer::new().format(u64::from(first)))?;
    out.push_str("-")?;
    out.push_str(Buffer::new().format(u64::from(last)))
}
