//! Whether no deal meets a condition.

ghost use Rattle.std.specs.Prelude.{◌≡◌, false, IsTrue, List};
ghost use Rattle.cards.specs.declared.seat.Seat.{Seat as ASeat};
ghost use Rattle.conditions.specs.declared.limits.TheConstants.{MOST_PARTS};
ghost use Rattle.conditions.specs.Form.{form_of};
ghost use Rattle.conditions.specs.Limits.{HasAtMostAtoms};
ghost use Rattle.conditions.specs.Meaning.{holds};
ghost use Rattle.screens.specs.Completions.{Keeps};
ghost use Rattle.screens.specs.Never.{is_never, is_never_part};

use crate::room_after;
use crate::unmet::torn::is_torn;
use cards::Fixed;
use conditions::{Cond, Tree};

/// The most parts that a condition is looked through for: each takes some nanoseconds for each way
/// to split a whole.
const MOST_LOOKED_AT: u32 = 512;

/// Tells whether no deal around the fixed cards meets the condition: by the least and the greatest
/// that its values can be, by the 560 shapes of a hand, and by how the seats can share a suit, the
/// points, the controls, or the cards of some ranks.
///
/// `false` says nothing: there are other reasons why no deal meets a condition, and one of more
/// than 512 parts isn't looked through.
pub fn is_never(condition: &Cond, fixed: &Fixed) -> bool
    ensures value { result ≡ is_never fixed.now condition.now }
    ensures sound { IsTrue result → (deal : List ASeat) → Keeps fixed.now deal
        → holds condition.now deal ≡ false }
{
    // It is asked for what its contract says: no seat has more than thirteen.
    let _free = fixed.free();
    is_never_met(condition.tree(), fixed)
}

/// Tells the same of a tree.
pub fn is_never_met(tree: &Tree, fixed: &Fixed) -> bool
    requires { HasAtMostAtoms MOST_PARTS (form_of tree.now) }
    ensures { result ≡ is_never fixed.now (form_of tree.now) }
{
    room_after(tree, MOST_LOOKED_AT + 1) > 0 && is_never_part(tree, fixed, true)
}

/// Whether no deal meets the tree. Of a conjunction that was looked at as a whole the parts aren't
/// looked at again, but for alternatives in them.
fn is_never_part(tree: &Tree, fixed: &Fixed, is_new: bool) -> bool
    requires { HasAtMostAtoms MOST_PARTS (form_of tree.now) }
    ensures { result ≡ is_never_part fixed.now is_new (form_of tree.now) }
{
    match tree {
        Tree::AnyOf(left, right) => {
            is_never_part(left, fixed, true) && is_never_part(right, fixed, true)
        }
        Tree::AllOf(left, right) => {
            (is_new && is_torn(tree, fixed))
                || (is_never_part(left, fixed, false) || is_never_part(right, fixed, false))
        }
        _ => is_new && is_torn(tree, fixed),
    }
}
