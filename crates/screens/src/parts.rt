//! How many parts a condition has.

ghost use Rattle.std.specs.Prelude.{◌≡◌, ◌-◌};
ghost use Rattle.conditions.specs.Form.{amount_of, form_of};
ghost use Rattle.conditions.specs.Limits.{atoms_of, parts_of};

use conditions::{Tree, Value};

/// What is left of the room after a place for each part of the tree, at least 0.
pub fn room_after(tree: &Tree, room: u32) -> u32
    ensures { result ≡ room - parts_of (form_of tree.now) }
{
    match tree {
        Tree::AnyOf(left, right) | Tree::AllOf(left, right) => {
            room_after(right, room_after(left, room))
        }
        Tree::Negation(inner) => room_after(inner, room),
        Tree::Compare { left, right, .. } => room_after_value(right, room_after_value(left, room)),
        Tree::Within(value, _, _) => room_after_value(value, room),
        _ => room.saturating_sub(1),
    }
}

/// The same after a value.
fn room_after_value(value: &Value, room: u32) -> u32
    ensures { result ≡ room - atoms_of (amount_of value.now) }
{
    match value {
        Value::Sum(left, right) => room_after_value(right, room_after_value(left, room)),
        _ => room.saturating_sub(1),
    }
}
