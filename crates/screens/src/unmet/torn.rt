//! Trees that aren't met however some whole is split.

ghost use Rattle.std.specs.Prelude.{◌≡◌, ◌≤◌};
ghost use Rattle.conditions.specs.declared.limits.TheConstants.{MOST_PARTS};
ghost use Rattle.conditions.specs.Form.{amount_of, form_of};
ghost use Rattle.conditions.specs.Limits.{HasAtMostAtoms};
ghost use Rattle.screens.specs.Torn.{asks_ranks, counts_ranks, hands_tear, is_of_ranks, is_torn};
ghost use Rattle.screens.specs.Torn.{is_torn_by_measure, is_torn_by_ranks, is_torn_in, ranks_tear};
ghost use Rattle.screens.specs.Torn.{shapes_tear, suit_measures_tear, suit_ranks_tear, suits_tear};

use crate::unmet::wholes::{Whole, honours_by};
use cards::{Fixed, Honours, Measure, Seat, Suit};
use conditions::{Count, Tree, Value};

const SEATS: [Seat; 4] = [Seat::North, Seat::East, Seat::South, Seat::West];

const SUITS: [Suit; 4] = [Suit::Spades, Suit::Hearts, Suit::Diamonds, Suit::Clubs];

/// Whether the tree isn't met however some whole is split.
#[tactic(auto, unfolding(crate::specs::Torn::is_torn))]
pub(crate) fn is_torn(tree: &Tree, fixed: &Fixed) -> bool
    requires { HasAtMostAtoms MOST_PARTS (form_of tree.now) }
    ensures { result ≡ is_torn fixed.now (form_of tree.now) }
{
    is_torn_by_measure(tree, fixed, Measure::Hcp)
        || (shapes_tear(tree, fixed)
            || (suits_tear(tree, fixed)
                || (is_torn_by_measure(tree, fixed, Measure::Controls)
                    || (hands_tear(tree, fixed, Measure::Losers)
                        || (asks_ranks(tree) && ranks_tear(tree, fixed))))))
}

/// Whether it isn't met however this whole is split.
#[tactic(auto, unfolding(crate::specs::Torn::is_torn_in))]
fn is_torn_in(tree: &Tree, fixed: &Fixed, whole: &Whole) -> bool
    requires tree { HasAtMostAtoms MOST_PARTS (form_of tree.now) }
    requires few { whole.now.most ≤ 52 }
    ensures { result ≡ is_torn_in fixed.now (form_of tree.now) whole.now }
{
    let facts = whole.facts(fixed);
    facts.is_hopeless(tree, 4, whole.least, whole.most)
}

/// Whether it isn't met whatever shape a hand has.
#[tactic(auto, unfolding(crate::specs::Torn::shapes_tear))]
fn shapes_tear(tree: &Tree, fixed: &Fixed) -> bool
    requires { HasAtMostAtoms MOST_PARTS (form_of tree.now) }
    ensures { result ≡ shapes_tear fixed.now (form_of tree.now) }
{
    SEATS
        .iter()
        .any(|seat| is_torn_in(tree, fixed, &Whole::hand_shape(*seat)))
}

/// Whether it isn't met however the seats share a suit.
#[tactic(auto, unfolding(crate::specs::Torn::suits_tear))]
fn suits_tear(tree: &Tree, fixed: &Fixed) -> bool
    requires { HasAtMostAtoms MOST_PARTS (form_of tree.now) }
    ensures { result ≡ suits_tear fixed.now (form_of tree.now) }
{
    SUITS.iter().any(|suit| is_torn_in(tree, fixed, &Whole::suit_lengths(*suit)))
}

/// Whether it isn't met however what is measured is shared by the seats, or by the suits of one.
#[tactic(auto, unfolding(crate::specs::Torn::is_torn_by_measure))]
fn is_torn_by_measure(tree: &Tree, fixed: &Fixed, measure: Measure) -> bool
    requires { HasAtMostAtoms MOST_PARTS (form_of tree.now) }
    ensures { result ≡ is_torn_by_measure fixed.now measure (form_of tree.now) }
{
    is_torn_in(tree, fixed, &Whole::pack_measure(measure))
        || (hands_tear(tree, fixed, measure) || suit_measures_tear(tree, fixed, measure))
}

/// Whether it isn't met whatever the suits of a hand count.
#[tactic(auto, unfolding(crate::specs::Torn::hands_tear))]
fn hands_tear(tree: &Tree, fixed: &Fixed, measure: Measure) -> bool
    requires { HasAtMostAtoms MOST_PARTS (form_of tree.now) }
    ensures { result ≡ hands_tear fixed.now measure (form_of tree.now) }
{
    SEATS.iter().any(|seat| is_torn_in(tree, fixed, &Whole::hand_measure(measure, *seat)))
}

/// Whether it isn't met however the seats share what a suit counts.
#[tactic(auto, unfolding(crate::specs::Torn::suit_measures_tear))]
fn suit_measures_tear(tree: &Tree, fixed: &Fixed, measure: Measure) -> bool
    requires { HasAtMostAtoms MOST_PARTS (form_of tree.now) }
    ensures { result ≡ suit_measures_tear fixed.now measure (form_of tree.now) }
{
    SUITS.iter().any(|suit| is_torn_in(tree, fixed, &Whole::suit_measure(measure, *suit)))
}

/// Whether it isn't met however the seats share the cards of some ranks.
#[tactic(auto, unfolding(crate::specs::Torn::ranks_tear))]
fn ranks_tear(tree: &Tree, fixed: &Fixed) -> bool
    requires { HasAtMostAtoms MOST_PARTS (form_of tree.now) }
    ensures { result ≡ ranks_tear fixed.now (form_of tree.now) }
{
    (1..32).any(|number| is_torn_by_ranks(tree, fixed, honours_by(number)))
}

/// Whether it isn't met however they share the cards of these.
#[tactic(auto, unfolding(crate::specs::Torn::is_torn_by_ranks))]
fn is_torn_by_ranks(tree: &Tree, fixed: &Fixed, ranks: Honours) -> bool
    requires { HasAtMostAtoms MOST_PARTS (form_of tree.now) }
    ensures { result ≡ is_torn_by_ranks fixed.now ranks (form_of tree.now) }
{
    is_torn_in(tree, fixed, &Whole::pack_ranks(ranks)) || suit_ranks_tear(tree, fixed, ranks)
}

/// Whether it isn't met however they share the cards of these ranks of a suit.
#[tactic(auto, unfolding(crate::specs::Torn::suit_ranks_tear))]
fn suit_ranks_tear(tree: &Tree, fixed: &Fixed, ranks: Honours) -> bool
    requires { HasAtMostAtoms MOST_PARTS (form_of tree.now) }
    ensures { result ≡ suit_ranks_tear fixed.now ranks (form_of tree.now) }
{
    SUITS.iter().any(|suit| is_torn_in(tree, fixed, &Whole::suit_ranks(ranks, *suit)))
}

/// Whether the tree asks for cards of some ranks.
fn asks_ranks(tree: &Tree) -> bool
    ensures { result ≡ asks_ranks (form_of tree.now) }
{
    match tree {
        Tree::AnyOf(left, right) | Tree::AllOf(left, right) => {
            asks_ranks(left) || asks_ranks(right)
        }
        Tree::Negation(inner) => asks_ranks(inner),
        Tree::Compare { left, right, .. } => counts_ranks(left) || counts_ranks(right),
        Tree::Within(value, _, _) => counts_ranks(value),
        _ => false,
    }
}

/// Whether cards of some ranks are counted in the value.
fn counts_ranks(value: &Value) -> bool
    ensures { result ≡ counts_ranks (amount_of value.now) }
{
    match value {
        Value::Sum(left, right) => counts_ranks(left) || counts_ranks(right),
        Value::Number(_) => false,
        Value::Count(count) | Value::Times(_, count) => is_of_ranks(*count),
    }
}

fn is_of_ranks(count: Count) -> bool
    ensures { result ≡ is_of_ranks count }
{
    matches!(count, Count::Cards(..) | Count::SuitCards(..))
}
