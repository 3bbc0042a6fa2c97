//! Laws of what requests come to: functions that do nothing, whose contracts are the laws.

ghost use Rattle.std.specs.Prelude.{◌≡◌, ◌&&◌, List, None, Some, ℕ};
ghost use Rattle.cards.specs.declared.seat.Seat.{Seat};
ghost use Rattle.cond_lang.specs.Form.{Form};
ghost use Rattle.conditions.specs.Meaning.{holds};
ghost use Rattle.jobs.specs.Makings.{HasLabels, Means, TextMeans, heading_of, title_of};
ghost use Rattle.requests.specs.Requests.{Look as ALook, Search as ASearch};

/// With a lesson and a condition, a deal is accepted if and only if both hold of it. Each is a text
/// of its own, and only the condition is after the definitions.
pub fn a_lesson_and_a_condition()
    ensures { (s : ASearch) (lesson given : List ℕ) → s.lesson ≡ Some lesson
        → s.where_text ≡ Some given → (form : Form) → Means s form
        → (a b : Form) × TextMeans None (Some lesson) a × TextMeans s.let_text (Some given) b
        × ((deal : List Seat) → holds form deal ≡ (holds a deal && holds b deal)) }
{}

/// Labels that are accepted are written as they are given.
#[tactic(auto, using(crate::proofs::Titles::written))]
pub fn accepted_labels_are_written()
    ensures { (l : ALook) → HasLabels l → title_of l ≡ heading_of l }
{}
