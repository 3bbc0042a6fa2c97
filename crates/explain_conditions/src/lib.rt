//! What a person is told of a condition or a question beside the line of a refusal: where it goes
//! wrong, what may come there, and what was perhaps meant (`rules`); and what is noted of a
//! condition that no deal meets, or hardly one.
#![tactic(auto)]

mod asked;
mod excerpt;
mod expected;
mod kinds;
mod noted;
mod rare;
mod refusal;
mod repeated;
mod rules;

pub use noted::note;
pub use rare::rare_tests;
pub use refusal::{explain, explain_definitions, explain_name, explain_question};
pub use rules::slip;
