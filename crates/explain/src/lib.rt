//! What a person is told beside the line of a refusal, and before boards are written: what helps
//! with a failure, and what is worth a note.
//!
//! For a plan, a label or a hand that is refused that is a line with the option, what it was given,
//! and what it takes; for other words `words` writes it. `explain_conditions` has what is said of
//! the texts of conditions and questions.
#![tactic(auto)]

mod advice;
mod failures;
mod notes;
mod raw_words;
mod rewritten;
mod words;

pub use advice::advise;
pub use failures::{Reasons, help};
pub use notes::{dealt_again, fewer_boards, no_board, one_line};
pub use raw_words::{hints_among, not_utf8};
pub use words::without_far_tips;
