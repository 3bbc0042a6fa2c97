//! What options are called in refusals.

/// A label of the games.
#[derive(Clone, Copy)]
pub enum LabelName {
    Event,
    Site,
    Date,
}

/// A question of a `count`, by the option that has its text.
#[derive(Clone, Copy)]
pub enum QuestionName {
    Of,
    By,
}
