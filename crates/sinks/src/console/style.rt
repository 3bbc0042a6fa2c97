//! How counts are shown.

/// How a run's counts are shown while it lasts.
#[derive(Clone, Copy)]
pub enum Style {
    /// Not at all.
    Never,
    /// As one line of a terminal, which is drawn anew.
    Redrawn,
    /// As a line a second, where there is no terminal.
    Lines,
}

impl Style {
    /// For how many milliseconds a line stays, before the next is drawn.
    pub(crate) fn interval(self) -> u64 {
        match self {
            Style::Redrawn => 250,
            Style::Never | Style::Lines => 1000,
        }
    }
}
