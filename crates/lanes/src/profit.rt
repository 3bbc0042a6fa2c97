//! Whether a test that gives candidates up is worth its time.

ghost use Rattle.std.specs.Prelude.{◌<◌, ◌≤◌};

/// After this many answers a test is worth its time or not.
const ANSWERS: u32 = 1024;

/// A test is worth its time if it gives up one candidate of this many, or more.
const ONE_OF: u32 = 16;

/// Whether a test is worth its time, and how many answers it gave and candidates it gave up since
/// that was last decided. A test that is not worth its time is not asked again.
#[derive(Clone, Copy, Drop)]
pub(crate) struct Profit {
    pays: bool,
    asked: u32,
    given_up: u32,
    ghost few: { asked < 1024 },
    ghost fewer: { given_up ≤ asked },
}

impl Profit {
    /// Nothing was asked yet.
    pub(crate) fn new(pays: bool) -> Profit {
        Profit {
            pays,
            asked: 0,
            given_up: 0,
        }
    }

    /// Whether to ask.
    #[inline(always)]
    pub(crate) fn pays(&self) -> bool {
        self.pays
    }

    /// Counts an answer.
    #[inline(always)]
    pub(crate) fn count(&mut self, gives_up: bool) {
        let given_up = self.given_up + u32::from(gives_up);
        if self.asked + 1 < ANSWERS {
            self.asked += 1;
            self.given_up = given_up;
        } else {
            *self = Profit::new(given_up >= ANSWERS / ONE_OF);
        }
    }
}
