//! Giving candidates up early: what a worker asks of West's hand, and of West's and South's, before
//! the rest of a candidate is dealt, as long as the answers are worth their time.

ghost use Rattle.std.specs.Prelude.{◌≡◌, IsTrue, List, Option, false};
ghost use Rattle.cards.specs.Hands.{hand_of};
ghost use Rattle.cards.specs.declared.seat.Seat.TheVariants.{South};
ghost use Rattle.cards.specs.declared.seat.Seat.{Seat as ASeat};
ghost use Rattle.screens.specs.Completions.{IsCompletion};
ghost use Rattle.conditions.specs.Form.{Form};
ghost use Rattle.conditions.specs.Meaning.{holds};
ghost use Rattle.lanes.specs.internal.Screens.{IsScreenOf, KeepsScreen};

use crate::profit::Profit;
use cards::{Fixed, Hand};
use conditions::Cond;
use screens::Screen;

/// The tests of a condition's candidates, each with what it gains. Without memory for them there
/// are none, and no candidate is given up.
pub(crate) struct Screening {
    screen: Option<Screen>,
    west: Profit,
    south: Profit,
}

// By hand, so that to drop one is a call (docs/DECISIONS.md).
impl Drop for Screening {
    fn drop(self) {
        let Screening {
            screen: _,
            west: _,
            south: _,
        } = self;
    }
}

impl Screening {
    /// The tests of the condition around these fixed cards.
    pub(crate) fn new(cond: &Cond, fixed: &Fixed) -> Screening
        ensures { IsScreenOf result cond.now fixed.now }
    {
        // Its contract says that no seat has more than thirteen fixed cards.
        let _free = fixed.free();
        let screen = Screen::new(cond, fixed);
        let (west, south) = match &screen {
            Some(screen) => (
                screen.can_exclude_west(),
                screen.can_exclude_west_and_south(),
            ),
            None => (false, false),
        };
        Screening {
            screen,
            west: Profit::new(west),
            south: Profit::new(south),
        }
    }

    /// Whether any test is asked.
    #[inline(always)]
    pub(crate) fn is_on(&self) -> bool {
        self.west.pays() || self.south.pays()
    }

    /// Whether West's hand alone tells that the candidate is rejected. `false` says nothing.
    #[inline(always)]
    pub(crate) fn gives_up_west(&mut self, west: &Hand) -> bool
        ensures same { KeepsScreen self.old self.new }
        ensures rejected { (form : Form) (fixed : List (Option ASeat)) (deal : List ASeat)
            → IsTrue result
            → IsScreenOf self.old form fixed
            → IsCompletion fixed west.now deal
            → holds form deal ≡ false }
    {
        if !self.west.pays() {
            return false;
        }
        let Some(screen) = &self.screen else {
            return false;
        };
        let gives_up = screen.excludes_west(west);
        self.west.count(gives_up);
        gives_up
    }

    /// Whether West's and South's hands tell that the candidate is rejected. `false` says nothing.
    #[inline(always)]
    pub(crate) fn gives_up_south(&mut self, west: &Hand, south: &Hand) -> bool
        ensures same { KeepsScreen self.old self.new }
        ensures rejected { (form : Form) (fixed : List (Option ASeat)) (deal : List ASeat)
            → IsTrue result
            → IsScreenOf self.old form fixed
            → IsCompletion fixed west.now deal
            → hand_of deal South ≡ south.now
            → holds form deal ≡ false }
    {
        if !self.south.pays() {
            return false;
        }
        let Some(screen) = &self.screen else {
            return false;
        };
        let gives_up = screen.excludes_west_and_south(west, south);
        self.south.count(gives_up);
        gives_up
    }
}
