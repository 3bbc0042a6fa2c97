//! What can be told of a condition before a deal is whole.

ghost use Rattle.std.specs.Prelude.{◌≡◌, false, IfSome, IsTrue, List};
ghost use Rattle.cards.specs.declared.seat.Seat.{Seat as ASeat};
ghost use Rattle.cards.specs.declared.seat.Seat.TheVariants.{South};
ghost use Rattle.cards.specs.Hands.{hand_of};
ghost use Rattle.screens.specs.Completions.{IsCompletion};
ghost use Rattle.conditions.specs.Meaning.{holds};

use crate::exclusion::Test;
use crate::parts::room_after;
use crate::stage::Stage;
use cards::{Fixed, Hand};
use conditions::Cond;
use std::alloc::Global;
use std::marker::Model;

/// The most parts that a condition with a screen has: to weigh each part takes some microseconds.
const MOST_WEIGHED: u32 = 1024;

/// Which candidates around fixed cards can be given up once West's hand is known, or West's and
/// South's: those of which no deal can come that meets the condition. Contracts see the condition's
/// form and the fixed cards.
///
/// It compares the least and the greatest that values can still be, and is far quicker to ask than
/// the condition. It doesn't find each such candidate.
pub struct Screen {
    condition: Cond,
    fixed: Fixed,
    by_west: Test,
    by_both: Test,
}

impl Model for Screen {
    ghost use Rattle.screens.specs.Completions.{ScreenView};
    ghost use Rattle.screens.specs.internal.ScreenCode.{screen_code};
    ghost use Rattle.screens.specs.internal.ScreenTests.{AreTestsOf};

    ghost Value = { ScreenView };

    ghost coded = { screen_code };

    ghost view = { λ s. record { form = s.condition; fixed = s.fixed } };

    ghost invariant = { λ s. AreTestsOf s.condition s.fixed s.by_west s.by_both };
}

// By hand, so that to drop one is a call (docs/DECISIONS.md).
impl Drop for Screen {
    fn drop(self) {
        let Screen {
            condition: _,
            fixed: _,
            by_west: _,
            by_both: _,
        } = self;
    }
}

impl Screen {
    /// The screen of the condition, for candidates around these fixed cards.
    ///
    /// Returns `None` if an allocation failed, or if the condition has more than 1,024 parts. All
    /// goes on without a screen, if not as fast.
    pub fn new(condition: &Cond, fixed: &Fixed) -> Option<Screen>
        ensures form { IfSome result (λ screen. screen.form ≡ condition.now) }
        ensures fixed { IfSome result (λ screen. screen.fixed ≡ fixed.now) }
    {
        if room_after(condition.tree(), MOST_WEIGHED + 1) == 0 {
            return None;
        }
        let alloc = condition.allocator();
        let by_west = Test::of(alloc, condition.tree(), true, Stage::OneHand, fixed).ok()?;
        let by_both = Test::of(alloc, condition.tree(), true, Stage::TwoHands, fixed).ok()?;
        Some(Screen {
            condition: condition.try_clone().ok()?,
            fixed: *fixed,
            by_west,
            by_both,
        })
    }

    /// Whether `excludes_west` excludes any hand, as far as can be told. If it doesn't there is no
    /// need to ask.
    pub fn can_exclude_west(&self) -> bool {
        self.by_west.is_useful()
    }

    /// Whether `excludes_west_and_south` excludes any hands, as far as can be told.
    pub fn can_exclude_west_and_south(&self) -> bool {
        self.by_both.is_useful()
    }

    /// Whether no deal with this hand of West meets the condition. `false` says nothing.
    #[inline]
    pub fn excludes_west(&self, west: &Hand) -> bool
        ensures { IsTrue result → (deal : List ASeat)
            → IsCompletion self.now.fixed west.now deal
            → holds self.now.form deal ≡ false }
    {
        self.by_west.excludes(west, west)
    }

    /// Whether no deal with these hands of West and South meets the condition. `false` says
    /// nothing.
    #[inline]
    pub fn excludes_west_and_south(&self, west: &Hand, south: &Hand) -> bool
        ensures { IsTrue result → (deal : List ASeat)
            → IsCompletion self.now.fixed west.now deal
            → hand_of deal South ≡ south.now
            → holds self.now.form deal ≡ false }
    {
        self.by_both.excludes(west, south)
    }
}
