//! How far a candidate is dealt, and which bound of a value is asked for.

ghost use Rattle.std.specs.Prelude.{◌≡◌};

/// Which hands of a candidate are known.
#[derive(Clone, Copy)]
pub(crate) enum Stage {
    /// West's.
    OneHand,
    /// West's and South's.
    TwoHands,
}

/// A bound of a value, over all deals that are still possible.
#[derive(Clone, Copy)]
pub(crate) enum Bound {
    /// None has less.
    Least,
    /// None has more.
    Greatest,
}
