//! Which values of a seed are printed.

ghost use Rattle.std.specs.Prelude.{◌≤◌, ◌^◌};

/// The first `count` values of a seed, at most 2^40.
#[derive(Clone, Copy)]
pub struct StreamRequest {
    pub seed: u32,
    pub count: u64,
    ghost few: { count ≤ 2 ^ 40 },
}
