//! The limits of a search, each with its reason.

/// How many candidates of a seed are told apart by their numbers, 0 to 2^40 - 1.
///
/// They take 51 draws each. 51 * 2^40 is below 2^48, the number of states, so no draw comes twice.
pub const MAX_CANDIDATES: u64 = 1 << 40;

/// The most workers of a run: about as many cores as the machines of a club have, and few enough
/// that the writer serves all their lanes in turn without losing time.
pub const MAX_WORKERS: u32 = 16;

/// The most verdicts that a lane holds: a verdict takes 32 bytes, so the lanes of sixteen workers
/// take 2 MiB at most. Longer lanes gained nothing when they were measured.
pub const MAX_CAPACITY: u32 = 4096;
