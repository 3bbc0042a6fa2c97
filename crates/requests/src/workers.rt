//! How many workers are asked for.

/// How many workers are asked for. The same is written with any number of them.
#[derive(Clone, Copy)]
pub enum Workers {
    Number(u32),
    /// As many as suit the machine.
    Auto,
}
