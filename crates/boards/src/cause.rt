//! Why a run was interrupted.

ghost use Rattle.std.specs.Prelude.{◌≡◌};
ghost use Rattle.boards.specs.declared.cause.Cause.TheVariants.{Output};

use sinks::SinkFault;

/// Why a run did not write all that its plan asks for. If there are several causes, the first in
/// this order.
#[derive(Clone, Copy, Debug, PartialEq, Eq)]
pub enum Cause {
    /// An allocation failed, before any thread started.
    Memory,
    /// A thread could not be started.
    Spawn,
    /// The sink failed.
    Output,
    /// A worker was stopped before it had sent all: the one with the lowest number.
    Stopped { worker: u32 },
    /// A lane can't say how it ended: that of the worker with the lowest number.
    Unclosed { worker: u32 },
}

impl From<SinkFault> for Cause {
    ghost from_gives = { λ _ cause. cause ≡ Output };

    fn from(_fault: SinkFault) -> Cause {
        Cause::Output
    }
}
