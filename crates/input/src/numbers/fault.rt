//! Why picking ended early.

ghost use Rattle.std.specs.Prelude.{◌≡◌};
ghost use Rattle.input.specs.declared.numbers.fault.PickFault.TheVariants.{Input};

use crate::refused_line::RefusedLine;
use crate::source::SourceFault;

/// Why picking ended before the end of the input, or of what it says.
#[derive(Clone, Copy, Debug, PartialEq, Eq)]
pub enum PickFault {
    /// The line is refused; the boards before it were written.
    Refused(RefusedLine),
    /// The input couldn't be read.
    Input,
    /// The output failed.
    Output,
}

impl From<SourceFault> for PickFault {
    ghost from_gives = { λ _ e. e ≡ Input };

    fn from(_fault: SourceFault) -> PickFault {
        PickFault::Input
    }
}
