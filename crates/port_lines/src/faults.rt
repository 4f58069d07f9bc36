//! Faults of texts.

ghost use Rattle.std.specs.Prelude.{◌≡◌};

use std::alloc::AllocError;

/// Why a text was not read to its end.
#[derive(Clone, Copy, Debug, PartialEq, Eq)]
pub enum PortFault {
    /// Memory was refused.
    NoMemory,
    /// The text isn't in its grammar. Its first fault is in this line, counted from 1, at this byte, counted
    /// from 1: one behind the longest front that the line shares with a line that may stand there, its line
    /// feed counted.
    At { line: u32, column: u32 },
}

impl From<AllocError> for PortFault {
    ghost use Rattle.port_lines.specs.declared.faults.PortFault.TheVariants.{NoMemory};

    ghost from_gives = { λ _ fault. fault ≡ NoMemory };

    fn from(_error: AllocError) -> Self {
        PortFault::NoMemory
    }
}
