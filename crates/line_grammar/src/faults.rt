//! Faults of texts.

ghost use Rattle.std.specs.Prelude.{◌≡◌, ◌+◌, ◌<◌, ◌^◌};
ghost use Rattle.line_grammar.specs.declared.faults.TextFault.TheVariants.{At};

use std::alloc::AllocError;

/// Why a text was not read to its end.
#[derive(Clone, Copy, Debug, PartialEq, Eq)]
pub enum TextFault {
    /// Memory was refused.
    NoMemory,
    /// The text isn't in its grammar. Its first fault is in this line, counted from 1, at this byte, counted
    /// from 1: one behind the longest front that the line shares with a line of the grammar in its
    /// place, its line feed counted.
    At { line: u32, column: u32 },
}

impl From<AllocError> for TextFault {
    ghost use Rattle.line_grammar.specs.declared.faults.TextFault.TheVariants.{NoMemory};

    ghost from_gives = { λ _ fault. fault ≡ NoMemory };

    fn from(_error: AllocError) -> Self {
        TextFault::NoMemory
    }
}

/// The fault in the line behind so many others, which goes along with the grammar up to this place.
pub fn fault_behind(lines: u32, place: usize) -> TextFault
    requires lines { lines + 1 < 2 ^ 32 }
    requires place { place + 1 < 2 ^ 32 }
    ensures { result ≡ At (lines + 1) (place + 1) }
{
    TextFault::At {
        line: lines + 1,
        column: place as u32 + 1,
    }
}
