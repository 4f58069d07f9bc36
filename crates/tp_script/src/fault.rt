//! Why a text is no script.

use script_lines::ScriptKind;

/// Why a text was not read as a script.
#[derive(Clone, Copy, Debug, PartialEq)]
pub enum ScriptFault {
    /// Memory was refused.
    NoMemory,
    /// The text is no script. Its first fault is in this line, counted from 1, at this byte, counted from 1.
    At {
        line: u32,
        column: u32,
        kind: ScriptKind,
    },
}
