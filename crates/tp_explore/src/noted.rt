//! What is noted of memories and callbacks.

use tp_base::ids::Who;
use tp_base::rows::WaitTarget;

/// A use of a memory.
#[derive(Clone, Copy)]
pub struct Use {
    pub who: Who,
    /// Its number, from 1.
    pub memory: u32,
}

/// No callback of an object or of a group may run any more.
#[derive(Clone, Copy)]
pub struct Hush {
    /// The line of the script that says so, from 1.
    pub line: u32,
    pub target: WaitTarget,
}
