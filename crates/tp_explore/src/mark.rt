//! What a script says between its operations, and what takes place of it.

use tp_base::ids::Who;
use tp_base::rows::WaitTarget;

/// What is said of a memory, or of callbacks. Memories are numbered from 1.
#[derive(Clone, Copy)]
pub enum Mark {
    /// The part uses the memory from here on.
    Use(u32),
    /// And no longer.
    Drop(u32),
    /// The memory is gone.
    Free(u32),
    /// No callback of the object or group runs from here on. Object 0 is none.
    Quiet(WaitTarget),
}

/// A mark in a text.
#[derive(Clone, Copy)]
pub struct Marked {
    pub mark: Mark,
    /// Its line, from 1.
    pub line: u32,
}

/// A mark that takes place.
#[derive(Clone, Copy)]
pub struct Deed {
    pub who: Who,
    /// It stands in a cancel routine that a wait of the actor calls.
    pub visits: bool,
    pub marked: Marked,
}
