//! What is told of waits: how many callbacks one would cover, and how far one has come.

use tp_base::ids::{KernelId, ObjectId, RoutineId};

/// How many callbacks a wait would cover, and how many it would cancel before.
#[derive(Clone, Copy)]
pub struct WaitCounts {
    pub covered: u32,
    pub cancelled: u32,
}

/// How far a wait has come.
#[derive(Clone, Copy)]
pub enum Progress {
    /// The actor has begun none.
    NotBegun,
    /// Nothing that it covers is outstanding any more, and it has no notice to give.
    Free,
    /// Nothing that it covers is outstanding any more, and it still has this notice to give.
    Notifies {
        object: ObjectId,
        routine: RoutineId,
        context: u64,
        cleanup: u64,
    },
    /// It holds a callback that waits for a worker, and the history has no room for it to be run.
    Starved,
    /// It holds callbacks, the first of which has this number.
    Holds {
        callback: u64,
    },
    /// It is for this kernel object, and ends when the actor takes that.
    Acquires {
        kernel: KernelId,
    },
}
