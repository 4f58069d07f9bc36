//! The rows of a world, one type for each of its lists.

use crate::answers::TakeResult;
use crate::calls::{Environ, Kind, Priority};
use crate::ids::{GroupId, KernelId, ObjectId, PoolId, RoutineId, Who};

/// A pool.
#[derive(Clone, Copy)]
pub struct PoolRow {
    pub minimum: u32,
    pub maximum: u32,
    pub closed: bool,
}

/// A cleanup group.
#[derive(Clone, Copy)]
pub struct GroupRow {
    pub closed: bool,
}

/// A work, timer, wait or I/O object.
#[derive(Clone, Copy)]
pub struct ObjectRow {
    pub kind: Kind,
    pub released: bool,
    pub routine: RoutineId,
    pub context: u64,
    pub env: Environ,
}

/// Something to do with a kernel object when a callback returns.
#[derive(Clone, Copy)]
pub struct Action {
    pub kernel: KernelId,
    pub count: u32,
}

/// The actions on return that a running callback has asked for, at most one of each kind.
#[derive(Clone, Copy)]
pub struct Slots {
    pub section: Option<Action>,
    pub mutex: Option<Action>,
    pub semaphore: Option<Action>,
    pub event: Option<Action>,
}

/// How far a callback has come.
#[derive(Clone, Copy)]
pub enum Status {
    /// Its operation was announced and not issued yet.
    Expected,
    /// Its operation is under way.
    Issued,
    /// It waits for a worker.
    Pending,
    /// A worker runs it.
    Running {
        worker: u32,
        associated: bool,
        slots: Slots,
    },
    /// Its routine returned.
    Returned,
    /// It never runs.
    Cancelled,
}

/// A callback. It keeps what its object and environment were when the object was made.
///
/// Its fields stand in an order that leaves no gaps between them, since thousands may live at a time.
#[derive(Clone, Copy)]
pub struct CallbackRow {
    /// Its number, from 1 in the order in which callbacks are made.
    pub number: u64,
    pub context: u64,
    /// Its object, or 0 for a simple callback.
    pub object: ObjectId,
    pub routine: RoutineId,
    pub pool: PoolId,
    pub group: GroupId,
    pub result: TakeResult,
    pub status: Status,
    pub priority: Priority,
    pub long: bool,
    /// It runs on the pool's persistent worker.
    pub persistent: bool,
}

/// What an event, semaphore or lock is at.
#[derive(Clone, Copy)]
pub enum KernelState {
    Event { manual: bool, signalled: bool },
    Semaphore { count: u32, maximum: u32 },
    /// The owner and how often it took the lock.
    Mutex { owner: Option<Who>, takings: u64 },
    Section { owner: Option<Who>, takings: u64 },
}

/// An event, semaphore, mutex or critical section.
#[derive(Clone, Copy)]
pub struct KernelRow {
    pub state: KernelState,
}

/// A timer that is set; or the timeout of an armed wait, which has no period and no window.
#[derive(Clone, Copy)]
pub struct TimerSetting {
    pub object: ObjectId,
    /// When it expires next, in units of 100 ns since the clock began.
    pub due: u64,
    /// In milliseconds; 0 for one that expires once.
    pub period: u32,
    /// In milliseconds.
    pub window: u32,
}

/// A wait object that is armed, and on which kernel object.
#[derive(Clone, Copy)]
pub struct Arming {
    pub object: ObjectId,
    pub kernel: KernelId,
}

/// A worker thread: its pool, if it is attached, and the number of the callback that it runs.
#[derive(Clone, Copy)]
pub struct WorkerRow {
    pub pool: Option<PoolId>,
    pub callback: Option<u64>,
    /// It is its pool's persistent worker: it has run a persistent callback since it attached.
    pub persistent: bool,
}

/// A client thread.
#[derive(Clone, Copy)]
pub struct ClientRow {
    pub finished: bool,
}

/// What a begun wait is for.
#[derive(Clone, Copy)]
pub enum WaitTarget {
    /// The callbacks of an object.
    Object(ObjectId),
    /// The callbacks of a group that is being closed.
    Group(GroupId),
    /// A kernel object.
    Kernel(KernelId),
}
