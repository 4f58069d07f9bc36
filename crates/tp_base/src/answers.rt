//! What the machine answers to a call.

use crate::calls::Call;
use crate::ids::{KernelId, ObjectId, PoolId, RoutineId, Who};

/// A kind of work that a callback may leave to its return.
#[derive(Clone, Copy, Debug, PartialEq)]
pub enum ActionKind {
    /// `LeaveCriticalSectionWhenCallbackReturns`
    Section,
    /// `ReleaseMutexWhenCallbackReturns`
    Mutex,
    /// `ReleaseSemaphoreWhenCallbackReturns`
    Semaphore,
    /// `SetEventWhenCallbackReturns`
    Event,
}

/// With what a callback is called.
#[derive(Clone, Copy, Debug, PartialEq)]
pub enum TakeResult {
    Plain,
    /// `WAIT_OBJECT_0`
    WaitObject0,
    /// `WAIT_TIMEOUT`
    WaitTimeout,
    /// The end of an operation: its error and the bytes moved.
    Io { error: u32, bytes: u64 },
}

/// What became of one action on return.
#[derive(Clone, Copy, Debug, PartialEq)]
pub enum SlotWord {
    /// No such action was asked for.
    Unasked,
    Performed,
    /// The mutex or section wasn't the worker's own, and was left alone.
    NotOwner,
    /// The semaphore would have passed its maximum, and was left alone.
    OverMaximum,
}

/// Why a call changes nothing.
#[derive(Clone, Copy, Debug, PartialEq)]
pub enum Refusal {
    /// The actor doesn't exist, or something that the call names was never made.
    NoSuch,
    /// The object isn't of the call's kind; a worker doesn't finish.
    WrongKind,
    /// The object is released; the client has finished.
    Released,
    PoolClosed,
    GroupClosed,
    /// The default pool can't be closed or changed.
    DefaultPool,
    /// Only a worker makes this call.
    NotWorker,
    /// The worker runs no callback.
    NotRunning,
    /// The worker runs a callback.
    StillRunning,
    /// The actor has a wait begun.
    InWait,
    NoWaitBegun,
    /// A callback can't wait for its own object or group.
    OwnCallback,
    /// The group has a member, or with object 0 only simple callbacks.
    HasMembers { object: ObjectId },
    NotStarted,
    NoOperation,
    OperationsOutstanding { io: ObjectId },
    SlotTaken { kind: ActionKind },
    NotOwner,
    OverMaximum { count: u32 },
    NotWaitable,
    ClockEnd,
    /// As many of this series were made as the limits allow.
    ObjectLimit,
    /// There would be more callbacks under way than the limits allow.
    CallbackLimit,
    NotAttached,
    AlreadyAttached,
}

/// The answer that becomes part of the history.
#[derive(Clone, Copy, PartialEq)]
pub enum Answer {
    Done,
    /// The number of what was made.
    Made {
        number: u32,
    },
    /// The callbacks made pending: `count` consecutive numbers from `first`, or 0 and 0.
    Queued {
        first: u64,
        count: u32,
    },
    WasSet {
        was: bool,
        first: u64,
        count: u32,
    },
    Flag {
        value: bool,
    },
    /// Whether something is still outstanding, so that it is freed later.
    Closed {
        later: bool,
    },
    Closing {
        covered: u32,
        cancelled: u32,
        notices: u32,
    },
    Begun {
        covered: u32,
        cancelled: u32,
    },
    Ended,
    Exhausted,
    Stalled,
    Notice {
        object: ObjectId,
        routine: RoutineId,
        context: u64,
        cleanup: u64,
    },
    Started {
        callback: u64,
    },
    Operation {
        callback: u64,
    },
    Cancelled {
        callback: u64,
    },
    Count {
        previous: u32,
        first: u64,
        count: u32,
    },
    Advanced {
        now: u64,
        first: u64,
        count: u32,
    },
    Attached {
        pool: PoolId,
    },
    Taken {
        callback: u64,
        object: ObjectId,
        routine: RoutineId,
        context: u64,
        result: TakeResult,
    },
    Returned {
        section: SlotWord,
        mutex: SlotWord,
        semaphore: SlotWord,
        event: SlotWord,
        first: u64,
        count: u32,
    },
    Refused(Refusal),
}

/// Why nothing happened yet. A look is no part of the history.
#[derive(Clone, Copy, Debug, PartialEq)]
pub enum Look {
    /// The least callback that the wait is still for.
    NotYet { callback: u64 },
    NotYetKernel { kernel: KernelId },
    /// No callback of the worker's pool is pending.
    Empty,
    /// As many callbacks of the pool run as its maximum allows, or more.
    AtMaximum { running: u32 },
    /// No pool needs a worker.
    NoNeed,
    /// The worker is still wanted.
    Stay,
}

/// What a call of the engine comes to.
#[derive(Clone, Copy, PartialEq)]
pub enum Outcome {
    /// The answer, which is the call's entry of the history.
    Done(Answer),
    /// Nothing happened.
    Look(Look),
    /// The history has no room for what the call costs. Nothing happened.
    Full { room: u64, cost: u64 },
}

/// An entry of a history.
#[derive(Clone, Copy)]
pub struct Entry {
    pub who: Who,
    pub call: Call,
    pub answer: Answer,
}
