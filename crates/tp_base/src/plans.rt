//! What a call comes to, as data: a refusal, a look, or an answer with the change that goes with it.

use crate::answers::{ActionKind, Answer, Look, Refusal, SlotWord};
use crate::ids::{GroupId, KernelId, ObjectId, PoolId, RoutineId, Who};
use crate::rows::{Action, CallbackRow, KernelState, ObjectRow};

/// A worker that is attached to a pool and runs nothing.
#[derive(Clone, Copy)]
pub struct Idle {
    pub worker: u32,
    pub pool: PoolId,
    /// It is the pool's persistent worker.
    pub persistent: bool,
}

/// A worker that runs a callback of its pool.
#[derive(Clone, Copy)]
pub struct Busy {
    pub worker: u32,
    pub pool: PoolId,
    pub callback: CallbackRow,
    /// It is the pool's persistent worker.
    pub persistent: bool,
}

/// Where an actor stands between two of its calls: one of two stages for a client, of three for a
/// worker. Its own calls and their answers tell it.
#[derive(Clone, Copy)]
pub enum Stage {
    /// A client that hasn't finished.
    Playing,
    /// A client that has finished.
    Over,
    /// A worker that is attached to no pool.
    Away,
    /// A worker that is attached to a pool and runs nothing.
    Idle,
    /// A worker that runs a callback, which has this routine.
    Busy { routine: RoutineId },
}

/// How the row of a pool changes.
#[derive(Clone, Copy)]
pub enum PoolChange {
    Close,
    /// How many of its callbacks may run at once.
    Maximum(u32),
    /// How many workers it keeps.
    Minimum(u32),
}

/// What a running callback says of itself.
#[derive(Clone, Copy)]
pub enum Mark {
    /// It may run long.
    Long,
    /// No wait for its object is for it any more.
    Loose,
    /// Something is to be done when it returns.
    Asks { kind: ActionKind, action: Action },
}

/// What becomes of the actions that a callback asked for, as it returns.
#[derive(Clone, Copy)]
pub struct ActionWords {
    pub section: SlotWord,
    pub mutex: SlotWord,
    pub semaphore: SlotWord,
    pub event: SlotWord,
}

/// What an actor may begin to wait for. A wait for a group begins with the group's close instead.
#[derive(Clone, Copy)]
pub enum Awaited {
    /// The callbacks of an object.
    Object(ObjectId),
    /// A kernel object.
    Kernel(KernelId),
}

/// How a begun wait ends.
#[derive(Clone, Copy)]
pub enum WaitEnd {
    /// Nothing that it covers is outstanding any more; a wait for a kernel object takes it.
    Free,
    /// Something that it covers is pending, and the history has no room for it to be run.
    Exhausted,
    /// No actor of the machine can go on. The notices that the wait still had to give are given up.
    Stalled,
}

/// How a kernel object changes.
#[derive(Clone, Copy)]
pub enum KernelChange {
    /// An event becomes signalled.
    Set,
    /// An event is no longer signalled.
    Reset,
    /// The count of a semaphore rises by so much.
    Raise(u32),
    /// Its owner gives back one taking of a lock, which is free after the last.
    Leave,
    /// An actor that may take it does.
    Take(Who),
}

/// What makes callbacks pending by time, or by the signal of a kernel object.
#[derive(Clone, Copy)]
pub enum Trigger {
    /// A timer is set, or with no due time unset. One that is due at once makes a callback.
    SetTimer {
        object: ObjectId,
        due: Option<i64>,
        period: u32,
        window: u32,
    },
    /// The clock comes to this moment. Each timer that is due then makes a callback, and so does
    /// each armed wait whose timeout is, which is disarmed.
    Advance {
        now: u64,
    },
    /// A wait object is armed on a kernel object, or with none disarmed. One that takes the kernel
    /// object or times out at once makes a callback.
    SetWait {
        object: ObjectId,
        kernel: Option<KernelId>,
        timeout: Option<i64>,
    },
    /// An event becomes signalled. Each wait that takes it makes a callback.
    SetEvent {
        kernel: KernelId,
    },
    /// The count of a semaphore rises. Each wait that takes it makes a callback.
    ReleaseSemaphore {
        kernel: KernelId,
        count: u32,
    },
}

/// What becomes of an operation of an I/O object.
#[derive(Clone, Copy)]
pub enum IoStep {
    /// It is issued.
    Issue,
    /// It isn't, and its callback never runs.
    GiveUp,
    /// It completes, and its callback is pending.
    Complete { error: u32, bytes: u64 },
}

/// How a world changes by an accepted call.
#[derive(Clone, Copy)]
pub enum Change {
    /// Nothing changes.
    Keep,
    /// A further pool.
    CreatePool,
    ChangePool {
        pool: PoolId,
        how: PoolChange,
    },
    /// A further group.
    CreateGroup,
    CloseGroup {
        group: GroupId,
    },
    /// A further object.
    CreateObject(ObjectRow),
    ReleaseObject {
        object: ObjectId,
    },
    /// A further callback, which waits for a worker.
    QueueCallback(CallbackRow),
    /// A further callback, which expects an operation.
    ExpectCallback(CallbackRow),
    /// What becomes of the operation of a callback.
    Operate {
        callback: CallbackRow,
        how: IoStep,
    },
    /// What a trigger does, and the callbacks that it makes: so many, numbered from `first` on.
    Fire {
        trigger: Trigger,
        first: u64,
        count: u32,
    },
    /// A further kernel object.
    CreateKernel(KernelState),
    ChangeKernel {
        kernel: KernelId,
        how: KernelChange,
    },
    /// A worker joins a pool.
    Attach {
        worker: u32,
        pool: PoolId,
    },
    /// A worker leaves its pool.
    Detach(Idle),
    /// A worker begins a callback of its pool.
    Take {
        by: Idle,
        callback: CallbackRow,
    },
    Mark {
        by: Busy,
        mark: Mark,
    },
    /// The callback that a worker runs returns, and the actions that it asked for are performed or
    /// left out. Each wait that takes what they signal makes a callback: so many, numbered from
    /// `first` on.
    Return {
        by: Busy,
        words: ActionWords,
        first: u64,
        count: u32,
    },
    /// An actor begins a wait, which covers what is then outstanding; with `cancel` what is pending
    /// is cancelled first. A wait for a kernel object covers nothing.
    BeginWait {
        who: Who,
        awaited: Awaited,
        cancel: bool,
    },
    /// The members of a group are released, and an actor begins a wait for the group, which covers
    /// what is then outstanding; with `cancel` what is pending is cancelled first. It gives so many
    /// notices, with this context, before it ends.
    BeginClose {
        who: Who,
        group: GroupId,
        cancel: bool,
        context: u64,
        notices: u32,
    },
    /// The first notice that an actor's wait still has to give is given.
    GiveNotice {
        who: Who,
    },
    EndWait {
        who: Who,
        how: WaitEnd,
    },
    /// A client makes no further call.
    Finish {
        client: u32,
    },
}

/// What a call comes to.
#[derive(Clone, Copy)]
pub enum Plan {
    /// It changes nothing, for this reason.
    Refused(Refusal),
    /// Nothing happens yet.
    Looked(Look),
    /// It has this answer, and changes the world so.
    Does { answer: Answer, change: Change },
}
