//! The calls of the machine.

ghost use Rattle.std.specs.Prelude.{◌↔◌, IsTrue};
ghost use Rattle.tp_base.specs.Ranges.{IsCallInRange, IsEnvironInRange, IsRoutineInRange};

use crate::answers::ActionKind;
use crate::ids::{GroupId, KernelId, ObjectId, PoolId, RoutineId};

/// The greatest count of a semaphore, and the greatest maximum that one can have.
pub const COUNT_MOST: u32 = 2_147_483_647;

/// The last moment of the clock, which counts units of 100 ns from 0.
pub const CLOCK_END: u64 = 9_223_372_036_854_775_807;

/// The kind of a thread pool object.
#[derive(Clone, Copy, Debug, PartialEq)]
pub enum Kind {
    Work,
    Timer,
    Wait,
    Io,
}

/// The priority of a callback, as `TP_CALLBACK_PRIORITY`.
#[derive(Clone, Copy, Debug, PartialEq)]
pub enum Priority {
    High,
    Normal,
    Low,
}

/// A callback environment, as `TP_CALLBACK_ENVIRON`.
#[derive(Clone, Copy, Debug, PartialEq)]
pub struct Environ {
    pub pool: PoolId,
    /// The cleanup group, or 0 for none.
    pub group: GroupId,
    /// The group's cancel routine for objects made with this environment, or 0 for none.
    pub cancel: RoutineId,
    pub priority: Priority,
    /// Callbacks are expected to run long (`SetThreadpoolCallbackRunsLong`).
    pub long: bool,
    /// Callbacks run on the pool's persistent worker (`SetThreadpoolCallbackPersistent`).
    pub persistent: bool,
}

/// The kind of a lock. Both belong to one actor at a time, who may take them again.
#[derive(Clone, Copy, Debug, PartialEq)]
pub enum Lock {
    /// A mutex, as `CreateMutex` makes.
    Mutex,
    /// A critical section, as `InitializeCriticalSection` makes.
    Section,
}

/// A call of one actor.
#[derive(Clone, Copy)]
pub enum Call {
    /// Makes a pool: `CreateThreadpool`.
    CreatePool,
    /// Closes a pool: `CloseThreadpool`.
    ClosePool {
        pool: PoolId,
    },
    /// Sets how many callbacks of a pool may run at once: `SetThreadpoolThreadMaximum`.
    SetMaximum {
        pool: PoolId,
        value: u32,
    },
    /// Sets how many workers a pool keeps: `SetThreadpoolThreadMinimum`.
    SetMinimum {
        pool: PoolId,
        value: u32,
    },
    /// Makes a cleanup group: `CreateThreadpoolCleanupGroup`.
    CreateGroup,
    /// Closes a group that has no member: `CloseThreadpoolCleanupGroup`.
    CloseGroup {
        group: GroupId,
    },
    /// Releases the members of a group, and begins a wait for its callbacks, those that are pending
    /// cancelled or not: `CloseThreadpoolCleanupGroupMembers`. With `cancel` each member that has a
    /// cancel routine gets a notice.
    BeginClose {
        group: GroupId,
        cancel: bool,
        /// What the notices tell besides, as the function's `pvCleanupContext`.
        context: u64,
    },
    /// Makes an object: `CreateThreadpoolWork` and its like for the other kinds.
    Create {
        kind: Kind,
        routine: RoutineId,
        context: u64,
        env: Environ,
    },
    /// Releases an object: `CloseThreadpoolWork` and its like for the other kinds.
    CloseObject {
        kind: Kind,
        object: ObjectId,
    },
    /// Makes one pending callback without an object: `TrySubmitThreadpoolCallback`.
    SubmitSimple {
        routine: RoutineId,
        context: u64,
        env: Environ,
    },
    /// Makes one pending callback of a work object: `SubmitThreadpoolWork`.
    SubmitWork {
        object: ObjectId,
    },
    /// Sets a timer, or with no due time unsets it: `SetThreadpoolTimer`. A due time is in units of
    /// 100 ns: above 0 a moment of the clock, below 0 a span from now, and 0 is at once.
    SetTimer {
        object: ObjectId,
        due: Option<i64>,
        /// Milliseconds from one expiration to the next, or 0 for a timer that expires once.
        period: u32,
        /// Milliseconds by which an expiration may come later. It has no effect yet.
        window: u32,
    },
    /// The same, and says whether a setting was ended: `SetThreadpoolTimerEx`.
    SetTimerEx {
        object: ObjectId,
        due: Option<i64>,
        period: u32,
        window: u32,
    },
    /// Asks whether a timer is set: `IsThreadpoolTimerSet`.
    IsTimerSet {
        object: ObjectId,
    },
    /// Time passes, in units of 100 ns.
    Advance {
        ticks: u64,
    },
    /// Arms a wait object on an event or semaphore, or without one disarms it:
    /// `SetThreadpoolWait`. Its callback is made when the kernel object is signalled, or when the
    /// timeout expires, which is as the due time of a timer.
    SetWait {
        object: ObjectId,
        kernel: Option<KernelId>,
        /// With none the wait is for ever.
        timeout: Option<i64>,
    },
    /// Announces an operation of an I/O object, and makes the callback that expects it:
    /// `StartThreadpoolIo`.
    StartIo {
        object: ObjectId,
    },
    /// Issues the operation that the object's first expecting callback expects: a read, a write or
    /// the like, which has the number of its callback.
    IssueIo {
        object: ObjectId,
    },
    /// The operation that the object's first expecting callback expects isn't issued:
    /// `CancelThreadpoolIo`.
    CancelIo {
        object: ObjectId,
    },
    /// The system completes an operation that was issued, with an error, or 0 for none, and the
    /// bytes that were moved. Its callback is then pending.
    CompleteIo {
        callback: u64,
        error: u32,
        bytes: u64,
    },
    /// The same for the first operation of the object that is under way: what its device does next,
    /// or with error 995 `CancelIoEx`, one operation at a time.
    CompleteNext {
        object: ObjectId,
        error: u32,
        bytes: u64,
    },
    /// Begins a wait for the callbacks of an object, those that are pending cancelled or not:
    /// `WaitForThreadpoolWorkCallbacks` and its like for the other kinds.
    BeginWait {
        kind: Kind,
        object: ObjectId,
        cancel: bool,
    },
    /// Begins a wait for a kernel object, which is taken when the wait ends: `WaitForSingleObject`,
    /// and for a section `EnterCriticalSection`.
    BeginAcquire {
        kernel: KernelId,
    },
    /// Takes a kernel object if the actor may take it at once, and says whether it did. No wait is
    /// begun: `WaitForSingleObject` with a time of 0, and for a section `TryEnterCriticalSection`.
    TryAcquire {
        kernel: KernelId,
    },
    /// Ends the wait that the actor has begun, if nothing is left to wait for: the return of the
    /// function that began it.
    End,
    /// Makes an event, which a manual one stays until it is reset, while one that isn't is reset as
    /// it is taken: `CreateEvent`.
    CreateEvent {
        manual: bool,
        signalled: bool,
    },
    /// Makes a semaphore: `CreateSemaphore`. The maximum is at least 1 and at least the initial
    /// count.
    CreateSemaphore {
        initial: u32,
        maximum: u32,
    },
    /// Makes a lock, free or taken once by the actor: `CreateMutex`, and for a section
    /// `InitializeCriticalSection`.
    CreateLock {
        lock: Lock,
        owned: bool,
    },
    /// Makes an event signalled: `SetEvent`.
    SetEvent {
        kernel: KernelId,
    },
    /// Makes an event not signalled: `ResetEvent`.
    ResetEvent {
        kernel: KernelId,
    },
    /// Raises the count of a semaphore, by 1 to 2,147,483,647: `ReleaseSemaphore`.
    ReleaseSemaphore {
        kernel: KernelId,
        count: u32,
    },
    /// Gives back one taking of a lock that the actor owns: `ReleaseMutex`, and for a section
    /// `LeaveCriticalSection`.
    ReleaseLock {
        lock: Lock,
        kernel: KernelId,
    },
    /// An unattached worker joins a pool that needs one.
    Attach,
    /// An idle worker leaves its pool, if it isn't wanted there.
    Detach,
    /// An idle worker takes the next pending callback of its pool and begins to run it.
    Take,
    /// A worker's callback returns.
    Return,
    /// A running callback says that it may run long: `CallbackMayRunLong`.
    MayRunLong,
    /// A running callback is no longer waited for: `DisassociateCurrentThreadFromCallback`.
    Disassociate,
    /// A running callback leaves something to its return, at most one of each kind:
    /// `LeaveCriticalSectionWhenCallbackReturns`, `ReleaseMutexWhenCallbackReturns`,
    /// `ReleaseSemaphoreWhenCallbackReturns`, `SetEventWhenCallbackReturns`.
    OnReturn {
        kind: ActionKind,
        kernel: KernelId,
        /// By how much a semaphore's count rises, 1 to 2,147,483,647. It has no effect for the other
        /// kinds.
        count: u32,
    },
    /// A client makes no further call.
    Finish,
}

impl RoutineId {
    /// Whether this names a routine: 1 to 65,535.
    pub fn in_range(&self) -> bool
        ensures { IsTrue result ↔ IsRoutineInRange self.now.0 }
    {
        1 <= self.0 && self.0 <= 65_535
    }
}

impl Environ {
    /// Whether the numbers are at most 65,535, and no cancel routine stands without a group.
    pub fn in_range(&self) -> bool
        ensures { IsTrue result ↔ IsEnvironInRange self.now }
    {
        self.pool.0 <= 65_535
            && self.group.0 <= 65_535
            && self.cancel.0 <= 65_535
            && (self.group.0 != 0 || self.cancel.0 == 0)
    }
}

impl Call {
    /// Whether a line can have the numbers of this call.
    pub fn in_range(&self) -> bool
        ensures { IsTrue result ↔ IsCallInRange self.now }
    {
        is_in_range(*self)
    }
}

// The numbers of a call that is passed by itself are known to be those of their types.
fn is_in_range(call: Call) -> bool
    ensures { IsTrue result ↔ IsCallInRange call }
{
    match call {
        Call::Create { routine, env, .. } | Call::SubmitSimple { routine, env, .. } => {
            routine.in_range() && env.in_range()
        }
        Call::SubmitWork { object }
        | Call::CloseObject { object, .. }
        | Call::SetTimer { object, .. }
        | Call::SetTimerEx { object, .. }
        | Call::IsTimerSet { object }
        | Call::StartIo { object }
        | Call::IssueIo { object }
        | Call::CancelIo { object }
        | Call::CompleteNext { object, .. }
        | Call::BeginWait { object, .. } => object.0 <= 65_535,
        Call::Advance { ticks } => ticks <= CLOCK_END,
        Call::SetWait { object, kernel, .. } => {
            object.0 <= 65_535
                && match kernel {
                    Some(kernel) => kernel.0 <= 65_535,
                    None => true,
                }
        }
        Call::CreateSemaphore { initial, maximum } => {
            initial <= COUNT_MOST && maximum <= COUNT_MOST
        }
        Call::BeginAcquire { kernel }
        | Call::TryAcquire { kernel }
        | Call::SetEvent { kernel }
        | Call::ResetEvent { kernel }
        | Call::ReleaseLock { kernel, .. } => kernel.0 <= 65_535,
        Call::ReleaseSemaphore { kernel, count } | Call::OnReturn { kernel, count, .. } => {
            kernel.0 <= 65_535 && 1 <= count && count <= COUNT_MOST
        }
        Call::ClosePool { pool } | Call::SetMaximum { pool, .. } | Call::SetMinimum { pool, .. } =>
            pool.0 <= 65_535,
        Call::CloseGroup { group } | Call::BeginClose { group, .. } => group.0 <= 65_535,
        Call::CreatePool
        | Call::CreateGroup
        | Call::Attach
        | Call::Detach
        | Call::Take
        | Call::Return
        | Call::MayRunLong
        | Call::Disassociate
        | Call::End
        | Call::CreateEvent { .. }
        | Call::CreateLock { .. }
        | Call::CompleteIo { .. }
        | Call::Finish => true,
    }
}
