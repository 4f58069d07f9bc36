//! The calls of a shared pool by the names of the Win32 functions.
//!
//! Each method is `try_call` with the call of that function, and promises what that does: the answer,
//! a look, Full, or Busy where another seat has the turn. The kind of an object or of an action is
//! told by the method's name. A function that waits is two calls, one that begins the wait and `End`;
//! `wait_callbacks`, `close_members` and `acquire` make both. `complete_next` alone is no function's: it
//! is what a device does.
//!
//! The numbers of pools, groups, objects, kernel objects and cancel routines are at most 65,535, those
//! of the routines that are called are 1 to 65,535, and an environment without a group has no cancel
//! routine: `in_range` of the call, of a routine or of an environment tests it. A context, a due time, a
//! timeout, a period and a window may be any values of their types.
//!
//! A method's first sentences name the answer to an accepted call. Four refusals can come of each, and
//! aren't named again: `NoSuch`, where something that the call names was never made; `Released`, where
//! the client has finished; `NotRunning`, where a worker runs no callback; `InWait`, where the actor
//! has begun a wait that hasn't ended.

ghost use Rattle.tp_base.specs.declared.answers.ActionKind.TheVariants.{Event, Mutex, Section, Semaphore};
ghost use Rattle.tp_base.specs.declared.calls.Call.TheVariants.{CloseGroup, CloseObject, ClosePool, Create, CreateGroup, CreatePool, SetMaximum, SetMinimum, SubmitSimple, SubmitWork};
ghost use Rattle.tp_base.specs.declared.calls.Call.TheVariants.{CancelIo, CompleteNext, IsTimerSet, SetTimer, SetTimerEx, SetWait, StartIo};
ghost use Rattle.tp_base.specs.declared.calls.Call.TheVariants.{Disassociate, MayRunLong, OnReturn, ReleaseLock, ReleaseSemaphore, ResetEvent, SetEvent, TryAcquire};
ghost use Rattle.tp_base.specs.declared.calls.Kind.TheVariants.{Io, Timer, Wait, Work};
ghost use Rattle.shared_pool.specs.Tries.{IsTry, MayTry};

use crate::pool::{SharedPool, Tried};
use recorded::Recorded;
use tp_base::answers::ActionKind;
use tp_base::calls::{Call, Environ, Kind, Lock};
use tp_base::ids::{GroupId, KernelId, ObjectId, PoolId, RoutineId};
use turn_lock::Seat;

// What an operation that is cancelled under way completes with: ERROR_OPERATION_ABORTED.
const OPERATION_ABORTED: u32 = 995;

impl<B: Recorded> SharedPool<B> {
    /// Makes a pool: `CreateThreadpool`. `Made` has its number, the first of which is 1.
    ///
    /// Refused too: `ObjectLimit`, as many were made as the limits allow.
    pub fn create_pool(&self, seat: &mut Seat<B>) -> Tried
        requires { MayTry self.now seat.old CreatePool }
        ensures { IsTry self.now CreatePool result seat.old seat.new }
    {
        self.try_call(seat, Call::CreatePool)
    }

    /// Closes a pool, in which nothing can be made or submitted then: `CloseThreadpool`. `Closed` says
    /// whether it is freed later, since an object that isn't released or a callback is outstanding.
    ///
    /// Refused too: `PoolClosed`; `DefaultPool`, pool 0 can't be closed.
    pub fn close_pool(&self, seat: &mut Seat<B>, pool: PoolId) -> Tried
        requires { MayTry self.now seat.old (ClosePool pool) }
        ensures { IsTry self.now (ClosePool pool) result seat.old seat.new }
    {
        self.try_call(seat, Call::ClosePool { pool })
    }

    /// Sets how many callbacks of a pool may run at once: `SetThreadpoolThreadMaximum`. It answers
    /// `Done`.
    ///
    /// Refused too: `PoolClosed`; `DefaultPool`, pool 0 can't be changed.
    pub fn set_maximum(&self, seat: &mut Seat<B>, pool: PoolId, value: u32) -> Tried
        requires { MayTry self.now seat.old (SetMaximum pool value) }
        ensures { IsTry self.now (SetMaximum pool value) result seat.old seat.new }
    {
        self.try_call(seat, Call::SetMaximum { pool, value })
    }

    /// Sets how many workers a pool keeps: `SetThreadpoolThreadMinimum`. It answers `Done`.
    ///
    /// Refused too: `PoolClosed`; `DefaultPool`, pool 0 can't be changed.
    pub fn set_minimum(&self, seat: &mut Seat<B>, pool: PoolId, value: u32) -> Tried
        requires { MayTry self.now seat.old (SetMinimum pool value) }
        ensures { IsTry self.now (SetMinimum pool value) result seat.old seat.new }
    {
        self.try_call(seat, Call::SetMinimum { pool, value })
    }

    /// Makes a cleanup group: `CreateThreadpoolCleanupGroup`. `Made` has its number, the first of which
    /// is 1.
    ///
    /// Refused too: `ObjectLimit`, as many were made as the limits allow.
    pub fn create_group(&self, seat: &mut Seat<B>) -> Tried
        requires { MayTry self.now seat.old CreateGroup }
        ensures { IsTry self.now CreateGroup result seat.old seat.new }
    {
        self.try_call(seat, Call::CreateGroup)
    }

    /// Closes a group that has no member: `CloseThreadpoolCleanupGroup`. It answers `Done`.
    ///
    /// Refused too: `GroupClosed`; `HasMembers`, with the least member, or with 0 where only a callback
    /// without an object is outstanding for the group.
    pub fn close_group(&self, seat: &mut Seat<B>, group: GroupId) -> Tried
        requires { MayTry self.now seat.old (CloseGroup group) }
        ensures { IsTry self.now (CloseGroup group) result seat.old seat.new }
    {
        self.try_call(seat, Call::CloseGroup { group })
    }

    /// Makes a work object: `CreateThreadpoolWork`. `Made` has its number; objects of all kinds share
    /// one series. Its callbacks call `routine` with `context`, in the way that `env` says.
    ///
    /// Refused too: `PoolClosed` and `GroupClosed`, those of the environment; `ObjectLimit`, as many
    /// objects were made as the limits allow.
    pub fn create_work(
        &self,
        seat: &mut Seat<B>,
        routine: RoutineId,
        context: u64,
        env: Environ,
    ) -> Tried
        requires { MayTry self.now seat.old (Create Work routine context env) }
        ensures { IsTry self.now (Create Work routine context env) result seat.old seat.new }
    {
        self.try_call(
            seat,
            Call::Create {
                kind: Kind::Work,
                routine,
                context,
                env,
            },
        )
    }

    /// Makes a timer, which isn't set: `CreateThreadpoolTimer`. `Made` has its number; objects of all
    /// kinds share one series. Its callbacks call `routine` with `context`, in the way that `env` says.
    ///
    /// Refused too: `PoolClosed` and `GroupClosed`, those of the environment; `ObjectLimit`, as many
    /// objects were made as the limits allow.
    pub fn create_timer(
        &self,
        seat: &mut Seat<B>,
        routine: RoutineId,
        context: u64,
        env: Environ,
    ) -> Tried
        requires { MayTry self.now seat.old (Create Timer routine context env) }
        ensures { IsTry self.now (Create Timer routine context env) result seat.old seat.new }
    {
        self.try_call(
            seat,
            Call::Create {
                kind: Kind::Timer,
                routine,
                context,
                env,
            },
        )
    }

    /// Makes a wait object, which isn't armed: `CreateThreadpoolWait`. `Made` has its number; objects
    /// of all kinds share one series. Its callbacks call `routine` with `context`, in the way that
    /// `env` says.
    ///
    /// Refused too: `PoolClosed` and `GroupClosed`, those of the environment; `ObjectLimit`, as many
    /// objects were made as the limits allow.
    pub fn create_wait(
        &self,
        seat: &mut Seat<B>,
        routine: RoutineId,
        context: u64,
        env: Environ,
    ) -> Tried
        requires { MayTry self.now seat.old (Create Wait routine context env) }
        ensures { IsTry self.now (Create Wait routine context env) result seat.old seat.new }
    {
        self.try_call(
            seat,
            Call::Create {
                kind: Kind::Wait,
                routine,
                context,
                env,
            },
        )
    }

    /// Makes an I/O object: `CreateThreadpoolIo`. `Made` has its number; objects of all kinds share one
    /// series. Its callbacks call `routine` with `context`, in the way that `env` says.
    ///
    /// Refused too: `PoolClosed` and `GroupClosed`, those of the environment; `ObjectLimit`, as many
    /// objects were made as the limits allow.
    pub fn create_io(
        &self,
        seat: &mut Seat<B>,
        routine: RoutineId,
        context: u64,
        env: Environ,
    ) -> Tried
        requires { MayTry self.now seat.old (Create Io routine context env) }
        ensures { IsTry self.now (Create Io routine context env) result seat.old seat.new }
    {
        self.try_call(
            seat,
            Call::Create {
                kind: Kind::Io,
                routine,
                context,
                env,
            },
        )
    }

    /// Releases a work object: `CloseThreadpoolWork`. `Closed` says whether it is freed later, since a
    /// callback is outstanding for it.
    ///
    /// Refused too: `WrongKind`; `Released`, the object.
    pub fn close_work(&self, seat: &mut Seat<B>, object: ObjectId) -> Tried
        requires { MayTry self.now seat.old (CloseObject Work object) }
        ensures { IsTry self.now (CloseObject Work object) result seat.old seat.new }
    {
        self.try_call(
            seat,
            Call::CloseObject {
                kind: Kind::Work,
                object,
            },
        )
    }

    /// Releases a timer, which is then no longer set: `CloseThreadpoolTimer`. `Closed` says whether it
    /// is freed later, since a callback is outstanding for it.
    ///
    /// Refused too: `WrongKind`; `Released`, the object.
    pub fn close_timer(&self, seat: &mut Seat<B>, object: ObjectId) -> Tried
        requires { MayTry self.now seat.old (CloseObject Timer object) }
        ensures { IsTry self.now (CloseObject Timer object) result seat.old seat.new }
    {
        self.try_call(
            seat,
            Call::CloseObject {
                kind: Kind::Timer,
                object,
            },
        )
    }

    /// Releases a wait object, which is then no longer armed: `CloseThreadpoolWait`. `Closed` says
    /// whether it is freed later, since a callback is outstanding for it.
    ///
    /// Refused too: `WrongKind`; `Released`, the object.
    pub fn close_wait(&self, seat: &mut Seat<B>, object: ObjectId) -> Tried
        requires { MayTry self.now seat.old (CloseObject Wait object) }
        ensures { IsTry self.now (CloseObject Wait object) result seat.old seat.new }
    {
        self.try_call(
            seat,
            Call::CloseObject {
                kind: Kind::Wait,
                object,
            },
        )
    }

    /// Releases an I/O object: `CloseThreadpoolIo`. `Closed` says whether it is freed later, since a
    /// callback is outstanding for it.
    ///
    /// Refused too: `WrongKind`; `Released`, the object; `OperationsOutstanding`, an operation is
    /// announced or under way.
    pub fn close_io(&self, seat: &mut Seat<B>, object: ObjectId) -> Tried
        requires { MayTry self.now seat.old (CloseObject Io object) }
        ensures { IsTry self.now (CloseObject Io object) result seat.old seat.new }
    {
        self.try_call(
            seat,
            Call::CloseObject {
                kind: Kind::Io,
                object,
            },
        )
    }

    /// Makes one pending callback of a work object: `SubmitThreadpoolWork`. `Queued` has its number.
    ///
    /// Refused too: `WrongKind`; `Released`, the object; `CallbackLimit`, as many callbacks are under
    /// way as the limits allow.
    pub fn submit_work(&self, seat: &mut Seat<B>, object: ObjectId) -> Tried
        requires { MayTry self.now seat.old (SubmitWork object) }
        ensures { IsTry self.now (SubmitWork object) result seat.old seat.new }
    {
        self.try_call(seat, Call::SubmitWork { object })
    }

    /// Makes one pending callback without an object: `TrySubmitThreadpoolCallback`. `Queued` has its
    /// number.
    ///
    /// Refused too: `PoolClosed` and `GroupClosed`, those of the environment; `CallbackLimit`, as many
    /// callbacks are under way as the limits allow.
    pub fn submit_simple(
        &self,
        seat: &mut Seat<B>,
        routine: RoutineId,
        context: u64,
        env: Environ,
    ) -> Tried
        requires { MayTry self.now seat.old (SubmitSimple routine context env) }
        ensures { IsTry self.now (SubmitSimple routine context env) result seat.old seat.new }
    {
        self.try_call(
            seat,
            Call::SubmitSimple {
                routine,
                context,
                env,
            },
        )
    }

    /// Sets a timer, or with no due time unsets it: `SetThreadpoolTimer`. `Queued` has the callback
    /// that was made at once, if one was.
    ///
    /// A due time is in units of 100 ns: above 0 a moment of the clock, below 0 a span from now, and 0
    /// is at once. The period is in milliseconds, or 0 for a timer that expires once. The window is in
    /// milliseconds too, and has no effect yet.
    ///
    /// Refused too: `WrongKind`; `Released`, the object; `CallbackLimit`, it would expire at once, and
    /// as many callbacks are under way as the limits allow.
    pub fn set_timer(
        &self,
        seat: &mut Seat<B>,
        object: ObjectId,
        due: Option<i64>,
        period: u32,
        window: u32,
    ) -> Tried
        requires { MayTry self.now seat.old (SetTimer object due period window) }
        ensures { IsTry self.now (SetTimer object due period window) result seat.old seat.new }
    {
        self.try_call(
            seat,
            Call::SetTimer {
                object,
                due,
                period,
                window,
            },
        )
    }

    /// The same, and `WasSet` says besides whether the timer was set before: `SetThreadpoolTimerEx`.
    /// Refused where `set_timer` is.
    pub fn set_timer_ex(
        &self,
        seat: &mut Seat<B>,
        object: ObjectId,
        due: Option<i64>,
        period: u32,
        window: u32,
    ) -> Tried
        requires { MayTry self.now seat.old (SetTimerEx object due period window) }
        ensures { IsTry self.now (SetTimerEx object due period window) result seat.old seat.new }
    {
        self.try_call(
            seat,
            Call::SetTimerEx {
                object,
                due,
                period,
                window,
            },
        )
    }

    /// Asks whether a timer is set: `IsThreadpoolTimerSet`. It answers `Flag`.
    ///
    /// Refused too: `WrongKind`; `Released`, the object.
    pub fn is_timer_set(&self, seat: &mut Seat<B>, object: ObjectId) -> Tried
        requires { MayTry self.now seat.old (IsTimerSet object) }
        ensures { IsTry self.now (IsTimerSet object) result seat.old seat.new }
    {
        self.try_call(seat, Call::IsTimerSet { object })
    }

    /// Arms a wait object on an event or a semaphore, or without one disarms it: `SetThreadpoolWait`.
    /// `Queued` has the callback that was made at once, if one was.
    ///
    /// A timeout is as a timer's due time; with none the wait is for ever.
    ///
    /// Refused too: `WrongKind`; `Released`, the object; `NotWaitable`, the kernel object is a mutex or
    /// a section; `CallbackLimit`, there is no place for one more callback or armed wait.
    pub fn set_wait(
        &self,
        seat: &mut Seat<B>,
        object: ObjectId,
        kernel: Option<KernelId>,
        timeout: Option<i64>,
    ) -> Tried
        requires { MayTry self.now seat.old (SetWait object kernel timeout) }
        ensures { IsTry self.now (SetWait object kernel timeout) result seat.old seat.new }
    {
        self.try_call(
            seat,
            Call::SetWait {
                object,
                kernel,
                timeout,
            },
        )
    }

    /// Announces an operation of an I/O object: `StartThreadpoolIo`. `Started` has its number, which is
    /// that of its callback.
    ///
    /// Refused too: `WrongKind`; `Released`, the object; `CallbackLimit`, as many callbacks are under
    /// way as the limits allow.
    pub fn start_io(&self, seat: &mut Seat<B>, object: ObjectId) -> Tried
        requires { MayTry self.now seat.old (StartIo object) }
        ensures { IsTry self.now (StartIo object) result seat.old seat.new }
    {
        self.try_call(seat, Call::StartIo { object })
    }

    /// Gives up the operation that was announced first and not issued yet: `CancelThreadpoolIo`.
    /// `Cancelled` has its number.
    ///
    /// Refused too: `WrongKind`; `Released`, the object; `NotStarted`, there is no such operation.
    pub fn cancel_io(&self, seat: &mut Seat<B>, object: ObjectId) -> Tried
        requires { MayTry self.now seat.old (CancelIo object) }
        ensures { IsTry self.now (CancelIo object) result seat.old seat.new }
    {
        self.try_call(seat, Call::CancelIo { object })
    }

    /// Completes the first operation of an I/O object that is under way, as its device does next. `Queued`
    /// has its callback, which is pending then and is told `error`, 0 or the code of what went wrong, and
    /// how many `bytes` were read or written.
    ///
    /// Refused too: `WrongKind`; `NoOperation`, none is under way. That the object is released is no reason.
    pub fn complete_next(
        &self,
        seat: &mut Seat<B>,
        object: ObjectId,
        error: u32,
        bytes: u64,
    ) -> Tried
        requires { MayTry self.now seat.old (CompleteNext object error bytes) }
        ensures { IsTry self.now (CompleteNext object error bytes) result seat.old seat.new }
    {
        self.try_call(
            seat,
            Call::CompleteNext {
                object,
                error,
                bytes,
            },
        )
    }

    /// Cancels the first operation of an I/O object that is under way: `CancelIoEx`, one operation at a
    /// time. `Queued` has its callback, which is pending then and is told the error 995 and no bytes.
    ///
    /// Who cancels all makes it until it is refused. Refused where `complete_next` is.
    pub fn cancel_io_ex(&self, seat: &mut Seat<B>, object: ObjectId) -> Tried
        requires { MayTry self.now seat.old (CompleteNext object 995 0) }
        ensures { IsTry self.now (CompleteNext object 995 0) result seat.old seat.new }
    {
        self.complete_next(seat, object, OPERATION_ABORTED, 0)
    }

    /// Says that the callback which the worker runs may run long: `CallbackMayRunLong`. `Flag` says
    /// whether the pool has another worker for its callbacks.
    ///
    /// A client is refused as `NotRunning`, always.
    pub fn may_run_long(&self, seat: &mut Seat<B>) -> Tried
        requires { MayTry self.now seat.old MayRunLong }
        ensures { IsTry self.now MayRunLong result seat.old seat.new }
    {
        self.try_call(seat, Call::MayRunLong)
    }

    /// Ends the tie between the callback that the worker runs and its object, so that waits for the
    /// object no longer wait for it: `DisassociateCurrentThreadFromCallback`. It answers `Done`.
    ///
    /// A client is refused as `NotRunning`, always.
    pub fn disassociate(&self, seat: &mut Seat<B>) -> Tried
        requires { MayTry self.now seat.old Disassociate }
        ensures { IsTry self.now Disassociate result seat.old seat.new }
    {
        self.try_call(seat, Call::Disassociate)
    }

    /// Leaves it to the return of the worker's callback to give a critical section back:
    /// `LeaveCriticalSectionWhenCallbackReturns`. It answers `Done`.
    ///
    /// The count is 1 to 2,147,483,647 and has no effect.
    ///
    /// Refused too: `WrongKind`, the kernel object; `SlotTaken`, the callback has such an action
    /// already. A client is refused as `NotRunning`, always.
    pub fn leave_section_on_return(&self, seat: &mut Seat<B>, kernel: KernelId, count: u32) -> Tried
        requires { MayTry self.now seat.old (OnReturn Section kernel count) }
        ensures { IsTry self.now (OnReturn Section kernel count) result seat.old seat.new }
    {
        self.try_call(
            seat,
            Call::OnReturn {
                kind: ActionKind::Section,
                kernel,
                count,
            },
        )
    }

    /// Leaves it to the return of the worker's callback to give a mutex back:
    /// `ReleaseMutexWhenCallbackReturns`. It answers `Done`.
    ///
    /// The count is 1 to 2,147,483,647 and has no effect.
    ///
    /// Refused too: `WrongKind`, the kernel object; `SlotTaken`, the callback has such an action
    /// already. A client is refused as `NotRunning`, always.
    pub fn release_mutex_on_return(&self, seat: &mut Seat<B>, kernel: KernelId, count: u32) -> Tried
        requires { MayTry self.now seat.old (OnReturn Mutex kernel count) }
        ensures { IsTry self.now (OnReturn Mutex kernel count) result seat.old seat.new }
    {
        self.try_call(
            seat,
            Call::OnReturn {
                kind: ActionKind::Mutex,
                kernel,
                count,
            },
        )
    }

    /// Leaves it to the return of the worker's callback to raise a semaphore by `count`, 1 to
    /// 2,147,483,647: `ReleaseSemaphoreWhenCallbackReturns`. It answers `Done`.
    ///
    /// Refused too: `WrongKind`, the kernel object; `SlotTaken`, the callback has such an action
    /// already. A client is refused as `NotRunning`, always.
    pub fn release_semaphore_on_return(
        &self,
        seat: &mut Seat<B>,
        kernel: KernelId,
        count: u32,
    ) -> Tried
        requires { MayTry self.now seat.old (OnReturn Semaphore kernel count) }
        ensures { IsTry self.now (OnReturn Semaphore kernel count) result seat.old seat.new }
    {
        self.try_call(
            seat,
            Call::OnReturn {
                kind: ActionKind::Semaphore,
                kernel,
                count,
            },
        )
    }

    /// Leaves it to the return of the worker's callback to set an event: `SetEventWhenCallbackReturns`.
    /// It answers `Done`.
    ///
    /// The count is 1 to 2,147,483,647 and has no effect.
    ///
    /// Refused too: `WrongKind`, the kernel object; `SlotTaken`, the callback has such an action
    /// already. A client is refused as `NotRunning`, always.
    pub fn set_event_on_return(&self, seat: &mut Seat<B>, kernel: KernelId, count: u32) -> Tried
        requires { MayTry self.now seat.old (OnReturn Event kernel count) }
        ensures { IsTry self.now (OnReturn Event kernel count) result seat.old seat.new }
    {
        self.try_call(
            seat,
            Call::OnReturn {
                kind: ActionKind::Event,
                kernel,
                count,
            },
        )
    }

    /// Makes an event signalled: `SetEvent`. `Queued` has the callbacks of the waits that it released.
    ///
    /// Refused too: `WrongKind`.
    pub fn set_event(&self, seat: &mut Seat<B>, kernel: KernelId) -> Tried
        requires { MayTry self.now seat.old (SetEvent kernel) }
        ensures { IsTry self.now (SetEvent kernel) result seat.old seat.new }
    {
        self.try_call(seat, Call::SetEvent { kernel })
    }

    /// Makes an event not signalled: `ResetEvent`. It answers `Done`.
    ///
    /// Refused too: `WrongKind`.
    pub fn reset_event(&self, seat: &mut Seat<B>, kernel: KernelId) -> Tried
        requires { MayTry self.now seat.old (ResetEvent kernel) }
        ensures { IsTry self.now (ResetEvent kernel) result seat.old seat.new }
    {
        self.try_call(seat, Call::ResetEvent { kernel })
    }

    /// Raises the count of a semaphore by `count`, 1 to 2,147,483,647: `ReleaseSemaphore`. `Count` has
    /// the count before, and the callbacks of the waits that it released.
    ///
    /// Refused too: `WrongKind`; `OverMaximum`, the count would pass the semaphore's maximum.
    pub fn release_semaphore(&self, seat: &mut Seat<B>, kernel: KernelId, count: u32) -> Tried
        requires { MayTry self.now seat.old (ReleaseSemaphore kernel count) }
        ensures { IsTry self.now (ReleaseSemaphore kernel count) result seat.old seat.new }
    {
        self.try_call(seat, Call::ReleaseSemaphore { kernel, count })
    }

    /// Gives back one taking of a lock that the actor owns: `ReleaseMutex`, and for a section
    /// `LeaveCriticalSection`. It answers `Done`.
    ///
    /// Refused too: `WrongKind`; `NotOwner`, it is free or another's.
    pub fn release_lock(&self, seat: &mut Seat<B>, lock: Lock, kernel: KernelId) -> Tried
        requires { MayTry self.now seat.old (ReleaseLock lock kernel) }
        ensures { IsTry self.now (ReleaseLock lock kernel) result seat.old seat.new }
    {
        self.try_call(seat, Call::ReleaseLock { lock, kernel })
    }

    /// Takes a kernel object where the actor may take it now, and begins no wait: `WaitForSingleObject`
    /// with a time of 0, and for a section `TryEnterCriticalSection`. `Flag` says whether it is taken: an
    /// event or a semaphore that is signalled, or a lock that is free or the actor's own.
    ///
    /// It is refused for no other reason than the four.
    pub fn try_acquire(&self, seat: &mut Seat<B>, kernel: KernelId) -> Tried
        requires { MayTry self.now seat.old (TryAcquire kernel) }
        ensures { IsTry self.now (TryAcquire kernel) result seat.old seat.new }
    {
        self.try_call(seat, Call::TryAcquire { kernel })
    }
}
