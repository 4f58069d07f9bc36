//! Each call in a function of its own: what is decided of it is settled where it is decided, so that a call keeps only
//! what it needs itself.

ghost use Rattle.std.specs.Prelude.{◌≡◌, ◌+◌, ◌^◌, ◌<◌, ◌≤◌, ◌&&◌, false};
ghost use Rattle.std.specs.List.{list_any};
ghost use Rattle.pool_core.specs.Made.{IsMade};
ghost use Rattle.tp_base.specs.Ranges.{IsCallInRange};
ghost use Rattle.tp_model.specs.Counts.{is_pending};

use crate::Engine;
use pool_plans::{
    clients, groups, in_callback, io, kernels, objects, pools, timers, wait_objects, waits, work,
    workers,
};
use steps::Steps;
use tp_base::answers::{ActionKind, Outcome};
use tp_base::calls::{Call, Environ, Kind, Lock};
use tp_base::ids::{GroupId, KernelId, ObjectId, PoolId, RoutineId, Who};
use tp_base::plans::Change;

// Makes a call by the method that has its fields. That of a Take counts.
macro_rules! one_of {
    ($engine:ident, $who:ident, $call:ident, $room:ident, $outcome:ident, $change:ident, $steps:ident: $($variant:ident $({ $($field:ident),+ })? => $method:ident;)+) => {
        match *$call {
            Call::Take => $engine.take($who, $room, $outcome, $change, $steps),
            $(Call::$variant $({ $($field),+ })? => $engine.$method($who, $($($field,)+)? $room, $outcome, $change),)+
        }
    };
}

// Decides a call, and has that settled.
macro_rules! settled {
    ($engine:ident, $who:ident, $room:ident, $outcome:ident, $change:ident: $call:expr => $module:ident::$plan:ident($($field:ident),*)) => {{
        let mut steps = Steps::new();
        let decision = $module::$plan($engine.world(), $who, $($field,)* $change, $outcome);
        $engine.settle($who, $call, decision, $change, $room, $outcome, &mut steps);
    }};
}

impl Engine {
    /// As `step_into`, and counts the nodes that a Take reads of the lists of callbacks, however many callbacks are
    /// pending: four at most, and three where none is persistent that is pending. What it counts of
    /// another call is not said.
    #[inline(always)]
    pub fn step_counted(
        &mut self,
        who: Who,
        call: &Call,
        room: u64,
        outcome: &mut Outcome,
        change: &mut Change,
        steps: &mut Steps,
    )
        requires in_range { IsCallInRange call.now }
        requires young { self.old.age < 2 ^ 47 }
        ensures made { IsMade self.old self.new room who call.now outcome.new }
        ensures counted { steps.old ≤ steps.new }
        ensures bound { call.now ≡ Call.Take → steps.new ≤ steps.old + 4 }
        ensures fewer { call.now ≡ Call.Take → list_any (λ c. is_pending c.status && c.persistent) self.old.world.callbacks ≡ false → steps.new ≤ steps.old + 3 }
    {
        one_of!(self, who, call, room, outcome, change, steps:
            CreatePool => create_pool;
            ClosePool { pool } => close_pool;
            SetMaximum { pool, value } => set_maximum;
            SetMinimum { pool, value } => set_minimum;
            CreateGroup => create_group;
            CloseGroup { group } => close_group;
            BeginClose { group, cancel, context } => begin_close;
            Create { kind, routine, context, env } => create;
            CloseObject { kind, object } => close_object;
            SubmitSimple { routine, context, env } => submit_simple;
            SubmitWork { object } => submit_work;
            SetTimer { object, due, period, window } => set_timer;
            SetTimerEx { object, due, period, window } => set_timer_ex;
            IsTimerSet { object } => is_timer_set;
            Advance { ticks } => advance;
            SetWait { object, kernel, timeout } => set_wait;
            StartIo { object } => start_io;
            IssueIo { object } => issue_io;
            CancelIo { object } => cancel_io;
            CompleteIo { callback, error, bytes } => complete_io;
            CompleteNext { object, error, bytes } => complete_next;
            BeginWait { kind, object, cancel } => begin_wait;
            BeginAcquire { kernel } => begin_acquire;
            TryAcquire { kernel } => try_acquire;
            End => end;
            CreateEvent { manual, signalled } => create_event;
            CreateSemaphore { initial, maximum } => create_semaphore;
            CreateLock { lock, owned } => create_lock;
            SetEvent { kernel } => set_event;
            ResetEvent { kernel } => reset_event;
            ReleaseSemaphore { kernel, count } => release_semaphore;
            ReleaseLock { lock, kernel } => release_lock;
            Attach => attach;
            Detach => detach;
            Return => return_callback;
            MayRunLong => may_run_long;
            Disassociate => disassociate;
            OnReturn { kind, kernel, count } => on_return;
            Finish => finish;
        )
    }

    #[inline(never)]
    fn create_pool(&mut self, who: Who, room: u64, outcome: &mut Outcome, change: &mut Change)
        requires young { self.old.age < 2 ^ 47 }
        ensures made { IsMade self.old self.new room who Call.CreatePool outcome.new }
    {
        settled!(self, who, room, outcome, change: Call::CreatePool => pools::create_pool());
    }

    #[inline(never)]
    fn close_pool(
        &mut self,
        who: Who,
        pool: PoolId,
        room: u64,
        outcome: &mut Outcome,
        change: &mut Change,
    )
        requires in_range { IsCallInRange (Call.ClosePool pool) }
        requires young { self.old.age < 2 ^ 47 }
        ensures made { IsMade self.old self.new room who (Call.ClosePool pool) outcome.new }
    {
        settled!(self, who, room, outcome, change: Call::ClosePool { pool } => pools::close_pool(pool));
    }

    #[inline(never)]
    fn set_maximum(
        &mut self,
        who: Who,
        pool: PoolId,
        value: u32,
        room: u64,
        outcome: &mut Outcome,
        change: &mut Change,
    )
        requires in_range { IsCallInRange (Call.SetMaximum pool value) }
        requires young { self.old.age < 2 ^ 47 }
        ensures made { IsMade self.old self.new room who (Call.SetMaximum pool value) outcome.new }
    {
        settled!(self, who, room, outcome, change: Call::SetMaximum { pool, value } => pools::set_maximum(pool, value));
    }

    #[inline(never)]
    fn set_minimum(
        &mut self,
        who: Who,
        pool: PoolId,
        value: u32,
        room: u64,
        outcome: &mut Outcome,
        change: &mut Change,
    )
        requires in_range { IsCallInRange (Call.SetMinimum pool value) }
        requires young { self.old.age < 2 ^ 47 }
        ensures made { IsMade self.old self.new room who (Call.SetMinimum pool value) outcome.new }
    {
        settled!(self, who, room, outcome, change: Call::SetMinimum { pool, value } => pools::set_minimum(pool, value));
    }

    #[inline(never)]
    fn create_group(&mut self, who: Who, room: u64, outcome: &mut Outcome, change: &mut Change)
        requires young { self.old.age < 2 ^ 47 }
        ensures made { IsMade self.old self.new room who Call.CreateGroup outcome.new }
    {
        settled!(self, who, room, outcome, change: Call::CreateGroup => groups::create_group());
    }

    #[inline(never)]
    fn close_group(
        &mut self,
        who: Who,
        group: GroupId,
        room: u64,
        outcome: &mut Outcome,
        change: &mut Change,
    )
        requires in_range { IsCallInRange (Call.CloseGroup group) }
        requires young { self.old.age < 2 ^ 47 }
        ensures made { IsMade self.old self.new room who (Call.CloseGroup group) outcome.new }
    {
        settled!(self, who, room, outcome, change: Call::CloseGroup { group } => groups::close_group(group));
    }

    #[inline(never)]
    fn begin_close(
        &mut self,
        who: Who,
        group: GroupId,
        cancel: bool,
        context: u64,
        room: u64,
        outcome: &mut Outcome,
        change: &mut Change,
    )
        requires in_range { IsCallInRange (Call.BeginClose group cancel context) }
        requires young { self.old.age < 2 ^ 47 }
        ensures made { IsMade self.old self.new room who (Call.BeginClose group cancel context) outcome.new }
    {
        settled!(self, who, room, outcome, change: Call::BeginClose { group, cancel, context } => groups::begin_close(group, cancel, context));
    }

    #[inline(never)]
    fn create(
        &mut self,
        who: Who,
        kind: Kind,
        routine: RoutineId,
        context: u64,
        env: Environ,
        room: u64,
        outcome: &mut Outcome,
        change: &mut Change,
    )
        requires in_range { IsCallInRange (Call.Create kind routine context env) }
        requires young { self.old.age < 2 ^ 47 }
        ensures made { IsMade self.old self.new room who (Call.Create kind routine context env) outcome.new }
    {
        settled!(self, who, room, outcome, change: Call::Create { kind, routine, context, env } => objects::create(kind, routine, context, env));
    }

    #[inline(never)]
    fn close_object(
        &mut self,
        who: Who,
        kind: Kind,
        object: ObjectId,
        room: u64,
        outcome: &mut Outcome,
        change: &mut Change,
    )
        requires in_range { IsCallInRange (Call.CloseObject kind object) }
        requires young { self.old.age < 2 ^ 47 }
        ensures made { IsMade self.old self.new room who (Call.CloseObject kind object) outcome.new }
    {
        settled!(self, who, room, outcome, change: Call::CloseObject { kind, object } => objects::close_object(kind, object));
    }

    #[inline(never)]
    fn submit_simple(
        &mut self,
        who: Who,
        routine: RoutineId,
        context: u64,
        env: Environ,
        room: u64,
        outcome: &mut Outcome,
        change: &mut Change,
    )
        requires in_range { IsCallInRange (Call.SubmitSimple routine context env) }
        requires young { self.old.age < 2 ^ 47 }
        ensures made { IsMade self.old self.new room who (Call.SubmitSimple routine context env) outcome.new }
    {
        settled!(self, who, room, outcome, change: Call::SubmitSimple { routine, context, env } => work::submit_simple(routine, context, env));
    }

    #[inline(never)]
    fn submit_work(
        &mut self,
        who: Who,
        object: ObjectId,
        room: u64,
        outcome: &mut Outcome,
        change: &mut Change,
    )
        requires in_range { IsCallInRange (Call.SubmitWork object) }
        requires young { self.old.age < 2 ^ 47 }
        ensures made { IsMade self.old self.new room who (Call.SubmitWork object) outcome.new }
    {
        settled!(self, who, room, outcome, change: Call::SubmitWork { object } => work::submit_work(object));
    }

    #[inline(never)]
    fn set_timer(
        &mut self,
        who: Who,
        object: ObjectId,
        due: Option<i64>,
        period: u32,
        window: u32,
        room: u64,
        outcome: &mut Outcome,
        change: &mut Change,
    )
        requires in_range { IsCallInRange (Call.SetTimer object due period window) }
        requires young { self.old.age < 2 ^ 47 }
        ensures made { IsMade self.old self.new room who (Call.SetTimer object due period window) outcome.new }
    {
        settled!(self, who, room, outcome, change: Call::SetTimer { object, due, period, window } => timers::set_timer(object, due, period, window));
    }

    #[inline(never)]
    fn set_timer_ex(
        &mut self,
        who: Who,
        object: ObjectId,
        due: Option<i64>,
        period: u32,
        window: u32,
        room: u64,
        outcome: &mut Outcome,
        change: &mut Change,
    )
        requires in_range { IsCallInRange (Call.SetTimerEx object due period window) }
        requires young { self.old.age < 2 ^ 47 }
        ensures made { IsMade self.old self.new room who (Call.SetTimerEx object due period window) outcome.new }
    {
        settled!(self, who, room, outcome, change: Call::SetTimerEx { object, due, period, window } => timers::set_timer_ex(object, due, period, window));
    }

    #[inline(never)]
    fn is_timer_set(
        &mut self,
        who: Who,
        object: ObjectId,
        room: u64,
        outcome: &mut Outcome,
        change: &mut Change,
    )
        requires in_range { IsCallInRange (Call.IsTimerSet object) }
        requires young { self.old.age < 2 ^ 47 }
        ensures made { IsMade self.old self.new room who (Call.IsTimerSet object) outcome.new }
    {
        settled!(self, who, room, outcome, change: Call::IsTimerSet { object } => timers::is_timer_set(object));
    }

    #[inline(never)]
    fn advance(
        &mut self,
        who: Who,
        ticks: u64,
        room: u64,
        outcome: &mut Outcome,
        change: &mut Change,
    )
        requires in_range { IsCallInRange (Call.Advance ticks) }
        requires young { self.old.age < 2 ^ 47 }
        ensures made { IsMade self.old self.new room who (Call.Advance ticks) outcome.new }
    {
        settled!(self, who, room, outcome, change: Call::Advance { ticks } => timers::advance(ticks));
    }

    #[inline(never)]
    fn set_wait(
        &mut self,
        who: Who,
        object: ObjectId,
        kernel: Option<KernelId>,
        timeout: Option<i64>,
        room: u64,
        outcome: &mut Outcome,
        change: &mut Change,
    )
        requires in_range { IsCallInRange (Call.SetWait object kernel timeout) }
        requires young { self.old.age < 2 ^ 47 }
        ensures made { IsMade self.old self.new room who (Call.SetWait object kernel timeout) outcome.new }
    {
        settled!(self, who, room, outcome, change: Call::SetWait { object, kernel, timeout } => wait_objects::set_wait(object, kernel, timeout));
    }

    #[inline(never)]
    fn start_io(
        &mut self,
        who: Who,
        object: ObjectId,
        room: u64,
        outcome: &mut Outcome,
        change: &mut Change,
    )
        requires in_range { IsCallInRange (Call.StartIo object) }
        requires young { self.old.age < 2 ^ 47 }
        ensures made { IsMade self.old self.new room who (Call.StartIo object) outcome.new }
    {
        settled!(self, who, room, outcome, change: Call::StartIo { object } => io::start_io(object));
    }

    #[inline(never)]
    fn issue_io(
        &mut self,
        who: Who,
        object: ObjectId,
        room: u64,
        outcome: &mut Outcome,
        change: &mut Change,
    )
        requires in_range { IsCallInRange (Call.IssueIo object) }
        requires young { self.old.age < 2 ^ 47 }
        ensures made { IsMade self.old self.new room who (Call.IssueIo object) outcome.new }
    {
        settled!(self, who, room, outcome, change: Call::IssueIo { object } => io::issue_io(object));
    }

    #[inline(never)]
    fn cancel_io(
        &mut self,
        who: Who,
        object: ObjectId,
        room: u64,
        outcome: &mut Outcome,
        change: &mut Change,
    )
        requires in_range { IsCallInRange (Call.CancelIo object) }
        requires young { self.old.age < 2 ^ 47 }
        ensures made { IsMade self.old self.new room who (Call.CancelIo object) outcome.new }
    {
        settled!(self, who, room, outcome, change: Call::CancelIo { object } => io::cancel_io(object));
    }

    #[inline(never)]
    fn complete_io(
        &mut self,
        who: Who,
        callback: u64,
        error: u32,
        bytes: u64,
        room: u64,
        outcome: &mut Outcome,
        change: &mut Change,
    )
        requires in_range { IsCallInRange (Call.CompleteIo callback error bytes) }
        requires young { self.old.age < 2 ^ 47 }
        ensures made { IsMade self.old self.new room who (Call.CompleteIo callback error bytes) outcome.new }
    {
        settled!(self, who, room, outcome, change: Call::CompleteIo { callback, error, bytes } => io::complete_io(callback, error, bytes));
    }

    #[inline(never)]
    fn complete_next(
        &mut self,
        who: Who,
        object: ObjectId,
        error: u32,
        bytes: u64,
        room: u64,
        outcome: &mut Outcome,
        change: &mut Change,
    )
        requires in_range { IsCallInRange (Call.CompleteNext object error bytes) }
        requires young { self.old.age < 2 ^ 47 }
        ensures made { IsMade self.old self.new room who (Call.CompleteNext object error bytes) outcome.new }
    {
        settled!(self, who, room, outcome, change: Call::CompleteNext { object, error, bytes } => io::complete_next(object, error, bytes));
    }

    #[inline(never)]
    fn begin_wait(
        &mut self,
        who: Who,
        kind: Kind,
        object: ObjectId,
        cancel: bool,
        room: u64,
        outcome: &mut Outcome,
        change: &mut Change,
    )
        requires in_range { IsCallInRange (Call.BeginWait kind object cancel) }
        requires young { self.old.age < 2 ^ 47 }
        ensures made { IsMade self.old self.new room who (Call.BeginWait kind object cancel) outcome.new }
    {
        settled!(self, who, room, outcome, change: Call::BeginWait { kind, object, cancel } => waits::begin_wait(kind, object, cancel));
    }

    #[inline(never)]
    fn begin_acquire(
        &mut self,
        who: Who,
        kernel: KernelId,
        room: u64,
        outcome: &mut Outcome,
        change: &mut Change,
    )
        requires in_range { IsCallInRange (Call.BeginAcquire kernel) }
        requires young { self.old.age < 2 ^ 47 }
        ensures made { IsMade self.old self.new room who (Call.BeginAcquire kernel) outcome.new }
    {
        settled!(self, who, room, outcome, change: Call::BeginAcquire { kernel } => waits::begin_acquire(kernel));
    }

    #[inline(never)]
    fn try_acquire(
        &mut self,
        who: Who,
        kernel: KernelId,
        room: u64,
        outcome: &mut Outcome,
        change: &mut Change,
    )
        requires in_range { IsCallInRange (Call.TryAcquire kernel) }
        requires young { self.old.age < 2 ^ 47 }
        ensures made { IsMade self.old self.new room who (Call.TryAcquire kernel) outcome.new }
    {
        settled!(self, who, room, outcome, change: Call::TryAcquire { kernel } => waits::try_acquire(kernel));
    }

    #[inline(never)]
    fn end(&mut self, who: Who, room: u64, outcome: &mut Outcome, change: &mut Change)
        requires young { self.old.age < 2 ^ 47 }
        ensures made { IsMade self.old self.new room who Call.End outcome.new }
    {
        settled!(self, who, room, outcome, change: Call::End => waits::end(room));
    }

    #[inline(never)]
    fn create_event(
        &mut self,
        who: Who,
        manual: bool,
        signalled: bool,
        room: u64,
        outcome: &mut Outcome,
        change: &mut Change,
    )
        requires young { self.old.age < 2 ^ 47 }
        ensures made { IsMade self.old self.new room who (Call.CreateEvent manual signalled) outcome.new }
    {
        settled!(self, who, room, outcome, change: Call::CreateEvent { manual, signalled } => kernels::create_event(manual, signalled));
    }

    #[inline(never)]
    fn create_semaphore(
        &mut self,
        who: Who,
        initial: u32,
        maximum: u32,
        room: u64,
        outcome: &mut Outcome,
        change: &mut Change,
    )
        requires in_range { IsCallInRange (Call.CreateSemaphore initial maximum) }
        requires young { self.old.age < 2 ^ 47 }
        ensures made { IsMade self.old self.new room who (Call.CreateSemaphore initial maximum) outcome.new }
    {
        settled!(self, who, room, outcome, change: Call::CreateSemaphore { initial, maximum } => kernels::create_semaphore(initial, maximum));
    }

    #[inline(never)]
    fn create_lock(
        &mut self,
        who: Who,
        lock: Lock,
        owned: bool,
        room: u64,
        outcome: &mut Outcome,
        change: &mut Change,
    )
        requires young { self.old.age < 2 ^ 47 }
        ensures made { IsMade self.old self.new room who (Call.CreateLock lock owned) outcome.new }
    {
        settled!(self, who, room, outcome, change: Call::CreateLock { lock, owned } => kernels::create_lock(lock, owned));
    }

    #[inline(never)]
    fn set_event(
        &mut self,
        who: Who,
        kernel: KernelId,
        room: u64,
        outcome: &mut Outcome,
        change: &mut Change,
    )
        requires in_range { IsCallInRange (Call.SetEvent kernel) }
        requires young { self.old.age < 2 ^ 47 }
        ensures made { IsMade self.old self.new room who (Call.SetEvent kernel) outcome.new }
    {
        settled!(self, who, room, outcome, change: Call::SetEvent { kernel } => kernels::set_event(kernel));
    }

    #[inline(never)]
    fn reset_event(
        &mut self,
        who: Who,
        kernel: KernelId,
        room: u64,
        outcome: &mut Outcome,
        change: &mut Change,
    )
        requires in_range { IsCallInRange (Call.ResetEvent kernel) }
        requires young { self.old.age < 2 ^ 47 }
        ensures made { IsMade self.old self.new room who (Call.ResetEvent kernel) outcome.new }
    {
        settled!(self, who, room, outcome, change: Call::ResetEvent { kernel } => kernels::reset_event(kernel));
    }

    #[inline(never)]
    fn release_semaphore(
        &mut self,
        who: Who,
        kernel: KernelId,
        count: u32,
        room: u64,
        outcome: &mut Outcome,
        change: &mut Change,
    )
        requires in_range { IsCallInRange (Call.ReleaseSemaphore kernel count) }
        requires young { self.old.age < 2 ^ 47 }
        ensures made { IsMade self.old self.new room who (Call.ReleaseSemaphore kernel count) outcome.new }
    {
        settled!(self, who, room, outcome, change: Call::ReleaseSemaphore { kernel, count } => kernels::release_semaphore(kernel, count));
    }

    #[inline(never)]
    fn release_lock(
        &mut self,
        who: Who,
        lock: Lock,
        kernel: KernelId,
        room: u64,
        outcome: &mut Outcome,
        change: &mut Change,
    )
        requires in_range { IsCallInRange (Call.ReleaseLock lock kernel) }
        requires young { self.old.age < 2 ^ 47 }
        ensures made { IsMade self.old self.new room who (Call.ReleaseLock lock kernel) outcome.new }
    {
        settled!(self, who, room, outcome, change: Call::ReleaseLock { lock, kernel } => kernels::release_lock(lock, kernel));
    }

    #[inline(never)]
    fn attach(&mut self, who: Who, room: u64, outcome: &mut Outcome, change: &mut Change)
        requires young { self.old.age < 2 ^ 47 }
        ensures made { IsMade self.old self.new room who Call.Attach outcome.new }
    {
        settled!(self, who, room, outcome, change: Call::Attach => workers::attach());
    }

    #[inline(never)]
    fn detach(&mut self, who: Who, room: u64, outcome: &mut Outcome, change: &mut Change)
        requires young { self.old.age < 2 ^ 47 }
        ensures made { IsMade self.old self.new room who Call.Detach outcome.new }
    {
        settled!(self, who, room, outcome, change: Call::Detach => workers::detach());
    }

    #[inline(never)]
    fn take(
        &mut self,
        who: Who,
        room: u64,
        outcome: &mut Outcome,
        change: &mut Change,
        steps: &mut Steps,
    )
        requires young { self.old.age < 2 ^ 47 }
        ensures made { IsMade self.old self.new room who Call.Take outcome.new }
        ensures counted { steps.old ≤ steps.new }
        ensures bound { steps.new ≤ steps.old + 4 }
        ensures fewer { list_any (λ c. is_pending c.status && c.persistent) self.old.world.callbacks ≡ false → steps.new ≤ steps.old + 3 }
    {
        let decision = workers::take(self.world(), who, change, outcome, steps);
        self.settle(who, Call::Take, decision, change, room, outcome, steps);
    }

    #[inline(never)]
    fn return_callback(&mut self, who: Who, room: u64, outcome: &mut Outcome, change: &mut Change)
        requires young { self.old.age < 2 ^ 47 }
        ensures made { IsMade self.old self.new room who Call.Return outcome.new }
    {
        settled!(self, who, room, outcome, change: Call::Return => workers::return_callback());
    }

    #[inline(never)]
    fn may_run_long(&mut self, who: Who, room: u64, outcome: &mut Outcome, change: &mut Change)
        requires young { self.old.age < 2 ^ 47 }
        ensures made { IsMade self.old self.new room who Call.MayRunLong outcome.new }
    {
        settled!(self, who, room, outcome, change: Call::MayRunLong => in_callback::may_run_long());
    }

    #[inline(never)]
    fn disassociate(&mut self, who: Who, room: u64, outcome: &mut Outcome, change: &mut Change)
        requires young { self.old.age < 2 ^ 47 }
        ensures made { IsMade self.old self.new room who Call.Disassociate outcome.new }
    {
        settled!(self, who, room, outcome, change: Call::Disassociate => in_callback::disassociate());
    }

    #[inline(never)]
    fn on_return(
        &mut self,
        who: Who,
        kind: ActionKind,
        kernel: KernelId,
        count: u32,
        room: u64,
        outcome: &mut Outcome,
        change: &mut Change,
    )
        requires in_range { IsCallInRange (Call.OnReturn kind kernel count) }
        requires young { self.old.age < 2 ^ 47 }
        ensures made { IsMade self.old self.new room who (Call.OnReturn kind kernel count) outcome.new }
    {
        settled!(self, who, room, outcome, change: Call::OnReturn { kind, kernel, count } => in_callback::on_return(kind, kernel, count));
    }

    #[inline(never)]
    fn finish(&mut self, who: Who, room: u64, outcome: &mut Outcome, change: &mut Change)
        requires young { self.old.age < 2 ^ 47 }
        ensures made { IsMade self.old self.new room who Call.Finish outcome.new }
    {
        settled!(self, who, room, outcome, change: Call::Finish => clients::finish());
    }
}
