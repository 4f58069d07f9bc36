//! The plan of a call, whichever it is.
//!
//! `plan_of` tells of a call what pool_plans decides of it in a function of its own, of whoever keeps the world: a
//! refusal, a look, or an answer with the change that goes with it. It changes nothing.
//!
//! ```text
//! plan_of(&world, Who::Client(1), &Call::SubmitWork { object: ObjectId(1) }, 4)
//!     // Plan::Does { answer: Queued { first: 1, count: 1 }, change: QueueCallback(..) }
//! plan_of(&world, Who::Worker(1), &Call::Attach, 4)    // Plan::Looked(NoNeed)
//! ```

#![tactic(auto)]

ghost use Rattle.std.specs.Prelude.{◌≡◌, ◌+◌, ◌^◌, ◌<◌, Some};
ghost use Rattle.tp_model.specs.Table.{plan_at};
ghost use Rattle.pool_plans.specs.Decided.{decided};

use pool_plans::decisions::Decision;
use pool_plans::{
    clients, groups, in_callback, io, kernels, objects, pools, timers, wait_objects, waits, work,
    workers,
};
use steps::Steps;
use tp_base::answers::{Answer, Outcome};
use tp_base::calls::Call;
use tp_base::ids::Who;
use tp_base::plans::{Change, Plan};
use world_reads::Reads;

/// What a call comes to in a world whose history has this room.
pub fn plan_of<W: Reads>(world: &W, who: Who, call: &Call, room: u64) -> Plan
    requires { W.made_of world.now < 2 ^ 63 }
    ensures { result ≡ plan_at (W.world_of world.now) (W.made_of world.now + 1) room who call.now }
{
    let mut change = Change::Keep;
    let mut outcome = Outcome::Done(Answer::Done);
    let decision = decide(world, who, call, room, &mut change, &mut outcome);
    match (decision, outcome) {
        (Decision::Refused(refusal), _) => Plan::Refused(refusal),
        (Decision::Looked(look), _) => Plan::Looked(look),
        (Decision::Accepted, Outcome::Done(answer)) => Plan::Does { answer, change },
        // An accepted call has its answer.
        (Decision::Accepted, _) => Plan::Does {
            answer: Answer::Done,
            change,
        },
    }
}

// Decides a call by the function of it.
macro_rules! decided {
    ($world:ident, $who:ident, $call:ident, $room:ident, $change:ident, $outcome:ident: $($variant:ident $({ $($field:ident),+ })? => $module:ident::$plan:ident;)+) => {
        match *$call {
            Call::Take => workers::take($world, $who, $change, $outcome, &mut Steps::new()),
            Call::End => waits::end($world, $who, $room, $change, $outcome),
            $(Call::$variant $({ $($field),+ })? => $module::$plan($world, $who, $($($field,)+)? $change, $outcome),)+
        }
    };
}

fn decide<W: Reads>(
    world: &W,
    who: Who,
    call: &Call,
    room: u64,
    change: &mut Change,
    outcome: &mut Outcome,
) -> Decision
    requires { W.made_of world.now < 2 ^ 63 }
    ensures { decided result outcome.new change.new ≡ Some (plan_at (W.world_of world.now) (W.made_of world.now + 1) room who call.now) }
{
    decided!(world, who, call, room, change, outcome:
        CreatePool => pools::create_pool;
        ClosePool { pool } => pools::close_pool;
        SetMaximum { pool, value } => pools::set_maximum;
        SetMinimum { pool, value } => pools::set_minimum;
        CreateGroup => groups::create_group;
        CloseGroup { group } => groups::close_group;
        BeginClose { group, cancel, context } => groups::begin_close;
        Create { kind, routine, context, env } => objects::create;
        CloseObject { kind, object } => objects::close_object;
        SubmitSimple { routine, context, env } => work::submit_simple;
        SubmitWork { object } => work::submit_work;
        SetTimer { object, due, period, window } => timers::set_timer;
        SetTimerEx { object, due, period, window } => timers::set_timer_ex;
        IsTimerSet { object } => timers::is_timer_set;
        Advance { ticks } => timers::advance;
        SetWait { object, kernel, timeout } => wait_objects::set_wait;
        StartIo { object } => io::start_io;
        IssueIo { object } => io::issue_io;
        CancelIo { object } => io::cancel_io;
        CompleteIo { callback, error, bytes } => io::complete_io;
        CompleteNext { object, error, bytes } => io::complete_next;
        BeginWait { kind, object, cancel } => waits::begin_wait;
        BeginAcquire { kernel } => waits::begin_acquire;
        TryAcquire { kernel } => waits::try_acquire;
        CreateEvent { manual, signalled } => kernels::create_event;
        CreateSemaphore { initial, maximum } => kernels::create_semaphore;
        CreateLock { lock, owned } => kernels::create_lock;
        SetEvent { kernel } => kernels::set_event;
        ResetEvent { kernel } => kernels::reset_event;
        ReleaseSemaphore { kernel, count } => kernels::release_semaphore;
        ReleaseLock { lock, kernel } => kernels::release_lock;
        Attach => workers::attach;
        Detach => workers::detach;
        Return => workers::return_callback;
        MayRunLong => in_callback::may_run_long;
        Disassociate => in_callback::disassociate;
        OnReturn { kind, kernel, count } => in_callback::on_return;
        Finish => clients::finish;
    )
}
