//! How many nodes of lists a take reads, where as many callbacks are pending as there can be.

ghost use Rattle.std.specs.Prelude.{◌≡◌, ◌+◌, ◌^◌, ◌<◌, ◌≤◌};
ghost use Rattle.tp_base.specs.Ranges.{IsCallInRange};

use crate::expect::{expect_eq, expect_ok};
use pool_core::Engine;
use recorded::program_limits;
use std::process::Abort;
use steps::Steps;
use tp_base::answers::{Answer, Look, Outcome, SlotWord, TakeResult};
use tp_base::calls::{Call, Environ, Priority};
use tp_base::ids::{GroupId, ObjectId, PoolId, RoutineId, Who};
use tp_base::plans::Change;

const PENDING: u64 = 8_192;

const TAKES: u64 = 2_000_000;

const ROOM: u64 = 65_536;

// A callback of the default pool, without an object.
fn submit(persistent: bool) -> Call
    ensures { IsCallInRange result }
{
    Call::SubmitSimple {
        routine: RoutineId(1),
        context: 70,
        env: Environ {
            pool: PoolId(0),
            group: GroupId(0),
            cancel: RoutineId(0),
            priority: Priority::Normal,
            long: false,
            persistent,
        },
    }
}

// Makes a call, which comes to this.
fn check_step(
    rt: &impl Abort,
    engine: &mut Engine,
    change: &mut Change,
    who: Who,
    call: Call,
    wanted: Answer,
)
    requires { IsCallInRange call }
{
    assert!(rt; engine.age() < 1 << 47);
    let mut told = Outcome::Look(Look::Stay);
    engine.step_into(who, &call, ROOM, &mut told, change);
    expect_eq(rt, told, Outcome::Done(wanted));
}

// What the take of worker 1 comes to. However many callbacks are pending, its steps are four at most.
fn counted_take(engine: &mut Engine, change: &mut Change, steps: &mut Steps) -> Outcome
    requires { engine.old.age < 2 ^ 47 }
    ensures { steps.new ≤ steps.old + 4 }
{
    let mut told = Outcome::Look(Look::Stay);
    engine.step_counted(Who::Worker(1), &Call::Take, ROOM, &mut told, change, steps);
    told
}

// Submits the callback of this number, behind all that are pending. Those of even numbers are persistent, so that of the two
// queues now the one and now the other has the older callback.
fn check_submit(rt: &impl Abort, engine: &mut Engine, change: &mut Change, number: u64) {
    let queued = Answer::Queued {
        first: number,
        count: 1,
    };
    check_step(
        rt,
        engine,
        change,
        Who::Client(1),
        submit(number % 2 == 0),
        queued,
    );
}

// The callback of this number is the first: worker 1 takes it.
fn check_take(rt: &impl Abort, engine: &mut Engine, change: &mut Change, number: u64) {
    assert!(rt; engine.age() < 1 << 47);
    let taken = Answer::Taken {
        callback: number,
        object: ObjectId(0),
        routine: RoutineId(1),
        context: 70,
        result: TakeResult::Plain,
    };
    let told = counted_take(engine, change, &mut Steps::new());
    expect_eq(rt, told, Outcome::Done(taken));
}

#[test]
fn two_million_are_taken_in_four_steps_each(rt: HostRuntime) {
    let mut engine = expect_ok(&rt, Engine::open(rt.alloc(), program_limits(1, 1)));
    let mut change = Change::Keep;
    let worker = Who::Worker(1);
    for made in 0..PENDING {
        check_submit(&rt, &mut engine, &mut change, made + 1);
    }
    let attached = Answer::Attached { pool: PoolId(0) };
    check_step(
        &rt,
        &mut engine,
        &mut change,
        worker,
        Call::Attach,
        attached,
    );
    let returned = Answer::Returned {
        section: SlotWord::Unasked,
        mutex: SlotWord::Unasked,
        semaphore: SlotWord::Unasked,
        event: SlotWord::Unasked,
        first: 0,
        count: 0,
    };
    for taken in 0..TAKES {
        check_take(&rt, &mut engine, &mut change, taken + 1);
        check_step(
            &rt,
            &mut engine,
            &mut change,
            worker,
            Call::Return,
            returned,
        );
        check_submit(&rt, &mut engine, &mut change, PENDING + taken + 1);
    }
    drop(engine);
}
