//! Calls of workers: they join a pool that needs one, take its callbacks, return from them, and
//! leave.

ghost use Rattle.pool_plans.specs.Decided.{decided};
ghost use Rattle.std.specs.Prelude.{◌≡◌, ◌+◌, ◌^◌, ◌<◌, ◌≤◌, ◌&&◌, Some, false};
ghost use Rattle.std.specs.List.{list_any};
ghost use Rattle.tp_model.specs.Counts.{is_pending};
ghost use Rattle.tp_model.specs.Refusing.{first_refusal};
ghost use Rattle.tp_model.specs.Calls.Workers.{idle_refusals, attach_plan, detach_plan, take_plan, return_plan};

use crate::decisions::{Decision, accept};
use crate::refusals::first_of;
use crate::triggers::first_number;
use live_queries::{at_work, idle, may_leave, pool_to_join, returned};
use steps::Steps;
use tp_base::answers::{Answer, Look, Outcome, Refusal};
use tp_base::ids::{PoolId, Who};
use tp_base::plans::{Busy, Change};
use world_reads::Reads;

/// A worker joins a pool that needs one.
#[tactic(auto, unfolding(tp_model::specs::Calls::Workers::attach_plan))]
pub fn attach<W: Reads>(world: &W, who: Who, change: &mut Change, outcome: &mut Outcome) -> Decision
    ensures { decided result outcome.new change.new ≡ Some (attach_plan (W.world_of world.now) who) }
{
    let actor = live_queries::actor(world, who);
    let refusal = first_of!([
        (!actor.exists, Refusal::NoSuch),
        (actor.finished, Refusal::Released),
        (!actor.is_worker, Refusal::NotWorker),
        (actor.runs, Refusal::StillRunning),
        (actor.is_attached, Refusal::AlreadyAttached),
    ]);
    if let Some(refusal) = refusal {
        return Decision::Refused(refusal);
    }
    match (who, pool_to_join(world)) {
        (Who::Worker(worker), Some(pool)) => accept(
            change,
            outcome,
            Answer::Attached { pool: PoolId(pool) },
            Change::Attach {
                worker,
                pool: PoolId(pool),
            },
        ),
        _ => Decision::Looked(Look::NoNeed),
    }
}

// Of a worker that must be attached and run nothing.
fn idle_refusal<W: Reads>(world: &W, who: Who) -> Option<Refusal>
    ensures { result ≡ first_refusal (idle_refusals (W.world_of world.now) who) }
{
    let actor = live_queries::actor(world, who);
    first_of!([
        (!actor.exists, Refusal::NoSuch),
        (actor.finished, Refusal::Released),
        (!actor.is_worker, Refusal::NotWorker),
        (actor.runs, Refusal::StillRunning),
        (!actor.is_attached, Refusal::NotAttached),
    ])
}

/// A worker leaves its pool.
#[tactic(auto, unfolding(tp_model::specs::Calls::Workers::detach_plan))]
pub fn detach<W: Reads>(world: &W, who: Who, change: &mut Change, outcome: &mut Outcome) -> Decision
    ensures { decided result outcome.new change.new ≡ Some (detach_plan (W.world_of world.now) who) }
{
    if let Some(refusal) = idle_refusal(world, who) {
        return Decision::Refused(refusal);
    }
    let Some(by) = idle(world, who) else {
        return Decision::Refused(Refusal::NotAttached);
    };
    if !may_leave(world, &by) {
        return Decision::Looked(Look::Stay);
    }
    accept(change, outcome, Answer::Done, Change::Detach(by))
}

/// A worker begins the next callback of its pool that it may take. `steps` counts the nodes that are read to find
/// that: two at most, and one where none is persistent that is pending.
#[tactic(auto, unfolding(tp_model::specs::Calls::Workers::take_plan))]
pub fn take<W: Reads>(
    world: &W,
    who: Who,
    change: &mut Change,
    outcome: &mut Outcome,
    steps: &mut Steps,
) -> Decision
    ensures plan { decided result outcome.new change.new ≡ Some (take_plan (W.world_of world.now) who) }
    ensures counted { steps.old ≤ steps.new }
    ensures bound { steps.new ≤ steps.old + 2 }
    ensures fewer { list_any (λ c. is_pending c.status && c.persistent) (W.world_of world.now).callbacks ≡ false → steps.new ≤ steps.old + 1 }
{
    if let Some(refusal) = idle_refusal(world, who) {
        return Decision::Refused(refusal);
    }
    let Some(by) = idle(world, who) else {
        return Decision::Refused(Refusal::NotAttached);
    };
    let Some(callback) = world.next(by.pool, by.persistent, steps) else {
        return Decision::Looked(Look::Empty);
    };
    let tally = world.tally(by.pool);
    if tally.maximum <= tally.running {
        return Decision::Looked(Look::AtMaximum {
            running: tally.running,
        });
    }
    accept(
        change,
        outcome,
        Answer::Taken {
            callback: callback.number,
            object: callback.object,
            routine: callback.routine,
            context: callback.context,
            result: callback.result,
        },
        Change::Take {
            by,
            callback: *callback,
        },
    )
}

/// A worker's callback returns, and its actions are performed. Each armed wait that takes what they
/// signal makes a callback.
#[tactic(auto, unfolding(tp_model::specs::Calls::Workers::return_plan))]
pub fn return_callback<W: Reads>(
    world: &W,
    who: Who,
    change: &mut Change,
    outcome: &mut Outcome,
) -> Decision
    requires { W.made_of world.now < 2 ^ 63 }
    ensures { decided result outcome.new change.new ≡ Some (return_plan (W.world_of world.now) (W.made_of world.now + 1) who) }
{
    let actor = live_queries::actor(world, who);
    let refusal = first_of!([
        (!actor.exists, Refusal::NoSuch),
        (actor.finished, Refusal::Released),
        (!actor.is_worker, Refusal::NotWorker),
        (!actor.runs, Refusal::NotRunning),
        (actor.in_wait, Refusal::InWait),
    ]);
    if let Some(refusal) = refusal {
        return Decision::Refused(refusal);
    }
    let Some(by) = at_work(world, who) else {
        return Decision::Refused(Refusal::NotRunning);
    };
    let (words, count) = returned(world, who, &by.callback.status);
    let first = world.next_number();
    accept(
        change,
        outcome,
        Answer::Returned {
            section: words.section,
            mutex: words.mutex,
            semaphore: words.semaphore,
            event: words.event,
            first: first_number(first, count),
            count,
        },
        Change::Return {
            by: Busy {
                worker: by.worker,
                pool: by.pool,
                callback: *by.callback,
                persistent: by.persistent,
            },
            words,
            first,
            count,
        },
    )
}
