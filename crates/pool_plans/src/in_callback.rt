//! Calls of a running callback on itself: `CallbackMayRunLong`,
//! `DisassociateCurrentThreadFromCallback`, and the four functions that leave something to its
//! return: `LeaveCriticalSectionWhenCallbackReturns`, `ReleaseMutexWhenCallbackReturns`,
//! `ReleaseSemaphoreWhenCallbackReturns` and `SetEventWhenCallbackReturns`.

ghost use Rattle.pool_plans.specs.Decided.{decided};
ghost use Rattle.std.specs.Prelude.{◌≡◌, Some};
ghost use Rattle.tp_model.specs.Refusing.{first_refusal};
ghost use Rattle.tp_model.specs.Calls.InCallback.{busy_refusals, may_run_long_plan, disassociate_plan, on_return_plan};

use crate::decisions::{Decision, accept};
use crate::refusals::{either, first_of};
use live_queries::{busy, has_asked, has_spare};
use tp_base::answers::{ActionKind, Answer, Outcome, Refusal};
use tp_base::ids::{KernelId, Who};
use tp_base::plans::{Change, Mark};
use tp_base::rows::Action;
use world_reads::Reads;

// Of an actor that must run a callback.
fn busy_refusal<W: Reads>(world: &W, who: Who) -> Option<Refusal>
    ensures { result ≡ first_refusal (busy_refusals (W.world_of world.now) who) }
{
    let actor = live_queries::actor(world, who);
    first_of!([
        (!actor.exists, Refusal::NoSuch),
        (actor.finished, Refusal::Released),
        (!actor.runs, Refusal::NotRunning),
        (actor.in_wait, Refusal::InWait),
    ])
}

/// A running callback may run long.
#[tactic(auto, unfolding(tp_model::specs::Calls::InCallback::may_run_long_plan))]
pub fn may_run_long<W: Reads>(
    world: &W,
    who: Who,
    change: &mut Change,
    outcome: &mut Outcome,
) -> Decision
    ensures { decided result outcome.new change.new ≡ Some (may_run_long_plan (W.world_of world.now) who) }
{
    if let Some(refusal) = busy_refusal(world, who) {
        return Decision::Refused(refusal);
    }
    let Some(by) = busy(world, who) else {
        return Decision::Refused(Refusal::NotRunning);
    };
    accept(
        change,
        outcome,
        Answer::Flag {
            value: has_spare(world, by.callback.pool),
        },
        Change::Mark {
            by,
            mark: Mark::Long,
        },
    )
}

/// A running callback is no longer waited for.
#[tactic(auto, unfolding(tp_model::specs::Calls::InCallback::disassociate_plan))]
pub fn disassociate<W: Reads>(
    world: &W,
    who: Who,
    change: &mut Change,
    outcome: &mut Outcome,
) -> Decision
    ensures { decided result outcome.new change.new ≡ Some (disassociate_plan (W.world_of world.now) who) }
{
    if let Some(refusal) = busy_refusal(world, who) {
        return Decision::Refused(refusal);
    }
    let Some(by) = busy(world, who) else {
        return Decision::Refused(Refusal::NotRunning);
    };
    accept(
        change,
        outcome,
        Answer::Done,
        Change::Mark {
            by,
            mark: Mark::Loose,
        },
    )
}

/// A running callback leaves something to its return.
#[tactic(auto, unfolding(tp_model::specs::Calls::InCallback::on_return_plan))]
pub fn on_return<W: Reads>(
    world: &W,
    who: Who,
    kind: ActionKind,
    kernel: KernelId,
    count: u32,
    change: &mut Change,
    outcome: &mut Outcome,
) -> Decision
    ensures { decided result outcome.new change.new ≡ Some (on_return_plan (W.world_of world.now) who kind kernel count) }
{
    let actor = live_queries::actor(world, who);
    let refusal = first_of!([
        (
            either(!actor.exists, !world.is_kernel(kernel)),
            Refusal::NoSuch
        ),
        (!world.is_for(kind, kernel), Refusal::WrongKind),
        (actor.finished, Refusal::Released),
        (!actor.runs, Refusal::NotRunning),
        (actor.in_wait, Refusal::InWait),
        (has_asked(world, who, kind), Refusal::SlotTaken { kind }),
    ]);
    if let Some(refusal) = refusal {
        return Decision::Refused(refusal);
    }
    let Some(by) = busy(world, who) else {
        return Decision::Refused(Refusal::NotRunning);
    };
    accept(
        change,
        outcome,
        Answer::Done,
        Change::Mark {
            by,
            mark: Mark::Asks {
                kind,
                action: Action { kernel, count },
            },
        },
    )
}
