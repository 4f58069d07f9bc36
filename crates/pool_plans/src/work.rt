//! Calls that make callbacks at once: `SubmitThreadpoolWork` and `TrySubmitThreadpoolCallback`.

ghost use Rattle.pool_plans.specs.Decided.{decided};
ghost use Rattle.std.specs.Prelude.{◌≡◌, ◌+◌, ◌^◌, ◌<◌, Some};
ghost use Rattle.tp_model.specs.Calls.Work.{submit_work_plan, submit_simple_plan};

use crate::decisions::{Decision, accept};
use crate::objects::{new_object, one_callback};
use crate::refusals::{either, environ_refusal, first_of, object_refusal};
use tp_base::answers::{Answer, Outcome, Refusal, TakeResult};
use tp_base::calls::{Environ, Kind};
use tp_base::ids::{ObjectId, RoutineId, Who};
use tp_base::plans::Change;
use world_reads::{Reads, new_callback};

/// Makes a callback of a work object.
#[tactic(auto, unfolding(tp_model::specs::Calls::Work::submit_work_plan))]
pub fn submit_work<W: Reads>(
    world: &W,
    who: Who,
    object: ObjectId,
    change: &mut Change,
    outcome: &mut Outcome,
) -> Decision
    requires { W.made_of world.now < 2 ^ 63 }
    ensures { decided result outcome.new change.new ≡ Some (submit_work_plan (W.world_of world.now) (W.made_of world.now + 1) who object) }
{
    one_callback!(
        world,
        who,
        Kind::Work,
        object,
        change,
        outcome,
        |first, row| (
            Answer::Queued { first, count: 1 },
            Change::QueueCallback(new_callback(first, object, &row, TakeResult::Plain))
        )
    )
}

/// Makes a callback without an object.
#[tactic(auto, unfolding(tp_model::specs::Calls::Work::submit_simple_plan))]
pub fn submit_simple<W: Reads>(
    world: &W,
    who: Who,
    routine: RoutineId,
    context: u64,
    env: Environ,
    change: &mut Change,
    outcome: &mut Outcome,
) -> Decision
    requires { W.made_of world.now < 2 ^ 63 }
    ensures { decided result outcome.new change.new ≡ Some (submit_simple_plan (W.world_of world.now) (W.made_of world.now + 1) who routine context env) }
{
    let refusal = environ_refusal!(
        world,
        who,
        env,
        [(world.lacks_slots(1), Refusal::CallbackLimit)]
    );
    if let Some(refusal) = refusal {
        return Decision::Refused(refusal);
    }
    let first = world.next_number();
    let object = new_object(Kind::Work, routine, context, env);
    accept(
        change,
        outcome,
        Answer::Queued { first, count: 1 },
        Change::QueueCallback(new_callback(first, ObjectId(0), &object, TakeResult::Plain)),
    )
}
