//! Calls on objects of all kinds: `CreateThreadpoolWork` and `CloseThreadpoolWork`, and their like for
//! timers, waits and I/O.

ghost use Rattle.pool_plans.specs.Decided.{decided};
ghost use Rattle.std.specs.Prelude.{◌≡◌, Some};
ghost use Rattle.tp_model.specs.Sources.{new_object as new_object_of};
ghost use Rattle.tp_model.specs.Calls.Objects.{create_plan, close_object_plan};

use crate::decisions::{Decision, accept};
use crate::refusals::{either, environ_refusal, first_of, object_refusal};
use tp_base::answers::{Answer, Outcome, Refusal};
use tp_base::calls::{Environ, Kind};
use tp_base::ids::{ObjectId, RoutineId, Who};
use tp_base::plans::Change;
use tp_base::rows::ObjectRow;
use world_reads::Reads;

/// An object that was just made.
pub fn new_object(kind: Kind, routine: RoutineId, context: u64, env: Environ) -> ObjectRow
    ensures { result ≡ new_object_of kind routine context env }
{
    ObjectRow {
        kind,
        routine,
        context,
        env,
        released: false,
    }
}

// Makes one callback of an object of a kind, with the number that it gets and the object's row.
macro_rules! one_callback {
    ($world:ident, $who:ident, $kind:expr, $object:ident, $change:ident, $outcome:ident, |$number:ident, $row:ident| ($told:expr, $made:expr)) => {{
        let refusal = object_refusal!(
            $world,
            $who,
            $kind,
            $object,
            [($world.lacks_slots(1), Refusal::CallbackLimit)]
        );
        if let Some(refusal) = refusal {
            return Decision::Refused(refusal);
        }
        let Some($row) = $world.object($object) else {
            return Decision::Refused(Refusal::NoSuch);
        };
        let $number = $world.next_number();
        accept($change, $outcome, $told, $made)
    }};
}

pub(crate) use one_callback;

/// Makes an object.
#[tactic(auto, unfolding(tp_model::specs::Calls::Objects::create_plan))]
pub fn create<W: Reads>(
    world: &W,
    who: Who,
    kind: Kind,
    routine: RoutineId,
    context: u64,
    env: Environ,
    change: &mut Change,
    outcome: &mut Outcome,
) -> Decision
    ensures { decided result outcome.new change.new ≡ Some (create_plan (W.world_of world.now) who kind routine context env) }
{
    let refusal = environ_refusal!(
        world,
        who,
        env,
        [(live_queries::lacks_object(world), Refusal::ObjectLimit)]
    );
    if let Some(refusal) = refusal {
        return Decision::Refused(refusal);
    }
    accept(
        change,
        outcome,
        Answer::Made {
            number: live_queries::next_object(world),
        },
        Change::CreateObject(new_object(kind, routine, context, env)),
    )
}

/// Releases an object, unless an operation of it is expected or under way. It is freed once none of
/// its callbacks is outstanding.
#[tactic(auto, unfolding(tp_model::specs::Calls::Objects::close_object_plan))]
pub fn close_object<W: Reads>(
    world: &W,
    who: Who,
    kind: Kind,
    object: ObjectId,
    change: &mut Change,
    outcome: &mut Outcome,
) -> Decision
    ensures { decided result outcome.new change.new ≡ Some (close_object_plan (W.world_of world.now) who kind object) }
{
    let refusal = object_refusal!(
        world,
        who,
        kind,
        object,
        [(
            world.is_operating(object),
            Refusal::OperationsOutstanding { io: object }
        )]
    );
    if let Some(refusal) = refusal {
        return Decision::Refused(refusal);
    }
    accept(
        change,
        outcome,
        Answer::Closed {
            later: world.is_outstanding(object),
        },
        Change::ReleaseObject { object },
    )
}
