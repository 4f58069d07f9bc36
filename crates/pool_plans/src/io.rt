//! Calls on I/O objects: `StartThreadpoolIo` and `CancelThreadpoolIo`; and an operation is issued, and
//! the system completes it, or `CancelIoEx` does.

ghost use Rattle.pool_plans.specs.Decided.{decided};
ghost use Rattle.std.specs.Prelude.{◌≡◌, ◌+◌, ◌^◌, ◌<◌, Some};
ghost use Rattle.tp_model.specs.Calls.Io.{complete_io as complete_io_of, expecting as expecting_of, start_io_plan, issue_io_plan, cancel_io_plan, complete_io_plan, complete_next_plan};

use crate::decisions::{Decision, accept};
use crate::objects::one_callback;
use crate::refusals::{actor_refusal, either, first_of, object_refusal};
use tp_base::answers::{Answer, Outcome, Refusal, TakeResult};
use tp_base::calls::Kind;
use tp_base::ids::{ObjectId, Who};
use tp_base::plans::{Change, IoStep};
use tp_base::rows::{CallbackRow, ObjectRow, Status};
use world_reads::{Reads, new_callback};

// A callback that expects an operation. It gets its result as that completes.
fn expecting(number: u64, object: ObjectId, row: &ObjectRow) -> CallbackRow
    ensures { result ≡ expecting_of number object row.now }
{
    CallbackRow {
        status: Status::Expected,
        ..new_callback(number, object, row, TakeResult::Plain)
    }
}

/// Announces an operation of an I/O object, and makes the callback that expects it.
#[tactic(auto, unfolding(tp_model::specs::Calls::Io::start_io_plan))]
pub fn start_io<W: Reads>(
    world: &W,
    who: Who,
    object: ObjectId,
    change: &mut Change,
    outcome: &mut Outcome,
) -> Decision
    requires { W.made_of world.now < 2 ^ 63 }
    ensures { decided result outcome.new change.new ≡ Some (start_io_plan (W.world_of world.now) (W.made_of world.now + 1) who object) }
{
    one_callback!(
        world,
        who,
        Kind::Io,
        object,
        change,
        outcome,
        |callback, row| (
            Answer::Started { callback },
            Change::ExpectCallback(expecting(callback, object, &row))
        )
    )
}

// A step with the object's first expecting callback, and the answer that tells its number.
macro_rules! operate_first {
    ($world:ident, $who:ident, $object:ident, $change:ident, $outcome:ident, $told:ident, $how:expr) => {{
        let expected = $world.first_expected($object);
        let refusal = object_refusal!(
            $world,
            $who,
            Kind::Io,
            $object,
            [(expected.is_none(), Refusal::NotStarted)]
        );
        if let Some(refusal) = refusal {
            return Decision::Refused(refusal);
        }
        let Some(callback) = expected else {
            return Decision::Refused(Refusal::NotStarted);
        };
        accept(
            $change, $outcome,
            Answer::$told {
                callback: callback.number,
            },
            Change::Operate {
                callback,
                how: $how,
            },
        )
    }};
}

/// Issues the operation that the object's first expecting callback expects.
#[tactic(auto, unfolding(tp_model::specs::Calls::Io::issue_io_plan))]
pub fn issue_io<W: Reads>(
    world: &W,
    who: Who,
    object: ObjectId,
    change: &mut Change,
    outcome: &mut Outcome,
) -> Decision
    ensures { decided result outcome.new change.new ≡ Some (issue_io_plan (W.world_of world.now) who object) }
{
    operate_first!(
        world,
        who,
        object,
        change,
        outcome,
        Operation,
        IoStep::Issue
    )
}

/// The object's first expecting callback expects its operation no more, and never runs.
#[tactic(auto, unfolding(tp_model::specs::Calls::Io::cancel_io_plan))]
pub fn cancel_io<W: Reads>(
    world: &W,
    who: Who,
    object: ObjectId,
    change: &mut Change,
    outcome: &mut Outcome,
) -> Decision
    ensures { decided result outcome.new change.new ≡ Some (cancel_io_plan (W.world_of world.now) who object) }
{
    operate_first!(
        world,
        who,
        object,
        change,
        outcome,
        Cancelled,
        IoStep::GiveUp
    )
}

// Completes the operation of this callback, if there is one.
#[inline(always)]
fn complete(
    issued: Option<CallbackRow>,
    error: u32,
    bytes: u64,
    change: &mut Change,
    outcome: &mut Outcome,
) -> Decision
    ensures { decided result outcome.new change.new ≡ Some (complete_io_of error bytes issued) }
{
    let Some(callback) = issued else {
        return Decision::Refused(Refusal::NoOperation);
    };
    accept(
        change,
        outcome,
        Answer::Queued {
            first: callback.number,
            count: 1,
        },
        Change::Operate {
            callback,
            how: IoStep::Complete { error, bytes },
        },
    )
}

/// Completes an operation that is under way. Its callback is then pending.
#[tactic(auto, unfolding(tp_model::specs::Calls::Io::complete_io_plan))]
pub fn complete_io<W: Reads>(
    world: &W,
    who: Who,
    callback: u64,
    error: u32,
    bytes: u64,
    change: &mut Change,
    outcome: &mut Outcome,
) -> Decision
    ensures { decided result outcome.new change.new ≡ Some (complete_io_plan (W.world_of world.now) who callback error bytes) }
{
    let issued = live_queries::issued(world, callback);
    match actor_refusal!(world, who, [(issued.is_none(), Refusal::NoOperation)]) {
        Some(refusal) => Decision::Refused(refusal),
        None => complete(issued, error, bytes, change, outcome),
    }
}

/// Completes the first operation of an object that is under way, also where the object is released: a
/// device knows nothing of that.
#[tactic(auto, unfolding(tp_model::specs::Calls::Io::complete_next_plan))]
pub fn complete_next<W: Reads>(
    world: &W,
    who: Who,
    object: ObjectId,
    error: u32,
    bytes: u64,
    change: &mut Change,
    outcome: &mut Outcome,
) -> Decision
    ensures { decided result outcome.new change.new ≡ Some (complete_next_plan (W.world_of world.now) who object error bytes) }
{
    let issued = world.first_issued(object);
    let actor = live_queries::actor(world, who);
    let refusal = first_of!([
        (
            either(!actor.exists, !world.is_object(object)),
            Refusal::NoSuch
        ),
        (!world.is_object_of(Kind::Io, object), Refusal::WrongKind),
        (actor.finished, Refusal::Released),
        (actor.is_idle, Refusal::NotRunning),
        (actor.in_wait, Refusal::InWait),
        (issued.is_none(), Refusal::NoOperation),
    ]);
    match refusal {
        Some(refusal) => Decision::Refused(refusal),
        None => complete(issued, error, bytes, change, outcome),
    }
}
