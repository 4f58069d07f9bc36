//! Cleanup groups: `CreateThreadpoolCleanupGroup`, `CloseThreadpoolCleanupGroup` and
//! `CloseThreadpoolCleanupGroupMembers`. BeginClose is the entry of the last, and End its return.

ghost use Rattle.pool_plans.specs.Decided.{decided};
ghost use Rattle.std.specs.Option.{unwrap_or};
ghost use Rattle.std.specs.Prelude.{◌≡◌, Some};
ghost use Rattle.tp_model.specs.Groups.{object_id};
ghost use Rattle.tp_model.specs.Calls.Groups.{create_group_plan, close_group_plan, begin_close_plan};

use crate::decisions::{Decision, accept};
use crate::refusals::{actor_refusal, either, first_of, group_refusal};
use live_queries::runs_in_group;
use tp_base::answers::{Answer, Outcome, Refusal};
use tp_base::ids::{GroupId, ObjectId, Who};
use tp_base::plans::Change;
use world_reads::Reads;

// The object of this number, or with none object 0.
fn object_or_none(object: Option<u32>) -> ObjectId
    ensures { result ≡ object_id (unwrap_or object 0) }
{
    ObjectId(object.unwrap_or(0))
}

/// Makes a group.
#[tactic(auto, unfolding(tp_model::specs::Calls::Groups::create_group_plan))]
pub fn create_group<W: Reads>(
    world: &W,
    who: Who,
    change: &mut Change,
    outcome: &mut Outcome,
) -> Decision
    ensures { decided result outcome.new change.new ≡ Some (create_group_plan (W.world_of world.now) who) }
{
    let refusal = actor_refusal!(
        world,
        who,
        [(live_queries::lacks_group(world), Refusal::ObjectLimit)]
    );
    if let Some(refusal) = refusal {
        return Decision::Refused(refusal);
    }
    accept(
        change,
        outcome,
        Answer::Made {
            number: live_queries::next_group(world),
        },
        Change::CreateGroup,
    )
}

/// Closes a group that has no member, and for which no simple callback is outstanding.
#[tactic(auto, unfolding(tp_model::specs::Calls::Groups::close_group_plan))]
pub fn close_group<W: Reads>(
    world: &W,
    who: Who,
    group: GroupId,
    change: &mut Change,
    outcome: &mut Outcome,
) -> Decision
    ensures { decided result outcome.new change.new ≡ Some (close_group_plan (W.world_of world.now) who group) }
{
    let refusal = group_refusal!(
        world,
        who,
        group,
        [(
            either(world.first_member(group).is_some(), world.has_simple(group)),
            Refusal::HasMembers {
                object: object_or_none(world.first_member(group))
            }
        )]
    );
    if let Some(refusal) = refusal {
        return Decision::Refused(refusal);
    }
    accept(change, outcome, Answer::Done, Change::CloseGroup { group })
}

/// Releases the members of a group, and begins a wait for its callbacks, those that are pending
/// cancelled or not. With cancel the wait gives a notice of each member that has a cancel routine.
#[tactic(auto, unfolding(tp_model::specs::Calls::Groups::begin_close_plan))]
pub fn begin_close<W: Reads>(
    world: &W,
    who: Who,
    group: GroupId,
    cancel: bool,
    context: u64,
    change: &mut Change,
    outcome: &mut Outcome,
) -> Decision
    ensures { decided result outcome.new change.new ≡ Some (begin_close_plan (W.world_of world.now) who group cancel context) }
{
    let refusal = group_refusal!(
        world,
        who,
        group,
        [
            (runs_in_group(world, who, group), Refusal::OwnCallback),
            (
                world.first_operating(group).is_some(),
                Refusal::OperationsOutstanding {
                    io: object_or_none(world.first_operating(group))
                }
            ),
        ]
    );
    if let Some(refusal) = refusal {
        return Decision::Refused(refusal);
    }
    let counts = world.close_counts(group, cancel);
    let notices = world.count_notices(group, cancel);
    accept(
        change,
        outcome,
        Answer::Closing {
            covered: counts.covered,
            cancelled: counts.cancelled,
            notices,
        },
        Change::BeginClose {
            who,
            group,
            cancel,
            context,
            notices,
        },
    )
}
