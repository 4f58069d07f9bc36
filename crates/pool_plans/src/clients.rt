//! Calls of clients: a client makes no further call.

ghost use Rattle.pool_plans.specs.Decided.{decided};
ghost use Rattle.std.specs.Prelude.{◌≡◌, Some};
ghost use Rattle.tp_model.specs.Calls.Clients.{finish_plan};

use crate::decisions::{Decision, accept};
use crate::refusals::first_of;
use tp_base::answers::{Answer, Outcome, Refusal};
use tp_base::ids::Who;
use tp_base::plans::Change;
use world_reads::Reads;

/// A client makes no further call.
#[tactic(auto, unfolding(tp_model::specs::Calls::Clients::finish_plan))]
pub fn finish<W: Reads>(world: &W, who: Who, change: &mut Change, outcome: &mut Outcome) -> Decision
    ensures { decided result outcome.new change.new ≡ Some (finish_plan (W.world_of world.now) who) }
{
    let actor = live_queries::actor(world, who);
    let refusal = first_of!([
        (!actor.exists, Refusal::NoSuch),
        (actor.is_worker, Refusal::WrongKind),
        (actor.finished, Refusal::Released),
        (actor.in_wait, Refusal::InWait),
    ]);
    if let Some(refusal) = refusal {
        return Decision::Refused(refusal);
    }
    match who {
        Who::Client(client) => accept(change, outcome, Answer::Done, Change::Finish { client }),
        Who::Worker(_) => Decision::Refused(Refusal::WrongKind),
    }
}
