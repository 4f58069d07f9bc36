//! The world that an entry of a history leads to.

ghost use Rattle.std.specs.Prelude.{◌≡◌, ◌+◌, ◌^◌, ◌<◌, IfOk, Some};
ghost use Rattle.tp_base.specs.declared.plans.Change.{Change};
ghost use Rattle.tp_model.specs.History.{change_of, is_refusal, wait_end};
ghost use Rattle.tp_model.specs.Laws.Entries.{is_end_call};
ghost use Rattle.tp_model.specs.Support.Allowed.{IsAllowed};
ghost use Rattle.tp_model.specs.Table.{plan_at};
ghost use Rattle.tp_explore.specs.Led.{accepted_change, change_by, kept_by, made_by};

use crate::seen::Moving;
use plan_table::plan_of;
use std::alloc::{AllocError, Global};
use tp_base::answers::{Answer, Entry};
use tp_base::calls::Call;
use tp_base::ids::Who;
use tp_base::plans::{Change, Plan, WaitEnd};
use world_reads::Reads;

/// The world that an entry leads to.
pub(crate) fn led<V: Moving>(alloc: Global, world: V, entry: &Entry) -> Result<V, AllocError>
    requires { (change : Change) → change_by (V.world_of world) (V.made_of world + 1) entry.now ≡ Some change → IsAllowed (V.made_of world + 1) (V.world_of world) change }
    ensures world { IfOk result (λ next. V.world_of next ≡ kept_by (V.world_of world) (change_by (V.world_of world) (V.made_of world + 1) entry.now)) }
    ensures made { IfOk result (λ next. V.made_of next ≡ made_by (V.made_of world) (change_by (V.world_of world) (V.made_of world + 1) entry.now)) }
{
    // No history is so long.
    if world.made() >= 1 << 63 {
        return Err(AllocError);
    }
    match change_by(&world, entry) {
        Some(change) => world.apply(alloc, &change),
        None => Ok(world),
    }
}

// The change that an entry tells.
fn change_by<V: Reads>(world: &V, entry: &Entry) -> Option<Change>
    requires { V.made_of world.now < 2 ^ 63 }
    ensures { result ≡ change_by (V.world_of world.now) (V.made_of world.now + 1) entry.now }
{
    if is_refusal(&entry.answer) {
        None
    } else if is_end(&entry.call) {
        wait_end(entry.who, &entry.answer)
    } else {
        // The answer is told, so that there was room for it.
        change_of(plan_of(world, entry.who, &entry.call, 0))
    }
}

fn is_refusal(answer: &Answer) -> bool
    ensures { result ≡ is_refusal answer.now }
{
    matches!(answer, Answer::Refused(_))
}

fn is_end(call: &Call) -> bool
    ensures { result ≡ is_end_call call.now }
{
    matches!(call, Call::End)
}

// What an answer of End tells.
fn wait_end(who: Who, answer: &Answer) -> Option<Change>
    ensures { result ≡ wait_end who answer.now }
{
    match answer {
        Answer::Ended => Some(Change::EndWait {
            who,
            how: WaitEnd::Free,
        }),
        Answer::Exhausted => Some(Change::EndWait {
            who,
            how: WaitEnd::Exhausted,
        }),
        Answer::Stalled => Some(Change::EndWait {
            who,
            how: WaitEnd::Stalled,
        }),
        Answer::Notice { .. } => Some(Change::GiveNotice { who }),
        _ => None,
    }
}

fn change_of(plan: Plan) -> Option<Change>
    ensures { result ≡ change_of plan }
{
    match plan {
        Plan::Does { change, .. } => Some(change),
        _ => None,
    }
}
