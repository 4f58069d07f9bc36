//! Calls on wait objects: `SetThreadpoolWait`.

ghost use Rattle.pool_plans.specs.Decided.{decided};
ghost use Rattle.std.specs.Prelude.{◌≡◌, ◌+◌, ◌^◌, ◌<◌, Some};
ghost use Rattle.tp_model.specs.Calls.WaitObjects.{names_unmade as names_unmade_in, names_lock as names_lock_in, set_wait_plan};

use crate::decisions::{Decision, accept};
use crate::refusals::{either, first_of, object_refusal};
use crate::triggers::{fired, first_number};
use tp_base::answers::{Answer, Outcome, Refusal};
use tp_base::calls::Kind;
use tp_base::ids::{KernelId, ObjectId, Who};
use tp_base::plans::{Change, Trigger};
use world_reads::Reads;

// Whether a kernel object is named that was never made.
fn names_unmade<W: Reads>(world: &W, kernel: Option<KernelId>) -> bool
    ensures { result ≡ names_unmade_in (W.world_of world.now) kernel }
{
    match kernel {
        None => false,
        Some(kernel) => !world.is_kernel(kernel),
    }
}

// Whether a kernel object is named that no wait can be armed on.
fn names_lock<W: Reads>(world: &W, kernel: Option<KernelId>) -> bool
    ensures { result ≡ names_lock_in (W.world_of world.now) kernel }
{
    match kernel {
        None => false,
        Some(kernel) => !world.is_waitable(kernel),
    }
}

/// Arms a wait object on an event or a semaphore, or disarms it. One that takes the kernel object or
/// times out at once makes a callback.
#[tactic(auto, unfolding(tp_model::specs::Calls::WaitObjects::set_wait_plan))]
pub fn set_wait<W: Reads>(
    world: &W,
    who: Who,
    object: ObjectId,
    kernel: Option<KernelId>,
    timeout: Option<i64>,
    change: &mut Change,
    outcome: &mut Outcome,
) -> Decision
    requires { W.made_of world.now < 2 ^ 63 }
    ensures { decided result outcome.new change.new ≡ Some (set_wait_plan (W.world_of world.now) (W.made_of world.now + 1) who object kernel timeout) }
{
    if names_unmade(world, kernel) {
        return Decision::Refused(Refusal::NoSuch);
    }
    let refusal = object_refusal!(
        world,
        who,
        Kind::Wait,
        object,
        [
            (names_lock(world, kernel), Refusal::NotWaitable),
            (
                world.lacks_slots_to_set(object, kernel, timeout),
                Refusal::CallbackLimit
            ),
        ]
    );
    if let Some(refusal) = refusal {
        return Decision::Refused(refusal);
    }
    let trigger = Trigger::SetWait {
        object,
        kernel,
        timeout,
    };
    let count = world.count_fired(&trigger);
    let first = first_number(world.next_number(), count);
    accept(
        change,
        outcome,
        Answer::Queued { first, count },
        fired(world, trigger, count),
    )
}
