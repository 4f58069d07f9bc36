//! Calls on events, semaphores, mutexes and critical sections: `CreateEvent`, `CreateSemaphore`,
//! `CreateMutex` and `InitializeCriticalSection`, `SetEvent`, `ResetEvent`, `ReleaseSemaphore`,
//! `ReleaseMutex` and `LeaveCriticalSection`.

ghost use Rattle.pool_plans.specs.Decided.{decided};
ghost use Rattle.std.specs.Prelude.{◌≡◌, ◌+◌, ◌^◌, ◌<◌, length, Some};
ghost use Rattle.tp_base.specs.Kernels.{lock_made as lock_made_of};
ghost use Rattle.tp_model.specs.Calls.Kernels.{create_event_plan, create_semaphore_plan, create_lock_plan, set_event_plan, reset_event_plan, release_semaphore_plan, release_lock_plan};

use crate::decisions::{Decision, accept};
use crate::refusals::{actor_refusal, either, first_of};
use crate::triggers::{fired, first_number};
use tp_base::answers::{Answer, Outcome, Refusal};
use tp_base::calls::Lock;
use tp_base::ids::{KernelId, Who};
use tp_base::plans::{Change, KernelChange, Trigger};
use tp_base::rows::KernelState;
use world_reads::Reads;

// Of a call on a kernel object, which is of the call's kind or not; its own conditions follow.
macro_rules! kernel_refusal {
    ($world:ident, $who:ident, $kernel:ident, $of_kind:expr, [$($own:tt),* $(,)?]) => {{
        let actor = live_queries::actor($world, $who);
        first_of!([
            (either(!actor.exists, !$world.is_kernel($kernel)), Refusal::NoSuch),
            (!$of_kind, Refusal::WrongKind),
            (actor.finished, Refusal::Released),
            (actor.is_idle, Refusal::NotRunning),
            (actor.in_wait, Refusal::InWait),
            $($own),*
        ])
    }};
}

// Makes a kernel object of this state.
fn accept_new<W: Reads>(
    world: &W,
    state: KernelState,
    change: &mut Change,
    outcome: &mut Outcome,
) -> Decision
    ensures decision { result ≡ Decision.Accepted }
    ensures outcome { outcome.new ≡ Outcome.Done (Answer.Made (length (W.world_of world.now).kernels + 1)) }
    ensures change { change.new ≡ Change.CreateKernel state }
{
    accept(
        change,
        outcome,
        Answer::Made {
            number: live_queries::next_kernel(world),
        },
        Change::CreateKernel(state),
    )
}

/// Makes an event.
#[tactic(auto, unfolding(tp_model::specs::Calls::Kernels::create_event_plan))]
pub fn create_event<W: Reads>(
    world: &W,
    who: Who,
    manual: bool,
    signalled: bool,
    change: &mut Change,
    outcome: &mut Outcome,
) -> Decision
    ensures { decided result outcome.new change.new ≡ Some (create_event_plan (W.world_of world.now) who manual signalled) }
{
    match actor_refusal!(
        world,
        who,
        [(live_queries::lacks_kernel(world), Refusal::ObjectLimit)]
    ) {
        Some(refusal) => Decision::Refused(refusal),
        None => accept_new(
            world,
            KernelState::Event { manual, signalled },
            change,
            outcome,
        ),
    }
}

/// Makes a semaphore of this count, which is at most its maximum.
#[tactic(auto, unfolding(tp_model::specs::Calls::Kernels::create_semaphore_plan))]
pub fn create_semaphore<W: Reads>(
    world: &W,
    who: Who,
    initial: u32,
    maximum: u32,
    change: &mut Change,
    outcome: &mut Outcome,
) -> Decision
    ensures { decided result outcome.new change.new ≡ Some (create_semaphore_plan (W.world_of world.now) who initial maximum) }
{
    let refusal = actor_refusal!(
        world,
        who,
        [
            (
                either(maximum < initial, maximum == 0),
                Refusal::OverMaximum { count: initial },
            ),
            (live_queries::lacks_kernel(world), Refusal::ObjectLimit)
        ]
    );
    if let Some(refusal) = refusal {
        return Decision::Refused(refusal);
    }
    accept_new(
        world,
        KernelState::Semaphore {
            count: initial,
            maximum,
        },
        change,
        outcome,
    )
}

// A lock as it is made, free or taken once by who makes it.
fn lock_made(lock: Lock, who: Who, owned: bool) -> KernelState
    ensures { result ≡ lock_made_of lock who owned }
{
    let (owner, takings) = if owned { (Some(who), 1) } else { (None, 0) };
    match lock {
        Lock::Mutex => KernelState::Mutex { owner, takings },
        Lock::Section => KernelState::Section { owner, takings },
    }
}

/// Makes a mutex or a critical section.
#[tactic(auto, unfolding(tp_model::specs::Calls::Kernels::create_lock_plan))]
pub fn create_lock<W: Reads>(
    world: &W,
    who: Who,
    lock: Lock,
    owned: bool,
    change: &mut Change,
    outcome: &mut Outcome,
) -> Decision
    ensures { decided result outcome.new change.new ≡ Some (create_lock_plan (W.world_of world.now) who lock owned) }
{
    match actor_refusal!(
        world,
        who,
        [(live_queries::lacks_kernel(world), Refusal::ObjectLimit)]
    ) {
        Some(refusal) => Decision::Refused(refusal),
        None => accept_new(world, lock_made(lock, who, owned), change, outcome),
    }
}

/// An event is signalled. Each armed wait that takes it makes a callback, and an actor that waits for
/// it takes it as its wait ends.
#[tactic(auto, unfolding(tp_model::specs::Calls::Kernels::set_event_plan))]
pub fn set_event<W: Reads>(
    world: &W,
    who: Who,
    kernel: KernelId,
    change: &mut Change,
    outcome: &mut Outcome,
) -> Decision
    requires { W.made_of world.now < 2 ^ 63 }
    ensures { decided result outcome.new change.new ≡ Some (set_event_plan (W.world_of world.now) (W.made_of world.now + 1) who kernel) }
{
    let refusal = kernel_refusal!(world, who, kernel, world.is_event(kernel), []);
    if let Some(refusal) = refusal {
        return Decision::Refused(refusal);
    }
    let trigger = Trigger::SetEvent { kernel };
    let count = world.count_fired(&trigger);
    let first = first_number(world.next_number(), count);
    accept(
        change,
        outcome,
        Answer::Queued { first, count },
        fired(world, trigger, count),
    )
}

/// An event is no longer signalled.
#[tactic(auto, unfolding(tp_model::specs::Calls::Kernels::reset_event_plan))]
pub fn reset_event<W: Reads>(
    world: &W,
    who: Who,
    kernel: KernelId,
    change: &mut Change,
    outcome: &mut Outcome,
) -> Decision
    ensures { decided result outcome.new change.new ≡ Some (reset_event_plan (W.world_of world.now) who kernel) }
{
    match kernel_refusal!(world, who, kernel, world.is_event(kernel), []) {
        Some(refusal) => Decision::Refused(refusal),
        None => accept(
            change,
            outcome,
            Answer::Done,
            Change::ChangeKernel {
                kernel,
                how: KernelChange::Reset,
            },
        ),
    }
}

/// Raises the count of a semaphore, and tells what it was before. Each armed wait that takes the
/// semaphore makes a callback.
#[tactic(auto, unfolding(tp_model::specs::Calls::Kernels::release_semaphore_plan))]
pub fn release_semaphore<W: Reads>(
    world: &W,
    who: Who,
    kernel: KernelId,
    more: u32,
    change: &mut Change,
    outcome: &mut Outcome,
) -> Decision
    requires { W.made_of world.now < 2 ^ 63 }
    ensures { decided result outcome.new change.new ≡ Some (release_semaphore_plan (W.world_of world.now) (W.made_of world.now + 1) who kernel more) }
{
    let previous = world.count_at(kernel);
    let refusal = kernel_refusal!(
        world,
        who,
        kernel,
        world.is_semaphore(kernel),
        [(
            world.passes_by(more, kernel),
            Refusal::OverMaximum { count: previous },
        )]
    );
    if let Some(refusal) = refusal {
        return Decision::Refused(refusal);
    }
    let trigger = Trigger::ReleaseSemaphore {
        kernel,
        count: more,
    };
    let count = world.count_fired(&trigger);
    let first = first_number(world.next_number(), count);
    accept(
        change,
        outcome,
        Answer::Count {
            previous,
            first,
            count,
        },
        fired(world, trigger, count),
    )
}

/// Gives back one taking of a mutex or a critical section that the actor owns.
#[tactic(auto, unfolding(tp_model::specs::Calls::Kernels::release_lock_plan))]
pub fn release_lock<W: Reads>(
    world: &W,
    who: Who,
    lock: Lock,
    kernel: KernelId,
    change: &mut Change,
    outcome: &mut Outcome,
) -> Decision
    ensures { decided result outcome.new change.new ≡ Some (release_lock_plan (W.world_of world.now) who lock kernel) }
{
    let refusal = kernel_refusal!(
        world,
        who,
        kernel,
        world.is_lock(lock, kernel),
        [(!world.owns(who, kernel), Refusal::NotOwner)]
    );
    if let Some(refusal) = refusal {
        return Decision::Refused(refusal);
    }
    accept(
        change,
        outcome,
        Answer::Done,
        Change::ChangeKernel {
            kernel,
            how: KernelChange::Leave,
        },
    )
}
