//! Waits for callbacks: `WaitForThreadpoolWorkCallbacks` and its like for the other kinds; and for kernel
//! objects: `WaitForSingleObject` and `EnterCriticalSection`. BeginWait and BeginAcquire are the entry of
//! the function, and End its return; a wait that closes a group's members gives its notices before it ends.
//! A wait that can't end yet ends nevertheless where the machine is stalled, and gives no notice then.
//! TryAcquire begins none: `WaitForSingleObject` with a time of 0, and `TryEnterCriticalSection`.

ghost use Rattle.pool_plans.specs.Decided.{decided};
ghost use Rattle.std.specs.Prelude.{◌≡◌, Some};
ghost use Rattle.tp_model.specs.Calls.Waits.{begin_wait_plan, begin_acquire_plan, try_acquire_plan};
ghost use Rattle.tp_model.specs.Calls.End.{end_plan, stall_or_look};
ghost use Rattle.pool_plans.specs.Ending.{end_at as end_at_of};

use crate::decisions::{Decision, accept};
use crate::refusals::{either, first_of, object_refusal};
use live_queries::{is_stalled, runs_own};
use tp_base::answers::{Answer, Look, Outcome, Refusal};
use tp_base::calls::Kind;
use tp_base::ids::{KernelId, ObjectId, Who};
use tp_base::plans::{Awaited, Change, KernelChange, WaitEnd};
use world_reads::{Progress, Reads};

// Of a call that asks for a kernel object, whatever its kind is.
macro_rules! acquire_refusal {
    ($world:ident, $who:ident, $kernel:ident) => {{
        let actor = live_queries::actor($world, $who);
        first_of!([
            (
                either(!actor.exists, !$world.is_kernel($kernel)),
                Refusal::NoSuch
            ),
            (actor.finished, Refusal::Released),
            (actor.is_idle, Refusal::NotRunning),
            (actor.in_wait, Refusal::InWait),
        ])
    }};
}

/// Begins a wait for the callbacks of an object, those that are pending cancelled or not.
#[tactic(auto, unfolding(tp_model::specs::Calls::Waits::begin_wait_plan))]
pub fn begin_wait<W: Reads>(
    world: &W,
    who: Who,
    kind: Kind,
    object: ObjectId,
    cancel: bool,
    change: &mut Change,
    outcome: &mut Outcome,
) -> Decision
    ensures { decided result outcome.new change.new ≡ Some (begin_wait_plan (W.world_of world.now) who kind object cancel) }
{
    let refusal = object_refusal!(
        world,
        who,
        kind,
        object,
        [(runs_own(world, who, object), Refusal::OwnCallback)]
    );
    if let Some(refusal) = refusal {
        return Decision::Refused(refusal);
    }
    let counts = world.wait_counts(object, cancel);
    accept(
        change,
        outcome,
        Answer::Begun {
            covered: counts.covered,
            cancelled: counts.cancelled,
        },
        Change::BeginWait {
            who,
            awaited: Awaited::Object(object),
            cancel,
        },
    )
}

/// Begins a wait for a kernel object, which is taken as the wait ends.
#[tactic(auto, unfolding(tp_model::specs::Calls::Waits::begin_acquire_plan))]
pub fn begin_acquire<W: Reads>(
    world: &W,
    who: Who,
    kernel: KernelId,
    change: &mut Change,
    outcome: &mut Outcome,
) -> Decision
    ensures { decided result outcome.new change.new ≡ Some (begin_acquire_plan (W.world_of world.now) who kernel) }
{
    if let Some(refusal) = acquire_refusal!(world, who, kernel) {
        return Decision::Refused(refusal);
    }
    accept(
        change,
        outcome,
        Answer::Done,
        Change::BeginWait {
            who,
            awaited: Awaited::Kernel(kernel),
            cancel: false,
        },
    )
}

/// Takes a kernel object where the actor may take it now, and tells whether it did. No wait is begun.
#[tactic(auto, unfolding(tp_model::specs::Calls::Waits::try_acquire_plan))]
pub fn try_acquire<W: Reads>(
    world: &W,
    who: Who,
    kernel: KernelId,
    change: &mut Change,
    outcome: &mut Outcome,
) -> Decision
    ensures { decided result outcome.new change.new ≡ Some (try_acquire_plan (W.world_of world.now) who kernel) }
{
    if let Some(refusal) = acquire_refusal!(world, who, kernel) {
        return Decision::Refused(refusal);
    }
    if !world.may_take(who, kernel) {
        return accept(change, outcome, Answer::Flag { value: false }, Change::Keep);
    }
    accept(
        change,
        outcome,
        Answer::Flag { value: true },
        Change::ChangeKernel {
            kernel,
            how: KernelChange::Take(who),
        },
    )
}

// The actor's wait is over.
fn end_freely(who: Who, change: &mut Change, outcome: &mut Outcome) -> Decision
    ensures decision { result ≡ Decision.Accepted }
    ensures outcome { outcome.new ≡ Outcome.Done Answer.Ended }
    ensures change { change.new ≡ Change.EndWait who WaitEnd.Free }
{
    accept(
        change,
        outcome,
        Answer::Ended,
        Change::EndWait {
            who,
            how: WaitEnd::Free,
        },
    )
}

// What End comes to where the actor's wait can't end yet: a look, or the end of the wait where the
// machine is stalled.
#[inline(always)]
fn unless_stalled<W: Reads>(
    world: &W,
    who: Who,
    room: u64,
    seen: Look,
    change: &mut Change,
    outcome: &mut Outcome,
) -> Decision
    ensures { decided result outcome.new change.new ≡ Some (stall_or_look (W.world_of world.now) room who seen) }
{
    if !is_stalled(world, room) {
        return Decision::Looked(seen);
    }
    accept(
        change,
        outcome,
        Answer::Stalled,
        Change::EndWait {
            who,
            how: WaitEnd::Stalled,
        },
    )
}

// What End comes to, as far as the actor's wait has come.
fn end_at<W: Reads>(
    world: &W,
    who: Who,
    room: u64,
    progress: Progress,
    change: &mut Change,
    outcome: &mut Outcome,
) -> Decision
    ensures { decided result outcome.new change.new ≡ Some (end_at_of (W.world_of world.now) room who progress) }
{
    match progress {
        Progress::NotBegun => Decision::Refused(Refusal::NoWaitBegun),
        Progress::Free => end_freely(who, change, outcome),
        Progress::Notifies {
            object,
            routine,
            context,
            cleanup,
        } => accept(
            change,
            outcome,
            Answer::Notice {
                object,
                routine,
                context,
                cleanup,
            },
            Change::GiveNotice { who },
        ),
        Progress::Starved => accept(
            change,
            outcome,
            Answer::Exhausted,
            Change::EndWait {
                who,
                how: WaitEnd::Exhausted,
            },
        ),
        Progress::Holds { callback } => {
            unless_stalled(world, who, room, Look::NotYet { callback }, change, outcome)
        }
        Progress::Acquires { kernel } if world.may_take(who, kernel) => end_freely(
            who, change, outcome,
        ),
        Progress::Acquires { kernel } => {
            unless_stalled(
                world,
                who,
                room,
                Look::NotYetKernel { kernel },
                change,
                outcome,
            )
        }
    }
}

/// Ends the wait that the actor has begun, if nothing is left to wait for, or if what is left can't
/// be run in the room of the history. One for a kernel object ends as soon as the actor may take it,
/// and one that has notices to give gives the first of them in place of ending. A wait that can't end
/// yet ends as stalled where nobody in the machine can go on.
#[tactic(auto, using(crate::proofs::Ending::ends_at, crate::proofs::Ending::refused_last), unfolding(tp_model::specs::Calls::End::end_plan))]
pub fn end<W: Reads>(
    world: &W,
    who: Who,
    room: u64,
    change: &mut Change,
    outcome: &mut Outcome,
) -> Decision
    ensures { decided result outcome.new change.new ≡ Some (end_plan (W.world_of world.now) room who) }
{
    let actor = live_queries::actor(world, who);
    let refusal = first_of!([
        (!actor.exists, Refusal::NoSuch),
        (actor.finished, Refusal::Released),
        (actor.is_idle, Refusal::NotRunning),
    ]);
    if let Some(refusal) = refusal {
        return Decision::Refused(refusal);
    }
    // Who has begun no wait is refused by how far it has come.
    end_at(world, who, room, world.progress(who, room), change, outcome)
}
