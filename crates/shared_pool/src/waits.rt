//! The calls that wait: each begins a wait, and makes `End` until that is over.

ghost use Rattle.std.specs.Prelude.{◌≡◌, ◌≤◌, [], true, IfErr, OnOk};
ghost use Rattle.tp_base.specs.declared.calls.Call.TheVariants.{BeginAcquire, BeginClose, BeginWait, End};
ghost use Rattle.tp_base.specs.Ranges.{IsCallInRange};
ghost use Rattle.tp_model.specs.Stages.{is_wait_answer};
ghost use Rattle.shared_pool.specs.Calls.{HasCalled, HasMetMore};
ghost use Rattle.shared_pool.specs.Waits.{is_accepted, is_begin, HasClosed, HasWaitedFor, IsInWait, IsUnbegun, IsWaiting};

use crate::notices::Notices;
use crate::pool::SharedPool;
use crossbeam_utils::Backoff;
use recorded::Recorded;
use std::sync::Wait;
use tp_base::answers::{Answer, Outcome};
use tp_base::calls::{Call, Kind};
use tp_base::ids::{GroupId, KernelId, ObjectId};
use tp_model::{legal_bounds_closes, legal_gives_facts, legal_keeps_laws};
use turn_lock::Seat;

// Whether a call was accepted.
fn accepted(told: Outcome) -> bool
    ensures { result ≡ is_accepted told }
{
    match told {
        Outcome::Done(answer) => !matches!(answer, Answer::Refused(_)),
        Outcome::Look(_) | Outcome::Full { .. } => false,
    }
}

impl<B: Recorded> SharedPool<B> {
    ghost use Rattle.shared_pool.specs.Pools.{setup_at, IsPlayer};

    /// Waits until the callbacks of an object are over: `WaitForThreadpoolWorkCallbacks`, and its like
    /// for timers, wait objects and I/O, by the kind. With `cancel` those that no worker has taken are
    /// cancelled, and it waits for those that run. It may wait for ever.
    ///
    /// `Ended`: those that it was for are over, and none of them runs later. `Exhausted`: one that it
    /// was for is left pending, since the history has no room for it to be run. `Stalled`: nobody in the
    /// machine can go on, and they aren't over. Else no wait was begun: Full, where the history has no
    /// room for it, or a refusal: `NoSuch`, the object was never made; `WrongKind`; `Released`, the
    /// object, or the client has finished; `NotRunning`, the worker runs no callback; `InWait`, the
    /// actor has begun a wait that hasn't ended; `OwnCallback`, the actor runs a callback of the object.
    pub fn wait_callbacks<Rt: Wait>(
        &self,
        rt: &Rt,
        seat: &mut Seat<B>,
        kind: Kind,
        object: ObjectId,
        cancel: bool,
    ) -> Outcome
        requires player { IsPlayer self.now seat.old }
        requires in_range { IsCallInRange (BeginWait kind object cancel) }
        ensures player { IsPlayer self.now seat.new }
        ensures waited { HasWaitedFor (BeginWait kind object cancel) [] result seat.old seat.new }
        ensures met { HasMetMore seat.old seat.new }
    {
        legal_keeps_laws();
        match self.begin(
            rt,
            seat,
            Call::BeginWait {
                kind,
                object,
                cancel,
            },
        ) {
            Ok(()) => Outcome::Done(self.end(rt, seat)),
            Err(told) => told,
        }
    }

    /// Takes a kernel object as soon as the actor may: `WaitForSingleObject`, and for a section
    /// `EnterCriticalSection`. It may wait for ever.
    ///
    /// `Ended`: it is taken. `Stalled`: nobody in the machine can go on, and it isn't taken. Else no
    /// wait was begun: Full, where the history has no room for it, or a refusal: `NoSuch`, the kernel
    /// object was never made; `Released`, the client has finished; `NotRunning`, the worker runs no
    /// callback; `InWait`, the actor has begun a wait that hasn't ended.
    pub fn acquire<Rt: Wait>(&self, rt: &Rt, seat: &mut Seat<B>, kernel: KernelId) -> Outcome
        requires player { IsPlayer self.now seat.old }
        requires in_range { IsCallInRange (BeginAcquire kernel) }
        ensures player { IsPlayer self.now seat.new }
        ensures waited { HasWaitedFor (BeginAcquire kernel) [] result seat.old seat.new }
        ensures met { HasMetMore seat.old seat.new }
    {
        legal_keeps_laws();
        legal_bounds_closes();
        match self.begin(rt, seat, Call::BeginAcquire { kernel }) {
            Ok(()) => Outcome::Done(self.end(rt, seat)),
            Err(told) => told,
        }
    }

    /// Releases the members of a group, and waits until their callbacks are over:
    /// `CloseThreadpoolCleanupGroupMembers`. With `cancel` the callbacks that no worker has taken are
    /// cancelled, and `notices` is told of each member that has a cancel routine, in the order in which
    /// they were made; it has room for as many as the pool's limit of objects. It may wait for ever.
    ///
    /// `Ended`: the callbacks of the group that were made before are over, none of them runs later, and
    /// `notices` was told of all. `Exhausted`: one is left pending, since the history has no room for it
    /// to be run. `Stalled`: nobody in the machine can go on, and the notices that are left are never
    /// told. Else no wait was begun, and `notices` was told nothing: Full, where the history has no room
    /// for it, or a refusal: `NoSuch`, the group was never made; `Released`, the client has finished;
    /// `GroupClosed`; `NotRunning`, the worker runs no callback; `InWait`, the actor has begun a wait
    /// that hasn't ended; `OwnCallback`, the actor runs a callback of the group;
    /// `OperationsOutstanding`, an operation of a member is announced or under way.
    pub fn close_members<Rt: Wait, N: Notices>(
        &self,
        rt: &Rt,
        seat: &mut Seat<B>,
        group: GroupId,
        cancel: bool,
        context: u64,
        notices: &mut N,
    ) -> Outcome
        requires player { IsPlayer self.now seat.old }
        requires in_range { IsCallInRange (BeginClose group cancel context) }
        requires spare { (setup_at self.now).limits.objects ≤ N.room notices.old }
        ensures player { IsPlayer self.now seat.new }
        ensures closed { HasClosed (BeginClose group cancel context) result (N.told notices.old) (N.told notices.new) (N.room notices.old) (N.room notices.new) seat.old seat.new }
        ensures met { HasMetMore seat.old seat.new }
    {
        legal_keeps_laws();
        legal_bounds_closes();
        if let Err(told) = self.begin(
            rt,
            seat,
            Call::BeginClose {
                group,
                cancel,
                context,
            },
        ) {
            return told;
        }
        for _ in rt.forever() {
            match self.end(rt, seat) {
                Answer::Notice {
                    object,
                    routine,
                    context,
                    cleanup,
                } => notices.notice(object, routine, context, cleanup),
                last => return Outcome::Done(last),
            }
        }
        unreachable!()
    }

    // Begins a wait, or tells what came in place of that.
    fn begin<Rt: Wait>(&self, rt: &Rt, seat: &mut Seat<B>, call: Call) -> Result<(), Outcome>
        requires player { IsPlayer self.now seat.old }
        requires in_range { IsCallInRange call }
        requires begins { is_begin call ≡ true }
        ensures player { IsPlayer self.now seat.new }
        ensures begun { OnOk result (IsWaiting call [] seat.old seat.new) }
        ensures unbegun { IfErr result (λ told. IsUnbegun call told seat.old seat.new) }
        ensures met { HasMetMore seat.old seat.new }
    {
        legal_bounds_closes();
        let told = self.call(rt, seat, call);
        if accepted(told) { Ok(()) } else { Err(told) }
    }

    // Makes End until it comes to no look: a notice, or the end of the wait.
    fn end<Rt: Wait>(&self, rt: &Rt, seat: &mut Seat<B>) -> Answer
        requires player { IsPlayer self.now seat.old }
        requires in_wait { IsInWait seat.old }
        ensures player { IsPlayer self.now seat.new }
        ensures ended { HasCalled End result seat.old seat.new }
        ensures of_wait { is_wait_answer result ≡ true }
        ensures met { HasMetMore seat.old seat.new }
    {
        legal_gives_facts();
        let backoff = Backoff::new();
        for _ in rt.forever() {
            match self.call(rt, seat, Call::End) {
                Outcome::Done(answer) => return answer,
                Outcome::Look(_) => backoff.snooze(),
                Outcome::Full { .. } => unreachable!(),
            }
        }
        unreachable!()
    }
}
