//! What was decided of a call is done: a refusal or a look is put down, and the change of an accepted call is made, where
//! the history has room for it.

ghost use Rattle.std.specs.Prelude.{◌≡◌, ◌+◌, ◌^◌, ◌<◌, ◌≤◌, nat_lt, true, Some};
ghost use Rattle.live_world.specs.Steps.{is_take};
ghost use Rattle.pool_plans.specs.Decided.{decided};
ghost use Rattle.pool_core.specs.Entered.{outcome_of_entry, unless_dear};
ghost use Rattle.pool_core.specs.Made.{IsMade};
ghost use Rattle.tp_base.specs.Ranges.{IsCallInRange, IsOutcomeInRange, IsRefusalInRange};
ghost use Rattle.tp_model.specs.Changes.{changed};
ghost use Rattle.tp_model.specs.Support.Allowed.{IsAllowed, price as price_of};
ghost use Rattle.tp_model.specs.Support.Ranged.{IsChangeInRange};
ghost use Rattle.tp_model.specs.Table.{plan_at};
ghost use Rattle.tp_model.specs.Support.Remembered.{remembered_in};

use crate::Engine;
use crate::prices::price;
use pool_plans::decisions::Decision;
use steps::Steps;
use tp_base::answers::{Answer, Outcome, Refusal};
use tp_base::calls::Call;
use tp_base::ids::Who;
use tp_base::plans::Change;

impl Engine {
    ghost use Rattle.pool_core.specs.Entered.{after_entry};

    /// Does what was decided of a call, and puts what that comes to where it is wanted. The change is that of an
    /// accepted call, and its answer stands in the outcome already. Counts the nodes that a Take reads.
    #[inline(always)]
    pub(crate) fn settle(
        &mut self,
        who: Who,
        call: Call,
        decision: Decision,
        change: &Change,
        room: u64,
        outcome: &mut Outcome,
        steps: &mut Steps,
    )
        requires in_range { IsCallInRange call }
        requires young { self.old.age < 2 ^ 47 }
        requires plan { decided decision outcome.old change.now ≡ Some (plan_at self.old.world (self.old.made + 1) room who call) }
        ensures made { IsMade self.old self.new room who call outcome.new }
        ensures counted { steps.old ≤ steps.new }
        ensures bound { call ≡ Call.Take → steps.new ≤ steps.old + 2 }
    {
        self.live.is_reachable();
        match decision {
            Decision::Looked(look) => *outcome = Outcome::Look(look),
            Decision::Refused(refusal) => {
                if let (Call::Advance { ticks }, Refusal::CallbackLimit) = (call, refusal) {
                    self.note_due(ticks);
                }
                *outcome = refuse(refusal, room);
            }
            Decision::Accepted => self.enter(change, room, outcome, steps),
        }
    }

    // Notes how many timers are due so many ticks from now, where there are too few slots for their
    // callbacks: so the same call is refused without a walk. One past the end of the clock is refused
    // for that, so the sum is the moment that the call would have come to.
    #[inline(never)]
    fn note_due(&mut self, ticks: u64)
        ensures { self.new ≡ self.old }
    {
        let now = self.live.sources().now().saturating_add(ticks);
        self.live.note_due(now);
    }

    // Makes a change, where the history has room for what it costs; else the outcome is Full.
    #[inline(always)]
    fn enter(&mut self, change: &Change, room: u64, outcome: &mut Outcome, steps: &mut Steps)
        requires allowed { IsAllowed (self.old.made + 1) self.old.world change.now }
        requires outcome_in_range { IsOutcomeInRange outcome.old }
        requires change_in_range { IsChangeInRange change.now }
        requires young { self.old.age < 2 ^ 47 }
        ensures outcome { outcome.new ≡ unless_dear room (price_of change.now) outcome.old }
        ensures after { self.new ≡ after_entry self.old room change.now }
        ensures in_range { IsOutcomeInRange outcome.new }
        ensures counted { steps.old ≤ steps.new }
        ensures bound { is_take change.now ≡ true → steps.new ≤ steps.old + 2 }
    {
        let cost = price(change);
        if lacks_room(room, cost) {
            *outcome = Outcome::Full { room, cost };
        } else {
            self.apply(change, steps);
        }
    }

    // Makes a change that the world allows, and counts what the history owes and the age.
    #[inline(always)]
    fn apply(&mut self, change: &Change, steps: &mut Steps)
        requires allowed { IsAllowed (self.old.made + 1) self.old.world change.now }
        requires in_range { IsChangeInRange change.now }
        requires young { self.old.age < 2 ^ 47 }
        ensures after { self.new ≡ remembered_in self.old (changed self.old.world change.now) }
        ensures counted { steps.old ≤ steps.new }
        ensures bound { is_take change.now ≡ true → steps.new ≤ steps.old + 2 }
    {
        self.live.is_reachable();
        self.owed = self.owed + price(change) - 1;
        self.age += 1;
        self.live.apply(change, steps);
    }
}

// Whether an entry of this cost is too much for the room that a history has.
#[inline(always)]
fn lacks_room(room: u64, cost: u64) -> bool
    ensures { result ≡ nat_lt room cost }
{
    room < cost
}

// What a refusal comes to, where the history has room for its entry.
#[inline(always)]
fn refuse(refusal: Refusal, room: u64) -> Outcome
    requires { IsRefusalInRange refusal }
    ensures outcome { result ≡ outcome_of_entry room (Answer.Refused refusal) 1 }
    ensures in_range { IsOutcomeInRange result }
{
    if lacks_room(room, 1) {
        Outcome::Full { room, cost: 1 }
    } else {
        Outcome::Done(Answer::Refused(refusal))
    }
}
