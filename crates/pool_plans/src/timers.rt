//! Calls on timers and the clock: `SetThreadpoolTimer`, `SetThreadpoolTimerEx` and
//! `IsThreadpoolTimerSet`; and time passes.

ghost use Rattle.pool_plans.specs.Decided.{decided};
ghost use Rattle.std.specs.Prelude.{◌≡◌, ◌+◌, ◌^◌, ◌<◌, ◌≤◌, nat_lt, Some};
ghost use Rattle.tp_base.specs.Timers.{clock_end};
ghost use Rattle.tp_model.specs.Calls.Timers.{set_timer_plan, set_timer_ex_plan, is_timer_set_plan, advance_plan};

use crate::decisions::{Decision, accept};
use crate::refusals::{actor_refusal, either, first_of, object_refusal};
use crate::triggers::{fired, first_number};
use tp_base::answers::{Answer, Outcome, Refusal};
use tp_base::calls::{CLOCK_END, Kind};
use tp_base::ids::{ObjectId, Who};
use tp_base::plans::{Change, Trigger};
use world_reads::Reads;

// Sets a timer or unsets it, and answers with the first callback of that and how many there are.
macro_rules! set_with {
    ($world:ident, $who:ident, $object:ident, $trigger:ident, $change:ident, $outcome:ident, |$first:ident, $count:ident| $told:expr) => {{
        let $count = $world.count_fired(&$trigger);
        let refusal = object_refusal!(
            $world,
            $who,
            Kind::Timer,
            $object,
            [($world.lacks_slots($count), Refusal::CallbackLimit)]
        );
        if let Some(refusal) = refusal {
            return Decision::Refused(refusal);
        }
        let $first = first_number($world.next_number(), $count);
        accept($change, $outcome, $told, fired($world, $trigger, $count))
    }};
}

/// Sets a timer, or unsets it. One that is due at once makes a callback.
#[tactic(auto, unfolding(tp_model::specs::Calls::Timers::set_timer_plan))]
pub fn set_timer<W: Reads>(
    world: &W,
    who: Who,
    object: ObjectId,
    due: Option<i64>,
    period: u32,
    window: u32,
    change: &mut Change,
    outcome: &mut Outcome,
) -> Decision
    requires { W.made_of world.now < 2 ^ 63 }
    ensures { decided result outcome.new change.new ≡ Some (set_timer_plan (W.world_of world.now) (W.made_of world.now + 1) who object due period window) }
{
    let trigger = Trigger::SetTimer {
        object,
        due,
        period,
        window,
    };
    set_with!(
        world,
        who,
        object,
        trigger,
        change,
        outcome,
        |first, count| Answer::Queued { first, count }
    )
}

/// Sets a timer, or unsets it, and tells whether that ended a setting.
#[tactic(auto, unfolding(tp_model::specs::Calls::Timers::set_timer_ex_plan))]
pub fn set_timer_ex<W: Reads>(
    world: &W,
    who: Who,
    object: ObjectId,
    due: Option<i64>,
    period: u32,
    window: u32,
    change: &mut Change,
    outcome: &mut Outcome,
) -> Decision
    requires { W.made_of world.now < 2 ^ 63 }
    ensures { decided result outcome.new change.new ≡ Some (set_timer_ex_plan (W.world_of world.now) (W.made_of world.now + 1) who object due period window) }
{
    let trigger = Trigger::SetTimer {
        object,
        due,
        period,
        window,
    };
    set_with!(
        world,
        who,
        object,
        trigger,
        change,
        outcome,
        |first, count| Answer::WasSet {
            was: world.is_set(object),
            first,
            count,
        }
    )
}

/// Tells whether a timer is set.
#[tactic(auto, unfolding(tp_model::specs::Calls::Timers::is_timer_set_plan))]
pub fn is_timer_set<W: Reads>(
    world: &W,
    who: Who,
    object: ObjectId,
    change: &mut Change,
    outcome: &mut Outcome,
) -> Decision
    ensures { decided result outcome.new change.new ≡ Some (is_timer_set_plan (W.world_of world.now) who object) }
{
    let refusal = object_refusal!(world, who, Kind::Timer, object, []);
    if let Some(refusal) = refusal {
        return Decision::Refused(refusal);
    }
    accept(
        change,
        outcome,
        Answer::Flag {
            value: world.is_set(object),
        },
        Change::Keep,
    )
}

// Whether the clock would pass its end.
fn passes_end(now: u64, ticks: u64) -> bool
    requires { now ≤ clock_end }
    ensures { result ≡ nat_lt clock_end (now + ticks) }
{
    CLOCK_END - now < ticks
}

/// The clock goes on by so many units of 100 ns. Each timer that is due then makes a callback, and
/// so does each armed wait whose timeout is.
#[tactic(auto, unfolding(tp_model::specs::Calls::Timers::advance_plan))]
pub fn advance<W: Reads>(
    world: &W,
    who: Who,
    ticks: u64,
    change: &mut Change,
    outcome: &mut Outcome,
) -> Decision
    requires { W.made_of world.now < 2 ^ 63 }
    ensures { decided result outcome.new change.new ≡ Some (advance_plan (W.world_of world.now) (W.made_of world.now + 1) who ticks) }
{
    let refusal = actor_refusal!(
        world,
        who,
        [(passes_end(world.now(), ticks), Refusal::ClockEnd)]
    );
    if let Some(refusal) = refusal {
        return Decision::Refused(refusal);
    }
    let now = world.now() + ticks;
    let Some(count) = world.count_due(now) else {
        return Decision::Refused(Refusal::CallbackLimit);
    };
    let trigger = Trigger::Advance { now };
    let first = first_number(world.next_number(), count);
    accept(
        change,
        outcome,
        Answer::Advanced { now, first, count },
        fired(world, trigger, count),
    )
}
