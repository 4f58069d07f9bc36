//! What the calls that make callbacks by a trigger do alike.

ghost use Rattle.std.specs.Prelude.{◌≡◌, ◌+◌, ◌^◌, ◌<◌};
ghost use Rattle.tp_model.specs.Calls.Timers.{first_of};

use tp_base::plans::{Change, Trigger};
use world_reads::Reads;

/// The first number of so many callbacks, or 0 where there are none.
pub(crate) fn first_number(next: u64, count: u32) -> u64
    ensures { result ≡ first_of next count }
{
    if count == 0 { 0 } else { next }
}

/// The change by which a trigger makes so many callbacks.
pub(crate) fn fired<W: Reads>(world: &W, trigger: Trigger, count: u32) -> Change
    requires { W.made_of world.now < 2 ^ 63 }
    ensures { result ≡ Change.Fire trigger (W.made_of world.now + 1) count }
{
    Change::Fire {
        trigger,
        first: world.next_number(),
        count,
    }
}
