//! When a timer is due, and until when that may be put off.

ghost use Rattle.std.specs.Prelude.{◌≡◌, ◌<◌, ◌≤◌};
ghost use Rattle.tp_base.specs.Timers.{clock_end, deadline as last_moment, moment_of as moment, next_due as next};

use tp_base::calls::CLOCK_END;
use tp_base::rows::TimerSetting;

// 1 millisecond in units of 100 ns.
const UNITS: u64 = 10_000;

/// The moment for which a due time of SetThreadpoolTimer stands at the moment `now`: one below 0
/// counts from now, one above 0 is a moment of the clock, and 0 is now.
pub fn moment_of(now: u64, due: i64) -> u64
    requires { now ≤ clock_end }
    ensures { result ≡ moment now due }
{
    if due < 0 {
        now + due.unsigned_abs()
    } else if due == 0 {
        now
    } else {
        due as u64
    }
}

/// When a timer that expires at the moment `now` is due next: the least moment above `now` that is
/// one or more whole periods after `base`, its last due time. `period` is in milliseconds.
pub fn next_due(base: u64, period: u32, now: u64) -> u64
    requires repeats { 0 < period }
    requires past { base ≤ now }
    requires clock { now ≤ clock_end }
    ensures value { result ≡ next base period now }
    ensures above { now < result }
{
    let span = UNITS * u64::from(period);
    base + ((now - base) / span + 1) * span
}

/// The last moment to which an expiration may be put off: as much later as the window says, and no later
/// than the clock's end. One that is due behind that never comes.
pub fn deadline(setting: &TimerSetting) -> u64
    ensures { result ≡ last_moment setting.now }
{
    if setting.due > CLOCK_END {
        setting.due
    } else {
        CLOCK_END.min(setting.due + UNITS * u64::from(setting.window))
    }
}
