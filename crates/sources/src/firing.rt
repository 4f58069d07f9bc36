//! What fires, one after another.

ghost use Rattle.std.specs.Prelude.{◌≡◌, ◌+◌, ◌≤◌, [], ◌∷◌, IfNone, IfSome, MatchOption, length, true};
ghost use Rattle.tp_model.specs.Sources.{job, jobless};
ghost use Rattle.sources.specs.Firing.{Fires, after_jobs, before, jobs_told, rest_of, step_of};
ghost use Rattle.sources.specs.Rows.{is_there, with_sources};

use crate::LiveSources;
use tp_base::answers::TakeResult;
use tp_base::ids::{KernelId, ObjectId};

/// What makes callbacks, one after another: the clock, of all that is due now, or a kernel object, of
/// the waits that are armed on it while it is signalled.
#[derive(Clone, Copy)]
pub enum Cause {
    Clock,
    Kernel(KernelId),
}

impl LiveSources {
    /// What fires next, if anything does, and what it is told. Of the clock this is the first timer or
    /// timeout that is due now; with a period the timer is set anew, and the wait of a timeout is
    /// disarmed. Of a kernel object that is signalled it is the wait that was armed earliest on it, which
    /// is disarmed and takes it. None exactly where nothing is left to fire, and then nothing changes.
    pub fn fire_next(&mut self, cause: Cause) -> Option<(ObjectId, TakeResult)>
        ensures after { after_jobs self.new.sources (jobs_told result) ≡ step_of cause self.old.sources }
        ensures others { self.new ≡ with_sources self.old self.new.sources }
        ensures idle { IfNone result (self.new ≡ self.old) }

        // What is left leads to where all of it led.
        ensures rest { MatchOption result (rest_of cause self.old.sources ≡ jobless self.old.sources) (λ told. rest_of cause self.old.sources ≡ before (job told.0 told.1 ∷ []) (rest_of cause self.new.sources)) }

        // Where all that fires has a slot, this has one.
        ensures fits { length self.new.sources.armings + length (jobs_told result) ≤ length (rest_of cause self.old.sources).jobs + length (rest_of cause self.old.sources).sources.armings }
        ensures stands { IfSome result (λ told. is_there self.old told.0.0 ≡ true) }
    {
        match cause {
            Cause::Clock => self.expire(),
            Cause::Kernel(kernel) => self.release(kernel),
        }
    }

    // The first timer or timeout that is due now expires.
    fn expire(&mut self) -> Option<(ObjectId, TakeResult)>
        ensures { Fires Cause.Clock self.old self.new result }
    {
        // None is set twice.
        let _ = self.timers.len();
        let (_, object) = self.timers.expire(self.clock)?;
        if self.kernels.disarm(object) {
            self.armed -= 1;
            Some((object, TakeResult::WaitTimeout))
        } else {
            Some((object, TakeResult::Plain))
        }
    }

    // The wait that was armed earliest on a kernel object takes it, if that is signalled.
    fn release(&mut self, kernel: KernelId) -> Option<(ObjectId, TakeResult)>
        ensures { Fires (Cause.Kernel kernel) self.old self.new result }
    {
        let object = self.kernels.next_released(kernel)?;
        self.timers.unset(object);
        self.armed -= 1;
        Some((object, TakeResult::WaitObject0))
    }
}
