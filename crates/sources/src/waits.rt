//! Waits that are armed on kernel objects.

ghost use Rattle.std.specs.Prelude.{◌≡◌, IfSome, IsSome, false, length, true};
ghost use Rattle.tp_base.specs.Armings.{is_armed as is_object_armed, is_set, without_arming};
ghost use Rattle.tp_model.specs.Counts.{numbered};
ghost use Rattle.tp_model.specs.Sources.{arm, disarmed, set_wait};
ghost use Rattle.sources.specs.Firing.{after_jobs, jobs_of};
ghost use Rattle.sources.specs.Rows.{is_there, with_sources};

use crate::LiveSources;
use tp_base::answers::TakeResult;
use tp_base::ids::{KernelId, ObjectId};

impl LiveSources {
    /// How many waits are armed.
    pub fn armed(&self) -> u32
        ensures { result ≡ length self.now.sources.armings }
    {
        self.armed
    }

    /// Whether a wait object is armed.
    pub fn is_armed(&self, object: ObjectId) -> bool
        ensures { result ≡ is_object_armed object.0 self.now.sources.armings }
    {
        self.kernels.is_armed(object)
    }

    /// How many waits are armed besides this one.
    pub fn armed_without(&self, object: ObjectId) -> u32
        ensures { result ≡ length (without_arming object.0 self.now.sources.armings) }
    {
        let own = if self.kernels.is_armed(object) { 1 } else { 0 };
        self.armed - own
    }

    // Disarms a wait object, and ends its timeout.
    fn disarm(&mut self, object: ObjectId)
        requires { is_there self.old object.0 ≡ true }
        ensures { self.new ≡ with_sources self.old (disarmed object self.old.sources) }
    {
        self.timers.unset(object);
        if self.kernels.disarm(object) {
            self.armed -= 1;
        }
    }

    // A wait object that isn't armed takes a kernel object, times out at once, or is armed on it.
    fn arm(
        &mut self,
        object: ObjectId,
        kernel: KernelId,
        timeout: Option<i64>,
    ) -> Option<TakeResult>
        requires there { is_there self.old object.0 ≡ true }
        requires made { IsSome (numbered self.old.sources.kernels kernel.0) }
        requires unarmed { is_object_armed object.0 self.old.sources.armings ≡ false }
        ensures after { after_jobs self.new.sources (jobs_of object result) ≡ arm object kernel timeout self.old.sources }
        ensures others { self.new ≡ with_sources self.old self.new.sources }
    {
        if self.kernels.take_signal(kernel) {
            return Some(TakeResult::WaitObject0);
        }
        if self.expires_at_once(timeout) {
            return Some(TakeResult::WaitTimeout);
        }
        self.kernels.arm(object, kernel);
        self.timers.set(object, self.clock, timeout, 0, 0);
        self.armed += 1;
        None
    }

    /// Sets a wait, as SetThreadpoolWait does: its old arming ends, and with a kernel object a new one
    /// begins. Says what the wait object is told at once, if it is: that it took the kernel object, or
    /// that it timed out, and then it isn't armed.
    ///
    /// `timeout` counts as the due time of a timer does; with None there is no timeout.
    pub fn set_wait(
        &mut self,
        object: ObjectId,
        kernel: Option<KernelId>,
        timeout: Option<i64>,
    ) -> Option<TakeResult>
        requires there { is_there self.old object.0 ≡ true }
        requires made { IfSome kernel (λ on. IsSome (numbered self.old.sources.kernels on.0)) }
        ensures after { after_jobs self.new.sources (jobs_of object result) ≡ set_wait object kernel timeout self.old.sources }
        ensures others { self.new ≡ with_sources self.old self.new.sources }
    {
        self.disarm(object);
        self.arm(object, kernel?, timeout)
    }
}
