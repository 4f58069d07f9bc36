//! Callbacks: one is made or cancelled, and the slots that they take.

ghost use Rattle.std.specs.Prelude.{◌≡◌, ◌+◌, ◌^◌, ◌<◌, true, None, Some, if◌then◌else◌};
ghost use Rattle.tp_model.specs.Changes.{with_callback};
ghost use Rattle.tp_model.specs.Conditions.{lacks_slots_for};
ghost use Rattle.tp_model.specs.Counts.{callback_of, is_operating as is_operating_by, is_pending as is_pending_by, is_running as is_running_by};
ghost use Rattle.tp_model.specs.Support.Allowed.{IsAllowed};
ghost use Rattle.tp_model.specs.Waits.{cancelled};
ghost use Rattle.live_world.specs.Live.{moved, with_world};
ghost use Rattle.tp_model.specs.Sources.{count_fired};
ghost use Rattle.tp_model.specs.Calls.Timers.{count_expiring};
ghost use Rattle.tp_model.specs.Calls.WaitObjects.{lacks_slots_after};

use crate::LiveWorld;
use tp_base::ids::{KernelId, ObjectId};
use tp_base::plans::{Change, Trigger};
use tp_base::rows::{CallbackRow, Status};

// The callback waits for a worker.
pub(crate) fn is_pending(callback: &CallbackRow) -> bool
    ensures { result ≡ is_pending_by callback.now.status }
{
    matches!(callback.status, Status::Pending)
}

// An operation of the callback is expected or under way.
pub(crate) fn is_operating(callback: &CallbackRow) -> bool
    ensures { result ≡ is_operating_by callback.now.status }
{
    matches!(callback.status, Status::Expected | Status::Issued)
}

// A worker runs the callback.
pub(crate) fn is_running(callback: &CallbackRow) -> bool
    ensures { result ≡ is_running_by callback.now.status }
{
    matches!(callback.status, Status::Running { .. })
}

impl LiveWorld {
    // Whether there is no slot for so many more callbacks: each callback has one, and so has each
    // armed wait.
    pub(crate) fn lacks_slots(&self, count: u32) -> bool
        ensures { result ≡ lacks_slots_for self.now.world count }
    {
        self.is_reachable();
        self.limits.slots - self.callbacks.len() - self.sources.armed() < count
    }

    // Whether there would be no slot for what is there once a wait is set: with a kernel object it
    // has one, as a callback or as an armed wait, and the one of its old arming is free.
    pub(crate) fn lacks_slots_to_set(
        &self,
        object: ObjectId,
        kernel: Option<KernelId>,
        timeout: Option<i64>,
    ) -> bool
        ensures { result ≡ lacks_slots_after self.now.world (Trigger.SetWait object kernel timeout) }
    {
        self.is_reachable();
        let needed = if kernel.is_some() { 1 } else { 0 };
        self.limits.slots < self.callbacks.len() + self.sources.armed_without(object) + needed
    }

    // How many callbacks come of what is due, if the clock comes to a moment, or None where there is no
    // slot for all of it. An armed wait whose timeout is due has one. Walks what is due, if that isn't
    // noted, and once more if there are too few slots for all of it, but enough for all of it less one
    // for each armed wait.
    pub(crate) fn count_due(&self, now: u64) -> Option<u32>
        ensures { result ≡ if lacks_slots_for self.now.world (count_expiring self.now.world now) then None else Some (count_fired self.now.world (Trigger.Advance now)) }
    {
        self.is_reachable();
        let due = self.sources.count_due(now);
        if !self.lacks_slots(due) {
            return Some(due);
        }
        if self.lacks_slots(due.saturating_sub(self.sources.armed())) {
            return None;
        }
        if self.lacks_slots(self.sources.count_expiring(now)) {
            None
        } else {
            Some(due)
        }
    }

    /// Notes how many timers and timeouts are due at a moment, for `count_due`: until one is set
    /// or ends, that counts them for this moment at once.
    pub fn note_due(&mut self, now: u64)
        ensures { self.new ≡ self.old }
    {
        self.sources.note_due(now);
    }

    // Makes a callback that waits for a worker.
    pub(crate) fn queue_callback(&mut self, callback: CallbackRow)
        requires allowed { IsAllowed (self.old.made + 1) self.old.world (Change.QueueCallback callback) }
        requires young { self.old.made < 2 ^ 63 }
        ensures { self.new ≡ moved self.old (Change.QueueCallback callback) }
    {
        self.callbacks.push(callback);
        self.made += 1;
    }

    // Cancels a callback that waits for a worker.
    #[inline(always)]
    pub(crate) fn cancel_callback(&mut self, callback: CallbackRow)
        requires found { callback_of self.old.world callback.number ≡ Some callback }
        requires pending { is_pending_by callback.status ≡ true }
        ensures { self.new ≡ with_world self.old (with_callback self.old.world (cancelled callback)) }
    {
        self.callbacks.remove(&callback);
    }
}
