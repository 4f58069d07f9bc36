//! What is outstanding for an object: its callbacks whose operations are announced or under way, those that
//! are pending, and those that run and were not disassociated from it.

ghost use Rattle.std.specs.Prelude.{◌≡◌, ◌+◌, ◌≤◌, if◌then◌else◌, nat_lt, filter, length, slice_get};
ghost use Rattle.tp_model.specs.Waits.{count_outstanding};
ghost use Rattle.tp_model.specs.Calls.Waits.{count_covered, count_cancelled_by};
ghost use Rattle.live_world.specs.Invariant.{is_pending_callback, is_running_callback};

use crate::LiveWorld;
use crate::callbacks::{is_pending, is_running};
use tp_base::ids::ObjectId;
use tp_base::rows::{CallbackRow, WaitTarget};
use world_reads::WaitCounts;

const NO_COUNTS: WaitCounts = WaitCounts {
    covered: 0,
    cancelled: 0,
};

// What is counted, and one callback more, where those that are pending are cancelled and those that run are covered.
fn counted_with(counts: WaitCounts, callback: &CallbackRow) -> WaitCounts
    requires covered { counts.covered ≤ 65535 }
    requires cancelled { counts.cancelled ≤ 65535 }
    ensures covered { result.covered ≡ counts.covered + (if is_running_callback callback.now then 1 else 0) }
    ensures cancelled { result.cancelled ≡ counts.cancelled + (if is_pending_callback callback.now then 1 else 0) }
{
    WaitCounts {
        covered: counts.covered + u32::from(is_running(callback)),
        cancelled: counts.cancelled + u32::from(is_pending(callback)),
    }
}

impl LiveWorld {
    ghost use Rattle.live_world.specs.Waiting.{outstanding_of, pending_of};
    // The pending callback of least number. Walks what is outstanding for the object before it.
    pub(crate) fn first_pending(&self, object: ObjectId) -> Option<CallbackRow>
        ensures { result ≡ slice_get (pending_of self.now.world object) 0 }
    {
        self.is_reachable();
        let mut next = self.callbacks.first_outstanding(object);
        while let Some(callback) = next {
            if is_pending(callback) {
                return Some(*callback);
            }
            next = self.callbacks.next_outstanding(callback);
        }
        None
    }

    // How many callbacks a wait for the object with cancel would cover, and how many it would cancel before.
    // Walks what is outstanding for the object.
    fn cancel_counts(&self, object: ObjectId) -> WaitCounts
        ensures covered { result.covered ≡ length (filter is_running_callback (outstanding_of self.now.world object)) }
        ensures cancelled { result.cancelled ≡ length (filter is_pending_callback (outstanding_of self.now.world object)) }
    {
        self.is_reachable();
        let mut count = NO_COUNTS;
        let mut next = self.callbacks.first_outstanding(object);
        while let Some(callback) = next {
            count = counted_with(count, callback);
            next = self.callbacks.next_outstanding(callback);
        }
        count
    }

    // How many callbacks a wait for the object would cover, and how many it would cancel before. With
    // cancel it would cover those that run, and what is outstanding for the object is walked to tell them.
    pub(crate) fn wait_counts(&self, object: ObjectId, cancel: bool) -> WaitCounts
        ensures covered { result.covered ≡ count_covered self.now.world (WaitTarget.Object object) cancel }
        ensures cancelled { result.cancelled ≡ count_cancelled_by self.now.world (WaitTarget.Object object) cancel }
    {
        if cancel {
            self.cancel_counts(object)
        } else {
            WaitCounts {
                covered: self.callbacks.count_outstanding(object),
                cancelled: 0,
            }
        }
    }
}
