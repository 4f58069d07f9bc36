//! How many callbacks a wait or a close of a group would cover and cancel, and how many notices a close would give.

ghost use Rattle.std.specs.Prelude.{◌≡◌, ◌<◌, ◌^◌, filter, length};
ghost use Rattle.tp_model.specs.Calls.Waits.{count_cancelled_by, count_covered};
ghost use Rattle.tp_model.specs.Groups.{gets_notice as gets_notice_of, notices_of};
ghost use Rattle.tp_model.specs.Waits.{is_cancelled_by};
ghost use Rattle.plain_worlds.specs.Counting.{is_covered_then as is_covered_then_by};

use crate::groups::gets_notice;
use crate::rows::Rows;
use crate::waits::{is_cancelled, is_covered};
use tp_base::ids::{GroupId, ObjectId};
use tp_base::rows::{CallbackRow, ObjectRow, WaitTarget};
use world_reads::WaitCounts;

// Whether a wait doesn't cancel a callback as it begins, and covers it.
fn is_covered_then(target: WaitTarget, cancel: bool, callback: &CallbackRow) -> bool
    ensures { result ≡ is_covered_then_by target cancel callback.now }
{
    !is_cancelled(target, cancel, callback) && is_covered(target, cancel, callback)
}

// How many callbacks a wait would cover.
fn count_covered(callbacks: &[CallbackRow], target: WaitTarget, cancel: bool) -> u32
    requires { length callbacks.now < 2 ^ 32 }
    ensures { result ≡ length (filter (is_covered_then_by target cancel) callbacks.now) }
{
    let count = callbacks
        .iter()
        .filter(|callback| is_covered_then(target, cancel, callback))
        .count();
    count as u32
}

// How many callbacks a wait would cancel.
fn count_cancelled(callbacks: &[CallbackRow], target: WaitTarget, cancel: bool) -> u32
    requires { length callbacks.now < 2 ^ 32 }
    ensures { result ≡ length (filter (is_cancelled_by target cancel) callbacks.now) }
{
    let count = callbacks
        .iter()
        .filter(|callback| is_cancelled(target, cancel, callback))
        .count();
    count as u32
}

// How many objects get a notice as their group is closed.
fn count_noticed(objects: &[ObjectRow], group: GroupId) -> u32
    requires { length objects.now < 2 ^ 32 }
    ensures { result ≡ length (filter (gets_notice_of group.0) objects.now) }
{
    let count = objects
        .iter()
        .filter(|object| gets_notice(group, object))
        .count();
    count as u32
}

impl Rows {
    // How many callbacks a wait for this would cover, and how many it would cancel before.
    fn counts_for(&self, target: WaitTarget, cancel: bool) -> WaitCounts
        requires { length self.now.callbacks < 2 ^ 32 }
        ensures covered { result.covered ≡ count_covered self.now target cancel }
        ensures cancelled { result.cancelled ≡ count_cancelled_by self.now target cancel }
    {
        WaitCounts {
            covered: count_covered(&self.callbacks, target, cancel),
            cancelled: count_cancelled(&self.callbacks, target, cancel),
        }
    }

    pub(crate) fn wait_counts(&self, object: ObjectId, cancel: bool) -> WaitCounts
        requires { length self.now.callbacks < 2 ^ 32 }
        ensures covered { result.covered ≡ count_covered self.now (WaitTarget.Object object) cancel }
        ensures cancelled { result.cancelled ≡ count_cancelled_by self.now (WaitTarget.Object object) cancel }
    {
        self.counts_for(WaitTarget::Object(object), cancel)
    }

    pub(crate) fn close_counts(&self, group: GroupId, cancel: bool) -> WaitCounts
        requires { length self.now.callbacks < 2 ^ 32 }
        ensures covered { result.covered ≡ count_covered self.now (WaitTarget.Group group) cancel }
        ensures cancelled { result.cancelled ≡ count_cancelled_by self.now (WaitTarget.Group group) cancel }
    {
        self.counts_for(WaitTarget::Group(group), cancel)
    }

    pub(crate) fn count_notices(&self, group: GroupId, cancel: bool) -> u32
        requires { length self.now.objects < 2 ^ 32 }
        ensures { result ≡ length (notices_of self.now group.0 cancel) }
    {
        if cancel {
            count_noticed(&self.objects, group)
        } else {
            0
        }
    }
}
