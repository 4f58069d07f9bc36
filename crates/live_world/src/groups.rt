//! Cleanup groups, and what a close of one would make of its members.

ghost use Rattle.std.specs.Prelude.{◌≡◌, ◌+◌, ◌<◌, ◌≤◌, if◌then◌else◌, filter, length, true};
ghost use Rattle.tp_model.specs.Groups.{has_simple, first_operating};
ghost use Rattle.tp_model.specs.Waits.{is_cancelled_by};
ghost use Rattle.tp_model.specs.Calls.Waits.{count_covered, count_cancelled_by};
ghost use Rattle.tp_model.specs.Support.Allowed.{IsAllowed};
ghost use Rattle.live_world.specs.Closing.{is_of_group, lesser, operates};
ghost use Rattle.live_world.specs.Live.{moved};

use crate::LiveWorld;
use crate::callbacks::{is_operating, is_pending};
use object_rows::ObjectRows;
use tp_base::ids::GroupId;
use tp_base::plans::Change;
use tp_base::rows::{CallbackRow, WaitTarget};
use world_reads::WaitCounts;

// How many callbacks are kept of a group, and how many of them are pending.
#[derive(Clone, Copy)]
struct OfGroup {
    all: u32,
    pending: u32,
}

impl OfGroup {
    const NONE: OfGroup = OfGroup { all: 0, pending: 0 };

    // One callback more, if it is of the group.
    fn with(self, group: GroupId, callback: &CallbackRow) -> OfGroup
        requires fits { self.all < 65535 }
        requires pending { self.pending ≤ self.all }
        ensures all { result.all ≡ self.all + (if is_of_group group callback.now then 1 else 0) }
        ensures pending { result.pending ≡ self.pending + (if is_cancelled_by (WaitTarget.Group group) true callback.now then 1 else 0) }
    {
        let of_group = callback.group.0 == group.0;
        OfGroup {
            all: self.all + u32::from(of_group),
            pending: self.pending + u32::from(is_pending(callback) && of_group),
        }
    }
}

// The lesser of two numbers, where there is a first one.
fn lesser(least: Option<u32>, number: u32) -> Option<u32>
    ensures { result ≡ lesser least number }
{
    match least {
        None => Some(number),
        Some(least) => {
            if number < least {
                Some(number)
            } else {
                Some(least)
            }
        }
    }
}

// The least of the group's members that are known to operate, with one callback more.
fn least_with(
    objects: &ObjectRows,
    group: GroupId,
    least: Option<u32>,
    callback: &CallbackRow,
) -> Option<u32>
    ensures { result ≡ (if operates objects.now.objects group.0 callback.now then lesser least callback.now.object.0 else least) }
{
    if is_operating(callback) && objects.is_member(group, callback.object.0) {
        lesser(least, callback.object.0)
    } else {
        least
    }
}

impl LiveWorld {
    // The least of the group's members of which an operation is expected or under way, if there is
    // one. Where there is an operation at all it walks the callbacks, and no objects.
    pub(crate) fn first_operating(&self, group: GroupId) -> Option<u32>
        ensures { result ≡ first_operating self.now.world group.0 }
    {
        if !self.callbacks.are_operating() {
            return None;
        }
        self.is_reachable();
        let mut least = None;
        let mut next = self.callbacks.after(0);
        while let Some(callback) = next {
            least = least_with(&self.objects, group, least, &callback);
            next = self.callbacks.after(callback.number);
        }
        least
    }

    // Whether a callback that has no object is outstanding for the group, disassociated or not. Walks
    // the callbacks of the group.
    pub(crate) fn has_simple(&self, group: GroupId) -> bool
        ensures { result ≡ has_simple self.now.world group }
    {
        self.is_reachable();
        let mut next = self.callbacks.first_of_group(group);
        while let Some(callback) = next {
            if callback.object.0 == 0 {
                return true;
            }
            next = self.callbacks.next_of_group(callback);
        }
        false
    }

    // How many callbacks are kept of the group, and how many of those are pending. Walks the callbacks
    // of the group.
    fn count_of_group(&self, group: GroupId) -> OfGroup
        ensures all { result.all ≡ length (filter (is_of_group group) self.now.world.callbacks) }
        ensures pending { result.pending ≡ length (filter (is_cancelled_by (WaitTarget.Group group) true) self.now.world.callbacks) }
    {
        self.is_reachable();
        let mut count = OfGroup::NONE;
        let mut next = self.callbacks.first_of_group(group);
        while let Some(callback) = next {
            count = count.with(group, callback);
            next = self.callbacks.next_of_group(callback);
        }
        count
    }

    // How many callbacks a close of the group would cover, and how many it would cancel before. Walks
    // the callbacks of the group.
    pub(crate) fn close_counts(&self, group: GroupId, cancel: bool) -> WaitCounts
        ensures covered { result.covered ≡ count_covered self.now.world (WaitTarget.Group group) cancel }
        ensures cancelled { result.cancelled ≡ count_cancelled_by self.now.world (WaitTarget.Group group) cancel }
    {
        self.is_reachable();
        let count = self.count_of_group(group);
        if cancel {
            WaitCounts {
                covered: count.all - count.pending,
                cancelled: count.pending,
            }
        } else {
            WaitCounts {
                covered: count.all,
                cancelled: 0,
            }
        }
    }

    // Makes a group.
    pub(crate) fn create_group(&mut self)
        requires { IsAllowed (self.old.made + 1) self.old.world Change.CreateGroup }
        ensures { self.new ≡ moved self.old Change.CreateGroup }
    {
        self.objects.create_group();
    }

    // Closes a group.
    pub(crate) fn close_group(&mut self, group: GroupId)
        requires { IsAllowed (self.old.made + 1) self.old.world (Change.CloseGroup group) }
        ensures { self.new ≡ moved self.old (Change.CloseGroup group) }
    {
        self.objects.close_group(group);
    }
}
