//! The lists in which a callback stands, in three families: what it waits for, what it is outstanding for, and
//! its group. In each its key is in one list or in none.

ghost use Rattle.std.specs.Prelude.{◌≡◌, ◌+◌, ◌*◌, ◌<◌, ◌≤◌, ◌^◌, [], IfOk, IfSome, false, length, slice_get, true};
ghost use Rattle.std.specs.Option.{option_copied};
ghost use Rattle.linked_lists.specs.Linked.{AreInOrder, list_of, owner_of, place_after};
ghost use Rattle.tp_model.specs.Counts.{is_pending};
ghost use Rattle.live_callbacks.specs.Families.{AreSettled, AreSettledInGroup, HaveLists, HaveRoom, IsNowhere, IsStanding, OnlyLeaves, StandIn};
ghost use Rattle.live_callbacks.specs.Held.{IsHeldUnder, row_under};
ghost use Rattle.live_callbacks.specs.Lists.{IsAtHome, MaySettle, count_queues_of, first_queue_of, first_of_half as first_of_half_by, group_of as group_of_row, has_list as has_group_list, line_of as line_of_row, lines, object_of as object_of_row, priority_number as priority_number_of};

use crate::rows::Rows;
use linked_lists::LinkedLists;
use std::alloc::{AllocError, Global};
use steps::Steps;
use tp_base::calls::Priority;
use tp_base::ids::GroupId;
use tp_base::rows::{CallbackRow, Status};

// The three families, and for how many pools, objects and groups they have lists.
#[derive(Drop)]
pub(crate) struct Lists {
    pub pools: u32,
    pub objects: u32,
    pub groups: u32,
    // Two queues for each pool and priority, and for each object what expects its operation and what has it
    // under way.
    pub lines: LinkedLists,
    // What is outstanding, by object.
    pub outstanding: LinkedLists,
    pub by_group: LinkedLists,
}

// The list of a callback in each family, or the number of lists where it is in none.
#[derive(Clone, Copy)]
pub(crate) struct Standing {
    pub line: u32,
    pub object: u32,
    pub group: u32,
}

// The priority as the queues know it.
#[inline(always)]
pub(crate) fn priority_number(priority: Priority) -> u32
    ensures { result ≡ priority_number_of priority }
{
    match priority {
        Priority::High => 0,
        Priority::Normal => 1,
        Priority::Low => 2,
    }
}

// How many queues of a pool come before those of persistent callbacks, or of others.
#[inline(always)]
fn first_of_half(persistent: bool) -> u32
    ensures { result ≡ first_of_half_by persistent }
{
    if persistent { 3 } else { 0 }
}

// Whether a group has a list of its callbacks, where so many have one.
#[inline(always)]
pub(crate) fn has_list(groups: u32, group: GroupId) -> bool
    ensures { result ≡ has_group_list groups group.0 }
{
    0 < group.0 && group.0 <= groups
}

// The line of a callback, by its status, or this number of lines.
#[inline(always)]
fn line_of(pools: u32, objects: u32, none: u32, callback: &CallbackRow) -> u32
    requires home { IsAtHome pools objects callback.now }
    requires none { none ≡ lines pools objects }
    ensures value { result ≡ line_of_row pools objects callback.now }
    ensures within { result ≤ lines pools objects }
{
    match callback.status {
        Status::Expected => 6 * pools + 2 * callback.object.0,
        Status::Issued => 6 * pools + 2 * callback.object.0 + 1,
        Status::Pending => {
            6 * callback.pool.0
                + (first_of_half(callback.persistent) + priority_number(callback.priority))
        }
        Status::Running { .. } | Status::Returned | Status::Cancelled => none,
    }
}

// The object that a callback is outstanding for, by its status, or this one, which there can't be.
#[inline(always)]
fn object_of(objects: u32, none: u32, callback: &CallbackRow) -> u32
    requires home { callback.now.object.0 ≤ objects }
    requires none { none ≡ objects + 1 }
    ensures value { result ≡ object_of_row objects callback.now }
    ensures within { result ≤ objects + 1 }
{
    match callback.status {
        Status::Expected | Status::Issued | Status::Pending => callback.object.0,
        Status::Running { associated, .. } if associated => callback.object.0,
        Status::Running { .. } | Status::Returned | Status::Cancelled => none,
    }
}

// The group of a callback, if that has a list, or this one, which there can't be.
#[inline(always)]
fn group_of(groups: u32, none: u32, callback: &CallbackRow) -> u32
    requires { none ≡ groups + 1 }
    ensures value { result ≡ group_of_row groups callback.now }
    ensures within { result ≤ groups + 1 }
{
    if has_list(groups, callback.group) {
        callback.group.0
    } else {
        none
    }
}

// The first key of a list.
#[inline(always)]
pub(crate) fn first_in(lists: &LinkedLists, list: u32) -> Option<u32>
    requires { list < length lists.now.lists }
    ensures { result ≡ slice_get (list_of lists.now list) 0 }
{
    let mut steps = Steps::new();
    lists.first(list, &mut steps)
}

// The key that follows this one in its list.
#[inline(always)]
pub(crate) fn after_in(lists: &LinkedLists, key: u32) -> Option<u32>
    requires { owner_of lists.now key < length lists.now.lists }
    ensures { result ≡ place_after key (list_of lists.now (owner_of lists.now key)) }
{
    let mut steps = Steps::new();
    lists.after(key, &mut steps)
}

// The row under this key, lent.
#[inline(always)]
pub(crate) fn lent_under(rows: &Rows, key: Option<u32>) -> Option<&CallbackRow>
    requires { IfSome key (IsHeldUnder rows.now.held) }
    ensures { option_copied result ≡ row_under rows.now.held key }
{
    match key {
        Some(key) => Some(rows.lend(key)),
        None => None,
    }
}

impl Lists {
    // Empty lists, with the memory for so many keys.
    pub fn open(
        alloc: Global,
        pools: u32,
        objects: u32,
        groups: u32,
        places: u32,
    ) -> Result<Lists, AllocError>
        ensures pools { IfOk result (λ made. made.pools ≡ pools) }
        ensures objects { IfOk result (λ made. made.objects ≡ objects) }
        ensures empty { IfOk result (StandIn places []) }
    {
        let lines = 6 * pools as u64 + 2 * (objects as u64 + 1);
        if lines.max(groups as u64 + 1) > u32::MAX as u64 {
            return Err(AllocError);
        }
        Ok(Lists {
            pools,
            objects,
            groups,
            lines: LinkedLists::open(alloc, lines as u32, places)?,
            outstanding: LinkedLists::open(alloc, objects + 1, places)?,
            by_group: LinkedLists::open(alloc, groups + 1, places)?,
        })
    }

    // The lists of a callback.
    #[inline(always)]
    pub fn stands(&self, callback: &CallbackRow) -> Standing
        requires home { IsAtHome self.now.pools self.now.objects callback.now }
        requires lists { HaveLists self.now }
        ensures { IsStanding self.now callback.now result }
    {
        Standing {
            line: line_of(self.pools, self.objects, self.lines.lists(), callback),
            object: object_of(self.objects, self.outstanding.lists(), callback),
            group: group_of(self.groups, self.by_group.lists(), callback),
        }
    }

    // The lists of one that isn't there: none.
    #[inline(always)]
    pub fn nowhere(&self) -> Standing
        requires { HaveLists self.now }
        ensures { IsNowhere self.now result }
    {
        Standing {
            line: self.lines.lists(),
            object: self.outstanding.lists(),
            group: self.by_group.lists(),
        }
    }

    // A key of a line near to where this number belongs there. None is looked for where an end of the line tells
    // where that is.
    fn near_in(&self, rows: &Rows, line: u32, number: u64, steps: &mut Steps) -> Option<u32>
        requires fits { HaveRoom self.now }
        requires line { line < length self.now.lines.lists }
        requires order { AreInOrder self.now.lines.numbers (list_of self.now.lines line) }
        ensures near { IfSome result (λ key. owner_of self.now.lines key ≡ line) }
        ensures counted { steps.old ≤ steps.new }
    {
        if self.lines.is_at_end(line, number, steps) {
            None
        } else {
            rows.key_beside(number, &self.lines, line)
        }
    }

    // The same for the line of a callback. Only what becomes pending comes before others there.
    #[inline(always)]
    pub fn near(
        &self,
        rows: &Rows,
        callback: &CallbackRow,
        line: u32,
        steps: &mut Steps,
    ) -> Option<u32>
        requires fits { HaveRoom self.now }
        requires line { is_pending callback.now.status ≡ true → line < length self.now.lines.lists }
        requires order { line < length self.now.lines.lists → AreInOrder self.now.lines.numbers (list_of self.now.lines line) }
        ensures near { IfSome result (λ key. owner_of self.now.lines key ≡ line) }
        ensures counted { steps.old ≤ steps.new }
        ensures still { is_pending callback.now.status ≡ false → steps.new ≡ steps.old }
    {
        match callback.status {
            Status::Pending => self.near_in(rows, line, callback.number, steps),
            Status::Expected | Status::Issued => None,
            Status::Running { .. } | Status::Returned | Status::Cancelled => None,
        }
    }

    // A key of a row of this number comes to these lists, and leaves those that it was in. Into its line it comes
    // last, or as it belongs there by its number.
    #[inline(always)]
    pub fn settle(&mut self, key: u32, number: u64, to: Standing, steps: &mut Steps)
        requires line { MaySettle (lines self.old.pools self.old.objects) self.old.lines key to.line }
        requires object { MaySettle (self.old.objects + 1) self.old.outstanding key to.object }
        requires group { MaySettle (self.old.groups + 1) self.old.by_group key to.group }
        ensures settled { AreSettled self.old self.new key number to }
        ensures counted { steps.old ≤ steps.new }
    {
        self.settle_in_group(key, number, to, None, steps);
        self.by_group.move_to(to.group, None, key, number, steps);
    }

    // The same of a key that is in the list of its group already, or in none as it belongs. Into its line it comes
    // from a key near to where it belongs there, if one is told.
    #[inline(always)]
    pub fn settle_in_group(
        &mut self,
        key: u32,
        number: u64,
        to: Standing,
        near: Option<u32>,
        steps: &mut Steps,
    )
        requires near { IfSome near (λ at. owner_of self.old.lines at ≡ to.line) }
        requires line { MaySettle (lines self.old.pools self.old.objects) self.old.lines key to.line }
        requires object { MaySettle (self.old.objects + 1) self.old.outstanding key to.object }
        ensures settled { AreSettledInGroup self.old self.new key number to }
        ensures counted { steps.old ≤ steps.new }
        ensures cost { OnlyLeaves self.old key to → steps.new ≤ steps.old + 2 }
    {
        self.lines.move_to(to.line, near, key, number, steps);
        self.outstanding
            .move_to(to.object, None, key, number, steps);
    }

    // Of the queues of a pool's persistent callbacks, or of its others, the first that isn't empty, or the last.
    #[inline(always)]
    pub fn first_queue(&self, pool: u32, persistent: bool) -> u32
        requires pool { pool < self.now.pools }
        requires many { length self.now.lines.lists ≡ lines self.now.pools self.now.objects }
        requires fits { HaveRoom self.now }
        ensures { result ≡ first_queue_of self.now.lines (6 * pool + first_of_half_by persistent) }
    {
        let high = 6 * pool + first_of_half(persistent);
        if self.lines.len(high) != 0 {
            high
        } else if self.lines.len(high + 1) != 0 {
            high + 1
        } else {
            high + 2
        }
    }

    // How many are in these queues.
    #[inline(always)]
    pub fn count_queues(&self, pool: u32, persistent: bool) -> u32
        requires pool { pool < self.now.pools }
        requires many { length self.now.lines.lists ≡ lines self.now.pools self.now.objects }
        requires fits { HaveRoom self.now }
        requires few { count_queues_of self.now.lines (6 * pool + first_of_half_by persistent) < 2 ^ 32 }
        ensures { result ≡ count_queues_of self.now.lines (6 * pool + first_of_half_by persistent) }
    {
        let high = 6 * pool + first_of_half(persistent);
        self.lines.len(high) + self.lines.len(high + 1) + self.lines.len(high + 2)
    }
}
