//! The callbacks that live, with all the lists that a callback stands in, seen as the list of their rows
//! by rising number.
//!
//! `open` takes the memory, and no other call takes any. A callback comes by `push`, moves on by `change`
//! and leaves by `remove`, and each of these knows every list: the queue of its pool, where it waits for a
//! worker; what is outstanding for its object; of that what expects an operation, and what has one under
//! way; and what was made with its group. So a caller tells what becomes of a callback, and of no list.
//!
//! ```text
//! let mut callbacks = LiveCallbacks::open(alloc, 8, 2, 4, 0)?;
//! callbacks.push(first);                // number 1, of object 3 and pool 0, pending
//! callbacks.next(PoolId(0), true, &mut steps) // Some(first)
//! callbacks.change(&first, running, &mut steps);    // the same, and a worker runs it
//! callbacks.next(PoolId(0), true, &mut steps) // None
//! callbacks.first_outstanding(ObjectId(3))  // Some(running)
//! callbacks.remove(&running);
//! callbacks.first_outstanding(ObjectId(3))  // None
//! ```
//!
//! What a call costs: nothing is searched but the number of a call, once. A row stands under one key while it
//! lives, a vector of numbers leads to the keys (`rows`), and the lists are of keys (`lists`). A callback comes last
//! into the lists where it is made. Where it becomes pending later, it goes behind those of lower numbers, from an end
//! of its queue or from a number next to it (`beside`). It leaves a list in one step, wherever it stands there.

#![tactic(auto)]

ghost use Rattle.std.specs.Prelude.{◌≡◌, ℕ, ◌+◌, ◌-◌, ◌^◌, ◌<◌, ◌≤◌, ◌==◌, ◌++◌, ◌∷◌, [], All, IfOk, Some, false, true, filter, find, length, map, nat_lt, not, slice_get, if◌then◌else◌};
ghost use Rattle.std.specs.List.{list_any};
ghost use Rattle.std.specs.Option.{option_copied};
ghost use Rattle.tp_model.specs.Calls.Io.{is_expected_of, is_issued_of};
ghost use Rattle.tp_model.specs.Conditions.{is_operation_of};
ghost use Rattle.tp_model.specs.Counts.{is_operating, is_pending, is_pending_in};
ghost use Rattle.live_callbacks.specs.Callbacks.{MovesOn, is_open, is_waiting_persistent, outstanding_among, queue_among};
ghost use Rattle.live_callbacks.specs.Queues.{half_among, is_pending_half, sooner_of};

use std::alloc::{AllocError, Global};
use std::marker::Model;
use steps::Steps;
use tp_base::ids::{GroupId, ObjectId, PoolId};
use tp_base::rows::{CallbackRow, Status};
use tp_model::KeepsCallbacks;

mod beside;
mod lists;
mod places;
mod rows;

use lists::{Lists, after_in, first_in, has_list, lent_under, priority_number};
use rows::Rows;

/// The callbacks that live.
#[derive(Drop)]
pub struct LiveCallbacks {
    rows: Rows,
    lists: Lists,
    // How many expect an operation or have it under way.
    operating: u32,
    // How many are persistent and pending.
    persistent: u32,
}

impl Model for LiveCallbacks {
    ghost use Rattle.std.specs.Prelude.{map};
    ghost use Rattle.live_callbacks.specs.Callbacks.{Callbacks};

    ghost Value = { Callbacks };

    ghost use Rattle.live_callbacks.specs.Held.{rows_of};
    ghost use Rattle.live_callbacks.specs.Kept.{IsKept};

    ghost view = { λ a. record {
      slots = a.rows.slots;
      pools = a.lists.pools;
      objects = a.lists.objects;
      rows = rows_of a.rows.held;
    } };

    ghost invariant = { IsKept };
}

impl KeepsCallbacks for LiveCallbacks {
    ghost rows = { λ c. c.rows };
}

// One where a callback expects an operation or has it under way, else none.
#[inline(always)]
fn operations(callback: &CallbackRow) -> u32
    ensures { result ≡ if is_operating callback.now.status then 1 else 0 }
{
    match callback.status {
        Status::Expected | Status::Issued => 1,
        Status::Pending | Status::Running { .. } | Status::Returned | Status::Cancelled => 0,
    }
}

// One where a callback is persistent and pending, else none.
#[inline(always)]
fn waiting_persistent(callback: &CallbackRow) -> u32
    ensures value { result ≡ if is_waiting_persistent callback.now then 1 else 0 }
    ensures most { result ≤ 1 }
    ensures others { callback.now.persistent ≡ false → result ≡ 0 }
{
    u32::from(callback.persistent && matches!(callback.status, Status::Pending))
}

// Counts a callback anew, of which `was` was counted and `is` is to be: nothing, unless it is persistent.
#[inline(always)]
fn recount(count: &mut u32, persistent: bool, was: u32, is: u32)
    requires was { persistent ≡ false → was ≡ 0 }
    requires is { persistent ≡ false → is ≡ 0 }
    requires there { was ≤ count.old }
    requires fits { count.old - was + is < 2 ^ 32 }
    ensures { count.new ≡ count.old - was + is }
{
    if persistent {
        *count = *count - was + is;
    }
}

// Which of two callbacks is taken before the other.
#[inline(always)]
fn sooner<'a>(
    one: Option<&'a CallbackRow>,
    other: Option<&'a CallbackRow>,
) -> Option<&'a CallbackRow>
    ensures { option_copied result ≡ sooner_of (option_copied one.entry) (option_copied other.entry) }
{
    match (one, other) {
        (None, other) => other,
        (one, None) => one,
        (Some(a), Some(b)) => {
            let (first, second) = (priority_number(a.priority), priority_number(b.priority));
            if first < second || (first == second && a.number <= b.number) {
                Some(a)
            } else {
                Some(b)
            }
        }
    }
}

impl LiveCallbacks {
    /// No callbacks, with the memory for `slots` of them, of pools below `pools` and of objects up to `objects`.
    ///
    /// `groups` is how many groups have a list of their callbacks; those of any other, and of group 0, which
    /// stands for none, are found one after another. An `AllocError` comes where the memory can't be had.
    pub fn open(
        alloc: Global,
        slots: u32,
        pools: u32,
        objects: u32,
        groups: u32,
    ) -> Result<LiveCallbacks, AllocError>
        requires { objects + 1 < 2 ^ 32 }
        ensures { IfOk result (λ live. live ≡ record { slots = slots; pools = pools; objects = objects; rows = [] }) }
    {
        let rows = Rows::open(alloc, slots)?;
        let lists = Lists::open(alloc, pools, objects, groups, rows.places())?;
        Ok(LiveCallbacks {
            rows,
            lists,
            operating: 0,
            persistent: 0,
        })
    }

    /// How many callbacks live. There are never more than slots.
    #[inline(always)]
    pub fn len(&self) -> u32
        ensures value { result ≡ length self.now.rows }
        ensures limited { length self.now.rows ≤ self.now.slots }
    {
        self.rows.len()
    }

    /// The callback of this number, lent, or None where no such callback lives. Who looks at a part of it, or
    /// hands it on, copies no more than that.
    #[inline(always)]
    pub fn get(&self, number: u64) -> Option<&CallbackRow>
        ensures { option_copied result ≡ find (λ c. c.number == number) self.now.rows }
    {
        self.rows.get(number)
    }

    /// The first callback whose number is above this one, or None where there is none.
    #[inline(always)]
    pub fn after(&self, number: u64) -> Option<CallbackRow>
        ensures { result ≡ find (λ c. nat_lt number c.number) self.now.rows }
    {
        self.rows.after(number)
    }

    /// The first callback of a group, lent, or None where it has none.
    #[inline(always)]
    pub fn first_of_group(&self, group: GroupId) -> Option<&CallbackRow>
        ensures { option_copied result ≡ find (λ c. c.group.0 == group.0) self.now.rows }
    {
        if !has_list(self.lists.groups, group) {
            return self.rows.first_of_group(group);
        }
        let _known = self.rows.len();
        lent_under(&self.rows, first_in(&self.lists.by_group, group.0))
    }

    /// The callback that follows this one in its group, lent, or None where it is the last.
    #[inline(always)]
    pub fn next_of_group(&self, row: &CallbackRow) -> Option<&CallbackRow>
        requires { find (λ c. c.number == row.now.number) self.now.rows ≡ Some row.now }
        ensures { option_copied result ≡ find (λ c. nat_lt row.now.number c.number) (filter (λ c. c.group.0 == row.now.group.0) self.now.rows) }
    {
        if !has_list(self.lists.groups, row.group) {
            return self.rows.next_of_group(row.number, row.group);
        }
        let _known = self.rows.len();
        let key = self.rows.key_of(row.number).unwrap();
        lent_under(&self.rows, after_in(&self.lists.by_group, key))
    }

    // Of a pool's persistent callbacks, or of its others, the one that is taken next.
    #[inline(always)]
    fn first_of_half(
        &self,
        pool: PoolId,
        persistent: bool,
        steps: &mut Steps,
    ) -> Option<&CallbackRow>
        ensures value { option_copied result ≡ slice_get (half_among self.now.rows pool.0 persistent) 0 }
        ensures counted { steps.old ≤ steps.new }
        ensures bound { steps.new ≤ steps.old + 1 }
    {
        let _known = self.rows.len();
        let key = if pool.0 < self.lists.pools {
            let line = self.lists.first_queue(pool.0, persistent);
            self.lists.lines.first(line, steps)
        } else {
            None
        };
        lent_under(&self.rows, key)
    }

    /// Whether no persistent callback is pending, in any pool. Then who takes only others takes all.
    #[inline(always)]
    pub fn is_none_persistent(&self) -> bool
        ensures value { result ≡ not (list_any is_waiting_persistent self.now.rows) }
        ensures alike { (pool : ℕ) → result ≡ true → queue_among self.now.rows pool true ≡ queue_among self.now.rows pool false }
    {
        self.persistent == 0
    }

    /// The pending callback of a pool that is taken next, by who takes persistent ones too (`all`) or only others,
    /// or None where none of these is pending: that of the highest priority, and among those of one priority that
    /// of the least number. Of a pool that there can't be none is pending. `steps` counts the nodes that it reads,
    /// however many are pending: two at most, and one where none is persistent that is pending.
    #[inline(always)]
    pub fn next(&self, pool: PoolId, all: bool, steps: &mut Steps) -> Option<&CallbackRow>
        ensures value { option_copied result ≡ slice_get (queue_among self.now.rows pool.0 all) 0 }
        ensures counted { steps.old ≤ steps.new }
        ensures bound { steps.new ≤ steps.old + 2 }
        ensures fewer { list_any is_waiting_persistent self.now.rows ≡ false → steps.new ≤ steps.old + 1 }
    {
        let first = self.first_of_half(pool, false, steps);
        if !all || self.persistent == 0 {
            return first;
        }
        sooner(first, self.first_of_half(pool, true, steps))
    }

    // How many of a pool's persistent callbacks are pending, or of its others.
    #[inline(always)]
    fn count_half(&self, pool: PoolId, persistent: bool) -> u32
        ensures { result ≡ length (filter (is_pending_half pool.0 persistent) self.now.rows) }
    {
        if pool.0 >= self.lists.pools {
            return 0;
        }
        let _known = self.rows.len();
        self.lists.count_queues(pool.0, persistent)
    }

    /// How many callbacks of a pool are pending that one may take who takes persistent ones too (`all`), or only
    /// others.
    #[inline(always)]
    pub fn takeable(&self, pool: PoolId, all: bool) -> u32
        ensures { result ≡ length (filter (is_open pool.0 all) self.now.rows) }
    {
        let count = self.count_half(pool, false);
        if !all || self.persistent == 0 {
            return count;
        }
        let _known = self.rows.len();
        count + self.count_half(pool, true)
    }

    /// How many callbacks of a pool are pending.
    #[inline(always)]
    pub fn pending(&self, pool: PoolId) -> u32
        ensures value { result ≡ length (filter (is_pending_in pool.0) self.now.rows) }
        ensures all { result ≡ length (filter (is_open pool.0 true) self.now.rows) }
    {
        self.takeable(pool, true)
    }

    /// How many callbacks are outstanding for an object. Those that have no object are outstanding for object 0.
    #[inline(always)]
    pub fn count_outstanding(&self, object: ObjectId) -> u32
        ensures { result ≡ length (outstanding_among self.now.rows object) }
    {
        if object.0 > self.lists.objects {
            return 0;
        }
        self.lists.outstanding.len(object.0)
    }

    /// The first callback that is outstanding for an object, lent, or None where none is. Those that have no
    /// object are outstanding for object 0.
    #[inline(always)]
    pub fn first_outstanding(&self, object: ObjectId) -> Option<&CallbackRow>
        ensures { option_copied result ≡ slice_get (outstanding_among self.now.rows object) 0 }
    {
        if object.0 > self.lists.objects {
            return None;
        }
        let _known = self.rows.len();
        lent_under(&self.rows, first_in(&self.lists.outstanding, object.0))
    }

    /// The callback that follows this one among those that are outstanding for its object, lent, or None where
    /// it is the last.
    #[inline(always)]
    pub fn next_outstanding(&self, row: &CallbackRow) -> Option<&CallbackRow>
        requires { find (λ c. c.number == row.now.number) (outstanding_among self.now.rows row.now.object) ≡ Some row.now }
        ensures { option_copied result ≡ find (λ c. nat_lt row.now.number c.number) (outstanding_among self.now.rows row.now.object) }
    {
        let _known = self.rows.len();
        let key = self.rows.key_of(row.number).unwrap();
        lent_under(&self.rows, after_in(&self.lists.outstanding, key))
    }

    /// The callback of an object that has expected its operation longest, or None where none expects one.
    #[inline(always)]
    pub fn first_expected(&self, object: ObjectId) -> Option<CallbackRow>
        ensures { result ≡ find (is_expected_of object.0) self.now.rows }
    {
        if object.0 > self.lists.objects {
            return None;
        }
        let _known = self.rows.len();
        let expected = 6 * self.lists.pools + 2 * object.0;
        lent_under(&self.rows, first_in(&self.lists.lines, expected)).copied()
    }

    /// The first callback of an object whose operation is under way, or None where none is.
    #[inline(always)]
    pub fn first_issued(&self, object: ObjectId) -> Option<CallbackRow>
        ensures { result ≡ find (is_issued_of object.0) self.now.rows }
    {
        if object.0 > self.lists.objects {
            return None;
        }
        let _known = self.rows.len();
        let issued = 6 * self.lists.pools + 2 * object.0 + 1;
        lent_under(&self.rows, first_in(&self.lists.lines, issued)).copied()
    }

    /// Whether a callback of an object expects an operation or has it under way.
    #[inline(always)]
    pub fn is_operating(&self, object: ObjectId) -> bool
        ensures { result ≡ list_any (is_operation_of object.0) self.now.rows }
    {
        if object.0 > self.lists.objects {
            return false;
        }
        let expected = 6 * self.lists.pools + 2 * object.0;
        self.lists.lines.len(expected) != 0 || self.lists.lines.len(expected + 1) != 0
    }

    /// Whether any callback expects an operation or has it under way.
    #[inline(always)]
    pub fn are_operating(&self) -> bool
        ensures { result ≡ list_any (λ c. is_operating c.status) self.now.rows }
    {
        self.operating != 0
    }

    /// A callback is made. Its number is above all the others', its pool is below `pools` and its object up to
    /// `objects`, and there is a slot left. It comes into the lists of its status.
    #[inline(always)]
    pub fn push(&mut self, row: CallbackRow)
        requires room { length self.old.rows < self.old.slots }
        requires pool { row.pool.0 < self.old.pools }
        requires object { row.object.0 ≤ self.old.objects }
        requires last { All (λ c. c.number < row.number) self.old.rows }
        ensures { self.new ≡ record self.old { rows = self.old.rows ++ row ∷ [] } }
    {
        let mut steps = Steps::new();
        let _known = self.rows.len();
        let to = self.lists.stands(&row);
        let key = self.rows.push(row);
        self.operating += operations(&row);
        let is = waiting_persistent(&row);
        recount(&mut self.persistent, row.persistent, 0, is);
        self.lists.settle(key, row.number, to, &mut steps);
    }

    /// A callback moves on: `after` comes in the place of `before`, which is its row as it stands.
    ///
    /// It stays of its number, object, pool, group and priority, and persistent if it was. It leaves the lists that
    /// its status is no longer for, and comes to the queue of its pool where it is pending now. Outstanding,
    /// expected or operating it is afterwards only if it was so before.
    ///
    /// It counts the nodes that it reads: two at most where the callback is neither pending then nor has its
    /// operation under way, however many others there are.
    #[inline(always)]
    pub fn change(&mut self, before: &CallbackRow, after: CallbackRow, steps: &mut Steps)
        requires found { find (λ c. c.number == before.now.number) self.old.rows ≡ Some before.now }
        requires goes { MovesOn before.now after }
        ensures moved { self.new ≡ record self.old { rows = map (λ c. if c.number == after.number then after else c) self.old.rows } }
        ensures counted { steps.old ≤ steps.new }
        ensures bound { is_pending after.status ≡ false → is_operating after.status ≡ false → steps.new ≤ steps.old + 2 }
    {
        let _known = self.rows.len();
        let to = self.lists.stands(&after);
        let key = self.rows.key_of(after.number).unwrap();
        let near = self.lists.near(&self.rows, &after, to.line, steps);
        self.rows.replace(key, after);
        self.operating -= operations(before) - operations(&after);
        let (was, is) = (waiting_persistent(before), waiting_persistent(&after));
        recount(&mut self.persistent, before.persistent, was, is);
        self.lists
            .settle_in_group(key, after.number, to, near, steps);
    }

    /// A callback leaves, of which this is the row as it stands.
    #[inline(always)]
    pub fn remove(&mut self, row: &CallbackRow)
        requires { find (λ c. c.number == row.now.number) self.old.rows ≡ Some row.now }
        ensures { self.new ≡ record self.old { rows = filter (λ c. not (c.number == row.now.number)) self.old.rows } }
    {
        let mut steps = Steps::new();
        let _known = self.rows.len();
        let to = self.lists.nowhere();
        let key = self.rows.remove(row.number).unwrap();
        self.operating -= operations(row);
        let was = waiting_persistent(row);
        recount(&mut self.persistent, row.persistent, was, 0);
        self.lists.settle(key, row.number, to, &mut steps);
    }
}
