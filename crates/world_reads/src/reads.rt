//! The trait of what can be read of a world.

ghost use Rattle.std.specs.Prelude.{◌≡◌, ℕ, ◌+◌, ◌^◌, ◌<◌, ◌≤◌, ◌&&◌, ◌==◌, None, Some, false, filter, find, if◌then◌else◌, length, nat_lt, not, slice_get, true};
ghost use Rattle.std.specs.List.{list_any, range_with_len};
ghost use Rattle.std.specs.Option.{option_copied};
ghost use Rattle.tp_base.specs.Actions.{is_for};
ghost use Rattle.tp_base.specs.Armings.{is_set};
ghost use Rattle.tp_base.specs.Kernels.{is_event, is_lock, is_semaphore, is_waitable, may_take, owns, passes_by};
ghost use Rattle.tp_base.specs.Ranges.{AreLimitsInRange};
ghost use Rattle.tp_base.specs.Timers.{clock_end};
ghost use Rattle.tp_base.specs.declared.ids.Who.TheVariants.{Worker};
ghost use Rattle.tp_base.specs.declared.rows.WaitTarget.TheVariants.{Group, Object};
ghost use Rattle.tp_base.specs.declared.plans.Trigger.TheVariants.{Advance, SetWait};
ghost use Rattle.tp_model.specs.World.{World};
ghost use Rattle.tp_model.specs.Actions.{returning, words_of};
ghost use Rattle.tp_model.specs.Calls.Io.{first_expected, first_issued};
ghost use Rattle.tp_model.specs.Calls.Timers.{count_expiring};
ghost use Rattle.tp_model.specs.Calls.WaitObjects.{lacks_slots_after};
ghost use Rattle.tp_model.specs.Calls.Waits.{count_cancelled_by, count_covered};
ghost use Rattle.tp_model.specs.Conditions.{has_operations, is_closed_group, is_in_wait, is_no_group_or_group, is_object, is_object_of, is_released, lacks_slots_for, runs_callback};
ghost use Rattle.tp_model.specs.Counts.{callback_of, is_pending, next, numbered, takeable};
ghost use Rattle.tp_model.specs.Groups.{first_member, first_operating, has_simple, is_group, notices_of};
ghost use Rattle.tp_model.specs.Kernels.{count_at, is_kernel, is_kernel_that};
ghost use Rattle.tp_model.specs.Sources.{count_fired};
ghost use Rattle.tp_model.specs.Stalled.{is_free};
ghost use Rattle.tp_model.specs.Support.Remembered.{forget};
ghost use Rattle.tp_model.specs.Support.Sound.{IsSound};
ghost use Rattle.tp_model.specs.Waits.{count_outstanding};
ghost use Rattle.world_reads.specs.Tally.{tally_of};
ghost use Rattle.world_reads.specs.Progress.{progress_of};

use crate::{Progress, Tally, WaitCounts};
use steps::Steps;
use tp_base::answers::ActionKind;
use tp_base::calls::{Kind, Lock};
use tp_base::ids::{GroupId, KernelId, ObjectId, PoolId, Who};
use tp_base::limits::Limits;
use tp_base::plans::{ActionWords, Trigger};
use tp_base::rows::{CallbackRow, ClientRow, ObjectRow, PoolRow, Slots, WorkerRow};

/// A world of the thread pool machine that can be read, without the callbacks that are over.
///
/// Who implements it owes two things. `world_of` and `made_of` are the world that it is seen as and how many
/// callbacks were ever made, and each call answers what the model says of that world: for any number, also of a thing
/// that was never made. And the world is one that calls lead to: `is_reachable` is where that is proved, so it is an
/// invariant of the type. A world that begins as `forget (opening limits)`, with limits in range, and moves on by
/// changes that are allowed alone, each time without what is over then, keeps all of it.
pub trait Reads {
    /// The world, without the callbacks that are over.
    ghost world_of: { Self → World };

    /// How many callbacks were ever made.
    ghost made_of: { Self → ℕ };

    /// What is true of every world that is read. It does nothing: who calls it knows this.
    fn is_reachable(&self)
        ensures sound { IsSound (made_of self.now + 1) (world_of self.now) }
        ensures living { forget (world_of self.now) ≡ world_of self.now }
        ensures limits { AreLimitsInRange (world_of self.now).limits }
        ensures clients { length (world_of self.now).clients ≡ (world_of self.now).limits.clients }
        ensures workers { length (world_of self.now).workers ≡ (world_of self.now).limits.workers }
        ensures groups { length (world_of self.now).groups ≤ (world_of self.now).limits.groups }
        ensures objects { length (world_of self.now).objects ≤ (world_of self.now).limits.objects }
        ensures kernels { length (world_of self.now).kernels ≤ (world_of self.now).limits.kernels };

    /// The limits of the machine: how many there may be of each thing.
    fn limits(&self) -> Limits
        ensures { result ≡ (world_of self.now).limits };

    // ---- who makes calls

    /// The row of a client, if there is one of this number. The first client has the number 1.
    fn client(&self, number: u32) -> Option<ClientRow>
        ensures { result ≡ numbered (world_of self.now).clients number };

    /// The row of a worker, if there is one of this number. The first worker has the number 1.
    fn worker(&self, number: u32) -> Option<WorkerRow>
        ensures { result ≡ numbered (world_of self.now).workers number };

    /// How many workers run a callback.
    fn busy_workers(&self) -> u32
        ensures { result ≡ length (filter (λ number. runs_callback (world_of self.now) (Worker number)) (range_with_len 1 (length (world_of self.now).workers))) };

    /// How many workers have a wait begun.
    fn waiting_workers(&self) -> u32
        ensures { result ≡ length (filter (λ number. is_in_wait (world_of self.now) (Worker number)) (range_with_len 1 (length (world_of self.now).workers))) };

    /// Whether a worker is free: it runs nothing, and isn't the persistent worker of a pool that is open.
    fn is_any_free(&self) -> bool
        ensures { result ≡ list_any (is_free (world_of self.now)) (world_of self.now).workers };

    // ---- pools

    /// How many pools were made, the default pool among them, which is also the number that the
    /// next pool gets.
    fn next_pool(&self) -> u32
        ensures { result ≡ length (world_of self.now).pools };

    /// The row of a pool, if one of this number was made. The default pool has the number 0.
    fn pool(&self, pool: PoolId) -> Option<PoolRow>
        ensures { result ≡ slice_get (world_of self.now).pools pool.0 };

    /// What is counted of a pool, whether it was made or not.
    fn tally(&self, pool: PoolId) -> Tally
        ensures { result ≡ tally_of (world_of self.now) pool.0 };

    /// How many pending callbacks of a pool a worker of it may take, who is its persistent worker or isn't.
    fn takeable(&self, pool: PoolId, persistent: bool) -> u32
        ensures { result ≡ takeable (world_of self.now) pool.0 persistent };

    /// The callback that a worker of the pool takes next, who is its persistent worker or isn't, if it may take
    /// one. `steps` counts the nodes of lists that are read to find it, where there are lists: two at most, and one
    /// where none is persistent that is pending.
    fn next(&self, pool: PoolId, persistent: bool, steps: &mut Steps) -> Option<&CallbackRow>
        ensures value { option_copied result ≡ next (world_of self.now) pool.0 persistent }
        ensures counted { steps.old ≤ steps.new }
        ensures bound { steps.new ≤ steps.old + 2 }
        ensures fewer { list_any (λ c. is_pending c.status && c.persistent) (world_of self.now).callbacks ≡ false → steps.new ≤ steps.old + 1 };

    // ---- groups and objects

    /// How many groups were made. They have the numbers from 1 on.
    fn groups(&self) -> u32
        ensures { result ≡ length (world_of self.now).groups };

    /// Whether a group of this number was made.
    fn is_group(&self, group: GroupId) -> bool
        ensures { result ≡ is_group (world_of self.now) group.0 };

    /// Whether a group of this number was made, or the number is 0, which stands for no group.
    fn is_no_group_or_group(&self, group: GroupId) -> bool
        ensures { result ≡ is_no_group_or_group (world_of self.now) group.0 };

    /// Whether the group was made and closed.
    fn is_closed_group(&self, group: GroupId) -> bool
        ensures { result ≡ is_closed_group (world_of self.now) group.0 };

    /// The least of the group's members, if it has any.
    fn first_member(&self, group: GroupId) -> Option<u32>
        requires { is_group (world_of self.now) group.0 ≡ true }
        ensures { result ≡ first_member (world_of self.now) group.0 };

    /// The least of the group's members of which an operation is expected or under way, if there is one.
    fn first_operating(&self, group: GroupId) -> Option<u32>
        ensures { result ≡ first_operating (world_of self.now) group.0 };

    /// Whether a callback that has no object is outstanding for the group, disassociated or not.
    fn has_simple(&self, group: GroupId) -> bool
        ensures { result ≡ has_simple (world_of self.now) group };

    /// How many callbacks a close of the group would cover, and how many it would cancel before.
    fn close_counts(&self, group: GroupId, cancel: bool) -> WaitCounts
        ensures covered { result.covered ≡ count_covered (world_of self.now) (Group group) cancel }
        ensures cancelled { result.cancelled ≡ count_cancelled_by (world_of self.now) (Group group) cancel };

    /// How many notices a close of the group would give: with cancel one of each member that has a
    /// cancel routine.
    fn count_notices(&self, group: GroupId, cancel: bool) -> u32
        requires { is_group (world_of self.now) group.0 ≡ true }
        ensures { result ≡ length (notices_of (world_of self.now) group.0 cancel) };

    /// How many objects were made. They have the numbers from 1 on.
    fn objects(&self) -> u32
        ensures { result ≡ length (world_of self.now).objects };

    /// The row of an object, if one of this number was made.
    fn object(&self, object: ObjectId) -> Option<ObjectRow>
        ensures { result ≡ numbered (world_of self.now).objects object.0 };

    /// Whether an object of this number was made.
    fn is_object(&self, object: ObjectId) -> bool
        ensures { result ≡ is_object (world_of self.now) object.0 };

    /// Whether an object of this number was made, of this kind.
    fn is_object_of(&self, kind: Kind, object: ObjectId) -> bool
        ensures { result ≡ is_object_of (world_of self.now) kind object.0 };

    /// Whether the object was made and released.
    fn is_released(&self, object: ObjectId) -> bool
        ensures { result ≡ is_released (world_of self.now) object.0 };

    /// Whether an object of the pool isn't released.
    fn has_object_of(&self, pool: PoolId) -> bool
        ensures { result ≡ list_any (λ o. not o.released && (o.env.pool.0 == pool.0)) (world_of self.now).objects };

    // ---- callbacks

    /// The number that the next callback gets.
    fn next_number(&self) -> u64
        requires { made_of self.now < 2 ^ 63 }
        ensures { result ≡ made_of self.now + 1 };

    /// The callback of a number, if it lives.
    fn callback(&self, number: u64) -> Option<&CallbackRow>
        ensures { option_copied result ≡ callback_of (world_of self.now) number };

    /// The callback of least number above this one, if there is one.
    fn callback_after(&self, number: u64) -> Option<CallbackRow>
        ensures { result ≡ find (λ c. nat_lt number c.number) (world_of self.now).callbacks };

    /// The first callback of the object that expects an operation, if there is one.
    fn first_expected(&self, object: ObjectId) -> Option<CallbackRow>
        ensures { result ≡ first_expected (world_of self.now) object.0 };

    /// The first callback of the object whose operation is under way, if there is one.
    fn first_issued(&self, object: ObjectId) -> Option<CallbackRow>
        ensures { result ≡ first_issued (world_of self.now) object.0 };

    /// Whether an operation of the object is expected or under way.
    fn is_operating(&self, object: ObjectId) -> bool
        ensures { result ≡ has_operations (world_of self.now) object.0 };

    /// Whether a callback of the object is outstanding.
    fn is_outstanding(&self, object: ObjectId) -> bool
        ensures { result ≡ nat_lt 0 (count_outstanding (Object object) (world_of self.now)) };

    /// Whether there is no slot for so many more callbacks: each callback has one, and so has each
    /// armed wait.
    fn lacks_slots(&self, count: u32) -> bool
        ensures { result ≡ lacks_slots_for (world_of self.now) count };

    /// Whether there would be no slot for what is there once a wait is set: with a kernel object it
    /// has one, as a callback or as an armed wait, and the one of its old arming is free.
    fn lacks_slots_to_set(
        &self,
        object: ObjectId,
        kernel: Option<KernelId>,
        timeout: Option<i64>,
    ) -> bool
        ensures { result ≡ lacks_slots_after (world_of self.now) (SetWait object kernel timeout) };

    // ---- waits

    /// Whether the actor has a wait begun.
    fn is_in_wait(&self, who: Who) -> bool
        ensures { result ≡ is_in_wait (world_of self.now) who };

    /// How many callbacks a wait for the object would cover, and how many it would cancel before.
    fn wait_counts(&self, object: ObjectId, cancel: bool) -> WaitCounts
        ensures covered { result.covered ≡ count_covered (world_of self.now) (Object object) cancel }
        ensures cancelled { result.cancelled ≡ count_cancelled_by (world_of self.now) (Object object) cancel };

    /// How far the actor's wait has come, where the history has this room left.
    fn progress(&self, who: Who, room: u64) -> Progress
        ensures { result ≡ progress_of (world_of self.now) room who };

    // ---- the clock and what is set

    /// The moment of the clock, in units of 100 ns.
    fn now(&self) -> u64
        ensures now { result ≡ (world_of self.now).now }
        ensures within { result ≤ clock_end };

    /// Whether an object is set: a timer, or a wait with a timeout.
    fn is_set(&self, object: ObjectId) -> bool
        ensures { result ≡ is_set object.0 (world_of self.now).settings };

    /// How many callbacks come of what is due, if the clock comes to a moment, or None where there is no
    /// slot for all of it. An armed wait whose timeout is due has one.
    fn count_due(&self, now: u64) -> Option<u32>
        ensures { result ≡ if lacks_slots_for (world_of self.now) (count_expiring (world_of self.now) now) then None else Some (count_fired (world_of self.now) (Advance now)) };

    /// How many callbacks a trigger would make.
    fn count_fired(&self, trigger: &Trigger) -> u32
        ensures { result ≡ count_fired (world_of self.now) trigger.now };

    /// What becomes of the actions that a callback asked for, if the actor returns from it now.
    fn words(&self, who: Who, slots: &Slots) -> ActionWords
        ensures { result ≡ words_of (world_of self.now) who slots.now };

    /// How many callbacks a return of the actor would make, whose actions on return have these words.
    fn count_returned(&self, who: Who, slots: &Slots, words: &ActionWords) -> u32
        requires { words.now ≡ words_of (world_of self.now) who slots.now }
        ensures { result ≡ length (returning (world_of self.now) words.now slots.now).jobs };

    // ---- kernel objects

    /// How many kernel objects were made. They have the numbers from 1 on.
    fn kernels(&self) -> u32
        ensures { result ≡ length (world_of self.now).kernels };

    /// Whether a kernel object of this number was made.
    fn is_kernel(&self, kernel: KernelId) -> bool
        ensures { result ≡ is_kernel (world_of self.now) kernel.0 };

    /// Whether an event of this number was made.
    fn is_event(&self, kernel: KernelId) -> bool
        ensures { result ≡ is_kernel_that is_event (world_of self.now) kernel.0 };

    /// Whether a semaphore of this number was made.
    fn is_semaphore(&self, kernel: KernelId) -> bool
        ensures { result ≡ is_kernel_that is_semaphore (world_of self.now) kernel.0 };

    /// Whether an event or a semaphore of this number was made, on which a wait object can be armed.
    fn is_waitable(&self, kernel: KernelId) -> bool
        ensures { result ≡ is_kernel_that is_waitable (world_of self.now) kernel.0 };

    /// Whether a mutex of this number was made, or a critical section.
    fn is_lock(&self, lock: Lock, kernel: KernelId) -> bool
        ensures { result ≡ is_kernel_that (is_lock lock) (world_of self.now) kernel.0 };

    /// Whether the kernel object of this number is of the kind that an action on return is for.
    fn is_for(&self, kind: ActionKind, kernel: KernelId) -> bool
        ensures { result ≡ is_kernel_that (is_for kind) (world_of self.now) kernel.0 };

    /// Whether the actor owns the mutex or critical section of this number.
    fn owns(&self, who: Who, kernel: KernelId) -> bool
        ensures { result ≡ is_kernel_that (owns who) (world_of self.now) kernel.0 };

    /// Whether the actor may take the kernel object of this number now: an event that is signalled, a
    /// semaphore whose count is above 0, a lock that is free or its own.
    fn may_take(&self, who: Who, kernel: KernelId) -> bool
        ensures { result ≡ is_kernel_that (may_take who) (world_of self.now) kernel.0 };

    /// Whether the count of the semaphore of this number would pass its maximum with so much more.
    fn passes_by(&self, more: u32, kernel: KernelId) -> bool
        ensures { result ≡ is_kernel_that (passes_by more) (world_of self.now) kernel.0 };

    /// The count of the semaphore of this number, and 0 where it is none.
    fn count_at(&self, kernel: KernelId) -> u32
        ensures { result ≡ count_at (world_of self.now) kernel.0 };
}
