//! What plans and queries read of a plain world: each answer is that of its rows.

ghost use Rattle.std.specs.Prelude.{◌≡◌, ◌+◌, ◌^◌, ◌<◌, ◌≤◌, length};
ghost use Rattle.tp_base.specs.Timers.{clock_end};
ghost use Rattle.plain_worlds.specs.Once.{AreArmedOnce};
ghost use Rattle.plain_worlds.specs.Reachable.{IsReachable};

use crate::PlainWorld;
use crate::rows::Rows;
use steps::Steps;
use tp_base::answers::ActionKind;
use tp_base::calls::{Kind, Lock};
use tp_base::ids::{GroupId, KernelId, ObjectId, PoolId, Who};
use tp_base::limits::Limits;
use tp_base::plans::{ActionWords, Trigger};
use tp_base::rows::{CallbackRow, ClientRow, ObjectRow, PoolRow, Slots, WorkerRow};
use world_reads::{Progress, Reads, Tally, WaitCounts};

impl PlainWorld {
    // What is true of every plain world. It does nothing: who calls it knows this.
    fn is_reachable(&self)
        ensures { IsReachable self.now.made self.now.world }
    {
        let _ = self.rows.callbacks.len();
    }

    // Its rows, of which there are few, and no wait is armed twice.
    fn rows(&self) -> &Rows
        ensures world { result.now ≡ self.now.world }
        ensures workers { length result.now.workers + 1 < 2 ^ 32 }
        ensures pools { length result.now.pools < 2 ^ 32 }
        ensures groups { length result.now.groups < 2 ^ 32 }
        ensures objects { length result.now.objects + 1 < 2 ^ 32 }
        ensures kernels { length result.now.kernels < 2 ^ 32 }
        ensures callbacks { length result.now.callbacks < 2 ^ 32 }
        ensures armings { length result.now.armings < 2 ^ 32 }
        ensures settings { length result.now.settings < 2 ^ 32 }
        ensures armed { AreArmedOnce result.now.armings }
        ensures clock { result.now.now ≤ clock_end }
    {
        &self.rows
    }
}

impl Reads for PlainWorld {
    ghost world_of = { λ plain. plain.world };

    ghost made_of = { λ plain. plain.made };

    fn is_reachable(&self) {
        PlainWorld::is_reachable(self)
    }

    fn limits(&self) -> Limits {
        self.rows().limits
    }

    fn client(&self, number: u32) -> Option<ClientRow> {
        self.rows().client(number)
    }

    fn worker(&self, number: u32) -> Option<WorkerRow> {
        self.rows().worker(number)
    }

    fn busy_workers(&self) -> u32 {
        self.rows().busy_workers()
    }

    fn waiting_workers(&self) -> u32 {
        self.rows().waiting_workers()
    }

    fn is_any_free(&self) -> bool {
        self.rows().is_any_free()
    }

    fn next_pool(&self) -> u32 {
        self.rows().next_pool()
    }

    fn pool(&self, pool: PoolId) -> Option<PoolRow> {
        self.rows().pool(pool)
    }

    fn tally(&self, pool: PoolId) -> Tally {
        self.rows().tally(pool)
    }

    fn takeable(&self, pool: PoolId, persistent: bool) -> u32 {
        self.rows().takeable(pool, persistent)
    }

    fn next(&self, pool: PoolId, persistent: bool, _steps: &mut Steps) -> Option<&CallbackRow> {
        self.rows().next(pool, persistent)
    }

    fn groups(&self) -> u32 {
        self.rows().groups()
    }

    fn is_group(&self, group: GroupId) -> bool {
        self.rows().is_group(group)
    }

    fn is_no_group_or_group(&self, group: GroupId) -> bool {
        self.rows().is_no_group_or_group(group)
    }

    fn is_closed_group(&self, group: GroupId) -> bool {
        self.rows().is_closed_group(group)
    }

    fn first_member(&self, group: GroupId) -> Option<u32> {
        self.rows().first_member(group)
    }

    fn first_operating(&self, group: GroupId) -> Option<u32> {
        self.rows().first_operating(group)
    }

    fn has_simple(&self, group: GroupId) -> bool {
        self.rows().has_simple(group)
    }

    fn close_counts(&self, group: GroupId, cancel: bool) -> WaitCounts {
        self.rows().close_counts(group, cancel)
    }

    fn count_notices(&self, group: GroupId, cancel: bool) -> u32 {
        self.rows().count_notices(group, cancel)
    }

    fn objects(&self) -> u32 {
        self.rows().objects()
    }

    fn object(&self, object: ObjectId) -> Option<ObjectRow> {
        self.rows().object(object)
    }

    fn is_object(&self, object: ObjectId) -> bool {
        self.rows().is_object(object)
    }

    fn is_object_of(&self, kind: Kind, object: ObjectId) -> bool {
        self.rows().is_object_of(kind, object)
    }

    fn is_released(&self, object: ObjectId) -> bool {
        self.rows().is_released(object)
    }

    fn has_object_of(&self, pool: PoolId) -> bool {
        self.rows().has_object_of(pool)
    }

    fn next_number(&self) -> u64 {
        self.made() + 1
    }

    fn callback(&self, number: u64) -> Option<&CallbackRow> {
        self.rows().callback(number)
    }

    fn callback_after(&self, number: u64) -> Option<CallbackRow> {
        self.rows().callback_after(number).copied()
    }

    fn first_expected(&self, object: ObjectId) -> Option<CallbackRow> {
        self.rows().first_expected(object).copied()
    }

    fn first_issued(&self, object: ObjectId) -> Option<CallbackRow> {
        self.rows().first_issued(object).copied()
    }

    fn is_operating(&self, object: ObjectId) -> bool {
        self.rows().is_operating(object)
    }

    fn is_outstanding(&self, object: ObjectId) -> bool {
        self.rows().is_outstanding(object)
    }

    fn lacks_slots(&self, count: u32) -> bool {
        self.rows().lacks_slots(count)
    }

    fn lacks_slots_to_set(
        &self,
        object: ObjectId,
        kernel: Option<KernelId>,
        timeout: Option<i64>,
    ) -> bool {
        self.rows().lacks_slots_to_set(object, kernel, timeout)
    }

    fn is_in_wait(&self, who: Who) -> bool {
        self.rows().is_in_wait(who)
    }

    fn wait_counts(&self, object: ObjectId, cancel: bool) -> WaitCounts {
        self.rows().wait_counts(object, cancel)
    }

    fn progress(&self, who: Who, room: u64) -> Progress {
        self.rows().progress(who, room)
    }

    fn now(&self) -> u64 {
        self.rows().now()
    }

    fn is_set(&self, object: ObjectId) -> bool {
        self.rows().is_set(object)
    }

    fn count_due(&self, now: u64) -> Option<u32> {
        self.rows().count_due(now)
    }

    fn count_fired(&self, trigger: &Trigger) -> u32 {
        self.rows().count_fired(trigger)
    }

    fn words(&self, who: Who, slots: &Slots) -> ActionWords {
        self.rows().words(who, slots)
    }

    fn count_returned(&self, who: Who, slots: &Slots, words: &ActionWords) -> u32 {
        self.rows().count_returned(who, slots, words)
    }

    fn kernels(&self) -> u32 {
        self.rows().kernels()
    }

    fn is_kernel(&self, kernel: KernelId) -> bool {
        self.rows().is_kernel(kernel)
    }

    fn is_event(&self, kernel: KernelId) -> bool {
        self.rows().is_event(kernel)
    }

    fn is_semaphore(&self, kernel: KernelId) -> bool {
        self.rows().is_semaphore(kernel)
    }

    fn is_waitable(&self, kernel: KernelId) -> bool {
        self.rows().is_waitable(kernel)
    }

    fn is_lock(&self, lock: Lock, kernel: KernelId) -> bool {
        self.rows().is_lock(lock, kernel)
    }

    fn is_for(&self, kind: ActionKind, kernel: KernelId) -> bool {
        self.rows().is_for(kind, kernel)
    }

    fn owns(&self, who: Who, kernel: KernelId) -> bool {
        self.rows().owns(who, kernel)
    }

    fn may_take(&self, who: Who, kernel: KernelId) -> bool {
        self.rows().may_take(who, kernel)
    }

    fn passes_by(&self, more: u32, kernel: KernelId) -> bool {
        self.rows().passes_by(more, kernel)
    }

    fn count_at(&self, kernel: KernelId) -> u32 {
        self.rows().count_at(kernel)
    }
}
