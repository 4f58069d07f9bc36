//! What plans and queries read of a live world: each answer is that of the part that knows it, or the world's own.

ghost use Rattle.std.specs.Prelude.{◌≡◌};

use crate::LiveWorld;
use steps::Steps;
use tp_base::answers::ActionKind;
use tp_base::calls::{Kind, Lock};
use tp_base::ids::{GroupId, KernelId, ObjectId, PoolId, Who};
use tp_base::limits::Limits;
use tp_base::plans::{ActionWords, Trigger};
use tp_base::rows::{CallbackRow, ClientRow, ObjectRow, PoolRow, Slots, WorkerRow};
use world_reads::{Progress, Reads, Tally, WaitCounts};

impl Reads for LiveWorld {
    ghost world_of = { λ live. live.world };

    ghost made_of = { λ live. live.made };

    #[inline(always)]
    fn is_reachable(&self) {
        LiveWorld::is_reachable(self);
        self.objects.is_reachable();
        self.sources.is_reachable();
    }

    #[inline(always)]
    fn limits(&self) -> Limits {
        self.limits
    }

    #[inline(always)]
    fn client(&self, number: u32) -> Option<ClientRow> {
        LiveWorld::client(self, number)
    }

    #[inline(always)]
    fn worker(&self, number: u32) -> Option<WorkerRow> {
        match self.pools.worker(number) {
            None => None,
            Some(worker) => Some(WorkerRow {
                pool: worker.pool,
                callback: if worker.callback == 0 {
                    None
                } else {
                    Some(worker.callback)
                },
                persistent: worker.persistent,
            }),
        }
    }

    #[inline(always)]
    fn busy_workers(&self) -> u32 {
        LiveWorld::busy_workers(self)
    }

    #[inline(always)]
    fn waiting_workers(&self) -> u32 {
        LiveWorld::waiting_workers(self)
    }

    #[inline(always)]
    fn is_any_free(&self) -> bool {
        LiveWorld::is_any_free(self)
    }

    #[inline(always)]
    fn next_pool(&self) -> u32 {
        self.pools.pools()
    }

    #[inline(always)]
    fn pool(&self, pool: PoolId) -> Option<PoolRow> {
        match self.pools.counts(pool) {
            None => None,
            Some(counts) => Some(PoolRow {
                minimum: counts.minimum,
                maximum: counts.maximum,
                closed: counts.closed,
            }),
        }
    }

    #[inline(always)]
    fn tally(&self, pool: PoolId) -> Tally {
        LiveWorld::tally(self, pool)
    }

    #[inline(always)]
    fn takeable(&self, pool: PoolId, persistent: bool) -> u32 {
        LiveWorld::takeable(self, pool, persistent)
    }

    #[inline(always)]
    fn next(&self, pool: PoolId, persistent: bool, steps: &mut Steps) -> Option<&CallbackRow> {
        LiveWorld::next(self, pool, persistent, steps)
    }

    #[inline(always)]
    fn groups(&self) -> u32 {
        self.objects.groups()
    }

    #[inline(always)]
    fn is_group(&self, group: GroupId) -> bool {
        self.objects.is_group(group)
    }

    #[inline(always)]
    fn is_no_group_or_group(&self, group: GroupId) -> bool {
        self.objects.is_no_group_or_group(group)
    }

    #[inline(always)]
    fn is_closed_group(&self, group: GroupId) -> bool {
        self.objects.is_closed_group(group)
    }

    #[inline(always)]
    fn first_member(&self, group: GroupId) -> Option<u32> {
        self.objects.first_member(group)
    }

    #[inline(always)]
    fn first_operating(&self, group: GroupId) -> Option<u32> {
        LiveWorld::first_operating(self, group)
    }

    #[inline(always)]
    fn has_simple(&self, group: GroupId) -> bool {
        LiveWorld::has_simple(self, group)
    }

    #[inline(always)]
    fn close_counts(&self, group: GroupId, cancel: bool) -> WaitCounts {
        LiveWorld::close_counts(self, group, cancel)
    }

    #[inline(always)]
    fn count_notices(&self, group: GroupId, cancel: bool) -> u32 {
        self.objects.count_notices(group, cancel)
    }

    #[inline(always)]
    fn objects(&self) -> u32 {
        self.objects.objects()
    }

    #[inline(always)]
    fn object(&self, object: ObjectId) -> Option<ObjectRow> {
        self.objects.object(object)
    }

    #[inline(always)]
    fn is_object(&self, object: ObjectId) -> bool {
        self.objects.is_object(object)
    }

    #[inline(always)]
    fn is_object_of(&self, kind: Kind, object: ObjectId) -> bool {
        self.objects.is_object_of(kind, object)
    }

    #[inline(always)]
    fn is_released(&self, object: ObjectId) -> bool {
        self.objects.is_released(object)
    }

    #[inline(always)]
    fn has_object_of(&self, pool: PoolId) -> bool {
        self.objects.has_object_of(pool)
    }

    #[inline(always)]
    fn next_number(&self) -> u64 {
        self.made + 1
    }

    #[inline(always)]
    fn callback(&self, number: u64) -> Option<&CallbackRow> {
        self.callbacks.get(number)
    }

    #[inline(always)]
    fn callback_after(&self, number: u64) -> Option<CallbackRow> {
        self.callbacks.after(number)
    }

    #[inline(always)]
    fn first_expected(&self, object: ObjectId) -> Option<CallbackRow> {
        self.callbacks.first_expected(object)
    }

    #[inline(always)]
    fn first_issued(&self, object: ObjectId) -> Option<CallbackRow> {
        self.callbacks.first_issued(object)
    }

    #[inline(always)]
    fn is_operating(&self, object: ObjectId) -> bool {
        self.callbacks.is_operating(object)
    }

    #[inline(always)]
    fn is_outstanding(&self, object: ObjectId) -> bool {
        self.callbacks.first_outstanding(object).is_some()
    }

    #[inline(always)]
    fn lacks_slots(&self, count: u32) -> bool {
        LiveWorld::lacks_slots(self, count)
    }

    #[inline(always)]
    fn lacks_slots_to_set(
        &self,
        object: ObjectId,
        kernel: Option<KernelId>,
        timeout: Option<i64>,
    ) -> bool {
        LiveWorld::lacks_slots_to_set(self, object, kernel, timeout)
    }

    #[inline(always)]
    fn is_in_wait(&self, who: Who) -> bool {
        self.waits.is_begun(who)
    }

    #[inline(always)]
    fn wait_counts(&self, object: ObjectId, cancel: bool) -> WaitCounts {
        LiveWorld::wait_counts(self, object, cancel)
    }

    #[inline(always)]
    fn progress(&self, who: Who, room: u64) -> Progress {
        LiveWorld::progress(self, who, room)
    }

    #[inline(always)]
    fn now(&self) -> u64 {
        self.sources.now()
    }

    #[inline(always)]
    fn is_set(&self, object: ObjectId) -> bool {
        self.sources.is_set(object)
    }

    #[inline(always)]
    fn count_due(&self, now: u64) -> Option<u32> {
        LiveWorld::count_due(self, now)
    }

    #[inline(always)]
    fn count_fired(&self, trigger: &Trigger) -> u32 {
        self.sources.count_fired(trigger)
    }

    #[inline(always)]
    fn words(&self, who: Who, slots: &Slots) -> ActionWords {
        self.sources.words(who, slots)
    }

    #[inline(always)]
    fn count_returned(&self, who: Who, slots: &Slots, words: &ActionWords) -> u32 {
        self.sources.count_returned(who, slots, words)
    }

    #[inline(always)]
    fn kernels(&self) -> u32 {
        self.sources.kernels()
    }

    #[inline(always)]
    fn is_kernel(&self, kernel: KernelId) -> bool {
        self.sources.is_kernel(kernel)
    }

    #[inline(always)]
    fn is_event(&self, kernel: KernelId) -> bool {
        self.sources.is_event(kernel)
    }

    #[inline(always)]
    fn is_semaphore(&self, kernel: KernelId) -> bool {
        self.sources.is_semaphore(kernel)
    }

    #[inline(always)]
    fn is_waitable(&self, kernel: KernelId) -> bool {
        self.sources.is_waitable(kernel)
    }

    #[inline(always)]
    fn is_lock(&self, lock: Lock, kernel: KernelId) -> bool {
        self.sources.is_lock(lock, kernel)
    }

    #[inline(always)]
    fn is_for(&self, kind: ActionKind, kernel: KernelId) -> bool {
        self.sources.is_for(kind, kernel)
    }

    #[inline(always)]
    fn owns(&self, who: Who, kernel: KernelId) -> bool {
        self.sources.owns(who, kernel)
    }

    #[inline(always)]
    fn may_take(&self, who: Who, kernel: KernelId) -> bool {
        self.sources.may_take(who, kernel)
    }

    #[inline(always)]
    fn passes_by(&self, more: u32, kernel: KernelId) -> bool {
        self.sources.passes_by(more, kernel)
    }

    #[inline(always)]
    fn count_at(&self, kernel: KernelId) -> u32 {
        self.sources.count_at(kernel)
    }
}
