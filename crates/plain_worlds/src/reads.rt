//! What is read of rows, by the definitions of the model.

ghost use Rattle.std.specs.Prelude.{◌≡◌, ◌^◌, ◌<◌, ◌&&◌, ◌==◌, filter, find, length, nat_lt, not};
ghost use Rattle.std.specs.List.{list_any};
ghost use Rattle.std.specs.Option.{option_copied};
ghost use Rattle.tp_model.specs.Calls.Io.{first_expected, first_issued};
ghost use Rattle.tp_model.specs.Conditions.{has_operations, is_closed_group, is_closed_pool, is_in_wait, is_no_group_or_group, is_object, is_object_of, is_released, is_same_kind as same_kind, lacks_slots_for};
ghost use Rattle.tp_model.specs.Counts.{callback_of, has_persistent, is_attached_to as attached_to, is_expected as is_expected_status, is_idle_in as idle_in, is_issued as is_issued_status, is_live as is_live_status, is_open_to, is_operating as is_operating_status};
ghost use Rattle.tp_model.specs.Counts.{attached, available, idle, is_persistent_in as persistent_in, maximum, minimum, numbered as row_of_number, pending, running, running_long, takeable};
ghost use Rattle.tp_model.specs.Groups.{has_simple, is_group};
ghost use Rattle.tp_model.specs.Stalled.{is_free};
ghost use Rattle.tp_model.specs.Waits.{count_outstanding};

use crate::callbacks::{callback_in, is_live, is_pending, is_running};
use crate::rows::{Rows, numbered};
use crate::waits::{is_outstanding, is_same_actor};
use tp_base::calls::Kind;
use tp_base::ids::{GroupId, ObjectId, PoolId, Who};
use tp_base::rows::{CallbackRow, ClientRow, ObjectRow, Status, WaitTarget, WorkerRow};

pub(crate) fn is_attached_to(pool: PoolId, worker: &WorkerRow) -> bool
    ensures { result ≡ attached_to pool.0 worker.now }
{
    match worker.pool {
        Some(own) => own.0 == pool.0,
        None => false,
    }
}

fn is_idle_in(pool: PoolId, worker: &WorkerRow) -> bool
    ensures { result ≡ idle_in pool.0 worker.now }
{
    is_attached_to(pool, worker) && worker.callback.is_none()
}

pub(crate) fn is_persistent_in(pool: PoolId, worker: &WorkerRow) -> bool
    ensures { result ≡ persistent_in pool.0 worker.now }
{
    is_attached_to(pool, worker) && worker.persistent
}

fn is_same_kind(a: Kind, b: Kind) -> bool
    ensures { result ≡ same_kind a b }
{
    match (a, b) {
        (Kind::Work, Kind::Work) => true,
        (Kind::Timer, Kind::Timer) => true,
        (Kind::Wait, Kind::Wait) => true,
        (Kind::Io, Kind::Io) => true,
        _ => false,
    }
}

fn is_expected(callback: &CallbackRow) -> bool
    ensures { result ≡ is_expected_status callback.now.status }
{
    matches!(callback.status, Status::Expected)
}

fn is_issued(callback: &CallbackRow) -> bool
    ensures { result ≡ is_issued_status callback.now.status }
{
    matches!(callback.status, Status::Issued)
}

fn is_operating(callback: &CallbackRow) -> bool
    ensures { result ≡ is_operating_status callback.now.status }
{
    matches!(callback.status, Status::Expected | Status::Issued)
}

impl Rows {
    // ---- who makes calls

    pub(crate) fn client(&self, number: u32) -> Option<ClientRow>
        ensures { result ≡ row_of_number self.now.clients number }
    {
        numbered(&self.clients, number)
    }

    pub(crate) fn worker(&self, number: u32) -> Option<WorkerRow>
        ensures { result ≡ row_of_number self.now.workers number }
    {
        numbered(&self.workers, number)
    }

    // ---- pools

    pub(crate) fn is_closed_pool(&self, pool: PoolId) -> bool
        ensures { result ≡ is_closed_pool self.now pool.0 }
    {
        match self.pools.get(pool.0 as usize) {
            Some(row) => row.closed,
            None => false,
        }
    }

    pub(crate) fn maximum(&self, pool: PoolId) -> u32
        ensures { result ≡ maximum self.now pool.0 }
    {
        match self.pools.get(pool.0 as usize) {
            Some(row) => row.maximum,
            None => 0,
        }
    }

    pub(crate) fn minimum(&self, pool: PoolId) -> u32
        ensures { result ≡ minimum self.now pool.0 }
    {
        match self.pools.get(pool.0 as usize) {
            Some(row) if !row.closed => row.minimum,
            _ => 0,
        }
    }

    pub(crate) fn count_pending(&self, pool: PoolId) -> u32
        requires { length self.now.callbacks < 2 ^ 32 }
        ensures { result ≡ pending self.now pool.0 }
    {
        self.callbacks
            .iter()
            .filter(|callback| is_pending(callback) && callback.pool.0 == pool.0)
            .count() as u32
    }

    pub(crate) fn count_running(&self, pool: PoolId) -> u32
        requires { length self.now.callbacks < 2 ^ 32 }
        ensures { result ≡ running self.now pool.0 }
    {
        self.callbacks
            .iter()
            .filter(|callback| is_running(callback) && callback.pool.0 == pool.0)
            .count() as u32
    }

    pub(crate) fn count_running_long(&self, pool: PoolId) -> u32
        requires { length self.now.callbacks < 2 ^ 32 }
        ensures { result ≡ running_long self.now pool.0 }
    {
        self.callbacks
            .iter()
            .filter(|callback| {
                is_running(callback) && callback.pool.0 == pool.0 && callback.long
            })
            .count() as u32
    }

    pub(crate) fn count_attached(&self, pool: PoolId) -> u32
        requires { length self.now.workers < 2 ^ 32 }
        ensures { result ≡ attached self.now pool.0 }
    {
        self.workers
            .iter()
            .filter(|worker| is_attached_to(pool, worker))
            .count() as u32
    }

    pub(crate) fn count_idle(&self, pool: PoolId) -> u32
        requires { length self.now.workers < 2 ^ 32 }
        ensures { result ≡ idle self.now pool.0 }
    {
        self.workers
            .iter()
            .filter(|worker| is_idle_in(pool, worker))
            .count() as u32
    }

    pub(crate) fn count_available(&self, pool: PoolId) -> u32
        requires callbacks { length self.now.callbacks < 2 ^ 32 }
        requires workers { length self.now.workers < 2 ^ 32 }
        ensures { result ≡ available self.now pool.0 }
    {
        let attached = self.count_attached(pool);
        attached.saturating_sub(self.count_running_long(pool))
    }

    fn has_persistent(&self, pool: PoolId) -> bool
        ensures { result ≡ has_persistent self.now pool.0 }
    {
        self.workers
            .iter()
            .any(|worker| is_persistent_in(pool, worker))
    }

    // Whether a worker of the pool may take a callback, who is its persistent worker or isn't.
    pub(crate) fn is_open_to(&self, pool: PoolId, persistent: bool, callback: &CallbackRow) -> bool
        ensures { result ≡ is_open_to self.now pool.0 persistent callback.now }
    {
        let is_its = is_pending(callback) && callback.pool.0 == pool.0;
        is_its && (!callback.persistent || persistent || !self.has_persistent(pool))
    }

    pub(crate) fn takeable(&self, pool: PoolId, persistent: bool) -> u32
        requires { length self.now.callbacks < 2 ^ 32 }
        ensures { result ≡ takeable self.now pool.0 persistent }
    {
        self.callbacks
            .iter()
            .filter(|callback| self.is_open_to(pool, persistent, callback))
            .count() as u32
    }

    // Whether a worker runs nothing and may come to another pool.
    fn is_free(&self, worker: &WorkerRow) -> bool
        ensures { result ≡ is_free self.now worker.now }
    {
        let may_leave = match worker.pool {
            Some(pool) => self.is_closed_pool(pool),
            None => true,
        };
        worker.callback.is_none() && (!worker.persistent || may_leave)
    }

    pub(crate) fn is_any_free(&self) -> bool
        ensures { result ≡ list_any (is_free self.now) self.now.workers }
    {
        self.workers.iter().any(|worker| self.is_free(worker))
    }

    // ---- groups and objects

    pub(crate) fn is_group(&self, group: GroupId) -> bool
        ensures { result ≡ is_group self.now group.0 }
    {
        numbered(&self.groups, group.0).is_some()
    }

    pub(crate) fn is_no_group_or_group(&self, group: GroupId) -> bool
        ensures { result ≡ is_no_group_or_group self.now group.0 }
    {
        group.0 == 0 || numbered(&self.groups, group.0).is_some()
    }

    pub(crate) fn is_closed_group(&self, group: GroupId) -> bool
        ensures { result ≡ is_closed_group self.now group.0 }
    {
        match numbered(&self.groups, group.0) {
            Some(row) => row.closed,
            None => false,
        }
    }

    pub(crate) fn has_simple(&self, group: GroupId) -> bool
        ensures { result ≡ has_simple self.now group }
    {
        self.callbacks.iter().any(|callback| {
            is_outstanding(WaitTarget::Group(group), callback) && callback.object.0 == 0
        })
    }

    pub(crate) fn object(&self, object: ObjectId) -> Option<ObjectRow>
        ensures { result ≡ row_of_number self.now.objects object.0 }
    {
        numbered(&self.objects, object.0)
    }

    pub(crate) fn is_object(&self, object: ObjectId) -> bool
        ensures { result ≡ is_object self.now object.0 }
    {
        numbered(&self.objects, object.0).is_some()
    }

    pub(crate) fn is_object_of(&self, kind: Kind, object: ObjectId) -> bool
        ensures { result ≡ is_object_of self.now kind object.0 }
    {
        match numbered(&self.objects, object.0) {
            Some(row) => is_same_kind(row.kind, kind),
            None => false,
        }
    }

    pub(crate) fn is_released(&self, object: ObjectId) -> bool
        ensures { result ≡ is_released self.now object.0 }
    {
        match numbered(&self.objects, object.0) {
            Some(row) => row.released,
            None => false,
        }
    }

    pub(crate) fn has_object_of(&self, pool: PoolId) -> bool
        ensures { result ≡ list_any (λ o. not o.released && (o.env.pool.0 == pool.0)) self.now.objects }
    {
        self.objects
            .iter()
            .any(|object| !object.released && object.env.pool.0 == pool.0)
    }

    // ---- callbacks

    pub(crate) fn callback(&self, number: u64) -> Option<&CallbackRow>
        ensures { option_copied result ≡ callback_of self.now number }
    {
        callback_in(&self.callbacks, number)
    }

    pub(crate) fn callback_after(&self, number: u64) -> Option<&CallbackRow>
        ensures { option_copied result ≡ find (λ c. nat_lt number c.number) self.now.callbacks }
    {
        self.callbacks
            .iter()
            .find(|callback| number < callback.number)
    }

    pub(crate) fn first_expected(&self, object: ObjectId) -> Option<&CallbackRow>
        ensures { option_copied result ≡ first_expected self.now object.0 }
    {
        self.callbacks.iter().find(|callback| is_expected(callback)
            && callback.object.0 == object.0)
    }

    pub(crate) fn first_issued(&self, object: ObjectId) -> Option<&CallbackRow>
        ensures { option_copied result ≡ first_issued self.now object.0 }
    {
        self.callbacks.iter().find(|callback| is_issued(callback) && callback.object.0 == object.0)
    }

    pub(crate) fn is_operating(&self, object: ObjectId) -> bool
        ensures { result ≡ has_operations self.now object.0 }
    {
        self.callbacks.iter().any(|callback| is_operating(callback)
            && callback.object.0 == object.0)
    }

    fn count_outstanding(&self, target: WaitTarget) -> usize
        ensures { result ≡ count_outstanding target self.now }
    {
        self.callbacks
            .iter()
            .filter(|callback| is_outstanding(target, callback))
            .count()
    }

    pub(crate) fn is_outstanding(&self, object: ObjectId) -> bool
        ensures { result ≡ nat_lt 0 (count_outstanding (WaitTarget.Object object) self.now) }
    {
        0 < self.count_outstanding(WaitTarget::Object(object))
    }

    pub(crate) fn count_live(&self) -> usize
        ensures { result ≡ length (filter (λ c. is_live_status c.status) self.now.callbacks) }
    {
        self.callbacks
            .iter()
            .filter(|callback| is_live(callback))
            .count()
    }

    pub(crate) fn lacks_slots(&self, count: u32) -> bool
        ensures { result ≡ lacks_slots_for self.now count }
    {
        let armed = self.sources.armings.len() as u64;
        let taken = (self.count_live() as u64).saturating_add(armed);
        u64::from(self.limits.slots) < taken.saturating_add(u64::from(count))
    }

    // ---- waits

    pub(crate) fn is_in_wait(&self, who: Who) -> bool
        ensures { result ≡ is_in_wait self.now who }
    {
        self.waits.iter().any(|wait| is_same_actor(wait.actor, who))
    }
}
