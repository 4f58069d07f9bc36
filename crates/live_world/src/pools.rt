//! Pools: what is counted of each; a pool is made or changed, and a worker joins one or leaves it.

ghost use Rattle.std.specs.Prelude.{◌≡◌, ◌+◌, ◌≤◌, ◌||◌, false, length, not, slice_get};
ghost use Rattle.std.specs.List.{list_any};
ghost use Rattle.std.specs.Option.{option_copied};
ghost use Rattle.live_callbacks.specs.Callbacks.{is_waiting_persistent};
ghost use Rattle.tp_model.specs.Counts.{has_persistent, next as next_of, takeable as takeable_of};
ghost use Rattle.tp_model.specs.Stalled.{is_free};
ghost use Rattle.tp_model.specs.Support.Allowed.{IsAllowed};
ghost use Rattle.live_world.specs.Live.{moved};
ghost use Rattle.live_world.specs.Tally.{tally_shown as tally_shown_of};

use crate::LiveWorld;
use pool_rows::Counts;
use steps::Steps;
use tp_base::ids::PoolId;
use tp_base::plans::{Change, Idle, PoolChange};
use tp_base::rows::{CallbackRow, PoolRow};
use world_reads::Tally;

const NOT_MADE: Tally = Tally {
    minimum: 0,
    maximum: 0,
    pending: 0,
    running: 0,
    attached: 0,
    idle: 0,
    available: 0,
    occupied: false,
};

// What is counted of a pool that was made, where so many callbacks wait.
fn tally_shown(waiting: u32, counts: Counts) -> Tally
    ensures { result ≡ tally_shown_of waiting counts }
{
    Tally {
        minimum: if counts.closed { 0 } else { counts.minimum },
        maximum: counts.maximum,
        pending: waiting,
        running: counts.running,
        attached: counts.attached,
        idle: counts.attached.saturating_sub(counts.running),
        available: counts.attached.saturating_sub(counts.long),
        occupied: 0 < counts.occupied,
    }
}

impl LiveWorld {
    ghost use Rattle.world_reads.specs.Tally.{tally_of};

    // What is counted of a pool, whether it was made or not.
    #[inline(always)]
    pub(crate) fn tally(&self, pool: PoolId) -> Tally
        ensures { result ≡ tally_of self.now.world pool.0 }
    {
        match self.pools.counts(pool) {
            None => NOT_MADE,
            Some(counts) => tally_shown(self.callbacks.pending(pool), counts),
        }
    }

    // Whether a worker of the pool takes what is persistent: it is the pool's persistent worker, or the pool has
    // none.
    #[inline(always)]
    fn takes_all(&self, pool: PoolId, persistent: bool) -> bool
        ensures { result ≡ (persistent || not (has_persistent self.now.world pool.0)) }
    {
        if persistent {
            return true;
        }
        match self.pools.counts(pool) {
            None => true,
            Some(counts) => counts.persistent == 0,
        }
    }

    // How many pending callbacks of a pool a worker of it may take, who is its persistent worker or isn't.
    #[inline(always)]
    pub(crate) fn takeable(&self, pool: PoolId, persistent: bool) -> u32
        ensures { result ≡ takeable_of self.now.world pool.0 persistent }
    {
        self.callbacks
            .takeable(pool, self.takes_all(pool, persistent))
    }

    // The callback that a worker of the pool takes next, who is its persistent worker or isn't, if it may take
    // one. `steps` counts the nodes that are read to find it: two at most, and one where none is persistent that
    // is pending.
    #[inline(always)]
    pub(crate) fn next(
        &self,
        pool: PoolId,
        persistent: bool,
        steps: &mut Steps,
    ) -> Option<&CallbackRow>
        ensures value { option_copied result ≡ next_of self.now.world pool.0 persistent }
        ensures counted { steps.old ≤ steps.new }
        ensures bound { steps.new ≤ steps.old + 2 }
        ensures fewer { list_any is_waiting_persistent self.now.world.callbacks ≡ false → steps.new ≤ steps.old + 1 }
    {
        if self.callbacks.is_none_persistent() {
            return self.callbacks.next(pool, false, steps);
        }
        self.callbacks
            .next(pool, self.takes_all(pool, persistent), steps)
    }

    // Whether a worker is free: it runs nothing, and isn't the persistent worker of a pool that is open. Walks the
    // pools.
    pub(crate) fn is_any_free(&self) -> bool
        ensures { result ≡ list_any (is_free self.now.world) self.now.world.workers }
    {
        self.pools.is_any_free()
    }

    // Makes a pool.
    pub(crate) fn create_pool(&mut self)
        requires { IsAllowed (self.old.made + 1) self.old.world Change.CreatePool }
        ensures { self.new ≡ moved self.old Change.CreatePool }
    {
        match self.pools.create() {
            Ok(_) => {}
            Err(_) => unreachable!(),
        }
    }

    // Closes a pool, or sets how many workers it may have or keeps.
    pub(crate) fn change_pool(&mut self, pool: PoolId, how: PoolChange)
        requires { IsAllowed (self.old.made + 1) self.old.world (Change.ChangePool pool how) }
        ensures { self.new ≡ moved self.old (Change.ChangePool pool how) }
    {
        match how {
            PoolChange::Close => self.pools.close(pool),
            PoolChange::Maximum(value) => self.pools.set_maximum(pool, value),
            PoolChange::Minimum(value) => self.pools.set_minimum(pool, value),
        }
    }

    // Attaches a worker to a pool.
    pub(crate) fn attach(&mut self, worker: u32, pool: PoolId)
        requires { IsAllowed (self.old.made + 1) self.old.world (Change.Attach worker pool) }
        ensures { self.new ≡ moved self.old (Change.Attach worker pool) }
    {
        self.pools.attach(worker, pool);
    }

    // Detaches a worker from its pool.
    pub(crate) fn detach(&mut self, by: Idle)
        requires { IsAllowed (self.old.made + 1) self.old.world (Change.Detach by) }
        ensures { self.new ≡ moved self.old (Change.Detach by) }
    {
        self.pools.detach(by.worker);
    }
}
