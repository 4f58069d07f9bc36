//! What is counted of a pool, and which of its callbacks a worker takes next.

ghost use Rattle.std.specs.Prelude.{◌≡◌, ◌^◌, ◌<◌, length, slice_get};
ghost use Rattle.std.specs.Option.{option_copied};
ghost use Rattle.plain_worlds.specs.Taking.{first_open, is_of_priority, next_below_high};
ghost use Rattle.tp_model.specs.Counts.{next};
ghost use Rattle.world_reads.specs.Tally.{is_occupied, tally_of};

use crate::reads::is_persistent_in;
use crate::rows::Rows;
use tp_base::calls::Priority;
use tp_base::ids::PoolId;
use tp_base::rows::{CallbackRow, PoolRow};
use world_reads::Tally;

// Whether a callback has a priority.
fn has_priority(priority: Priority, callback: &CallbackRow) -> bool
    ensures { result ≡ is_of_priority priority callback.now.priority }
{
    match (priority, callback.priority) {
        (Priority::High, Priority::High) => true,
        (Priority::Normal, Priority::Normal) => true,
        (Priority::Low, Priority::Low) => true,
        _ => false,
    }
}

impl Rows {
    pub(crate) fn next_pool(&self) -> u32
        requires { length self.now.pools < 2 ^ 32 }
        ensures { result ≡ length self.now.pools }
    {
        self.pools.len() as u32
    }

    pub(crate) fn pool(&self, pool: PoolId) -> Option<PoolRow>
        ensures { result ≡ slice_get self.now.pools pool.0 }
    {
        self.pools.get(pool.0 as usize).copied()
    }

    // Whether the pool's persistent worker runs a callback.
    fn is_occupied(&self, pool: PoolId) -> bool
        ensures { result ≡ is_occupied self.now pool.0 }
    {
        self.workers.iter().any(|worker| is_persistent_in(pool, worker)
            && worker.callback.is_some())
    }

    pub(crate) fn tally(&self, pool: PoolId) -> Tally
        requires callbacks { length self.now.callbacks < 2 ^ 32 }
        requires workers { length self.now.workers < 2 ^ 32 }
        ensures { result ≡ tally_of self.now pool.0 }
    {
        Tally {
            minimum: self.minimum(pool),
            maximum: self.maximum(pool),
            pending: self.count_pending(pool),
            running: self.count_running(pool),
            attached: self.count_attached(pool),
            idle: self.count_idle(pool),
            available: self.count_available(pool),
            occupied: self.is_occupied(pool),
        }
    }

    // The first callback of a priority that a worker of the pool may take.
    fn first_open(&self, pool: PoolId, persistent: bool, priority: Priority) -> Option<&CallbackRow>
        ensures { option_copied result ≡ first_open self.now pool.0 persistent priority }
    {
        self.callbacks.iter().find(|callback| {
            self.is_open_to(pool, persistent, callback) && has_priority(priority, callback)
        })
    }

    // The callback that is taken next where none of high priority is there.
    #[tactic(auto, using(crate::proofs::Firsts::taken_normal, crate::proofs::Firsts::taken_low))]
    fn next_below_high(&self, pool: PoolId, persistent: bool) -> Option<&CallbackRow>
        ensures { option_copied result ≡ next_below_high self.now pool.0 persistent }
    {
        match self.first_open(pool, persistent, Priority::Normal) {
            Some(callback) => Some(callback),
            None => self.first_open(pool, persistent, Priority::Low),
        }
    }

    #[tactic(auto, using(crate::proofs::Firsts::taken_high, crate::proofs::Firsts::taken_below_high))]
    pub(crate) fn next(&self, pool: PoolId, persistent: bool) -> Option<&CallbackRow>
        ensures { option_copied result ≡ next self.now pool.0 persistent }
    {
        match self.first_open(pool, persistent, Priority::High) {
            Some(callback) => Some(callback),
            None => self.next_below_high(pool, persistent),
        }
    }
}
