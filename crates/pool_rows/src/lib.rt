//! The pools and the workers of a machine, seen as two lists of rows.
//!
//! Pool 0 is the default pool and is there from the start; pool p stands at place p of the pools.
//! Workers are numbered from 1; each is attached to one pool or to none, and an attached worker runs
//! one callback or nothing. `attach`, `take`, `mark_long`, `give_back` (its callback returns) and
//! `detach` are the turns of a worker's life, in that order; `create`, `close`, `set_maximum` and
//! `set_minimum` are a pool's. `counts` answers what a pool allows, and how many workers are attached
//! to it and at work in it, `busy` how many workers run a callback in any, and `is_any_free` whether a
//! worker could join another pool. A worker that takes a persistent callback is its pool's persistent
//! worker from then on, until it detaches: it has a mark, as it has that of a long callback.
//! After `attach(2, pool)` and `take(2, 9, true, false)` worker 2 runs callback 9, and the pool's counts
//! have one more `attached`, `running` and `long`.
//!
//! `open` takes all the memory. The counts are kept as the workers change, so that no call goes over
//! the workers.
//!
//! ```text
//! let mut rows = PoolRows::open(alloc, 4, 2)?;    // at most four pools, and two workers
//! rows.create()                                   // Ok(PoolId(1))
//! rows.attach(2, PoolId(1));
//! rows.take(2, 9, true, false);                   // worker 2 runs callback 9, which is long
//! rows.counts(PoolId(1))                          // Some: attached 1, running 1, long 1
//! ```

#![tactic(auto)]

ghost use Rattle.std.specs.Prelude.{false, true, ◌≡◌, ◌+◌, ◌<◌, ◌≤◌, ◌++◌, ◌∷◌, [], ◌↔◌, IfOk, IfErr, IfSome, IsErr, IsSome, IsSomeAnd, None, OnErr, OnOk, filter, length, replicate};
ghost use Rattle.pool_rows.specs.Pools.{IsMade, counts_of, made_pool, with_maximum, with_minimum, with_pool, with_worker, worker_of};
ghost use Rattle.std.specs.List.{list_any};
ghost use Rattle.pool_rows.specs.Free.{is_free};
ghost use Rattle.pool_rows.specs.Workers.{IsIdle, after_take, idle_in, runs, unattached};

use std::alloc::{AllocError, Global};
use std::marker::Model;
use tp_base::answers::Refusal;
use tp_base::ids::PoolId;
use tp_base::rows::PoolRow;

mod tallies;

use tallies::{PoolEntry, any_free, write_worker};

/// What a pool allows, and how many workers it has.
#[derive(Clone, Copy, Debug, PartialEq)]
pub struct Counts {
    pub minimum: u32,
    pub maximum: u32,
    pub closed: bool,
    /// The workers that run a callback.
    pub running: u32,
    /// The workers that are attached, whether they run a callback or nothing.
    pub attached: u32,
    /// The workers that run a callback with the long mark.
    pub long: u32,
    /// The attached workers with the mark of a persistent worker.
    pub persistent: u32,
    /// Of these, those that run a callback.
    pub occupied: u32,
}

/// A worker thread.
#[derive(Clone, Copy, Debug, PartialEq)]
pub struct WorkerRow {
    /// The pool that it is attached to.
    pub pool: Option<PoolId>,
    /// The callback that it runs, or 0 where it runs nothing.
    pub callback: u64,
    /// Its callback is expected to run long.
    pub long: bool,
    /// It took a persistent callback of its pool, and so takes those that come.
    pub persistent: bool,
}

/// The pools that were made, and all workers.
#[derive(Drop)]
pub struct PoolRows {
    limit: u32,
    pools: Vec<PoolEntry>,
    workers: Vec<WorkerRow>,
    // How many workers run a callback.
    busy: u32,
}

impl Model for PoolRows {
    ghost use Rattle.std.specs.Prelude.{map};
    ghost use Rattle.pool_rows.specs.Pools.{Pools};

    ghost Value = { Pools };

    ghost use Rattle.pool_rows.specs.Tallied.{IsTallied};

    ghost view = { λ a. record { limit = a.limit; pools = map (λ e. e.row) a.pools.items; workers = a.workers.items } };

    ghost invariant = { IsTallied };
}

const UNATTACHED: WorkerRow = WorkerRow {
    pool: None,
    callback: 0,
    long: false,
    persistent: false,
};

impl PoolRows {
    /// Opens the rows of `workers` unattached workers and of the default pool, with the memory for
    /// `pools` pools, the default pool among them.
    ///
    /// An `AllocError` comes where that memory can't be had.
    pub fn open(alloc: Global, pools: u32, workers: u32) -> Result<PoolRows, AllocError>
        requires a_pool { 1 ≤ pools }
        requires a_worker { 1 ≤ workers }
        ensures { IfOk result (λ rows. rows ≡ record {
          limit = pools;
          pools = made_pool workers ∷ [];
          workers = replicate workers unattached;
        }) }
    {
        let mut entries = Vec::with_capacity(alloc, pools as usize)?;
        entries.push_reserved(PoolEntry::made(workers));
        let mut rows = Vec::with_capacity(alloc, workers as usize)?;
        for _ in 0..workers {
            rows.push_reserved(UNATTACHED);
        }
        Ok(PoolRows {
            limit: pools,
            pools: entries,
            workers: rows,
            busy: 0,
        })
    }

    /// How many pools were made, the default pool among them.
    pub fn pools(&self) -> u32
        ensures value { result ≡ length self.now.pools }
        ensures limited { length self.now.pools ≤ self.now.limit }
    {
        self.pools.len() as u32
    }

    /// Makes a pool: `CreateThreadpool`. It is open, and has the minimum 0 and as its maximum the
    /// number of workers.
    ///
    /// `ObjectLimit` comes where as many pools were made as the limit says, and nothing changes.
    pub fn create(&mut self) -> Result<PoolId, Refusal>
        ensures number { IfOk result (λ pool. pool.0 ≡ length self.old.pools) }
        ensures made { OnOk result (self.new ≡ record self.old {
          pools = self.old.pools ++ made_pool (length self.old.workers) ∷ [];
        }) }
        ensures refused { IsErr result ↔ (length self.old.pools ≡ self.old.limit) }
        ensures refusal { IfErr result (λ refusal. refusal ≡ Refusal.ObjectLimit) }
        ensures unchanged { OnErr result (self.new ≡ self.old) }
    {
        let made = self.pools.len() as u32;
        if made == self.limit {
            return Err(Refusal::ObjectLimit);
        }
        let workers = self.workers.len() as u32;
        self.pools.push_reserved(PoolEntry::made(workers));
        Ok(PoolId(made))
    }

    /// What the pool allows, and how many workers it has, or None where it was never made.
    pub fn counts(&self, pool: PoolId) -> Option<Counts>
        ensures { result ≡ counts_of pool.0 self.now }
    {
        match self.pools.get(pool.0 as usize) {
            Some(entry) => Some(entry.counts()),
            None => None,
        }
    }

    /// The row of the worker of this number, or None where there is no such worker.
    pub fn worker(&self, number: u32) -> Option<WorkerRow>
        ensures value { result ≡ worker_of number self.now }
        ensures pool_made { IfSome result (λ worker. IfSome worker.pool (λ pool. IsMade pool.0 self.now)) }
    {
        if number == 0 {
            return None;
        }
        self.workers.get(number as usize - 1).copied()
    }

    /// How many workers run a callback.
    pub fn busy(&self) -> u32
        ensures { result ≡ length (filter runs self.now.workers) }
    {
        self.busy
    }

    /// Whether a worker is free: it runs nothing, and isn't the persistent worker of a pool that is open.
    /// Goes over the pools.
    pub fn is_any_free(&self) -> bool
        ensures { result ≡ list_any (is_free self.now.pools) self.now.workers }
    {
        any_free(&self.pools, &self.workers, self.busy)
    }

    /// Closes the pool: `CloseThreadpool`. What it allows stays as it was.
    pub fn close(&mut self, pool: PoolId)
        requires { IsMade pool.0 self.old }
        ensures { self.new ≡ with_pool pool.0 (λ row. record row { closed = true }) self.old }
    {
        let row = &mut self.pools[pool.0 as usize].row;
        row.closed = true;
    }

    /// Sets how many callbacks of the pool may run at once: `SetThreadpoolThreadMaximum`.
    ///
    /// A maximum of 0 counts as 1, and a minimum above the new maximum is lowered to it.
    pub fn set_maximum(&mut self, pool: PoolId, value: u32)
        requires { IsMade pool.0 self.old }
        ensures { self.new ≡ with_pool pool.0 (with_maximum value) self.old }
    {
        let row = &mut self.pools[pool.0 as usize].row;
        row.maximum = value.max(1);
        row.minimum = row.minimum.min(row.maximum);
    }

    /// Sets how many workers the pool keeps: `SetThreadpoolThreadMinimum`.
    ///
    /// A maximum below the new minimum is raised to it.
    pub fn set_minimum(&mut self, pool: PoolId, value: u32)
        requires { IsMade pool.0 self.old }
        ensures { self.new ≡ with_pool pool.0 (with_minimum value) self.old }
    {
        let row = &mut self.pools[pool.0 as usize].row;
        row.minimum = value;
        row.maximum = row.maximum.max(value);
    }

    /// Attaches a worker that is attached to no pool.
    pub fn attach(&mut self, number: u32, pool: PoolId)
        requires free { IsSomeAnd (worker_of number self.old) (λ worker. worker.pool ≡ None) }
        requires made { IsMade pool.0 self.old }
        ensures { self.new ≡ with_worker number (λ _. idle_in pool) self.old }
    {
        self.put(
            number,
            WorkerRow {
                pool: Some(pool),
                callback: 0,
                long: false,
                persistent: false,
            },
        );
    }

    /// Detaches a worker that runs nothing from its pool.
    pub fn detach(&mut self, number: u32)
        requires { IsSomeAnd (worker_of number self.old) IsIdle }
        ensures { self.new ≡ with_worker number (λ _. unattached) self.old }
    {
        self.put(number, UNATTACHED);
    }

    /// Lets a worker that is attached and runs nothing run this callback, which has a number above 0. From a
    /// persistent callback on it has the mark.
    pub fn take(&mut self, number: u32, callback: u64, long: bool, persistent: bool)
        requires idle { IsSomeAnd (worker_of number self.old) IsIdle }
        requires a_callback { 0 < callback }
        ensures { self.new ≡ with_worker number (after_take callback long persistent) self.old }
    {
        let worker = self.worker(number).unwrap();
        self.put(
            number,
            WorkerRow {
                callback,
                long,
                persistent: worker.persistent || persistent,
                ..worker
            },
        );
    }

    /// Gives the callback of a worker that runs one the long mark: `CallbackMayRunLong`.
    pub fn mark_long(&mut self, number: u32)
        requires { IsSomeAnd (worker_of number self.old) (λ worker. 0 < worker.callback) }
        ensures { self.new ≡ with_worker number (λ worker. record worker { long = true }) self.old }
    {
        let worker = self.worker(number).unwrap();
        self.put(
            number,
            WorkerRow {
                long: true,
                ..worker
            },
        );
    }

    /// Ends the callback of a worker that runs one. The worker stays attached and runs nothing, and keeps the mark
    /// of a persistent worker.
    pub fn give_back(&mut self, number: u32)
        requires { IsSomeAnd (worker_of number self.old) (λ worker. 0 < worker.callback) }
        ensures { self.new
            ≡ with_worker number (λ worker. record worker { callback = 0; long = false }) self.old }
    {
        let worker = self.worker(number).unwrap();
        self.put(
            number,
            WorkerRow {
                callback: 0,
                long: false,
                ..worker
            },
        );
    }

    // Writes the row of a worker anew, and counts it in the pool that it names.
    #[inline(always)]
    fn put(&mut self, number: u32, worker: WorkerRow)
        requires there { IsSome (worker_of number self.old) }
        requires pool_made { IfSome worker.pool (λ pool. IsMade pool.0 self.old) }
        ensures { self.new ≡ with_worker number (λ _. worker) self.old }
    {
        let place = number as usize - 1;
        self.busy = write_worker(&mut self.pools, &mut self.workers, place, worker, self.busy);
    }
}
