//! How many workers each pool has, kept as workers come and go.

ghost use Rattle.std.specs.Prelude.{◌≡◌, ◌<◌, ◌^◌, ℕ, IfSome, filter, length, map, slice_set};
ghost use Rattle.std.specs.List.{list_any};
ghost use Rattle.pool_rows.specs.Free.{is_free};
ghost use Rattle.pool_rows.specs.Pools.{made_pool};
ghost use Rattle.pool_rows.specs.Workers.{runs};
ghost use Rattle.pool_rows.specs.Tallies.{AreTallied, FitsTally, IsWithinTally, no_workers, tally_at, with_one, with_own};

use crate::{Counts, WorkerRow};
use std::mem;
use tp_base::rows::PoolRow;

// How many workers are attached to a pool, run a callback in it, and run one with the long mark; and how many
// of those that are attached have the mark of a persistent worker, and of these run a callback.
#[derive(Clone, Copy)]
pub struct Tally {
    pub attached: u32,
    pub running: u32,
    pub long: u32,
    pub persistent: u32,
    pub occupied: u32,
}

// A pool and the tally of its workers.
#[derive(Clone, Copy)]
pub struct PoolEntry {
    pub row: PoolRow,
    pub tally: Tally,
}

impl Tally {
    // One worker of its pool more.
    #[inline(always)]
    fn add(&mut self, worker: WorkerRow)
        requires { FitsTally (with_own worker self.old) }
        ensures { self.new ≡ with_own worker self.old }
    {
        let runs = u32::from(worker.callback > 0);
        self.attached += 1;
        self.running += runs;
        self.long += u32::from(worker.callback > 0 && worker.long);
        if worker.persistent {
            self.persistent += 1;
            self.occupied += runs;
        }
    }

    // One worker of its pool less.
    #[inline(always)]
    fn subtract(&mut self, worker: WorkerRow)
        requires { IsWithinTally (with_own worker no_workers) self.old }
        ensures { self.old ≡ with_own worker self.new }
    {
        let runs = u32::from(worker.callback > 0);
        self.attached -= 1;
        self.running -= runs;
        self.long -= u32::from(worker.callback > 0 && worker.long);
        if worker.persistent {
            self.persistent -= 1;
            self.occupied -= runs;
        }
    }
}

impl PoolEntry {
    // A new pool, which no worker is attached to.
    pub fn made(workers: u32) -> PoolEntry
        ensures { result ≡ record { row = made_pool workers; tally = no_workers } }
    {
        PoolEntry {
            row: PoolRow {
                minimum: 0,
                maximum: workers,
                closed: false,
            },
            tally: Tally {
                attached: 0,
                running: 0,
                long: 0,
                persistent: 0,
                occupied: 0,
            },
        }
    }

    pub fn counts(&self) -> Counts
        ensures { result ≡ record {
          minimum = self.now.row.minimum;
          maximum = self.now.row.maximum;
          closed = self.now.row.closed;
          running = self.now.tally.running;
          attached = self.now.tally.attached;
          long = self.now.tally.long;
          persistent = self.now.tally.persistent;
          occupied = self.now.tally.occupied;
        } }
    {
        Counts {
            minimum: self.row.minimum,
            maximum: self.row.maximum,
            closed: self.row.closed,
            running: self.tally.running,
            attached: self.tally.attached,
            long: self.tally.long,
            persistent: self.tally.persistent,
            occupied: self.tally.occupied,
        }
    }
}

// Takes a worker out of the tally of its pool.
fn leave(entries: &mut [PoolEntry], worker: WorkerRow)
    requires within { IfSome worker.pool (λ pool. pool.0 < length entries.old) }
    requires counted { (p : ℕ) → IsWithinTally (with_one p worker no_workers) (tally_at entries.old p) }
    ensures rows { map (λ e. e.row) entries.new ≡ map (λ e. e.row) entries.old }
    ensures tallies { (p : ℕ) → tally_at entries.old p ≡ with_one p worker (tally_at entries.new p) }
{
    if let Some(pool) = worker.pool {
        entries[pool.0 as usize].tally.subtract(worker);
    }
}

// Counts a worker in the tally of its pool.
fn join(entries: &mut [PoolEntry], worker: WorkerRow)
    requires within { IfSome worker.pool (λ pool. pool.0 < length entries.old) }
    requires fits { (p : ℕ) → FitsTally (with_one p worker (tally_at entries.old p)) }
    ensures rows { map (λ e. e.row) entries.new ≡ map (λ e. e.row) entries.old }
    ensures tallies { (p : ℕ) → tally_at entries.new p ≡ with_one p worker (tally_at entries.old p) }
{
    if let Some(pool) = worker.pool {
        entries[pool.0 as usize].tally.add(worker);
    }
}

// Writes the row of a worker anew, and counts it in the pool that it names and no more in the one
// that it named before. Tells how many workers run a callback then, where so many did before.
#[inline(always)]
pub fn write_worker(
    entries: &mut [PoolEntry],
    workers: &mut [WorkerRow],
    place: usize,
    worker: WorkerRow,
    busy: u32,
) -> u32
    requires there { place < length workers.old }
    requires few { length workers.old < 2 ^ 32 }
    requires within { IfSome worker.pool (λ pool. pool.0 < length entries.old) }
    requires tallied { AreTallied entries.old workers.old }
    requires busy { busy ≡ length (filter runs workers.old) }
    ensures workers { workers.new ≡ slice_set workers.old place worker }
    ensures rows { map (λ e. e.row) entries.new ≡ map (λ e. e.row) entries.old }
    ensures tallied { AreTallied entries.new workers.new }
    ensures busy { result ≡ length (filter runs workers.new) }
{
    let old = mem::replace(&mut workers[place], worker);
    leave(entries, old);
    join(entries, worker);
    busy - u32::from(old.callback > 0) + u32::from(worker.callback > 0)
}

// Whether a worker is free, where so many run a callback: of the others some aren't held by their pool.
pub fn any_free(entries: &[PoolEntry], workers: &[WorkerRow], busy: u32) -> bool
    requires few { length workers.now < 2 ^ 32 }
    requires tallied { AreTallied entries.now workers.now }
    requires busy { busy ≡ length (filter runs workers.now) }
    ensures { result ≡ list_any (is_free (map (λ e. e.row) entries.now)) workers.now }
{
    let mut held = 0;
    for entry in entries {
        if !entry.row.closed {
            held += entry.tally.persistent - entry.tally.occupied;
        }
    }
    held < workers.len() as u32 - busy
}
