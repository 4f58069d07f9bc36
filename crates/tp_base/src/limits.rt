//! How many of each thing a machine has room for.

ghost use Rattle.std.specs.Prelude.{◌↔◌, IsTrue};
ghost use Rattle.tp_base.specs.Ranges.{AreLimitsInRange};

/// The limits of a machine. They never change while it runs.
#[derive(Clone, Copy)]
pub struct Limits {
    pub clients: u32,
    pub workers: u32,
    /// Pools, the default pool among them.
    pub pools: u32,
    pub groups: u32,
    /// Work, timer, wait and I/O objects together.
    pub objects: u32,
    /// Events, semaphores, mutexes and critical sections together.
    pub kernels: u32,
    /// Callbacks under way and armed waits together.
    pub slots: u32,
}

impl Limits {
    /// Whether a machine can have these limits: at least one worker, one pool and one slot, and at
    /// most 65,535 of anything.
    pub fn in_range(&self) -> bool
        ensures { IsTrue result ↔ AreLimitsInRange self.now }
    {
        self.clients <= 65_535
            && 1 <= self.workers
            && self.workers <= 65_535
            && 1 <= self.pools
            && self.pools <= 65_535
            && self.groups <= 65_535
            && self.objects <= 65_535
            && self.kernels <= 65_535
            && 1 <= self.slots
            && self.slots <= 65_535
    }
}
