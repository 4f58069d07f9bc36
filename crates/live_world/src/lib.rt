//! A live world: what an engine keeps of the thread pool machine's world, seen as the world without
//! the callbacks that are over and the number of callbacks that were ever made.
//!
//! `open` takes all memory. What is asked of it are the calls of `Reads` (world_reads), as of any other world
//! that is read. What one part knows, that part answers: the callbacks, the objects, the begun waits, the
//! sources. What ties several of them, the world answers itself: `tally` what is counted of a pool,
//! `wait_counts` and `close_counts` what a wait or a close would cover, `progress` how far a wait has come,
//! `lacks_slots` and its like whether there is a slot. What is asked across all of that stands in a crate of
//! its own, live_queries. `sources` lends what makes callbacks by itself, and `apply` makes a change that the
//! world allows, and is the only call that changes anything.

#![tactic(auto)]

ghost use Rattle.std.specs.Prelude.{◌≡◌, ◌+◌, ◌<◌, IfOk};
ghost use Rattle.tp_base.specs.Ranges.{AreLimitsInRange};
ghost use Rattle.tp_model.specs.World.{opening};
ghost use Rattle.tp_model.specs.Sources.{sources_of};
ghost use Rattle.tp_model.specs.Support.Remembered.{forget};
ghost use Rattle.tp_model.specs.Support.Sound.{IsSound};
ghost use Rattle.live_world.specs.Bounds.{IsBounded};

use begun_waits::BegunWaits;
use begun_waits::covers::Covers;
use live_callbacks::LiveCallbacks;
use object_rows::ObjectRows;
use opened::{both, open_rows};
use pool_rows::PoolRows;
use sources::LiveSources;
use std::alloc::{AllocError, Global};
use std::marker::Model;
use tp_base::limits::Limits;
use tp_base::rows::ClientRow;

mod actors;
mod callbacks;
mod changes;
mod closing;
mod firing;
mod groups;
mod io;
mod kernels;
mod objects;
mod opened;
mod outstanding;
mod pools;
mod reads;
mod running;
mod waits;

/// What is kept of a world.
#[derive(Drop)]
pub struct LiveWorld {
    limits: Limits,
    pools: PoolRows,
    // The objects and the groups that they are members of.
    objects: ObjectRows,
    callbacks: LiveCallbacks,
    waits: BegunWaits<LiveCallbacks>,
    // What the waits cover.
    covers: Covers,
    clients: Vec<ClientRow>,
    // What makes callbacks by itself: the clock with what is set, and the kernel objects with what is armed.
    sources: LiveSources,
    made: u64,
}

impl Model for LiveWorld {
    ghost use Rattle.live_world.specs.Live.{Live};

    ghost Value = { Live };

    ghost use Rattle.live_world.specs.View.{shown, IsLiveWorld};

    ghost view = { shown };

    ghost invariant = { IsLiveWorld };
}

impl LiveWorld {
    /// Opens the world of a machine with these limits, before its first call.
    ///
    /// It takes all the memory that the world will ever need; an `AllocError` comes where that
    /// isn't there.
    pub fn open(alloc: Global, limits: Limits) -> Result<LiveWorld, AllocError>
        requires { AreLimitsInRange limits }
        ensures { IfOk result (λ live. live ≡ record { world = forget (opening limits); made = 0 }) }
    {
        let rows = open_rows(alloc, limits)?;
        let (rows, waits) = both(rows, BegunWaits::open(alloc, limits))?;
        let actors = limits.clients + limits.workers;
        let (tables, covers) = both((rows, waits), Covers::open(alloc, actors, limits.slots))?;
        let (tables, clients) = both(
            (tables, covers),
            actors::open_clients(alloc, limits.clients),
        )?;
        let (tables, sources) = both(
            (tables, clients),
            LiveSources::open(alloc, limits.kernels, limits.objects),
        )?;
        let (((rows, waits), covers), clients) = tables;
        Ok(LiveWorld {
            limits,
            pools: rows.pools,
            objects: rows.objects,
            callbacks: rows.callbacks,
            waits,
            covers,
            clients,
            sources,
            made: 0,
        })
    }

    /// The clock with the timers and timeouts that are set, and the kernel objects with the waits that are
    /// armed on them.
    pub fn sources(&self) -> &LiveSources
        ensures sources { result.now.sources ≡ sources_of self.now.world }
        ensures kernel_limit { result.now.most_kernels ≡ self.now.world.limits.kernels }
    {
        &self.sources
    }

    /// What is true of every live world. It does nothing: who calls it knows this.
    pub fn is_reachable(&self)
        ensures sound { IsSound (self.now.made + 1) self.now.world }
        ensures living { forget self.now.world ≡ self.now.world }
        ensures bounded { IsBounded self.now.world }
    {
        let _ = self.callbacks.len();
    }
}
