//! Whether the machine can go on: it is stalled where whoever could make the next call waits for what
//! nobody will do.

ghost use Rattle.std.specs.Prelude.{◌≡◌, length, true};
ghost use Rattle.std.specs.List.{list_all, list_any, range_with_len};
ghost use Rattle.tp_model.specs.Conditions.{runs_callback};
ghost use Rattle.tp_model.specs.Stalled.{is_client_stuck, is_pool_stuck, is_stalled, is_worker_stuck, waits_on};
ghost use Rattle.live_queries.specs.Resting.{is_pool_blocked, is_worker_free};

use crate::callers::{clients, has_finished, workers};
use crate::pools::lacks_room;
use tp_base::ids::{PoolId, Who};
use world_reads::{Progress, Reads};

// Whether the actor has a wait begun that can't end yet.
#[tactic(auto, using(crate::proofs::Stuck::not_waiting))]
#[inline(always)]
fn waits_on<W: Reads>(world: &W, who: Who, room: u64) -> bool
    ensures { result ≡ waits_on (W.world_of world.now) room who }
{
    world.is_in_wait(who) && is_kept(world, who, room)
}

// The same, asked only of one that has a wait begun, and right of any.
#[inline(never)]
fn is_kept<W: Reads>(world: &W, who: Who, room: u64) -> bool
    ensures { result ≡ waits_on (W.world_of world.now) room who }
{
    match world.progress(who, room) {
        Progress::Holds { .. } => true,
        Progress::Acquires { kernel } => !world.may_take(who, kernel),
        Progress::NotBegun | Progress::Free | Progress::Notifies { .. } | Progress::Starved => {
            false
        }
    }
}

// Whether a client makes no call: it has finished, or waits.
fn is_client_stuck<W: Reads>(world: &W, number: u32, room: u64) -> bool
    ensures { result ≡ is_client_stuck (W.world_of world.now) room number }
{
    has_finished(world, number) || waits_on(world, Who::Client(number), room)
}

// Whether a worker runs a callback.
fn is_busy<W: Reads>(world: &W, number: u32) -> bool
    ensures { result ≡ runs_callback (W.world_of world.now) (Who.Worker number) }
{
    match world.worker(number) {
        None => false,
        Some(worker) => worker.callback.is_some(),
    }
}

// Whether more workers run a callback than have a wait begun. Then one of those has none begun.
fn more_run_than_wait<W: Reads>(world: &W) -> bool
    ensures { result ≡ true → list_any (is_worker_free (W.world_of world.now)) (range_with_len 1 (length (W.world_of world.now).workers)) ≡ true }
{
    world.is_reachable();
    world.waiting_workers() < world.busy_workers()
}

// Whether a worker makes no call in a callback: it runs none, or waits.
fn is_worker_stuck<W: Reads>(world: &W, number: u32, room: u64) -> bool
    ensures { result ≡ is_worker_stuck (W.world_of world.now) room number }
{
    !is_busy(world, number) || waits_on(world, Who::Worker(number), room)
}

// Whether no callback of the pool can be taken, where a worker is free or none is.
fn is_pool_blocked<W: Reads>(world: &W, pool: PoolId, room: u64, free: bool) -> bool
    ensures { result ≡ is_pool_blocked (W.world_of world.now) room free pool.0 }
{
    let tally = world.tally(pool);
    tally.pending == 0
        || tally.maximum <= tally.running
        || (tally.occupied && world.takeable(pool, false) == 0)
        || lacks_room(&tally, room, free)
}

// Whether no client makes a call.
fn are_clients_stuck<W: Reads>(world: &W, room: u64) -> bool
    ensures { result ≡ list_all (is_client_stuck (W.world_of world.now) room) (range_with_len 1 (length (W.world_of world.now).clients)) }
{
    (1..clients(world) + 1).all(|number| is_client_stuck(world, number, room))
}

// Whether no worker makes a call in a callback.
fn are_workers_stuck<W: Reads>(world: &W, room: u64) -> bool
    ensures { result ≡ list_all (is_worker_stuck (W.world_of world.now) room) (range_with_len 1 (length (W.world_of world.now).workers)) }
{
    (1..workers(world) + 1).all(|number| is_worker_stuck(world, number, room))
}

// Whether no callback can be taken, where a worker is free or none is.
fn are_pools_blocked<W: Reads>(world: &W, room: u64, free: bool) -> bool
    ensures { result ≡ list_all (is_pool_blocked (W.world_of world.now) room free) (range_with_len 0 (length (W.world_of world.now).pools)) }
{
    (0..world.next_pool()).all(|pool| is_pool_blocked(world, PoolId(pool), room, free))
}

// Whether no worker can take a callback.
#[tactic(auto, using(crate::proofs::Stuck::stuck_by_pools))]
fn are_pools_stuck<W: Reads>(world: &W, room: u64) -> bool
    ensures { result ≡ list_all (is_pool_stuck (W.world_of world.now) room) (range_with_len 0 (length (W.world_of world.now).pools)) }
{
    are_pools_blocked(world, room, world.is_any_free())
}

// Whether nobody can go on, asked of the pools, then of the workers up to one that goes on, and only then of
// the clients.
#[tactic(auto, using(crate::proofs::Stuck::stalled_by_pools))]
#[inline(never)]
fn are_all_stuck<W: Reads>(world: &W, room: u64) -> bool
    ensures { result ≡ is_stalled (W.world_of world.now) room }
{
    are_pools_stuck(world, room) && are_workers_stuck(world, room) && are_clients_stuck(world, room)
}

/// Whether nobody can go on in a machine whose history has this room left: each client has finished
/// or waits, each worker in a callback waits, and no callback can be taken. Where more workers run a
/// callback than have a wait begun, it walks nothing. Else it walks the pools, and then asks the workers
/// and the clients how far their waits have come.
#[tactic(auto, using(crate::proofs::Stuck::goes_on))]
#[inline(always)]
pub fn is_stalled<W: Reads>(world: &W, room: u64) -> bool
    ensures { result ≡ is_stalled (W.world_of world.now) room }
{
    !more_run_than_wait(world) && are_all_stuck(world, room)
}
