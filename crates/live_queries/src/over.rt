//! Whether all is over, and what is left of the callbacks.

ghost use Rattle.std.specs.Prelude.{◌≡◌, if◌then◌else◌, length, option_map, None, Some};
ghost use Rattle.std.specs.List.{list_all, range_with_len};
ghost use Rattle.tp_model.specs.Conditions.{is_finished};
ghost use Rattle.tp_model.specs.Laws.Once.{is_left};
ghost use Rattle.tp_model.specs.Over.{is_over, left_after, row_of, status_of};
ghost use Rattle.live_queries.specs.Resting.{is_pool_over};

use crate::callers::{clients, has_finished};
use crate::pools::lacks_room;
use tp_base::ids::{ObjectId, PoolId, Who};
use tp_base::rows::Status;
use tp_model::Left;
use world_reads::Reads;

// Whether nothing of the pool runs, and what of it is pending can't be run any more, where a worker is free or
// none is.
fn is_pool_over<W: Reads>(world: &W, pool: PoolId, room: u64, free: bool) -> bool
    ensures { result ≡ is_pool_over (W.world_of world.now) room free pool.0 }
{
    let tally = world.tally(pool);
    let lacks_room = lacks_room(&tally, room, free);
    tally.running == 0 && (tally.pending == 0 || lacks_room)
}

// Whether no callback runs, and none that is pending can be run any more.
fn are_pools_over<W: Reads>(world: &W, room: u64, free: bool) -> bool
    ensures { result ≡ list_all (is_pool_over (W.world_of world.now) room free) (range_with_len 0 (length (W.world_of world.now).pools)) }
{
    (0..world.next_pool()).all(|pool| is_pool_over(world, PoolId(pool), room, free))
}

// Whether every client has finished.
fn have_clients_finished<W: Reads>(world: &W) -> bool
    ensures { result ≡ list_all (λ number. is_finished (W.world_of world.now) (Who.Client number)) (range_with_len 1 (length (W.world_of world.now).clients)) }
{
    (1..clients(world) + 1).all(|number| has_finished(world, number))
}

/// Whether every client has finished, no callback runs, and the history, which has this room
/// left, has none for a pending one to be run, or no worker is left for it. Walks the clients and the pools.
#[tactic(auto, using(crate::proofs::AtRest::over_by_numbers))]
pub fn is_over<W: Reads>(world: &W, room: u64) -> bool
    ensures { result ≡ is_over (W.world_of world.now) room }
{
    world.is_reachable();
    have_clients_finished(world) && are_pools_over(world, room, world.is_any_free())
}

// How far a callback has come that may still run.
fn left(status: Status) -> Option<Left>
    ensures { option_map status_of result ≡ (if is_left status then Some status else None) }
{
    match status {
        Status::Expected => Some(Left::Expected),
        Status::Issued => Some(Left::Issued),
        Status::Pending => Some(Left::Pending),
        Status::Running { .. } | Status::Returned | Status::Cancelled => None,
    }
}

/// The number, the object and the status of the callback of least number above this one that may
/// still run, if there is one. Walks the callbacks that run before it.
pub fn left_after<W: Reads>(world: &W, number: u64) -> Option<(u64, ObjectId, Left)>
    ensures { option_map row_of result ≡ left_after (W.world_of world.now) number }
{
    world.is_reachable();
    let mut passed = number;
    while let Some(callback) = world.callback_after(passed) {
        if let Some(left) = left(callback.status) {
            return Some((callback.number, callback.object, left));
        }
        passed = callback.number;
    }
    None
}
