//! Pools: which of them needs a worker, and whether one is still used.

ghost use Rattle.std.specs.Prelude.{◌≡◌, ◌&&◌, ◌||◌, ◌==◌, nat_lt, not, length};
ghost use Rattle.std.specs.List.{list_any, range_with_len};
ghost use Rattle.tp_model.specs.Counts.{is_below_minimum, is_in_need, is_live, least_pool};
ghost use Rattle.tp_model.specs.Conditions.{is_closed_pool, is_pool};
ghost use Rattle.tp_model.specs.Calls.Pools.{is_used};
ghost use Rattle.tp_model.specs.Calls.Workers.{is_let_go, may_leave, pool_to_join};
ghost use Rattle.tp_model.specs.Calls.InCallback.{has_spare};

use tp_base::ids::PoolId;
use tp_base::plans::Idle;
use world_reads::{Reads, Tally};

/// Whether a pool of this number was made.
pub fn is_pool<W: Reads>(world: &W, pool: PoolId) -> bool
    ensures { result ≡ is_pool (W.world_of world.now) pool.0 }
{
    world.pool(pool).is_some()
}

/// Whether the pool was made and closed.
pub fn is_closed_pool<W: Reads>(world: &W, pool: PoolId) -> bool
    ensures { result ≡ is_closed_pool (W.world_of world.now) pool.0 }
{
    match world.pool(pool) {
        None => false,
        Some(row) => row.closed,
    }
}

/// Whether the pool has an idle worker, or may have another.
pub fn has_spare<W: Reads>(world: &W, pool: PoolId) -> bool
    ensures { result ≡ has_spare (W.world_of world.now) pool.0 }
{
    let tally = world.tally(pool);
    0 < tally.idle || tally.attached < tally.maximum
}

// Whether callbacks wait that a further worker may take, no attached worker is free, and the pool may have another.
// These are counted last: mostly one of the others tells.
#[inline(always)]
fn is_in_need<W: Reads>(world: &W, pool: PoolId) -> bool
    ensures { result ≡ is_in_need (W.world_of world.now) pool.0 }
{
    let tally = world.tally(pool);
    tally.idle == 0 && tally.attached < tally.maximum && 0 < world.takeable(pool, false)
}

/// Whether the history, which has this room left, has none for a callback of a pool to be run, of which so much is
/// counted, where a worker is free or none is.
pub(crate) fn lacks_room(tally: &Tally, room: u64, free: bool) -> bool
    ensures { result ≡ (nat_lt room 2 || ((tally.now.idle == 0) && (nat_lt room 4 || not free))) }
{
    room < 2 || (tally.idle == 0 && (room < 4 || !free))
}

// Whether too few workers are free for short callbacks, and the pool may have another.
fn is_below_minimum<W: Reads>(world: &W, pool: PoolId) -> bool
    ensures { result ≡ is_below_minimum (W.world_of world.now) pool.0 }
{
    let tally = world.tally(pool);
    tally.available < tally.minimum && tally.attached < tally.maximum
}

// Whether a worker may join the pool, since it is in need or below its minimum.
fn is_short<W: Reads>(world: &W, pool: PoolId) -> bool
    ensures { result ≡ (is_in_need (W.world_of world.now) pool.0 || is_below_minimum (W.world_of world.now) pool.0) }
{
    let tally = world.tally(pool);
    tally.attached < tally.maximum && (is_in_need(world, pool) || is_below_minimum(world, pool))
}

// Whether there is a pool that a worker may join.
fn is_any_short<W: Reads>(world: &W) -> bool
    ensures { result ≡ list_any (λ pool. is_in_need (W.world_of world.now) pool || is_below_minimum (W.world_of world.now) pool) (range_with_len 0 (length (W.world_of world.now).pools)) }
{
    (0..world.next_pool()).any(|pool| is_short(world, PoolId(pool)))
}

// The pool of least number that is in need.
fn least_in_need<W: Reads>(world: &W) -> Option<u32>
    ensures { result ≡ least_pool (W.world_of world.now) (is_in_need (W.world_of world.now)) }
{
    (0..world.next_pool()).find(|pool| is_in_need(world, PoolId(*pool)))
}

// The pool of least number that is below its minimum.
fn least_below_minimum<W: Reads>(world: &W) -> Option<u32>
    ensures { result ≡ least_pool (W.world_of world.now) (is_below_minimum (W.world_of world.now)) }
{
    (0..world.next_pool()).find(|pool| is_below_minimum(world, PoolId(*pool)))
}

// The pool of least number, but for this one, that is in need.
fn least_other_in_need<W: Reads>(world: &W, pool: PoolId) -> Option<u32>
    ensures { result ≡ least_pool (W.world_of world.now) (λ other. not (other == pool.0) && is_in_need (W.world_of world.now) other) }
{
    (0..world.next_pool()).find(|other| *other != pool.0 && is_in_need(world, PoolId(*other)))
}

/// The pool that an unattached worker is to join, if there is one: the least pool in need, and
/// else the least one below its minimum. Where there is none, it walks the pools once.
#[tactic(auto, using(crate::proofs::Short::none_to_join))]
pub fn pool_to_join<W: Reads>(world: &W) -> Option<u32>
    ensures { result ≡ pool_to_join (W.world_of world.now) }
{
    if !is_any_short(world) {
        return None;
    }
    match least_in_need(world) {
        Some(pool) => Some(pool),
        None => least_below_minimum(world),
    }
}

// Whether the worker isn't the persistent worker of a pool that is open.
fn is_let_go<W: Reads>(world: &W, by: &Idle) -> bool
    ensures { result ≡ is_let_go (W.world_of world.now) by.now }
{
    !by.persistent || is_closed_pool(world, by.pool)
}

/// Whether an idle worker may leave its pool.
pub fn may_leave<W: Reads>(world: &W, by: &Idle) -> bool
    ensures { result ≡ may_leave (W.world_of world.now) by.now }
{
    let tally = world.tally(by.pool);
    is_let_go(world, by)
        && (tally.maximum < tally.attached
            || (world.takeable(by.pool, by.persistent) == 0
                && (tally.minimum < tally.available
                    || least_other_in_need(world, by.pool).is_some())))
}

// Whether a callback of the pool is under way. Walks the callbacks.
fn has_callback<W: Reads>(world: &W, pool: PoolId) -> bool
    ensures { result ≡ list_any (λ c. is_live c.status && (c.pool.0 == pool.0)) (W.world_of world.now).callbacks }
{
    world.is_reachable();
    let mut passed = 0;
    while let Some(callback) = world.callback_after(passed) {
        if callback.pool.0 == pool.0 {
            return true;
        }
        passed = callback.number;
    }
    false
}

/// Whether something of the pool is outstanding. Walks the objects and the callbacks.
pub fn is_used<W: Reads>(world: &W, pool: PoolId) -> bool
    ensures { result ≡ is_used (W.world_of world.now) pool.0 }
{
    world.has_object_of(pool) || has_callback(world, pool)
}
