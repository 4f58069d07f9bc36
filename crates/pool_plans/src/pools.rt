//! Calls on pools: `CreateThreadpool`, `CloseThreadpool`, `SetThreadpoolThreadMaximum` and
//! `SetThreadpoolThreadMinimum`.

ghost use Rattle.pool_plans.specs.Decided.{decided};
ghost use Rattle.std.specs.Prelude.{◌≡◌, Some};
ghost use Rattle.tp_model.specs.Refusing.{first_refusal};
ghost use Rattle.tp_model.specs.Calls.Pools.{pool_refusals, create_pool_plan, change_pool_plan, close_pool_plan, set_maximum_plan, set_minimum_plan};

use crate::decisions::{Decision, accept};
use crate::refusals::{actor_refusal, either, first_of};
use live_queries::{is_closed_pool, is_pool, is_used, lacks_pool};
use tp_base::answers::{Answer, Outcome, Refusal};
use tp_base::ids::{PoolId, Who};
use tp_base::plans::{Change, PoolChange};
use world_reads::Reads;

/// Makes a pool.
#[tactic(auto, unfolding(tp_model::specs::Calls::Pools::create_pool_plan))]
pub fn create_pool<W: Reads>(
    world: &W,
    who: Who,
    change: &mut Change,
    outcome: &mut Outcome,
) -> Decision
    ensures { decided result outcome.new change.new ≡ Some (create_pool_plan (W.world_of world.now) who) }
{
    let refusal = actor_refusal!(world, who, [(lacks_pool(world), Refusal::ObjectLimit)]);
    if let Some(refusal) = refusal {
        return Decision::Refused(refusal);
    }
    accept(
        change,
        outcome,
        Answer::Made {
            number: world.next_pool(),
        },
        Change::CreatePool,
    )
}

// A pool that is closed or the default pool can't be closed or changed.
fn pool_refusal<W: Reads>(world: &W, who: Who, pool: PoolId) -> Option<Refusal>
    ensures { result ≡ first_refusal (pool_refusals (W.world_of world.now) who pool.0) }
{
    let actor = live_queries::actor(world, who);
    first_of!([
        (
            either(!actor.exists, !is_pool(world, pool)),
            Refusal::NoSuch
        ),
        (actor.finished, Refusal::Released),
        (is_closed_pool(world, pool), Refusal::PoolClosed),
        (pool.0 == 0, Refusal::DefaultPool),
        (actor.is_idle, Refusal::NotRunning),
        (actor.in_wait, Refusal::InWait),
    ])
}

/// Closes a pool.
#[tactic(auto, unfolding(tp_model::specs::Calls::Pools::close_pool_plan))]
pub fn close_pool<W: Reads>(
    world: &W,
    who: Who,
    pool: PoolId,
    change: &mut Change,
    outcome: &mut Outcome,
) -> Decision
    ensures { decided result outcome.new change.new ≡ Some (close_pool_plan (W.world_of world.now) who pool) }
{
    match pool_refusal(world, who, pool) {
        Some(refusal) => Decision::Refused(refusal),
        None => accept(
            change,
            outcome,
            Answer::Closed {
                later: is_used(world, pool),
            },
            Change::ChangePool {
                pool,
                how: PoolChange::Close,
            },
        ),
    }
}

// Sets one bound of a pool.
fn set<W: Reads>(
    world: &W,
    who: Who,
    pool: PoolId,
    how: PoolChange,
    change: &mut Change,
    outcome: &mut Outcome,
) -> Decision
    ensures { decided result outcome.new change.new ≡ Some (change_pool_plan (W.world_of world.now) who pool how Answer.Done) }
{
    match pool_refusal(world, who, pool) {
        Some(refusal) => Decision::Refused(refusal),
        None => accept(
            change,
            outcome,
            Answer::Done,
            Change::ChangePool { pool, how },
        ),
    }
}

/// Sets how many callbacks of a pool may run at once.
#[tactic(auto, unfolding(tp_model::specs::Calls::Pools::set_maximum_plan))]
pub fn set_maximum<W: Reads>(
    world: &W,
    who: Who,
    pool: PoolId,
    value: u32,
    change: &mut Change,
    outcome: &mut Outcome,
) -> Decision
    ensures { decided result outcome.new change.new ≡ Some (set_maximum_plan (W.world_of world.now) who pool value) }
{
    set(
        world,
        who,
        pool,
        PoolChange::Maximum(value),
        change,
        outcome,
    )
}

/// Sets how many workers a pool keeps.
#[tactic(auto, unfolding(tp_model::specs::Calls::Pools::set_minimum_plan))]
pub fn set_minimum<W: Reads>(
    world: &W,
    who: Who,
    pool: PoolId,
    value: u32,
    change: &mut Change,
    outcome: &mut Outcome,
) -> Decision
    ensures { decided result outcome.new change.new ≡ Some (set_minimum_plan (W.world_of world.now) who pool value) }
{
    set(
        world,
        who,
        pool,
        PoolChange::Minimum(value),
        change,
        outcome,
    )
}
