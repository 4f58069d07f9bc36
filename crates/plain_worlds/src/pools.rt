//! Pools.

ghost use Rattle.std.specs.Prelude.{◌≡◌, OnOk};
ghost use Rattle.tp_model.specs.Changes.{changed, pool_after as pool_after_of};
ghost use Rattle.tp_model.specs.World.{new_pool as pool_of};

use crate::rows::Rows;
use std::alloc::AllocError;
use tp_base::ids::PoolId;
use tp_base::limits::Limits;
use tp_base::plans::{Change, PoolChange};
use tp_base::rows::PoolRow;

/// A pool as it is made.
pub(crate) fn new_pool(limits: Limits) -> PoolRow
    ensures { result ≡ pool_of limits }
{
    PoolRow {
        minimum: 0,
        maximum: limits.workers,
        closed: false,
    }
}

// What a pool is after a change.
fn pool_after(how: PoolChange, row: PoolRow) -> PoolRow
    ensures { result ≡ pool_after_of how row }
{
    match how {
        PoolChange::Close => PoolRow {
            minimum: row.minimum,
            maximum: row.maximum,
            closed: true,
        },
        PoolChange::Maximum(value) => {
            let maximum = value.max(1);
            PoolRow {
                minimum: row.minimum.min(maximum),
                maximum,
                closed: row.closed,
            }
        }
        PoolChange::Minimum(value) => PoolRow {
            minimum: value,
            maximum: row.maximum.max(value),
            closed: row.closed,
        },
    }
}

impl Rows {
    pub(crate) fn create_pool(&mut self) -> Result<(), AllocError>
        ensures { OnOk result (self.new ≡ changed self.old Change.CreatePool) }
    {
        let pool = new_pool(self.limits);
        self.pools.push(pool)?;
        Ok(())
    }

    pub(crate) fn change_pool(&mut self, pool: PoolId, how: PoolChange)
        ensures { self.new ≡ changed self.old (Change.ChangePool pool how) }
    {
        let place = pool.0 as usize;
        if place < self.pools.len() {
            self.pools[place] = pool_after(how, self.pools[place]);
        }
    }
}
