//! The parts of a live world as they are opened, one after another. Where one can't be opened, those before it
//! are freed.

ghost use Rattle.std.specs.Prelude.{◌≡◌, IfOk, Ok};
ghost use Rattle.tp_base.specs.Ranges.{AreLimitsInRange};
ghost use Rattle.live_world.specs.Opening.{opened_callbacks, opened_objects, opened_pools};

use live_callbacks::LiveCallbacks;
use object_rows::ObjectRows;
use pool_rows::PoolRows;
use std::alloc::{AllocError, Global};
use tp_base::limits::Limits;

// The rows of what is made.
#[derive(Drop)]
pub(crate) struct OpenedRows {
    pub pools: PoolRows,
    pub objects: ObjectRows,
    pub callbacks: LiveCallbacks,
}

// Both, where the second could be made. Where not, the first is freed: here, and so at no way out of the function
// that opens many parts, where the proof would go through all that it has by then, each time.
pub(crate) fn both<A: Drop, B>(
    first: A,
    second: Result<B, AllocError>,
) -> Result<(A, B), AllocError>
    ensures { IfOk result (λ pair. (pair.0 ≡ first) × (second ≡ Ok pair.1)) }
{
    Ok((first, second?))
}

pub(crate) fn open_rows(alloc: Global, limits: Limits) -> Result<OpenedRows, AllocError>
    requires { AreLimitsInRange limits }
    ensures pools { IfOk result (λ rows. rows.pools ≡ opened_pools limits) }
    ensures objects { IfOk result (λ rows. rows.objects ≡ opened_objects limits) }
    ensures callbacks { IfOk result (λ rows. rows.callbacks ≡ opened_callbacks limits) }
{
    let pools = PoolRows::open(alloc, limits.pools, limits.workers)?;
    let (pools, objects) = both(
        pools,
        ObjectRows::open(alloc, limits.groups, limits.objects),
    )?;
    let (tables, callbacks) = both(
        (pools, objects),
        LiveCallbacks::open(
            alloc,
            limits.slots,
            limits.pools,
            limits.objects,
            limits.groups,
        ),
    )?;
    let (pools, objects) = tables;
    Ok(OpenedRows {
        pools,
        objects,
        callbacks,
    })
}
