//! Operations of I/O objects.

ghost use Rattle.std.specs.Prelude.{◌≡◌};
ghost use Rattle.tp_model.specs.Calls.Io.{issued_of};

use tp_base::rows::{CallbackRow, Status};
use world_reads::Reads;

/// The callback of a number, if its operation is under way.
pub fn issued<W: Reads>(world: &W, callback: u64) -> Option<CallbackRow>
    ensures { result ≡ issued_of (W.world_of world.now) callback }
{
    let row = world.callback(callback)?;
    match row.status {
        Status::Issued => Some(*row),
        _ => None,
    }
}
