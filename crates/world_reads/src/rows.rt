//! Rows as a call makes them, or reads them, whoever keeps the world.

ghost use Rattle.std.specs.Prelude.{◌≡◌};
ghost use Rattle.tp_model.specs.Actions.{slots_of as slots_of_status};
ghost use Rattle.tp_model.specs.Sources.{new_callback as new_callback_of};

use tp_base::answers::TakeResult;
use tp_base::ids::ObjectId;
use tp_base::rows::{CallbackRow, ObjectRow, Slots, Status};

/// No action on return.
pub const NO_ACTIONS: Slots = Slots {
    section: None,
    mutex: None,
    semaphore: None,
    event: None,
};

/// The actions on return that a callback of this status has asked for.
pub fn slots_of(status: Status) -> Slots
    ensures { result ≡ slots_of_status status }
{
    match status {
        Status::Running { slots, .. } => slots,
        _ => NO_ACTIONS,
    }
}

/// A callback of an object, as the object's environment was when the object was made. It waits for a
/// worker.
pub fn new_callback(number: u64, object: ObjectId, row: &ObjectRow, told: TakeResult) -> CallbackRow
    ensures { result ≡ new_callback_of number object row.now told }
{
    CallbackRow {
        number,
        object,
        routine: row.routine,
        context: row.context,
        pool: row.env.pool,
        group: row.env.group,
        priority: row.env.priority,
        long: row.env.long,
        persistent: row.env.persistent,
        result: told,
        status: Status::Pending,
    }
}
