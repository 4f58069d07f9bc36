//! Work, timer, wait and I/O objects.

ghost use Rattle.std.specs.Prelude.{◌≡◌, OnOk};
ghost use Rattle.tp_model.specs.Changes.{changed};
ghost use Rattle.tp_model.specs.Sources.{object_row as object_row_of};

use crate::rows::{Rows, numbered, put};
use std::alloc::AllocError;
use tp_base::calls::{Environ, Kind, Priority};
use tp_base::ids::{GroupId, ObjectId, PoolId, RoutineId};
use tp_base::plans::Change;
use tp_base::rows::ObjectRow;

// In place of an object that was never made.
const NO_OBJECT: ObjectRow = ObjectRow {
    kind: Kind::Work,
    released: false,
    routine: RoutineId(0),
    context: 0,
    env: Environ {
        pool: PoolId(0),
        group: GroupId(0),
        cancel: RoutineId(0),
        priority: Priority::Normal,
        long: false,
        persistent: false,
    },
};

/// The object of a number.
pub(crate) fn object_row(objects: &[ObjectRow], object: ObjectId) -> ObjectRow
    ensures { result ≡ object_row_of objects.now object }
{
    numbered(objects, object.0).unwrap_or(NO_OBJECT)
}

impl Rows {
    pub(crate) fn create_object(&mut self, row: ObjectRow) -> Result<(), AllocError>
        ensures { OnOk result (self.new ≡ changed self.old (Change.CreateObject row)) }
    {
        self.objects.push(row)?;
        Ok(())
    }

    pub(crate) fn release_object(&mut self, object: ObjectId)
        ensures { self.new ≡ changed self.old (Change.ReleaseObject object) }
    {
        if let Some(row) = numbered(&self.objects, object.0) {
            let mut row = row;
            row.released = true;
            put(&mut self.objects, object.0, row);
            self.sources.disarm(object);
        }
    }
}
