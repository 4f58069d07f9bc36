//! The callbacks that a history has left.

ghost use Rattle.std.specs.Prelude.{◌≡◌, map, IfOk};
ghost use Rattle.tp_model.specs.History.{IsLegal};
ghost use Rattle.tp_model.specs.Laws.Once.{left};
ghost use Rattle.tp_model.specs.Over.{row_of};
ghost use Rattle.recorded.specs.Recordings.{world_behind};

use recorded::Recorded;
use std::alloc::{AllocError, Global};
use tp_base::ids::ObjectId;
use tp_model::Left;

/// A callback that is left: its number, its object (0 for a simple callback), and how far it has come.
pub type LeftRow = (u64, ObjectId, Left);

/// All that are left behind a book's history, by rising number.
pub fn left_callbacks<B: Recorded>(alloc: Global, book: &B) -> Result<Vec<LeftRow>, AllocError>
    requires { IsLegal (B.recording book.now).limits (B.recording book.now).capacity (B.recording book.now).history }
    ensures { IfOk result (λ rows. map row_of rows.items ≡ left (world_behind (B.recording book.now))) }
{
    let mut rows = Vec::new(alloc);
    let mut number = 0;
    while let Some(row) = book.left_after(number) {
        rows.push(row)?;
        number = row.0;
    }
    Ok(rows)
}
