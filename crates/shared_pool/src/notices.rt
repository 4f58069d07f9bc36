//! Who is told of the objects that a close of a group's members releases.

ghost use Rattle.std.specs.Prelude.{◌≡◌, ℕ, ◌+◌, ◌<◌, ◌∷◌, [], List, Option, Some, IfOk, slice_get, length};
ghost use Rattle.shared_pool.specs.declared.notices.Told.{Told};
ghost use Rattle.shared_pool.specs.Waits.{with_told};

use std::alloc::{AllocError, Global};
use std::marker::Model;
use tp_base::ids::{ObjectId, RoutineId};

/// What the cancel routine of an object is called with: `PTP_CLEANUP_GROUP_CANCEL_CALLBACK`.
#[derive(Clone, Copy, Debug, PartialEq)]
pub struct Told {
    pub object: ObjectId,
    /// The cancel routine of the environment that the object was made with.
    pub routine: RoutineId,
    /// The context that the object was made with.
    pub context: u64,
    /// The context of the close.
    pub cleanup: u64,
}

/// One who is told of each object that a close of a group's members gives a notice of. It is seen as
/// the list of what it was told, where it tells that, and how many more it can be told of.
pub trait Notices {
    ghost told: { Self → Option (List Told) };

    ghost room: { Self → ℕ };

    /// How many more notices it takes.
    fn spare(&self) -> u32
        ensures { result ≡ room self.now };

    /// Tells it of an object: its number, its cancel routine, its context and that of the close. There
    /// is room for it.
    fn notice(&mut self, object: ObjectId, routine: RoutineId, context: u64, cleanup: u64)
        requires { 0 < room self.old }
        ensures told { told self.new ≡ with_told (record { object = object; routine = routine; context = context; cleanup = cleanup } ∷ []) (told self.old) }
        ensures room { room self.new + 1 ≡ room self.old };
}

/// Notices in memory, seen as the list of them and how many more there is room for.
#[derive(Drop)]
pub struct NoticeList {
    list: Vec<Told>,
    spare: u32,
}

impl Model for NoticeList {
    ghost use Rattle.std.specs.Prelude.{◌+◌, ◌≤◌, length, vec_capacity};
    ghost use Rattle.shared_pool.specs.Notices.{Noted};

    ghost Value = { Noted };

    ghost view = { λ notices. record { told = notices.list.items; spare = notices.spare } };

    ghost invariant = { λ notices. length notices.list.items + notices.spare ≤ vec_capacity notices.list };
}

impl NoticeList {
    /// An empty list with room for `spare` notices.
    ///
    /// All of its memory is taken here, and the error comes where it is refused.
    pub fn open(alloc: Global, spare: u32) -> Result<NoticeList, AllocError>
        ensures told { IfOk result (λ notices. ⟦<NoticeList as Notices>⟧.told notices ≡ Some []) }
        ensures room { IfOk result (λ notices. ⟦<NoticeList as Notices>⟧.room notices ≡ spare) }
    {
        Ok(NoticeList {
            list: Vec::with_capacity(alloc, spare as usize)?,
            spare,
        })
    }

    /// The notice at a place from 0 on; None exactly where there are no more.
    pub fn get(&self, index: u32) -> Option<Told>
        ensures { result ≡ slice_get self.now.told index }
    {
        self.list.get(index as usize).copied()
    }
}

impl Notices for NoticeList {
    ghost use Rattle.std.specs.Prelude.{Some};

    ghost told = { λ notices. Some notices.told };

    ghost room = { λ notices. notices.spare };

    fn spare(&self) -> u32 {
        self.spare
    }

    fn notice(&mut self, object: ObjectId, routine: RoutineId, context: u64, cleanup: u64) {
        self.list.push_reserved(Told {
            object,
            routine,
            context,
            cleanup,
        });
        self.spare -= 1;
    }
}
