//! What a script says besides its calls, to who goes through its orders.

ghost use Rattle.std.specs.Prelude.{◌≡◌, IfOk};
ghost use Rattle.tp_explore.specs.Watched.{Watched};

use crate::mark::Marked;
use std::alloc::{AllocError, Global};
use tp_base::ids::RoutineId;
use tp_script::{Part, Progress, Routines};

/// Calls, part by part, and what is said between them.
pub trait Watches: Routines {
    ghost watched: { Self → Watched };

    /// Whether the operation of this place of a part may be refused.
    fn may_refuse(&self, part: Part, op: u32) -> bool
        ensures { result ≡ (watched self.now).may_refuse part op };

    /// The line of the text where that operation stands.
    fn line(&self, part: Part, op: u32) -> u32
        ensures { result ≡ (watched self.now).line part op };

    /// What a part says once it has come so far.
    fn marks(&self, alloc: Global, part: Part, at: &Progress) -> Result<Vec<Marked>, AllocError>
        ensures { IfOk result (λ marks. marks.items ≡ (watched self.now).marks part at.now) };

    /// All that a routine says.
    fn all_marks(&self, alloc: Global, routine: RoutineId) -> Result<Vec<Marked>, AllocError>
        ensures { IfOk result (λ marks. marks.items ≡ (watched self.now).all_marks routine) };
}
