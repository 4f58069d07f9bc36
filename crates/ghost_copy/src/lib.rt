//! A value as it was at one moment, for contracts alone. It takes no bytes, and nothing of it is run.
//!
//! ```text
//! let before = GhostCopy::of(&world);
//! world.begin(who);                   // a contract can still speak of `before.value`
//! ```
//!
//! The kit's `std::snapshot::Snapshot` says the same. This one may go to another thread together with all
//! that it is a part of: the check finds that for every type with a part of this one by itself, where of a
//! type with a `Snapshot` it is searched for through all parts, and not found in a large one.

#![tactic(auto)]

ghost use Rattle.std.specs.Prelude.{◌≡◌};
ghost use Rattle.std.specs.Borrow.{ftrue};

use std::marker::{Model, PhantomData};

/// What a value was, when the copy was made.
#[derive(Drop)]
pub struct GhostCopy<T> {
    marker: PhantomData<T>,
    pub ghost value: { T },
}

impl<T> Model for GhostCopy<T> {
    ghost also_owns = { λ _. ftrue };
}

// It owns nothing.
unsafe impl<T> Send for GhostCopy<T> {}

impl<T> GhostCopy<T> {
    /// What `of` is now.
    #[inline(always)]
    pub fn of(_of: &T) -> GhostCopy<T>
        ensures { result.value ≡ _of.now }
    {
        GhostCopy {
            marker: PhantomData,
        }
    }
}
