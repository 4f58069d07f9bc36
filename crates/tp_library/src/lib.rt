//! Libraries beside a machine: what `LoadLibrary` and `FreeLibrary`, `SetThreadpoolCallbackLibrary` and
//! `FreeLibraryWhenCallbackReturns` come to.
//!
//! A library is held by each load that wasn't freed, by each object that was made in it and isn't
//! released, and by each of its callbacks that may still run or runs. It goes with the step after which
//! nothing holds it any more; so no callback of a library that is gone is ever run.
//!
//! A `LibraryBook` is a machine of any kind with the libraries of its program, and is seen as a `Stand`
//! (specs/Shelves): the machine's recording, and a shelf of what was loaded and what was made in which
//! library. `open` takes all memory. `step` makes a call of an actor, and comes to what the definition
//! `step_at` (specs/Libraries) says; `holds` tells by how much a library is held, and `was_unloaded` whether
//! the last step let it go; `book` is the machine. The README beside this folder tells what is counted so
//! that none of them looks through the machine's world.
//!
//! ```text
//! let mut book = LibraryBook::<Book>::open(alloc, program_limits(1, 4), 65_536)?;
//! let library = LibraryId(1);
//! book.step(Who::Client(1), LibCall::Load { library });              // LibAnswer::Done
//! book.step(Who::Client(1), LibCall::Pool { call: submit, library }); // Pool(Done(Queued { first: 1, count: 1 }))
//! book.step(Who::Client(1), LibCall::Free { library });              // Done: the callback still holds it
//! book.holds(library)                                                // 1
//! // behind the callback's return
//! book.was_unloaded(library)                                         // true
//! ```

#![tactic(auto)]

mod actors;
mod beside;
mod book;
mod counts;
mod layer;
pub mod lines;
mod shelf;
mod tally;
mod told;

pub use book::{LibraryBook, asked_is_made};
pub use layer::play_libraries;
use tp_base::answers::Outcome;
use tp_base::calls::Call;

/// The greatest number of a library. 0 stands for none.
pub const LIBRARY_LIMIT: u32 = 255;

/// How often a library is loaded at most.
pub const LOAD_LIMIT: u32 = 65_535;

/// The number of a library, from 1 to 255. 0 stands for none.
#[derive(Clone, Copy)]
pub struct LibraryId(pub u32);

/// A call of a program with libraries.
#[derive(Clone, Copy)]
pub enum LibCall {
    /// Loads a library once more: `LoadLibrary`.
    Load { library: LibraryId },
    /// Takes one load of a library back: `FreeLibrary`.
    Free { library: LibraryId },
    /// Leaves it to the return of the actor's callback: `FreeLibraryWhenCallbackReturns`.
    FreeOnReturn { library: LibraryId },
    /// A call of the machine. What it makes is of the library, or of none where that is 0:
    /// `SetThreadpoolCallbackLibrary`.
    Pool { call: Call, library: LibraryId },
}

/// Why a call of this layer is refused.
#[derive(Clone, Copy)]
pub enum LibRefusal {
    /// There is no such actor.
    NoSuch,
    /// The actor is a client that has finished.
    Released,
    /// The actor runs no callback.
    NotRunning,
    /// The callback frees a library at its return already.
    SlotTaken,
    /// Nothing holds the library that something is to be made in.
    LibraryNotLoaded,
    /// The library has no load that could be taken back.
    NoLoadLeft,
    /// The library is loaded as often as it may be.
    LoadLimit,
}

/// What a call comes to.
#[derive(Clone, Copy)]
pub enum LibAnswer {
    Done,
    /// The machine's outcome.
    Pool(Outcome),
    /// A refusal of this layer. The machine wasn't asked.
    Refused(LibRefusal),
}
