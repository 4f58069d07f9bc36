//! A machine whose entries can be read back, and machines of whose histories something else is noted.
//!
//! An `Observed` is a machine of any kind beside an `Observer`, which is told each entry as it is made. It is
//! seen as the same history, so whatever takes a `Recorded` takes an `Observed` too.
//!
//! A `Kept` is one whose observer is the list of the entries, and `entry` and `entries` read that history.
//! The list gets its memory where the history is opened, and never more.
//!
//! ```text
//! let mut book = Kept::<Book>::try_open(alloc, program_limits(1, 4), 65_536)?;
//! book.step(Who::Client(1), Call::Finish);    // Outcome::Done(Answer::Done)
//! book.entry(0)                               // Some(Entry { who: Who::Client(1), call: Call::Finish, .. })
//! book.entry(1)                               // None
//! ```

#![tactic(auto)]

ghost use Rattle.std.specs.Prelude.{◌≡◌, ◌<◌, ◌^◌, length, slice_get, vec_capacity};
ghost use Rattle.kept_book.specs.Kept.{IsKept};

mod observed;

pub use observed::{Observed, Observer};
use recorded::Recorded;
use std::alloc::{AllocError, Global};
use tp_base::answers::{Answer, Entry};
use tp_base::calls::Call;
use tp_base::ids::Who;
use tp_base::limits::Limits;

/// A machine, and the entries of its history.
pub type Kept<B> = Observed<B, Vec<Entry>>;

impl Observer for Vec<Entry> {
    ghost HasNoted = { λ r entries. IsKept r entries.items (vec_capacity entries) };

    fn open(alloc: Global, limits: Limits, capacity: u32) -> Result<Vec<Entry>, AllocError> {
        Vec::with_capacity(alloc, capacity.max(limits.clients) as usize)
    }

    fn note(&mut self, who: Who, call: &Call, answer: &Answer) {
        let (call, answer) = (*call, *answer);
        self.push_reserved(Entry { who, call, answer });
    }
}

impl<B: Recorded> Kept<B> {
    /// The entry at this place of the history, the first at 0; `None` exactly where the history ends
    /// before it. It takes no memory.
    pub fn entry(&self, index: u32) -> Option<Entry>
        ensures { result ≡ slice_get self.now.history index }
    {
        self.observer().get(index as usize).copied()
    }

    /// All entries of the history, the first at place 0. There are fewer than 2^32. It takes no memory.
    pub fn entries(&self) -> &[Entry]
        ensures value { result.now ≡ self.now.history }
        ensures few { length self.now.history < 2 ^ 32 }
    {
        let _len = self.len();
        self.observer()
    }
}
