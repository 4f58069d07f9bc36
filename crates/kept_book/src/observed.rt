//! Machines of whose histories something is noted as they are made.

ghost use Rattle.std.specs.Prelude.{◌≡◌, IfOk};
ghost use Rattle.kept_book.specs.Observed.{HasPlace, opened, with_entry};
ghost use Rattle.recorded.specs.Recordings.{Recording};
ghost use Rattle.tp_base.specs.Ranges.{AreLimitsInRange};

use recorded::Recorded;
use std::alloc::{AllocError, Global};
use std::marker::Model;
use tp_base::answers::{Answer, Outcome};
use tp_base::calls::Call;
use tp_base::ids::{ObjectId, Who};
use tp_base::limits::Limits;
use tp_model::{Left, legal_fits};

/// What is noted of a history.
pub trait Observer: Drop {
    // What it has noted is of this history.
    ghost HasNoted: { Recording → Self → Type 0 };

    /// Notes nothing yet, of a history with no entries. It takes all the memory that it will ever need; an
    /// `AllocError` comes where that isn't there.
    fn open(alloc: Global, limits: Limits, capacity: u32) -> Result<Self, AllocError>
    where
        Self: Sized,
        requires { AreLimitsInRange limits }
        ensures { IfOk result (HasNoted (opened limits capacity)) };

    /// Notes the next entry. It takes no memory.
    fn note(&mut self, who: Who, call: &Call, answer: &Answer)
        requires { (r : Recording) × HasNoted r self.old × HasPlace r }
        ensures { (r : Recording) → HasNoted r self.old → HasNoted (with_entry r (record { who = who; call = call.now; answer = answer.now })) self.new };
}

/// A machine, and what is noted of its history as it is made. It is seen as the machine's history.
#[derive(Drop)]
pub struct Observed<B: Recorded, O: Observer> {
    book: B,
    observer: O,
}

impl<B: Recorded, O: Observer> Model for Observed<B, O> {
    ghost use Rattle.recorded.specs.Recordings.{Recording};

    ghost Value = { Recording };

    ghost view = { λ a. B.recording a.book };

    ghost invariant = { λ a. O.HasNoted (B.recording a.book) a.observer };
}

impl<B: Recorded, O: Observer> Observed<B, O> {
    /// What was noted.
    pub fn observer(&self) -> &O
        ensures { O.HasNoted self.now result.now }
    {
        &self.observer
    }

    /// The machine, and what was noted of its history.
    pub fn into_parts(self) -> (B, O)
        ensures machine { B.recording result.0 ≡ self }
        ensures noted { O.HasNoted self result.1 }
    {
        let Observed { book, observer } = self;
        (book, observer)
    }
}

impl<B: Recorded, O: Observer> Recorded for Observed<B, O> {
    ghost recording = { λ observed. observed };

    fn open(alloc: Global, limits: Limits, capacity: u32) -> Result<Observed<B, O>, AllocError> {
        let book = B::open(alloc, limits, capacity)?;
        let observer = O::open(alloc, limits, capacity)?;
        Ok(Observed { book, observer })
    }

    #[inline(always)]
    fn step_into(&mut self, who: Who, call: &Call, outcome: &mut Outcome) {
        self.book.step_into(who, call, outcome);
        if let Outcome::Done(answer) = outcome {
            legal_fits();
            let _len = self.book.len();
            self.observer.note(who, call, answer);
        }
    }

    fn len(&self) -> u32 {
        self.book.len()
    }

    fn room(&self) -> u64 {
        self.book.room()
    }

    fn is_over(&self) -> bool {
        self.book.is_over()
    }

    fn left_after(&self, number: u64) -> Option<(u64, ObjectId, Left)> {
        self.book.left_after(number)
    }

    fn limits(&self) -> Limits {
        self.book.limits()
    }

    fn capacity(&self) -> u32 {
        self.book.capacity()
    }

    fn now(&self) -> u64 {
        self.book.now()
    }

    fn next_deadline(&self) -> Option<u64> {
        self.book.next_deadline()
    }
}
