//! The machine itself, as `recorded` sees one: a type that keeps the engine, the limits, the capacity
//! and what was written down.
//!
//! A book is seen as a history with its limits and its capacity. The type itself keeps that this
//! history is legal and that its engine stands for the world after it; nothing above names the
//! engine. Its calls and their contracts are those of `recorded::Recorded`.
//!
//! ```text
//! let mut book = Book::open(alloc, program_limits(1, 4), 65_536)?;
//! book.step(Who::Client(1), Call::Finish)   // Outcome::Done(Answer::Done)
//! book.step(Who::Worker(1), Call::Attach)   // Outcome::Look(Look::NoNeed)
//! book.len()                                // 1
//! book.room()                               // 65_535
//! ```

#![tactic(auto)]

ghost use Rattle.std.specs.Prelude.{◌≡◌, ℕ, ◌+◌, ◌≤◌, List, ◌++◌, length};
ghost use Rattle.tp_base.specs.declared.answers.Entry.{Entry};
ghost use Rattle.tp_base.specs.declared.limits.Limits.{Limits as Bounds};
ghost use Rattle.tp_model.specs.Counts.{owed};
ghost use Rattle.tp_model.specs.History.{after, room, IsLegal};
ghost use Rattle.tp_model.specs.Laws.{KeepsLaws};
ghost use Rattle.tp_model.specs.Stalling.{StaysStalled};

use past::Past;
use pool_core::Engine;
use recorded::Recorded;
use std::alloc::{AllocError, Global};
use std::marker::Model;
use tp_base::answers::Outcome;
use tp_base::calls::Call;
use tp_base::ids::{ObjectId, Who};
use tp_base::limits::Limits;
use tp_base::plans::Change;
use tp_model::Left;

mod past;

/// A history that is being made, and the machine that it is made on.
pub struct Book {
    engine: Engine,
    // Where the engine writes what an accepted call changes.
    change: Change,
    limits: Limits,
    capacity: u32,
    len: u32,
    past: Past,
}

impl Model for Book {
    ghost use Rattle.recorded.specs.Recordings.{Recording};

    ghost Value = { Recording };

    ghost use Rattle.pool_book.specs.Kept.{recording, IsKept};

    ghost view = { recording };

    ghost invariant = { IsKept };
}

// By hand, and so proved once: a derived one is gone through, down to the engine's lists, in each function that can end
// with a book of its own.
impl Drop for Book {
    fn drop(self) {
        let Book {
            engine,
            change: _,
            limits: _,
            capacity: _,
            len: _,
            past: _,
        } = self;
        drop(engine);
    }
}

impl Recorded for Book {
    ghost recording = { λ book. book };

    fn open(alloc: Global, limits: Limits, capacity: u32) -> Result<Book, AllocError> {
        let engine = Engine::open(alloc, limits)?;
        Ok(Book {
            engine,
            change: Change::Keep,
            limits,
            capacity,
            len: 0,
            past: Past::none(),
        })
    }

    #[inline(always)]
    fn step_into(&mut self, who: Who, call: &Call, outcome: &mut Outcome) {
        let room = self.room();
        self.engine
            .step_into(who, call, room, outcome, &mut self.change);
        if let Outcome::Done(answer) = outcome {
            self.len += 1;
            self.past.push(&who, call, answer);
        }
    }

    fn len(&self) -> u32 {
        self.len
    }

    fn room(&self) -> u64 {
        u64::from(self.capacity.saturating_sub(self.len)).saturating_sub(self.engine.owed())
    }

    fn is_over(&self) -> bool {
        self.engine.is_over(self.room())
    }

    fn left_after(&self, number: u64) -> Option<(u64, ObjectId, Left)> {
        self.engine.left_after(number)
    }

    fn limits(&self) -> Limits {
        self.limits
    }

    fn capacity(&self) -> u32 {
        self.capacity
    }

    fn now(&self) -> u64 {
        self.engine.now()
    }

    fn next_deadline(&self) -> Option<u64> {
        self.engine.next_deadline()
    }
}

impl Book {
    /// The history of every book is legal, and keeps the laws. Behind each place of it where the machine
    /// would answer an `End` with `Stalled`, only workers that join a pool or leave one are accepted, until
    /// an `End` is answered with `Stalled` or `Exhausted`. It does nothing: who calls it knows this.
    pub fn laws_are_kept(&self)
        ensures legal { IsLegal self.now.limits self.now.capacity self.now.history }
        ensures laws { KeepsLaws self.now.limits self.now.history }
        ensures stalls { (history more : List Entry) → self.now.history ≡ history ++ more → StaysStalled self.now.limits self.now.capacity history more }
    {
        let _ = &self.len;
    }
}

/// No call gives room back: behind a legal history there are never fewer entries, with those that are owed, than
/// behind an earlier part of it. So the `room` that a book has told once is the most that it will ever have, and
/// where it was too little for something, it stays so. It does nothing: who calls it knows this.
#[tactic(auto, using(crate::proofs::Spending::never_falls, crate::proofs::Spending::room_never_grows))]
pub fn legal_gives_no_room_back()
    ensures spent { (limits : Bounds) (capacity : ℕ) (history more : List Entry) → IsLegal limits capacity (history ++ more) → length history + owed (after limits history) ≤ length (history ++ more) + owed (after limits (history ++ more)) }
    ensures room { (limits : Bounds) (capacity : ℕ) (history more : List Entry) → IsLegal limits capacity (history ++ more) → room capacity (after limits (history ++ more)) (length (history ++ more)) ≤ room capacity (after limits history) (length history) }
{}
