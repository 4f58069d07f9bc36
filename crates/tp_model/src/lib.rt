//! The machine as definitions: worlds, steps, histories, and the laws that every legal history
//! keeps. The README beside this folder tells how they hang together.
//!
//! Nothing here is run, but a caller can know something by it. In the body of a function that has a
//! legal history, the line `legal_keeps_laws();` gives the proof that the history keeps the laws:
//! no callback of it was taken twice, none above its pool's maximum, none that a wait or a close of a
//! group was for after that has ended, and none of an operation but with the error and the bytes with
//! which it had completed; each return tells of exactly the actions that its callback asked for; no
//! wait object got two callbacks for one time that it was set; a close of a group gave a notice of
//! exactly the members that were to get one, each once and in order; and the persistent callbacks of a
//! pool were run by one worker, which left the pool only once it was closed.

#![tactic(auto)]

ghost use Rattle.std.specs.Prelude.{Bool, ◌≡◌, ℕ, ◌+◌, ◌<◌, ◌≤◌, true, List, ◌++◌, length};
ghost use Rattle.std.specs.List.{All};
ghost use Rattle.tp_base.specs.declared.answers.Entry.{Entry};
ghost use Rattle.tp_base.specs.declared.ids.Who.{Who};
ghost use Rattle.tp_base.specs.declared.limits.Limits.{Limits};
ghost use Rattle.tp_model.specs.Conditions.{is_actor, is_in_wait};
ghost use Rattle.tp_model.specs.Counts.{next, owed};
ghost use Rattle.tp_model.specs.History.{after, IsLegal};
ghost use Rattle.tp_model.specs.Laws.{KeepsLaws};
ghost use Rattle.tp_model.specs.Laws.Notices.{numbers_created, IsClosing};
ghost use Rattle.tp_model.specs.Next.{IsNextOrNone};
ghost use Rattle.tp_model.specs.Stages.{IsActor, MachineFacts};
ghost use Rattle.tp_model.specs.Stalling.{StaysStalled};

/// How far a callback has come that is left after a history: it may still run.
#[derive(Clone, Copy)]
pub enum Left {
    /// Its operation was announced (`StartThreadpoolIo`) and not issued yet.
    Expected,
    /// Its operation is under way.
    Issued,
    /// It waits for a worker.
    Pending,
}

/// Whoever keeps callbacks, as contracts see it. It has no functions: what is to be told which
/// callbacks someone keeps takes a reference with this bound.
pub trait KeepsCallbacks {
    ghost use Rattle.std.specs.Prelude.{List};
    ghost use Rattle.tp_base.specs.declared.rows.CallbackRow.{CallbackRow};

    /// Their rows.
    ghost rows: { Self → List CallbackRow };
}

/// Every legal history keeps the laws, with any limits and any capacity. It does nothing: who calls
/// it knows this.
#[tactic(auto, using(crate::proofs::Laws::keeps_laws))]
pub fn legal_keeps_laws()
    ensures laws { (limits : Limits) (capacity : ℕ) (history : List Entry) → IsLegal limits capacity history → KeepsLaws limits history }
{}

/// A legal history and the entries that are owed behind it are no more than its capacity, unless more
/// clients have to finish than that. It does nothing: who calls it knows this.
pub fn legal_fits()
    ensures { (limits : Limits) (capacity most : ℕ) (history : List Entry) → capacity ≤ most → limits.clients ≤ most → IsLegal limits capacity history → length history + owed (after limits history) ≤ most }
{}

/// The callback that a pool's worker takes next is pending there and one that this worker may take, and
/// of those it is of the highest priority, and of these of the least number. It does nothing: who calls
/// it knows this.
#[tactic(auto, using(crate::proofs::Laws::next_is_first))]
pub fn next_comes_first()
    ensures { (limits : Limits) (capacity : ℕ) (history : List Entry) → IsLegal limits capacity history → (pool : ℕ) (persistent : Bool) → IsNextOrNone (after limits history) pool persistent (next (after limits history) pool persistent) }
{}

/// Of a legal history: who has begun a close of a group with cancel and not ended it is in a wait, its
/// actors are those of the limits, and no more objects were made than these allow. It does nothing: who
/// calls it knows this.
#[tactic(auto, using(crate::proofs::Laws::closing_waits, crate::proofs::Laws::actors, crate::proofs::Laws::few_created))]
pub fn legal_bounds_closes()
    ensures in_wait { (limits : Limits) (capacity : ℕ) (history : List Entry) → IsLegal limits capacity history → (who : Who) → IsClosing history who → is_in_wait (after limits history) who ≡ true }
    ensures actors { (limits : Limits) (capacity : ℕ) (history : List Entry) → IsLegal limits capacity history → (who : Who) → is_actor (after limits history) who ≡ true → IsActor limits who }
    ensures few { (limits : Limits) (capacity : ℕ) (history : List Entry) → IsLegal limits capacity history → length (numbers_created history) ≤ limits.objects }
{}

/// What a legal history tells of where its actors stand, and what the machine then gives them. It does
/// nothing: who calls it knows this.
#[tactic(auto, using(crate::proofs::Facts::machine_facts))]
pub fn legal_gives_facts()
    ensures { (limits : Limits) (capacity : ℕ) (history : List Entry) → IsLegal limits capacity history → MachineFacts limits history }
{}

/// A stalled machine stays so. Where it would answer some actor's `End` with `Stalled`, look at what is
/// recorded from there on: until some `End` is answered with `Stalled` or `Exhausted`, every entry is a
/// refusal, or a worker joins a pool or leaves one. So a stall is answered only where nobody could have
/// gone on. It does nothing: who calls it knows this.
#[tactic(auto, using(crate::proofs::Stalling::stays_stalled))]
pub fn legal_tells_stalls()
    ensures { (limits : Limits) (capacity : ℕ) (history more : List Entry) → IsLegal limits capacity (history ++ more) → StaysStalled limits capacity history more }
{}

/// Whatever is set behind a legal history, a timer or the timeout of an armed wait, is due later than
/// the clock: what was due has expired. It does nothing: who calls it knows this.
#[tactic(auto, using(crate::proofs::Ahead::lies_ahead))]
pub fn legal_lies_ahead()
    ensures { (limits : Limits) (capacity : ℕ) (history : List Entry) → IsLegal limits capacity history → All (λ s. (after limits history).now < s.due) (after limits history).settings }
{}
