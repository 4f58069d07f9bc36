//! What a machine does does not depend on the numbers of its callbacks, nor on which worker does something: these are
//! names, which say which one is meant, and nothing else.
//!
//! `specs/Renamed` has a world with other numbers for its callbacks, and calls, answers and changes likewise.
//! `specs/Closed` has a world of which the names are forgotten: its living callbacks are numbered from 1 in their order, and
//! its waits cover nothing that isn't outstanding any more. So worlds that differ in numbers alone are one when closed.
//! `specs/Exchanged` has a world where two workers change places. The functions do nothing: who calls one knows what its
//! contract says.
//!
//! ```text
//! numbers_are_names();        // from here on plans and changes of renamed worlds are known
//! closed_worlds_are_sound();  // and that a closed world is like those that calls lead to
//! closed_worlds_tell_all();   // and that of two worlds that are closed to one the same comes, up to numbers
//! workers_are_names();        // and plans and changes of worlds where two workers change places
//! ```

#![tactic(auto)]

ghost use Rattle.std.specs.Prelude.{◌≡◌, ◌+◌, ◌<◌, ℕ, length};
ghost use Rattle.tp_base.specs.declared.answers.Answer.{Answer};
ghost use Rattle.tp_base.specs.declared.calls.Call.{Call};
ghost use Rattle.tp_base.specs.declared.ids.Who.{Who};
ghost use Rattle.tp_base.specs.declared.plans.Change.{Change};
ghost use Rattle.tp_base.specs.declared.plans.Plan.TheVariants.{Does};
ghost use Rattle.tp_model.specs.Changes.{changed};
ghost use Rattle.tp_model.specs.Support.Allowed.{IsAllowed};
ghost use Rattle.tp_model.specs.Support.Remembered.{forget};
ghost use Rattle.tp_model.specs.Support.Sound.{IsSound};
ghost use Rattle.tp_model.specs.Table.{plan_at};
ghost use Rattle.tp_model.specs.World.{World};
ghost use Rattle.renamed_worlds.specs.Closed.{closed, closed_call, closed_next, number_in, ComesToOne};
ghost use Rattle.renamed_worlds.specs.Exchanged.{exchanged, exchanged_change, exchanged_plan, exchanged_who, IsByWorker};
ghost use Rattle.renamed_worlds.specs.Renamed.{renamed, renamed_call, renamed_change, renamed_plan, IsNaming, IsNumberedOn};

/// In a world with other numbers for its callbacks each call comes to the same, with those numbers, and each change makes
/// the same of it. It does nothing: who calls it knows this.
pub fn numbers_are_names()
    ensures plans { (name : ℕ → ℕ) → IsNaming name → (w : World) (next_number room : ℕ) (who : Who) (call : Call) → plan_at (renamed name w) (name next_number) room who (renamed_call name call) ≡ renamed_plan name (plan_at w next_number room who call) }
    ensures changes { (name : ℕ → ℕ) → IsNaming name → (w : World) (how : Change) → IsNumberedOn name how → changed (renamed name w) (renamed_change name how) ≡ renamed name (changed w how) }
{}

/// A closed world is one like those that calls lead to: it is as sound as the world, with the number behind its callbacks for the
/// next one, and all its callbacks live. It does nothing: who calls it knows this.
pub fn closed_worlds_are_sound()
    ensures sound { (next_number : ℕ) (w : World) → IsSound next_number w → IsSound (closed_next w) (closed w) }
    ensures living { (w : World) → forget (closed w) ≡ closed w }
{}

/// What a call comes to is told by the closed world, up to numbers, and so is the world behind it, once that is closed. So of
/// two worlds that are closed to one the same comes. It does nothing: who calls it knows this.
pub fn closed_worlds_tell_all()
    ensures plans { (next_number : ℕ) (w : World) → IsSound next_number w → (room : ℕ) (who : Who) (call : Call) → plan_at w next_number room who call ≡ renamed_plan (number_in w next_number) (plan_at (closed w) (closed_next w) room who (closed_call w call)) }
    ensures changes { (next_number : ℕ) (w : World) → IsSound next_number w → (room : ℕ) (who : Who) (call : Call) (told : Answer) (how : Change) → plan_at (closed w) (closed_next w) room who (closed_call w call) ≡ Does told how → closed (changed w (renamed_change (number_in w next_number) how)) ≡ closed (changed (closed w) how) }
    ensures again { (next_number : ℕ) (w : World) → IsSound next_number w → closed (closed w) ≡ closed w }
    ensures alike { (next_number other_number : ℕ) (w other : World) → IsSound next_number w → IsSound other_number other → closed w ≡ closed other → (room : ℕ) (who : Who) (call same : Call) → closed_call w call ≡ closed_call other same → ComesToOne next_number other_number w other room who call same }
{}

/// In a world where two workers of neighbouring numbers change places each call of an actor comes to what it comes to in the
/// world, with these in the other's place, and each change makes the same of it; and so it closes. Since any order of workers
/// comes of such exchanges, which worker does something makes no difference. It does nothing: who calls it knows this.
pub fn workers_are_names()
    ensures plans { (at : ℕ) (w : World) → at + 1 < length w.workers → (next_number room : ℕ) (who : Who) (call : Call) → plan_at (exchanged at w) next_number room (exchanged_who at who) call ≡ exchanged_plan at (plan_at w next_number room who call) }
    ensures changes { (at : ℕ) (w : World) → at + 1 < length w.workers → (how : Change) → IsByWorker how → changed (exchanged at w) (exchanged_change at how) ≡ exchanged at (changed w how) }
    ensures by_worker { (next_number : ℕ) (w : World) (how : Change) → IsAllowed next_number w how → IsByWorker how }
    ensures by_other { (at : ℕ) (how : Change) → IsByWorker how → IsByWorker (exchanged_change at how) }
    ensures closes { (at : ℕ) (w : World) → at + 1 < length w.workers → closed (exchanged at w) ≡ exchanged at (closed w) }
{}
