//! A machine and its libraries.

ghost use Rattle.std.specs.Prelude.{◌≡◌, ◌+◌, ◌-◌, ◌*◌, ◌^◌, ◌<◌, ◌≤◌, ℕ, List, Err, IfErr, IfOk, false, length};
ghost use Rattle.recorded.specs.declared.OpenFault.TheVariants.{NoMemory, TooSmall};
ghost use Rattle.recorded.specs.Recordings.{all_made, world_behind};
ghost use Rattle.tp_base.specs.declared.ids.Who.{Who as Actor};
ghost use Rattle.tp_base.specs.Ranges.{AreLimitsInRange, IsCallInRange};
ghost use Rattle.tp_model.specs.History.{IsLegal};
ghost use Rattle.tp_model.specs.Laws.{KeepsLaws};
ghost use Rattle.tp_model.specs.Laws.Once.{left};
ghost use Rattle.tp_library.specs.Kept.{stand_of, IsKept};
ghost use Rattle.tp_library.specs.Rows.{counted_left, rows_in};
ghost use Rattle.tp_library.specs.Laws.{AreLoaded};
ghost use Rattle.tp_library.specs.declared.LibCall.{LibCall as Asked};
ghost use Rattle.tp_library.specs.Libraries.{all_asked, is_unloaded, may_have_library, opening, stand_after, step_at, IsLibCallInRange, IsLibrary};
ghost use Rattle.tp_library.specs.Seen.{was_unloaded, IsLibAnswerInRange};
ghost use Rattle.tp_library.specs.Shelves.{holds, Stand};
ghost use Rattle.tp_library.specs.Tallies.{at};

use crate::beside::Beside;
use crate::counts::Counts;
use crate::shelf::Shelf;
use crate::told::{Effect, effect_of, made};
use crate::{LIBRARY_LIMIT, LibAnswer, LibCall, LibRefusal, LibraryId};
use recorded::{OpenFault, Recorded};
use std::alloc::Global;
use std::marker::Model;
use tp_base::answers::Outcome;
use tp_base::calls::Call;
use tp_base::ids::Who;
use tp_base::limits::Limits;
use tp_model::legal_keeps_laws;

/// A machine, and the libraries that its program loads and frees.
///
/// It is seen as the stand that it has come to, and by library as whether something held it before the
/// last step.
#[derive(Drop)]
pub struct LibraryBook<B: Recorded> {
    book: B,
    beside: Beside,
}

impl<B: Recorded> Model for LibraryBook<B> {
    ghost use Rattle.tp_library.specs.Seen.{Seen};

    ghost Value = { Seen };

    ghost use Rattle.tp_library.specs.Kept.{stand_of, IsKept};

    ghost view = { λ a. record { stand = stand_of (B.recording a.book) a.beside; before = a.beside.before.items } };

    ghost invariant = { λ a. IsKept (B.recording a.book) a.beside };
}

impl<B: Recorded> LibraryBook<B> {
    /// Opens a history with no entries, on a machine of these limits that has made no step and a program
    /// that has loaded nothing. The history will have room for `capacity` entries.
    ///
    /// It takes all the memory that will ever be needed: `NoMemory` comes where that isn't there.
    /// `TooSmall` comes exactly where the capacity is below the number of clients.
    pub fn open(alloc: Global, limits: Limits, capacity: u32) -> Result<LibraryBook<B>, OpenFault>
        requires { AreLimitsInRange limits }
        ensures stand { IfOk result (λ made. made.stand ≡ opening limits capacity) }
        ensures none_unloaded { IfOk result (λ made. (library : ℕ) → was_unloaded made library ≡ false) }
        ensures too_small { capacity < limits.clients → result ≡ Err (TooSmall capacity limits.clients) }
        ensures no_memory { limits.clients ≤ capacity → IfErr result (λ fault. fault ≡ NoMemory) }
    {
        let book = B::try_open(alloc, limits, capacity)?;
        let beside = Beside::open(alloc, limits, capacity)?;
        Ok(LibraryBook { book, beside })
    }

    /// Makes a call of an actor, whose numbers are in range: a library from 1 to 255, or with a call of the
    /// machine 0 to 255, and above 0 only where that makes an object or a simple callback.
    ///
    /// `LibRefusal` has the refusals of this layer; the one that comes is the first, in their order, whose
    /// condition holds. Such a call isn't made on the machine, and nothing changes. Else a call of the
    /// machine comes to the machine's outcome. It takes no memory.
    pub fn step(&mut self, who: Who, call: LibCall) -> LibAnswer
        requires { IsLibCallInRange call }
        ensures answer { result ≡ (step_at self.old.stand who call).1 }
        ensures stand { self.new.stand ≡ (step_at self.old.stand who call).0 }
        // What the step let go.
        ensures unloaded { (library : ℕ) → IsLibrary library → was_unloaded self.new library ≡ is_unloaded self.old.stand self.new.stand library }
        // Each number of it can stand in a line.
        ensures in_range { IsLibAnswerInRange result }
        ensures legal { IsLegal self.new.stand.recording.limits self.new.stand.recording.capacity self.new.stand.recording.history }
        ensures laws { KeepsLaws self.new.stand.recording.limits self.new.stand.recording.history }
        // The library of whatever may still run is held.
        ensures loaded { AreLoaded self.new.stand }
    {
        legal_keeps_laws();
        self.beside.remember();
        match call {
            LibCall::Load { library } => self.beside.load(who, library),
            LibCall::Free { library } => self.beside.free(who, library),
            LibCall::FreeOnReturn { library } => self.beside.free_on_return(who, library),
            LibCall::Pool { call, library } => {
                ask(&mut self.book, &mut self.beside, who, call, library)
            }
        }
    }

    /// By how much a library is held: how often it is loaded, the objects of it that aren't released, and
    /// its callbacks that may still run or run.
    pub fn holds(&self, library: LibraryId) -> u64
        requires { IsLibrary library.0 }
        ensures { result ≡ holds self.now.stand library.0 }
    {
        self.beside.held(library.0)
    }

    /// Whether the last step let a library go: something held it before, and nothing does now. False before
    /// the first step.
    pub fn was_unloaded(&self, library: LibraryId) -> bool
        requires { IsLibrary library.0 }
        ensures { result ≡ was_unloaded self.now library.0 }
    {
        self.beside.before[library.0 as usize] && !self.beside.is_held(library.0)
    }

    /// The machine.
    pub fn book(&self) -> &B
        ensures { B.recording result.now ≡ self.now.stand.recording }
    {
        &self.book
    }
}

/// What calls with libraries lead to one after another has made on its machine just the calls of it that
/// weren't refused here, in their order. It does nothing: who calls it knows this, and by `made_is_played`
/// of recorded that the history goes on with their entries.
#[tactic(auto, using(crate::proofs::AllAsked::asked_made))]
pub fn asked_is_made()
    ensures { (t : Stand) (calls : List (Actor × Asked)) → (stand_after t calls).recording ≡ all_made t.recording (all_asked t calls) }
{}

// A call of the machine. What it makes is of a library, or of none where that is 0.
fn ask<B: Recorded>(
    book: &mut B,
    beside: &mut Beside,
    who: Who,
    call: Call,
    library: LibraryId,
) -> LibAnswer
    requires kept { IsKept (B.recording book.old) beside.old }
    requires call { IsLibCallInRange (LibCall.Pool call library) }
    ensures kept { IsKept (B.recording book.new) beside.new }
    ensures step { step_at (stand_of (B.recording book.old) beside.old) who (LibCall.Pool call library) ≡ (stand_of (B.recording book.new) beside.new, result) }
    ensures before { beside.new.before ≡ beside.old.before }
    ensures in_range { IsLibAnswerInRange result }
{
    if library.0 > 0 && !beside.is_held(library.0) {
        return LibAnswer::Refused(LibRefusal::LibraryNotLoaded);
    }
    let outcome = book.step(who, call);
    if let Outcome::Done(answer) = outcome {
        let effect = effect_of(&call, &answer);
        beside.note(who, effect, library.0);
        let (first, count) = made(&call, &answer);
        count_changed(
            book,
            &beside.shelf,
            &mut beside.counts,
            effect,
            first,
            count,
        );
    }
    LibAnswer::Pool(outcome)
}

// Counts the callbacks that a call made, so many from the first on; and all of them where it cancelled
// those of a group.
fn count_changed<B: Recorded>(
    book: &B,
    shelf: &Shelf,
    counts: &mut Counts,
    effect: Effect,
    first: u64,
    count: u32,
)
    requires legal { IsLegal (B.recording book.now).limits (B.recording book.now).capacity (B.recording book.now).history }
    requires many { length counts.old.left ≡ LIBRARY_LIMIT + 1 }
    requires fits { (library : ℕ) → library ≤ LIBRARY_LIMIT → counted_left shelf.now.shelf library effect first count (left (world_behind (B.recording book.now))) counts.old.left < 2 ^ 64 }
    ensures left { (library : ℕ) → library ≤ LIBRARY_LIMIT → at counts.new.left library ≡ counted_left shelf.now.shelf library effect first count (left (world_behind (B.recording book.now))) counts.old.left }
    ensures many { length counts.new.left ≡ LIBRARY_LIMIT + 1 }
    ensures same { counts.new ≡ record counts.old { left = counts.new.left } }
{
    if let Effect::Closes { cancelled, .. } = effect {
        if cancelled > 0 {
            counts.clear_left();
            count_above(book, shelf, counts, 0);
        }
    } else if count > 0 {
        count_above(book, shelf, counts, first.saturating_sub(1));
    }
}

// Counts the callbacks above a number that may still run.
fn count_above<B: Recorded>(book: &B, shelf: &Shelf, counts: &mut Counts, number: u64)
    requires legal { IsLegal (B.recording book.now).limits (B.recording book.now).capacity (B.recording book.now).history }
    requires many { length counts.old.left ≡ LIBRARY_LIMIT + 1 }
    requires fits { (library : ℕ) → library ≤ LIBRARY_LIMIT → at counts.old.left library + rows_in shelf.now.shelf library number (left (world_behind (B.recording book.now))) < 2 ^ 64 }
    ensures left { (library : ℕ) → library ≤ LIBRARY_LIMIT → at counts.new.left library ≡ at counts.old.left library + rows_in shelf.now.shelf library number (left (world_behind (B.recording book.now))) }
    ensures many { length counts.new.left ≡ LIBRARY_LIMIT + 1 }
    ensures same { counts.new ≡ record counts.old { left = counts.new.left } }
{
    let mut number = number;
    while let Some((callback, object, _)) = book.left_after(number) {
        counts.add_left(shelf.library_at(callback, object));
        number = callback;
    }
}
