//! Turns that are drawn, of roles on a machine of their own.

ghost use Rattle.std.specs.Prelude.{◌≡◌, ◌≤◌, true, OnOk};
ghost use Rattle.recorded.specs.Recordings.{is_over_behind};
ghost use Rattle.tp_model.specs.History.{IsLegal};
ghost use Rattle.worker_gate.specs.Drawn.{open_places, AreDrawn, AreDrawnFrom, AreDrawnOn, HasPassed};
ghost use Rattle.part_places.specs.Places.{given};
ghost use Rattle.worker_gate.specs.Rounds.{scene, AllOf, EndedWell, HaveEnded, HaveOpenRoles, IsSameMachine};

use crate::role::{Gate, Role, Turn};
use rand_core::utils::NextWord;
use rand_pcg::Pcg32;
use recorded::Recorded;
use std::alloc::{AllocError, Global};
use tp_base::answers::{Look, Outcome};
use tp_script::Routines;

// The stream of the generator.
const STREAM: u64 = 0;

/// Plays turns of roles on a machine of their own until all have ended, each of a role that is drawn.
///
/// A turn is drawn evenly from those that haven't ended and have had none since the last entry, in the
/// order of the list; and where each has had one, again from all that haven't ended. The draws are those
/// of `seed`, so the same seed gives the same turns.
///
/// The roles are those of all workers, and at least those of all clients that haven't finished. So it
/// returns: where each has had two turns one of these makes an entry, or ends. An `AllocError` comes
/// where memory isn't there; what was played until then stays.
pub fn play_drawn<B: Recorded, R: Routines, G: Gate>(
    alloc: Global,
    book: &mut B,
    roles: &mut Vec<Role>,
    seed: u64,
    routines: &R,
    gate: &G,
) -> Result<(), AllocError>
    requires all { AllOf (given R.next_of R.after_of routines.now) (B.recording book.old).limits (B.recording book.old).capacity (B.recording book.old).history roles.old.items }
    requires legal { IsLegal (B.recording book.old).limits (B.recording book.old).capacity (B.recording book.old).history }
    requires ended { EndedWell (B.recording book.old).limits (B.recording book.old).capacity (B.recording book.old).history roles.old.items }
    requires open_roles { HaveOpenRoles (B.recording book.old).limits (B.recording book.old).history roles.old.items }
    requires worker { 1 ≤ (B.recording book.old).limits.workers }
    ensures same { OnOk result (IsSameMachine (B.recording book.old) (B.recording book.new)) }
    ensures drawn { OnOk result (AreDrawn (given R.next_of R.after_of routines.now) (B.recording book.old).limits (B.recording book.old).capacity seed (scene (B.recording book.old).history roles.old.items) (scene (B.recording book.new).history roles.new.items)) }
    ensures lively { OnOk result (AreDrawnOn (given R.next_of R.after_of routines.now) (B.recording book.old).limits (B.recording book.old).capacity seed (scene (B.recording book.old).history roles.old.items) (scene (B.recording book.new).history roles.new.items)) }
    ensures all { OnOk result (AllOf (given R.next_of R.after_of routines.now) (B.recording book.new).limits (B.recording book.new).capacity (B.recording book.new).history roles.new.items) }
    ensures legal { OnOk result (IsLegal (B.recording book.new).limits (B.recording book.new).capacity (B.recording book.new).history) }
    ensures ended { OnOk result (HaveEnded roles.new.items) }
    ensures over { OnOk result (is_over_behind (B.recording book.new) ≡ true) }
{
    let mut lots = Lots::new(alloc, seed);
    find_open(roles, &mut lots.going)?;
    while !lots.going.is_empty() {
        play_pass(book, roles, &mut lots, routines, gate)?;
    }
    Ok(())
}

// Turns of all that haven't ended, until each has had one since the last entry.
fn play_pass<B: Recorded, R: Routines, G: Gate>(
    book: &mut B,
    roles: &mut Vec<Role>,
    lots: &mut Lots,
    routines: &R,
    gate: &G,
) -> Result<(), AllocError>
    requires all { AllOf (given R.next_of R.after_of routines.now) (B.recording book.old).limits (B.recording book.old).capacity (B.recording book.old).history roles.old.items }
    requires legal { IsLegal (B.recording book.old).limits (B.recording book.old).capacity (B.recording book.old).history }
    requires ended { EndedWell (B.recording book.old).limits (B.recording book.old).capacity (B.recording book.old).history roles.old.items }
    requires going { lots.old.going.items ≡ open_places roles.old.items }
    ensures same { OnOk result (IsSameMachine (B.recording book.old) (B.recording book.new)) }
    ensures drawn { OnOk result (AreDrawnFrom (given R.next_of R.after_of routines.now) (B.recording book.old).limits (B.recording book.old).capacity lots.old.draws (scene (B.recording book.old).history roles.old.items) lots.new.draws (scene (B.recording book.new).history roles.new.items)) }
    ensures passed { OnOk result (HasPassed (given R.next_of R.after_of routines.now) (B.recording book.old).limits (B.recording book.old).capacity (scene (B.recording book.old).history roles.old.items) (scene (B.recording book.new).history roles.new.items)) }
    ensures all { OnOk result (AllOf (given R.next_of R.after_of routines.now) (B.recording book.new).limits (B.recording book.new).capacity (B.recording book.new).history roles.new.items) }
    ensures legal { OnOk result (IsLegal (B.recording book.new).limits (B.recording book.new).capacity (B.recording book.new).history) }
    ensures ended { OnOk result (EndedWell (B.recording book.new).limits (B.recording book.new).capacity (B.recording book.new).history roles.new.items) }
    ensures going { OnOk result (lots.new.going.items ≡ open_places roles.new.items) }
{
    lots.fill()?;
    let mut outcome = Outcome::Look(Look::Stay);
    while !lots.ready.is_empty() {
        let index = lots.draw();
        let place = lots.ready[index];
        let any_open = lots.is_first_open(roles);
        let turn = roles[place].turn_into(book, routines, gate, any_open, &mut outcome);
        lots.go_on(index, turn, roles)?;
    }
    Ok(())
}

// The places of the roles that haven't ended.
fn find_open(roles: &[Role], places: &mut Vec<usize>) -> Result<(), AllocError>
    ensures { OnOk result (places.new.items ≡ open_places roles.now) }
{
    places.clear();
    for place in 0..roles.len() {
        if !roles[place].ended {
            places.push(place)?;
        }
    }
    Ok(())
}

// Whose turns may be drawn, by their places, and the generator.
#[derive(Drop)]
struct Lots {
    // Those that haven't ended.
    going: Vec<usize>,
    // Those of them that may be drawn.
    ready: Vec<usize>,
    // Whether these are known to be all of them.
    whole: bool,
    draws: Pcg32,
}

impl Lots {
    ghost use Rattle.std.specs.Prelude.{◌≡◌, ◌<◌, true, false, OnOk, length, remove, if◌then◌else◌};
    ghost use Rattle.std.specs.List.{list_any};
    ghost use Rattle.rand_pcg.specs.Pcg.{pcg32};
    ghost use Rattle.worker_gate.specs.Drawn.{index_drawn, left_after, open_places, seeded};
    ghost use Rattle.worker_gate.specs.Roles.{is_last_turn, is_open};

    // Nobody may be drawn.
    fn new(alloc: Global, seed: u64) -> Lots
        ensures { result.draws ≡ seeded seed }
    {
        Lots {
            going: Vec::new(alloc),
            ready: Vec::new(alloc),
            whole: false,
            draws: Pcg32::new(seed, STREAM),
        }
    }

    // Draws an index among those that may be drawn.
    fn draw(&mut self) -> usize
        requires { 0 < length self.old.ready.items }
        ensures index { result ≡ index_drawn self.old.draws (length self.old.ready.items) }
        ensures below { result < length self.old.ready.items }
        ensures draws { self.new.draws ≡ (pcg32 self.old.draws).1 }
        ensures ready { self.new.ready.items ≡ self.old.ready.items }
        ensures whole { self.new.whole ≡ self.old.whole }
        ensures going { self.new.going.items ≡ self.old.going.items }
    {
        let word = self.draws.next_word();
        (u64::from(word) % self.ready.len() as u64) as usize
    }

    // Whether the first that hasn't ended is a client that hasn't finished: then all isn't over. The clients
    // stand before the workers.
    fn is_first_open(&self, roles: &[Role]) -> bool
        ensures { result ≡ true → list_any (λ r. is_open r.place.stage) roles.now ≡ true }
    {
        match self.going.first() {
            Some(first) => match roles.get(*first) {
                Some(role) => role.is_open(),
                None => false,
            },
            None => false,
        }
    }

    // All that haven't ended may be drawn.
    fn fill(&mut self) -> Result<(), AllocError>
        ensures ready { OnOk result (self.new.ready.items ≡ self.old.going.items) }
        ensures going { self.new.going.items ≡ self.old.going.items }
        ensures draws { self.new.draws ≡ self.old.draws }
    {
        self.ready.clear();
        self.ready.extend_from_slice(&self.going)?;
        self.whole = true;
        Ok(())
    }

    // Who may be drawn behind the turn of the one at this index.
    fn go_on(&mut self, index: usize, turn: Turn, roles: &[Role]) -> Result<(), AllocError>
        requires index { index < length self.old.ready.items }
        requires whole { self.old.whole ≡ true → self.old.ready.items ≡ self.old.going.items }
        ensures going { OnOk result (self.new.going.items ≡ (if is_last_turn turn then open_places roles.now else self.old.going.items)) }
        ensures ready { OnOk result (self.new.ready.items ≡ left_after turn (remove self.old.ready.items index) self.old.going.items) }
        ensures whole { OnOk result (self.new.whole ≡ true → self.new.ready.items ≡ self.new.going.items) }
        ensures draws { self.new.draws ≡ self.old.draws }
    {
        match turn {
            Turn::Moved => {
                if !self.whole {
                    self.fill()?;
                }
            }
            Turn::Waiting => self.take_out(index),
            Turn::Ended => {
                self.take_out(index);
                find_open(roles, &mut self.going)?;
            }
        }
        Ok(())
    }

    // The one at this index may not be drawn any more.
    fn take_out(&mut self, index: usize)
        requires { index < length self.old.ready.items }
        ensures ready { self.new.ready.items ≡ remove self.old.ready.items index }
        ensures whole { self.new.whole ≡ false }
        ensures going { self.new.going.items ≡ self.old.going.items }
        ensures draws { self.new.draws ≡ self.old.draws }
    {
        self.ready.remove(index);
        self.whole = false;
    }
}
