//! Rounds of roles on a machine of their own.

ghost use Rattle.std.specs.Prelude.{◌≡◌, ◌≤◌, ◌↔◌, true, [], ◌∷◌, map};
ghost use Rattle.recorded.specs.Recordings.{is_over_behind};
ghost use Rattle.tp_model.specs.History.{IsLegal};
ghost use Rattle.turn_lock.specs.Histories.{own};
ghost use Rattle.worker_gate.specs.Lively.{ArePlayedOn};
ghost use Rattle.part_places.specs.Places.{given};
ghost use Rattle.worker_gate.specs.Roles.{IsOf};
ghost use Rattle.worker_gate.specs.Rounds.{awake, round_of, scene, AllOf, ArePlayed, EndedWell, HasPlayed, HaveEnded, HaveOpenRoles, IsSameMachine, PlaysAlone};

use crate::role::{Gate, Role};
use recorded::Recorded;
use tp_base::answers::{Look, Outcome};
use tp_base::ids::Who;
use tp_script::Routines;

/// Plays the role of a client to its end on a machine of its own, as one whose part waits for nothing.
///
/// It returns: each turn makes an entry, or comes to Full and then finishes.
pub fn set_up<B: Recorded, R: Routines, G: Gate>(
    book: &mut B,
    role: &mut Role,
    routines: &R,
    gate: &G,
)
    requires of { IsOf (given R.next_of R.after_of routines.now) (B.recording book.old).limits (B.recording book.old).capacity (B.recording book.old).history (own role.old.who (B.recording book.old).history) role.old }
    requires alone { PlaysAlone (given R.next_of R.after_of routines.now) role.old }
    ensures same { IsSameMachine (B.recording book.old) (B.recording book.new) }
    ensures played { ArePlayed (given R.next_of R.after_of routines.now) (B.recording book.old).limits (B.recording book.old).capacity (scene (B.recording book.old).history (role.old ∷ [])) (scene (B.recording book.new).history (role.new ∷ [])) }
    ensures of { IsOf (given R.next_of R.after_of routines.now) (B.recording book.new).limits (B.recording book.new).capacity (B.recording book.new).history (own role.new.who (B.recording book.new).history) role.new }
    ensures legal { IsLegal (B.recording book.old).limits (B.recording book.old).capacity (B.recording book.old).history → IsLegal (B.recording book.new).limits (B.recording book.new).capacity (B.recording book.new).history }
    ensures who { role.new.who ≡ role.old.who }
    ensures ended { role.new.ended ≡ true }
{
    loop {
        if role.turn(book, routines, gate).is_last() {
            return;
        }
    }
}

/// Plays rounds of roles on a machine of their own until all have ended: in a round each that hasn't
/// ended gets a turn, in the order of the list. A worker that had ended before is asked again.
///
/// The roles are those of all workers, and at least those of all clients that haven't finished. So it
/// returns: in any two rounds in succession one of them makes an entry, or ends.
pub fn play_alone<B: Recorded, R: Routines, G: Gate>(
    book: &mut B,
    roles: &mut Vec<Role>,
    routines: &R,
    gate: &G,
)
    requires all { AllOf (given R.next_of R.after_of routines.now) (B.recording book.old).limits (B.recording book.old).capacity (B.recording book.old).history roles.old.items }
    requires legal { IsLegal (B.recording book.old).limits (B.recording book.old).capacity (B.recording book.old).history }
    requires open_roles { HaveOpenRoles (B.recording book.old).limits (B.recording book.old).history roles.old.items }
    requires worker { 1 ≤ (B.recording book.old).limits.workers }
    ensures same { IsSameMachine (B.recording book.old) (B.recording book.new) }
    ensures played { HasPlayed (given R.next_of R.after_of routines.now) (B.recording book.old).limits (B.recording book.old).capacity (B.recording book.old).history roles.old.items (B.recording book.new).history roles.new.items }
    ensures lively { ArePlayedOn (given R.next_of R.after_of routines.now) (B.recording book.old).limits (B.recording book.old).capacity (scene (B.recording book.old).history (map awake roles.old.items)) (scene (B.recording book.new).history roles.new.items) }
    ensures all { AllOf (given R.next_of R.after_of routines.now) (B.recording book.new).limits (B.recording book.new).capacity (B.recording book.new).history roles.new.items }
    ensures legal { IsLegal (B.recording book.new).limits (B.recording book.new).capacity (B.recording book.new).history }
    ensures ended { HaveEnded roles.new.items }
    ensures over { is_over_behind (B.recording book.new) ≡ true }
{
    wake_all(roles);
    loop {
        if play_one(book, roles, routines, gate) {
            return;
        }
    }
}

// A worker that had ended asks again whether all is over.
fn wake_all(roles: &mut Vec<Role>)
    ensures { roles.new.items ≡ map awake roles.old.items }
{
    for place in 0..roles.len() {
        roles[place].ended = false;
    }
}

// One round. Whether all have ended.
fn play_one<B: Recorded, R: Routines, G: Gate>(
    book: &mut B,
    roles: &mut Vec<Role>,
    routines: &R,
    gate: &G,
) -> bool
    requires all { AllOf (given R.next_of R.after_of routines.now) (B.recording book.old).limits (B.recording book.old).capacity (B.recording book.old).history roles.old.items }
    requires legal { IsLegal (B.recording book.old).limits (B.recording book.old).capacity (B.recording book.old).history }
    requires ended { EndedWell (B.recording book.old).limits (B.recording book.old).capacity (B.recording book.old).history roles.old.items }
    ensures same { IsSameMachine (B.recording book.old) (B.recording book.new) }
    ensures played { scene (B.recording book.new).history roles.new.items ≡ round_of (given R.next_of R.after_of routines.now) (B.recording book.old).limits (B.recording book.old).capacity (B.recording book.old).history roles.old.items }
    ensures all { AllOf (given R.next_of R.after_of routines.now) (B.recording book.new).limits (B.recording book.new).capacity (B.recording book.new).history roles.new.items }
    ensures legal { IsLegal (B.recording book.new).limits (B.recording book.new).capacity (B.recording book.new).history }
    ensures ended { EndedWell (B.recording book.new).limits (B.recording book.new).capacity (B.recording book.new).history roles.new.items }
    ensures over { (result ≡ true) ↔ HaveEnded roles.new.items }
{
    let mut all_ended = true;
    let mut any_open = false;
    let mut outcome = Outcome::Look(Look::Stay);
    for place in 0..roles.len() {
        let turn = roles[place].turn_into(book, routines, gate, any_open, &mut outcome);
        all_ended = all_ended && turn.is_last();
        any_open = any_open || roles[place].is_open();
    }
    all_ended
}
