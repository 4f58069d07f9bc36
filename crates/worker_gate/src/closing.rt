//! All actors come back, and what is left is played.

ghost use Rattle.std.specs.Prelude.{◌≡◌, ◌≤◌, ◌↔◌, true, map, Any, IfOk, OnOk};
ghost use Rattle.worker_gate.specs.Acting.{role_in, seat_in};
ghost use Rattle.worker_gate.specs.Closing.{AllBack, BeginsAsMade, FirstTold, IsCutIn, IsFirstPlayed};
ghost use Rattle.worker_gate.specs.Drawn.{AreDrawn};
ghost use Rattle.part_places.specs.Places.{given};
ghost use Rattle.worker_gate.specs.Rounds.{scene, AllOf, EndedWell, HasPlayed, HaveAllRoles, HaveEnded, IsSameMachine};
ghost use Rattle.worker_gate.specs.Runs.{AreKnown, IsCutShort, Runs};
ghost use Rattle.tp_model.specs.History.{IsLegal};
ghost use Rattle.shared_pool.specs.Pools.{setup_at};

use crate::actor::Actor;
use crate::drawn::play_drawn;
use crate::role::{Gate, Role};
use crate::rounds::play_alone;
use ghost_copy::GhostCopy;
use recorded::Recorded;
use shared_pool::SharedPool;
use std::alloc::{AllocError, Global};
use tp_script::Routines;
use turn_lock::Seat;

/// A machine on which routines were played to their end.
#[derive(Drop)]
pub struct Run<B> {
    /// The machine, with the history.
    pub book: B,
    /// Whether the calls of a client or of a callback were cut short, since the history had no room for
    /// the next one.
    pub cut: bool,
    /// The actors as they came back from the threads, for contracts alone. Nobody, where one thread played
    /// all.
    pub actors: GhostCopy<Vec<Actor<B>>>,
}

/// Closes a pool whose actors have all come back, plays what they still have to do, and gives the
/// machine: its history is a run of these routines, and begins with what the actors have made.
///
/// Client 1 has to have finished before any other made a call (`finish`, `tell_all`). An `AllocError`
/// comes where memory for the seats and the roles isn't there; all is lost then.
pub fn close_run<B: Recorded, R: Routines, G: Gate>(
    alloc: Global,
    pool: SharedPool<B>,
    actors: Vec<Actor<B>>,
    routines: &R,
    gate: &G,
) -> Result<Run<B>, AllocError>
    requires back { AllBack (given R.next_of R.after_of routines.now) pool actors.items }
    requires first { FirstTold (setup_at pool).limits actors.items }
    ensures limits { IfOk result (λ run. (B.recording run.book).limits ≡ (setup_at pool).limits) }
    ensures capacity { IfOk result (λ run. (B.recording run.book).capacity ≡ (setup_at pool).capacity) }
    ensures legal { IfOk result (λ run. IsLegal (B.recording run.book).limits (B.recording run.book).capacity (B.recording run.book).history) }
    ensures actors { IfOk result (λ run. run.actors.value ≡ actors) }
    ensures made { IfOk result (λ run. BeginsAsMade (setup_at pool).limits (B.recording run.book).history run.actors.value.items) }
    ensures runs { IfOk result (λ run. Runs (given R.next_of R.after_of routines.now) (B.recording run.book).limits (B.recording run.book).capacity (B.recording run.book).history) }
    ensures cut { IfOk result (λ run. (run.cut ≡ true) ↔ IsCutShort (given R.next_of R.after_of routines.now) (B.recording run.book).limits (B.recording run.book).history) }
{
    let back = GhostCopy::of(&actors);
    let (seats, mut roles) = apart(alloc, actors)?;
    let mut book = pool.close(seats);
    let cut = end_run(&mut book, &mut roles, routines, gate);
    Ok(Run {
        book,
        cut,
        actors: back,
    })
}

// Whether one of them is cut.
fn any_cut(roles: &Vec<Role>) -> bool
    ensures { (result ≡ true) ↔ Any IsCutIn roles.now.items }
{
    roles.iter().any(Role::is_cut)
}

// The seats and the roles of actors, in their order.
fn apart<B>(alloc: Global, actors: Vec<Actor<B>>) -> Result<(Vec<Seat<B>>, Vec<Role>), AllocError>
    ensures seats { IfOk result (λ parts. parts.0.items ≡ map seat_in actors.items) }
    ensures roles { IfOk result (λ parts. parts.1.items ≡ map role_in actors.items) }
{
    let mut seats = Vec::with_capacity(alloc, actors.len())?;
    let mut roles = Vec::with_capacity(alloc, actors.len())?;
    for actor in actors {
        let (seat, role) = actor.into_parts();
        seats.push_reserved(seat);
        roles.push_reserved(role);
    }
    Ok((seats, roles))
}

// Plays what is left to do on the machine, until all is over. Whether a role is cut then.
pub(crate) fn end_run<B: Recorded, R: Routines, G: Gate>(
    book: &mut B,
    roles: &mut Vec<Role>,
    routines: &R,
    gate: &G,
) -> bool
    requires all { AllOf (given R.next_of R.after_of routines.now) (B.recording book.old).limits (B.recording book.old).capacity (B.recording book.old).history roles.old.items }
    requires covers { HaveAllRoles (B.recording book.old).limits roles.old.items }
    requires legal { IsLegal (B.recording book.old).limits (B.recording book.old).capacity (B.recording book.old).history }
    requires client { 1 ≤ (B.recording book.old).limits.clients }
    requires worker { 1 ≤ (B.recording book.old).limits.workers }
    requires known { AreKnown (B.recording book.old).limits (B.recording book.old).history }
    requires first { IsFirstPlayed (B.recording book.old).limits (B.recording book.old).history roles.old.items }
    ensures same { IsSameMachine (B.recording book.old) (B.recording book.new) }
    ensures played { HasPlayed (given R.next_of R.after_of routines.now) (B.recording book.old).limits (B.recording book.old).capacity (B.recording book.old).history roles.old.items (B.recording book.new).history roles.new.items }
    ensures legal { IsLegal (B.recording book.new).limits (B.recording book.new).capacity (B.recording book.new).history }
    ensures ended { HaveEnded roles.new.items }
    ensures runs { Runs (given R.next_of R.after_of routines.now) (B.recording book.new).limits (B.recording book.new).capacity (B.recording book.new).history }
    ensures cut { (result ≡ true) ↔ IsCutShort (given R.next_of R.after_of routines.now) (B.recording book.new).limits (B.recording book.new).history }
{
    play_alone(book, roles, routines, gate);
    any_cut(roles)
}

// The same with turns that are drawn from a seed, of roles of which none that has ended is of a worker.
pub(crate) fn end_drawn_run<B: Recorded, R: Routines, G: Gate>(
    alloc: Global,
    book: &mut B,
    roles: &mut Vec<Role>,
    seed: u64,
    routines: &R,
    gate: &G,
) -> Result<bool, AllocError>
    requires all { AllOf (given R.next_of R.after_of routines.now) (B.recording book.old).limits (B.recording book.old).capacity (B.recording book.old).history roles.old.items }
    requires covers { HaveAllRoles (B.recording book.old).limits roles.old.items }
    requires legal { IsLegal (B.recording book.old).limits (B.recording book.old).capacity (B.recording book.old).history }
    requires ended { EndedWell (B.recording book.old).limits (B.recording book.old).capacity (B.recording book.old).history roles.old.items }
    requires client { 1 ≤ (B.recording book.old).limits.clients }
    requires worker { 1 ≤ (B.recording book.old).limits.workers }
    requires known { AreKnown (B.recording book.old).limits (B.recording book.old).history }
    requires first { IsFirstPlayed (B.recording book.old).limits (B.recording book.old).history roles.old.items }
    ensures same { OnOk result (IsSameMachine (B.recording book.old) (B.recording book.new)) }
    ensures drawn { OnOk result (AreDrawn (given R.next_of R.after_of routines.now) (B.recording book.old).limits (B.recording book.old).capacity seed (scene (B.recording book.old).history roles.old.items) (scene (B.recording book.new).history roles.new.items)) }
    ensures legal { OnOk result (IsLegal (B.recording book.new).limits (B.recording book.new).capacity (B.recording book.new).history) }
    ensures ended { OnOk result (HaveEnded roles.new.items) }
    ensures runs { OnOk result (Runs (given R.next_of R.after_of routines.now) (B.recording book.new).limits (B.recording book.new).capacity (B.recording book.new).history) }
    ensures cut { IfOk result (λ cut. (cut ≡ true) ↔ IsCutShort (given R.next_of R.after_of routines.now) (B.recording book.new).limits (B.recording book.new).history) }
{
    play_drawn(alloc, book, roles, seed, routines, gate)?;
    Ok(any_cut(roles))
}
