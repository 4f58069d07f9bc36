//! Routines are played on so many threads as are wanted, by all actors of a machine.

ghost use Rattle.std.specs.Prelude.{◌≡◌, ℕ, ◌<◌, ◌≤◌, ◌↔◌, ◌∷◌, [], true, length, map, vec_items, All, IfOk, IsPermutation, List};
ghost use Rattle.std.specs.List.{flat_map};
ghost use Rattle.tp_base.specs.declared.answers.Entry.{Entry};
ghost use Rattle.tp_base.specs.declared.limits.Limits.{Limits as Bounds};
ghost use Rattle.tp_base.specs.Ranges.{AreLimitsInRange};
ghost use Rattle.tp_model.specs.History.{IsLegal};
ghost use Rattle.tp_script.specs.Nexts.{first_progress};
ghost use Rattle.turn_lock.specs.Histories.{actor_of};
ghost use Rattle.shared_pool.specs.Pools.{pool_setup, setup_at};
ghost use Rattle.worker_gate.specs.Acting.{seat_in};
ghost use Rattle.worker_gate.specs.Alone.{all_roles, IsAlone};
ghost use Rattle.worker_gate.specs.Closing.{BeginsAsMade};
ghost use Rattle.worker_gate.specs.Crews.{HasStopped};
ghost use Rattle.worker_gate.specs.Crowds.{AreNew, IsNewActor, IsNewSeat};
ghost use Rattle.worker_gate.specs.Drawn.{IsDrawn};
ghost use Rattle.part_places.specs.Places.{given, Given};
ghost use Rattle.worker_gate.specs.Roles.{new_role};
ghost use Rattle.worker_gate.specs.Rounds.{NeverWaits};
ghost use Rattle.worker_gate.specs.Runs.{IsCutShort, Runs};

use crate::actor::Actor;
use crate::closing::{Run, close_run, end_drawn_run, end_run};
use crate::crew::play_crews;
use crate::role::{Gate, Role};
use crate::rounds::set_up;
use crate::telling::{finish, tell_all};
use ghost_copy::GhostCopy;
use recorded::{OpenFault, Recorded};
use shared_pool::SharedPool;
use std::alloc::{AllocError, Global};
use std::sync::Wait;
use std::thread::Threads;
use tp_base::limits::Limits;
use tp_script::{Part, Routines};
use turn_lock::Seat;

/// Plays the parts of all clients, and the workers, to their end on a machine of its own, and gives
/// the machine: its history is a run of these routines.
///
/// `limits` are those of a machine with at least one client. The history has room for `capacity`
/// entries, at least one for each client. Client 1, whose part begins no wait, plays to its end before
/// any other makes a call. Where `threads` is 1 this thread then plays the others, in rounds of a turn
/// of each, and there is one history alone that comes of it (`one_history_alone`). Where it is more,
/// the others are dealt into so many crews, one after another; each crew plays in a thread of its own,
/// and what the crews leave is played behind them. `gate` is asked before each callback.
///
/// On more than one thread the history begins with what the actors have made by the time at which their
/// threads are done. By then each has ended, has met another one at its turn, or is held up.
///
/// Where no thread can be made, this one plays that crew. An `AllocError` comes where memory isn't
/// there; all is lost then. On more than one thread it may wait for ever: for the threads, and for
/// turns. On one it is `play_routines_alone`.
pub fn play_routines<
    Rt: Threads + Wait + Sync,
    B: Recorded + Send,
    R: Routines + Sync,
    G: Gate + Sync,
>(
    rt: &Rt,
    alloc: Global,
    limits: Limits,
    capacity: u32,
    threads: u32,
    routines: &R,
    gate: &G,
) -> Result<Run<B>, AllocError>
    requires limits { AreLimitsInRange limits }
    requires client { 1 ≤ limits.clients }
    requires room { limits.clients ≤ capacity }
    requires threads { 1 ≤ threads }
    requires calm { NeverWaits (given R.next_of R.after_of routines.now) (Part.Client 1) first_progress }
    ensures limits { IfOk result (λ run. (B.recording run.book).limits ≡ limits) }
    ensures capacity { IfOk result (λ run. (B.recording run.book).capacity ≡ capacity) }
    ensures legal { IfOk result (λ run. IsLegal limits capacity (B.recording run.book).history) }
    ensures runs { IfOk result (λ run. Runs (given R.next_of R.after_of routines.now) (B.recording run.book).limits (B.recording run.book).capacity (B.recording run.book).history) }
    ensures alone { threads ≡ 1 → IfOk result (λ run. IsAlone (given R.next_of R.after_of routines.now) limits capacity (B.recording run.book).history) }
    ensures cut { IfOk result (λ run. (run.cut ≡ true) ↔ IsCutShort (given R.next_of R.after_of routines.now) (B.recording run.book).limits (B.recording run.book).history) }
    ensures made { 1 < threads → IfOk result (λ run. BeginsAsMade limits (B.recording run.book).history run.actors.value.items) }
    ensures stopped { 1 < threads → IfOk result (λ run. All (HasStopped (given R.next_of R.after_of routines.now)) run.actors.value.items) }
{
    match threads {
        1 => play_routines_alone(alloc, limits, capacity, routines, gate),
        _ => play_on_several(rt, alloc, limits, capacity, threads, routines, gate),
    }
}

/// What one thread plays of given routines, limits and capacity is one history: no two of them differ.
pub fn one_history_alone()
    ensures { (known : Given) (limits : Bounds) (capacity : ℕ) (history other : List Entry) → IsAlone known limits capacity history → IsAlone known limits capacity other → history ≡ other }
{}

/// What `play_routines` does with `threads` being 1: this thread alone plays all parts, client 1's first
/// and then the others in rounds. It waits for nobody, and returns.
///
/// An `AllocError` comes where memory isn't there; all is lost then.
pub fn play_routines_alone<B: Recorded, R: Routines, G: Gate>(
    alloc: Global,
    limits: Limits,
    capacity: u32,
    routines: &R,
    gate: &G,
) -> Result<Run<B>, AllocError>
    requires limits { AreLimitsInRange limits }
    requires client { 1 ≤ limits.clients }
    requires calm { NeverWaits (given R.next_of R.after_of routines.now) (Part.Client 1) first_progress }
    ensures limits { IfOk result (λ run. (B.recording run.book).limits ≡ limits) }
    ensures capacity { IfOk result (λ run. (B.recording run.book).capacity ≡ capacity) }
    ensures legal { IfOk result (λ run. IsLegal limits capacity (B.recording run.book).history) }
    ensures runs { IfOk result (λ run. Runs (given R.next_of R.after_of routines.now) (B.recording run.book).limits (B.recording run.book).capacity (B.recording run.book).history) }
    ensures alone { IfOk result (λ run. IsAlone (given R.next_of R.after_of routines.now) limits capacity (B.recording run.book).history) }
    ensures cut { IfOk result (λ run. (run.cut ≡ true) ↔ IsCutShort (given R.next_of R.after_of routines.now) (B.recording run.book).limits (B.recording run.book).history) }
    ensures nobody { IfOk result (λ run. run.actors.value.items ≡ []) }
{
    let mut book = B::open(alloc, limits, capacity)?;
    let mut roles = new_roles(alloc, limits)?;
    set_up(&mut book, &mut roles[0], routines, gate);
    let cut = end_run(&mut book, &mut roles, routines, gate);
    let nobody = GhostCopy::of(&Vec::new(alloc));
    Ok(Run {
        book,
        cut,
        actors: nobody,
    })
}

/// What turns that are drawn from a seed make of given routines, limits and capacity is one history: no two
/// of them differ.
pub fn one_history_drawn()
    ensures { (seed : ℕ) (known : Given) (limits : Bounds) (capacity : ℕ) (history other : List Entry) → IsDrawn seed known limits capacity history → IsDrawn seed known limits capacity other → history ≡ other }
{}

/// The same as `play_routines_alone`, but behind client 1's part each turn is that of an actor that is
/// drawn: evenly from those that haven't ended and have had no turn since the last entry, in the order of
/// their numbers with the clients first; where each has had one, again from all that haven't ended.
///
/// The draws are those of `seed`. There is one history alone that comes of it (`one_history_drawn`). An
/// `AllocError` comes where memory isn't there; all is lost then.
pub fn play_routines_drawn<B: Recorded, R: Routines, G: Gate>(
    alloc: Global,
    limits: Limits,
    capacity: u32,
    seed: u64,
    routines: &R,
    gate: &G,
) -> Result<Run<B>, AllocError>
    requires limits { AreLimitsInRange limits }
    requires client { 1 ≤ limits.clients }
    requires calm { NeverWaits (given R.next_of R.after_of routines.now) (Part.Client 1) first_progress }
    ensures limits { IfOk result (λ run. (B.recording run.book).limits ≡ limits) }
    ensures capacity { IfOk result (λ run. (B.recording run.book).capacity ≡ capacity) }
    ensures legal { IfOk result (λ run. IsLegal limits capacity (B.recording run.book).history) }
    ensures runs { IfOk result (λ run. Runs (given R.next_of R.after_of routines.now) (B.recording run.book).limits (B.recording run.book).capacity (B.recording run.book).history) }
    ensures drawn { IfOk result (λ run. IsDrawn seed (given R.next_of R.after_of routines.now) limits capacity (B.recording run.book).history) }
    ensures cut { IfOk result (λ run. (run.cut ≡ true) ↔ IsCutShort (given R.next_of R.after_of routines.now) (B.recording run.book).limits (B.recording run.book).history) }
    ensures nobody { IfOk result (λ run. run.actors.value.items ≡ []) }
{
    let mut book = B::open(alloc, limits, capacity)?;
    let mut roles = new_roles(alloc, limits)?;
    set_up(&mut book, &mut roles[0], routines, gate);
    let cut = end_drawn_run(alloc, &mut book, &mut roles, seed, routines, gate)?;
    let nobody = GhostCopy::of(&Vec::new(alloc));
    Ok(Run {
        book,
        cut,
        actors: nobody,
    })
}

// The roles of all actors, in the order of their numbers.
fn new_roles(alloc: Global, limits: Limits) -> Result<Vec<Role>, AllocError>
    requires { AreLimitsInRange limits }
    ensures { IfOk result (λ roles. roles.items ≡ all_roles limits) }
{
    let count = limits.clients + limits.workers;
    let mut roles = Vec::with_capacity(alloc, count as usize)?;
    for place in 0..count {
        roles.push_reserved(new_role(place + 1, limits));
    }
    Ok(roles)
}

// The role of the actor of a number: the clients come first.
fn new_role(number: u32, limits: Limits) -> Role
    requires { 1 ≤ number }
    ensures { result ≡ new_role (actor_of limits number) }
{
    if number <= limits.clients {
        Role::client(number)
    } else {
        Role::worker(number - limits.clients)
    }
}

// On a shared pool, by crews.
fn play_on_several<
    Rt: Threads + Wait + Sync,
    B: Recorded + Send,
    R: Routines + Sync,
    G: Gate + Sync,
>(
    rt: &Rt,
    alloc: Global,
    limits: Limits,
    capacity: u32,
    threads: u32,
    routines: &R,
    gate: &G,
) -> Result<Run<B>, AllocError>
    requires limits { AreLimitsInRange limits }
    requires client { 1 ≤ limits.clients }
    requires room { limits.clients ≤ capacity }
    requires threads { 1 ≤ threads }
    ensures limits { IfOk result (λ run. (B.recording run.book).limits ≡ limits) }
    ensures capacity { IfOk result (λ run. (B.recording run.book).capacity ≡ capacity) }
    ensures legal { IfOk result (λ run. IsLegal limits capacity (B.recording run.book).history) }
    ensures runs { IfOk result (λ run. Runs (given R.next_of R.after_of routines.now) (B.recording run.book).limits (B.recording run.book).capacity (B.recording run.book).history) }
    ensures cut { IfOk result (λ run. (run.cut ≡ true) ↔ IsCutShort (given R.next_of R.after_of routines.now) (B.recording run.book).limits (B.recording run.book).history) }
    ensures made { IfOk result (λ run. BeginsAsMade limits (B.recording run.book).history run.actors.value.items) }
    ensures stopped { IfOk result (λ run. All (HasStopped (given R.next_of R.after_of routines.now)) run.actors.value.items) }
{
    let (pool, mut others) = open_pool(alloc, limits, capacity)?;
    let mut first = others.remove(0);
    finish(rt, &mut first, &pool, routines, gate);
    tell_all(&mut first, &pool, &mut others);
    let crews = deal(alloc, others, threads)?;
    let crews = play_crews(rt, crews, &pool, routines, gate)?;
    let actors = gather(alloc, first, crews)?;
    close_run(alloc, pool, actors, routines, gate)
}

// A pool, and the actors of all its seats, in the order of their numbers.
fn open_pool<B: Recorded>(
    alloc: Global,
    limits: Limits,
    capacity: u32,
) -> Result<(SharedPool<B>, Vec<Actor<B>>), AllocError>
    requires limits { AreLimitsInRange limits }
    requires room { limits.clients ≤ capacity }
    ensures setup { IfOk result (λ made. setup_at made.0 ≡ pool_setup limits capacity) }
    ensures new { IfOk result (λ made. AreNew made.0 made.1.items) }
{
    let (pool, seats) = match SharedPool::open(alloc, limits, capacity) {
        Ok(opened) => opened,
        Err(OpenFault::NoMemory) => return Err(AllocError),
        Err(OpenFault::TooSmall { .. }) => unreachable!(),
    };
    let actors = take_seats(alloc, seats, limits)?;
    Ok((pool, actors))
}

// An actor on each seat, which has made no call.
fn take_seats<B>(
    alloc: Global,
    seats: Vec<Seat<B>>,
    limits: Limits,
) -> Result<Vec<Actor<B>>, AllocError>
    requires { All (IsNewSeat limits) seats.items }
    ensures seats { IfOk result (λ actors. map seat_in actors.items ≡ seats.items) }
    ensures new { IfOk result (λ actors. All (IsNewActor limits) actors.items) }
{
    let mut actors = Vec::with_capacity(alloc, seats.len())?;
    for seat in seats {
        let role = new_role(seat.number(), limits);
        actors.push_reserved(Actor::new(seat, role));
    }
    Ok(actors)
}

// So many crews: each has the actors whose place leaves the crew's own on division by their number.
fn deal<B>(
    alloc: Global,
    actors: Vec<Actor<B>>,
    threads: u32,
) -> Result<Vec<Vec<Actor<B>>>, AllocError>
    requires { 1 ≤ threads }
    ensures { IfOk result (λ crews. IsPermutation actors.items (flat_map vec_items crews.items)) }
{
    let count = threads as usize;
    let mut crews = no_crews(alloc, count)?;
    let mut next = 0;
    for actor in actors {
        crews[next].push(actor)?;
        next = (next + 1) % count;
    }
    Ok(crews)
}

// So many crews of nobody.
fn no_crews<B>(alloc: Global, count: usize) -> Result<Vec<Vec<Actor<B>>>, AllocError>
    ensures count { IfOk result (λ crews. length crews.items ≡ count) }
    ensures empty { IfOk result (λ crews. flat_map vec_items crews.items ≡ []) }
{
    let mut crews = Vec::with_capacity(alloc, count)?;
    for _ in 0..count {
        crews.push_reserved(Vec::new(alloc));
    }
    Ok(crews)
}

// The first actor and those of all crews, in the order of their numbers.
fn gather<B>(
    alloc: Global,
    first: Actor<B>,
    crews: Vec<Vec<Actor<B>>>,
) -> Result<Vec<Actor<B>>, AllocError>
    ensures { IfOk result (λ actors. IsPermutation (first ∷ flat_map vec_items crews.items) actors.items) }
{
    let mut actors = Vec::new(alloc);
    actors.push(first)?;
    for mut crew in crews {
        actors.append(&mut crew)?;
    }
    actors.sort_unstable_by_key(|actor| actor.seat.number());
    Ok(actors)
}
