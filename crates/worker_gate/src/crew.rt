//! Actors that one thread plays, and crews of them on several threads.

ghost use Rattle.std.specs.Prelude.{◌≡◌, ℕ, IfOk, All, map, vec_items};
ghost use Rattle.worker_gate.specs.Crews.{both, AllReady, AreCrewsBack, AreHandedBack, HasPlayedRound};
ghost use Rattle.part_places.specs.Places.{given};

use crate::actor::Actor;
use crate::role::{Gate, Turn};
use crossbeam_utils::Backoff;
use recorded::Recorded;
use shared_pool::SharedPool;
use std::alloc::AllocError;
use std::thread;
use std::thread::Threads;
use tp_script::Routines;

// After so many rounds in which no actor has moved a crew is handed back.
const IDLE_ROUNDS: u32 = 10_000;

/// Plays rounds of actors, in each a turn of every one, until all have ended, or until 10,000 rounds in
/// succession moved none of them. It hands the same actors back in their order.
///
/// It doesn't wait. One that it hands back and that hasn't ended met another seat that had the turn,
/// or its due call comes to a look or Full behind what it has seen.
pub fn play_crew<B: Recorded, R: Routines, G: Gate>(
    mut crew: Vec<Actor<B>>,
    pool: &SharedPool<B>,
    routines: &R,
    gate: &G,
) -> Vec<Actor<B>>
    requires ready { AllReady (given R.next_of R.after_of routines.now) pool.now crew.items }
    ensures ready { AllReady (given R.next_of R.after_of routines.now) pool.now result.items }
    ensures back { AreHandedBack (given R.next_of R.after_of routines.now) crew.items result.items }
{
    let backoff = Backoff::new();
    let mut idle = 0;
    while idle < IDLE_ROUNDS {
        match play_round(&mut crew, pool, routines, gate) {
            Turn::Moved => {
                idle = 0;
                backoff.reset();
            }
            Turn::Waiting => {
                idle += 1;
                backoff.snooze();
            }
            Turn::Ended => break,
        }
    }
    crew
}

// One turn of each. `Ended` comes where all have ended, and else `Waiting` where none has moved.
fn play_round<B: Recorded, R: Routines, G: Gate>(
    crew: &mut Vec<Actor<B>>,
    pool: &SharedPool<B>,
    routines: &R,
    gate: &G,
) -> Turn
    requires ready { AllReady (given R.next_of R.after_of routines.now) pool.now crew.old.items }
    ensures ready { AllReady (given R.next_of R.after_of routines.now) pool.now crew.new.items }
    ensures played { HasPlayedRound (given R.next_of R.after_of routines.now) crew.old.items crew.new.items result }
{
    let mut round = Turn::Ended;
    for place in 0..crew.len() {
        round = both(round, crew[place].turn(pool, routines, gate));
    }
    round
}

// What a round comes to, by the turns before and one more.
fn both(round: Turn, turn: Turn) -> Turn
    ensures { result ≡ both round turn }
{
    match round {
        Turn::Moved => Turn::Moved,
        Turn::Waiting => match turn {
            Turn::Moved => Turn::Moved,
            Turn::Waiting | Turn::Ended => Turn::Waiting,
        },
        Turn::Ended => turn,
    }
}

/// Plays each crew in a thread of its own, as `play_crew` does, and joins them. They come back in their
/// order.
///
/// Where no thread can be made, this one plays that crew. An `AllocError` comes where memory isn't there;
/// the actors are lost then.
pub fn play_crews<Rt: Threads + Sync, B: Recorded + Send, R: Routines + Sync, G: Gate + Sync>(
    rt: &Rt,
    crews: Vec<Vec<Actor<B>>>,
    pool: &SharedPool<B>,
    routines: &R,
    gate: &G,
) -> Result<Vec<Vec<Actor<B>>>, AllocError>
    requires ready { All (AllReady (given R.next_of R.after_of routines.now) pool.now) (map vec_items crews.items) }
    ensures ready { IfOk result (λ later. All (AllReady (given R.next_of R.after_of routines.now) pool.now) (map vec_items later.items)) }
    ensures back { IfOk result (λ later. AreCrewsBack (given R.next_of R.after_of routines.now) (map vec_items crews.items) (map vec_items later.items)) }
{
    thread::map_vec(
        rt,
        crews,
        &|crew: Vec<Actor<B>>| -> Vec<Actor<B>>
            requires ready { AllReady (given R.next_of R.after_of routines.now) pool.now crew.items }
            ensures ready { AllReady (given R.next_of R.after_of routines.entry.now) pool.entry.now result.items }
            ensures back { AreHandedBack (given R.next_of R.after_of routines.entry.now) crew.items result.items }
        { play_crew(crew, pool, routines, gate) },
    )
}
