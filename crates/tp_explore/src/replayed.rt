//! The order that moves make, on a machine that writes it down.

ghost use Rattle.std.specs.Prelude.{◌≡◌, ℕ, true, List, [], ◌∷◌, ◌++◌, IfErr, IfOk, OnOk};
ghost use Rattle.tp_base.specs.declared.answers.Entry.{Entry};
ghost use Rattle.tp_base.specs.Ranges.{AreLimitsInRange};
ghost use Rattle.tp_model.specs.History.{IsLegal};
ghost use Rattle.part_places.specs.Places.{given};
ghost use Rattle.tp_explore.specs.Explored.{IsMadeBy};
ghost use Rattle.tp_explore.specs.Legal.{IsRoomy};
ghost use Rattle.tp_explore.specs.Replayed.{GoesOnBy, HasGoneOn, IsReplayed, IsReplaying, IsSameMachine};
ghost use Rattle.tp_explore.specs.Scenes.{IsOrder};

use crate::places::{call_by, first_places, go_on, mover, width};
use part_places::Place;
use recorded::Recorded;
use std::alloc::{AllocError, Global};
use tp_base::answers::Outcome;
use tp_base::limits::Limits;
use tp_script::Routines;

// So much room is as good as any more.
const AMPLE: u64 = 4;

/// Plays moves, as a search of boards tells them, on a machine that has made no step, and answers whether all of
/// them were played: the history is then the order that they make, of which there is but one.
///
/// It stops at a move that is no turn there, or for which there isn't room enough. So where they make an order,
/// and the history has room for it with 4 entries to spare before each, all are played. An `AllocError` comes where
/// memory was refused; nothing was played then.
pub fn replay<B: Recorded, R: Routines>(
    alloc: Global,
    book: &mut B,
    routines: &R,
    moves: &[u32],
) -> Result<bool, AllocError>
    requires { (B.recording book.old).history ≡ [] }
    ensures machine { IsSameMachine (B.recording book.old) (B.recording book.new) }
    ensures unplayed { IfErr result (λ error. B.recording book.new ≡ B.recording book.old) }
    ensures order { IfOk result (λ whole. whole ≡ true → IsReplayed (given R.next_of R.after_of routines.now) moves.now (B.recording book.new)) }
    ensures only { (order : List Entry) → IsOrder (given R.next_of R.after_of routines.now) (B.recording book.old).limits order → IsMadeBy (given R.next_of R.after_of routines.now) (B.recording book.old).limits moves.now order → IfOk result (λ whole. whole ≡ true → (B.recording book.new).history ≡ order) }
    ensures whole { (order : List Entry) → IsOrder (given R.next_of R.after_of routines.now) (B.recording book.old).limits order → IsMadeBy (given R.next_of R.after_of routines.now) (B.recording book.old).limits moves.now order → IsRoomy (B.recording book.old).limits (B.recording book.old).capacity order → IsLegal (B.recording book.old).limits (B.recording book.old).capacity order → IfOk result (λ whole. (whole ≡ true) × ((B.recording book.new).history ≡ order)) }
{
    let limits = book.limits();
    let mut places = first_places(alloc, &limits)?;
    for by in moves {
        if !play(book, routines, &limits, &mut places, *by) {
            return Ok(false);
        }
    }
    Ok(true)
}

// Plays a move, where it is a turn for which there is room enough, and answers whether it was.
fn play<B: Recorded, R: Routines>(
    book: &mut B,
    routines: &R,
    limits: &Limits,
    places: &mut Vec<Place>,
    by: u32,
) -> bool
    requires limits { limits.now ≡ (B.recording book.old).limits }
    requires in_range { AreLimitsInRange limits.now }
    ensures machine { IsSameMachine (B.recording book.old) (B.recording book.new) }
    ensures played { result ≡ true → (moves : List ℕ) → IsReplaying (given R.next_of R.after_of routines.now) moves (B.recording book.old) places.old.items → IsReplaying (given R.next_of R.after_of routines.now) (moves ++ by ∷ []) (B.recording book.new) places.new.items }
    ensures whole { (moves more : List ℕ) (rest : List Entry) → IsReplaying (given R.next_of R.after_of routines.now) moves (B.recording book.old) places.old.items → GoesOnBy (given R.next_of R.after_of routines.now) (B.recording book.old) (by ∷ more) rest → (result ≡ true) × HasGoneOn (given R.next_of R.after_of routines.now) (B.recording book.old) (B.recording book.new) more rest }
{
    if by >= width(limits) || book.room() < AMPLE {
        return false;
    }
    let Some(call) = call_by(limits, places, routines, by) else {
        return false;
    };
    let who = mover(limits, by);
    match book.step(who, call) {
        Outcome::Done(answer) => {
            go_on(limits, places, routines, who, &call, &answer);
            true
        }
        _ => false,
    }
}
