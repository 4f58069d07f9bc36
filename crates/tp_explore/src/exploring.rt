//! The search through every order of a script.

ghost use Rattle.std.specs.Prelude.{◌≤◌, IfOk};
ghost use Rattle.breadth_first.specs.Answers.{GivesUpFor};
ghost use Rattle.tp_base.specs.Ranges.{AreLimitsInRange};
ghost use Rattle.tp_explore.specs.Closing.{rules_of_closed};
ghost use Rattle.tp_explore.specs.Exchanging.{key_in_order};
ghost use Rattle.tp_explore.specs.Explored.{Explores};
ghost use Rattle.tp_explore.specs.Scripts.{watched_but};

use crate::boards::Boards;
use crate::closed_boards_lose_nothing;
use crate::fault::Fault;
use crate::seen::Moving;
use breadth_first::{Answer, Measures, search};
use std::alloc::{AllocError, Global};
use tp_base::limits::Limits;
use tp_script::Script;

/// Goes through every order of a script on machines with these limits, and tells the moves that make a shortest order
/// with a fault, or that no order has a fault, or, where it gives up, of how many entries at most none has one. The
/// faults of `passed` count as none.
///
/// `V` keeps the worlds. `most` is how many boards it may meet, and `deepest` how many entries an order may have: it
/// gives up only where orders lead to more boards, or at so many entries. `measures` has what it took added. An
/// `AllocError` comes where memory is refused.
pub fn explore<V: Moving>(
    alloc: Global,
    script: &Script,
    passed: &[Fault],
    limits: Limits,
    most: u32,
    deepest: u32,
    measures: &mut Measures,
) -> Result<Answer, AllocError>
    requires most { 1 ≤ most }
    requires in_range { AreLimitsInRange limits }
    ensures explores { IfOk result (Explores (watched_but passed.now script.now) limits) }
    ensures gives_up { IfOk result (GivesUpFor (rules_of_closed (watched_but passed.now script.now) limits (key_in_order limits)) most deepest) }
{
    closed_boards_lose_nothing();
    let boards = Boards::<V>::new(script, passed, limits);
    search(alloc, &boards, most, deepest, measures)
}
