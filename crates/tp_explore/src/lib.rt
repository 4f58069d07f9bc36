//! Every order in which the actors of a script can make their calls, and what may go wrong in one.
//!
//! An order is a history in which each entry is a turn of its actor, and room is never short. A script says besides its
//! calls what may be refused, and where memories are used and freed and callbacks are to be quiet. A `Fault` is what an
//! entry does against that; it names the line of the script at which it is told. README.md says the words.
//! `forgetting_loses_nothing`, `orders_are_legal` and `searches_tell_of_orders` do nothing: who calls them knows what their
//! contracts say. `explore` goes through all orders, by a search of boards. `replay` plays the moves that it tells on a
//! machine, which writes down their order.
//!
//! ```text
//! Fault { kind: FaultKind::UseAfterFree, line: 10 }    // a use in line 10 begins behind a free
//! orders_are_legal();                                 // from here on each order is known to be a legal history
//! explore::<PlainWorld>(alloc, &script, &[], limits, 1_000_000, 60_000, &mut measures)    // Bad([0, 0, 2])
//! replay(alloc, &mut book, &script, &[0, 0, 2])       // true: client 1 made two calls and client 2 one, as `book` tells
//! ```

#![tactic(auto)]

mod boards;
mod deeds;
mod exploring;
mod fault;
mod faults;
mod kept;
mod keys;
mod led;
mod mark;
mod noted;
mod notes;
mod passage;
mod places;
mod plain;
mod replayed;
mod rising;
mod scripts;
mod seen;
mod stands;
mod told;
mod walk;
mod watches;

ghost use Rattle.std.specs.Prelude.{◌≡◌, ℕ, List, ◌++◌, filter, not};
ghost use Rattle.breadth_first.specs.Answers.{Answers};
ghost use Rattle.breadth_first.specs.declared.Answer.{Answer};
ghost use Rattle.tp_base.specs.declared.answers.Entry.{Entry};
ghost use Rattle.tp_base.specs.declared.limits.Limits.{Limits};
ghost use Rattle.tp_explore.specs.Alike.{AreAlike};
ghost use Rattle.tp_explore.specs.Boards.{rules_of, Board};
ghost use Rattle.tp_explore.specs.Closing.{rules_of_closed, IsBlind};
ghost use Rattle.tp_explore.specs.Explored.{Explores};
ghost use Rattle.tp_explore.specs.declared.fault.Fault.{Fault};
ghost use Rattle.tp_explore.specs.Faults.{faults_from, faults_of};
ghost use Rattle.tp_explore.specs.Legal.{IsLegalAtLast};
ghost use Rattle.tp_explore.specs.Noted.{Noted};
ghost use Rattle.part_places.specs.Places.{Given};
ghost use Rattle.tp_explore.specs.Scenes.{scene_behind, IsOrder};
ghost use Rattle.tp_explore.specs.SameFaults.{is_passed};
ghost use Rattle.tp_explore.specs.Scripts.{watched, watched_but};
ghost use Rattle.tp_explore.specs.Watched.{Watched};
ghost use Rattle.tp_script.specs.Parsed.{Parsed};

pub use boards::{Boards, PlainBoard};
pub use breadth_first::Measures;
pub use exploring::explore;
pub use fault::{Fault, FaultKind};
pub use mark::{Deed, Mark, Marked};
pub use noted::{Hush, Use};
pub use notes::Notes;
pub use passage::Passage;
pub use replayed::replay;
pub use seen::{Moving, Seen};
pub use told::{Begun, Happened, Story, Told};
pub use walk::{stories_tell_all_faults, story, story_but};
pub use watches::Watches;

/// Behind orders whose scenes differ in callbacks that are over alone, the same orders go on, with the same faults
/// whatever was noted. So a search may forget those callbacks. It does nothing: who calls it knows this.
pub fn forgetting_loses_nothing()
    ensures orders { (k : Watched) (limits : Limits) (before other more : List Entry) → IsOrder k.given limits before → IsOrder k.given limits other → AreAlike (scene_behind k.given limits before) (scene_behind k.given limits other) → IsOrder k.given limits (before ++ more) → IsOrder k.given limits (other ++ more) }
    ensures faults { (k : Watched) (limits : Limits) (noted : Noted) (before other more : List Entry) → IsOrder k.given limits before → IsOrder k.given limits other → AreAlike (scene_behind k.given limits before) (scene_behind k.given limits other) → IsOrder k.given limits (before ++ more) → faults_from k limits (scene_behind k.given limits before) noted more ≡ faults_from k limits (scene_behind k.given limits other) noted more }
{}

/// An order is a legal history wherever there is room enough for it: with each capacity from some one on. It does nothing:
/// who calls it knows this.
#[tactic(auto, using(crate::proofs::Legal::order_legal))]
pub fn orders_are_legal()
    ensures { (g : Given) (limits : Limits) (history : List Entry) → IsOrder g limits history → IsLegalAtLast limits history }
{}

/// What a search of boards answers is what there is to say of orders, by whatever key it knows them: the moves of `Bad`
/// make an order that has a fault, and no shorter one has; `None` says that no order has one; and `GaveUp` that none has
/// of at most so many entries. It does nothing: who calls it knows this.
#[tactic(auto, using(crate::proofs::BoardsAlong::searches_tell))]
pub fn searches_tell_of_orders()
    ensures { (k : Watched) (limits : Limits) (key : Board → List ℕ) (told : Answer) → Answers (rules_of k limits key) told → Explores k limits told }
{}

/// Where some faults are passed over, each order has its other faults, and no more. It does nothing: who calls it knows
/// this.
#[tactic(auto, using(crate::proofs::Passing::leaves_others))]
pub fn passing_over_leaves_the_others()
    ensures { (script : Parsed) (passed : List Fault) (limits : Limits) (history : List Entry) → faults_of (watched_but passed script) limits history ≡ filter (λ (f : Fault). not (is_passed passed f)) (faults_of (watched script) limits history) }
{}

/// A search may forget names as well: where callbacks are named by their places, and who makes no calls of a part knows
/// nothing, what it answers is what there is to say of orders all the same, by whatever key. That is so where the parts pass
/// the numbers of operations on as they are, and read them nowhere else; as those of each script do. It does nothing: who
/// calls it knows this.
pub fn closed_boards_lose_nothing()
    ensures orders { (k : Watched) → IsBlind k → (limits : Limits) (key : Board → List ℕ) (told : Answer) → Answers (rules_of_closed k limits key) told → Explores k limits told }
    ensures scripts { (passed : List Fault) (script : Parsed) → IsBlind (watched_but passed script) }
{}
