//! A search through the states of a system, breadth first, and what its answer says of all moves.
//!
//! A `System` has a first state, and so many moves of each state, by number. A move leads nowhere, to a
//! state, or to what is looked for (`Bad`). `search` tells the fewest moves that come to what is looked
//! for, or that no moves do, or, where it gives up, how many moves it looked ahead at least. What it says
//! holds of all moves, not of those alone that it made: `Answers` says so of the system's `rules`.
//!
//! ```text
//! // Two jugs, one for 3 and one for 5: a move fills one, empties one, or pours one into the other.
//! let mut measures = Measures::new();
//! search(alloc, &Jugs { goal: 4 }, 100, 100, &mut measures)      // Bad([1, 5, 2, 5, 1, 5])
//! search(alloc, &Jugs { goal: 6 }, 100, 100, &mut measures)      // None { states: 16 }
//! search(alloc, &Jugs { goal: 6 }, 8, 100, &mut measures)        // GaveUp { states: 8, deep: 3 }
//! ```
//!
//! Of a state that waits the search keeps only the state that it came from, which others have in common, and
//! the move: when its turn comes it is made again.
//!
//! States are known by their keys: of states with one key only the first that is met is gone on with. Where
//! keys tell all states apart, an `impl` gives `IsSame` as `like`, `same_itself`, `same_kept` with the lemma
//! that its keys do, and `keeps_itself` (`specs/Same`). Where they don't, `like` says which states stand for
//! each other, and the laws that each move of the one has a move of the other that does the same.

#![tactic(auto)]

ghost use Rattle.std.specs.Prelude.{◌≡◌, ◌<◌, ◌≤◌, ℕ, IfOk};
ghost use Rattle.breadth_first.specs.Answers.{Answers, GivesUpFor};
ghost use Rattle.breadth_first.specs.Rules.{Keeps, Rules};

mod searching;

use searching::{begin, expand, remake};
use std::alloc::{AllocError, Global};

/// What comes of a move.
#[derive(Drop)]
pub enum Next<S> {
    /// It can't be made.
    Nowhere,
    /// It shows what is looked for.
    Bad,
    /// It leads to a state.
    To(S),
}

/// States, and the moves from each to others.
pub trait System {
    type State: Drop;

    ghost rules: { Self → Rules Self.State };

    // What comes of the first state comes of the second, up to what is like.
    ghost like: { Self → Self.State → Self.State → Type 0 };

    /// How many moves there are. Some of them may lead nowhere, in some states or in all.
    fn width(&self) -> u32
        ensures { result ≡ (rules self.now).width };

    /// The state in which all begins.
    fn first(&self, alloc: Global) -> Result<Self::State, AllocError>
        ensures { IfOk result (λ first. first ≡ (rules self.now).first) };

    /// What comes of a move of a state.
    fn after(
        &self,
        alloc: Global,
        state: &Self::State,
        by: u32,
    ) -> Result<Next<Self::State>, AllocError>
        requires { by < (rules self.now).width }
        ensures { IfOk result (λ next. next ≡ (rules self.now).after state.now by) };

    /// The key of a state. Of states with one key only the first that is met is gone on with.
    fn key(&self, alloc: Global, state: &Self::State) -> Result<Vec<u8>, AllocError>
        ensures { IfOk result (λ key. key.items ≡ (rules self.now).key state.now) };

    ghost like_itself: { (a : Self) (s : Self.State) → like a s s };

    // What is like a state is like each that has its key.
    ghost like_kept: { (a : Self) (s t u : Self.State) → like a s t → (rules a).key t ≡ (rules a).key u → like a s u };

    // Of states that are like, the second has a move for each of the first.
    ghost keeps: { (a : Self) (s t : Self.State) (by : ℕ) → like a s t → Keeps (rules a) (like a) s t by };
}

/// What a search found.
#[derive(Drop)]
pub enum Answer {
    /// These moves come to what is looked for, and no fewer do.
    Bad(Vec<u32>),
    /// No moves come to what is looked for. So many states were met.
    None { states: u32 },
    /// No more than `deep` moves come to what is looked for. So many states were met.
    GaveUp { states: u32, deep: u32 },
}

/// What a search took. No clause speaks of it.
#[derive(Clone, Copy)]
pub struct Measures {
    /// How many states were met.
    pub states: u64,
    /// How many moves led to a state, or to what is looked for.
    pub steps: u64,
}

impl Measures {
    /// Before a search.
    pub fn new() -> Measures {
        Measures {
            states: 0,
            steps: 0,
        }
    }
}

/// Looks for the fewest moves from the first state that come to what is looked for.
///
/// It meets at most `most` states with keys of their own, and looks at no more than `deepest` moves one
/// after another. It gives up only where there are more states, or where `deepest` is reached. `measures` has what it
/// took added.
pub fn search<S: System>(
    alloc: Global,
    system: &S,
    most: u32,
    deepest: u32,
    measures: &mut Measures,
) -> Result<Answer, AllocError>
    requires { 1 ≤ most }
    ensures answers { IfOk result (Answers (S.rules system.now)) }
    ensures gives_up { IfOk result (GivesUpFor (S.rules system.now) most deepest) }
{
    let mut search = begin(alloc, system, most)?;
    measures.states = measures.states.wrapping_add(1);
    for at in 0..most {
        let depth = search.depth(at);
        let Some(waiting) = search.waiting.pop_front() else {
            return Ok(Answer::None { states: at });
        };
        if depth >= deepest {
            return Ok(Answer::GaveUp {
                states: search.len(),
                deep: deepest,
            });
        }
        let state = remake(alloc, system, waiting)?;
        if let Some(answer) = expand(alloc, system, &mut search, &state, at, depth, measures)? {
            return Ok(answer);
        }
    }
    Ok(Answer::None { states: most })
}
