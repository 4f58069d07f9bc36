//! A counter of steps that takes no bytes when the program runs: contracts see it as a number, and
//! so can say how many steps a call takes at most.
//!
//! ```text
//! let mut steps = Steps::new();
//! heap.set(key, due, &mut steps);     // its contract bounds what it adds
//! ```

#![tactic(auto)]

ghost use Rattle.std.specs.Prelude.{◌≡◌, ◌+◌};

use ghost_copy::GhostCopy;
use std::marker::Model;
use std::mem;

// How many steps were counted: none, or one more than before.
#[derive(Drop)]
enum Count {
    Zero,
    More(GhostCopy<Count>),
}

/// A counter, seen as a number.
#[derive(Drop)]
pub struct Steps {
    count: GhostCopy<Count>,
}

impl Model for Steps {
    ghost use Rattle.std.specs.Prelude.{ℕ};
    ghost use Rattle.steps.specs.Counted.{count_of};

    ghost Value = { ℕ };

    ghost view = { λ s. count_of s.count.value };
}

impl Steps {
    /// A counter at 0.
    #[inline(always)]
    pub fn new() -> Steps
        ensures { result ≡ 0 }
    {
        Steps {
            count: GhostCopy::of(&Count::Zero),
        }
    }

    /// Counts one step.
    #[inline(always)]
    pub fn tick(&mut self)
        ensures { self.new ≡ self.old + 1 }
    {
        let before = mem::replace(&mut self.count, GhostCopy::of(&Count::Zero));
        self.count = GhostCopy::of(&Count::More(before));
    }
}
