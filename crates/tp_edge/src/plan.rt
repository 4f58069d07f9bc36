//! Which calls of a stream in memory fail.

ghost use Rattle.std.specs.Prelude.{◌≡◌, ◌≤◌, ◌==◌, ◌||◌};
ghost use Rattle.std.specs.List.{list_any};

use std::marker::Model;

/// The numbers of the calls that fail, how many calls there were, and how many of them failed.
#[derive(Drop)]
pub struct FaultPlan {
    failing: Vec<u32>,
    calls: u64,
    faults: u64,
}

impl Model for FaultPlan {
    ghost use Rattle.tp_edge.specs.Plan.{Plan};

    ghost Value = { Plan };

    ghost view = { λ plan. record { failing = plan.failing.items; calls = plan.calls; faults = plan.faults } };
}

impl FaultPlan {
    ghost use Rattle.tp_edge.specs.Plan.{fresh_plan, names_next, after_call};

    /// A plan by which the calls with these numbers, from 1, fail. None was made yet.
    pub fn new(failing: Vec<u32>) -> Self
        ensures { result ≡ fresh_plan failing.items }
    {
        FaultPlan {
            failing,
            calls: 0,
            faults: 0,
        }
    }

    /// Counts a call, and answers whether it fails: where the plan names it, or where it is
    /// `refused` for a reason of its own. Counts the fault then.
    pub fn count_call(&mut self, refused: bool) -> bool
        ensures value { result ≡ (refused || names_next self.old) }
        ensures after { self.new ≡ after_call self.old refused }
        ensures never_falls { self.old.faults ≤ self.new.faults }
    {
        self.calls = self.calls.saturating_add(1);
        if !refused && !names(&self.failing, self.calls) {
            return false;
        }
        self.faults = self.faults.saturating_add(1);
        true
    }

    /// How many calls failed.
    pub fn faults(&self) -> u64
        ensures { result ≡ self.now.faults }
    {
        self.faults
    }
}

/// Whether the call of this number is among those that fail.
fn names(failing: &[u32], number: u64) -> bool
    ensures { result ≡ list_any (λ call. call == number) failing.now }
{
    failing.iter().any(|call| u64::from(*call) == number)
}
