//! A search through the states of two jugs.

ghost use Rattle.std.specs.Prelude.{◌≤◌};

use crate::checks::{expect_eq, expect_ok};
use crate::jugs::Jugs;
use breadth_first::{Answer, Measures, search};
use std::alloc::Global;
use std::process::Abort;

fn found(rt: &impl Abort, alloc: Global, goal: u8, most: u32, measures: &mut Measures) -> Answer
    requires { 1 ≤ most }
{
    expect_ok(rt, search(alloc, &Jugs { goal }, most, 100, measures))
}

#[test]
fn four_takes_six_moves(rt: HostRuntime) {
    if let Answer::Bad(path) = found(&rt, rt.alloc(), 4, 100, &mut Measures::new()) {
        expect_eq(&rt, path.as_slice() == [1, 5, 2, 5, 1, 5].as_slice(), true);
    } else {
        panic!(rt; "no moves were found");
    }
}

#[test]
fn six_is_never_reached(rt: HostRuntime) {
    let mut measures = Measures::new();
    if let Answer::None { states } = found(&rt, rt.alloc(), 6, 100, &mut measures) {
        expect_eq(&rt, states, 16);
        // Each of the six moves of a state leads to one.
        expect_eq(&rt, (measures.states, measures.steps), (16, 96));
    } else {
        panic!(rt; "moves were found, or it gave up");
    }
}

#[test]
fn eight_states_are_too_few(rt: HostRuntime) {
    if let Answer::GaveUp { states, deep } = found(&rt, rt.alloc(), 6, 8, &mut Measures::new()) {
        expect_eq(&rt, (states, deep), (8, 3));
    } else {
        panic!(rt; "it did not give up");
    }
}
