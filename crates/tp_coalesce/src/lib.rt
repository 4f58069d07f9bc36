//! Timer windows: a sleep that goes on with the clock by few wake-ups.
//!
//! The window of a timer is the greatest delay that the system may add to it. `Advance` doesn't use it. A sleep moves the
//! clock to a target by wake-ups, each of which is an `Advance` of the actor that sleeps: each but the last goes to the
//! least deadline of what is set with a time, so that timers whose windows overlap expire together. `sleep_told` makes the
//! wake-ups, and comes to what the definition `sleep` (specs/Sleeps) says. `play_windows` plays the lines of a trace with
//! sleeps, and comes to the lines of `windows_play` (specs/Windows).
//!
//! ```text
//! // two timers are set: due in 1 ms with a window of 3, and due in 3 ms with a window of 5
//! sleep(&mut book, Who::Client(1), 100_000)   // Slept::Done { now: 100_000, wakes: 2 }: at 40,000 both expire
//! ```

#![tactic(auto)]

mod layer;
pub mod lines;
mod sleeping;

pub use layer::{SleepBook, play_windows};
pub use sleeping::{Listener, Slept, sleep, sleep_told, sleeps_are_lawful};
use tp_base::calls::Call;

/// A call of a program that sleeps.
#[derive(Clone, Copy)]
pub enum SleepCall {
    /// Goes on with the clock by so many units of 100 ns: `Sleep`.
    Sleep { ticks: u64 },
    /// A call of the machine.
    Pool { call: Call },
}
