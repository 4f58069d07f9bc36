//! Where each actor of a script is in its work.
//!
//! A `Place` is how far one actor has come: a client in its part, a worker between its callbacks or in the routine of one.
//! The actor's own entries tell it, one after another. `Place::opening` is the place before the first call, `next_call`
//! tells the call that follows in the actor's part, and `goes_on` takes note of a call and its answer. The calls are those
//! of a `Routines`, a script for one; no call takes memory.
//!
//! ```text
//! let mut place = Place::opening(Who::Client(2));
//! place.next_call(Who::Client(2), &script)            // Some(Call::SetEvent { kernel: KernelId(1) })
//! place.goes_on(Who::Client(2), &script, false, &call, &answer);
//! place.next_call(Who::Client(2), &script)            // None: Finish is due
//! ```

#![tactic(auto)]

mod place;

pub use place::Place;
