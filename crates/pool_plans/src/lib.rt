//! What each call comes to: a refusal, a look, or an answer with the change that goes with it.
//!
//! Each call is one function, in the module named for what it acts on. It reads a world, of any type that `Reads`
//! it (world_reads), and changes nothing there. Of an accepted call it writes the answer down, as the outcome that the call has where the history has
//! room for it, and the change that is made then. What it decides is the plan that the definitions of `tp_model`
//! give of the call (`decided` of `specs/Decided`).
//!
//! ```text
//! pool_plans::workers::attach(&world, Who::Worker(1), &mut change, &mut outcome)   // Decision::Looked(NoNeed)
//! pool_plans::work::submit_work(&world, Who::Client(1), ObjectId(1), &mut change, &mut outcome)
//!     // Decision::Accepted; outcome is Done(Queued { first: 1, count: 1 }), and change is QueueCallback(..)
//! ```

#![tactic(auto)]

pub mod clients;
pub mod decisions;
pub mod groups;
pub mod in_callback;
pub mod io;
pub mod kernels;
pub mod objects;
pub mod pools;
mod refusals;
pub mod timers;
mod triggers;
pub mod wait_objects;
pub mod waits;
pub mod work;
pub mod workers;
