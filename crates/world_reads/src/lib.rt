//! What plans and queries read of a world of the thread pool machine, whoever keeps that world and however.
//!
//! `Reads` is a trait over the world itself: each of its calls answers a condition, a count, a row or a callback
//! of the model, and changes nothing. Nothing is said of how a world is kept. An engine answers from counters and
//! lists (live_world), and a search of small worlds from plain vectors. What is asked across these answers stands in
//! live_queries, and what each call of the machine comes to in pool_plans: both once, for every world that can be
//! read.
//!
//! ```text
//! world.client(1)                     // Some(ClientRow { finished: false })
//! world.tally(PoolId(0)).pending      // 2: of the default pool's callbacks two are pending
//! world.is_object(ObjectId(3))        // false: no object of this number was made
//! world.next_number()                 // 8: seven callbacks were made so far
//! world.progress(Who::Client(1), 100) // Progress::Holds { callback: 5 }: its wait can't end yet
//! ```
//!
//! Beside the trait stand the types that answers need: `Tally`, `WaitCounts` and `Progress`, and `Actor`, by which
//! the conditions of a refusal are told of who makes a call. And what is made or read of a row in the same way
//! wherever it is kept: `new_callback` makes one of an object, and `slots_of` tells which actions on return a status
//! has (`NO_ACTIONS`, where it has none).

#![tactic(auto)]

mod actors;
mod reads;
mod rows;
mod tally;
mod waiting;

pub use actors::Actor;
pub use reads::Reads;
pub use rows::{NO_ACTIONS, new_callback, slots_of};
pub use tally::Tally;
pub use waiting::{Progress, WaitCounts};
