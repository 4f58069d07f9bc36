//! What is asked of a world, across what it answers itself: who makes a call, which pool needs a worker,
//! whether all is over, whether nobody can go on.
//!
//! Each function takes a world first, of any type that `Reads` it (world_reads), and answers the condition or
//! the count of the model that has its name, of the world that it is seen as. It asks nothing of the caller and
//! changes nothing. Rows, counts and how far a wait has come, the world answers itself, from whatever it
//! keeps. These functions stand on those answers alone.
//!
//! ```text
//! live_queries::actor(&world, who)          // Actor { exists: true, runs: true, .. }
//! live_queries::busy(&world, who)           // Some: the worker, its pool and the callback that it runs
//! live_queries::pool_to_join(&world)        // Some(0): the default pool is in need
//! live_queries::left_after(&world, 0)       // Some((1, ObjectId(1), Left::Pending))
//! live_queries::is_stalled(&world, 100)     // false
//! ```

#![tactic(auto)]

mod actors;
mod callers;
mod operations;
mod over;
mod places;
mod pools;
mod stalls;

pub use callers::{
    AtWork, actor, at_work, busy, has_asked, idle, returned, runs_in_group, runs_own,
};
pub use operations::issued;
pub use over::{is_over, left_after};
pub use places::{
    lacks_group, lacks_kernel, lacks_object, lacks_pool, next_group, next_kernel, next_object,
};
pub use pools::{has_spare, is_closed_pool, is_pool, is_used, may_leave, pool_to_join};
pub use stalls::is_stalled;
