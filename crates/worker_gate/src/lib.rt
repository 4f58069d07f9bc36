//! Clients and workers as actors, each of which makes its calls one after another.
//!
//! A `Role` is what one actor does next: a client makes the calls of its part and finishes; a worker
//! attaches, takes callbacks, makes the calls of their routines and returns from them. The calls are
//! those of a `Routines`, a script for one. A role plays on a machine of its own (`Role::turn`,
//! `set_up`, `play_alone`), or with a seat of a shared pool, as an `Actor` (`Actor::turn`,
//! `play_crew`, `finish`), so that several threads can play side by side.
//!
//! What an actor may do next is told by its own entries of the history. A contract says of each call
//! here that these stay calls of the routines that it was given, each part whole, or cut where the
//! history had no room for its next call. `close_run` gathers all actors of a pool, plays what is
//! left, and promises of the whole history that it is a run of these routines. `play_routines` is all
//! of that in one call, on so many threads as are wanted; `play_routines_alone` plays on one, takes no
//! handle, and returns.
//!
//! ```text
//! let run = play_routines::<_, Book, _, _>(&rt, alloc, program_limits(2, 4), 65_536, 4, &script, &gate)?;
//! run.book.len()                                      // so many calls were made
//!
//! let (pool, seats) = SharedPool::<Book>::open(alloc, program_limits(1, 2), 1_000)?;
//! let mut first = Actor::new(client_seat, Role::client(1));
//! finish(&rt, &mut first, &pool, &script, &gate);     // client 1 plays to its end
//! tell_all(&mut first, &pool, &mut workers);          // and tells the others
//! let workers = play_crew(workers, &pool, &script, &gate);
//! let run = close_run(alloc, pool, all_actors, &script, &gate)?;
//! ```

#![tactic(auto)]

mod actor;
mod closing;
mod crew;
mod drawn;
mod role;
mod rounds;
mod run;
mod telling;

pub use actor::Actor;
pub use closing::{Run, close_run};
pub use crew::{play_crew, play_crews};
pub use drawn::play_drawn;
pub use part_places::Place;
pub use role::{Gate, Role, Turn};
pub use rounds::{play_alone, set_up};
pub use run::{
    one_history_alone, one_history_drawn, play_routines, play_routines_alone, play_routines_drawn,
};
pub use telling::{finish, tell_all};
