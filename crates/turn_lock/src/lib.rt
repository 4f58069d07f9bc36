//! A lock by which several threads share one machine, whose history is written down (`recorded`).
//!
//! A thread makes calls by a seat, which stands for one actor. `try_enter` takes the turn, or tells
//! who holds it; it never waits. Who holds the turn has the machine in hand (`book`), makes a call on
//! it, says of an accepted or refused call that the history has one entry more (`append`), and lets
//! go (`leave`). What a seat has seen of the history, and which entries of it it has made, contracts
//! know of the seat, wherever the thread is: `front` looks at the history without the turn, and by
//! `split` and `join` one thread tells another what it has seen.
//!
//! All of it is safe code over the words and the slot of `atomic_table`. The README beside this folder
//! tells the words, the kinds of step, and what holds at each.
//!
//! ```text
//! let (lock, mut seats) = TurnLock::new(alloc, book, 5)?;
//! match seats[0].try_enter(&lock) {
//!     Entered::Busy { holder } => ..                  // another seat's number
//!     Entered::Held(mut turn) => {
//!         match turn.book().step(Who::Client(1), Call::CreateGroup) {
//!             Outcome::Done(answer) => turn.append(), // the entry is the history's last
//!             Outcome::Look(_) | Outcome::Full { .. } => {}
//!         }
//!         turn.leave();
//!     }
//! }
//! let entries = lock.front(&mut seats[1]);
//! let book = lock.close(seats);                       // all seats; its history begins with what each has seen
//! ```

#![tactic(auto)]

mod locks;
mod rule;
mod seats;
mod turns;
mod views;

pub use locks::TurnLock;
pub use seats::Seat;
pub use turns::{Entered, Turn};
