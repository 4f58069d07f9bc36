//! A pool that several threads share: each makes calls by seats of its own, and every answer stands
//! in one legal history.
//!
//! A seat stands for a client or a worker. `try_call` makes a call of it, or says that another seat
//! has the turn; `call` tries until it has been made. What comes of the call is the machine's behind
//! the history so far, and the seat then knows that history: it begins with all that the seat had
//! seen before, and ends with the call's entry, where the call became one. `wait_callbacks`,
//! `close_members` and `acquire` begin a wait and come back when it is over. `front` looks without
//! making a call, and by `split` and `join` one thread tells another what it has seen.
//!
//! It is written over any machine whose history is written down (`Recorded`); the Win32 pool is
//! `SharedPool<Book>`.
//!
//! ```text
//! let (pool, mut seats) = SharedPool::<Book>::open(alloc, program_limits(2, 4), 65_536)?;
//! let mut second = seats.pop().unwrap();              // a worker's; it may go to another thread
//! pool.call(&rt, &mut seats[0], Call::CreateGroup)    // Outcome::Done(Answer::Made { number: 1 })
//! pool.try_call(&mut second, Call::Attach)            // Tried::Look(Look::NoNeed), or Tried::Busy { holder: 1 }
//! pool.front(&mut second)                             // 1
//! ```

#![tactic(auto)]

mod notices;
mod pool;
mod waits;
mod win32;

pub use notices::{NoticeList, Notices, Told};
pub use pool::{Over, SharedPool, Tried};
