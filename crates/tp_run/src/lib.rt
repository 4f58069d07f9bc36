//! All that the program tpool does, over any machine, any source, any sink and any gate.
//!
//! `tp_main` takes the words behind the program's name, reads its source to the end, and writes what
//! the command makes of it to its sink; it answers how the program ends. The machine is a
//! `recorded::Recorded`, the streams are those of `tp_edge` and the gate is `worker_gate`'s, so nothing
//! here depends on an engine or on the streams of the system: the program `tp_top` gives it all three.
//! `tp_main_alone` does the same for a program without threads, and plays each script on its own. `play_port` is what
//! the command `port` does with its devices, at a gate of the caller's.
//!
//! ```text
//! words.push("trace")?;
//! tp_main::<_, Book, _, _, _>(&rt, alloc, &words, &mut source, &mut sink, &gate)    // Status::Fine
//! ```

#![tactic(auto)]

mod command;
mod number;
mod played;
mod ported;
mod replies;
mod status;
mod top;

pub use ported::{one_device_writes_one_output, play_port};
pub use replies::Output;
pub use status::{Ending, Status};
pub use top::{tp_main, tp_main_alone};
pub use tp_words::WordList;
