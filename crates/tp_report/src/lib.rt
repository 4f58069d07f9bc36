//! Reports on histories of the thread pool machine, from texts.
//!
//! `trace` plays the calls of a text, a line each, and answers the line of what each comes to. `history`
//! plays them too, and answers the history that they make, in format 2. `check`
//! reads a history and says whether each answer in it is the machine's, and each moment right;
//! `print_verdict` appends the text of that. A history as a text is its first line, which says how large
//! the machine was; its entries, a line each, in format 2 with the time of the clock before each; and the
//! end line, with their number.
//!
//! `migrate` judges a history as `check` does, and appends the text of a legal one in format 2, whichever
//! format it was in. What it appends is a legal history again.
//!
//! Each takes a text line by line: what is read is played at once on a machine that keeps its history, a
//! `recorded::Recorded` of the caller's choice, and no list of the lines is kept. Each answers the place
//! of the first fault of a text that isn't in the grammar.
//!
//! A `Written` is a machine that writes its history down as a text in format 2 while it is made, and a
//! `Counted` one that counts what the entries tell; `print_summary` and `print_json` append the totals of
//! that.
//!
//! ```text
//! let size = MachineSize { workers: 4, events: 65_536 };
//! trace::<Book>(alloc, b"c1 create-pool\nc1 finish\n", size)     // Ok("made 1\nok\n")
//! trace::<Book>(alloc, b"c1 create-pool\nc1 finsh\n", size)      // Err(TextFault::At { line: 2, column: 7 })
//!
//! let mut book = Written::<Book>::open(alloc, program_limits(1, 4), 65_536)?;
//! book.step(Who::Client(1), Call::Finish);                       // Outcome::Done(Answer::Done)
//! into_history(alloc, book)
//!     // Ok((.., "history 2 clients 1 workers 4 events 65536 objects 65535\n0 c1 finish -> ok\nend 1\n"))
//! ```

#![tactic(auto)]

mod checking;
mod counts;
mod frame;
mod headers;
mod json;
mod left;
mod lines;
mod moments;
mod playing;
mod summary;
mod verdict;
mod written;

pub use checking::{CheckFault, check, migrate};
pub use counts::{Counted, Counts};
pub use headers::EVENT_LIMIT;
pub use json::print_json;
pub use left::{LeftRow, left_callbacks};
pub use line_grammar::faults::TextFault;
pub use playing::{MachineSize, history, trace};
pub use summary::print_summary;
pub use verdict::{Verdict, print_verdict};
pub use written::{Written, WrittenLines, into_history};
