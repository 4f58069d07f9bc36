//! Lines of the thread pool machine, as text: the calls of a trace, the entries of a history, and what
//! the machine answers.
//!
//! A text is a line without its line feed. `read_call_line` and `read_entry` read the call or the entry at the
//! front of a text, or tell the place of its fault. `Lines` has the lines of what calls came to, one behind
//! another, `ReservedLines` those of entries, each with a moment and a space before it, and `print_outcome`
//! appends one text.
//!
//! A call, an answer, a look and full is a row: a word, and parts that describe themselves (`row_of`,
//! `row_of_answer`, `row_of_look`, `row_of_full`). Its text is theirs, each with one space before it. What stands behind
//! a word is told by the fields that it brings (`words`), and the range of a number by its field. So one
//! reader reads all rows (`read_parts`), with the exact place of a fault, and a row tells its call or answer
//! (`call_at`, `answer_at`). A layer above reads the rows of a table of its own by the same: those of `OldCall` are the
//! calls of the pool before Vista, and that of `SleepCall` is a sleep.
//!
//! ```text
//! read_call_line(b"c1 submit 1")      // Ok(((Who::Client(1), Call::SubmitWork { object: ObjectId(1) }), 11))
//! read_call_line(b"c1 submit 01")     // Ok(((Who::Client(1), Call::SubmitWork { object: ObjectId(0) }), 11))
//! read_call_line(b"c1 submit one")    // Err(10)
//! read_call_line(b"c1 submit")        // Err(9)
//! ```

#![tactic(auto)]

mod answers;
pub mod calls;
pub mod entries;
pub mod facts;
mod line;
pub mod parts;
pub mod print;
mod put;
pub mod reserved;
pub mod rows;
pub mod words;
