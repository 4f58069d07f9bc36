//! The lines of scripts: what each says, and why it may not stand where it stands.
//!
//! `read_line` reads a line where some things are known (`Known`): the names that the lines before it declared, those of
//! the script's routines, and how far the script has come. It answers the record of what the words say (`Line`), or the
//! column of the first word that may not stand there and why. `next_line` and `next_word` take a text apart. Only a
//! `Table` of names takes memory, as a name is added.
//!
//! ```text
//! let known = Known { names: Table::new(alloc), routines: Table::new(alloc), state: State::first() };
//! read_line(&known, b"event e auto clear")    // Ok: of a Line with the head Word::Event, and its new name "e"
//! read_line(&known, b"event e auto")          // Err(LineFault { column: 13, kind: ScriptKind::Unexpected })
//! read_line(&known, b"work w job")            // Err(LineFault { column: 8, kind: ScriptKind::UnknownName })
//! ```
//!
//! A word of a line is judged by itself: by the fields that are left, which a table of words says (`words`), by
//! what the line says so far, and by the names that are known (`judge`). So a line has one reading and one fault.

#![tactic(auto)]

mod fault;
mod judge;
mod line;
mod names;
mod reading;
mod state;
mod texts;
mod words;

pub use fault::ScriptKind;
pub use judge::Known;
pub use line::{Condition, Line, Meaning};
pub use names::{Named, Table};
pub use reading::{LineFault, LineRead, read_line};
pub use state::{Place, State};
pub use texts::{Spot, is_blank, is_name, next_line, next_word};
pub use words::{Sort, Word};
