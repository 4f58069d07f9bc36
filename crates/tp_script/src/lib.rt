//! The script language: what a program does with the thread pool, as text, and the calls that come of it.
//!
//! A script declares pools, groups, kernel objects and objects, and says what its routines and clients do
//! (docs/FORMATS.md). `parse_script` reads one, or tells the line, the column and the kind of its first fault.
//! A `Script` is seen as the list of the lines that are played, each of which is the record of what its words say
//! (script_lines), with where they stand in the text; and the marks between them, which make no calls: what is said of
//! memories and of callbacks.
//! It is a `Routines`: `next` tells the call of a part that has come so far, and `after` takes note of its answer. A part
//! is a client or a routine, and client 1 makes the declarations. No call but `parse_script` takes memory.
//!
//! ```text
//! let script = parse_script(alloc, b"event e auto clear\nclient\n  set-event e\ndone\n")?;
//! script.clients()                                // 2: the one that declares is client 1
//! let mut at = Progress::first();
//! script.next(Part::Client(2), &at)               // Some(Call::SetEvent { kernel: KernelId(1) })
//! script.after(Part::Client(2), &mut at, Answer::Queued { first: 0, count: 0 });
//! script.next(Part::Client(2), &at)               // None
//! ```
//!
//! What a script says besides its calls is told by part and operation. `may_refuse` tells whether `try` stands before an
//! operation, `line` where it stands in the text, `marks` what is said behind so many operations, and `part_marks` all that
//! a part says; `memory_line`, `object_line` and `group_line` tell where these are declared, and `name_on` the name in a
//! line of the text.
//!
//! ```text
//! let text = b"memory m\nclient\n  use m\n  try advance 1\n  free m\ndone\n";
//! let script = parse_script(alloc, text)?;
//! script.may_refuse(Part::Client(2), 0)           // true
//! script.line(Part::Client(2), 0)                 // Some(4)
//! script.marks(Part::Client(2), 1)                // [Mark { place: 2, line: 5, act: Act::Free(1) }]
//! name_on(text, 5)                                // b"m"
//! ```

#![tactic(auto)]

mod calls;
mod fault;
mod marks;
mod named;
mod numbered;
mod parse;
mod routines;
mod script;

pub use calls::number_at;
pub use fault::ScriptFault;
pub use marks::{Act, Mark};
pub use named::name_on;
pub use routines::{Part, Progress, Routines};
pub use script::{
    Script, no_fault_in_a_script, no_line_begins_so, one_fault_a_text, one_reading_a_text,
    one_script_a_text, parse_script,
};
pub use script_lines::ScriptKind;
