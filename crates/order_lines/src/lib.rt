//! All orders of a script's calls, and what is written of them.
//!
//! `explore_script` goes through them, and writes that none has a fault, or a shortest that has one as a history, with the
//! fault and the marks of the script behind it, a line each. A fault is told at a line of the script, and is named by
//! what stands there: the name of a memory or of an object, or the operation that is in the way. So names are read off
//! the script's text, and nothing keeps them. `explore_each` does so again and again, and tells each fault that some order
//! has, the shortest order first.
//!
//! ```text
//! let limits = program_limits(script.clients(), 2);
//! let explored = explore_script::<Book, PlainWorld>(alloc, &script, text, limits, 1_000_000)?;
//! explored.found      // Found::Bad
//! explored.text       // "tpool history 2 ..\nend 13\nbad refused released line 10 w1\nmark 9 c2 free text\nstates 92\n"
//! explore_each::<Book, PlainWorld>(alloc, &script, text, limits, 1_000_000)?;         // such a text for each fault
//! append_faults(text, &story.told, &mut output)?;     // "fault refused released line 10 w1 entry 13\n"
//! ```

#![tactic(auto)]

mod explored;
mod lines;
mod words;

pub use explored::{
    BLOCKS, DEEPEST, EVENTS, Explored, Found, append_faults, explore_each, explore_script,
};
