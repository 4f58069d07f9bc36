//! The words that the program is called with, read with `clap`.
//!
//! `read` tells what stands where: the word that is the command, the number behind it, the value of each option and whether
//! each flag was there, all as texts. Whether they are numbers, in their ranges, and what the command wants, is judged by
//! whoever asks.
//!
//! ```text
//! let mut words = WordList::new(alloc);
//! words.push("big")?;
//! words.push("7")?;
//! words.push("--workers=2")?;
//! read(alloc, &words)    // Ok: of Texts with the command "big", the number "7" and the workers "2"
//! ```

#![tactic(auto)]

mod reading;
mod words;

pub use reading::{Texts, WordFault, read};
pub use words::WordList;
