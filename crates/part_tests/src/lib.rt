//! Tests of the crates that need no machine: of `tp_lines` and what it stands on, of `tp_script`, of `tp_edge`, of
//! `callback_env`, of a heap of a million keys, and of a search through the states of two jugs. They have a crate of their own, since a crate that has tests is
//! proved again for them.
//!
//! What a call answers is said by its contract. A test calls public functions with memory enough, where a contract leaves
//! want of memory open, and compares what was printed or read with what was written by hand. The parts of the engine take
//! memory as they are opened and never more; each test of a machine opens them.

#![tactic(auto)]

#[cfg(test)]
mod checks;
#[cfg(test)]
mod drawn_scripts;
#[cfg(test)]
mod edge;
#[cfg(test)]
mod environments;
#[cfg(test)]
mod heap;
pub mod jugs;
#[cfg(test)]
mod lines;
#[cfg(test)]
mod scripts;
#[cfg(test)]
mod searches;
