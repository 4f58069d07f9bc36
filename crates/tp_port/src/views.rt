//! What a pass knows of completions.

use port_facts::{Completion, Posted};
use std::collections::LinkedList;

/// What a pass knows. It exists for proofs: no value of it is ever made.
pub enum Part {
    /// Nothing: another pass took it in.
    Spent,
    /// A device's pass: its number, how many completions it may post, how many all devices may post
    /// together, and what it has posted.
    Posts {
        device: u32,
        quota: u32,
        room: u64,
        put: LinkedList<Completion>,
    },
    /// The taker's pass: the quotas of the devices in order, how many passes of devices were made of
    /// it, what it has taken, and what was posted by each of those that it took in again.
    Takes {
        quotas: LinkedList<u32>,
        made: u32,
        taken: LinkedList<Posted>,
        known: LinkedList<LinkedList<Completion>>,
    },
}
