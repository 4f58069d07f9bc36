//! What a seat knows. These types exist for proofs: no value of them is ever made.

use std::collections::LinkedList;
use tp_base::answers::Entry;
use tp_base::limits::Limits;

/// What a lock was made with: the limits and the capacity of its book, and the number of its seats.
#[derive(Clone, Copy)]
pub struct Setup {
    pub limits: Limits,
    pub capacity: u32,
    pub seats: u32,
}

/// A number, and the entries of the actor for whom it stands.
pub struct Part {
    pub number: u32,
    pub mine: LinkedList<Entry>,
}

/// The view of a seat.
pub struct View {
    pub setup: Setup,
    /// The history, as far as the seat has seen it.
    pub seen: LinkedList<Entry>,
    /// What the seat was told by another one, and hasn't yet seen itself.
    pub told: LinkedList<Entry>,
    /// The numbers for which the seat stands.
    pub parts: LinkedList<Part>,
    /// The holders that it found where it tried to take the turn.
    pub met: LinkedList<u32>,
    /// It holds the turn.
    pub holds: bool,
    /// Another seat has taken it in.
    pub spent: bool,
}
