//! What a history tells besides its entries.

use crate::fault::Fault;
use tp_base::ids::Who;

/// A fault of an entry.
#[derive(Clone, Copy)]
pub struct Told {
    /// The number of the entry, from 1.
    pub entry: u32,
    /// Whose entry it is.
    pub who: Who,
    pub fault: Fault,
}

/// A mark that took place.
#[derive(Clone, Copy)]
pub struct Happened {
    /// The number of the entry with which it did, from 1.
    pub entry: u32,
    /// Whose part says it.
    pub who: Who,
    /// Its line in the script, from 1.
    pub line: u32,
}

/// A wait that was begun.
#[derive(Clone, Copy)]
pub struct Begun {
    pub who: Who,
    /// The line of its operation in the script, from 1.
    pub line: u32,
}

/// What a history tells besides its entries.
#[derive(Drop)]
pub struct Story {
    /// Its faults, in the order of the entries that brought them.
    pub told: Vec<Told>,
    /// The marks that took place, in the order in which they did.
    pub happened: Vec<Happened>,
    /// Where a wait ended since nobody could go on: the waits that were begun before that entry, those of clients first.
    pub waiting: Vec<Begun>,
}
