//! What is counted of a pool.

/// What is counted of a pool.
#[derive(Clone, Copy)]
pub struct Tally {
    /// How many workers it keeps. That of a closed pool counts as 0.
    pub minimum: u32,
    /// How many of its callbacks may run at once.
    pub maximum: u32,
    pub pending: u32,
    pub running: u32,
    pub attached: u32,
    /// The attached workers that run nothing.
    pub idle: u32,
    /// The attached workers that don't run a callback with the long mark.
    pub available: u32,
    /// Its persistent worker runs a callback.
    pub occupied: bool,
}
