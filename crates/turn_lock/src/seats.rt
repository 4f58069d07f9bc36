//! Seats: by what a caller steps, and what it knows.

ghost use Rattle.std.specs.Prelude.{◌≡◌};

use crate::views::View;

pub(crate) type Raw<B> = atomic_table::Seat<B, View>;

/// A seat at a lock. It takes no bytes but its number, may go to another thread, and is told nothing
/// but by the calls that are made with it.
#[derive(Drop)]
pub struct Seat<B> {
    pub(crate) number: u32,
    pub(crate) raw: atomic_table::Seat<B, View>,
}

impl<B> Seat<B> {
    ghost use Rattle.turn_lock.specs.Seats.{number_of};

    /// Its number, which never changes; 0 where it stands for no actor.
    pub fn number(&self) -> u32
        ensures { result ≡ number_of self.now }
    {
        self.number
    }
}
