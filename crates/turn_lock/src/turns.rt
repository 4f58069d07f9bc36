//! Turns: the machine is in hand.

ghost use Rattle.std.specs.Prelude.{◌≡◌, ◌<◌, []};
ghost use Rattle.std.specs.Borrow.{sem, Lends};
ghost use mir.Syntax.{named};
ghost use Rattle.tp_base.specs.declared.answers.Entry.{Entry};
ghost use Rattle.turn_lock.specs.contracts.turns.Turn.{the_row as turn_row};
ghost use Rattle.turn_lock.specs.Locks.{IsOf};
ghost use Rattle.turn_lock.specs.Seats.{number_of, HasAppended, HasLeft, IsAtTurn, IsIdle, IsToldWhole, IsWritten};
ghost use Rattle.turn_lock.specs.Turns.{lock_at, seat_at, with_book, IfHeld, IsTurnAt, RestsIfBusy, SameTurn};

use crate::locks::{BOOK, HOLDER, LENGTH, TurnLock};
use crate::rule::{Append, LetGo};
use crate::seats::Seat;
use recorded::Recorded;

/// A turn at the machine. `leave` alone ends it: one that is let go otherwise doesn't compile.
pub struct Turn<'a, B: Recorded> {
    pub(crate) seat: &'a mut Seat<B>,
    pub(crate) lock: &'a TurnLock<B>,
}

/// What a try to take the turn comes to.
pub enum Entered<'a, B: Recorded> {
    Held(Turn<'a, B>),
    /// The seat of this number holds it.
    Busy { holder: u32 },
}

impl<B: Recorded> Seat<B> {
    /// Takes the turn where nobody holds it. It doesn't wait: else it tells the number of the one who
    /// does, which the seat has then met.
    ///
    /// With the turn the seat has seen the whole history, and the machine in hand has that history.
    pub fn try_enter<'a>(&'a mut self, lock: &'a TurnLock<B>) -> Entered<'a, B>
        requires of { IsOf lock.now self.old }
        requires idle { IsIdle self.old }
        requires numbered { 0 < number_of self.old }
        ensures* busy { sem 𝓛 (RestsIfBusy B.row self.entry result) }
        ensures held { IfHeld result (IsTurnAt B.recording lock.now self.entry) }
    {
        match lock.grab(self) {
            Ok(()) => Entered::Held(Turn::new(self, lock)),
            Err(holder) => Entered::Busy { holder },
        }
    }
}

impl<'a, B: Recorded> Turn<'a, B> {
    fn new(seat: &'a mut Seat<B>, lock: &'a TurnLock<B>) -> Turn<'a, B>
        ensures same_reference { result.seat.ghost_name ≡ seat.entry.ghost_name }
        ensures seat { result.seat.now ≡ seat.old }
        ensures lock { result.lock.now ≡ lock.now }
    {
        Turn { seat, lock }
    }
}

impl<B: Recorded> Turn<'_, B> {
    /// The machine in hand.
    pub fn book(&mut self) -> &mut B
        requires of { IsOf (lock_at self.old) (seat_at self.old) }
        requires at_turn { (book : B.row.Denot) × IsAtTurn (seat_at self.old) book }
        ensures* writes_back { sem 𝓛 (Lends (turn_row (record { mir = named 1; lft = [] }) B.row B.Recorded) B.row self.entry result (with_book self.old)) }
        ensures value { IsAtTurn (seat_at self.old) result.now }
    {
        let table = &self.lock.table.shared;
        let seat = &mut *self.seat;
        let raw = &mut seat.raw;
        raw.slot_mut(table, BOOK)
    }

    /// Says that the history has one entry more, which the machine in hand has and the seat has made.
    /// From here on every other seat can see it.
    pub fn append(&mut self)
        requires of { IsOf (lock_at self.old) (seat_at self.old) }
        requires numbered { 0 < number_of (seat_at self.old) }
        requires written { (book : B.row.Denot) × (entry : Entry) × IsWritten B.recording (seat_at self.old) book entry }
        ensures same { SameTurn self.old self.new }
        ensures appended { (book : B.row.Denot) (entry : Entry) → IsWritten B.recording (seat_at self.old) book entry → HasAppended book entry (seat_at self.old) (seat_at self.new) }
    {
        let table = &self.lock.table.shared;
        let seat = &mut *self.seat;
        let raw = &mut seat.raw;
        raw.slot_mut(table, BOOK).len();
        table.fetch_add::<Append>(raw, LENGTH, 1);
    }

    /// Lets go. The machine in hand has to have the history that was seen, with no entry more.
    pub fn leave(self)
        requires of { IsOf (lock_at self) (seat_at self) }
        requires told { (book : B.row.Denot) × IsToldWhole B.recording (seat_at self) book }
        ensures left { HasLeft (seat_at self.entry) self.exit.0.now }
    {
        let Turn { seat, lock } = self;
        lock.table.shared.store::<LetGo>(&mut seat.raw, HOLDER, 0);
    }
}
