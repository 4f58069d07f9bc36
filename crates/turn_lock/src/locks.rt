//! The lock: its words and its slot, and what is done without the turn.

ghost use Rattle.std.specs.Prelude.{◌≡◌, ℕ, ◌<◌, ◌≤◌, false, [], length, All, Any, IfOk, IfErr, OnOk};
ghost use Rattle.turn_lock.specs.Steps.{Fronted};
ghost use Rattle.turn_lock.specs.Views.{opening_view, setup_with};

use crate::rule::{Copy, Deal, Front, Grab, Law, TakeIn};
use crate::seats::{Raw, Seat};
use crate::views::{Setup, View};
use atomic_table::{Refused, Table};
use recorded::Recorded;
use std::alloc::{AllocError, Global};

// The words of the table.
pub(crate) const LENGTH: usize = 0;

pub(crate) const HOLDER: usize = 1;

// Its one slot, which has the book.
pub(crate) const BOOK: usize = 0;

/// A machine that several threads share, by turns.
///
/// It is made with a machine and a number of seats, and has no other. Each of its calls but `new`
/// takes seats of this lock, and returns.
#[derive(Drop)]
pub struct TurnLock<B: Recorded> {
    pub(crate) table: Table<B, View, Setup, Law, Global>,
    ghost sized: { (table.shared.table_id.words ≡ 2) × (table.shared.table_id.slots ≡ 1) },
    ghost some_seats: { 0 < table.shared.key.seats },
}

impl<B: Recorded> TurnLock<B> {
    ghost use Rattle.turn_lock.specs.Histories.{StartsWith};
    ghost use Rattle.turn_lock.specs.Locks.{name_of, setup_of, AreDealt, IsOf};
    ghost use Rattle.turn_lock.specs.Seats.{number_of, seen_of, IsCopy, HasEntered, HasLooked, HasMet, IsGathered, IsIdle, IsLast};

    /// A lock over a machine without entries, and its seats, of the numbers from 1 on, in their order:
    /// those of the clients come first, then those of the workers.
    ///
    /// It alone takes memory; an `AllocError` comes where that isn't there, and the machine is lost.
    pub fn new(
        alloc: Global,
        book: B,
        seats: u32,
    ) -> Result<(TurnLock<B>, Vec<Seat<B>>), AllocError>
        requires some { 0 < seats }
        requires empty { (B.recording book).history ≡ [] }
        ensures setup { IfOk result (λ made. setup_of made.0 ≡ setup_with (B.recording book) seats) }
        ensures dealt { IfOk result (λ made. AreDealt made.0 made.1.items) }
    {
        let setup = Setup {
            limits: book.limits(),
            capacity: book.capacity(),
            seats,
        };
        let mut slots = Vec::with_capacity(alloc, 1)?;
        slots.push_reserved(book);
        let (table, raw) = match Table::new(alloc, &[0, 0], slots, &setup) {
            Ok(made) => made,
            Err(Refused { slots: _ }) => return Err(AllocError),
        };
        let lock = TurnLock { table };
        let dealt = lock.deal(alloc, raw, seats)?;
        Ok((lock, dealt))
    }

    // Seats of the numbers from 1 to `count`, from one that has them all.
    fn deal(&self, alloc: Global, raw: Raw<B>, count: u32) -> Result<Vec<Seat<B>>, AllocError>
        requires of { raw.table_id ≡ name_of self.now }
        requires all { raw.me ≡ (opening_view (setup_of self.now), []) }
        requires count { count ≡ (setup_of self.now).seats }
        ensures { IfOk result (λ seats. AreDealt self.now seats.items) }
    {
        let mut left = raw;
        let mut seats = Vec::new(alloc);
        for place in 0..count {
            let raw = self.table.shared.split_seat::<Deal>(&mut left);
            seats.push(Seat {
                number: place + 1,
                raw,
            })?;
        }
        Ok(seats)
    }

    /// Looks at the history, and answers its length. The seat has then seen all of it that there is;
    /// none of what was there by then is the seat's own but what it has made.
    pub fn front(&self, seat: &mut Seat<B>) -> u64
        requires of { IsOf self.now seat.old }
        requires idle { IsIdle seat.old }
        ensures looked { HasLooked seat.old seat.new }
        ensures count { result ≡ length (seen_of seat.new) }
    {
        self.look(&mut seat.raw)
    }

    // The length of the history.
    fn look(&self, raw: &mut Raw<B>) -> u64
        requires of { raw.old.table_id ≡ name_of self.now }
        requires idle { (raw.old.me.0.spent ≡ false) × (raw.old.me.0.holds ≡ false) }
        ensures same { (raw.new.table_id ≡ raw.old.table_id) × (raw.new.id ≡ raw.old.id) }
        ensures told { Fronted raw.old.me result raw.new.me }
    {
        self.table.shared.load::<Front>(raw, LENGTH)
    }

    /// Looks at the history, and gives a seat of number 0 that has seen as much: to be handed to
    /// another thread, whose seat takes it in by `join`.
    pub fn split(&self, seat: &mut Seat<B>) -> Seat<B>
        requires of { IsOf self.now seat.old }
        requires idle { IsIdle seat.old }
        ensures looked { HasLooked seat.old seat.new }
        ensures copy { IsCopy seat.new result }
    {
        self.front(seat);
        let raw = self.table.shared.split_seat::<Copy>(&mut seat.raw);
        Seat { number: 0, raw }
    }

    /// Takes in a seat of number 0, and looks at the history: what the seat has then seen begins with
    /// what it had seen, and with what the other one had.
    pub fn join(&self, seat: &mut Seat<B>, other: Seat<B>)
        requires of { IsOf self.now seat.old × IsOf self.now other }
        requires idle { IsIdle seat.old × IsIdle other }
        requires numberless { number_of other ≡ 0 }
        ensures looked { HasLooked seat.old seat.new }
        ensures told { StartsWith (seen_of seat.new) (seen_of other) }
    {
        let Seat { number: _, raw } = other;
        self.table.shared.join_seat::<TakeIn>(&mut seat.raw, raw);
        self.look(&mut seat.raw);
    }

    // Takes the turn, or tells the number of its holder.
    pub(crate) fn grab(&self, seat: &mut Seat<B>) -> Result<(), u32>
        requires of { IsOf self.now seat.old }
        requires idle { IsIdle seat.old }
        requires numbered { 0 < number_of seat.old }
        ensures entered { OnOk result (HasEntered B.recording seat.old seat.new) }
        ensures met { IfErr result (λ holder. HasMet holder seat.old seat.new) }
    {
        let found = self
            .table
            .shared
            .compare_exchange::<Grab>(&mut seat.raw, HOLDER, 0, u64::from(seat.number));
        if found == 0 {
            Ok(())
        } else {
            Err(found as u32)
        }
    }

    /// The machine comes back, where all seats do. Its history begins with what each seat has seen, and
    /// has of each seat's actor the entries that the seat has made; and each of its entries is of an
    /// actor for whom there was a seat.
    pub fn close(self, mut seats: Vec<Seat<B>>) -> B
        requires of { All (IsOf self) seats.items }
        requires idle { All IsIdle seats.items }
        requires all { (number : ℕ) → 1 ≤ number → number ≤ (setup_of self).seats → Any (λ seat. number_of seat ≡ number) seats.items }
        ensures last { All (IsLast (B.recording result)) seats.items }
    {
        let first = seats.pop().unwrap();
        let raw = self.gather(first, seats);
        let TurnLock { table } = self;
        let mut closed = table.close_with(raw);
        let book = closed.take(BOOK);
        closed.free();
        book
    }

    // One seat that has the numbers of all.
    fn gather(&self, first: Seat<B>, mut others: Vec<Seat<B>>) -> Raw<B>
        requires of { IsOf self.now first × All (IsOf self.now) others.items }
        requires idle { IsIdle first × All IsIdle others.items }
        ensures of { result.table_id ≡ name_of self.now }
        ensures idle { (result.me.0.holds ≡ false) × (result.me.0.spent ≡ false) }
        ensures first { IsGathered result first }
        ensures others { All (IsGathered result) others.items }
    {
        let Seat { number: _, mut raw } = first;
        while let Some(
            Seat {
                number: _,
                raw: other,
            },
        ) = others.pop()
        {
            self.table.shared.join_seat::<TakeIn>(&mut raw, other);
            self.look(&mut raw);
        }
        raw
    }
}
