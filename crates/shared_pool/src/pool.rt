//! A pool that several threads share.

ghost use Rattle.std.specs.Prelude.{◌≡◌, ◌+◌, ◌<◌, ◌≤◌, length, All, Err, IfErr, IfOk};
ghost use Rattle.tp_base.specs.declared.limits.Limits.{Limits as Bounds};
ghost use Rattle.tp_base.specs.Ranges.{AreLimitsInRange, IsCallInRange};
ghost use Rattle.recorded.specs.declared.OpenFault.TheVariants.{NoMemory, TooSmall};
ghost use Rattle.turn_lock.specs.Locks.{setup_of};
ghost use Rattle.turn_lock.specs.Histories.{actor_of, StartsWith};
ghost use Rattle.turn_lock.specs.Seats.{number_of, seen_of, HasLooked, IsCopy, IsLast};
ghost use Rattle.shared_pool.specs.Calls.{HasAsked, HasEnded, HasMetMore, HasTried};

use crossbeam_utils::Backoff;
use recorded::{OpenFault, Recorded};
use std::alloc::Global;
use std::sync::Wait;
use tp_base::answers::{Answer, Look, Outcome};
use tp_base::calls::Call;
use tp_base::ids::Who;
use tp_base::limits::Limits;
use turn_lock::{Entered, Seat, TurnLock};

/// A machine that several threads make calls on, each by seats of its own.
#[derive(Drop)]
pub struct SharedPool<B: Recorded> {
    lock: TurnLock<B>,
    limits: Limits,
    ghost limits_are: { limits ≡ (setup_of lock).limits },
}

/// What a try to make a call comes to.
#[derive(Clone, Copy)]
pub enum Tried {
    /// The answer, which is the call's entry of the history.
    Done(Answer),
    /// Nothing happened.
    Look(Look),
    /// The history has no room for what the call costs. Nothing happened.
    Full { room: u64, cost: u64 },
    /// The seat of this number has the turn. Nothing happened, and nothing was looked at.
    Busy { holder: u32 },
}

/// Whether all is over on a pool.
#[derive(Clone, Copy)]
pub enum Over {
    Yes,
    No,
    /// The seat of this number has the turn, and nothing was looked at.
    Busy { holder: u32 },
}

// Whose calls a seat of a number makes.
fn actor(number: u32, clients: u32) -> Who
    requires { 0 < number }
    ensures { (limits : Bounds) → limits.clients ≡ clients → result ≡ actor_of limits number }
{
    if number <= clients {
        Who::Client(number)
    } else {
        Who::Worker(number - clients)
    }
}

impl<B: Recorded> SharedPool<B> {
    ghost use Rattle.turn_lock.specs.Locks.{AreDealt};
    ghost use Rattle.shared_pool.specs.Pools.{lock_in, pool_setup, setup_at, HaveAll, IsPlayer, IsSeatOf};

    /// Opens a pool on a machine of these limits that has made no step, and gives a seat for each
    /// actor: first the clients, then the workers. The history will have room for `capacity` entries,
    /// those that are owed among them.
    ///
    /// It takes all the memory that the pool will ever need; `NoMemory` comes where that isn't there.
    /// `TooSmall` comes exactly where the capacity is below the number of clients, and tells both numbers.
    pub fn open(
        alloc: Global,
        limits: Limits,
        capacity: u32,
    ) -> Result<(SharedPool<B>, Vec<Seat<B>>), OpenFault>
        requires { AreLimitsInRange limits }
        ensures setup { IfOk result (λ made. setup_at made.0 ≡ pool_setup limits capacity) }
        ensures dealt { IfOk result (λ made. AreDealt (lock_in made.0) made.1.items) }
        ensures players { IfOk result (λ made. All (IsPlayer made.0) made.1.items) }
        ensures all { IfOk result (λ made. HaveAll made.0 made.1.items) }
        ensures too_small { capacity < limits.clients → result ≡ Err (TooSmall capacity limits.clients) }
        ensures no_memory { limits.clients ≤ capacity → IfErr result (λ fault. fault ≡ NoMemory) }
    {
        let book = B::try_open(alloc, limits, capacity)?;
        let (lock, seats) = TurnLock::new(alloc, book, limits.clients + limits.workers)?;
        Ok((SharedPool { lock, limits }, seats))
    }

    /// Makes a call of the seat's actor, unless another seat has the turn. It doesn't wait.
    ///
    /// The answer is the machine's behind the history so far, which begins with what the seat has seen.
    /// An accepted or refused call becomes the history's next entry.
    pub fn try_call(&self, seat: &mut Seat<B>, call: Call) -> Tried
        requires player { IsPlayer self.now seat.old }
        requires in_range { IsCallInRange call }
        ensures player { IsPlayer self.now seat.new }
        ensures tried { HasTried call result seat.old seat.new }
    {
        let who = actor(seat.number(), self.limits.clients);
        match seat.try_enter(&self.lock) {
            Entered::Busy { holder } => Tried::Busy { holder },
            Entered::Held(mut turn) => match turn.book().step(who, call) {
                Outcome::Done(answer) => {
                    turn.append();
                    turn.leave();
                    Tried::Done(answer)
                }
                Outcome::Look(look) => {
                    turn.leave();
                    Tried::Look(look)
                }
                Outcome::Full { room, cost } => {
                    turn.leave();
                    Tried::Full { room, cost }
                }
            },
        }
    }

    /// The same, and tries again as long as another seat has the turn: so it may wait for ever.
    pub fn call<Rt: Wait>(&self, rt: &Rt, seat: &mut Seat<B>, call: Call) -> Outcome
        requires player { IsPlayer self.now seat.old }
        requires in_range { IsCallInRange call }
        ensures player { IsPlayer self.now seat.new }
        ensures ended { HasEnded call result seat.old seat.new }
        ensures met { HasMetMore seat.old seat.new }
    {
        let backoff = Backoff::new();
        for _ in rt.forever() {
            match self.try_call(seat, call) {
                Tried::Done(answer) => return Outcome::Done(answer),
                Tried::Look(look) => return Outcome::Look(look),
                Tried::Full { room, cost } => return Outcome::Full { room, cost },
                Tried::Busy { .. } => backoff.snooze(),
            }
        }
        unreachable!()
    }

    /// Asks whether nothing more is to be done behind the history so far: every client has finished, no
    /// callback runs, and there is no room for a pending one to be run. It doesn't wait, and makes no
    /// call. `Busy` comes only where another seat has the turn.
    pub fn try_over(&self, seat: &mut Seat<B>) -> Over
        requires player { IsPlayer self.now seat.old }
        ensures player { IsPlayer self.now seat.new }
        ensures asked { HasAsked result seat.old seat.new }
    {
        match seat.try_enter(&self.lock) {
            Entered::Busy { holder } => Over::Busy { holder },
            Entered::Held(mut turn) => {
                let is_over = turn.book().is_over();
                turn.leave();
                if is_over { Over::Yes } else { Over::No }
            }
        }
    }

    /// Looks at the history, and answers its length.
    pub fn front(&self, seat: &mut Seat<B>) -> u64
        requires seat { IsSeatOf self.now seat.old }
        ensures seat { IsSeatOf self.now seat.new }
        ensures looked { HasLooked seat.old seat.new }
        ensures count { result ≡ length (seen_of seat.new) }
    {
        self.lock.front(seat)
    }

    /// Looks at the history, and gives a seat of number 0 that has seen as much, to be taken in by
    /// `join` elsewhere.
    pub fn split(&self, seat: &mut Seat<B>) -> Seat<B>
        requires seat { IsSeatOf self.now seat.old }
        ensures seat { IsSeatOf self.now seat.new × IsSeatOf self.now result }
        ensures looked { HasLooked seat.old seat.new }
        ensures copy { IsCopy seat.new result }
    {
        self.lock.split(seat)
    }

    /// Takes in a seat of number 0, and looks at the history: what the seat has then seen begins with
    /// what it had seen, and with what the other one had.
    pub fn join(&self, seat: &mut Seat<B>, other: Seat<B>)
        requires seats { IsSeatOf self.now seat.old × IsSeatOf self.now other }
        requires numberless { number_of other ≡ 0 }
        ensures seat { IsSeatOf self.now seat.new }
        ensures looked { HasLooked seat.old seat.new }
        ensures told { StartsWith (seen_of seat.new) (seen_of other) }
    {
        self.lock.join(seat, other);
    }

    /// The machine with its history, where all seats come back. The history begins with what each seat
    /// has seen, and has of each seat's actor the entries that the seat has made.
    pub fn close(self, seats: Vec<Seat<B>>) -> B
        requires seats { All (IsSeatOf self) seats.items }
        requires all { HaveAll self seats.items }
        ensures last { All (IsLast (B.recording result)) seats.items }
    {
        let SharedPool { lock, limits: _ } = self;
        lock.close(seats)
    }
}
