//! A machine whose history is written down, as all that stands above it sees one.
//!
//! A `Recorded` is seen as a history with its limits and its capacity. `open` takes all memory; `step`
//! makes a call, whose outcome is the machine's behind the history, and an accepted or refused call
//! becomes the history's next entry. What the history still has room for is said here alone: its
//! capacity, less its entries, less those that are owed.
//!
//! What plays, judges or shares histories is written and proved over this trait, and knows no engine.
//! A machine's part is `open`, `step_into`, `len`, `room`, `is_over`, `left_after`, `limits` and
//! `capacity`; their contracts stand here, so an `impl` gives no clauses of its own.
//!
//! ```text
//! fn attach_first<B: Recorded>(alloc: Global) -> Result<u64, AllocError> {
//!     let mut book = B::open(alloc, program_limits(1, 4), 65_536)?;
//!     book.step(Who::Client(1), Call::Finish);    // Outcome::Done(Answer::Done)
//!     book.step(Who::Worker(1), Call::Attach);    // Outcome::Look(Look::NoNeed)
//!     Ok(book.room())                             // 65_535
//! }
//! ```

#![tactic(auto)]

ghost use Rattle.std.specs.Prelude.{◌≡◌, ◌<◌, ◌≤◌, List, [], ◌++◌, length, option_map, Err, IfErr, IfOk};
ghost use Rattle.tp_base.specs.declared.calls.Call.{Call as CallMade};
ghost use Rattle.tp_base.specs.declared.ids.Who.{Who as Actor};
ghost use Rattle.tp_base.specs.Ranges.{AreLimitsInRange, IsCallInRange, IsOutcomeInRange};
ghost use Rattle.tp_model.specs.History.{IsLegal};
ghost use Rattle.tp_model.specs.Laws.{KeepsLaws};
ghost use Rattle.tp_model.specs.Over.{row_of};
ghost use Rattle.recorded.specs.declared.OpenFault.TheVariants.{NoMemory, TooSmall};
ghost use Rattle.recorded.specs.ProgramLimits.{program_limits};
ghost use Rattle.recorded.specs.Recordings.{all_made, entries_of, is_over_behind, left_behind, next_deadline_behind, now_behind, outcome_behind, outcomes_behind, recorded, room_of, IsFirstOf, Recording};

use std::alloc::{AllocError, Global};
use tp_base::answers::{Look, Outcome};
use tp_base::calls::Call;
use tp_base::ids::{ObjectId, Who};
use tp_base::limits::Limits;
use tp_model::Left;

/// Why a history isn't opened.
#[derive(Clone, Copy)]
pub enum OpenFault {
    /// The memory that the machine will need isn't there.
    NoMemory,
    /// The history would have no room for the finish of each client.
    TooSmall { capacity: u32, clients: u32 },
}

impl From<AllocError> for OpenFault {
    ghost from_gives = { λ _ fault. fault ≡ NoMemory };

    fn from(_error: AllocError) -> OpenFault {
        OpenFault::NoMemory
    }
}

/// A machine, and the history of the calls that were made on it.
pub trait Recorded: Drop {
    ghost recording: { Self → Recording };

    /// Opens a history with no entries, on a machine of these limits that has made no step. The history
    /// will have room for `capacity` entries, those that are owed among them.
    ///
    /// It takes all the memory that the machine will ever need; an `AllocError` comes where that
    /// isn't there.
    fn open(alloc: Global, limits: Limits, capacity: u32) -> Result<Self, AllocError>
    where
        Self: Sized,
        requires { AreLimitsInRange limits }
        ensures limits { IfOk result (λ book. (recording book).limits ≡ limits) }
        ensures capacity { IfOk result (λ book. (recording book).capacity ≡ capacity) }
        ensures empty { IfOk result (λ book. (recording book).history ≡ []) };

    /// The same, but for a history that has room for the finish of each client.
    ///
    /// `TooSmall` comes exactly where the capacity is below the number of clients, and tells both numbers.
    /// `NoMemory` comes where `open` gives an `AllocError`.
    fn try_open(alloc: Global, limits: Limits, capacity: u32) -> Result<Self, OpenFault>
    where
        Self: Sized,
        requires { AreLimitsInRange limits }
        ensures limits { IfOk result (λ book. (recording book).limits ≡ limits) }
        ensures capacity { IfOk result (λ book. (recording book).capacity ≡ capacity) }
        ensures empty { IfOk result (λ book. (recording book).history ≡ []) }
        ensures too_small { capacity < limits.clients → result ≡ Err (TooSmall capacity limits.clients) }
        ensures no_memory { limits.clients ≤ capacity → IfErr result (λ fault. fault ≡ NoMemory) }
    {
        let clients = limits.clients;
        if capacity < clients {
            return Err(OpenFault::TooSmall { capacity, clients });
        }
        Ok(Self::open(alloc, limits, capacity)?)
    }

    /// Makes a call of an actor, and puts its outcome where it is wanted, in place of what is there.
    ///
    /// The outcome is the machine's: the answer, where the call was accepted or refused, which is then
    /// the history's next entry; or a look or Full, where nothing happened and nothing is written down.
    /// It takes no memory.
    fn step_into(&mut self, who: Who, call: &Call, outcome: &mut Outcome)
        requires { IsCallInRange call.now }
        ensures outcome { outcome.new ≡ outcome_behind (recording self.old) who call.now }
        ensures history { recording self.new ≡ recorded (recording self.old) who call.now outcome.new }
        // What is played on goes on from there.
        ensures first { IsFirstOf (recording self.old) (recording self.new) who call.now outcome.new }
        // Each number of it can stand in a line.
        ensures in_range { IsOutcomeInRange outcome.new }
        ensures legal { IsLegal (recording self.new).limits (recording self.new).capacity (recording self.new).history }
        ensures laws { KeepsLaws (recording self.new).limits (recording self.new).history };

    /// The same, and answers the outcome.
    fn step(&mut self, who: Who, call: Call) -> Outcome
        requires { IsCallInRange call }
        ensures outcome { result ≡ outcome_behind (recording self.old) who call }
        ensures history { recording self.new ≡ recorded (recording self.old) who call result }
        ensures first { IsFirstOf (recording self.old) (recording self.new) who call result }
        ensures in_range { IsOutcomeInRange result }
        ensures legal { IsLegal (recording self.new).limits (recording self.new).capacity (recording self.new).history }
        ensures laws { KeepsLaws (recording self.new).limits (recording self.new).history }
    {
        let mut outcome = Outcome::Look(Look::Stay);
        self.step_into(who, &call, &mut outcome);
        outcome
    }

    /// The number of entries. The history is legal.
    fn len(&self) -> u32
        ensures len { result ≡ length (recording self.now).history }
        ensures legal { IsLegal (recording self.now).limits (recording self.now).capacity (recording self.now).history };

    /// How many more entries the history has room for, less those that are owed; 0 where more are owed.
    fn room(&self) -> u64
        ensures { result ≡ room_of (recording self.now) };

    /// Whether nothing more is to be done: every client has finished, no callback runs, and no pending
    /// one can be run. That takes a room of 2; and where no worker of its pool is idle, a room of 4 and a
    /// free worker, which attaches and detaches. A worker is free if it runs nothing and isn't the
    /// persistent worker of a pool that isn't closed.
    ///
    /// A player of workers stops where this holds. It takes no memory.
    fn is_over(&self) -> bool
        ensures { result ≡ is_over_behind (recording self.now) };

    /// Of the callbacks that may still run the one of least number above this one, if there is one: its
    /// number, its object (0 for a simple callback) and how far it has come.
    ///
    /// From 0 on, and then from each number that it gave, it goes along all that the history has left:
    /// those that no worker has taken and none of the calls has cancelled. It takes no memory.
    fn left_after(&self, number: u64) -> Option<(u64, ObjectId, Left)>
        ensures { option_map row_of result ≡ left_behind (recording self.now) number };

    /// The limits of the machine.
    fn limits(&self) -> Limits
        ensures value { result ≡ (recording self.now).limits }
        ensures in_range { AreLimitsInRange result };

    /// How many entries the history has room for in all.
    fn capacity(&self) -> u32
        ensures { result ≡ (recording self.now).capacity };

    /// The machine's clock, in units of 100 ns.
    fn now(&self) -> u64
        ensures { result ≡ now_behind (recording self.now) };

    /// The least moment to which an expiration may be put off of the timers that are set and the waits that
    /// are armed with a timeout, if there are any: for a timer as much behind its due time as its window
    /// says, and for a timeout when it is over. It takes no memory.
    fn next_deadline(&self) -> Option<u64>
        ensures { result ≡ next_deadline_behind (recording self.now) };
}

/// Calls that are made one after another behind a legal history are played: the history goes on with the
/// entries of what they come to there, on the same machine, and stays legal. It does nothing: who calls
/// it knows this.
pub fn made_is_played()
    ensures history { (r : Recording) (calls : List (Actor × CallMade)) → IsLegal r.limits r.capacity r.history → (all_made r calls).history ≡ r.history ++ entries_of calls (outcomes_behind r calls) }
    ensures limits { (r : Recording) (calls : List (Actor × CallMade)) → (all_made r calls).limits ≡ r.limits }
    ensures capacity { (r : Recording) (calls : List (Actor × CallMade)) → (all_made r calls).capacity ≡ r.capacity }
    ensures legal { (r : Recording) (calls : List (Actor × CallMade)) → IsLegal r.limits r.capacity r.history → IsLegal (all_made r calls).limits (all_made r calls).capacity (all_made r calls).history }
{}

/// How many objects the program's machine has at most.
pub const OBJECT_LIMIT: u32 = 65_535;

/// The limits of the program's machine, with so many clients and workers.
pub fn program_limits(clients: u32, workers: u32) -> Limits
    requires clients_most { clients ≤ 65535 }
    requires workers_least { 1 ≤ workers }
    requires workers_most { workers ≤ 65535 }
    ensures value { result ≡ program_limits clients workers }
    ensures in_range { AreLimitsInRange result }
{
    Limits {
        clients,
        workers,
        pools: 64,
        groups: 255,
        objects: OBJECT_LIMIT,
        kernels: 1_024,
        slots: 8_192,
    }
}
