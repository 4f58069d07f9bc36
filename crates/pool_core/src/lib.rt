//! The engine of the thread pool machine: it remembers of the world what can still matter, and
//! answers each call as the machine does.
//!
//! ```text
//! let mut engine = Engine::open(alloc, limits)?;         // of one client
//! engine.owed()                                          // 1: the client has to finish
//! let (mut outcome, mut change) = (Outcome::Look(Look::Stay), Change::Keep);
//! engine.step_into(Who::Client(1), &Call::CreatePool, 100, &mut outcome, &mut change);
//! outcome                                                // Done(Made { number: 1 })
//! engine.step_into(Who::Worker(1), &Call::Take, 100, &mut outcome, &mut change);
//! outcome                                                // Done(Refused(NotAttached))
//! engine.step_into(Who::Worker(1), &Call::Attach, 100, &mut outcome, &mut change);
//! outcome                                                // Look(NoNeed)
//! engine.age()                                           // 1: one call was accepted
//! ```
//!
//! | Calls | Win32 functions that they stand for |
//! |---|---|
//! | `CreatePool`, `ClosePool` | `CreateThreadpool`, `CloseThreadpool` |
//! | `SetMaximum`, `SetMinimum` | `SetThreadpoolThreadMaximum`, `SetThreadpoolThreadMinimum` |
//! | `CreateGroup`, `CloseGroup` | `CreateThreadpoolCleanupGroup`, `CloseThreadpoolCleanupGroup` |
//! | `BeginClose`, then `End` | `CloseThreadpoolCleanupGroupMembers` |
//! | `Create`, `CloseObject` | `CreateThreadpoolWork`, `CloseThreadpoolWork`, and those for timers, waits and I/O |
//! | `SubmitWork`, `SubmitSimple` | `SubmitThreadpoolWork`, `TrySubmitThreadpoolCallback` |
//! | `SetTimer`, `SetTimerEx` | `SetThreadpoolTimer`, `SetThreadpoolTimerEx` |
//! | `IsTimerSet` | `IsThreadpoolTimerSet` |
//! | `SetWait` | `SetThreadpoolWait` |
//! | `StartIo`, `CancelIo` | `StartThreadpoolIo`, `CancelThreadpoolIo` |
//! | `BeginWait`, then `End` | `WaitForThreadpoolWorkCallbacks`, and those for timers, waits and I/O |
//! | `CreateEvent`, `SetEvent`, `ResetEvent` | those of these names |
//! | `CreateSemaphore`, `ReleaseSemaphore` | those of these names |
//! | `CreateLock`, `ReleaseLock` | `CreateMutex`, `ReleaseMutex`, `InitializeCriticalSection`, `LeaveCriticalSection` |
//! | `BeginAcquire`, then `End` | `WaitForSingleObject`, `EnterCriticalSection` |
//! | `TryAcquire` | `WaitForSingleObject` with a time of 0, `TryEnterCriticalSection` |
//! | `MayRunLong` | `CallbackMayRunLong` |
//! | `Disassociate` | `DisassociateCurrentThreadFromCallback` |
//! | `Attach`, `Detach`, `Take`, `Return` | none: what the threads of a pool do |
//! | `CompleteNext` | `CancelIoEx` one operation at a time; else none: what a device does |
//! | `IssueIo`, `CompleteIo` | none: a read, a write or the like, and the end of it |
//! | `Advance`, `Finish` | none: time passes, and a client has no more to do |
//!
//! `open` takes all memory; `step_into` makes a call of an actor; `owed` is the number of entries for
//! which the history must keep room; `is_over` says whether nothing more is to be done, and
//! `left_after` goes along the callbacks that may still run; `now` is the moment of the clock, and
//! `next_deadline` the last to which the next expirations may be put off; `age` is the number of steps
//! that were accepted. What an engine remembers is a world without the callbacks that are over (`Remembered`
//! of `tp_model`): where it stands for a world, its outcome is that of the machine's step there, and
//! then it stands for the world after the step.
//!
//! What is decided of a call comes from one function that only reads: a refusal, a look, or an answer
//! with the change that goes with it. The call itself (`calls`) has that settled: `settle` alone asks
//! whether the history has room for what it costs, and applies the change.

#![tactic(auto)]

ghost use Rattle.std.specs.Prelude.{◌≡◌, ◌^◌, ◌<◌, IfOk, option_map};
ghost use Rattle.pool_core.specs.Made.{IsMade};
ghost use Rattle.tp_base.specs.Ranges.{AreLimitsInRange, IsCallInRange};
ghost use Rattle.tp_base.specs.Timers.{next_deadline};
ghost use Rattle.tp_model.specs.World.{World, opening};
ghost use Rattle.tp_model.specs.Counts.{owed};
ghost use Rattle.tp_model.specs.Over.{is_over, left_after, row_of};
ghost use Rattle.tp_model.specs.Support.Remembered.{StandsFor};

use live_world::LiveWorld;
use std::alloc::{AllocError, Global};
use std::marker::Model;
use steps::Steps;
use tp_base::answers::Outcome;
use tp_base::calls::Call;
use tp_base::ids::{ObjectId, Who};
use tp_base::limits::Limits;
use tp_base::plans::Change;
use tp_model::Left;

mod calls;
mod prices;
mod settling;

/// A machine that is being played.
#[derive(Drop)]
pub struct Engine {
    live: LiveWorld,
    owed: u64,
    age: u64,
}

impl Model for Engine {
    ghost use Rattle.tp_model.specs.Support.Remembered.{Remembered};

    ghost Value = { Remembered };

    ghost use Rattle.pool_core.specs.View.{remembered, IsMachine};

    ghost view = { remembered };

    ghost invariant = { IsMachine };
}

impl Engine {
    /// Opens the engine of a machine with these limits, before its first call.
    ///
    /// It takes all the memory that the engine will ever need; an `AllocError` comes where that
    /// isn't there.
    pub fn open(alloc: Global, limits: Limits) -> Result<Engine, AllocError>
        requires { AreLimitsInRange limits }
        ensures stands { IfOk result (λ engine. StandsFor engine (opening limits)) }
        ensures age { IfOk result (λ engine. engine.age ≡ 0) }
    {
        Ok(Engine {
            live: LiveWorld::open(alloc, limits)?,
            owed: u64::from(limits.clients),
            age: 0,
        })
    }

    // The world that it remembers, for what is decided of a call. Few callbacks were made, where it is young.
    #[inline(always)]
    fn world(&self) -> &LiveWorld
        requires young { self.now.age < 2 ^ 47 }
        ensures world { result.now.world ≡ self.now.world }
        ensures made { result.now.made ≡ self.now.made }
        ensures few { self.now.made < 2 ^ 63 }
    {
        &self.live
    }

    /// Makes a call of an actor, and puts its outcome where it is wanted, in place of what is there.
    ///
    /// `room` is how many more entries the history has room for, less those that are owed. The
    /// outcome is the answer, which is the call's entry; or a look, where nothing happened yet; or
    /// Full, where the call costs more than there is room for. `change` is a place for what an accepted
    /// call changes, on its way into the world: nothing is read there before it is written, and what is
    /// left there means nothing. It takes no memory.
    #[inline(always)]
    pub fn step_into(
        &mut self,
        who: Who,
        call: &Call,
        room: u64,
        outcome: &mut Outcome,
        change: &mut Change,
    )
        requires in_range { IsCallInRange call.now }
        requires young { self.old.age < 2 ^ 47 }
        ensures made { IsMade self.old self.new room who call.now outcome.new }
    {
        let mut steps = Steps::new();
        self.step_counted(who, call, room, outcome, change, &mut steps);
    }

    /// The number of entries for which the history must keep room: each running callback returns,
    /// each begun wait gives its notices and ends, each attached worker detaches, each client
    /// finishes. A notice that a wait never gave, since it ended in a stalled machine, keeps its entry.
    pub fn owed(&self) -> u64
        ensures { (w : World) → StandsFor self.now w → result ≡ owed w }
    {
        self.owed
    }

    /// Whether all is over: every client has finished, no callback runs, and the history, which has
    /// `room` entries left besides those that are owed, has no room for a pending one to be run. That
    /// takes 2, and 4 where no worker of its pool is idle. It takes no memory.
    pub fn is_over(&self, room: u64) -> bool
        ensures { (w : World) → StandsFor self.now w → result ≡ is_over w room }
    {
        live_queries::is_over(&self.live, room)
    }

    /// Of the callbacks that may still run the one of least number above this one, if there is one: its
    /// number, its object (0 for a simple callback) and how far it has come. It takes no memory.
    pub fn left_after(&self, number: u64) -> Option<(u64, ObjectId, Left)>
        ensures { (w : World) → StandsFor self.now w → option_map row_of result ≡ left_after w number }
    {
        live_queries::left_after(&self.live, number)
    }

    /// The moment of the clock, in units of 100 ns.
    pub fn now(&self) -> u64
        ensures { (w : World) → StandsFor self.now w → result ≡ w.now }
    {
        self.live.sources().now()
    }

    /// The least of the deadlines of what is set with a time, timers and timeouts: the last moment to
    /// which the next expirations may be put off. None where nothing is set.
    pub fn next_deadline(&self) -> Option<u64>
        ensures { (w : World) → StandsFor self.now w → result ≡ next_deadline w.settings }
    {
        self.live.sources().next_deadline()
    }

    /// The number of steps that were accepted since the engine was opened.
    pub fn age(&self) -> u64
        ensures { result ≡ self.now.age }
    {
        self.age
    }
}
