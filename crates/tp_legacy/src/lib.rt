//! The pool before Vista, as calls of a machine: `QueueUserWorkItem`, `RegisterWaitForSingleObject` and
//! `UnregisterWait`, and timer queues.
//!
//! Each of these functions comes to a few calls of the machine, one after another, made by the actor that
//! calls it. So what is proved of the machine holds of a program that uses them. A `LegacyBook` is a machine
//! of any kind with the registrations, timer queues and timers of its program, and is seen as a `Stand`
//! (specs/Old): the machine's recording, and those three lists. `open` takes all memory. `step` makes a call,
//! and comes to what the definition `legacy_step` (specs/Legacy) says; `book` is the machine.
//!
//! ```text
//! let mut book = LegacyBook::<Book>::open(alloc, program_limits(1, 4), 65_536)?;
//! let routine = RoutineId(1);
//! book.step(Who::Client(1), LegacyCall::CreateQueue);        // Queue { number: 1 }
//! book.step(Who::Client(1), LegacyCall::CreateTimer { queue: 1, routine, context: 0, due: 5, period: 0 });
//!                                                            // Timer { number: 1 }
//! book.step(Who::Client(1), LegacyCall::DeleteQueue { queue: 1 });
//!                                                            // Pool(Done(Closing { covered: 0, .. }))
//! ```

#![tactic(auto)]

mod book;
mod calls;
mod layer;
pub mod lines;
mod rows;

pub use book::{LegacyBook, legacy_calls_are_whole};
pub use layer::play_legacy;
use tp_base::answers::Outcome;
use tp_base::calls::Call;
use tp_base::ids::{KernelId, RoutineId};

/// A call of a program that uses the pool before Vista.
#[derive(Clone, Copy)]
pub enum LegacyCall {
    /// Has a routine called once by a worker of the default pool: `QueueUserWorkItem`, with
    /// `WT_EXECUTELONGFUNCTION` where it may run long.
    QueueItem {
        routine: RoutineId,
        context: u64,
        long: bool,
    },
    /// Has a routine called when an event or a semaphore is signalled, or when so many milliseconds have
    /// passed: `RegisterWaitForSingleObject`, with `WT_EXECUTEONLYONCE` where it is to be called once.
    Register {
        kernel: KernelId,
        routine: RoutineId,
        context: u64,
        /// With none the wait is for ever.
        millis: Option<u32>,
        once: bool,
    },
    /// Ends a registration: `UnregisterWait`.
    Unregister {
        registration: u32,
    },
    /// Makes a timer queue: `CreateTimerQueue`.
    CreateQueue,
    /// Makes a timer of a queue, which is due in so many milliseconds: `CreateTimerQueueTimer`.
    CreateTimer {
        queue: u32,
        routine: RoutineId,
        context: u64,
        due: u32,
        /// Milliseconds from one expiration to the next, or 0 for a timer that expires once.
        period: u32,
    },
    /// Sets a timer anew, unless it has expired for good: `ChangeTimerQueueTimer`.
    ChangeTimer {
        queue: u32,
        timer: u32,
        due: u32,
        period: u32,
    },
    /// Deletes a timer: `DeleteTimerQueueTimer`.
    DeleteTimer {
        queue: u32,
        timer: u32,
    },
    /// Deletes a queue and its timers, and begins a wait for their callbacks, which the actor's `End` ends:
    /// `DeleteTimerQueueEx` that waits.
    DeleteQueue {
        queue: u32,
    },
    /// A call of the machine.
    Pool {
        call: Call,
    },
}

/// Why an old call is refused before the machine is asked.
#[derive(Clone, Copy)]
pub enum LegacyRefusal {
    /// What the call names was never made.
    NoSuch,
    /// It is gone, or its queue is deleted.
    Released,
    /// The timer is of another queue.
    OtherQueue,
}

/// What a call comes to.
#[derive(Clone, Copy)]
pub enum LegacyAnswer {
    /// The machine's outcome.
    Pool(Outcome),
    /// The number of a new registration.
    Registered { number: u32 },
    /// The number of a new timer queue.
    Queue { number: u32 },
    /// The number of a new timer.
    Timer { number: u32 },
    /// Whether the timer was set anew.
    Changed { value: bool },
    /// The machine wasn't asked.
    Refused(LegacyRefusal),
    /// The history has no room for all that the call may cost. The machine wasn't asked.
    Full { room: u64, cost: u64 },
}
