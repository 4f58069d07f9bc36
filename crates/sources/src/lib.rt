//! What makes callbacks by itself: the clock with the timers that are set and the timeouts of armed
//! waits, and the kernel objects with the waits that are armed on them. They are seen as the model's
//! `Sources`, with the objects that may be set.
//!
//! `open` takes the memory, and no other call takes any. `enter` and `strike` begin and end an object;
//! `set_timer`, `set_wait`, `set_clock`, `create_kernel`, `change` and `take` change one thing.
//! Nobody's callback is kept here: `set_timer` and `set_wait` answer what the object is to be told at
//! once, and after `set_clock` or a `change` that signals, `fire_next` answers one after another what
//! fires. `words`, `count_fired` and `count_returned` tell beforehand what would come of a trigger or
//! a return.
//!
//! ```text
//! let mut sources = LiveSources::open(alloc, 1, 2)?;      // one kernel object, and objects 1 and 2
//! sources.enter(ObjectId(1));
//! sources.enter(ObjectId(2));
//! sources.create_kernel(KernelState::Semaphore { count: 0, maximum: 4 });     // KernelId(1)
//! sources.set_wait(ObjectId(2), Some(KernelId(1)), Some(-50));    // None: it is armed, until 50
//! sources.set_timer(ObjectId(1), Some(30), 0, 0);                 // false: it is set, to 30
//! sources.set_clock(60);
//! sources.fire_next(Cause::Clock)     // Some((ObjectId(1), Plain))
//! sources.fire_next(Cause::Clock)     // Some((ObjectId(2), WaitTimeout)): it is disarmed
//! sources.fire_next(Cause::Clock)     // None
//! ```
//!
//! What a call costs: a look at one object or one kernel object, and where a setting begins or ends, a
//! way through a heap (timer_objects, kernel_events). `count_due`, `count_expiring`, `count_fired` and
//! `count_returned` go along what they count.

#![tactic(auto)]

ghost use Rattle.std.specs.Prelude.{◌≡◌, ◌+◌, ◌≤◌, All, IfOk, length, true};
ghost use Rattle.std.specs.List.{AllByRecursion};
ghost use Rattle.tp_base.specs.Timers.{clock_end};
ghost use Rattle.sources.specs.Kept.{AreOnce};
ghost use Rattle.sources.specs.Rows.{is_there, opened};

use kernel_events::KernelTable;
use std::alloc::{AllocError, Global};
use std::marker::Model;
use timer_objects::TimerObjects;

mod counts;
mod firing;
mod kernels;
mod timers;
mod waits;

pub use firing::Cause;

/// The clock, the timers and the waits that may be set, and the kernel objects.
#[derive(Drop)]
pub struct LiveSources {
    // The timers and the wait objects, with what is set: for a wait the timeout of its arming.
    timers: TimerObjects,
    // The kernel objects, and the waits that are armed on them.
    kernels: KernelTable,
    // How many waits are armed.
    armed: u32,
    clock: u64,
}

impl Model for LiveSources {
    ghost use Rattle.sources.specs.Rows.{SourceRows};

    ghost Value = { SourceRows };

    ghost use Rattle.sources.specs.Kept.{shown, IsKept};

    ghost view = { shown };

    ghost invariant = { IsKept };
}

impl LiveSources {
    /// No objects and no kernel objects, with the memory for so many kernel objects, and for objects of
    /// the numbers from 1 to `objects`. The clock is at 0.
    ///
    /// An `AllocError` comes where that memory can't be had, and where `kernels` and `objects` together
    /// come to 2^32 - 1 or more.
    pub fn open(alloc: Global, kernels: u32, objects: u32) -> Result<LiveSources, AllocError>
        ensures { IfOk result (λ sources. sources ≡ opened kernels objects) }
    {
        Ok(LiveSources {
            timers: TimerObjects::open(alloc, objects)?,
            kernels: KernelTable::open(alloc, kernels, objects)?,
            armed: 0,
            clock: 0,
        })
    }

    /// What is true of all sources. It does nothing: who calls it knows this.
    pub fn is_reachable(&self)
        ensures once { AreOnce self.now.sources.armings }
        ensures armed { AllByRecursion (λ a. is_there self.now a.object.0 ≡ true) self.now.sources.armings }
        ensures set { All (λ s. is_there self.now s.object.0 ≡ true) self.now.sources.settings }
        ensures most { length self.now.sources.armings ≤ self.now.objects }
        ensures kernels { length self.now.sources.kernels ≤ self.now.most_kernels }
        ensures places { length self.now.there ≡ self.now.objects + 1 }
        ensures clock { self.now.sources.now ≤ clock_end }
    {
        // Each that is set is there.
        let _ = self.timers.len();
    }
}
