//! The events, semaphores, mutexes and critical sections of a machine, seen as a list of rows by
//! number, and the wait objects that are armed on them, seen as one list in the order of arming.
//!
//! `open` takes the memory for all of them, and no other call takes any. `create`, `change` and `take` are
//! for a caller that has seen that there is nothing to refuse; `get` and `len` read. `arm` and `disarm`
//! begin and end what SetThreadpoolWait sets, and `next_released` lets a signalled kernel object release
//! the earliest wait that is armed on it. What may be done with a kernel object, and what becomes of it,
//! is defined in tp_base (`specs/Kernels`); the module `states` computes it.
//!
//! ```text
//! let mut kernels = KernelTable::open(alloc, 4, 8)?;      // at most four, and wait objects 1 to 8
//! kernels.create(KernelState::Semaphore { count: 0, maximum: 2 });        // KernelId(1)
//! kernels.arm(ObjectId(5), KernelId(1));
//! kernels.arm(ObjectId(2), KernelId(1));
//! kernels.change(KernelId(1), KernelChange::Raise(1));
//! kernels.next_released(KernelId(1))          // Some(ObjectId(5)), and the count is 0 again
//! kernels.next_released(KernelId(1))          // None: it isn't signalled
//! ```
//!
//! What a call costs: each looks at one kernel object, and at the neighbours of at most one armed
//! wait (`linked_lists`). The memory is some sixty bytes for each kernel object, and seventy for each wait
//! object, filled as far as they are used.

#![tactic(auto)]

ghost use Rattle.std.specs.Prelude.{◌≡◌, ◌+◌, ◌<◌, ◌≤◌, ◌^◌, ◌++◌, ◌∷◌, [], All, IfOk, IfSome, IsSome, false, if◌then◌else◌, length, min, true};
ghost use Rattle.tp_base.specs.Armings.{is_armed, without_arming};
ghost use Rattle.tp_base.specs.Kernels.{is_signalled as is_signalled_by, may_take, state_after as after_change, taken as after_release, taken_by as after_taking, takings_of};
ghost use Rattle.kernel_events.specs.Armed.{HasDistinctObjects, first_on, waits_on};
ghost use Rattle.kernel_events.specs.Kernels.{Suits, is_one_that, new_row, next_released, numbered, release_first, rows_with, state_of};

use armings::Armings;
use states::{is_signalled, state_after, taken, taken_by};
use std::alloc::{AllocError, Global};
use std::marker::Model;
use tp_base::ids::{KernelId, ObjectId, Who};
use tp_base::plans::KernelChange;
use tp_base::rows::{KernelRow, KernelState};

mod armings;
pub mod states;

/// The kernel objects that were made, and the wait objects that are armed on them.
#[derive(Drop)]
pub struct KernelTable {
    limit: u32,
    rows: Vec<KernelRow>,
    armings: Armings,
}

impl Model for KernelTable {
    ghost use Rattle.kernel_events.specs.Kernels.{Kernels};
    ghost use Rattle.kernel_events.specs.Kept.{IsKept};

    ghost Value = { Kernels };

    ghost view = { λ a. record { limit = a.limit; objects = a.armings.objects; rows = a.rows.items; armed = a.armings.armed } };

    ghost invariant = { IsKept };
}

impl KernelTable {
    /// No kernel objects, with the memory for `limit` of them, and for the arming of the wait objects
    /// of the numbers from 1 to `objects`.
    ///
    /// An `AllocError` comes where that memory can't be had, and where `limit` and `objects` together
    /// come to 2^32 - 1 or more.
    pub fn open(alloc: Global, limit: u32, objects: u32) -> Result<KernelTable, AllocError>
        ensures { IfOk result (λ kernels. kernels ≡ record { limit = limit; objects = objects; rows = []; armed = [] }) }
    {
        Ok(KernelTable {
            limit,
            rows: Vec::with_capacity(alloc, limit as usize)?,
            armings: Armings::open(alloc, limit, objects)?,
        })
    }

    /// How many kernel objects were made. There are never more than the limit.
    pub fn len(&self) -> u32
        ensures value { result ≡ length self.now.rows }
        ensures limited { length self.now.rows ≤ self.now.limit }
    {
        self.rows.len() as u32
    }

    /// Makes a kernel object in this state. Its number is the next one.
    pub fn create(&mut self, state: KernelState)
        requires { length self.old.rows < self.old.limit }
        ensures { self.new ≡ record self.old { rows = self.old.rows ++ new_row state ∷ [] } }
    {
        self.rows.push_reserved(KernelRow { state });
    }

    /// What the kernel object of this number is at, or None where it was never made.
    pub fn get(&self, kernel: KernelId) -> Option<KernelState>
        ensures { result ≡ state_of self.now kernel.0 }
    {
        if kernel.0 == 0 {
            return None;
        }
        let row = self.rows.get(kernel.0 as usize - 1)?;
        Some(row.state)
    }

    /// Changes a kernel object: SetEvent, ResetEvent, ReleaseSemaphore, ReleaseMutex and
    /// LeaveCriticalSection, or an actor takes it that may. A change that isn't for its kind changes
    /// nothing.
    pub fn change(&mut self, kernel: KernelId, how: KernelChange)
        requires made { IsSome (numbered self.old.rows kernel.0) }
        requires suits { IfSome (numbered self.old.rows kernel.0) (λ row. Suits how row.state) }
        ensures { self.new ≡ record self.old { rows = rows_with (after_change how) self.old.rows kernel.0 } }
    {
        let row = &mut self.rows[kernel.0 as usize - 1];
        row.state = state_after(how, row.state);
    }

    /// An actor takes a kernel object, as the end of WaitForSingleObject or EnterCriticalSection.
    pub fn take(&mut self, who: Who, kernel: KernelId)
        requires made { IsSome (numbered self.old.rows kernel.0) }
        requires allowed { IfSome (numbered self.old.rows kernel.0) (λ row. may_take who row.state ≡ true) }
        requires few { IfSome (numbered self.old.rows kernel.0) (λ row. takings_of row.state + 1 < 2 ^ 64) }
        ensures { self.new ≡ record self.old { rows = rows_with (after_taking who) self.old.rows kernel.0 } }
    {
        let row = &mut self.rows[kernel.0 as usize - 1];
        row.state = taken_by(who, row.state);
    }

    /// Arms a wait object that isn't armed on a kernel object, behind all others: SetThreadpoolWait.
    pub fn arm(&mut self, object: ObjectId, kernel: KernelId)
        requires made { IsSome (numbered self.old.rows kernel.0) }
        requires least { 1 ≤ object.0 }
        requires most { object.0 ≤ self.old.objects }
        requires free { is_armed object.0 self.old.armed ≡ false }
        ensures { self.new ≡ record self.old { armed = self.old.armed ++ record { object = object; kernel = kernel } ∷ [] } }
    {
        self.armings.arm(object, kernel);
    }

    /// Disarms a wait object, and says whether it was armed. Where it wasn't, nothing changes.
    pub fn disarm(&mut self, object: ObjectId) -> bool
        ensures was { result ≡ is_armed object.0 self.old.armed }
        ensures after { self.new ≡ record self.old { armed = without_arming object.0 self.old.armed } }
    {
        self.armings.disarm(object)
    }

    /// Whether a wait object is armed. None is armed twice, each has a number from 1 to the greatest
    /// that there can be, and each is armed on a kernel object that was made.
    pub fn is_armed(&self, object: ObjectId) -> bool
        ensures value { result ≡ is_armed object.0 self.now.armed }
        ensures distinct { HasDistinctObjects self.now.armed }
        ensures least { All (λ a. 1 ≤ a.object.0) self.now.armed }
        ensures most { All (λ a. a.object.0 ≤ self.now.objects) self.now.armed }
        ensures kernel_least { All (λ a. 1 ≤ a.kernel.0) self.now.armed }
        ensures kernel_most { All (λ a. a.kernel.0 ≤ length self.now.rows) self.now.armed }
    {
        self.armings.is_armed(object)
    }

    /// The wait object that was armed earliest on this kernel object, or None where none is armed on
    /// it.
    pub fn first_armed(&self, kernel: KernelId) -> Option<ObjectId>
        ensures { result ≡ first_on kernel.0 self.now.armed }
    {
        self.armings.first_on(kernel)
    }

    /// How many wait objects are armed on this kernel object, but no more than `most`.
    pub fn count_armed(&self, kernel: KernelId, most: u32) -> u32
        ensures { result ≡ min most (length (waits_on kernel.0 self.now.armed)) }
    {
        self.armings.count_on(kernel, most)
    }

    /// Lets a wait object that isn't armed take a kernel object that is signalled, and says whether it
    /// was. Where it wasn't, or was never made, nothing changes.
    pub fn take_signal(&mut self, kernel: KernelId) -> bool
        ensures was { result ≡ is_one_that is_signalled_by self.old.rows kernel.0 }
        ensures after { self.new ≡ if is_one_that is_signalled_by self.old.rows kernel.0 then record self.old { rows = rows_with after_release self.old.rows kernel.0 } else self.old }
    {
        match self.get(kernel) {
            Some(state) if is_signalled(state) => {
                let after = taken(state);
                let row = &mut self.rows[kernel.0 as usize - 1];
                row.state = after;
                true
            }
            _ => false,
        }
    }

    /// Lets a kernel object that is signalled release the wait object that was armed earliest on it:
    /// that is disarmed, and takes the kernel object once. None exactly where the kernel object isn't
    /// signalled, or no wait object is armed on it, and then nothing changes.
    pub fn next_released(&mut self, kernel: KernelId) -> Option<ObjectId>
        ensures released { result ≡ next_released kernel.0 self.old }
        ensures after { self.new ≡ release_first kernel.0 self.old }
    {
        let state = self.get(kernel)?;
        if !is_signalled(state) {
            return None;
        }
        let object = self.first_armed(kernel)?;
        self.armings.disarm(object);
        self.rows[kernel.0 as usize - 1].state = taken(state);
        Some(object)
    }
}
