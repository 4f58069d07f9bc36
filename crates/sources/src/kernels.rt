//! Kernel objects: events, semaphores, mutexes and critical sections, and what a call asks of one.

ghost use Rattle.std.specs.Prelude.{◌≡◌, ◌+◌, ◌<◌, ◌≤◌, ◌^◌, ◌++◌, ◌∷◌, [], IfSome, IsSome, is_some, length, option_map, true};
ghost use Rattle.std.specs.Option.{option_map_or};
ghost use Rattle.tp_base.specs.Actions.{is_for as is_for_by};
ghost use Rattle.tp_base.specs.Kernels.{count_of, is_event as is_event_by, is_lock as is_lock_by, is_semaphore as is_semaphore_by, is_signalled as is_signalled_by, is_waitable as is_waitable_by, may_take as may_take_by, owns as owns_by, passes_by as passes_by_of, state_after, taken_by, takings_of};
ghost use Rattle.kernel_events.specs.Kernels.{Suits};
ghost use Rattle.tp_model.specs.Counts.{numbered};
ghost use Rattle.tp_model.specs.Kernels.{is_one_that, new_kernel};
ghost use Rattle.tp_model.specs.Sources.{with_state};
ghost use Rattle.sources.specs.Rows.{with_sources};

use crate::LiveSources;
use kernel_events::states;
use tp_base::answers::ActionKind;
use tp_base::calls::Lock;
use tp_base::ids::{KernelId, Who};
use tp_base::plans::KernelChange;
use tp_base::rows::KernelState;

impl LiveSources {
    /// Makes a kernel object in this state. Its number is the next one.
    pub fn create_kernel(&mut self, state: KernelState)
        requires { length self.old.sources.kernels < self.old.most_kernels }
        ensures { self.new ≡ with_sources self.old (record self.old.sources { kernels = self.old.sources.kernels ++ new_kernel state ∷ [] }) }
    {
        self.kernels.create(state);
    }

    /// Sets or resets an event, raises the count of a semaphore, or gives back one taking of a lock; or an
    /// actor takes it that may. What is armed on it hasn't fired yet.
    pub fn change(&mut self, kernel: KernelId, how: KernelChange)
        requires made { IsSome (numbered self.old.sources.kernels kernel.0) }
        requires suits { IfSome (numbered self.old.sources.kernels kernel.0) (λ row. Suits how row.state) }
        ensures { self.new ≡ with_sources self.old (with_state (state_after how) kernel.0 self.old.sources) }
    {
        self.kernels.change(kernel, how);
    }

    /// An actor takes a kernel object, at the end of its wait.
    pub fn take(&mut self, who: Who, kernel: KernelId)
        requires made { IsSome (numbered self.old.sources.kernels kernel.0) }
        requires allowed { IfSome (numbered self.old.sources.kernels kernel.0) (λ row. may_take_by who row.state ≡ true) }
        requires few { IfSome (numbered self.old.sources.kernels kernel.0) (λ row. takings_of row.state + 1 < 2 ^ 64) }
        ensures { self.new ≡ with_sources self.old (with_state (taken_by who) kernel.0 self.old.sources) }
    {
        self.kernels.take(who, kernel);
    }

    /// How many kernel objects were made.
    pub fn kernels(&self) -> u32
        ensures value { result ≡ length self.now.sources.kernels }
        ensures limited { length self.now.sources.kernels ≤ self.now.most_kernels }
    {
        self.kernels.len()
    }

    /// The state of a kernel object, if one of this number was made.
    pub fn kernel(&self, kernel: KernelId) -> Option<KernelState>
        ensures { result ≡ option_map (λ k. k.state) (numbered self.now.sources.kernels kernel.0) }
    {
        self.kernels.get(kernel)
    }

    /// Whether a kernel object of this number was made.
    pub fn is_kernel(&self, kernel: KernelId) -> bool
        ensures { result ≡ is_some (numbered self.now.sources.kernels kernel.0) }
    {
        self.kernel(kernel).is_some()
    }

    /// Whether an event of this number was made.
    pub fn is_event(&self, kernel: KernelId) -> bool
        ensures { result ≡ is_one_that is_event_by self.now.sources.kernels kernel.0 }
    {
        match self.kernel(kernel) {
            None => false,
            Some(state) => states::is_event(state),
        }
    }

    /// Whether a semaphore of this number was made.
    pub fn is_semaphore(&self, kernel: KernelId) -> bool
        ensures { result ≡ is_one_that is_semaphore_by self.now.sources.kernels kernel.0 }
    {
        match self.kernel(kernel) {
            None => false,
            Some(state) => states::is_semaphore(state),
        }
    }

    /// Whether an event or a semaphore of this number was made, on which a wait object can be armed.
    pub fn is_waitable(&self, kernel: KernelId) -> bool
        ensures { result ≡ is_one_that is_waitable_by self.now.sources.kernels kernel.0 }
    {
        match self.kernel(kernel) {
            Some(KernelState::Event { .. } | KernelState::Semaphore { .. }) => true,
            _ => false,
        }
    }

    /// Whether a mutex of this number was made, or a critical section.
    pub fn is_lock(&self, lock: Lock, kernel: KernelId) -> bool
        ensures { result ≡ is_one_that (is_lock_by lock) self.now.sources.kernels kernel.0 }
    {
        match self.kernel(kernel) {
            None => false,
            Some(state) => states::is_lock(lock, state),
        }
    }

    /// Whether the actor owns the mutex or critical section of this number.
    pub fn owns(&self, who: Who, kernel: KernelId) -> bool
        ensures { result ≡ is_one_that (owns_by who) self.now.sources.kernels kernel.0 }
    {
        match self.kernel(kernel) {
            None => false,
            Some(state) => states::owns(who, state),
        }
    }

    /// Whether the actor may take the kernel object of this number now: an event that is signalled, a
    /// semaphore whose count is above 0, a lock that is free or its own.
    pub fn may_take(&self, who: Who, kernel: KernelId) -> bool
        ensures { result ≡ is_one_that (may_take_by who) self.now.sources.kernels kernel.0 }
    {
        match self.kernel(kernel) {
            None => false,
            Some(state) => states::may_take(who, state),
        }
    }

    // Whether a kernel object of this number was made and is signalled, so that waits may take it.
    pub(crate) fn is_signalled(&self, kernel: KernelId) -> bool
        ensures { result ≡ is_one_that is_signalled_by self.now.sources.kernels kernel.0 }
    {
        match self.kernel(kernel) {
            None => false,
            Some(state) => states::is_signalled(state),
        }
    }

    /// Whether the count of the semaphore of this number would pass its maximum with so much more.
    pub fn passes_by(&self, more: u32, kernel: KernelId) -> bool
        ensures { result ≡ is_one_that (passes_by_of more) self.now.sources.kernels kernel.0 }
    {
        match self.kernel(kernel) {
            None => false,
            Some(state) => states::passes(more, state),
        }
    }

    /// The count of the semaphore of this number, and 0 where it is none.
    pub fn count_at(&self, kernel: KernelId) -> u32
        ensures { result ≡ option_map_or (λ k. count_of k.state) (numbered self.now.sources.kernels kernel.0) 0 }
    {
        match self.kernel(kernel) {
            None => 0,
            Some(state) => states::count(state),
        }
    }

    /// Whether the kernel object of this number is of the kind that an action on return is for.
    pub fn is_for(&self, kind: ActionKind, kernel: KernelId) -> bool
        ensures { result ≡ is_one_that (is_for_by kind) self.now.sources.kernels kernel.0 }
    {
        match kind {
            ActionKind::Section => self.is_lock(Lock::Section, kernel),
            ActionKind::Mutex => self.is_lock(Lock::Mutex, kernel),
            ActionKind::Semaphore => self.is_semaphore(kernel),
            ActionKind::Event => self.is_event(kernel),
        }
    }
}
