//! What is read of the clock, of what is set, and of the kernel objects.

ghost use Rattle.std.specs.Prelude.{◌≡◌, ◌<◌, ◌^◌, length};
ghost use Rattle.tp_base.specs.Actions.{is_for as is_for_action};
ghost use Rattle.tp_base.specs.Armings.{is_set as is_set_in};
ghost use Rattle.tp_base.specs.Kernels.{is_event, is_lock, is_semaphore, is_waitable as is_waitable_state, may_take, owns, passes_by};
ghost use Rattle.tp_model.specs.Kernels.{count_at, is_kernel, is_kernel_that};

use crate::rows::{Rows, numbered};
use kernel_events::states;
use tp_base::answers::ActionKind;
use tp_base::calls::Lock;
use tp_base::ids::{KernelId, ObjectId, Who};
use tp_base::rows::{KernelState, TimerSetting};

fn is_set(settings: &[TimerSetting], object: ObjectId) -> bool
    ensures { result ≡ is_set_in object.0 settings.now }
{
    settings.iter().any(|setting| setting.object.0 == object.0)
}

// Whether a wait object can be armed on it.
fn is_waitable(state: KernelState) -> bool
    ensures { result ≡ is_waitable_state state }
{
    matches!(
        state,
        KernelState::Event { .. } | KernelState::Semaphore { .. }
    )
}

// Whether an action on return of this kind is for it.
fn is_for(kind: ActionKind, state: KernelState) -> bool
    ensures { result ≡ is_for_action kind state }
{
    match kind {
        ActionKind::Section => states::is_lock(Lock::Section, state),
        ActionKind::Mutex => states::is_lock(Lock::Mutex, state),
        ActionKind::Semaphore => states::is_semaphore(state),
        ActionKind::Event => states::is_event(state),
    }
}

impl Rows {
    pub(crate) fn now(&self) -> u64
        ensures { result ≡ self.now.now }
    {
        self.sources.clock
    }

    pub(crate) fn is_set(&self, object: ObjectId) -> bool
        ensures { result ≡ is_set_in object.0 self.now.settings }
    {
        is_set(&self.sources.settings, object)
    }

    pub(crate) fn kernels(&self) -> u32
        requires { length self.now.kernels < 2 ^ 32 }
        ensures { result ≡ length self.now.kernels }
    {
        self.sources.kernels.len() as u32
    }

    pub(crate) fn is_kernel(&self, kernel: KernelId) -> bool
        ensures { result ≡ is_kernel self.now kernel.0 }
    {
        numbered(&self.sources.kernels, kernel.0).is_some()
    }

    pub(crate) fn is_event(&self, kernel: KernelId) -> bool
        ensures { result ≡ is_kernel_that is_event self.now kernel.0 }
    {
        match numbered(&self.sources.kernels, kernel.0) {
            Some(row) => states::is_event(row.state),
            None => false,
        }
    }

    pub(crate) fn is_semaphore(&self, kernel: KernelId) -> bool
        ensures { result ≡ is_kernel_that is_semaphore self.now kernel.0 }
    {
        match numbered(&self.sources.kernels, kernel.0) {
            Some(row) => states::is_semaphore(row.state),
            None => false,
        }
    }

    pub(crate) fn is_waitable(&self, kernel: KernelId) -> bool
        ensures { result ≡ is_kernel_that is_waitable_state self.now kernel.0 }
    {
        match numbered(&self.sources.kernels, kernel.0) {
            Some(row) => is_waitable(row.state),
            None => false,
        }
    }

    pub(crate) fn is_lock(&self, lock: Lock, kernel: KernelId) -> bool
        ensures { result ≡ is_kernel_that (is_lock lock) self.now kernel.0 }
    {
        match numbered(&self.sources.kernels, kernel.0) {
            Some(row) => states::is_lock(lock, row.state),
            None => false,
        }
    }

    pub(crate) fn is_for(&self, kind: ActionKind, kernel: KernelId) -> bool
        ensures { result ≡ is_kernel_that (is_for_action kind) self.now kernel.0 }
    {
        match numbered(&self.sources.kernels, kernel.0) {
            Some(row) => is_for(kind, row.state),
            None => false,
        }
    }

    pub(crate) fn owns(&self, who: Who, kernel: KernelId) -> bool
        ensures { result ≡ is_kernel_that (owns who) self.now kernel.0 }
    {
        match numbered(&self.sources.kernels, kernel.0) {
            Some(row) => states::owns(who, row.state),
            None => false,
        }
    }

    pub(crate) fn may_take(&self, who: Who, kernel: KernelId) -> bool
        ensures { result ≡ is_kernel_that (may_take who) self.now kernel.0 }
    {
        match numbered(&self.sources.kernels, kernel.0) {
            Some(row) => states::may_take(who, row.state),
            None => false,
        }
    }

    pub(crate) fn passes_by(&self, more: u32, kernel: KernelId) -> bool
        ensures { result ≡ is_kernel_that (passes_by more) self.now kernel.0 }
    {
        match numbered(&self.sources.kernels, kernel.0) {
            Some(row) => states::passes(more, row.state),
            None => false,
        }
    }

    pub(crate) fn count_at(&self, kernel: KernelId) -> u32
        ensures { result ≡ count_at self.now kernel.0 }
    {
        match numbered(&self.sources.kernels, kernel.0) {
            Some(row) => states::count(row.state),
            None => 0,
        }
    }
}
