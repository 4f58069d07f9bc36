//! Events, semaphores, mutexes and critical sections.

ghost use Rattle.std.specs.Prelude.{◌≡◌, IfOk, OnOk};
ghost use Rattle.tp_base.specs.Kernels.{is_signalled as is_signalled_by, state_after as state_after_of, taken as taken_of, taken_by as taken_by_of};
ghost use Rattle.tp_model.specs.Changes.{changed};
ghost use Rattle.tp_model.specs.Kernels.{is_one_that, kernel_changed};

use crate::rows::{Rows, numbered, put};
use kernel_events::states;
use std::alloc::AllocError;
use tp_base::ids::{KernelId, Who};
use tp_base::plans::{Change, KernelChange};
use tp_base::rows::{KernelRow, KernelState};

// What a kernel object is once an actor has taken it. An `AllocError` comes where a lock was taken too often to be
// counted.
fn taken_by(who: Who, state: KernelState) -> Result<KernelState, AllocError>
    ensures { IfOk result (λ after. after ≡ taken_by_of who state) }
{
    match state {
        KernelState::Mutex { takings, .. } => Ok(KernelState::Mutex {
            owner: Some(who),
            takings: takings.checked_add(1).ok_or(AllocError)?,
        }),
        KernelState::Section { takings, .. } => Ok(KernelState::Section {
            owner: Some(who),
            takings: takings.checked_add(1).ok_or(AllocError)?,
        }),
        _ => Ok(states::taken(state)),
    }
}

// What a kernel object is after a change. An `AllocError` comes where it would be more than can be counted.
fn state_after(how: KernelChange, state: KernelState) -> Result<KernelState, AllocError>
    ensures { IfOk result (λ after. after ≡ state_after_of how state) }
{
    match (how, state) {
        (KernelChange::Raise(more), KernelState::Semaphore { count, maximum }) => {
            Ok(KernelState::Semaphore {
                count: count.checked_add(more).ok_or(AllocError)?,
                maximum,
            })
        }
        (KernelChange::Take(who), state) => taken_by(who, state),
        _ => Ok(states::state_after(how, state)),
    }
}

/// Changes the kernel object of a number. Where there is none, nothing changes.
///
/// An `AllocError` comes where it would be more than can be counted.
pub(crate) fn change_kernel(
    kernels: &mut Vec<KernelRow>,
    kernel: KernelId,
    how: KernelChange,
) -> Result<(), AllocError>
    ensures { OnOk result (kernels.new.items ≡ kernel_changed (state_after_of how) kernels.old.items kernel.0) }
{
    if let Some(row) = numbered(kernels, kernel.0) {
        let state = state_after(how, row.state)?;
        put(kernels, kernel.0, KernelRow { state });
    }
    Ok(())
}

/// Lets a wait that is armed on a kernel object take it.
pub(crate) fn take_signal(kernels: &mut Vec<KernelRow>, kernel: KernelId)
    ensures { kernels.new.items ≡ kernel_changed taken_of kernels.old.items kernel.0 }
{
    if let Some(row) = numbered(kernels, kernel.0) {
        let state = states::taken(row.state);
        put(kernels, kernel.0, KernelRow { state });
    }
}

/// Whether a kernel object is signalled.
pub(crate) fn is_signalled(kernels: &[KernelRow], kernel: KernelId) -> bool
    ensures { result ≡ is_one_that is_signalled_by kernels.now kernel.0 }
{
    match numbered(kernels, kernel.0) {
        Some(row) => states::is_signalled(row.state),
        None => false,
    }
}

impl Rows {
    pub(crate) fn create_kernel(&mut self, state: KernelState) -> Result<(), AllocError>
        ensures { OnOk result (self.new ≡ changed self.old (Change.CreateKernel state)) }
    {
        self.sources.create_kernel(state)
    }

    pub(crate) fn change_kernel(
        &mut self,
        kernel: KernelId,
        how: KernelChange,
    ) -> Result<(), AllocError>
        ensures { OnOk result (self.new ≡ changed self.old (Change.ChangeKernel kernel how)) }
    {
        self.sources.change_kernel(kernel, how)
    }
}
