//! Callbacks: what one is, and what becomes of it.

ghost use Rattle.std.specs.Prelude.{◌≡◌, OnOk, find};
ghost use Rattle.std.specs.Option.{option_copied};
ghost use Rattle.tp_base.specs.Actions.{filled as filled_of};
ghost use Rattle.tp_model.specs.Actions.{asking as asking_of};
ghost use Rattle.tp_model.specs.Changes.{changed, loosened as loosened_of, marked as marked_of, operated as operated_of, replaced, taken as taken_of, with_callback, without_run};
ghost use Rattle.tp_model.specs.Counts.{has_number, is_live as is_live_status, is_pending as is_pending_status, is_running as is_running_status};

use crate::rows::Rows;
use std::alloc::AllocError;
use tp_base::answers::{ActionKind, TakeResult};
use tp_base::plans::{Busy, Change, Idle, IoStep, Mark};
use tp_base::rows::{Action, CallbackRow, Slots, Status, WorkerRow};
use world_reads::NO_ACTIONS;

pub(crate) fn is_pending(callback: &CallbackRow) -> bool
    ensures { result ≡ is_pending_status callback.now.status }
{
    matches!(callback.status, Status::Pending)
}

pub(crate) fn is_running(callback: &CallbackRow) -> bool
    ensures { result ≡ is_running_status callback.now.status }
{
    matches!(callback.status, Status::Running { .. })
}

/// Whether a callback may still run, or runs.
pub(crate) fn is_live(callback: &CallbackRow) -> bool
    ensures { result ≡ is_live_status callback.now.status }
{
    !matches!(callback.status, Status::Returned | Status::Cancelled)
}

/// The callback of a number.
pub(crate) fn callback_in(callbacks: &[CallbackRow], number: u64) -> Option<&CallbackRow>
    ensures { option_copied result ≡ find (has_number number) callbacks.now }
{
    callbacks.iter().find(|callback| callback.number == number)
}

/// The callback with another status.
pub(crate) fn with_status(callback: CallbackRow, status: Status) -> CallbackRow
    ensures { result ≡ record callback { status = status } }
{
    let mut row = callback;
    row.status = status;
    row
}

// The slots with an action of a kind.
fn filled(kind: ActionKind, action: Action, slots: Slots) -> Slots
    ensures { result ≡ filled_of kind action slots }
{
    let mut slots = slots;
    match kind {
        ActionKind::Section => slots.section = Some(action),
        ActionKind::Mutex => slots.mutex = Some(action),
        ActionKind::Semaphore => slots.semaphore = Some(action),
        ActionKind::Event => slots.event = Some(action),
    }
    slots
}

// What runs is no longer waited for by a wait for its object.
fn loosened(status: Status) -> Status
    ensures { result ≡ loosened_of status }
{
    match status {
        Status::Running { worker, slots, .. } => Status::Running {
            worker,
            associated: false,
            slots,
        },
        _ => status,
    }
}

// What runs asks for an action on return.
fn asking(kind: ActionKind, action: Action, status: Status) -> Status
    ensures { result ≡ asking_of kind action status }
{
    match status {
        Status::Running {
            worker,
            associated,
            slots,
        } => Status::Running {
            worker,
            associated,
            slots: filled(kind, action, slots),
        },
        _ => status,
    }
}

// A running callback after what it says of itself.
fn marked(mark: Mark, callback: CallbackRow) -> CallbackRow
    ensures { result ≡ marked_of mark callback }
{
    match mark {
        Mark::Long => {
            let mut row = callback;
            row.long = true;
            row
        }
        Mark::Loose => with_status(callback, loosened(callback.status)),
        Mark::Asks { kind, action } => {
            with_status(callback, asking(kind, action, callback.status))
        }
    }
}

// A callback after a step of its operation.
fn operated(how: IoStep, callback: CallbackRow) -> CallbackRow
    ensures { result ≡ operated_of how callback }
{
    match how {
        IoStep::Issue => with_status(callback, Status::Issued),
        IoStep::GiveUp => with_status(callback, Status::Cancelled),
        IoStep::Complete { error, bytes } => {
            let mut row = with_status(callback, Status::Pending);
            row.result = TakeResult::Io { error, bytes };
            row
        }
    }
}

// A callback as a worker begins it.
fn taken(callback: CallbackRow, worker: u32) -> CallbackRow
    ensures { result ≡ taken_of callback worker }
{
    with_status(
        callback,
        Status::Running {
            worker,
            associated: true,
            slots: NO_ACTIONS,
        },
    )
}

// Puts a callback in place of the one of its number.
fn replace(callbacks: &mut Vec<CallbackRow>, callback: CallbackRow)
    ensures { callbacks.new.items ≡ replaced callback callbacks.old.items }
{
    for place in 0..callbacks.len() {
        if callbacks[place].number == callback.number {
            callbacks[place] = callback;
        }
    }
}

impl Rows {
    // Puts a callback in place of the one of its number.
    fn put_callback(&mut self, callback: CallbackRow)
        ensures { self.new ≡ with_callback self.old callback }
    {
        replace(&mut self.callbacks, callback);
    }

    pub(crate) fn queue_callback(&mut self, callback: CallbackRow) -> Result<(), AllocError>
        ensures { OnOk result (self.new ≡ changed self.old (Change.QueueCallback callback)) }
    {
        self.callbacks.push(callback)?;
        Ok(())
    }

    pub(crate) fn operate(&mut self, callback: CallbackRow, how: IoStep)
        ensures { self.new ≡ changed self.old (Change.Operate callback how) }
    {
        self.put_callback(operated(how, callback));
    }

    pub(crate) fn mark(&mut self, by: Busy, mark: Mark)
        ensures { self.new ≡ changed self.old (Change.Mark by mark) }
    {
        self.put_callback(marked(mark, by.callback));
    }

    pub(crate) fn take(&mut self, by: Idle, callback: CallbackRow)
        ensures { self.new ≡ changed self.old (Change.Take by callback) }
    {
        self.put_callback(taken(callback, by.worker));
        self.put_worker(
            by.worker,
            WorkerRow {
                pool: Some(by.pool),
                callback: Some(callback.number),
                persistent: by.persistent || callback.persistent,
            },
        );
    }

    /// The callback that a worker runs returns.
    pub(crate) fn end_run(&mut self, by: Busy)
        ensures { self.new ≡ without_run self.old by }
    {
        self.put_callback(with_status(by.callback, Status::Returned));
        self.put_worker(
            by.worker,
            WorkerRow {
                pool: Some(by.pool),
                callback: None,
                persistent: by.persistent,
            },
        );
    }
}
