//! A worker's callback: it begins, is marked, and ends.

ghost use Rattle.std.specs.Prelude.{◌≡◌, ◌+◌, ◌≤◌};
ghost use Rattle.tp_base.specs.Actions.{filled as filled_by};
ghost use Rattle.tp_model.specs.Actions.{asking as asking_by};
ghost use Rattle.tp_model.specs.Changes.{loosened as loosened_by, without_run};
ghost use Rattle.tp_model.specs.Support.Allowed.{IsAllowed, Runs};
ghost use Rattle.live_world.specs.Live.{moved, with_world};

use crate::LiveWorld;
use steps::Steps;
use tp_base::answers::ActionKind;
use tp_base::plans::{Busy, Change, Idle, Mark};
use tp_base::rows::{Action, CallbackRow, Slots, Status};
use world_reads::NO_ACTIONS;

// A running callback that is no longer outstanding for its object.
fn loosened(status: Status) -> Status
    ensures { result ≡ loosened_by status }
{
    match status {
        Status::Running { worker, slots, .. } => Status::Running {
            worker,
            associated: false,
            slots,
        },
        _ => status,
    }
}

// A running callback that has asked for one more action.
fn asking(kind: ActionKind, action: Action, status: Status) -> Status
    ensures { result ≡ asking_by kind action status }
{
    match status {
        Status::Running {
            worker,
            associated,
            slots,
        } => Status::Running {
            worker,
            associated,
            slots: filled(kind, action, slots),
        },
        _ => status,
    }
}

// The actions that are asked for, and one more.
fn filled(kind: ActionKind, action: Action, slots: Slots) -> Slots
    ensures { result ≡ filled_by kind action slots }
{
    let action = Some(action);
    match kind {
        ActionKind::Section => Slots {
            section: action,
            ..slots
        },
        ActionKind::Mutex => Slots {
            mutex: action,
            ..slots
        },
        ActionKind::Semaphore => Slots {
            semaphore: action,
            ..slots
        },
        ActionKind::Event => Slots {
            event: action,
            ..slots
        },
    }
}

impl LiveWorld {
    // Lets a worker run a callback that waits in its pool.
    pub(crate) fn take(&mut self, by: Idle, callback: CallbackRow, steps: &mut Steps)
        requires { IsAllowed (self.old.made + 1) self.old.world (Change.Take by callback) }
        ensures after { self.new ≡ moved self.old (Change.Take by callback) }
        ensures counted { steps.old ≤ steps.new }
        ensures bound { steps.new ≤ steps.old + 2 }
    {
        let running = CallbackRow {
            status: Status::Running {
                worker: by.worker,
                associated: true,
                slots: NO_ACTIONS,
            },
            ..callback
        };
        self.callbacks.change(&callback, running, steps);
        self.pools.take(
            by.worker,
            callback.number,
            callback.long,
            callback.persistent,
        );
    }

    // Notes what a running callback says of itself.
    pub(crate) fn mark(&mut self, by: Busy, mark: Mark)
        requires { IsAllowed (self.old.made + 1) self.old.world (Change.Mark by mark) }
        ensures { self.new ≡ moved self.old (Change.Mark by mark) }
    {
        match mark {
            Mark::Long => self.mark_long(by),
            Mark::Loose => self.mark_loose(by),
            Mark::Asks { kind, action } => self.mark_asks(by, kind, action),
        }
    }

    // Notes that a running callback may run long.
    fn mark_long(&mut self, by: Busy)
        requires { IsAllowed (self.old.made + 1) self.old.world (Change.Mark by Mark.Long) }
        ensures { self.new ≡ moved self.old (Change.Mark by Mark.Long) }
    {
        let long = CallbackRow {
            long: true,
            ..by.callback
        };
        self.callbacks.change(&by.callback, long, &mut Steps::new());
        self.pools.mark_long(by.worker);
    }

    // Notes that a running callback is no longer outstanding for its object.
    fn mark_loose(&mut self, by: Busy)
        requires { IsAllowed (self.old.made + 1) self.old.world (Change.Mark by Mark.Loose) }
        ensures { self.new ≡ moved self.old (Change.Mark by Mark.Loose) }
    {
        let loose = CallbackRow {
            status: loosened(by.callback.status),
            ..by.callback
        };
        self.callbacks
            .change(&by.callback, loose, &mut Steps::new());
    }

    // Notes that a running callback asks for an action on its return.
    fn mark_asks(&mut self, by: Busy, kind: ActionKind, action: Action)
        requires { IsAllowed (self.old.made + 1) self.old.world (Change.Mark by (Mark.Asks kind action)) }
        ensures { self.new ≡ moved self.old (Change.Mark by (Mark.Asks kind action)) }
    {
        let asking = CallbackRow {
            status: asking(kind, action, by.callback.status),
            ..by.callback
        };
        self.callbacks
            .change(&by.callback, asking, &mut Steps::new());
    }

    // Ends the callback that a worker runs. The worker stays attached.
    pub(crate) fn end_callback(&mut self, by: Busy)
        requires { Runs self.old.world by }
        ensures { self.new ≡ with_world self.old (without_run self.old.world by) }
    {
        self.callbacks.remove(&by.callback);
        self.pools.give_back(by.worker);
    }
}
