//! Operations of I/O objects: a callback expects one, it is issued or given up, and it completes.

ghost use Rattle.std.specs.Prelude.{◌≡◌, ◌+◌, ◌^◌, ◌<◌};
ghost use Rattle.tp_model.specs.Support.Allowed.{IsAllowed};
ghost use Rattle.live_world.specs.Live.{moved};

use crate::LiveWorld;
use steps::Steps;
use tp_base::answers::TakeResult;
use tp_base::plans::{Change, IoStep};
use tp_base::rows::{CallbackRow, Status};

impl LiveWorld {
    // Makes a callback that expects an operation.
    pub(crate) fn expect_callback(&mut self, callback: CallbackRow)
        requires allowed { IsAllowed (self.old.made + 1) self.old.world (Change.ExpectCallback callback) }
        requires young { self.old.made < 2 ^ 63 }
        ensures { self.new ≡ moved self.old (Change.ExpectCallback callback) }
    {
        self.callbacks.push(callback);
        self.made += 1;
    }

    // What becomes of the operation of a callback.
    pub(crate) fn operate(&mut self, callback: CallbackRow, how: IoStep)
        requires { IsAllowed (self.old.made + 1) self.old.world (Change.Operate callback how) }
        ensures { self.new ≡ moved self.old (Change.Operate callback how) }
    {
        match how {
            IoStep::Issue => self.issue(callback),
            IoStep::GiveUp => self.give_up(callback),
            IoStep::Complete { error, bytes } => self.complete(callback, error, bytes),
        }
    }

    // The operation is issued.
    fn issue(&mut self, callback: CallbackRow)
        requires { IsAllowed (self.old.made + 1) self.old.world (Change.Operate callback IoStep.Issue) }
        ensures { self.new ≡ moved self.old (Change.Operate callback IoStep.Issue) }
    {
        let issued = CallbackRow {
            status: Status::Issued,
            ..callback
        };
        self.callbacks.change(&callback, issued, &mut Steps::new());
    }

    // The operation isn't issued, and the callback never runs.
    fn give_up(&mut self, callback: CallbackRow)
        requires { IsAllowed (self.old.made + 1) self.old.world (Change.Operate callback IoStep.GiveUp) }
        ensures { self.new ≡ moved self.old (Change.Operate callback IoStep.GiveUp) }
    {
        self.callbacks.remove(&callback);
    }

    // The operation completes, and the callback waits for a worker, in its place by its number.
    fn complete(&mut self, callback: CallbackRow, error: u32, bytes: u64)
        requires { IsAllowed (self.old.made + 1) self.old.world (Change.Operate callback (IoStep.Complete error bytes)) }
        ensures { self.new ≡ moved self.old (Change.Operate callback (IoStep.Complete error bytes)) }
    {
        let completed = CallbackRow {
            status: Status::Pending,
            result: TakeResult::Io { error, bytes },
            ..callback
        };
        self.callbacks
            .change(&callback, completed, &mut Steps::new());
    }
}
