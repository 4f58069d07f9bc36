//! A kernel object is made, and one is changed.

ghost use Rattle.std.specs.Prelude.{◌≡◌, ◌+◌, ◌^◌};
ghost use Rattle.tp_model.specs.Support.Allowed.{IsAllowed};
ghost use Rattle.tp_model.specs.Support.Ranged.{AreTakenAtMost};
ghost use Rattle.live_world.specs.Live.{moved};

use crate::LiveWorld;
use tp_base::ids::KernelId;
use tp_base::plans::{Change, KernelChange};
use tp_base::rows::KernelState;

impl LiveWorld {
    // Makes a kernel object.
    pub(crate) fn create_kernel(&mut self, state: KernelState)
        requires { IsAllowed (self.old.made + 1) self.old.world (Change.CreateKernel state) }
        ensures { self.new ≡ moved self.old (Change.CreateKernel state) }
    {
        self.sources.create_kernel(state);
    }

    // Sets or resets an event, raises the count of a semaphore, or gives back one taking of a lock; or an
    // actor takes it that may.
    pub(crate) fn change_kernel(&mut self, kernel: KernelId, how: KernelChange)
        requires allowed { IsAllowed (self.old.made + 1) self.old.world (Change.ChangeKernel kernel how) }
        requires taken { AreTakenAtMost (2 ^ 47) self.old.world }
        ensures { self.new ≡ moved self.old (Change.ChangeKernel kernel how) }
    {
        self.sources.change(kernel, how);
    }
}
