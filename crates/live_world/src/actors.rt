//! Who makes a call: the rows of clients and workers.

ghost use Rattle.std.specs.Prelude.{◌≡◌, ◌+◌, IfOk, filter, length, replicate};
ghost use Rattle.std.specs.List.{range_with_len};
ghost use Rattle.tp_base.specs.declared.ids.Who.TheVariants.{Worker};
ghost use Rattle.tp_model.specs.World.{unfinished};
ghost use Rattle.tp_model.specs.Conditions.{runs_callback};
ghost use Rattle.tp_model.specs.Counts.{numbered};
ghost use Rattle.tp_model.specs.Support.Allowed.{IsAllowed};
ghost use Rattle.live_world.specs.Live.{moved};

use crate::LiveWorld;
use std::alloc::{AllocError, Global};
use tp_base::plans::Change;
use tp_base::rows::{ClientRow, WorkerRow};

/// The rows of so many clients, none of which has finished.
pub(crate) fn open_clients(alloc: Global, clients: u32) -> Result<Vec<ClientRow>, AllocError>
    ensures { IfOk result (λ rows. rows.items ≡ replicate clients unfinished) }
{
    vec![in alloc; ClientRow { finished: false }; clients as usize]
}

impl LiveWorld {
    // The row of a client, if there is one of this number. The first client has the number 1.
    pub(crate) fn client(&self, number: u32) -> Option<ClientRow>
        ensures { result ≡ numbered self.now.world.clients number }
    {
        if number == 0 {
            return None;
        }
        self.clients.get(number as usize - 1).copied()
    }

    // How many workers run a callback.
    pub(crate) fn busy_workers(&self) -> u32
        ensures { result ≡ length (filter (λ number. runs_callback self.now.world (Worker number)) (range_with_len 1 (length self.now.world.workers))) }
    {
        self.pools.busy()
    }

    // Notes that a client makes no further call.
    pub(crate) fn finish(&mut self, client: u32)
        requires { IsAllowed (self.old.made + 1) self.old.world (Change.Finish client) }
        ensures { self.new ≡ moved self.old (Change.Finish client) }
    {
        self.clients[client as usize - 1] = ClientRow { finished: true };
    }
}
