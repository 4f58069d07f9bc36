//! Workers and clients.

ghost use Rattle.std.specs.Prelude.{◌≡◌, OnOk};
ghost use Rattle.tp_model.specs.Changes.{changed, with_worker};

use crate::rows::{Rows, put};
use tp_base::ids::PoolId;
use tp_base::plans::{Change, Idle};
use tp_base::rows::{ClientRow, WorkerRow};

/// A worker that is attached to no pool.
pub(crate) const UNATTACHED: WorkerRow = WorkerRow {
    pool: None,
    callback: None,
    persistent: false,
};

impl Rows {
    /// Puts a row in place of a worker's.
    pub(crate) fn put_worker(&mut self, worker: u32, row: WorkerRow)
        ensures { self.new ≡ with_worker self.old worker row }
    {
        put(&mut self.workers, worker, row);
    }

    pub(crate) fn attach(&mut self, worker: u32, pool: PoolId)
        ensures { self.new ≡ changed self.old (Change.Attach worker pool) }
    {
        self.put_worker(
            worker,
            WorkerRow {
                pool: Some(pool),
                callback: None,
                persistent: false,
            },
        );
    }

    pub(crate) fn detach(&mut self, by: Idle)
        ensures { self.new ≡ changed self.old (Change.Detach by) }
    {
        self.put_worker(by.worker, UNATTACHED);
    }

    pub(crate) fn finish(&mut self, client: u32)
        ensures { self.new ≡ changed self.old (Change.Finish client) }
    {
        put(&mut self.clients, client, ClientRow { finished: true });
    }
}
