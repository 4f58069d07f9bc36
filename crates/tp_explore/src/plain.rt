//! Plain worlds, as worlds to go through.

ghost use Rattle.std.specs.Prelude.{◌≡◌};

use crate::seen::{Moving, Seen};
use plain_worlds::PlainWorld;
use std::alloc::{AllocError, Global};
use tp_base::limits::Limits;
use tp_base::plans::Change;
use tp_base::rows::{CallbackRow, ClientRow, WorkerRow};

impl Seen for PlainWorld {
    fn callbacks(&self) -> &[CallbackRow] {
        PlainWorld::callbacks(self)
    }

    fn clients(&self) -> &[ClientRow] {
        PlainWorld::clients(self)
    }

    fn workers(&self) -> &[WorkerRow] {
        PlainWorld::workers(self)
    }
}

impl Moving for PlainWorld {
    fn open(alloc: Global, limits: Limits) -> Result<PlainWorld, AllocError> {
        PlainWorld::open(alloc, limits)
    }

    fn copy(&self, alloc: Global) -> Result<PlainWorld, AllocError> {
        PlainWorld::copy(self, alloc)
    }

    fn made(&self) -> u64 {
        PlainWorld::made(self)
    }

    fn apply(self, alloc: Global, change: &Change) -> Result<PlainWorld, AllocError> {
        PlainWorld::apply(self, alloc, change)
    }

    fn close(self) -> PlainWorld {
        PlainWorld::close(self)
    }

    fn write_behind(
        &self,
        alloc: Global,
        order: &[u16],
        text: &mut Vec<u8>,
    ) -> Result<(), AllocError> {
        PlainWorld::write_in_order(self, alloc, order, text)
    }
}
