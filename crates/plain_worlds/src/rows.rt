//! The rows of a world, a vector of each type, seen as the world.

ghost use Rattle.std.specs.Prelude.{◌≡◌, ◌-◌, IfOk, OnOk, slice_set};
ghost use Rattle.tp_model.specs.Counts.{numbered as row_of_number};
ghost use Rattle.tp_model.specs.World.{opening};

use crate::actors::UNATTACHED;
use crate::pools::new_pool;
use crate::sources::Sources;
use crate::waits::{WaitRow, copy_waits};
use std::alloc::{AllocError, Global};
use std::marker::Model;
use tp_base::limits::Limits;
use tp_base::rows::{CallbackRow, ClientRow, GroupRow, ObjectRow, PoolRow, WorkerRow};

/// The rows of a world.
#[derive(Drop)]
pub(crate) struct Rows {
    pub(crate) limits: Limits,
    pub(crate) pools: Vec<PoolRow>,
    pub(crate) groups: Vec<GroupRow>,
    pub(crate) objects: Vec<ObjectRow>,
    pub(crate) callbacks: Vec<CallbackRow>,
    // The clock, what is set and armed, and the kernel objects.
    pub(crate) sources: Sources,
    pub(crate) workers: Vec<WorkerRow>,
    pub(crate) clients: Vec<ClientRow>,
    pub(crate) waits: Vec<WaitRow>,
    // The notices that waits never gave.
    pub(crate) given_up: u64,
}

impl Model for Rows {
    ghost use Rattle.tp_model.specs.World.{World};

    ghost Value = { World };

    ghost use Rattle.plain_worlds.specs.View.{world_of};

    ghost view = { world_of };
}

/// The row of a number that counts from 1, or None where there is none.
pub(crate) fn numbered<R: Copy>(rows: &[R], number: u32) -> Option<R>
    ensures { result ≡ row_of_number rows.now number }
{
    if number == 0 {
        return None;
    }
    rows.get(number as usize - 1).copied()
}

/// Puts a row in place of the one of a number that counts from 1. Where there is none, nothing changes.
pub(crate) fn put<R: Copy + Drop>(rows: &mut Vec<R>, number: u32, row: R)
    ensures { rows.new.items ≡ slice_set rows.old.items (number - 1) row }
{
    let place = number.saturating_sub(1) as usize;
    if place < rows.len() {
        rows[place] = row;
    }
}

impl Rows {
    /// The rows before the first call.
    pub(crate) fn open(alloc: Global, limits: Limits) -> Result<Rows, AllocError>
        ensures { IfOk result (λ rows. rows ≡ opening limits) }
    {
        let unfinished = ClientRow { finished: false };
        Ok(Rows {
            limits,
            pools: vec![in alloc; new_pool(limits)]?,
            groups: Vec::new(alloc),
            objects: Vec::new(alloc),
            callbacks: Vec::new(alloc),
            sources: Sources::open(alloc),
            workers: vec![in alloc; UNATTACHED; limits.workers as usize]?,
            clients: vec![in alloc; unfinished; limits.clients as usize]?,
            waits: Vec::new(alloc),
            given_up: 0,
        })
    }

    /// Further rows that are the same.
    pub(crate) fn copy(&self, alloc: Global) -> Result<Rows, AllocError>
        ensures { IfOk result (λ rows. rows ≡ self.now) }
    {
        Ok(Rows {
            limits: self.limits,
            pools: Vec::from_slice(alloc, &self.pools)?,
            groups: Vec::from_slice(alloc, &self.groups)?,
            objects: Vec::from_slice(alloc, &self.objects)?,
            callbacks: Vec::from_slice(alloc, &self.callbacks)?,
            sources: self.sources.copy(alloc)?,
            workers: Vec::from_slice(alloc, &self.workers)?,
            clients: Vec::from_slice(alloc, &self.clients)?,
            waits: copy_waits(alloc, &self.waits)?,
            given_up: self.given_up,
        })
    }
}
