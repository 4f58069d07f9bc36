//! Numbers that are filled as far as they are used, seen as all of them.

ghost use Rattle.std.specs.Prelude.{◌≡◌, ◌+◌, ◌≤◌, ◌<◌, IfNone, IfOk, IfSome, length, max, min, replicate, slice_index, slice_index_or, slice_set};

use std::alloc::{AllocError, Global};
use std::marker::Model;

/// Numbers, all of which are the same at first.
#[derive(Drop)]
pub(crate) struct Filled {
    room: u32,
    fill: u32,
    items: Vec<u32>,
}

impl Model for Filled {
    ghost use Rattle.linked_lists.specs.Filled.{Padded};

    ghost Value = { Padded };

    ghost use Rattle.std.specs.Vec.{vec_capacity};
    ghost use Rattle.linked_lists.specs.Filled.{IsReserved, padded};

    ghost view = { λ a. padded a.room a.fill a.items.items };

    ghost invariant = { λ a. IsReserved a.room (vec_capacity a.items) a.items.items };
}

impl Filled {
    /// `room` numbers that are all `fill`, with the memory for them, none of which is filled.
    ///
    /// An `AllocError` comes where that memory can't be had.
    pub fn open(alloc: Global, room: u32, fill: u32) -> Result<Filled, AllocError>
        ensures { IfOk result (λ filled. filled ≡ record { fill = fill; filled = 0; items = replicate room fill }) }
    {
        let items = Vec::with_capacity(alloc, room as usize)?;
        Ok(Filled { room, fill, items })
    }

    /// What all numbers are that were never set.
    #[inline(always)]
    pub fn fill(&self) -> u32
        ensures { result ≡ self.now.fill }
    {
        self.fill
    }

    /// The number at an index, or None where it isn't filled, and so is as all are at first, or there is none.
    #[inline(always)]
    pub fn get(&self, index: u32) -> Option<u32>
        ensures number { IfSome result (λ number. number ≡ slice_index_or self.now.items index self.now.fill) }
        ensures past { IfNone result (self.now.filled ≤ index) }
        ensures fill { IfNone result (slice_index_or self.now.items index self.now.fill ≡ self.now.fill) }
    {
        if (index as usize) < self.items.len() {
            Some(self.items[index as usize])
        } else {
            None
        }
    }

    /// The number at an index that is filled.
    #[inline(always)]
    pub fn read(&self, index: u32) -> u32
        requires { index < self.now.filled }
        ensures { result ≡ slice_index self.now.items index }
    {
        self.items[index as usize]
    }

    /// Sets the number at an index that is filled.
    #[inline(always)]
    pub fn set(&mut self, index: u32, number: u32)
        requires { index < self.old.filled }
        ensures { self.new ≡ record self.old { items = slice_set self.old.items index number } }
    {
        self.items[index as usize] = number;
    }

    /// Fills the numbers as far as this index, or all where there is no such index.
    #[inline(always)]
    pub fn reach(&mut self, index: u32)
        ensures { self.new ≡ record self.old { filled = max self.old.filled (min (length self.old.items) (index + 1)) } }
    {
        while self.items.len() <= index as usize && self.items.len() < self.room as usize {
            self.items.push_reserved(self.fill);
        }
    }
}
