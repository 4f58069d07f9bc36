//! A world of the thread pool machine in plain vectors, seen as tp_model's world without the callbacks that are
//! over, and the number of callbacks that were ever made.

#![tactic(auto)]

ghost use Rattle.std.specs.Prelude.{◌≡◌, ◌+◌, IfOk};
ghost use Rattle.tp_base.specs.Ranges.{AreLimitsInRange};
ghost use Rattle.tp_model.specs.Support.Allowed.{IsAllowed};
ghost use Rattle.tp_model.specs.World.{opening};
ghost use Rattle.plain_worlds.specs.Closing.{closed_plain};
ghost use Rattle.plain_worlds.specs.Plain.{moved};

pub use closing::place_of;
pub use keys::keys_tell_apart;
pub use ordering::{exchange, exchanged_who, order_of};
use renamed_worlds::closed_worlds_are_sound;
use rows::Rows;
use std::alloc::{AllocError, Global};
use std::marker::Model;
use tp_base::limits::Limits;
use tp_base::plans::Change;
use tp_base::rows::{CallbackRow, ClientRow};

mod action_words;
mod actor_reads;
mod actors;
mod callbacks;
mod changes;
mod closing;
mod counting;
mod firing;
mod firing_counts;
mod group_reads;
mod groups;
mod kernel_reads;
mod kernels;
mod keys;
mod objects;
mod ordering;
mod pool_reads;
mod pools;
mod progress;
mod reading;
mod reads;
mod rows;
mod settings;
mod sources;
mod waits;

/// A world in plain vectors.
#[derive(Drop)]
pub struct PlainWorld {
    rows: Rows,
    made: u64,
}

impl Model for PlainWorld {
    ghost use Rattle.plain_worlds.specs.Plain.{Plain};
    ghost use Rattle.plain_worlds.specs.Reachable.{IsReachable};

    ghost Value = { Plain };

    ghost view = { λ a. record { world = a.rows; made = a.made } };

    ghost invariant = { λ a. IsReachable a.made a.rows };
}

impl PlainWorld {
    /// The world of a machine with these limits, before its first call.
    pub fn open(alloc: Global, limits: Limits) -> Result<PlainWorld, AllocError>
        requires { AreLimitsInRange limits }
        ensures { IfOk result (λ plain. plain ≡ record { world = opening limits; made = 0 }) }
    {
        Ok(PlainWorld {
            rows: Rows::open(alloc, limits)?,
            made: 0,
        })
    }

    /// Another world of the same rows.
    pub fn copy(&self, alloc: Global) -> Result<PlainWorld, AllocError>
        ensures { IfOk result (λ plain. plain ≡ self.now) }
    {
        Ok(PlainWorld {
            rows: self.rows.copy(alloc)?,
            made: self.made,
        })
    }

    /// The world behind a change. The callbacks that return or are cancelled by it are dropped.
    ///
    /// An `AllocError` comes where there is no memory for what is new, or where a number would pass what its type
    /// holds, to which no history comes.
    pub fn apply(self, alloc: Global, change: &Change) -> Result<PlainWorld, AllocError>
        requires { IsAllowed (self.made + 1) self.world change.now }
        ensures { IfOk result (λ after. after ≡ moved self change.now) }
    {
        let made = changes::made_after(self.made, change)?;
        let mut rows = self.rows;
        rows.change(alloc, change)?;
        rows.forget();
        Ok(PlainWorld { rows, made })
    }

    /// The same world with its names forgotten: its callbacks are numbered from 1 in their order, and its waits cover
    /// nothing that isn't outstanding any more. So worlds that differ in names alone are one when closed.
    pub fn close(self) -> PlainWorld
        ensures { result ≡ closed_plain self }
    {
        closed_worlds_are_sound();
        let mut rows = self.rows;
        rows.close();
        let made = rows.count_callbacks();
        PlainWorld { rows, made }
    }

    /// Its callbacks, by rising number.
    pub fn callbacks(&self) -> &[CallbackRow]
        ensures { result.now ≡ self.now.world.callbacks }
    {
        &self.rows.callbacks
    }

    /// Its clients, by number.
    pub fn clients(&self) -> &[ClientRow]
        ensures { result.now ≡ self.now.world.clients }
    {
        &self.rows.clients
    }

    /// How many callbacks were ever made.
    pub fn made(&self) -> u64
        ensures { result ≡ self.now.made }
    {
        self.made
    }
}
