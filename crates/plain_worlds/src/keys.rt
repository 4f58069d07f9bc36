//! The key of a world: a text of bytes by which it is told apart from all others.

ghost use Rattle.std.specs.Prelude.{◌≡◌, ◌++◌, OnOk};
ghost use Rattle.short_codes.specs.Codes.{IsCode, listed, number};
ghost use Rattle.row_codes.proofs.Worlds.{is_wait_code};
ghost use Rattle.row_codes.specs.Rows.{arming_code, callback_code, client_code, group_code, kernel_code, limits_code, object_code, pool_code, setting_code, worker_code};
ghost use Rattle.row_codes.specs.Worlds.{wait_code, world_code};
ghost use Rattle.plain_worlds.specs.Keys.{plain_code};

use crate::PlainWorld;
use crate::rows::Rows;
use crate::waits::WaitRow;
use row_codes::{Coded, put_all};
use short_codes::put;
use std::alloc::AllocError;

impl Coded for WaitRow {
    ghost code = { wait_code };

    fn put(&self, text: &mut Vec<u8>) -> Result<(), AllocError> {
        self.actor.put(text)?;
        self.target.put(text)?;
        put_all(&self.covered, text)?;
        put_all(&self.notices, text)?;
        self.cleanup.put(text)
    }

    ghost is_code = { is_wait_code };
}

impl Rows {
    // Appends the limits, the pools, the groups and the objects.
    fn write_things(&self, text: &mut Vec<u8>) -> Result<(), AllocError>
        ensures { OnOk result (text.new.items ≡ text.old.items ++ (limits_code self.now.limits ++ listed pool_code self.now.pools ++ listed group_code self.now.groups ++ listed object_code self.now.objects)) }
    {
        self.limits.put(text)?;
        put_all(&self.pools, text)?;
        put_all(&self.groups, text)?;
        put_all(&self.objects, text)
    }

    // Appends the callbacks, the kernel objects, what is set and what is armed.
    fn write_sources(&self, text: &mut Vec<u8>) -> Result<(), AllocError>
        ensures { OnOk result (text.new.items ≡ text.old.items ++ (listed callback_code self.now.callbacks ++ listed kernel_code self.now.kernels ++ listed setting_code self.now.settings ++ listed arming_code self.now.armings)) }
    {
        put_all(&self.callbacks, text)?;
        put_all(&self.sources.kernels, text)?;
        put_all(&self.sources.settings, text)?;
        put_all(&self.sources.armings, text)
    }

    // Appends the workers, the clients and the waits.
    fn write_actors(&self, text: &mut Vec<u8>) -> Result<(), AllocError>
        ensures { OnOk result (text.new.items ≡ text.old.items ++ (listed worker_code self.now.workers ++ listed client_code self.now.clients ++ listed wait_code self.now.waits)) }
    {
        put_all(&self.workers, text)?;
        put_all(&self.clients, text)?;
        put_all(&self.waits, text)
    }

    // Appends the moment of the clock, and how many notices were given up.
    fn write_clock(&self, text: &mut Vec<u8>) -> Result<(), AllocError>
        ensures { OnOk result (text.new.items ≡ text.old.items ++ (number self.now.now ++ number self.now.given_up)) }
    {
        put(text, self.sources.clock)?;
        put(text, self.given_up)
    }

    /// Appends the code of the world.
    pub(crate) fn write(&self, text: &mut Vec<u8>) -> Result<(), AllocError>
        ensures { OnOk result (text.new.items ≡ text.old.items ++ world_code self.now) }
    {
        self.write_things(text)?;
        self.write_sources(text)?;
        self.write_actors(text)?;
        self.write_clock(text)
    }
}

impl PlainWorld {
    /// Appends the key of the world. After an `Err` some of it may be there.
    pub fn write(&self, text: &mut Vec<u8>) -> Result<(), AllocError>
        ensures { OnOk result (text.new.items ≡ text.old.items ++ plain_code self.now) }
    {
        self.rows.write(text)?;
        put(text, self.made)
    }
}

/// Plain worlds of one key are one.
pub fn keys_tell_apart()
    ensures { IsCode plain_code }
{}
