//! Worlds, as who goes through orders needs them.

ghost use Rattle.std.specs.Prelude.{◌≡◌, ◌+◌, ◌++◌, length, IfOk, OnOk};
ghost use Rattle.short_codes.specs.Codes.{number};
ghost use Rattle.renamed_worlds.specs.Closed.{closed};
ghost use Rattle.renamed_worlds.specs.Ordered.{rearranged};
ghost use Rattle.row_codes.specs.Worlds.{world_code};
ghost use Rattle.tp_base.specs.Ranges.{AreLimitsInRange};
ghost use Rattle.tp_model.specs.Changes.{changed};
ghost use Rattle.tp_model.specs.Support.Allowed.{news, IsAllowed};
ghost use Rattle.tp_model.specs.Support.Remembered.{forget};
ghost use Rattle.tp_model.specs.World.{opening};

use std::alloc::{AllocError, Global};
use tp_base::limits::Limits;
use tp_base::plans::Change;
use tp_base::rows::{CallbackRow, ClientRow, WorkerRow};
use world_reads::Reads;

/// A world whose callbacks and clients can be gone through.
pub trait Seen: Reads {
    /// Its callbacks.
    fn callbacks(&self) -> &[CallbackRow]
        ensures { result.now ≡ (Self.world_of self.now).callbacks };

    /// Its clients.
    fn clients(&self) -> &[ClientRow]
        ensures { result.now ≡ (Self.world_of self.now).clients };

    /// Its workers.
    fn workers(&self) -> &[WorkerRow]
        ensures { result.now ≡ (Self.world_of self.now).workers };
}

/// A world that begins, is copied, goes on and is told apart from others.
pub trait Moving: Seen + Drop {
    /// The world before the first call.
    fn open(alloc: Global, limits: Limits) -> Result<Self, AllocError>
        requires { AreLimitsInRange limits }
        ensures world { IfOk result (λ opened. Self.world_of opened ≡ opening limits) }
        ensures made { IfOk result (λ opened. Self.made_of opened ≡ 0) };

    /// The same world once more.
    fn copy(&self, alloc: Global) -> Result<Self, AllocError>
        ensures world { IfOk result (λ copied. Self.world_of copied ≡ Self.world_of self.now) }
        ensures made { IfOk result (λ copied. Self.made_of copied ≡ Self.made_of self.now) };

    /// How many callbacks were ever made.
    fn made(&self) -> u64
        ensures { result ≡ Self.made_of self.now };

    /// The world behind a change. An `AllocError` comes where memory is refused.
    fn apply(self, alloc: Global, change: &Change) -> Result<Self, AllocError>
        requires { IsAllowed (Self.made_of self + 1) (Self.world_of self) change.now }
        ensures world { IfOk result (λ next. Self.world_of next ≡ forget (changed (Self.world_of self) change.now)) }
        ensures made { IfOk result (λ next. Self.made_of next ≡ Self.made_of self + news change.now) };

    /// The same world with its names forgotten: its callbacks are named by their places, and it made no others.
    fn close(self) -> Self
        ensures world { Self.world_of result ≡ closed (Self.world_of self) }
        ensures made { Self.made_of result ≡ length (forget (Self.world_of self)).callbacks };

    /// Appends a text that tells apart from all others the world behind these exchanges of neighbouring workers, one after
    /// another: at a place from 0 the worker there and the next one change places. After an `Err` some of it may be there.
    fn write_behind(
        &self,
        alloc: Global,
        order: &[u16],
        text: &mut Vec<u8>,
    ) -> Result<(), AllocError>
        ensures { OnOk result (text.new.items ≡ text.old.items ++ world_code (rearranged order.now (Self.world_of self.now)) ++ number (Self.made_of self.now)) };
}
