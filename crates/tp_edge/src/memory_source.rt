//! A source in memory that fails at given calls.

use crate::never_fails::NeverFails;
use crate::plan::FaultPlan;
use crate::source::{Source, Took};
use std::alloc::{AllocError, Global};
use std::marker::Model;

/// A source in memory that fails at given calls, seen as the bytes that are left, the most that one
/// call gives, and which calls fail.
#[derive(Drop)]
pub struct MemorySource {
    bytes: NeverFails,
    plan: FaultPlan,
}

impl Model for MemorySource {
    ghost use Rattle.tp_edge.specs.Memory.{Input};

    ghost Value = { Input };

    ghost view = { λ source. record { unread = source.bytes; plan = source.plan } };
}

impl MemorySource {
    ghost use Rattle.std.specs.Prelude.{◌≡◌, ◌≤◌, Some, IfOk};
    ghost use Rattle.tp_edge.specs.Plan.{fresh_plan};

    /// A source of `bytes` that gives at most `piece` of them a call, at least 1, and fails at the
    /// calls whose numbers, from 1, are in `failing`.
    ///
    /// It keeps what it is given, so memory is never wanting.
    pub fn new(
        _alloc: Global,
        bytes: Vec<u8>,
        piece: usize,
        failing: Vec<u32>,
    ) -> Result<Self, AllocError>
        requires { 1 ≤ piece }
        ensures left { IfOk result (λ source. ⟦<MemorySource as Source>⟧.left source ≡ Some bytes.items) }
        ensures faults { IfOk result (λ source. ⟦<MemorySource as Source>⟧.failures source ≡ 0) }
        ensures value { result ≡ Ok (record { unread = record { left = bytes.items; piece = piece }; plan = fresh_plan failing.items }) }
    {
        Ok(MemorySource {
            bytes: NeverFails::new(bytes, piece),
            plan: FaultPlan::new(failing),
        })
    }
}

impl Source for MemorySource {
    ghost use Rattle.std.specs.Prelude.{◌≡◌, ◌<◌, ◌≤◌, Some, length, false};
    ghost use Rattle.tp_edge.specs.Counts.{Rose};
    ghost use Rattle.tp_edge.specs.Memory.{took_of};
    ghost use Rattle.tp_edge.specs.Plan.{after_call};
    ghost use Rattle.tp_edge.specs.Taken.{IsTook};

    ghost left = { λ source. Some source.unread.left };

    ghost failures = { λ source. source.plan.faults };

    fn take(&mut self, buf: &mut [u8]) -> Took
        requires { 0 < length buf.old }
        ensures took { IsTook (Some self.old.unread.left) (Some self.new.unread.left) result buf.new }
        ensures failed { result ≡ Took.Failed → Rose self.old.plan.faults self.new.plan.faults }
        ensures never_falls { self.old.plan.faults ≤ self.new.plan.faults }
        ensures value { result ≡ took_of self.old (length buf.old) }
        ensures piece { self.new.unread.piece ≡ self.old.unread.piece }
        ensures plan { self.new.plan ≡ after_call self.old.plan false }
    {
        if self.plan.count_call(false) {
            return Took::Failed;
        }
        self.bytes.take(buf)
    }

    fn faults(&self) -> u64 {
        self.plan.faults()
    }
}
