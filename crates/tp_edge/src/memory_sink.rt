//! A sink in memory that fails at given calls.

use crate::plan::FaultPlan;
use crate::sink::{Gave, Sink};
use std::alloc::{AllocError, Global};
use std::marker::Model;

/// A sink in memory that fails at given calls and when it is full, seen as the bytes that it holds,
/// the most that it has room for, the most that one call takes, and which calls fail.
#[derive(Drop)]
pub struct MemorySink {
    bytes: Vec<u8>,
    capacity: usize,
    piece: usize,
    plan: FaultPlan,
}

impl Model for MemorySink {
    ghost use Rattle.std.specs.Prelude.{◌≤◌, length, vec_capacity};
    ghost use Rattle.tp_edge.specs.Memory.{Output};

    ghost Value = { Output };

    ghost view = { λ sink. record { held = sink.bytes.items; capacity = sink.capacity; piece = sink.piece; plan = sink.plan } };

    ghost invariant = { λ sink. (length sink.bytes.items ≤ sink.capacity) × (sink.capacity ≤ vec_capacity sink.bytes) × (1 ≤ sink.piece) };
}

impl MemorySink {
    ghost use Rattle.std.specs.Prelude.{◌≡◌, ◌≤◌, [], Some, IfOk};
    ghost use Rattle.tp_edge.specs.Plan.{fresh_plan};

    /// An empty sink that holds at most `capacity` bytes, takes at most `piece` of them a call, at
    /// least 1, and fails at the calls whose numbers, from 1, are in `failing`, and at each call
    /// that finds it full.
    ///
    /// All of its memory is taken here, and the error comes where it is refused.
    pub fn new(
        alloc: Global,
        capacity: usize,
        piece: usize,
        failing: Vec<u32>,
    ) -> Result<Self, AllocError>
        requires { 1 ≤ piece }
        ensures holds { IfOk result (λ sink. ⟦<MemorySink as Sink>⟧.holds sink ≡ Some []) }
        ensures faults { IfOk result (λ sink. ⟦<MemorySink as Sink>⟧.failures sink ≡ 0) }
        ensures value { IfOk result (λ sink. sink ≡ record { held = []; capacity = capacity; piece = piece; plan = fresh_plan failing.items }) }
    {
        Ok(MemorySink {
            bytes: Vec::with_capacity(alloc, capacity)?,
            capacity,
            piece,
            plan: FaultPlan::new(failing),
        })
    }

    /// The bytes that the sink holds.
    pub fn bytes(&self) -> &[u8]
        ensures { result.now ≡ self.now.held }
    {
        &self.bytes
    }
}

impl Sink for MemorySink {
    ghost use Rattle.std.specs.Prelude.{◌≡◌, ◌<◌, ◌≤◌, Some, length};
    ghost use Rattle.tp_edge.specs.Counts.{Rose};
    ghost use Rattle.tp_edge.specs.Given.{IsGave};
    ghost use Rattle.tp_edge.specs.Memory.{gave_of, is_full};
    ghost use Rattle.tp_edge.specs.Plan.{after_call};

    ghost holds = { λ sink. Some sink.held };

    ghost failures = { λ sink. sink.plan.faults };

    fn give(&mut self, bytes: &[u8]) -> Gave
        requires { 0 < length bytes.now }
        ensures gave { IsGave (Some self.old.held) (Some self.new.held) result bytes.now }
        ensures failed { result ≡ Gave.Failed → Rose self.old.plan.faults self.new.plan.faults }
        ensures never_falls { self.old.plan.faults ≤ self.new.plan.faults }
        ensures value { result ≡ gave_of self.old (length bytes.now) }
        ensures capacity { self.new.capacity ≡ self.old.capacity }
        ensures piece { self.new.piece ≡ self.old.piece }
        ensures plan { self.new.plan ≡ after_call self.old.plan (is_full self.old) }
    {
        let room = self.capacity - self.bytes.len();
        if self.plan.count_call(room == 0) {
            return Gave::Failed;
        }
        let n = bytes.len().min(self.piece.min(room));
        self.bytes.extend_from_slice(&bytes[..n]).unwrap();
        Gave::Bytes { n }
    }

    fn faults(&self) -> u64 {
        self.plan.faults()
    }
}
