//! A source in memory that never fails.

ghost use Rattle.std.specs.Prelude.{◌≡◌, ◌≤◌, Some};

use crate::source::{Source, Took};
use std::marker::Model;

/// A source in memory whose count of faults is always 0, so it never answers `Failed`. Seen as the
/// bytes that are left and the most that one call gives.
#[derive(Drop)]
pub struct NeverFails {
    bytes: Vec<u8>,
    next: usize,
    piece: usize,
}

impl Model for NeverFails {
    ghost use Rattle.std.specs.Prelude.{◌≤◌, drop, length};
    ghost use Rattle.tp_edge.specs.Memory.{Unread};

    ghost Value = { Unread };

    ghost view = { λ source. record { left = drop source.next source.bytes.items; piece = source.piece } };

    ghost invariant = { λ source. (source.next ≤ length source.bytes.items) × (1 ≤ source.piece) };
}

impl NeverFails {
    /// A source of `bytes` that gives at most `piece` of them a call, at least 1. Takes no memory.
    pub fn new(bytes: Vec<u8>, piece: usize) -> Self
        requires { 1 ≤ piece }
        ensures left { ⟦<NeverFails as Source>⟧.left result ≡ Some bytes.items }
        ensures value { result ≡ record { left = bytes.items; piece = piece } }
    {
        NeverFails {
            bytes,
            next: 0,
            piece,
        }
    }
}

impl Source for NeverFails {
    ghost use Rattle.std.specs.Prelude.{◌≡◌, ◌<◌, ◌≤◌, Some, length};
    ghost use Rattle.tp_edge.specs.Counts.{Rose};
    ghost use Rattle.tp_edge.specs.Memory.{next_of};
    ghost use Rattle.tp_edge.specs.Taken.{IsTook};

    ghost left = { λ source. Some source.left };

    ghost failures = { λ _. 0 };

    fn take(&mut self, buf: &mut [u8]) -> Took
        requires { 0 < length buf.old }
        ensures took { IsTook (Some self.old.left) (Some self.new.left) result buf.new }
        ensures failed { result ≡ Took.Failed → Rose 0 0 }
        ensures never_falls { 0 ≤ 0 }
        ensures value { result ≡ next_of self.old (length buf.old) }
        ensures piece { self.new.piece ≡ self.old.piece }
    {
        let left = self.bytes.len() - self.next;
        if left == 0 {
            return Took::End;
        }
        let n = left.min(self.piece.min(buf.len()));
        let end = self.next + n;
        buf[..n].copy_from_slice(&self.bytes[self.next..end]);
        self.next = end;
        Took::Bytes { n }
    }

    fn faults(&self) -> u64 {
        0
    }
}
