//! Where the program meets the real streams.

ghost use Rattle.std.specs.Prelude.{◌≡◌};
ghost use Rattle.tp_edge.specs.Edges.{Edge, told, IsTold};

use crate::sink::{Gave, Sink};
use crate::source::{Source, Took};
use ghost_copy::GhostCopy;
use std::io::{Read, Write};
use std::marker::Model;

/// A reader as a source, seen as the bytes that the reader tells to be left in it, and the count of
/// its faults. A read of no bytes is the end, and each error is a fault that raises the count.
#[derive(Drop)]
pub struct ReadEdge<R: Read> {
    inner: R,
    faults: u64,
    first: GhostCopy<R>,
}

impl<R: Read> Model for ReadEdge<R> {
    ghost Value = { Edge };

    ghost view = { λ edge. record { bytes = told (R.remaining edge.first.value) (R.remaining edge.inner); faults = edge.faults } };

    ghost invariant = { λ edge. IsTold (R.remaining edge.first.value) (R.remaining edge.inner) };
}

impl<R: Read> ReadEdge<R> {
    /// A source that reads from `inner`. Takes no memory.
    pub fn new(inner: R) -> Self
        ensures left { ⟦<ReadEdge<R> as Source>⟧.left result ≡ R.remaining inner }
        ensures faults { ⟦<ReadEdge<R> as Source>⟧.failures result ≡ 0 }
    {
        let first = GhostCopy::of(&inner);
        ReadEdge {
            inner,
            faults: 0,
            first,
        }
    }
}

impl<R: Read> Source for ReadEdge<R> {
    ghost left = { λ edge. edge.bytes };

    ghost failures = { λ edge. edge.faults };

    fn take(&mut self, buf: &mut [u8]) -> Took {
        match self.inner.read(buf) {
            Ok(0) => Took::End,
            Ok(n) => Took::Bytes { n },
            Err(_) => {
                self.faults = self.faults.saturating_add(1);
                Took::Failed
            }
        }
    }

    fn faults(&self) -> u64 {
        self.faults
    }
}

/// A writer as a sink, seen as the bytes that the writer tells that it holds, and the count of its
/// faults. A write of no bytes and each error is a fault that raises the count.
#[derive(Drop)]
pub struct WriteEdge<W: Write> {
    inner: W,
    faults: u64,
    first: GhostCopy<W>,
}

impl<W: Write> Model for WriteEdge<W> {
    ghost Value = { Edge };

    ghost view = { λ edge. record { bytes = told (W.contents edge.first.value) (W.contents edge.inner); faults = edge.faults } };

    ghost invariant = { λ edge. IsTold (W.contents edge.first.value) (W.contents edge.inner) };
}

impl<W: Write> WriteEdge<W> {
    /// A sink that writes to `inner`. Takes no memory.
    pub fn new(inner: W) -> Self
        ensures holds { ⟦<WriteEdge<W> as Sink>⟧.holds result ≡ W.contents inner }
        ensures faults { ⟦<WriteEdge<W> as Sink>⟧.failures result ≡ 0 }
    {
        let first = GhostCopy::of(&inner);
        WriteEdge {
            inner,
            faults: 0,
            first,
        }
    }
}

impl<W: Write> Sink for WriteEdge<W> {
    ghost holds = { λ edge. edge.bytes };

    ghost failures = { λ edge. edge.faults };

    fn give(&mut self, bytes: &[u8]) -> Gave {
        match self.inner.write(bytes) {
            Ok(0) | Err(_) => {
                self.faults = self.faults.saturating_add(1);
                Gave::Failed
            }
            Ok(n) => Gave::Bytes { n },
        }
    }

    fn faults(&self) -> u64 {
        self.faults
    }
}
