//! Where bytes go.

ghost use Rattle.std.specs.Prelude.{◌≡◌, ℕ, ◌<◌, ◌≤◌, List, Option, length};
ghost use Rattle.tp_edge.specs.Counts.{Rose};
ghost use Rattle.tp_edge.specs.Given.{IsGave};

/// What a sink answers to bytes that it is given.
#[derive(Clone, Copy, Debug, PartialEq, Eq)]
pub enum Gave {
    /// The first `n` of the bytes were taken, and `n` is at least 1.
    Bytes { n: usize },
    /// A fault, which the count has. Nothing was taken.
    Failed,
}

/// A sink for bytes, seen as those that it holds, where it tells them, and a count of its faults.
pub trait Sink {
    ghost holds: { Self → Option (List ℕ) };

    ghost failures: { Self → ℕ };

    /// Gives the sink `bytes`, of which there is at least one.
    ///
    /// Answers how many of them, from the first on, it took, at least 1; `Failed` only where the
    /// count of faults rose in this call, and then it holds what it held.
    fn give(&mut self, bytes: &[u8]) -> Gave
        requires { 0 < length bytes.now }
        ensures gave { IsGave (holds self.old) (holds self.new) result bytes.now }
        ensures failed { result ≡ Gave.Failed → Rose (failures self.old) (failures self.new) }
        ensures never_falls { failures self.old ≤ failures self.new };

    /// How many faults there have been. A count that stands at its highest stays there.
    fn faults(&self) -> u64
        ensures { result ≡ failures self.now };
}
