//! Where bytes come from.

ghost use Rattle.std.specs.Prelude.{◌≡◌, ℕ, ◌<◌, ◌≤◌, List, Option, length};
ghost use Rattle.tp_edge.specs.Counts.{Rose};
ghost use Rattle.tp_edge.specs.Taken.{IsTook};

/// What a source answers to a request for bytes.
#[derive(Clone, Copy, Debug, PartialEq, Eq)]
pub enum Took {
    /// The first `n` bytes of the buffer are the next ones, and `n` is at least 1.
    Bytes { n: usize },
    /// Nothing is left.
    End,
    /// A fault, which the count has. Nothing was taken.
    Failed,
}

/// A source of bytes, seen as those that are left in it, where it tells them, and a count of its
/// faults.
pub trait Source {
    ghost left: { Self → Option (List ℕ) };

    ghost failures: { Self → ℕ };

    /// Takes the next bytes into the front of `buf`, which isn't empty.
    ///
    /// Answers how many there are, at least 1; `End` only where none are left; `Failed` only where
    /// the count of faults rose in this call. After these two what is left is as it was. The rest
    /// of `buf` may have changed.
    fn take(&mut self, buf: &mut [u8]) -> Took
        requires { 0 < length buf.old }
        ensures took { IsTook (left self.old) (left self.new) result buf.new }
        ensures failed { result ≡ Took.Failed → Rose (failures self.old) (failures self.new) }
        ensures never_falls { failures self.old ≤ failures self.new };

    /// How many faults there have been. A count that stands at its highest stays there.
    fn faults(&self) -> u64
        ensures { result ≡ failures self.now };
}
