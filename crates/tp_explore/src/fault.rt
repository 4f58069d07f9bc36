//! What may go wrong in an order.

ghost use Rattle.std.specs.Prelude.{◌≡◌, ◌↔◌, IsTrue};
ghost use Rattle.tp_explore.specs.SameFaults.{is_passed, is_same_fault, is_same_kind, is_same_left};

use tp_base::answers::Refusal;
use tp_model::Left;

/// A fault that an entry of an order brings.
#[derive(Clone, Copy)]
pub struct Fault {
    pub kind: FaultKind,
    /// The line of the script at which it is told, from 1.
    pub line: u32,
}

impl Fault {
    /// Whether it is the same fault: one of this kind, with all that it names, at this line.
    pub fn is_same(&self, other: &Fault) -> bool
        ensures value { result ≡ is_same_fault self.now other.now }
        ensures same { IsTrue result ↔ (self.now ≡ other.now) }
    {
        is_same_kind(self.kind, other.kind) && self.line == other.line
    }

    /// Whether it is one of those that are passed over.
    pub fn is_passed(&self, passed: &[Fault]) -> bool
        ensures { result ≡ is_passed passed.now self.now }
    {
        passed.iter().any(|other| self.is_same(other))
    }
}

/// The kind of a fault.
#[derive(Clone, Copy)]
pub enum FaultKind {
    /// An operation is refused. Told at the operation.
    Refused(Refusal),
    /// A wait ends since nobody can go on. Told at the operation that began the wait.
    Stalled,
    /// A callback runs, or begins, which may not any more. Told at the `quiet`.
    NotQuiet,
    /// A use begins of a memory that was freed. Told at the `use`.
    UseAfterFree,
    /// A memory is freed that was freed before. Told at the second `free`.
    FreedTwice,
    /// A memory is freed while a use of it goes on. Told at the `free`.
    FreedInUse,
    /// All is done, and an operation of an I/O object was announced and never came to its end. Told at the object.
    Left(Left),
}

fn is_same_kind(a: FaultKind, b: FaultKind) -> bool
    ensures { result ≡ is_same_kind a b }
{
    match (a, b) {
        (FaultKind::Refused(a), FaultKind::Refused(b)) => a == b,
        (FaultKind::Left(a), FaultKind::Left(b)) => is_same_left(a, b),
        (FaultKind::Stalled, FaultKind::Stalled)
        | (FaultKind::NotQuiet, FaultKind::NotQuiet)
        | (FaultKind::UseAfterFree, FaultKind::UseAfterFree)
        | (FaultKind::FreedTwice, FaultKind::FreedTwice)
        | (FaultKind::FreedInUse, FaultKind::FreedInUse) => true,
        _ => false,
    }
}

fn is_same_left(a: Left, b: Left) -> bool
    ensures { result ≡ is_same_left a b }
{
    matches!(
        (a, b),
        (Left::Expected, Left::Expected)
            | (Left::Issued, Left::Issued)
            | (Left::Pending, Left::Pending)
    )
}
