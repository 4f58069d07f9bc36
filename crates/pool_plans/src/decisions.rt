//! What is decided of a call.
//!
//! A plan is a decision and, for an accepted call, its answer and a change. These are written only where a call is
//! accepted, each where it is read: the answer as the outcome that the call has, unless the history lacks the room.

ghost use Rattle.std.specs.Prelude.{◌≡◌};

use tp_base::answers::{Answer, Look, Outcome, Refusal};
use tp_base::plans::Change;

/// What is decided of a call.
#[derive(Clone, Copy)]
pub enum Decision {
    /// It changes nothing, for this reason.
    Refused(Refusal),
    /// Nothing happens yet.
    Looked(Look),
    /// It has the answer and makes the change that were written down.
    Accepted,
}

/// Accepts a call, and writes down its answer, as its outcome, and the change that it makes. That comes last, so
/// that who settles it knows which one it is.
#[inline(always)]
pub(crate) fn accept(
    change: &mut Change,
    outcome: &mut Outcome,
    answer: Answer,
    made: Change,
) -> Decision
    ensures decision { result ≡ Decision.Accepted }
    ensures outcome { outcome.new ≡ Outcome.Done answer }
    ensures change { change.new ≡ made }
{
    *outcome = Outcome::Done(answer);
    *change = made;
    Decision::Accepted
}
