//! Calls of the machine that old calls come to, and what their outcomes tell.

ghost use Rattle.std.specs.Prelude.{◌≡◌, ◌<◌, ◌^◌};
ghost use Rattle.tp_legacy.specs.Legacy.{close_call, cost_of, due_in, flag_told, is_closed, is_closing, is_refused, kind_of, number_made, set_call, taken_by, timeout_of};

use crate::LegacyCall;
use tp_base::answers::{Answer, Outcome};
use tp_base::calls::{Call, Kind};
use tp_base::ids::{KernelId, ObjectId};

/// What an object is made for, and how it is set.
#[derive(Clone, Copy)]
pub enum Setting {
    /// A wait for an event or a semaphore.
    Wait {
        kernel: KernelId,
        timeout: Option<i64>,
    },
    /// A timer, whose window is 0.
    Timer {
        due: i64,
        period: u32,
    },
}

impl Setting {
    /// The kind of the object.
    pub(crate) fn kind(self) -> Kind
        ensures { result ≡ kind_of self }
    {
        match self {
            Setting::Wait { .. } => Kind::Wait,
            Setting::Timer { .. } => Kind::Timer,
        }
    }

    /// The call that sets an object: `SetThreadpoolWait` or `SetThreadpoolTimer`.
    pub(crate) fn set(self, object: ObjectId) -> Call
        ensures { result ≡ set_call self object }
    {
        match self {
            Setting::Wait { kernel, timeout } => Call::SetWait {
                object,
                kernel: Some(kernel),
                timeout,
            },
            Setting::Timer { due, period } => Call::SetTimer {
                object,
                due: Some(due),
                period,
                window: 0,
            },
        }
    }

    /// The call that closes an object.
    pub(crate) fn close(self, object: ObjectId) -> Call
        ensures { result ≡ close_call self object }
    {
        Call::CloseObject {
            kind: self.kind(),
            object,
        }
    }
}

/// The due time of so many milliseconds from now, in units of 100 ns.
pub(crate) fn due_in(millis: u32) -> i64
    ensures { result ≡ due_in millis }
{
    if millis == 0 {
        0
    } else {
        -1 - (u64::from(millis) * 10_000 - 1) as i64
    }
}

/// The timeout of so many milliseconds, or of none.
pub(crate) fn timeout_of(millis: Option<u32>) -> Option<i64>
    ensures { result ≡ timeout_of millis }
{
    match millis {
        None => None,
        Some(millis) => Some(due_in(millis)),
    }
}

/// The number of what was made, if something was.
pub(crate) fn number_made(told: &Outcome) -> Option<u32>
    ensures { result ≡ number_made told.now }
{
    match told {
        Outcome::Done(Answer::Made { number }) => Some(*number),
        _ => None,
    }
}

/// Whether the call was refused.
pub(crate) fn is_refused(told: &Outcome) -> bool
    ensures { result ≡ is_refused told.now }
{
    matches!(told, Outcome::Done(Answer::Refused(_)))
}

/// The flag that was asked for, if it was told.
pub(crate) fn flag_told(told: &Outcome) -> Option<bool>
    ensures { result ≡ flag_told told.now }
{
    match told {
        Outcome::Done(Answer::Flag { value }) => Some(*value),
        _ => None,
    }
}

/// Whether an object was closed.
pub(crate) fn is_closed(told: &Outcome) -> bool
    ensures { result ≡ is_closed told.now }
{
    matches!(told, Outcome::Done(Answer::Closed { .. }))
}

/// Whether the members of a group were closed.
pub(crate) fn is_closing(told: &Outcome) -> bool
    ensures { result ≡ is_closing told.now }
{
    matches!(told, Outcome::Done(Answer::Closing { .. }))
}

/// The object whose callback a `Take` took, if it took one; 0 of a simple callback.
pub(crate) fn taken_by(call: &Call, told: &Outcome) -> Option<ObjectId>
    ensures { result ≡ taken_by call.now told.now }
{
    match (call, told) {
        (Call::Take, Outcome::Done(Answer::Taken { object, .. })) => Some(*object),
        _ => None,
    }
}

/// For how many entries the history has to have room before the call, or 0 where that isn't asked.
pub(crate) fn cost_of(call: &LegacyCall) -> u64
    ensures { result ≡ cost_of call.now }
{
    match call {
        LegacyCall::QueueItem { .. }
        | LegacyCall::Unregister { .. }
        | LegacyCall::CreateQueue
        | LegacyCall::DeleteTimer { .. } => 1,
        LegacyCall::ChangeTimer { .. } | LegacyCall::DeleteQueue { .. } => 2,
        LegacyCall::Register { .. }
        | LegacyCall::CreateTimer { .. }
        | LegacyCall::Pool { call: Call::Take } => 3,
        LegacyCall::Pool { .. } => 0,
    }
}
