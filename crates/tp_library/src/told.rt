//! What an answer says of what is kept beside a machine.

ghost use Rattle.std.specs.Prelude.{◌≡◌};
ghost use Rattle.std.specs.List.{range_with_len};
ghost use Rattle.tp_base.specs.declared.ids.Who.{Who as Actor};
ghost use Rattle.tp_model.specs.Laws.Entries.{made_by};
ghost use Rattle.tp_library.specs.Effecting.{effect_of, of_begun, of_cancelled, of_closed, of_closing, of_done, of_made, of_queued};

use tp_base::answers::Answer;
use tp_base::calls::Call;
use tp_base::ids::{GroupId, ObjectId};

/// What becomes of objects, clients, workers and the callbacks that were there.
#[derive(Clone, Copy)]
pub(crate) enum Effect {
    Nothing,
    /// An object is made in a group, or in none where that is 0.
    Makes { group: GroupId },
    /// An object is released.
    Releases { object: ObjectId },
    /// The objects of a group are released, and so many of its callbacks are cancelled.
    Closes { group: GroupId, cancelled: u32 },
    /// So many callbacks of an object are cancelled.
    Cancels { object: ObjectId, count: u32 },
    /// A simple callback is made, with this number.
    Submits { callback: u64 },
    /// The worker runs a callback.
    Takes { callback: u64, object: ObjectId },
    /// The worker's callback returns.
    Returns,
    /// The client finishes.
    Finishes,
}

/// What an answer of a call says.
pub(crate) fn effect_of(call: &Call, answer: &Answer) -> Effect
    ensures { result ≡ effect_of call.now answer.now }
{
    match *answer {
        Answer::Done => of_done(call),
        Answer::Made { .. } => of_made(call),
        Answer::Queued { first, .. } => of_queued(call, first),
        Answer::Closed { .. } => of_closed(call),
        Answer::Closing { cancelled, .. } => of_closing(call, cancelled),
        Answer::Begun { cancelled, .. } => of_begun(call, cancelled),
        Answer::Cancelled { .. } => of_cancelled(call),
        Answer::Taken {
            callback,
            object,
            ..
        } => Effect::Takes { callback, object },
        Answer::Returned { .. } => Effect::Returns,
        _ => Effect::Nothing,
    }
}

fn of_done(call: &Call) -> Effect
    ensures { result ≡ of_done call.now }
{
    match *call {
        Call::Finish => Effect::Finishes,
        _ => Effect::Nothing,
    }
}

fn of_made(call: &Call) -> Effect
    ensures { result ≡ of_made call.now }
{
    match *call {
        Call::Create { env, .. } => Effect::Makes { group: env.group },
        _ => Effect::Nothing,
    }
}

fn of_queued(call: &Call, callback: u64) -> Effect
    ensures { result ≡ of_queued call.now callback }
{
    match *call {
        Call::SubmitSimple { .. } => Effect::Submits { callback },
        _ => Effect::Nothing,
    }
}

fn of_closed(call: &Call) -> Effect
    ensures { result ≡ of_closed call.now }
{
    match *call {
        Call::CloseObject { object, .. } => Effect::Releases { object },
        _ => Effect::Nothing,
    }
}

fn of_closing(call: &Call, cancelled: u32) -> Effect
    ensures { result ≡ of_closing call.now cancelled }
{
    match *call {
        Call::BeginClose { group, .. } => Effect::Closes { group, cancelled },
        _ => Effect::Nothing,
    }
}

fn of_begun(call: &Call, count: u32) -> Effect
    ensures { result ≡ of_begun call.now count }
{
    match *call {
        Call::BeginWait { object, .. } => Effect::Cancels { object, count },
        _ => Effect::Nothing,
    }
}

fn of_cancelled(call: &Call) -> Effect
    ensures { result ≡ of_cancelled call.now }
{
    match *call {
        Call::CancelIo { object } => Effect::Cancels { object, count: 1 },
        _ => Effect::Nothing,
    }
}

/// The callbacks that a call made: so many, numbered from the first on.
pub(crate) fn made(call: &Call, answer: &Answer) -> (u64, u32)
    ensures { (who : Actor) → made_by (record { who = who; call = call.now; answer = answer.now }) ≡ range_with_len result.0 result.1 }
{
    match *answer {
        Answer::Started { callback } => (callback, 1),
        Answer::Queued { first, count }
        | Answer::WasSet { first, count, .. }
        | Answer::Count { first, count, .. }
        | Answer::Advanced { first, count, .. }
        | Answer::Returned { first, count, .. } => {
            // What is pending as an operation completes was made before.
            if matches!(call, Call::CompleteIo { .. } | Call::CompleteNext { .. }) {
                (0, 0)
            } else {
                (first, count)
            }
        }
        _ => (0, 0),
    }
}
