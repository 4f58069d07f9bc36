//! Reading and printing of answers.

ghost use Rattle.std.specs.Prelude.{◌≡◌, ◌+◌, ◌≤◌, ◌++◌, length, take};
ghost use Rattle.line_grammar.specs.Language.{IsRead};
ghost use Rattle.tp_lines.specs.AnswerRows.{AnswerTexts, answer_at, refusal_at, result_at};
ghost use Rattle.tp_lines.specs.Answers.{row_of_refusal, row_of_result, text_of_answer};
ghost use Rattle.tp_lines.specs.Parts.{parts_of, parts_text};
ghost use Rattle.tp_lines.specs.Writing.{IsPut};

use crate::line;
use crate::line::parts;
use crate::parts::Parts;
use crate::put::row;
use crate::rows::read_parts;
use crate::words::{Field, Word};
use tp_base::answers::{Answer, Refusal, TakeResult};
use tp_base::ids::{ObjectId, PoolId, RoutineId};

// The result of a row that stands behind four parts of an answer.
fn result_at(word: Word, parts: &Parts) -> Option<TakeResult>
    ensures { result ≡ result_at word parts.now }
{
    let taken = match word {
        Word::Plain => TakeResult::Plain,
        Word::Object => TakeResult::WaitObject0,
        Word::Timeout => TakeResult::WaitTimeout,
        Word::Io => TakeResult::Io {
            error: parts.at(6).small(),
            bytes: parts.at(7).large(),
        },
        _ => return None,
    };
    Some(taken)
}

// The refusal of a row that stands behind the word of an answer.
fn refusal_at(word: Word, parts: &Parts) -> Option<Refusal>
    ensures { result ≡ refusal_at word parts.now }
{
    let refusal = match word {
        Word::NoSuch => Refusal::NoSuch,
        Word::WrongKind => Refusal::WrongKind,
        Word::Released => Refusal::Released,
        Word::PoolClosed => Refusal::PoolClosed,
        Word::GroupClosed => Refusal::GroupClosed,
        Word::DefaultPool => Refusal::DefaultPool,
        Word::NotWorker => Refusal::NotWorker,
        Word::NotRunning => Refusal::NotRunning,
        Word::StillRunning => Refusal::StillRunning,
        Word::InWait => Refusal::InWait,
        Word::NoWaitBegun => Refusal::NoWaitBegun,
        Word::OwnCallback => Refusal::OwnCallback,
        Word::HasMembers => Refusal::HasMembers {
            object: ObjectId(parts.at(2).small()),
        },
        Word::NotStarted => Refusal::NotStarted,
        Word::NoOperation => Refusal::NoOperation,
        Word::OperationsOutstanding => Refusal::OperationsOutstanding {
            io: ObjectId(parts.at(2).small()),
        },
        Word::SlotTaken => Refusal::SlotTaken {
            kind: parts.at(2).action(),
        },
        Word::NotOwner => Refusal::NotOwner,
        Word::OverMaximum => Refusal::OverMaximum {
            count: parts.at(2).small(),
        },
        Word::NotWaitable => Refusal::NotWaitable,
        Word::ClockEnd => Refusal::ClockEnd,
        Word::ObjectLimit => Refusal::ObjectLimit,
        Word::CallbackLimit => Refusal::CallbackLimit,
        Word::NotAttached => Refusal::NotAttached,
        Word::AlreadyAttached => Refusal::AlreadyAttached,
        _ => return None,
    };
    Some(refusal)
}

// The answer of a row, where its word is one of an answer.
fn answer_at(word: Word, parts: &Parts) -> Option<Answer>
    ensures { result ≡ answer_at word parts.now }
{
    let answer = match word {
        Word::Done => Answer::Done,
        Word::Made => Answer::Made {
            number: parts.at(1).small(),
        },
        Word::Queued => Answer::Queued {
            first: parts.at(1).large(),
            count: parts.at(2).small(),
        },
        Word::Was => Answer::WasSet {
            was: parts.at(1).flag(),
            first: parts.at(2).large(),
            count: parts.at(3).small(),
        },
        Word::Flag => Answer::Flag {
            value: parts.at(1).flag(),
        },
        Word::Freed => Answer::Closed { later: false },
        Word::Later => Answer::Closed { later: true },
        Word::Closing => Answer::Closing {
            covered: parts.at(1).small(),
            cancelled: parts.at(2).small(),
            notices: parts.at(3).small(),
        },
        Word::Begun => Answer::Begun {
            covered: parts.at(1).small(),
            cancelled: parts.at(2).small(),
        },
        Word::Ended => Answer::Ended,
        Word::Exhausted => Answer::Exhausted,
        Word::Stalled => Answer::Stalled,
        Word::Notice => Answer::Notice {
            object: ObjectId(parts.at(1).small()),
            routine: RoutineId(parts.at(2).small()),
            context: parts.at(3).large(),
            cleanup: parts.at(4).large(),
        },
        Word::Started => Answer::Started {
            callback: parts.at(1).large(),
        },
        Word::Operation => Answer::Operation {
            callback: parts.at(1).large(),
        },
        Word::Cancelled => Answer::Cancelled {
            callback: parts.at(1).large(),
        },
        Word::Count => Answer::Count {
            previous: parts.at(1).small(),
            first: parts.at(2).large(),
            count: parts.at(3).small(),
        },
        Word::Advanced => Answer::Advanced {
            now: parts.at(1).large(),
            first: parts.at(2).large(),
            count: parts.at(3).small(),
        },
        Word::Attached => Answer::Attached {
            pool: PoolId(parts.at(1).small()),
        },
        Word::Taken => Answer::Taken {
            callback: parts.at(1).large(),
            object: ObjectId(parts.at(2).small()),
            routine: RoutineId(parts.at(3).small()),
            context: parts.at(4).large(),
            result: result_at(parts.at(5).word(), parts)?,
        },
        Word::Returned => Answer::Returned {
            section: parts.at(1).slot(),
            mutex: parts.at(2).slot(),
            semaphore: parts.at(3).slot(),
            event: parts.at(4).slot(),
            first: parts.at(5).large(),
            count: parts.at(6).small(),
        },
        Word::Refused => Answer::Refused(refusal_at(parts.at(1).word(), parts)?),
        _ => return None,
    };
    Some(answer)
}

/// Reads an answer with the space before it.
pub fn read_answer(text: &[u8]) -> Result<(Answer, usize), usize>
    ensures { IsRead AnswerTexts text.now result }
{
    let mut parts = Parts::new();
    match read_parts(&[Field::Answer], text, &mut parts) {
        Err(place) => Err(place),
        Ok(size) => match answer_at(parts.at(0).word(), &parts) {
            Some(answer) => Ok((answer, size)),
            None => unreachable!(),
        },
    }
}

/// Writes an answer from an index on, and tells where it ends.
#[inline(always)]
pub fn put_answer(answer: &Answer, out: &mut [u8], at: usize) -> usize
    requires { at + 250 ≤ length out.old }
    ensures { IsPut at out.old result out.new (text_of_answer answer.now) 250 }
{
    match answer {
        Answer::Done => row!(out, at; Word::Done),
        Answer::Made { number } => row!(out, at; Word::Made, number(u64::from(*number))),
        Answer::Queued { first, count } =>
            row!(out, at; Word::Queued, number(*first) number(u64::from(*count))),
        Answer::WasSet { was, first, count } =>
            row!(out, at; Word::Was, word(Word::YesNo(*was)) number(*first) number(u64::from(*count))),
        Answer::Flag { value } => row!(out, at; Word::Flag, word(Word::YesNo(*value))),
        Answer::Closed { later: true } => row!(out, at; Word::Later),
        Answer::Closed { later: false } => row!(out, at; Word::Freed),
        Answer::Closing {
            covered,
            cancelled,
            notices,
        } =>
            row!(out, at; Word::Closing, number(u64::from(*covered)) number(u64::from(*cancelled)) number(u64::from(*notices))),
        Answer::Begun { covered, cancelled } =>
            row!(out, at; Word::Begun, number(u64::from(*covered)) number(u64::from(*cancelled))),
        Answer::Ended => row!(out, at; Word::Ended),
        Answer::Exhausted => row!(out, at; Word::Exhausted),
        Answer::Stalled => row!(out, at; Word::Stalled),
        Answer::Notice {
            object,
            routine,
            context,
            cleanup,
        } =>
            row!(out, at; Word::Notice, lettered(b'o', u64::from(object.0)) lettered(b'r', u64::from(routine.0)) lettered(b'x', *context) lettered(b'y', *cleanup)),
        Answer::Started { callback } => row!(out, at; Word::Started, number(*callback)),
        Answer::Operation { callback } => row!(out, at; Word::Operation, number(*callback)),
        Answer::Cancelled { callback } => row!(out, at; Word::Cancelled, number(*callback)),
        Answer::Count {
            previous,
            first,
            count,
        } =>
            row!(out, at; Word::Count, number(u64::from(*previous)) number(*first) number(u64::from(*count))),
        Answer::Advanced { now, first, count } =>
            row!(out, at; Word::Advanced, number(*now) number(*first) number(u64::from(*count))),
        Answer::Attached { pool } => row!(out, at; Word::Attached, number(u64::from(pool.0))),
        Answer::Taken {
            callback,
            object,
            routine,
            context,
            result: taken,
        } => {
            let end =
                row!(out, at; Word::Taken, number(*callback) lettered(b'o', u64::from(object.0)) lettered(b'r', u64::from(routine.0)) lettered(b'x', *context));
            match taken {
                TakeResult::Plain => line::word(Word::Plain, out, end),
                _ => put_result(*taken, out, end),
            }
        }
        Answer::Returned {
            section,
            mutex,
            semaphore,
            event,
            first,
            count,
        } =>
            row!(out, at; Word::Returned, slot(*section) slot(*mutex) slot(*semaphore) slot(*event) number(*first) number(u64::from(*count))),
        Answer::Refused(refusal) => {
            let end = row!(out, at; Word::Refused);
            put_refusal(*refusal, out, end)
        }
    }
}

// With what a callback is called, behind a space.
#[inline(never)]
fn put_result(taken: TakeResult, out: &mut [u8], at: usize) -> usize
    requires { at + 80 ≤ length out.old }
    ensures { IsPut at out.old result out.new (parts_text (parts_of (row_of_result taken))) 80 }
{
    match taken {
        TakeResult::Plain => line::word(Word::Plain, out, at),
        TakeResult::WaitObject0 => line::word(Word::Object, out, at),
        TakeResult::WaitTimeout => line::word(Word::Timeout, out, at),
        TakeResult::Io { error, bytes } => {
            parts!(out, at; word(Word::Io) number(u64::from(error)) number(bytes))
        }
    }
}

// Why a call was refused, behind a space.
#[inline(never)]
fn put_refusal(refusal: Refusal, out: &mut [u8], at: usize) -> usize
    requires { at + 80 ≤ length out.old }
    ensures { IsPut at out.old result out.new (parts_text (parts_of (row_of_refusal refusal))) 80 }
{
    match refusal {
        Refusal::NoSuch => line::word(Word::NoSuch, out, at),
        Refusal::WrongKind => line::word(Word::WrongKind, out, at),
        Refusal::Released => line::word(Word::Released, out, at),
        Refusal::PoolClosed => line::word(Word::PoolClosed, out, at),
        Refusal::GroupClosed => line::word(Word::GroupClosed, out, at),
        Refusal::DefaultPool => line::word(Word::DefaultPool, out, at),
        Refusal::NotWorker => line::word(Word::NotWorker, out, at),
        Refusal::NotRunning => line::word(Word::NotRunning, out, at),
        Refusal::StillRunning => line::word(Word::StillRunning, out, at),
        Refusal::InWait => line::word(Word::InWait, out, at),
        Refusal::NoWaitBegun => line::word(Word::NoWaitBegun, out, at),
        Refusal::OwnCallback => line::word(Word::OwnCallback, out, at),
        Refusal::HasMembers { object } => {
            parts!(out, at; word(Word::HasMembers) number(u64::from(object.0)))
        }
        Refusal::NotStarted => line::word(Word::NotStarted, out, at),
        Refusal::NoOperation => line::word(Word::NoOperation, out, at),
        Refusal::OperationsOutstanding { io } => {
            parts!(out, at; word(Word::OperationsOutstanding) number(u64::from(io.0)))
        }
        Refusal::SlotTaken { kind } => {
            parts!(out, at; word(Word::SlotTaken) word(Word::Action(kind)))
        }
        Refusal::NotOwner => line::word(Word::NotOwner, out, at),
        Refusal::OverMaximum { count } => {
            parts!(out, at; word(Word::OverMaximum) number(u64::from(count)))
        }
        Refusal::NotWaitable => line::word(Word::NotWaitable, out, at),
        Refusal::ClockEnd => line::word(Word::ClockEnd, out, at),
        Refusal::ObjectLimit => line::word(Word::ObjectLimit, out, at),
        Refusal::CallbackLimit => line::word(Word::CallbackLimit, out, at),
        Refusal::NotAttached => line::word(Word::NotAttached, out, at),
        Refusal::AlreadyAttached => line::word(Word::AlreadyAttached, out, at),
    }
}
