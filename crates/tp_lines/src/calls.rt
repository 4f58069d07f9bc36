//! Reading and printing of calls and of who makes them.

ghost use Rattle.std.specs.Prelude.{◌≡◌, ◌+◌, ◌≤◌, [], ◌∷◌, ◌++◌, length, take};
ghost use Rattle.line_grammar.specs.Language.{IsRead};
ghost use Rattle.tp_lines.specs.Calls.{CallLines, CallTexts, WhoTexts, call_at, environ_at, environ_parts, row_of};
ghost use Rattle.tp_lines.specs.Parts.{parts_text, row_text};
ghost use Rattle.tp_lines.specs.Words.{text_of_who};
ghost use Rattle.tp_lines.specs.Writing.{IsPut};

use crate::line::parts;
use crate::parts::{Part, Parts};
use crate::put::row;
use crate::rows::read_parts;
use crate::words::{Field, Word};
use crate::{line, put};
use line_grammar::numbers::read_prefixed;
use line_grammar::words::behind;
use tp_base::calls::{Call, Environ};
use tp_base::ids::{GroupId, KernelId, ObjectId, PoolId, RoutineId, Who};

/// The call of a row, where its word is one of a call.
fn call_at(word: Word, parts: &Parts) -> Option<Call>
    ensures { result ≡ call_at word parts.now }
{
    let call = match word {
        Word::CreatePool => Call::CreatePool,
        Word::ClosePool => Call::ClosePool {
            pool: PoolId(parts.at(1).small()),
        },
        Word::SetMaximum => Call::SetMaximum {
            pool: PoolId(parts.at(1).small()),
            value: parts.at(2).small(),
        },
        Word::SetMinimum => Call::SetMinimum {
            pool: PoolId(parts.at(1).small()),
            value: parts.at(2).small(),
        },
        Word::CreateGroup => Call::CreateGroup,
        Word::CloseGroup => Call::CloseGroup {
            group: GroupId(parts.at(1).small()),
        },
        Word::CloseMembers => Call::BeginClose {
            group: GroupId(parts.at(1).small()),
            cancel: parts.at(2).cancels(),
            context: parts.at(3).large(),
        },
        Word::Create => Call::Create {
            kind: parts.at(1).kind(),
            routine: RoutineId(parts.at(2).small()),
            context: parts.at(3).large(),
            env: environ_at(parts, 4),
        },
        Word::CloseObject => Call::CloseObject {
            kind: parts.at(1).kind(),
            object: ObjectId(parts.at(2).small()),
        },
        Word::SubmitSimple => Call::SubmitSimple {
            routine: RoutineId(parts.at(1).small()),
            context: parts.at(2).large(),
            env: environ_at(parts, 3),
        },
        Word::Submit => Call::SubmitWork {
            object: ObjectId(parts.at(1).small()),
        },
        Word::SetTimer => Call::SetTimer {
            object: ObjectId(parts.at(1).small()),
            due: parts.at(2).due(),
            period: parts.at(3).small(),
            window: parts.at(4).small(),
        },
        Word::SetTimerEx => Call::SetTimerEx {
            object: ObjectId(parts.at(1).small()),
            due: parts.at(2).due(),
            period: parts.at(3).small(),
            window: parts.at(4).small(),
        },
        Word::IsTimerSet => Call::IsTimerSet {
            object: ObjectId(parts.at(1).small()),
        },
        Word::Advance => Call::Advance {
            ticks: parts.at(1).large(),
        },
        Word::SetWait => Call::SetWait {
            object: ObjectId(parts.at(1).small()),
            kernel: parts.at(2).named(),
            timeout: parts.at(3).due(),
        },
        Word::StartIo => Call::StartIo {
            object: ObjectId(parts.at(1).small()),
        },
        Word::IssueIo => Call::IssueIo {
            object: ObjectId(parts.at(1).small()),
        },
        Word::CancelIo => Call::CancelIo {
            object: ObjectId(parts.at(1).small()),
        },
        Word::CompleteIo => Call::CompleteIo {
            callback: parts.at(1).large(),
            error: parts.at(2).small(),
            bytes: parts.at(3).large(),
        },
        Word::CompleteNext => Call::CompleteNext {
            object: ObjectId(parts.at(1).small()),
            error: parts.at(2).small(),
            bytes: parts.at(3).large(),
        },
        Word::BeginWait => Call::BeginWait {
            kind: parts.at(1).kind(),
            object: ObjectId(parts.at(2).small()),
            cancel: parts.at(3).cancels(),
        },
        Word::BeginAcquire => Call::BeginAcquire {
            kernel: KernelId(parts.at(1).small()),
        },
        Word::TryAcquire => Call::TryAcquire {
            kernel: KernelId(parts.at(1).small()),
        },
        Word::End => Call::End,
        Word::CreateEvent => Call::CreateEvent {
            manual: parts.at(1).manual(),
            signalled: parts.at(2).signalled(),
        },
        Word::CreateSemaphore => Call::CreateSemaphore {
            initial: parts.at(1).small(),
            maximum: parts.at(2).small(),
        },
        Word::CreateLock => Call::CreateLock {
            lock: parts.at(1).lock(),
            owned: parts.at(2).owned(),
        },
        Word::SetEvent => Call::SetEvent {
            kernel: KernelId(parts.at(1).small()),
        },
        Word::ResetEvent => Call::ResetEvent {
            kernel: KernelId(parts.at(1).small()),
        },
        Word::ReleaseSemaphore => Call::ReleaseSemaphore {
            kernel: KernelId(parts.at(1).small()),
            count: parts.at(2).small(),
        },
        Word::ReleaseLock => Call::ReleaseLock {
            lock: parts.at(1).lock(),
            kernel: KernelId(parts.at(2).small()),
        },
        Word::Attach => Call::Attach,
        Word::Detach => Call::Detach,
        Word::Take => Call::Take,
        Word::Return => Call::Return,
        Word::MayRunLong => Call::MayRunLong,
        Word::Disassociate => Call::Disassociate,
        Word::OnReturn => Call::OnReturn {
            kind: parts.at(1).action(),
            kernel: KernelId(parts.at(2).small()),
            count: parts.at(3).small(),
        },
        Word::Finish => Call::Finish,
        _ => return None,
    };
    Some(call)
}

// The environment that stands from an index on.
fn environ_at(parts: &Parts, index: usize) -> Environ
    requires { index ≤ 10 }
    ensures { result ≡ environ_at parts.now index }
{
    Environ {
        pool: PoolId(parts.at(index).small()),
        group: GroupId(parts.at(index + 3).small()),
        cancel: RoutineId(parts.at(index + 4).small()),
        priority: parts.at(index + 1).priority(),
        long: parts.at(index + 2).long(),
        persistent: parts.at(index + 2).persistent(),
    }
}

/// Reads a call with the space before it.
pub(crate) fn read_call(text: &[u8]) -> Result<(Call, usize), usize>
    ensures { IsRead CallTexts text.now result }
{
    let mut parts = Parts::new();
    match read_parts(&[Field::Call], text, &mut parts) {
        Err(place) => Err(place),
        Ok(size) => match call_at(parts.at(0).word(), &parts) {
            Some(call) => Ok((call, size)),
            None => unreachable!(),
        },
    }
}

/// Reads an actor, to which more may be added: `c` and the number of a client from 1 to 16, or `w` and that of a
/// worker from 1 to 64. `Err` has the place up to which the text goes along with one.
pub fn read_who(text: &[u8]) -> Result<(Who, usize), usize>
    ensures { IsRead WhoTexts text.now result }
{
    match behind(b'w', text) {
        Some(_) => match read_prefixed(b'w', text, 1, 64) {
            Ok((number, size)) => Ok((Who::Worker(number as u32), size)),
            Err(place) => Err(place),
        },
        None => match read_prefixed(b'c', text, 1, 16) {
            Ok((number, size)) => Ok((Who::Client(number as u32), size)),
            Err(place) => Err(place),
        },
    }
}

/// Reads an actor and its call, to which more may be added.
pub fn read_call_line(text: &[u8]) -> Result<((Who, Call), usize), usize>
    ensures { IsRead CallLines text.now result }
{
    match read_who(text) {
        Err(place) => Err(place),
        Ok((who, size)) => {
            let (_, rest) = text.split_at(size);
            match read_call(rest) {
                Err(place) => Err(size + place),
                Ok((call, more)) => Ok(((who, call), size + more)),
            }
        }
    }
}

/// Writes an actor from an index on, and the space behind it, and tells where they end.
pub fn put_who(who: Who, out: &mut [u8], at: usize) -> usize
    requires { at + 22 ≤ length out.old }
    ensures text { take result out.new ≡ take at out.old ++ text_of_who who ++ 32 ∷ [] }
    ensures least { at ≤ result }
    ensures most { result ≤ at + 22 }
{
    let (letter, number) = match who {
        Who::Client(number) => (b'c', number),
        Who::Worker(number) => (b'w', number),
    };
    let start = line::byte(letter, out, at);
    let end = line::digits(u64::from(number), out, start);
    line::byte(b' ', out, end)
}

/// Writes a call from an index on, and tells where it ends.
pub fn put_call(call: &Call, out: &mut [u8], at: usize) -> usize
    requires { at + 234 ≤ length out.old }
    ensures text { take result out.new ≡ take at out.old ++ row_text (row_of call.now) }
    ensures least { at ≤ result }
    ensures most { result ≤ at + 234 }
{
    let word = word_of(call);
    // Where the word is known, so is its size. These are the calls that most lines have.
    match call {
        Call::SubmitWork {
            object: ObjectId(number),
        } => row!(out, at; Word::Submit, number(u64::from(*number))),
        Call::Take => line::first(Word::Take, out, at),
        Call::Return => line::first(Word::Return, out, at),
        Call::End => line::first(Word::End, out, at),
        Call::MayRunLong => line::first(Word::MayRunLong, out, at),
        Call::BeginAcquire {
            kernel: KernelId(number),
        } => row!(out, at; Word::BeginAcquire, number(u64::from(*number))),
        Call::CreatePool
        | Call::CreateGroup
        | Call::Attach
        | Call::Detach
        | Call::Disassociate
        | Call::Finish => line::first(word, out, at),
        Call::ClosePool {
            pool: PoolId(number),
        }
        | Call::CloseGroup {
            group: GroupId(number),
        }
        | Call::IsTimerSet {
            object: ObjectId(number),
        }
        | Call::StartIo {
            object: ObjectId(number),
        }
        | Call::IssueIo {
            object: ObjectId(number),
        }
        | Call::CancelIo {
            object: ObjectId(number),
        }
        | Call::TryAcquire {
            kernel: KernelId(number),
        }
        | Call::SetEvent {
            kernel: KernelId(number),
        }
        | Call::ResetEvent {
            kernel: KernelId(number),
        } => row!(out, at; word, number(u64::from(*number))),
        Call::Advance { ticks } => row!(out, at; word, number(*ticks)),
        Call::SetMaximum {
            pool: PoolId(first),
            value: second,
        }
        | Call::SetMinimum {
            pool: PoolId(first),
            value: second,
        }
        | Call::CreateSemaphore {
            initial: first,
            maximum: second,
        }
        | Call::ReleaseSemaphore {
            kernel: KernelId(first),
            count: second,
        } => row!(out, at; word, number(u64::from(*first)) number(u64::from(*second))),
        Call::BeginClose {
            group,
            cancel,
            context,
        } =>
            row!(out, at; word, number(u64::from(group.0)) word(Word::How(*cancel)) lettered(b'y', *context)),
        Call::Create {
            kind,
            routine,
            context,
            env,
        } => {
            let end = parts!(out, at; first(word) word(Word::Kind(*kind)));
            put_routine(*routine, *context, env, out, end)
        }
        Call::CloseObject { kind, object } =>
            row!(out, at; word, word(Word::Kind(*kind)) number(u64::from(object.0))),
        Call::SubmitSimple {
            routine,
            context,
            env,
        } => {
            let end = line::first(word, out, at);
            put_routine(*routine, *context, env, out, end)
        },
        Call::SetTimer {
            object,
            due,
            period,
            window,
        }
        | Call::SetTimerEx {
            object,
            due,
            period,
            window,
        } =>
            row!(out, at; word, number(u64::from(object.0)) due(*due) number(u64::from(*period)) number(u64::from(*window))),
        Call::SetWait {
            object,
            kernel,
            timeout,
        } => row!(out, at; word, number(u64::from(object.0)) named(*kernel) due(*timeout)),
        Call::CompleteIo {
            callback,
            error,
            bytes,
        } => row!(out, at; word, number(*callback) number(u64::from(*error)) number(*bytes)),
        Call::CompleteNext {
            object,
            error,
            bytes,
        } =>
            row!(out, at; word, number(u64::from(object.0)) number(u64::from(*error)) number(*bytes)),
        Call::BeginWait {
            kind,
            object,
            cancel,
        } => {
            let end = row!(out, at; word, word(Word::Kind(*kind)) number(u64::from(object.0)));
            line::word(Word::How(*cancel), out, end)
        }
        Call::CreateEvent { manual, signalled } =>
            row!(out, at; word, word(Word::Reset(*manual)) word(Word::Signal(*signalled))),
        Call::CreateLock { lock, owned } =>
            row!(out, at; word, word(Word::Lock(*lock)) word(Word::Owner(*owned))),
        Call::ReleaseLock { lock, kernel } =>
            row!(out, at; word, word(Word::Lock(*lock)) number(u64::from(kernel.0))),
        Call::OnReturn {
            kind,
            kernel,
            count,
        } => {
            let end = row!(out, at; Word::OnReturn, action(*kind) number(u64::from(kernel.0)));
            line::number(u64::from(*count), out, end)
        }
    }
}

// The word of a call.
fn word_of(call: &Call) -> Word
    ensures { result ≡ (row_of call.now).0 }
{
    match call {
        Call::CreatePool => Word::CreatePool,
        Call::ClosePool { .. } => Word::ClosePool,
        Call::SetMaximum { .. } => Word::SetMaximum,
        Call::SetMinimum { .. } => Word::SetMinimum,
        Call::CreateGroup => Word::CreateGroup,
        Call::CloseGroup { .. } => Word::CloseGroup,
        Call::BeginClose { .. } => Word::CloseMembers,
        Call::Create { .. } => Word::Create,
        Call::CloseObject { .. } => Word::CloseObject,
        Call::SubmitSimple { .. } => Word::SubmitSimple,
        Call::SubmitWork { .. } => Word::Submit,
        Call::SetTimer { .. } => Word::SetTimer,
        Call::SetTimerEx { .. } => Word::SetTimerEx,
        Call::IsTimerSet { .. } => Word::IsTimerSet,
        Call::Advance { .. } => Word::Advance,
        Call::SetWait { .. } => Word::SetWait,
        Call::StartIo { .. } => Word::StartIo,
        Call::IssueIo { .. } => Word::IssueIo,
        Call::CancelIo { .. } => Word::CancelIo,
        Call::CompleteIo { .. } => Word::CompleteIo,
        Call::CompleteNext { .. } => Word::CompleteNext,
        Call::BeginWait { .. } => Word::BeginWait,
        Call::BeginAcquire { .. } => Word::BeginAcquire,
        Call::TryAcquire { .. } => Word::TryAcquire,
        Call::End => Word::End,
        Call::CreateEvent { .. } => Word::CreateEvent,
        Call::CreateSemaphore { .. } => Word::CreateSemaphore,
        Call::CreateLock { .. } => Word::CreateLock,
        Call::SetEvent { .. } => Word::SetEvent,
        Call::ResetEvent { .. } => Word::ResetEvent,
        Call::ReleaseSemaphore { .. } => Word::ReleaseSemaphore,
        Call::ReleaseLock { .. } => Word::ReleaseLock,
        Call::Attach => Word::Attach,
        Call::Detach => Word::Detach,
        Call::Take => Word::Take,
        Call::Return => Word::Return,
        Call::MayRunLong => Word::MayRunLong,
        Call::Disassociate => Word::Disassociate,
        Call::OnReturn { .. } => Word::OnReturn,
        Call::Finish => Word::Finish,
    }
}

// A routine with its context, and the environment.
fn put_routine(routine: RoutineId, context: u64, env: &Environ, out: &mut [u8], at: usize) -> usize
    requires { at + 172 ≤ length out.old }
    ensures { IsPut at out.old result out.new (parts_text (Part.Routine routine.0 ∷ Part.Context context ∷ environ_parts env.now)) 172 }
{
    parts!(out, at; lettered(b'r', u64::from(routine.0)) lettered(b'x', context) lettered(b'p', u64::from(env.pool.0)) word(Word::Priority(env.priority)) word(Word::Length { long: env.long, persistent: env.persistent }) lettered(b'g', u64::from(env.group.0)) lettered(b'q', u64::from(env.cancel.0)))
}
