//! The calls that the lines of a script make.

ghost use Rattle.std.specs.Prelude.{◌≡◌, ◌≤◌, ◌<◌, ◌^◌, IfSome};
ghost use Rattle.tp_base.specs.Ranges.{IsCallInRange, IsDueInRange, IsEnvironInRange, IsNamedInRange, IsRoutineInRange, count_most};
ghost use Rattle.tp_base.specs.Timers.{clock_end};
ghost use Rattle.tp_script.specs.Calls.{IsOfPart, action_of_sort, acts, armed_by, begins_wait, call_of, calls_in, environ_by, id_of, is_asked, is_met, kernel_of, kind_of_sort, level_of, local_number, lock_of_sort, maximum_of, number_at, object_at, operation_at, poll_by, pool_call, routine_by, small_of, ticks_of, units_of};

use crate::routines::Progress;
use script_lines::{Condition, Line, Meaning, Sort, Word};
use tp_base::answers::{ActionKind, Answer};
use tp_base::calls::{CLOCK_END, Call, Environ, Kind, Lock};
use tp_base::ids::{GroupId, KernelId, ObjectId, PoolId, RoutineId};

/// The next call of a line, in a part that has come so far.
#[inline(always)]
pub fn call_of(line: &Line, at: &Progress) -> Option<Call>
    ensures value { result ≡ call_of line.now at.now }
    ensures in_range { IfSome result IsCallInRange }
    ensures of_part { IfSome result IsOfPart }
{
    match line.head {
        Word::Pool => Some(pool_call(*line, at.done)),
        Word::Group => Some(Call::CreateGroup),
        Word::Event => Some(Call::CreateEvent {
            manual: line.manual,
            signalled: line.signalled,
        }),
        Word::Semaphore => Some(Call::CreateSemaphore {
            initial: level_of(line.before),
            maximum: level_of(line.number),
        }),
        Word::Mutex => Some(Call::CreateLock {
            lock: Lock::Mutex,
            owned: false,
        }),
        Word::Section => Some(Call::CreateLock {
            lock: Lock::Section,
            owned: false,
        }),
        Word::Object(kind) => Some(Call::Create {
            kind,
            routine: routine_by(*line),
            context: same(line.number),
            env: environ_by(*line),
        }),
        Word::Submit => Some(Call::SubmitWork {
            object: object_at(*line, at),
        }),
        Word::Simple => Some(Call::SubmitSimple {
            routine: routine_by(*line),
            context: same(line.number),
            env: environ_by(*line),
        }),
        Word::SetTimer => Some(Call::SetTimer {
            object: object_at(*line, at),
            due: same_due(line.due),
            period: small_of(line.before),
            window: small_of(line.number),
        }),
        Word::SetTimerEx => Some(Call::SetTimerEx {
            object: object_at(*line, at),
            due: same_due(line.due),
            period: small_of(line.before),
            window: small_of(line.number),
        }),
        Word::IsTimerSet => Some(Call::IsTimerSet {
            object: object_at(*line, at),
        }),
        Word::SetWait => Some(Call::SetWait {
            object: object_at(*line, at),
            kernel: armed_by(*line),
            timeout: same_due(line.due),
        }),
        Word::StartIo => Some(Call::StartIo {
            object: object_at(*line, at),
        }),
        Word::CancelIo => Some(Call::CancelIo {
            object: object_at(*line, at),
        }),
        Word::IssueIo => Some(Call::IssueIo {
            object: object_at(*line, at),
        }),
        Word::CompleteIo => Some(Call::CompleteIo {
            callback: operation_at(*line, at),
            error: small_of(line.before),
            bytes: same(line.number),
        }),
        Word::CompleteNext => Some(Call::CompleteNext {
            object: object_at(*line, at),
            error: small_of(line.before),
            bytes: same(line.number),
        }),
        Word::Let => Some(Call::Create {
            kind: line.kind,
            routine: routine_by(*line),
            context: same(line.number),
            env: environ_by(*line),
        }),
        Word::Close => Some(Call::CloseObject {
            kind: kind_of_sort(line.object.sort),
            object: object_at(*line, at),
        }),
        Word::BeginWait => Some(Call::BeginWait {
            kind: kind_of_sort(line.object.sort),
            object: object_at(*line, at),
            cancel: line.cancels,
        }),
        Word::CloseMembers => Some(Call::BeginClose {
            group: group_of(line.group),
            cancel: line.cancels,
            context: same(line.number),
        }),
        Word::CloseGroup => Some(Call::CloseGroup {
            group: group_of(line.group),
        }),
        Word::ClosePool => Some(Call::ClosePool {
            pool: pool_of(line.pool),
        }),
        Word::SetMaximum => Some(Call::SetMaximum {
            pool: pool_of(line.pool),
            value: small_of(line.number),
        }),
        Word::SetMinimum => Some(Call::SetMinimum {
            pool: pool_of(line.pool),
            value: small_of(line.number),
        }),
        Word::SetEvent => Some(Call::SetEvent {
            kernel: kernel_of(*line),
        }),
        Word::ResetEvent => Some(Call::ResetEvent {
            kernel: kernel_of(*line),
        }),
        Word::ReleaseSemaphore => Some(Call::ReleaseSemaphore {
            kernel: kernel_of(*line),
            count: units_of(line.number),
        }),
        Word::Release => Some(Call::ReleaseLock {
            lock: lock_of_sort(line.kernel.sort),
            kernel: kernel_of(*line),
        }),
        Word::Acquire => Some(Call::BeginAcquire {
            kernel: kernel_of(*line),
        }),
        Word::TryAcquire => Some(Call::TryAcquire {
            kernel: kernel_of(*line),
        }),
        Word::Advance => Some(Call::Advance {
            ticks: if line.number <= CLOCK_END {
                line.number
            } else {
                0
            },
        }),
        Word::MayRunLong => Some(Call::MayRunLong),
        Word::Disassociate => Some(Call::Disassociate),
        Word::OnReturn => Some(Call::OnReturn {
            kind: action_of_sort(line.kernel.sort),
            kernel: kernel_of(*line),
            count: units_of(line.number),
        }),
        _ => None,
    }
}

// What is passed by itself is known to be in the range of its type.

fn same(number: u64) -> u64
    ensures value { result ≡ number }
    ensures in_range { result < 2 ^ 64 }
{
    number
}

fn same_due(due: Option<i64>) -> Option<i64>
    ensures value { result ≡ due }
    ensures in_range { IsDueInRange result }
{
    due
}

// The calls of a pool's declaration: the pool, its maximum, its minimum.
fn pool_call(line: Line, done: u32) -> Call
    ensures value { result ≡ pool_call line done }
    ensures in_range { IsCallInRange result }
    ensures of_part { IsOfPart result }
{
    if done == 0 {
        Call::CreatePool
    } else if done == 1 && line.maximum {
        Call::SetMaximum {
            pool: pool_of(line.made),
            value: small_of(if line.minimum {
                line.before
            } else {
                line.number
            }),
        }
    } else {
        Call::SetMinimum {
            pool: pool_of(line.made),
            value: small_of(line.number),
        }
    }
}

/// Whether a kernel object is asked before the line's operation.
pub fn is_asked(condition: Condition) -> bool
    ensures { result ≡ is_asked condition }
{
    !matches!(condition, Condition::Always)
}

/// The poll that asks it.
pub fn poll_by(condition: Condition) -> Option<Call>
    ensures value { result ≡ poll_by condition }
    ensures in_range { IfSome result IsCallInRange }
    ensures of_part { IfSome result IsOfPart }
{
    match condition {
        Condition::Always => None,
        Condition::If(kernel) | Condition::Unless(kernel) => Some(Call::TryAcquire {
            kernel: KernelId(u32::from(kernel)),
        }),
    }
}

/// Whether the operation is made behind this answer to the poll.
pub fn is_met(condition: Condition, answer: Answer) -> bool
    ensures { result ≡ is_met condition answer }
{
    match (condition, answer) {
        (Condition::If(_), Answer::Flag { value }) => value,
        (Condition::Unless(_), Answer::Flag { value }) => !value,
        _ => false,
    }
}

/// How many calls a line makes, a wait and its end as one, and a poll and what it is asked for as one.
pub fn calls_in(line: Line) -> u32
    ensures { result ≡ calls_in line }
{
    match line.head {
        Word::Pool => 1 + u32::from(line.maximum) + u32::from(line.minimum),
        _ => u32::from(line.times),
    }
}

/// Whether the line's call begins a wait, which `End` ends.
pub fn begins_wait(head: Word) -> bool
    ensures { result ≡ begins_wait head }
{
    matches!(head, Word::BeginWait | Word::CloseMembers | Word::Acquire)
}

/// Whether a part goes on with the line: one that begins a routine or a client or ends it makes no call.
pub fn acts(head: Word) -> bool
    ensures { result ≡ acts head }
{
    !matches!(head, Word::Routine | Word::Client | Word::Done)
}

// What a script can say is in the ranges of calls, and stays as it is.

fn small_of(number: u64) -> u32
    ensures { result ≡ small_of number }
{
    if number <= 4_294_967_295 {
        number as u32
    } else {
        0
    }
}

fn level_of(number: u64) -> u32
    ensures value { result ≡ level_of number }
    ensures in_range { result ≤ count_most }
{
    if number <= 2_147_483_647 {
        number as u32
    } else {
        0
    }
}

fn units_of(number: u64) -> u32
    ensures value { result ≡ units_of number }
    ensures least { 1 ≤ result }
    ensures most { result ≤ count_most }
{
    if 1 <= number && number <= 2_147_483_647 {
        number as u32
    } else {
        1
    }
}

fn routine_by(line: Line) -> RoutineId
    ensures value { result ≡ routine_by line }
    ensures in_range { IsRoutineInRange result.0 }
{
    RoutineId(if line.routine < 1 {
        1
    } else {
        u32::from(line.routine)
    })
}

fn pool_of(number: u16) -> PoolId
    ensures value { result.0 ≡ number }
    ensures in_range { result.0 ≤ 65535 }
{
    PoolId(u32::from(number))
}

fn group_of(number: u16) -> GroupId
    ensures value { result.0 ≡ number }
    ensures in_range { result.0 ≤ 65535 }
{
    GroupId(u32::from(number))
}

// Without a group there is no cancel routine.
fn environ_by(line: Line) -> Environ
    ensures value { result ≡ environ_by line }
    ensures in_range { IsEnvironInRange result }
{
    Environ {
        pool: PoolId(u32::from(line.pool)),
        group: GroupId(u32::from(line.group)),
        cancel: RoutineId(if line.group == 0 {
            0
        } else {
            u32::from(line.cancel)
        }),
        priority: line.priority,
        long: line.long,
        persistent: line.persistent,
    }
}

fn kernel_of(line: Line) -> KernelId
    ensures value { result ≡ kernel_of line }
    ensures in_range { result.0 ≤ 65535 }
{
    KernelId(u32::from(line.kernel.number))
}

fn armed_by(line: Line) -> Option<KernelId>
    ensures value { result ≡ armed_by line }
    ensures in_range { IsNamedInRange result }
{
    if line.kernel.number == 0 {
        None
    } else {
        Some(kernel_of(line))
    }
}

fn object_at(line: Line, at: &Progress) -> ObjectId
    ensures value { result ≡ object_at line at.now }
    ensures in_range { result.0 ≤ 65535 }
{
    let number = number_at(line.object, &at.locals);
    ObjectId(if number <= 65_535 { number as u32 } else { 0 })
}

// Each name of an operation is local.
fn operation_at(line: Line, at: &Progress) -> u64
    ensures { result ≡ operation_at line at.now }
{
    local_number(line.object.number, &at.operations)
}

/// The number that a name stands for, where the local names of its sort stand for these.
pub fn number_at(meaning: Meaning, names: &[u64; 32]) -> u64
    ensures { result ≡ number_at meaning names.now }
{
    if meaning.local {
        local_number(meaning.number, names)
    } else {
        u64::from(meaning.number)
    }
}

fn local_number(number: u16, names: &[u64; 32]) -> u64
    ensures { result ≡ local_number number names.now }
{
    if 1 <= number && number <= 32 {
        names[usize::from(number - 1)]
    } else {
        0
    }
}

fn kind_of_sort(sort: Sort) -> Kind
    ensures { result ≡ kind_of_sort sort }
{
    match sort {
        Sort::Timer => Kind::Timer,
        Sort::Wait => Kind::Wait,
        Sort::Io => Kind::Io,
        _ => Kind::Work,
    }
}

fn lock_of_sort(sort: Sort) -> Lock
    ensures { result ≡ lock_of_sort sort }
{
    match sort {
        Sort::Section => Lock::Section,
        _ => Lock::Mutex,
    }
}

fn action_of_sort(sort: Sort) -> ActionKind
    ensures { result ≡ action_of_sort sort }
{
    match sort {
        Sort::Mutex => ActionKind::Mutex,
        Sort::Semaphore => ActionKind::Semaphore,
        Sort::Event => ActionKind::Event,
        _ => ActionKind::Section,
    }
}
