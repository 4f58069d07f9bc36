//! Calls, each with the space before it.

ghost use Rattle.std.specs.Prelude.{◌≡◌, [], ◌∷◌, ◌++◌, false, IfSome};
ghost use Rattle.line_grammar.specs.Language.{IsFront};
ghost use Rattle.tp_lines.specs.Calls.{CallTexts, FitsCall, row_of};
ghost use Rattle.tp_lines.specs.Parts.{row_text};
ghost use Rattle.tp_lines.specs.Words.{text_of_how, text_of_kind, text_of_length, text_of_priority};
ghost use Rattle.frequent_lines.specs.Environs.{IsEnvironFront};

use crate::numbers::{front_number, front_signed};
use line_grammar::words::{behind, behind_word};
use tp_base::calls::{Call, Environ, Kind, Priority};
use tp_base::ids::{GroupId, KernelId, ObjectId, PoolId, RoutineId};

const ID_MOST: u64 = 65_535;

const SMALL_MOST: u64 = 4_294_967_295;

const TIME_MOST: u64 = 9_223_372_036_854_775_807;

// A frequent call with the space before it, told by its first letters.
#[inline(always)]
pub(crate) fn front_call<'a>(text: &'a [u8], call: &mut Call) -> Option<&'a [u8]>
    ensures { IfSome result (λ rest. IsFront CallTexts text.now call.new rest.now) }
{
    match text {
        [_, b't', ..] => only_word(b" take", Call::Take, text, call),
        [_, b'r', ..] => only_word(b" return", Call::Return, text, call),
        [_, b's', b'u', ..] => submit(text, call),
        [_, b'e', ..] => only_word(b" end", Call::End, text, call),
        [_, b'a', b't', ..] => only_word(b" attach", Call::Attach, text, call),
        [_, b'a', ..] => advance(text, call),
        [_, b'd', ..] => only_word(b" detach", Call::Detach, text, call),
        _ => None,
    }
}

// Any call that is read here.
pub(crate) fn any_call<'a>(text: &'a [u8], call: &mut Call) -> Option<&'a [u8]>
    ensures { IfSome result (λ rest. IsFront CallTexts text.now call.new rest.now) }
{
    match front_call(text, call) {
        Some(rest) => Some(rest),
        None => other_call(text, call),
    }
}

// A call that is less frequent.
pub(crate) fn other_call<'a>(text: &'a [u8], call: &mut Call) -> Option<&'a [u8]>
    ensures { IfSome result (λ rest. IsFront CallTexts text.now call.new rest.now) }
{
    match text {
        [_, b's', b'e', _, _, letter, ..] => setting(*letter, text, call),
        [_, b's', ..] => start_io(text, call),
        [_, b'c', b'r', ..] => create(text, call),
        [_, b'c', b'l', ..] => close_members(text, call),
        [_, b'c', ..] => completion(text, call),
        [_, b'i', b's', b's', ..] => issue_io(text, call),
        [_, b'i', ..] => is_timer_set(text, call),
        [_, b'w', ..] => begin_wait(text, call),
        [_, b't', ..] => try_acquire(text, call),
        _ => None,
    }
}

// The word of a call that is no more than that.
#[inline(always)]
fn only_word<'a>(spelled: &[u8], meant: Call, text: &'a [u8], call: &mut Call) -> Option<&'a [u8]>
    requires spelled { spelled.now ≡ 32 ∷ row_text (row_of meant) }
    requires fits { FitsCall meant }
    ensures { IfSome result (λ rest. IsFront CallTexts text.now call.new rest.now) }
{
    let rest = behind_word(spelled, text)?;
    *call = meant;
    Some(rest)
}

// The submission of a work object.
#[inline(always)]
fn submit<'a>(text: &'a [u8], call: &mut Call) -> Option<&'a [u8]>
    ensures { IfSome result (λ rest. IsFront CallTexts text.now call.new rest.now) }
{
    let start = behind_word(b" submit ", text)?;
    let (number, rest) = front_number(start, ID_MOST)?;
    let object = ObjectId(number as u32);
    *call = Call::SubmitWork { object };
    Some(rest)
}

// The setting of a timer, of a wait object, of an event or of a pool's maximum, by the first letter of what is set.
fn setting<'a>(letter: u8, text: &'a [u8], call: &mut Call) -> Option<&'a [u8]>
    ensures { IfSome result (λ rest. IsFront CallTexts text.now call.new rest.now) }
{
    match letter {
        b't' => set_timer(text, call),
        b'w' => set_wait(text, call),
        b'e' => set_event(text, call),
        b'm' => set_maximum(text, call),
        _ => None,
    }
}

fn set_timer<'a>(text: &'a [u8], call: &mut Call) -> Option<&'a [u8]>
    ensures { IfSome result (λ rest. IsFront CallTexts text.now call.new rest.now) }
{
    let start = behind_word(b" set-timer ", text)?;
    let (object, second) = front_number(start, ID_MOST)?;
    let (due, third) = front_signed(behind(b' ', second)?)?;
    let (period, fourth) = front_number(behind(b' ', third)?, SMALL_MOST)?;
    let (window, rest) = front_number(behind(b' ', fourth)?, SMALL_MOST)?;
    *call = Call::SetTimer {
        object: ObjectId(object as u32),
        due: Some(due),
        period: period as u32,
        window: window as u32,
    };
    Some(rest)
}

fn set_maximum<'a>(text: &'a [u8], call: &mut Call) -> Option<&'a [u8]>
    ensures { IfSome result (λ rest. IsFront CallTexts text.now call.new rest.now) }
{
    let start = behind_word(b" set-maximum ", text)?;
    let (pool, second) = front_number(start, ID_MOST)?;
    let (value, rest) = front_number(behind(b' ', second)?, SMALL_MOST)?;
    let pool = PoolId(pool as u32);
    let value = value as u32;
    *call = Call::SetMaximum { pool, value };
    Some(rest)
}

#[inline(always)]
fn advance<'a>(text: &'a [u8], call: &mut Call) -> Option<&'a [u8]>
    ensures { IfSome result (λ rest. IsFront CallTexts text.now call.new rest.now) }
{
    let start = behind_word(b" advance ", text)?;
    let (ticks, rest) = front_number(start, TIME_MOST)?;
    *call = Call::Advance { ticks };
    Some(rest)
}

fn is_timer_set<'a>(text: &'a [u8], call: &mut Call) -> Option<&'a [u8]>
    ensures { IfSome result (λ rest. IsFront CallTexts text.now call.new rest.now) }
{
    let start = behind_word(b" is-timer-set ", text)?;
    let (number, rest) = front_number(start, ID_MOST)?;
    let object = ObjectId(number as u32);
    *call = Call::IsTimerSet { object };
    Some(rest)
}

fn start_io<'a>(text: &'a [u8], call: &mut Call) -> Option<&'a [u8]>
    ensures { IfSome result (λ rest. IsFront CallTexts text.now call.new rest.now) }
{
    let start = behind_word(b" start-io ", text)?;
    let (number, rest) = front_number(start, ID_MOST)?;
    let object = ObjectId(number as u32);
    *call = Call::StartIo { object };
    Some(rest)
}

fn issue_io<'a>(text: &'a [u8], call: &mut Call) -> Option<&'a [u8]>
    ensures { IfSome result (λ rest. IsFront CallTexts text.now call.new rest.now) }
{
    let start = behind_word(b" issue-io ", text)?;
    let (number, rest) = front_number(start, ID_MOST)?;
    let object = ObjectId(number as u32);
    *call = Call::IssueIo { object };
    Some(rest)
}

// The completion of an operation, which is named by its callback or is the next one of an object.
fn completion<'a>(text: &'a [u8], call: &mut Call) -> Option<&'a [u8]>
    ensures { IfSome result (λ rest. IsFront CallTexts text.now call.new rest.now) }
{
    match complete_io(text, call) {
        Some(rest) => Some(rest),
        None => complete_next(text, call),
    }
}

fn complete_io<'a>(text: &'a [u8], call: &mut Call) -> Option<&'a [u8]>
    ensures { IfSome result (λ rest. IsFront CallTexts text.now call.new rest.now) }
{
    let start = behind_word(b" complete-io ", text)?;
    let (callback, second) = front_number(start, u64::MAX)?;
    let (error, third) = front_number(behind(b' ', second)?, SMALL_MOST)?;
    let (bytes, rest) = front_number(behind(b' ', third)?, u64::MAX)?;
    let error = error as u32;
    *call = Call::CompleteIo {
        callback,
        error,
        bytes,
    };
    Some(rest)
}

fn complete_next<'a>(text: &'a [u8], call: &mut Call) -> Option<&'a [u8]>
    ensures { IfSome result (λ rest. IsFront CallTexts text.now call.new rest.now) }
{
    let start = behind_word(b" complete-next ", text)?;
    let (object, second) = front_number(start, ID_MOST)?;
    let (error, third) = front_number(behind(b' ', second)?, SMALL_MOST)?;
    let (bytes, rest) = front_number(behind(b' ', third)?, u64::MAX)?;
    *call = Call::CompleteNext {
        object: ObjectId(object as u32),
        error: error as u32,
        bytes,
    };
    Some(rest)
}

fn set_event<'a>(text: &'a [u8], call: &mut Call) -> Option<&'a [u8]>
    ensures { IfSome result (λ rest. IsFront CallTexts text.now call.new rest.now) }
{
    let start = behind_word(b" set-event ", text)?;
    let (number, rest) = front_number(start, ID_MOST)?;
    let kernel = KernelId(number as u32);
    *call = Call::SetEvent { kernel };
    Some(rest)
}

fn try_acquire<'a>(text: &'a [u8], call: &mut Call) -> Option<&'a [u8]>
    ensures { IfSome result (λ rest. IsFront CallTexts text.now call.new rest.now) }
{
    let start = behind_word(b" try-acquire ", text)?;
    let (number, rest) = front_number(start, ID_MOST)?;
    let kernel = KernelId(number as u32);
    *call = Call::TryAcquire { kernel };
    Some(rest)
}

// The setting of a wait object for a kernel object, with a timeout.
fn set_wait<'a>(text: &'a [u8], call: &mut Call) -> Option<&'a [u8]>
    ensures { IfSome result (λ rest. IsFront CallTexts text.now call.new rest.now) }
{
    let start = behind_word(b" set-wait ", text)?;
    let (object, second) = front_number(start, ID_MOST)?;
    let (kernel, third) = front_number(behind(b' ', second)?, ID_MOST)?;
    let (timeout, rest) = front_signed(behind(b' ', third)?)?;
    *call = Call::SetWait {
        object: ObjectId(object as u32),
        kernel: Some(KernelId(kernel as u32)),
        timeout: Some(timeout),
    };
    Some(rest)
}

// The begin of a close of a group's members.
fn close_members<'a>(text: &'a [u8], call: &mut Call) -> Option<&'a [u8]>
    ensures { IfSome result (λ rest. IsFront CallTexts text.now call.new rest.now) }
{
    let start = behind_word(b" close-members ", text)?;
    let (group, second) = front_number(start, ID_MOST)?;
    let (cancel, third) = front_how(second)?;
    let (context, rest) = front_number(behind_word(b" y", third)?, u64::MAX)?;
    *call = Call::BeginClose {
        group: GroupId(group as u32),
        cancel,
        context,
    };
    Some(rest)
}

// The making of an object.
fn create<'a>(text: &'a [u8], call: &mut Call) -> Option<&'a [u8]>
    ensures { IfSome result (λ rest. IsFront CallTexts text.now call.new rest.now) }
{
    let start = behind_word(b" create ", text)?;
    let (kind, second) = front_kind(start)?;
    let (routine, third) = front_number(behind_word(b" r", second)?, ID_MOST)?;
    if routine == 0 {
        return None;
    }
    let (context, fourth) = front_number(behind_word(b" x", third)?, u64::MAX)?;
    let (env, rest) = front_environ(fourth)?;
    *call = Call::Create {
        kind,
        routine: RoutineId(routine as u32),
        context,
        env,
    };
    Some(rest)
}

// The kind of an object.
fn front_kind(text: &[u8]) -> Option<(Kind, &[u8])>
    ensures { IfSome result (λ read. text.now ≡ text_of_kind read.0 ++ read.1.now) }
{
    match text {
        [b'w', b'o', ..] => Some((Kind::Work, behind_word(b"work", text)?)),
        [b'w', ..] => Some((Kind::Wait, behind_word(b"wait", text)?)),
        [b't', ..] => Some((Kind::Timer, behind_word(b"timer", text)?)),
        _ => Some((Kind::Io, behind_word(b"io", text)?)),
    }
}

// An environment, with the space before it.
fn front_environ(text: &[u8]) -> Option<(Environ, &[u8])>
    ensures { IfSome result (λ read. IsEnvironFront text.now read.0 read.1.now) }
{
    let (pool, second) = front_number(behind_word(b" p", text)?, ID_MOST)?;
    let (priority, third) = front_priority(behind(b' ', second)?)?;
    let (long, fourth) = front_length(third)?;
    let (group, fifth) = front_number(behind_word(b" g", fourth)?, ID_MOST)?;
    let (cancel, rest) = front_number(behind_word(b" q", fifth)?, ID_MOST)?;
    if group == 0 && cancel != 0 {
        return None;
    }
    let env = Environ {
        pool: PoolId(pool as u32),
        group: GroupId(group as u32),
        cancel: RoutineId(cancel as u32),
        priority,
        long,
        persistent: false,
    };
    Some((env, rest))
}

fn front_priority(text: &[u8]) -> Option<(Priority, &[u8])>
    ensures { IfSome result (λ read. text.now ≡ text_of_priority read.0 ++ read.1.now) }
{
    match text {
        [b'h', ..] => Some((Priority::High, behind_word(b"high", text)?)),
        [b'n', ..] => Some((Priority::Normal, behind_word(b"normal", text)?)),
        _ => Some((Priority::Low, behind_word(b"low", text)?)),
    }
}

// Whether callbacks run long, with the space before it: those that aren't persistent.
fn front_length(text: &[u8]) -> Option<(bool, &[u8])>
    ensures { IfSome result (λ read. text.now ≡ 32 ∷ text_of_length read.0 false ++ read.1.now) }
{
    if let Some(rest) = behind_word(b" short", text) {
        return Some((false, rest));
    }
    let rest = behind_word(b" long", text)?;
    Some((true, rest))
}

// The begin of a wait for a work object.
fn begin_wait<'a>(text: &'a [u8], call: &mut Call) -> Option<&'a [u8]>
    ensures { IfSome result (λ rest. IsFront CallTexts text.now call.new rest.now) }
{
    let start = behind_word(b" wait work ", text)?;
    let (number, last) = front_number(start, ID_MOST)?;
    let (cancel, rest) = front_how(last)?;
    *call = Call::BeginWait {
        kind: Kind::Work,
        object: ObjectId(number as u32),
        cancel,
    };
    Some(rest)
}

// Whether a wait cancels what is pending, with the space before it.
fn front_how(text: &[u8]) -> Option<(bool, &[u8])>
    ensures { IfSome result (λ read. text.now ≡ 32 ∷ text_of_how read.0 ++ read.1.now) }
{
    if let Some(rest) = behind_word(b" keep", text) {
        return Some((false, rest));
    }
    let rest = behind_word(b" cancel", text)?;
    Some((true, rest))
}
