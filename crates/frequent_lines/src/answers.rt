//! Answers, each with the space before it.

ghost use Rattle.std.specs.Prelude.{IfSome};
ghost use Rattle.line_grammar.specs.Language.{IsFront};
ghost use Rattle.tp_lines.specs.AnswerRows.{AnswerTexts};

use crate::numbers::front_number;
use line_grammar::words::{behind, behind_word};
use tp_base::answers::{Answer, Refusal, SlotWord, TakeResult};
use tp_base::ids::{ObjectId, RoutineId};

const ID_MOST: u64 = 65_535;

const TIME_MOST: u64 = 9_223_372_036_854_775_807;

// A frequent answer with the space before it, told by its first letters.
#[inline(always)]
pub(crate) fn front_answer<'a>(text: &'a [u8], answer: &mut Answer) -> Option<&'a [u8]>
    ensures { IfSome result (λ rest. IsFront AnswerTexts text.now answer.new rest.now) }
{
    match text {
        [_, b'q', ..] => queued(text, answer),
        [_, b't', ..] => taken(text, answer),
        [_, b'r', b'e', b't', ..] => returned(text, answer),
        [_, b'o', ..] => done(text, answer),
        _ => None,
    }
}

// Any answer that is read here.
pub(crate) fn any_answer<'a>(text: &'a [u8], answer: &mut Answer) -> Option<&'a [u8]>
    ensures { IfSome result (λ rest. IsFront AnswerTexts text.now answer.new rest.now) }
{
    match front_answer(text, answer) {
        Some(rest) => Some(rest),
        None => other_answer(text, answer),
    }
}

// An answer that is less frequent.
fn other_answer<'a>(text: &'a [u8], answer: &mut Answer) -> Option<&'a [u8]>
    ensures { IfSome result (λ rest. IsFront AnswerTexts text.now answer.new rest.now) }
{
    match text {
        [_, b'r', ..] => no_such(text, answer),
        [_, b'a', ..] => advanced(text, answer),
        [_, b'm', ..] => made(text, answer),
        [_, b'b', ..] => begun(text, answer),
        [_, b'e', ..] => ended(text, answer),
        [_, b'f', ..] => flag(text, answer),
        _ => None,
    }
}

fn no_such<'a>(text: &'a [u8], answer: &mut Answer) -> Option<&'a [u8]>
    ensures { IfSome result (λ rest. IsFront AnswerTexts text.now answer.new rest.now) }
{
    let rest = behind_word(b" refused no-such", text)?;
    *answer = Answer::Refused(Refusal::NoSuch);
    Some(rest)
}

fn made<'a>(text: &'a [u8], answer: &mut Answer) -> Option<&'a [u8]>
    ensures { IfSome result (λ rest. IsFront AnswerTexts text.now answer.new rest.now) }
{
    let start = behind_word(b" made ", text)?;
    let (number, rest) = front_number(start, ID_MOST)?;
    if number == 0 {
        return None;
    }
    let number = number as u32;
    *answer = Answer::Made { number };
    Some(rest)
}

fn advanced<'a>(text: &'a [u8], answer: &mut Answer) -> Option<&'a [u8]>
    ensures { IfSome result (λ rest. IsFront AnswerTexts text.now answer.new rest.now) }
{
    let start = behind_word(b" advanced ", text)?;
    let (now, second) = front_number(start, TIME_MOST)?;
    let (first, third) = front_number(behind(b' ', second)?, u64::MAX)?;
    let (count, rest) = front_number(behind(b' ', third)?, ID_MOST)?;
    let count = count as u32;
    *answer = Answer::Advanced { now, first, count };
    Some(rest)
}

fn begun<'a>(text: &'a [u8], answer: &mut Answer) -> Option<&'a [u8]>
    ensures { IfSome result (λ rest. IsFront AnswerTexts text.now answer.new rest.now) }
{
    let start = behind_word(b" begun ", text)?;
    let (covered, second) = front_number(start, ID_MOST)?;
    let (cancelled, rest) = front_number(behind(b' ', second)?, ID_MOST)?;
    let covered = covered as u32;
    let cancelled = cancelled as u32;
    *answer = Answer::Begun { covered, cancelled };
    Some(rest)
}

fn ended<'a>(text: &'a [u8], answer: &mut Answer) -> Option<&'a [u8]>
    ensures { IfSome result (λ rest. IsFront AnswerTexts text.now answer.new rest.now) }
{
    let rest = behind_word(b" ended", text)?;
    *answer = Answer::Ended;
    Some(rest)
}

fn flag<'a>(text: &'a [u8], answer: &mut Answer) -> Option<&'a [u8]>
    ensures { IfSome result (λ rest. IsFront AnswerTexts text.now answer.new rest.now) }
{
    if let Some(rest) = behind_word(b" flag no", text) {
        *answer = Answer::Flag { value: false };
        return Some(rest);
    }
    let rest = behind_word(b" flag yes", text)?;
    *answer = Answer::Flag { value: true };
    Some(rest)
}

#[inline(always)]
fn done<'a>(text: &'a [u8], answer: &mut Answer) -> Option<&'a [u8]>
    ensures { IfSome result (λ rest. IsFront AnswerTexts text.now answer.new rest.now) }
{
    let rest = behind_word(b" ok", text)?;
    *answer = Answer::Done;
    Some(rest)
}

#[inline(always)]
fn queued<'a>(text: &'a [u8], answer: &mut Answer) -> Option<&'a [u8]>
    ensures { IfSome result (λ rest. IsFront AnswerTexts text.now answer.new rest.now) }
{
    let start = behind_word(b" queued ", text)?;
    let (first, space) = front_number(start, u64::MAX)?;
    let last = behind(b' ', space)?;
    let (count, rest) = front_number(last, ID_MOST)?;
    let count = count as u32;
    *answer = Answer::Queued { first, count };
    Some(rest)
}

// A callback that is called plainly.
#[inline(always)]
fn taken<'a>(text: &'a [u8], answer: &mut Answer) -> Option<&'a [u8]>
    ensures { IfSome result (λ rest. IsFront AnswerTexts text.now answer.new rest.now) }
{
    let start = behind_word(b" taken ", text)?;
    let (callback, second) = front_number(start, u64::MAX)?;
    let (object, third) = front_number(behind_word(b" o", second)?, ID_MOST)?;
    let (routine, fourth) = front_number(behind_word(b" r", third)?, ID_MOST)?;
    if routine == 0 {
        return None;
    }
    let (context, fifth) = front_number(behind_word(b" x", fourth)?, u64::MAX)?;
    let rest = behind_word(b" plain", fifth)?;
    *answer = Answer::Taken {
        callback,
        object: ObjectId(object as u32),
        routine: RoutineId(routine as u32),
        context,
        result: TakeResult::Plain,
    };
    Some(rest)
}

// A return that left nothing.
#[inline(always)]
fn returned<'a>(text: &'a [u8], answer: &mut Answer) -> Option<&'a [u8]>
    ensures { IfSome result (λ rest. IsFront AnswerTexts text.now answer.new rest.now) }
{
    let start = behind_word(b" returned - - - - ", text)?;
    let (first, space) = front_number(start, u64::MAX)?;
    let last = behind(b' ', space)?;
    let (count, rest) = front_number(last, ID_MOST)?;
    *answer = Answer::Returned {
        section: SlotWord::Unasked,
        mutex: SlotWord::Unasked,
        semaphore: SlotWord::Unasked,
        event: SlotWord::Unasked,
        first,
        count: count as u32,
    };
    Some(rest)
}
