//! The lines themselves: an actor with its call, and for an entry the answer.
//!
//! What is found stands at the front of the text, and what is behind it is given. Where nothing is found, it
//! may stand there all the same.

ghost use Rattle.std.specs.Prelude.{IfSome};
ghost use Rattle.line_grammar.specs.Language.{IsFront};
ghost use Rattle.tp_lines.specs.Answers.{EntryLines};
ghost use Rattle.tp_lines.specs.Calls.{CallLines, WhoTexts};

use crate::answers::{any_answer, front_answer};
use crate::calls::{any_call, front_call, other_call};
use crate::numbers::short_number;
use line_grammar::words::{behind, behind_word};
use tp_base::answers::Entry;
use tp_base::calls::Call;
use tp_base::ids::Who;

/// A frequent call, and who makes it.
#[inline(always)]
pub(crate) fn front_line<'a>(text: &'a [u8], made: &mut (Who, Call)) -> Option<&'a [u8]>
    ensures { IfSome result (λ rest. IsFront CallLines text.now made.new rest.now) }
{
    let (who, start) = front_who(text)?;
    made.0 = who;
    let rest = front_call(start, &mut made.1)?;
    Some(rest)
}

/// An entry of such a call, with a frequent answer.
#[inline(always)]
pub(crate) fn front_entry<'a>(text: &'a [u8], entry: &mut Entry) -> Option<&'a [u8]>
    ensures { IfSome result (λ rest. IsFront EntryLines text.now entry.new rest.now) }
{
    let (who, start) = front_who(text)?;
    entry.who = who;
    let arrow = front_call(start, &mut entry.call)?;
    let answer = behind_word(b" ->", arrow)?;
    let rest = front_answer(answer, &mut entry.answer)?;
    Some(rest)
}

/// A call that is less frequent, and who makes it.
pub(crate) fn rare_line<'a>(text: &'a [u8], made: &mut (Who, Call)) -> Option<&'a [u8]>
    ensures { IfSome result (λ rest. IsFront CallLines text.now made.new rest.now) }
{
    let (who, start) = front_who(text)?;
    made.0 = who;
    let rest = other_call(start, &mut made.1)?;
    Some(rest)
}

/// An entry whose call or answer may be less frequent.
pub(crate) fn rare_entry<'a>(text: &'a [u8], entry: &mut Entry) -> Option<&'a [u8]>
    ensures { IfSome result (λ rest. IsFront EntryLines text.now entry.new rest.now) }
{
    let (who, start) = front_who(text)?;
    entry.who = who;
    let arrow = any_call(start, &mut entry.call)?;
    let answer = behind_word(b" ->", arrow)?;
    let rest = any_answer(answer, &mut entry.answer)?;
    Some(rest)
}

// The actor that the text begins with, and what stands behind it.
#[inline(always)]
fn front_who(text: &[u8]) -> Option<(Who, &[u8])>
    ensures { IfSome result (λ read. IsFront WhoTexts text.now read.0 read.1.now) }
{
    if let Some(after) = behind(b'w', text) {
        let (number, rest) = short_number(after, 64)?;
        return Some((Who::Worker(number), rest));
    }
    let after = behind(b'c', text)?;
    let (number, rest) = short_number(after, 16)?;
    Some((Who::Client(number), rest))
}
