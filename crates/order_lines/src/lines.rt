//! The lines of faults, waits and marks.

ghost use Rattle.std.specs.Prelude.{◌≡◌, ◌∷◌, [], ◌+◌, ◌++◌, ◌<◌, ◌^◌, OnOk, codes, decimal, length};
ghost use Rattle.tp_lines.specs.Words.{text_of_who};
ghost use Rattle.order_lines.specs.Lines.{bad_line, fault_line, fault_words, kind_words, left_word, mark_line, place_words, waits_line};

use crate::words::{append_spaced, line_in, operation_in};
use itoa::Buffer;
use std::alloc::AllocError;
use tp_base::answers::{Answer, Outcome};
use tp_base::ids::Who;
use tp_explore::{Fault, FaultKind};
use tp_lines::print::print_outcome;
use tp_model::Left;
use tp_script::name_on;

// Appends a number.
pub(crate) fn append_number(number: u64, text: &mut Vec<u8>) -> Result<(), AllocError>
    ensures { OnOk result (text.new.items ≡ text.old.items ++ decimal number) }
{
    let mut digits = Buffer::new();
    text.extend_from_slice(digits.format(number).as_bytes())
}

// Appends an actor.
fn append_who(who: Who, text: &mut Vec<u8>) -> Result<(), AllocError>
    ensures { OnOk result (text.new.items ≡ text.old.items ++ text_of_who who) }
{
    let (letter, number) = match who {
        Who::Client(number) => (b'c', number),
        Who::Worker(number) => (b'w', number),
    };
    text.push(letter)?;
    append_number(u64::from(number), text)
}

// How far a callback has come that is left, as a word.
fn left_word(left: Left) -> &'static [u8]
    ensures { result.now ≡ left_word left }
{
    match left {
        Left::Expected => b"expected",
        Left::Issued => b"issued",
        Left::Pending => b"pending",
    }
}

// Appends the name of a kind and what the line is about.
fn append_named(kind: &[u8], name: &[u8], text: &mut Vec<u8>) -> Result<(), AllocError>
    ensures { OnOk result (text.new.items ≡ text.old.items ++ (kind.now ++ name.now)) }
{
    text.extend_from_slice(kind)?;
    text.extend_from_slice(name)
}

// Appends the kind of a fault, and what it is about.
fn append_kind(script: &[u8], fault: &Fault, text: &mut Vec<u8>) -> Result<(), AllocError>
    requires { length script.now + 1 < 2 ^ 32 }
    ensures { OnOk result (text.new.items ≡ text.old.items ++ kind_words script.now fault.now.line fault.now.kind) }
{
    let name = name_on(script, fault.line);
    match fault.kind {
        FaultKind::Refused(refusal) => print_outcome(
            &Outcome::Done(Answer::Refused(refusal)),
            text,
        ),
        FaultKind::Stalled => append_named(
            b"stalled ",
            operation_in(line_in(script, fault.line)),
            text,
        ),
        FaultKind::NotQuiet => append_named(b"not-quiet ", name, text),
        FaultKind::UseAfterFree => append_named(b"use-after-free ", name, text),
        FaultKind::FreedTwice => append_named(b"freed-twice ", name, text),
        FaultKind::FreedInUse => append_named(b"freed-in-use ", name, text),
        FaultKind::Left(left) => append_left(name, left, text),
    }
}

// Appends what is left of an object of this name.
fn append_left(name: &[u8], left: Left, text: &mut Vec<u8>) -> Result<(), AllocError>
    ensures { OnOk result (text.new.items ≡ text.old.items ++ (codes "left " ++ (name.now ++ 32 ∷ left_word left))) }
{
    append_named(b"left ", name, text)?;
    text.push(b' ')?;
    text.extend_from_slice(left_word(left))
}

// Appends a line of the script, and an actor.
fn append_place(line: u32, who: Who, text: &mut Vec<u8>) -> Result<(), AllocError>
    ensures { OnOk result (text.new.items ≡ text.old.items ++ place_words line who) }
{
    text.extend_from_slice(b" line ")?;
    append_number(u64::from(line), text)?;
    text.push(b' ')?;
    append_who(who, text)
}

// Appends what a fault is, where it is told, and whose entry it is at.
fn append_fault_words(
    script: &[u8],
    fault: &Fault,
    who: Who,
    text: &mut Vec<u8>,
) -> Result<(), AllocError>
    requires { length script.now + 1 < 2 ^ 32 }
    ensures { OnOk result (text.new.items ≡ text.old.items ++ fault_words script.now fault.now who) }
{
    append_kind(script, fault, text)?;
    append_place(fault.line, who, text)
}

/// Appends the line of a fault that a run has at an entry, counted from 1, which is this actor's. `script` is the text of
/// the script.
pub(crate) fn append_fault(
    script: &[u8],
    entry: u32,
    fault: &Fault,
    who: Who,
    text: &mut Vec<u8>,
) -> Result<(), AllocError>
    requires { length script.now + 1 < 2 ^ 32 }
    ensures { OnOk result (text.new.items ≡ text.old.items ++ (fault_line script.now entry fault.now who ++ 10 ∷ [])) }
{
    text.extend_from_slice(b"fault ")?;
    append_fault_words(script, fault, who, text)?;
    text.extend_from_slice(b" entry ")?;
    append_number(u64::from(entry), text)?;
    text.push(b'\n')?;
    Ok(())
}

/// Appends the line of a fault that ends a bad order, whose last entry is this actor's. `script` is the text of the
/// script.
pub(crate) fn append_bad(
    script: &[u8],
    fault: &Fault,
    who: Who,
    text: &mut Vec<u8>,
) -> Result<(), AllocError>
    requires { length script.now + 1 < 2 ^ 32 }
    ensures { OnOk result (text.new.items ≡ text.old.items ++ (bad_line script.now fault.now who ++ 10 ∷ [])) }
{
    text.extend_from_slice(b"bad ")?;
    append_fault_words(script, fault, who, text)?;
    text.push(b'\n')?;
    Ok(())
}

/// Appends the line of a wait that the actor has begun at a line of the script.
pub(crate) fn append_waits(who: Who, line: u32, text: &mut Vec<u8>) -> Result<(), AllocError>
    ensures { OnOk result (text.new.items ≡ text.old.items ++ (waits_line who line ++ 10 ∷ [])) }
{
    text.extend_from_slice(b"waits ")?;
    append_who(who, text)?;
    text.extend_from_slice(b" line ")?;
    append_number(u64::from(line), text)?;
    text.push(b'\n')?;
    Ok(())
}

/// Appends the line of a mark, which stands in a line of the script and takes place at an entry, counted from 1.
pub(crate) fn append_mark(
    script: &[u8],
    entry: u32,
    who: Who,
    line: u32,
    text: &mut Vec<u8>,
) -> Result<(), AllocError>
    requires { length script.now + 1 < 2 ^ 32 }
    ensures { OnOk result (text.new.items ≡ text.old.items ++ (mark_line script.now entry who line ++ 10 ∷ [])) }
{
    text.extend_from_slice(b"mark ")?;
    append_number(u64::from(entry), text)?;
    text.push(b' ')?;
    append_who(who, text)?;
    text.push(b' ')?;
    append_spaced(line_in(script, line), text)?;
    text.push(b'\n')?;
    Ok(())
}
