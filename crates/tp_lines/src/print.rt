//! Printing of what calls come to, and writing of entries.

ghost use Rattle.std.specs.Prelude.{◌≡◌, ◌+◌, ◌≤◌, ◌++◌, ◌∷◌, [], ℕ, List, IfOk, OnErr, OnOk, decimal, length, take};
ghost use Rattle.tp_lines.specs.Answers.{line_of_entry, text_of_look, text_of_outcome};
ghost use Rattle.tp_lines.specs.Writing.{IsPut};

use crate::answers::put_answer;
use crate::calls::{put_call, put_who};
use crate::line;
use crate::line::parts;
use crate::words::Word;
use std::alloc::{AllocError, Global};
use std::marker::Model;
use tp_base::answers::{Answer, Entry, Look, Outcome};
use tp_base::calls::Call;
use tp_base::ids::Who;

/// As much as a line needs.
const ROOM: usize = 512;

/// How many bytes are made ready at once for the lines to come.
const PAGE: usize = 1_024;

/// For how many bytes memory is taken with the first line. What isn't needed of it is never touched, and no byte
/// moves to another place as long as there are no more.
const TEXT: usize = 1 << 22;

/// Lines that are printed one behind another, seen as their text.
#[derive(Drop)]
pub struct Lines {
    // Behind `end` stands nothing yet.
    bytes: Vec<u8>,
    end: usize,
}

impl Model for Lines {
    ghost Value = { List ℕ };

    ghost view = { λ lines. take lines.end lines.bytes.items };

    ghost invariant = { λ lines. lines.end ≤ length lines.bytes.items };
}

impl Lines {
    /// No lines. Takes no memory.
    pub fn new(alloc: Global) -> Lines
        ensures { result ≡ [] }
    {
        Lines {
            bytes: Vec::new(alloc),
            end: 0,
        }
    }

    /// Prints the line of what a call came to: its answer, its look, or full. On want of memory nothing is
    /// printed.
    #[inline(always)]
    pub fn outcome(&mut self, outcome: &Outcome) -> Result<(), AllocError>
        ensures ok { OnOk result (self.new ≡ self.old ++ (text_of_outcome outcome.now ++ 10 ∷ [])) }
        ensures err { OnErr result (self.new ≡ self.old) }
    {
        // Not by `make_room`: over its answer LLVM lays the growing into the loop of a trace.
        if self.bytes.len() - self.end < ROOM {
            grow(&mut self.bytes)?;
        }
        let end = put_outcome(outcome, &mut self.bytes, self.end);
        self.end = line::byte(b'\n', &mut self.bytes, end);
        Ok(())
    }

    /// Prints a text of at most 200 bytes as a line. On want of memory nothing is printed.
    pub fn text(&mut self, text: &[u8]) -> Result<(), AllocError>
        requires { length text.now ≤ 200 }
        ensures ok { OnOk result (self.new ≡ self.old ++ (text.now ++ 10 ∷ [])) }
        ensures err { OnErr result (self.new ≡ self.old) }
    {
        make_room(&mut self.bytes, self.end)?;
        let end = line::text(text, &mut self.bytes, self.end);
        self.end = line::byte(b'\n', &mut self.bytes, end);
        Ok(())
    }

    /// Prints a text of at most 200 bytes, and a number in decimal right behind it, as a line. On want of memory
    /// nothing is printed.
    pub fn number(&mut self, text: &[u8], number: u64) -> Result<(), AllocError>
        requires { length text.now ≤ 200 }
        ensures ok { OnOk result (self.new ≡ self.old ++ (text.now ++ decimal number ++ 10 ∷ [])) }
        ensures err { OnErr result (self.new ≡ self.old) }
    {
        make_room(&mut self.bytes, self.end)?;
        let start = line::text(text, &mut self.bytes, self.end);
        let end = line::digits(number, &mut self.bytes, start);
        self.end = line::byte(b'\n', &mut self.bytes, end);
        Ok(())
    }

    /// Prints a text of at most 200 bytes, a number in decimal right behind it, and a second one behind a space, as a
    /// line. On want of memory nothing is printed.
    pub fn two_numbers(&mut self, text: &[u8], first: u64, second: u64) -> Result<(), AllocError>
        requires { length text.now ≤ 200 }
        ensures ok { OnOk result (self.new ≡ self.old ++ (text.now ++ decimal first ++ 32 ∷ decimal second ++ 10 ∷ [])) }
        ensures err { OnErr result (self.new ≡ self.old) }
    {
        make_room(&mut self.bytes, self.end)?;
        let start = line::text(text, &mut self.bytes, self.end);
        let between = line::digits(first, &mut self.bytes, start);
        let end = line::number(second, &mut self.bytes, between);
        self.end = line::byte(b'\n', &mut self.bytes, end);
        Ok(())
    }

    /// The text of all lines.
    pub fn into_text(mut self) -> Vec<u8>
        ensures { result.items ≡ self }
    {
        self.bytes.truncate(self.end);
        self.bytes
    }
}

// Takes room for a line behind `end`, where there is none. What stands before that stays.
#[inline(always)]
fn make_room(bytes: &mut Vec<u8>, end: usize) -> Result<(), AllocError>
    requires { end ≤ length bytes.old.items }
    ensures ok { OnOk result (end + ROOM ≤ length bytes.new.items) }
    ensures kept { take end bytes.new.items ≡ take end bytes.old.items }
    ensures within { end ≤ length bytes.new.items }
{
    if bytes.len() - end < ROOM {
        grow(bytes)?;
    }
    Ok(())
}

// Takes room for lines. What stands there stays.
#[cold]
#[inline(never)]
fn grow(bytes: &mut Vec<u8>) -> Result<(), AllocError>
    ensures ok { OnOk result (length bytes.old.items + PAGE ≤ length bytes.new.items) }
    ensures kept { take (length bytes.old.items) bytes.new.items ≡ bytes.old.items }
    ensures err { OnErr result (bytes.new.items ≡ bytes.old.items) }
{
    let len = bytes.len();
    if len == 0 {
        bytes.reserve(TEXT)?;
    }
    if usize::MAX - len < PAGE {
        return Err(AllocError);
    }
    bytes.resize(len + PAGE, 0)
}

/// Appends the text of what a call came to: its answer, its look, or full. On want of memory nothing is
/// appended.
pub fn print_outcome(outcome: &Outcome, out: &mut Vec<u8>) -> Result<(), AllocError>
    ensures ok { OnOk result (out.new.items ≡ out.old.items ++ text_of_outcome outcome.now) }
    ensures err { OnErr result (out.new.items ≡ out.old.items) }
{
    let at = out.len();
    out.resize(at + ROOM, 0)?;
    let end = put_outcome(outcome, out, at);
    out.truncate(end);
    Ok(())
}

/// Appends the line of an entry, without its line feed. On want of memory nothing is appended.
pub fn print_entry(entry: &Entry, out: &mut Vec<u8>) -> Result<(), AllocError>
    ensures ok { OnOk result (out.new.items ≡ out.old.items ++ line_of_entry entry.now) }
    ensures err { OnErr result (out.new.items ≡ out.old.items) }
{
    let at = out.len();
    out.resize(at + ROOM, 0)?;
    let end = put_entry(entry.who, &entry.call, &entry.answer, out, at);
    out.truncate(end);
    Ok(())
}

#[inline(always)]
pub(crate) fn put_entry(who: Who, call: &Call, answer: &Answer, out: &mut [u8], at: usize) -> usize
    requires { at + 510 ≤ length out.old }
    ensures { IsPut at out.old result out.new (line_of_entry (record { who = who; call = call.now; answer = answer.now })) 510 }
{
    let called = put_who(who, out, at);
    let arrow = put_call(call, out, called);
    let answered = line::text(b" -> ", out, arrow);
    put_answer(answer, out, answered)
}

#[inline(always)]
fn put_outcome(outcome: &Outcome, out: &mut [u8], at: usize) -> usize
    requires { at + 250 ≤ length out.old }
    ensures { IsPut at out.old result out.new (text_of_outcome outcome.now) 250 }
{
    match outcome {
        Outcome::Done(answer) => put_answer(answer, out, at),
        Outcome::Look(look) => put_look(look, out, at),
        Outcome::Full { room, cost } => {
            parts!(out, at; first(Word::Full) number(*room) number(*cost))
        }
    }
}

#[inline(always)]
fn put_look(look: &Look, out: &mut [u8], at: usize) -> usize
    requires { at + 250 ≤ length out.old }
    ensures { IsPut at out.old result out.new (text_of_look look.now) 250 }
{
    match look {
        Look::NotYet { callback } => {
            parts!(out, at; first(Word::Look) word(Word::NotYet) word(Word::Callback) number(*callback))
        }
        Look::NotYetKernel { kernel } => {
            parts!(out, at; first(Word::Look) word(Word::NotYet) word(Word::Kernel) number(u64::from(kernel.0)))
        }
        Look::Empty => parts!(out, at; first(Word::Look) word(Word::Empty)),
        Look::AtMaximum { running } => {
            parts!(out, at; first(Word::Look) word(Word::AtMaximum) number(u64::from(*running)))
        }
        Look::NoNeed => parts!(out, at; first(Word::Look) word(Word::NoNeed)),
        Look::Stay => parts!(out, at; first(Word::Look) word(Word::Stay)),
    }
}
