//! Writing of the parts of a line, one behind another.
//!
//! Each of these writes in its place, from an index on, and tells where its text ends. What stands before
//! that index stays.

ghost use Rattle.std.specs.Prelude.{◌≡◌, ◌+◌, ◌<◌, ◌≤◌, [], ◌∷◌, ◌++◌, decimal, length, take};
ghost use Rattle.std.specs.Fmt.{signed_decimal};
ghost use Rattle.tp_lines.specs.Shapes.{text_of_word};
ghost use Rattle.tp_lines.specs.Words.{text_of_due, text_of_named};
ghost use Rattle.tp_lines.specs.Writing.{IsPut};

use crate::words::{Word, word_text};
use itoa::write_digits;
use tp_base::answers::{ActionKind, SlotWord};
use tp_base::ids::KernelId;

/// A byte.
pub fn byte(byte: u8, out: &mut [u8], at: usize) -> usize
    requires { at < length out.old }
    ensures text { take result out.new ≡ take at out.old ++ byte ∷ [] }
    ensures end { result ≡ at + 1 }
{
    out[at] = byte;
    at + 1
}

/// A text. One that is known stands in the code and is written whole.
pub fn text(text: &[u8], out: &mut [u8], at: usize) -> usize
    requires { at + length text.now ≤ length out.old }
    ensures text { take result out.new ≡ take at out.old ++ text.now }
    ensures end { result ≡ at + length text.now }
{
    let mut end = at;
    for index in 0..text.len() {
        end = byte(text[index], out, end);
    }
    end
}

// How many digits a number has.
fn digit_count(number: u64) -> usize
    ensures value { result ≡ length (decimal number) }
    ensures most { result ≤ 20 }
{
    if number < 10 {
        1
    } else if number < 100 {
        2
    } else if number < 1_000 {
        3
    } else if number < 10_000 {
        4
    } else {
        digit_count(number / 10_000) + 4
    }
}

/// The digits of a number.
pub fn digits(number: u64, out: &mut [u8], at: usize) -> usize
    requires { at + 20 ≤ length out.old }
    ensures { IsPut at out.old result out.new (decimal number) 20 }
{
    if number < 10 {
        return byte(b'0' + number as u8, out, at);
    }
    many_digits(number, out, at)
}

// The digits of a number that has more than one. Where it is known how many, they are written with no loop.
#[inline(never)]
fn many_digits(number: u64, out: &mut [u8], at: usize) -> usize
    requires room { at + 20 ≤ length out.old }
    requires more { 10 ≤ number }
    ensures { IsPut at out.old result out.new (decimal number) 20 }
{
    if number < 100 {
        sized_digits(number, 2, out, at)
    } else if number < 1_000 {
        sized_digits(number, 3, out, at)
    } else if number < 10_000 {
        sized_digits(number, 4, out, at)
    } else if number < 100_000 {
        sized_digits(number, 5, out, at)
    } else if number < 1_000_000 {
        sized_digits(number, 6, out, at)
    } else if number < 10_000_000 {
        sized_digits(number, 7, out, at)
    } else {
        sized_digits(number, digit_count(number), out, at)
    }
}

// The digits of a number that has so many.
#[inline(always)]
fn sized_digits(number: u64, size: usize, out: &mut [u8], at: usize) -> usize
    requires room { at + 20 ≤ length out.old }
    requires size { size ≡ length (decimal number) }
    requires most { size ≤ 20 }
    ensures { IsPut at out.old result out.new (decimal number) 20 }
{
    let end = at + size;
    write_digits(number, out, end);
    end
}

/// A word.
#[inline(always)]
pub fn first(word: Word, out: &mut [u8], at: usize) -> usize
    requires { at + 30 ≤ length out.old }
    ensures { IsPut at out.old result out.new (text_of_word word) 30 }
{
    text(word_text(word), out, at)
}

/// A space and a word.
#[inline(always)]
pub fn word(word: Word, out: &mut [u8], at: usize) -> usize
    requires { at + 31 ≤ length out.old }
    ensures { IsPut at out.old result out.new (32 ∷ text_of_word word) 31 }
{
    let start = byte(b' ', out, at);
    first(word, out, start)
}

/// A space, and what became of an action on return.
#[inline(always)]
pub fn slot(slot: SlotWord, out: &mut [u8], at: usize) -> usize
    requires { at + 31 ≤ length out.old }
    ensures { IsPut at out.old result out.new (32 ∷ text_of_word (Word.Slot slot)) 31 }
{
    match slot {
        SlotWord::Unasked => text(b" -", out, at),
        _ => slot_word(slot, out, at),
    }
}

// The same. Each is a text that is known.
#[inline(never)]
fn slot_word(slot: SlotWord, out: &mut [u8], at: usize) -> usize
    requires { at + 31 ≤ length out.old }
    ensures { IsPut at out.old result out.new (32 ∷ text_of_word (Word.Slot slot)) 31 }
{
    match slot {
        SlotWord::Unasked => word(Word::Slot(SlotWord::Unasked), out, at),
        SlotWord::Performed => word(Word::Slot(SlotWord::Performed), out, at),
        SlotWord::NotOwner => word(Word::Slot(SlotWord::NotOwner), out, at),
        SlotWord::OverMaximum => word(Word::Slot(SlotWord::OverMaximum), out, at),
    }
}

/// A space, and for what an action on return is. Each is a text that is known.
#[inline(always)]
pub fn action(kind: ActionKind, out: &mut [u8], at: usize) -> usize
    requires { at + 31 ≤ length out.old }
    ensures { IsPut at out.old result out.new (32 ∷ text_of_word (Word.Action kind)) 31 }
{
    match kind {
        ActionKind::Section => word(Word::Action(ActionKind::Section), out, at),
        ActionKind::Mutex => word(Word::Action(ActionKind::Mutex), out, at),
        ActionKind::Semaphore => word(Word::Action(ActionKind::Semaphore), out, at),
        ActionKind::Event => word(Word::Action(ActionKind::Event), out, at),
    }
}

/// A space and a number.
pub fn number(number: u64, out: &mut [u8], at: usize) -> usize
    requires { at + 21 ≤ length out.old }
    ensures { IsPut at out.old result out.new (32 ∷ decimal number) 21 }
{
    let start = byte(b' ', out, at);
    digits(number, out, start)
}

/// A space, a letter and a number.
pub fn lettered(letter: u8, number: u64, out: &mut [u8], at: usize) -> usize
    requires { at + 22 ≤ length out.old }
    ensures { IsPut at out.old result out.new (32 ∷ letter ∷ decimal number) 22 }
{
    let space = byte(b' ', out, at);
    let start = byte(letter, out, space);
    digits(number, out, start)
}

/// A space, and a due time or `none`.
pub fn due(due: Option<i64>, out: &mut [u8], at: usize) -> usize
    requires { at + 22 ≤ length out.old }
    ensures { IsPut at out.old result out.new (32 ∷ text_of_due due) 22 }
{
    let start = byte(b' ', out, at);
    match due {
        Some(time) => signed(time, out, start),
        None => text(b"none", out, start),
    }
}

/// A space, and the number of a kernel object or `none`.
pub fn named(kernel: Option<KernelId>, out: &mut [u8], at: usize) -> usize
    requires { at + 21 ≤ length out.old }
    ensures { IsPut at out.old result out.new (32 ∷ text_of_named kernel) 21 }
{
    let start = byte(b' ', out, at);
    match kernel {
        Some(kernel) => digits(u64::from(kernel.0), out, start),
        None => text(b"none", out, start),
    }
}

// A number with its sign.
fn signed(number: i64, out: &mut [u8], at: usize) -> usize
    requires { at + 21 ≤ length out.old }
    ensures { IsPut at out.old result out.new (signed_decimal number) 21 }
{
    let size = number.unsigned_abs();
    if number < 0 {
        let start = byte(b'-', out, at);
        digits(size, out, start)
    } else {
        digits(size, out, at)
    }
}

// Writes parts one behind another, and tells where they end.
macro_rules! parts {
    ($out:ident, $at:ident; $($part:ident($($value:expr),*))+) => {{
        $(let $at = line::$part($($value,)* $out, $at);)+
        $at
    }};
}

pub(crate) use parts;
