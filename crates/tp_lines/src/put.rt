//! Writing of rows: a word, and parts behind it. `row!` writes any.
//!
//! Rows of a form that several calls or answers have are written by one function each, so that the form is proved
//! once. Each of these writes as those of `line` do, and tells where its text ends.

ghost use Rattle.std.specs.Prelude.{◌≡◌, ◌+◌, ◌≤◌, [], ◌∷◌, ◌++◌, length, take};
ghost use Rattle.tp_lines.specs.Parts.{row_text};
ghost use Rattle.tp_lines.specs.Writing.{IsPut};

use crate::line;
use crate::line::parts;
use crate::parts::Part;
use crate::words::Word;

/// A word with a number.
#[inline(always)]
pub fn number_row(word: Word, number: u64, out: &mut [u8], at: usize) -> usize
    requires { at + 51 ≤ length out.old }
    ensures { IsPut at out.old result out.new (row_text (word, Part.Large number ∷ [])) 51 }
{
    parts!(out, at; first(word) number(number))
}

/// A word with two numbers.
#[inline(always)]
pub fn two_numbers_row(word: Word, first: u64, second: u64, out: &mut [u8], at: usize) -> usize
    requires { at + 72 ≤ length out.old }
    ensures { IsPut at out.old result out.new (row_text (word, Part.Large first ∷ Part.Large second ∷ [])) 72 }
{
    parts!(out, at; first(word) number(first) number(second))
}

/// A word with two words.
#[inline(always)]
pub fn two_words_row(word: Word, first: Word, second: Word, out: &mut [u8], at: usize) -> usize
    requires { at + 92 ≤ length out.old }
    ensures { IsPut at out.old result out.new (row_text (word, Part.Word first ∷ Part.Word second ∷ [])) 92 }
{
    parts!(out, at; first(word) word(first) word(second))
}

/// A word with a word and a number.
#[inline(always)]
pub fn word_number_row(word: Word, first: Word, number: u64, out: &mut [u8], at: usize) -> usize
    requires { at + 82 ≤ length out.old }
    ensures { IsPut at out.old result out.new (row_text (word, Part.Word first ∷ Part.Large number ∷ [])) 82 }
{
    parts!(out, at; first(word) word(first) number(number))
}

/// A word with three numbers.
#[inline(always)]
pub fn three_numbers_row(
    word: Word,
    first: u64,
    second: u64,
    third: u64,
    out: &mut [u8],
    at: usize,
) -> usize
    requires { at + 93 ≤ length out.old }
    ensures { IsPut at out.old result out.new (row_text (word, Part.Large first ∷ Part.Large second ∷ Part.Large third ∷ [])) 93 }
{
    parts!(out, at; first(word) number(first) number(second) number(third))
}

/// A word with a number, a due time and two numbers.
#[inline(always)]
pub fn setting_row(
    word: Word,
    object: u64,
    due: Option<i64>,
    period: u64,
    window: u64,
    out: &mut [u8],
    at: usize,
) -> usize
    requires { at + 115 ≤ length out.old }
    ensures { IsPut at out.old result out.new (row_text (word, Part.Large object ∷ Part.Due due ∷ Part.Large period ∷ Part.Large window ∷ [])) 115 }
{
    parts!(out, at; first(word) number(object) due(due) number(period) number(window))
}

/// Writes a row from `at` on, as in `row!(out, at; Word::SetMaximum, number(7) number(70))`, and tells where it ends.
macro_rules! row {
    ($out:ident, $at:ident; $word:expr) => {
        crate::line::first($word, $out, $at)
    };
    ($out:ident, $at:ident; $word:expr, number($number:expr)) => {
        crate::put::number_row($word, $number, $out, $at)
    };
    ($out:ident, $at:ident; $word:expr, number($first:expr) number($second:expr)) => {
        crate::put::two_numbers_row($word, $first, $second, $out, $at)
    };
    ($out:ident, $at:ident; $word:expr, number($first:expr) number($second:expr) number($third:expr)) => {
        crate::put::three_numbers_row($word, $first, $second, $third, $out, $at)
    };
    ($out:ident, $at:ident; $word:expr, word($first:expr) number($number:expr)) => {
        crate::put::word_number_row($word, $first, $number, $out, $at)
    };
    ($out:ident, $at:ident; $word:expr, word($first:expr) word($second:expr)) => {
        crate::put::two_words_row($word, $first, $second, $out, $at)
    };
    ($out:ident, $at:ident; $word:expr, number($object:expr) due($due:expr) number($period:expr) number($window:expr)) => {
        crate::put::setting_row($word, $object, $due, $period, $window, $out, $at)
    };
    ($out:ident, $at:ident; $word:expr, $($part:ident($($value:expr),*))+) => {
        crate::line::parts!($out, $at; first($word) $($part($($value),*))+)
    };
}

pub(crate) use row;
