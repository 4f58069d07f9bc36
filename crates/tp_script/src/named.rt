//! The names in the lines of a text.

ghost use Rattle.std.specs.Prelude.{◌≡◌, ◌+◌, ◌<◌, ◌^◌, length};
ghost use Rattle.script_lines.specs.Texts.{words_from};
ghost use Rattle.tp_script.specs.Named.{first_word, name_among, name_on};

use script_lines::{next_line, next_word};

/// The name that a line of a script declares, or of which it says something: the word behind its first one, or behind
/// that and a `try` in front. Lines are counted from 1. Where there is none, the answer is empty.
pub fn name_on(text: &[u8], line: u32) -> &[u8]
    requires { length text.now + 1 < 2 ^ 32 }
    ensures { result.now ≡ name_on text.now line }
{
    let mut rest = text;
    let mut number: u32 = 1;
    while let Some((found, behind)) = next_line(rest) {
        if number == line {
            return name_among(1, found);
        }
        rest = behind;
        number += 1;
    }
    &[]
}

// The word behind the first one of a line, or of what stands behind its `try`.
fn name_among(column: u32, line: &[u8]) -> &[u8]
    requires { column + length line.now < 2 ^ 32 }
    ensures { result.now ≡ name_among (words_from column line.now) }
{
    let mut column = column;
    let mut rest = line;
    while let Some(head) = next_word(column, rest) {
        column = head.column + head.word.len() as u32;
        rest = head.rest;
        if head.word != b"try".as_slice() {
            return first_word(column, rest);
        }
    }
    &[]
}

fn first_word(column: u32, line: &[u8]) -> &[u8]
    requires { column + length line.now < 2 ^ 32 }
    ensures { result.now ≡ first_word (words_from column line.now) }
{
    match next_word(column, line) {
        Some(spot) => spot.word,
        None => &[],
    }
}
