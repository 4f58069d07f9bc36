//! The words of a script's lines.

ghost use Rattle.std.specs.Prelude.{◌≡◌, ◌∷◌, ◌+◌, ◌++◌, ◌<◌, ◌≤◌, ◌^◌, ℕ, List, OnOk, flat_map, length, map};
ghost use Rattle.script_lines.specs.Texts.{Spot as Seen, words_from};
ghost use Rattle.order_lines.specs.Words.{has_word, line_in, operation_among, operation_in, spaced, words_in};

use script_lines::{next_line, next_word};
use std::alloc::AllocError;

/// The line of a text of this number, from 1, without its line feed; an empty one where there is none.
#[tactic(auto, using(crate::proofs::Behind::further, crate::proofs::Behind::none_left))]
pub fn line_in(text: &[u8], number: u32) -> &[u8]
    ensures value { result.now ≡ line_in text.now number }
    ensures within { length result.now ≤ length text.now }
{
    let mut rest = text;
    for _ in 0..number.saturating_sub(1) {
        match next_line(rest) {
            Some((_, behind)) => rest = behind,
            None => return &[],
        }
    }
    match next_line(rest) {
        Some((line, _)) => line,
        None => &[],
    }
}

// Whether an operation stands behind this word and one more.
fn has_word(word: &[u8]) -> bool
    ensures { result ≡ has_word word.now }
{
    word == b"times".as_slice() || word == b"if".as_slice() || word == b"unless".as_slice()
}

/// The word of the operation in a line, or nothing.
pub fn operation_in(line: &[u8]) -> &[u8]
    requires { length line.now + 1 < 2 ^ 32 }
    ensures { result.now ≡ operation_in line.now }
{
    let mut rest = line;
    let mut column: u32 = 1;
    let mut passes = false;
    while let Some(spot) = next_word(column, rest) {
        let is_own = !passes && spot.word != b"try".as_slice() && !has_word(spot.word);
        if is_own {
            return spot.word;
        }
        passes = !passes && spot.word != b"try".as_slice();
        column = spot.column + spot.word.len() as u32;
        rest = spot.rest;
    }
    &[]
}

/// Appends the words of a line, with one space between each two.
pub fn append_spaced(line: &[u8], text: &mut Vec<u8>) -> Result<(), AllocError>
    requires { length line.now + 1 < 2 ^ 32 }
    ensures { OnOk result (text.new.items ≡ text.old.items ++ spaced (words_in line.now)) }
{
    let Some(first) = next_word(1, line) else {
        return Ok(());
    };
    text.extend_from_slice(first.word)?;
    append_further(first.column + first.word.len() as u32, first.rest, text)
}

// Appends words, with a space before each.
fn append_further(column: u32, words: &[u8], text: &mut Vec<u8>) -> Result<(), AllocError>
    requires { column + length words.now < 2 ^ 32 }
    ensures { OnOk result (text.new.items ≡ text.old.items ++ flat_map (λ (w : List ℕ). 32 ∷ w) (map (λ (s : Seen). s.word) (words_from column words.now))) }
{
    let mut rest = words;
    let mut column = column;
    while let Some(spot) = next_word(column, rest) {
        text.push(b' ')?;
        text.extend_from_slice(spot.word)?;
        column = spot.column + spot.word.len() as u32;
        rest = spot.rest;
    }
    Ok(())
}
