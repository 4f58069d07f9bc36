//! Decimal numbers without leading zeros.

ghost use Rattle.std.specs.Prelude.{◌≡◌, ◌<◌, ◌≤◌, ◌+◌, ℕ, List, ◌∷◌, drop, length, slice_index, MatchOption};
ghost use Rattle.line_grammar.specs.Language.{IsRead};
ghost use Rattle.line_grammar.specs.Numbers.{Numbers, IsLonger, Negative, NotNegative, Signed};
ghost use Rattle.line_grammar.specs.Parts.{Led};

use crate::words::{behind, further};

/// Reads a number from `least` to `most` at the front of the text.
#[inline(always)]
pub fn read_number(text: &[u8], least: u64, most: u64) -> Result<(u64, usize), usize>
    requires least_most { least ≤ most }
    requires least_low { 1 < least → (least ≤ 19) × (199 ≤ most) }
    ensures { IsRead (Numbers least most) text.now result }
{
    let Some(first) = first_digit(text) else {
        return Err(0);
    };
    if most < first {
        return Err(0);
    }
    // Zero begins the number zero alone.
    if first < least.min(1) {
        return Err(0);
    }
    if first == 0 {
        return Ok((0, 1));
    }
    let mut value = first;
    let mut size: usize = 1;
    while let Some(longer) = longer_number(text, size, value, most) {
        value = longer;
        size += 1;
    }
    if value < least {
        Err(size)
    } else {
        Ok((value, size))
    }
}

// The digit that the text begins with.
fn first_digit(text: &[u8]) -> Option<u64>
    ensures { MatchOption result
        ((byte : ℕ) (rest : List ℕ) → text.now ≡ byte ∷ rest → 48 ≤ byte → 57 < byte)
        (λ digit. (0 < length text.now) × (digit < 10) × (slice_index text.now 0 ≡ 48 + digit)) }
{
    match text {
        [first @ b'0'..=b'9', ..] => Some(u64::from(*first - b'0')),
        _ => None,
    }
}

// The number with the digit at `size` behind it, if it has one and is then at most `most`.
#[inline(always)]
fn longer_number(text: &[u8], size: usize, value: u64, most: u64) -> Option<u64>
    requires within { size ≤ length text.now }
    requires positive { 0 < value }
    ensures { MatchOption result
        ((byte : ℕ) (rest : List ℕ) (longer : ℕ) → drop size text.now ≡ byte ∷ rest → ¬ (IsLonger most value byte longer))
        (λ longer. (size < length text.now) × IsLonger most value (slice_index text.now size) longer) }
{
    if size == text.len() {
        return None;
    }
    let byte = text[size];
    if byte < b'0' || b'9' < byte {
        return None;
    }
    let digit = u64::from(byte - b'0');
    if value < 1_000_000_000_000_000_000 {
        let longer = value * 10 + digit;
        return if longer <= most { Some(longer) } else { None };
    }
    if digit <= most && value <= (most - digit) / 10 {
        Some(value * 10 + digit)
    } else {
        None
    }
}

/// Reads a letter, and a number from `least` to `most` behind it.
pub fn read_prefixed(letter: u8, text: &[u8], least: u64, most: u64) -> Result<(u64, usize), usize>
    requires least_most { least ≤ most }
    requires least_low { 1 < least → (least ≤ 19) × (199 ≤ most) }
    ensures { IsRead (Led letter (Numbers least most)) text.now result }
{
    let Some(rest) = behind(letter, text) else {
        return Err(0);
    };
    match read_number(rest, least, most) {
        Ok((value, size)) => Ok((value, size + 1)),
        Err(place) => Err(place + 1),
    }
}

/// Reads a number of 64 bits with a sign: a `-` stands before one that is below 0. `-0` is no number.
pub fn read_signed(text: &[u8]) -> Result<(i64, usize), usize>
    ensures { IsRead Signed text.now result }
{
    further(read_not_negative(text), read_negative(text))
}

fn read_not_negative(text: &[u8]) -> Result<(i64, usize), usize>
    ensures { IsRead NotNegative text.now result }
{
    match read_number(text, 0, 9_223_372_036_854_775_807) {
        Ok((value, size)) => Ok((value as i64, size)),
        Err(place) => Err(place),
    }
}

fn read_negative(text: &[u8]) -> Result<(i64, usize), usize>
    ensures { IsRead Negative text.now result }
{
    match read_prefixed(b'-', text, 1, 9_223_372_036_854_775_808) {
        Ok((value, size)) => Ok((-1 - (value - 1) as i64, size)),
        Err(place) => Err(place),
    }
}
