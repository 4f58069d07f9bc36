//! Numbers at the front of a text.

ghost use Rattle.std.specs.Prelude.{◌≡◌, ◌+◌, ◌<◌, ◌≤◌, ◌∷◌, ◌++◌, IfSome, Some, decimal, length, take};
ghost use Rattle.std.specs.Fmt.{signed_decimal};
ghost use Rattle.tp_base.specs.Ranges.{IsDueInRange};

use line_grammar::numbers::{read_number, read_signed};

// The number of one digit or two that the text begins with, if it isn't 0, and what stands behind it.
#[inline(always)]
#[tactic(auto, using(crate::proofs::Facts::one_digit, crate::proofs::Facts::two_digits))]
pub(crate) fn short_number(text: &[u8], most: u32) -> Option<(u32, &[u8])>
    requires { 9 ≤ most }
    ensures { IfSome result (λ read. (1 ≤ read.0) × (read.0 ≤ most) × (text.now ≡ decimal read.0 ++ read.1.now)) }
{
    let (tens, start) = first_digit(text)?;
    let Some((ones, rest)) = any_digit(start) else {
        return Some((tens, start));
    };
    let number = tens * 10 + ones;
    if number <= most {
        Some((number, rest))
    } else {
        None
    }
}

// The digit that the text begins with, and what stands behind it.
#[inline(always)]
fn any_digit(text: &[u8]) -> Option<(u32, &[u8])>
    ensures { IfSome result (λ read. (read.0 < 10) × (text.now ≡ (48 + read.0) ∷ read.1.now)) }
{
    match text {
        [digit @ b'0'..=b'9', rest @ ..] => Some((u32::from(*digit - b'0'), rest)),
        _ => None,
    }
}

// The digit that the text begins with, if it isn't 0, and what stands behind it.
#[inline(always)]
fn first_digit(text: &[u8]) -> Option<(u32, &[u8])>
    ensures { IfSome result (λ read. (1 ≤ read.0) × (read.0 < 10) × (text.now ≡ (48 + read.0) ∷ read.1.now)) }
{
    match text {
        [digit @ b'1'..=b'9', rest @ ..] => Some((u32::from(*digit - b'0'), rest)),
        _ => None,
    }
}

// The number that the text begins with, and what stands behind it.
#[inline(always)]
pub(crate) fn front_number(text: &[u8], most: u64) -> Option<(u64, &[u8])>
    ensures { IfSome result (λ read. (read.0 ≤ most) × (text.now ≡ decimal read.0 ++ read.1.now)) }
{
    let (number, size) = front_digits(text);
    if size == 0 || most < number {
        return None;
    }
    let (_, rest) = text.split_at(size);
    Some((number, rest))
}

// The number that the text begins with, and how many digits it has, or none. It stands apart, since a loop in
// the midst of all that is known of a line has no registers left.
#[inline(never)]
fn front_digits(text: &[u8]) -> (u64, usize)
    ensures within { result.1 ≤ length text.now }
    ensures number { 0 < result.1 → take result.1 text.now ≡ decimal result.0 }
{
    match read_number(text, 0, u64::MAX) {
        Ok((number, size)) => (number, size),
        Err(_) => (0, 0),
    }
}

// The number with a sign that the text begins with, and what stands behind it.
pub(crate) fn front_signed(text: &[u8]) -> Option<(i64, &[u8])>
    ensures { IfSome result (λ read. IsDueInRange (Some read.0) × (text.now ≡ signed_decimal read.0 ++ read.1.now)) }
{
    let Ok((number, size)) = read_signed(text) else {
        return None;
    };
    let (_, rest) = text.split_at(size);
    Some((number, rest))
}
