//! The lines of a text, and the words of a line.

ghost use Rattle.std.specs.Prelude.{◌≡◌, ◌+◌, ◌<◌, ◌≤◌, ◌^◌, ℕ, [], ◌∷◌, MatchOption, drop, false, length};
ghost use Rattle.script_lines.specs.Texts.{are_name_bytes, begins_with_space, is_blank, is_first_byte, is_name, lines_of, without_first, words_from};

use line_grammar::words::size_before;

/// A word at its column, which is 1 at the front of a line, and what stands behind it.
#[derive(Drop)]
pub struct Spot<'a> {
    pub column: u32,
    pub word: &'a [u8],
    pub rest: &'a [u8],
}

/// The first line of a text, and what stands behind it. There is none in an empty text.
pub fn next_line(text: &[u8]) -> Option<(&[u8], &[u8])>
    ensures lines { MatchOption result (lines_of text.now ≡ []) (λ line. lines_of text.now ≡ line.0.now ∷ lines_of line.1.now) }
    ensures within { MatchOption result (text.now ≡ []) (λ line. length line.0.now + length line.1.now ≤ length text.now) }
    ensures shorter { MatchOption result (text.now ≡ []) (λ line. length line.1.now < length text.now) }
{
    if text.is_empty() {
        return None;
    }
    let size = size_before(b'\n', text);
    let (line, behind) = text.split_at(size);
    Some((line, without_first(behind)))
}

// The text without its first byte.
fn without_first(text: &[u8]) -> &[u8]
    ensures { result.now ≡ without_first text.now }
{
    match text {
        [_, rest @ ..] => rest,
        [] => text,
    }
}

/// The first word of a text whose first byte is at this column, and what stands behind it. There is none where all is
/// spaces.
pub fn next_word<'a>(column: u32, text: &'a [u8]) -> Option<Spot<'a>>
    requires { column + length text.now < 2 ^ 32 }
    ensures words { MatchOption result (words_from column text.now ≡ [])
        (λ spot. words_from column text.now ≡ (record { column = spot.column; word = spot.word.now }) ∷ words_from (spot.column + length spot.word.now) spot.rest.now) }
    ensures within { MatchOption result (words_from column text.now ≡ []) (λ spot. spot.column + length spot.word.now + length spot.rest.now ≤ column + length text.now) }
    ensures shorter { MatchOption result (words_from column text.now ≡ []) (λ spot. length spot.rest.now < length text.now) }
{
    let spaces = leading_spaces(text);
    let (_, rest) = text.split_at(spaces);
    if rest.is_empty() {
        return None;
    }
    let size = size_before(b' ', rest);
    let (word, rest) = rest.split_at(size);
    Some(Spot {
        column: column + spaces as u32,
        word,
        rest,
    })
}

// How many spaces a text begins with.
fn leading_spaces(text: &[u8]) -> usize
    ensures within { result ≤ length text.now }
    ensures same { (column : ℕ) → words_from (column + result) (drop result text.now) ≡ words_from column text.now }
    ensures ended { begins_with_space (drop result text.now) ≡ false }
{
    for (index, byte) in text.iter().enumerate() {
        if *byte != b' ' {
            return index;
        }
    }
    text.len()
}

/// Whether a line has no meaning: it has no word, or its first word begins with `#`.
pub fn is_blank(text: &[u8]) -> bool
    requires { length text.now + 1 < 2 ^ 32 }
    ensures { result ≡ is_blank (words_from 1 text.now) }
{
    match next_word(1, text) {
        Some(spot) => matches!(spot.word, [b'#', ..]),
        None => true,
    }
}

/// Whether the word can be a name: a letter, and at most 31 letters, digits and `_` behind it. `none` is no name.
pub fn is_name(word: &[u8]) -> bool
    ensures { result ≡ is_name word.now }
{
    match word {
        [first, rest @ ..] => {
            is_first_byte(*first)
                && rest.len() <= 31
                && are_name_bytes(rest)
                && word != b"none".as_slice()
        }
        [] => false,
    }
}

fn is_first_byte(byte: u8) -> bool
    ensures { result ≡ is_first_byte byte }
{
    b'a' <= byte && byte <= b'z'
}

fn are_name_bytes(bytes: &[u8]) -> bool
    ensures { result ≡ are_name_bytes bytes.now }
{
    match bytes {
        [byte, rest @ ..] => {
            let fits = is_first_byte(*byte) || b'0' <= *byte && *byte <= b'9' || *byte == b'_';
            fits && are_name_bytes(rest)
        }
        [] => true,
    }
}
