//! Words, and choices among what was read.

ghost use Rattle.std.specs.Prelude.{◌≡◌, ◌≢◌, ◌<◌, ◌≤◌, ℕ, List, ◌∷◌, ◌++◌, IfSome, IsTrue, MatchOption, drop, length, take, slice_index};
ghost use Rattle.line_grammar.specs.Language.{IsRead};
ghost use Rattle.line_grammar.specs.Parts.{Opens};
ghost use Rattle.line_grammar.specs.Words.{Word, EndsWord, further_of, is_solid, lacks, something_of};

/// Reads the word with these bytes at the front of the text, which then stands for `meaning`.
pub fn read_bytes<V: Copy>(meaning: V, word: &[u8], text: &[u8]) -> Result<(V, usize), usize>
    ensures { IsRead (Word meaning word.now) text.now result }
{
    let size = shared_front(word, text);
    if size == word.len() {
        Ok((meaning, size))
    } else {
        Err(size)
    }
}

/// Of what two readers found at the front of one text, the one that came further.
pub fn further<V: Copy>(
    one: Result<(V, usize), usize>,
    other: Result<(V, usize), usize>,
) -> Result<(V, usize), usize>
    ensures { result ≡ further_of one other }
{
    match (one, other) {
        (Ok((v, n)), Ok((w, m))) => if n < m { Ok((w, m)) } else { Ok((v, n)) },
        (Ok((v, n)), Err(k)) => if n < k { Err(k) } else { Ok((v, n)) },
        (Err(k), Ok((w, m))) => if m < k { Err(k) } else { Ok((w, m)) },
        (Err(j), Err(k)) => if j < k { Err(k) } else { Err(j) },
    }
}

/// What a reader found, as something: the other choice is a word that stands for nothing.
pub fn something<V: Copy>(read: Result<(V, usize), usize>) -> Result<(Option<V>, usize), usize>
    ensures { result ≡ something_of read }
{
    match read {
        Ok((value, size)) => Ok((Some(value), size)),
        Err(place) => Err(place),
    }
}

// How many bytes the word and the text share at their fronts.
fn shared_front(word: &[u8], text: &[u8]) -> usize
    ensures word { result ≤ length word.now }
    ensures text { result ≤ length text.now }
    ensures shared { take result word.now ≡ take result text.now }
    ensures apart { result < length word.now → result < length text.now →
        slice_index word.now result ≢ slice_index text.now result }
{
    let mut size = 0;
    while size < word.len() && size < text.len() && word[size] == text[size] {
        size += 1;
    }
    size
}

/// What stands behind the byte, if the text begins with it.
pub fn behind(first: u8, text: &[u8]) -> Option<&[u8]>
    ensures { MatchOption result
        ((byte : ℕ) (rest : List ℕ) → text.now ≡ byte ∷ rest → byte ≢ first)
        (λ rest. text.now ≡ first ∷ rest.now) }
{
    match text {
        [byte, rest @ ..] if *byte == first => Some(rest),
        _ => None,
    }
}

/// What stands behind the word, if the text begins with it.
#[inline(always)]
pub fn behind_word<'a>(word: &[u8], text: &'a [u8]) -> Option<&'a [u8]>
    ensures { IfSome result (λ rest. text.now ≡ word.now ++ rest.now) }
{
    if text.len() < word.len() {
        return None;
    }
    for index in 0..word.len() {
        if text[index] != word[index] {
            return None;
        }
    }
    let (_, rest) = text.split_at(word.len());
    Some(rest)
}

/// How many bytes the text has before the first separator, or in all.
pub fn size_before(separator: u8, text: &[u8]) -> usize
    ensures within { result ≤ length text.now }
    ensures lacking { IsTrue (lacks separator (take result text.now)) }
    ensures ended { Opens separator (drop result text.now) }
{
    for (index, byte) in text.iter().enumerate() {
        if *byte == separator {
            return index;
        }
    }
    text.len()
}

/// How many bytes the text has before its first byte below `-`, or in all. Letters, digits and dashes are
/// no such bytes; a space and a line feed are.
pub fn word_size(text: &[u8]) -> usize
    ensures within { result ≤ length text.now }
    ensures solid { IsTrue (is_solid (take result text.now)) }
    ensures ended { EndsWord (drop result text.now) }
{
    for (place, byte) in text.iter().enumerate() {
        if *byte < b'-' {
            return place;
        }
    }
    text.len()
}
