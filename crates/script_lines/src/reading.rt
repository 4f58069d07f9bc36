//! One line of a script, word by word.

ghost use Rattle.std.specs.Prelude.{◌≡◌, ◌+◌, ◌<◌, ◌^◌, [], ◌∷◌, MatchOption, MatchResult, length};
ghost use Rattle.script_lines.specs.Readings.{IsLineFault, IsLineRead, Steps, Trail as Way, kind_at};
ghost use Rattle.script_lines.specs.Seen.{seen};
ghost use Rattle.script_lines.specs.Texts.{words_from};

use crate::fault::ScriptKind;
use crate::judge::{Known, judge, kind_of_field};
use crate::line::{Line, Token, after, may_end};
use crate::texts::next_word;
use crate::words::Field;

/// A line that was read.
#[derive(Drop)]
pub struct LineRead<'a> {
    pub line: Line,
    /// The new name, where the line has one.
    pub name: &'a [u8],
}

/// Why a line may not stand where it stands, and the column of its first word that may not, or where a word is lacking.
#[derive(Clone, Copy)]
pub struct LineFault {
    pub column: u32,
    pub kind: ScriptKind,
}

/// How far a line was read.
#[derive(Drop)]
pub struct Trail<'a> {
    /// What may stand next.
    pub left: &'static [Field],
    /// What was said so far.
    pub line: Line,
    /// The new name, where one was read.
    pub name: &'a [u8],
}

/// Reads a line that isn't blank.
pub fn read_line<'a>(known: &Known<'_>, text: &'a [u8]) -> Result<LineRead<'a>, LineFault>
    requires { length text.now + 1 < 2 ^ 32 }
    ensures { MatchResult result
        (λ read. IsLineRead known.now (words_from 1 text.now) read.line read.name.now)
        (λ fault. IsLineFault known.now (words_from 1 text.now) fault.column fault.kind) }
{
    let mut trail = Trail {
        left: &[Field::Head],
        line: Line::blank(),
        name: &[],
    };
    let mut rest = text;
    let mut column: u32 = 1;
    while let Some(spot) = next_word(column, rest) {
        let Some(next) = step(known, &trail, spot.word) else {
            return Err(LineFault {
                column: spot.column,
                kind: kind_at(known, trail.left, spot.word),
            });
        };
        trail = next;
        column = spot.column + spot.word.len() as u32;
        rest = spot.rest;
    }
    if !may_end(trail.left) {
        return Err(LineFault {
            column,
            kind: ScriptKind::Unexpected,
        });
    }
    Ok(LineRead {
        line: trail.line,
        name: trail.name,
    })
}

// The trail behind one more word, or None where it may not stand next.
fn step<'a>(known: &Known<'_>, trail: &Trail<'a>, word: &'a [u8]) -> Option<Trail<'a>>
    ensures { MatchOption result
        ((next : Way) → Steps known.now (seen trail.now) word.now next → ⊥)
        (λ next. Steps known.now (seen trail.now) word.now (seen next)) }
{
    let [field, left @ ..] = trail.left else {
        return None;
    };
    let token = judge(known, *field, trail.line, word)?;
    Some(Trail {
        left: after(token, left),
        line: trail.line.put(token),
        name: match token {
            Token::Fresh(_) => word,
            _ => trail.name,
        },
    })
}

// Why a word may not stand next, where it may not.
fn kind_at(known: &Known<'_>, left: &'static [Field], word: &[u8]) -> ScriptKind
    ensures { result ≡ kind_at known.now left.now word.now }
{
    match left {
        [field, ..] => kind_of_field(known, *field, word),
        [] => ScriptKind::Unexpected,
    }
}
