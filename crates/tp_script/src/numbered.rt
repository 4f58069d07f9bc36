//! The lines of a script with their numbers, and what is kept of them.

ghost use Rattle.std.specs.Prelude.{◌≡◌, ◌<◌, ◌≤◌, ◌^◌, IfOk, length, vec_len};
ghost use Rattle.tp_script.specs.Kept.{AreRising};
ghost use Rattle.tp_script.specs.Parsed.{is_among, is_played, marks_from, numbers_among, played};

use crate::marks::{Mark, act_of};
use script_lines::{Line, Word};
use std::alloc::{AllocError, Global};

/// A line of a script, and its number in the text, from 1.
#[derive(Clone, Copy)]
pub struct NumberedLine {
    pub number: u32,
    pub line: Line,
}

/// Lines of a script, by what they are for.
#[derive(Clone, Copy)]
pub enum Among {
    /// Of which calls come, or which begin or end a part.
    Played,
    /// The declarations of memories, objects and groups.
    Memories,
    Objects,
    Groups,
}

impl Among {
    fn has(self, head: Word) -> bool
        ensures { result ≡ is_among self head }
    {
        match self {
            Among::Played => is_played(head),
            Among::Memories => matches!(head, Word::Memory),
            Among::Objects => matches!(head, Word::Object(_)),
            Among::Groups => matches!(head, Word::Group),
        }
    }
}

// Whether calls come of a line, or it begins or ends a part. A memory is declared without a call, and a mark makes none.
fn is_played(head: Word) -> bool
    ensures { result ≡ is_played head }
{
    !matches!(
        head,
        Word::Memory | Word::Use | Word::Drop | Word::Free | Word::Quiet
    )
}

/// The lines that are played.
pub fn played_lines(alloc: Global, rows: &[NumberedLine]) -> Result<Vec<Line>, AllocError>
    ensures all { IfOk result (λ lines. lines.items ≡ played rows.now) }
    ensures few { IfOk result (λ lines. vec_len lines ≤ length rows.now) }
{
    let mut lines = Vec::with_capacity(alloc, rows.len())?;
    for row in rows {
        if is_played(row.line.head) {
            lines.push(row.line)?;
        }
    }
    Ok(lines)
}

/// The numbers of the lines that are among these.
pub fn numbers_among(
    alloc: Global,
    rows: &[NumberedLine],
    among: Among,
) -> Result<Vec<u32>, AllocError>
    ensures all { IfOk result (λ numbers. numbers.items ≡ numbers_among among rows.now) }
    ensures few { IfOk result (λ numbers. vec_len numbers ≤ length rows.now) }
{
    let mut numbers = Vec::new(alloc);
    for row in rows {
        if among.has(row.line.head) {
            numbers.push(row.number)?;
        }
    }
    Ok(numbers)
}

/// The marks.
pub fn marks_of(alloc: Global, rows: &[NumberedLine]) -> Result<Vec<Mark>, AllocError>
    requires { length rows.now < 2 ^ 32 }
    ensures all { IfOk result (λ marks. marks.items ≡ marks_from 0 rows.now) }
    ensures rising { IfOk result (λ marks. AreRising marks.items) }
{
    let mut marks = Vec::new(alloc);
    let mut place: u32 = 0;
    for row in rows {
        if let Some(act) = act_of(&row.line) {
            marks.push(Mark {
                place,
                line: row.number,
                act,
            })?;
        }
        if is_played(row.line.head) {
            place += 1;
        }
    }
    Ok(marks)
}
