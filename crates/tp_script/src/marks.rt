//! What a script says between its operations.

ghost use Rattle.std.specs.Prelude.{◌≡◌, ◌≤◌, drop, length, take};
ghost use Rattle.std.specs.List.{filter};
ghost use Rattle.tp_script.specs.Kept.{AreFrom, AreRising};
ghost use Rattle.tp_script.specs.Parsed.{act_of, quiet_of};
ghost use Rattle.tp_script.specs.Parts.{is_within};

use script_lines::{Line, Meaning, Word};

/// What is said of a memory, or of the callbacks of an object or a group.
#[derive(Clone, Copy)]
pub enum Act {
    /// The part uses the memory of this number from here on.
    Use(u16),
    /// Its use ends.
    Drop(u16),
    /// The memory is gone.
    Free(u16),
    /// From here on no callback of the object runs, and none begins. Its name may be a local one.
    QuietObject(Meaning),
    /// The same of the group of this number.
    QuietGroup(u16),
}

/// What is said between the operations of a part, and where.
#[derive(Clone, Copy)]
pub struct Mark {
    /// How many lines of the script stand before it that are played.
    pub place: u32,
    /// Its line in the text, from 1.
    pub line: u32,
    pub act: Act,
}

/// What a line says, if it is a mark.
#[inline(always)]
pub fn act_of(line: &Line) -> Option<Act>
    ensures { result ≡ act_of line.now }
{
    match line.head {
        Word::Use => Some(Act::Use(line.object.number)),
        Word::Drop => Some(Act::Drop(line.object.number)),
        Word::Free => Some(Act::Free(line.object.number)),
        Word::Quiet => Some(quiet_of(line)),
        _ => None,
    }
}

fn quiet_of(line: &Line) -> Act
    ensures { result ≡ quiet_of line.now }
{
    if line.group == 0 {
        Act::QuietObject(line.object)
    } else {
        Act::QuietGroup(line.group)
    }
}

/// The marks that stand at these places.
pub fn marks_between(marks: &[Mark], first: u64, last: u64) -> &[Mark]
    requires { AreRising marks.now }
    ensures { result.now ≡ filter (is_within first last) marks.now }
{
    let (_, behind) = marks.split_at(count_before(marks, first, last));
    let (there, _) = behind.split_at(count_within(behind, first, last));
    there
}

// How many marks in front stand before the first of these places.
fn count_before(marks: &[Mark], first: u64, last: u64) -> usize
    requires { AreRising marks.now }
    ensures within { result ≤ length marks.now }
    ensures same { filter (is_within first last) (drop result marks.now) ≡ filter (is_within first last) marks.now }
    ensures rising { AreRising (drop result marks.now) }
    ensures behind { AreFrom first (drop result marks.now) }
{
    for (index, mark) in marks.iter().enumerate() {
        if first <= u64::from(mark.place) {
            return index;
        }
    }
    marks.len()
}

// How many marks in front stand at these places, where none stands before the first.
fn count_within(marks: &[Mark], first: u64, last: u64) -> usize
    requires rising { AreRising marks.now }
    requires behind { AreFrom first marks.now }
    ensures within { result ≤ length marks.now }
    ensures all { filter (is_within first last) marks.now ≡ take result marks.now }
{
    for (index, mark) in marks.iter().enumerate() {
        if last < u64::from(mark.place) {
            return index;
        }
    }
    marks.len()
}
