//! Whole scripts.

ghost use Rattle.std.specs.Prelude.{◌≡◌, ◌+◌, ◌≤◌, ◌<◌, ◌^◌, [], IfErr, IfOk, MatchResult, OnOk, length, vec_len};
ghost use Rattle.script_lines.specs.Texts.{lines_of, words_from};
ghost use Rattle.tp_script.specs.Answers.{IsAdded, IsLineFaultAt, IsScriptFault};
ghost use Rattle.tp_script.specs.Scripts.{AreLinesOf, is_local, known_after, named_by, sort_made, sort_of_kind, with_routine, with_routine_behind, with_routine_name, with_routines};

use crate::fault::ScriptFault;
use crate::numbered::NumberedLine;
use script_lines::{
    Known, Line, Meaning, Named, ScriptKind, Sort, State, Table, Word, is_blank, is_name,
    next_line, next_word, read_line,
};
use std::alloc::{AllocError, Global};
use tp_base::calls::Kind;

/// Reads the lines of a whole script. At a fault what was read is lost.
pub fn read_lines(alloc: Global, bytes: &[u8]) -> Result<Vec<NumberedLine>, ScriptFault>
    requires { length bytes.now + 1 < 2 ^ 32 }
    ensures place { MatchResult result (λ rows. AreLinesOf bytes.now rows.items) (IsScriptFault bytes.now) }
    ensures few { IfOk result (λ rows. vec_len rows ≤ length bytes.now) }
{
    let mut routines = Table::new(alloc);
    let Ok(count) = add_routines(&mut routines, bytes) else {
        return Err(ScriptFault::NoMemory);
    };
    let Ok(mut rows) = Vec::with_capacity(alloc, count) else {
        return Err(ScriptFault::NoMemory);
    };
    let mut known = Known {
        names: Table::new(alloc),
        routines,
        state: State::first(),
    };
    let mut rest = bytes;
    let mut number: u32 = 1;
    while let Some((text, behind)) = next_line(rest) {
        match add_line(&mut known, &mut rows, number, text) {
            Ok(()) => {}
            Err(fault) => return Err(fault),
        }
        rest = behind;
        number += 1;
    }
    if known.state.place.is_inside() {
        return Err(ScriptFault::At {
            line: number,
            column: 1,
            kind: ScriptKind::Unclosed,
        });
    }
    Ok(rows)
}

// Adds the line of this number, if it isn't blank.
fn add_line<'a>(
    known: &mut Known<'a>,
    rows: &mut Vec<NumberedLine>,
    number: u32,
    text: &'a [u8],
) -> Result<(), ScriptFault>
    requires { length text.now + 1 < 2 ^ 32 }
    ensures ok { OnOk result (IsAdded known.old rows.old.items number text.now known.new rows.new.items) }
    ensures err { IfErr result (IsLineFaultAt known.old number text.now) }
    ensures few { OnOk result (vec_len rows.new ≤ vec_len rows.old + 1) }
{
    if is_blank(text) {
        return Ok(());
    }
    let read = match read_line(known, text) {
        Ok(read) => read,
        Err(fault) => {
            return Err(ScriptFault::At {
                line: number,
                column: fault.column,
                kind: fault.kind,
            });
        }
    };
    let row = NumberedLine {
        number,
        line: read.line,
    };
    if rows.push(row).is_err() {
        return Err(ScriptFault::NoMemory);
    }
    if note(known, read.line, read.name).is_err() {
        return Err(ScriptFault::NoMemory);
    }
    Ok(())
}

// Takes note of a line that was read.
fn note<'a>(known: &mut Known<'a>, line: Line, name: &'a [u8]) -> Result<(), AllocError>
    ensures { OnOk result (known.new ≡ known_after known.old line name.now) }
{
    let state = known.state;
    if line.made != 0 {
        known.names.add(name, named_by(line, state))?;
    }
    known.state = state.after(line);
    Ok(())
}

// The first pass over a script: adds the names of its routines, which may be used before they are declared. The answer
// is how many lines there are.
fn add_routines<'a>(routines: &mut Table<'a>, bytes: &'a [u8]) -> Result<usize, AllocError>
    requires { length bytes.now + 1 < 2 ^ 32 }
    ensures added { OnOk result (routines.new ≡ with_routines routines.old (lines_of bytes.now)) }
    ensures few { IfOk result (λ lines. lines ≤ length bytes.now) }
{
    let mut lines: usize = 0;
    let mut rest = bytes;
    while let Some((text, behind)) = next_line(rest) {
        add_routine(routines, text)?;
        lines += 1;
        rest = behind;
    }
    Ok(lines)
}

// Adds the routine of a line, if it begins one.
fn add_routine<'a>(routines: &mut Table<'a>, text: &'a [u8]) -> Result<(), AllocError>
    requires { length text.now + 1 < 2 ^ 32 }
    ensures { OnOk result (routines.new ≡ with_routine routines.old (words_from 1 text.now)) }
{
    match next_word(1, text) {
        Some(head) if head.word == b"routine".as_slice() => {
            add_routine_behind(routines, head.column + head.word.len() as u32, head.rest)
        }
        _ => Ok(()),
    }
}

// Adds the routine whose name is the first word of what stands behind the word `routine`.
fn add_routine_behind<'a>(
    routines: &mut Table<'a>,
    column: u32,
    behind: &'a [u8],
) -> Result<(), AllocError>
    requires { column + length behind.now < 2 ^ 32 }
    ensures { OnOk result (routines.new ≡ with_routine_behind routines.old (words_from column behind.now)) }
{
    match next_word(column, behind) {
        Some(name) => add_routine_name(routines, name.word),
        None => Ok(()),
    }
}

fn add_routine_name<'a>(routines: &mut Table<'a>, name: &'a [u8]) -> Result<(), AllocError>
    ensures { OnOk result (routines.new ≡ with_routine_name routines.old name.now) }
{
    if is_name(name) && routines.find(name).is_none() {
        let others = routines.len();
        let number = if others < 65_535 {
            others as u16 + 1
        } else {
            65_535
        };
        routines.add(
            name,
            Named {
                meaning: Meaning {
                    sort: Sort::Routine,
                    local: false,
                    number,
                },
                section: 0,
            },
        )
    } else {
        Ok(())
    }
}

// The sort of an object of this kind.
fn sort_of_kind(kind: Kind) -> Sort
    ensures { result ≡ sort_of_kind kind }
{
    match kind {
        Kind::Work => Sort::Work,
        Kind::Timer => Sort::Timer,
        Kind::Wait => Sort::Wait,
        Kind::Io => Sort::Io,
    }
}

// What the new name of a line stands for.
fn sort_made(head: Word, kind: Kind) -> Sort
    ensures { result ≡ sort_made head kind }
{
    match head {
        Word::Pool => Sort::Pool,
        Word::Group => Sort::Group,
        Word::Event => Sort::Event,
        Word::Semaphore => Sort::Semaphore,
        Word::Mutex => Sort::Mutex,
        Word::Section => Sort::Section,
        Word::Memory => Sort::Memory,
        Word::Routine => Sort::Routine,
        Word::IssueIo => Sort::Operation,
        _ => sort_of_kind(kind),
    }
}

/// Whether the new name of a line is of its section alone.
fn is_local(head: Word) -> bool
    ensures { result ≡ is_local head }
{
    matches!(head, Word::Let | Word::IssueIo)
}

// What the new name of a line stands for, and where.
fn named_by(line: Line, state: State) -> Named
    ensures { result ≡ named_by line state }
{
    let local = is_local(line.head);
    Named {
        meaning: Meaning {
            sort: sort_made(line.head, line.kind),
            local,
            number: line.made,
        },
        section: if local { state.section } else { 0 },
    }
}
