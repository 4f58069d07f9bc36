//! The lines of traces and histories, each with its line feed.

ghost use Rattle.std.specs.Prelude.{◌≡◌, ◌≤◌, ◌++◌, ◌∷◌, [], IfOk, IfSome, string_bytes};
ghost use Rattle.line_grammar.specs.Language.{IsRead};
ghost use Rattle.tp_lines.specs.Answers.{EntryLines};
ghost use Rattle.tp_lines.specs.Calls.{CallLines};
ghost use Rattle.tp_report.specs.declared.headers.Format.TheVariants.{Two};
ghost use Rattle.tp_report.specs.declared.lines.Line.{Line as Written};
ghost use Rattle.tp_report.specs.Histories.{end_line, HeaderLines, Lines};
ghost use Rattle.line_grammar.specs.Traces.{Ended};
ghost use Rattle.tp_report.specs.Readings.{IsEndRead, IsNext, IsStamp, read_as};

use crate::headers::{Format, Header, read_header};
use crate::moments::{Stamp, read_moment};
use frequent_lines::{read_good_call, read_good_entry, read_rare_call, read_rare_entry};
use line_grammar::words::{behind, read_bytes};
use std::alloc::{AllocError, Global};
use tp_base::answers::Entry;
use tp_base::calls::Call;
use tp_base::ids::Who;
use tp_lines::calls::read_call_line;
use tp_lines::entries::read_entry;

/// The line of an entry: the entry, and in format 2 the time of the clock behind it.
#[derive(Clone, Copy)]
pub struct Line {
    pub moment: Option<u64>,
    pub entry: Entry,
}

/// What a line behind the header is.
#[derive(Clone, Copy)]
pub enum Next {
    /// One more entry, whose line has this size.
    Another { size: usize },
    /// The end line.
    End,
    /// No such line. It goes along with one up to this place.
    Fault { place: usize },
}

// What was read at the front of a text, with the line feed behind it.
macro_rules! ended {
    ($text:ident, $read:expr) => {
        match $read {
            Err(place) => Err(place),
            Ok((value, size)) => {
                let (_, rest) = $text.split_at(size);
                match behind(b'\n', rest) {
                    Some(_) => Ok((value, size + 1)),
                    None => Err(size),
                }
            }
        }
    };
}

/// What stands behind the front of a text, if the text begins with that.
#[inline(always)]
pub fn behind_text<'a>(front: &[u8], text: &'a [u8]) -> Option<&'a [u8]>
    ensures { IfSome result (λ rest. text.now ≡ front.now ++ rest.now) }
{
    if !text.starts_with(front) {
        return None;
    }
    let (_, rest) = text.split_at(front.len());
    Some(rest)
}

/// Reads the first line of a history.
pub fn read_header_line(text: &[u8]) -> Result<(Header, usize), usize>
    ensures { IsRead (Ended HeaderLines) text.now result }
{
    ended!(text, read_header(text))
}

/// Reads the line of a call, writes down the call and who makes it, and tells the size of the line.
#[inline(always)]
pub fn read_call(text: &[u8], made: &mut (Who, Call)) -> Result<usize, usize>
    ensures { IsRead (Ended CallLines) text.now (read_as made.new result) }
{
    match read_good_call(text, made) {
        Some(size) => Ok(size),
        None => read_other_call(text, made),
    }
}

// The others stand apart, so that what most lines need stays short.
#[inline(never)]
fn read_other_call(text: &[u8], made: &mut (Who, Call)) -> Result<usize, usize>
    ensures { IsRead (Ended CallLines) text.now (read_as made.new result) }
{
    if let Some(size) = read_rare_call(text, made) {
        return Ok(size);
    }
    let (line, size) = read_any_call(text)?;
    *made = line;
    Ok(size)
}

fn read_any_call(text: &[u8]) -> Result<((Who, Call), usize), usize>
    ensures { IsRead (Ended CallLines) text.now result }
{
    ended!(text, read_call_line(text))
}

// Reads the line of an entry, writes the entry down, and tells the size of the line.
#[inline(always)]
fn read_entry_line(text: &[u8], entry: &mut Entry) -> Result<usize, usize>
    ensures { IsRead (Ended EntryLines) text.now (read_as entry.new result) }
{
    match read_good_entry(text, entry) {
        Some(size) => Ok(size),
        None => read_other_entry(text, entry),
    }
}

#[inline(never)]
fn read_other_entry(text: &[u8], entry: &mut Entry) -> Result<usize, usize>
    ensures { IsRead (Ended EntryLines) text.now (read_as entry.new result) }
{
    if let Some(size) = read_rare_entry(text, entry) {
        return Ok(size);
    }
    let (line, size) = read_any_entry(text)?;
    *entry = line;
    Ok(size)
}

fn read_any_entry(text: &[u8]) -> Result<(Entry, usize), usize>
    ensures { IsRead (Ended EntryLines) text.now result }
{
    ended!(text, read_entry(text))
}

// Reads a line of a history in this format, writes it down, and tells its size.
#[inline(always)]
fn read_line<'a>(
    format: Format,
    text: &'a [u8],
    stamp: &mut Stamp<'a>,
    line: &mut Line,
) -> Result<usize, usize>
    requires { IsStamp stamp.old }
    ensures stamp { IsStamp stamp.new }
    ensures read { IsRead (Ended (Lines format)) text.now (read_as line.new result) }
{
    match format {
        Format::One => {
            line.moment = None;
            read_entry_line(text, &mut line.entry)
        }
        Format::Two => read_moment_line(text, stamp, line),
    }
}

// Reads the line of an entry with its moment before it. It stands apart, so that a line without one is read as fast.
#[inline(never)]
fn read_moment_line<'a>(
    text: &'a [u8],
    stamp: &mut Stamp<'a>,
    line: &mut Line,
) -> Result<usize, usize>
    requires { IsStamp stamp.old }
    ensures stamp { IsStamp stamp.new }
    ensures read { IsRead (Ended (Lines Two)) text.now (read_as line.new result) }
{
    let rest = read_moment(text, stamp)?;
    line.moment = Some(stamp.moment);
    let size = stamp.text.len();
    match read_entry_line(rest, &mut line.entry) {
        Ok(more) => Ok(size + more),
        Err(place) => Err(size + place),
    }
}

// Where the text stops going along with the end line behind `len` entries, if it doesn't begin with it.
fn read_end_line(alloc: Global, text: &[u8], len: u32) -> Result<Option<usize>, AllocError>
    ensures { IfOk result (IsEndRead len text.now) }
{
    let line = format!(in alloc; "end {len}\n")?;
    let none: Option<Line> = None;
    match read_bytes(none, line.as_bytes(), text) {
        Ok(_) => Ok(None),
        Err(place) => Ok(Some(place)),
    }
}

/// Reads the line behind the header of a history and `len` entries. Where it is that of one more entry, it is written
/// down.
#[inline(always)]
pub fn read_next_line<'a>(
    alloc: Global,
    text: &'a [u8],
    header: &Header,
    len: u32,
    stamp: &mut Stamp<'a>,
    line: &mut Line,
) -> Result<Next, AllocError>
    requires few { len ≤ header.now.events }
    requires stamp { IsStamp stamp.old }
    ensures stamp { IsStamp stamp.new }
    ensures next { IfOk result (IsNext header.now len text.now line.new) }
{
    if len == header.events {
        return read_last_line(alloc, text, header, len);
    }
    match read_line(header.format, text, stamp, line) {
        Ok(size) => Ok(Next::Another { size }),
        Err(place) => match read_end_line(alloc, text, len)? {
            None => Ok(Next::End),
            Some(other) => Ok(Next::Fault {
                place: place.max(other),
            }),
        },
    }
}

// Reads the line behind as many entries as the history has room for.
fn read_last_line(alloc: Global, text: &[u8], header: &Header, len: u32) -> Result<Next, AllocError>
    requires { len ≡ header.now.events }
    ensures { (line : Written) → IfOk result (IsNext header.now len text.now line) }
{
    match read_end_line(alloc, text, len)? {
        None => Ok(Next::End),
        Some(place) => Ok(Next::Fault { place }),
    }
}
