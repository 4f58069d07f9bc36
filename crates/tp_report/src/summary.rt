//! Summaries of histories.

ghost use Rattle.std.specs.Prelude.{◌≡◌, ◌++◌, ◌∷◌, [], decimal, map, IfOk, OnErr, OnOk};
ghost use Rattle.line_grammar.specs.Traces.{trace_text};
ghost use Rattle.tp_model.specs.Over.{row_of, status_of};
ghost use Rattle.tp_report.specs.Summaries.{count_line, left_line, status_word, text_of_totals, totals_behind, IsNoneLost};
ghost use Rattle.tp_report.specs.Summing.{totals_told};

use crate::counts::Counted;
use crate::left::{LeftRow, left_callbacks};
use itoa::Buffer;
use recorded::Recorded;
use std::alloc::{AllocError, Global};
use tp_model::Left;

/// What is said of a whole history.
#[derive(Drop)]
pub struct Summary {
    /// How many entries it has.
    pub entries: u32,
    /// How many callbacks were made, those of I/O operations among them.
    pub callbacks: u64,
    /// How many of them workers took.
    pub taken: u32,
    /// How many were cancelled.
    pub cancelled: u64,
    /// Those that may still run, by rising number.
    pub left: Vec<LeftRow>,
    /// How many entries are refusals.
    pub refused: u32,
}

/// Appends the summary of a book's history: how many entries it has, how many callbacks were made, taken
/// and cancelled, how many are left, a line for each that is left, and how many calls were refused. On
/// want of memory nothing is appended.
pub fn print_summary<B: Recorded>(
    alloc: Global,
    book: &Counted<B>,
    out: &mut Vec<u8>,
) -> Result<(), AllocError>
    ensures ok { OnOk result (out.new.items ≡ out.old.items ++ text_of_totals (totals_behind book.now)) }
    ensures err { OnErr result (out.new.items ≡ out.old.items) }
    // Each callback that was made was taken or cancelled, or is left.
    ensures none_lost { IsNoneLost (totals_behind book.now) }
{
    let summary = summarize(alloc, book)?;
    let text = summary_lines(alloc, &summary)?;
    out.extend_from_slice(&text)?;
    Ok(())
}

/// Counts what a book's history tells.
pub fn summarize<B: Recorded>(alloc: Global, book: &Counted<B>) -> Result<Summary, AllocError>
    ensures ok { IfOk result (λ summary. totals_told summary ≡ totals_behind book.now) }
    ensures none_lost { IsNoneLost (totals_behind book.now) }
{
    let entries = book.len();
    let counts = book.observer();
    let left = left_callbacks(alloc, book)?;
    Ok(Summary {
        entries,
        callbacks: counts.made,
        taken: counts.taken,
        // What was made was taken or cancelled, or is left.
        cancelled: counts.made - u64::from(counts.taken) - left.len() as u64,
        left,
        refused: counts.refused,
    })
}

// The lines of a summary.
fn summary_lines(alloc: Global, summary: &Summary) -> Result<Vec<u8>, AllocError>
    ensures { IfOk result (λ text. text.items ≡ text_of_totals (totals_told summary.now)) }
{
    let mut text = Vec::new(alloc);
    append_count(alloc, "entries", u64::from(summary.entries), &mut text)?;
    append_count(alloc, "callbacks", summary.callbacks, &mut text)?;
    append_count(alloc, "taken", u64::from(summary.taken), &mut text)?;
    append_count(alloc, "cancelled", summary.cancelled, &mut text)?;
    append_count(alloc, "left", summary.left.len() as u64, &mut text)?;
    append_left(&summary.left, &mut text)?;
    append_count(alloc, "refused", u64::from(summary.refused), &mut text)?;
    Ok(text)
}

// Appends a line of a name and a number.
fn append_count(alloc: Global, name: &str, count: u64, text: &mut Vec<u8>) -> Result<(), AllocError>
    ensures { OnOk result (text.new.items ≡ text.old.items ++ (count_line name.now count ++ 10 ∷ [])) }
{
    let line = format!(in alloc; "{name} {count}\n")?;
    text.extend_from_slice(line.as_bytes())?;
    Ok(())
}

// Appends a line for each callback that is left.
fn append_left(rows: &[LeftRow], text: &mut Vec<u8>) -> Result<(), AllocError>
    ensures { OnOk result (text.new.items ≡ text.old.items ++ trace_text (map left_line (map row_of rows.now))) }
{
    for row in rows {
        append_row(row, text)?;
    }
    Ok(())
}

// Appends the line of one that is left, with its line feed.
fn append_row(row: &LeftRow, text: &mut Vec<u8>) -> Result<(), AllocError>
    ensures { OnOk result (text.new.items ≡ text.old.items ++ (left_line (row_of row.now) ++ 10 ∷ [])) }
{
    let (number, object, left) = *row;
    text.extend_from_slice(b"left-callback ")?;
    append_number(number, text)?;
    text.extend_from_slice(b" o")?;
    append_number(u64::from(object.0), text)?;
    text.push(b' ')?;
    text.extend_from_slice(left_word(left).as_bytes())?;
    text.push(b'\n')?;
    Ok(())
}

// Appends a number. A format would take memory of its own for each.
fn append_number(number: u64, text: &mut Vec<u8>) -> Result<(), AllocError>
    ensures { OnOk result (text.new.items ≡ text.old.items ++ decimal number) }
{
    let mut digits = Buffer::new();
    text.extend_from_slice(digits.format(number).as_bytes())
}

// How far it has come, as a word.
fn left_word(left: Left) -> &'static str
    ensures { result.now ≡ status_word (status_of left) }
{
    match left {
        Left::Expected => "expected",
        Left::Issued => "issued",
        Left::Pending => "pending",
    }
}
