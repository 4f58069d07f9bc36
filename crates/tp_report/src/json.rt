//! The summary of a history as JSON.

ghost use Rattle.std.specs.Prelude.{◌≡◌, ◌++◌, ◌∷◌, [], map, string_bytes, IfOk, OnErr, OnOk};
ghost use Rattle.serde_json.specs.View.{view};
ghost use Rattle.serde_json.specs.Written.{compact_text};
ghost use Rattle.tp_model.specs.Over.{row_of};
ghost use Rattle.tp_report.specs.Json.{json_line, json_of_totals, numbers_of};
ghost use Rattle.tp_report.specs.Summaries.{totals_behind, IsNoneLost};
ghost use Rattle.tp_report.specs.Summing.{totals_told};

use crate::counts::Counted;
use crate::left::LeftRow;
use crate::summary::{Summary, summarize};
use recorded::Recorded;
use serde_json::{Value, json};
use std::alloc::{AllocError, Global};

/// Appends the summary of a book's history as one line, an object of JSON with its counts and the
/// numbers of the callbacks that are left. On want of memory nothing is appended.
pub fn print_json<B: Recorded>(
    alloc: Global,
    book: &Counted<B>,
    out: &mut Vec<u8>,
) -> Result<(), AllocError>
    ensures ok { OnOk result (out.new.items ≡ out.old.items ++ json_line (totals_behind book.now)) }
    ensures err { OnErr result (out.new.items ≡ out.old.items) }
    ensures none_lost { IsNoneLost (totals_behind book.now) }
{
    let summary = summarize(alloc, book)?;
    let mut line = json_text(alloc, &summary)?;
    line.push('\n')?;
    out.extend_from_slice(line.as_bytes())?;
    Ok(())
}

// The object, without a line feed.
fn json_text(alloc: Global, summary: &Summary) -> Result<String, AllocError>
    ensures { IfOk result (λ text. string_bytes text ≡ compact_text (json_of_totals (totals_told summary.now))) }
{
    let value = json_value(alloc, summary)?;
    value.to_string(alloc)
}

fn json_value(alloc: Global, summary: &Summary) -> Result<Value, AllocError>
    ensures { IfOk result (λ value. view value ≡ json_of_totals (totals_told summary.now)) }
{
    let numbers = left_numbers(alloc, &summary.left)?;
    json!(in alloc; {
        "callbacks": summary.callbacks,
        "cancelled": summary.cancelled,
        "entries": summary.entries,
        "left": summary.left.len(),
        "left_callbacks": numbers,
        "refused": summary.refused,
        "taken": summary.taken
    })
}

// The numbers of those that are left.
fn left_numbers(alloc: Global, rows: &[LeftRow]) -> Result<Value, AllocError>
    ensures { IfOk result (λ value. view value ≡ numbers_of (map row_of rows.now)) }
{
    let mut numbers = Vec::new(alloc);
    for row in rows {
        numbers.push(Value::from(row.0))?;
    }
    Ok(Value::Array(numbers))
}
