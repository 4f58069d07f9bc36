//! A machine that writes its history down as a text, in format 2.

ghost use Rattle.std.specs.Prelude.{◌≡◌, IfOk};
ghost use Rattle.tp_report.specs.Histories.{history_told, IsReadBack};
ghost use Rattle.tp_report.specs.Writing.{IsWritten};

use crate::frame::{append_end, append_header};
use crate::moments::clock_after;
use kept_book::{Observed, Observer};
use recorded::Recorded;
use std::alloc::{AllocError, Global};
use tp_base::answers::Answer;
use tp_base::calls::Call;
use tp_base::ids::Who;
use tp_base::limits::Limits;
use tp_lines::reserved::ReservedLines;

/// A machine, and the lines of its history's entries, written as they are made.
pub type Written<B> = Observed<B, WrittenLines>;

/// The first line of a history, and those of its entries, each with its moment.
///
/// The memory for the lines is taken where the history is opened, as much as the longest lines of the longest
/// history need. What no line stands in isn't touched.
#[derive(Drop)]
pub struct WrittenLines {
    lines: ReservedLines,
    // The time of the clock behind the last entry.
    now: u64,
}

impl Observer for WrittenLines {
    ghost HasNoted = { λ r written. IsWritten r written.lines written.now };

    fn open(alloc: Global, limits: Limits, capacity: u32) -> Result<WrittenLines, AllocError> {
        let mut first = Vec::new(alloc);
        append_header(alloc, limits, capacity, &mut first)?;
        let lines = ReservedLines::behind(first, capacity.max(limits.clients))?;
        Ok(WrittenLines { lines, now: 0 })
    }

    #[inline(always)]
    fn note(&mut self, who: Who, call: &Call, answer: &Answer) {
        self.now = clock_after(self.now, call, answer);
        self.lines.entry(self.now, who, call, answer);
    }
}

/// The machine, and its history as a text, which `check` can read: its first line, a line for each entry, and
/// the end line with their number. An `AllocError` comes where memory for the end line isn't there.
pub fn into_history<B: Recorded>(
    alloc: Global,
    written: Written<B>,
) -> Result<(B, Vec<u8>), AllocError>
    ensures machine { IfOk result (λ parts. B.recording parts.0 ≡ written) }
    ensures text { IfOk result (λ parts. parts.1.items ≡ history_told written) }
    ensures read_back { IsReadBack written }
{
    let (book, WrittenLines { lines, .. }) = written.into_parts();
    let mut text = lines.into_text();
    append_end(alloc, book.len(), &mut text)?;
    Ok((book, text))
}
