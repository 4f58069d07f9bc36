//! Fast reading of the lines that most traces and histories are made of.
//!
//! What is read here is a line of tp_lines. Where nothing is read, the text may begin with a line all the
//! same: the readers of tp_lines decide, and find the place of a fault.
//!
//! ```text
//! read_good_call(b"w1 take\n..", &mut made)       // Some(8), and made is (Who::Worker(1), Call::Take)
//! read_good_call(b"w1 take 7\n", &mut made)       // None
//! ```

#![tactic(auto)]

ghost use Rattle.std.specs.Prelude.{IfSome};
ghost use Rattle.line_grammar.specs.Traces.{IsAhead};
ghost use Rattle.tp_lines.specs.Answers.{EntryLines};
ghost use Rattle.tp_lines.specs.Calls.{CallLines};

mod answers;
mod calls;
mod lines;
mod numbers;

use line_grammar::words::behind;
use lines::{front_entry, front_line, rare_entry, rare_line};
use tp_base::answers::Entry;
use tp_base::calls::Call;
use tp_base::ids::Who;

/// Reads the line of a call that the text begins with, where that is a frequent one, writes down the call and
/// who makes it, and tells how many bytes the line has, its line feed included. `None` says nothing of the
/// text, and then what was written down says nothing either. No memory is taken.
#[inline(always)]
pub fn read_good_call(text: &[u8], made: &mut (Who, Call)) -> Option<usize>
    ensures { IfSome result (λ size. IsAhead CallLines text.now made.new size) }
{
    let rest = front_line(text, made)?;
    let more = behind(b'\n', rest)?;
    Some(text.len() - more.len())
}

/// The same for the line of an entry.
#[inline(always)]
pub fn read_good_entry(text: &[u8], entry: &mut Entry) -> Option<usize>
    ensures { IfSome result (λ size. IsAhead EntryLines text.now entry.new size) }
{
    let rest = front_entry(text, entry)?;
    let more = behind(b'\n', rest)?;
    Some(text.len() - more.len())
}

/// The same for some lines of calls that are less frequent. It stands apart, so that what most lines need
/// stays short.
pub fn read_rare_call(text: &[u8], made: &mut (Who, Call)) -> Option<usize>
    ensures { IfSome result (λ size. IsAhead CallLines text.now made.new size) }
{
    let rest = rare_line(text, made)?;
    let more = behind(b'\n', rest)?;
    Some(text.len() - more.len())
}

/// The same for some lines of entries that are less frequent.
pub fn read_rare_entry(text: &[u8], entry: &mut Entry) -> Option<usize>
    ensures { IfSome result (λ size. IsAhead EntryLines text.now entry.new size) }
{
    let rest = rare_entry(text, entry)?;
    let more = behind(b'\n', rest)?;
    Some(text.len() - more.len())
}
