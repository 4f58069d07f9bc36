//! Lines of entries with their moments, for which memory was taken beforehand.

ghost use Rattle.std.specs.Prelude.{◌≡◌, ◌+◌, ◌≤◌, ◌++◌, ◌∷◌, [], decimal, length, min, take, vec_capacity, IfOk};
ghost use Rattle.tp_lines.specs.Answers.{line_of_entry};

use crate::line;
use crate::print::put_entry;
use std::alloc::AllocError;
use std::marker::Model;
use tp_base::answers::Answer;
use tp_base::calls::Call;
use tp_base::ids::Who;

/// As much as a moment, a space and a line need.
const ROOM: usize = 544;

/// How many bytes are made ready at once for the lines to come.
const PAGE: usize = 1_024;

/// Lines that are printed one behind another, seen as their text and as how many more there is memory for. Printing
/// one takes no memory.
#[derive(Drop)]
pub struct ReservedLines {
    // Behind `end` stands nothing yet.
    bytes: Vec<u8>,
    end: usize,
}

impl Model for ReservedLines {
    ghost use Rattle.std.specs.Prelude.{◌≤◌, ◌-◌, ◌/◌, length, take, vec_capacity};
    ghost use Rattle.tp_lines.specs.Reserved.{Reserved};

    ghost Value = { Reserved };

    ghost view = { λ lines. record { text = take lines.end lines.bytes.items; room = (vec_capacity lines.bytes - lines.end) / 544 } };

    ghost invariant = { λ lines. lines.end ≤ length lines.bytes.items };
}

impl ReservedLines {
    /// A text, with memory for so many lines of entries behind it. An `AllocError` comes where that isn't there.
    pub fn behind(text: Vec<u8>, lines: u32) -> Result<ReservedLines, AllocError>
        ensures text { IfOk result (λ made. made.text ≡ text.items) }
        ensures room { IfOk result (λ made. lines ≤ made.room) }
    {
        let mut bytes = text;
        bytes.reserve_exact(ROOM * lines as usize)?;
        let end = bytes.len();
        Ok(ReservedLines { bytes, end })
    }

    /// Prints a moment, a space, and the line of an entry.
    #[inline(never)]
    pub fn entry(&mut self, moment: u64, who: Who, call: &Call, answer: &Answer)
        requires { 1 ≤ self.old.room }
        ensures text { self.new.text ≡ self.old.text ++ (decimal moment ++ (32 ∷ line_of_entry (record { who = who; call = call.now; answer = answer.now }) ++ 10 ∷ [])) }
        ensures room { self.old.room ≤ self.new.room + 1 }
    {
        if self.bytes.len() - self.end < ROOM {
            make_ready(&mut self.bytes);
        }
        let digits = line::digits(moment, &mut self.bytes, self.end);
        let start = line::byte(b' ', &mut self.bytes, digits);
        let end = put_entry(who, call, answer, &mut self.bytes, start);
        self.end = line::byte(b'\n', &mut self.bytes, end);
    }

    /// The text of all lines.
    pub fn into_text(mut self) -> Vec<u8>
        ensures { result.items ≡ self.text }
    {
        self.bytes.truncate(self.end);
        self.bytes
    }
}

// Makes some of the memory ready for lines, or what is left of it. What stands there stays.
#[cold]
#[inline(never)]
fn make_ready(bytes: &mut Vec<u8>)
    ensures kept { take (length bytes.old.items) bytes.new.items ≡ bytes.old.items }
    ensures memory { vec_capacity bytes.old ≤ vec_capacity bytes.new }
    ensures ready { min (length bytes.old.items + PAGE) (vec_capacity bytes.old) ≤ length bytes.new.items }
{
    let (len, most) = (bytes.len(), bytes.capacity());
    let ready = if most - len < PAGE { most } else { len + PAGE };
    // There is memory for them, so this doesn't fail.
    let _ = bytes.resize(ready, 0);
}
