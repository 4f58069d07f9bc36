//! What the lines of a trace with libraries come to.

ghost use Rattle.std.specs.Prelude.{◌≡◌, ◌<◌, ◌≤◌, ◌-◌, ◌^◌, ◌++◌, ◌∷◌, [], length, map, IfErr, IfOk, List, OnOk};
ghost use Rattle.std.specs.List.{filter, range_with_len};
ghost use Rattle.layers.specs.Playing.{output_of as layer_output, IsPlayed};
ghost use Rattle.line_grammar.specs.Faults.{IsOrNoMemory, IsPlace};
ghost use Rattle.line_grammar.specs.Language.{AnyOf};
ghost use Rattle.line_grammar.specs.Lines.{AreLines};
ghost use Rattle.line_grammar.specs.Traces.{trace_text, IsTraceFault};
ghost use Rattle.tp_base.specs.declared.ids.Who.{Who as Actor};
ghost use Rattle.tp_library.specs.declared.LibCall.{LibCall as Made};
ghost use Rattle.tp_library.specs.Libraries.{play_at};
ghost use Rattle.tp_library.specs.Lines.{answer_text, lines_come_to, output_of, refusal_line, unloaded_text, who_of, LibLines};
ghost use Rattle.tp_library.specs.Seen.{was_unloaded};

use crate::book::LibraryBook;
use crate::lines::read_lib_line;
use crate::{LIBRARY_LIMIT, LibAnswer, LibCall, LibRefusal, LibraryId};
use layers::{Layer, play};
use line_grammar::faults::TextFault;
use recorded::{OpenFault, Recorded, program_limits};
use std::alloc::{AllocError, Global};
use tp_base::ids::Who;
use tp_lines::print::Lines;

/// Plays the lines of a trace with libraries in their order, on a machine, a `B`, that has made no step, and answers
/// the line of what each comes to, and behind it a line for each library that it let go, by rising number. The text
/// has fewer than 2^32 - 1 bytes. The machine has as many clients as the greatest number of one that makes a call,
/// from 1 to 64 workers, and a history with room for from 16 entries on.
///
/// `At` comes exactly where the bytes are no such lines, and `NoMemory` where memory was refused.
pub fn play_libraries<B: Recorded>(
    alloc: Global,
    workers: u32,
    capacity: u32,
    bytes: &[u8],
) -> Result<Vec<u8>, TextFault>
    requires few { length bytes.now < 2 ^ 32 - 1 }
    requires workers_least { 1 ≤ workers }
    requires workers_most { workers ≤ 64 }
    requires capacity { 16 ≤ capacity }
    ensures ok { IfOk result (λ text. IsPlayed LibLines (layer_output who_of lines_come_to workers capacity) bytes.now text.items) }
    ensures only { (calls : List (Actor × Made)) → AreLines LibLines calls bytes.now → IsOrNoMemory (λ text. text.items ≡ layer_output who_of lines_come_to workers capacity calls) result }
    ensures err { IfErr result (λ fault. IsPlace (IsTraceFault (AnyOf LibLines) bytes.now) fault) }
{
    play::<(Who, LibCall), LibraryBook<B>>(alloc, workers, capacity, bytes)
}

// The text of a refusal of this layer.
fn refusal_text(refusal: LibRefusal) -> &'static [u8]
    ensures { result.now ≡ refusal_line refusal }
{
    match refusal {
        LibRefusal::NoSuch => b"refused no-such",
        LibRefusal::Released => b"refused released",
        LibRefusal::NotRunning => b"refused not-running",
        LibRefusal::SlotTaken => b"refused slot-taken library",
        LibRefusal::LibraryNotLoaded => b"refused library-not-loaded",
        LibRefusal::NoLoadLeft => b"refused no-load-left",
        LibRefusal::LoadLimit => b"refused load-limit",
    }
}

// Prints the line of an answer.
fn print_answer(answer: &LibAnswer, out: &mut Lines) -> Result<(), AllocError>
    ensures { OnOk result (out.new ≡ out.old ++ (answer_text answer.now ++ 10 ∷ [])) }
{
    match answer {
        LibAnswer::Done => out.text(b"ok"),
        LibAnswer::Pool(outcome) => out.outcome(outcome),
        LibAnswer::Refused(refusal) => out.text(refusal_text(*refusal)),
    }
}

// Prints a line for each library that the last step let go.
fn print_unloaded<B: Recorded>(book: &LibraryBook<B>, out: &mut Lines) -> Result<(), AllocError>
    ensures { OnOk result (out.new ≡ out.old ++ trace_text (map unloaded_text (filter (was_unloaded book.now) (range_with_len 1 LIBRARY_LIMIT)))) }
{
    for number in 0..LIBRARY_LIMIT {
        let library = LibraryId(number + 1);
        if book.was_unloaded(library) {
            match out.number(b"unloaded l", u64::from(library.0)) {
                Ok(()) => {}
                Err(error) => return Err(error),
            }
        }
    }
    Ok(())
}

impl<B: Recorded> Layer<(Who, LibCall)> for LibraryBook<B> {
    ghost lines = { LibLines };

    ghost who_of = { who_of };

    ghost comes_to = { lines_come_to };

    ghost told = { λ book calls. output_of (play_at book.stand calls) };

    fn open(
        alloc: Global,
        clients: u32,
        workers: u32,
        capacity: u32,
    ) -> Result<LibraryBook<B>, AllocError> {
        match LibraryBook::open(alloc, program_limits(clients, workers), capacity) {
            Ok(book) => Ok(book),
            Err(OpenFault::NoMemory) => Err(AllocError),
            Err(OpenFault::TooSmall { .. }) => unreachable!(),
        }
    }

    fn read(text: &[u8]) -> Result<((Who, LibCall), usize), usize> {
        read_lib_line(text)
    }

    fn who(made: (Who, LibCall)) -> Who {
        made.0
    }

    fn step(&mut self, made: (Who, LibCall), out: &mut Lines) -> Result<(), AllocError> {
        let (who, call) = made;
        let answer = LibraryBook::step(self, who, call);
        print_answer(&answer, out)?;
        print_unloaded(self, out)
    }

    fn ends(&self) {}
}
