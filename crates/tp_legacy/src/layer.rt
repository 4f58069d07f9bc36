//! What the lines of a trace with calls of the pool before Vista come to.

ghost use Rattle.std.specs.Prelude.{◌≡◌, ◌<◌, ◌≤◌, ◌-◌, ◌^◌, ◌++◌, ◌∷◌, [], length, IfErr, IfOk, List, OnOk};
ghost use Rattle.layers.specs.Playing.{output_of as layer_output, IsPlayed};
ghost use Rattle.line_grammar.specs.Faults.{IsOrNoMemory, IsPlace};
ghost use Rattle.line_grammar.specs.Language.{AnyOf};
ghost use Rattle.line_grammar.specs.Lines.{AreLines};
ghost use Rattle.line_grammar.specs.Traces.{IsTraceFault};
ghost use Rattle.tp_base.specs.declared.ids.Who.{Who as Actor};
ghost use Rattle.tp_legacy.specs.Legacy.{legacy_play};
ghost use Rattle.tp_legacy.specs.Lines.{answer_text, lines_come_to, output_of, refusal_line, who_of, LegacyLines};
ghost use Rattle.tp_legacy.specs.declared.LegacyCall.{LegacyCall as Made};

use crate::book::LegacyBook;
use crate::lines::read_legacy_line;
use crate::{LegacyAnswer, LegacyCall, LegacyRefusal};
use layers::{Layer, play};
use line_grammar::faults::TextFault;
use recorded::{OpenFault, Recorded, program_limits};
use std::alloc::{AllocError, Global};
use tp_base::answers::Outcome;
use tp_base::ids::Who;
use tp_lines::facts::ranges_agree;
use tp_lines::print::Lines;

/// Plays the lines of a trace with calls of the pool before Vista in their order, on a machine, a `B`, that has made no
/// step, and answers the line of what each comes to. The text has fewer than 2^32 - 1 bytes. The machine has as many
/// clients as the greatest number of one that makes a call, from 1 to 64 workers, and a history with room for from 16
/// entries on.
///
/// `At` comes exactly where the bytes are no such lines, and `NoMemory` where memory was refused.
pub fn play_legacy<B: Recorded>(
    alloc: Global,
    workers: u32,
    capacity: u32,
    bytes: &[u8],
) -> Result<Vec<u8>, TextFault>
    requires few { length bytes.now < 2 ^ 32 - 1 }
    requires workers_least { 1 ≤ workers }
    requires workers_most { workers ≤ 64 }
    requires capacity { 16 ≤ capacity }
    ensures ok { IfOk result (λ text. IsPlayed LegacyLines (layer_output who_of lines_come_to workers capacity) bytes.now text.items) }
    ensures only { (calls : List (Actor × Made)) → AreLines LegacyLines calls bytes.now → IsOrNoMemory (λ text. text.items ≡ layer_output who_of lines_come_to workers capacity calls) result }
    ensures err { IfErr result (λ fault. IsPlace (IsTraceFault (AnyOf LegacyLines) bytes.now) fault) }
{
    play::<(Who, LegacyCall), LegacyBook<B>>(alloc, workers, capacity, bytes)
}

// The line of a refusal before the machine is asked.
fn refusal_text(refusal: LegacyRefusal) -> &'static [u8]
    ensures { result.now ≡ refusal_line refusal }
{
    match refusal {
        LegacyRefusal::NoSuch => b"refused no-such",
        LegacyRefusal::Released => b"refused released",
        LegacyRefusal::OtherQueue => b"refused other-queue",
    }
}

// Prints the line of an answer.
fn print_answer(answer: &LegacyAnswer, out: &mut Lines) -> Result<(), AllocError>
    ensures { OnOk result (out.new ≡ out.old ++ (answer_text answer.now ++ 10 ∷ [])) }
{
    match answer {
        LegacyAnswer::Pool(outcome) => out.outcome(outcome),
        LegacyAnswer::Registered { number } => out.number(b"registered ", u64::from(*number)),
        LegacyAnswer::Queue { number } => out.number(b"queue ", u64::from(*number)),
        LegacyAnswer::Timer { number } => out.number(b"timer ", u64::from(*number)),
        LegacyAnswer::Changed { value: true } => out.text(b"changed yes"),
        LegacyAnswer::Changed { value: false } => out.text(b"changed no"),
        LegacyAnswer::Refused(refusal) => out.text(refusal_text(*refusal)),
        LegacyAnswer::Full { room, cost } => out.outcome(&Outcome::Full {
            room: *room,
            cost: *cost,
        }),
    }
}

impl<B: Recorded> Layer<(Who, LegacyCall)> for LegacyBook<B> {
    ghost lines = { LegacyLines };

    ghost who_of = { who_of };

    ghost comes_to = { lines_come_to };

    ghost told = { λ book calls. output_of (legacy_play book calls) };

    fn open(
        alloc: Global,
        clients: u32,
        workers: u32,
        capacity: u32,
    ) -> Result<LegacyBook<B>, AllocError> {
        match LegacyBook::open(alloc, program_limits(clients, workers), capacity) {
            Ok(book) => Ok(book),
            Err(OpenFault::NoMemory) => Err(AllocError),
            Err(OpenFault::TooSmall { .. }) => unreachable!(),
        }
    }

    fn read(text: &[u8]) -> Result<((Who, LegacyCall), usize), usize> {
        read_legacy_line(text)
    }

    fn who(made: (Who, LegacyCall)) -> Who {
        made.0
    }

    fn step(&mut self, made: (Who, LegacyCall), out: &mut Lines) -> Result<(), AllocError> {
        let (who, call) = made;
        // The call of a line is in range.
        ranges_agree();
        let answer = LegacyBook::step(self, who, call);
        print_answer(&answer, out)
    }

    fn ends(&self) {}
}
