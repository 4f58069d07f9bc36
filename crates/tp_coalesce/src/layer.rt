//! What the lines of a trace with sleeps come to.

ghost use Rattle.std.specs.Prelude.{◌≡◌, ◌<◌, ◌≤◌, ◌-◌, ◌^◌, ◌++◌, ◌∷◌, [], length, IfErr, IfOk, List, OnOk};
ghost use Rattle.layers.specs.Playing.{output_of as layer_output, IsPlayed};
ghost use Rattle.line_grammar.specs.Faults.{IsOrNoMemory, IsPlace};
ghost use Rattle.line_grammar.specs.Language.{AnyOf};
ghost use Rattle.line_grammar.specs.Lines.{AreLines};
ghost use Rattle.line_grammar.specs.Traces.{IsTraceFault};
ghost use Rattle.recorded.specs.Recordings.{Recording};
ghost use Rattle.tp_base.specs.declared.ids.Who.{Who as Actor};
ghost use Rattle.tp_coalesce.specs.Lines.{lines_come_to, output_of, slept_text, who_of, SleepLines};
ghost use Rattle.tp_coalesce.specs.Windows.{windows_play};
ghost use Rattle.tp_coalesce.specs.declared.SleepCall.{SleepCall as Made};

use crate::SleepCall;
use crate::lines::read_sleep_line;
use crate::sleeping::{Slept, sleep_told};
use layers::{Layer, play};
use line_grammar::faults::TextFault;
use recorded::{Recorded, program_limits};
use std::alloc::{AllocError, Global};
use std::marker::Model;
use tp_base::ids::Who;
use tp_lines::facts::ranges_agree;
use tp_lines::print::Lines;

/// A machine on which lines with sleeps are played, seen as its recording.
#[derive(Drop)]
pub struct SleepBook<B: Recorded> {
    book: B,
}

impl<B: Recorded> Model for SleepBook<B> {
    ghost Value = { Recording };

    ghost view = { λ sleeper. B.recording sleeper.book };
}

/// Plays the lines of a trace with sleeps in their order, on a machine, a `B`, that has made no step, and answers the line
/// of what each comes to: of a sleep one for each wake-up, and one of how it ends. The text has fewer than 2^32 - 1 bytes.
/// The machine has as many clients as the greatest number of one that makes a call, from 1 to 64 workers, and a history
/// with room for from 16 entries on.
///
/// `At` comes exactly where the bytes are no such lines, and `NoMemory` where memory was refused.
pub fn play_windows<B: Recorded>(
    alloc: Global,
    workers: u32,
    capacity: u32,
    bytes: &[u8],
) -> Result<Vec<u8>, TextFault>
    requires few { length bytes.now < 2 ^ 32 - 1 }
    requires workers_least { 1 ≤ workers }
    requires workers_most { workers ≤ 64 }
    requires capacity { 16 ≤ capacity }
    ensures ok { IfOk result (λ text. IsPlayed SleepLines (layer_output who_of lines_come_to workers capacity) bytes.now text.items) }
    ensures only { (calls : List (Actor × Made)) → AreLines SleepLines calls bytes.now → IsOrNoMemory (λ text. text.items ≡ layer_output who_of lines_come_to workers capacity calls) result }
    ensures err { IfErr result (λ fault. IsPlace (IsTraceFault (AnyOf SleepLines) bytes.now) fault) }
{
    play::<(Who, SleepCall), SleepBook<B>>(alloc, workers, capacity, bytes)
}

// Prints the line of how a sleep ended.
fn print_slept(slept: &Slept, out: &mut Lines) -> Result<(), AllocError>
    ensures { OnOk result (out.new ≡ out.old ++ (slept_text slept.now ++ 10 ∷ [])) }
{
    match slept {
        Slept::Done { now, wakes } => out.two_numbers(b"slept ", *now, u64::from(*wakes)),
        Slept::Stopped { wakes, .. } => out.number(b"stopped ", u64::from(*wakes)),
    }
}

impl<B: Recorded> Layer<(Who, SleepCall)> for SleepBook<B> {
    ghost lines = { SleepLines };

    ghost who_of = { who_of };

    ghost comes_to = { lines_come_to };

    ghost told = { λ sleeper calls. output_of (windows_play sleeper calls) };

    fn open(
        alloc: Global,
        clients: u32,
        workers: u32,
        capacity: u32,
    ) -> Result<SleepBook<B>, AllocError> {
        match B::open(alloc, program_limits(clients, workers), capacity) {
            Ok(book) => Ok(SleepBook { book }),
            Err(error) => Err(error),
        }
    }

    fn read(text: &[u8]) -> Result<((Who, SleepCall), usize), usize> {
        read_sleep_line(text)
    }

    fn who(made: (Who, SleepCall)) -> Who {
        made.0
    }

    fn step(&mut self, made: (Who, SleepCall), out: &mut Lines) -> Result<(), AllocError> {
        let (who, call) = made;
        // The call of a line is in range.
        ranges_agree();
        match call {
            SleepCall::Pool { call } => {
                let outcome = self.book.step(who, call);
                out.outcome(&outcome)
            }
            SleepCall::Sleep { ticks } => {
                let slept = sleep_told(&mut self.book, who, ticks, out)?;
                print_slept(&slept, out)
            }
        }
    }

    fn ends(&self) {}
}
