//! Playing of traces.

ghost use Rattle.std.specs.Prelude.{◌≡◌, ℕ, ◌+◌, ◌≤◌, ◌<◌, ◌-◌, ◌^◌, ◌++◌, ◌∷◌, [], List, IfErr, IfOk, IfSome, OnOk, length, max};
ghost use Rattle.line_grammar.specs.Traces.{Ended, IsTraceFault};
ghost use Rattle.recorded.specs.ProgramLimits.{program_limits};
ghost use Rattle.recorded.specs.Recordings.{IsFirstOf, outcome_behind, recorded};
ghost use Rattle.tp_base.specs.declared.calls.Call.{Call as Made};
ghost use Rattle.tp_base.specs.Ranges.{IsCallInRange};
ghost use Rattle.tp_base.specs.declared.ids.Who.{Who as Actor};
ghost use Rattle.tp_lines.specs.Answers.{text_of_outcome};
ghost use Rattle.tp_lines.specs.Calls.{client_number, CallLines, IsLine};
ghost use Rattle.line_grammar.specs.Faults.{IsOrNoMemory, IsPlace};
ghost use Rattle.tp_report.specs.Playing.{ArePlayed, AreCallsPlayed, IsPlayed, IsPlayedOf, IsPlayedTo, IsSameAgain, size_of};
ghost use Rattle.tp_report.specs.declared.playing.MachineSize.{MachineSize as Size};
ghost use Rattle.tp_report.specs.Traces.{IsHistoryOf, IsHistoryOutput, IsMachineSize, IsOutput, IsOutputOf, IsTraceOf};

use crate::lines::{behind_text, read_call};
use crate::written::{Written, into_history};
use line_grammar::faults::{TextFault, fault_behind};
use recorded::{Recorded, program_limits};
use std::alloc::{AllocError, Global};
use tp_base::answers::{Look, Outcome};
use tp_base::calls::Call;
use tp_base::ids::Who;
use tp_lines::print::Lines;

/// How many bytes at each end of a trace are looked at for its greatest client, before it is played.
const LOOKED_AT: usize = 8_192;

/// How large the machine of a trace is. Its clients are told by the trace.
#[derive(Clone, Copy)]
pub struct MachineSize {
    /// How many workers it has, from 1 to 64.
    pub workers: u32,
    /// How many entries its history has room for, from 16 to 131,072.
    pub events: u32,
}

/// Plays the calls of a text in their order, on a machine, a `B`, of this size that has made no step, and
/// answers the line of what each comes to. The text, of which there are fewer than 2^32 - 1 bytes, is the lines of
/// the calls; the machine has as many clients as the greatest number of one that makes a call.
///
/// `At` comes exactly where the bytes are no lines of calls, and `NoMemory` where memory was refused.
pub fn trace<B: Recorded>(
    alloc: Global,
    bytes: &[u8],
    machine: MachineSize,
) -> Result<Vec<u8>, TextFault>
    requires few { length bytes.now < 2 ^ 32 - 1 }
    requires size { IsMachineSize machine }
    ensures ok { IfOk result (λ text. IsOutput machine bytes.now text.items) }
    ensures only { (calls : List (Actor × Made)) → IsTraceOf bytes.now calls → IsOrNoMemory (IsOutputOf machine calls) result }
    ensures err { IfErr result (λ fault. IsPlace (IsTraceFault IsLine bytes.now) fault) }
{
    let (_, text) = play_trace::<B>(alloc, bytes, machine)?;
    Ok(text)
}

/// Plays the calls of a text as `trace` does, and answers the history that they make, in format 2: a line for each call
/// that was accepted or refused.
///
/// `At` comes exactly where the bytes are no lines of calls, and `NoMemory` where memory was refused.
pub fn history<B: Recorded>(
    alloc: Global,
    bytes: &[u8],
    machine: MachineSize,
) -> Result<Vec<u8>, TextFault>
    requires few { length bytes.now < 2 ^ 32 - 1 }
    requires size { IsMachineSize machine }
    ensures ok { IfOk result (λ text. IsHistoryOutput machine bytes.now text.items) }
    ensures only { (calls : List (Actor × Made)) → IsTraceOf bytes.now calls → IsOrNoMemory (IsHistoryOf machine calls) result }
    ensures err { IfErr result (λ fault. IsPlace (IsTraceFault IsLine bytes.now) fault) }
{
    let (book, _) = play_trace::<Written<B>>(alloc, bytes, machine)?;
    let (_, text) = into_history(alloc, book)?;
    Ok(text)
}

// Plays the calls of a trace on a machine of this size with as many clients as make them, and answers the machine and the
// line of each outcome.
fn play_trace<B: Recorded>(
    alloc: Global,
    bytes: &[u8],
    machine: MachineSize,
) -> Result<(B, Vec<u8>), TextFault>
    requires few { length bytes.now < 2 ^ 32 - 1 }
    requires size { IsMachineSize machine }
    ensures ok { IfOk result (λ played. AreCallsPlayed machine bytes.now (B.recording played.0) played.1.items) }
    ensures only { (calls : List (Actor × Made)) → IsTraceOf bytes.now calls → IsOrNoMemory (λ played. ArePlayed machine calls (B.recording played.0) played.1.items) result }
    ensures err { IfErr result (λ fault. IsPlace (IsTraceFault IsLine bytes.now) fault) }
{
    let guess = guess_clients(bytes);
    let (book, played) = play::<B>(alloc, bytes, machine, guess)?;
    let clients = played.clients;
    if clients == guess {
        return Ok((book, played.text));
    }
    drop(book);
    drop(played);
    let (book, again) = play::<B>(alloc, bytes, machine, clients)?;
    Ok((book, again.text))
}

/// What the calls of a trace came to.
#[derive(Drop)]
pub struct Played {
    /// The line of each outcome.
    pub text: Vec<u8>,
    /// The greatest number of a client that made a call, or 0.
    pub clients: u32,
}

// Plays the calls of a trace on a machine of this size with so many clients, each as its line is read.
fn play<B: Recorded>(
    alloc: Global,
    bytes: &[u8],
    machine: MachineSize,
    clients: u32,
) -> Result<(B, Played), TextFault>
    requires few { length bytes.now < 2 ^ 32 - 1 }
    requires size { IsMachineSize machine }
    requires clients { clients ≤ 16 }
    ensures ok { IfOk result (λ played. IsPlayed machine clients bytes.now (B.recording played.0) played.1) }
    ensures most { IfOk result (λ played. played.1.clients ≤ 16) }
    ensures only { (calls : List (Actor × Made)) → IsTraceOf bytes.now calls → IsOrNoMemory (λ played. IsPlayedOf machine clients calls (B.recording played.0) played.1) result }
    ensures err { IfErr result (λ fault. IsPlace (IsTraceFault IsLine bytes.now) fault) }
{
    let mut book = B::open(
        alloc,
        program_limits(clients, machine.workers),
        machine.events,
    )?;
    let played = play_calls(alloc, &mut book, bytes)?;
    Ok((book, played))
}

// The same on a book without entries.
fn play_calls<B: Recorded>(alloc: Global, book: &mut B, bytes: &[u8]) -> Result<Played, TextFault>
    requires few { length bytes.now < 2 ^ 32 - 1 }
    requires limits { (B.recording book.old).limits ≡ program_limits (B.recording book.old).limits.clients (B.recording book.old).limits.workers }
    requires clients { (B.recording book.old).limits.clients ≤ 16 }
    requires empty { (B.recording book.old).history ≡ [] }
    ensures ok { IfOk result (λ played. IsPlayed (size_of (B.recording book.old)) (B.recording book.old).limits.clients bytes.now (B.recording book.new) played) }
    ensures most { IfOk result (λ played. played.clients ≤ 16) }
    ensures only { (calls : List (Actor × Made)) → IsTraceOf bytes.now calls →
        IsOrNoMemory (IsPlayedOf (size_of (B.recording book.old)) (B.recording book.old).limits.clients calls (B.recording book.new)) result }
    ensures err { IfErr result (λ fault. IsPlace (IsTraceFault IsLine bytes.now) fault) }
{
    let mut text = Lines::new(alloc);
    let mut greatest = 0;
    let mut lines = 0;
    let mut made = (Who::Client(0), Call::Take);
    let mut outcome = Outcome::Look(Look::Stay);
    let mut rest = bytes;
    while !rest.is_empty() {
        match read_call(rest, &mut made) {
            Err(place) => return Err(fault_behind(lines, place)),
            Ok(size) => {
                play_call(book, made.0, &made.1, &mut outcome, &mut text)?;
                greatest = greater_client(greatest, made.0);
                lines += 1;
                let (line, behind) = rest.split_at(size);
                if !may_follow(line, behind) {
                    rest = behind;
                    continue;
                }
                rest = play_again(
                    book,
                    &made,
                    &mut outcome,
                    line,
                    behind,
                    &mut lines,
                    &mut text,
                )?;
            }
        }
    }
    Ok(Played {
        text: text.into_text(),
        clients: greatest,
    })
}

// Whether the text may begin with the line, by three bytes: lines differ mostly in who calls, or in their ends.
#[inline(always)]
fn may_follow(line: &[u8], text: &[u8]) -> bool {
    match (line, text) {
        ([_, first, second, .., last, _], [_, other, next, ..]) => {
            first == other && second == next && text.get(line.len() - 2) == Some(last)
        }
        _ => false,
    }
}

// Plays the line of a call again, of which this was the outcome, as often as it follows, and answers what stands
// behind it.
#[inline(never)]
fn play_again<'a, B: Recorded>(
    book: &mut B,
    made: &(Who, Call),
    outcome: &mut Outcome,
    line: &[u8],
    text: &'a [u8],
    lines: &mut u32,
    out: &mut Lines,
) -> Result<&'a [u8], AllocError>
    requires line { Ended CallLines made.now line.now }
    requires same { IsSameAgain (B.recording book.old) made.now.0 made.now.1 outcome.old }
    requires few { lines.old + length text.now < 2 ^ 32 - 1 }
    ensures shorter { IfOk result (λ rest. length rest.now ≤ length text.now) }
    ensures plays { (machine : Size) (clients : ℕ) (bytes : List ℕ) (greatest : ℕ) → client_number made.now.0 ≤ greatest →
        IsPlayedTo machine clients bytes (B.recording book.old) out.old greatest lines.old text.now →
        IfOk result (λ rest. IsPlayedTo machine clients bytes (B.recording book.new) out.new greatest lines.new rest.now) }
{
    let mut rest = text;
    while let Some(behind) = behind_text(line, rest) {
        play_same(book, made.0, &made.1, outcome, out)?;
        *lines += 1;
        rest = behind;
    }
    Ok(rest)
}

// Makes a call again, of which this was the outcome, and appends the line of its outcome. What came to no entry comes to
// the same, and isn't asked for.
#[inline(always)]
fn play_same<B: Recorded>(
    book: &mut B,
    who: Who,
    call: &Call,
    outcome: &mut Outcome,
    lines: &mut Lines,
) -> Result<(), AllocError>
    requires in_range { IsCallInRange call.now }
    requires same { IsSameAgain (B.recording book.old) who call.now outcome.old }
    ensures recorded { B.recording book.new ≡ recorded (B.recording book.old) who call.now outcome.new }
    ensures first { IsFirstOf (B.recording book.old) (B.recording book.new) who call.now outcome.new }
    ensures same { IsSameAgain (B.recording book.new) who call.now outcome.new }
    ensures printed { OnOk result (lines.new ≡ lines.old ++ (text_of_outcome outcome.new ++ 10 ∷ [])) }
{
    if let Outcome::Done(_) = outcome {
        book.step_into(who, call, outcome);
    }
    lines.outcome(outcome)
}

// Makes a call, and appends the line of its outcome, which is put where there is a place for it. On want of memory
// the call was made.
#[inline(always)]
fn play_call<B: Recorded>(
    book: &mut B,
    who: Who,
    call: &Call,
    outcome: &mut Outcome,
    lines: &mut Lines,
) -> Result<(), AllocError>
    requires { IsCallInRange call.now }
    ensures recorded { B.recording book.new ≡ recorded (B.recording book.old) who call.now (outcome_behind (B.recording book.old) who call.now) }
    ensures first { IsFirstOf (B.recording book.old) (B.recording book.new) who call.now (outcome_behind (B.recording book.old) who call.now) }
    ensures same { IsSameAgain (B.recording book.new) who call.now outcome.new }
    ensures printed { OnOk result (lines.new ≡ lines.old ++ (text_of_outcome (outcome_behind (B.recording book.old) who call.now) ++ 10 ∷ [])) }
{
    book.step_into(who, call, outcome);
    lines.outcome(outcome)
}

// The greatest client of the good lines at both ends of a trace. The play shows whether it is the
// greatest of all.
fn guess_clients(bytes: &[u8]) -> u32
    ensures { result ≤ 16 }
{
    let (front, rest) = bytes.split_at(bytes.len().min(LOOKED_AT));
    let (_, back) = rest.split_at(rest.len().saturating_sub(LOOKED_AT));
    greatest_at_front(front).max(greatest_at_front(behind_line(back)))
}

// What stands behind the first line feed of a text.
fn behind_line(text: &[u8]) -> &[u8] {
    let size = text
        .iter()
        .position(|byte| *byte == b'\n')
        .map_or(text.len(), |place| place + 1);
    text.split_at(size).1
}

// The greatest client of the good lines at the front of a text, or 0.
fn greatest_at_front(text: &[u8]) -> u32
    ensures { result ≤ 16 }
{
    let mut rest = text;
    let mut greatest = 0;
    let mut made = (Who::Client(0), Call::Take);
    while let Ok(size) = read_call(rest, &mut made) {
        greatest = greater_client(greatest, made.0);
        (_, rest) = rest.split_at(size);
    }
    greatest
}

// The greater of a client's number and that of the actor, where it is a client.
fn greater_client(number: u32, who: Who) -> u32
    ensures { result ≡ max number (client_number who) }
{
    match who {
        Who::Client(other) if number < other => other,
        _ => number,
    }
}
