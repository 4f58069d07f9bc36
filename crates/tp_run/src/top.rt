//! All that the program does, over any machine, any source, any sink and any gate.

ghost use Rattle.std.specs.Prelude.{◌≡◌, ◌<◌, ◌≤◌, ◌⊎◌, ℕ, false, List, [], IfOk, Option, Some, None, Err, length};
ghost use Rattle.tp_edge.specs.Counts.{Rose};
ghost use Rattle.tp_edge.specs.Given.{with_given, TookFirst};
ghost use Rattle.tp_edge.specs.Reading.{IsRead};
ghost use Rattle.tp_edge.specs.Taken.{behind, IsAbove, IsEnded};
ghost use Rattle.tp_run.specs.Commands.{command_of};
ghost use Rattle.tp_run.specs.Ends.{IsAllRead, IsRun, IsTakenTo, status_of};
ghost use Rattle.tp_run.specs.Inputs.{Gives, IsDetermined, IsInGrammar, IsPlayable, IsTold, reads};
ghost use Rattle.tp_run.specs.Runs.{IsAnswered, IsBadLine, IsBadLineOf, IsReadToEnd, IsUnwritten, IsWhole, IsWithin};
ghost use Rattle.tp_run.specs.declared.command.Command.{Command};
ghost use Rattle.tp_run.specs.declared.status.Ending.{Ending};

use crate::command::{Command, command_in};
use crate::replies::{Output, reply, reply_on_threads};
use crate::status::Status;
use recorded::Recorded;
use std::alloc::Global;
use std::sync::Wait;
use std::thread::Threads;
use tp_edge::{ReadFault, Sink, Source, WriteFault, give_all, read_all};
use tp_words::{WordFault, WordList};
use worker_gate::Gate;

/// The most bytes that an input may have.
pub const INPUT_LIMIT: usize = 25_165_824;

/// Does what the words ask for on a machine, a `B`: reads the source to its end, and then writes to the
/// sink.
///
/// `words` are those behind the program's name. The answer is the first of these that applies:
/// `NoMemory` of the words; `Words`; `ReadFault` and `TooLong`, at which reading ends; `NoMemory` of reading; `BadLine`;
/// `NoMemory`; `WriteFault`; `NotLegal`, `Exhausted`, `Bad` and `GaveUp`; `Stalled`; `Fine`. All memory is taken before
/// anything is written.
///
/// `run` and `big` play with all clients and workers at the gate. A wait of theirs that nobody can end is
/// answered `stalled`, so that the script goes on to its end. `run` with more than one thread waits for
/// them, and `port` for its devices. All else is done by functions that take no `rt`, so that they return.
pub fn tp_main<Rt: Threads + Wait + Sync, B: Recorded + Send, S: Source, K: Sink, G: Gate + Sync>(
    rt: &Rt,
    alloc: Global,
    words: &WordList,
    source: &mut S,
    sink: &mut K,
    gate: &G,
) -> Status
    // Words that are no command are told so, or want of memory comes first; nothing is done then.
    ensures words { result ≡ Status.Words → command_of words.now ≡ None }
    ensures words_only { command_of words.now ≡ None → (result ≡ Status.Words) ⊎ (result ≡ Status.NoMemory) }
    ensures unread { reads (command_of words.now) ≡ false → source.new ≡ source.old }
    ensures unwritten { IsUnwritten result → sink.new ≡ sink.old }
    // A fault of a stream has risen in this call.
    ensures read_fault { result ≡ Status.ReadFault → Rose (S.failures source.old) (S.failures source.new) }
    ensures write_fault { result ≡ Status.WriteFault → Rose (K.failures sink.old) (K.failures sink.new) }
    ensures source_never_falls { S.failures source.old ≤ S.failures source.new }
    ensures sink_never_falls { K.failures sink.old ≤ K.failures sink.new }
    // What was taken from the source.
    ensures taken { (taken : List ℕ) × (S.left source.old ≡ behind taken (S.left source.new)) × IsWithin result taken }
    ensures too_long { result ≡ Status.TooLong → IsAbove INPUT_LIMIT (S.left source.old) }
    ensures ended { IsReadToEnd (command_of words.now) result → IsEnded (S.left source.new) }
    // A bad line is the first fault of the input, which is then in no grammar of the command.
    ensures bad_line { IsBadLineOf (command_of words.now) (S.left source.old) result }
    ensures bad_only { (bytes : List ℕ) → IsTold (command_of words.now) bytes (S.left source.old) → IsInGrammar (command_of words.now) bytes →
        IsBadLine result → ⊥ }
    // The sink gets an output for the input, once; and where the command has one, there is no other.
    ensures whole { IsWhole result → IsAnswered (command_of words.now) (S.left source.old)
        (λ output ending. (result ≡ status_of ending) × (K.holds sink.new ≡ with_given output (K.holds sink.old))) }
    ensures whole_only { (bytes output : List ℕ) (ending : Ending) → IsDetermined (command_of words.now) → IsTold (command_of words.now) bytes (S.left source.old) → Gives (command_of words.now) bytes output ending →
        IsWhole result → (result ≡ status_of ending) × (K.holds sink.new ≡ with_given output (K.holds sink.old)) }
    // A sink that has a fault holds the first bytes of the output.
    ensures first { result ≡ Status.WriteFault → IsAnswered (command_of words.now) (S.left source.old)
        (λ output ending. TookFirst (K.holds sink.old) (K.holds sink.new) output) }
    ensures first_only { (bytes output : List ℕ) (ending : Ending) → IsDetermined (command_of words.now) → IsTold (command_of words.now) bytes (S.left source.old) → Gives (command_of words.now) bytes output ending →
        result ≡ Status.WriteFault → TookFirst (K.holds sink.old) (K.holds sink.new) output }
    // Nothing but want of memory keeps an input in the grammar from its output where no stream has a fault.
    ensures complete { (bytes : List ℕ) → IsTold (command_of words.now) bytes (S.left source.old) → IsInGrammar (command_of words.now) bytes →
        length bytes ≤ INPUT_LIMIT →
        (Rose (S.failures source.old) (S.failures source.new) → ⊥) → (Rose (K.failures sink.old) (K.failures sink.new) → ⊥) →
        IsWhole result ⊎ (result ≡ Status.NoMemory) }
{
    match command_in(alloc, words) {
        Err(WordFault::Refused) => Status::Words,
        Err(WordFault::NoMemory) => Status::NoMemory,
        Ok(command) => run_on_threads::<Rt, B, S, K, G>(rt, alloc, command, source, sink, gate),
    }
}

/// What `tp_main` does, on this thread alone. It has nothing to wait by, and returns.
///
/// A script whose words ask for more threads is played on this one: of the outputs that there may be with
/// those, it writes the one that there is with one. Of devices one completes its operations behind the other.
pub fn tp_main_alone<B: Recorded, S: Source, K: Sink, G: Gate>(
    alloc: Global,
    words: &WordList,
    source: &mut S,
    sink: &mut K,
    gate: &G,
) -> Status
    // Words that are no command are told so, or want of memory comes first; nothing is done then.
    ensures words { result ≡ Status.Words → command_of words.now ≡ None }
    ensures words_only { command_of words.now ≡ None → (result ≡ Status.Words) ⊎ (result ≡ Status.NoMemory) }
    ensures unread { reads (command_of words.now) ≡ false → source.new ≡ source.old }
    ensures unwritten { IsUnwritten result → sink.new ≡ sink.old }
    // A fault of a stream has risen in this call.
    ensures read_fault { result ≡ Status.ReadFault → Rose (S.failures source.old) (S.failures source.new) }
    ensures write_fault { result ≡ Status.WriteFault → Rose (K.failures sink.old) (K.failures sink.new) }
    ensures source_never_falls { S.failures source.old ≤ S.failures source.new }
    ensures sink_never_falls { K.failures sink.old ≤ K.failures sink.new }
    // What was taken from the source.
    ensures taken { (taken : List ℕ) × (S.left source.old ≡ behind taken (S.left source.new)) × IsWithin result taken }
    ensures too_long { result ≡ Status.TooLong → IsAbove INPUT_LIMIT (S.left source.old) }
    ensures ended { IsReadToEnd (command_of words.now) result → IsEnded (S.left source.new) }
    // A bad line is the first fault of the input, which is then in no grammar of the command.
    ensures bad_line { IsBadLineOf (command_of words.now) (S.left source.old) result }
    ensures bad_only { (bytes : List ℕ) → IsTold (command_of words.now) bytes (S.left source.old) → IsInGrammar (command_of words.now) bytes →
        IsBadLine result → ⊥ }
    // The sink gets an output for the input, once; and where the command has one, there is no other.
    ensures whole { IsWhole result → IsAnswered (command_of words.now) (S.left source.old)
        (λ output ending. (result ≡ status_of ending) × (K.holds sink.new ≡ with_given output (K.holds sink.old))) }
    ensures whole_only { (bytes output : List ℕ) (ending : Ending) → IsDetermined (command_of words.now) → IsTold (command_of words.now) bytes (S.left source.old) → Gives (command_of words.now) bytes output ending →
        IsWhole result → (result ≡ status_of ending) × (K.holds sink.new ≡ with_given output (K.holds sink.old)) }
    // A sink that has a fault holds the first bytes of the output.
    ensures first { result ≡ Status.WriteFault → IsAnswered (command_of words.now) (S.left source.old)
        (λ output ending. TookFirst (K.holds sink.old) (K.holds sink.new) output) }
    ensures first_only { (bytes output : List ℕ) (ending : Ending) → IsDetermined (command_of words.now) → IsTold (command_of words.now) bytes (S.left source.old) → Gives (command_of words.now) bytes output ending →
        result ≡ Status.WriteFault → TookFirst (K.holds sink.old) (K.holds sink.new) output }
    // Nothing but want of memory keeps an input in the grammar from its output where no stream has a fault.
    ensures complete { (bytes : List ℕ) → IsTold (command_of words.now) bytes (S.left source.old) → IsInGrammar (command_of words.now) bytes →
        length bytes ≤ INPUT_LIMIT →
        (Rose (S.failures source.old) (S.failures source.new) → ⊥) → (Rose (K.failures sink.old) (K.failures sink.new) → ⊥) →
        IsWhole result ⊎ (result ≡ Status.NoMemory) }
{
    match command_in(alloc, words) {
        Err(WordFault::Refused) => Status::Words,
        Err(WordFault::NoMemory) => Status::NoMemory,
        Ok(command) => run::<B, S, K, G>(alloc, command, source, sink, gate),
    }
}

// Reads the command's input, and writes its output.
fn run<B: Recorded, S: Source, K: Sink, G: Gate>(
    alloc: Global,
    command: Command,
    source: &mut S,
    sink: &mut K,
    gate: &G,
) -> Status
    requires { IsPlayable command }
    ensures run { IsRun command (S.left source.old) (S.left source.new) (K.holds sink.old) (K.holds sink.new) result }
    ensures unread { reads (Some command) ≡ false → source.new ≡ source.old }
    ensures unwritten { IsUnwritten result → sink.new ≡ sink.old }
    ensures read_fault { result ≡ Status.ReadFault → Rose (S.failures source.old) (S.failures source.new) }
    ensures write_fault { result ≡ Status.WriteFault → Rose (K.failures sink.old) (K.failures sink.new) }
    ensures source_never_falls { S.failures source.old ≤ S.failures source.new }
    ensures sink_never_falls { K.failures sink.old ≤ K.failures sink.new }
{
    let reply = read_output::<B, S, G>(alloc, command, source, gate);
    write_reply(sink, reply)
}

// The same, with threads for a script that is to be played on several, and for devices.
fn run_on_threads<
    Rt: Threads + Wait + Sync,
    B: Recorded + Send,
    S: Source,
    K: Sink,
    G: Gate + Sync,
>(rt: &Rt, alloc: Global, command: Command, source: &mut S, sink: &mut K, gate: &G) -> Status
    requires { IsPlayable command }
    ensures run { IsRun command (S.left source.old) (S.left source.new) (K.holds sink.old) (K.holds sink.new) result }
    ensures unread { reads (Some command) ≡ false → source.new ≡ source.old }
    ensures unwritten { IsUnwritten result → sink.new ≡ sink.old }
    ensures read_fault { result ≡ Status.ReadFault → Rose (S.failures source.old) (S.failures source.new) }
    ensures write_fault { result ≡ Status.WriteFault → Rose (K.failures sink.old) (K.failures sink.new) }
    ensures source_never_falls { S.failures source.old ≤ S.failures source.new }
    ensures sink_never_falls { K.failures sink.old ≤ K.failures sink.new }
{
    let reply = read_output_on_threads::<Rt, B, S, G>(rt, alloc, command, source, gate);
    write_reply(sink, reply)
}

// Writes what a command came to.
fn write_reply<K: Sink>(sink: &mut K, reply: Result<Output, Status>) -> Status
    ensures run { (command : Command) (left now : Option (List ℕ)) → IsTakenTo command left now reply →
        IsRun command left now (K.holds sink.old) (K.holds sink.new) result }
    ensures unwritten { IsUnwritten result → sink.new ≡ sink.old }
    ensures read_fault { result ≡ Status.ReadFault → reply ≡ Err Status.ReadFault }
    ensures write_fault { result ≡ Status.WriteFault → (reply ≡ Err Status.WriteFault) ⊎ Rose (K.failures sink.old) (K.failures sink.new) }
    ensures never_falls { K.failures sink.old ≤ K.failures sink.new }
{
    match reply {
        Err(status) => status,
        Ok(output) => match give_all(sink, &output.text) {
            Ok(()) => output.ending.into(),
            Err(WriteFault::Failed) => Status::WriteFault,
        },
    }
}

// Reads the command's input to its end, and answers its output.
fn read_output<B: Recorded, S: Source, G: Gate>(
    alloc: Global,
    command: Command,
    source: &mut S,
    gate: &G,
) -> Result<Output, Status>
    requires { IsPlayable command }
    ensures taken { IsTakenTo command (S.left source.old) (S.left source.new) result }
    ensures unread { reads (Some command) ≡ false → source.new ≡ source.old }
    ensures read_fault { result ≡ Err Status.ReadFault → Rose (S.failures source.old) (S.failures source.new) }
    ensures never_falls { S.failures source.old ≤ S.failures source.new }
{
    let bytes = read_input(alloc, command, source)?;
    reply::<B, G>(alloc, command, &bytes, gate)
}

// The same, with threads for a script that is to be played on several, and for devices.
fn read_output_on_threads<Rt: Threads + Wait + Sync, B: Recorded + Send, S: Source, G: Gate + Sync>(
    rt: &Rt,
    alloc: Global,
    command: Command,
    source: &mut S,
    gate: &G,
) -> Result<Output, Status>
    requires { IsPlayable command }
    ensures taken { IsTakenTo command (S.left source.old) (S.left source.new) result }
    ensures unread { reads (Some command) ≡ false → source.new ≡ source.old }
    ensures read_fault { result ≡ Err Status.ReadFault → Rose (S.failures source.old) (S.failures source.new) }
    ensures never_falls { S.failures source.old ≤ S.failures source.new }
{
    let bytes = read_input(alloc, command, source)?;
    reply_on_threads::<Rt, B, G>(rt, alloc, command, &bytes, gate)
}

// All that the source has, or nothing where the command has no input.
fn read_input<S: Source>(
    alloc: Global,
    command: Command,
    source: &mut S,
) -> Result<Vec<u8>, ReadFault>
    ensures all { IfOk result (λ bytes. IsAllRead command bytes.items (S.left source.new)) }
    ensures unread { reads (Some command) ≡ false → source.new ≡ source.old }
    ensures taken { (taken : List ℕ) × (S.left source.old ≡ behind taken (S.left source.new)) × IsRead result INPUT_LIMIT taken × (reads (Some command) ≡ false → taken ≡ []) }
    ensures failed { result ≡ Err ReadFault.Failed → Rose (S.failures source.old) (S.failures source.new) }
    ensures never_falls { S.failures source.old ≤ S.failures source.new }
{
    if command.reads() {
        read_all(alloc, source, INPUT_LIMIT)
    } else {
        Ok(Vec::new(alloc))
    }
}
