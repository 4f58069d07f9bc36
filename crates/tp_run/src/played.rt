//! Scripts that are played, and what is written of a run.

ghost use Rattle.std.specs.Prelude.{◌≡◌, ◌+◌, ◌<◌, ◌≤◌, ◌^◌, ◌++◌, ◌↔◌, ℕ, List, [], true, false, length, map, None, Some, IfOk, OnOk};
ghost use Rattle.recorded.specs.Recordings.{Recording};
ghost use Rattle.tp_base.specs.Ranges.{AreLimitsInRange};
ghost use Rattle.tp_explore.specs.Scripts.{watched};
ghost use Rattle.tp_explore.specs.Story.{told_of};
ghost use Rattle.tp_model.specs.History.{IsLegal};
ghost use Rattle.tp_model.specs.Laws.{KeepsLaws};
ghost use Rattle.tp_model.specs.Over.{row_of};
ghost use Rattle.tp_report.specs.Summaries.{totals_behind, IsNoneLost};
ghost use Rattle.tp_report.specs.Traces.{IsMachineSize};
ghost use Rattle.tp_run.specs.Inputs.{short_layout, whole_layout};
ghost use Rattle.tp_run.specs.Played.{ending_by, ending_of_run, ending_told, has_pending, is_pending_row, limits_for, totals_text, with_faults, IsOutputOf, IsPlayed, IsRunWith};
ghost use Rattle.tp_script.specs.Machines.{HasFewClients, NeverWaitsAtFirst};

use crate::replies::Output;
use crate::status::Ending;
use kept_book::Kept;
use order_lines::append_faults;
use recorded::{Recorded, program_limits};
use std::alloc::{AllocError, Global};
use std::sync::Wait;
use std::thread::Threads;
use tp_explore::{Moving, Told, story};
use tp_model::{Left, legal_keeps_laws};
use tp_report::{
    Counted, LeftRow, MachineSize, Written, into_history, left_callbacks, print_json, print_summary,
};
use tp_script::Script;
use worker_gate::{Gate, Run, play_routines, play_routines_alone, play_routines_drawn};

/// What is written of a run.
#[derive(Clone, Copy)]
pub struct Layout {
    /// Whether the history stands before the summary.
    pub history: bool,
    /// Whether the summary is JSON.
    pub json: bool,
    /// Whether the faults of the run stand behind it, where the script has marks.
    pub faults: bool,
}

/// Plays a script on so many threads, at least 1, on a machine of this size that has made no step.
///
/// It waits for its threads, of which no clause says that they come back.
pub fn run_on_threads<Rt: Threads + Wait + Sync, B: Recorded + Send, G: Gate + Sync>(
    rt: &Rt,
    alloc: Global,
    script: &Script,
    threads: u32,
    machine: MachineSize,
    gate: &G,
) -> Result<Run<Written<Counted<B>>>, AllocError>
    requires clients { HasFewClients script.now.lines }
    requires calm { NeverWaitsAtFirst script.now.lines }
    requires threads { 1 ≤ threads }
    requires size { IsMachineSize machine }
    ensures { IfOk result (λ run. IsRunWith script.now.lines threads None (limits_for script.now.lines machine) machine.events run.book run.cut) }
{
    let limits = program_limits(script.clients(), machine.workers);
    let played = play_routines::<Rt, Written<Counted<B>>, Script, G>(
        rt,
        alloc,
        limits,
        machine.events,
        threads,
        script,
        gate,
    )?;
    Ok(played)
}

/// What `run_on_threads` does on one thread, which is this one. The turns are drawn if there is a seed. It waits for
/// nobody, and returns.
pub fn run_alone<B: Recorded, G: Gate>(
    alloc: Global,
    script: &Script,
    seed: Option<u64>,
    machine: MachineSize,
    gate: &G,
) -> Result<Run<Written<Counted<B>>>, AllocError>
    requires clients { HasFewClients script.now.lines }
    requires calm { NeverWaitsAtFirst script.now.lines }
    requires size { IsMachineSize machine }
    ensures { IfOk result (λ run. IsRunWith script.now.lines 1 seed (limits_for script.now.lines machine) machine.events run.book run.cut) }
{
    match seed {
        Some(seed) => run_drawn(alloc, script, seed, machine, gate),
        None => run_in_rounds(alloc, script, machine, gate),
    }
}

fn run_in_rounds<B: Recorded, G: Gate>(
    alloc: Global,
    script: &Script,
    machine: MachineSize,
    gate: &G,
) -> Result<Run<Written<Counted<B>>>, AllocError>
    requires clients { HasFewClients script.now.lines }
    requires calm { NeverWaitsAtFirst script.now.lines }
    requires size { IsMachineSize machine }
    ensures { IfOk result (λ run. IsRunWith script.now.lines 1 None (limits_for script.now.lines machine) machine.events run.book run.cut) }
{
    let limits = program_limits(script.clients(), machine.workers);
    let played = play_routines_alone::<Written<Counted<B>>, Script, G>(
        alloc,
        limits,
        machine.events,
        script,
        gate,
    )?;
    Ok(played)
}

fn run_drawn<B: Recorded, G: Gate>(
    alloc: Global,
    script: &Script,
    seed: u64,
    machine: MachineSize,
    gate: &G,
) -> Result<Run<Written<Counted<B>>>, AllocError>
    requires clients { HasFewClients script.now.lines }
    requires calm { NeverWaitsAtFirst script.now.lines }
    requires size { IsMachineSize machine }
    ensures { IfOk result (λ run. IsRunWith script.now.lines 1 (Some seed) (limits_for script.now.lines machine) machine.events run.book run.cut) }
{
    let limits = program_limits(script.clients(), machine.workers);
    let played = play_routines_drawn::<Written<Counted<B>>, Script, G>(
        alloc,
        limits,
        machine.events,
        seed,
        script,
        gate,
    )?;
    Ok(played)
}

/// Plays a script on this thread in rounds, where nothing is to be written of the run besides its summary.
pub fn play_unwritten<B: Recorded, G: Gate>(
    alloc: Global,
    script: &Script,
    machine: MachineSize,
    json: bool,
    gate: &G,
) -> Result<Output, AllocError>
    requires clients { HasFewClients script.now.lines }
    requires calm { NeverWaitsAtFirst script.now.lines }
    requires size { IsMachineSize machine }
    ensures { (text : List ℕ) → IfOk result (λ output. IsPlayed text script.now 1 None (limits_for script.now.lines machine) machine.events (short_layout json) output.text.items output.ending) }
{
    let limits = program_limits(script.clients(), machine.workers);
    let played = play_routines_alone::<Counted<B>, Script, G>(
        alloc,
        limits,
        machine.events,
        script,
        gate,
    )?;
    short_output(alloc, json, &played)
}

/// What is to be written of a run with its history, and how it ends. Of its faults nothing is told.
pub fn whole_output<B: Recorded>(
    alloc: Global,
    json: bool,
    played: Run<Written<Counted<B>>>,
) -> Result<Output, AllocError>
    ensures legal { IsLegal played.book.limits played.book.capacity played.book.history }
    ensures laws { KeepsLaws played.book.limits played.book.history }
    ensures output { IfOk result (λ output. IsOutputOf (whole_layout json) [] [] played.cut played.book output) }
{
    legal_keeps_laws();
    let Run { book, cut, .. } = played;
    let _len = book.len();
    let (counted, history) = into_history(alloc, book)?;
    output_behind(alloc, history, json, cut, &counted)
}

/// The same with the faults of the run behind it. `text` is that of the script.
pub fn told_output<B: Recorded, V: Moving>(
    alloc: Global,
    script: &Script,
    text: &[u8],
    json: bool,
    played: Run<Written<Counted<Kept<B>>>>,
) -> Result<Output, AllocError>
    requires text { length text.now + 1 < 2 ^ 32 }
    requires in_range { AreLimitsInRange played.book.limits }
    ensures legal { IsLegal played.book.limits played.book.capacity played.book.history }
    ensures laws { KeepsLaws played.book.limits played.book.history }
    ensures output { IfOk result (λ output. IsOutputOf (whole_layout json) text.now (told_of (watched script.now) played.book.limits played.book.history) played.cut played.book output) }
{
    legal_keeps_laws();
    let Run { book, cut, .. } = played;
    let _len = book.len();
    let (counted, lines) = into_history(alloc, book)?;
    let untold = output_behind(alloc, lines, json, cut, &counted)?;
    let (kept, _counts) = counted.into_parts();
    let story = story::<V>(alloc, script, kept.limits(), kept.entries())?;
    with_faults(text, &story.told, untold)
}

// An output with a line for each fault behind it. A run with faults is bad.
fn with_faults(script: &[u8], told: &[Told], output: Output) -> Result<Output, AllocError>
    requires { length script.now + 1 < 2 ^ 32 }
    ensures text { IfOk result (λ with. with.text.items ≡ with_faults output.text.items script.now told.now) }
    ensures ending { IfOk result (λ with. with.ending ≡ ending_told told.now output.ending) }
{
    let mut text = output.text;
    append_faults(script, told, &mut text)?;
    let ending = ending_told(told, output.ending);
    Ok(Output { text, ending })
}

// How a run ends of which this is told.
fn ending_told(told: &[Told], ending: Ending) -> Ending
    ensures { result ≡ ending_told told.now ending }
{
    if told.is_empty() { ending } else { Ending::Bad }
}

// The same without its history.
fn short_output<B: Recorded>(
    alloc: Global,
    json: bool,
    played: &Run<Counted<B>>,
) -> Result<Output, AllocError>
    ensures legal { IsLegal played.now.book.limits played.now.book.capacity played.now.book.history }
    ensures laws { KeepsLaws played.now.book.limits played.now.book.history }
    ensures output { IfOk result (λ output. IsOutputOf (short_layout json) [] [] played.now.cut played.now.book output) }
{
    legal_keeps_laws();
    let _len = played.book.len();
    output_behind(alloc, Vec::new(alloc), json, played.cut, &played.book)
}

// The summary behind a text, and how the run ends.
fn output_behind<B: Recorded>(
    alloc: Global,
    text: Vec<u8>,
    json: bool,
    cut: bool,
    book: &Counted<B>,
) -> Result<Output, AllocError>
    ensures text { IfOk result (λ output. output.text.items ≡ text.items ++ totals_text json book.now.limits book.now.history) }
    ensures none_lost { IsNoneLost (totals_behind book.now) }
    ensures ending { IfOk result (λ output. output.ending ≡ ending_of_run cut book.now) }
{
    let mut text = text;
    let _len = book.len();
    append_totals(alloc, json, book, &mut text)?;
    let left = left_callbacks(alloc, book)?;
    let counts = book.observer();
    let ending = ending_by(cut, counts.exhausted, has_pending(&left), counts.stalled);
    Ok(Output { text, ending })
}

// Appends the summary.
pub(crate) fn append_totals<B: Recorded>(
    alloc: Global,
    json: bool,
    book: &Counted<B>,
    text: &mut Vec<u8>,
) -> Result<(), AllocError>
    ensures text { OnOk result (text.new.items ≡ text.old.items ++ totals_text json book.now.limits book.now.history) }
    ensures none_lost { IsNoneLost (totals_behind book.now) }
{
    if json {
        print_json(alloc, book, text)
    } else {
        print_summary(alloc, book, text)
    }
}

// How a run ends.
fn ending_by(cut: bool, exhausted: bool, pending: bool, stalled: bool) -> Ending
    ensures { result ≡ ending_by cut exhausted pending stalled }
{
    if cut || exhausted || pending {
        Ending::Exhausted
    } else if stalled {
        Ending::Stalled
    } else {
        Ending::Fine
    }
}

// Whether one of those that are left is pending.
fn has_pending(rows: &[LeftRow]) -> bool
    ensures { result ≡ has_pending (map row_of rows.now) }
{
    for row in rows {
        if is_pending(row) {
            return true;
        }
    }
    false
}

// Whether it waits for a worker.
fn is_pending(row: &LeftRow) -> bool
    ensures { result ≡ is_pending_row (row_of row.now) }
{
    matches!(row.2, Left::Pending)
}
