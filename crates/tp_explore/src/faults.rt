//! What an entry brings: its faults, and what is noted behind it.

ghost use Rattle.std.specs.Prelude.{◌≡◌, ◌++◌, ◌&&◌, ◌||◌, IfOk, OnOk, false, filter, find, fold, map, not};
ghost use Rattle.std.specs.List.{list_all, list_any};
ghost use Rattle.std.specs.Option.{option_map_or};
ghost use Rattle.tp_base.specs.declared.rows.CallbackRow.{CallbackRow};
ghost use Rattle.tp_base.specs.declared.rows.ClientRow.{ClientRow};
ghost use Rattle.tp_model.specs.Counts.{has_number, is_operating, is_pending, is_running, numbered};
ghost use Rattle.tp_model.specs.Waits.{is_of};
ghost use Rattle.tp_explore.specs.Ended.{brought, noted_by_entry};
ghost use Rattle.tp_explore.specs.Faults.{answer_faults, behind, deed_faults, fault_if, is_at_rest, is_none_target, is_run_of, left_as, left_fault, left_faults, line_at, mark_faults, noted_at, taken_faults};
ghost use Rattle.tp_explore.specs.SameFaults.{is_passed};
ghost use Rattle.tp_explore.specs.declared.fault.Fault.{Fault};
ghost use Rattle.tp_explore.specs.Watched.{all_but, may_refuse_in};
ghost use Rattle.part_places.specs.Places.{part_in};

use crate::deeds::deeds;
use crate::fault::{Fault, FaultKind};
use crate::mark::{Deed, Mark};
use crate::noted::Hush;
use crate::notes::Notes;
use crate::passage::{Passage, part_in};
use crate::seen::Seen;
use crate::watches::Watches;
use part_places::Place;
use std::alloc::{AllocError, Global};
use tp_base::answers::Answer;
use tp_base::ids::Who;
use tp_base::limits::Limits;
use tp_base::rows::{CallbackRow, ClientRow, Status, WaitTarget};
use tp_model::Left;

/// What an entry brings that leads to a world: its faults but those that are passed over, those of its answer, then of
/// its marks, then of what is left. The notes become those behind it.
///
/// An `AllocError` comes where memory is refused. The notes are then of no use any more.
pub fn enter<W: Watches, V: Seen>(
    alloc: Global,
    watches: &W,
    passed: &[Fault],
    limits: Limits,
    world: &V,
    passage: &Passage,
    notes: &mut Notes,
) -> Result<Vec<Fault>, AllocError>
    ensures faults { IfOk result (λ faults. faults.items ≡ brought (all_but passed.now (W.watched watches.now)) limits (V.world_of world.now) passage.now notes.old) }
    ensures noted { OnOk result (notes.new ≡ noted_by_entry (W.watched watches.now) limits passage.now notes.old) }
{
    let mut faults = Vec::new(alloc);
    add_answer(&mut faults, watches, world, passage, notes)?;
    let deeds = deeds(alloc, watches, limits, passage)?;
    end_entry(notes, watches, passage)?;
    add_deeds(&mut faults, world, notes, &deeds)?;
    add_left(&mut faults, world, &notes.lines)?;
    pass_over(&mut faults, passed);
    Ok(faults)
}

// Leaves out those that are passed over.
fn pass_over(faults: &mut Vec<Fault>, passed: &[Fault])
    ensures { faults.new.items ≡ filter (λ (f : Fault). not (is_passed passed.now f)) faults.old.items }
{
    faults.retain(|fault| !fault.is_passed(passed));
}

fn add_if(
    faults: &mut Vec<Fault>,
    holds: bool,
    kind: FaultKind,
    line: u32,
) -> Result<(), AllocError>
    ensures { OnOk result (faults.new.items ≡ faults.old.items ++ fault_if holds kind line) }
{
    if holds {
        faults.push(Fault { kind, line })?;
    }
    Ok(())
}

// ---- what an answer tells

fn add_answer<W: Watches, V: Seen>(
    faults: &mut Vec<Fault>,
    watches: &W,
    world: &V,
    passage: &Passage,
    notes: &Notes,
) -> Result<(), AllocError>
    ensures { OnOk result (faults.new.items ≡ faults.old.items ++ answer_faults (W.watched watches.now) notes.now (V.world_of world.now) passage.now.entry.who passage.now.before passage.now.entry.answer) }
{
    let who = passage.entry.who;
    let line = line_at(watches, who, &passage.before);
    match passage.entry.answer {
        Answer::Refused(refusal) => add_if(
            faults,
            !may_refuse_at(watches, who, &passage.before),
            FaultKind::Refused(refusal),
            line,
        ),
        Answer::Stalled => add_if(faults, true, FaultKind::Stalled, line),
        Answer::Taken { callback, .. } => add_taken(faults, world, callback, &notes.quiet),
        _ => Ok(()),
    }
}

// The line of the operation that an actor makes.
pub(crate) fn line_at<W: Watches>(watches: &W, who: Who, place: &Place) -> u32
    ensures { result ≡ line_at (W.watched watches.now) who place.now }
{
    match part_in(place.stage, who) {
        Some(part) => watches.line(part, place.at.op),
        None => 0,
    }
}

fn may_refuse_at<W: Watches>(watches: &W, who: Who, place: &Place) -> bool
    ensures { result ≡ may_refuse_in (W.watched watches.now) (part_in place.now.stage who) place.now.at.op }
{
    match part_in(place.stage, who) {
        Some(part) => watches.may_refuse(part, place.at.op),
        None => false,
    }
}

// ---- callbacks that run

// A callback began that may not run: at each line that says so.
fn add_taken<V: Seen>(
    faults: &mut Vec<Fault>,
    world: &V,
    number: u64,
    quiet: &[Hush],
) -> Result<(), AllocError>
    ensures { OnOk result (faults.new.items ≡ faults.old.items ++ taken_faults (V.world_of world.now) number quiet.now) }
{
    let callback = callback_of(world.callbacks(), number);
    for hush in quiet {
        let runs = is_any_run_of(hush.target, &callback);
        add_if(faults, runs, FaultKind::NotQuiet, hush.line)?;
    }
    Ok(())
}

fn callback_of(callbacks: &[CallbackRow], number: u64) -> Option<CallbackRow>
    ensures { result ≡ find (has_number number) callbacks.now }
{
    for callback in callbacks {
        if callback.number == number {
            return Some(*callback);
        }
    }
    None
}

fn is_any_run_of(target: WaitTarget, callback: &Option<CallbackRow>) -> bool
    ensures { result ≡ option_map_or (is_run_of target) callback.now false }
{
    match callback {
        Some(callback) => is_run_of(target, callback),
        None => false,
    }
}

fn is_run_of(target: WaitTarget, callback: &CallbackRow) -> bool
    ensures { result ≡ is_run_of target callback.now }
{
    !is_none_target(target) && is_running(callback.status) && is_of(target, callback)
}

fn is_none_target(target: WaitTarget) -> bool
    ensures { result ≡ is_none_target target }
{
    match target {
        WaitTarget::Object(object) => object.0 == 0,
        WaitTarget::Group(_) | WaitTarget::Kernel(_) => false,
    }
}

fn is_of(target: WaitTarget, callback: &CallbackRow) -> bool
    ensures { result ≡ is_of target callback.now }
{
    match target {
        WaitTarget::Object(object) => callback.object.0 == object.0,
        WaitTarget::Group(group) => callback.group.0 == group.0,
        WaitTarget::Kernel(_) => false,
    }
}

fn is_any_running(target: WaitTarget, callbacks: &[CallbackRow]) -> bool
    ensures { result ≡ list_any (is_run_of target) callbacks.now }
{
    callbacks.iter().any(|callback| is_run_of(target, callback))
}

// ---- marks

// Marks take place, one after another.
fn add_deeds<V: Seen>(
    faults: &mut Vec<Fault>,
    world: &V,
    notes: &mut Notes,
    deeds: &[Deed],
) -> Result<(), AllocError>
    ensures faults { OnOk result (faults.new.items ≡ faults.old.items ++ deed_faults (V.world_of world.now) notes.old deeds.now) }
    ensures noted { OnOk result (notes.new ≡ fold behind notes.old deeds.now) }
{
    for deed in deeds {
        add_mark(faults, world, notes, deed)?;
        notes.note(deed)?;
    }
    Ok(())
}

// What is wrong with a mark.
fn add_mark<V: Seen>(
    faults: &mut Vec<Fault>,
    world: &V,
    notes: &Notes,
    deed: &Deed,
) -> Result<(), AllocError>
    ensures { OnOk result (faults.new.items ≡ faults.old.items ++ mark_faults (V.world_of world.now) notes.now deed.now.marked.line deed.now.marked.mark) }
{
    let line = deed.marked.line;
    match deed.marked.mark {
        Mark::Use(memory) => {
            add_if(
                faults,
                notes.is_freed(memory),
                FaultKind::UseAfterFree,
                line,
            )
        }
        Mark::Drop(_) => Ok(()),
        Mark::Free(memory) => {
            add_if(faults, notes.is_freed(memory), FaultKind::FreedTwice, line)?;
            add_if(faults, notes.is_in_use(memory), FaultKind::FreedInUse, line)
        }
        Mark::Quiet(target) => add_if(
            faults,
            is_any_running(target, world.callbacks()),
            FaultKind::NotQuiet,
            line,
        ),
    }
}

// ---- what an entry ends and makes

// The uses end that were to, and an object that is made has its line.
fn end_entry<W: Watches>(
    notes: &mut Notes,
    watches: &W,
    passage: &Passage,
) -> Result<(), AllocError>
    ensures { OnOk result (notes.new ≡ noted_at (W.watched watches.now) notes.old passage.now.before passage.now.after passage.now.entry) }
{
    notes.end_uses(passage.entry.who, passage.ends_part());
    if passage.makes_object() {
        notes
            .lines
            .push(line_at(watches, passage.entry.who, &passage.before))?;
    }
    Ok(())
}

// ---- what is left

fn add_left<V: Seen>(faults: &mut Vec<Fault>, world: &V, lines: &[u32]) -> Result<(), AllocError>
    ensures { OnOk result (faults.new.items ≡ faults.old.items ++ left_faults (V.world_of world.now) lines.now) }
{
    if is_at_rest(world) {
        add_operating(faults, world.callbacks(), lines)
    } else {
        Ok(())
    }
}

// Each client has finished, no callback runs and none is pending.
fn is_at_rest<V: Seen>(world: &V) -> bool
    ensures { result ≡ is_at_rest (V.world_of world.now) }
{
    have_finished(world.clients()) && !is_any_due(world.callbacks())
}

fn have_finished(clients: &[ClientRow]) -> bool
    ensures { result ≡ list_all (λ (r : ClientRow). r.finished) clients.now }
{
    clients.iter().all(|client| client.finished)
}

fn is_any_due(callbacks: &[CallbackRow]) -> bool
    ensures { result ≡ list_any (λ (c : CallbackRow). is_running c.status || is_pending c.status) callbacks.now }
{
    callbacks.iter().any(|callback| is_running(callback.status) || is_pending(callback.status))
}

fn add_operating(
    faults: &mut Vec<Fault>,
    callbacks: &[CallbackRow],
    lines: &[u32],
) -> Result<(), AllocError>
    ensures { OnOk result (faults.new.items ≡ faults.old.items ++ map (left_fault lines.now) (filter (λ (c : CallbackRow). is_operating c.status) callbacks.now)) }
{
    for callback in callbacks {
        if is_operating(callback.status) {
            faults.push(left_fault(lines, callback))?;
        }
    }
    Ok(())
}

fn left_fault(lines: &[u32], callback: &CallbackRow) -> Fault
    ensures { result ≡ left_fault lines.now callback.now }
{
    Fault {
        kind: FaultKind::Left(left_as(callback.status)),
        line: numbered(lines, callback.object.0).unwrap_or(0),
    }
}

fn left_as(status: Status) -> Left
    ensures { result ≡ left_as status }
{
    match status {
        Status::Expected => Left::Expected,
        Status::Issued => Left::Issued,
        _ => Left::Pending,
    }
}

fn numbered(lines: &[u32], number: u32) -> Option<u32>
    ensures { result ≡ numbered lines.now number }
{
    if number == 0 {
        return None;
    }
    lines.get(number as usize - 1).copied()
}

fn is_running(status: Status) -> bool
    ensures { result ≡ is_running status }
{
    matches!(status, Status::Running { .. })
}

fn is_pending(status: Status) -> bool
    ensures { result ≡ is_pending status }
{
    matches!(status, Status::Pending)
}

fn is_operating(status: Status) -> bool
    ensures { result ≡ is_operating status }
{
    matches!(status, Status::Expected | Status::Issued)
}
