//! A walk along a history, which tells its story.

ghost use Rattle.std.specs.Prelude.{◌≡◌, ◌+◌, ◌++◌, ℕ, List, [], IfOk, OnOk, if◌then◌else◌, map};
ghost use Rattle.std.specs.List.{flat_map};
ghost use Rattle.tp_base.specs.declared.answers.Entry.{Entry};
ghost use Rattle.tp_base.specs.declared.limits.Limits.{Limits};
ghost use Rattle.tp_base.specs.Ranges.{AreLimitsInRange};
ghost use Rattle.tp_model.specs.History.{IsLegal};
ghost use Rattle.tp_explore.specs.declared.told.Told.{Told};
ghost use Rattle.tp_explore.specs.Boards.{actors};
ghost use Rattle.tp_explore.specs.Faults.{faults_of};
ghost use Rattle.tp_explore.specs.Scripts.{watched, watched_but};
ghost use Rattle.tp_explore.specs.Stands.{place_of};
ghost use Rattle.tp_explore.specs.Story.{begun_by, happened, happened_of, is_stall, told, told_of, waiting_of};
ghost use Rattle.tp_explore.specs.Watched.{Watched};

use crate::deeds::deeds;
use crate::fault::Fault;
use crate::faults::{enter, line_at};
use crate::led::led;
use crate::mark::Deed;
use crate::notes::Notes;
use crate::seen::Moving;
use crate::stands::{Stand, pass, place_of};
use crate::told::{Begun, Happened, Story, Told};
use crate::watches::Watches;
use std::alloc::{AllocError, Global};
use tp_base::answers::{Answer, Entry};
use tp_base::ids::Who;
use tp_base::limits::Limits;
use tp_script::Script;
use world_reads::Reads;

/// Tells the story of a history of a script on a machine with these limits, which may have been short of room.
///
/// An `AllocError` comes where memory is refused, or the history is too long for its entries or callbacks to be numbered.
pub fn story<V: Moving>(
    alloc: Global,
    script: &Script,
    limits: Limits,
    history: &[Entry],
) -> Result<Story, AllocError>
    requires in_range { AreLimitsInRange limits }
    requires legal { (capacity : ℕ) × IsLegal limits capacity history.now }
    ensures told { IfOk result (λ story. story.told.items ≡ told_of (watched script.now) limits history.now) }
    ensures happened { IfOk result (λ story. story.happened.items ≡ happened_of (watched script.now) limits history.now) }
    ensures waiting { IfOk result (λ story. story.waiting.items ≡ waiting_of (watched script.now) limits history.now) }
{
    story_but::<V>(alloc, script, &[], limits, history)
}

/// The same, where some faults are passed over, and not told.
pub fn story_but<V: Moving>(
    alloc: Global,
    script: &Script,
    passed: &[Fault],
    limits: Limits,
    history: &[Entry],
) -> Result<Story, AllocError>
    requires in_range { AreLimitsInRange limits }
    requires legal { (capacity : ℕ) × IsLegal limits capacity history.now }
    ensures told { IfOk result (λ story. story.told.items ≡ told_of (watched_but passed.now script.now) limits history.now) }
    ensures happened { IfOk result (λ story. story.happened.items ≡ happened_of (watched_but passed.now script.now) limits history.now) }
    ensures waiting { IfOk result (λ story. story.waiting.items ≡ waiting_of (watched_but passed.now script.now) limits history.now) }
{
    let actors = actors(alloc, &limits)?;
    let mut world = V::open(alloc, limits)?;
    let mut stands = Vec::new(alloc);
    let mut notes = Notes::new(alloc);
    let mut told = Vec::new(alloc);
    let mut happened = Vec::new(alloc);
    let mut waiting = Vec::new(alloc);
    let mut number: u32 = 0;
    for entry in history {
        number = next_number(number)?;
        add_stalled(
            &mut waiting,
            script,
            &world,
            &stands,
            &actors,
            &entry.answer,
        )?;
        let passage = pass(&mut stands, script, entry)?;
        world = led(alloc, world, entry)?;
        let faults = enter(alloc, script, passed, limits, &world, &passage, &mut notes)?;
        add_told(&mut told, number, entry.who, &faults)?;
        let deeds = deeds(alloc, script, limits, &passage)?;
        add_happened(&mut happened, number, &deeds)?;
    }
    Ok(Story {
        told,
        happened,
        waiting,
    })
}

fn next_number(number: u32) -> Result<u32, AllocError>
    ensures { IfOk result (λ next. next ≡ number + 1) }
{
    // No history is so long.
    number.checked_add(1).ok_or(AllocError)
}

// The actors of a machine, the clients first.
fn actors(alloc: Global, limits: &Limits) -> Result<Vec<Who>, AllocError>
    requires { AreLimitsInRange limits.now }
    ensures { IfOk result (λ all. all.items ≡ actors limits.now) }
{
    let mut actors = Vec::new(alloc);
    for number in 0..limits.clients {
        actors.push(Who::Client(number + 1))?;
    }
    for number in 0..limits.workers {
        actors.push(Who::Worker(number + 1))?;
    }
    Ok(actors)
}

fn is_stall(answer: &Answer) -> bool
    ensures { result ≡ is_stall answer.now }
{
    matches!(answer, Answer::Stalled)
}

// Where an answer tells that nobody could go on, the waits that are begun.
fn add_stalled<W: Watches, V: Reads>(
    waiting: &mut Vec<Begun>,
    watches: &W,
    world: &V,
    stands: &[Stand],
    actors: &[Who],
    answer: &Answer,
) -> Result<(), AllocError>
    ensures { OnOk result (waiting.new.items ≡ waiting.old.items ++ (if is_stall answer.now then flat_map (begun_by (W.watched watches.now) (record { world = V.world_of world.now; places = place_of stands.now })) actors.now else [])) }
{
    if is_stall(answer) {
        add_waiting(waiting, watches, world, stands, actors)
    } else {
        Ok(())
    }
}

// The waits that are begun, each at the line of its operation.
fn add_waiting<W: Watches, V: Reads>(
    waiting: &mut Vec<Begun>,
    watches: &W,
    world: &V,
    stands: &[Stand],
    actors: &[Who],
) -> Result<(), AllocError>
    ensures { OnOk result (waiting.new.items ≡ waiting.old.items ++ flat_map (begun_by (W.watched watches.now) (record { world = V.world_of world.now; places = place_of stands.now })) actors.now) }
{
    for who in actors {
        if world.is_in_wait(*who) {
            let line = line_at(watches, *who, &place_of(stands, *who));
            waiting.push(Begun { who: *who, line })?;
        }
    }
    Ok(())
}

fn add_told(all: &mut Vec<Told>, entry: u32, who: Who, faults: &[Fault]) -> Result<(), AllocError>
    ensures { OnOk result (all.new.items ≡ all.old.items ++ map (told entry who) faults.now) }
{
    for fault in faults {
        all.push(Told {
            entry,
            who,
            fault: *fault,
        })?;
    }
    Ok(())
}

fn add_happened(all: &mut Vec<Happened>, entry: u32, deeds: &[Deed]) -> Result<(), AllocError>
    ensures { OnOk result (all.new.items ≡ all.old.items ++ map (happened entry) deeds.now) }
{
    for deed in deeds {
        all.push(Happened {
            entry,
            who: deed.who,
            line: deed.marked.line,
        })?;
    }
    Ok(())
}

/// The faults of a story are those of its history, all of them and in their order. It does nothing: who calls it knows this.
#[tactic(auto, using(crate::proofs::Telling::tells_all))]
pub fn stories_tell_all_faults()
    ensures { (k : Watched) (limits : Limits) (history : List Entry) → map (λ (t : Told). t.fault) (told_of k limits history) ≡ faults_of k limits history }
{}
