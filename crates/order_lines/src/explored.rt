//! All orders of a script, and what is written of them.

ghost use Rattle.std.specs.Prelude.{◌≡◌, ◌≢◌, ◌+◌, ◌++◌, ◌<◌, ◌≤◌, ◌^◌, ℕ, List, [], IfOk, OnOk, flat_map, length, map};
ghost use Rattle.tp_base.specs.Ranges.{AreLimitsInRange};
ghost use Rattle.tp_base.specs.declared.answers.Entry.{Entry};
ghost use Rattle.tp_explore.specs.Explored.{IsShortest};
ghost use Rattle.tp_explore.specs.Scripts.{watched_but};
ghost use Rattle.tp_explore.specs.declared.told.Told.{Told};
ghost use Rattle.order_lines.specs.EachExplored.{IsEachExplored};
ghost use Rattle.order_lines.specs.Explored.{begun_text, faults_text, first_told, gave_up_text, happened_text, none_text, states_line, story_text, IsExplored, IsFirst, IsSearched};

use crate::lines::{append_bad, append_fault, append_mark, append_number, append_waits};
use breadth_first::{Answer, Measures};
use kept_book::Kept;
use recorded::Recorded;
use std::alloc::{AllocError, Global};
use tp_base::limits::Limits;
use tp_explore::{
    Begun, Fault, Happened, Moving, Story, Told, explore, passing_over_leaves_the_others, replay,
    stories_tell_all_faults, story_but,
};
use tp_model::legal_keeps_laws;
use tp_report::{Written, into_history};
use tp_script::Script;

/// How many entries there is room for in the history of an order.
pub const EVENTS: u32 = 65_536;

/// How many entries an order has at most that is looked at.
pub const DEEPEST: u32 = 60_000;

/// How many faults are told at most.
pub const BLOCKS: u32 = 65_536;

/// What was found of the orders of a script.
#[derive(Clone, Copy)]
pub enum Found {
    /// None has a fault.
    None,
    /// One has a fault, and no shorter one has.
    Bad,
    /// None of those that were gone through has a fault.
    GaveUp,
}

/// What was found of the orders of a script, and what is to be written of it.
#[derive(Drop)]
pub struct Explored {
    pub text: Vec<u8>,
    pub found: Found,
}

/// What a search found of the orders of a script, and what is to be written of that.
#[derive(Drop)]
enum Searched {
    /// None has a fault.
    None(Vec<u8>),
    /// None of those that were gone through has one.
    GaveUp(Vec<u8>),
    /// A shortest has this fault first.
    Bad { text: Vec<u8>, fault: Fault },
}

/// Goes through every order of a script on machines with these limits, and answers what is to be written of them.
///
/// `text` is that of the script. No more than `most` states are met, at least 1. An `AllocError` comes where memory is
/// refused.
pub fn explore_script<B: Recorded, V: Moving>(
    alloc: Global,
    script: &Script,
    text: &[u8],
    limits: Limits,
    most: u32,
) -> Result<Explored, AllocError>
    requires text { length text.now + 1 < 2 ^ 32 }
    requires in_range { AreLimitsInRange limits }
    requires most { 1 ≤ most }
    ensures { IfOk result (λ explored. IsExplored script.now text.now limits most explored.text.items explored.found) }
{
    let (text, found) = match seek::<B, V>(alloc, script, &[], text, limits, most)? {
        Searched::None(text) => (text, Found::None),
        Searched::GaveUp(text) => (text, Found::GaveUp),
        Searched::Bad { text, .. } => (text, Found::Bad),
    };
    Ok(Explored { text, found })
}

/// Goes through every order of a script again and again, and answers what is to be written of all faults that some order
/// has: for each a shortest order that has it, the shortest first.
///
/// An order that has several is told for the first of them that was not told before. The words are those of
/// `explore_script`; no more than `most` states are met in each search.
pub fn explore_each<B: Recorded, V: Moving>(
    alloc: Global,
    script: &Script,
    text: &[u8],
    limits: Limits,
    most: u32,
) -> Result<Explored, AllocError>
    requires text { length text.now + 1 < 2 ^ 32 }
    requires in_range { AreLimitsInRange limits }
    requires most { 1 ≤ most }
    ensures { IfOk result (λ explored. IsEachExplored script.now text.now limits most explored.text.items explored.found) }
{
    passing_over_leaves_the_others();
    let mut output = Vec::new(alloc);
    let mut told = Vec::new(alloc);
    for _ in 0..BLOCKS {
        match seek::<B, V>(alloc, script, &told, text, limits, most)? {
            Searched::Bad { text: block, fault } => {
                output.extend_from_slice(&block)?;
                told.push(fault)?;
            }
            Searched::None(ending) => {
                if told.is_empty() {
                    return Ok(Explored {
                        text: ending,
                        found: Found::None,
                    });
                }
                return Ok(Explored {
                    text: output,
                    found: Found::Bad,
                });
            }
            Searched::GaveUp(ending) => {
                output.extend_from_slice(&ending)?;
                return Ok(Explored {
                    text: output,
                    found: Found::GaveUp,
                });
            }
        }
    }
    Ok(Explored {
        text: output,
        found: Found::Bad,
    })
}

// Goes through every order of a script, where some faults are passed over.
fn seek<B: Recorded, V: Moving>(
    alloc: Global,
    script: &Script,
    passed: &[Fault],
    text: &[u8],
    limits: Limits,
    most: u32,
) -> Result<Searched, AllocError>
    requires text { length text.now + 1 < 2 ^ 32 }
    requires in_range { AreLimitsInRange limits }
    requires most { 1 ≤ most }
    ensures { IfOk result (IsSearched (watched_but passed.now script.now) text.now limits most) }
{
    let mut measures = Measures::new();
    match explore::<V>(alloc, script, passed, limits, most, DEEPEST, &mut measures)? {
        Answer::None { .. } => Ok(Searched::None(write_none(alloc, &measures)?)),
        Answer::GaveUp { states, deep } => Ok(Searched::GaveUp(write_gave_up(
            alloc,
            u64::from(states),
            u64::from(deep),
        )?)),
        Answer::Bad(path) => write_bad::<B, V>(
            alloc,
            script,
            passed,
            text,
            limits,
            &path,
            measures.states,
        ),
    }
}

fn write_none(alloc: Global, measures: &Measures) -> Result<Vec<u8>, AllocError>
    ensures { IfOk result (λ text. text.items ≡ none_text measures.now.states measures.now.steps) }
{
    let mut text = Vec::new(alloc);
    text.extend_from_slice(b"none\n")?;
    append_states(measures.states, &mut text)?;
    text.extend_from_slice(b"steps ")?;
    append_number(measures.steps, &mut text)?;
    text.push(b'\n')?;
    Ok(text)
}

fn write_gave_up(alloc: Global, states: u64, deep: u64) -> Result<Vec<u8>, AllocError>
    ensures { IfOk result (λ text. text.items ≡ gave_up_text states deep) }
{
    let mut text = Vec::new(alloc);
    text.extend_from_slice(b"gave up at ")?;
    append_number(states, &mut text)?;
    text.extend_from_slice(b" states\ndeep ")?;
    append_number(deep, &mut text)?;
    text.push(b'\n')?;
    Ok(text)
}

// What is written of the order that these moves make. Where a history has no room for it, it was given up.
fn write_bad<B: Recorded, V: Moving>(
    alloc: Global,
    script: &Script,
    passed: &[Fault],
    text: &[u8],
    limits: Limits,
    path: &[u32],
    states: u64,
) -> Result<Searched, AllocError>
    requires text { length text.now + 1 < 2 ^ 32 }
    requires in_range { AreLimitsInRange limits }
    requires shortest { (history : List Entry) × IsShortest (watched_but passed.now script.now) limits path.now history }
    ensures { (most : ℕ) → IfOk result (IsSearched (watched_but passed.now script.now) text.now limits most) }
{
    legal_keeps_laws();
    stories_tell_all_faults();
    let mut book = Written::<Kept<B>>::open(alloc, limits, EVENTS)?;
    if !replay(alloc, &mut book, script, path)? {
        let ending = write_gave_up(alloc, states, (path.len() as u64).saturating_sub(1));
        return Ok(Searched::GaveUp(ending?));
    }
    let (kept, history) = into_history(alloc, book)?;
    let _len = kept.len();
    let story = story_but::<V>(alloc, script, passed, limits, kept.entries())?;
    let fault = first_fault(&story.told);
    let mut output = history;
    append_story(text, &story, &mut output)?;
    append_states(states, &mut output)?;
    Ok(Searched::Bad {
        text: output,
        fault,
    })
}

fn first_fault(told: &[Told]) -> Fault
    requires { told.now ≢ [] }
    ensures { IsFirst result (map (λ (t : Told). t.fault) told.now) }
{
    told[0].fault
}

// Appends what stands behind a history: its first fault, who waits at a stall, and its marks.
fn append_story(script: &[u8], story: &Story, text: &mut Vec<u8>) -> Result<(), AllocError>
    requires { length script.now + 1 < 2 ^ 32 }
    ensures { OnOk result (text.new.items ≡ text.old.items ++ story_text script.now story.now.told.items story.now.waiting.items story.now.happened.items) }
{
    append_first(script, &story.told, text)?;
    append_waiting(&story.waiting, text)?;
    append_marks(script, &story.happened, text)
}

fn append_first(script: &[u8], told: &[Told], text: &mut Vec<u8>) -> Result<(), AllocError>
    requires { length script.now + 1 < 2 ^ 32 }
    ensures { OnOk result (text.new.items ≡ text.old.items ++ first_told script.now told.now) }
{
    match told.first() {
        Some(first) => append_bad(script, &first.fault, first.who, text),
        None => Ok(()),
    }
}

/// Appends a line for each fault of a run. `script` is the text of the script.
pub fn append_faults(script: &[u8], told: &[Told], text: &mut Vec<u8>) -> Result<(), AllocError>
    requires { length script.now + 1 < 2 ^ 32 }
    ensures { OnOk result (text.new.items ≡ text.old.items ++ faults_text script.now told.now) }
{
    for fault in told {
        append_fault(script, fault.entry, &fault.fault, fault.who, text)?;
    }
    Ok(())
}

fn append_waiting(waiting: &[Begun], text: &mut Vec<u8>) -> Result<(), AllocError>
    ensures { OnOk result (text.new.items ≡ text.old.items ++ flat_map begun_text waiting.now) }
{
    for begun in waiting {
        append_waits(begun.who, begun.line, text)?;
    }
    Ok(())
}

fn append_marks(script: &[u8], happened: &[Happened], text: &mut Vec<u8>) -> Result<(), AllocError>
    requires { length script.now + 1 < 2 ^ 32 }
    ensures { OnOk result (text.new.items ≡ text.old.items ++ flat_map (happened_text script.now) happened.now) }
{
    for mark in happened {
        append_mark(script, mark.entry, mark.who, mark.line, text)?;
    }
    Ok(())
}

// Appends how many states were met.
fn append_states(states: u64, text: &mut Vec<u8>) -> Result<(), AllocError>
    ensures { OnOk result (text.new.items ≡ text.old.items ++ states_line states) }
{
    text.extend_from_slice(b"states ")?;
    append_number(states, text)?;
    text.push(b'\n')?;
    Ok(())
}
