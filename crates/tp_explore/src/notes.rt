//! What the marks of a script leave behind.

ghost use Rattle.std.specs.Prelude.{◌≡◌, IfOk, OnOk, not};
ghost use Rattle.std.specs.List.{filter, list_any};
ghost use Rattle.tp_base.specs.Actors.{is_same_actor};
ghost use Rattle.tp_model.specs.Laws.Entries.{is_among};
ghost use Rattle.tp_explore.specs.Ended.{ended_by};
ghost use Rattle.tp_explore.specs.Exchanging.{exchanged_noted, exchanged_uses, rearranged_noted};
ghost use Rattle.tp_explore.specs.Faults.{behind, dropped, noted_by, used};
ghost use Rattle.tp_explore.specs.Noted.{is_by, is_in_use, is_of_memory, is_use, nothing_noted, without};

use crate::mark::{Deed, Mark};
use crate::noted::{Hush, Use};
use crate::rising::add_rising;
use plain_worlds::exchanged_who;
use std::alloc::{AllocError, Global};
use std::marker::Model;
use tp_base::ids::Who;

/// What the marks of a script leave behind. Each list rises, and has nothing twice.
#[derive(Drop)]
pub struct Notes {
    // The memories that were freed.
    pub(crate) freed: Vec<u32>,
    // The uses that were begun and not ended: those that their parts go on with, and those that end with their actor's
    // next entry.
    pub(crate) held: Vec<Use>,
    pub(crate) leaving: Vec<Use>,
    // Of what no callback may run any more.
    pub(crate) quiet: Vec<Hush>,
    // The lines that made the objects, in the order of their numbers.
    pub(crate) lines: Vec<u32>,
}

impl Model for Notes {
    ghost use Rattle.tp_explore.specs.Noted.{Noted};

    ghost Value = { Noted };

    ghost view = { λ a. record {
      freed = a.freed.items;
      held = a.held.items;
      leaving = a.leaving.items;
      quiet = a.quiet.items;
      lines = a.lines.items;
    } };
}

impl Notes {
    /// Before anything is said.
    pub fn new(alloc: Global) -> Notes
        ensures { result ≡ nothing_noted }
    {
        Notes {
            freed: Vec::new(alloc),
            held: Vec::new(alloc),
            leaving: Vec::new(alloc),
            quiet: Vec::new(alloc),
            lines: Vec::new(alloc),
        }
    }

    /// The same once more.
    pub fn copy(&self, alloc: Global) -> Result<Notes, AllocError>
        ensures { IfOk result (λ notes. notes ≡ self.now) }
    {
        Ok(Notes {
            freed: Vec::from_slice(alloc, &self.freed)?,
            held: Vec::from_slice(alloc, &self.held)?,
            leaving: Vec::from_slice(alloc, &self.leaving)?,
            quiet: Vec::from_slice(alloc, &self.quiet)?,
            lines: Vec::from_slice(alloc, &self.lines)?,
        })
    }

    /// The same behind these exchanges of neighbouring workers, one after another.
    pub(crate) fn rearranged(&self, alloc: Global, order: &[u16]) -> Result<Notes, AllocError>
        ensures { IfOk result (λ notes. notes ≡ rearranged_noted order.now self.now) }
    {
        let mut notes = self.copy(alloc)?;
        for at in order {
            notes.exchange(alloc, *at)?;
        }
        Ok(notes)
    }

    // Two workers change places.
    fn exchange(&mut self, alloc: Global, at: u16) -> Result<(), AllocError>
        ensures { OnOk result (self.new ≡ exchanged_noted at self.old) }
    {
        self.held = exchanged_uses(alloc, &self.held, at)?;
        self.leaving = exchanged_uses(alloc, &self.leaving, at)?;
        Ok(())
    }

    /// Whether the memory was freed.
    pub fn is_freed(&self, memory: u32) -> bool
        ensures { result ≡ is_among memory self.now.freed }
    {
        self.freed.iter().any(|freed| *freed == memory)
    }

    /// Whether some use of the memory has begun and not ended.
    pub fn is_in_use(&self, memory: u32) -> bool
        ensures { result ≡ is_in_use self.now memory }
    {
        uses(&self.held, memory) || uses(&self.leaving, memory)
    }

    /// A mark takes place.
    pub fn note(&mut self, deed: &Deed) -> Result<(), AllocError>
        ensures { OnOk result (self.new ≡ behind self.old deed.now) }
    {
        match deed.marked.mark {
            Mark::Use(memory) => self.begin_use(deed, memory),
            Mark::Drop(memory) => self.drop_use(deed, memory),
            Mark::Free(memory) => add_rising(&mut self.freed, memory),
            Mark::Quiet(target) => add_rising(
                &mut self.quiet,
                Hush {
                    line: deed.marked.line,
                    target,
                },
            ),
        }
    }

    // A use that begins in a cancel routine ends with its actor's next entry.
    fn begin_use(&mut self, deed: &Deed, memory: u32) -> Result<(), AllocError>
        ensures { OnOk result (self.new ≡ used self.old deed.now memory) }
    {
        let begun = Use {
            who: deed.who,
            memory,
        };
        if deed.visits {
            add_rising(&mut self.leaving, begun)
        } else {
            add_rising(&mut self.held, begun)
        }
    }

    // A use that is dropped ends with its actor's next entry.
    fn drop_use(&mut self, deed: &Deed, memory: u32) -> Result<(), AllocError>
        ensures { OnOk result (self.new ≡ dropped self.old deed.now memory) }
    {
        if deed.visits || !is_held(&self.held, deed.who, memory) {
            return Ok(());
        }
        end_use(&mut self.held, deed.who, memory);
        add_rising(
            &mut self.leaving,
            Use {
                who: deed.who,
                memory,
            },
        )
    }

    /// Ends the uses of an actor that are to end with its entry, and, where its part ends, all.
    pub(crate) fn end_uses(&mut self, who: Who, with_part: bool)
        ensures { self.new ≡ ended_by who with_part self.old }
    {
        if with_part {
            end_all(&mut self.held, who);
        }
        end_all(&mut self.leaving, who);
    }
}

pub(crate) fn is_same_actor(a: Who, b: Who) -> bool
    ensures { result ≡ is_same_actor a b }
{
    match (a, b) {
        (Who::Client(a), Who::Client(b)) | (Who::Worker(a), Who::Worker(b)) => a == b,
        _ => false,
    }
}

// The uses, where two workers change places.
fn exchanged_uses(alloc: Global, uses: &[Use], at: u16) -> Result<Vec<Use>, AllocError>
    ensures { IfOk result (λ exchanged. exchanged.items ≡ exchanged_uses at uses.now) }
{
    let mut exchanged = Vec::new(alloc);
    for begun in uses {
        let by_other = Use {
            who: exchanged_who(at, begun.who),
            memory: begun.memory,
        };
        add_rising(&mut exchanged, by_other)?;
    }
    Ok(exchanged)
}

fn is_use(who: Who, memory: u32, begun: &Use) -> bool
    ensures { result ≡ is_use who memory begun.now }
{
    is_same_actor(begun.who, who) && begun.memory == memory
}

fn uses(begun: &[Use], memory: u32) -> bool
    ensures { result ≡ list_any (is_of_memory memory) begun.now }
{
    begun.iter().any(|begun| begun.memory == memory)
}

fn is_held(held: &[Use], who: Who, memory: u32) -> bool
    ensures { result ≡ list_any (is_use who memory) held.now }
{
    held.iter().any(|begun| is_use(who, memory, begun))
}

fn end_use(held: &mut Vec<Use>, who: Who, memory: u32)
    ensures { held.new.items ≡ filter (λ (u : Use). not (is_use who memory u)) held.old.items }
{
    held.retain(|begun| !is_use(who, memory, begun));
}

fn end_all(uses: &mut Vec<Use>, who: Who)
    ensures { uses.new.items ≡ without who uses.old.items }
{
    uses.retain(|begun| !is_same_actor(begun.who, who));
}
