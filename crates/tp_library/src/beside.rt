//! All that is kept beside a machine.

ghost use Rattle.std.specs.Prelude.{◌≡◌, ◌+◌, ◌-◌, ◌*◌, ◌^◌, ◌<◌, ◌≤◌, ℕ, Bool, false, not, ◌==◌, nat_lt, length, replicate, is_some, slice_set, IfOk};
ghost use Rattle.tp_base.specs.declared.ids.Who.{Who as Actor};
ghost use Rattle.tp_library.specs.Acting.{has_finished, is_there, opening_actors, run_of};
ghost use Rattle.tp_library.specs.Tallied.{none_held, opening_counts};
ghost use Rattle.tp_library.specs.Kept.{held_by, AreOpened};
ghost use Rattle.tp_library.specs.Noted.{CanNote, IsNoted};
ghost use Rattle.tp_library.specs.Stepped.{refused_actor, IsStep};
ghost use Rattle.tp_library.specs.Libraries.{slot_of, with_load, with_slot, IsLibrary};
ghost use Rattle.tp_library.specs.Seen.{was_held};
ghost use Rattle.tp_library.specs.Tallies.{at};

use crate::actors::Actors;
use crate::counts::Counts;
use crate::shelf::Shelf;
use crate::told::Effect;
use crate::{LIBRARY_LIMIT, LOAD_LIMIT, LibAnswer, LibCall, LibRefusal, LibraryId};
use std::alloc::{AllocError, Global};
use tp_base::ids::{GroupId, ObjectId, Who};
use tp_base::limits::Limits;

/// What is kept beside a machine.
#[derive(Drop)]
pub(crate) struct Beside {
    pub(crate) shelf: Shelf,
    pub(crate) counts: Counts,
    pub(crate) actors: Actors,
    // By library, from 0 on: whether something held it before the last step.
    pub(crate) before: Vec<bool>,
}

impl Beside {
    /// What is kept beside a machine that has made no step, with room for all that it can make.
    pub(crate) fn open(alloc: Global, limits: Limits, capacity: u32) -> Result<Beside, AllocError>
        requires { limits.groups ≤ 65535 }
        ensures { IfOk result (AreOpened limits capacity) }
    {
        Ok(Beside {
            shelf: Shelf::open(alloc, limits.workers, limits.objects, capacity)?,
            counts: Counts::open(alloc, limits.groups, limits.objects)?,
            actors: Actors::open(alloc, limits.clients, limits.workers)?,
            before: vec![in alloc; false; LIBRARY_LIMIT as usize + 1]?,
        })
    }

    /// By how much a library is held.
    pub(crate) fn held(&self, library: u32) -> u64
        requires library { library ≤ LIBRARY_LIMIT }
        requires fits { at self.now.counts.owned library + at self.now.counts.left library + at self.now.counts.running library < 2 ^ 63 }
        ensures { result ≡ held_by self.now library }
    {
        self.shelf.load(library)
            + self.counts.owned(library)
            + self.counts.left(library)
            + self.counts.running(library)
    }

    /// Whether something holds a library.
    pub(crate) fn is_held(&self, library: u32) -> bool
        requires { library ≤ LIBRARY_LIMIT }
        ensures { result ≡ nat_lt 0 (held_by self.now library) }
    {
        self.shelf.load(library) > 0
            || self.counts.owned(library) > 0
            || self.counts.left(library) > 0
            || self.counts.running(library) > 0
    }

    /// Notes what is held before a step.
    pub(crate) fn remember(&mut self)
        requires { length self.old.before.items ≡ LIBRARY_LIMIT + 1 }
        ensures held { (library : ℕ) → library ≤ LIBRARY_LIMIT → was_held self.new.before.items library ≡ nat_lt 0 (held_by self.old library) }
        ensures length { length self.new.before.items ≡ LIBRARY_LIMIT + 1 }
        ensures shelf { self.new.shelf ≡ self.old.shelf }
        ensures counts { self.new.counts ≡ self.old.counts }
        ensures actors { self.new.actors ≡ self.old.actors }
    {
        for library in 0..LIBRARY_LIMIT + 1 {
            let held = self.is_held(library);
            self.before[library as usize] = held;
        }
    }

    // Why an actor makes no calls, if it makes none.
    fn refused_actor(&self, who: Who) -> Option<LibRefusal>
        ensures { result ≡ refused_actor self.now.actors who }
    {
        if !self.actors.is_there(who) {
            return Some(LibRefusal::NoSuch);
        }
        if self.actors.has_finished(who) {
            return Some(LibRefusal::Released);
        }
        None
    }

    /// Loads a library once more.
    pub(crate) fn load(&mut self, who: Who, library: LibraryId) -> LibAnswer
        requires { IsLibrary library.0 }
        ensures { IsStep self.old who (LibCall.Load library) self.new result }
    {
        if let Some(refusal) = self.refused_actor(who) {
            return LibAnswer::Refused(refusal);
        }
        let loads = self.shelf.load(library.0);
        if loads == u64::from(LOAD_LIMIT) {
            return LibAnswer::Refused(LibRefusal::LoadLimit);
        }
        self.shelf.set_load(library.0, loads + 1);
        LibAnswer::Done
    }

    /// Takes one load of a library back.
    pub(crate) fn free(&mut self, who: Who, library: LibraryId) -> LibAnswer
        requires { IsLibrary library.0 }
        ensures { IsStep self.old who (LibCall.Free library) self.new result }
    {
        if let Some(refusal) = self.refused_actor(who) {
            return LibAnswer::Refused(refusal);
        }
        let loads = self.shelf.load(library.0);
        if loads == 0 {
            return LibAnswer::Refused(LibRefusal::NoLoadLeft);
        }
        self.shelf.set_load(library.0, loads - 1);
        LibAnswer::Done
    }

    /// Fills a library into the slot of an actor's callback.
    pub(crate) fn free_on_return(&mut self, who: Who, library: LibraryId) -> LibAnswer
        requires { IsLibrary library.0 }
        ensures { IsStep self.old who (LibCall.FreeOnReturn library) self.new result }
    {
        if let Some(refusal) = self.refused_actor(who) {
            return LibAnswer::Refused(refusal);
        }
        if !self.actors.is_running(who) {
            return LibAnswer::Refused(LibRefusal::NotRunning);
        }
        if self.shelf.slot(who) != 0 {
            return LibAnswer::Refused(LibRefusal::SlotTaken);
        }
        if self.shelf.load(library.0) == 0 {
            return LibAnswer::Refused(LibRefusal::NoLoadLeft);
        }
        self.shelf.set_slot(who, library.0);
        LibAnswer::Done
    }

    /// Notes what an answer of an actor's call says. What the call made is of a library, or of none where
    /// that is 0. Callbacks that it made, or cancelled with a group, are counted elsewhere.
    pub(crate) fn note(&mut self, who: Who, effect: Effect, library: u32)
        requires { CanNote self.old effect library }
        ensures { IsNoted self.old who effect library self.new }
    {
        match effect {
            Effect::Nothing => {}
            Effect::Makes { group } => self.make(group, library),
            Effect::Releases { object } => self.release(object),
            Effect::Closes { group, .. } => self.counts.release_group(group),
            Effect::Cancels { object, count } => self.cancel(object, count),
            Effect::Submits { callback } => self.submit(callback, library),
            Effect::Takes { callback, object } => self.take(who, callback, object),
            Effect::Returns => self.end(who),
            Effect::Finishes => self.actors.finish(who),
        }
    }

    fn make(&mut self, group: GroupId, library: u32)
        requires { CanNote self.old (Effect.Makes group) library }
        ensures { (who : Actor) → IsNoted self.old who (Effect.Makes group) library self.new }
    {
        self.shelf.add_object(library);
        self.counts.add_object(group, library);
    }

    fn release(&mut self, object: ObjectId)
        requires { CanNote self.old (Effect.Releases object) 0 }
        ensures { (who : Actor) → IsNoted self.old who (Effect.Releases object) 0 self.new }
    {
        let library = self.shelf.of_object(object);
        self.counts.release(object, library);
    }

    fn cancel(&mut self, object: ObjectId, count: u32)
        ensures { (who : Actor) → IsNoted self.old who (Effect.Cancels object count) 0 self.new }
    {
        let library = self.shelf.of_object(object);
        self.counts.drop_left(library, u64::from(count));
    }

    fn submit(&mut self, callback: u64, library: u32)
        requires { CanNote self.old (Effect.Submits callback) library }
        ensures { (who : Actor) → IsNoted self.old who (Effect.Submits callback) library self.new }
    {
        if library != 0 {
            self.shelf.add_simple(callback, library);
        }
    }

    fn take(&mut self, who: Who, callback: u64, object: ObjectId)
        requires { CanNote self.old (Effect.Takes callback object) 0 }
        ensures { IsNoted self.old who (Effect.Takes callback object) 0 self.new }
    {
        let library = self.shelf.library_at(callback, object);
        self.counts.take(library);
        self.actors.begin(who, callback, object);
    }

    fn end(&mut self, who: Who)
        ensures { IsNoted self.old who Effect.Returns 0 self.new }
    {
        if let Some((callback, object)) = self.actors.run(who) {
            let library = self.shelf.library_at(callback, object);
            self.counts.drop_running(library);
        }
        self.actors.end(who);
        self.shelf.free_slot(who);
    }
}
