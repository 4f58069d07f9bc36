//! The notices that actors have still to give: for each actor a list of objects. An object is in one of
//! these lists at most, so that its number serves as its key, and nothing is searched.

ghost use Rattle.std.specs.Prelude.{◌≡◌, ℕ, ◌+◌, ◌<◌, ◌≤◌, ◌^◌, ◌++◌, ◌∷◌, [], IfOk, drop, false, length, replicate, slice_get};
ghost use Rattle.begun_waits.specs.Notices.{IsCleared, is_listed, told_at, with_told};

use linked_lists::LinkedLists;
use std::alloc::{AllocError, Global};
use std::marker::Model;
use steps::Steps;
use tp_base::ids::ObjectId;

// For each actor, by its place, the objects of which it has still to give a notice.
#[derive(Drop)]
pub(crate) struct Notices {
    objects: u32,
    // The list of an actor's place has the numbers of its objects.
    lists: LinkedLists,
}

impl Model for Notices {
    ghost use Rattle.std.specs.Prelude.{map};
    ghost use Rattle.begun_waits.specs.Notices.{Told};

    ghost Value = { Told };

    ghost use Rattle.begun_waits.specs.Notices.{AreThreaded, objects_of};

    ghost view = { λ a. record { objects = a.objects; lists = map objects_of a.lists.lists } };

    ghost invariant = { λ a. AreThreaded a.objects a.lists };
}

impl Notices {
    // None of so many actors, with the memory for objects of the numbers up to `objects`.
    pub(crate) fn open(alloc: Global, actors: u32, objects: u32) -> Result<Notices, AllocError>
        requires { objects + 1 < 2 ^ 32 }
        ensures { IfOk result (λ notices. notices ≡ record { objects = objects; lists = replicate actors [] }) }
    {
        Ok(Notices {
            objects,
            lists: LinkedLists::open(alloc, actors, objects + 1)?,
        })
    }

    // The first object of an actor, or None where it has no notice to give.
    pub(crate) fn first(&self, actor: u32) -> Option<ObjectId>
        requires { actor < length self.now.lists }
        ensures { result ≡ slice_get (told_at self.now actor) 0 }
    {
        let mut steps = Steps::new();
        let object = self.lists.first(actor, &mut steps)?;
        Some(ObjectId(object))
    }

    // One more object for an actor, behind the others. No actor has a notice of it.
    pub(crate) fn put(&mut self, actor: u32, object: ObjectId)
        requires there { actor < length self.old.lists }
        requires most { object.0 ≤ self.old.objects }
        requires free { (other : ℕ) → is_listed object (told_at self.old other) ≡ false }
        ensures { self.new ≡ with_told self.old actor (told_at self.old actor ++ object ∷ []) }
    {
        let mut steps = Steps::new();
        // It is asked for what is known by it: a key is in one list at most.
        let _owner = self.lists.owner(object.0);
        self.lists.put_last(actor, object.0, &mut steps);
    }

    // An actor's first object goes, if it has one.
    pub(crate) fn take_first(&mut self, actor: u32)
        requires { actor < length self.old.lists }
        ensures { self.new ≡ with_told self.old actor (drop 1 (told_at self.old actor)) }
    {
        let mut steps = Steps::new();
        if let Some(object) = self.lists.first(actor, &mut steps) {
            self.lists.take_out(object, &mut steps);
        }
    }

    // All objects of an actor go.
    pub(crate) fn clear(&mut self, actor: u32)
        requires { actor < length self.old.lists }
        ensures { self.new ≡ with_told self.old actor [] }
    {
        let mut steps = Steps::new();
        clear_list(&mut self.lists, actor, &mut steps);
    }
}

// Takes all objects out of a list.
fn clear_list(lists: &mut LinkedLists, list: u32, steps: &mut Steps)
    requires { list < length lists.old.lists }
    ensures { IsCleared lists.old lists.new list }
{
    while let Some(object) = lists.first(list, steps) {
        lists.take_out(object, steps);
    }
}
