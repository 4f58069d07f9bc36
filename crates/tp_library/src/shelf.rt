//! How often each library is loaded, and what was made in it.

ghost use Rattle.std.specs.Prelude.{◌≡◌, ◌+◌, ◌-◌, ◌^◌, ◌<◌, ◌≤◌, ℕ, All, [], ◌∷◌, ◌++◌, length, replicate, slice_index_or, slice_set, IfOk};
ghost use Rattle.tp_library.specs.Shelved.{Stocked};
ghost use Rattle.tp_library.specs.Tallied.{none_held};
ghost use Rattle.tp_library.specs.Shelves.{library_at, library_of_object, library_of_simple, load};
ghost use Rattle.tp_library.specs.Libraries.{freed_slot, slot_of, with_load, with_slot};

use crate::tally::Tally;
use crate::{LIBRARY_LIMIT, LOAD_LIMIT};
use std::alloc::{AllocError, Global};
use std::marker::Model;
use tp_base::ids::{ObjectId, Who};

/// What the definition's shelf has.
#[derive(Drop)]
pub(crate) struct Shelf {
    loads: Tally,
    // By object, from 1 on: its library, or 0.
    of_object: Vec<u32>,
    // The simple callbacks that have a library, and which, by rising number of the callback.
    of_simple: Vec<(u64, u32)>,
    // By worker, from 1 on: the library that its callback frees at its return, or 0.
    slots: Vec<u32>,
}

impl Model for Shelf {
    ghost use Rattle.tp_library.specs.Shelved.{Stocked};

    ghost Value = { Stocked };

    ghost use Rattle.std.specs.Prelude.{vec_capacity};
    ghost use Rattle.tp_library.specs.Shelved.{IsShelved};

    ghost view = { λ a. record { shelf = record { loads = a.loads; of_object = a.of_object.items; of_simple = a.of_simple.items; slots = a.slots.items }; objects = vec_capacity a.of_object; simple = vec_capacity a.of_simple } };

    ghost invariant = { λ a. IsShelved a.loads a.of_object.items a.of_simple.items a.slots.items };
}

impl Shelf {
    /// Nothing was loaded or made.
    pub(crate) fn open(
        alloc: Global,
        workers: u32,
        objects: u32,
        simple: u32,
    ) -> Result<Shelf, AllocError>
        ensures { IfOk result (λ made. made ≡ record { shelf = record { loads = none_held; of_object = []; of_simple = []; slots = replicate workers 0 }; objects = objects; simple = simple }) }
    {
        Ok(Shelf {
            loads: Tally::zero(alloc)?,
            of_object: Vec::with_capacity(alloc, objects as usize)?,
            of_simple: Vec::with_capacity(alloc, simple as usize)?,
            slots: vec![in alloc; 0_u32; workers as usize]?,
        })
    }

    /// How often a library is loaded.
    pub(crate) fn load(&self, library: u32) -> u64
        requires { library ≤ LIBRARY_LIMIT }
        ensures value { result ≡ load self.now.shelf library }
        ensures most { result ≤ LOAD_LIMIT }
    {
        self.loads.at(library)
    }

    pub(crate) fn set_load(&mut self, library: u32, loads: u64)
        requires library { library ≤ LIBRARY_LIMIT }
        requires most { loads ≤ LOAD_LIMIT }
        ensures { self.new ≡ record self.old { shelf = with_load self.old.shelf library loads } }
    {
        self.loads.set(library, loads);
    }

    /// The library that an actor's callback frees at its return, or 0.
    pub(crate) fn slot(&self, who: Who) -> u32
        ensures value { result ≡ slot_of self.now.shelf who }
        ensures most { result ≤ LIBRARY_LIMIT }
    {
        match who {
            Who::Client(_) => 0,
            Who::Worker(number) => self
                .slots
                .get((number as usize).saturating_sub(1))
                .copied()
                .unwrap_or(0),
        }
    }

    pub(crate) fn set_slot(&mut self, who: Who, library: u32)
        requires { library ≤ LIBRARY_LIMIT }
        ensures { self.new ≡ record self.old { shelf = with_slot self.old.shelf who library } }
    {
        match who {
            Who::Client(_) => {}
            Who::Worker(number) => {
                let place = (number as usize).saturating_sub(1);
                if place < self.slots.len() {
                    self.slots[place] = library;
                }
            }
        }
    }

    /// An actor's callback returns, and frees the library of its slot.
    pub(crate) fn free_slot(&mut self, who: Who)
        ensures { self.new ≡ record self.old { shelf = with_slot (freed_slot self.old.shelf (slot_of self.old.shelf who)) who 0 } }
    {
        let library = self.slot(who);
        let loads = self.load(library);
        self.set_load(library, loads.saturating_sub(1));
        self.set_slot(who, 0);
    }

    /// The next object is of this library, or of none where that is 0.
    pub(crate) fn add_object(&mut self, library: u32)
        requires library { library ≤ LIBRARY_LIMIT }
        requires room { length self.old.shelf.of_object < self.old.objects }
        ensures { self.new ≡ record self.old { shelf = record self.old.shelf { of_object = self.old.shelf.of_object ++ library ∷ [] } } }
    {
        self.of_object.push_reserved(library);
    }

    /// A simple callback is of this library. Its number is above those that came before.
    pub(crate) fn add_simple(&mut self, callback: u64, library: u32)
        requires library { library ≤ LIBRARY_LIMIT }
        requires room { length self.old.shelf.of_simple < self.old.simple }
        requires above { All (λ (made : ℕ × ℕ). made.0 < callback) self.old.shelf.of_simple }
        ensures { self.new ≡ record self.old { shelf = record self.old.shelf { of_simple = self.old.shelf.of_simple ++ (callback, library) ∷ [] } } }
    {
        self.of_simple.push_reserved((callback, library));
    }

    /// The library of an object, or 0.
    pub(crate) fn of_object(&self, object: ObjectId) -> u32
        ensures value { result ≡ library_of_object self.now.shelf object.0 }
        ensures most { result ≤ LIBRARY_LIMIT }
    {
        if object.0 == 0 {
            return 0;
        }
        self.of_object
            .get(object.0 as usize - 1)
            .copied()
            .unwrap_or(0)
    }

    // The library of a simple callback, or 0.
    fn of_simple(&self, callback: u64) -> u32
        ensures value { result ≡ library_of_simple self.now.shelf callback }
        ensures most { result ≤ LIBRARY_LIMIT }
    {
        match self
            .of_simple
            .binary_search_by_key(&callback, |made| made.0)
        {
            Ok(place) => self.of_simple[place].1,
            Err(_) => 0,
        }
    }

    /// The library of a callback of an object, or where that is 0 of a simple callback.
    pub(crate) fn library_at(&self, callback: u64, object: ObjectId) -> u32
        ensures value { result ≡ library_at self.now.shelf callback object.0 }
        ensures most { result ≤ LIBRARY_LIMIT }
    {
        if object.0 == 0 {
            self.of_simple(callback)
        } else {
            self.of_object(object)
        }
    }
}
