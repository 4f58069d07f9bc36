//! What is counted of each library.

ghost use Rattle.std.specs.Prelude.{◌≡◌, ◌+◌, ◌-◌, ◌^◌, ◌<◌, ◌≤◌, ℕ, [], ◌∷◌, ◌++◌, length, replicate, slice_index_or, slice_set, IfOk};
ghost use Rattle.tp_library.specs.Tallied.{group_of, none_held, opening_counts, row_of, with_left, with_object, with_running, without_left, without_object, without_running, Tallied, IsWithoutGroup};
ghost use Rattle.tp_library.specs.Tallies.{at};

use crate::LIBRARY_LIMIT;
use crate::tally::Tally;
use std::alloc::{AllocError, Global};
use std::marker::Model;
use tp_base::ids::{GroupId, ObjectId};

/// Of each library how many objects and callbacks there are.
#[derive(Drop)]
pub(crate) struct Counts {
    // Its objects that aren't released; of its callbacks those that may still run; and those that run.
    owned: Tally,
    left: Tally,
    running: Tally,
    // By group, 0 for none: the objects in it that aren't released.
    own: Vec<Tally>,
    // By object, from 1 on: its group.
    groups: Vec<u32>,
}

impl Model for Counts {
    ghost use Rattle.tp_library.specs.Tallied.{Tallied};

    ghost Value = { Tallied };

    ghost use Rattle.std.specs.Prelude.{vec_capacity};

    ghost view = { λ a. record { owned = a.owned; left = a.left; running = a.running; own = a.own.items; groups = a.groups.items; room = vec_capacity a.groups } };
}

impl Counts {
    /// Of no library anything.
    pub(crate) fn open(alloc: Global, groups: u32, objects: u32) -> Result<Counts, AllocError>
        requires { groups ≤ 65535 }
        ensures { IfOk result (λ made. made ≡ opening_counts groups objects) }
    {
        let mut own = Vec::with_capacity(alloc, groups as usize + 1)?;
        for _ in 0..groups + 1 {
            own.push_reserved(Tally::zero(alloc)?);
        }
        Ok(Counts {
            owned: Tally::zero(alloc)?,
            left: Tally::zero(alloc)?,
            running: Tally::zero(alloc)?,
            own,
            groups: Vec::with_capacity(alloc, objects as usize)?,
        })
    }

    /// How many objects of a library aren't released.
    pub(crate) fn owned(&self, library: u32) -> u64
        requires { library ≤ LIBRARY_LIMIT }
        ensures { result ≡ at self.now.owned library }
    {
        self.owned.at(library)
    }

    /// How many callbacks of a library may still run.
    pub(crate) fn left(&self, library: u32) -> u64
        requires { library ≤ LIBRARY_LIMIT }
        ensures { result ≡ at self.now.left library }
    {
        self.left.at(library)
    }

    /// How many callbacks of a library run.
    pub(crate) fn running(&self, library: u32) -> u64
        requires { library ≤ LIBRARY_LIMIT }
        ensures { result ≡ at self.now.running library }
    {
        self.running.at(library)
    }

    /// An object was made, in a group and of a library.
    pub(crate) fn add_object(&mut self, group: GroupId, library: u32)
        requires library { library ≤ LIBRARY_LIMIT }
        requires group { group.0 < length self.old.own }
        requires room { length self.old.groups < self.old.room }
        requires owned { at self.old.owned library < 2 ^ 64 - 1 }
        requires own { at (row_of self.old.own group.0) library < 2 ^ 64 - 1 }
        ensures { self.new ≡ with_object self.old group.0 library }
    {
        self.owned.raise(library);
        self.own[group.0 as usize].raise(library);
        self.groups.push_reserved(group.0);
    }

    /// An object of a library is released.
    pub(crate) fn release(&mut self, object: ObjectId, library: u32)
        requires library { library ≤ LIBRARY_LIMIT }
        requires least { 1 ≤ object.0 }
        requires most { object.0 ≤ length self.old.groups }
        requires group { group_of self.old.groups object.0 < length self.old.own }
        ensures { self.new ≡ without_object self.old object.0 library }
    {
        let group = self.groups[object.0 as usize - 1];
        self.owned.lower(library, 1);
        self.own[group as usize].lower(library, 1);
    }

    /// The objects of a group are released.
    pub(crate) fn release_group(&mut self, group: GroupId)
        requires { group.0 < length self.old.own }
        ensures { IsWithoutGroup self.old group.0 self.new }
    {
        let own = &mut self.own[group.0 as usize];
        self.owned.take_off(own);
        own.clear();
    }

    /// A callback of a library may run.
    pub(crate) fn add_left(&mut self, library: u32)
        requires library { library ≤ LIBRARY_LIMIT }
        requires fits { at self.old.left library < 2 ^ 64 - 1 }
        ensures { self.new ≡ with_left self.old library }
    {
        self.left.raise(library);
    }

    /// So many callbacks of a library won't run.
    pub(crate) fn drop_left(&mut self, library: u32, count: u64)
        requires { library ≤ LIBRARY_LIMIT }
        ensures { self.new ≡ without_left self.old library count }
    {
        self.left.lower(library, count);
    }

    /// No callback may run, until they are counted anew.
    pub(crate) fn clear_left(&mut self)
        ensures { self.new ≡ record self.old { left = none_held } }
    {
        self.left.clear();
    }

    /// A callback of a library is taken.
    pub(crate) fn take(&mut self, library: u32)
        requires library { library ≤ LIBRARY_LIMIT }
        requires fits { at self.old.running library < 2 ^ 64 - 1 }
        ensures { self.new ≡ with_running (without_left self.old library 1) library }
    {
        self.left.lower(library, 1);
        self.running.raise(library);
    }

    /// A callback of a library returns.
    pub(crate) fn drop_running(&mut self, library: u32)
        requires { library ≤ LIBRARY_LIMIT }
        ensures { self.new ≡ without_running self.old library }
    {
        self.running.lower(library, 1);
    }
}
