//! The objects and the cleanup groups of a thread pool, seen as two lists of rows, with the limit of each.
//!
//! Both are numbered from 1, as they are made. `create_group` and `close_group` make and close a group,
//! and `create` and `release` an object; a row stays where it is closed or released. An object that isn't
//! released is a member of the group that it was made with: `first_member` and `next_member` go along the
//! members of a group by rising number, and `count_notices` tells how many notices a close would give.
//! The other calls answer what the conditions of the model ask of a row.
//!
//! `open` takes all the memory. An object has a place in the list of its group, so that none of the calls
//! but `has_object_of` and `count_notices` goes along anything.
//!
//! ```text
//! let mut rows = ObjectRows::open(alloc, 1, 2)?;  // at most one group and two objects
//! rows.create_group();                            // group 1
//! rows.create(row);                               // object 1, whose environment names group 1
//! rows.create(row);                               // object 2, of the same group
//! rows.release(ObjectId(1));
//! rows.first_member(GroupId(1))                   // Some(2)
//! rows.is_released(ObjectId(1))                   // true
//! ```

#![tactic(auto)]

ghost use Rattle.std.specs.Prelude.{◌≡◌, ◌+◌, ◌^◌, ◌<◌, ◌≤◌, ◌==◌, ◌&&◌, ◌++◌, ◌∷◌, [], IfOk, false, is_some, length, not, true};
ghost use Rattle.std.specs.List.{list_any};
ghost use Rattle.std.specs.Option.{option_map_or};
ghost use Rattle.tp_model.specs.Counts.{numbered};
ghost use Rattle.tp_model.specs.Conditions.{is_same_kind as is_same_kind_of};
ghost use Rattle.object_rows.specs.Objects.{is_timed_kind as is_timed_kind_of, released_in};

use linked_lists::LinkedLists;
use members::{list_member, unlist_member};
use std::alloc::{AllocError, Global};
use std::marker::Model;
use tp_base::calls::Kind;
use tp_base::ids::{ObjectId, PoolId};
use tp_base::rows::{GroupRow, ObjectRow};

mod groups;
mod members;

/// The groups and the objects that were made.
#[derive(Drop)]
pub struct ObjectRows {
    group_limit: u32,
    object_limit: u32,
    groups: Vec<GroupRow>,
    objects: Vec<ObjectRow>,
    // The list of a group's number has the numbers of its members.
    members: LinkedLists,
}

impl Model for ObjectRows {
    ghost use Rattle.object_rows.specs.Objects.{ObjectTable};

    ghost Value = { ObjectTable };

    ghost use Rattle.object_rows.specs.Kept.{IsKept};

    ghost view = { λ a. record { group_limit = a.group_limit; object_limit = a.object_limit; groups = a.groups.items; objects = a.objects.items } };

    ghost invariant = { IsKept };
}

/// Whether two kinds are the same.
pub fn is_same_kind(first: Kind, second: Kind) -> bool
    ensures { result ≡ is_same_kind_of first second }
{
    matches!(
        (first, second),
        (Kind::Work, Kind::Work)
            | (Kind::Timer, Kind::Timer)
            | (Kind::Wait, Kind::Wait)
            | (Kind::Io, Kind::Io)
    )
}

/// Whether objects of this kind may be set: timers, and wait objects with their timeouts.
pub fn is_timed_kind(kind: Kind) -> bool
    ensures { result ≡ is_timed_kind_of kind }
{
    matches!(kind, Kind::Timer | Kind::Wait)
}

impl ObjectRows {
    /// Opens the rows of no group and no object, with the memory for `groups` groups and `objects` objects.
    ///
    /// An `AllocError` comes where that memory can't be had.
    pub fn open(alloc: Global, groups: u32, objects: u32) -> Result<ObjectRows, AllocError>
        requires { groups + 1 + objects < 2 ^ 32 }
        ensures { IfOk result (λ rows. rows ≡ record { group_limit = groups; object_limit = objects; groups = []; objects = [] }) }
    {
        let members = LinkedLists::open(alloc, groups + 1, objects + 1)?;
        let group_rows = Vec::with_capacity(alloc, groups as usize)?;
        let object_rows = Vec::with_capacity(alloc, objects as usize)?;
        Ok(ObjectRows {
            group_limit: groups,
            object_limit: objects,
            groups: group_rows,
            objects: object_rows,
            members,
        })
    }

    /// What is true of all rows. It does nothing: who calls it knows this.
    pub fn is_reachable(&self)
        ensures groups { length self.now.groups ≤ self.now.group_limit }
        ensures objects { length self.now.objects ≤ self.now.object_limit }
        ensures fits { self.now.group_limit + 1 + self.now.object_limit < 2 ^ 32 }
    {
        let _ = self.objects.len();
    }

    /// Makes an object with this row. It gets the next number, and there is room for it.
    pub fn create(&mut self, row: ObjectRow)
        requires room { length self.old.objects < self.old.object_limit }
        requires unreleased { row.released ≡ false }
        ensures { self.new ≡ record self.old { objects = self.old.objects ++ row ∷ [] } }
    {
        self.objects.push_reserved(row);
        let number = self.objects.len() as u32;
        list_member(&mut self.members, self.group_limit, row.env.group, number);
    }

    /// Releases an object that was made. It is no member of its group any more.
    pub fn release(&mut self, object: ObjectId)
        requires made { is_some (numbered self.old.objects object.0) ≡ true }
        ensures { self.new ≡ record self.old { objects = released_in self.old.objects object.0 (numbered self.old.objects object.0) } }
    {
        let row = &mut self.objects[object.0 as usize - 1];
        row.released = true;
        unlist_member(&mut self.members, self.group_limit, object.0);
    }

    /// The row of an object, if one of this number was made.
    pub fn object(&self, object: ObjectId) -> Option<ObjectRow>
        ensures { result ≡ numbered self.now.objects object.0 }
    {
        if object.0 == 0 {
            return None;
        }
        self.objects.get(object.0 as usize - 1).copied()
    }

    /// Whether an object of this number was made.
    pub fn is_object(&self, object: ObjectId) -> bool
        ensures { result ≡ is_some (numbered self.now.objects object.0) }
    {
        self.object(object).is_some()
    }

    /// Whether an object of this number was made, and is of this kind.
    pub fn is_object_of(&self, kind: Kind, object: ObjectId) -> bool
        ensures { result ≡ option_map_or (λ o. is_same_kind_of o.kind kind) (numbered self.now.objects object.0) false }
    {
        match self.object(object) {
            None => false,
            Some(row) => is_same_kind(row.kind, kind),
        }
    }

    /// Whether the object was made and released.
    pub fn is_released(&self, object: ObjectId) -> bool
        ensures { result ≡ option_map_or (λ o. o.released) (numbered self.now.objects object.0) false }
    {
        match self.object(object) {
            None => false,
            Some(row) => row.released,
        }
    }

    /// How many objects were made, which is also the number of the last one.
    pub fn objects(&self) -> u32
        ensures { result ≡ length self.now.objects }
    {
        self.objects.len() as u32
    }

    /// Whether an object that isn't released is bound to the pool. Walks the objects.
    pub fn has_object_of(&self, pool: PoolId) -> bool
        ensures { result ≡ list_any (λ o. not o.released && (o.env.pool.0 == pool.0)) self.now.objects }
    {
        self.objects
            .iter()
            .any(|row| !row.released && row.env.pool.0 == pool.0)
    }
}
