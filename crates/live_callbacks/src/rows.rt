//! The rows of the callbacks that live, each under one key while it lives, seen as the list of keys and rows by
//! rising number.
//!
//! The rows stand in a `Slab`, which gives the keys 0, 1, 2 and so on and takes those that are free first. A
//! vector of entries leads from a number to its key (`places`).

ghost use Rattle.std.specs.Prelude.{◌≡◌, ◌≢◌, ◌^◌, ◌<◌, ◌≤◌, ◌==◌, ◌++◌, ◌∷◌, [], All, IfOk, IfSome, IsSome, Some, filter, find, if◌then◌else◌, length, map, nat_lt, not, option_map};
ghost use Rattle.std.specs.List.{AllByRecursion};
ghost use Rattle.std.specs.Option.{option_copied};
ghost use Rattle.linked_lists.specs.Linked.{owner_of};
ghost use Rattle.live_callbacks.specs.Held.{AreApart, rows_of};

use crate::beside::key_beside;
use crate::places::{
    Entry, entry_behind, entry_of, first_of_group_from, lent_row, make_place, most_entries,
    place_behind, place_of,
};
use linked_lists::LinkedLists;
use slab::Slab;
use std::alloc::{AllocError, Global};
use std::marker::Model;
use tp_base::ids::GroupId;
use tp_base::rows::CallbackRow;

/// The rows of the callbacks that live.
#[derive(Drop)]
pub(crate) struct Rows {
    slots: u32,
    entries: Vec<Entry>,
    rows: Slab<CallbackRow>,
}

impl Model for Rows {
    ghost use Rattle.live_callbacks.specs.Held.{KeyedRows};

    ghost Value = { KeyedRows };

    ghost use Rattle.live_callbacks.specs.Reserved.{AreReserved, held_in};

    ghost view = { λ a. record {
      slots = a.slots;
      places = a.rows.capacity;
      held = held_in a.rows a.entries.items;
    } };

    ghost invariant = { AreReserved };
}

impl Rows {
    /// No rows, with the memory for `slots` of them.
    ///
    /// An `AllocError` comes where the memory can't be had.
    pub fn open(alloc: Global, slots: u32) -> Result<Rows, AllocError>
        ensures slots { IfOk result (λ rows. rows.slots ≡ slots) }
        ensures empty { IfOk result (λ rows. rows.held ≡ []) }
    {
        let entries = Vec::with_capacity(alloc, 2 * slots as usize)?;
        let rows = Slab::with_capacity(alloc, slots as usize)?;
        if rows.capacity() > u32::MAX as usize {
            return Err(AllocError);
        }
        Ok(Rows {
            slots,
            entries,
            rows,
        })
    }

    /// How many rows there are, never more than slots. No two have one key.
    #[inline(always)]
    pub fn len(&self) -> u32
        ensures value { result ≡ length self.now.held }
        ensures limited { length self.now.held ≤ self.now.slots }
        ensures fits { self.now.slots < 2 ^ 32 }
        ensures apart { AreApart self.now.held }
        ensures within { AllByRecursion (λ h. h.key < self.now.places) self.now.held }
    {
        self.rows.len() as u32
    }

    /// Below which number the keys are.
    pub fn places(&self) -> u32
        ensures { result ≡ self.now.places }
    {
        self.rows.capacity() as u32
    }

    /// The row of this number, lent, or None where there is none.
    #[inline(always)]
    pub fn get(&self, number: u64) -> Option<&CallbackRow>
        ensures { option_copied result ≡ find (λ c. c.number == number) (rows_of self.now.held) }
    {
        lent_row(&self.rows, entry_of(&self.entries, number))
    }

    /// The first row whose number is above this one, or None where there is none.
    #[inline(always)]
    pub fn after(&self, number: u64) -> Option<CallbackRow>
        ensures { result ≡ find (λ c. nat_lt number c.number) (rows_of self.now.held) }
    {
        lent_row(&self.rows, entry_behind(&self.entries, number)).copied()
    }

    /// The key of the row of this number, or None where there is none.
    #[inline(always)]
    pub fn key_of(&self, number: u64) -> Option<u32>
        ensures { result ≡ option_map (λ h. h.key) (find (λ h. h.row.number == number) self.now.held) }
    {
        match entry_of(&self.entries, number) {
            Some(entry) => Some(entry.key),
            None => None,
        }
    }

    /// The key in a list of a row near to the one of this number, or None where none of those next to it is in
    /// that list.
    pub fn key_beside(&self, number: u64, lists: &LinkedLists, list: u32) -> Option<u32>
        requires { list < length lists.now.lists }
        ensures { IfSome result (λ key. owner_of lists.now key ≡ list) }
    {
        let at = place_of(&self.entries, number)?;
        key_beside(&self.entries, at, lists, list)
    }

    /// The row under this key.
    #[inline(always)]
    pub fn lend(&self, key: u32) -> &CallbackRow
        requires { IsSome (find (λ h. h.key == key) self.now.held) }
        ensures { Some result.now ≡ option_map (λ h. h.row) (find (λ h. h.key == key) self.now.held) }
    {
        &self.rows[key as usize]
    }

    /// The first row of a group, lent, or None where it has none. Goes along the rows.
    pub fn first_of_group(&self, group: GroupId) -> Option<&CallbackRow>
        ensures { option_copied result ≡ find (λ c. c.group.0 == group.0) (rows_of self.now.held) }
    {
        lent_row(
            &self.rows,
            first_of_group_from(&self.entries, &self.rows, 0, group),
        )
    }

    /// The first row of a group whose number is above this one, lent. Goes along the rows.
    pub fn next_of_group(&self, number: u64, group: GroupId) -> Option<&CallbackRow>
        ensures { option_copied result ≡ find (λ c. nat_lt number c.number) (filter (λ c. c.group.0 == group.0) (rows_of self.now.held)) }
    {
        let place = place_behind(&self.entries, number);
        lent_row(
            &self.rows,
            first_of_group_from(&self.entries, &self.rows, place, group),
        )
    }

    /// Appends a row, whose number is above all the others', and answers its key.
    #[inline(always)]
    pub fn push(&mut self, row: CallbackRow) -> u32
        requires room { length self.old.held < self.old.slots }
        requires last { All (λ h. h.row.number < row.number) self.old.held }
        ensures fresh { AllByRecursion (λ h. h.key ≢ result) self.old.held }
        ensures within { result < self.new.places }
        ensures after { self.new ≡ record self.old { held = self.old.held ++ record { key = result; row = row } ∷ [] } }
    {
        let most = most_entries(self.slots, self.rows.len() as u32);
        make_place(&mut self.entries, most, row.number);
        let key = self.rows.insert_reserved(row) as u32;
        self.entries.push_reserved(Entry {
            number: row.number,
            key,
            there: true,
        });
        key
    }

    /// Writes this row in the place of the one of its number, which is under this key.
    #[inline(always)]
    pub fn replace(&mut self, key: u32, row: CallbackRow)
        requires { option_map (λ h. h.key) (find (λ h. h.row.number == row.number) self.old.held) ≡ Some key }
        ensures { self.new ≡ record self.old {
          held = map (λ h. if h.row.number == row.number then record { key = h.key; row = row } else h) self.old.held;
        } }
    {
        self.rows[key as usize] = row;
    }

    /// Takes out the row of this number, and answers its key, or None where there is none, and then nothing
    /// changes.
    #[inline(always)]
    pub fn remove(&mut self, number: u64) -> Option<u32>
        ensures key { result ≡ option_map (λ h. h.key) (find (λ h. h.row.number == number) self.old.held) }
        ensures after { self.new ≡ record self.old { held = filter (λ h. not (h.row.number == number)) self.old.held } }
    {
        match place_of(&self.entries, number) {
            Some(place) => {
                let key = self.entries[place].key;
                self.entries[place].there = false;
                let _row = self.rows.remove(key as usize);
                Some(key)
            }
            None => None,
        }
    }
}
