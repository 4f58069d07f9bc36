//! What the waits that actors began cover of the callbacks, by the place of the actor.
//!
//! A wait without cancel covers what is outstanding for its target as it begins, and so does each close of a group.
//! What leaves that never comes back, and what comes has a greater number: so such a wait still holds what is
//! outstanding up to the last number that was given before, and no list of it is kept. A wait for an object with
//! cancel covers what runs, and not what has an operation; so the numbers of those are listed.

ghost use Rattle.std.specs.Prelude.{◌≡◌, ◌<◌, ◌≤◌, ◌++◌, ◌∷◌, [], None, Some, IfOk, length, map, replicate, slice_set, vec_capacity};
ghost use Rattle.std.specs.List.{AllByRecursion};
ghost use Rattle.begun_waits.specs.Covers.{bound_of, covers, listed_of, with_cover};

use std::alloc::{AllocError, Global};
use std::marker::Model;

// Empty lists, with the memory for `room` numbers in each.
fn open_lists(alloc: Global, lists: u32, room: u32) -> Result<Vec<Vec<u64>>, AllocError>
    ensures empty { IfOk result (λ all. map (λ v. v.items) all.items ≡ replicate lists []) }
    ensures reserved { IfOk result (λ all. AllByRecursion (λ v. room ≤ vec_capacity v) all.items) }
{
    let mut all = Vec::with_capacity(alloc, lists as usize)?;
    for _ in 0..lists {
        all.push_reserved(Vec::with_capacity(alloc, room as usize)?);
    }
    Ok(all)
}

/// By the place of each actor, what its wait covers.
#[derive(Drop)]
pub struct Covers {
    // How many numbers a list has room for.
    room: u32,
    // Up to which number what is outstanding is covered, or None where the numbers are listed.
    bounds: Vec<Option<u64>>,
    listed: Vec<Vec<u64>>,
}

impl Model for Covers {
    ghost use Rattle.std.specs.Prelude.{map};
    ghost use Rattle.begun_waits.specs.Covers.{Covering};

    ghost Value = { Covering };

    ghost use Rattle.begun_waits.specs.Covers.{HaveRoom};

    ghost view = { λ a. record { room = a.room; bounds = a.bounds.items; listed = map (λ v. v.items) a.listed.items } };

    ghost invariant = { λ a. HaveRoom a.room a.bounds.items a.listed.items };
}

impl Covers {
    /// Nothing is covered by any of so many actors' waits. A wait may list up to `room` numbers. An `AllocError`
    /// comes where the memory for that can't be had.
    pub fn open(alloc: Global, actors: u32, room: u32) -> Result<Covers, AllocError>
        ensures { IfOk result (λ made. made ≡ record { room = room; bounds = replicate actors None; listed = replicate actors [] }) }
    {
        let bounds = vec![in alloc; None; actors as usize]?;
        let listed = open_lists(alloc, actors, room)?;
        Ok(Covers {
            room,
            bounds,
            listed,
        })
    }

    /// The number up to which the wait of a place covers what is outstanding, or None where its numbers are listed.
    #[inline(always)]
    pub fn bound(&self, place: u32) -> Option<u64>
        requires { place < length self.now.bounds }
        ensures { result ≡ bound_of self.now place }
    {
        self.bounds[place as usize]
    }

    /// The numbers that are listed for the wait of a place.
    #[inline(always)]
    pub fn listed(&self, place: u32) -> &[u64]
        requires { place < length self.now.bounds }
        ensures { result.now ≡ listed_of self.now place }
    {
        &self.listed[place as usize]
    }

    /// Whether the wait of a place covers the callback of this number, which is outstanding for its target.
    pub fn covers(&self, place: u32, number: u64) -> bool
        requires { place < length self.now.bounds }
        ensures { result ≡ covers (bound_of self.now place) (listed_of self.now place) number }
    {
        match self.bound(place) {
            Some(last) => number <= last,
            None => self.listed(place).contains(&number),
        }
    }

    /// The wait of a place covers what is outstanding up to this number: the last one that was given as it begins.
    #[inline(always)]
    pub fn cover_up_to(&mut self, place: u32, last: u64)
        requires { place < length self.old.bounds }
        ensures { self.new ≡ with_cover self.old place (Some last) (listed_of self.old place) }
    {
        self.bounds[place as usize] = Some(last);
    }

    /// The numbers that the wait of a place covers are listed, and so far there is none.
    pub fn begin_list(&mut self, place: u32)
        requires { place < length self.old.bounds }
        ensures { self.new ≡ with_cover self.old place None [] }
    {
        self.bounds[place as usize] = None;
        self.listed[place as usize].clear();
    }

    /// The wait of a place covers one callback more, which has this number.
    pub fn list(&mut self, place: u32, number: u64)
        requires place { place < length self.old.bounds }
        requires room { length (listed_of self.old place) < self.old.room }
        ensures { self.new ≡ record self.old { listed = slice_set self.old.listed place (listed_of self.old place ++ number ∷ []) } }
    {
        self.listed[place as usize].push_reserved(number);
    }
}
