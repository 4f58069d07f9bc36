//! The places of a heap: which key stands at each, and at which each key stands.

ghost use Rattle.std.specs.Prelude.{◌≡◌, ℕ, ◌+◌, ◌-◌, ◌^◌, ◌<◌, ◌≤◌, ◌++◌, [], ◌∷◌, IfNone, IfOk, IfSome, length, max, slice_index};
ghost use Rattle.timer_heap.specs.Held.{exchanged, times};

use crate::filled::fill_to;
use std::alloc::{AllocError, Global};
use std::marker::Model;
use steps::Steps;

/// Keys in places, seen as the list of those that are held, by place. No key is held twice. The keys are
/// those below the greatest that was reached.
#[derive(Drop)]
pub struct Places {
    room: u32,
    held: Vec<u32>,
    // For each key its place, if it is held.
    places: Vec<Option<u32>>,
}

impl Model for Places {
    ghost use Rattle.timer_heap.specs.Held.{Held};

    ghost Value = { Held };

    ghost use Rattle.std.specs.Prelude.{length};
    ghost use Rattle.std.specs.Vec.{vec_capacity};
    ghost use Rattle.timer_heap.specs.Held.{IsPlaced};

    ghost view = { λ a. record { room = a.room; keys = length a.places.items; held = a.held.items } };

    ghost invariant = { λ a. IsPlaced a.room (vec_capacity a.held) (vec_capacity a.places) a.held.items a.places.items };
}

impl Places {
    /// No keys, with the memory for all below `room`.
    ///
    /// An `AllocError` comes where that memory can't be had.
    pub fn open(alloc: Global, room: u32) -> Result<Places, AllocError>
        ensures { IfOk result (λ places. places ≡ record { room = room; keys = 0; held = [] }) }
    {
        let held = Vec::with_capacity(alloc, room as usize)?;
        let places = Vec::with_capacity(alloc, room as usize)?;
        Ok(Places { room, held, places })
    }

    /// Makes all up to this one keys, none of which is held that wasn't. There is room for them.
    pub fn reach(&mut self, key: u32)
        requires { key < self.old.room }
        ensures { self.new ≡ record self.old { keys = max self.old.keys (key + 1) } }
    {
        fill_to(&mut self.places, key, None);
    }

    /// How many keys are held. There are never more than keys.
    pub fn len(&self) -> u32
        ensures value { result ≡ length self.now.held }
        ensures limited { length self.now.held ≤ self.now.keys }
        ensures fits { self.now.keys < 2 ^ 32 }
        ensures distinct { (key : ℕ) → times key self.now.held ≤ 1 }
        ensures keyed { (key : ℕ) → 0 < times key self.now.held → key < self.now.keys }
    {
        self.held.len() as u32
    }

    /// The key at a place.
    pub fn key_at(&self, place: u32) -> u32
        requires { place < length self.now.held }
        ensures value { result ≡ slice_index self.now.held place }
        ensures keyed { result < self.now.keys }
    {
        self.held[place as usize]
    }

    /// The place of a key, or None where it isn't held.
    pub fn place_of(&self, key: u32) -> Option<u32>
        ensures within { IfSome result (λ place. place < length self.now.held) }
        ensures there { IfSome result (λ place. slice_index self.now.held place ≡ key) }
        ensures keyed { IfSome result (λ _. key < self.now.keys) }
        ensures once { IfSome result (λ _. times key self.now.held ≡ 1) }
        ensures none { IfNone result (times key self.now.held ≡ 0) }
    {
        self.places.get(key as usize).copied().flatten()
    }

    /// Puts a key that isn't held behind the last, and answers its place.
    pub fn push(&mut self, key: u32) -> u32
        requires key { key < self.old.keys }
        requires free { times key self.old.held ≡ 0 }
        ensures place { result ≡ length self.old.held }
        ensures held { self.new ≡ record self.old { held = self.old.held ++ key ∷ [] } }
    {
        let place = self.held.len() as u32;
        self.held.push_reserved(key);
        self.places[key as usize] = Some(place);
        place
    }

    /// Puts the keys at two places each in the other's place. That is one step, and no other call
    /// moves a key.
    pub fn exchange(&mut self, a: u32, b: u32, steps: &mut Steps)
        requires first { a < length self.old.held }
        requires second { b < length self.old.held }
        ensures held { self.new ≡ record self.old { held = exchanged a b self.old.held } }
        ensures step { steps.new ≡ steps.old + 1 }
    {
        let first = self.held[a as usize];
        let second = self.held[b as usize];
        self.held[a as usize] = second;
        self.held[b as usize] = first;
        self.places[second as usize] = Some(a);
        self.places[first as usize] = Some(b);
        steps.tick();
    }

    /// Takes out the key at the last place.
    pub fn drop_last(&mut self)
        requires { 0 < length self.old.held }
        ensures held { self.old.held ≡ self.new.held ++ slice_index self.old.held (length self.old.held - 1) ∷ [] }
        ensures keys { self.new.keys ≡ self.old.keys }
        ensures room { self.new.room ≡ self.old.room }
    {
        if let Some(key) = self.held.pop() {
            self.places[key as usize] = None;
        }
    }
}
