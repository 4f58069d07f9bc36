//! Nodes in one array, each with a number and two links. A key and the end of a list have a node each: that of key k
//! stands at the place 2k, and that of list l's end at 2l + 1. The array is filled by turns: turn n brings the places of
//! key n and of list n's end, and each follows itself, with the number 0. Only what is filled is read and linked.

ghost use Rattle.std.specs.Prelude.{◌≡◌, ℕ, ◌+◌, ◌-◌, ◌*◌, ◌≤◌, ◌<◌, ◌^◌, IfNone, IfOk, IfSome, length, max, nat_lt, replicate, slice_set, vec_capacity};
ghost use Rattle.std.specs.List.{range_with_len};
ghost use Rattle.linked_lists.specs.Nodes.{IsPlace, IsRead, here, linked, node_at};

use std::alloc::{AllocError, Global};
use std::marker::Model;
use steps::Steps;

/// A number, and the places before and behind it.
#[derive(Clone, Copy)]
pub(crate) struct Node {
    pub number: u64,
    pub before: u32,
    pub after: u32,
}

/// Nodes, seen as the numbers of the keys, and as what follows and what stands before each key and each end.
#[derive(Drop)]
pub(crate) struct Nodes {
    keys: u32,
    lists: u32,
    nodes: Vec<Node>,
}

impl Model for Nodes {
    ghost use Rattle.linked_lists.specs.Nodes.{Arena};

    ghost Value = { Arena };

    ghost use Rattle.std.specs.Vec.{vec_capacity};
    ghost use Rattle.linked_lists.specs.Nodes.{AreFilled, arena_of};

    ghost view = { λ a. arena_of a.keys a.lists a.nodes.items };

    ghost invariant = { λ a. AreFilled a.keys a.lists (vec_capacity a.nodes) a.nodes.items };
}

// Adds nodes that follow themselves until there is one at this place.
#[inline(always)]
fn reach(nodes: &mut Vec<Node>, place: u32)
    requires { place < vec_capacity nodes.old }
    ensures many { length nodes.new.items ≡ max (length nodes.old.items) (place + 1) }
    ensures same { (k : ℕ) → node_at nodes.new.items k ≡ node_at nodes.old.items k }
    ensures capacity { vec_capacity nodes.new ≡ vec_capacity nodes.old }
{
    while nodes.len() <= place as usize {
        let alone = nodes.len() as u32;
        nodes.push_reserved(Node {
            number: 0,
            before: alone,
            after: alone,
        });
    }
}

impl Nodes {
    /// Nodes that follow themselves, with the memory for those of so many lists and keys, none of which is filled.
    ///
    /// An `AllocError` comes where that memory can't be had, or a place would not fit a u32.
    pub fn open(alloc: Global, lists: u32, keys: u32) -> Result<Nodes, AllocError>
        ensures { IfOk result (λ nodes. nodes ≡ record {
          numbers = replicate keys 0;
          after = range_with_len 0 (keys + lists);
          before = range_with_len 0 (keys + lists);
          turns = 0;
        }) }
    {
        if lists.max(keys) > 1 << 31 {
            return Err(AllocError);
        }
        let nodes = Vec::with_capacity(alloc, 2 * lists.max(keys) as usize)?;
        Ok(Nodes { keys, lists, nodes })
    }

    /// The place of a key.
    #[inline(always)]
    pub fn place_of(&self, key: u32) -> u32
        requires { key < length self.now.numbers }
        ensures place { IsPlace self.now result }
        ensures key { here self.now result ≡ key }
    {
        // It is read for what is known of it: all places fit.
        let _keys = self.keys;
        2 * key
    }

    /// The place of a list's end.
    #[inline(always)]
    pub fn end_of(&self, list: u32) -> u32
        requires { length self.now.numbers + list < length self.now.after }
        ensures place { IsPlace self.now result }
        ensures end { here self.now result ≡ length self.now.numbers + list }
    {
        let _lists = self.lists;
        2 * list + 1
    }

    /// The key at a place, or None at an end.
    #[inline(always)]
    pub fn key_at(&self, place: u32) -> Option<u32>
        requires { IsPlace self.now place }
        ensures key { IfSome result (λ key. key ≡ here self.now place) }
        ensures within { IfSome result (λ key. key < length self.now.numbers) }
        ensures end { IfNone result (length self.now.numbers ≤ here self.now place) }
    {
        if place % 2 == 0 {
            Some(place / 2)
        } else {
            None
        }
    }

    /// Whether a place is filled.
    #[inline(always)]
    pub fn is_filled(&self, place: u32) -> bool
        ensures { result ≡ nat_lt place (2 * self.now.turns) }
    {
        (place as usize) < self.nodes.len()
    }

    /// The node at a place that is filled. That is one step, and no other call reads a node.
    #[inline(always)]
    pub fn read(&self, place: u32, steps: &mut Steps) -> Node
        requires place { IsPlace self.now place }
        requires filled { place < 2 * self.now.turns }
        ensures node { IsRead self.now place result }
        ensures step { steps.new ≡ steps.old + 1 }
    {
        steps.tick();
        self.nodes[place as usize]
    }

    /// Makes the second place follow the first, where both are filled. No other call changes a link.
    #[inline(always)]
    pub fn link(&mut self, before: u32, after: u32)
        requires first { IsPlace self.old before }
        requires second { IsPlace self.old after }
        requires first_filled { before < 2 * self.old.turns }
        requires second_filled { after < 2 * self.old.turns }
        ensures { self.new ≡ linked (here self.old before) (here self.old after) self.old }
    {
        self.nodes[before as usize].after = after;
        self.nodes[after as usize].before = before;
    }

    /// Gives a key this number, where its place is filled.
    #[inline(always)]
    pub fn set_number(&mut self, key: u32, number: u64)
        requires key { key < length self.old.numbers }
        requires filled { key < self.old.turns }
        ensures { self.new ≡ record self.old { numbers = slice_set self.old.numbers key number } }
    {
        self.nodes[2 * key as usize].number = number;
    }

    /// Fills the places of this turn and of all before it.
    #[inline(always)]
    pub fn reach(&mut self, turn: u32)
        requires { turn < max (length self.old.numbers) (length self.old.after - length self.old.numbers) }
        ensures { self.new ≡ record self.old { turns = max self.old.turns (turn + 1) } }
    {
        reach(&mut self.nodes, 2 * turn + 1);
    }
}
