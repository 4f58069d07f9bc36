//! Names, and what each stands for.

ghost use Rattle.std.specs.Prelude.{◌≡◌, ◌<◌, ◌^◌, [], OnErr, OnOk, bytes_eq, length};
ghost use Rattle.std.specs.Map.{lookup};
ghost use Rattle.indexmap.specs.IndexMap.{insert_entry};

use crate::line::Meaning;
use indexmap::IndexMap;
use std::alloc::{AllocError, Global};
use std::marker::Model;

/// What a name stands for, and the section where it is a name.
#[derive(Clone, Copy)]
pub struct Named {
    pub meaning: Meaning,
    /// The number of the routine or client, or 0 for the whole script.
    pub section: u32,
}

/// Names, in the order in which each was first declared. They lie in the text that was read.
#[derive(Drop)]
pub struct Table<'a> {
    known: IndexMap<&'a [u8], Named>,
}

impl<'a> Model for Table<'a> {
    ghost use Rattle.script_lines.specs.Names.{Names, names_in};

    ghost Value = { Names };

    ghost view = { λ table. names_in table.known.entries };
}

impl<'a> Table<'a> {
    /// No names. This takes no memory.
    pub fn new(alloc: Global) -> Table<'a>
        ensures { result ≡ [] }
    {
        Table {
            known: IndexMap::new(alloc),
        }
    }

    /// How many names there are.
    pub fn len(&self) -> usize
        ensures value { result ≡ length self.now }
        ensures small { result < 2 ^ 63 }
    {
        self.known.len()
    }

    /// What a word stands for, if it is a name here.
    pub fn find(&self, word: &[u8]) -> Option<Named>
        ensures { result ≡ lookup (bytes_eq word.now) self.now }
    {
        self.known.get(&word).copied()
    }

    /// Adds a name. One that is there keeps its place, and stands for this from now on.
    ///
    /// An `AllocError` comes where memory is refused. Nothing is added then.
    pub fn add(&mut self, name: &'a [u8], named: Named) -> Result<(), AllocError>
        ensures ok { OnOk result (self.new ≡ insert_entry bytes_eq self.old name.now named) }
        ensures err { OnErr result (self.new ≡ self.old) }
    {
        self.known.insert(name, named)?;
        Ok(())
    }
}
