//! A number for each library.

ghost use Rattle.std.specs.Prelude.{◌≡◌, ◌+◌, ◌-◌, ◌^◌, ◌<◌, ◌≤◌, ℕ, length, replicate, slice_set, IfOk};
ghost use Rattle.tp_library.specs.Tallies.{at, lowered, raised};

use crate::LIBRARY_LIMIT;
use std::alloc::{AllocError, Global};
use std::marker::Model;

/// A number for each library, and one for none.
#[derive(Drop)]
pub(crate) struct Tally {
    numbers: Vec<u64>,
}

impl Model for Tally {
    ghost use Rattle.std.specs.Prelude.{List, ℕ, ◌≡◌, ◌+◌, length};
    ghost use Rattle.tp_library.specs.declared.TheConstants.{LIBRARY_LIMIT};

    ghost Value = { List ℕ };

    ghost view = { λ a. a.numbers.items };

    ghost invariant = { λ a. length a.numbers.items ≡ LIBRARY_LIMIT + 1 };
}

impl Tally {
    /// 0 for each.
    pub(crate) fn zero(alloc: Global) -> Result<Tally, AllocError>
        ensures { IfOk result (λ tally. tally ≡ replicate (LIBRARY_LIMIT + 1) 0) }
    {
        let numbers = vec![in alloc; 0_u64; LIBRARY_LIMIT as usize + 1]?;
        Ok(Tally { numbers })
    }

    /// That of a library.
    pub(crate) fn at(&self, library: u32) -> u64
        requires { library ≤ LIBRARY_LIMIT }
        ensures { result ≡ at self.now library }
    {
        self.numbers[library as usize]
    }

    pub(crate) fn set(&mut self, library: u32, number: u64)
        requires { library ≤ LIBRARY_LIMIT }
        ensures { self.new ≡ slice_set self.old library number }
    {
        self.numbers[library as usize] = number;
    }

    /// One more.
    pub(crate) fn raise(&mut self, library: u32)
        requires library { library ≤ LIBRARY_LIMIT }
        requires fits { at self.old library < 2 ^ 64 - 1 }
        ensures { self.new ≡ raised self.old library }
    {
        let number = self.at(library);
        self.set(library, number + 1);
    }

    /// So many less, and not below 0.
    pub(crate) fn lower(&mut self, library: u32, count: u64)
        requires { library ≤ LIBRARY_LIMIT }
        ensures { self.new ≡ lowered self.old library count }
    {
        let number = self.at(library);
        self.set(library, number.saturating_sub(count));
    }

    /// Less what the other has of each, and not below 0.
    pub(crate) fn take_off(&mut self, other: &Tally)
        ensures less { (library : ℕ) → library ≤ LIBRARY_LIMIT → at self.new library ≡ at self.old library - at other.now library }
        ensures many { length self.new ≡ LIBRARY_LIMIT + 1 }
    {
        let less = other.numbers.as_slice();
        for library in 0..self.numbers.len() {
            self.numbers[library] = self.numbers[library].saturating_sub(less[library]);
        }
    }

    /// 0 for each again.
    pub(crate) fn clear(&mut self)
        ensures { self.new ≡ replicate (LIBRARY_LIMIT + 1) 0 }
    {
        self.numbers.fill(0);
    }
}
