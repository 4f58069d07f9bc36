//! The codes of the rows of a world, by which worlds are told apart.
//!
//! A `Coded` value has a code, a text of bytes (`specs/Rows`), and `put` appends it. Codes can be put one behind
//! another (`short_codes`), so a world is written row by row: `put_all` appends how many rows there are, and
//! each. `specs/Worlds` has the code of a whole world, and `tells_worlds_apart` says that of worlds with one
//! code the worlds are one.
//!
//! ```text
//! let mut text = Vec::new(alloc);
//! world.limits.put(&mut text)?;
//! put_all(&world.pools, &mut text)?;      // of two pools 2, and the code of each
//! ```

#![tactic(auto)]

ghost use Rattle.std.specs.Prelude.{◌≡◌, ◌++◌, List, ℕ, OnOk};
ghost use Rattle.row_codes.specs.Worlds.{world_code};
ghost use Rattle.short_codes.specs.Codes.{listed, IsCode};

mod parts;
mod rows;

use short_codes::put;
use std::alloc::AllocError;

/// A value that is told apart from all others of its type by a text of bytes.
pub trait Coded {
    ghost code: { Self → List ℕ };

    /// Appends the code. After an `Err` some of it may be there.
    fn put(&self, text: &mut Vec<u8>) -> Result<(), AllocError>
        ensures { OnOk result (text.new.items ≡ text.old.items ++ code self.now) };

    ghost is_code: { IsCode code };
}

/// Appends how many items there are, and the code of each.
pub fn put_all<T: Coded>(items: &[T], text: &mut Vec<u8>) -> Result<(), AllocError>
    ensures { OnOk result (text.new.items ≡ text.old.items ++ listed T.code items.now) }
{
    put(text, items.len() as u64)?;
    for item in items {
        item.put(text)?;
    }
    Ok(())
}

/// Of worlds with one code the worlds are one.
pub fn tells_worlds_apart()
    ensures { IsCode world_code }
{}
