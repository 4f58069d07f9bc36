//! Codes of values: texts of bytes by which they are told apart.
//!
//! A code is such that of two values whose texts begin one list the values are one, and so is the rest
//! (`IsCode`). So codes can be put one behind another, and the whole is a code again: `number_code`,
//! `flag_code`, `pair_code`, `option_code`, `list_code`, and `mapped_code` for what is made of others, as a
//! record of its fields. `whole` says that of two values with one text the values are one.
//!
//! `put` appends the code of a number, and `put_flag` that of a `bool`. A number takes one byte below 254, and
//! else nine. The code is one of all numbers, also of those that no `u64` is, so that what is said of codes
//! needs no limits.
//!
//! ```text
//! let mut text = Vec::new(alloc);
//! put(&mut text, 7)?;          // 7
//! put(&mut text, 1_000)?;      // 7, 254, 232, 3, 0, 0, 0, 0, 0, 0
//! put_flag(&mut text, true)?;  // 7, 254, 232, 3, 0, 0, 0, 0, 0, 0, 1
//! ```

#![tactic(auto)]

ghost use Rattle.std.specs.Prelude.{◌≡◌, ◌++◌, OnOk};
ghost use Rattle.short_codes.specs.Codes.{flag, number};

use std::alloc::AllocError;

/// Appends the code of a number. After an `Err` some of it may be there.
pub fn put(text: &mut Vec<u8>, n: u64) -> Result<(), AllocError>
    ensures { OnOk result (text.new.items ≡ text.old.items ++ number n) }
{
    if n < 254 {
        text.push(n as u8)?;
    } else {
        text.push(254)?;
        text.extend_from_slice(&n.to_le_bytes())?;
    }
    Ok(())
}

/// Appends the code of a `bool`.
pub fn put_flag(text: &mut Vec<u8>, holds: bool) -> Result<(), AllocError>
    ensures { OnOk result (text.new.items ≡ text.old.items ++ flag holds) }
{
    text.push(u8::from(holds))?;
    Ok(())
}
