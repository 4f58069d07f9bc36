//! Reading of texts by a grammar, with the exact place of a fault.
//!
//! A language is a set of texts, each of which stands for a value. A reader looks at the front of a text
//! and answers how it goes along with its language (`IsRead`): `Ok` with a value and the size of its text,
//! where that is the longest front that it shares with a text of the language, or `Err` with the place up
//! to which the front goes along. Readers of parts make readers of lines, for languages whose parts can be
//! told from the separator behind them.
//!
//! - `read_number` and `read_prefixed` read numbers of a range, without leading zeros, and `read_signed`
//!   those of 64 bits with a sign;
//! - `read_bytes` reads one word, and `further` chooses among readers; where the word stands for nothing,
//!   `something` is what the other reader found;
//! - `behind` takes one byte off, and `size_before` finds a separator.
//!
//! The fault of a text is the longest front that it shares with a text of the language (`IsFault`); that of
//! many lines is the first fault of one (`IsTraceFault`), and a `TextFault` tells where it is. `proofs` has
//! the laws by which readers join.
//!
//! ```text
//! read_number(b"12 3", 0, 65_535)              // Ok((12, 2)): the value, and the size of its text
//! read_number(b"65536", 0, 65_535)             // Ok((6553, 4)): no number goes on by that 6
//! read_number(b"5", 16, 131_072)               // Err(1): it may go on, and is none yet
//! read_bytes(2, b"set-timer-ex", b"set-timer-e") // Err(11)
//! ```

#![tactic(auto)]

pub mod faults;
pub mod numbers;
pub mod words;
