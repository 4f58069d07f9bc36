//! Passes: by what devices and the taker step, and what they know.

use crate::views::Part;
use crossbeam_queue::Pass;
use port_facts::Posted;

pub(crate) type Raw = Pass<Posted, Part>;

/// A device's pass at a port. It takes no bytes but its number, and may go to another thread.
#[derive(Drop)]
pub struct PostPass {
    pub(crate) number: u32,
    pub(crate) raw: Raw,
}

/// The pass of the one who takes at a port. It takes no bytes.
#[derive(Drop)]
pub struct TakePass {
    pub(crate) raw: Raw,
}

/// The taker's pass when no device posts any more. It takes no bytes.
#[derive(Drop)]
pub struct LastPass {
    pub(crate) raw: Raw,
}
