//! The rule of the queue, and the kinds of step that keep it. No value of these types is made.

ghost use Rattle.std.specs.Prelude.{◌≡◌, ℕ, ◌<◌, ◌≤◌, List, [], length};
ghost use Rattle.tp_port.specs.Lists.{quota_of};
ghost use Rattle.tp_port.specs.Parts.{begun, dealt, gathered, undealt, opening_part, quotas_in, room_in, spent_part, with_put, with_taken};
ghost use Rattle.tp_port.specs.Rule.{AreBegun, AreKnown, Delivers};

use crate::views::Part;
use crossbeam_queue::protocol::{Join, Lesson, Outcome, Protocol, Split};
use port_facts::Posted;
use std::marker::{Brand, PhantomData};

pub(crate) struct Delivery;

impl Protocol<Posted, Part> for Delivery {
    ghost holds = { Delivers };

    ghost first = { opening_part };
}

// The quotas of a port's devices, which are known where it is opened.
pub(crate) trait Quoted {
    ghost quotas: { List ℕ };
}

impl Quoted for Brand {
    ghost quotas = { [] };
}

// The quotas are settled.
pub(crate) struct Begins<Q: Quoted> {
    quotas: PhantomData<Q>,
}

impl<Q: Quoted> Split<Part> for Begins<Q> {
    ghost left = { begun Q.quotas };

    ghost right = { λ _. spent_part };
}

// A pass of the next device.
pub(crate) struct Deals;

impl Split<Part> for Deals {
    ghost left = { undealt };

    ghost right = { dealt };
}

// A device posts: there is room in the queue.
pub(crate) struct Puts;

impl Outcome<Posted, Part> for Puts {
    ghost then = { λ v x w. w ≡ with_put v x };
}

impl Lesson<Posted, Part> for Puts {
    ghost fact = { λ v items. length items ≤ room_in v };
}

// The taker takes: what it takes is of a device that there is.
pub(crate) struct Takes;

impl Outcome<Posted, Part> for Takes {
    ghost then = { λ v x w. (w ≡ with_taken v x) × (0 < quota_of (quotas_in v) x.device) };
}

impl Lesson<Posted, Part> for Takes {
    ghost fact = { λ _ _. Unit {0} };
}

// The taker takes in a device's pass.
pub(crate) struct Gathers;

impl Join<Part> for Gathers {
    ghost both = { gathered };

    ghost spent = { spent_part };
}

// The taker takes, when no device posts any more: by device, what was taken is a beginning of what was
// posted, and all of it where the queue is empty.
pub(crate) struct TakesLast;

impl Outcome<Posted, Part> for TakesLast {
    ghost then = { λ v x w. (w ≡ with_taken v x) × (0 < quota_of (quotas_in v) x.device) × AreBegun w };
}

impl Lesson<Posted, Part> for TakesLast {
    ghost fact = { AreKnown };
}
