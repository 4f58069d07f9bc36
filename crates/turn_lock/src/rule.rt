//! The rule of the lock, and the kinds of step that keep it. No value of these types is made.

ghost use Rattle.turn_lock.specs.Rule.{Ruled};
ghost use Rattle.turn_lock.specs.Steps.{appended, fronted, gave_back, grabbed};
ghost use Rattle.turn_lock.specs.Views.{copied, dealt, opening_view, spent_view, taking_in, undealt};

use crate::views::{Setup, View};
use atomic_table::{Join, Play, Split, TableRule};
use recorded::Recorded;

pub(crate) struct Law;

impl<B: Recorded> TableRule<B, View, Setup> for Law {
    ghost holds = { Ruled B.recording };

    ghost first = { opening_view };
}

// The holder's word goes from 0 to the seat's number, or another's was found there.
pub(crate) struct Grab;

impl<B: Recorded> Play<B, View> for Grab {
    ghost then = { grabbed B.recording };
}

// The length grows by one.
pub(crate) struct Append;

impl<B: Recorded> Play<B, View> for Append {
    ghost then = { appended B.recording };
}

// The holder's word becomes 0.
pub(crate) struct LetGo;

impl<B> Play<B, View> for LetGo {
    ghost then = { gave_back };
}

// The length is read.
pub(crate) struct Front;

impl<B> Play<B, View> for Front {
    ghost then = { fronted };
}

// A view of no number that knows as much.
pub(crate) struct Copy;

impl Split<View> for Copy {
    ghost left = { λ v. v };

    ghost right = { copied };
}

// A view of the first number that is left.
pub(crate) struct Deal;

impl Split<View> for Deal {
    ghost left = { undealt };

    ghost right = { dealt };
}

// Another view is taken in.
pub(crate) struct TakeIn;

impl Join<View> for TakeIn {
    ghost both = { taking_in };

    ghost spent = { spent_view };
}
