//! The list of begun waits, for contracts alone. It takes no bytes: what became of waits tells it, one thing
//! after another, and of that no value is kept.

ghost use Rattle.std.specs.Prelude.{◌≡◌, [], ◌∷◌, ◌++◌};
ghost use Rattle.tp_model.specs.Changes.{give_notice, given_up_after, new_wait};
ghost use Rattle.begun_waits.specs.Begun.{wait_among, with_notices, without_waits};

use ghost_copy::GhostCopy;
use std::marker::Model;
use std::mem;
use tp_base::ids::{ObjectId, Who};
use tp_base::plans::WaitEnd;
use tp_base::rows::WaitTarget;
use tp_model::KeepsCallbacks;

// What became of waits: nothing yet, or one thing more after what was before.
#[derive(Drop)]
pub(crate) enum Past<K: KeepsCallbacks> {
    Opened,
    // An actor began a wait, as these were the callbacks.
    Begun {
        before: GhostCopy<Past<K>>,
        who: Who,
        target: WaitTarget,
        cancel: bool,
        cleanup: u64,
        callbacks: GhostCopy<K>,
    },
    // Its wait got a notice to give.
    Noticed {
        before: GhostCopy<Past<K>>,
        who: Who,
        object: ObjectId,
    },
    // It gave the first of them.
    Given {
        before: GhostCopy<Past<K>>,
        who: Who,
    },
    // Its wait ended.
    Ended {
        before: GhostCopy<Past<K>>,
        who: Who,
        how: WaitEnd,
    },
}

// The begun waits, and how many notices stalled waits never gave.
#[derive(Drop)]
pub(crate) struct WaitList<K: KeepsCallbacks> {
    past: GhostCopy<Past<K>>,
}

impl<K: KeepsCallbacks> Model for WaitList<K> {
    ghost use Rattle.begun_waits.specs.Listed.{Listed};

    ghost Value = { Listed };

    ghost use Rattle.begun_waits.specs.Past.{given_up_in, waits_in};

    ghost view = { λ a. record { waits = waits_in K.rows a.past.value; given_up = given_up_in K.rows a.past.value } };
}

impl<K: KeepsCallbacks> WaitList<K> {
    #[inline(always)]
    pub(crate) fn none() -> WaitList<K>
        ensures { result ≡ record { waits = []; given_up = 0 } }
    {
        WaitList {
            past: GhostCopy::of(&Past::Opened),
        }
    }

    // What was before, which another past takes the place of.
    #[inline(always)]
    pub(crate) fn begin(
        &mut self,
        who: Who,
        target: WaitTarget,
        cancel: bool,
        cleanup: u64,
        callbacks: &K,
    )
        ensures { self.new ≡ record self.old { waits = self.old.waits ++ record (new_wait who target cancel (K.rows callbacks.now)) { cleanup = cleanup } ∷ [] } }
    {
        let before = mem::replace(&mut self.past, GhostCopy::of(&Past::Opened));
        self.past = GhostCopy::of(&Past::Begun {
            before,
            who,
            target,
            cancel,
            cleanup,
            callbacks: GhostCopy::of(callbacks),
        });
    }

    #[inline(always)]
    pub(crate) fn note(&mut self, who: Who, object: ObjectId)
        ensures { self.new ≡ record self.old { waits = with_notices who (object ∷ []) self.old.waits } }
    {
        let before = mem::replace(&mut self.past, GhostCopy::of(&Past::Opened));
        self.past = GhostCopy::of(&Past::Noticed {
            before,
            who,
            object,
        });
    }

    #[inline(always)]
    pub(crate) fn give_notice(&mut self, who: Who)
        ensures { self.new ≡ record self.old { waits = give_notice who self.old.waits } }
    {
        let before = mem::replace(&mut self.past, GhostCopy::of(&Past::Opened));
        self.past = GhostCopy::of(&Past::Given { before, who });
    }

    #[inline(always)]
    pub(crate) fn end(&mut self, who: Who, how: WaitEnd)
        ensures { self.new ≡ record { waits = without_waits who self.old.waits; given_up = given_up_after self.old.given_up how (wait_among self.old.waits who) } }
    {
        let before = mem::replace(&mut self.past, GhostCopy::of(&Past::Opened));
        self.past = GhostCopy::of(&Past::Ended { before, who, how });
    }
}
