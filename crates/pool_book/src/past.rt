//! The entries of a history, for contracts alone. They take no bytes: what was written down tells them, one
//! entry after another, and of that no value is kept.

ghost use Rattle.std.specs.Prelude.{◌≡◌, [], ◌∷◌, ◌++◌};

use ghost_copy::GhostCopy;
use std::marker::Model;
use std::mem;
use tp_base::answers::Answer;
use tp_base::calls::Call;
use tp_base::ids::Who;

// What was written down: nothing yet, or one entry more after what was before.
#[derive(Drop)]
pub(crate) enum Written {
    Opened,
    Entered {
        before: GhostCopy<Written>,
        who: GhostCopy<Who>,
        call: GhostCopy<Call>,
        answer: GhostCopy<Answer>,
    },
}

// The entries, in the order in which they were written.
#[derive(Drop)]
pub(crate) struct Past {
    written: GhostCopy<Written>,
}

impl Model for Past {
    ghost use Rattle.std.specs.Prelude.{List};
    ghost use Rattle.tp_base.specs.declared.answers.Entry.{Entry};

    ghost Value = { List Entry };

    ghost use Rattle.pool_book.specs.Past.{entries_in};

    ghost view = { λ a. entries_in a.written.value };
}

impl Past {
    #[inline(always)]
    pub(crate) fn none() -> Past
        ensures { result ≡ [] }
    {
        Past {
            written: GhostCopy::of(&Written::Opened),
        }
    }

    // One more entry, which has these parts.
    #[inline(always)]
    pub(crate) fn push(&mut self, who: &Who, call: &Call, answer: &Answer)
        ensures { self.new ≡ self.old ++ record { who = who.now; call = call.now; answer = answer.now } ∷ [] }
    {
        let before = mem::replace(&mut self.written, GhostCopy::of(&Written::Opened));
        self.written = GhostCopy::of(&Written::Entered {
            before,
            who: GhostCopy::of(who),
            call: GhostCopy::of(call),
            answer: GhostCopy::of(answer),
        });
    }
}
