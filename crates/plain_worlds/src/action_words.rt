//! What would become of the actions on return that a callback asked for.

ghost use Rattle.std.specs.Prelude.{◌≡◌};
ghost use Rattle.tp_base.specs.Actions.{may_perform as may_perform_by, may_raise as may_raise_by};
ghost use Rattle.tp_model.specs.Actions.{word_of, words_of};
ghost use Rattle.tp_model.specs.Kernels.{is_kernel_that};

use crate::rows::{Rows, numbered};
use kernel_events::states;
use tp_base::answers::{ActionKind, SlotWord};
use tp_base::ids::Who;
use tp_base::plans::ActionWords;
use tp_base::rows::{Action, KernelState, Slots};

// Whether it is a semaphore whose count stays within its maximum with so much more.
fn may_raise(more: u32, state: KernelState) -> bool
    ensures { result ≡ may_raise_by more state }
{
    match state {
        KernelState::Semaphore { count, maximum } => {
            u64::from(count) + u64::from(more) <= u64::from(maximum)
        }
        _ => false,
    }
}

// Whether the actor may perform an action of this kind on it.
fn may_perform(who: Who, kind: ActionKind, more: u32, state: KernelState) -> bool
    ensures { result ≡ may_perform_by who kind more state }
{
    match kind {
        ActionKind::Section | ActionKind::Mutex => states::owns(who, state),
        ActionKind::Semaphore => may_raise(more, state),
        ActionKind::Event => states::is_event(state),
    }
}

impl Rows {
    // Whether the actor may perform an action of this kind now.
    fn may_perform(&self, who: Who, kind: ActionKind, action: Action) -> bool
        ensures { result ≡ is_kernel_that (may_perform_by who kind action.count) self.now action.kernel.0 }
    {
        match numbered(&self.sources.kernels, action.kernel.0) {
            Some(row) => may_perform(who, kind, action.count, row.state),
            None => false,
        }
    }

    // What becomes of an action of this kind, if one was asked for.
    fn word(&self, who: Who, kind: ActionKind, action: Option<Action>) -> SlotWord
        ensures { result ≡ word_of self.now who kind action }
    {
        let Some(action) = action else {
            return SlotWord::Unasked;
        };
        if self.may_perform(who, kind, action) {
            return SlotWord::Performed;
        }
        match kind {
            ActionKind::Semaphore => SlotWord::OverMaximum,
            ActionKind::Section | ActionKind::Mutex | ActionKind::Event => SlotWord::NotOwner,
        }
    }

    pub(crate) fn words(&self, who: Who, slots: &Slots) -> ActionWords
        ensures { result ≡ words_of self.now who slots.now }
    {
        ActionWords {
            section: self.word(who, ActionKind::Section, slots.section),
            mutex: self.word(who, ActionKind::Mutex, slots.mutex),
            semaphore: self.word(who, ActionKind::Semaphore, slots.semaphore),
            event: self.word(who, ActionKind::Event, slots.event),
        }
    }
}
