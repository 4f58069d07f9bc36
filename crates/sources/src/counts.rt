//! What would come of a trigger, or of the actions of a return.

ghost use Rattle.std.specs.Prelude.{◌≡◌, ◌^◌, ◌<◌, length, min};
ghost use Rattle.tp_base.specs.Actions.{may_perform as may_perform_by, may_raise as may_raise_by};
ghost use Rattle.tp_model.specs.Actions.{perform, performed};
ghost use Rattle.tp_model.specs.Kernels.{is_one_that};
ghost use Rattle.tp_model.specs.Sources.{firing, jobless, signal};
ghost use Rattle.sources.specs.Counts.{fires_at_once as fires_at_once_by, released_by, word_of, words_of};

use crate::LiveSources;
use tp_base::answers::{ActionKind, SlotWord};
use tp_base::ids::{KernelId, Who};
use tp_base::plans::{ActionWords, KernelChange, Trigger};
use tp_base::rows::{Action, KernelState, Slots};

// How many waits a kernel object of this state may release once it changes so.
fn most_released(how: KernelChange, state: KernelState) -> u32
    ensures { (waits : _) → waits < 2 ^ 32 → min result waits ≡ released_by how state waits }
{
    match state {
        KernelState::Event { manual, signalled } => {
            let signalled = match how {
                KernelChange::Set => true,
                KernelChange::Reset => false,
                KernelChange::Take(_) => manual && signalled,
                _ => signalled,
            };
            if !signalled {
                0
            } else if manual {
                u32::MAX
            } else {
                1
            }
        }
        KernelState::Semaphore { count, .. } => match how {
            KernelChange::Raise(more) => count.saturating_add(more),
            KernelChange::Take(_) => count.saturating_sub(1),
            _ => count,
        },
        KernelState::Mutex { .. } | KernelState::Section { .. } => 0,
    }
}

impl LiveSources {
    // Whether the count of the semaphore of this number stays within its maximum with so much more.
    fn may_raise(&self, more: u32, kernel: KernelId) -> bool
        ensures { result ≡ is_one_that (may_raise_by more) self.now.sources.kernels kernel.0 }
    {
        match self.kernel(kernel) {
            Some(KernelState::Semaphore { count, maximum }) => {
                count as u64 + more as u64 <= maximum as u64
            }
            _ => false,
        }
    }

    // Whether the actor may perform an action of this kind now.
    fn may_perform(&self, who: Who, kind: ActionKind, action: Action) -> bool
        ensures { result ≡ is_one_that (may_perform_by who kind action.count) self.now.sources.kernels action.kernel.0 }
    {
        match kind {
            ActionKind::Section | ActionKind::Mutex => self.owns(who, action.kernel),
            ActionKind::Semaphore => self.may_raise(action.count, action.kernel),
            ActionKind::Event => self.is_event(action.kernel),
        }
    }

    // What becomes of an action of this kind, if one was asked for.
    fn word(&self, who: Who, kind: ActionKind, action: Option<Action>) -> SlotWord
        ensures { result ≡ word_of self.now.sources.kernels who kind action }
    {
        let Some(action) = action else {
            return SlotWord::Unasked;
        };
        if self.may_perform(who, kind, action) {
            return SlotWord::Performed;
        }
        match kind {
            ActionKind::Semaphore => SlotWord::OverMaximum,
            ActionKind::Section | ActionKind::Mutex | ActionKind::Event => SlotWord::NotOwner,
        }
    }

    /// What becomes of the actions that a callback asked for, if the actor returns from it now.
    pub fn words(&self, who: Who, slots: &Slots) -> ActionWords
        ensures { result ≡ words_of self.now.sources.kernels who slots.now }
    {
        ActionWords {
            section: self.word(who, ActionKind::Section, slots.section),
            mutex: self.word(who, ActionKind::Mutex, slots.mutex),
            semaphore: self.word(who, ActionKind::Semaphore, slots.semaphore),
            event: self.word(who, ActionKind::Event, slots.event),
        }
    }

    // Whether a wait that is set now takes its kernel object or times out at once.
    fn fires_at_once(&self, kernel: Option<KernelId>, timeout: Option<i64>) -> bool
        ensures { result ≡ fires_at_once_by self.now.sources kernel timeout }
    {
        match kernel {
            None => false,
            Some(kernel) => self.is_signalled(kernel) || self.expires_at_once(timeout),
        }
    }

    // How many waits a kernel object would release that changes so. Walks those.
    fn count_released(&self, kernel: KernelId, how: KernelChange) -> u32
        ensures { result ≡ length (signal how kernel.0 (jobless self.now.sources)).jobs }
    {
        match self.kernel(kernel) {
            None => 0,
            Some(state) => self.kernels.count_armed(kernel, most_released(how, state)),
        }
    }

    /// How many callbacks a trigger would make. Walks the waits that it would release.
    pub fn count_fired(&self, trigger: &Trigger) -> u32
        ensures { result ≡ length (firing trigger.now self.now.sources).jobs }
    {
        match trigger {
            Trigger::SetTimer { due, .. } => { if self.expires_at_once(*due) { 1 } else { 0 } }
            Trigger::Advance { now } => self.count_due(*now),
            Trigger::SetWait {
                kernel,
                timeout,
                ..
            } => {
                if self.fires_at_once(*kernel, *timeout) {
                    1
                } else {
                    0
                }
            }
            Trigger::SetEvent { kernel } => self.count_released(*kernel, KernelChange::Set),
            Trigger::ReleaseSemaphore { kernel, count } => {
                self.count_released(*kernel, KernelChange::Raise(*count))
            }
        }
    }

    // How many callbacks an action on return makes of what there is now.
    fn count_performed(&self, kind: ActionKind, word: SlotWord, action: Option<Action>) -> u32
        ensures { result ≡ length (perform kind word action (jobless self.now.sources)).jobs }
    {
        let (SlotWord::Performed, Some(action)) = (word, action) else {
            return 0;
        };
        match kind {
            ActionKind::Section | ActionKind::Mutex => 0,
            ActionKind::Semaphore => {
                self.count_released(action.kernel, KernelChange::Raise(action.count))
            }
            ActionKind::Event => self.count_released(action.kernel, KernelChange::Set),
        }
    }

    /// How many callbacks a return would make, whose actions on return have these words. Walks the
    /// waits that it would release.
    pub fn count_returned(&self, who: Who, slots: &Slots, words: &ActionWords) -> u32
        requires { words.now ≡ words_of self.now.sources.kernels who slots.now }
        ensures { result ≡ length (performed words.now slots.now (jobless self.now.sources)).jobs }
    {
        // None is armed twice.
        let _ = &self.kernels;
        self.count_performed(ActionKind::Semaphore, words.semaphore, slots.semaphore)
            + self.count_performed(ActionKind::Event, words.event, slots.event)
    }
}
