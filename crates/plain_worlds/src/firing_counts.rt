//! How many callbacks would come of a trigger, or of the actions of a return, and whether there are slots for them.

ghost use Rattle.std.specs.Prelude.{◌≡◌, ◌<◌, ◌^◌, None, Some, filter, if◌then◌else◌, length, not};
ghost use Rattle.tp_base.specs.Armings.{is_armed as is_armed_of, is_arming_on, without_arming};
ghost use Rattle.tp_base.specs.Timers.{expired as expired_of};
ghost use Rattle.tp_model.specs.Actions.{perform as perform_of, returning, words_of};
ghost use Rattle.tp_model.specs.Calls.Timers.{count_expiring as count_expiring_of};
ghost use Rattle.tp_model.specs.Calls.WaitObjects.{lacks_slots_after};
ghost use Rattle.tp_model.specs.Conditions.{lacks_slots_for};
ghost use Rattle.tp_model.specs.Sources.{count_fired as count_fired_of, firing, jobless, signal as signal_of, sources_of};
ghost use Rattle.plain_worlds.specs.Counting.{fires_at_once as fires_at_once_of, released_by as released_by_of};
ghost use Rattle.plain_worlds.specs.Once.{AreArmedOnce};

use crate::firing::is_armed;
use crate::kernels::is_signalled;
use crate::rows::{Rows, numbered};
use crate::settings::{expires_at_once, is_due};
use crate::sources::Sources;
use tp_base::answers::{ActionKind, SlotWord};
use tp_base::ids::{KernelId, ObjectId, Who};
use tp_base::plans::{ActionWords, KernelChange, Trigger};
use tp_base::rows::{Action, Arming, KernelState, Slots, TimerSetting};

// How many settings are due at a moment.
fn count_due(settings: &[TimerSetting], now: u64) -> u32
    requires { length settings.now < 2 ^ 32 }
    ensures { result ≡ length (expired_of now settings.now) }
{
    let count = settings
        .iter()
        .filter(|setting| is_due(now, setting))
        .count();
    count as u32
}

// How many settings are due at a moment that are not of armed waits.
fn count_expiring(settings: &[TimerSetting], armings: &[Arming], now: u64) -> u32
    requires { length settings.now < 2 ^ 32 }
    ensures { result ≡ length (filter (λ s. not (is_armed_of s.object.0 armings.now)) (expired_of now settings.now)) }
{
    let count = settings
        .iter()
        .filter(|setting| is_due(now, setting))
        .filter(|setting| !is_armed(armings, setting.object))
        .count();
    count as u32
}

// How many waits are armed on a kernel object.
fn count_on(armings: &[Arming], kernel: KernelId) -> u32
    requires { length armings.now < 2 ^ 32 }
    ensures { result ≡ length (filter (is_arming_on kernel.0) armings.now) }
{
    let count = armings
        .iter()
        .filter(|arming| arming.kernel.0 == kernel.0)
        .count();
    count as u32
}

// How many waits are armed, one object left out.
fn count_without(armings: &[Arming], object: ObjectId) -> usize
    ensures { result ≡ length (without_arming object.0 armings.now) }
{
    armings
        .iter()
        .filter(|arming| arming.object.0 != object.0)
        .count()
}

// How many of so many waits a kernel object of this state releases once it changes so.
fn released_by(how: KernelChange, state: KernelState, waits: u32) -> u32
    ensures { result ≡ released_by_of how state waits }
{
    match state {
        KernelState::Event { manual, signalled } => {
            let signalled = match how {
                KernelChange::Set => true,
                KernelChange::Reset => false,
                KernelChange::Take(_) => manual && signalled,
                _ => signalled,
            };
            if !signalled {
                0
            } else if manual {
                waits
            } else {
                waits.min(1)
            }
        }
        KernelState::Semaphore { count, .. } => {
            let count = match how {
                KernelChange::Raise(more) => count.saturating_add(more),
                KernelChange::Take(_) => count.saturating_sub(1),
                _ => count,
            };
            waits.min(count)
        }
        KernelState::Mutex { .. } | KernelState::Section { .. } => 0,
    }
}

impl Sources {
    // Whether a wait that is set now takes its kernel object or times out at once.
    fn fires_at_once(&self, kernel: Option<KernelId>, timeout: Option<i64>) -> bool
        ensures { result ≡ fires_at_once_of self.now kernel timeout }
    {
        match kernel {
            Some(kernel) => {
                is_signalled(&self.kernels, kernel) || expires_at_once(self.clock, timeout)
            }
            None => false,
        }
    }

    // How many waits a kernel object would release that changes so.
    fn count_released(&self, kernel: KernelId, how: KernelChange) -> u32
        requires once { AreArmedOnce self.now.armings }
        requires armings { length self.now.armings < 2 ^ 32 }
        ensures { result ≡ length (signal_of how kernel.0 (jobless self.now)).jobs }
    {
        match numbered(&self.kernels, kernel.0) {
            Some(row) => released_by(how, row.state, count_on(&self.armings, kernel)),
            None => 0,
        }
    }

    // How many callbacks a trigger would make.
    fn count_fired(&self, trigger: &Trigger) -> u32
        requires once { AreArmedOnce self.now.armings }
        requires armings { length self.now.armings < 2 ^ 32 }
        requires settings { length self.now.settings < 2 ^ 32 }
        ensures { result ≡ length (firing trigger.now self.now).jobs }
    {
        match *trigger {
            Trigger::SetTimer { due, .. } => u32::from(expires_at_once(self.clock, due)),
            Trigger::Advance { now } => count_due(&self.settings, now),
            Trigger::SetWait {
                kernel,
                timeout,
                ..
            } => u32::from(self.fires_at_once(kernel, timeout)),
            Trigger::SetEvent { kernel } => self.count_released(kernel, KernelChange::Set),
            Trigger::ReleaseSemaphore { kernel, count } => {
                self.count_released(kernel, KernelChange::Raise(count))
            }
        }
    }

    // How many callbacks an action on return would make by itself.
    fn count_performed(&self, kind: ActionKind, word: SlotWord, action: Option<Action>) -> u32
        requires once { AreArmedOnce self.now.armings }
        requires armings { length self.now.armings < 2 ^ 32 }
        ensures { result ≡ length (perform_of kind word action (jobless self.now)).jobs }
    {
        let (SlotWord::Performed, Some(action)) = (word, action) else {
            return 0;
        };
        match kind {
            ActionKind::Section | ActionKind::Mutex => 0,
            ActionKind::Semaphore => {
                self.count_released(action.kernel, KernelChange::Raise(action.count))
            }
            ActionKind::Event => self.count_released(action.kernel, KernelChange::Set),
        }
    }
}

impl Rows {
    pub(crate) fn lacks_slots_to_set(
        &self,
        object: ObjectId,
        kernel: Option<KernelId>,
        _timeout: Option<i64>,
    ) -> bool
        ensures { result ≡ lacks_slots_after self.now (Trigger.SetWait object kernel _timeout) }
    {
        let armed = count_without(&self.sources.armings, object) as u64;
        let taken = (self.count_live() as u64).saturating_add(armed);
        let needed = u64::from(kernel.is_some());
        u64::from(self.limits.slots) < taken.saturating_add(needed)
    }

    pub(crate) fn count_due(&self, now: u64) -> Option<u32>
        requires { length self.now.settings < 2 ^ 32 }
        ensures { result ≡ if lacks_slots_for self.now (count_expiring_of self.now now) then None else Some (count_fired_of self.now (Trigger.Advance now)) }
    {
        let expiring = count_expiring(&self.sources.settings, &self.sources.armings, now);
        if self.lacks_slots(expiring) {
            None
        } else {
            Some(count_due(&self.sources.settings, now))
        }
    }

    pub(crate) fn count_fired(&self, trigger: &Trigger) -> u32
        requires once { AreArmedOnce self.now.armings }
        requires armings { length self.now.armings < 2 ^ 32 }
        requires settings { length self.now.settings < 2 ^ 32 }
        ensures { result ≡ count_fired_of self.now trigger.now }
    {
        self.sources.count_fired(trigger)
    }

    /// `Reads::count_returned`. The actions release as many waits together as each would by itself, since those that
    /// are performed are of different kernel objects.
    pub(crate) fn count_returned(&self, who: Who, slots: &Slots, words: &ActionWords) -> u32
        requires once { AreArmedOnce self.now.armings }
        requires armings { length self.now.armings < 2 ^ 32 }
        requires words { words.now ≡ words_of self.now who slots.now }
        ensures { result ≡ length (returning self.now words.now slots.now).jobs }
    {
        let semaphore = self
            .sources
            .count_performed(ActionKind::Semaphore, words.semaphore, slots.semaphore);
        let event = self
            .sources
            .count_performed(ActionKind::Event, words.event, slots.event);
        semaphore + event
    }
}
