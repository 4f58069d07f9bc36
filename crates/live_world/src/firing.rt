//! What triggers do, and the actions on return: a timer or a wait is set, time passes, or a kernel object is
//! signalled, and the callbacks of that are made one after another. Each step changes the sources and the
//! callbacks alone; all of them are one change of the world (`fire`, `return_callback`).

ghost use Rattle.std.specs.Prelude.{◌≡◌, ◌+◌, ◌^◌, ◌≤◌, [], ◌∷◌, length};
ghost use Rattle.tp_base.specs.Actions.{change_asked as change_asked_by};
ghost use Rattle.tp_base.specs.Kernels.{state_after};
ghost use Rattle.tp_model.specs.Actions.{act as act_of, perform as perform_of, performed};
ghost use Rattle.tp_model.specs.Sources.{firing, job, jobless, new_callback as new_callback_of, object_row, signal as signal_of};
ghost use Rattle.tp_model.specs.Support.Allowed.{IsAllowed};
ghost use Rattle.sources.specs.Firing.{rest_of};
ghost use Rattle.live_world.specs.Live.{moved};
ghost use Rattle.live_world.specs.Making.{CanMake, IsFired, with_jobs};
ghost use Rattle.live_world.specs.Performing.{MayAlter, MayPerform, MayPerformAll, MayTrigger};

use crate::LiveWorld;
use live_callbacks::LiveCallbacks;
use object_rows::ObjectRows;
use sources::{Cause, LiveSources};
use tp_base::answers::{ActionKind, SlotWord, TakeResult};
use tp_base::ids::{KernelId, ObjectId};
use tp_base::plans::{ActionWords, Busy, Change, KernelChange, Trigger};
use tp_base::rows::{Action, Slots};
use world_reads::{new_callback, slots_of};

// Makes a callback of an object, which waits for a worker. So many were made before, and as many are after as it
// answers; so do the functions below.
#[inline(always)]
fn make(
    callbacks: &mut LiveCallbacks,
    objects: &ObjectRows,
    made: u64,
    object: ObjectId,
    told: TakeResult,
) -> u64
    requires can { CanMake callbacks.old objects.now.objects (made + 1) (job object told ∷ []) }
    requires young { made + 1 ≤ 2 ^ 63 }
    ensures number { result ≡ made + 1 }
    ensures after { callbacks.new ≡ with_jobs callbacks.old objects.now.objects (made + 1) (job object told ∷ []) }
{
    let Some(row) = objects.object(object) else {
        unreachable!()
    };
    callbacks.push(new_callback(made + 1, object, &row, told));
    made + 1
}

// Makes the callbacks of all that fires by a cause, one after another.
fn fire_all(
    sources: &mut LiveSources,
    callbacks: &mut LiveCallbacks,
    objects: &ObjectRows,
    made: u64,
    cause: Cause,
) -> u64
    requires can { CanMake callbacks.old objects.now.objects (made + 1) (rest_of cause sources.old.sources).jobs }
    requires young { made + length (rest_of cause sources.old.sources).jobs ≤ 2 ^ 63 }
    ensures { IsFired (rest_of cause sources.old.sources) objects.now.objects made result sources.old sources.new callbacks.old callbacks.new }
{
    let mut made = made;
    while let Some((object, told)) = sources.fire_next(cause) {
        made = make(callbacks, objects, made, object, told);
    }
    made
}

// Changes a kernel object, and releases the waits that are armed on it as long as it is signalled.
fn signal(
    sources: &mut LiveSources,
    callbacks: &mut LiveCallbacks,
    objects: &ObjectRows,
    made: u64,
    kernel: KernelId,
    how: KernelChange,
) -> u64
    requires may { MayAlter sources.old.sources kernel how }
    requires can { CanMake callbacks.old objects.now.objects (made + 1) (signal_of how kernel.0 (jobless sources.old.sources)).jobs }
    requires young { made + length (signal_of how kernel.0 (jobless sources.old.sources)).jobs ≤ 2 ^ 63 }
    ensures { IsFired (signal_of how kernel.0 (jobless sources.old.sources)) objects.now.objects made result sources.old sources.new callbacks.old callbacks.new }
{
    sources.change(kernel, how);
    fire_all(sources, callbacks, objects, made, Cause::Kernel(kernel))
}

// Does what a trigger does, which makes so many callbacks.
fn fire(
    sources: &mut LiveSources,
    callbacks: &mut LiveCallbacks,
    objects: &ObjectRows,
    made: u64,
    trigger: Trigger,
    count: u32,
) -> u64
    requires may { MayTrigger sources.old trigger }
    requires counted { count ≡ length (firing trigger sources.old.sources).jobs }
    requires can { CanMake callbacks.old objects.now.objects (made + 1) (firing trigger sources.old.sources).jobs }
    requires young { made + length (firing trigger sources.old.sources).jobs ≤ 2 ^ 63 }
    ensures { IsFired (firing trigger sources.old.sources) objects.now.objects made result sources.old sources.new callbacks.old callbacks.new }
{
    match trigger {
        Trigger::SetTimer {
            object,
            due,
            period,
            window,
        } => {
            if sources.set_timer(object, due, period, window) {
                make(callbacks, objects, made, object, TakeResult::Plain)
            } else {
                made
            }
        }
        Trigger::Advance { now } => {
            sources.set_clock(now);
            if count == 0 {
                made
            } else {
                fire_all(sources, callbacks, objects, made, Cause::Clock)
            }
        }
        Trigger::SetWait {
            object,
            kernel,
            timeout,
        } => match sources.set_wait(object, kernel, timeout) {
            Some(told) => make(callbacks, objects, made, object, told),
            None => made,
        },
        Trigger::SetEvent { kernel } => {
            signal(sources, callbacks, objects, made, kernel, KernelChange::Set)
        }
        Trigger::ReleaseSemaphore { kernel, count } => signal(
            sources,
            callbacks,
            objects,
            made,
            kernel,
            KernelChange::Raise(count),
        ),
    }
}

// What an action on return does to its kernel object.
fn change_asked(kind: ActionKind, count: u32) -> KernelChange
    ensures { result ≡ change_asked_by kind count }
{
    match kind {
        ActionKind::Section | ActionKind::Mutex => KernelChange::Leave,
        ActionKind::Semaphore => KernelChange::Raise(count),
        ActionKind::Event => KernelChange::Set,
    }
}

// Does what an action on return asks for.
fn act(
    sources: &mut LiveSources,
    callbacks: &mut LiveCallbacks,
    objects: &ObjectRows,
    made: u64,
    kind: ActionKind,
    action: Action,
) -> u64
    requires may { MayAlter sources.old.sources action.kernel (change_asked_by kind action.count) }
    requires can { CanMake callbacks.old objects.now.objects (made + 1) (act_of kind action (jobless sources.old.sources)).jobs }
    requires young { made + length (act_of kind action (jobless sources.old.sources)).jobs ≤ 2 ^ 63 }
    ensures { IsFired (act_of kind action (jobless sources.old.sources)) objects.now.objects made result sources.old sources.new callbacks.old callbacks.new }
{
    let how = change_asked(kind, action.count);
    match kind {
        ActionKind::Section | ActionKind::Mutex => {
            sources.change(action.kernel, how);
            made
        }
        ActionKind::Semaphore | ActionKind::Event => {
            signal(sources, callbacks, objects, made, action.kernel, how)
        }
    }
}

// Performs an action on return, if its word says so.
fn perform(
    sources: &mut LiveSources,
    callbacks: &mut LiveCallbacks,
    objects: &ObjectRows,
    made: u64,
    kind: ActionKind,
    word: SlotWord,
    action: Option<Action>,
) -> u64
    requires may { MayPerform sources.old.sources kind word action }
    requires can { CanMake callbacks.old objects.now.objects (made + 1) (perform_of kind word action (jobless sources.old.sources)).jobs }
    requires young { made + length (perform_of kind word action (jobless sources.old.sources)).jobs ≤ 2 ^ 63 }
    ensures { IsFired (perform_of kind word action (jobless sources.old.sources)) objects.now.objects made result sources.old sources.new callbacks.old callbacks.new }
{
    match (word, action) {
        (SlotWord::Performed, Some(action)) => {
            act(sources, callbacks, objects, made, kind, action)
        }
        _ => made,
    }
}

// Performs all actions on return that were asked for, as their words say.
fn perform_all(
    sources: &mut LiveSources,
    callbacks: &mut LiveCallbacks,
    objects: &ObjectRows,
    made: u64,
    words: ActionWords,
    slots: Slots,
) -> u64
    requires may { MayPerformAll sources.old.sources words slots }
    requires can { CanMake callbacks.old objects.now.objects (made + 1) (performed words slots (jobless sources.old.sources)).jobs }
    requires young { made + length (performed words slots (jobless sources.old.sources)).jobs ≤ 2 ^ 63 }
    ensures { IsFired (performed words slots (jobless sources.old.sources)) objects.now.objects made result sources.old sources.new callbacks.old callbacks.new }
{
    let made = perform(
        sources,
        callbacks,
        objects,
        made,
        ActionKind::Section,
        words.section,
        slots.section,
    );
    let made = perform(
        sources,
        callbacks,
        objects,
        made,
        ActionKind::Mutex,
        words.mutex,
        slots.mutex,
    );
    let made = perform(
        sources,
        callbacks,
        objects,
        made,
        ActionKind::Semaphore,
        words.semaphore,
        slots.semaphore,
    );
    perform(
        sources,
        callbacks,
        objects,
        made,
        ActionKind::Event,
        words.event,
        slots.event,
    )
}

impl LiveWorld {
    // Does what a trigger does, and makes its callbacks: so many, from the next number on.
    pub(crate) fn fire(&mut self, trigger: Trigger, _first: u64, count: u32)
        requires allowed { IsAllowed (self.old.made + 1) self.old.world (Change.Fire trigger _first count) }
        requires young { self.old.made + 65536 ≤ 2 ^ 63 }
        ensures { self.new ≡ moved self.old (Change.Fire trigger _first count) }
    {
        self.sources.is_reachable();
        self.made = fire(
            &mut self.sources,
            &mut self.callbacks,
            &self.objects,
            self.made,
            trigger,
            count,
        );
    }

    // A worker's callback returns: the actions that it asked for are performed as their words say, and
    // the waits that they release make callbacks: so many, from the next number on.
    pub(crate) fn return_callback(&mut self, by: Busy, words: ActionWords, _first: u64, _count: u32)
        requires allowed { IsAllowed (self.old.made + 1) self.old.world (Change.Return by words _first _count) }
        requires young { self.old.made + 65536 ≤ 2 ^ 63 }
        ensures { self.new ≡ moved self.old (Change.Return by words _first _count) }
    {
        self.is_reachable();
        self.end_callback(by);
        self.made = perform_all(
            &mut self.sources,
            &mut self.callbacks,
            &self.objects,
            self.made,
            words,
            slots_of(by.callback.status),
        );
    }
}
