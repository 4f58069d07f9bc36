//! The waits that actors have begun: how far each has come, and how they begin and end.

ghost use Rattle.std.specs.Prelude.{◌≡◌, ℕ, ◌+◌, ◌^◌, ◌<◌, ◌≤◌, ◌&&◌, [], IfSome, None, Some, true, false, filter, find, is_none, length, option_map, slice_get};
ghost use Rattle.std.specs.List.{range_with_len};
ghost use Rattle.std.specs.Option.{option_copied};
ghost use Rattle.tp_base.specs.declared.plans.WaitEnd.TheVariants.{Free};
ghost use Rattle.tp_base.specs.declared.rows.WaitTarget.TheVariants.{Object};
ghost use Rattle.tp_model.specs.Changes.{begin_wait};
ghost use Rattle.tp_model.specs.Waits.{covered_of, is_cancelled_by, is_outstanding_for, wait_of};
ghost use Rattle.tp_model.specs.Calls.Waits.{is_starved, holds_starved};
ghost use Rattle.tp_model.specs.Conditions.{is_in_wait};
ghost use Rattle.tp_model.specs.Counts.{callback_of};
ghost use Rattle.tp_model.specs.Laws.Entries.{is_among};
ghost use Rattle.tp_model.specs.Support.Allowed.{IsAllowed, MayBegin};
ghost use Rattle.tp_model.specs.Support.Ranged.{AreTakenAtMost};
ghost use Rattle.tp_model.specs.Support.Sound.{IsRising};
ghost use Rattle.begun_waits.specs.Begun.{place_of};
ghost use Rattle.tp_model.specs.Support.Remembered.{lives};
ghost use Rattle.sources.specs.Rows.{with_sources};
ghost use Rattle.live_world.specs.Live.{moved, settled, with_world, without_pending};
ghost use Rattle.live_world.specs.Taking.{IsFreeFor, rows_left};
ghost use Rattle.begun_waits.specs.Covers.{with_cover};
ghost use Rattle.live_world.specs.Parts.{is_held_among};

use crate::LiveWorld;
use crate::callbacks::{is_pending, is_running};
use begun_waits::covers::Covers;
use live_callbacks::LiveCallbacks;
use sources::LiveSources;
use tp_base::ids::{KernelId, ObjectId, Who};
use tp_base::plans::{Awaited, Change, WaitEnd};
use tp_base::rows::{CallbackRow, Status, WaitTarget};
use world_reads::Progress;

// Whether a callback is outstanding for what a wait is for.
fn is_outstanding(target: WaitTarget, callback: &CallbackRow) -> bool
    ensures { result ≡ is_outstanding_for target callback.now }
{
    let tied = match callback.status {
        Status::Expected | Status::Issued | Status::Pending => true,
        Status::Running { associated, .. } => associated,
        Status::Returned | Status::Cancelled => false,
    };
    match target {
        WaitTarget::Object(object) => callback.object.0 == object.0 && tied,
        WaitTarget::Group(group) => callback.group.0 == group.0 && (tied || is_running(callback)),
        WaitTarget::Kernel(_) => false,
    }
}

// Whether the callback of this number is outstanding for what a wait is for.
fn is_held(callbacks: &LiveCallbacks, target: WaitTarget, number: u64) -> bool
    ensures { result ≡ is_held_among callbacks.now.rows target number }
{
    match callbacks.get(number) {
        Some(callback) => is_outstanding(target, callback),
        None => false,
    }
}

// The first of these numbers whose callback is outstanding for what a wait is for, or None where there is none.
fn first_among(callbacks: &LiveCallbacks, target: WaitTarget, numbers: &[u64]) -> Option<u64>
    ensures { result ≡ find (is_held_among callbacks.now.rows target) numbers.now }
{
    numbers
        .iter()
        .copied()
        .find(|number| is_held(callbacks, target, *number))
}

// The number of a callback that is lent, if one is.
#[inline(always)]
fn number_of(callback: Option<&CallbackRow>) -> Option<u64>
    ensures { result ≡ option_map (λ c. c.number) (option_copied callback.entry) }
{
    match callback {
        Some(callback) => Some(callback.number),
        None => None,
    }
}

// The number of the first callback that is outstanding for what a wait is for, or None where none is.
#[inline(always)]
fn first_outstanding(callbacks: &LiveCallbacks, target: WaitTarget) -> Option<u64>
    requires { filter lives callbacks.now.rows ≡ callbacks.now.rows }
    ensures { result ≡ option_map (λ c. c.number) (find (is_outstanding_for target) callbacks.now.rows) }
{
    match target {
        WaitTarget::Object(object) => number_of(callbacks.first_outstanding(object)),
        WaitTarget::Group(group) => number_of(callbacks.first_of_group(group)),
        WaitTarget::Kernel(_) => None,
    }
}

// Lists what runs of an object, and is outstanding for it, for a wait that begins.
pub(crate) fn list_running(
    covers: &mut Covers,
    place: u32,
    callbacks: &LiveCallbacks,
    object: ObjectId,
)
    requires there { place < length covers.old.bounds }
    requires lists { place < length covers.old.listed }
    requires room { length callbacks.now.rows ≤ covers.old.room }
    requires rising { (next_number : ℕ) × IsRising 1 next_number callbacks.now.rows }
    ensures { covers.new ≡ with_cover covers.old place None (covered_of (Object object) true callbacks.now.rows) }
{
    covers.begin_list(place);
    let mut next = callbacks.first_outstanding(object);
    while let Some(callback) = next {
        next = callbacks.next_outstanding(callback);
        if is_running(callback) {
            covers.list(place, callback.number);
        }
    }
}

// The wait of an actor ends, which was for this kernel object if one is given: it is taken, unless the
// wait is given up.
pub(crate) fn end_acquire(
    sources: &mut LiveSources,
    who: Who,
    how: WaitEnd,
    wanted: Option<KernelId>,
)
    requires { how ≡ Free → IfSome wanted (λ kernel. IsFreeFor who sources.old.sources.kernels kernel.0) }
    ensures { sources.new ≡ with_sources sources.old (record sources.old.sources { kernels = rows_left who how wanted sources.old.sources.kernels }) }
{
    match (how, wanted) {
        (WaitEnd::Free, Some(kernel)) => sources.take(who, kernel),
        _ => {}
    }
}

impl LiveWorld {
    ghost use Rattle.live_world.specs.Waiting.{held_by, progress_free};
    ghost use Rattle.world_reads.specs.Progress.{progress_of};

    // Whether a callback is pending, and the history has no room for it to be run.
    fn is_starved(&self, callback: &CallbackRow, room: u64) -> bool
        ensures { result ≡ is_starved self.now.world room callback.now }
    {
        is_pending(callback) && (room < 2 || (room < 4 && self.tally(callback.pool).attached == 0))
    }

    // Whether the actor's wait, which is for this, holds a callback.
    fn holds(&self, who: Who, waiter: u32, target: WaitTarget, callback: &CallbackRow) -> bool
        requires at { place_of self.now.world.limits who ≡ Some waiter }
        requires target { option_map (λ b. b.target) (wait_of self.now.world who) ≡ Some target }
        requires found { callback_of self.now.world callback.now.number ≡ Some callback.now }
        ensures { result ≡ is_among callback.now.number (held_by self.now.world who) }
    {
        is_outstanding(target, callback) && self.covers.covers(waiter, callback.number)
    }

    // Whether a callback is starved, and the actor's wait, which is for this, holds it.
    fn is_held_starved(
        &self,
        who: Who,
        waiter: u32,
        target: WaitTarget,
        callback: &CallbackRow,
        room: u64,
    ) -> bool
        requires at { place_of self.now.world.limits who ≡ Some waiter }
        requires target { option_map (λ b. b.target) (wait_of self.now.world who) ≡ Some target }
        requires found { callback_of self.now.world callback.now.number ≡ Some callback.now }
        ensures { result ≡ (is_starved self.now.world room callback.now && is_among callback.now.number (held_by self.now.world who)) }
    {
        self.is_starved(callback, room) && self.holds(who, waiter, target, callback)
    }

    // Whether the actor's wait, which is for this object, holds one that is starved. Of the object's pending
    // callbacks it holds none without the first, and they are all of one pool, so that the first tells of all.
    #[inline(never)]
    fn holds_starved(&self, who: Who, waiter: u32, object: ObjectId, room: u64) -> bool
        requires at { place_of self.now.world.limits who ≡ Some waiter }
        requires target { option_map (λ b. b.target) (wait_of self.now.world who) ≡ Some (WaitTarget.Object object) }
        ensures { result ≡ holds_starved self.now.world room (held_by self.now.world who) }
    {
        self.is_reachable();
        match self.first_pending(object) {
            None => false,
            Some(callback) => {
                let target = WaitTarget::Object(object);
                self.is_held_starved(who, waiter, target, &callback, room)
            }
        }
    }

    // Whether the actor's wait, which is for this, holds one that is starved. Walks the callbacks.
    #[inline(never)]
    fn holds_any_starved(&self, who: Who, waiter: u32, target: WaitTarget, room: u64) -> bool
        requires at { place_of self.now.world.limits who ≡ Some waiter }
        requires target { option_map (λ b. b.target) (wait_of self.now.world who) ≡ Some target }
        ensures { result ≡ holds_starved self.now.world room (held_by self.now.world who) }
    {
        self.is_reachable();
        let mut next = self.callbacks.after(0);
        while let Some(callback) = next {
            if self.is_held_starved(who, waiter, target, &callback, room) {
                return true;
            }
            next = self.callbacks.after(callback.number);
        }
        false
    }

    // What is left of an actor's wait that holds nothing: the first of its notices, if it has one.
    fn progress_free(&self, who: Who) -> Progress
        requires { is_none (wait_of self.now.world who) ≡ false }
        ensures { result ≡ progress_free self.now.world (wait_of self.now.world who) }
    {
        let Some(object) = self.waits.first_notice(who) else {
            return Progress::Free;
        };
        let closing = self.waits.closing(who).unwrap();
        let row = self.objects.object(object).unwrap();
        Progress::Notifies {
            object,
            routine: row.env.cancel,
            context: row.context,
            cleanup: closing.context,
        }
    }

    // Whether the actor's wait, which is for this, holds one that is starved. One is looked for only where the
    // history has no room for it to be run.
    #[inline(always)]
    fn is_wait_starved(&self, who: Who, waiter: u32, target: WaitTarget, room: u64) -> bool
        requires at { place_of self.now.world.limits who ≡ Some waiter }
        requires target { option_map (λ b. b.target) (wait_of self.now.world who) ≡ Some target }
        ensures { result ≡ holds_starved self.now.world room (held_by self.now.world who) }
    {
        if 4 <= room {
            return false;
        }
        match target {
            WaitTarget::Object(object) => self.holds_starved(who, waiter, object, room),
            WaitTarget::Group(_) | WaitTarget::Kernel(_) => {
                self.holds_any_starved(who, waiter, target, room)
            }
        }
    }

    // The number of the first callback that the actor's wait, which is for this, still holds, or None where it
    // holds none.
    #[inline(always)]
    fn first_held(&self, who: Who, waiter: u32, target: WaitTarget) -> Option<u64>
        requires at { place_of self.now.world.limits who ≡ Some waiter }
        requires target { option_map (λ b. b.target) (wait_of self.now.world who) ≡ Some target }
        ensures { result ≡ slice_get (held_by self.now.world who) 0 }
    {
        let Some(last) = self.covers.bound(waiter) else {
            return first_among(&self.callbacks, target, self.covers.listed(waiter));
        };
        let first = first_outstanding(&self.callbacks, target)?;
        if first <= last { Some(first) } else { None }
    }

    // How many workers have a wait begun.
    pub(crate) fn waiting_workers(&self) -> u32
        ensures { result ≡ length (filter (λ number. is_in_wait self.now.world (Who.Worker number)) (range_with_len 1 (length self.now.world.workers))) }
    {
        self.waits.waiting_workers()
    }

    // How far the actor's wait has come, where the history has this room left. Where that is less
    // than 4, it walks what is outstanding for an object up to what is pending, or the callbacks where a
    // wait is for a group. Where the wait began with cancel, it looks at those that ran then, of which there are
    // no more than workers. Else it walks nothing.
    #[inline(always)]
    pub(crate) fn progress(&self, who: Who, room: u64) -> Progress
        ensures { result ≡ progress_of self.now.world room who }
    {
        let Some((waiter, target)) = self.waits.begun(who) else {
            return Progress::NotBegun;
        };
        if let WaitTarget::Kernel(kernel) = target {
            return Progress::Acquires { kernel };
        }
        match self.first_held(who, waiter, target) {
            None => self.progress_free(who),
            Some(first) => {
                if self.is_wait_starved(who, waiter, target, room) {
                    Progress::Starved
                } else {
                    Progress::Holds { callback: first }
                }
            }
        }
    }

    // Cancels what is pending of an object. Walks what is outstanding for the object.
    fn cancel_pending(&mut self, object: ObjectId)
        ensures { self.new ≡ without_pending self.old object }
    {
        self.is_reachable();
        let mut next = self.callbacks.first_outstanding(object).copied();
        while let Some(callback) = next {
            self.is_reachable();
            next = self.callbacks.next_outstanding(&callback).copied();
            if is_pending(&callback) {
                self.cancel_callback(callback);
            }
        }
        self.is_reachable();
    }

    // With cancel, cancels what is pending of an object.
    fn settle(&mut self, object: ObjectId, cancel: bool)
        ensures { self.new ≡ settled self.old object cancel }
    {
        self.is_reachable();
        if cancel {
            self.cancel_pending(object);
        }
    }

    // Begins a wait that covers what is outstanding for the object: all of it, or with cancel what of it
    // runs.
    fn cover_outstanding(&mut self, who: Who, object: ObjectId, cancel: bool)
        requires allowed { MayBegin self.old.world who (Awaited.Object object) }
        requires settled { filter (is_cancelled_by (WaitTarget.Object object) cancel) self.old.world.callbacks ≡ [] }
        ensures { self.new ≡ with_world self.old (begin_wait self.old.world who (WaitTarget.Object object) cancel self.old.world.callbacks) }
    {
        let waiter = self.waits.place(who).unwrap();
        let target = WaitTarget::Object(object);
        self.waits.begin(who, target, cancel, &self.callbacks);
        if cancel {
            let _few = self.callbacks.len();
            list_running(&mut self.covers, waiter, &self.callbacks, object);
        } else {
            self.covers.cover_up_to(waiter, self.made);
        }
    }

    // Begins a wait for a kernel object, which covers nothing.
    fn begin_acquire(&mut self, who: Who, kernel: KernelId, cancel: bool)
        requires { IsAllowed (self.old.made + 1) self.old.world (Change.BeginWait who (Awaited.Kernel kernel) cancel) }
        ensures { self.new ≡ moved self.old (Change.BeginWait who (Awaited.Kernel kernel) cancel) }
    {
        let waiter = self.waits.place(who).unwrap();
        let target = WaitTarget::Kernel(kernel);
        self.waits.begin(who, target, cancel, &self.callbacks);
        self.covers.cover_up_to(waiter, self.made);
    }

    // Begins a wait of an actor. With cancel, what is pending is cancelled first.
    pub(crate) fn begin_wait(&mut self, who: Who, awaited: Awaited, cancel: bool)
        requires { IsAllowed (self.old.made + 1) self.old.world (Change.BeginWait who awaited cancel) }
        ensures { self.new ≡ moved self.old (Change.BeginWait who awaited cancel) }
    {
        match awaited {
            Awaited::Object(object) => {
                self.settle(object, cancel);
                self.cover_outstanding(who, object, cancel);
            }
            Awaited::Kernel(kernel) => self.begin_acquire(who, kernel, cancel),
        }
    }

    // Ends the wait that an actor has begun, which takes the kernel object that it is for.
    pub(crate) fn end_wait(&mut self, who: Who, how: WaitEnd)
        requires allowed { IsAllowed (self.old.made + 1) self.old.world (Change.EndWait who how) }
        requires taken { AreTakenAtMost (2 ^ 47) self.old.world }
        ensures { self.new ≡ moved self.old (Change.EndWait who how) }
    {
        end_acquire(&mut self.sources, who, how, self.waits.wanted(who));
        self.waits.end(who, how);
    }
}
