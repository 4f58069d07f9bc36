//! The waits that actors have begun.

ghost use Rattle.std.specs.Prelude.{◌≡◌, ◌-◌, ◌++◌, ◌∷◌, [], IfOk, OnOk, drop, filter, find, if◌then◌else◌, not};
ghost use Rattle.std.specs.Option.{option_copied};
ghost use Rattle.tp_base.specs.Actors.{is_same_actor as same_actor};
ghost use Rattle.tp_model.specs.Changes.{changed, give_notice as give_notice_of, given_up_after, kernels_left, notified, without_wait};
ghost use Rattle.tp_model.specs.Waits.{cancel_where, covered_of, is_cancelled_by, is_covered_by, is_of as is_of_target, is_outstanding_for, target_of as target_of_awaited, wait_of};
ghost use Rattle.plain_worlds.specs.Closing.{is_held_among};

use crate::callbacks::{callback_in, is_pending, is_running};
use crate::groups::notices_of;
use crate::rows::Rows;
use std::alloc::{AllocError, Global};
use std::marker::Model;
use tp_base::ids::{GroupId, ObjectId, Who};
use tp_base::plans::{Awaited, Change, KernelChange, WaitEnd};
use tp_base::rows::{CallbackRow, Status, WaitTarget};

/// A wait that an actor has begun.
#[derive(Drop)]
pub(crate) struct WaitRow {
    pub(crate) actor: Who,
    pub(crate) target: WaitTarget,
    // The numbers of the callbacks that it covers.
    pub(crate) covered: Vec<u64>,
    // The objects of which it still has to give a notice.
    pub(crate) notices: Vec<ObjectId>,
    pub(crate) cleanup: u64,
}

impl Model for WaitRow {
    ghost use Rattle.tp_model.specs.World.{BegunWait};

    ghost Value = { BegunWait };

    ghost view = { λ a. record {
      actor = a.actor;
      target = a.target;
      covered = a.covered.items;
      notices = a.notices.items;
      cleanup = a.cleanup;
    } };
}

impl WaitRow {
    fn copy(&self, alloc: Global) -> Result<WaitRow, AllocError>
        ensures { IfOk result (λ wait. wait ≡ self.now) }
    {
        Ok(WaitRow {
            actor: self.actor,
            target: self.target,
            covered: Vec::from_slice(alloc, &self.covered)?,
            notices: Vec::from_slice(alloc, &self.notices)?,
            cleanup: self.cleanup,
        })
    }

    // It gives its first notice, if it is the actor's.
    fn notify_by(&mut self, who: Who)
        ensures { self.new ≡ (if same_actor self.old.actor who then notified self.old else self.old) }
    {
        if is_same_actor(self.actor, who) && !self.notices.is_empty() {
            self.notices.remove(0);
        }
    }
}

/// The same waits once more.
pub(crate) fn copy_waits(alloc: Global, waits: &[WaitRow]) -> Result<Vec<WaitRow>, AllocError>
    ensures { IfOk result (λ copies. copies.items ≡ waits.now) }
{
    let mut copies = Vec::with_capacity(alloc, waits.len())?;
    for wait in waits {
        copies.push(wait.copy(alloc)?)?;
    }
    Ok(copies)
}

/// Whether two actors are one.
pub(crate) fn is_same_actor(a: Who, b: Who) -> bool
    ensures { result ≡ same_actor a b }
{
    match (a, b) {
        (Who::Client(a), Who::Client(b)) => a == b,
        (Who::Worker(a), Who::Worker(b)) => a == b,
        _ => false,
    }
}

/// Whether a callback is of what a wait is for.
pub(crate) fn is_of(target: WaitTarget, callback: &CallbackRow) -> bool
    ensures { result ≡ is_of_target target callback.now }
{
    match target {
        WaitTarget::Object(object) => callback.object.0 == object.0,
        WaitTarget::Group(group) => callback.group.0 == group.0,
        WaitTarget::Kernel(_) => false,
    }
}

/// Whether a callback is outstanding for what a wait is for.
pub(crate) fn is_outstanding(target: WaitTarget, callback: &CallbackRow) -> bool
    ensures { result ≡ is_outstanding_for target callback.now }
{
    let is_held = match callback.status {
        Status::Expected | Status::Issued | Status::Pending => true,
        Status::Running { associated, .. } => match target {
            WaitTarget::Object(_) => associated,
            WaitTarget::Group(_) => true,
            WaitTarget::Kernel(_) => false,
        },
        Status::Returned | Status::Cancelled => false,
    };
    is_of(target, callback) && is_held
}

/// Whether the callback of a number is outstanding for what a wait is for.
pub(crate) fn is_held(callbacks: &[CallbackRow], target: WaitTarget, number: u64) -> bool
    ensures { result ≡ is_held_among callbacks.now target number }
{
    match callback_in(callbacks, number) {
        Some(callback) => is_outstanding(target, callback),
        None => false,
    }
}

/// Whether a wait covers a callback.
pub(crate) fn is_covered(target: WaitTarget, cancel: bool, callback: &CallbackRow) -> bool
    ensures { result ≡ is_covered_by target cancel callback.now }
{
    let is_running_only = cancel && matches!(target, WaitTarget::Object(_));
    is_outstanding(target, callback) && (is_running(callback) || !is_running_only)
}

// The numbers of the callbacks that a wait covers.
fn covered(
    alloc: Global,
    callbacks: &[CallbackRow],
    target: WaitTarget,
    cancel: bool,
) -> Result<Vec<u64>, AllocError>
    ensures { IfOk result (λ numbers. numbers.items ≡ covered_of target cancel callbacks.now) }
{
    callbacks
        .iter()
        .filter(|callback| is_covered(target, cancel, callback))
        .map(|callback| callback.number)
        .collect(alloc)
}

// What a wait is for, by what it was begun for.
fn target_of(awaited: Awaited) -> WaitTarget
    ensures { result ≡ target_of_awaited awaited }
{
    match awaited {
        Awaited::Object(object) => WaitTarget::Object(object),
        Awaited::Kernel(kernel) => WaitTarget::Kernel(kernel),
    }
}

/// The wait that an actor has begun.
pub(crate) fn begun(waits: &[WaitRow], who: Who) -> Option<&WaitRow>
    ensures { option_copied result ≡ find (λ b. same_actor b.actor who) waits.now }
{
    waits.iter().find(|wait| is_same_actor(wait.actor, who))
}

// The wait of an actor gives its first notice.
fn give_notice(waits: &mut Vec<WaitRow>, who: Who)
    ensures { waits.new.items ≡ give_notice_of who waits.old.items }
{
    for place in 0..waits.len() {
        let wait = &mut waits[place];
        wait.notify_by(who);
    }
}

/// Whether a wait cancels a callback as it begins.
pub(crate) fn is_cancelled(target: WaitTarget, cancel: bool, callback: &CallbackRow) -> bool
    ensures { result ≡ is_cancelled_by target cancel callback.now }
{
    cancel && (is_pending(callback) && is_of(target, callback))
}

// Cancels what is pending of what a wait is for, if it is to.
fn cancel_pending(callbacks: &mut Vec<CallbackRow>, target: WaitTarget, cancel: bool)
    ensures { callbacks.new.items ≡ cancel_where (is_cancelled_by target cancel) callbacks.old.items }
{
    for place in 0..callbacks.len() {
        if is_cancelled(target, cancel, &callbacks[place]) {
            callbacks[place].status = Status::Cancelled;
        }
    }
}

// Drops the wait of an actor.
fn drop_of(waits: &mut Vec<WaitRow>, who: Who)
    ensures { waits.new.items ≡ filter (λ b. not (same_actor b.actor who)) waits.old.items }
{
    waits.retain(|wait| !is_same_actor(wait.actor, who));
}

impl Rows {
    pub(crate) fn begin_wait(
        &mut self,
        alloc: Global,
        who: Who,
        awaited: Awaited,
        cancel: bool,
    ) -> Result<(), AllocError>
        ensures { OnOk result (self.new ≡ changed self.old (Change.BeginWait who awaited cancel)) }
    {
        let target = target_of(awaited);
        cancel_pending(&mut self.callbacks, target, cancel);
        let covered = covered(alloc, &self.callbacks, target, cancel)?;
        self.waits.push(WaitRow {
            actor: who,
            target,
            covered,
            notices: Vec::new(alloc),
            cleanup: 0,
        })?;
        Ok(())
    }

    pub(crate) fn begin_close(
        &mut self,
        alloc: Global,
        who: Who,
        group: GroupId,
        cancel: bool,
        context: u64,
        _notices: u32,
    ) -> Result<(), AllocError>
        ensures { OnOk result (self.new ≡ changed self.old (Change.BeginClose who group cancel context _notices)) }
    {
        let target = WaitTarget::Group(group);
        let notices = notices_of(alloc, &self.objects, group, cancel)?;
        cancel_pending(&mut self.callbacks, target, cancel);
        self.release_members(group);
        let covered = covered(alloc, &self.callbacks, target, cancel)?;
        self.waits.push(WaitRow {
            actor: who,
            target,
            covered,
            notices,
            cleanup: context,
        })?;
        Ok(())
    }

    pub(crate) fn give_notice(&mut self, who: Who)
        ensures { self.new ≡ changed self.old (Change.GiveNotice who) }
    {
        give_notice(&mut self.waits, who);
    }

    // What an actor waits for it takes as its wait ends freely, if that is a kernel object.
    fn take_awaited(&mut self, who: Who, how: WaitEnd) -> Result<(), AllocError>
        ensures { OnOk result (self.new ≡ record self.old { kernels = kernels_left self.old who how (wait_of self.old who) }) }
    {
        let WaitEnd::Free = how else {
            return Ok(());
        };
        let Some(wait) = begun(&self.waits, who) else {
            return Ok(());
        };
        let WaitTarget::Kernel(kernel) = wait.target else {
            return Ok(());
        };
        self.sources.change_kernel(kernel, KernelChange::Take(who))
    }

    // A wait that ends because the machine is stalled never gives the notices that it still has.
    fn give_up(&mut self, who: Who, how: WaitEnd) -> Result<(), AllocError>
        ensures { OnOk result (self.new ≡ record self.old { given_up = given_up_after self.old.given_up how (wait_of self.old who) }) }
    {
        let WaitEnd::Stalled = how else {
            return Ok(());
        };
        let Some(wait) = begun(&self.waits, who) else {
            return Ok(());
        };
        let left = wait.notices.len() as u64;
        self.given_up = self.given_up.checked_add(left).ok_or(AllocError)?;
        Ok(())
    }

    // The actor has no wait any more.
    fn drop_wait(&mut self, who: Who)
        ensures { self.new ≡ without_wait self.old who }
    {
        drop_of(&mut self.waits, who);
    }

    pub(crate) fn end_wait(&mut self, who: Who, how: WaitEnd) -> Result<(), AllocError>
        ensures { OnOk result (self.new ≡ changed self.old (Change.EndWait who how)) }
    {
        self.take_awaited(who, how)?;
        self.give_up(who, how)?;
        self.drop_wait(who);
        Ok(())
    }
}
