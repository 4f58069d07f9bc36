//! What triggers do, and the actions on return: what they come to of the sources, and the callbacks that they make.

ghost use Rattle.std.specs.Prelude.{◌≡◌, ◌+◌, ◌++◌, IfOk, OnOk, find, map};
ghost use Rattle.tp_model.specs.Actions.{act as act_of, perform as perform_of, performed};
ghost use Rattle.tp_model.specs.Changes.{changed};
ghost use Rattle.tp_model.specs.Sources.{arm as arm_of, expiry_job, fired, firing, jobless, sources_of, release as release_of, release_first as release_first_of, rows_of, set_wait as set_wait_of, signal as signal_of};
ghost use Rattle.std.specs.Option.{option_copied};
ghost use Rattle.tp_base.specs.Armings.{armed_behind, is_armed as is_armed_of, is_arming_on, is_set as is_set_of};
ghost use Rattle.plain_worlds.specs.Firing.{jobs_of, so_far};

use crate::kernels::is_signalled;
use crate::objects::object_row;
use crate::rows::Rows;
use crate::settings::{expire, expired, expires_at_once, set_timer};
use crate::sources::Sources;
use std::alloc::{AllocError, Global};
use std::marker::Model;
use tp_base::answers::{ActionKind, SlotWord, TakeResult};
use tp_base::ids::{KernelId, ObjectId};
use tp_base::plans::{ActionWords, Busy, Change, KernelChange, Trigger};
use tp_base::rows::{Action, Arming, CallbackRow, ObjectRow, Slots, TimerSetting};
use world_reads::{new_callback, slots_of};

/// A callback to be made, of an object.
#[derive(Drop)]
pub(crate) struct Job {
    object: ObjectId,
    result: TakeResult,
}

impl Model for Job {
    ghost use Rattle.tp_model.specs.Sources.{Job as Told};

    ghost Value = { Told };

    ghost view = { λ a. record { object = a.object; result = a.result } };
}

// The one job of an object, if it is told with what its callback is called.
fn job_told(
    alloc: Global,
    object: ObjectId,
    told: Option<TakeResult>,
) -> Result<Vec<Job>, AllocError>
    ensures { IfOk result (λ jobs. jobs.items ≡ jobs_of object told) }
{
    let mut jobs = Vec::new(alloc);
    if let Some(result) = told {
        jobs.push(Job { object, result })?;
    }
    Ok(jobs)
}

// The earliest wait that is armed on a kernel object.
fn first_on(armings: &[Arming], kernel: KernelId) -> Option<&Arming>
    ensures { option_copied result ≡ find (is_arming_on kernel.0) armings.now }
{
    armings.iter().find(|arming| arming.kernel.0 == kernel.0)
}

// Whether something is set of an object.
fn is_set(settings: &[TimerSetting], object: ObjectId) -> bool
    ensures { result ≡ is_set_of object.0 settings.now }
{
    settings.iter().any(|setting| setting.object.0 == object.0)
}

// Disarms the waits of which the timeout expired.
fn disarm_expired(armings: &mut Vec<Arming>, expired: &[TimerSetting])
    ensures { armings.new.items ≡ armed_behind expired.now armings.old.items }
{
    armings.retain(|arming| !is_set(expired, arming.object));
}

impl Sources {
    // The earliest wait that is armed on a kernel object is released, if the object is signalled.
    fn release_first(&mut self, jobs: &mut Vec<Job>, kernel: KernelId) -> Result<(), AllocError>
        ensures { OnOk result (so_far self.new jobs.new.items ≡ release_first_of kernel.0 (so_far self.old jobs.old.items)) }
    {
        if !is_signalled(&self.kernels, kernel) {
            return Ok(());
        }
        if let Some(arming) = first_on(&self.armings, kernel).copied() {
            self.disarm(arming.object);
            self.take_signal(kernel);
            jobs.push(Job {
                object: arming.object,
                result: TakeResult::WaitObject0,
            })?;
        }
        Ok(())
    }

    // As long as a kernel object is signalled and a wait is armed on it, the earliest is released.
    fn release(&mut self, jobs: &mut Vec<Job>, kernel: KernelId) -> Result<(), AllocError>
        ensures { OnOk result (so_far self.new jobs.new.items ≡ release_of kernel.0 (so_far self.old jobs.old.items)) }
    {
        let armed = self.armings.len();
        'armed: for _ in 0..armed {
            self.release_first(jobs, kernel)?;
        }
        Ok(())
    }

    // Changes a kernel object in a way that may signal it.
    fn signal(
        &mut self,
        jobs: &mut Vec<Job>,
        kernel: KernelId,
        how: KernelChange,
    ) -> Result<(), AllocError>
        ensures { OnOk result (so_far self.new jobs.new.items ≡ signal_of how kernel.0 (so_far self.old jobs.old.items)) }
    {
        self.change_kernel(kernel, how)?;
        self.release(jobs, kernel)
    }

    // Arms a wait that isn't armed on a kernel object. Where it takes that or times out at once it isn't armed, and
    // the result is with what its callback is called.
    fn arm(
        &mut self,
        object: ObjectId,
        kernel: KernelId,
        timeout: Option<i64>,
    ) -> Result<Option<TakeResult>, AllocError>
        ensures { IfOk result (λ told. so_far self.new (jobs_of object told) ≡ arm_of object kernel timeout self.old) }
    {
        if is_signalled(&self.kernels, kernel) {
            self.take_signal(kernel);
            return Ok(Some(TakeResult::WaitObject0));
        }
        if expires_at_once(self.clock, timeout) {
            return Ok(Some(TakeResult::WaitTimeout));
        }
        set_timer(&mut self.settings, self.clock, object, timeout, 0, 0)?;
        self.armings.push(Arming { object, kernel })?;
        Ok(None)
    }

    // Ends the arming of a wait, and arms it anew where a kernel object is named.
    fn set_wait(
        &mut self,
        object: ObjectId,
        kernel: Option<KernelId>,
        timeout: Option<i64>,
    ) -> Result<Option<TakeResult>, AllocError>
        ensures { IfOk result (λ told. so_far self.new (jobs_of object told) ≡ set_wait_of object kernel timeout self.old) }
    {
        self.disarm(object);
        match kernel {
            Some(kernel) => self.arm(object, kernel, timeout),
            None => Ok(None),
        }
    }

    // Sets a timer, and says whether it expires at once.
    fn set_timer(
        &mut self,
        object: ObjectId,
        due: Option<i64>,
        period: u32,
        window: u32,
    ) -> Result<Option<TakeResult>, AllocError>
        ensures { IfOk result (λ told. so_far self.new (jobs_of object told) ≡ firing (Trigger.SetTimer object due period window) self.old) }
    {
        set_timer(&mut self.settings, self.clock, object, due, period, window)?;
        if expires_at_once(self.clock, due) {
            Ok(Some(TakeResult::Plain))
        } else {
            Ok(None)
        }
    }

    // The clock comes to a moment: what is due then expires.
    fn advance(&mut self, alloc: Global, now: u64) -> Result<Vec<Job>, AllocError>
        ensures { IfOk result (λ jobs. so_far self.new jobs.items ≡ firing (Trigger.Advance now) self.old) }
    {
        let due = expired(alloc, &self.settings, now)?;
        expire(&mut self.settings, now, &due)?;
        let jobs = expiry_jobs(alloc, &self.armings, &due)?;
        disarm_expired(&mut self.armings, &due);
        self.clock = now;
        Ok(jobs)
    }

    // Does what a trigger does.
    fn fire(&mut self, alloc: Global, trigger: Trigger) -> Result<Vec<Job>, AllocError>
        ensures { IfOk result (λ jobs. so_far self.new jobs.items ≡ firing trigger self.old) }
    {
        match trigger {
            Trigger::SetTimer {
                object,
                due,
                period,
                window,
            } => {
                let told = self.set_timer(object, due, period, window)?;
                job_told(alloc, object, told)
            }
            Trigger::Advance { now } => self.advance(alloc, now),
            Trigger::SetWait {
                object,
                kernel,
                timeout,
            } => {
                let told = self.set_wait(object, kernel, timeout)?;
                job_told(alloc, object, told)
            }
            Trigger::SetEvent { kernel } => {
                let mut jobs = Vec::new(alloc);
                self.signal(&mut jobs, kernel, KernelChange::Set)?;
                Ok(jobs)
            }
            Trigger::ReleaseSemaphore { kernel, count } => {
                let mut jobs = Vec::new(alloc);
                self.signal(&mut jobs, kernel, KernelChange::Raise(count))?;
                Ok(jobs)
            }
        }
    }

    // Does what an action on return asks for.
    fn act(
        &mut self,
        jobs: &mut Vec<Job>,
        kind: ActionKind,
        action: Action,
    ) -> Result<(), AllocError>
        ensures { OnOk result (so_far self.new jobs.new.items ≡ act_of kind action (so_far self.old jobs.old.items)) }
    {
        match kind {
            ActionKind::Section | ActionKind::Mutex => {
                self.change_kernel(action.kernel, KernelChange::Leave)
            }
            ActionKind::Semaphore => {
                self.signal(jobs, action.kernel, KernelChange::Raise(action.count))
            }
            ActionKind::Event => self.signal(jobs, action.kernel, KernelChange::Set),
        }
    }

    // Performs an action on return, if its word says so.
    fn perform(
        &mut self,
        jobs: &mut Vec<Job>,
        kind: ActionKind,
        word: SlotWord,
        action: Option<Action>,
    ) -> Result<(), AllocError>
        ensures { OnOk result (so_far self.new jobs.new.items ≡ perform_of kind word action (so_far self.old jobs.old.items)) }
    {
        match (word, action) {
            (SlotWord::Performed, Some(action)) => self.act(jobs, kind, action),
            _ => Ok(()),
        }
    }

    // Performs all actions on return that were asked for, as their words say.
    fn perform_all(
        &mut self,
        jobs: &mut Vec<Job>,
        words: ActionWords,
        slots: Slots,
    ) -> Result<(), AllocError>
        ensures { OnOk result (so_far self.new jobs.new.items ≡ performed words slots (so_far self.old jobs.old.items)) }
    {
        self.perform(jobs, ActionKind::Section, words.section, slots.section)?;
        self.perform(jobs, ActionKind::Mutex, words.mutex, slots.mutex)?;
        self.perform(
            jobs,
            ActionKind::Semaphore,
            words.semaphore,
            slots.semaphore,
        )?;
        self.perform(jobs, ActionKind::Event, words.event, slots.event)
    }
}

impl Sources {
    // Performs the actions on return that were asked for.
    fn perform_asked(
        &mut self,
        alloc: Global,
        words: ActionWords,
        slots: Slots,
    ) -> Result<Vec<Job>, AllocError>
        ensures { IfOk result (λ jobs. so_far self.new jobs.items ≡ performed words slots (jobless self.old)) }
    {
        let mut jobs = Vec::new(alloc);
        self.perform_all(&mut jobs, words, slots)?;
        Ok(jobs)
    }
}

/// Whether a wait object is armed.
pub(crate) fn is_armed(armings: &[Arming], object: ObjectId) -> bool
    ensures { result ≡ is_armed_of object.0 armings.now }
{
    armings.iter().any(|arming| arming.object.0 == object.0)
}

// The callbacks of what expires: a setting of an armed wait is its timeout.
fn expiry_jobs(
    alloc: Global,
    armings: &[Arming],
    due: &[TimerSetting],
) -> Result<Vec<Job>, AllocError>
    ensures { IfOk result (λ jobs. jobs.items ≡ map (expiry_job armings.now) due.now) }
{
    let mut jobs = Vec::with_capacity(alloc, due.len())?;
    for setting in due {
        let result = if is_armed(armings, setting.object) {
            TakeResult::WaitTimeout
        } else {
            TakeResult::Plain
        };
        jobs.push(Job {
            object: setting.object,
            result,
        })?;
    }
    Ok(jobs)
}

// The next number. An `AllocError` comes where a u64 doesn't hold it.
fn following(number: u64) -> Result<u64, AllocError>
    ensures { IfOk result (λ next. next ≡ number + 1) }
{
    number.checked_add(1).ok_or(AllocError)
}

// Makes the callbacks of jobs, numbered from a number on.
fn make_all(
    callbacks: &mut Vec<CallbackRow>,
    objects: &[ObjectRow],
    first: u64,
    jobs: &[Job],
) -> Result<(), AllocError>
    ensures { OnOk result (callbacks.new.items ≡ callbacks.old.items ++ rows_of objects.now first jobs.now) }
{
    let mut number = first;
    for job in jobs {
        let row = object_row(objects, job.object);
        callbacks.push(new_callback(number, job.object, &row, job.result))?;
        number = following(number)?;
    }
    Ok(())
}

impl Rows {
    pub(crate) fn fire(
        &mut self,
        alloc: Global,
        trigger: Trigger,
        first: u64,
        _count: u32,
    ) -> Result<(), AllocError>
        ensures { OnOk result (self.new ≡ changed self.old (Change.Fire trigger first _count)) }
    {
        let jobs = self.sources.fire(alloc, trigger)?;
        make_all(&mut self.callbacks, &self.objects, first, &jobs)
    }

    // Performs actions on return, and makes the callbacks of that.
    fn perform(
        &mut self,
        alloc: Global,
        words: ActionWords,
        slots: Slots,
        first: u64,
    ) -> Result<(), AllocError>
        ensures { OnOk result (self.new ≡ fired self.old first (performed words slots (jobless (sources_of self.old)))) }
    {
        let jobs = self.sources.perform_asked(alloc, words, slots)?;
        make_all(&mut self.callbacks, &self.objects, first, &jobs)?;
        Ok(())
    }

    pub(crate) fn return_callback(
        &mut self,
        alloc: Global,
        by: Busy,
        words: ActionWords,
        first: u64,
        _count: u32,
    ) -> Result<(), AllocError>
        ensures { OnOk result (self.new ≡ changed self.old (Change.Return by words first _count)) }
    {
        self.end_run(by);
        self.perform(alloc, words, slots_of(by.callback.status), first)
    }
}
