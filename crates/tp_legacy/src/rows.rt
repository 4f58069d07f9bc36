//! The registrations, timer queues and timers of a program.

ghost use Rattle.std.specs.Prelude.{◌≡◌, ◌+◌, ◌<◌, ◌≤◌, ◌^◌, All, [], ◌∷◌, ◌++◌, length, IfOk, IfSome};
ghost use Rattle.tp_model.specs.Counts.{numbered};
ghost use Rattle.tp_legacy.specs.Kept.{IsQueue, IsRegistration, IsTimer, Stocked};
ghost use Rattle.tp_legacy.specs.Legacy.{first_of, group_of_queue, is_deleted, object_of_registration, object_of_timer, queue_at, refusal, refusals_of_timer, registration_at, registration_of, timer_at, without_queue, without_registration, without_timer};

use crate::{LegacyCall, LegacyRefusal};
use std::alloc::{AllocError, Global};
use std::marker::Model;
use tp_base::ids::{GroupId, KernelId, ObjectId};
use tp_base::limits::Limits;

/// A registration of a wait.
#[derive(Clone, Copy)]
pub struct Registration {
    /// The wait object that stands for it.
    pub object: ObjectId,
    pub kernel: KernelId,
    pub millis: Option<u32>,
    /// Its routine is called once.
    pub once: bool,
    /// It was ended.
    pub gone: bool,
}

/// A timer queue.
#[derive(Clone, Copy)]
pub struct TimerQueue {
    /// The cleanup group that stands for it.
    pub group: GroupId,
    pub deleted: bool,
}

/// A timer of a queue.
#[derive(Clone, Copy)]
pub struct QueueTimer {
    pub queue: u32,
    /// The timer object that stands for it.
    pub object: ObjectId,
    /// It was deleted by itself.
    pub gone: bool,
}

/// All of them, each numbered from 1 on in the order of making.
#[derive(Drop)]
pub(crate) struct Rows {
    // By rising number of the object.
    registrations: Vec<Registration>,
    queues: Vec<TimerQueue>,
    timers: Vec<QueueTimer>,
}

impl Model for Rows {
    ghost use Rattle.tp_legacy.specs.Kept.{Stocked};

    ghost Value = { Stocked };

    ghost use Rattle.std.specs.Prelude.{vec_capacity};
    ghost use Rattle.tp_legacy.specs.Kept.{AreRows};

    ghost view = { λ a. record { old = record { registrations = a.registrations.items; queues = a.queues.items; timers = a.timers.items }; registrations = vec_capacity a.registrations; queues = vec_capacity a.queues; timers = vec_capacity a.timers } };

    ghost invariant = { λ a. AreRows a.registrations.items a.queues.items a.timers.items };
}

impl Rows {
    /// Nothing was made. There is room for all that a machine of these limits can make.
    pub(crate) fn open(alloc: Global, limits: &Limits) -> Result<Rows, AllocError>
        ensures { IfOk result (λ rows. rows ≡ record { old = record { registrations = []; queues = []; timers = [] }; registrations = limits.now.objects; queues = limits.now.groups; timers = limits.now.objects }) }
    {
        let objects = limits.objects as usize;
        Ok(Rows {
            registrations: Vec::with_capacity(alloc, objects)?,
            queues: Vec::with_capacity(alloc, limits.groups as usize)?,
            timers: Vec::with_capacity(alloc, objects)?,
        })
    }

    /// Why a call is refused before the machine is asked, if it is.
    pub(crate) fn refusal(&self, call: &LegacyCall) -> Option<LegacyRefusal>
        ensures { result ≡ refusal self.now.old call.now }
    {
        match *call {
            LegacyCall::Unregister { registration } => {
                match numbered(&self.registrations, registration) {
                    None => Some(LegacyRefusal::NoSuch),
                    Some(row) if row.gone => Some(LegacyRefusal::Released),
                    Some(_) => None,
                }
            }
            LegacyCall::CreateTimer { queue, .. } | LegacyCall::DeleteQueue { queue } => {
                match numbered(&self.queues, queue) {
                    None => Some(LegacyRefusal::NoSuch),
                    Some(row) if row.deleted => Some(LegacyRefusal::Released),
                    Some(_) => None,
                }
            }
            LegacyCall::ChangeTimer { queue, timer, .. }
            | LegacyCall::DeleteTimer { queue, timer } => self.refusal_of_timer(queue, timer),
            LegacyCall::QueueItem { .. }
            | LegacyCall::Register { .. }
            | LegacyCall::CreateQueue
            | LegacyCall::Pool { .. } => None,
        }
    }

    // Why a call that names a timer and its queue is refused, if it is.
    fn refusal_of_timer(&self, queue: u32, timer: u32) -> Option<LegacyRefusal>
        ensures { result ≡ first_of (refusals_of_timer self.now.old queue timer) }
    {
        let Some(named) = numbered(&self.queues, queue) else {
            return Some(LegacyRefusal::NoSuch);
        };
        let Some(row) = numbered(&self.timers, timer) else {
            return Some(LegacyRefusal::NoSuch);
        };
        if named.deleted || row.gone || self.is_deleted(row.queue) {
            Some(LegacyRefusal::Released)
        } else if row.queue == queue {
            None
        } else {
            Some(LegacyRefusal::OtherQueue)
        }
    }

    // Whether a queue was deleted.
    fn is_deleted(&self, queue: u32) -> bool
        ensures { result ≡ is_deleted self.now.old queue }
    {
        match numbered(&self.queues, queue) {
            Some(row) => row.deleted,
            None => false,
        }
    }

    /// The wait object of a registration, or 0 where it was never made.
    pub(crate) fn object_of_registration(&self, number: u32) -> ObjectId
        ensures value { result ≡ object_of_registration self.now.old number }
        ensures most { result.0 ≤ 65535 }
    {
        match numbered(&self.registrations, number) {
            Some(row) => row.object,
            None => ObjectId(0),
        }
    }

    /// The group of a queue, or 0 where it was never made.
    pub(crate) fn group_of_queue(&self, number: u32) -> GroupId
        ensures value { result ≡ group_of_queue self.now.old number }
        ensures most { result.0 ≤ 65535 }
    {
        match numbered(&self.queues, number) {
            Some(row) => row.group,
            None => GroupId(0),
        }
    }

    /// The timer object of a timer, or 0 where it was never made.
    pub(crate) fn object_of_timer(&self, number: u32) -> ObjectId
        ensures value { result ≡ object_of_timer self.now.old number }
        ensures most { result.0 ≤ 65535 }
    {
        match numbered(&self.timers, number) {
            Some(row) => row.object,
            None => ObjectId(0),
        }
    }

    /// The registration that an object stands for, if it does for one.
    pub(crate) fn registration_of(&self, object: ObjectId) -> Option<Registration>
        ensures value { result ≡ registration_of self.now.old object }
        ensures row { IfSome result IsRegistration }
    {
        match self
            .registrations
            .binary_search_by_key(&object.0, |row| row.object.0)
        {
            Ok(place) => Some(self.registrations[place]),
            Err(_) => None,
        }
    }

    /// Adds a registration, whose object was made behind those of all others, and tells its number.
    pub(crate) fn add_registration(&mut self, row: Registration) -> u32
        requires row { IsRegistration row }
        requires above { All (λ other. other.object.0 < row.object.0) self.old.old.registrations }
        requires room { length self.old.old.registrations < self.old.registrations }
        requires few { length self.old.old.registrations ≤ 65535 }
        ensures rows { self.new ≡ record self.old { old = record self.old.old { registrations = self.old.old.registrations ++ row ∷ [] } } }
        ensures number { result ≡ length self.old.old.registrations + 1 }
    {
        self.registrations.push_reserved(row);
        self.registrations.len() as u32
    }

    /// Adds a queue of a group, and tells its number.
    pub(crate) fn add_queue(&mut self, row: TimerQueue) -> u32
        requires row { IsQueue row }
        requires room { length self.old.old.queues < self.old.queues }
        requires few { length self.old.old.queues ≤ 65535 }
        ensures rows { self.new ≡ record self.old { old = record self.old.old { queues = self.old.old.queues ++ row ∷ [] } } }
        ensures number { result ≡ length self.old.old.queues + 1 }
    {
        self.queues.push_reserved(row);
        self.queues.len() as u32
    }

    /// Adds a timer, and tells its number.
    pub(crate) fn add_timer(&mut self, row: QueueTimer) -> u32
        requires row { IsTimer row }
        requires room { length self.old.old.timers < self.old.timers }
        requires few { length self.old.old.timers ≤ 65535 }
        ensures rows { self.new ≡ record self.old { old = record self.old.old { timers = self.old.old.timers ++ row ∷ [] } } }
        ensures number { result ≡ length self.old.old.timers + 1 }
    {
        self.timers.push_reserved(row);
        self.timers.len() as u32
    }

    /// A registration is gone.
    pub(crate) fn end_registration(&mut self, number: u32)
        ensures { self.new ≡ record self.old { old = without_registration self.old.old number } }
    {
        if let Some(row) = numbered(&self.registrations, number) {
            self.registrations[number as usize - 1] = Registration { gone: true, ..row };
        }
    }

    /// A queue is deleted, and its timers are gone with it.
    pub(crate) fn delete_queue(&mut self, number: u32)
        ensures { self.new ≡ record self.old { old = without_queue self.old.old number } }
    {
        if let Some(row) = numbered(&self.queues, number) {
            self.queues[number as usize - 1] = TimerQueue {
                deleted: true,
                ..row
            };
        }
    }

    /// A timer is gone.
    pub(crate) fn delete_timer(&mut self, number: u32)
        ensures { self.new ≡ record self.old { old = without_timer self.old.old number } }
    {
        if let Some(row) = numbered(&self.timers, number) {
            self.timers[number as usize - 1] = QueueTimer { gone: true, ..row };
        }
    }
}

// The row of a number that counts from 1, if there is one.
fn numbered<R: Copy>(rows: &[R], number: u32) -> Option<R>
    ensures { result ≡ numbered rows.now number }
{
    if number == 0 {
        None
    } else {
        rows.get(number as usize - 1).copied()
    }
}
