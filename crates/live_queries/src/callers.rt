//! Who makes a call, and what of a worker's callback a call asks.

ghost use Rattle.std.specs.Prelude.{◌≡◌, ◌≤◌, length, option_map};
ghost use Rattle.tp_base.specs.Actions.{slot as slot_of};
ghost use Rattle.tp_model.specs.Actions.{returning, slots_of as slots_of_status, words_of};
ghost use Rattle.tp_model.specs.Calls.Groups.{runs_in_group};
ghost use Rattle.tp_model.specs.Calls.InCallback.{has_asked};
ghost use Rattle.tp_model.specs.Conditions.{busy_of, idle_of, is_associated as is_associated_by, is_finished, runs_own};
ghost use Rattle.world_reads.specs.Actors.{actor_of};
ghost use Rattle.live_queries.specs.AtWork.{busy_at};

use crate::actors::{NO_CLIENT, NO_WORKER};
use tp_base::answers::{ActionKind, SlotWord};
use tp_base::ids::{GroupId, ObjectId, PoolId, Who};
use tp_base::plans::{ActionWords, Busy, Idle};
use tp_base::rows::{Action, CallbackRow, Slots, Status, WorkerRow};
use world_reads::{Actor, Reads, slots_of};

/// The actor of this name.
pub fn actor<W: Reads>(world: &W, who: Who) -> Actor
    ensures { result ≡ actor_of (W.world_of world.now) who }
{
    let in_wait = world.is_in_wait(who);
    let known = match who {
        Who::Client(number) => match world.client(number) {
            None => NO_CLIENT,
            Some(client) => Actor {
                exists: true,
                finished: client.finished,
                ..NO_CLIENT
            },
        },
        Who::Worker(number) => match world.worker(number) {
            None => NO_WORKER,
            Some(worker) => Actor {
                exists: true,
                runs: worker.callback.is_some(),
                is_idle: worker.callback.is_none(),
                is_attached: worker.pool.is_some(),
                ..NO_WORKER
            },
        },
    };
    Actor { in_wait, ..known }
}

/// The actor as an attached worker that runs nothing, if it is one.
pub fn idle<W: Reads>(world: &W, who: Who) -> Option<Idle>
    ensures { result ≡ idle_of (W.world_of world.now) who }
{
    match who {
        Who::Client(_) => None,
        Who::Worker(number) => match world.worker(number) {
            Some(
                WorkerRow {
                    pool: Some(pool),
                    callback: None,
                    persistent,
                },
            ) => Some(Idle {
                worker: number,
                pool,
                persistent,
            }),
            _ => None,
        },
    }
}

/// A worker that runs a callback of its pool, which is lent.
#[derive(Clone, Copy)]
pub struct AtWork<'a> {
    pub worker: u32,
    pub pool: PoolId,
    pub callback: &'a CallbackRow,
    /// It is the pool's persistent worker.
    pub persistent: bool,
}

/// The actor as a worker that runs a callback, if it is one.
#[inline(always)]
pub fn at_work<W: Reads>(world: &W, who: Who) -> Option<AtWork<'_>>
    ensures { option_map busy_at result ≡ busy_of (W.world_of world.now) who }
{
    match who {
        Who::Client(_) => None,
        Who::Worker(number) => match world.worker(number) {
            Some(
                WorkerRow {
                    pool: Some(pool),
                    callback: Some(callback),
                    persistent,
                },
            ) => match world.callback(callback) {
                Some(callback) => Some(AtWork {
                    worker: number,
                    pool,
                    callback,
                    persistent,
                }),
                None => None,
            },
            _ => None,
        },
    }
}

/// The same, with the callback copied.
#[inline(always)]
pub fn busy<W: Reads>(world: &W, who: Who) -> Option<Busy>
    ensures { result ≡ busy_of (W.world_of world.now) who }
{
    match at_work(world, who) {
        Some(by) => Some(Busy {
            worker: by.worker,
            pool: by.pool,
            callback: *by.callback,
            persistent: by.persistent,
        }),
        None => None,
    }
}

/// Whether the actor runs a callback of the object that was not disassociated from it.
pub fn runs_own<W: Reads>(world: &W, who: Who, object: ObjectId) -> bool
    ensures { result ≡ runs_own (W.world_of world.now) who object.0 }
{
    match busy(world, who) {
        None => false,
        Some(by) => { is_associated(by.callback.status) && by.callback.object.0 == object.0 }
    }
}

/// Whether the actor runs a callback of the group, disassociated or not.
pub fn runs_in_group<W: Reads>(world: &W, who: Who, group: GroupId) -> bool
    ensures { result ≡ runs_in_group (W.world_of world.now) who group.0 }
{
    match busy(world, who) {
        None => false,
        Some(by) => by.callback.group.0 == group.0,
    }
}

/// Whether the callback that the actor runs has asked for an action of this kind.
pub fn has_asked<W: Reads>(world: &W, who: Who, kind: ActionKind) -> bool
    ensures { result ≡ has_asked (W.world_of world.now) who kind }
{
    match busy(world, who) {
        None => false,
        Some(by) => slot(kind, &slots_of(by.callback.status)).is_some(),
    }
}

// Where no action on return was asked for.
const NONE_ASKED: ActionWords = ActionWords {
    section: SlotWord::Unasked,
    mutex: SlotWord::Unasked,
    semaphore: SlotWord::Unasked,
    event: SlotWord::Unasked,
};

/// What becomes of the actions on return that a callback of this status asked for, if the actor returns
/// from it now, and how many callbacks that would make. Walks the waits that it would release.
#[inline(always)]
pub fn returned<W: Reads>(world: &W, who: Who, status: &Status) -> (ActionWords, u32)
    ensures words { result.0 ≡ words_of (W.world_of world.now) who (slots_of_status status.now) }
    ensures count { result.1 ≡ length (returning (W.world_of world.now) result.0 (slots_of_status status.now)).jobs }
{
    match slots_of(*status) {
        Slots {
            section: None,
            mutex: None,
            semaphore: None,
            event: None,
        } => (NONE_ASKED, 0),
        slots => performed(world, who, &slots),
    }
}

// The same of these actions.
fn performed<W: Reads>(world: &W, who: Who, slots: &Slots) -> (ActionWords, u32)
    ensures words { result.0 ≡ words_of (W.world_of world.now) who slots.now }
    ensures count { result.1 ≡ length (returning (W.world_of world.now) result.0 slots.now).jobs }
{
    let words = world.words(who, slots);
    let count = world.count_returned(who, slots, &words);
    (words, count)
}

/// How many clients there are: they have the numbers from 1 on.
pub(crate) fn clients<W: Reads>(world: &W) -> u32
    ensures value { result ≡ length (W.world_of world.now).clients }
    ensures few { result ≤ 65535 }
{
    world.is_reachable();
    world.limits().clients
}

/// How many workers there are: they have the numbers from 1 on.
pub(crate) fn workers<W: Reads>(world: &W) -> u32
    ensures value { result ≡ length (W.world_of world.now).workers }
    ensures few { result ≤ 65535 }
{
    world.is_reachable();
    world.limits().workers
}

/// Whether a client of this number is there and has finished.
pub(crate) fn has_finished<W: Reads>(world: &W, number: u32) -> bool
    ensures { result ≡ is_finished (W.world_of world.now) (Who.Client number) }
{
    match world.client(number) {
        None => false,
        Some(client) => client.finished,
    }
}

// Whether the callback runs and was not disassociated from its object.
fn is_associated(status: Status) -> bool
    ensures { result ≡ is_associated_by status }
{
    match status {
        Status::Running { associated, .. } => associated,
        _ => false,
    }
}

// The action of a kind that was asked for.
fn slot(kind: ActionKind, slots: &Slots) -> Option<Action>
    ensures { result ≡ slot_of kind slots.now }
{
    match kind {
        ActionKind::Section => slots.section,
        ActionKind::Mutex => slots.mutex,
        ActionKind::Semaphore => slots.semaphore,
        ActionKind::Event => slots.event,
    }
}
