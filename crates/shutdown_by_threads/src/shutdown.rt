//! The server and its shutdown.
//!
//! Client 1 is the server. It makes a pool, a cleanup group, a work object for its requests and a timer,
//! submits three requests, and closes the group's members while the second one is being served. Client 2
//! waits until that has been served. The workers serve two requests; the third is cancelled.
//!
//! Each actor is on a thread of its own, and their calls meet. What has to come first does so by a wait of
//! the machine, or by a seat that tells what another one has seen. So what each actor is answered is the
//! same at each run; in which order the entries of different actors stand is not.

ghost use Rattle.std.specs.Prelude.{◌≡◌, ◌≤◌};
ghost use Rattle.shared_pool.specs.Pools.{setup_at, IsPlayer, IsSeatOf};
ghost use Rattle.shutdown_by_threads.specs.Seats.{AllStay, ArePlayers, Stays};
ghost use Rattle.tp_base.specs.Ranges.{IsCallInRange};
ghost use Rattle.turn_lock.specs.Seats.{number_of};

use crate::actors::{Actors, deal, gather};
use callback_env::CallbackEnviron;
use crossbeam_utils::Backoff;
use recorded::{Recorded, program_limits};
use shared_pool::{NoticeList, SharedPool, Tried};
use std::alloc::{AllocError, Global};
use std::sync::{Mutex, Wait};
use std::thread;
use std::thread::Threads;
use tp_base::answers::{Answer, Outcome};
use tp_base::calls::{Call, Kind};
use tp_base::ids::{GroupId, KernelId, ObjectId, PoolId, RoutineId};
use turn_lock::Seat;

// How many entries the history has room for.
const EVENTS: u32 = 1_024;

// What the server makes is numbered from 1 on.
const HALL: PoolId = PoolId(1);

const ALL: GroupId = GroupId(1);

pub const REQUESTS: ObjectId = ObjectId(1);

const MINUTE: ObjectId = ObjectId(2);

/// The event that is set as the callback of the first request returns.
const FIRST_SERVED: KernelId = KernelId(1);

/// The same of the second request.
const SECOND_SERVED: KernelId = KernelId(2);

// What the routine of the requests uses.
#[derive(Drop)]
struct Desk {
    served: u32,
}

/// Makes a call as soon as no other seat is at its turn. It may wait for ever.
pub fn retry<B: Recorded, Rt: Wait, F: Fn(&mut Seat<B>) -> Tried>(
    rt: &Rt,
    pool: &SharedPool<B>,
    seat: &mut Seat<B>,
    attempt: F,
) -> Tried
    requires player { IsPlayer pool.now seat.old }
    requires accepts { (at : _) → IsPlayer pool.now at.now → F.pre attempt at }
    requires keeps { (at : _) (tried : _) (after : _) → IsPlayer pool.now at.now → F.post attempt at tried after → Stays pool.now at.now after.now }
    ensures stays { Stays pool.now seat.old seat.new }
{
    let backoff = Backoff::new();
    for _ in rt.forever() {
        match attempt(seat) {
            Tried::Busy { .. } => backoff.snooze(),
            tried => return tried,
        }
    }
    unreachable!()
}

/// Makes a step of a worker as soon as it is no look. It may wait for ever.
fn step<B: Recorded, Rt: Wait>(rt: &Rt, pool: &SharedPool<B>, seat: &mut Seat<B>, call: Call)
    requires player { IsPlayer pool.now seat.old }
    requires in_range { IsCallInRange call }
    ensures stays { Stays pool.now seat.old seat.new }
{
    let backoff = Backoff::new();
    for _ in rt.forever() {
        match pool.call(rt, seat, call) {
            Outcome::Look(_) => backoff.snooze(),
            Outcome::Done(_) | Outcome::Full { .. } => return,
        }
    }
}

/// Makes the server, and has it submit three requests. Its timer has expired once and is set again. No
/// other seat is in use yet, so each call is made at once.
#[tactic(auto, using(crate::proofs::Numbers::number_tried))]
fn open_server<B: Recorded>(pool: &SharedPool<B>, seat: &mut Seat<B>)
    requires { IsPlayer pool.now seat.old }
    ensures { Stays pool.now seat.old seat.new }
{
    let mut env = CallbackEnviron::initialize();
    env.set_pool(HALL);
    env.set_cleanup_group(ALL, Some(RoutineId(9)));
    let env = env.plain();
    pool.create_pool(seat);
    pool.set_maximum(seat, HALL, 2);
    pool.create_group(seat);
    pool.create_work(seat, RoutineId(1), 5, env);
    pool.create_timer(seat, RoutineId(2), 6, env);
    let event = Call::CreateEvent {
        manual: false,
        signalled: false,
    };
    pool.try_call(seat, event);
    pool.try_call(seat, event);
    pool.submit_work(seat, REQUESTS);
    pool.submit_work(seat, REQUESTS);
    pool.submit_work(seat, REQUESTS);
    pool.set_timer(seat, MINUTE, Some(-600_000_000), 60_000, 0);
    pool.try_call(seat, Call::Advance { ticks: 600_000_000 });
}

/// The routine of a request: it is counted at the desk, no wait for the work object waits for it any more,
/// and its return will set the event.
#[tactic(auto, using(crate::proofs::Numbers::number_tried))]
fn serve<B: Recorded, Rt: Wait>(
    rt: &Rt,
    pool: &SharedPool<B>,
    seat: &mut Seat<B>,
    desk: &Mutex<Option<Desk>>,
    served: KernelId,
)
    requires player { IsPlayer pool.now seat.old }
    requires in_range { served.0 ≤ 65535 }
    ensures stays { Stays pool.now seat.old seat.new }
{
    if let Some(desk) = desk.lock(rt).as_mut() {
        desk.served = desk.served.saturating_add(1);
    }
    retry(rt, pool, seat, |seat| pool.disassociate(seat));
    retry(rt, pool, seat, |seat| {
        pool.set_event_on_return(seat, served, 1)
    });
}

/// The first worker serves its request, and leaves the pool as soon as nothing is pending there: that is
/// when the server's close has cancelled the rest. Of that the seat of number 0 tells.
fn serve_first<B: Recorded, Rt: Wait>(
    rt: &Rt,
    pool: &SharedPool<B>,
    seat: Seat<B>,
    desk: &Mutex<Option<Desk>>,
) -> (Seat<B>, Seat<B>)
    requires { IsPlayer pool.now seat }
    ensures stays { Stays pool.now seat result.0 }
    ensures told { IsSeatOf pool.now result.1 × (number_of result.1 ≡ 0) }
{
    let mut seat = seat;
    serve(rt, pool, &mut seat, desk, FIRST_SERVED);
    step(rt, pool, &mut seat, Call::Return);
    step(rt, pool, &mut seat, Call::Detach);
    let told = pool.split(&mut seat);
    (seat, told)
}

/// The workers take a request each, one after the other, and serve them at the same time. The second one
/// returns when it has been told that the first one has left, so the server closes while it runs.
fn work<B: Recorded + Send, Rt: Threads + Wait + Sync>(
    rt: &Rt,
    pool: &SharedPool<B>,
    first: Seat<B>,
    second: Seat<B>,
    desk: &Mutex<Option<Desk>>,
) -> (Seat<B>, Seat<B>)
    requires first { IsPlayer pool.now first }
    requires second { IsPlayer pool.now second }
    ensures first { Stays pool.now first result.0 }
    ensures second { Stays pool.now second result.1 }
{
    let (mut first, mut second) = (first, second);
    step(rt, pool, &mut first, Call::Attach);
    step(rt, pool, &mut first, Call::Take);
    step(rt, pool, &mut second, Call::Attach);
    step(rt, pool, &mut second, Call::Take);
    let ((first, told), mut second) = thread::join(
        rt,
        move || -> (Seat<B>, Seat<B>)
            requires { IsPlayer pool.now first }
            ensures stays { Stays pool.entry.now first result.0 }
            ensures told { IsSeatOf pool.entry.now result.1 × (number_of result.1 ≡ 0) }
        { serve_first(rt, pool, first, desk) },
        move || -> Seat<B>
            requires { IsPlayer pool.now second }
            ensures { Stays pool.entry.now second result }
        {
            let mut second = second;
            serve(rt, pool, &mut second, desk, SECOND_SERVED);
            second
        },
    );
    pool.join(&mut second, told);
    step(rt, pool, &mut second, Call::Return);
    step(rt, pool, &mut second, Call::Detach);
    (first, second)
}

/// Client 2 is told of what the server has made, and waits until the second request has been served.
#[tactic(auto, using(crate::proofs::Numbers::number_waited))]
fn await_second<B: Recorded, Rt: Wait>(
    rt: &Rt,
    pool: &SharedPool<B>,
    seat: Seat<B>,
    told: Seat<B>,
) -> Seat<B>
    requires player { IsPlayer pool.now seat }
    requires told { IsSeatOf pool.now told × (number_of told ≡ 0) }
    ensures { Stays pool.now seat result }
{
    let mut seat = seat;
    pool.join(&mut seat, told);
    pool.acquire(rt, &mut seat, SECOND_SERVED);
    pool.call(rt, &mut seat, Call::Finish);
    seat
}

/// The server stops: it unsets the timer and waits for what that has made, closes all that is in the group,
/// frees what the routines used, and closes the group and the pool. It answers how many requests were served,
/// and `None` where nothing may be freed.
#[tactic(auto, using(crate::proofs::Numbers::number_tried, crate::proofs::Numbers::number_waited))]
fn shut_down<B: Recorded, Rt: Wait>(
    rt: &Rt,
    pool: &SharedPool<B>,
    seat: Seat<B>,
    desk: &Mutex<Option<Desk>>,
    notices: NoticeList,
) -> (Seat<B>, Option<u32>)
    requires player { IsPlayer pool.now seat }
    requires room { (setup_at pool.now).limits.objects ≤ notices.spare }
    ensures { Stays pool.now seat result.0 }
{
    let (mut seat, mut notices) = (seat, notices);
    pool.acquire(rt, &mut seat, FIRST_SERVED);
    retry(rt, pool, &mut seat, |seat| {
        pool.set_timer(seat, MINUTE, None, 0, 0)
    });
    pool.wait_callbacks(rt, &mut seat, Kind::Timer, MINUTE, true);
    let closed = pool.close_members(rt, &mut seat, ALL, true, 7, &mut notices);
    let mut served = None;
    if let Outcome::Done(Answer::Ended) = closed {
        // Clause `closed` of `close_members`: each callback of the group that a worker took has returned, and
        // whatever is called from here on, none of them is taken later (`IsFreed.covered`). So nobody uses
        // the desk any more.
        served = desk.lock(rt).take().map(|desk| desk.served);
    }
    retry(rt, pool, &mut seat, |seat| pool.close_group(seat, ALL));
    retry(rt, pool, &mut seat, |seat| pool.close_pool(seat, HALL));
    pool.call(rt, &mut seat, Call::Finish);
    (seat, served)
}

/// Client 2 and the workers, at the same time.
fn run_others<B: Recorded + Send, Rt: Threads + Wait + Sync>(
    rt: &Rt,
    pool: &SharedPool<B>,
    client: Seat<B>,
    told: Seat<B>,
    first: Seat<B>,
    second: Seat<B>,
    desk: &Mutex<Option<Desk>>,
) -> (Seat<B>, (Seat<B>, Seat<B>))
    requires client { IsPlayer pool.now client }
    requires told { IsSeatOf pool.now told × (number_of told ≡ 0) }
    requires first { IsPlayer pool.now first }
    requires second { IsPlayer pool.now second }
    ensures client { Stays pool.now client result.0 }
    ensures first { Stays pool.now first result.1.0 }
    ensures second { Stays pool.now second result.1.1 }
{
    thread::join(
        rt,
        move || -> Seat<B>
            requires player { IsPlayer pool.now client }
            requires told { IsSeatOf pool.now told × (number_of told ≡ 0) }
            ensures { Stays pool.entry.now client result }
        { await_second(rt, pool, client, told) },
        move || -> (Seat<B>, Seat<B>)
            requires first { IsPlayer pool.now first }
            requires second { IsPlayer pool.now second }
            ensures first { Stays pool.entry.now first result.0 }
            ensures second { Stays pool.entry.now second result.1 }
        { work(rt, pool, first, second, desk) },
    )
}

/// All actors at the same time: their seats, and how many requests were served before the desk was freed.
fn run_all<B: Recorded + Send, Rt: Threads + Wait + Sync>(
    rt: &Rt,
    pool: &SharedPool<B>,
    actors: Actors<B>,
    notices: NoticeList,
) -> (Actors<B>, Option<u32>)
    requires players { ArePlayers pool.now actors }
    requires room { (setup_at pool.now).limits.objects ≤ notices.spare }
    ensures players { ArePlayers pool.now result.0 }
    ensures stay { AllStay pool.now actors result.0 }
{
    let Actors {
        mut server,
        client,
        first,
        second,
    } = actors;
    let desk = Mutex::new(Some(Desk { served: 0 }));
    let desk = &desk;
    open_server(pool, &mut server);
    let told = pool.split(&mut server);
    let ((server, served), (client, (first, second))) = thread::join(
        rt,
        move || -> (Seat<B>, Option<u32>)
            requires player { IsPlayer pool.now server }
            requires room { (setup_at pool.now).limits.objects ≤ notices.spare }
            ensures { Stays pool.entry.now server result.0 }
        { shut_down(rt, pool, server, desk, notices) },
        move || -> (Seat<B>, (Seat<B>, Seat<B>))
            requires client { IsPlayer pool.now client }
            requires told { IsSeatOf pool.now told × (number_of told ≡ 0) }
            requires first { IsPlayer pool.now first }
            requires second { IsPlayer pool.now second }
            ensures client { Stays pool.entry.now client result.0 }
            ensures first { Stays pool.entry.now first result.1.0 }
            ensures second { Stays pool.entry.now second result.1.1 }
        { run_others(rt, pool, client, told, first, second, desk) },
    );
    let actors = Actors {
        server,
        client,
        first,
        second,
    };
    (actors, served)
}

/// Plays the shutdown on a new machine: the machine with its history, and how many requests were served
/// before the desk was freed.
pub fn play<B: Recorded + Send, Rt: Threads + Wait + Sync>(
    rt: &Rt,
    alloc: Global,
) -> Result<(B, Option<u32>), AllocError> {
    let limits = program_limits(2, 2);
    let notices = NoticeList::open(alloc, limits.objects)?;
    let Ok((pool, seats)) = SharedPool::<B>::open(alloc, limits, EVENTS) else {
        return Err(AllocError);
    };
    // There is one of each actor.
    let Some(actors) = deal(&pool, seats) else {
        return Err(AllocError);
    };
    let (actors, served) = run_all(rt, &pool, actors, notices);
    let seats = gather(alloc, actors)?;
    Ok((pool.close(seats), served))
}
