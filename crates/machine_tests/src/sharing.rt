//! A pool that several threads share.

ghost use Rattle.std.specs.Prelude.{◌≡◌, ◌≤◌, ◌∷◌, All};
ghost use Rattle.shared_pool.specs.Pools.{setup_at, HaveAll, IsPlayer, IsSeatOf};
ghost use Rattle.tp_base.specs.Ranges.{IsEnvironInRange};
ghost use Rattle.turn_lock.specs.Seats.{number_of};

use crate::expect::{expect_eq, expect_ok};
use pool_book::Book;
use recorded::{Recorded, program_limits};
use shared_pool::{NoticeList, Notices, Over, SharedPool, Told, Tried};
use std::alloc::Global;
use std::process::Abort;
use std::snapshot::Snapshot;
use std::sync::Wait;
use std::thread;
use std::thread::{Promise, Threads};
use tp_base::answers::{Answer, Outcome, Refusal, SlotWord};
use tp_base::calls::{Call, Environ, Lock, Priority};
use tp_base::ids::{GroupId, KernelId, ObjectId, PoolId, RoutineId};
use turn_lock::Seat;

// How many calls each thread makes.
const CALLS: u32 = 200;

// What a thread hands back.
#[derive(Drop)]
struct Made<B: Recorded> {
    seat: Seat<B>,
    // The numbers of the groups that it made.
    groups: Vec<u32>,
    // How many of its calls were refused, since there were as many groups as the limits allow.
    refused: u32,
}

// That the seat which a thread hands back is the one of this pool that it was given.
#[derive(Drop)]
struct GivesBack<B: Recorded> {
    pool: Snapshot<SharedPool<B>>,
    seat: Snapshot<Seat<B>>,
}

impl<B: Recorded> Promise<Made<B>> for GivesBack<B> {
    ghost kept_by = { λ promise made. IsPlayer promise.pool.value made.seat × (number_of made.seat ≡ number_of promise.seat.value) };
}

// That the seat which a thread hands back is one of this pool that stands for nobody.
#[derive(Drop)]
struct GivesCopy<B: Recorded> {
    pool: Snapshot<SharedPool<B>>,
}

impl<B: Recorded> Promise<Seat<B>> for GivesCopy<B> {
    ghost kept_by = { λ promise seat. IsSeatOf promise.pool.value seat × (number_of seat ≡ 0) };
}

// Makes a group: its number, or `None` where there are as many as the limits allow.
fn make_group<B: Recorded, Rt: Abort + Wait>(
    rt: &Rt,
    pool: &SharedPool<B>,
    seat: &mut Seat<B>,
) -> Option<u32>
    requires { IsPlayer pool.now seat.old }
    ensures player { IsPlayer pool.now seat.new }
    ensures same { number_of seat.new ≡ number_of seat.old }
{
    match pool.call(rt, seat, Call::CreateGroup) {
        Outcome::Done(Answer::Made { number }) => Some(number),
        Outcome::Done(Answer::Refused(Refusal::ObjectLimit)) => None,
        _ => panic!(rt; "neither made nor refused"),
    }
}

// Makes groups, call after call.
fn make_groups<B: Recorded, Rt: Abort + Wait>(
    rt: &Rt,
    alloc: Global,
    pool: &SharedPool<B>,
    seat: Seat<B>,
) -> Made<B>
    requires { IsPlayer pool.now seat }
    ensures player { IsPlayer pool.now result.seat }
    ensures same { number_of result.seat ≡ number_of seat }
{
    let mut seat = seat;
    let mut groups = Vec::new(alloc);
    let mut refused = 0u32;
    for _ in 0..CALLS {
        match make_group(rt, pool, &mut seat) {
            Some(number) => expect_ok(rt, groups.push(number)),
            None => refused = refused.saturating_add(1),
        }
    }
    Made {
        seat,
        groups,
        refused,
    }
}

// Two threads of a scope make groups at the same time.
fn make_in_two<B: Recorded + Send, Rt: Abort + Threads + Wait + Sync>(
    rt: &Rt,
    alloc: Global,
    pool: &SharedPool<B>,
    first: Seat<B>,
    second: Seat<B>,
) -> (Made<B>, Made<B>)
    requires first { IsPlayer pool.now first }
    requires second { IsPlayer pool.now second }
    ensures first { IsPlayer pool.now result.0.seat × (number_of result.0.seat ≡ number_of first) }
    ensures second { IsPlayer pool.now result.1.seat × (number_of result.1.seat ≡ number_of second) }
{
    thread::scope(
        thread::scope_env(),
        rt,
        move |scope| -> (Made<B>, Made<B>)
            requires first { IsPlayer pool.now first }
            requires second { IsPlayer pool.now second }
            ensures first { IsPlayer pool.entry.now result.0.seat × (number_of result.0.seat ≡ number_of first) }
            ensures second { IsPlayer pool.entry.now result.1.seat × (number_of result.1.seat ≡ number_of second) }
        {
            let back = GivesBack {
                pool: Snapshot::of(pool),
                seat: Snapshot::of(&first),
            };
            let one = expect_ok(
                rt,
                scope.spawn_with(back, move || make_groups(rt, alloc, pool, first)),
            );
            let back = GivesBack {
                pool: Snapshot::of(pool),
                seat: Snapshot::of(&second),
            };
            let two = expect_ok(
                rt,
                scope.spawn_with(back, move || make_groups(rt, alloc, pool, second)),
            );
            (one.join(rt), two.join(rt))
        },
    )
}

// The seats of the first two clients.
fn take_two<B: Recorded>(
    rt: &impl Abort,
    pool: &SharedPool<B>,
    seats: &mut Vec<Seat<B>>,
) -> (Seat<B>, Seat<B>)
    requires { All (IsPlayer pool.now) seats.old.items }
    ensures first { IsPlayer pool.now result.0 }
    ensures second { IsPlayer pool.now result.1 }
    ensures others { All (IsPlayer pool.now) seats.new.items }
    ensures parts { seats.old.items ≡ result.0 ∷ result.1 ∷ seats.new.items }
{
    assert!(rt; 2 <= seats.len());
    let first = seats.remove(0);
    let second = seats.remove(0);
    (first, second)
}

// Closes the pool by these two seats and the others, and answers how many entries the history has.
fn close<B: Recorded>(
    rt: &impl Abort,
    pool: SharedPool<B>,
    first: Seat<B>,
    second: Seat<B>,
    others: Vec<Seat<B>>,
) -> u32
    requires first { IsPlayer pool first }
    requires second { IsPlayer pool second }
    requires others { All (IsPlayer pool) others.items }
    requires all { HaveAll pool (first ∷ second ∷ others.items) }
{
    let mut seats = others;
    expect_ok(rt, seats.insert(0, second));
    expect_ok(rt, seats.insert(0, first));
    let book = pool.close(seats);
    let entries = book.len();
    drop(book);
    entries
}

// What the calls of two clients in threads of their own come to: the numbers of the groups that were made, in rising
// order, how many calls were refused, and how many entries the history has.
fn meet<B: Recorded + Send, Rt: Abort + Threads + Wait + Sync>(
    rt: &Rt,
    alloc: Global,
) -> (Vec<u32>, u32, u32) {
    let opened = SharedPool::<B>::open(alloc, program_limits(16, 4), 65_536);
    let (pool, mut seats) = expect_ok(rt, opened);
    let (first, second) = take_two(rt, &pool, &mut seats);
    let (one, two) = make_in_two(rt, alloc, &pool, first, second);
    let Made {
        seat: first,
        groups: mut made,
        refused,
    } = one;
    let Made {
        seat: second,
        groups,
        refused: more,
    } = two;
    for number in groups {
        expect_ok(rt, made.push(number));
    }
    made.sort_unstable();
    let entries = close(rt, pool, first, second, seats);
    (made, refused.saturating_add(more), entries)
}

/// Two threads of a scope make 200 groups each. Their 400 calls are 400 entries of one history: each number that there
/// can be is given once, and the other calls are refused.
#[test]
fn two_seats_meet(rt: HostRuntime) {
    let (made, refused, entries) = meet::<Book, _>(&rt, rt.alloc());
    let all: Vec<u32> = expect_ok(&rt, (1..256).collect(rt.alloc()));
    expect_eq(&rt, (refused, entries), (145, 400));
    expect_eq(&rt, made, all);
}

// Makes a group, and splits off a seat that has seen it.
fn make_and_tell<B: Recorded, Rt: Wait>(rt: &Rt, pool: &SharedPool<B>, seat: Seat<B>) -> Seat<B>
    requires { IsPlayer pool.now seat }
    ensures { IsSeatOf pool.now result × (number_of result ≡ 0) }
{
    let mut seat = seat;
    pool.call(rt, &mut seat, Call::CreateGroup);
    pool.split(&mut seat)
}

// The same in a thread of a scope.
fn tell_from_thread<B: Recorded + Send, Rt: Abort + Threads + Wait + Sync>(
    rt: &Rt,
    pool: &SharedPool<B>,
    seat: Seat<B>,
) -> Seat<B>
    requires { IsPlayer pool.now seat }
    ensures { IsSeatOf pool.now result × (number_of result ≡ 0) }
{
    thread::scope(
        thread::scope_env(),
        rt,
        move |scope| -> Seat<B>
            requires { IsPlayer pool.now seat }
            ensures { IsSeatOf pool.entry.now result × (number_of result ≡ 0) }
        {
            let back = GivesCopy {
                pool: Snapshot::of(pool),
            };
            let told = scope.spawn_with(back, move || make_and_tell(rt, pool, seat));
            expect_ok(rt, told).join(rt)
        },
    )
}

// Takes in what another seat has seen: the length of the history, whether group 1 can be closed, and
// whether all is over then.
fn read_back<B: Recorded>(pool: &SharedPool<B>, seat: Seat<B>, told: Seat<B>) -> (u64, bool, bool)
    requires player { IsPlayer pool.now seat }
    requires told { IsSeatOf pool.now told × (number_of told ≡ 0) }
{
    let mut seat = seat;
    pool.join(&mut seat, told);
    let front = pool.front(&mut seat);
    let closed = pool.close_group(&mut seat, GroupId(1));
    let over = pool.try_over(&mut seat);
    (
        front,
        matches!(closed, Tried::Done(Answer::Done)),
        matches!(over, Over::Yes),
    )
}

// What a client in a thread of its own makes, as another client finds it.
fn tell_and_read<B: Recorded + Send, Rt: Abort + Threads + Wait + Sync>(
    rt: &Rt,
    alloc: Global,
) -> (u64, bool, bool) {
    let opened = SharedPool::<B>::open(alloc, program_limits(2, 4), 65_536);
    let (pool, mut seats) = expect_ok(rt, opened);
    let (first, second) = take_two(rt, &pool, &mut seats);
    let told = tell_from_thread(rt, &pool, first);
    let read = read_back(&pool, second, told);
    drop(seats);
    drop(pool);
    read
}

/// What a client has made in another thread is there for a client that was told of it.
#[test]
fn reads_back(rt: HostRuntime) {
    let read = tell_and_read::<Book, _>(&rt, rt.alloc());
    expect_eq(&rt, read, (1, true, false));
}

// Makes group 1 and two work objects in it, with contexts 5 and 6 and cancel routine 9, and closes the
// group's members with context 7: whether the close has ended freely.
fn close_two<B: Recorded, Rt: Wait>(
    rt: &Rt,
    pool: &SharedPool<B>,
    seat: Seat<B>,
    notices: &mut NoticeList,
) -> bool
    requires player { IsPlayer pool.now seat }
    requires room { (setup_at pool.now).limits.objects ≤ notices.old.spare }
{
    let mut seat = seat;
    let env = Environ {
        pool: PoolId(0),
        group: GroupId(1),
        cancel: RoutineId(9),
        priority: Priority::Normal,
        long: false,
        persistent: false,
    };
    pool.create_group(&mut seat);
    pool.create_work(&mut seat, RoutineId(1), 5, env);
    pool.create_work(&mut seat, RoutineId(1), 6, env);
    let closed = pool.close_members(rt, &mut seat, GroupId(1), true, 7, notices);
    matches!(closed, Outcome::Done(Answer::Ended))
}

// What is told of an object that `close_two` makes.
fn told_of(object: u32, context: u64) -> Option<Told> {
    Some(Told {
        object: ObjectId(object),
        routine: RoutineId(9),
        context,
        cleanup: 7,
    })
}

/// A close of a group's members tells of each member that has a cancel routine, in order, and once.
#[test]
fn notices_told(rt: HostRuntime) {
    let limits = program_limits(1, 1);
    let mut notices = expect_ok(&rt, NoticeList::open(rt.alloc(), limits.objects));
    let (pool, mut seats) = expect_ok(&rt, SharedPool::<Book>::open(rt.alloc(), limits, 64));
    let (client, worker) = take_two(&rt, &pool, &mut seats);
    expect_eq(&rt, close_two(&rt, &pool, client, &mut notices), true);
    expect_eq(&rt, notices.get(0), told_of(1, 5));
    expect_eq(&rt, notices.get(1), told_of(2, 6));
    expect_eq(&rt, notices.get(2), None);
    expect_eq(&rt, notices.spare(), 65_533);
    drop(worker);
    drop(seats);
    drop(pool);
}

// The answer that a call is expected to have.
fn expect_answer(rt: &impl Abort, tried: Tried, wanted: Answer) {
    assert!(rt; matches!(tried, Tried::Done(answer) if answer == wanted));
}

// A timer and a wait object, from first to last.
fn try_timer_and_wait<B: Recorded>(
    rt: &impl Abort,
    pool: &SharedPool<B>,
    seat: &mut Seat<B>,
    env: Environ,
)
    requires player { IsPlayer pool.now seat.old }
    requires env { IsEnvironInRange env }
    ensures { IsPlayer pool.now seat.new }
{
    let (routine, was, first, count) = (RoutineId(1), false, 0, 0);
    let freed = Answer::Closed { later: false };
    let made = pool.create_timer(seat, routine, 0, env);
    expect_answer(rt, made, Answer::Made { number: 1 });
    let set = pool.set_timer_ex(seat, ObjectId(1), Some(5), 0, 0);
    expect_answer(rt, set, Answer::WasSet { was, first, count });
    let set = pool.is_timer_set(seat, ObjectId(1));
    expect_answer(rt, set, Answer::Flag { value: true });
    expect_answer(rt, pool.close_timer(seat, ObjectId(1)), freed);
    let made = pool.create_wait(seat, routine, 0, env);
    expect_answer(rt, made, Answer::Made { number: 2 });
    let set = pool.set_wait(seat, ObjectId(2), None, None);
    expect_answer(rt, set, Answer::Queued { first, count });
    expect_answer(rt, pool.close_wait(seat, ObjectId(2)), freed);
}

// Two operations of an I/O object, 3: the first completes, and the other is cancelled.
fn try_completions<B: Recorded>(rt: &impl Abort, pool: &SharedPool<B>, seat: &mut Seat<B>)
    requires { IsPlayer pool.now seat.old }
    ensures { IsPlayer pool.now seat.new }
{
    let object = ObjectId(3);
    pool.start_io(seat, object);
    pool.start_io(seat, object);
    pool.try_call(seat, Call::IssueIo { object });
    pool.try_call(seat, Call::IssueIo { object });
    let completed = pool.complete_next(seat, object, 0, 512);
    expect_answer(rt, completed, Answer::Queued { first: 2, count: 1 });
    let cancelled = pool.cancel_io_ex(seat, object);
    expect_answer(rt, cancelled, Answer::Queued { first: 3, count: 1 });
}

// An I/O object and a work object.
fn try_io_and_work<B: Recorded>(
    rt: &impl Abort,
    pool: &SharedPool<B>,
    seat: &mut Seat<B>,
    env: Environ,
)
    requires player { IsPlayer pool.now seat.old }
    requires env { IsEnvironInRange env }
    ensures { IsPlayer pool.now seat.new }
{
    let freed = Answer::Closed { later: false };
    let made = pool.create_io(seat, RoutineId(1), 0, env);
    expect_answer(rt, made, Answer::Made { number: 3 });
    let started = pool.start_io(seat, ObjectId(3));
    expect_answer(rt, started, Answer::Started { callback: 1 });
    let cancelled = pool.cancel_io(seat, ObjectId(3));
    expect_answer(rt, cancelled, Answer::Cancelled { callback: 1 });
    try_completions(rt, pool, seat);
    let closed = pool.close_io(seat, ObjectId(3));
    expect_answer(rt, closed, Answer::Closed { later: true });
    let made = pool.create_work(seat, RoutineId(1), 0, env);
    expect_answer(rt, made, Answer::Made { number: 4 });
    expect_answer(rt, pool.close_work(seat, ObjectId(4)), freed);
}

// An event, a semaphore and a mutex, which are kernel objects 1 to 3, and a section, which is 4.
fn try_kernels<B: Recorded>(rt: &impl Abort, pool: &SharedPool<B>, seat: &mut Seat<B>)
    requires { IsPlayer pool.now seat.old }
    ensures { IsPlayer pool.now seat.new }
{
    let (first, count) = (0, 0);
    let (manual, signalled) = (true, false);
    pool.try_call(seat, Call::CreateEvent { manual, signalled });
    expect_answer(
        rt,
        pool.set_event(seat, KernelId(1)),
        Answer::Queued { first, count },
    );
    let polled = pool.try_acquire(seat, KernelId(1));
    expect_answer(rt, polled, Answer::Flag { value: true });
    expect_answer(rt, pool.reset_event(seat, KernelId(1)), Answer::Done);
    let (initial, maximum, previous) = (2, 5, 2);
    pool.try_call(seat, Call::CreateSemaphore { initial, maximum });
    let released = pool.release_semaphore(seat, KernelId(2), 1);
    expect_answer(
        rt,
        released,
        Answer::Count {
            previous,
            first,
            count,
        },
    );
    let (lock, owned) = (Lock::Mutex, true);
    pool.try_call(seat, Call::CreateLock { lock, owned });
    let (lock, owned) = (Lock::Section, false);
    pool.try_call(seat, Call::CreateLock { lock, owned });
    expect_answer(
        rt,
        pool.release_lock(seat, Lock::Mutex, KernelId(3)),
        Answer::Done,
    );
}

// A worker's callback, which leaves three actions to its return.
fn try_callback<B: Recorded>(rt: &impl Abort, pool: &SharedPool<B>, seat: &mut Seat<B>)
    requires { IsPlayer pool.now seat.old }
    ensures { IsPlayer pool.now seat.new }
{
    pool.try_call(seat, Call::Attach);
    pool.try_call(seat, Call::Take);
    expect_answer(rt, pool.may_run_long(seat), Answer::Flag { value: false });
    expect_answer(
        rt,
        pool.leave_section_on_return(seat, KernelId(4), 1),
        Answer::Done,
    );
    expect_answer(
        rt,
        pool.release_mutex_on_return(seat, KernelId(3), 1),
        Answer::Done,
    );
    expect_answer(
        rt,
        pool.release_semaphore_on_return(seat, KernelId(2), 2),
        Answer::Done,
    );
    let returned = Answer::Returned {
        section: SlotWord::NotOwner,
        mutex: SlotWord::NotOwner,
        semaphore: SlotWord::Performed,
        event: SlotWord::Unasked,
        first: 0,
        count: 0,
    };
    expect_answer(rt, pool.try_call(seat, Call::Return), returned);
}

// What a client and a worker call by name, on a pool of which nothing has been asked.
fn try_by_name<B: Recorded>(rt: &impl Abort, pool: &SharedPool<B>, client: Seat<B>, worker: Seat<B>)
    requires client { IsPlayer pool.now client }
    requires worker { IsPlayer pool.now worker }
{
    let (mut client, mut worker) = (client, worker);
    let env = Environ {
        pool: PoolId(1),
        group: GroupId(0),
        cancel: RoutineId(0),
        priority: Priority::Normal,
        long: false,
        persistent: false,
    };
    expect_answer(
        rt,
        pool.create_pool(&mut client),
        Answer::Made { number: 1 },
    );
    expect_answer(
        rt,
        pool.set_minimum(&mut client, PoolId(1), 1),
        Answer::Done,
    );
    try_timer_and_wait(rt, pool, &mut client, env);
    try_io_and_work(rt, pool, &mut client, env);
    try_kernels(rt, pool, &mut client);
    let submitted = pool.submit_simple(&mut client, RoutineId(1), 0, env);
    expect_answer(rt, submitted, Answer::Queued { first: 4, count: 1 });
    try_callback(rt, pool, &mut worker);
}

/// The calls by the names of the Win32 functions that no program makes.
#[test]
fn calls_by_name(rt: HostRuntime) {
    let opened = SharedPool::<Book>::open(rt.alloc(), program_limits(1, 1), 64);
    let (pool, mut seats) = expect_ok(&rt, opened);
    let (client, worker) = take_two(&rt, &pool, &mut seats);
    try_by_name(&rt, &pool, client, worker);
    drop(seats);
    drop(pool);
}
