//! How many calls a second several threads make.

ghost use Rattle.std.specs.Prelude.{◌≡◌, ◌≤◌};
ghost use Rattle.shared_pool.specs.Pools.{IsPlayer};

use crate::shutdown::{REQUESTS, retry};
use callback_env::CallbackEnviron;
use pool_book::Book;
use recorded::{Recorded, program_limits};
use shared_pool::SharedPool;
use std::alloc::{AllocError, Global};
use std::sync::Wait;
use std::thread::Threads;
use std::time::Instant;
use std::{io, thread};
use tp_base::calls::Kind;
use tp_base::ids::RoutineId;
use turn_lock::Seat;

// Room for as many entries as there are calls.
const CAPACITY: u32 = 4_000_000_000;

/// Submits a request and calls it off, so many times: three calls each time. It makes a work object first, so
/// that there is one; all requests are for the first of them.
fn call_off<B: Recorded, Rt: Wait>(rt: &Rt, pool: &SharedPool<B>, seat: Seat<B>, times: u32)
    requires { IsPlayer pool.now seat }
{
    let mut seat = seat;
    let env = CallbackEnviron::initialize().plain();
    retry(rt, pool, &mut seat, |seat| {
        pool.create_work(seat, RoutineId(1), 0, env)
    });
    for _ in 0..times {
        retry(rt, pool, &mut seat, |seat| {
            pool.submit_work(seat, REQUESTS)
        });
        pool.wait_callbacks(rt, &mut seat, Kind::Work, REQUESTS, true);
    }
}

/// So many threads do that on one pool, each by the seat of a client.
fn share<B: Recorded + Send, Rt: Threads + Wait + Sync>(
    rt: &Rt,
    alloc: Global,
    threads: u32,
    times: u32,
) -> Result<(), AllocError>
    requires { threads ≤ 16 }
{
    // There is room for each client.
    let Ok((pool, mut seats)) = SharedPool::<B>::open(alloc, program_limits(threads, 1), CAPACITY)
    else {
        return Err(AllocError);
    };
    // The last seat is the worker's.
    seats.pop();
    let pool = &pool;
    thread::map_vec(
        rt,
        seats,
        &|seat: Seat<B>|
            requires { IsPlayer pool.now seat }
        { call_off(rt, pool, seat, times) },
    )?;
    Ok(())
}

/// How many calls a second that is, of so many requests that took this time.
fn rate(requests: u64, micros: u128) -> u128 {
    u128::from(requests) * 3_000_000 / micros.max(1)
}

/// Measures that with so many threads, and prints the line. Opening the machine and starting the threads is
/// in the time. `rt` may start threads and wait.
pub fn measure<Rt: Threads + Wait + Sync>(
    host: &HostRuntime,
    rt: &Rt,
    threads: u32,
    times: u32,
) -> io::Result<()>
    requires { threads ≤ 16 }
{
    let requests = u64::from(threads) * u64::from(times);
    let start = Instant::now(host)?;
    share::<Book, _>(rt, host.alloc(), threads, times)?;
    let rate = rate(requests, start.elapsed(host)?.as_micros());
    println!(host; "{threads} threads: {rate} calls a second")
}
