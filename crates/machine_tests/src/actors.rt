//! Callbacks of a script that run at once.

use crate::expect::{expect_eq, expect_ok};
use crate::program::run_program;
use std::alloc::Global;
use std::process::Abort;
use std::sync::Wait;
use std::sync::atomic::{AtomicBool, AtomicU32, Ordering};
use std::thread::Threads;
use tp_run::Status;
use worker_gate::Gate;

const EIGHT_CALLBACKS: &str = "work w r
routine r
done
client
submit w
submit w
submit w
submit w
submit w
submit w
submit w
submit w
done
";

const CALLBACKS: u32 = 8;

// So many are taken by one worker before the other one goes on.
const MOST: u32 = 6;

// So often the first callback looks whether they are taken. That is long enough for another thread to come, and ends the
// test soon where there is none.
const MOST_LOOKS: u32 = 20_000_000;

// Holds the first worker that it is told until the other one has taken most of the callbacks, but not for ever.
#[derive(Drop)]
struct Meeting {
    told: AtomicU32,
    // The worker of each callback, by its number; 0 for none.
    workers: Vec<AtomicU32>,
    // The worker that was told first, and how many callbacks came to the other.
    first: AtomicU32,
    of_other: AtomicU32,
    met: AtomicBool,
}

impl Meeting {
    fn new(rt: &impl Abort, alloc: Global) -> Meeting {
        let mut workers = Vec::new(alloc);
        for _ in 0..CALLBACKS + 1 {
            expect_ok(rt, workers.push(AtomicU32::new(0)));
        }
        Meeting {
            told: AtomicU32::new(0),
            workers,
            first: AtomicU32::new(0),
            of_other: AtomicU32::new(0),
            met: AtomicBool::new(false),
        }
    }

    fn note(&self, worker: u32, callback: u64) {
        self.told.fetch_add(1, Ordering::SeqCst);
        if let Some(place) = self.workers.get(callback as usize) {
            place.store(worker, Ordering::SeqCst);
        }
    }

    // Whether a worker is the first that is told.
    fn is_first(&self, worker: u32) -> bool {
        let first = self
            .first
            .compare_exchange(0, worker, Ordering::SeqCst, Ordering::SeqCst);
        match first {
            Ok(_) => true,
            Err(first) => {
                if first != worker {
                    self.of_other.fetch_add(1, Ordering::SeqCst);
                }
                false
            }
        }
    }

    fn worker_of(&self, callback: u32) -> u32 {
        match self.workers.get(callback as usize) {
            Some(place) => place.load(Ordering::SeqCst),
            None => 0,
        }
    }
}

impl Gate for Meeting {
    fn before(&self, worker: u32, callback: u64) {
        self.note(worker, callback);
        if !self.is_first(worker) {
            return;
        }
        for _ in 0..MOST_LOOKS {
            if self.of_other.load(Ordering::SeqCst) >= MOST {
                self.met.store(true, Ordering::SeqCst);
                return;
            }
        }
    }
}

// The history that was written has a take of each callback, by the worker of which the gate was told, and no other; and the
// gate was told of each once.
fn expect_takes(rt: &impl Abort, alloc: Global, gate: &Meeting, written: &str) {
    let takes = written.lines().filter(|line| line.contains(" -> taken "));
    expect_eq(rt, takes.count(), CALLBACKS as usize);
    expect_eq(rt, gate.told.load(Ordering::SeqCst), CALLBACKS);
    for callback in 1..CALLBACKS + 1 {
        expect_take(rt, alloc, gate.worker_of(callback), callback, written);
    }
}

fn expect_take(rt: &impl Abort, alloc: Global, worker: u32, callback: u32, written: &str) {
    let take = expect_ok(rt, format!(in alloc; "w{worker} take -> taken {callback} "));
    expect_eq(rt, written.contains(take.as_str()), true);
}

// Whether one worker took most of the callbacks while the other one ran one.
fn workers_meet(rt: &(impl Abort + Threads + Wait + Sync), alloc: Global) -> bool {
    let gate = Meeting::new(rt, alloc);
    let line = "run --threads 4 --workers 2";
    let (status, written) = run_program(rt, alloc, line, EIGHT_CALLBACKS, &gate);
    expect_eq(rt, status, Status::Fine);
    expect_takes(rt, alloc, &gate, expect_ok(rt, str::from_utf8(&written)));
    gate.met.load(Ordering::SeqCst)
}

/// The program really plays on several threads, and what it writes is what these made: the gate is told of each callback once,
/// and the history has its take by the worker that was told. Where a worker is held while the other one takes most of the
/// callbacks, no run of one thread has these takes: there the two take them in turns. One run may miss that they meet: a
/// thread that finds nothing to do for a while leaves its actors to be played at the end.
#[test]
fn gate_two_callbacks(rt: HostRuntime) {
    let mut met = false;
    for _ in 0..10 {
        met = workers_meet(&rt, rt.alloc()) || met;
    }
    expect_eq(&rt, met, true);
}
