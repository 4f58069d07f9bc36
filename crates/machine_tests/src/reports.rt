//! What is told of histories that were made on the machine.

use crate::expect::{expect_eq, expect_ok};
use pool_book::Book;
use recorded::{Recorded, program_limits};
use std::alloc::Global;
use std::process::Abort;
use tp_lines::calls::read_call_line;
use tp_report::{Counted, Verdict, Written, check, into_history, print_json, print_summary};

/// A client waits for one callback of a work object that another client made.
const ONE_WAIT: [&[u8]; 9] = [
    b"c1 create work r1 x0 p0 normal short g0 q0",
    b"c1 finish",
    b"c2 submit 1",
    b"w1 attach",
    b"c2 wait work 1 keep",
    b"w1 take",
    b"w1 return",
    b"c2 end",
    b"c2 finish",
];

/// Of the I/O object's callbacks one is given up, one completes and is taken, one is under way and one is
/// announced. A work callback and a simple one wait for a worker. Two calls are refused, and one is a look.
const SOME_LEFT: [&[u8]; 18] = [
    b"c1 create io r1 x0 p0 normal short g0 q0",
    b"c1 create work r1 x0 p0 normal short g0 q0",
    b"c1 start-io 1",
    b"c1 start-io 1",
    b"c1 cancel-io 1",
    b"c1 issue-io 1",
    b"c1 complete-io 2 0 512",
    b"c1 start-io 1",
    b"c1 issue-io 1",
    b"c1 submit 2",
    b"c1 submit-simple r1 x0 p0 normal short g0 q0",
    b"c1 start-io 1",
    b"c1 submit 1",
    b"w1 attach",
    b"w1 take",
    b"w2 take",
    b"c1 wait work 2 keep",
    b"c1 end",
];

/// The worker that took a persistent callback of the default pool never leaves it. Another pool has a callback pending.
const ONE_STAYS: [&[u8]; 11] = [
    b"c1 create-pool",
    b"c1 create work r1 x0 p0 normal persistent g0 q0",
    b"c1 create work r2 x0 p1 normal short g0 q0",
    b"c1 submit 1",
    b"w1 attach",
    b"w1 take",
    b"w1 return",
    b"c1 submit 2",
    b"w1 detach",
    b"c1 finish",
    b"c2 finish",
];

// A machine on which these calls were made.
fn played<B: Recorded>(rt: &impl Abort, alloc: Global, workers: u32, lines: &[&[u8]]) -> B {
    assert!(rt; workers == 1 || workers == 2);
    let limits = program_limits(2, workers);
    let mut book = expect_ok(rt, B::open(alloc, limits, 65_536));
    for line in lines {
        make_call(rt, &mut book, line);
    }
    book
}

fn make_call<B: Recorded>(rt: &impl Abort, book: &mut B, line: &[u8]) {
    let ((who, call), _) = expect_ok(rt, read_call_line(line));
    assert!(rt; call.in_range());
    book.step(who, call);
}

fn expect_text(rt: &impl Abort, told: &[u8], wanted: &str) {
    assert!(rt; told == wanted.as_bytes());
}

/// The history is told entry by entry, and `check` reads it back.
#[test]
fn a_history_is_told(rt: HostRuntime) {
    let alloc = rt.alloc();
    let book = played::<Written<Book>>(&rt, alloc, 1, &ONE_WAIT);
    let (book, text) = expect_ok(&rt, into_history(alloc, book));
    expect_text(
        &rt,
        &text,
        "history 2 clients 2 workers 1 events 65536 objects 65535
0 c1 create work r1 x0 p0 normal short g0 q0 -> made 1
0 c1 finish -> ok
0 c2 submit 1 -> queued 1 1
0 w1 attach -> attached 0
0 c2 wait work 1 keep -> begun 1 0
0 w1 take -> taken 1 o1 r1 x0 plain
0 w1 return -> returned - - - - 0 0
0 c2 end -> ended
0 c2 finish -> ok
end 9
",
    );
    let verdict = expect_ok(&rt, check::<Book>(alloc, &text));
    assert!(rt; matches!(verdict, Verdict::Legal { len: 9 }));
    drop(book);
}

/// What is told stands behind what was there before.
#[test]
fn a_summary_is_told(rt: HostRuntime) {
    let alloc = rt.alloc();
    let book = played::<Counted<Book>>(&rt, alloc, 1, &ONE_WAIT);
    let mut text = expect_ok(&rt, Vec::from_slice(alloc, b"end 9\n"));
    expect_ok(&rt, print_summary(alloc, &book, &mut text));
    expect_ok(&rt, print_json(alloc, &book, &mut text));
    expect_text(
        &rt,
        &text,
        "end 9
entries 9
callbacks 1
taken 1
cancelled 0
left 0
refused 0
{\"callbacks\":1,\"cancelled\":0,\"entries\":9,\"left\":0,\"left_callbacks\":[],\"refused\":0,\"taken\":1}
",
    );
    drop(book);
}

/// Each callback that may still run is told, with how far it has come.
#[test]
fn callbacks_that_are_left_are_told(rt: HostRuntime) {
    let alloc = rt.alloc();
    let book = played::<Counted<Book>>(&rt, alloc, 2, &SOME_LEFT);
    let mut text = Vec::new(alloc);
    expect_ok(&rt, print_summary(alloc, &book, &mut text));
    expect_ok(&rt, print_json(alloc, &book, &mut text));
    expect_text(
        &rt,
        &text,
        "entries 17
callbacks 6
taken 1
cancelled 1
left 4
left-callback 3 o1 issued
left-callback 4 o2 pending
left-callback 5 o0 pending
left-callback 6 o1 expected
refused 2
{\"callbacks\":6,\"cancelled\":1,\"entries\":17,\"left\":4,\"left_callbacks\":[3,4,5,6],\"refused\":2,\"taken\":1}
",
    );
    drop(book);
}

/// A callback is left where nobody is free for it. Beside a second worker all isn't over.
#[test]
fn a_persistent_worker_serves_no_other_pool(rt: HostRuntime) {
    let alloc = rt.alloc();
    let two = played::<Book>(&rt, alloc, 2, &ONE_STAYS);
    expect_eq(&rt, two.is_over(), false);
    let book = played::<Counted<Book>>(&rt, alloc, 1, &ONE_STAYS);
    expect_eq(&rt, book.is_over(), true);
    let mut text = Vec::new(alloc);
    expect_ok(&rt, print_summary(alloc, &book, &mut text));
    expect_text(
        &rt,
        &text,
        "entries 10
callbacks 2
taken 1
cancelled 0
left 1
left-callback 2 o2 pending
refused 0
",
    );
    drop(two);
    drop(book);
}
