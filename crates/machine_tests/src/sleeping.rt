//! Sleeps on the machine.

use crate::expect::{expect_eq, expect_ok};
use pool_book::Book;
use recorded::{Recorded, program_limits};
use tp_base::calls::{Call, Environ, Kind, Priority};
use tp_base::ids::{GroupId, ObjectId, PoolId, RoutineId, Who};
use tp_coalesce::{Slept, sleep};

const ENVIRON: Environ = Environ {
    pool: PoolId(0),
    group: GroupId(0),
    cancel: RoutineId(0),
    priority: Priority::Normal,
    long: false,
    persistent: false,
};

/// Two timers of which the windows overlap expire at one wake-up, and none else is made but that at the target.
#[test]
fn timers_expire_together(rt: HostRuntime) {
    let client = Who::Client(1);
    let opened = Book::try_open(rt.alloc(), program_limits(1, 2), 20);
    let mut book = expect_ok(&rt, opened);
    for (number, due, window) in [(1, -10_000, 3), (2, -30_000, 5)] {
        let create = Call::Create {
            kind: Kind::Timer,
            routine: RoutineId(1),
            context: 0,
            env: ENVIRON,
        };
        book.step(client, create);
        let set = Call::SetTimer {
            object: ObjectId(number),
            due: Some(due),
            period: 0,
            window,
        };
        book.step(client, set);
    }
    expect_eq(&rt, book.next_deadline(), Some(40_000));
    let (now, wakes) = match sleep(&mut book, client, 100_000) {
        Slept::Done { now, wakes } => (now, wakes),
        Slept::Stopped { wakes, .. } => (book.now(), wakes),
    };
    expect_eq(&rt, (now, wakes), (100_000, 2));
    expect_eq(&rt, book.len(), 6);
    expect_eq(&rt, book.next_deadline(), None);
}
