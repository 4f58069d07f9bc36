//! The pool before Vista on the machine.

use crate::expect::{expect_eq, expect_ok};
use pool_book::Book;
use recorded::{Recorded, program_limits};
use tp_base::calls::Call;
use tp_base::ids::{KernelId, RoutineId, Who};
use tp_legacy::{LegacyBook, LegacyCall};

/// A registration that isn't for once is armed anew by the worker that takes its callback: an entry more of the history,
/// which no line tells. One that is for once isn't.
#[test]
fn a_repeated_registration_is_armed_anew(rt: HostRuntime) {
    let (client, worker) = (Who::Client(1), Who::Worker(1));
    for once in [true, false] {
        let register = LegacyCall::Register {
            kernel: KernelId(1),
            routine: RoutineId(1),
            context: 0,
            millis: None,
            once,
        };
        let event = Call::CreateEvent {
            manual: false,
            signalled: true,
        };
        let opened = LegacyBook::<Book>::open(rt.alloc(), program_limits(1, 2), 20);
        let mut book = expect_ok(&rt, opened);
        book.step(client, LegacyCall::Pool { call: event });
        book.step(client, register);
        book.step(worker, LegacyCall::Pool { call: Call::Attach });
        book.step(worker, LegacyCall::Pool { call: Call::Take });
        expect_eq(&rt, book.book().len(), if once { 5 } else { 6 });
    }
}
