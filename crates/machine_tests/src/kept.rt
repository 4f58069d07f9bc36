//! Entries that are read back.

ghost use Rattle.tp_base.specs.Ranges.{IsCallInRange};

use crate::expect::{expect_eq, expect_ok};
use kept_book::Kept;
use pool_book::Book;
use recorded::{Recorded, program_limits};
use std::process::Abort;
use tp_base::answers::Answer;
use tp_base::calls::Call;
use tp_base::ids::Who;

// The entry at this place is of this actor, of a finish or of another call, and has this answer; `None`: there is none.
fn check_entry(
    rt: &impl Abort,
    kept: &Kept<Book>,
    index: u32,
    wanted: Option<(Who, bool, Answer)>,
) {
    let told = kept.entry(index).map(|entry| {
        let finishes = matches!(entry.call, Call::Finish);
        (entry.who, finishes, entry.answer)
    });
    expect_eq(rt, told, wanted);
}

// A step of one call.
fn take_step(kept: &mut Kept<Book>, who: Who, call: Call)
    requires { IsCallInRange call }
{
    kept.step(who, call);
}

/// A look is no entry, and behind the last one there is none.
#[test]
fn entries_are_read_back(rt: HostRuntime) {
    let (client, worker) = (Who::Client(1), Who::Worker(1));
    let mut kept = expect_ok(
        &rt,
        Kept::<Book>::try_open(rt.alloc(), program_limits(1, 2), 20),
    );
    take_step(&mut kept, client, Call::CreatePool);
    take_step(&mut kept, worker, Call::Attach);
    take_step(&mut kept, client, Call::Finish);
    let made = Answer::Made { number: 1 };
    check_entry(&rt, &kept, 0, Some((client, false, made)));
    check_entry(&rt, &kept, 1, Some((client, true, Answer::Done)));
    check_entry(&rt, &kept, 2, None);
    drop(kept);
}
