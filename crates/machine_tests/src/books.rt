//! A history with less room than the program gives one.

use crate::expect::{expect_eq, expect_ok};
use pool_book::Book;
use recorded::{Recorded, program_limits};
use tp_base::answers::{Answer, Outcome};
use tp_base::calls::Call;
use tp_base::ids::Who;

/// More is owed than there is room for: nothing but what is owed can be written down.
#[test]
fn room_is_none_where_more_is_owed(rt: HostRuntime) {
    let mut book = expect_ok(&rt, Book::open(rt.alloc(), program_limits(3, 2), 1));
    let told = book.step(Who::Worker(1), Call::Take);
    expect_eq(&rt, told, Outcome::Full { room: 0, cost: 1 });
    let told = book.step(Who::Client(1), Call::Finish);
    expect_eq(&rt, told, Outcome::Done(Answer::Done));
    expect_eq(&rt, (book.len(), book.room()), (1, 0));
    drop(book);
}
