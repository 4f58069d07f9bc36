//! Lines written by hand, which are read and printed again.
//!
//! What a line stands for is said by the definitions, and shown by examples in the proofs of `tp_lines`.

use crate::checks::{expect_eq, expect_line, expect_ok};
use frequent_lines::{read_good_call, read_good_entry, read_rare_call, read_rare_entry};
use std::alloc::Global;
use std::process::Abort;
use tp_base::answers::{Answer, Entry};
use tp_base::calls::Call;
use tp_base::ids::Who;
use tp_lines::calls::read_call_line;
use tp_lines::entries::read_entry;

// A line of each call and of each answer: one text, which costs the check the same however long it is.
const ENTRIES: &str = "c1 create-pool -> made 65535
c2 close-pool 0 -> freed
c16 set-maximum 1 4294967295 -> ok
c1 set-minimum 65535 7 -> refused pool-closed
c1 create-group -> refused object-limit
c1 close-group 7 -> refused has-members 12
c1 close-members 12 cancel y18446744073709551615 -> closing 1 2 3
c1 create work r1 x18446744073709551615 p3 high long g65535 q9 -> made 1
c1 create timer r2 x7 p0 normal short g0 q0 -> refused no-such
c1 create wait r2 x7 p2 low persistent g0 q0 -> refused group-closed
c1 submit-simple r65535 x0 p0 high persistent-long g1 q0 -> refused callback-limit
c1 submit 12 -> queued 4 1
c1 close io 3 -> refused operations-outstanding 3
c1 close wait 3 -> later
c1 set-timer 65535 -9223372036854775808 4294967295 50 -> refused released
c1 set-timer 2 9223372036854775807 0 0 -> was no 0 0
c1 set-timer-ex 7 none 1 2 -> was yes 4 2
c1 is-timer-set 7 -> flag yes
c1 advance 9223372036854775807 -> advanced 9223372036854775807 8 7
c1 set-wait 7 2 -10000 -> refused not-waitable
c1 set-wait 7 none none -> flag no
c1 start-io 3 -> started 4
c1 issue-io 3 -> operation 18446744073709551615
c1 cancel-io 3 -> cancelled 0
c1 complete-io 4 4294967295 512 -> refused no-operation
c1 complete-next 65535 4294967295 18446744073709551615 -> queued 4 1
c1 wait work 3 keep -> begun 5 4
c1 end -> notice o1 r2 x3 y4
c1 end -> ended
c1 end -> exhausted
c1 end -> stalled
c1 create-event manual clear -> made 1
c1 create-semaphore 0 2147483647 -> refused over-maximum 0
c1 create-lock section owned -> made 3
w64 acquire 9 -> refused in-wait
w64 try-acquire 9 -> flag no
w1 set-event 2 -> refused wrong-kind
w1 reset-event 2 -> ok
w1 release-semaphore 7 12 -> count 2147483647 0 0
w1 release-lock mutex 9 -> refused not-owner
w1 attach -> attached 0
w1 detach -> refused still-running
w10 take -> taken 5 o0 r2 x7 plain
w1 take -> taken 5 o1 r2 x7 object
w1 take -> taken 5 o1 r2 x7 timeout
w1 take -> taken 5 o1 r2 x7 io 4294967295 512
w1 may-run-long -> refused default-pool
w1 disassociate -> refused not-running
w1 on-return semaphore 7 12 -> refused slot-taken semaphore
w1 return -> returned - done not-owner over-maximum 3 1
c1 finish -> refused not-worker";

#[test]
fn lines_are_printed_as_they_were_read(rt: HostRuntime) {
    for line in ENTRIES.split('\n') {
        check_line(&rt, rt.alloc(), line);
    }
}

// The line is read as an entry, and its front as a call. Both are printed as that line again.
fn check_line(rt: &impl Abort, alloc: Global, line: &str) {
    let (entry, size) = expect_ok(rt, read_entry(line.as_bytes()));
    expect_eq(rt, (line, size), (line, line.len()));
    expect_line(rt, alloc, &entry, line);
    let (front, _) = expect_ok(rt, line.split_once(" -> ").ok_or(line));
    let ((who, call), size) = expect_ok(rt, read_call_line(front.as_bytes()));
    expect_eq(rt, (line, size), (line, front.len()));
    let answer = entry.answer;
    expect_line(rt, alloc, &Entry { who, call, answer }, line);
}

/// What is found is the line, by contract; but nothing may be found.
#[test]
fn frequent_lines_are_found(rt: HostRuntime) {
    let mut made = (Who::Client(0), Call::Finish);
    for line in [
        "c1 submit 12\n",
        "c1 advance 10\n",
        "c1 end\n",
        "w1 attach\n",
        "w1 detach\n",
        "w9 take\n",
        "w9 return\n",
    ] {
        let found = read_good_call(line.as_bytes(), &mut made).is_some();
        expect_eq(&rt, (line, found), (line, true));
    }
    let mut entry = Entry {
        who: Who::Client(0),
        call: Call::Finish,
        answer: Answer::Done,
    };
    for line in [
        "c1 submit 12 -> queued 4 1\n",
        "w1 detach -> ok\n",
        "w9 take -> taken 70 o1 r2 x9 plain\n",
        "w9 return -> returned - - - - 0 0\n",
    ] {
        let found = read_good_entry(line.as_bytes(), &mut entry).is_some();
        expect_eq(&rt, (line, found), (line, true));
    }
}

/// The same of lines that are less frequent.
#[test]
fn rare_lines_are_found(rt: HostRuntime) {
    let mut made = (Who::Client(0), Call::Finish);
    for line in [
        "c1 create work r1 x0 p0 normal short g0 q0\n",
        "c1 create timer r2 x7 p3 high long g2 q9\n",
        "c1 create wait r1 x18446744073709551615 p0 low short g1 q0\n",
        "c1 create io r65535 x0 p65535 normal short g65535 q65535\n",
        "c1 close-members 2 cancel y7\n",
        "c1 close-members 2 keep y0\n",
        "c1 set-timer 5 -10 0 0\n",
        "c1 set-wait 4 1 -10\n",
        "c1 set-event 1\n",
        "c1 set-maximum 1 4\n",
        "c1 start-io 3\n",
        "c1 issue-io 3\n",
        "c1 complete-io 8 995 0\n",
        "c1 complete-next 3 995 0\n",
        "c1 try-acquire 1\n",
        "c1 is-timer-set 5\n",
        "c1 wait work 1 keep\n",
    ] {
        let found = read_rare_call(line.as_bytes(), &mut made).is_some();
        expect_eq(&rt, (line, found), (line, true));
    }
    let mut entry = Entry {
        who: Who::Client(0),
        call: Call::Finish,
        answer: Answer::Done,
    };
    for line in [
        "c1 create work r1 x0 p0 normal short g0 q0 -> made 1\n",
        "c1 advance 10 -> advanced 10 3 2\n",
        "c1 wait work 1 keep -> begun 3 0\n",
        "c1 end -> ended\n",
        "c1 is-timer-set 5 -> flag yes\n",
        "c1 complete-next 3 995 0 -> queued 8 1\n",
        "c1 try-acquire 1 -> flag yes\n",
        "w1 try-acquire 1 -> flag no\n",
        "c1 submit 9 -> refused no-such\n",
    ] {
        let found = read_rare_entry(line.as_bytes(), &mut entry).is_some();
        expect_eq(&rt, (line, found), (line, true));
    }
}
