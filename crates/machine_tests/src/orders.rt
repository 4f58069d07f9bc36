//! Orders of a script, played by their moves.

use crate::expect::{expect_eq, expect_ok};
use pool_book::Book;
use recorded::{Recorded, program_limits};
use std::process::Abort;
use tp_explore::replay;
use tp_report::{Written, into_history};
use tp_script::parse_script;

const ONE_CALLBACK: &[u8] = b"work w r
routine r
done
client
submit w
done
";

/// Client 1 makes its calls, client 2 submits, worker 1 attaches, takes and returns, client 2 finishes, and the worker
/// detaches, which is the second of its turns there. Behind that client 1 has none.
#[test]
fn moves_make_an_order(rt: HostRuntime) {
    let alloc = rt.alloc();
    let script = expect_ok(&rt, parse_script(alloc, ONE_CALLBACK));
    let mut book = expect_ok(
        &rt,
        Written::<Book>::open(alloc, program_limits(2, 1), 65_536),
    );
    let moves = [0, 0, 2, 4, 4, 4, 2, 5, 0];
    let whole = expect_ok(&rt, replay(alloc, &mut book, &script, &moves));
    expect_eq(&rt, whole, false);
    let (_, text) = expect_ok(&rt, into_history(alloc, book));
    let wanted = "history 2 clients 2 workers 1 events 65536 objects 65535
0 c1 create work r1 x0 p0 normal short g0 q0 -> made 1
0 c1 finish -> ok
0 c2 submit 1 -> queued 1 1
0 w1 attach -> attached 0
0 w1 take -> taken 1 o1 r1 x0 plain
0 w1 return -> returned - - - - 0 0
0 c2 finish -> ok
0 w1 detach -> ok
end 8
";
    assert!(rt; text.as_slice() == wanted.as_bytes());
}
