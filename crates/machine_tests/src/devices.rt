//! Devices that post what they complete, from threads of their own.

use crate::expect::{expect_eq, expect_ok};
use pool_book::Book;
use port_lines::read_devices;
use std::alloc::Global;
use std::process::Abort;
use std::sync::Wait;
use std::sync::atomic::{AtomicBool, AtomicU32, Ordering};
use std::thread::Threads;
use tp_port::{Completion, PortGate, open};
use tp_run::play_port;

/// What is posted is taken, by its device, and once.
#[test]
fn one_post_is_taken(rt: HostRuntime) {
    let alloc = rt.alloc();
    let quotas = expect_ok(&rt, vec![in alloc; 1_u32]);
    let (port, mut posts, mut pass) = expect_ok(&rt, open(alloc, quotas));
    let completion = Completion {
        callback: 7,
        error: 5,
        bytes: 512,
    };
    port.post(&rt, &mut posts[0], completion);
    let taken = port
        .take(&rt, &mut pass)
        .map(|posted| (posted.device, posted.completion.callback));
    expect_eq(&rt, taken, Some((1, 7)));
    expect_eq(&rt, port.take(&rt, &mut pass).is_none(), true);
    drop(pass);
    drop(posts);
    drop(port);
}

const TWO_DEVICES: &str = "device
op 0 512
op 5 0
device
op 0 1024
op 7 0
op 0 3
";

const COMPLETED: &str = "0 c2 complete-io 1 0 512 -> queued 1 1
0 c2 complete-io 2 5 0 -> queued 2 1
0 c3 complete-io 3 0 1024 -> queued 3 1
0 c3 complete-io 4 7 0 -> queued 4 1
0 c3 complete-io 5 0 3 -> queued 5 1
";

// So often the first device looks whether the second one is announced. That is long enough for another thread to come, and
// ends the test soon where there is none.
const MOST_LOOKS: u32 = 20_000_000;

// Holds device 1 before its first post until device 2 has been announced, but not for ever.
#[derive(Drop)]
struct Hold {
    // How often each of the two was announced.
    first: AtomicU32,
    second: AtomicU32,
    met: AtomicBool,
}

impl PortGate for Hold {
    fn before(&self, device: u32) {
        if device == 2 {
            self.second.fetch_add(1, Ordering::SeqCst);
            return;
        }
        self.first.fetch_add(1, Ordering::SeqCst);
        for _ in 0..MOST_LOOKS {
            if self.second.load(Ordering::SeqCst) != 0 {
                self.met.store(true, Ordering::SeqCst);
                return;
            }
        }
    }
}

// Whether device 1 was held until device 2 was announced. However that is, both are announced once, and what they complete
// is written.
fn devices_meet(rt: &(impl Abort + Threads + Wait + Sync), alloc: Global) -> bool {
    let gate = Hold {
        first: AtomicU32::new(0),
        second: AtomicU32::new(0),
        met: AtomicBool::new(false),
    };
    let devices = expect_ok(rt, read_devices(alloc, TWO_DEVICES.as_bytes()));
    let output = expect_ok(rt, play_port::<_, Book, Hold>(rt, alloc, &devices, &gate));
    let written = expect_ok(rt, str::from_utf8(&output.text));
    for line in COMPLETED.lines() {
        expect_eq(rt, written.contains(line), true);
    }
    expect_eq(rt, gate.first.load(Ordering::SeqCst), 1);
    expect_eq(rt, gate.second.load(Ordering::SeqCst), 1);
    gate.met.load(Ordering::SeqCst)
}

/// Devices really run on several threads: where device 1 is held before its first post until device 2 is announced, no run on
/// one thread goes on, since there device 1 ends before device 2 begins.
#[test]
fn port_two_devices(rt: HostRuntime) {
    let mut met = false;
    for _ in 0..10 {
        met = devices_meet(&rt, rt.alloc()) || met;
    }
    expect_eq(&rt, met, true);
}
