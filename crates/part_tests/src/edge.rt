//! Streams that fail midway, and the limit.

use crate::checks::{expect_eq, expect_ok};
use std::alloc::Global;
use std::process::Abort;
use tp_edge::{
    MemorySink, MemorySource, NeverFails, ReadFault, Sink, Source, WriteFault, give_all, read_all,
};

const TEXT: &[u8] = b"abcdefghij";

/// What is read of `abcdefghij`, 4 bytes a call: 4, 4, 2, then the end.
#[test]
fn reads_in_pieces(rt: HostRuntime) {
    for (failing, limit, want, faults) in [
        (0, 10, None, 0),
        (0, 4_294_967_295, None, 0),
        (0, 9, Some(ReadFault::TooLong), 0),
        (0, 0, Some(ReadFault::TooLong), 0),
        (1, 10, Some(ReadFault::Failed), 1),
        (3, 10, Some(ReadFault::Failed), 1),
        (4, 10, Some(ReadFault::Failed), 1),
        (5, 10, None, 0),
    ] {
        let told = read_text(&rt, rt.alloc(), failing, limit);
        expect_eq(
            &rt,
            (failing, limit, told),
            (failing, limit, (want, faults)),
        );
    }
}

// The fault of reading the text at a limit where this call fails, and how many the source says. All that is read
// without a fault is the text.
fn read_text(rt: &impl Abort, alloc: Global, failing: u32, limit: u32) -> (Option<ReadFault>, u64) {
    let bytes = expect_ok(rt, TEXT.to_vec(alloc));
    let failing = expect_ok(rt, vec![in alloc; failing]);
    let mut source = expect_ok(rt, MemorySource::new(alloc, bytes, 4, failing));
    let fault = match read_all(alloc, &mut source, limit as usize) {
        Ok(bytes) => {
            expect_eq(rt, bytes.as_slice(), TEXT);
            None
        }
        Err(fault) => Some(fault),
    };
    let faults = source.faults();
    drop(source);
    (fault, faults)
}

/// What is held of `abcdefghij`, 4 bytes a call.
#[test]
fn gives_in_pieces(rt: HostRuntime) {
    for (failing, capacity, held, faults) in [
        (0, 10, b"abcdefghij".as_slice(), 0),
        (0, 9, b"abcdefghi".as_slice(), 1),
        (0, 0, b"".as_slice(), 1),
        (1, 10, b"".as_slice(), 1),
        (3, 10, b"abcdefgh".as_slice(), 1),
        (4, 10, b"abcdefghij".as_slice(), 0),
    ] {
        check_given(&rt, rt.alloc(), failing, capacity, held, faults);
    }
}

// The sink holds this much of the text where this call fails, and says as many faults. The text is given where there
// was none.
fn check_given(
    rt: &impl Abort,
    alloc: Global,
    failing: u32,
    capacity: usize,
    held: &[u8],
    faults: u64,
) {
    let plan = expect_ok(rt, vec![in alloc; failing]);
    let mut sink = expect_ok(rt, MemorySink::new(alloc, capacity, 4, plan));
    let gave = give_all(&mut sink, TEXT);
    let told = (gave.is_err(), sink.faults(), sink.bytes());
    expect_eq(
        rt,
        (failing, capacity, told),
        (failing, capacity, (faults == 1, faults, held)),
    );
    drop(sink);
}

#[test]
fn never_fails_gives_all(rt: HostRuntime) {
    let bytes = expect_ok(&rt, TEXT.to_vec(rt.alloc()));
    let mut source = NeverFails::new(bytes, 3);
    let read = expect_ok(&rt, read_all(rt.alloc(), &mut source, 10));
    expect_eq(&rt, read.as_slice(), TEXT);
    expect_eq(&rt, source.faults(), 0);
    drop(source);
}
