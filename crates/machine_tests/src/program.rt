//! The whole program over streams in memory.

use crate::expect::expect_ok;
use pool_book::Book;
use std::alloc::Global;
use std::process::Abort;
use std::sync::Wait;
use std::thread::Threads;
use tp_edge::{MemorySink, MemorySource};
use tp_run::{Status, WordList, tp_main};
use worker_gate::Gate;

/// How the program ends by the words of a line, and what the sink then holds. A take from the input has 16 bytes, and a
/// give 4.
pub fn run_program<Rt: Abort + Threads + Wait + Sync, G: Gate + Sync>(
    rt: &Rt,
    alloc: Global,
    line: &str,
    input: &str,
    gate: &G,
) -> (Status, Vec<u8>) {
    let words = words_of(rt, alloc, line);
    let bytes = expect_ok(rt, input.as_bytes().to_vec(alloc));
    let mut source = expect_ok(rt, MemorySource::new(alloc, bytes, 16, Vec::new(alloc)));
    let mut sink = expect_ok(rt, MemorySink::new(alloc, 10_000, 4, Vec::new(alloc)));
    let status = tp_main::<_, Book, _, _, _>(rt, alloc, &words, &mut source, &mut sink, gate);
    let held = expect_ok(rt, sink.bytes().to_vec(alloc));
    drop(words);
    drop(source);
    drop(sink);
    (status, held)
}

fn words_of(rt: &impl Abort, alloc: Global, line: &str) -> WordList {
    let mut words = WordList::new(alloc);
    for word in line.split(' ') {
        expect_ok(rt, words.push(word));
    }
    words
}
