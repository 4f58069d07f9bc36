//! The program tpool: the thread pool of Windows as a machine, played from text.
//!
//! `tpool trace` reads call lines from standard input and writes what each call comes to, a line
//! each, to standard output; `tpool run` plays a script, with as many threads as it is told. All of it
//! is `tp_main` of `tp_run`, which is proved over any machine, any source and any sink; here it meets
//! the machine itself, the real streams and a gate that holds nobody up. The exit status is 0, or that
//! of the first thing that went wrong, with a line on standard error.
//!
//! ```text
//! $ tpool trace
//! c1 create work r1 x7 p0 normal short g0 q0
//! c1 submit 1
//! made 1
//! queued 1 1
//! ```

#![tactic(auto)]

use pool_book::Book;
use std::io::{Error, ErrorKind};
use std::process::ExitCode;
use std::{env, io};
use tp_edge::{ReadEdge, WriteEdge};
use tp_run::{Status, WordList, tp_main};
use worker_gate::Gate;

/// A gate that stands open: no callback waits before its first call.
struct Open;

impl Gate for Open {
    fn before(&self, _worker: u32, _callback: u64) {}
}

fn main(rt: HostRuntime) -> ExitCode {
    let status = match read_words(&rt) {
        Ok(words) => {
            let mut source = ReadEdge::new(rt.stdin());
            let mut sink = WriteEdge::new(rt.stdout());
            tp_main::<_, Book, _, _, _>(&rt, rt.alloc(), &words, &mut source, &mut sink, &Open)
        }
        Err(status) => status,
    };
    // Where the line can't be written, the exit status still tells what went wrong.
    let _ = report(&rt, status);
    ExitCode::from(status.code())
}

/// The words behind the program's name. One that is no text is no word of a command.
fn read_words(rt: &HostRuntime) -> Result<WordList, Status> {
    let mut words = WordList::new(rt.alloc());
    let arguments = env::args(rt).map_err(word_fault)?;
    for word in arguments.skip(1) {
        words.push(word.as_str())?;
    }
    Ok(words)
}

/// What it means that the words can't be had.
fn word_fault(error: Error) -> Status {
    match error.kind() {
        ErrorKind::InvalidData => Status::Words,
        _ => Status::NoMemory,
    }
}

/// Prints the line of a status, if it has one.
fn report(rt: &HostRuntime, status: Status) -> io::Result<()> {
    match status {
        Status::Fine | Status::NotLegal | Status::Bad | Status::GaveUp => Ok(()),
        Status::Words => eprintln!(rt; "tpool: bad words"),
        Status::BadLine { line, column } => {
            eprintln!(rt; "tpool: bad line {line} column {column}")
        }
        Status::ReadFault => eprintln!(rt; "tpool: read fault"),
        Status::WriteFault => eprintln!(rt; "tpool: write fault"),
        Status::NoMemory => eprintln!(rt; "tpool: want of memory"),
        Status::TooLong => eprintln!(rt; "tpool: input too long"),
        Status::Exhausted => eprintln!(rt; "tpool: history exhausted"),
        Status::Stalled => eprintln!(rt; "tpool: stalled"),
    }
}
