//! What is printed of a history.

use crate::shutdown::play;
use kept_book::Kept;
use pool_book::Book;
use std::alloc::{AllocError, Global};
use std::io;
use std::sync::Wait;
use std::thread::Threads;
use tp_base::ids::Who;
use tp_lines::print::print_entry;
use tp_report::{Written, check, into_history, print_verdict};

/// Appends the entries of one actor, a line each.
fn append_entries(book: &Kept<Book>, who: Who, out: &mut Vec<u8>) -> Result<(), AllocError> {
    for entry in book.entries() {
        if entry.who == who {
            print_entry(entry, out)?;
            out.push(b'\n')?;
        }
    }
    Ok(())
}

/// Plays the shutdown, and prints what came of it.
pub fn print_shutdown<Rt: Threads + Wait + Sync>(host: &HostRuntime, rt: &Rt) -> io::Result<()> {
    let alloc = host.alloc();
    let (written, served) = play::<Written<Kept<Book>>, _>(rt, alloc)?;
    let (book, history) = into_history(alloc, written)?;
    let mut out = Vec::new(alloc);
    for who in [
        Who::Client(1),
        Who::Client(2),
        Who::Worker(1),
        Who::Worker(2),
    ] {
        append_entries(&book, who, &mut out)?;
    }
    let Ok(verdict) = check::<Book>(alloc, &history) else {
        return Err(io::Error::other("the history can't be read"));
    };
    print_verdict(alloc, &verdict, &mut out)?;
    host.stdout().write_all(&out)?;
    match served {
        Some(served) => println!(host; "served {served}"),
        None => println!(host; "nothing was freed"),
    }
}
