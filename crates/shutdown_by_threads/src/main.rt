//! A server's shutdown, as four threads make it on one pool.
//!
//! `shutdown_by_threads` plays it, and prints the entries of each actor in their order, how many requests
//! were served, and the verdict on the history. `shutdown_by_threads CALLS` measures instead: 1, 2 and 4
//! threads submit a request and call it off, CALLS times each, and a line for each number of threads tells
//! how many calls a second that is.

#![tactic(auto)]

mod actors;
mod measure;
mod printed;
mod shutdown;

use crate::measure::measure;
use crate::printed::print_shutdown;
use std::{env, io};

fn main(rt: HostRuntime) -> io::Result<()> {
    let mut words = env::args(&rt)?.skip(1);
    let Some(word) = words.next() else {
        return print_shutdown(&rt, &rt);
    };
    let Ok(calls) = word.as_str().parse::<u32>() else {
        return Err(io::Error::other("a number of calls was expected"));
    };
    measure(&rt, &rt, 1, calls)?;
    measure(&rt, &rt, 2, calls)?;
    measure(&rt, &rt, 4, calls)
}
