//! Where bytes come from and where they go.
//!
//! A `Source` is seen as the bytes that are left in it, where it tells them, and a count of its
//! faults; a `Sink` as the bytes that it holds, where it tells them, and the same count. No count
//! ever falls, and neither answers `Failed` unless its count rose in that very call. So what is
//! read or written here can be proved of every source and every sink, and a body that gives up
//! without a fault is refused.
//!
//! `read_all` reads a source to its end, and `give_all` gives a sink all of some bytes.
//! `MemorySource`, `MemorySink` and `NeverFails` are streams in memory, for tests and for proofs
//! above. `ReadEdge` and `WriteEdge` are a source of any reader and a sink of any writer of std, and
//! tell what that tells of its bytes: a `Vec` those that it holds, a slice those that are left. The
//! streams of the system tell nothing.
//!
//! A source of ten bytes that gives four of them a call, and whose third call fails:
//!
//! ```text
//! let mut source = MemorySource::new(alloc, bytes, 4, failing)?;  // failing has the number 3
//! read_all(alloc, &mut source, 10)                                // Err(ReadFault::Failed)
//! source.faults()                                                 // 1
//! ```

#![tactic(auto)]

mod edges;
mod memory_sink;
mod memory_source;
mod never_fails;
mod plan;
mod reading;
mod sink;
mod source;
mod writing;

pub use edges::{ReadEdge, WriteEdge};
pub use memory_sink::MemorySink;
pub use memory_source::MemorySource;
pub use never_fails::NeverFails;
pub use reading::{ReadFault, read_all};
pub use sink::{Gave, Sink};
pub use source::{Source, Took};
pub use writing::{WriteFault, give_all};
