//! A completion port: devices post the ends of their operations into one queue, each on a thread of
//! its own, and one taker takes them out.
//!
//! `open` makes a port with a quota for each device, and gives a pass for each and one for the taker.
//! `post` puts a completion of the pass's device into the queue, which is never full; `take` takes the
//! oldest one. What arrives of each device is what it posted, in its order, each once: contracts know
//! it of the passes, wherever their threads are. The README beside this folder tells why.
//!
//! ```text
//! let (port, mut posts, mut pass) = open(alloc, vec![in alloc; 2, 1]?)?;
//! port.post(&rt, &mut posts[0], Completion { callback: 7, error: 0, bytes: 512 });
//! port.take(&rt, &mut pass)        // Some(Posted { device: 1, completion: .. })
//! ```

#![tactic(auto)]

mod devices;
mod passes;
mod port;
mod pumps;
mod rule;
mod views;

pub use devices::PortGate;
pub use passes::{LastPass, PostPass, TakePass};
pub use port::{Port, open};
pub use port_facts::{Completion, Posted};
pub use pumps::pump;
