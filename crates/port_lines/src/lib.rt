//! Reading of the text that tells what each device completes.
//!
//! A text is lines, each with its line feed: `device` begins a device, and `op ERROR BYTES` is an operation
//! of the device above it, with the error of 32 bits and the number of bytes of 64 bits that it completes
//! with. There are at most 15 devices, and at most 8,192 operations in all.
//!
//! `read_devices` answers the devices in their order, each as the list of its operations, or the place of
//! the first fault: the line, and in it the byte behind the longest front that it shares with a line that
//! may stand there (`IsPortFault`).
//!
//! ```text
//! read_devices(alloc, b"device\nop 0 512\nop 5 0\n")
//!     // Ok([[Operation { error: 0, bytes: 512 }, Operation { error: 5, bytes: 0 }]])
//! read_devices(alloc, b"")                      // Ok([])
//! read_devices(alloc, b"op 0 1\n")              // Err(PortFault::At { line: 1, column: 1 })
//! read_devices(alloc, b"device\nop 00 1\n")     // Err(PortFault::At { line: 2, column: 5 })
//! ```

#![tactic(auto)]

mod devices;
mod faults;
mod lines;

pub use devices::read_devices;
pub use faults::PortFault;
pub use lines::{DEVICE_LIMIT, OPERATION_LIMIT, Operation};
