//! The devices of a text.

ghost use Rattle.std.specs.Prelude.{◌≡◌, ◌≢◌, ◌+◌, ◌<◌, ◌-◌, ◌^◌, ◌∷◌, [], ◌++◌, List, IfErr, IfOk, OnOk, length};
ghost use Rattle.port_lines.specs.declared.lines.Line.TheVariants.{Device};
ghost use Rattle.port_lines.specs.declared.lines.Operation.{Operation as PortOperation};
ghost use Rattle.port_lines.specs.Faults.{IsOrNoMemory, IsPlace};
ghost use Rattle.port_lines.specs.Texts.{IsPortFault, IsPortText, lines_of, lists_of};

use crate::faults::PortFault;
use crate::lines::{Line, Operation, read_line};
use std::alloc::{AllocError, Global};

/// Reads the devices of a text, of which there are fewer than 2^32 - 1 bytes, and the operations of each.
///
/// `At` comes exactly where the bytes are no such text, and `NoMemory` where memory was refused.
pub fn read_devices(alloc: Global, bytes: &[u8]) -> Result<Vec<Vec<Operation>>, PortFault>
    requires few { length bytes.now < 2 ^ 32 - 1 }
    ensures ok { IfOk result (λ devices. IsPortText bytes.now (lists_of devices.items)) }
    ensures only { (devices : List (List PortOperation)) → IsPortText bytes.now devices →
        IsOrNoMemory (λ read. lists_of read.items ≡ devices) result }
    ensures err { IfErr result (λ fault. IsPlace (IsPortFault bytes.now) fault) }
{
    let mut devices = Vec::new(alloc);
    let mut operations = 0;
    let mut rest = bytes;
    while !rest.is_empty() {
        match read_line(devices.len(), operations, rest) {
            Err(place) => {
                return Err(PortFault::At {
                    line: (devices.len() + operations) as u32 + 1,
                    column: place as u32 + 1,
                });
            }
            Ok((line, size)) => {
                add_line(alloc, &mut devices, &mut operations, line)?;
                (_, rest) = rest.split_at(size);
            }
        }
    }
    Ok(devices)
}

// Adds what a line tells, and counts it if it is an operation.
fn add_line(
    alloc: Global,
    devices: &mut Vec<Vec<Operation>>,
    operations: &mut usize,
    line: Line,
) -> Result<(), AllocError>
    requires device { line ≢ Device → 0 < length devices.old.items }
    requires room { operations.old < 2 ^ 32 }
    ensures lines { OnOk result (lines_of (lists_of devices.new.items) ≡ lines_of (lists_of devices.old.items) ++ line ∷ []) }
    ensures count { OnOk result (operations.new + length devices.new.items ≡ operations.old + length devices.old.items + 1) }
{
    match line {
        Line::Device => devices.push(Vec::new(alloc))?,
        Line::Op { operation } => {
            let last = devices.len() - 1;
            devices[last].push(operation)?;
            *operations += 1;
        }
    }
    Ok(())
}
