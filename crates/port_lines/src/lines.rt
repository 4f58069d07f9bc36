//! The lines of devices and operations, each with its line feed.

ghost use Rattle.line_grammar.specs.Language.{IsRead};
ghost use Rattle.port_lines.specs.Readings.{ByteCounts, DeviceLines, Fields, IsLineRead, OperationLines};

use line_grammar::numbers::read_prefixed;
use line_grammar::words::{further, read_bytes};

/// How many devices there are at most.
pub const DEVICE_LIMIT: usize = 15;

/// How many operations all devices have at most.
pub const OPERATION_LIMIT: usize = 8_192;

/// What an operation completes with.
#[derive(Clone, Copy)]
pub struct Operation {
    pub error: u32,
    pub bytes: u64,
}

/// What a line is.
#[derive(Clone, Copy)]
pub enum Line {
    /// One more device begins.
    Device,
    /// An operation of the device above it.
    Op { operation: Operation },
}

/// Reads the line that stands behind so many devices and operations.
pub fn read_line(devices: usize, operations: usize, text: &[u8]) -> Result<(Line, usize), usize>
    ensures { IsLineRead devices operations text.now result }
{
    if devices == 0 {
        return read_device(text);
    }
    let full = devices >= DEVICE_LIMIT;
    if operations >= OPERATION_LIMIT {
        return if full { Err(0) } else { read_device(text) };
    }
    if full {
        return read_operation(text);
    }
    further(read_device(text), read_operation(text))
}

// Reads the line of a device.
fn read_device(text: &[u8]) -> Result<(Line, usize), usize>
    ensures { IsRead DeviceLines text.now result }
{
    read_bytes(Line::Device, b"device\n", text)
}

// Reads the line of an operation.
fn read_operation(text: &[u8]) -> Result<(Line, usize), usize>
    ensures { IsRead OperationLines text.now result }
{
    match read_bytes(0_u8, b"op", text) {
        Err(place) => Err(place),
        Ok((_, size)) => {
            let (_, rest) = text.split_at(size);
            match read_fields(rest) {
                Err(place) => Err(size + place),
                Ok(((error, (bytes, _)), more)) => {
                    let operation = Operation {
                        error: error as u32,
                        bytes,
                    };
                    Ok((Line::Op { operation }, size + more))
                }
            }
        }
    }
}

// Reads the two numbers of an operation, a space before each, and the line feed.
fn read_fields(text: &[u8]) -> Result<((u64, (u64, u8)), usize), usize>
    ensures { IsRead Fields text.now result }
{
    match read_prefixed(b' ', text, 0, 4_294_967_295) {
        Err(place) => Err(place),
        Ok((error, size)) => {
            let (_, rest) = text.split_at(size);
            match read_byte_count(rest) {
                Err(place) => Err(size + place),
                Ok((last, more)) => Ok(((error, last), size + more)),
            }
        }
    }
}

// Reads a space, the number of bytes and the line feed.
fn read_byte_count(text: &[u8]) -> Result<((u64, u8), usize), usize>
    ensures { IsRead ByteCounts text.now result }
{
    match read_prefixed(b' ', text, 0, 18_446_744_073_709_551_615) {
        Err(place) => Err(place),
        Ok((bytes, size)) => {
            let (_, rest) = text.split_at(size);
            match read_bytes(0_u8, b"\n", rest) {
                Err(place) => Err(size + place),
                Ok((feed, more)) => Ok(((bytes, feed), size + more)),
            }
        }
    }
}
