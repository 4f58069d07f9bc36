//! The first line of a history.

ghost use Rattle.std.specs.Prelude.{◌<◌, ◌≤◌};
ghost use Rattle.line_grammar.specs.Language.{IsRead};
ghost use Rattle.tp_report.specs.Histories.{HeaderLines};
ghost use Rattle.tp_report.specs.Readings.{Counts, Keyed, Marks, Objects, Rooms, Sizes};

use line_grammar::numbers::read_prefixed;
use line_grammar::words::{further, read_bytes};
use recorded::{OBJECT_LIMIT, program_limits};
use tp_base::limits::Limits;

/// The most entries that a history can have room for.
pub const EVENT_LIMIT: u32 = 131_072;

/// How a history is written.
#[derive(Clone, Copy)]
pub enum Format {
    /// Each line is an entry, and the machine has 4,095 objects at most.
    One,
    /// Each entry has its moment before it, and the first line tells how many objects there are at most.
    Two,
}

/// The format and the numbers of a history's first line.
#[derive(Clone, Copy)]
pub struct Header {
    pub format: Format,
    pub clients: u32,
    pub workers: u32,
    /// How many entries the history has room for.
    pub events: u32,
    /// How many objects the machine has at most.
    pub objects: u32,
}

impl Header {
    ghost use Rattle.std.specs.Prelude.{◌≡◌};
    ghost use Rattle.tp_base.specs.Ranges.{AreLimitsInRange};
    ghost use Rattle.tp_report.specs.Histories.{HasHeaderLine};
    ghost use Rattle.tp_report.specs.Verdicts.{limits_of};

    /// The limits of the machine whose history this is.
    pub fn limits(&self) -> Limits
        requires { HasHeaderLine self.now }
        ensures value { result ≡ limits_of self.now }
        ensures in_range { AreLimitsInRange result }
    {
        Limits {
            objects: self.objects,
            ..program_limits(self.clients, self.workers)
        }
    }
}

/// Reads the first line of a history, without its line feed.
pub fn read_header(text: &[u8]) -> Result<(Header, usize), usize>
    ensures { IsRead HeaderLines text.now result }
{
    match read_format(text) {
        Err(place) => Err(place),
        Ok((format, size)) => {
            let (_, rest) = text.split_at(size);
            match read_counts(format, rest) {
                Err(place) => Err(size + place),
                Ok(((clients, (workers, (events, objects))), more)) => Ok((
                    Header {
                        format,
                        clients: clients as u32,
                        workers: workers as u32,
                        events: events as u32,
                        objects: objects as u32,
                    },
                    size + more,
                )),
            }
        }
    }
}

// Reads what a first line begins with.
fn read_format(text: &[u8]) -> Result<(Format, usize), usize>
    ensures { IsRead Marks text.now result }
{
    further(
        read_bytes(Format::One, b"history 1", text),
        read_bytes(Format::Two, b"history 2", text),
    )
}

// Reads how many clients, workers, events and objects there are.
fn read_counts(format: Format, text: &[u8]) -> Result<((u64, (u64, (u64, u64))), usize), usize>
    ensures { IsRead (Counts format) text.now result }
{
    match read_keyed(b" clients", text, 0, 16) {
        Err(place) => Err(place),
        Ok((clients, size)) => {
            let (_, rest) = text.split_at(size);
            match read_sizes(format, rest) {
                Err(place) => Err(size + place),
                Ok((sizes, more)) => Ok(((clients, sizes), size + more)),
            }
        }
    }
}

// Reads how many workers, events and objects there are.
fn read_sizes(format: Format, text: &[u8]) -> Result<((u64, (u64, u64)), usize), usize>
    ensures { IsRead (Sizes format) text.now result }
{
    match read_keyed(b" workers", text, 1, 64) {
        Err(place) => Err(place),
        Ok((workers, size)) => {
            let (_, rest) = text.split_at(size);
            match read_rooms(format, rest) {
                Err(place) => Err(size + place),
                Ok((rooms, more)) => Ok(((workers, rooms), size + more)),
            }
        }
    }
}

// Reads how many events and objects there are.
fn read_rooms(format: Format, text: &[u8]) -> Result<((u64, u64), usize), usize>
    ensures { IsRead (Rooms format) text.now result }
{
    match read_keyed(b" events", text, 16, EVENT_LIMIT as u64) {
        Err(place) => Err(place),
        Ok((events, size)) => {
            let (_, rest) = text.split_at(size);
            match read_objects(format, rest) {
                Err(place) => Err(size + place),
                Ok((objects, more)) => Ok(((events, objects), size + more)),
            }
        }
    }
}

// Reads how many objects there are at most.
fn read_objects(format: Format, text: &[u8]) -> Result<(u64, usize), usize>
    ensures { IsRead (Objects format) text.now result }
{
    match format {
        Format::One => read_bytes(4_095, b"", text),
        Format::Two => read_keyed(b" objects", text, 1, OBJECT_LIMIT as u64),
    }
}

// Reads a word, a space and a number.
fn read_keyed(word: &[u8], text: &[u8], least: u64, most: u64) -> Result<(u64, usize), usize>
    requires least_most { least ≤ most }
    requires least_low { 1 < least → (least ≤ 19) × (199 ≤ most) }
    ensures { IsRead (Keyed word.now least most) text.now result }
{
    match read_bytes(0_u8, word, text) {
        Err(place) => Err(place),
        Ok((_, size)) => {
            let (_, rest) = text.split_at(size);
            match read_prefixed(b' ', rest, least, most) {
                Err(place) => Err(size + place),
                Ok((number, more)) => Ok((number, size + more)),
            }
        }
    }
}
