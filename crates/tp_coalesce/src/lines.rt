//! Reading of lines.

ghost use Rattle.std.specs.Prelude.{◌≡◌};
ghost use Rattle.line_grammar.specs.Language.{IsRead};
ghost use Rattle.tp_coalesce.specs.Lines.{OwnLines, PoolLines, SleepLines, SleepTexts, sleep_at};

use crate::SleepCall;
use line_grammar::words::further;
use tp_base::ids::Who;
use tp_lines::calls::{read_call_line, read_who};
use tp_lines::parts::Parts;
use tp_lines::rows::read_parts;
use tp_lines::words::Field;

/// Reads an actor and its call, to which more may be added: a call of the machine, or a sleep. `Err` has the place
/// up to which the text goes along with one.
pub fn read_sleep_line(text: &[u8]) -> Result<((Who, SleepCall), usize), usize>
    ensures { IsRead SleepLines text.now result }
{
    further(read_pool_line(text), read_own_line(text))
}

// Reads an actor and a call of the machine.
fn read_pool_line(text: &[u8]) -> Result<((Who, SleepCall), usize), usize>
    ensures { IsRead PoolLines text.now result }
{
    match read_call_line(text) {
        Err(place) => Err(place),
        Ok(((who, call), size)) => Ok(((who, SleepCall::Pool { call }), size)),
    }
}

// Reads an actor and a sleep.
fn read_own_line(text: &[u8]) -> Result<((Who, SleepCall), usize), usize>
    ensures { IsRead OwnLines text.now result }
{
    match read_who(text) {
        Err(place) => Err(place),
        Ok((who, size)) => {
            let (_, rest) = text.split_at(size);
            match read_sleep(rest) {
                Err(place) => Err(size + place),
                Ok((call, more)) => Ok(((who, call), size + more)),
            }
        }
    }
}

// Reads a sleep with the space before it.
fn read_sleep(text: &[u8]) -> Result<(SleepCall, usize), usize>
    ensures { IsRead SleepTexts text.now result }
{
    let mut parts = Parts::new();
    match read_parts(&[Field::SleepCall], text, &mut parts) {
        Err(place) => Err(place),
        Ok(size) => Ok((sleep_at(&parts), size)),
    }
}

// The sleep of a row.
fn sleep_at(parts: &Parts) -> SleepCall
    ensures { result ≡ sleep_at parts.now }
{
    SleepCall::Sleep {
        ticks: parts.at(1).large(),
    }
}
