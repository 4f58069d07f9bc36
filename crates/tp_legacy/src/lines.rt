//! Reading of lines.

ghost use Rattle.std.specs.Prelude.{◌≡◌};
ghost use Rattle.line_grammar.specs.Language.{IsRead};
ghost use Rattle.tp_legacy.specs.Lines.{LegacyLines, OldLines, OldTexts, PoolLines, old_call_at, routine_at};

use crate::LegacyCall;
use line_grammar::words::further;
use tp_base::ids::{KernelId, RoutineId, Who};
use tp_lines::calls::{read_call_line, read_who};
use tp_lines::parts::Parts;
use tp_lines::rows::read_parts;
use tp_lines::words::{Field, Word};

/// Reads an actor and its call, to which more may be added: a call of the machine, or an old one. `Err` has the place
/// up to which the text goes along with one.
pub fn read_legacy_line(text: &[u8]) -> Result<((Who, LegacyCall), usize), usize>
    ensures { IsRead LegacyLines text.now result }
{
    further(read_pool_line(text), read_old_line(text))
}

// Reads an actor and a call of the machine.
fn read_pool_line(text: &[u8]) -> Result<((Who, LegacyCall), usize), usize>
    ensures { IsRead PoolLines text.now result }
{
    match read_call_line(text) {
        Err(place) => Err(place),
        Ok(((who, call), size)) => Ok(((who, LegacyCall::Pool { call }), size)),
    }
}

// Reads an actor and an old call.
fn read_old_line(text: &[u8]) -> Result<((Who, LegacyCall), usize), usize>
    ensures { IsRead OldLines text.now result }
{
    match read_who(text) {
        Err(place) => Err(place),
        Ok((who, size)) => {
            let (_, rest) = text.split_at(size);
            match read_old_call(rest) {
                Err(place) => Err(size + place),
                Ok((call, more)) => Ok(((who, call), size + more)),
            }
        }
    }
}

// Reads an old call with the space before it.
fn read_old_call(text: &[u8]) -> Result<(LegacyCall, usize), usize>
    ensures { IsRead OldTexts text.now result }
{
    let mut parts = Parts::new();
    match read_parts(&[Field::OldCall], text, &mut parts) {
        Err(place) => Err(place),
        Ok(size) => Ok((old_call_at(parts.at(0).word(), &parts), size)),
    }
}

// The old call of a row, where its word is that of one, and `create-queue` where it isn't.
fn old_call_at(word: Word, parts: &Parts) -> LegacyCall
    ensures { result ≡ old_call_at word parts.now }
{
    match word {
        Word::QueueItem => LegacyCall::QueueItem {
            routine: routine_at(parts, 1),
            context: parts.at(2).large(),
            long: parts.at(3).span(),
        },
        Word::Register => LegacyCall::Register {
            kernel: KernelId(parts.at(1).small()),
            routine: routine_at(parts, 2),
            context: parts.at(3).large(),
            millis: parts.at(4).millis(),
            once: parts.at(5).once(),
        },
        Word::Unregister => LegacyCall::Unregister {
            registration: parts.at(1).small(),
        },
        Word::CreateTimer => LegacyCall::CreateTimer {
            queue: parts.at(1).small(),
            routine: routine_at(parts, 2),
            context: parts.at(3).large(),
            due: parts.at(4).small(),
            period: parts.at(5).small(),
        },
        Word::ChangeTimer => LegacyCall::ChangeTimer {
            queue: parts.at(1).small(),
            timer: parts.at(2).small(),
            due: parts.at(3).small(),
            period: parts.at(4).small(),
        },
        Word::DeleteTimer => LegacyCall::DeleteTimer {
            queue: parts.at(1).small(),
            timer: parts.at(2).small(),
        },
        Word::DeleteQueue => LegacyCall::DeleteQueue {
            queue: parts.at(1).small(),
        },
        _ => LegacyCall::CreateQueue,
    }
}

// The routine that stands at an index.
fn routine_at(parts: &Parts, index: usize) -> RoutineId
    ensures { result ≡ routine_at parts.now index }
{
    RoutineId(parts.at(index).small())
}
