//! Reading of lines.

ghost use Rattle.std.specs.Prelude.{◌≡◌, false, true};
ghost use Rattle.line_grammar.specs.Language.{IsRead};
ghost use Rattle.line_grammar.specs.Parts.{Pairs};
ghost use Rattle.tp_library.specs.Libraries.{may_have_library};
ghost use Rattle.tp_library.specs.Lines.{LibLines, LibLinesOf, Libraries, OwnTexts, Suffixes, Verbs};

use crate::{LIBRARY_LIMIT, LibCall, LibraryId};
use line_grammar::numbers::read_prefixed;
use line_grammar::words::{behind, further, read_bytes, something};
use tp_base::calls::Call;
use tp_base::ids::Who;
use tp_lines::calls::{read_call_line, read_who};

/// A word of this layer's own.
#[derive(Clone, Copy)]
pub enum Verb {
    Load,
    Free,
    FreeOnReturn,
}

/// Reads an actor and its call, to which more may be added: a call of the machine, behind which a space and a
/// library may stand where it makes an object or a simple callback, or `load`, `free` or `free-on-return` and a
/// library.
pub fn read_lib_line(text: &[u8]) -> Result<((Who, LibCall), usize), usize>
    ensures { IsRead LibLines text.now result }
{
    further(read_pool_line(text), read_own_line(text))
}

// Whether what the call makes may be of a library.
fn may_have_library(call: Call) -> bool
    ensures { result ≡ may_have_library call }
{
    match call {
        Call::Create { .. } | Call::SubmitSimple { .. } => true,
        _ => false,
    }
}

// Reads a space, a letter and the number of a library.
fn read_library(text: &[u8]) -> Result<(u64, usize), usize>
    ensures { IsRead Libraries text.now result }
{
    let Some(rest) = behind(b' ', text) else {
        return Err(0);
    };
    match read_prefixed(b'l', rest, 1, u64::from(LIBRARY_LIMIT)) {
        Ok((library, size)) => Ok((library, size + 1)),
        Err(place) => Err(place + 1),
    }
}

// Reads the library behind a call, if there is one and may be one.
fn read_suffix(may_have: bool, text: &[u8]) -> Result<(Option<u64>, usize), usize>
    ensures { IsRead (Suffixes may_have) text.now result }
{
    let none = read_bytes(None, b"", text);
    if may_have {
        further(something(read_library(text)), none)
    } else {
        none
    }
}

// Reads an actor, a call of the machine, and the library that what it makes is of.
fn read_pool_line(text: &[u8]) -> Result<((Who, LibCall), usize), usize>
    ensures { IsRead (LibLinesOf true) text.now result }
{
    match read_call_line(text) {
        Err(place) => Err(place),
        Ok(((who, call), size)) => {
            let (_, rest) = text.split_at(size);
            match read_suffix(may_have_library(call), rest) {
                Err(place) => Err(size + place),
                Ok((library, more)) => {
                    let library = LibraryId(library.unwrap_or(0) as u32);
                    Ok(((who, LibCall::Pool { call, library }), size + more))
                }
            }
        }
    }
}

// Reads a word of this layer's own.
fn read_verb(text: &[u8]) -> Result<(Verb, usize), usize>
    ensures { IsRead Verbs text.now result }
{
    let plain = further(
        read_bytes(Verb::Load, b"load", text),
        read_bytes(Verb::Free, b"free", text),
    );
    further(
        plain,
        read_bytes(Verb::FreeOnReturn, b"free-on-return", text),
    )
}

// Reads such a word and a library.
fn read_verb_and_library(text: &[u8]) -> Result<((Verb, u64), usize), usize>
    ensures { IsRead (Pairs Verbs (λ verb. Libraries)) text.now result }
{
    match read_verb(text) {
        Err(place) => Err(place),
        Ok((verb, size)) => {
            let (_, rest) = text.split_at(size);
            match read_library(rest) {
                Err(place) => Err(size + place),
                Ok((library, more)) => Ok(((verb, library), size + more)),
            }
        }
    }
}

// Reads a space, such a word and a library.
fn read_own_call(text: &[u8]) -> Result<((Verb, u64), usize), usize>
    ensures { IsRead OwnTexts text.now result }
{
    let Some(rest) = behind(b' ', text) else {
        return Err(0);
    };
    match read_verb_and_library(rest) {
        Ok((made, size)) => Ok((made, size + 1)),
        Err(place) => Err(place + 1),
    }
}

// Reads an actor and a call of this layer's own.
fn read_own_line(text: &[u8]) -> Result<((Who, LibCall), usize), usize>
    ensures { IsRead (LibLinesOf false) text.now result }
{
    match read_who(text) {
        Err(place) => Err(place),
        Ok((who, size)) => {
            let (_, rest) = text.split_at(size);
            match read_own_call(rest) {
                Err(place) => Err(size + place),
                Ok(((verb, number), more)) => {
                    let library = LibraryId(number as u32);
                    let call = match verb {
                        Verb::Load => LibCall::Load { library },
                        Verb::Free => LibCall::Free { library },
                        Verb::FreeOnReturn => LibCall::FreeOnReturn { library },
                    };
                    Ok(((who, call), size + more))
                }
            }
        }
    }
}
