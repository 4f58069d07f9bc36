//! Reading a source to its end.

ghost use Rattle.std.specs.Prelude.{◌≡◌, ℕ, ◌^◌, ◌<◌, ◌≤◌, List, IfOk, OnOk};
ghost use Rattle.tp_edge.specs.Counts.{Rose};
ghost use Rattle.tp_edge.specs.Reading.{IsRead};
ghost use Rattle.tp_edge.specs.Taken.{behind, AreAll, IsAbove, IsEnded};

use crate::source::{Source, Took};
use std::alloc::{AllocError, Global};

/// How many bytes the first request asks for. Each asks for so many more than there are, up to the most.
const FIRST: usize = 4_096;

/// The most bytes that one request asks for.
const MOST: usize = 65_536;

/// For how many bytes memory is taken at first. What isn't needed of it is never touched, and no byte moves to
/// another place as long as there are no more.
const ROOM: usize = 1 << 20;

/// Why a source was not read to its end.
#[derive(Clone, Copy, Debug, PartialEq, Eq)]
pub enum ReadFault {
    /// Memory was refused.
    NoMemory,
    /// The source had a fault.
    Failed,
    /// The source has more bytes than the limit.
    TooLong,
}

impl From<AllocError> for ReadFault {
    ghost use Rattle.tp_edge.specs.declared.reading.ReadFault.TheVariants.{NoMemory};

    ghost from_gives = { λ _ fault. fault ≡ NoMemory };

    fn from(_error: AllocError) -> Self {
        ReadFault::NoMemory
    }
}

/// Reads `source` to its end, and answers all of its bytes, of which there may be `limit`, a
/// number below 2^32.
///
/// `TooLong` comes exactly where `limit + 1` bytes were taken, and no more are taken then.
/// `Failed` comes only where the source's count of faults rose in this call. `NoMemory` comes where
/// memory was refused. What was taken before a fault is gone.
pub fn read_all<S: Source>(
    alloc: Global,
    source: &mut S,
    limit: usize,
) -> Result<Vec<u8>, ReadFault>
    requires { limit < 2 ^ 32 }
    ensures whole { IfOk result (λ bytes. AreAll bytes.items (S.left source.old)) }
    ensures ended { OnOk result (IsEnded (S.left source.new)) }
    ensures too_long { result ≡ Err ReadFault.TooLong → IsAbove limit (S.left source.old) }
    ensures taken { (taken : List ℕ) × (S.left source.old ≡ behind taken (S.left source.new)) × IsRead result limit taken }
    ensures failed { result ≡ Err ReadFault.Failed → Rose (S.failures source.old) (S.failures source.new) }
    ensures never_falls { S.failures source.old ≤ S.failures source.new }
{
    let mut bytes = Vec::with_capacity(alloc, ROOM)?;
    let mut len = 0;
    loop {
        let room = (len + FIRST).min(MOST).min(limit + 1 - len);
        bytes.resize(len + room, 0)?;
        match source.take(&mut bytes[len..]) {
            Took::Bytes { n } => {
                if limit - len < n {
                    return Err(ReadFault::TooLong);
                }
                len += n;
            }
            Took::End => {
                bytes.truncate(len);
                return Ok(bytes);
            }
            Took::Failed => return Err(ReadFault::Failed),
        }
    }
}
