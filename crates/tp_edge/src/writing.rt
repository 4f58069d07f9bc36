//! Giving a sink all of some bytes.

ghost use Rattle.std.specs.Prelude.{◌≡◌, ◌≤◌, OnOk, OnErr};
ghost use Rattle.tp_edge.specs.Counts.{Rose};
ghost use Rattle.tp_edge.specs.Given.{with_given, TookFirst};

use crate::sink::{Gave, Sink};

/// Why a sink did not take all of the bytes.
#[derive(Clone, Copy, Debug, PartialEq, Eq)]
pub enum WriteFault {
    /// The sink had a fault.
    Failed,
}

/// Gives `sink` all of `bytes`, each of them once. Takes no memory.
///
/// `Failed` comes only where the sink's count of faults rose in this call, and then the sink took
/// the first of the bytes and no others.
pub fn give_all<K: Sink>(sink: &mut K, bytes: &[u8]) -> Result<(), WriteFault>
    ensures ok { OnOk result (K.holds sink.new ≡ with_given bytes.now (K.holds sink.old)) }
    ensures err { OnErr result (TookFirst (K.holds sink.old) (K.holds sink.new) bytes.now) }
    ensures failed { result ≡ Err WriteFault.Failed → Rose (K.failures sink.old) (K.failures sink.new) }
    ensures never_falls { K.failures sink.old ≤ K.failures sink.new }
{
    let mut taken = 0;
    while taken < bytes.len() {
        match sink.give(&bytes[taken..]) {
            Gave::Bytes { n } => taken += n,
            Gave::Failed => return Err(WriteFault::Failed),
        }
    }
    Ok(())
}
