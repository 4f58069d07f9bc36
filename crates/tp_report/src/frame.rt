//! The first line of a history's text in format 2, and the last.

ghost use Rattle.std.specs.Prelude.{◌≡◌, ◌++◌, ◌∷◌, [], OnErr, OnOk};
ghost use Rattle.tp_report.specs.Histories.{end_line, header_line, header_of};

use std::alloc::{AllocError, Global};
use tp_base::limits::Limits;

/// Appends the first line, or nothing.
pub fn append_header(
    alloc: Global,
    limits: Limits,
    events: u32,
    out: &mut Vec<u8>,
) -> Result<(), AllocError>
    ensures ok { OnOk result (out.new.items ≡ out.old.items ++ (header_line (header_of limits events) ++ 10 ∷ [])) }
    ensures err { OnErr result (out.new.items ≡ out.old.items) }
{
    let Limits {
        clients,
        workers,
        objects,
        ..
    } = limits;
    let line = format!(in alloc;
        "history 2 clients {clients} workers {workers} events {events} objects {objects}\n"
    )?;
    out.extend_from_slice(line.as_bytes())?;
    Ok(())
}

/// Appends the end line, or nothing.
pub fn append_end(alloc: Global, len: u32, out: &mut Vec<u8>) -> Result<(), AllocError>
    ensures ok { OnOk result (out.new.items ≡ out.old.items ++ (end_line len ++ 10 ∷ [])) }
    ensures err { OnErr result (out.new.items ≡ out.old.items) }
{
    let line = format!(in alloc; "end {len}\n")?;
    out.extend_from_slice(line.as_bytes())?;
    Ok(())
}
