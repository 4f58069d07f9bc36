//! The marks that take place with an entry.

ghost use Rattle.std.specs.Prelude.{◌≡◌, ◌-◌, ◌++◌, IfOk, OnOk, map};
ghost use Rattle.std.specs.List.{flat_map, range_with_len};
ghost use Rattle.tp_base.specs.Actors.{is_same_actor};
ghost use Rattle.tp_base.specs.declared.ids.Who.TheVariants.{Client as client};
ghost use Rattle.tp_explore.specs.Faults.{client_deeds, deed, deeds, first_deeds, notice_deeds, own_deeds};

use crate::mark::{Deed, Marked};
use crate::passage::{Passage, part_in};
use crate::watches::Watches;
use std::alloc::{AllocError, Global};
use tp_base::answers::Answer;
use tp_base::ids::Who;
use tp_base::limits::Limits;
use tp_script::{Part, Progress};

/// The marks that take place with an entry, in their order.
pub(crate) fn deeds<W: Watches>(
    alloc: Global,
    watches: &W,
    limits: Limits,
    passage: &Passage,
) -> Result<Vec<Deed>, AllocError>
    ensures { IfOk result (λ all. all.items ≡ deeds (W.watched watches.now) limits passage.now.before passage.now.after passage.now.entry) }
{
    let mut deeds = Vec::new(alloc);
    add_own(&mut deeds, alloc, watches, passage)?;
    add_firsts(&mut deeds, alloc, watches, limits, passage)?;
    add_notice(&mut deeds, alloc, watches, passage)?;
    Ok(deeds)
}

// Marks of an actor take place.
fn add_deeds(
    deeds: &mut Vec<Deed>,
    who: Who,
    visits: bool,
    marks: &[Marked],
) -> Result<(), AllocError>
    ensures { OnOk result (deeds.new.items ≡ deeds.old.items ++ map (deed who visits) marks.now) }
{
    for marked in marks {
        deeds.push(Deed {
            who,
            visits,
            marked: *marked,
        })?;
    }
    Ok(())
}

// A part says what stands above the line that it has come to.
fn add_own<W: Watches>(
    deeds: &mut Vec<Deed>,
    alloc: Global,
    watches: &W,
    passage: &Passage,
) -> Result<(), AllocError>
    ensures { OnOk result (deeds.new.items ≡ deeds.old.items ++ own_deeds (W.watched watches.now) passage.now.before passage.now.after passage.now.entry) }
{
    if !passage.goes_on() {
        return Ok(());
    }
    match part_in(passage.after.stage, passage.entry.who) {
        Some(part) => {
            let marks = watches.marks(alloc, part, &passage.after.at)?;
            add_deeds(deeds, passage.entry.who, false, &marks)
        }
        None => Ok(()),
    }
}

// The other clients begin as client 1 finishes.
fn add_firsts<W: Watches>(
    deeds: &mut Vec<Deed>,
    alloc: Global,
    watches: &W,
    limits: Limits,
    passage: &Passage,
) -> Result<(), AllocError>
    ensures { OnOk result (deeds.new.items ≡ deeds.old.items ++ first_deeds (W.watched watches.now) limits passage.now.before passage.now.after passage.now.entry) }
{
    if is_first(passage.entry.who) && passage.ends_part() {
        add_clients(deeds, alloc, watches, limits.clients)
    } else {
        Ok(())
    }
}

fn add_clients<W: Watches>(
    deeds: &mut Vec<Deed>,
    alloc: Global,
    watches: &W,
    clients: u32,
) -> Result<(), AllocError>
    ensures { OnOk result (deeds.new.items ≡ deeds.old.items ++ flat_map (client_deeds (W.watched watches.now)) (range_with_len 2 (clients - 1))) }
{
    for index in 1..clients {
        add_client(deeds, alloc, watches, index + 1)?;
    }
    Ok(())
}

fn add_client<W: Watches>(
    deeds: &mut Vec<Deed>,
    alloc: Global,
    watches: &W,
    number: u32,
) -> Result<(), AllocError>
    ensures { OnOk result (deeds.new.items ≡ deeds.old.items ++ client_deeds (W.watched watches.now) number) }
{
    let marks = watches.marks(alloc, Part::Client(number), &Progress::first())?;
    add_deeds(deeds, Who::Client(number), false, &marks)
}

// A notice calls a cancel routine, which says all that it has to say.
fn add_notice<W: Watches>(
    deeds: &mut Vec<Deed>,
    alloc: Global,
    watches: &W,
    passage: &Passage,
) -> Result<(), AllocError>
    ensures { OnOk result (deeds.new.items ≡ deeds.old.items ++ notice_deeds (W.watched watches.now) passage.now.entry.who passage.now.entry.answer) }
{
    match passage.entry.answer {
        Answer::Notice { routine, .. } => {
            let marks = watches.all_marks(alloc, routine)?;
            add_deeds(deeds, passage.entry.who, true, &marks)
        }
        _ => Ok(()),
    }
}

fn is_first(who: Who) -> bool
    ensures { result ≡ is_same_actor who (client 1) }
{
    matches!(who, Who::Client(1))
}
