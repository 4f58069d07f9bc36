//! The codes of what a board has beside its world.

ghost use Rattle.std.specs.Prelude.{◌≡◌, ◌++◌, OnOk};
ghost use Rattle.short_codes.specs.Codes.{each, listed};
ghost use Rattle.tp_explore.specs.Keys.{hush_code, names_code, noted_code, place_code, progress_code, stage_code, use_code, used};
ghost use Rattle.tp_explore.specs.AreKeys.{is_hush_code, is_use_code};

use crate::kept::KeptPlace;
use crate::noted::{Hush, Use};
use crate::notes::Notes;
use part_places::Place;
use row_codes::{Coded, put_all};
use short_codes::{put, put_flag};
use std::alloc::AllocError;
use tp_base::plans::Stage;
use tp_script::Progress;

impl Coded for Use {
    ghost code = { use_code };

    fn put(&self, text: &mut Vec<u8>) -> Result<(), AllocError> {
        self.who.put(text)?;
        self.memory.put(text)
    }

    ghost is_code = { is_use_code };
}

impl Coded for Hush {
    ghost code = { hush_code };

    fn put(&self, text: &mut Vec<u8>) -> Result<(), AllocError> {
        self.line.put(text)?;
        self.target.put(text)
    }

    ghost is_code = { is_hush_code };
}

/// Appends how many places there are, and the code of each.
pub(crate) fn put_places(places: &[KeptPlace], text: &mut Vec<u8>) -> Result<(), AllocError>
    ensures { OnOk result (text.new.items ≡ text.old.items ++ listed place_code places.now) }
{
    put(text, places.len() as u64)?;
    put_each(places, text)
}

fn put_each(places: &[KeptPlace], text: &mut Vec<u8>) -> Result<(), AllocError>
    ensures { OnOk result (text.new.items ≡ text.old.items ++ each place_code places.now) }
{
    for kept in places {
        put_place(&kept.place(), text)?;
    }
    Ok(())
}

fn put_place(place: &Place, text: &mut Vec<u8>) -> Result<(), AllocError>
    ensures { OnOk result (text.new.items ≡ text.old.items ++ place_code place.now) }
{
    put_stage(place.stage, text)?;
    put_flag(text, place.waits)?;
    put_progress(&place.at, text)?;
    put_flag(text, place.cut)
}

fn put_stage(stage: Stage, text: &mut Vec<u8>) -> Result<(), AllocError>
    ensures { OnOk result (text.new.items ≡ text.old.items ++ stage_code stage) }
{
    match stage {
        Stage::Playing => put(text, 0),
        Stage::Over => put(text, 1),
        Stage::Away => put(text, 2),
        Stage::Idle => put(text, 3),
        Stage::Busy { routine } => {
            put(text, 4)?;
            routine.put(text)
        }
    }
}

fn put_progress(at: &Progress, text: &mut Vec<u8>) -> Result<(), AllocError>
    ensures { OnOk result (text.new.items ≡ text.old.items ++ progress_code at.now) }
{
    at.op.put(text)?;
    at.done.put(text)?;
    put_flag(text, at.met)?;
    put_flag(text, at.ending)?;
    put_names(&at.locals, text)?;
    put_names(&at.operations, text)
}

// Most parts have few names, and most of a board's key would be their zeros.
fn put_names(names: &[u64], text: &mut Vec<u8>) -> Result<(), AllocError>
    ensures { OnOk result (text.new.items ≡ text.old.items ++ names_code names.now) }
{
    put(text, names.len() as u64)?;
    put_all(&names[..used(names)], text)
}

// How many names there are before the zeros at the end.
fn used(names: &[u64]) -> usize
    ensures { result ≡ used names.now }
{
    let mut used = 0;
    for place in 0..names.len() {
        if names[place] != 0 {
            used = place + 1;
        }
    }
    used
}

/// Appends the code of what is noted.
pub(crate) fn put_notes(notes: &Notes, text: &mut Vec<u8>) -> Result<(), AllocError>
    ensures { OnOk result (text.new.items ≡ text.old.items ++ noted_code notes.now) }
{
    put_all(&notes.freed, text)?;
    put_all(&notes.held, text)?;
    put_all(&notes.leaving, text)?;
    put_all(&notes.quiet, text)?;
    put_all(&notes.lines, text)
}
