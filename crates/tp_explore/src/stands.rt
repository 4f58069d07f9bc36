//! Where those are who have made calls, whoever they are: a history also tells of actors that there aren't, to whom each
//! call is refused.

ghost use Rattle.std.specs.Prelude.{◌≡◌, IfOk, OnOk, not};
ghost use Rattle.std.specs.List.{filter};
ghost use Rattle.part_places.specs.Places.{given};
ghost use Rattle.tp_explore.specs.Stands.{is_of_actor, passage_of, place_of, with_stand};

use crate::notes::is_same_actor;
use crate::passage::Passage;
use part_places::Place;
use std::alloc::AllocError;
use tp_base::answers::Entry;
use tp_base::ids::Who;
use tp_script::Routines;

/// Where an actor is.
#[derive(Clone, Copy)]
pub(crate) struct Stand {
    pub who: Who,
    pub place: Place,
}

/// Where an actor is. Who has made no call is where all begin.
pub(crate) fn place_of(stands: &[Stand], who: Who) -> Place
    ensures { result ≡ place_of stands.now who }
{
    for stand in stands {
        if is_same_actor(stand.who, who) {
            return stand.place;
        }
    }
    Place::opening(who)
}

/// The actor of an entry goes on behind it. Answers where it was, and where it is now.
pub(crate) fn pass<R: Routines>(
    stands: &mut Vec<Stand>,
    routines: &R,
    entry: &Entry,
) -> Result<Passage, AllocError>
    ensures passage { IfOk result (λ passage. passage ≡ passage_of (given R.next_of R.after_of routines.now) (place_of stands.old.items) entry.now) }
    ensures stands { OnOk result (stands.new.items ≡ with_stand entry.now.who (passage_of (given R.next_of R.after_of routines.now) (place_of stands.old.items) entry.now).after stands.old.items) }
{
    let before = place_of(stands, entry.who);
    let mut after = before;
    after.goes_on(entry.who, routines, true, &entry.call, &entry.answer);
    stand_at(stands, entry.who, after)?;
    Ok(Passage {
        entry: *entry,
        before,
        after,
    })
}

// An actor is at another place now.
fn stand_at(stands: &mut Vec<Stand>, who: Who, place: Place) -> Result<(), AllocError>
    ensures { OnOk result (stands.new.items ≡ with_stand who place stands.old.items) }
{
    remove(stands, who);
    stands.push(Stand { who, place })?;
    Ok(())
}

fn remove(stands: &mut Vec<Stand>, who: Who)
    ensures { stands.new.items ≡ filter (λ (s : Stand). not (is_of_actor who s)) stands.old.items }
{
    stands.retain(|stand| !is_same_actor(stand.who, who));
}
