//! Where all actors are, as boards keep it. A call changes the place of one actor, and seldom what its names stand for, so
//! boards have these in common.

ghost use Rattle.std.specs.Prelude.{◌≡◌, map, slice_set, IfOk};
ghost use Rattle.tp_base.specs.Ranges.{AreLimitsInRange};
ghost use Rattle.part_places.specs.Places.{given, opening, part_in, place_after};
ghost use Rattle.renamed_worlds.specs.Closed.{place_of as place_of_number};
ghost use Rattle.tp_explore.specs.Boards.{actors, place_at, place_in_row};
ghost use Rattle.tp_explore.specs.Closing.{named_in, named_place, named_row};
ghost use Rattle.tp_explore.specs.Exchanging.{rearranged_places};

use crate::passage::part_in;
use crate::places::{Row, actor_of, first_places, place_in_row};
use part_places::Place;
use plain_worlds::{exchange, place_of};
use std::alloc::{AllocError, Global};
use std::marker::Model;
use std::rc::Rc;
use tp_base::answers::Answer;
use tp_base::calls::Call;
use tp_base::ids::Who;
use tp_base::limits::Limits;
use tp_base::plans::Stage;
use tp_base::rows::CallbackRow;
use tp_script::{Part, Progress, Routines};

/// A place, whose names may be those of other places, too.
#[derive(Drop)]
pub(crate) struct KeptPlace {
    locals: Rc<[u64; 32]>,
    operations: Rc<[u64; 32]>,
    stage: Stage,
    op: u32,
    done: u32,
    met: bool,
    ending: bool,
    waits: bool,
    cut: bool,
}

impl Model for KeptPlace {
    ghost use Rattle.part_places.specs.declared.place.Place.{Place};

    ghost Value = { Place };

    ghost view = { λ a. record {
      stage = a.stage;
      waits = a.waits;
      at = record { op = a.op; done = a.done; met = a.met; ending = a.ending; locals = a.locals.value; operations = a.operations.value };
      cut = a.cut;
    } };
}

impl KeptPlace {
    fn with(locals: Rc<[u64; 32]>, operations: Rc<[u64; 32]>, place: &Place) -> KeptPlace
        ensures { result ≡ record place.now { at = record place.now.at { locals = locals.value; operations = operations.value } } }
    {
        KeptPlace {
            locals,
            operations,
            stage: place.stage,
            op: place.at.op,
            done: place.at.done,
            met: place.at.met,
            ending: place.at.ending,
            waits: place.waits,
            cut: place.cut,
        }
    }

    // A place that has names of its own.
    fn new(alloc: Global, place: &Place) -> Result<KeptPlace, AllocError>
        ensures { IfOk result (λ kept. kept ≡ place.now) }
    {
        let locals = Rc::new(alloc, place.at.locals)?;
        let operations = Rc::new(alloc, place.at.operations)?;
        Ok(KeptPlace::with(locals, operations, place))
    }

    // A place behind this one: where its names are the same, the two have them in common.
    fn behind(&self, alloc: Global, place: &Place) -> Result<KeptPlace, AllocError>
        ensures { IfOk result (λ kept. kept ≡ place.now) }
    {
        let locals = in_common(alloc, &self.locals, &place.at.locals)?;
        let operations = in_common(alloc, &self.operations, &place.at.operations)?;
        Ok(KeptPlace::with(locals, operations, place))
    }

    // The place of an actor with its names forgotten: it names callbacks by their places among these.
    fn close(
        &self,
        alloc: Global,
        who: Who,
        callbacks: &[CallbackRow],
    ) -> Result<KeptPlace, AllocError>
        requires { place_of_number callbacks.now 0 ≡ 0 }
        ensures { IfOk result (λ kept. kept ≡ named_place (place_of_number callbacks.now) who self.now) }
    {
        let mut place = self.place();
        name_at(&mut place.at, part_in(self.stage, who), callbacks);
        self.behind(alloc, &place)
    }

    /// It, with its names.
    pub(crate) fn place(&self) -> Place
        ensures { result ≡ self.now }
    {
        Place {
            stage: self.stage,
            waits: self.waits,
            at: Progress {
                op: self.op,
                done: self.done,
                met: self.met,
                ending: self.ending,
                locals: *self.locals,
                operations: *self.operations,
            },
            cut: self.cut,
        }
    }
}

// These numbers, kept in common with others that are the same.
fn in_common(
    alloc: Global,
    kept: &Rc<[u64; 32]>,
    numbers: &[u64; 32],
) -> Result<Rc<[u64; 32]>, AllocError>
    ensures { IfOk result (λ names. names.value ≡ numbers.now) }
{
    if **kept == *numbers {
        kept.clone()
    } else {
        Ok(Rc::new(alloc, *numbers)?)
    }
}

// Puts the places of callbacks for the numbers of operations that a part knows. Who makes no calls of a part knows nothing.
fn name_at(at: &mut Progress, part: Option<Part>, callbacks: &[CallbackRow])
    requires { place_of_number callbacks.now 0 ≡ 0 }
    ensures { at.new ≡ named_in part (place_of_number callbacks.now) at.old }
{
    match part {
        Some(_) => name_by_place(&mut at.operations, callbacks),
        None => *at = Progress::first(),
    }
}

// Puts the places of callbacks for their numbers.
fn name_by_place(numbers: &mut [u64], callbacks: &[CallbackRow])
    requires { place_of_number callbacks.now 0 ≡ 0 }
    ensures { numbers.new ≡ map (place_of_number callbacks.now) numbers.old }
{
    for index in 0..numbers.len() {
        if numbers[index] != 0 {
            numbers[index] = place_of(callbacks, numbers[index]);
        }
    }
}

impl Clone for KeptPlace {
    ghost is_clone = { λ a copy. copy ≡ a };

    fn clone(&self) -> Result<KeptPlace, AllocError> {
        Ok(KeptPlace {
            locals: self.locals.clone()?,
            operations: self.operations.clone()?,
            stage: self.stage,
            op: self.op,
            done: self.done,
            met: self.met,
            ending: self.ending,
            waits: self.waits,
            cut: self.cut,
        })
    }
}

/// Where all actors are, in a row.
#[derive(Drop)]
pub(crate) struct KeptRow {
    places: Vec<KeptPlace>,
}

impl Model for KeptRow {
    ghost use Rattle.std.specs.Prelude.{List};
    ghost use Rattle.part_places.specs.declared.place.Place.{Place};

    ghost Value = { List Place };

    ghost view = { λ a. a.places.items };
}

impl Row for KeptRow {
    ghost places_of = { λ a. a };

    fn at(&self, limits: &Limits, who: Who) -> Place {
        match self.places.get(place_in_row(limits, who)) {
            Some(kept) => kept.place(),
            None => Place::opening(who),
        }
    }
}

impl KeptRow {
    /// Before the first call.
    pub(crate) fn first(alloc: Global, limits: &Limits) -> Result<KeptRow, AllocError>
        requires { AreLimitsInRange limits.now }
        ensures { IfOk result (λ row. row ≡ map opening (actors limits.now)) }
    {
        let places = first_places(alloc, limits)?;
        let mut kept = Vec::new(alloc);
        for place in &places {
            kept.push(KeptPlace::new(alloc, place)?)?;
        }
        Ok(KeptRow { places: kept })
    }

    /// Where all are behind a call of an actor and its answer.
    pub(crate) fn behind<R: Routines>(
        &self,
        alloc: Global,
        limits: &Limits,
        routines: &R,
        who: Who,
        call: &Call,
        answer: &Answer,
    ) -> Result<KeptRow, AllocError>
        ensures { IfOk result (λ behind. behind ≡ slice_set self.now (place_in_row limits.now who) (place_after (given R.next_of R.after_of routines.now) who (place_at limits.now self.now who) call.now answer.now)) }
    {
        let mut place = self.at(limits, who);
        place.goes_on(who, routines, true, call, answer);
        self.with(alloc, place_in_row(limits, who), &place)
    }

    // The same with another place at an index, if one is there.
    fn with(&self, alloc: Global, index: usize, place: &Place) -> Result<KeptRow, AllocError>
        ensures { IfOk result (λ row. row ≡ slice_set self.now index place.now) }
    {
        let mut places = Vec::from_clones(alloc, &self.places)?;
        if index < places.len() {
            places[index] = places[index].behind(alloc, place)?;
        }
        Ok(KeptRow { places })
    }

    /// The same with the names forgotten: callbacks are named by their places among these.
    pub(crate) fn close(
        &self,
        alloc: Global,
        limits: &Limits,
        callbacks: &[CallbackRow],
    ) -> Result<KeptRow, AllocError>
        requires { place_of_number callbacks.now 0 ≡ 0 }
        ensures { IfOk result (λ row. row ≡ named_row limits.now (place_of_number callbacks.now) 0 self.now) }
    {
        let mut places = Vec::with_capacity(alloc, self.places.len())?;
        let mut number: u32 = 0;
        for kept in &self.places {
            // No machine has so many actors.
            number = number.checked_add(1).ok_or(AllocError)?;
            places.push(kept.close(alloc, actor_of(limits, number), callbacks)?)?;
        }
        Ok(KeptRow { places })
    }

    /// The same behind these exchanges of neighbouring workers, one after another.
    pub(crate) fn rearranged(
        &self,
        alloc: Global,
        limits: &Limits,
        order: &[u16],
    ) -> Result<KeptRow, AllocError>
        ensures { IfOk result (λ row. row ≡ rearranged_places limits.now order.now self.now) }
    {
        let mut places = Vec::from_clones(alloc, &self.places)?;
        for at in order {
            exchange(limits.clients as usize + *at as usize, &mut places);
        }
        Ok(KeptRow { places })
    }

    /// Its places.
    pub(crate) fn places(&self) -> &[KeptPlace]
        ensures { result.now ≡ self.now }
    {
        &self.places
    }
}
