//! Where all actors of a machine are, in a row: the clients, then the workers.

ghost use Rattle.std.specs.Prelude.{◌≡◌, ◌*◌, ◌+◌, ◌<◌, ◌^◌, map, slice_get, slice_set, IfOk, IfSome};
ghost use Rattle.tp_base.specs.Ranges.{AreLimitsInRange, IsCallInRange};
ghost use Rattle.tp_model.specs.World.{World};
ghost use Rattle.part_places.specs.Places.{given, opening, place_after};
ghost use Rattle.tp_explore.specs.Boards.{actor_of, actors, call_by, mover, place_at, place_in_row, turn_in, width_of};
ghost use Rattle.tp_explore.specs.Scenes.{has_turn, turns_at};

use part_places::Place;
use std::alloc::{AllocError, Global};
use tp_base::answers::Answer;
use tp_base::calls::Call;
use tp_base::ids::Who;
use tp_base::limits::Limits;
use tp_base::plans::Stage;
use tp_script::Routines;

/// The actor of a number from 1.
pub(crate) fn actor_of(limits: &Limits, number: u32) -> Who
    ensures { result ≡ actor_of limits.now number }
{
    if number <= limits.clients {
        Who::Client(number)
    } else {
        Who::Worker(number - limits.clients)
    }
}

// How many moves there are: two for each actor.
pub(crate) fn width(limits: &Limits) -> u32
    requires { AreLimitsInRange limits.now }
    ensures { result ≡ width_of limits.now }
{
    (limits.clients + limits.workers) * 2
}

// Whose move it is.
pub(crate) fn mover(limits: &Limits, by: u32) -> Who
    ensures { result ≡ mover limits.now by }
{
    actor_of(limits, by / 2 + 1)
}

/// Where in the row an actor stands.
pub(crate) fn place_in_row(limits: &Limits, who: Who) -> usize
    ensures { result ≡ place_in_row limits.now who }
{
    match who {
        Who::Client(number) => number.saturating_sub(1) as usize,
        Who::Worker(number) => limits.clients as usize + number.saturating_sub(1) as usize,
    }
}

// Before the first call.
pub(crate) fn first_places(alloc: Global, limits: &Limits) -> Result<Vec<Place>, AllocError>
    requires { AreLimitsInRange limits.now }
    ensures { IfOk result (λ places. places.items ≡ map opening (actors limits.now)) }
{
    let mut places = Vec::new(alloc);
    for number in 0..limits.clients {
        places.push(Place::opening(Who::Client(number + 1)))?;
    }
    for number in 0..limits.workers {
        places.push(Place::opening(Who::Worker(number + 1)))?;
    }
    Ok(places)
}

/// The places of all actors, in a row.
pub(crate) trait Row {
    ghost use Rattle.std.specs.Prelude.{List};
    ghost use Rattle.part_places.specs.declared.place.Place.{Place};

    ghost places_of: { Self → List Place };

    /// Where an actor is.
    fn at(&self, limits: &Limits, who: Who) -> Place
        ensures { result ≡ place_at limits.now (places_of self.now) who };
}

impl Row for Vec<Place> {
    ghost places_of = { λ a. a.items };

    fn at(&self, limits: &Limits, who: Who) -> Place {
        match self.get(place_in_row(limits, who)) {
            Some(place) => *place,
            None => Place::opening(who),
        }
    }
}

// Whether an actor may have a turn: client 1 makes its calls before all others.
fn has_turn<P: Row>(limits: &Limits, places: &P, who: Who) -> bool
    ensures { (w : World) → result ≡ has_turn (record { world = w; places = place_at limits.now (P.places_of places.now) }) who }
{
    matches!(who, Who::Client(1)) || matches!(places.at(limits, Who::Client(1)).stage, Stage::Over)
}

// The turn of a number from 0 that an actor has at a place.
fn turn_at<R: Routines>(place: &Place, who: Who, routines: &R, number: u32) -> Option<Call>
    ensures value { result ≡ slice_get (turns_at (given R.next_of R.after_of routines.now) who place.now) number }
    ensures in_range { IfSome result IsCallInRange }
{
    match (place.stage, number) {
        (Stage::Playing, 0) => Some(place.next_call(who, routines).unwrap_or(Call::Finish)),
        (Stage::Busy { .. }, 0) => Some(place.next_call(who, routines).unwrap_or(Call::Return)),
        (Stage::Away, 0) => Some(Call::Attach),
        (Stage::Idle, 0) => Some(Call::Take),
        (Stage::Idle, 1) => Some(Call::Detach),
        _ => None,
    }
}

// The turn of a number that an actor has.
fn turn_in<P: Row, R: Routines>(
    limits: &Limits,
    places: &P,
    routines: &R,
    who: Who,
    number: u32,
) -> Option<Call>
    ensures value { (w : World) → result ≡ turn_in (given R.next_of R.after_of routines.now) (record { world = w; places = place_at limits.now (P.places_of places.now) }) who number }
    ensures in_range { IfSome result IsCallInRange }
{
    if has_turn(limits, places, who) {
        turn_at(&places.at(limits, who), who, routines, number)
    } else {
        None
    }
}

// The call that a move makes, if it makes one.
pub(crate) fn call_by<P: Row, R: Routines>(
    limits: &Limits,
    places: &P,
    routines: &R,
    by: u32,
) -> Option<Call>
    ensures value { (w : World) → result ≡ call_by (given R.next_of R.after_of routines.now) limits.now (record { world = w; places = place_at limits.now (P.places_of places.now) }) by }
    ensures in_range { IfSome result IsCallInRange }
{
    turn_in(limits, places, routines, mover(limits, by), by % 2)
}

// The actor goes on behind a call and its answer.
pub(crate) fn go_on<R: Routines>(
    limits: &Limits,
    places: &mut Vec<Place>,
    routines: &R,
    who: Who,
    call: &Call,
    answer: &Answer,
)
    ensures { places.new.items ≡ slice_set places.old.items (place_in_row limits.now who) (place_after (given R.next_of R.after_of routines.now) who (place_at limits.now places.old.items who) call.now answer.now) }
{
    let index = place_in_row(limits, who);
    let mut place = places.at(limits, who);
    place.goes_on(who, routines, true, call, answer);
    if index < places.len() {
        places[index] = place;
    }
}
