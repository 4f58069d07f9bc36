//! An entry, between the places of its actor.

ghost use Rattle.std.specs.Prelude.{◌≡◌};
ghost use Rattle.part_places.specs.Places.{part_in};
ghost use Rattle.tp_model.specs.Stages.{is_in_part};
ghost use Rattle.tp_explore.specs.Faults.{ends_part};
ghost use Rattle.tp_explore.specs.Ended.{goes_on, makes_object};

use part_places::Place;
use tp_base::answers::{Answer, Entry};
use tp_base::calls::Call;
use tp_base::ids::Who;
use tp_base::plans::Stage;
use tp_script::Part;

/// An entry, and where its actor was before it and is behind it.
#[derive(Clone, Copy)]
pub struct Passage {
    pub entry: Entry,
    pub before: Place,
    pub after: Place,
}

impl Passage {
    /// Whether it ends a part of its actor.
    pub(crate) fn ends_part(&self) -> bool
        ensures { result ≡ ends_part self.now.before self.now.after }
    {
        is_in_part(self.before.stage) && !is_in_part(self.after.stage)
    }

    /// Whether it makes an object.
    pub(crate) fn makes_object(&self) -> bool
        ensures { result ≡ makes_object self.now.entry }
    {
        matches!(self.entry.call, Call::Create { .. })
            && matches!(self.entry.answer, Answer::Made { .. })
    }

    /// Whether its actor comes to another place of its part.
    pub(crate) fn goes_on(&self) -> bool
        ensures { result ≡ goes_on self.now.before self.now.after self.now.entry }
    {
        matches!(self.entry.answer, Answer::Taken { .. }) || self.before.at.op != self.after.at.op
    }
}

fn is_in_part(stage: Stage) -> bool
    ensures { result ≡ is_in_part stage }
{
    matches!(stage, Stage::Playing | Stage::Busy { .. })
}

/// The part that an actor plays at a stage, if it plays one.
pub(crate) fn part_in(stage: Stage, who: Who) -> Option<Part>
    ensures { result ≡ part_in stage who }
{
    match (stage, who) {
        (Stage::Playing, Who::Client(number)) => Some(Part::Client(number)),
        (Stage::Busy { routine }, _) => Some(Part::Routine(routine)),
        _ => None,
    }
}
