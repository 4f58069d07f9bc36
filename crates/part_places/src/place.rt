//! Where an actor is in its work.

ghost use Rattle.std.specs.Prelude.{◌≡◌, true, false, IfSome, is_some};
ghost use Rattle.tp_base.specs.Ranges.{IsCallInRange};
ghost use Rattle.tp_model.specs.Stages.{first_stage, stage_after, waits_after};
ghost use Rattle.tp_script.specs.Calls.{IsOfPart};
ghost use Rattle.part_places.specs.Places.{given, is_last, is_taken, next_call, next_in, opening, part_in, place_after, progress_after, told_in};

use tp_base::answers::Answer;
use tp_base::calls::Call;
use tp_base::ids::Who;
use tp_base::plans::Stage;
use tp_script::{Part, Progress, Routines};

/// Where an actor is in its work, which its own entries tell.
#[derive(Clone, Copy)]
pub struct Place {
    pub stage: Stage,
    /// A wait of it is begun.
    pub waits: bool,
    /// How far it has come in its part, where it plays one.
    pub at: Progress,
    /// It has ended a part before the part's last call.
    pub cut: bool,
}

impl Place {
    /// Before the first call of an actor.
    pub fn opening(who: Who) -> Place
        ensures { result ≡ opening who }
    {
        Place {
            stage: first_stage(who),
            waits: false,
            at: Progress::first(),
            cut: false,
        }
    }

    /// The next call of the actor's part, or None where it makes no further one: while a wait is begun its end.
    #[inline(always)]
    pub fn next_call<R: Routines>(&self, who: Who, routines: &R) -> Option<Call>
        ensures value { result ≡ next_call (given R.next_of R.after_of routines.now) who self.now }
        ensures in_range { IfSome result IsCallInRange }
        ensures of_part { IfSome result IsOfPart }
    {
        if self.waits {
            Some(Call::End)
        } else {
            self.next_in(who, routines)
        }
    }

    /// The same while no wait is begun.
    #[inline(always)]
    pub fn next_in<R: Routines>(&self, who: Who, routines: &R) -> Option<Call>
        ensures value { result ≡ next_in (given R.next_of R.after_of routines.now) (part_in self.now.stage who) self.now.at }
        ensures in_range { IfSome result IsCallInRange }
        ensures of_part { IfSome result IsOfPart }
    {
        match part_in(self.stage, who) {
            Some(part) => routines.next(part, &self.at),
            None => None,
        }
    }

    /// Goes on behind a call of the actor and its answer. A last call that it makes unmarked cuts nothing, so only behind a
    /// marked one the part is asked for a further call.
    #[inline(always)]
    pub fn goes_on<R: Routines>(
        &mut self,
        who: Who,
        routines: &R,
        marked: bool,
        call: &Call,
        answer: &Answer,
    )
        requires { marked ≡ false → is_last call.now ≡ true → is_some (next_call (given R.next_of R.after_of routines.now) who self.old) ≡ false }
        ensures { self.new ≡ place_after (given R.next_of R.after_of routines.now) who self.old call.now answer.now }
    {
        self.cut = self.cut || (is_last(call) && marked && self.next_call(who, routines).is_some());
        self.progresses(who, routines, call, answer);
        self.stage = stage_after(self.stage, call, answer);
        self.waits = waits_after(self.waits, call, answer);
    }

    // The same for how far it has come in its part alone.
    #[inline(always)]
    fn progresses<R: Routines>(&mut self, who: Who, routines: &R, call: &Call, answer: &Answer)
        ensures { self.new ≡ record self.old { at = progress_after (given R.next_of R.after_of routines.now) who self.old call.now answer.now } }
    {
        if is_taken(answer) {
            self.at = Progress::first();
        } else if !is_last(call) {
            self.is_told(who, routines, answer);
        }
    }

    // Takes note of the answer to a call of its part.
    fn is_told<R: Routines>(&mut self, who: Who, routines: &R, answer: &Answer)
        ensures { self.new ≡ record self.old { at = told_in (given R.next_of R.after_of routines.now) (part_in self.old.stage who) self.old.at answer.now } }
    {
        if let Some(part) = part_in(self.stage, who) {
            routines.after(part, &mut self.at, *answer);
        }
    }
}

fn first_stage(who: Who) -> Stage
    ensures { result ≡ first_stage who }
{
    match who {
        Who::Client(_) => Stage::Playing,
        Who::Worker(_) => Stage::Away,
    }
}

// Whose calls an actor makes at a stage.
fn part_in(stage: Stage, who: Who) -> Option<Part>
    ensures { result ≡ part_in stage who }
{
    match stage {
        Stage::Playing => match who {
            Who::Client(number) => Some(Part::Client(number)),
            Who::Worker(_) => None,
        },
        Stage::Busy { routine } => Some(Part::Routine(routine)),
        Stage::Over | Stage::Away | Stage::Idle => None,
    }
}

fn stage_after(stage: Stage, call: &Call, answer: &Answer) -> Stage
    ensures { result ≡ stage_after stage call.now answer.now }
{
    match (stage, call, answer) {
        (Stage::Playing, Call::Finish, Answer::Done) => Stage::Over,
        (Stage::Away, Call::Attach, Answer::Attached { .. }) => Stage::Idle,
        (Stage::Idle, Call::Detach, Answer::Done) => Stage::Away,
        (Stage::Idle, Call::Take, Answer::Taken { routine, .. }) => Stage::Busy {
            routine: *routine,
        },
        (Stage::Busy { .. }, Call::Return, Answer::Returned { .. }) => Stage::Idle,
        _ => stage,
    }
}

// Whether a wait is begun behind a call, by whether one was before it.
fn waits_after(waits: bool, call: &Call, answer: &Answer) -> bool
    ensures { result ≡ waits_after waits call.now answer.now }
{
    match answer {
        Answer::Begun { .. } | Answer::Closing { .. } => true,
        Answer::Done => waits || matches!(call, Call::BeginAcquire { .. }),
        Answer::Ended | Answer::Exhausted | Answer::Stalled => false,
        _ => waits,
    }
}

// Whether a call ends a part.
fn is_last(call: &Call) -> bool
    ensures { result ≡ is_last call.now }
{
    matches!(call, Call::Finish | Call::Return)
}

fn is_taken(answer: &Answer) -> bool
    ensures { result ≡ is_taken answer.now }
{
    matches!(answer, Answer::Taken { .. })
}
