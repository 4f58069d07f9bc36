//! What one actor does next, on a machine of its own.

ghost use Rattle.std.specs.Prelude.{◌≡◌, ◌≤◌, true, false, IfSome};
ghost use Rattle.tp_base.specs.Ranges.{IsCallInRange};
ghost use Rattle.tp_model.specs.History.{IsLegal};
ghost use Rattle.tp_model.specs.Stages.{is_in_part};
ghost use Rattle.tp_script.specs.Calls.{IsOfPart};
ghost use Rattle.turn_lock.specs.Histories.{own};
ghost use Rattle.part_places.specs.Places.{given, next_call};
ghost use Rattle.worker_gate.specs.Roles.{due_of, due_or, ends, is_idle_take, is_last_turn, is_open, new_role, took, turn_by, turned, who_of, HasTurned, IsOf};
ghost use Rattle.worker_gate.specs.Runs.{is_over_in};

use part_places::Place;
use recorded::Recorded;
use tp_base::answers::{Answer, Look, Outcome};
use tp_base::calls::Call;
use tp_base::ids::Who;
use tp_base::plans::Stage;
use tp_script::Routines;

/// What stands before each callback of a worker.
pub trait Gate {
    /// Is called once for a callback, behind its `Take` and before the first call of its routine, with
    /// the number of the worker and that of the callback, both from 1.
    fn before(&self, worker: u32, callback: u64);
}

/// What a turn comes to.
#[derive(Clone, Copy)]
pub enum Turn {
    /// A call was made, and accepted or refused.
    Moved,
    /// Nothing happened: the call came to a look or Full, or another seat had the turn.
    Waiting,
    /// The actor makes no further call.
    Ended,
}

impl Turn {
    // Whether the actor has ended.
    pub(crate) fn is_last(self) -> bool
        ensures { result ≡ is_last_turn self }
    {
        matches!(self, Turn::Ended)
    }
}

/// What one actor does next. It stands for the entries that its actor has made.
#[derive(Clone, Copy)]
pub struct Role {
    pub(crate) who: Who,
    pub(crate) place: Place,
    // Its last call came to Full, or to a look from Take.
    pub(crate) marked: bool,
    pub(crate) ended: bool,
}

impl Role {
    /// The role of a client, from 1, that has made no call.
    pub fn client(number: u32) -> Role
        requires { 1 ≤ number }
        ensures { result ≡ new_role (Who.Client number) }
    {
        Role::new(Who::Client(number))
    }

    /// The role of a worker, from 1, that has made no call.
    pub fn worker(number: u32) -> Role
        requires { 1 ≤ number }
        ensures { result ≡ new_role (Who.Worker number) }
    {
        Role::new(Who::Worker(number))
    }

    fn new(who: Who) -> Role
        ensures { result ≡ new_role who }
    {
        Role {
            who,
            place: Place::opening(who),
            marked: false,
            ended: false,
        }
    }

    /// Whether it has ended a part before the part's last call, since the history had no room for that.
    pub fn is_cut(&self) -> bool
        ensures { result ≡ self.now.place.cut }
    {
        self.place.cut
    }

    // Whether it is a client that hasn't finished.
    #[inline(always)]
    pub(crate) fn is_open(&self) -> bool
        ensures { result ≡ is_open self.now.place.stage }
    {
        matches!(self.place.stage, Stage::Playing)
    }

    /// Plays one turn on a machine.
    ///
    /// A client that has finished, and a worker that runs nothing where all is over, has ended. Every
    /// other role makes its due call: the end of a wait that is begun; else for a client, and for a
    /// worker in a callback, the next call of its part, or Finish or Return where there is none or
    /// the last one came to Full; else Attach for a worker without a pool, and Take for one with a
    /// pool, or Detach where that came to nothing before.
    ///
    /// The calls are those of `routines`, and `gate` is asked before each callback.
    pub fn turn<B: Recorded, R: Routines, G: Gate>(
        &mut self,
        book: &mut B,
        routines: &R,
        gate: &G,
    ) -> Turn
        requires of { IsOf (given R.next_of R.after_of routines.now) (B.recording book.old).limits (B.recording book.old).capacity (B.recording book.old).history (own (who_of self.old) (B.recording book.old).history) self.old }
        ensures role { self.new ≡ (turned (given R.next_of R.after_of routines.now) (B.recording book.old).limits (B.recording book.old).capacity (B.recording book.old).history self.old).role }
        ensures book { B.recording book.new ≡ record (B.recording book.old) { history = (turned (given R.next_of R.after_of routines.now) (B.recording book.old).limits (B.recording book.old).capacity (B.recording book.old).history self.old).history } }
        ensures turn { result ≡ (turned (given R.next_of R.after_of routines.now) (B.recording book.old).limits (B.recording book.old).capacity (B.recording book.old).history self.old).turn }
        ensures of { IsOf (given R.next_of R.after_of routines.now) (B.recording book.new).limits (B.recording book.new).capacity (B.recording book.new).history (own (who_of self.new) (B.recording book.new).history) self.new }
        ensures legal { is_last_turn result ≡ false → IsLegal (B.recording book.new).limits (B.recording book.new).capacity (B.recording book.new).history }
    {
        if self.is_done(book) {
            return self.ends();
        }
        let call = self.due(routines);
        let mut outcome = Outcome::Look(Look::Stay);
        self.makes(book, routines, gate, &call, &mut outcome)
    }

    // Whether it makes no further call.
    fn is_done<B: Recorded>(&self, book: &B) -> bool
        ensures { result ≡ ends (B.recording book.now).limits (B.recording book.now).capacity (B.recording book.now).history self.now }
    {
        self.ended
            || match self.place.stage {
                Stage::Playing | Stage::Busy { .. } => false,
                Stage::Over => true,
                Stage::Away | Stage::Idle => book.is_over(),
            }
    }

    // A turn of a round, with a place for what its call comes to. A call that is of no part is known where it is made, and
    // isn't told apart once more. Where a client is known not to have finished, whether all is over isn't asked. It is
    // large, and compiled into the loop of a round since it is called there alone.
    #[inline(always)]
    pub(crate) fn turn_into<B: Recorded, R: Routines, G: Gate>(
        &mut self,
        book: &mut B,
        routines: &R,
        gate: &G,
        any_open: bool,
        outcome: &mut Outcome,
    ) -> Turn
        requires of { IsOf (given R.next_of R.after_of routines.now) (B.recording book.old).limits (B.recording book.old).capacity (B.recording book.old).history (own (who_of self.old) (B.recording book.old).history) self.old }
        requires any_open { any_open ≡ true → is_over_in (B.recording book.old).limits (B.recording book.old).capacity (B.recording book.old).history ≡ false }
        ensures { HasTurned (given R.next_of R.after_of routines.now) (B.recording book.old) (B.recording book.new) self.old self.new result }
    {
        if self.ended {
            return Turn::Ended;
        }
        if self.place.waits {
            return self.makes(book, routines, gate, &Call::End, outcome);
        }
        match self.place.stage {
            Stage::Playing | Stage::Busy { .. } => self.plays(book, routines, gate, outcome),
            Stage::Over => self.ends(),
            Stage::Away | Stage::Idle if !any_open && book.is_over() => self.ends(),
            Stage::Away => self.makes(book, routines, gate, &Call::Attach, outcome),
            Stage::Idle if self.marked => self.makes(book, routines, gate, &Call::Detach, outcome),
            Stage::Idle => self.makes(book, routines, gate, &Call::Take, outcome),
        }
    }

    // Makes no further call.
    fn ends(&mut self) -> Turn
        ensures role { self.new ≡ record self.old { ended = true } }
        ensures turn { result ≡ Turn.Ended }
    {
        self.ended = true;
        Turn::Ended
    }

    // Makes the due call of its part, where it plays one and waits for nothing.
    #[inline(always)]
    fn plays<B: Recorded, R: Routines, G: Gate>(
        &mut self,
        book: &mut B,
        routines: &R,
        gate: &G,
        outcome: &mut Outcome,
    ) -> Turn
        requires of { IsOf (given R.next_of R.after_of routines.now) (B.recording book.old).limits (B.recording book.old).capacity (B.recording book.old).history (own (who_of self.old) (B.recording book.old).history) self.old }
        requires going { ends (B.recording book.old).limits (B.recording book.old).capacity (B.recording book.old).history self.old ≡ false }
        requires part { is_in_part self.old.place.stage ≡ true }
        requires calm { self.old.place.waits ≡ false }
        ensures { HasTurned (given R.next_of R.after_of routines.now) (B.recording book.old) (B.recording book.new) self.old self.new result }
    {
        match self.place.next_in(self.who, routines) {
            Some(call) if !self.marked => self.makes(book, routines, gate, &call, outcome),
            Some(_) | None => match self.place.stage {
                Stage::Playing => self.makes(book, routines, gate, &Call::Finish, outcome),
                _ => self.makes(book, routines, gate, &Call::Return, outcome),
            },
        }
    }

    // Makes the call that is due.
    #[inline(always)]
    fn makes<B: Recorded, R: Routines, G: Gate>(
        &mut self,
        book: &mut B,
        routines: &R,
        gate: &G,
        call: &Call,
        outcome: &mut Outcome,
    ) -> Turn
        requires of { IsOf (given R.next_of R.after_of routines.now) (B.recording book.old).limits (B.recording book.old).capacity (B.recording book.old).history (own (who_of self.old) (B.recording book.old).history) self.old }
        requires going { ends (B.recording book.old).limits (B.recording book.old).capacity (B.recording book.old).history self.old ≡ false }
        requires due { call.now ≡ due_of (given R.next_of R.after_of routines.now) self.old.who self.old.place self.old.marked }
        requires in_range { IsCallInRange call.now }
        requires of_part { IfSome (next_call (given R.next_of R.after_of routines.now) self.old.who self.old.place) IsOfPart }
        ensures { HasTurned (given R.next_of R.after_of routines.now) (B.recording book.old) (B.recording book.new) self.old self.new result }
    {
        book.step_into(self.who, call, outcome);
        self.hears(routines, gate, call, outcome)
    }

    // The call that it is to make. Its part is asked only where it plays one and waits for nothing.
    #[inline(always)]
    pub(crate) fn due<R: Routines>(&self, routines: &R) -> Call
        ensures value { result ≡ due_of (given R.next_of R.after_of routines.now) self.now.who self.now.place self.now.marked }
        ensures in_range { IsCallInRange result }
        ensures of_part { IfSome (next_call (given R.next_of R.after_of routines.now) self.now.who self.now.place) IsOfPart }
    {
        if self.place.waits {
            return Call::End;
        }
        match self.place.stage {
            Stage::Playing | Stage::Busy { .. } => self.due_in_part(routines),
            Stage::Over => Call::Finish,
            Stage::Away => Call::Attach,
            Stage::Idle if self.marked => Call::Detach,
            Stage::Idle => Call::Take,
        }
    }

    // The same for one that plays a part and waits for nothing.
    #[inline(always)]
    fn due_in_part<R: Routines>(&self, routines: &R) -> Call
        requires part { is_in_part self.now.place.stage ≡ true }
        requires calm { self.now.place.waits ≡ false }
        ensures value { result ≡ due_of (given R.next_of R.after_of routines.now) self.now.who self.now.place self.now.marked }
        ensures in_range { IsCallInRange result }
        ensures of_part { IfSome (next_call (given R.next_of R.after_of routines.now) self.now.who self.now.place) IsOfPart }
    {
        let last = match self.place.stage {
            Stage::Playing => Call::Finish,
            _ => Call::Return,
        };
        self.due_or(last, self.place.next_in(self.who, routines))
    }

    // The next call, or the last one where there is none or it came to Full.
    #[inline(always)]
    fn due_or(&self, last: Call, next: Option<Call>) -> Call
        requires last { IsCallInRange last }
        requires next { IfSome next IsCallInRange }
        ensures value { result ≡ due_or last self.now.marked next }
        ensures in_range { IsCallInRange result }
    {
        match next {
            Some(call) if !self.marked => call,
            Some(_) | None => last,
        }
    }

    // Takes note of what its call came to.
    #[inline(always)]
    pub(crate) fn hears<R: Routines, G: Gate>(
        &mut self,
        routines: &R,
        gate: &G,
        call: &Call,
        outcome: &Outcome,
    ) -> Turn
        requires due { call.now ≡ due_of (given R.next_of R.after_of routines.now) self.old.who self.old.place self.old.marked }
        requires of_part { IfSome (next_call (given R.next_of R.after_of routines.now) self.old.who self.old.place) IsOfPart }
        ensures role { self.new ≡ took (given R.next_of R.after_of routines.now) self.old call.now outcome.now }
        ensures turn { result ≡ turn_by outcome.now }
    {
        match outcome {
            Outcome::Done(answer) => {
                self.place
                    .goes_on(self.who, routines, self.marked, call, answer);
                self.marked = false;
                self.stops_at(gate, answer);
                Turn::Moved
            }
            Outcome::Look(_) => {
                self.marked = is_idle_take(self.place.stage, call);
                Turn::Waiting
            }
            Outcome::Full { .. } => {
                self.marked = true;
                Turn::Waiting
            }
        }
    }

    // Before the callback that it has taken, if it has.
    fn stops_at<G: Gate>(&self, gate: &G, answer: &Answer) {
        if let (Who::Worker(worker), Answer::Taken { callback, .. }) = (self.who, answer) {
            gate.before(worker, *callback);
        }
    }
}

// Whether a worker that runs nothing takes a callback.
fn is_idle_take(stage: Stage, call: &Call) -> bool
    ensures { result ≡ is_idle_take stage call.now }
{
    matches!((stage, call), (Stage::Idle, Call::Take))
}
