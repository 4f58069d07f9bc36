//! A machine with the registrations, timer queues and timers of its program.

ghost use Rattle.std.specs.Prelude.{◌≡◌, ◌+◌, ◌<◌, ◌≤◌, [], ◌∷◌, length, Err, IfErr, IfOk};
ghost use Rattle.callback_env.specs.Environ.{initialized};
ghost use Rattle.recorded.specs.declared.OpenFault.TheVariants.{NoMemory, TooSmall};
ghost use Rattle.recorded.specs.Recordings.{all_made, made, outcome_behind, room_of};
ghost use Rattle.tp_base.specs.Ranges.{AreLimitsInRange, IsCallInRange, IsOutcomeInRange};
ghost use Rattle.tp_model.specs.History.{IsLegal};
ghost use Rattle.tp_model.specs.Laws.{KeepsLaws};
ghost use Rattle.tp_base.specs.declared.ids.Who.{Who as Actor};
ghost use Rattle.tp_legacy.specs.Growing.{GoesOn, IsNewObject, IsNext};
ghost use Rattle.tp_legacy.specs.Kept.{stand_of, IsKept};
ghost use Rattle.tp_legacy.specs.Legacy.{comes_to, cost_of, kind_of, legacy_step, make_calls, make_told, opening, rearmed_by, set_calls, set_told, stood, IsLegacyCallInRange, IsSetting};
ghost use Rattle.tp_legacy.specs.Old.{Stand};
ghost use Rattle.tp_legacy.specs.Whole.{of_the_row, outcomes_of, AreDone};
ghost use Rattle.tp_legacy.specs.declared.LegacyCall.{LegacyCall as Made};

use crate::calls::{
    Setting, cost_of, due_in, flag_told, is_closed, is_closing, is_refused, number_made, taken_by,
    timeout_of,
};
use crate::rows::{QueueTimer, Registration, Rows, TimerQueue};
use crate::{LegacyAnswer, LegacyCall};
use callback_env::CallbackEnviron;
use recorded::{OpenFault, Recorded};
use std::alloc::Global;
use std::marker::Model;
use tp_base::answers::Outcome;
use tp_base::calls::{Call, Environ, Kind};
use tp_base::ids::{GroupId, KernelId, ObjectId, RoutineId, Who};
use tp_base::limits::Limits;
use tp_model::legal_keeps_laws;

/// A machine, and what a program of the pool before Vista has made on it. It is seen as the stand that it
/// has come to.
#[derive(Drop)]
pub struct LegacyBook<B: Recorded> {
    book: B,
    rows: Rows,
}

impl<B: Recorded> Model for LegacyBook<B> {
    ghost use Rattle.tp_legacy.specs.Old.{Stand};

    ghost Value = { Stand };

    ghost use Rattle.tp_legacy.specs.Kept.{stand_of, IsKept};

    ghost view = { λ a. stand_of (B.recording a.book) a.rows };

    ghost invariant = { λ a. IsKept (B.recording a.book) a.rows };
}

impl<B: Recorded> LegacyBook<B> {
    /// Opens a history with no entries, on a machine of these limits that has made no step and a program
    /// that has made nothing. The history will have room for `capacity` entries.
    ///
    /// It takes all the memory that will ever be needed: `NoMemory` comes where that isn't there.
    /// `TooSmall` comes exactly where the capacity is below the number of clients.
    pub fn open(alloc: Global, limits: Limits, capacity: u32) -> Result<LegacyBook<B>, OpenFault>
        requires { AreLimitsInRange limits }
        ensures stand { IfOk result (λ made. made ≡ opening limits capacity) }
        ensures too_small { capacity < limits.clients → result ≡ Err (TooSmall capacity limits.clients) }
        ensures no_memory { limits.clients ≤ capacity → IfErr result (λ fault. fault ≡ NoMemory) }
    {
        let book = B::try_open(alloc, limits, capacity)?;
        let rows = Rows::open(alloc, &limits)?;
        Ok(LegacyBook { book, rows })
    }

    /// Makes a call of an actor, whose numbers are in range.
    ///
    /// It comes to `LegacyRefusal` where what it names was never made, is gone, or is a timer of another
    /// queue; else to `Full` where the history has no room for all that the call may cost: 1 entry for
    /// `QueueItem`, `Unregister`, `CreateQueue` and `DeleteTimer`, 2 for `ChangeTimer` and `DeleteQueue`,
    /// and 3 for `Register`, `CreateTimer` and a `Take` of the machine. Either way nothing is made. Else the
    /// actor makes the calls of the machine that the call stands for. It takes no memory.
    pub fn step(&mut self, who: Who, call: LegacyCall) -> LegacyAnswer
        requires { IsLegacyCallInRange call }
        ensures answer { result ≡ (legacy_step self.old who call).1 }
        // The history is that of the calls that the definition names.
        ensures stand { self.new ≡ (legacy_step self.old who call).0 }
        ensures legal { IsLegal self.new.recording.limits self.new.recording.capacity self.new.recording.history }
        ensures laws { KeepsLaws self.new.recording.limits self.new.recording.history }
    {
        legal_keeps_laws();
        if let Some(refusal) = self.rows.refusal(&call) {
            return LegacyAnswer::Refused(refusal);
        }
        let cost = cost_of(&call);
        let room = self.book.room();
        if room < cost {
            return LegacyAnswer::Full { room, cost };
        }
        make(&mut self.book, &mut self.rows, who, call)
    }

    /// The machine.
    pub fn book(&self) -> &B
        ensures { B.recording result.now ≡ self.now.recording }
    {
        &self.book
    }
}

/// A call that may be made, since the history has room for its cost, is made whole: no call of the machine that it
/// stands for is Full, and none only looks. Of a call of the machine itself that is said of what follows it. It does
/// nothing: who calls it knows this.
#[tactic(auto, using(crate::proofs::Whole::rows_done))]
pub fn legacy_calls_are_whole()
    ensures { (s : Stand) (who : Actor) (call : Made) → IsLegal s.recording.limits s.recording.capacity s.recording.history → cost_of call ≤ room_of s.recording → AreDone (of_the_row call (outcomes_of s.recording (comes_to s who call).calls)) }
{}

// Makes the calls of the machine that a call stands for.
fn make<B: Recorded>(book: &mut B, rows: &mut Rows, who: Who, call: LegacyCall) -> LegacyAnswer
    requires kept { IsKept (B.recording book.old) rows.old }
    requires call { IsLegacyCallInRange call }
    ensures kept { IsKept (B.recording book.new) rows.new }
    ensures made { stood (stand_of (B.recording book.old) rows.old) (comes_to (stand_of (B.recording book.old) rows.old) who (call)) ≡ (stand_of (B.recording book.new) rows.new, result) }
{
    match call {
        LegacyCall::QueueItem {
            routine,
            context,
            long,
        } => queue_item(book, rows, who, routine, context, long),
        LegacyCall::Register {
            kernel,
            routine,
            context,
            millis,
            once,
        } => register(book, rows, who, kernel, routine, context, millis, once),
        LegacyCall::Unregister { registration } => unregister(book, rows, who, registration),
        LegacyCall::CreateQueue => create_queue(book, rows, who),
        LegacyCall::CreateTimer {
            queue,
            routine,
            context,
            due,
            period,
        } => create_timer(book, rows, who, queue, routine, context, due, period),
        LegacyCall::ChangeTimer {
            queue,
            timer,
            due,
            period,
        } => change_timer(book, rows, who, queue, timer, due, period),
        LegacyCall::DeleteTimer { queue, timer } => delete_timer(book, rows, who, queue, timer),
        LegacyCall::DeleteQueue { queue } => delete_queue(book, rows, who, queue),
        LegacyCall::Pool { call } => pool(book, rows, who, call),
    }
}

// Has a routine called once.
fn queue_item<B: Recorded>(
    book: &mut B,
    rows: &mut Rows,
    who: Who,
    routine: RoutineId,
    context: u64,
    long: bool,
) -> LegacyAnswer
    requires kept { IsKept (B.recording book.old) rows.old }
    requires call { IsLegacyCallInRange (LegacyCall.QueueItem routine context long) }
    ensures kept { IsKept (B.recording book.new) rows.new }
    ensures made { stood (stand_of (B.recording book.old) rows.old) (comes_to (stand_of (B.recording book.old) rows.old) who (LegacyCall.QueueItem routine context long)) ≡ (stand_of (B.recording book.new) rows.new, result) }
{
    let env = Environ { long, ..plain() };
    LegacyAnswer::Pool(ask(
        book,
        who,
        Call::SubmitSimple {
            routine,
            context,
            env,
        },
    ))
}

// Makes a wait object and arms it.
fn register<B: Recorded>(
    book: &mut B,
    rows: &mut Rows,
    who: Who,
    kernel: KernelId,
    routine: RoutineId,
    context: u64,
    millis: Option<u32>,
    once: bool,
) -> LegacyAnswer
    requires kept { IsKept (B.recording book.old) rows.old }
    requires call { IsLegacyCallInRange (LegacyCall.Register kernel routine context millis once) }
    ensures kept { IsKept (B.recording book.new) rows.new }
    ensures made { stood (stand_of (B.recording book.old) rows.old) (comes_to (stand_of (B.recording book.old) rows.old) who (LegacyCall.Register kernel routine context millis once)) ≡ (stand_of (B.recording book.new) rows.new, result) }
{
    let how = Setting::Wait {
        kernel,
        timeout: timeout_of(millis),
    };
    match make_and_set(book, who, routine, context, plain(), how) {
        Err(told) => LegacyAnswer::Pool(told),
        Ok(object) => LegacyAnswer::Registered {
            number: rows.add_registration(Registration {
                object,
                kernel,
                millis,
                once,
                gone: false,
            }),
        },
    }
}

// Closes the wait object of a registration.
fn unregister<B: Recorded>(
    book: &mut B,
    rows: &mut Rows,
    who: Who,
    registration: u32,
) -> LegacyAnswer
    requires kept { IsKept (B.recording book.old) rows.old }
    ensures kept { IsKept (B.recording book.new) rows.new }
    ensures made { stood (stand_of (B.recording book.old) rows.old) (comes_to (stand_of (B.recording book.old) rows.old) who (LegacyCall.Unregister registration)) ≡ (stand_of (B.recording book.new) rows.new, result) }
{
    let told = ask(
        book,
        who,
        Call::CloseObject {
            kind: Kind::Wait,
            object: rows.object_of_registration(registration),
        },
    );
    if is_closed(&told) {
        rows.end_registration(registration);
    }
    LegacyAnswer::Pool(told)
}

// Makes a cleanup group.
fn create_queue<B: Recorded>(book: &mut B, rows: &mut Rows, who: Who) -> LegacyAnswer
    requires kept { IsKept (B.recording book.old) rows.old }
    ensures kept { IsKept (B.recording book.new) rows.new }
    ensures made { stood (stand_of (B.recording book.old) rows.old) (comes_to (stand_of (B.recording book.old) rows.old) who (LegacyCall.CreateQueue)) ≡ (stand_of (B.recording book.new) rows.new, result) }
{
    let told = ask(book, who, Call::CreateGroup);
    match number_made(&told) {
        None => LegacyAnswer::Pool(told),
        Some(number) => LegacyAnswer::Queue {
            number: rows.add_queue(TimerQueue {
                group: GroupId(number),
                deleted: false,
            }),
        },
    }
}

// Makes a timer object in the group of a queue and sets it.
fn create_timer<B: Recorded>(
    book: &mut B,
    rows: &mut Rows,
    who: Who,
    queue: u32,
    routine: RoutineId,
    context: u64,
    due: u32,
    period: u32,
) -> LegacyAnswer
    requires kept { IsKept (B.recording book.old) rows.old }
    requires call { IsLegacyCallInRange (LegacyCall.CreateTimer queue routine context due period) }
    ensures kept { IsKept (B.recording book.new) rows.new }
    ensures made { stood (stand_of (B.recording book.old) rows.old) (comes_to (stand_of (B.recording book.old) rows.old) who (LegacyCall.CreateTimer queue routine context due period)) ≡ (stand_of (B.recording book.new) rows.new, result) }
{
    let env = Environ {
        group: rows.group_of_queue(queue),
        ..plain()
    };
    let how = Setting::Timer {
        due: due_in(due),
        period,
    };
    match make_and_set(book, who, routine, context, env, how) {
        Err(told) => LegacyAnswer::Pool(told),
        Ok(object) => LegacyAnswer::Timer {
            number: rows.add_timer(QueueTimer {
                queue,
                object,
                gone: false,
            }),
        },
    }
}

// Sets a timer object anew, if it is set.
fn change_timer<B: Recorded>(
    book: &mut B,
    rows: &mut Rows,
    who: Who,
    queue: u32,
    timer: u32,
    due: u32,
    period: u32,
) -> LegacyAnswer
    requires kept { IsKept (B.recording book.old) rows.old }
    requires call { IsLegacyCallInRange (LegacyCall.ChangeTimer queue timer due period) }
    ensures kept { IsKept (B.recording book.new) rows.new }
    ensures made { stood (stand_of (B.recording book.old) rows.old) (comes_to (stand_of (B.recording book.old) rows.old) who (LegacyCall.ChangeTimer queue timer due period)) ≡ (stand_of (B.recording book.new) rows.new, result) }
{
    let object = rows.object_of_timer(timer);
    let asked = ask(book, who, Call::IsTimerSet { object });
    match flag_told(&asked) {
        None => LegacyAnswer::Pool(asked),
        Some(false) => LegacyAnswer::Changed { value: false },
        Some(true) => {
            let how = Setting::Timer {
                due: due_in(due),
                period,
            };
            let told = ask(book, who, how.set(object));
            if is_refused(&told) {
                LegacyAnswer::Pool(told)
            } else {
                LegacyAnswer::Changed { value: true }
            }
        }
    }
}

// Closes the object of a timer.
fn delete_timer<B: Recorded>(
    book: &mut B,
    rows: &mut Rows,
    who: Who,
    queue: u32,
    timer: u32,
) -> LegacyAnswer
    requires kept { IsKept (B.recording book.old) rows.old }
    ensures kept { IsKept (B.recording book.new) rows.new }
    ensures made { stood (stand_of (B.recording book.old) rows.old) (comes_to (stand_of (B.recording book.old) rows.old) who (LegacyCall.DeleteTimer queue timer)) ≡ (stand_of (B.recording book.new) rows.new, result) }
{
    let told = ask(
        book,
        who,
        Call::CloseObject {
            kind: Kind::Timer,
            object: rows.object_of_timer(timer),
        },
    );
    if is_closed(&told) {
        rows.delete_timer(timer);
    }
    LegacyAnswer::Pool(told)
}

// Closes the members of a queue's group, and begins the wait for their callbacks.
fn delete_queue<B: Recorded>(book: &mut B, rows: &mut Rows, who: Who, queue: u32) -> LegacyAnswer
    requires kept { IsKept (B.recording book.old) rows.old }
    ensures kept { IsKept (B.recording book.new) rows.new }
    ensures made { stood (stand_of (B.recording book.old) rows.old) (comes_to (stand_of (B.recording book.old) rows.old) who (LegacyCall.DeleteQueue queue)) ≡ (stand_of (B.recording book.new) rows.new, result) }
{
    let told = ask(
        book,
        who,
        Call::BeginClose {
            group: rows.group_of_queue(queue),
            cancel: false,
            context: 0,
        },
    );
    if is_closing(&told) {
        rows.delete_queue(queue);
    }
    LegacyAnswer::Pool(told)
}

// Makes a call of the machine. A registration that isn't for once is armed anew as its callback is taken.
fn pool<B: Recorded>(book: &mut B, rows: &mut Rows, who: Who, call: Call) -> LegacyAnswer
    requires kept { IsKept (B.recording book.old) rows.old }
    requires call { IsCallInRange call }
    ensures kept { IsKept (B.recording book.new) rows.new }
    ensures made { stood (stand_of (B.recording book.old) rows.old) (comes_to (stand_of (B.recording book.old) rows.old) who (LegacyCall.Pool call)) ≡ (stand_of (B.recording book.new) rows.new, result) }
{
    let told = ask(book, who, call);
    rearm(book, rows, who, taken_by(&call, &told));
    LegacyAnswer::Pool(told)
}

// Arms the registration that an object stands for, if it isn't for once and isn't gone.
fn rearm<B: Recorded>(book: &mut B, rows: &Rows, who: Who, taken: Option<ObjectId>)
    requires kept { IsKept (B.recording book.old) rows.now }
    ensures kept { IsKept (B.recording book.new) rows.now }
    ensures calls { B.recording book.new ≡ all_made (B.recording book.old) (rearmed_by rows.now.old who taken) }
{
    let Some(object) = taken else {
        return;
    };
    let Some(row) = rows.registration_of(object) else {
        return;
    };
    if !row.once && !row.gone {
        let how = Setting::Wait {
            kernel: row.kernel,
            timeout: timeout_of(row.millis),
        };
        ask(book, who, how.set(row.object));
    }
}

// Makes an object of an actor and sets it, and closes it again where that is refused. It tells the object, or the
// outcome that stood in the way.
fn make_and_set<B: Recorded>(
    book: &mut B,
    who: Who,
    routine: RoutineId,
    context: u64,
    env: Environ,
    how: Setting,
) -> Result<ObjectId, Outcome>
    requires legal { IsLegal (B.recording book.old).limits (B.recording book.old).capacity (B.recording book.old).history }
    requires create { IsCallInRange (Call.Create (kind_of how) routine context env) }
    requires how { IsSetting how }
    ensures calls { B.recording book.new ≡ all_made (B.recording book.old) (make_calls (B.recording book.old) who (Call.Create (kind_of how) routine context env) how) }
    ensures told { result ≡ make_told (B.recording book.old) who (Call.Create (kind_of how) routine context env) how }
    ensures goes_on { GoesOn (B.recording book.old) (B.recording book.new) }
    ensures object { IfOk result (IsNewObject (B.recording book.old) (B.recording book.new)) }
{
    let made = ask(
        book,
        who,
        Call::Create {
            kind: how.kind(),
            routine,
            context,
            env,
        },
    );
    let Some(number) = number_made(&made) else {
        return Err(made);
    };
    set_or_close(book, who, number, how)
}

// Sets an object of this number, and closes it again where that is refused.
fn set_or_close<B: Recorded>(
    book: &mut B,
    who: Who,
    number: u32,
    how: Setting,
) -> Result<ObjectId, Outcome>
    requires legal { IsLegal (B.recording book.old).limits (B.recording book.old).capacity (B.recording book.old).history }
    requires number { number ≤ 65535 }
    requires how { IsSetting how }
    ensures calls { B.recording book.new ≡ all_made (B.recording book.old) (set_calls (B.recording book.old) who how number) }
    ensures told { result ≡ set_told (B.recording book.old) who how number }
    ensures goes_on { GoesOn (B.recording book.old) (B.recording book.new) }
    ensures object { IfOk result (λ object. object.0 ≡ number) }
{
    let object = ObjectId(number);
    let told = ask(book, who, how.set(object));
    if is_refused(&told) {
        ask(book, who, how.close(object));
        return Err(told);
    }
    Ok(object)
}

// Makes a call of the machine.
fn ask<B: Recorded>(book: &mut B, who: Who, call: Call) -> Outcome
    requires legal { IsLegal (B.recording book.old).limits (B.recording book.old).capacity (B.recording book.old).history }
    requires call { IsCallInRange call }
    ensures made { B.recording book.new ≡ made (B.recording book.old) (who, call) }
    ensures told { result ≡ outcome_behind (B.recording book.old) who call }
    ensures goes_on { GoesOn (B.recording book.old) (B.recording book.new) }
    ensures next { IsNext (B.recording book.old) (B.recording book.new) call result }
    ensures in_range { IsOutcomeInRange result }
{
    book.step(who, call)
}

// The environment that `initialize` gives.
fn plain() -> Environ
    ensures { result ≡ initialized }
{
    CallbackEnviron::initialize().plain()
}
