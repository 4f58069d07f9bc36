//! Wake-ups.

ghost use Rattle.std.specs.Prelude.{◌≡◌, ℕ, ◌+◌, ◌-◌, ◌<◌, ◌≤◌, ◌^◌, not, ◌&&◌, nat_le, nat_lt, IfErr, IfOk, OnOk, [], ◌∷◌, ◌++◌};
ghost use Rattle.tp_base.specs.Timers.{clock_end};
ghost use Rattle.tp_base.specs.declared.answers.Outcome.{Outcome as Told};
ghost use Rattle.recorded.specs.Recordings.{Recording};
ghost use Rattle.tp_base.specs.declared.ids.Who.{Who as Actor};
ghost use Rattle.tp_model.specs.History.{IsLegal};
ghost use Rattle.tp_coalesce.specs.Laws.{IsLawful};
ghost use Rattle.tp_coalesce.specs.Heard.{heard, IsSlept};
ghost use Rattle.tp_coalesce.specs.Sleeps.{goal_of, is_advanced, is_on_way, most_wakes, sleep, sleep_beyond, sleep_from};
ghost use Rattle.tp_lines.specs.Answers.{text_of_outcome};

use recorded::Recorded;
use std::alloc::AllocError;
use tp_base::answers::{Answer, Outcome};
use tp_base::calls::{CLOCK_END, Call};
use tp_base::ids::Who;
use tp_lines::print::Lines;

/// How a sleep ends.
#[derive(Clone, Copy)]
pub enum Slept {
    /// The clock is at the target, after so many wake-ups.
    Done { now: u64, wakes: u32 },
    /// After so many wake-ups the next one was refused, or the history has no room for it.
    Stopped { wakes: u32, outcome: Outcome },
}

/// Somebody who is told what each wake-up comes to.
pub trait Listener: Drop {
    /// What becomes of it with an outcome.
    ghost hears: { Self → Told → Self };

    /// Whether it may be refused memory.
    ghost may_fail: { Type 0 };

    /// Tells an outcome. An `AllocError` comes where memory was refused for it.
    fn hear(&mut self, outcome: &Outcome) -> Result<(), AllocError>
        ensures ok { OnOk result (self.new ≡ hears self.old outcome.now) }
        ensures err { IfErr result (λ error. may_fail) };
}

impl Listener for Lines {
    ghost hears = { λ text told. text ++ (text_of_outcome told ++ 10 ∷ []) };

    ghost may_fail = { Unit {0} };

    fn hear(&mut self, outcome: &Outcome) -> Result<(), AllocError> {
        self.outcome(outcome)
    }
}

/// Sleeps so many units of 100 ns, and tells nobody of the wake-ups. It takes no memory.
pub fn sleep<B: Recorded>(book: &mut B, who: Who, ticks: u64) -> Slept
    requires { ticks ≤ clock_end }
    ensures slept { result ≡ (sleep (B.recording book.old) who ticks).slept }
    ensures after { B.recording book.new ≡ (sleep (B.recording book.old) who ticks).after }
    // Its wake-ups are on time, and each but the last is for something.
    ensures lawful { IsLegal (B.recording book.old).limits (B.recording book.old).capacity (B.recording book.old).history → IsLawful (B.recording book.old) (sleep (B.recording book.old) who ticks) }
{
    sleeps_are_lawful();
    match sleep_told(book, who, ticks, &mut Nobody) {
        Ok(slept) => slept,
        Err(_) => unreachable!(),
    }
}

/// Of each sleep behind a legal history: it makes its wake-ups alone; what expires at one of them does so from its due
/// time to its deadline; and each but the last is the deadline of something that expires there. It does nothing: who calls
/// it knows this.
#[tactic(auto, using(crate::proofs::Laws::sleep_lawful))]
pub fn sleeps_are_lawful()
    ensures { (r : Recording) → IsLegal r.limits r.capacity r.history → (who : Actor) (ticks : ℕ) → IsLawful r (sleep r who ticks) }
{}

// Nobody listens.
#[derive(Drop)]
struct Nobody;

impl Listener for Nobody {
    ghost hears = { λ nobody told. nobody };

    ghost may_fail = { ⊥ };

    fn hear(&mut self, _outcome: &Outcome) -> Result<(), AllocError> {
        Ok(())
    }
}

/// Sleeps so many units of 100 ns: the actor advances the clock to each least deadline on the way, and at last to the
/// target. Beyond the clock's end it is one advance, which the machine refuses. The listener is told the outcomes of these
/// calls, one by one.
///
/// `Slept::Stopped` comes exactly where one of them is refused or full, and the clock stays there. An `AllocError` comes
/// where the listener was refused memory.
pub fn sleep_told<B: Recorded, L: Listener>(
    book: &mut B,
    who: Who,
    ticks: u64,
    listener: &mut L,
) -> Result<Slept, AllocError>
    requires { ticks ≤ clock_end }
    ensures ok { IfOk result (IsSlept L.hears (sleep (B.recording book.old) who ticks) listener.old (B.recording book.new) listener.new) }
    ensures err { IfErr result (λ error. L.may_fail) }
{
    match book.now().checked_add(ticks) {
        Some(target) if target <= CLOCK_END => sleep_to(book, who, target, listener),
        _ => sleep_beyond(book, who, ticks, listener),
    }
}

// Sleeps to a target that the clock can reach.
fn sleep_to<B: Recorded, L: Listener>(
    book: &mut B,
    who: Who,
    target: u64,
    listener: &mut L,
) -> Result<Slept, AllocError>
    requires { target ≤ clock_end }
    ensures ok { IfOk result (IsSlept L.hears (sleep_from (most_wakes (B.recording book.old) + 1) (B.recording book.old) who target 0) listener.old (B.recording book.new) listener.new) }
    ensures err { IfErr result (λ error. L.may_fail) }
{
    let start = book.len();
    let mut more = most_wakes(book) + 1;
    let mut wakes = 0;
    while more > 0 {
        let deadline = book.next_deadline();
        let on_way = is_on_way(deadline, target);
        let now = book.now();
        if is_there(on_way, target, now, wakes) {
            return Ok(Slept::Done { now, wakes });
        }
        let ticks = goal_of(deadline, target).saturating_sub(now);
        let outcome = book.step(who, Call::Advance { ticks });
        listener.hear(&outcome)?;
        if !is_advanced(&outcome) {
            return Ok(Slept::Stopped { wakes, outcome });
        }
        wakes = book.len() - start;
        if !on_way {
            return Ok(Slept::Done {
                now: book.now(),
                wakes,
            });
        }
        more -= 1;
    }
    Ok(Slept::Done {
        now: book.now(),
        wakes,
    })
}

// The one advance of a sleep beyond the clock's end.
fn sleep_beyond<B: Recorded, L: Listener>(
    book: &mut B,
    who: Who,
    ticks: u64,
    listener: &mut L,
) -> Result<Slept, AllocError>
    requires { ticks ≤ clock_end }
    ensures ok { IfOk result (IsSlept L.hears (sleep_beyond (B.recording book.old) who ticks) listener.old (B.recording book.new) listener.new) }
    ensures err { IfErr result (λ error. L.may_fail) }
{
    let outcome = book.step(who, Call::Advance { ticks });
    listener.hear(&outcome)?;
    if is_advanced(&outcome) {
        Ok(Slept::Done {
            now: book.now(),
            wakes: 1,
        })
    } else {
        Ok(Slept::Stopped { wakes: 0, outcome })
    }
}

// How many entries the history can still have.
fn most_wakes<B: Recorded>(book: &B) -> u64
    ensures value { result ≡ most_wakes (B.recording book.now) }
    ensures most { result < 2 ^ 32 }
{
    let most = book.capacity().max(book.limits().clients);
    u64::from(most.saturating_sub(book.len()))
}

// Whether a deadline is no later than the target.
fn is_on_way(deadline: Option<u64>, target: u64) -> bool
    ensures { result ≡ is_on_way deadline target }
{
    match deadline {
        Some(deadline) => deadline <= target,
        None => false,
    }
}

// Whether nothing more is to be done: no deadline is on the way, and the clock is at the target, by a wake-up at least.
fn is_there(on_way: bool, target: u64, now: u64, wakes: u32) -> bool
    ensures { result ≡ (not on_way && (nat_le target now && nat_lt 0 wakes)) }
{
    !on_way && target <= now && wakes > 0
}

// Where the clock goes on to.
fn goal_of(deadline: Option<u64>, target: u64) -> u64
    ensures value { result ≡ goal_of deadline target }
    ensures most { result ≤ target }
{
    match deadline {
        Some(deadline) => deadline.min(target),
        None => target,
    }
}

// Whether the clock went on.
fn is_advanced(told: &Outcome) -> bool
    ensures { result ≡ is_advanced told.now }
{
    matches!(told, Outcome::Done(Answer::Advanced { .. }))
}
