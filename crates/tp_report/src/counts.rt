//! What the entries of a history tell, counted as they come.

ghost use Rattle.std.specs.Prelude.{◌≡◌};
ghost use Rattle.tp_model.specs.Laws.Entries.{is_complete_call};
ghost use Rattle.tp_report.specs.Counting.{AreCounts};
ghost use Rattle.tp_report.specs.EarlyEnds.{is_end};

use kept_book::{Observed, Observer};
use std::alloc::{AllocError, Global};
use tp_base::answers::Answer;
use tp_base::calls::Call;
use tp_base::ids::Who;
use tp_base::limits::Limits;

/// A machine, and the counts of its history's entries, taken as they are made.
pub type Counted<B> = Observed<B, Counts>;

/// How a wait ends that doesn't come to what it waits for.
#[derive(Clone, Copy)]
pub enum EarlyEnd {
    Exhausted,
    Stalled,
}

/// How many of what entries tell of.
#[derive(Clone, Copy)]
pub struct Counts {
    /// The callbacks that they make.
    pub made: u64,
    /// Those that workers take.
    pub taken: u32,
    /// The refusals.
    pub refused: u32,
    /// Whether a wait ended with `exhausted`.
    pub exhausted: bool,
    /// Whether a wait ended with `stalled`.
    pub stalled: bool,
}

impl Observer for Counts {
    ghost HasNoted = { λ r counts. AreCounts r.history counts };

    fn open(_alloc: Global, _limits: Limits, _capacity: u32) -> Result<Counts, AllocError> {
        Ok(Counts::none())
    }

    #[inline(always)]
    fn note(&mut self, _who: Who, call: &Call, answer: &Answer) {
        self.add(call, answer);
    }
}

impl Counts {
    ghost use Rattle.std.specs.Prelude.{◌≡◌, ◌+◌, ◌<◌, ◌≤◌, ◌-◌, ◌^◌, [], if◌then◌else◌};
    ghost use Rattle.tp_base.specs.declared.ids.Who.{Who as Actor};
    ghost use Rattle.tp_model.specs.Laws.Entries.{is_complete_call};
    ghost use Rattle.tp_report.specs.Counting.{AreCounts, IsCounted};

    // Those of no entries.
    fn none() -> Counts
        ensures { AreCounts [] result }
    {
        Counts {
            made: 0,
            taken: 0,
            refused: 0,
            exhausted: false,
            stalled: false,
        }
    }

    // Counts one more entry, of any actor.
    #[inline(always)]
    #[tactic(auto, using(crate::proofs::Tallies::range_length))]
    fn add(&mut self, call: &Call, answer: &Answer)
        requires made { self.old.made + 2 ^ 32 ≤ 2 ^ 64 }
        requires taken { self.old.taken < 2 ^ 32 - 1 }
        requires refused { self.old.refused < 2 ^ 32 - 1 }
        ensures { (who : Actor) → IsCounted self.old (record { who = who; call = call.now; answer = answer.now }) self.new }
    {
        match answer {
            Answer::Taken { .. } => self.taken += 1,
            Answer::Refused(_) => self.refused += 1,
            Answer::Exhausted => self.exhausted = self.exhausted | ends_wait(call),
            Answer::Stalled => self.stalled = self.stalled | ends_wait(call),
            Answer::Started { .. } => self.made += 1,
            Answer::Queued { count, .. } => self.queue(call, *count),
            Answer::WasSet { count, .. } => self.queue(call, *count),
            Answer::Count { count, .. } => self.queue(call, *count),
            Answer::Advanced { count, .. } => self.queue(call, *count),
            Answer::Returned { count, .. } => self.queue(call, *count),
            Answer::Done
            | Answer::Made { .. }
            | Answer::Flag { .. }
            | Answer::Closed { .. }
            | Answer::Closing { .. }
            | Answer::Begun { .. }
            | Answer::Ended
            | Answer::Notice { .. }
            | Answer::Operation { .. }
            | Answer::Cancelled { .. }
            | Answer::Attached { .. } => {}
        }
    }

    // Counts those that an entry makes pending. What an operation's completion makes pending was made before.
    #[inline(always)]
    fn queue(&mut self, call: &Call, count: u32)
        requires { self.old.made + 2 ^ 32 ≤ 2 ^ 64 }
        ensures { self.new ≡ record self.old { made = self.old.made + (if is_complete_call call.now then 0 else count) } }
    {
        if !completes(call) {
            self.made += u64::from(count);
        }
    }
}

fn completes(call: &Call) -> bool
    ensures { result ≡ is_complete_call call.now }
{
    matches!(call, Call::CompleteIo { .. } | Call::CompleteNext { .. })
}

fn ends_wait(call: &Call) -> bool
    ensures { result ≡ is_end call.now }
{
    matches!(call, Call::End)
}
