//! By what actors learn their calls.

ghost use Rattle.std.specs.Prelude.{◌≡◌, IfSome};
ghost use Rattle.tp_base.specs.Ranges.{IsCallInRange};
ghost use Rattle.tp_script.specs.Calls.{IsOfPart};
ghost use Rattle.tp_script.specs.Nexts.{first_progress};

use tp_base::answers::Answer;
use tp_base::calls::Call;
use tp_base::ids::RoutineId;

/// Whose calls are asked for.
#[derive(Clone, Copy)]
pub enum Part {
    /// A client, from 1.
    Client(u32),
    /// A routine, from 1.
    Routine(RoutineId),
}

/// How far a part has come.
#[derive(Clone, Copy)]
pub struct Progress {
    /// Where in its part the next call stands: for a script the place of its line, from 0.
    pub op: u32,
    /// How many of the calls of that place were made.
    pub done: u32,
    /// The condition of that place was asked and is met, and its operation is to come.
    pub met: bool,
    /// The wait of that place is begun.
    pub ending: bool,
    /// The numbers of the objects that local names of the part stand for, each at its name's place among the local names.
    pub locals: [u64; 32],
    /// The numbers of the callbacks of the operations that local names of the part stand for, likewise.
    pub operations: [u64; 32],
}

impl Progress {
    /// Where a part begins.
    pub fn first() -> Progress
        ensures { result ≡ first_progress }
    {
        Progress {
            op: 0,
            done: 0,
            met: false,
            ending: false,
            locals: [0; 32],
            operations: [0; 32],
        }
    }
}

/// By what actors learn their calls, part by part.
pub trait Routines {
    ghost use Rattle.std.specs.Prelude.{Option};
    ghost use Rattle.tp_base.specs.declared.answers.Answer.{Answer};
    ghost use Rattle.tp_base.specs.declared.calls.Call.{Call};
    ghost use Rattle.tp_script.specs.declared.routines.Part.{Part};
    ghost use Rattle.tp_script.specs.declared.routines.Progress.{Progress};

    /// The call of a part that has come so far.
    ghost next_of: { Self → Part → Progress → Option Call };

    /// How far the part has come behind the answer to that call.
    ghost after_of: { Self → Part → Progress → Answer → Progress };

    /// The call of a part that has come so far, or None where it makes no further one. It is neither `Finish` nor `Return`
    /// and its numbers are in range.
    fn next(&self, part: Part, at: &Progress) -> Option<Call>
        ensures value { result ≡ next_of self.now part at.now }
        ensures in_range { IfSome result IsCallInRange }
        ensures of_part { IfSome result IsOfPart };

    /// Takes note of the answer to that call.
    fn after(&self, part: Part, at: &mut Progress, answer: Answer)
        ensures { at.new ≡ after_of self.now part at.old answer };
}
