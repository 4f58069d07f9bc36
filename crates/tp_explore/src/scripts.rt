//! What a script says besides its calls.

ghost use Rattle.std.specs.Prelude.{◌≡◌, IfOk, map};
ghost use Rattle.tp_script.specs.Calls.{id_of};
ghost use Rattle.tp_explore.specs.Scripts.{mark_of, marked_of};

use crate::mark::{Mark, Marked};
use crate::watches::Watches;
use std::alloc::{AllocError, Global};
use tp_base::ids::{GroupId, ObjectId, RoutineId};
use tp_base::rows::WaitTarget;
use tp_script::{Act, Part, Progress, Script, number_at};

impl Watches for Script {
    ghost use Rattle.tp_explore.specs.Scripts.{watched};

    ghost watched = { watched };

    fn may_refuse(&self, part: Part, op: u32) -> bool {
        Script::may_refuse(self, part, op)
    }

    fn line(&self, part: Part, op: u32) -> u32 {
        Script::line(self, part, op).unwrap_or(0)
    }

    fn marks(&self, alloc: Global, part: Part, at: &Progress) -> Result<Vec<Marked>, AllocError> {
        marked(alloc, &at.locals, Script::marks(self, part, at.op))
    }

    fn all_marks(&self, alloc: Global, routine: RoutineId) -> Result<Vec<Marked>, AllocError> {
        let first = Progress::first();
        marked(
            alloc,
            &first.locals,
            self.part_marks(Part::Routine(routine)),
        )
    }
}

// What the marks say, where the local names stand for these numbers.
fn marked(
    alloc: Global,
    locals: &[u64; 32],
    said: &[tp_script::Mark],
) -> Result<Vec<Marked>, AllocError>
    ensures { IfOk result (λ marks. marks.items ≡ map (marked_of locals.now) said.now) }
{
    let mut marks = Vec::with_capacity(alloc, said.len())?;
    for mark in said {
        marks.push(marked_of(locals, mark))?;
    }
    Ok(marks)
}

fn marked_of(locals: &[u64; 32], said: &tp_script::Mark) -> Marked
    ensures { result ≡ marked_of locals.now said.now }
{
    Marked {
        mark: mark_of(locals, said.act),
        line: said.line,
    }
}

fn mark_of(locals: &[u64; 32], act: Act) -> Mark
    ensures { result ≡ mark_of locals.now act }
{
    match act {
        Act::Use(memory) => Mark::Use(u32::from(memory)),
        Act::Drop(memory) => Mark::Drop(u32::from(memory)),
        Act::Free(memory) => Mark::Free(u32::from(memory)),
        Act::QuietObject(name) => Mark::Quiet(WaitTarget::Object(ObjectId(id_of(number_at(
            name, locals,
        ))))),
        Act::QuietGroup(group) => Mark::Quiet(WaitTarget::Group(GroupId(u32::from(group)))),
    }
}

fn id_of(number: u64) -> u32
    ensures { result ≡ id_of number }
{
    if number <= 65_535 { number as u32 } else { 0 }
}
