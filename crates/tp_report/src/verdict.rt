//! Verdicts on histories.

ghost use Rattle.std.specs.Prelude.{◌≡◌, ◌↔◌, ◌<◌, ◌-◌, ◌^◌, ◌++◌, ◌∷◌, [], List, IfOk, IsTrue, OnErr, OnOk};
ghost use Rattle.tp_base.specs.Ranges.{IsCallInRange};
ghost use Rattle.tp_report.specs.Judging.{IsJudgedTo, IsSameMachine, len_told};
ghost use Rattle.tp_report.specs.Verdicts.{IsMoment, verdict_text};
ghost use Rattle.tp_report.specs.declared.lines.Line.{Line as Written};
ghost use Rattle.tp_report.specs.declared.verdict.Verdict.{Verdict};

use crate::lines::Line;
use crate::moments::clock_after;
use recorded::Recorded;
use std::alloc::{AllocError, Global};
use tp_base::answers::{Answer, Outcome};
use tp_lines::print::print_outcome;

/// What is said of a history.
#[derive(Clone, Copy)]
pub enum Verdict {
    /// Each of its `len` entries has the machine's answer, and each moment that it tells is right.
    Legal { len: u32 },
    /// The entry at this position, counted from 1, is the first whose answer isn't the machine's. The
    /// machine's outcome there is this.
    NotLegal { position: u32, outcome: Outcome },
    /// The entry at this position, counted from 1, is the first whose moment is wrong. Its answer is the
    /// machine's, and its moment should be `now`.
    WrongMoment { position: u32, now: u64 },
}

/// Makes the verdict on a history that on the history with one more line. As long as the answers
/// are the machine's and the moments are right, the book goes along with the history, and `now` is the time of the
/// clock behind it; behind a wrong line nothing more is played. `place` is where the machine's outcome is put, and says
/// nothing else.
pub fn judge<B: Recorded>(
    book: &mut B,
    now: &mut u64,
    verdict: &mut Verdict,
    line: &Line,
    place: &mut Outcome,
)
    requires in_range { IsCallInRange line.now.entry.call }
    requires few { len_told verdict.old < 2 ^ 32 - 1 }
    ensures same { IsSameMachine (B.recording book.old) (B.recording book.new) }
    ensures judged { (lines : List Written) → IsJudgedTo (B.recording book.old) lines now.old verdict.old → IsJudgedTo (B.recording book.new) (lines ++ line.now ∷ []) now.new verdict.new }
{
    let Verdict::Legal { len } = verdict else {
        return;
    };
    let position = *len + 1;
    let entry = &line.entry;
    book.step_into(entry.who, &entry.call, place);
    if !is_answer(place, &entry.answer) {
        return put_not_legal(verdict, position, place);
    }
    *now = clock_after(*now, &entry.call, &entry.answer);
    if !is_moment(line.moment, *now) {
        return put_wrong_moment(verdict, position, *now);
    }
    *len = position;
}

// Verdicts on wrong lines stand apart, so that what most lines need stays short.
#[inline(never)]
fn put_not_legal(verdict: &mut Verdict, position: u32, outcome: &Outcome)
    ensures { verdict.new ≡ Verdict.NotLegal position outcome.now }
{
    *verdict = Verdict::NotLegal {
        position,
        outcome: *outcome,
    };
}

#[inline(never)]
fn put_wrong_moment(verdict: &mut Verdict, position: u32, now: u64)
    ensures { verdict.new ≡ Verdict.WrongMoment position now }
{
    *verdict = Verdict::WrongMoment { position, now };
}

// Whether a line that tells this moment, if any, tells this time.
fn is_moment(moment: Option<u64>, now: u64) -> bool
    ensures { IsTrue result ↔ IsMoment moment now }
{
    match moment {
        Some(moment) => moment == now,
        None => true,
    }
}

// Whether the outcome is this answer.
fn is_answer(outcome: &Outcome, answer: &Answer) -> bool
    ensures { IsTrue result ↔ (outcome.now ≡ Outcome.Done answer.now) }
{
    match outcome {
        Outcome::Done(told) => told == answer,
        Outcome::Look(_) | Outcome::Full { .. } => false,
    }
}

/// Appends the text of a verdict, with its line feed. On want of memory nothing is appended.
pub fn print_verdict(alloc: Global, verdict: &Verdict, out: &mut Vec<u8>) -> Result<(), AllocError>
    ensures ok { OnOk result (out.new.items ≡ out.old.items ++ verdict_text verdict.now) }
    ensures err { OnErr result (out.new.items ≡ out.old.items) }
{
    let text = match verdict {
        Verdict::Legal { len } => {
            let line = format!(in alloc; "legal {len}\n")?;
            Vec::from_slice(alloc, line.as_bytes())?
        }
        Verdict::NotLegal { position, outcome } => not_legal_text(alloc, *position, outcome)?,
        Verdict::WrongMoment { position, now } => {
            let line = format!(in alloc; "not legal at {position}: moment {now}\n")?;
            Vec::from_slice(alloc, line.as_bytes())?
        }
    };
    out.extend_from_slice(&text)?;
    Ok(())
}

fn not_legal_text(alloc: Global, position: u32, outcome: &Outcome) -> Result<Vec<u8>, AllocError>
    ensures { IfOk result (λ text. text.items ≡ verdict_text (Verdict.NotLegal position outcome.now)) }
{
    let start = format!(in alloc; "not legal at {position}: ")?;
    let mut text = Vec::from_slice(alloc, start.as_bytes())?;
    print_outcome(outcome, &mut text)?;
    text.push(b'\n')?;
    Ok(text)
}
