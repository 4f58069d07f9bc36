//! Moments: times of the clock, as they stand before the entries of a history.

ghost use Rattle.std.specs.Prelude.{◌≡◌, ◌++◌, IfErr, IfOk};
ghost use Rattle.line_grammar.specs.Language.{IsStuck};
ghost use Rattle.tp_base.specs.declared.ids.Who.{Who as Actor};
ghost use Rattle.tp_report.specs.Moments.{moment_after};
ghost use Rattle.tp_report.specs.Readings.{IsStamp, MomentLines};

use crate::lines::behind_text;
use line_grammar::numbers::read_number;
use line_grammar::words::behind;
use tp_base::answers::Answer;
use tp_base::calls::Call;

const CLOCK_END: u64 = 9_223_372_036_854_775_807;

/// The moment of a line, and the text of its number and of the space behind it.
///
/// Nearly every line has the moment of the line above, and its text is compared faster than a number is read.
#[derive(Clone, Copy)]
pub struct Stamp<'a> {
    pub moment: u64,
    pub text: &'a [u8],
}

impl<'a> Stamp<'a> {
    ghost use Rattle.tp_report.specs.Readings.{IsStamp};

    /// That of a new machine.
    pub fn first() -> Stamp<'a>
        ensures { IsStamp result }
    {
        Stamp {
            moment: 0,
            text: b"0 ",
        }
    }
}

/// Reads the moment of a line and the space behind it, and tells what stands behind that.
#[inline(always)]
pub fn read_moment<'a>(text: &'a [u8], stamp: &mut Stamp<'a>) -> Result<&'a [u8], usize>
    requires { IsStamp stamp.old }
    ensures stamp { IsStamp stamp.new }
    ensures split { IfOk result (λ rest. text.now ≡ stamp.new.text.now ++ rest.now) }
    ensures err { IfErr result (λ place. IsStuck MomentLines text.now place) }
{
    match behind_text(stamp.text, text) {
        Some(rest) => Ok(rest),
        None => read_other_moment(text, stamp),
    }
}

// Reads a moment that may be another than the last one.
#[inline(never)]
fn read_other_moment<'a>(text: &'a [u8], stamp: &mut Stamp<'a>) -> Result<&'a [u8], usize>
    requires { IsStamp stamp.old }
    ensures stamp { IsStamp stamp.new }
    ensures split { IfOk result (λ rest. text.now ≡ stamp.new.text.now ++ rest.now) }
    ensures err { IfErr result (λ place. IsStuck MomentLines text.now place) }
{
    let (moment, size) = read_number(text, 0, CLOCK_END)?;
    let (_, space) = text.split_at(size);
    let Some(rest) = behind(b' ', space) else {
        return Err(size);
    };
    let (front, _) = text.split_at(size + 1);
    *stamp = Stamp {
        moment,
        text: front,
    };
    Ok(rest)
}

/// The time of the clock behind an entry, from that before it.
#[inline(always)]
pub fn clock_after(now: u64, call: &Call, answer: &Answer) -> u64
    ensures { (who : Actor) → result ≡ moment_after now (record { who = who; call = call.now; answer = answer.now }) }
{
    match (call, answer) {
        (Call::Advance { .. }, Answer::Advanced { now: told, .. }) => *told,
        _ => now,
    }
}
