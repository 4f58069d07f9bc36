//! Checking of histories, and their change into format 2.

ghost use Rattle.std.specs.Prelude.{◌≡◌, ◌≤◌, ◌++◌, ◌⊎◌, [], List, IfErr, IfOk, OnErr, OnOk, length};
ghost use Rattle.tp_model.specs.Laws.{KeepsLaws};
ghost use Rattle.tp_report.specs.declared.headers.Header.{Header as FirstLine};
ghost use Rattle.tp_report.specs.declared.lines.Line.{Line as HistoryLine};
ghost use Rattle.line_grammar.specs.Faults.{IsOrNoMemory, IsPlace};
ghost use Rattle.tp_report.specs.Histories.{HasHeaderLine, IsHistory, IsHistoryFault, entries_of};
ghost use Rattle.tp_report.specs.Judging.{AreLines, IsJudgedOn, IsLinesFault, IsVerdictBehind};
ghost use Rattle.tp_report.specs.Moments.{clocks, moments};
ghost use Rattle.tp_report.specs.Verdicts.{IfLegal, IsJudged, IsLegalTold, IsVerdict, limits_of, migrated_text};

use crate::headers::Header;
use crate::lines::{Line, Next, read_header_line, read_next_line};
use crate::moments::Stamp;
use crate::verdict::{Verdict, judge};
use crate::written::{Written, into_history};
use line_grammar::faults::{TextFault, fault_behind};
use recorded::Recorded;
use std::alloc::{AllocError, Global};
use tp_base::answers::{Answer, Entry, Look, Outcome};
use tp_base::calls::Call;
use tp_base::ids::Who;

/// Why a history was not judged.
pub type CheckFault = TextFault;

/// Reads a history of either format, and says whether each answer in it is that of the machine, a `B`, and each
/// moment the time of the clock behind its entry.
///
/// `Legal` comes exactly where each is. Else the first line with a wrong answer or a wrong moment is named: `NotLegal`
/// where its answer is wrong, and `WrongMoment` where only its moment is. `At` comes exactly where the bytes are no
/// history, and `NoMemory` where memory was refused.
#[inline(never)]
pub fn check<B: Recorded>(alloc: Global, bytes: &[u8]) -> Result<Verdict, CheckFault>
    ensures ok { IfOk result (λ verdict. IsJudged bytes.now verdict) }
    ensures only { (header : FirstLine) (lines : List HistoryLine) → IsHistory bytes.now header lines →
        IsOrNoMemory (IsVerdict (limits_of header) header.events lines) result }
    ensures err { IfErr result (λ fault. IsPlace (IsHistoryFault bytes.now) fault) }
    // A history that it calls legal keeps the laws.
    ensures laws { (header : FirstLine) (lines : List HistoryLine) → IsHistory bytes.now header lines → IfLegal result (KeepsLaws (limits_of header) (entries_of lines)) }
    // And each moment is the time of the machine's clock behind its entry.
    ensures clock { (header : FirstLine) (lines : List HistoryLine) → IsHistory bytes.now header lines → IfLegal result (moments (entries_of lines) ≡ clocks (limits_of header) (entries_of lines)) }
{
    let (_, verdict) = judge_all::<B>(alloc, bytes)?;
    Ok(verdict)
}

/// Judges a history as `check` does, and where it is `Legal` appends its text in format 2: with the clients, workers,
/// events and objects of its machine, and with the moment of each entry. On every other answer nothing is appended.
pub fn migrate<B: Recorded>(
    alloc: Global,
    bytes: &[u8],
    out: &mut Vec<u8>,
) -> Result<Verdict, CheckFault>
    ensures ok { IfOk result (λ verdict. IsJudged bytes.now verdict) }
    ensures only { (header : FirstLine) (lines : List HistoryLine) → IsHistory bytes.now header lines →
        IsOrNoMemory (IsVerdict (limits_of header) header.events lines) result }
    ensures err { IfErr result (λ fault. IsPlace (IsHistoryFault bytes.now) fault) }
    ensures text { (header : FirstLine) (lines : List HistoryLine) → IsHistory bytes.now header lines → IfLegal result (out.new.items ≡ out.old.items ++ migrated_text header lines) }
    // What is appended is a legal history with as many entries.
    ensures again { (header : FirstLine) (lines : List HistoryLine) → IsHistory bytes.now header lines → IfLegal result (IsJudged (migrated_text header lines) (Verdict.Legal (length lines))) }
    ensures same { IsLegalTold result ⊎ (out.new.items ≡ out.old.items) }
{
    let (written, verdict) = judge_all::<Written<B>>(alloc, bytes)?;
    if let Verdict::Legal { .. } = verdict {
        let (_, text) = into_history(alloc, written)?;
        append(text, out)?;
    }
    Ok(verdict)
}

// Appends a text, which needn't be copied where nothing stands before it.
fn append(text: Vec<u8>, out: &mut Vec<u8>) -> Result<(), AllocError>
    ensures ok { OnOk result (out.new.items ≡ out.old.items ++ text.items) }
    ensures err { OnErr result (out.new.items ≡ out.old.items) }
{
    if out.is_empty() {
        *out = text;
        return Ok(());
    }
    out.extend_from_slice(&text)
}

// Reads a history, and answers the verdict on it and the machine on which it was played as long as it was right.
fn judge_all<B: Recorded>(alloc: Global, bytes: &[u8]) -> Result<(B, Verdict), CheckFault>
    ensures ok { IfOk result (λ judged. IsJudged bytes.now judged.1) }
    ensures only { (header : FirstLine) (lines : List HistoryLine) → IsHistory bytes.now header lines →
        IsOrNoMemory (λ judged. IsJudgedOn header lines (B.recording judged.0) judged.1) result }
    ensures err { IfErr result (λ fault. IsPlace (IsHistoryFault bytes.now) fault) }
{
    match read_header_line(bytes) {
        Err(place) => Err(fault_behind(0, place)),
        Ok((header, size)) => {
            let (_, rest) = bytes.split_at(size);
            judge_behind(alloc, header, rest)
        }
    }
}

// Reads what stands behind the header of a history, the lines of entries and the end line, and judges each line as it is
// read.
fn judge_behind<B: Recorded>(
    alloc: Global,
    header: Header,
    text: &[u8],
) -> Result<(B, Verdict), CheckFault>
    requires { HasHeaderLine header }
    ensures ok { IfOk result (λ judged. IsVerdictBehind header text.now judged.1) }
    ensures only { (lines : List HistoryLine) → AreLines header text.now lines →
        IsOrNoMemory (λ judged. IsJudgedOn header lines (B.recording judged.0) judged.1) result }
    ensures err { IfErr result (λ fault. IsPlace (IsLinesFault header text.now) fault) }
{
    let mut book = B::open(alloc, header.limits(), header.events)?;
    let mut stamp = Stamp::first();
    let mut line = Line {
        moment: None,
        entry: Entry {
            who: Who::Client(0),
            call: Call::Take,
            answer: Answer::Done,
        },
    };
    let mut outcome = Outcome::Look(Look::Stay);
    let mut now = 0;
    let mut verdict = Verdict::Legal { len: 0 };
    let mut len = 0;
    let mut rest = text;
    loop {
        match read_next_line(alloc, rest, &header, len, &mut stamp, &mut line)? {
            Next::Another { size } => {
                judge(&mut book, &mut now, &mut verdict, &line, &mut outcome);
                len += 1;
                (_, rest) = rest.split_at(size);
            }
            Next::End => return Ok((book, verdict)),
            Next::Fault { place } => return Err(fault_behind(len + 1, place)),
        }
    }
}
