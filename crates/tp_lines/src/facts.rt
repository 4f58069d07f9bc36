//! What holds of all lines: each function here does nothing, and its contract is proved.

ghost use Rattle.std.specs.Prelude.{◌≡◌, ℕ, List, IsTrue};
ghost use Rattle.line_grammar.specs.Words.{lacks};
ghost use Rattle.tp_base.specs.declared.answers.Entry.{Entry};
ghost use Rattle.tp_base.specs.declared.answers.Outcome.{Outcome};
ghost use Rattle.tp_base.specs.declared.calls.Call.{Call};
ghost use Rattle.tp_base.specs.declared.ids.Who.{Who};
ghost use Rattle.tp_base.specs.Ranges.{IsCallInRange};
ghost use Rattle.tp_lines.specs.Answers.{EntryLines, FitsOutcome, IsEntry, text_of_outcome};
ghost use Rattle.tp_lines.specs.Calls.{CallLines, FitsCall, IsLine};

/// No line feed stands in a line, so the lines of a text are those between its line feeds.
pub fn lines_hold_no_feed()
    ensures calls { (text : List ℕ) → IsLine text → IsTrue (lacks 10 text) }
    ensures entries { (text : List ℕ) → IsEntry text → IsTrue (lacks 10 text) }
{}

/// The ranges of the parts of a call are those of the call: a line can have each call that is in range, and
/// no other.
pub fn ranges_agree()
    ensures fits { (call : Call) → FitsCall call → IsCallInRange call }
    ensures in_range { (call : Call) → IsCallInRange call → FitsCall call }
{}

/// A text is the line of at most one call by one actor, and of at most one entry. Two outcomes with one text are
/// one outcome, where their numbers are in the ranges of the grammar.
pub fn one_text_tells_one()
    ensures call { (one other : Who × Call) (text : List ℕ) → CallLines one text → CallLines other text → one ≡ other }
    ensures entry { (one other : Entry) (text : List ℕ) → EntryLines one text → EntryLines other text → one ≡ other }
    ensures outcome { (one other : Outcome) → FitsOutcome one → FitsOutcome other → text_of_outcome one ≡ text_of_outcome other → one ≡ other }
{}
