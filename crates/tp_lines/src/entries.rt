//! Reading of entries.

ghost use Rattle.std.specs.Prelude.{◌≡◌};
ghost use Rattle.line_grammar.specs.Language.{IsRead};
ghost use Rattle.tp_lines.specs.AnswerRows.{ArrowTexts};
ghost use Rattle.tp_lines.specs.Answers.{EntryLines};

use crate::answers::read_answer;
use crate::calls::read_call_line;
use line_grammar::words::behind;
use tp_base::answers::{Answer, Entry};

// Reads an arrow, and the answer behind it.
fn read_arrow(text: &[u8]) -> Result<(Answer, usize), usize>
    ensures { IsRead ArrowTexts text.now result }
{
    let Some(dash) = behind(b' ', text) else {
        return Err(0);
    };
    let Some(head) = behind(b'-', dash) else {
        return Err(1);
    };
    let Some(rest) = behind(b'>', head) else {
        return Err(2);
    };
    match read_answer(rest) {
        Ok((answer, size)) => Ok((answer, size + 3)),
        Err(place) => Err(place + 3),
    }
}

/// Reads an entry, to which more may be added.
pub fn read_entry(text: &[u8]) -> Result<(Entry, usize), usize>
    ensures { IsRead EntryLines text.now result }
{
    match read_call_line(text) {
        Err(place) => Err(place),
        Ok(((who, call), size)) => {
            let (_, rest) = text.split_at(size);
            match read_arrow(rest) {
                Err(place) => Err(size + place),
                Ok((answer, more)) => Ok((Entry { who, call, answer }, size + more)),
            }
        }
    }
}
