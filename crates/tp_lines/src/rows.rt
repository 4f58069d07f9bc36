//! Reading of the parts of a row.

ghost use Rattle.std.specs.Prelude.{◌≡◌, ◌+◌, ◌≤◌, [], ◌∷◌, length, MatchOption, MatchResult};
ghost use Rattle.line_grammar.specs.Language.{IsStuck};
ghost use Rattle.tp_lines.specs.Parts.{PartsTexts, room};
ghost use Rattle.tp_lines.specs.Rows.{ArePartsRead};

use crate::parts::{Parts, after, read_part};
use crate::words::Field;

/// Reads what stands in these fields, each behind a space, and adds it to the parts.
pub fn read_parts(fields: &'static [Field], text: &[u8], parts: &mut Parts) -> Result<usize, usize>
    requires { length parts.old + room fields.now ≤ 10 }
    ensures { MatchResult result
        (λ size. ArePartsRead fields.now text.now parts.old parts.new size)
        (λ place. IsStuck (PartsTexts fields.now) text.now place) }
{
    let Some((field, left)) = first_field(fields) else {
        return Ok(0);
    };
    match read_part(field, text) {
        Err(place) => Err(place),
        Ok((part, size)) => {
            parts.push(part);
            let (_, rest) = text.split_at(size);
            match read_parts(after(part, left), rest, parts) {
                Err(place) => Err(size + place),
                Ok(more) => Ok(size + more),
            }
        }
    }
}

fn first_field(fields: &'static [Field]) -> Option<(Field, &'static [Field])>
    ensures { MatchOption result (fields.now ≡ []) (λ first. fields.now ≡ first.0 ∷ first.1.now) }
{
    match fields {
        [first, left @ ..] => Some((*first, left)),
        [] => None,
    }
}
