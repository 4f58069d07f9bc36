//! Numbers among the words.

ghost use Rattle.std.specs.Prelude.{◌≡◌};
ghost use Rattle.tp_run.specs.Numbers.{number_in};

use line_grammar::numbers::read_number;

/// The number of 64 bits that a text is, if it is one.
pub fn number(text: &[u8]) -> Option<u64>
    ensures { result ≡ number_in text.now }
{
    match read_number(text, 0, u64::MAX) {
        Ok((value, size)) => {
            if size == text.len() {
                Some(value)
            } else {
                None
            }
        }
        Err(_) => None,
    }
}
