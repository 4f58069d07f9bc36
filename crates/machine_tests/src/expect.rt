//! What ends a test. As functions of their own, since the proof of a test grows with each way that leads
//! out of it, and with all that is dropped there.

ghost use Rattle.std.specs.Prelude.{◌≡◌, Ok};

use std::process::Abort;

/// Ends the test where a value isn't the one that is expected.
pub fn expect_eq<T: PartialEq + Drop>(rt: &impl Abort, told: T, wanted: T) {
    assert!(rt; told == wanted);
}

/// What was made. Ends the test where memory is refused.
pub fn expect_ok<T: Drop, E: Drop>(rt: &impl Abort, told: Result<T, E>) -> T
    ensures { told ≡ Ok result }
{
    match told {
        Ok(value) => value,
        Err(_) => panic!(rt; "memory was refused"),
    }
}
