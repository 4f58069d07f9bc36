//! What ends a test: functions of their own, since the proof of a test grows with each way that leads out of it, and
//! with all that is dropped there.

ghost use Rattle.std.specs.Prelude.{◌≡◌, Ok};

use std::alloc::Global;
use std::fmt::Debug;
use std::process::Abort;
use tp_base::answers::Entry;
use tp_lines::reserved::ReservedLines;

/// Ends the test where a value isn't the one that is expected.
pub fn expect_eq<T: PartialEq + Debug + Drop>(rt: &impl Abort, told: T, wanted: T) {
    assert_eq!(rt; told, wanted);
}

/// What was opened or made. Ends the test where nothing was.
pub fn expect_ok<T: Drop, E: Debug + Drop>(rt: &impl Abort, told: Result<T, E>) -> T
    ensures { told ≡ Ok result }
{
    match told {
        Ok(value) => value,
        Err(error) => panic!(rt; "{error:?}"),
    }
}

/// Ends the test where the entry isn't printed as this line behind its moment.
pub fn expect_line(rt: &impl Abort, alloc: Global, entry: &Entry, line: &str) {
    let mut lines = expect_ok(rt, ReservedLines::behind(Vec::new(alloc), 1));
    lines.entry(1_200, entry.who, &entry.call, &entry.answer);
    let text = lines.into_text();
    let told = text.strip_prefix(b"1200 ");
    expect_eq(
        rt,
        told.and_then(|told| told.strip_suffix(b"\n")),
        Some(line.as_bytes()),
    );
}
