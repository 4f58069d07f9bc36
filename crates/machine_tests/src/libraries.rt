//! Libraries beside the machine.

ghost use Rattle.std.specs.Prelude.{◌≡◌};
ghost use Rattle.tp_library.specs.declared.LibCall.TheVariants.{Pool};
ghost use Rattle.tp_library.specs.Libraries.{IsLibCallInRange};

use crate::expect::{expect_eq, expect_ok};
use pool_book::Book;
use recorded::{Recorded, program_limits};
use tp_base::calls::{Call, Environ, Priority};
use tp_base::ids::{GroupId, PoolId, RoutineId, Who};
use tp_library::{LibCall, LibraryBook, LibraryId};

const LIBRARY: LibraryId = LibraryId(1);

const ENVIRON: Environ = Environ {
    pool: PoolId(0),
    group: GroupId(0),
    cancel: RoutineId(0),
    priority: Priority::Normal,
    long: false,
    persistent: false,
};

// Makes a call, and tells by how much the library is held then, and whether the call let it go.
fn held_after(book: &mut LibraryBook<Book>, who: Who, call: LibCall) -> (u64, bool)
    requires { IsLibCallInRange call }
{
    book.step(who, call);
    (book.holds(LIBRARY), book.was_unloaded(LIBRARY))
}

// A call on what is there already.
fn plain(call: Call) -> LibCall
    ensures { result ≡ Pool call (record { 0 = 0 }) }
{
    let library = LibraryId(0);
    LibCall::Pool { call, library }
}

/// The program frees a library while a callback of it is pending: it goes with the callback's return.
#[test]
fn a_library_goes_with_its_last_callback(rt: HostRuntime) {
    let (client, worker, library) = (Who::Client(1), Who::Worker(1), LIBRARY);
    let limits = program_limits(1, 2);
    let mut book = expect_ok(&rt, LibraryBook::<Book>::open(rt.alloc(), limits, 20));
    let submit = LibCall::Pool {
        call: Call::SubmitSimple {
            routine: RoutineId(1),
            context: 0,
            env: ENVIRON,
        },
        library,
    };
    let told = [
        held_after(&mut book, client, LibCall::Load { library }),
        held_after(&mut book, client, submit),
        held_after(&mut book, client, LibCall::Free { library }),
        held_after(&mut book, worker, plain(Call::Attach)),
        held_after(&mut book, worker, plain(Call::Take)),
        held_after(&mut book, worker, plain(Call::Return)),
    ];
    let wanted = [
        (1, false),
        (2, false),
        (1, false),
        (1, false),
        (1, false),
        (0, true),
    ];
    expect_eq(&rt, told, wanted);
    expect_eq(&rt, book.book().len(), 4);
    drop(book);
}
