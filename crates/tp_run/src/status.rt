//! How the program ends.

ghost use Rattle.std.specs.Prelude.{◌≡◌};

use order_lines::Found;
use port_lines::PortFault;
use std::alloc::AllocError;
use tp_edge::ReadFault;
use tp_report::{TextFault, Verdict};
use tp_script::ScriptFault;

/// What was found out of an input that is in its grammar.
#[derive(Clone, Copy)]
pub enum Ending {
    /// Nothing is wrong with it.
    Fine,
    /// It is a history in which an answer isn't the machine's, or a moment is wrong.
    NotLegal,
    /// It is a script for whose run the history had too little room.
    Exhausted,
    /// It is a script in whose run no actor could go on.
    Stalled,
    /// It is a script of which an order has a fault.
    Bad,
    /// It is a script with more orders than were gone through.
    GaveUp,
}

impl From<&Verdict> for Ending {
    ghost use Rattle.tp_run.specs.Inputs.{ending_of};

    ghost from_gives = { λ verdict ending. ending ≡ ending_of verdict.now };

    fn from(verdict: &Verdict) -> Self {
        match verdict {
            Verdict::Legal { .. } => Ending::Fine,
            Verdict::NotLegal { .. } | Verdict::WrongMoment { .. } => Ending::NotLegal,
        }
    }
}

impl From<Found> for Ending {
    ghost use Rattle.tp_run.specs.Explored.{ending_found};

    ghost from_gives = { λ found ending. ending ≡ ending_found found };

    fn from(found: Found) -> Self {
        match found {
            Found::None => Ending::Fine,
            Found::Bad => Ending::Bad,
            Found::GaveUp => Ending::GaveUp,
        }
    }
}

/// How the program ends.
#[derive(Clone, Copy, PartialEq, Eq)]
pub enum Status {
    /// The input was read to its end, and the output is whole.
    Fine,
    /// The words are no command. Nothing was read or written.
    Words,
    /// The input, read to its end, isn't in its grammar. Its first fault is in this line, counted
    /// from 1, at this byte, counted from 1. Nothing was written.
    BadLine { line: u32, column: u32 },
    /// The source of the input had a fault. Nothing was written.
    ReadFault,
    /// The sink of the output had a fault. It took the first bytes of the output.
    WriteFault,
    /// Memory was refused. Nothing was written.
    NoMemory,
    /// The source gave one byte more than `INPUT_LIMIT`. Nothing was written.
    TooLong,
    /// The input, read to its end, is a history that isn't legal, or in which a moment is wrong. The output is whole.
    NotLegal,
    /// The history of the run had too little room: calls of a client or of a callback were cut short, a
    /// wait ended with `exhausted`, or a callback is left pending. The output is whole.
    Exhausted,
    /// A wait of the run ended with `stalled`, and the history had room for all. The output is whole.
    Stalled,
    /// An order of the script has a fault. The output is whole.
    Bad,
    /// Of the script's orders those up to a length were gone through, and none of these has a fault. The output is whole.
    GaveUp,
}

impl Status {
    ghost use Rattle.tp_run.specs.Codes.{code_of};

    /// The exit status of the program.
    pub fn code(self) -> u8
        ensures { result ≡ code_of self }
    {
        match self {
            Status::Fine => 0,
            Status::Words => 1,
            Status::BadLine { .. } => 2,
            Status::ReadFault => 3,
            Status::WriteFault => 4,
            Status::NoMemory => 5,
            Status::TooLong => 6,
            Status::NotLegal => 7,
            Status::Exhausted => 8,
            Status::Stalled => 9,
            Status::Bad => 10,
            Status::GaveUp => 11,
        }
    }
}

impl From<Ending> for Status {
    ghost use Rattle.tp_run.specs.Ends.{status_of};

    ghost from_gives = { λ ending status. status ≡ status_of ending };

    fn from(ending: Ending) -> Self {
        match ending {
            Ending::Fine => Status::Fine,
            Ending::NotLegal => Status::NotLegal,
            Ending::Exhausted => Status::Exhausted,
            Ending::Stalled => Status::Stalled,
            Ending::Bad => Status::Bad,
            Ending::GaveUp => Status::GaveUp,
        }
    }
}

impl From<ReadFault> for Status {
    ghost use Rattle.tp_run.specs.Ends.{status_of_source};

    ghost from_gives = { λ fault status. status ≡ status_of_source fault };

    fn from(fault: ReadFault) -> Self {
        match fault {
            ReadFault::NoMemory => Status::NoMemory,
            ReadFault::Failed => Status::ReadFault,
            ReadFault::TooLong => Status::TooLong,
        }
    }
}

impl From<TextFault> for Status {
    ghost use Rattle.tp_run.specs.Ends.{status_of_text};

    ghost from_gives = { λ fault status. status ≡ status_of_text fault };

    fn from(fault: TextFault) -> Self {
        match fault {
            TextFault::NoMemory => Status::NoMemory,
            TextFault::At { line, column } => Status::BadLine { line, column },
        }
    }
}

impl From<ScriptFault> for Status {
    ghost use Rattle.tp_run.specs.Ends.{status_of_script};

    ghost from_gives = { λ fault status. status ≡ status_of_script fault };

    fn from(fault: ScriptFault) -> Self {
        match fault {
            ScriptFault::NoMemory => Status::NoMemory,
            ScriptFault::At { line, column, .. } => Status::BadLine { line, column },
        }
    }
}

impl From<PortFault> for Status {
    ghost use Rattle.tp_run.specs.Ends.{status_of_port};

    ghost from_gives = { λ fault status. status ≡ status_of_port fault };

    fn from(fault: PortFault) -> Self {
        match fault {
            PortFault::NoMemory => Status::NoMemory,
            PortFault::At { line, column } => Status::BadLine { line, column },
        }
    }
}

impl From<AllocError> for Status {
    ghost use Rattle.tp_run.specs.declared.status.Status.TheVariants.{NoMemory};

    ghost from_gives = { λ _ status. status ≡ NoMemory };

    fn from(_error: AllocError) -> Self {
        Status::NoMemory
    }
}
