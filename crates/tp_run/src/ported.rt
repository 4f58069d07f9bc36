//! Devices that complete their operations, and what is written of that.

ghost use Rattle.std.specs.Prelude.{◌≡◌, ℕ, ◌≤◌, List, length, IfOk};
ghost use Rattle.port_calls.specs.PortCalls.{numbered, objects_of};
ghost use Rattle.port_facts.specs.Interleaved.{IsInterleaving};
ghost use Rattle.port_facts.specs.SetUp.{behind_set_up};
ghost use Rattle.port_facts.specs.declared.Posted.{Posted as Post};
ghost use Rattle.port_lines.specs.Texts.{lists_of, AreDevices};
ghost use Rattle.port_lines.specs.declared.lines.Operation.{Operation as DeviceOperation};
ghost use Rattle.tp_run.specs.declared.status.Ending.{Ending as End};
ghost use Rattle.tp_run.specs.Ported.{behind_posted, limits_of, IsPorted};

use crate::played::append_totals;
use crate::replies::Output;
use crate::status::Ending;
use port_calls::{
    completion_calls, completions_of, finish_calls, make_all, port_text_fits, set_up_calls,
};
use port_facts::{
    completions_are_accepted, legal_is_answered, port_history_is_legal, set_up_is_accepted,
};
use port_lines::Operation;
use recorded::{Recorded, program_limits};
use std::alloc::{AllocError, Global};
use std::sync::Wait;
use std::thread::Threads;
use tp_model::legal_keeps_laws;
use tp_port::{PortGate, pump};
use tp_report::{Counted, Written, into_history};

/// The workers of the machine. They have nothing to do.
const WORKERS: u32 = 4;

/// How many entries its history has room for.
const EVENTS: u32 = 65_536;

/// Lets devices complete their operations, each on a thread of its own, and answers the history with its
/// summary. In what order the devices' completions stand is the threads' matter.
pub fn play_port<Rt: Threads + Wait + Sync, B: Recorded, G: PortGate + Sync>(
    rt: &Rt,
    alloc: Global,
    devices: &[Vec<Operation>],
    gate: &G,
) -> Result<Output, AllocError>
    requires { AreDevices (lists_of devices.now) }
    ensures { IfOk result (λ output. IsPorted (lists_of devices.now) output.text.items output.ending) }
{
    port_text_fits();
    set_up_is_accepted();
    let book = set_up::<Written<Counted<B>>>(alloc, devices)?;
    let lists = completions_of(alloc, devices)?;
    let (book, pumped) = pump(rt, alloc, book, lists, gate);
    pumped?;
    finish(alloc, devices, book)
}

/// The same on this thread alone: each device completes all of its operations behind the device before.
pub fn play_port_alone<B: Recorded>(
    alloc: Global,
    devices: &[Vec<Operation>],
) -> Result<Output, AllocError>
    requires { AreDevices (lists_of devices.now) }
    ensures { IfOk result (λ output. IsPorted (lists_of devices.now) output.text.items output.ending) }
{
    port_text_fits();
    set_up_is_accepted();
    completions_are_accepted();
    let mut book = set_up::<Written<Counted<B>>>(alloc, devices)?;
    let _len = book.len();
    let lists = completions_of(alloc, devices)?;
    let calls = completion_calls(alloc, &lists)?;
    make_all(&mut book, &calls);
    finish(alloc, devices, book)
}

// A new machine on which client 1 has made the devices' objects and started their operations.
fn set_up<B: Recorded>(alloc: Global, devices: &[Vec<Operation>]) -> Result<B, AllocError>
    requires { AreDevices (lists_of devices.now) }
    ensures { IfOk result (λ book. B.recording book ≡ behind_set_up (limits_of (lists_of devices.now)) 65536 (length (lists_of devices.now)) (objects_of (lists_of devices.now))) }
{
    port_text_fits();
    set_up_is_accepted();
    let limits = program_limits(devices.len() as u32 + 1, WORKERS);
    let mut book = B::open(alloc, limits, EVENTS)?;
    let calls = set_up_calls(alloc, devices)?;
    make_all(&mut book, &calls);
    Ok(book)
}

// Lets the devices' clients finish, and answers the history with its summary.
fn finish<B: Recorded>(
    alloc: Global,
    devices: &[Vec<Operation>],
    book: Written<Counted<B>>,
) -> Result<Output, AllocError>
    requires { AreDevices (lists_of devices.now) }
    ensures { (posted : List Post) → IsInterleaving (numbered (lists_of devices.now)) posted →
        book ≡ behind_posted (lists_of devices.now) posted →
        IfOk result (λ output. IsPorted (lists_of devices.now) output.text.items output.ending) }
{
    port_text_fits();
    port_history_is_legal();
    legal_is_answered();
    legal_keeps_laws();
    let calls = finish_calls(alloc, devices.len() as u32)?;
    let mut book = book;
    make_all(&mut book, &calls);
    let (counted, history) = into_history(alloc, book)?;
    let mut text = history;
    append_totals(alloc, false, &counted, &mut text)?;
    let ending = Ending::Fine;
    Ok(Output { text, ending })
}

/// Of one device at most there is one output, whatever the threads do: the order of the text is the only one.
pub fn one_device_writes_one_output()
    ensures { (devices : List (List DeviceOperation)) (a b : List ℕ) (ends other_ends : End) → length devices ≤ 1 → IsPorted devices a ends → IsPorted devices b other_ends → (a ≡ b) × (ends ≡ other_ends) }
{
    port_text_fits();
}
