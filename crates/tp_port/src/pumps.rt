//! The pump: devices post in threads of their own, and what they post is completed on a machine.

ghost use Rattle.std.specs.Prelude.{◌≡◌, ◌+◌, ◌^◌, ◌<◌, ◌≤◌, [], length, vec_capacity, All, IfErr, IfOk};
ghost use Rattle.port_facts.specs.Interleaved.{listed, AreListed};
ghost use Rattle.recorded.specs.Recordings.{made, room_of, world_behind};
ghost use Rattle.tp_port.specs.Completing.{call_of};
ghost use Rattle.tp_port.specs.Devices.{AreEnded, AreReady};
ghost use Rattle.tp_port.specs.Ports.{quotas_last, IsLastOf, IsTakeOf};
ghost use Rattle.tp_port.specs.Pumps.{lists_of, HasDrained, HasTakenSome, IsPrepared, IsPumped};

use crate::devices::{PortGate, Started, finish_all, start_all};
use crate::passes::{LastPass, PostPass, TakePass};
use crate::port::{Port, open};
use port_facts::{Completion, Posted, completions_are_accepted};
use recorded::Recorded;
use std::alloc::{AllocError, Global};
use std::sync::Wait;
use std::thread;
use std::thread::Threads;
use tp_base::calls::Call;
use tp_base::ids::Who;

// How often in succession the queue is found empty before the pump stops taking and waits for the devices.
const EMPTY_MOST: u32 = 10_000;

/// All memory that a pump needs, and a port whose devices have posted nothing.
#[derive(Drop)]
pub struct Prepared {
    pub(crate) port: Port,
    pub(crate) posts: Vec<PostPass>,
    pub(crate) pass: TakePass,
    pub(crate) started: Vec<Started>,
    pub(crate) ended: Vec<PostPass>,
}

fn prepare(alloc: Global, devices: &Vec<Vec<Completion>>) -> Result<Prepared, AllocError>
    requires few { length devices.now.items ≤ 15 }
    requires sum { length (listed (lists_of devices.now.items)) < 2 ^ 32 }
    ensures { IfOk result (IsPrepared devices.now.items) }
{
    let count = devices.len();
    let mut quotas = Vec::with_capacity(alloc, count)?;
    for list in devices {
        quotas.push_reserved(list.len() as u32);
    }
    let (port, posts, pass) = open(alloc, quotas)?;
    Ok(Prepared {
        port,
        posts,
        pass,
        started: Vec::with_capacity(alloc, count)?,
        ended: Vec::with_capacity(alloc, count)?,
    })
}

// Completes an operation on the machine.
fn complete<B: Recorded>(book: &mut B, posted: Posted)
    requires { posted.device ≤ 15 }
    ensures { B.recording book.new ≡ made (B.recording book.old) (call_of posted) }
{
    let Completion {
        callback,
        error,
        bytes,
    } = posted.completion;
    book.step(
        Who::Client(posted.device + 1),
        Call::CompleteIo {
            callback,
            error,
            bytes,
        },
    );
}

// Takes completions and makes each on the machine, until the queue was found empty often enough.
fn take_some<B: Recorded, Rt: Wait>(
    rt: &Rt,
    port: &Port,
    mut book: B,
    mut pass: TakePass,
) -> (B, TakePass)
    requires { IsTakeOf port.now pass }
    ensures { HasTakenSome port.now (B.recording book) (B.recording result.0) pass result.1 }
{
    let mut empty = 0u32;
    for _ in rt.forever() {
        if let Some(posted) = port.take(rt, &mut pass) {
            complete(&mut book, posted);
            empty = 0;
        } else {
            empty += 1;
            if EMPTY_MOST <= empty {
                break;
            }
        }
    }
    (book, pass)
}

// Takes what is left, and makes each on the machine.
fn drain<B: Recorded, Rt: Wait>(
    rt: &Rt,
    port: &Port,
    mut book: B,
    mut pass: LastPass,
) -> (B, LastPass)
    requires of { IsLastOf port.now pass }
    requires few { length (quotas_last pass) ≤ 15 }
    ensures { HasDrained port.now (B.recording book) (B.recording result.0) pass result.1 }
{
    for _ in rt.forever() {
        let Some(posted) = port.take_last(rt, &mut pass) else {
            return (book, pass);
        };
        complete(&mut book, posted);
    }
    unreachable!()
}

// The devices post in threads of their own, while completions are taken and made on the machine.
fn in_threads<B: Recorded, Rt: Threads + Wait + Sync, G: PortGate + Sync>(
    rt: &Rt,
    book: B,
    prepared: Prepared,
    devices: &Vec<Vec<Completion>>,
    gate: &G,
) -> (B, Port, Vec<PostPass>, TakePass)
    requires { IsPrepared devices.now.items prepared }
    ensures took { HasTakenSome result.1 (B.recording book) (B.recording result.0) prepared.pass result.3 }
    ensures ended { AreEnded result.1 devices.now.items result.2.items }
{
    let Prepared {
        port,
        posts,
        pass,
        started,
        ended,
    } = prepared;
    let at = &port;
    let (book, ended, pass) = thread::scope(
        thread::scope_env(),
        rt,
        move |scope| -> (B, Vec<PostPass>, TakePass)
            requires take { IsTakeOf at.now pass }
            requires ready { AreReady at.now devices.now.items posts.items }
            requires started { (started.items ≡ []) × (length devices.now.items ≤ vec_capacity started) }
            requires ended { (ended.items ≡ []) × (length devices.now.items ≤ vec_capacity ended) }
            ensures took { HasTakenSome at.entry.now (B.recording book) (B.recording result.0) pass result.2 }
            ensures ended { AreEnded at.entry.now devices.entry.now.items result.1.items }
        {
            let started = start_all(rt, scope, at, posts, devices, gate, started);
            let (book, pass) = take_some(rt, at, book, pass);
            let ended = finish_all(rt, started, ended);
            (book, ended, pass)
        },
    );
    (book, port, ended, pass)
}

/// Lets each device post its completions from a thread of its own, and makes each on the machine, as it
/// is taken: client 2 completes those of device 1, and so on. There are 15 devices at most.
///
/// The history's new entries are those of the completions alone, all accepted, in the order in which they
/// were taken, which the pass tells; of each device they are its list, in order. In what order those of
/// different devices stand, and so which history it is, is the threads' matter.
///
/// All memory is taken before the first post; where it isn't there, an `AllocError` comes, and the
/// machine is as it was.
pub fn pump<B: Recorded, Rt: Threads + Wait + Sync, G: PortGate + Sync>(
    rt: &Rt,
    alloc: Global,
    book: B,
    devices: Vec<Vec<Completion>>,
    gate: &G,
) -> (B, Result<LastPass, AllocError>)
    requires few { length devices.items ≤ 15 }
    requires may { AreListed (world_behind (B.recording book)) (lists_of devices.items) }
    requires room { length (listed (lists_of devices.items)) ≤ room_of (B.recording book) }
    ensures ok { IfOk result.1 (IsPumped (lists_of devices.items) (B.recording book) (B.recording result.0)) }
    ensures err { IfErr result.1 (λ _. B.recording result.0 ≡ B.recording book) }
{
    // The history is legal, and has less room than 2^32: proofs alone need that.
    let _len = book.len();
    let _capacity = book.capacity();
    completions_are_accepted();
    let prepared = match prepare(alloc, &devices) {
        Ok(prepared) => prepared,
        Err(error) => return (book, Err(error)),
    };
    let (book, port, ended, pass) = in_threads(rt, book, prepared, &devices, gate);
    let last = port.gather(ended, pass);
    let (book, last) = drain(rt, &port, book, last);
    (book, Ok(last))
}
