//! The calls that a text of devices stands for, as lists that are made one after another.
//!
//! Client 1 makes an I/O object for each device, starts and issues the operations in the order of the text, and
//! finishes. The operations' callbacks are numbered on from 1 in this order. Then the client of each device, client 2
//! for device 1 and so on, completes the device's operations, and finishes.
//!
//! ```text
//! let devices = read_devices(alloc, b"device\nop 0 512\nop 5 0\n")?;
//! make_all(&mut book, &set_up_calls(alloc, &devices)?);            // object 1, callbacks 1 and 2
//! let lists = completions_of(alloc, &devices)?;                    // [[1: 0, 512; 2: 5, 0]]
//! make_all(&mut book, &completion_calls(alloc, &lists)?);          // by client 2
//! make_all(&mut book, &finish_calls(alloc, 1)?);                   // of client 2
//! ```

#![tactic(auto)]

ghost use Rattle.std.specs.Prelude.{◌≡◌, ◌+◌, ◌<◌, ◌≤◌, ◌^◌, ◌++◌, List, All, IfOk, OnOk, length, map};
ghost use Rattle.std.specs.List.{range_with_len};
ghost use Rattle.port_lines.specs.declared.lines.Operation.{Operation as Op};
ghost use Rattle.port_lines.specs.Texts.{lists_of, AreDevices};
ghost use Rattle.port_facts.specs.declared.Completion.{Completion as Item};
ghost use Rattle.recorded.specs.Recordings.{all_made};
ghost use Rattle.port_facts.specs.Accepted.{call_of};
ghost use Rattle.port_facts.specs.Completions.{completion_of, completions};
ghost use Rattle.port_facts.specs.Interleaved.{listed, AreInOrder, IsInterleaving};
ghost use Rattle.port_facts.specs.SetUp.{device_made, finishes, operations_from, set_up, IsPort};
ghost use Rattle.port_calls.specs.PortCalls.{completions_from, completions_in, in_turn, numbered, objects_of, posted_by, IsInRange};

use port_facts::Completion;
use port_lines::Operation;
use recorded::Recorded;
use std::alloc::{AllocError, Global};
use tp_base::calls::{Call, Environ, Kind, Priority};
use tp_base::ids::{GroupId, ObjectId, PoolId, RoutineId, Who};

/// Makes the calls one after another.
pub fn make_all<B: Recorded>(book: &mut B, calls: &[(Who, Call)])
    requires { All IsInRange calls.now }
    ensures { B.recording book.new ≡ all_made (B.recording book.old) calls.now }
{
    for (who, call) in calls {
        book.step(*who, *call);
    }
}

/// The calls of client 1: an object for each device, the operations of the devices in their order, and its finish.
pub fn set_up_calls(
    alloc: Global,
    devices: &[Vec<Operation>],
) -> Result<Vec<(Who, Call)>, AllocError>
    requires { AreDevices (lists_of devices.now) }
    ensures calls { IfOk result (λ calls. calls.items ≡ map call_of (set_up (length devices.now) (objects_of (lists_of devices.now)))) }
    ensures in_range { IfOk result (λ calls. All IsInRange calls.items) }
{
    let mut calls = Vec::new(alloc);
    add_objects(&mut calls, devices.len() as u32)?;
    let mut object = 1;
    for operations in devices {
        add_operations(&mut calls, ObjectId(object), operations)?;
        object += 1;
    }
    calls.push((Who::Client(1), Call::Finish))?;
    Ok(calls)
}

// Adds the calls that make so many objects.
fn add_objects(calls: &mut Vec<(Who, Call)>, count: u32) -> Result<(), AllocError>
    ensures { OnOk result (calls.new.items ≡ calls.old.items ++ map call_of (map device_made (range_with_len 1 count))) }
{
    let env = Environ {
        pool: PoolId(0),
        group: GroupId(0),
        cancel: RoutineId(0),
        priority: Priority::Normal,
        long: false,
        persistent: false,
    };
    let call = Call::Create {
        kind: Kind::Io,
        routine: RoutineId(1),
        context: 0,
        env,
    };
    for _ in 0..count {
        calls.push((Who::Client(1), call))?;
    }
    Ok(())
}

// Adds the calls that start and issue an operation of the object for each of these.
fn add_operations(
    calls: &mut Vec<(Who, Call)>,
    object: ObjectId,
    operations: &[Operation],
) -> Result<(), AllocError>
    ensures { OnOk result (calls.new.items ≡ calls.old.items ++ map call_of (operations_from 1 (map (λ operation. object) operations.now))) }
{
    for _ in operations {
        calls.push((Who::Client(1), Call::StartIo { object }))?;
        calls.push((Who::Client(1), Call::IssueIo { object }))?;
    }
    Ok(())
}

/// What the operations of each device complete with, the callbacks numbered on from 1 through all devices.
pub fn completions_of(
    alloc: Global,
    devices: &[Vec<Operation>],
) -> Result<Vec<Vec<Completion>>, AllocError>
    requires { AreDevices (lists_of devices.now) }
    ensures { IfOk result (λ lists. completions_in lists.items ≡ numbered (lists_of devices.now)) }
{
    let mut lists = Vec::new(alloc);
    let mut callback = 1;
    for operations in devices {
        lists.push(completions_from(alloc, callback, operations)?)?;
        callback += operations.len() as u64;
    }
    Ok(lists)
}

// What the operations of a device complete with, the callbacks numbered on from this one.
fn completions_from(
    alloc: Global,
    first: u64,
    operations: &[Operation],
) -> Result<Vec<Completion>, AllocError>
    requires { first + length operations.now < 2 ^ 64 }
    ensures { IfOk result (λ list. list.items ≡ completions_from first operations.now) }
{
    let mut list = Vec::new(alloc);
    let mut callback = first;
    for operation in operations {
        list.push(Completion {
            callback,
            error: operation.error,
            bytes: operation.bytes,
        })?;
        callback += 1;
    }
    Ok(list)
}

/// The calls that complete what is listed, all of the first device, then all of the second one, and so on.
pub fn completion_calls(
    alloc: Global,
    lists: &[Vec<Completion>],
) -> Result<Vec<(Who, Call)>, AllocError>
    requires { length lists.now ≤ 15 }
    ensures calls { IfOk result (λ calls. calls.items ≡ map call_of (completions (in_turn (completions_in lists.now)))) }
    ensures in_range { IfOk result (λ calls. All IsInRange calls.items) }
{
    let mut calls = Vec::new(alloc);
    let mut device = 1;
    for list in lists {
        add_completions(&mut calls, device, list)?;
        device += 1;
    }
    Ok(calls)
}

// Adds the calls by which the client of a device completes what it lists.
fn add_completions(
    calls: &mut Vec<(Who, Call)>,
    device: u32,
    list: &[Completion],
) -> Result<(), AllocError>
    requires device { device ≤ 15 }
    requires in_range { All IsInRange calls.old.items }
    ensures calls { OnOk result (calls.new.items ≡ calls.old.items ++ map call_of (completions (posted_by device list.now))) }
    ensures in_range { All IsInRange calls.new.items }
{
    for completion in list {
        calls.push(completion_call(device, *completion))?;
    }
    Ok(())
}

// The call that completes an operation of a device.
fn completion_call(device: u32, completion: Completion) -> (Who, Call)
    requires { device ≤ 15 }
    ensures call { result ≡ call_of (completion_of (record { device = device; completion = completion })) }
    ensures in_range { IsInRange result }
{
    let Completion {
        callback,
        error,
        bytes,
    } = completion;
    (
        Who::Client(device + 1),
        Call::CompleteIo {
            callback,
            error,
            bytes,
        },
    )
}

/// The calls by which the clients of so many devices finish.
pub fn finish_calls(alloc: Global, count: u32) -> Result<Vec<(Who, Call)>, AllocError>
    requires { count ≤ 15 }
    ensures calls { IfOk result (λ calls. calls.items ≡ map call_of (finishes 2 count)) }
    ensures in_range { IfOk result (λ calls. All IsInRange calls.items) }
{
    let mut calls = Vec::new(alloc);
    for place in 0..count {
        calls.push((Who::Client(place + 2), Call::Finish))?;
    }
    Ok(calls)
}

/// The operations of devices are those of a port, and what they complete with lists each of them once, in the order
/// of its callbacks. What is posted of one device after another is in one of the orders in which the devices may
/// post it.
pub fn port_text_fits()
    ensures port { (devices : List (List Op)) → AreDevices devices → IsPort (length devices) (objects_of devices) }
    ensures in_order { (devices : List (List Op)) → AreInOrder (length (objects_of devices)) (numbered devices) }
    ensures lists { (devices : List (List Op)) → length (numbered devices) ≡ length devices }
    ensures count { (devices : List (List Op)) → length (listed (numbered devices)) ≡ length (objects_of devices) }
    ensures in_turn { (lists : List (List Item)) → IsInterleaving lists (in_turn lists) }
{}
