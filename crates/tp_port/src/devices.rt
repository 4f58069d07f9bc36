//! Devices, each in a thread of its own.

ghost use Rattle.std.specs.Prelude.{◌≡◌, ◌≤◌, [], length, vec_capacity};
ghost use Rattle.tp_port.specs.Ports.{number_of};
ghost use Rattle.tp_port.specs.Devices.{AreFinished, AreReady, AreStarted, Finishes, HasPostedAll, IsReady, IsStarted};

use crate::passes::PostPass;
use crate::port::Port;
use port_facts::Completion;
use std::snapshot::Snapshot;
use std::sync::Wait;
use std::thread::{Promise, PromisedHandle, Scope, Threads};

/// Who is told that a device begins.
pub trait PortGate {
    /// Is called once for a device, in its thread and before its first post, with its number, from 1.
    fn before(&self, device: u32);
}

/// That the pass which a thread hands back is the one of this device at this port, and has posted this
/// list.
#[derive(Drop)]
pub struct PostsAll {
    pub(crate) port: Snapshot<Port>,
    pub(crate) number: u32,
    pub(crate) list: Snapshot<Vec<Completion>>,
}

impl Promise<PostPass> for PostsAll {
    ghost kept_by = { λ promise pass. HasPostedAll promise.port.value promise.number promise.list.value.items pass };
}

/// A device that was started: it runs in a thread, or has ended where no thread could be made.
#[derive(Drop)]
pub enum Started {
    Runs(PromisedHandle<PostPass, PostsAll>),
    Ended(PostPass),
}

// Posts a device's list.
fn post_all<Rt: Wait, G: PortGate>(
    rt: &Rt,
    port: &Port,
    mut pass: PostPass,
    list: &Vec<Completion>,
    gate: &G,
) -> PostPass
    requires { IsReady port.now (number_of pass) list.now.items pass }
    ensures { HasPostedAll port.now (number_of pass) list.now.items result }
{
    gate.before(pass.number);
    for completion in list {
        port.post(rt, &mut pass, *completion);
    }
    pass
}

// Starts a device in a thread; where none can be made, it runs here.
fn start<'s, E, Rt: Wait + Sync, G: PortGate + Sync>(
    rt: &'s Rt,
    scope: &Scope<'s, E>,
    port: &'s Port,
    pass: PostPass,
    list: &'s Vec<Completion>,
    gate: &'s G,
) -> Started
    requires { IsReady port.now (number_of pass) list.now.items pass }
    ensures { IsStarted port.now (number_of pass) list.now.items result }
{
    let promise = PostsAll {
        port: Snapshot::of(port),
        number: pass.number,
        list: Snapshot::of(list),
    };
    match scope.spawn_with(
        promise,
        move ||
            requires { IsReady port.now (number_of pass) list.now.items pass }
            ensures { HasPostedAll port.entry.now (number_of pass) list.entry.now.items result }
        { post_all(rt, port, pass, list, gate) },
    ) {
        Ok(handle) => Started::Runs(handle),
        Err(refused) => Started::Ended((refused.value)()),
    }
}

// Starts all devices, in the order of their numbers.
pub(crate) fn start_all<'s, E, Rt: Wait + Sync, G: PortGate + Sync>(
    rt: &'s Rt,
    scope: &Scope<'s, E>,
    port: &'s Port,
    posts: Vec<PostPass>,
    devices: &'s Vec<Vec<Completion>>,
    gate: &'s G,
    mut started: Vec<Started>,
) -> Vec<Started>
    requires ready { AreReady port.now devices.now.items posts.items }
    requires empty { started.items ≡ [] }
    requires fits { length posts.items ≤ vec_capacity started }
    ensures { AreStarted port.now devices.now.items result.items }
{
    for pass in posts {
        let list = &devices[started.len()];
        started.push_reserved(start(rt, scope, port, pass, list, gate));
    }
    started
}

// Waits until a device has ended.
fn finish<Rt: Threads>(rt: &Rt, started: Started) -> PostPass
    ensures { Finishes started result }
{
    match started {
        Started::Runs(handle) => handle.join(rt),
        Started::Ended(pass) => pass,
    }
}

// Waits until all devices have ended.
pub(crate) fn finish_all<Rt: Threads>(
    rt: &Rt,
    started: Vec<Started>,
    mut ended: Vec<PostPass>,
) -> Vec<PostPass>
    requires empty { ended.items ≡ [] }
    requires fits { length started.items ≤ vec_capacity ended }
    ensures { AreFinished started.items result.items }
{
    for device in started {
        ended.push_reserved(finish(rt, device));
    }
    ended
}
