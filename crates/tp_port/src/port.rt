//! The port: devices post, one takes.

ghost use Rattle.std.specs.Prelude.{◌≡◌, ◌+◌, ◌^◌, ◌<◌, ◌≤◌, [], length, sum, IfNone, IfOk, IfSome};
ghost use Rattle.crossbeam_queue.specs.Passes.{view, ruled_capacity, IsPassOf};
ghost use Rattle.tp_port.specs.Parts.{begun, opening_part};
ghost use Rattle.tp_port.specs.Ports.{posted_by, quota, AreBack, AreDealt, HasPosted, HasTaken, HasTakenLast, HasWaited, IsDrained, IsGathered, IsLastOf, IsLeft, IsNewTake, IsPostOf, IsTakeOf};

use crate::passes::{LastPass, PostPass, Raw, TakePass};
use crate::rule::{Begins, Deals, Delivery, Gathers, Puts, Quoted, Takes, TakesLast};
use crate::views::Part;
use crossbeam_queue::RuledArrayQueue;
use port_facts::{Completion, Posted};
use std::alloc::{AllocError, Global};
use std::marker::Brand;
use std::sync::Wait;

/// A queue of completions with several devices that post and one who takes.
#[derive(Drop)]
pub struct Port {
    pub(crate) queue: RuledArrayQueue<Posted, Part, Delivery, Global>,
}

/// Opens a port for as many devices as there are quotas, and gives a pass for each, numbered from 1,
/// and one for the taker. A device will post as many completions as its quota says at most.
///
/// It takes all the memory that the port will ever need; an `AllocError` comes where that isn't there.
pub fn open(alloc: Global, quotas: Vec<u32>) -> Result<(Port, Vec<PostPass>, TakePass), AllocError>
    requires few { length quotas.items ≤ 15 }
    requires sum { sum quotas.items < 2 ^ 32 }
    ensures dealt { IfOk result (λ made. AreDealt made.0 quotas.items made.1.items) }
    ensures take { IfOk result (λ made. IsNewTake made.0 quotas.items made.2) }
{
    open_quoted::<Brand>(alloc, quotas)
}

fn open_quoted<Q: Quoted>(
    alloc: Global,
    quotas: Vec<u32>,
) -> Result<(Port, Vec<PostPass>, TakePass), AllocError>
    requires quotas { quotas.items ≡ Q.quotas }
    requires few { length quotas.items ≤ 15 }
    requires sum { sum quotas.items < 2 ^ 32 }
    ensures dealt { IfOk result (λ made. AreDealt made.0 quotas.items made.1.items) }
    ensures take { IfOk result (λ made. IsNewTake made.0 quotas.items made.2) }
{
    let mut room = 0;
    for quota in &quotas {
        room += *quota as usize;
    }
    let (queue, mut raw) = RuledArrayQueue::<Posted, Part, Delivery, Global>::ruled(
        alloc,
        room + 1,
    )?;
    queue.another::<Begins<Q>>(&mut raw);
    let port = Port { queue };
    let posts = port.deal(alloc, &mut raw, &quotas)?;
    Ok((port, posts, TakePass { raw }))
}

impl Port {
    // A pass of each device, where none was made.
    fn deal(
        &self,
        alloc: Global,
        raw: &mut Raw,
        quotas: &[u32],
    ) -> Result<Vec<PostPass>, AllocError>
        requires of { IsPassOf self.now.queue raw.old }
        requires begun { view raw.old ≡ begun quotas.now opening_part }
        requires room { ruled_capacity self.now.queue ≡ sum quotas.now + 1 }
        requires few { length quotas.now ≤ 15 }
        ensures dealt { IfOk result (λ posts. AreDealt self.now quotas.now posts.items) }
        ensures left { IfOk result (λ _. IsLeft self.now quotas.now raw.new) }
    {
        let mut posts = Vec::new(alloc);
        let mut number = 0;
        for _ in quotas {
            let other = self.queue.another::<Deals>(raw);
            number += 1;
            posts.push(PostPass { number, raw: other })?;
        }
        Ok(posts)
    }

    /// Puts a completion of the pass's device into the queue. There is always room for it: the devices
    /// keep to their quotas.
    pub fn post<Rt: Wait>(&self, rt: &Rt, pass: &mut PostPass, completion: Completion)
        requires of { IsPostOf self.now pass.old }
        requires quota { length (posted_by pass.old) < quota pass.old }
        ensures { HasPosted self.now completion pass.old pass.new }
    {
        let posted = Posted {
            device: pass.number,
            completion,
        };
        match self.queue.push_as::<Puts, Rt>(rt, &mut pass.raw, posted) {
            Ok(()) => {}
            Err(_) => unreachable!(),
        }
    }

    /// Takes the oldest completion that was posted and not yet taken. None comes only where there was
    /// none at that moment.
    pub fn take<Rt: Wait>(&self, rt: &Rt, pass: &mut TakePass) -> Option<Posted>
        requires { IsTakeOf self.now pass.old }
        ensures some { IfSome result (λ x. HasTaken self.now x pass.old pass.new) }
        ensures none { IfNone result (HasWaited self.now pass.old pass.new) }
    {
        self.queue.pop_as::<Takes, Rt>(rt, &mut pass.raw)
    }
    /// Takes in the passes of all devices, which won't post any more, in the order of their numbers.
    pub fn gather(&self, posts: Vec<PostPass>, pass: TakePass) -> LastPass
        requires take { IsTakeOf self.now pass }
        requires posts { AreBack self.now pass posts.items }
        ensures { IsGathered self.now posts.items pass result }
    {
        let TakePass { mut raw } = pass;
        for post in posts {
            let PostPass {
                number: _,
                raw: other,
            } = post;
            self.queue.absorb::<Gathers>(&mut raw, other);
        }
        self.queue.learn_as::<TakesLast>(&mut raw);
        LastPass { raw }
    }

    /// Takes the oldest completion that is left. None comes only where none is: then of each device
    /// what was taken is what it posted.
    pub fn take_last<Rt: Wait>(&self, rt: &Rt, pass: &mut LastPass) -> Option<Posted>
        requires { IsLastOf self.now pass.old }
        ensures some { IfSome result (λ x. HasTakenLast self.now x pass.old pass.new) }
        ensures none { IfNone result (IsDrained self.now pass.old pass.new) }
    {
        self.queue.pop_as::<TakesLast, Rt>(rt, &mut pass.raw)
    }
}
