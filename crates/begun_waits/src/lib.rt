//! The waits that actors have begun, seen as their list in the order of beginning, each with all that it
//! covered as it began.
//!
//! `open` takes the memory, and no other call takes any. An actor that has begun no wait begins one by
//! `begin`, or by `begin_close` where it closes a group; `note` gives its wait a notice to give, and
//! `give_notice` takes the first of them; `end` ends it. `is_begun`, `begun`, `wanted`, `closing` and
//! `first_notice` ask for what the wait of an actor is, and `waiting_workers` for how many workers have one.
//!
//! ```text
//! let mut waits = BegunWaits::open(alloc, limits)?;
//! waits.begin(who, WaitTarget::Kernel(KernelId(2)), false, &callbacks);
//! waits.wanted(who)               // Some(KernelId(2))
//! waits.end(who, WaitEnd::Free);
//! waits.begin_close(who, GroupId(1), true, 7, &callbacks);
//! waits.note(who, ObjectId(3));
//! waits.closing(who)              // Some(Closing { group: GroupId(1), context: 7 })
//! waits.first_notice(who)         // Some(ObjectId(3))
//! ```
//!
//! What a call costs: a look at the actor's place, and where notices come or go, a few loads and stores
//! for each. The memory is some thirty bytes for each actor, and for each object up to the greatest of
//! which a notice was to be given. What a wait covered, in which order waits were begun, and how many
//! notices stalled waits never gave, is in no memory: it exists in contracts alone (`past`).

#![tactic(auto)]

ghost use Rattle.std.specs.Prelude.{◌≡◌, ◌+◌, ◌^◌, ◌<◌, ◌≤◌, ◌++◌, ◌∷◌, [], IfOk, IfSome, IsSome, Some, false, filter, length, option_map, slice_get, slice_set, true};
ghost use Rattle.std.specs.List.{range_with_len};
ghost use Rattle.tp_base.specs.Ranges.{AreLimitsInRange};
ghost use Rattle.tp_model.specs.Changes.{give_notice, given_up_after, new_close, new_wait};
ghost use Rattle.begun_waits.specs.Kept.{closing_for as closing_of_purpose, waiting_from};
ghost use Rattle.begun_waits.specs.Begun.{closing_by, is_noticed, is_waiting, notices_by, place_of as place_of_actor, place_within as place_within_of, wait_among, wanted_by, with_notices, without_waits};

pub mod covers;
mod notices;
mod past;

use notices::Notices;
use past::WaitList;
use std::alloc::{AllocError, Global};
use std::marker::Model;
use tp_base::ids::{GroupId, KernelId, ObjectId, Who};
use tp_base::limits::Limits;
use tp_base::plans::WaitEnd;
use tp_base::rows::WaitTarget;
use tp_model::KeepsCallbacks;

/// Which group a wait closes, and the context that its notices tell.
#[derive(Clone, Copy)]
pub struct Closing {
    pub group: GroupId,
    pub context: u64,
}

/// What a wait is for; where it closes a group, with the context that its notices tell.
#[derive(Clone, Copy)]
pub struct Purpose {
    pub target: WaitTarget,
    pub cleanup: u64,
}

/// The begun waits of a machine, whose callbacks `K` keeps.
#[derive(Drop)]
pub struct BegunWaits<K: KeepsCallbacks> {
    limits: Limits,
    // By the place of an actor, what its wait is for, if it has begun one.
    purposes: Vec<Option<Purpose>>,
    // How many of these are of workers.
    waiting: u32,
    notices: Notices,
    list: WaitList<K>,
}

impl<K: KeepsCallbacks> Model for BegunWaits<K> {
    ghost use Rattle.begun_waits.specs.Begun.{Begun};

    ghost Value = { Begun };

    ghost use Rattle.begun_waits.specs.Kept.{AreKept};

    ghost view = { λ a. record { limits = a.limits; waits = a.list.waits; given_up = a.list.given_up } };

    ghost invariant = { λ a. AreKept a.limits a.purposes.items a.notices a.list.waits a.waiting };
}

// Where a number stands among so many behind the first ones.
fn place_within(first: u32, count: u32, number: u32) -> Option<u32>
    requires { first + count < 2 ^ 32 }
    ensures { result ≡ place_within_of first count number }
{
    if 1 <= number && number <= count {
        Some(first + (number - 1))
    } else {
        None
    }
}

// The place of an actor, if it is one of the machine.
fn place_of(limits: Limits, who: Who) -> Option<u32>
    requires { limits.clients + limits.workers < 2 ^ 32 }
    ensures { result ≡ place_of_actor limits who }
{
    match who {
        Who::Client(number) => place_within(0, limits.clients, number),
        Who::Worker(number) => place_within(limits.clients, limits.workers, number),
    }
}

// How many places from `first` on are for a wait, where so many are and this is written at a place.
fn waiting_after(
    purposes: &[Option<Purpose>],
    first: u32,
    waiting: u32,
    place: u32,
    purpose: Option<Purpose>,
) -> u32
    requires few { length purposes.now < 2 ^ 32 }
    requires counted { waiting ≡ waiting_from first purposes.now }
    requires there { place < length purposes.now }
    ensures { result ≡ waiting_from first (slice_set purposes.now place purpose) }
{
    if place < first {
        return waiting;
    }
    let old = purposes[place as usize];
    waiting - u32::from(old.is_some()) + u32::from(purpose.is_some())
}

impl<K: KeepsCallbacks> BegunWaits<K> {
    ghost use Rattle.begun_waits.specs.Kept.{purpose_of};

    /// No waits, with the memory for those of all actors that the limits allow.
    ///
    /// An `AllocError` comes where that memory can't be had.
    pub fn open(alloc: Global, limits: Limits) -> Result<BegunWaits<K>, AllocError>
        requires { AreLimitsInRange limits }
        ensures { IfOk result (λ made. made ≡ record { limits = limits; waits = []; given_up = 0 }) }
    {
        let actors = limits.clients + limits.workers;
        let purposes = vec![in alloc; None; actors as usize]?;
        let notices = Notices::open(alloc, actors, limits.objects)?;
        Ok(BegunWaits {
            limits,
            purposes,
            waiting: 0,
            notices,
            list: WaitList::none(),
        })
    }

    /// The place of an actor, if it is one of the machine: first come the clients, then the workers. Who
    /// has begun a wait is one.
    pub fn place(&self, who: Who) -> Option<u32>
        ensures value { result ≡ place_of_actor self.now.limits who }
        ensures acts { is_waiting self.now.waits who ≡ true → IsSome result }
    {
        place_of(self.limits, who)
    }

    // What an actor's wait is for, if it has begun one, where this is the actor's place.
    fn purpose_at(&self, who: Who, place: u32) -> Option<Purpose>
        requires { place_of_actor self.now.limits who ≡ Some place }
        ensures { result ≡ option_map purpose_of (wait_among self.now.waits who) }
    {
        self.purposes[place as usize]
    }

    // The same, wherever that is.
    fn purpose(&self, who: Who) -> Option<Purpose>
        ensures { result ≡ option_map purpose_of (wait_among self.now.waits who) }
    {
        let place = place_of(self.limits, who)?;
        self.purpose_at(who, place)
    }

    /// Whether an actor has begun a wait.
    pub fn is_begun(&self, who: Who) -> bool
        ensures { result ≡ is_waiting self.now.waits who }
    {
        self.purpose(who).is_some()
    }

    /// How many workers have begun a wait.
    pub fn waiting_workers(&self) -> u32
        ensures { result ≡ length (filter (λ number. is_waiting self.now.waits (Who.Worker number)) (range_with_len 1 self.now.limits.workers)) }
    {
        self.waiting
    }

    /// The place of an actor and what its wait is for, if it has begun one.
    pub fn begun(&self, who: Who) -> Option<(u32, WaitTarget)>
        ensures place { IfSome result (λ begun. place_of_actor self.now.limits who ≡ Some begun.0) }
        ensures target { option_map (λ begun. begun.1) result ≡ option_map (λ b. b.target) (wait_among self.now.waits who) }
    {
        let place = place_of(self.limits, who)?;
        let purpose = self.purpose_at(who, place)?;
        Some((place, purpose.target))
    }

    /// The kernel object that an actor's wait is for, if it has begun one for a kernel object.
    pub fn wanted(&self, who: Who) -> Option<KernelId>
        ensures { result ≡ wanted_by (wait_among self.now.waits who) }
    {
        match self.purpose(who) {
            Some(
                Purpose {
                    target: WaitTarget::Kernel(kernel),
                    ..
                },
            ) => Some(kernel),
            _ => None,
        }
    }

    /// Which group an actor's wait closes, if it has begun one that closes a group.
    pub fn closing(&self, who: Who) -> Option<Closing>
        ensures { result ≡ closing_by (wait_among self.now.waits who) }
    {
        closing_for(self.purpose(who))
    }

    /// The object of which an actor's wait gives a notice next, or None where it has none left.
    pub fn first_notice(&self, who: Who) -> Option<ObjectId>
        ensures { result ≡ slice_get (notices_by (wait_among self.now.waits who)) 0 }
    {
        let place = place_of(self.limits, who)?;
        self.notices.first(place)
    }

    /// Begins a wait of an actor of the machine that has begun none. It covers what of these callbacks is
    /// outstanding for its target.
    pub fn begin(&mut self, who: Who, target: WaitTarget, cancel: bool, callbacks: &K)
        requires actor { IsSome (place_of_actor self.old.limits who) }
        requires idle { is_waiting self.old.waits who ≡ false }
        ensures { self.new ≡ record self.old { waits = self.old.waits ++ new_wait who target cancel (K.rows callbacks.now) ∷ [] } }
    {
        self.start(who, Purpose { target, cleanup: 0 }, cancel, callbacks);
    }

    /// Begins a wait that closes a group, and has no notice to give yet. The actor has begun no other.
    pub fn begin_close(
        &mut self,
        who: Who,
        group: GroupId,
        cancel: bool,
        context: u64,
        callbacks: &K,
    )
        requires actor { IsSome (place_of_actor self.old.limits who) }
        requires idle { is_waiting self.old.waits who ≡ false }
        ensures { self.new ≡ record self.old { waits = self.old.waits ++ new_close who group cancel context [] (K.rows callbacks.now) ∷ [] } }
    {
        let purpose = Purpose {
            target: WaitTarget::Group(group),
            cleanup: context,
        };
        self.start(who, purpose, cancel, callbacks);
    }

    // Begins a wait.
    fn start(&mut self, who: Who, purpose: Purpose, cancel: bool, callbacks: &K)
        requires actor { IsSome (place_of_actor self.old.limits who) }
        requires idle { is_waiting self.old.waits who ≡ false }
        ensures { self.new ≡ record self.old { waits = self.old.waits ++ record (new_wait who purpose.target cancel (K.rows callbacks.now)) { cleanup = purpose.cleanup } ∷ [] } }
    {
        let place = place_of(self.limits, who).unwrap();
        let first = self.limits.clients;
        self.waiting = waiting_after(&self.purposes, first, self.waiting, place, Some(purpose));
        self.purposes[place as usize] = Some(purpose);
        self.list
            .begin(who, purpose.target, cancel, purpose.cleanup, callbacks);
    }

    /// Gives an actor's wait one more notice to give, behind the others, of an object of which no wait has one.
    pub fn note(&mut self, who: Who, object: ObjectId)
        requires begun { IsSome (wait_among self.old.waits who) }
        requires most { object.0 ≤ self.old.limits.objects }
        requires free { is_noticed self.old.waits object ≡ false }
        ensures { self.new ≡ record self.old { waits = with_notices who (object ∷ []) self.old.waits } }
    {
        let place = place_of(self.limits, who).unwrap();
        self.notices.put(place, object);
        self.list.note(who, object);
    }

    /// The first notice that an actor's wait has to give is given. Nothing changes where it has none.
    pub fn give_notice(&mut self, who: Who)
        ensures { self.new ≡ record self.old { waits = give_notice who self.old.waits } }
    {
        let Some(place) = place_of(self.limits, who) else {
            self.list.give_notice(who);
            return;
        };
        self.notices.take_first(place);
        self.list.give_notice(who);
    }

    /// Ends the wait that an actor has begun, with the notices that it still had. Nothing changes where it
    /// has begun none.
    pub fn end(&mut self, who: Who, how: WaitEnd)
        ensures { self.new ≡ record self.old { waits = without_waits who self.old.waits; given_up = given_up_after self.old.given_up how (wait_among self.old.waits who) } }
    {
        let Some(place) = place_of(self.limits, who) else {
            self.list.end(who, how);
            return;
        };
        let first = self.limits.clients;
        self.waiting = waiting_after(&self.purposes, first, self.waiting, place, None);
        self.purposes[place as usize] = None;
        self.notices.clear(place);
        self.list.end(who, how);
    }
}

// Which group a wait for this closes.
fn closing_for(purpose: Option<Purpose>) -> Option<Closing>
    ensures { result ≡ closing_of_purpose purpose }
{
    match purpose {
        Some(
            Purpose {
                target: WaitTarget::Group(group),
                cleanup,
            },
        ) => Some(Closing {
            group,
            context: cleanup,
        }),
        _ => None,
    }
}
