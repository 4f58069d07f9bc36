//! What one kernel object is, what may be done with it, and what becomes of it. Each function
//! computes the definition of its name in tp_base (`specs/Kernels`).

ghost use Rattle.std.specs.Prelude.{◌≡◌, ◌+◌, ◌<◌, ◌^◌};
ghost use Rattle.tp_base.specs.Actors.{is_same_actor as same_actor};
ghost use Rattle.tp_base.specs.Kernels.{count_of, is_event as event, is_lock as lock_of, is_owner as owner_is, is_semaphore as semaphore, is_signalled as signalled_is, lock_made as made_lock, may_take as takes};
ghost use Rattle.tp_base.specs.Kernels.{new_lock, owner_left as left_owner, owns as owned_by, passes_by, state_after as after_change, taken as after_release, taken_by as after_taking, takings_of};
ghost use Rattle.kernel_events.specs.Kernels.{Suits};

use tp_base::calls::Lock;
use tp_base::ids::Who;
use tp_base::plans::KernelChange;
use tp_base::rows::KernelState;

/// Whether it is an event.
pub fn is_event(state: KernelState) -> bool
    ensures { result ≡ event state }
{
    match state {
        KernelState::Event { .. } => true,
        _ => false,
    }
}

/// Whether it is a semaphore.
pub fn is_semaphore(state: KernelState) -> bool
    ensures { result ≡ semaphore state }
{
    match state {
        KernelState::Semaphore { .. } => true,
        _ => false,
    }
}

/// Whether it is a lock of this kind.
pub fn is_lock(lock: Lock, state: KernelState) -> bool
    ensures { result ≡ lock_of lock state }
{
    match (lock, state) {
        (Lock::Mutex, KernelState::Mutex { .. }) => true,
        (Lock::Section, KernelState::Section { .. }) => true,
        _ => false,
    }
}

/// How often a semaphore may be taken: 0 for what isn't one.
pub fn count(state: KernelState) -> u32
    ensures { result ≡ count_of state }
{
    match state {
        KernelState::Semaphore { count, .. } => count,
        _ => 0,
    }
}

/// Whether it is a semaphore whose count, raised by so much, would pass its maximum.
pub fn passes(more: u32, state: KernelState) -> bool
    ensures { result ≡ passes_by more state }
{
    match state {
        KernelState::Semaphore { count, maximum } => {
            u64::from(maximum) < u64::from(count) + u64::from(more)
        }
        _ => false,
    }
}

// Whether two actors are the same one.
fn is_same_actor(a: Who, b: Who) -> bool
    ensures { result ≡ same_actor a b }
{
    match (a, b) {
        (Who::Client(a), Who::Client(b)) => a == b,
        (Who::Worker(a), Who::Worker(b)) => a == b,
        _ => false,
    }
}

fn is_owner(who: Who, owner: Option<Who>) -> bool
    ensures { result ≡ owner_is who owner }
{
    match owner {
        Some(actor) => is_same_actor(actor, who),
        None => false,
    }
}

/// Whether it is a lock that this actor owns.
pub fn owns(who: Who, state: KernelState) -> bool
    ensures { result ≡ owned_by who state }
{
    match state {
        KernelState::Mutex { owner, .. } | KernelState::Section { owner, .. } => {
            is_owner(who, owner)
        }
        _ => false,
    }
}

/// Whether this actor may take it: it is an event or a semaphore that is signalled, or a lock that is
/// free or the actor's own.
pub fn may_take(who: Who, state: KernelState) -> bool
    ensures { result ≡ takes who state }
{
    match state {
        KernelState::Event { signalled, .. } => signalled,
        KernelState::Semaphore { count, .. } => 0 < count,
        KernelState::Mutex { owner, .. } | KernelState::Section { owner, .. } => {
            owner.is_none() || is_owner(who, owner)
        }
    }
}

/// Whether it is an event or a semaphore that is signalled.
pub fn is_signalled(state: KernelState) -> bool
    ensures { result ≡ signalled_is state }
{
    match state {
        KernelState::Event { signalled, .. } => signalled,
        KernelState::Semaphore { count, .. } => 0 < count,
        _ => false,
    }
}

/// What an event or a semaphore is once a wait that was armed on it has taken it.
pub fn taken(state: KernelState) -> KernelState
    ensures { result ≡ after_release state }
{
    match state {
        KernelState::Event { manual, signalled } => KernelState::Event {
            manual,
            signalled: manual && signalled,
        },
        KernelState::Semaphore { count, maximum } => KernelState::Semaphore {
            count: count.saturating_sub(1),
            maximum,
        },
        _ => state,
    }
}

/// What it is once this actor has taken it. A lock is the actor's once more.
pub fn taken_by(who: Who, state: KernelState) -> KernelState
    requires { takings_of state + 1 < 2 ^ 64 }
    ensures { result ≡ after_taking who state }
{
    match state {
        KernelState::Mutex { takings, .. } => KernelState::Mutex {
            owner: Some(who),
            takings: takings + 1,
        },
        KernelState::Section { takings, .. } => KernelState::Section {
            owner: Some(who),
            takings: takings + 1,
        },
        _ => taken(state),
    }
}

// Who owns a lock once its owner has given back one of so many takings.
fn owner_left(owner: Option<Who>, takings: u64) -> Option<Who>
    ensures { result ≡ left_owner owner takings }
{
    if takings <= 1 { None } else { owner }
}

/// What it is after a change. One that isn't for its kind changes nothing.
pub fn state_after(how: KernelChange, state: KernelState) -> KernelState
    requires { Suits how state }
    ensures { result ≡ after_change how state }
{
    match (how, state) {
        (KernelChange::Set, KernelState::Event { manual, .. }) => KernelState::Event {
            manual,
            signalled: true,
        },
        (KernelChange::Reset, KernelState::Event { manual, .. }) => KernelState::Event {
            manual,
            signalled: false,
        },
        (KernelChange::Raise(more), KernelState::Semaphore { count, maximum }) => {
            KernelState::Semaphore {
                count: count + more,
                maximum,
            }
        }
        (KernelChange::Leave, KernelState::Mutex { owner, takings }) => KernelState::Mutex {
            owner: owner_left(owner, takings),
            takings: takings.saturating_sub(1),
        },
        (KernelChange::Leave, KernelState::Section { owner, takings }) => KernelState::Section {
            owner: owner_left(owner, takings),
            takings: takings.saturating_sub(1),
        },
        (KernelChange::Take(who), state) => taken_by(who, state),
        _ => state,
    }
}

/// A lock as an actor makes it: free, or taken once by the actor.
pub fn lock_made(lock: Lock, who: Who, owned: bool) -> KernelState
    ensures { result ≡ made_lock lock who owned }
{
    let (owner, takings) = if owned { (Some(who), 1) } else { (None, 0) };
    match lock {
        Lock::Mutex => KernelState::Mutex { owner, takings },
        Lock::Section => KernelState::Section { owner, takings },
    }
}
