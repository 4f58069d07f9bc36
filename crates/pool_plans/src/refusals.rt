//! Which refusal is answered.

ghost use Rattle.std.specs.Prelude.{◌≡◌, ◌||◌};
ghost use Rattle.tp_model.specs.Refusing.{first_refusal};

use tp_base::answers::Refusal;

// The refusal of the first condition that holds. Conditions behind it are not asked.
macro_rules! first_of {
    ([$(($holds:expr, $refusal:expr $(,)?)),+ $(,)?]) => {
        $(if $holds { Some($refusal) } else)+ { None }
    };
}

// The same of a call on nothing that was made before, whose own conditions follow those of its actor.
macro_rules! actor_refusal {
    ($world:ident, $who:ident, [$($own:tt),* $(,)?]) => {{
        let actor = live_queries::actor($world, $who);
        first_of!([
            (!actor.exists, Refusal::NoSuch),
            (actor.finished, Refusal::Released),
            (actor.is_idle, Refusal::NotRunning),
            (actor.in_wait, Refusal::InWait),
            $($own),*
        ])
    }};
}

// And of a call on an object of a kind, behind the conditions that all such calls share.
macro_rules! object_refusal {
    ($world:ident, $who:ident, $kind:expr, $object:ident, [$($own:tt),* $(,)?]) => {{
        let actor = live_queries::actor($world, $who);
        first_of!([
            (either(!actor.exists, !$world.is_object($object)), Refusal::NoSuch),
            (!$world.is_object_of($kind, $object), Refusal::WrongKind),
            (either(actor.finished, $world.is_released($object)), Refusal::Released),
            (actor.is_idle, Refusal::NotRunning),
            (actor.in_wait, Refusal::InWait),
            $($own),*
        ])
    }};
}

// And of a call with an environment.
macro_rules! environ_refusal {
    ($world:ident, $who:ident, $env:ident, [$($own:tt),* $(,)?]) => {{
        let actor = live_queries::actor($world, $who);
        let lacks_pool = !live_queries::is_pool($world, $env.pool);
        let lacks_group = !$world.is_no_group_or_group($env.group);
        first_of!([
            (either(either(!actor.exists, lacks_pool), lacks_group), Refusal::NoSuch),
            (actor.finished, Refusal::Released),
            (live_queries::is_closed_pool($world, $env.pool), Refusal::PoolClosed),
            ($world.is_closed_group($env.group), Refusal::GroupClosed),
            (actor.is_idle, Refusal::NotRunning),
            (actor.in_wait, Refusal::InWait),
            $($own),*
        ])
    }};
}

// And of a call on a group.
macro_rules! group_refusal {
    ($world:ident, $who:ident, $group:ident, [$($own:tt),* $(,)?]) => {{
        let actor = live_queries::actor($world, $who);
        first_of!([
            (either(!actor.exists, !$world.is_group($group)), Refusal::NoSuch),
            (actor.finished, Refusal::Released),
            ($world.is_closed_group($group), Refusal::GroupClosed),
            (actor.is_idle, Refusal::NotRunning),
            (actor.in_wait, Refusal::InWait),
            $($own),*
        ])
    }};
}

pub(crate) use actor_refusal;
pub(crate) use environ_refusal;
pub(crate) use first_of;
pub(crate) use group_refusal;
pub(crate) use object_refusal;

/// Whether one of two conditions holds.
pub(crate) fn either(first: bool, second: bool) -> bool
    ensures { result ≡ (first || second) }
{
    first || second
}
