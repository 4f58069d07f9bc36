//! What the conditions of a refusal ask of an actor, where there is none of this name.

use world_reads::Actor;

pub(crate) const NO_CLIENT: Actor = Actor {
    exists: false,
    finished: false,
    is_worker: false,
    runs: false,
    is_idle: false,
    is_attached: false,
    in_wait: false,
};

pub(crate) const NO_WORKER: Actor = Actor {
    is_worker: true,
    ..NO_CLIENT
};
