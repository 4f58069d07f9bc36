//! What the conditions of a refusal ask of an actor.

/// What refusals ask of an actor.
#[derive(Clone, Copy)]
pub struct Actor {
    pub exists: bool,
    /// A client that has finished.
    pub finished: bool,
    pub is_worker: bool,
    /// A worker that runs a callback.
    pub runs: bool,
    /// A worker that runs none.
    pub is_idle: bool,
    pub is_attached: bool,
    /// It has a wait begun.
    pub in_wait: bool,
}
