//! The callback environment, as `TP_CALLBACK_ENVIRON`: how the callbacks of an object are run.
//!
//! An environment is seen as the plain `Environ` that a call of the machine takes. It is made by
//! `initialize` and changed by five setters, each of which sets its own fields alone; `plain` hands
//! it out. After `initialize`, `set_pool(PoolId(2))` and `set_runs_long` it has pool 2, no cleanup
//! group, the priority Normal and the long mark. None of the calls takes memory.
//!
//! ```text
//! let mut env = CallbackEnviron::initialize();    // p0 normal short g0 q0
//! env.set_pool(PoolId(2));
//! env.set_runs_long();
//! env.plain()                                     // p2 normal long g0 q0
//! ```

#![tactic(auto)]

ghost use Rattle.std.specs.Prelude.{◌≡◌, ◌<◌, true, IfSome};
ghost use Rattle.callback_env.specs.Environ.{cancel_of, initialized};

use std::marker::Model;
use tp_base::calls::{Environ, Priority};
use tp_base::ids::{GroupId, PoolId, RoutineId};

/// A callback environment.
#[derive(Drop)]
pub struct CallbackEnviron {
    environ: Environ,
}

impl Model for CallbackEnviron {
    ghost use Rattle.tp_base.specs.declared.calls.Environ.{Environ};

    ghost Value = { Environ };

    ghost view = { λ a. a.environ };
}

impl CallbackEnviron {
    /// An environment of the default pool with no cleanup group, the priority Normal and no mark:
    /// `InitializeThreadpoolEnvironment`.
    pub fn initialize() -> CallbackEnviron
        ensures { result ≡ initialized }
    {
        CallbackEnviron {
            environ: Environ {
                pool: PoolId(0),
                group: GroupId(0),
                cancel: RoutineId(0),
                priority: Priority::Normal,
                long: false,
                persistent: false,
            },
        }
    }

    /// Sets the pool whose workers run the callbacks: `SetThreadpoolCallbackPool`.
    pub fn set_pool(&mut self, pool: PoolId)
        ensures { self.new ≡ record self.old { pool = pool } }
    {
        self.environ.pool = pool;
    }

    /// Sets the cleanup group that objects become members of, and the routine that the group's close
    /// calls for each member that it cancels, if any: `SetThreadpoolCallbackCleanupGroup`.
    ///
    /// Groups and routines have numbers above 0.
    pub fn set_cleanup_group(&mut self, group: GroupId, cancel: Option<RoutineId>)
        requires a_group { 0 < group.0 }
        requires a_routine { IfSome cancel (λ routine. 0 < routine.0) }
        ensures { self.new ≡ record self.old { group = group; cancel = cancel_of cancel } }
    {
        self.environ.group = group;
        self.environ.cancel = cancel.unwrap_or(RoutineId(0));
    }

    /// Sets the priority of the callbacks: `SetThreadpoolCallbackPriority`.
    pub fn set_priority(&mut self, priority: Priority)
        ensures { self.new ≡ record self.old { priority = priority } }
    {
        self.environ.priority = priority;
    }

    /// Says that the callbacks may run long: `SetThreadpoolCallbackRunsLong`.
    pub fn set_runs_long(&mut self)
        ensures { self.new ≡ record self.old { long = true } }
    {
        self.environ.long = true;
    }

    /// Says that the callbacks run on the persistent worker of their pool, which is the first that takes one and
    /// leaves only once the pool is closed: `SetThreadpoolCallbackPersistent`. The default pool is never closed.
    pub fn set_persistent(&mut self)
        ensures { self.new ≡ record self.old { persistent = true } }
    {
        self.environ.persistent = true;
    }

    /// The environment as the calls of the machine take it.
    pub fn plain(&self) -> Environ
        ensures { result ≡ self.now }
    {
        self.environ
    }
}
