use crate::checks::expect_eq;
use callback_env::CallbackEnviron;
use tp_base::calls::{Environ, Priority};
use tp_base::ids::{GroupId, PoolId, RoutineId};

#[test]
fn setters_set_their_own_fields(rt: HostRuntime) {
    let mut env = CallbackEnviron::initialize();
    env.set_pool(PoolId(2));
    env.set_cleanup_group(GroupId(3), Some(RoutineId(4)));
    env.set_priority(Priority::High);
    env.set_runs_long();
    env.set_persistent();
    expect_eq(
        &rt,
        env.plain(),
        Environ {
            pool: PoolId(2),
            group: GroupId(3),
            cancel: RoutineId(4),
            priority: Priority::High,
            long: true,
            persistent: true,
        },
    );
}
