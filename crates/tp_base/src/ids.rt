//! Names of things: actors, pools, groups, objects, kernel objects and routines.

/// The number of a pool. Pool 0 is the default pool.
#[derive(Clone, Copy, Debug, PartialEq)]
pub struct PoolId(pub u32);

/// The number of a cleanup group, from 1. In an environment 0 stands for no group.
#[derive(Clone, Copy, Debug, PartialEq)]
pub struct GroupId(pub u32);

/// The number of a work, timer, wait or I/O object, from 1. 0 stands for no object.
#[derive(Clone, Copy, Debug, PartialEq)]
pub struct ObjectId(pub u32);

/// The number of an event, semaphore, mutex or critical section, from 1.
#[derive(Clone, Copy, Debug, PartialEq)]
pub struct KernelId(pub u32);

/// The number of a callback routine, from 1. In an environment 0 stands for no cancel routine.
#[derive(Clone, Copy, Debug, PartialEq)]
pub struct RoutineId(pub u32);

/// Who makes a call: a thread of the program, or a worker thread of the pool. Both count from 1.
#[derive(Clone, Copy, Debug, PartialEq)]
pub enum Who {
    Client(u32),
    Worker(u32),
}
