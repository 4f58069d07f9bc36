//! Numbers, flags, ids, and what is in the fields of rows.

ghost use Rattle.short_codes.specs.Codes.{flag, number, optional};
ghost use Rattle.short_codes.proofs.Codes.{flag_code, number_code, option_code};
ghost use Rattle.row_codes.specs.Rows.{action_code, environ_code, group_id_code, kernel_id_code, kind_code, object_id_code, pool_id_code, priority_code, result_code, routine_id_code, slots_code, state_code, status_code, target_code, who_code};
ghost use Rattle.row_codes.specs.AreCodes.{is_action_code, is_environ_code, is_group_id_code, is_kernel_id_code, is_kind_code, is_object_id_code, is_pool_id_code, is_priority_code, is_result_code, is_routine_id_code, is_slots_code, is_state_code, is_status_code, is_target_code, is_who_code};

use crate::Coded;
use short_codes::{put, put_flag};
use std::alloc::AllocError;
use tp_base::answers::TakeResult;
use tp_base::calls::{Environ, Kind, Priority};
use tp_base::ids::{GroupId, KernelId, ObjectId, PoolId, RoutineId, Who};
use tp_base::rows::{Action, KernelState, Slots, Status, WaitTarget};

impl Coded for u64 {
    ghost code = { number };

    fn put(&self, text: &mut Vec<u8>) -> Result<(), AllocError> {
        put(text, *self)
    }

    ghost is_code = { number_code };
}

impl Coded for u32 {
    ghost code = { number };

    fn put(&self, text: &mut Vec<u8>) -> Result<(), AllocError> {
        put(text, u64::from(*self))
    }

    ghost is_code = { number_code };
}

impl Coded for bool {
    ghost code = { flag };

    fn put(&self, text: &mut Vec<u8>) -> Result<(), AllocError> {
        put_flag(text, *self)
    }

    ghost is_code = { flag_code };
}

impl<T: Coded> Coded for Option<T> {
    ghost code = { optional T.code };

    fn put(&self, text: &mut Vec<u8>) -> Result<(), AllocError> {
        match self {
            None => put_flag(text, false),
            Some(value) => {
                put_flag(text, true)?;
                value.put(text)
            }
        }
    }

    ghost is_code = { option_code T.is_code };
}

impl Coded for PoolId {
    ghost code = { pool_id_code };

    fn put(&self, text: &mut Vec<u8>) -> Result<(), AllocError> {
        self.0.put(text)
    }

    ghost is_code = { is_pool_id_code };
}

impl Coded for GroupId {
    ghost code = { group_id_code };

    fn put(&self, text: &mut Vec<u8>) -> Result<(), AllocError> {
        self.0.put(text)
    }

    ghost is_code = { is_group_id_code };
}

impl Coded for ObjectId {
    ghost code = { object_id_code };

    fn put(&self, text: &mut Vec<u8>) -> Result<(), AllocError> {
        self.0.put(text)
    }

    ghost is_code = { is_object_id_code };
}

impl Coded for KernelId {
    ghost code = { kernel_id_code };

    fn put(&self, text: &mut Vec<u8>) -> Result<(), AllocError> {
        self.0.put(text)
    }

    ghost is_code = { is_kernel_id_code };
}

impl Coded for RoutineId {
    ghost code = { routine_id_code };

    fn put(&self, text: &mut Vec<u8>) -> Result<(), AllocError> {
        self.0.put(text)
    }

    ghost is_code = { is_routine_id_code };
}

impl Coded for Kind {
    ghost code = { kind_code };

    fn put(&self, text: &mut Vec<u8>) -> Result<(), AllocError> {
        match *self {
            Kind::Work => put(text, 0),
            Kind::Timer => put(text, 1),
            Kind::Wait => put(text, 2),
            Kind::Io => put(text, 3),
        }
    }

    ghost is_code = { is_kind_code };
}

impl Coded for Priority {
    ghost code = { priority_code };

    fn put(&self, text: &mut Vec<u8>) -> Result<(), AllocError> {
        match *self {
            Priority::High => put(text, 0),
            Priority::Normal => put(text, 1),
            Priority::Low => put(text, 2),
        }
    }

    ghost is_code = { is_priority_code };
}

impl Coded for Who {
    ghost code = { who_code };

    fn put(&self, text: &mut Vec<u8>) -> Result<(), AllocError> {
        match *self {
            Who::Client(number) => {
                put(text, 0)?;
                number.put(text)
            }
            Who::Worker(number) => {
                put(text, 1)?;
                number.put(text)
            }
        }
    }

    ghost is_code = { is_who_code };
}

impl Coded for TakeResult {
    ghost code = { result_code };

    fn put(&self, text: &mut Vec<u8>) -> Result<(), AllocError> {
        match *self {
            TakeResult::Plain => put(text, 0),
            TakeResult::WaitObject0 => put(text, 1),
            TakeResult::WaitTimeout => put(text, 2),
            TakeResult::Io { error, bytes } => {
                put(text, 3)?;
                error.put(text)?;
                bytes.put(text)
            }
        }
    }

    ghost is_code = { is_result_code };
}

impl Coded for WaitTarget {
    ghost code = { target_code };

    fn put(&self, text: &mut Vec<u8>) -> Result<(), AllocError> {
        match *self {
            WaitTarget::Object(id) => {
                put(text, 0)?;
                id.put(text)
            }
            WaitTarget::Group(id) => {
                put(text, 1)?;
                id.put(text)
            }
            WaitTarget::Kernel(id) => {
                put(text, 2)?;
                id.put(text)
            }
        }
    }

    ghost is_code = { is_target_code };
}

impl Coded for Action {
    ghost code = { action_code };

    fn put(&self, text: &mut Vec<u8>) -> Result<(), AllocError> {
        self.kernel.put(text)?;
        self.count.put(text)
    }

    ghost is_code = { is_action_code };
}

impl Coded for Slots {
    ghost code = { slots_code };

    fn put(&self, text: &mut Vec<u8>) -> Result<(), AllocError> {
        self.section.put(text)?;
        self.mutex.put(text)?;
        self.semaphore.put(text)?;
        self.event.put(text)
    }

    ghost is_code = { is_slots_code };
}

impl Coded for Status {
    ghost code = { status_code };

    fn put(&self, text: &mut Vec<u8>) -> Result<(), AllocError> {
        match *self {
            Status::Expected => put(text, 0),
            Status::Issued => put(text, 1),
            Status::Pending => put(text, 2),
            Status::Running {
                worker,
                associated,
                slots,
            } => {
                put(text, 3)?;
                worker.put(text)?;
                associated.put(text)?;
                slots.put(text)
            }
            Status::Returned => put(text, 4),
            Status::Cancelled => put(text, 5),
        }
    }

    ghost is_code = { is_status_code };
}

impl Coded for KernelState {
    ghost code = { state_code };

    fn put(&self, text: &mut Vec<u8>) -> Result<(), AllocError> {
        match *self {
            KernelState::Event { manual, signalled } => {
                put(text, 0)?;
                manual.put(text)?;
                signalled.put(text)
            }
            KernelState::Semaphore { count, maximum } => {
                put(text, 1)?;
                count.put(text)?;
                maximum.put(text)
            }
            KernelState::Mutex { owner, takings } => {
                put(text, 2)?;
                owner.put(text)?;
                takings.put(text)
            }
            KernelState::Section { owner, takings } => {
                put(text, 3)?;
                owner.put(text)?;
                takings.put(text)
            }
        }
    }

    ghost is_code = { is_state_code };
}

impl Coded for Environ {
    ghost code = { environ_code };

    fn put(&self, text: &mut Vec<u8>) -> Result<(), AllocError> {
        self.pool.put(text)?;
        self.group.put(text)?;
        self.cancel.put(text)?;
        self.priority.put(text)?;
        self.long.put(text)?;
        self.persistent.put(text)
    }

    ghost is_code = { is_environ_code };
}
