//! The rows themselves.

ghost use Rattle.row_codes.specs.Rows.{arming_code, callback_code, client_code, group_code, kernel_code, limits_code, object_code, pool_code, setting_code, worker_code};
ghost use Rattle.row_codes.specs.AreCodes.{is_arming_code, is_callback_code, is_client_code, is_group_code, is_kernel_code, is_limits_code, is_object_code, is_pool_code, is_setting_code, is_worker_code};

use crate::Coded;
use std::alloc::AllocError;
use tp_base::limits::Limits;
use tp_base::rows::{
    Arming, CallbackRow, ClientRow, GroupRow, KernelRow, ObjectRow, PoolRow, TimerSetting,
    WorkerRow,
};

impl Coded for Limits {
    ghost code = { limits_code };

    fn put(&self, text: &mut Vec<u8>) -> Result<(), AllocError> {
        self.clients.put(text)?;
        self.workers.put(text)?;
        self.pools.put(text)?;
        self.groups.put(text)?;
        self.objects.put(text)?;
        self.kernels.put(text)?;
        self.slots.put(text)
    }

    ghost is_code = { is_limits_code };
}

impl Coded for PoolRow {
    ghost code = { pool_code };

    fn put(&self, text: &mut Vec<u8>) -> Result<(), AllocError> {
        self.minimum.put(text)?;
        self.maximum.put(text)?;
        self.closed.put(text)
    }

    ghost is_code = { is_pool_code };
}

impl Coded for GroupRow {
    ghost code = { group_code };

    fn put(&self, text: &mut Vec<u8>) -> Result<(), AllocError> {
        self.closed.put(text)
    }

    ghost is_code = { is_group_code };
}

impl Coded for ObjectRow {
    ghost code = { object_code };

    fn put(&self, text: &mut Vec<u8>) -> Result<(), AllocError> {
        self.kind.put(text)?;
        self.released.put(text)?;
        self.routine.put(text)?;
        self.context.put(text)?;
        self.env.put(text)
    }

    ghost is_code = { is_object_code };
}

impl Coded for CallbackRow {
    ghost code = { callback_code };

    fn put(&self, text: &mut Vec<u8>) -> Result<(), AllocError> {
        self.number.put(text)?;
        self.context.put(text)?;
        self.object.put(text)?;
        self.routine.put(text)?;
        self.pool.put(text)?;
        self.group.put(text)?;
        self.result.put(text)?;
        self.status.put(text)?;
        self.priority.put(text)?;
        self.long.put(text)?;
        self.persistent.put(text)
    }

    ghost is_code = { is_callback_code };
}

impl Coded for KernelRow {
    ghost code = { kernel_code };

    fn put(&self, text: &mut Vec<u8>) -> Result<(), AllocError> {
        self.state.put(text)
    }

    ghost is_code = { is_kernel_code };
}

impl Coded for TimerSetting {
    ghost code = { setting_code };

    fn put(&self, text: &mut Vec<u8>) -> Result<(), AllocError> {
        self.object.put(text)?;
        self.due.put(text)?;
        self.period.put(text)?;
        self.window.put(text)
    }

    ghost is_code = { is_setting_code };
}

impl Coded for Arming {
    ghost code = { arming_code };

    fn put(&self, text: &mut Vec<u8>) -> Result<(), AllocError> {
        self.object.put(text)?;
        self.kernel.put(text)
    }

    ghost is_code = { is_arming_code };
}

impl Coded for WorkerRow {
    ghost code = { worker_code };

    fn put(&self, text: &mut Vec<u8>) -> Result<(), AllocError> {
        self.pool.put(text)?;
        self.callback.put(text)?;
        self.persistent.put(text)
    }

    ghost is_code = { is_worker_code };
}

impl Coded for ClientRow {
    ghost code = { client_code };

    fn put(&self, text: &mut Vec<u8>) -> Result<(), AllocError> {
        self.finished.put(text)
    }

    ghost is_code = { is_client_code };
}
