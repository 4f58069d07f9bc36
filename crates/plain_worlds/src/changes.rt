//! The changes of a world.

ghost use Rattle.std.specs.Prelude.{◌≡◌, ◌+◌, IfOk, OnOk, filter};
ghost use Rattle.tp_model.specs.Changes.{changed};
ghost use Rattle.tp_model.specs.Support.Allowed.{news as news_of};
ghost use Rattle.tp_model.specs.Support.Remembered.{forget as forgotten, lives};

use crate::callbacks::is_live;
use crate::rows::Rows;
use std::alloc::{AllocError, Global};
use tp_base::plans::Change;
use tp_base::rows::CallbackRow;

// How many callbacks a change makes.
fn news(change: &Change) -> u64
    ensures { result ≡ news_of change.now }
{
    match *change {
        Change::QueueCallback(_) | Change::ExpectCallback(_) => 1,
        Change::Fire { count, .. } | Change::Return { count, .. } => u64::from(count),
        _ => 0,
    }
}

/// How many callbacks were ever made, behind a change. An `AllocError` comes where a u64 doesn't hold it.
pub(crate) fn made_after(made: u64, change: &Change) -> Result<u64, AllocError>
    ensures { IfOk result (λ after. after ≡ made + news_of change.now) }
{
    made.checked_add(news(change)).ok_or(AllocError)
}

fn keep_live(callbacks: &mut Vec<CallbackRow>)
    ensures { callbacks.new.items ≡ filter lives callbacks.old.items }
{
    callbacks.retain(|callback| is_live(callback));
}

impl Rows {
    /// Drops the callbacks that are over.
    pub(crate) fn forget(&mut self)
        ensures { self.new ≡ forgotten self.old }
    {
        keep_live(&mut self.callbacks);
    }

    /// Makes a change. What returns or is cancelled stays.
    pub(crate) fn change(&mut self, alloc: Global, change: &Change) -> Result<(), AllocError>
        ensures { OnOk result (self.new ≡ changed self.old change.now) }
    {
        match *change {
            Change::Keep => {}
            Change::CreatePool => self.create_pool()?,
            Change::ChangePool { pool, how } => self.change_pool(pool, how),
            Change::CreateGroup => self.create_group()?,
            Change::CloseGroup { group } => self.close_group(group),
            Change::CreateObject(row) => self.create_object(row)?,
            Change::ReleaseObject { object } => self.release_object(object),
            Change::QueueCallback(callback) | Change::ExpectCallback(callback) => {
                self.queue_callback(callback)?
            }
            Change::Operate { callback, how } => self.operate(callback, how),
            Change::Fire {
                trigger,
                first,
                count,
            } => self.fire(alloc, trigger, first, count)?,
            Change::CreateKernel(state) => self.create_kernel(state)?,
            Change::ChangeKernel { kernel, how } => self.change_kernel(kernel, how)?,
            Change::Attach { worker, pool } => self.attach(worker, pool),
            Change::Detach(by) => self.detach(by),
            Change::Take { by, callback } => self.take(by, callback),
            Change::Mark { by, mark } => self.mark(by, mark),
            Change::Return {
                by,
                words,
                first,
                count,
            } => self.return_callback(alloc, by, words, first, count)?,
            Change::BeginWait {
                who,
                awaited,
                cancel,
            } => self.begin_wait(alloc, who, awaited, cancel)?,
            Change::BeginClose {
                who,
                group,
                cancel,
                context,
                notices,
            } => self.begin_close(alloc, who, group, cancel, context, notices)?,
            Change::GiveNotice { who } => self.give_notice(who),
            Change::EndWait { who, how } => self.end_wait(who, how)?,
            Change::Finish { client } => self.finish(client),
        }
        Ok(())
    }
}
