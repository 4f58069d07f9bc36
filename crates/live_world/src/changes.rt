//! The changes of a live world: here alone its parts change.

ghost use Rattle.std.specs.Prelude.{◌≡◌, ◌+◌, ◌^◌, ◌≤◌, true};
ghost use Rattle.tp_model.specs.Support.Allowed.{IsAllowed};
ghost use Rattle.tp_model.specs.Support.Ranged.{AreTakenAtMost};
ghost use Rattle.live_world.specs.Live.{moved};
ghost use Rattle.live_world.specs.Steps.{is_take};

use crate::LiveWorld;
use steps::Steps;
use tp_base::plans::Change;

impl LiveWorld {
    /// Makes a change that the world allows. It takes no memory.
    ///
    /// `steps` counts the nodes that a take reads: two at most, however many callbacks there are. What it counts of
    /// another change is not said.
    pub fn apply(&mut self, change: &Change, steps: &mut Steps)
        requires allowed { IsAllowed (self.old.made + 1) self.old.world change.now }
        requires young { self.old.made + 65536 ≤ 2 ^ 63 }
        requires taken { AreTakenAtMost (2 ^ 47) self.old.world }
        ensures after { self.new ≡ moved self.old change.now }
        ensures counted { steps.old ≤ steps.new }
        ensures bound { is_take change.now ≡ true → steps.new ≤ steps.old + 2 }
    {
        match *change {
            Change::Keep => self.is_reachable(),
            Change::CreatePool => self.create_pool(),
            Change::ChangePool { pool, how } => self.change_pool(pool, how),
            Change::CreateGroup => self.create_group(),
            Change::CloseGroup { group } => self.close_group(group),
            Change::CreateObject(row) => self.create_object(row),
            Change::ReleaseObject { object } => self.release_object(object),
            Change::QueueCallback(callback) => self.queue_callback(callback),
            Change::ExpectCallback(callback) => self.expect_callback(callback),
            Change::Operate { callback, how } => self.operate(callback, how),
            Change::Fire {
                trigger,
                first,
                count,
            } => self.fire(trigger, first, count),
            Change::CreateKernel(state) => self.create_kernel(state),
            Change::ChangeKernel { kernel, how } => self.change_kernel(kernel, how),
            Change::Attach { worker, pool } => self.attach(worker, pool),
            Change::Detach(by) => self.detach(by),
            Change::Take { by, callback } => self.take(by, callback, steps),
            Change::Mark { by, mark } => self.mark(by, mark),
            Change::Return {
                by,
                words,
                first,
                count,
            } => self.return_callback(by, words, first, count),
            Change::BeginWait {
                who,
                awaited,
                cancel,
            } => self.begin_wait(who, awaited, cancel),
            Change::BeginClose {
                who,
                group,
                cancel,
                context,
                notices,
            } => self.begin_close(who, group, cancel, context, notices),
            Change::GiveNotice { who } => self.give_notice(who),
            Change::EndWait { who, how } => self.end_wait(who, how),
            Change::Finish { client } => self.finish(client),
        }
    }
}
