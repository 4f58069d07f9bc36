//! How far a wait has come.

ghost use Rattle.std.specs.Prelude.{◌≡◌, ◌&&◌, ◌==◌, false, find};
ghost use Rattle.std.specs.List.{list_any};
ghost use Rattle.std.specs.Option.{option_map_or};
ghost use Rattle.tp_model.specs.Calls.Waits.{holds_starved, is_starved};
ghost use Rattle.tp_model.specs.Counts.{attached, callback_of, is_attached_to as attached_to};
ghost use Rattle.tp_model.specs.Waits.{held, is_held};
ghost use Rattle.world_reads.specs.Progress.{progress_for, progress_left, progress_of, progress_with};

use crate::callbacks::is_pending;
use crate::objects::object_row;
use crate::reads::is_attached_to;
use crate::rows::Rows;
use crate::waits::{WaitRow, begun, is_held};
use tp_base::ids::{PoolId, Who};
use tp_base::rows::{CallbackRow, WaitTarget};
use world_reads::Progress;

impl Rows {
    // Whether the callback of a number is outstanding for what a wait is for.
    fn is_held(&self, target: WaitTarget, number: u64) -> bool
        ensures { result ≡ is_held self.now target number }
    {
        is_held(&self.callbacks, target, number)
    }

    // The first of these numbers whose callback is outstanding for what a wait is for.
    fn first_held(&self, target: WaitTarget, numbers: &[u64]) -> Option<u64>
        ensures { result ≡ find (is_held self.now target) numbers.now }
    {
        numbers
            .iter()
            .copied()
            .find(|number| self.is_held(target, *number))
    }

    // Whether a worker is attached to a pool.
    fn has_workers(&self, pool: PoolId) -> bool
        ensures { result ≡ list_any (attached_to pool.0) self.now.workers }
    {
        self.workers
            .iter()
            .any(|worker| is_attached_to(pool, worker))
    }

    // Whether no worker is attached to a pool.
    #[tactic(auto, using(crate::proofs::Firsts::none_counted))]
    fn lacks_workers(&self, pool: PoolId) -> bool
        ensures { result ≡ (attached self.now pool.0 == 0) }
    {
        !self.has_workers(pool)
    }

    // Whether a callback is pending, and the history has no room for it to be run.
    fn is_starved(&self, room: u64, callback: &CallbackRow) -> bool
        ensures { result ≡ is_starved self.now room callback.now }
    {
        is_pending(callback) && (room < 2 || (room < 4 && self.lacks_workers(callback.pool)))
    }

    // Whether the callback of a number is starved.
    fn is_number_starved(&self, room: u64, number: u64) -> bool
        ensures { result ≡ option_map_or (is_starved self.now room) (callback_of self.now number) false }
    {
        match self.callback(number) {
            Some(callback) => self.is_starved(room, callback),
            None => false,
        }
    }

    // Whether one of these numbers is that of a callback that is outstanding for what a wait is for, and starved.
    fn is_any_starved(&self, target: WaitTarget, numbers: &[u64], room: u64) -> bool
        ensures { result ≡ list_any (λ n. is_held self.now target n && option_map_or (is_starved self.now room) (callback_of self.now n) false) numbers.now }
    {
        numbers.iter().any(|number| self.is_held(target, *number)
            && self.is_number_starved(room, *number))
    }

    // Whether a wait holds a callback that is starved.
    #[tactic(auto, using(crate::proofs::Firsts::any_passing))]
    fn holds_starved(&self, wait: &WaitRow, room: u64) -> bool
        ensures { result ≡ holds_starved self.now room (held self.now wait.now) }
    {
        self.is_any_starved(wait.target, &wait.covered, room)
    }

    // What is left of a wait that holds nothing: the first of its notices, if it has one.
    fn progress_left(&self, wait: &WaitRow) -> Progress
        ensures { result ≡ progress_left self.now wait.now.cleanup wait.now.notices }
    {
        let Some(&object) = wait.notices.first() else {
            return Progress::Free;
        };
        let row = object_row(&self.objects, object);
        Progress::Notifies {
            object,
            routine: row.env.cancel,
            context: row.context,
            cleanup: wait.cleanup,
        }
    }

    // How far a wait for callbacks has come.
    #[tactic(auto, using(crate::proofs::Firsts::holds_none, crate::proofs::Firsts::holds_starving, crate::proofs::Firsts::holds_first))]
    fn progress_held(&self, wait: &WaitRow, room: u64) -> Progress
        ensures { result ≡ progress_with self.now room wait.now (held self.now wait.now) }
    {
        match self.first_held(wait.target, &wait.covered) {
            None => self.progress_left(wait),
            Some(number) => if self.holds_starved(wait, room) {
                Progress::Starved
            } else {
                Progress::Holds { callback: number }
            },
        }
    }

    // How far a wait has come.
    fn progress_for(&self, wait: &WaitRow, room: u64) -> Progress
        ensures { result ≡ progress_for self.now room wait.now wait.now.target }
    {
        match wait.target {
            WaitTarget::Kernel(kernel) => Progress::Acquires { kernel },
            WaitTarget::Object(_) | WaitTarget::Group(_) => self.progress_held(wait, room),
        }
    }

    pub(crate) fn progress(&self, who: Who, room: u64) -> Progress
        ensures { result ≡ progress_of self.now room who }
    {
        match begun(&self.waits, who) {
            None => Progress::NotBegun,
            Some(wait) => self.progress_for(wait, room),
        }
    }
}
