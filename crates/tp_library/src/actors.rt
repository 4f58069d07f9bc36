//! What is known of who makes calls.

ghost use Rattle.std.specs.Prelude.{◌≡◌, ◌+◌, ◌-◌, ◌^◌, ◌<◌, ◌≤◌, ℕ, is_some, length, option_map, Some, None, IfOk};
ghost use Rattle.tp_library.specs.Acting.{has_finished, is_there, opening_actors, run_of, with_finished, with_run, Acting};

use std::alloc::{AllocError, Global};
use std::marker::Model;
use tp_base::ids::{ObjectId, Who};

/// Who has finished, and who runs what.
#[derive(Drop)]
pub(crate) struct Actors {
    // By client, from 1 on: whether it has finished.
    finished: Vec<bool>,
    // By worker, from 1 on: the callback that it runs, and its object.
    runs: Vec<Option<(u64, u32)>>,
}

impl Model for Actors {
    ghost use Rattle.tp_library.specs.Acting.{Acting};

    ghost Value = { Acting };

    ghost view = { λ a. record { finished = a.finished.items; runs = a.runs.items } };
}

impl Actors {
    /// So many clients that haven't finished, and so many workers that run nothing.
    pub(crate) fn open(alloc: Global, clients: u32, workers: u32) -> Result<Actors, AllocError>
        ensures { IfOk result (λ made. made ≡ opening_actors clients workers) }
    {
        Ok(Actors {
            finished: vec![in alloc; false; clients as usize]?,
            runs: vec![in alloc; None; workers as usize]?,
        })
    }

    /// Whether there is such an actor.
    pub(crate) fn is_there(&self, who: Who) -> bool
        ensures { result ≡ is_there self.now who }
    {
        match who {
            Who::Client(number) => number != 0 && number as usize <= self.finished.len(),
            Who::Worker(number) => number != 0 && number as usize <= self.runs.len(),
        }
    }

    /// Whether the actor is a client that has finished.
    pub(crate) fn has_finished(&self, who: Who) -> bool
        ensures { result ≡ has_finished self.now who }
    {
        match who {
            Who::Client(number) => {
                number != 0
                    && self
                        .finished
                        .get(number as usize - 1)
                        .copied()
                        .unwrap_or(false)
            }
            Who::Worker(_) => false,
        }
    }

    /// The callback that an actor runs and its object, if it runs one.
    pub(crate) fn run(&self, who: Who) -> Option<(u64, ObjectId)>
        ensures { option_map (λ run. (run.0, run.1.0)) result ≡ run_of self.now who }
    {
        match who {
            Who::Client(_) => None,
            Who::Worker(0) => None,
            Who::Worker(number) => match self.runs.get(number as usize - 1) {
                Some(Some((callback, object))) => Some((*callback, ObjectId(*object))),
                _ => None,
            },
        }
    }

    /// Whether an actor runs a callback.
    pub(crate) fn is_running(&self, who: Who) -> bool
        ensures { result ≡ is_some (run_of self.now who) }
    {
        self.run(who).is_some()
    }

    /// A client makes no further call.
    pub(crate) fn finish(&mut self, who: Who)
        ensures { self.new ≡ with_finished self.old who }
    {
        if let Who::Client(number) = who {
            let place = (number as usize).saturating_sub(1);
            if place < self.finished.len() {
                self.finished[place] = true;
            }
        }
    }

    /// A worker runs a callback of an object.
    pub(crate) fn begin(&mut self, who: Who, callback: u64, object: ObjectId)
        ensures { self.new ≡ with_run self.old who (Some (callback, object.0)) }
    {
        self.set_run(who, Some((callback, object.0)));
    }

    /// A worker runs nothing.
    pub(crate) fn end(&mut self, who: Who)
        ensures { self.new ≡ with_run self.old who None }
    {
        self.set_run(who, None);
    }

    fn set_run(&mut self, who: Who, run: Option<(u64, u32)>)
        ensures { self.new ≡ with_run self.old who run }
    {
        if let Who::Worker(number) = who {
            let place = (number as usize).saturating_sub(1);
            if place < self.runs.len() {
                self.runs[place] = run;
            }
        }
    }
}
