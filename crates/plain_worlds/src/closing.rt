//! Forgetting names: a callback is named by its place among those that live.

ghost use Rattle.std.specs.Prelude.{◌≡◌, filter, length, map};
ghost use Rattle.std.specs.List.{position};
ghost use Rattle.tp_model.specs.Counts.{has_number};
ghost use Rattle.renamed_worlds.specs.Closed.{place_of as place_of_number};
ghost use Rattle.renamed_worlds.specs.Renamed.{renamed_worker};
ghost use Rattle.plain_worlds.specs.Closing.{closed_rows, closed_wait, is_held_among, numbered_from};

use crate::rows::Rows;
use crate::waits::{WaitRow, is_held};
use tp_base::rows::{CallbackRow, WaitTarget, WorkerRow};

// The index of the callback of a number.
fn index_of(callbacks: &[CallbackRow], number: u64) -> Option<usize>
    ensures { result ≡ position (has_number number) callbacks.now }
{
    callbacks
        .iter()
        .position(|callback| callback.number == number)
}

/// The place of the callback of a number among these, counted from 1, and 0 where none has it.
pub fn place_of(callbacks: &[CallbackRow], number: u64) -> u64
    ensures { result ≡ place_of_number callbacks.now number }
{
    match index_of(callbacks, number) {
        Some(index) => index as u64 + 1,
        None => 0,
    }
}

// Puts the places of callbacks for their numbers.
fn name_by_place(numbers: &mut Vec<u64>, callbacks: &[CallbackRow])
    ensures { numbers.new.items ≡ map (place_of_number callbacks.now) numbers.old.items }
{
    for index in 0..numbers.len() {
        numbers[index] = place_of(callbacks, numbers[index]);
    }
}

// Drops the numbers of what isn't outstanding any more.
fn keep_held(numbers: &mut Vec<u64>, callbacks: &[CallbackRow], target: WaitTarget)
    ensures { numbers.new.items ≡ filter (is_held_among callbacks.now target) numbers.old.items }
{
    numbers.retain(|number| is_held(callbacks, target, *number));
}

// A worker that names what it runs by its place.
fn closed_worker(worker: WorkerRow, callbacks: &[CallbackRow]) -> WorkerRow
    ensures { result ≡ renamed_worker (place_of_number callbacks.now) worker }
{
    match worker.callback {
        Some(number) => {
            let mut row = worker;
            row.callback = Some(place_of(callbacks, number));
            row
        }
        None => worker,
    }
}

fn close_workers(workers: &mut Vec<WorkerRow>, callbacks: &[CallbackRow])
    ensures { workers.new.items ≡ map (renamed_worker (place_of_number callbacks.now)) workers.old.items }
{
    for index in 0..workers.len() {
        workers[index] = closed_worker(workers[index], callbacks);
    }
}

impl WaitRow {
    // It covers what is outstanding, by places.
    fn close(&mut self, callbacks: &[CallbackRow])
        ensures { self.new ≡ closed_wait callbacks.now self.old }
    {
        keep_held(&mut self.covered, callbacks, self.target);
        name_by_place(&mut self.covered, callbacks);
    }
}

fn close_waits(waits: &mut Vec<WaitRow>, callbacks: &[CallbackRow])
    ensures { waits.new.items ≡ map (closed_wait callbacks.now) waits.old.items }
{
    for index in 0..waits.len() {
        let wait = &mut waits[index];
        wait.close(callbacks);
    }
}

// Numbers the callbacks from 1 on.
fn number_all(callbacks: &mut Vec<CallbackRow>)
    ensures { callbacks.new.items ≡ numbered_from 1 callbacks.old.items }
{
    for index in 0..callbacks.len() {
        callbacks[index].number = index as u64 + 1;
    }
}

impl Rows {
    /// How many callbacks there are.
    pub(crate) fn count_callbacks(&self) -> u64
        ensures { result ≡ length self.now.callbacks }
    {
        self.callbacks.len() as u64
    }

    /// Names the callbacks by their places, after what waits covered in vain is dropped.
    pub(crate) fn close(&mut self)
        ensures { self.new ≡ closed_rows self.old }
    {
        close_waits(&mut self.waits, &self.callbacks);
        close_workers(&mut self.workers, &self.callbacks);
        number_all(&mut self.callbacks);
    }
}
