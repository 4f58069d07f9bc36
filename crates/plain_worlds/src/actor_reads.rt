//! How many workers run a callback, and how many wait.

ghost use Rattle.std.specs.Prelude.{◌≡◌, ◌+◌, ◌^◌, ◌<◌, filter, length};
ghost use Rattle.std.specs.List.{range_with_len};
ghost use Rattle.tp_base.specs.declared.ids.Who.TheVariants.{Worker};
ghost use Rattle.tp_model.specs.Conditions.{is_in_wait, runs_callback};

use crate::rows::{Rows, numbered};
use tp_base::ids::Who;

impl Rows {
    // Whether the worker of a number runs a callback.
    fn runs(&self, number: u32) -> bool
        ensures { result ≡ runs_callback self.now (Worker number) }
    {
        match numbered(&self.workers, number) {
            Some(row) => row.callback.is_some(),
            None => false,
        }
    }

    pub(crate) fn busy_workers(&self) -> u32
        requires { length self.now.workers + 1 < 2 ^ 32 }
        ensures { result ≡ length (filter (λ number. runs_callback self.now (Worker number)) (range_with_len 1 (length self.now.workers))) }
    {
        let past = self.workers.len() as u32 + 1;
        (1..past).filter(|number| self.runs(*number)).count() as u32
    }

    pub(crate) fn waiting_workers(&self) -> u32
        requires { length self.now.workers + 1 < 2 ^ 32 }
        ensures { result ≡ length (filter (λ number. is_in_wait self.now (Worker number)) (range_with_len 1 (length self.now.workers))) }
    {
        let past = self.workers.len() as u32 + 1;
        (1..past)
            .filter(|number| self.is_in_wait(Who::Worker(*number)))
            .count() as u32
    }
}
