//! What a run of a script is among its orders.
//!
//! A run is what actors play that stand on threads or on one machine (worker_gate). An order is what they can play at all
//! where room is never short (tp_explore). `runs_are_orders` says that a run is an order, unless its room was short, or a
//! part of it was cut. So what no order shows no such run shows either.
//!
//! ```text
//! runs_are_orders();    // what is known of all orders is known of the run that `play_routines` gave
//! ```

#![tactic(auto)]

ghost use Rattle.std.specs.Prelude.{ℕ, List};
ghost use Rattle.part_places.specs.Places.{Given};
ghost use Rattle.tp_base.specs.declared.answers.Entry.{Entry};
ghost use Rattle.tp_base.specs.declared.limits.Limits.{Limits};
ghost use Rattle.tp_explore.specs.Legal.{IsRoomy};
ghost use Rattle.tp_explore.specs.Scenes.{IsOrder};
ghost use Rattle.tp_model.specs.History.{IsLegal};
ghost use Rattle.worker_gate.specs.Runs.{IsCutShort, Runs};

/// A legal run is an order, where before each of its entries there was a room of 4 or more, and none of its
/// parts was cut. It does nothing: who calls it knows this.
#[tactic(auto, using(crate::proofs::Runs::run_is_order))]
pub fn runs_are_orders()
    ensures { (g : Given) (limits : Limits) (capacity : ℕ) (history : List Entry) → Runs g limits capacity history → IsLegal limits capacity history → IsRoomy limits capacity history → (IsCutShort g limits history → ⊥) → IsOrder g limits history }
{}
