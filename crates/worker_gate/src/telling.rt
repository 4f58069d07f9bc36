//! Client 1 plays to its end, and tells the others.

ghost use Rattle.std.specs.Prelude.{◌≡◌, true, false, All};
ghost use Rattle.tp_model.specs.Stages.{is_in_part};
ghost use Rattle.worker_gate.specs.Acting.{has_ended, role_in, seat_in, GoesOn, IsReady};
ghost use Rattle.worker_gate.specs.Closing.{HasHeard, HasTold, HaveHeard};
ghost use Rattle.part_places.specs.Places.{given};
ghost use Rattle.shared_pool.specs.Pools.{IsPlayer};

use crate::actor::Actor;
use crate::role::{Gate, Turn};
use recorded::Recorded;
use shared_pool::SharedPool;
use std::sync::Wait;
use std::thread;
use tp_script::Routines;

/// Plays turns of an actor until it has ended. It may wait for ever: for the turn, or for what the
/// actor's calls wait for.
pub fn finish<Rt: Wait, B: Recorded, R: Routines, G: Gate>(
    rt: &Rt,
    actor: &mut Actor<B>,
    pool: &SharedPool<B>,
    routines: &R,
    gate: &G,
)
    requires ready { IsReady (given R.next_of R.after_of routines.now) pool.now actor.old }
    ensures ready { IsReady (given R.next_of R.after_of routines.now) pool.now actor.new }
    ensures goes_on { GoesOn actor.old actor.new }
    ensures ended { has_ended actor.new ≡ true }
    ensures rests { is_in_part (role_in actor.new).place.stage ≡ false }
{
    for _ in rt.forever() {
        match actor.turn(pool, routines, gate) {
            Turn::Moved => {}
            Turn::Waiting => thread::yield_now(),
            Turn::Ended => return,
        }
    }
    unreachable!()
}

/// Tells all others what an actor has seen of the history: each of them has then seen that too.
pub fn tell_all<B: Recorded>(first: &mut Actor<B>, pool: &SharedPool<B>, others: &mut Vec<Actor<B>>)
    requires first { IsPlayer pool.now (seat_in first.old) }
    requires others { All (λ other. IsPlayer pool.now (seat_in other)) others.old.items }
    ensures first { IsPlayer pool.now (seat_in first.new) }
    ensures others { All (λ other. IsPlayer pool.now (seat_in other)) others.new.items }
    ensures told { HasTold first.old first.new }
    ensures heard { HaveHeard first.old others.old.items others.new.items }
{
    for place in 0..others.len() {
        first.tell(pool, &mut others[place]);
    }
}

impl<B: Recorded> Actor<B> {
    // Tells another actor what it has seen.
    fn tell(&mut self, pool: &SharedPool<B>, other: &mut Actor<B>)
        requires first { IsPlayer pool.now (seat_in self.old) }
        requires other { IsPlayer pool.now (seat_in other.old) }
        ensures first { IsPlayer pool.now (seat_in self.new) }
        ensures other { IsPlayer pool.now (seat_in other.new) }
        ensures told { HasTold self.old self.new }
        ensures heard { HasHeard self.old other.old other.new }
    {
        let copy = pool.split(&mut self.seat);
        pool.join(&mut other.seat, copy);
    }
}
