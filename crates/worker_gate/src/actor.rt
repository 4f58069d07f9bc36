//! An actor with its seat at a shared pool.

ghost use Rattle.std.specs.Prelude.{◌≡◌, []};
ghost use Rattle.turn_lock.specs.Seats.{actor_in, mine_of};
ghost use Rattle.worker_gate.specs.Roles.{who_of, StandsFor};

use crate::role::{Gate, Role, Turn};
use recorded::Recorded;
use shared_pool::{Over, SharedPool, Tried};
use std::hint;
use tp_base::answers::Outcome;
use tp_base::plans::Stage;
use tp_script::Routines;
use turn_lock::Seat;

// The longest pause of an actor is of 2^10 hints to the processor.
const LONGEST_PAUSE: u32 = 10;

/// A role with the seat by which it makes its calls. Its entries are those that the seat has made.
#[derive(Drop)]
pub struct Actor<B> {
    pub(crate) seat: Seat<B>,
    pub(crate) role: Role,
    // How often it found another seat at its turn, as far as that makes its pauses longer.
    held_up: u32,
    ghost is_its: { role.who ≡ actor_in seat },
    ghost stands: { StandsFor role (mine_of seat) },
}

impl<B> Actor<B> {
    ghost use Rattle.worker_gate.specs.Acting.{role_in, seat_in};

    /// A role that has made no call, with a seat of its actor that has made none.
    pub fn new(seat: Seat<B>, role: Role) -> Actor<B>
        requires its { who_of role ≡ actor_in seat }
        requires new_seat { mine_of seat ≡ [] }
        requires new_role { StandsFor role [] }
        ensures seat { seat_in result ≡ seat }
        ensures role { role_in result ≡ role }
    {
        Actor {
            seat,
            role,
            held_up: 0,
        }
    }

    /// The seat, and the role. The role stands for the entries that the seat has made.
    pub fn into_parts(self) -> (Seat<B>, Role)
        ensures seat { result.0 ≡ seat_in self }
        ensures role { result.1 ≡ role_in self }
        ensures its { who_of result.1 ≡ actor_in result.0 }
        ensures stands { StandsFor result.1 (mine_of result.0) }
    {
        let Actor {
            seat,
            role,
            held_up: _,
        } = self;
        (seat, role)
    }
}

impl<B: Recorded> Actor<B> {
    ghost use Rattle.shared_pool.specs.Pools.{IsPlayer};
    ghost use Rattle.worker_gate.specs.Acting.{role_in, seat_in, GoesOn, HasAskedOver, IsReady, MayPlay, Said};
    ghost use Rattle.part_places.specs.Places.{given};

    /// Plays one turn on the pool, as `Role::turn` does on a machine. It doesn't wait, and makes at
    /// most one call.
    ///
    /// `Moved` comes where the due call became an entry. `Waiting` comes where another seat had the
    /// turn, after a pause of 1,024 hints at most, or the due call came to a look or Full. `Ended` comes for a client that has finished, and
    /// for a worker that runs nothing where all is over, now or at an earlier turn.
    pub fn turn<R: Routines, G: Gate>(
        &mut self,
        pool: &SharedPool<B>,
        routines: &R,
        gate: &G,
    ) -> Turn
        requires ready { IsReady (given R.next_of R.after_of routines.now) pool.now self.old }
        ensures ready { IsReady (given R.next_of R.after_of routines.now) pool.now self.new }
        ensures goes_on { GoesOn self.old self.new }
        ensures said { Said (given R.next_of R.after_of routines.now) self.old self.new result }
    {
        match self.asks(pool) {
            Over::Yes => {
                self.role.ended = true;
                Turn::Ended
            }
            Over::Busy { .. } => self.pauses(),
            Over::No => self.plays(pool, routines, gate),
        }
    }

    // Whether it makes no further call. A worker that runs nothing looks whether all is over.
    fn asks(&mut self, pool: &SharedPool<B>) -> Over
        requires player { IsPlayer pool.now (seat_in self.old) }
        ensures player { IsPlayer pool.now (seat_in self.new) }
        ensures role { role_in self.new ≡ role_in self.old }
        ensures asked { HasAskedOver result self.old self.new }
    {
        if self.role.ended {
            return Over::Yes;
        }
        match self.role.place.stage {
            Stage::Over => Over::Yes,
            Stage::Playing | Stage::Busy { .. } => Over::No,
            Stage::Away | Stage::Idle => pool.try_over(&mut self.seat),
        }
    }

    // Makes its due call, unless another seat has the turn.
    fn plays<R: Routines, G: Gate>(&mut self, pool: &SharedPool<B>, routines: &R, gate: &G) -> Turn
        requires ready { IsReady (given R.next_of R.after_of routines.now) pool.now self.old }
        requires going { MayPlay self.old }
        ensures ready { IsReady (given R.next_of R.after_of routines.now) pool.now self.new }
        ensures goes_on { GoesOn self.old self.new }
        ensures said { Said (given R.next_of R.after_of routines.now) self.old self.new result }
    {
        let call = self.role.due(routines);
        let outcome = match pool.try_call(&mut self.seat, call) {
            Tried::Done(answer) => Outcome::Done(answer),
            Tried::Look(look) => Outcome::Look(look),
            Tried::Full { room, cost } => Outcome::Full { room, cost },
            Tried::Busy { .. } => return self.pauses(),
        };
        self.role.hears(routines, gate, &call, &outcome)
    }

    // Leaves the machine to the seat that has the turn, each time for twice as long as before, up to some
    // 1,000 hints. A machine that goes to and fro between threads is slower than one that stays with a
    // thread for many turns.
    fn pauses(&mut self) -> Turn
        ensures seat { seat_in self.new ≡ seat_in self.old }
        ensures role { role_in self.new ≡ role_in self.old }
        ensures waits { result ≡ Turn.Waiting }
    {
        let longer = self.held_up.min(LONGEST_PAUSE);
        for _ in 0..1u32 << longer {
            hint::spin_loop();
        }
        self.held_up = longer + 1;
        Turn::Waiting
    }
}
