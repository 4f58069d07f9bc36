//! The seats of a shutdown's actors.

ghost use Rattle.std.specs.Prelude.{◌≡◌, All, IfOk, IfSome};
ghost use Rattle.shared_pool.specs.Pools.{IsPlayer};
ghost use Rattle.shutdown_by_threads.specs.Seats.{seats_in, ArePlayers};

use recorded::Recorded;
use shared_pool::SharedPool;
use std::alloc::{AllocError, Global};
use turn_lock::Seat;

/// The seats of two clients and two workers.
#[derive(Drop)]
pub struct Actors<B: Recorded> {
    pub server: Seat<B>,
    pub client: Seat<B>,
    pub first: Seat<B>,
    pub second: Seat<B>,
}

/// The actors of a pool's seats; `None` where these aren't four.
pub fn deal<B: Recorded>(pool: &SharedPool<B>, seats: Vec<Seat<B>>) -> Option<Actors<B>>
    requires { All (IsPlayer pool.now) seats.items }
    ensures players { IfSome result (λ actors. ArePlayers pool.now actors) }
    ensures parts { IfSome result (λ actors. seats.items ≡ seats_in actors) }
{
    let mut seats = seats;
    if seats.len() != 4 {
        return None;
    }
    Some(Actors {
        server: seats.remove(0),
        client: seats.remove(0),
        first: seats.remove(0),
        second: seats.remove(0),
    })
}

/// The seats of all actors, in the order of their numbers.
pub fn gather<B: Recorded>(alloc: Global, actors: Actors<B>) -> Result<Vec<Seat<B>>, AllocError>
    ensures { IfOk result (λ seats. seats.items ≡ seats_in actors) }
{
    let Actors {
        server,
        client,
        first,
        second,
    } = actors;
    let mut seats = Vec::with_capacity(alloc, 4)?;
    seats.push_reserved(server);
    seats.push_reserved(client);
    seats.push_reserved(first);
    seats.push_reserved(second);
    Ok(seats)
}
