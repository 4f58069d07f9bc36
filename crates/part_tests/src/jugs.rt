//! Two jugs, one for 3 and one for 5, as a system to be searched.

ghost use Rattle.std.specs.Prelude.{◌≡◌};
ghost use Rattle.breadth_first.specs.Same.{keeps_itself, same_itself, same_kept, IsSame};
ghost use Rattle.part_tests.specs.Jugs.{jug_keys, jug_rules, poured};

use breadth_first::{Next, System};
use std::alloc::{AllocError, Global};

/// How much is in each jug.
#[derive(Clone, Copy)]
pub struct Jars {
    three: u8,
    five: u8,
}

/// Two jugs, of which one is to have so much in it.
#[derive(Clone, Copy)]
pub struct Jugs {
    pub goal: u8,
}

// What a move makes of the jugs.
fn pour(jars: Jars, by: u32) -> Jars
    ensures { result ≡ poured jars by }
{
    let Jars { three, five } = jars;
    if by == 0 {
        return Jars { three: 3, five };
    }
    if by == 1 {
        return Jars { three, five: 5 };
    }
    if by == 2 {
        return Jars { three: 0, five };
    }
    if by == 3 {
        return Jars { three, five: 0 };
    }
    if by == 4 {
        let much = three.min(5u8.saturating_sub(five));
        return Jars {
            three: three - much,
            five: five + much,
        };
    }
    let much = five.min(3u8.saturating_sub(three));
    Jars {
        three: three + much,
        five: five - much,
    }
}

impl System for Jugs {
    type State = Jars;

    ghost rules = { jug_rules };

    ghost like = { IsSame };

    fn width(&self) -> u32 {
        6
    }

    fn first(&self, _alloc: Global) -> Result<Jars, AllocError> {
        Ok(Jars { three: 0, five: 0 })
    }

    fn after(&self, _alloc: Global, state: &Jars, by: u32) -> Result<Next<Jars>, AllocError> {
        let next = pour(*state, by);
        if next.three == self.goal || next.five == self.goal {
            return Ok(Next::Bad);
        }
        Ok(Next::To(next))
    }

    fn key(&self, alloc: Global, state: &Jars) -> Result<Vec<u8>, AllocError> {
        let mut key = Vec::new(alloc);
        key.push(state.three)?;
        key.push(state.five)?;
        Ok(key)
    }

    ghost like_itself = { same_itself };

    ghost like_kept = { same_kept jug_rules jug_keys };

    ghost keeps = { keeps_itself jug_rules };
}
