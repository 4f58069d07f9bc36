//! The search itself: the states that were met, by their keys, and those that wait.

ghost use Rattle.std.specs.Prelude.{◌≡◌, ◌<◌, ◌≤◌, ◌+◌, ◌^◌, ℕ, Some, IfOk, MatchOption, length, slice_get};
ghost use Rattle.breadth_first.specs.declared.Next.TheVariants.{To as LeadsTo};
ghost use Rattle.breadth_first.specs.Rules.{move_of};
ghost use Rattle.breadth_first.specs.Searched.{next_origin, origin_of, remade, way_to, Entry, IsFound, IsSearched, IsWithin};

use crate::{Answer, Measures, Next, System};
use indexmap::IndexMap;
use std::alloc::{AllocError, Global};
use std::collections::VecDeque;
use std::rc::Rc;

// How a state was met: by this move of the state that was met as this one, and after so many moves.
#[derive(Clone, Copy)]
pub(crate) struct Origin {
    from: u32,
    by: u32,
    depth: u32,
}

type Origins = IndexMap<Vec<u8>, Origin>;

// How a state that waits is made again: it is the first one, or this move of that state leads to it.
#[derive(Drop)]
pub(crate) enum Waiting<T> {
    First,
    Behind { from: Rc<T>, by: u32 },
}

// The states that were met, by their keys and in that order, and those of them that wait. There are
// at most so many.
#[derive(Drop)]
pub(crate) struct Search<T> {
    most: u32,
    origins: Origins,
    pub(crate) waiting: VecDeque<Waiting<T>>,
}

impl<T: Drop> Search<T> {
    // How many states were met.
    pub(crate) fn len(&self) -> u32
        requires { length self.now.origins.entries < 2 ^ 32 }
    {
        self.origins.len() as u32
    }

    // By how many moves the state at a place was met.
    pub(crate) fn depth(&self, at: u32) -> u32
        ensures { (e : Entry) → slice_get self.now.origins.entries at ≡ Some e → result ≡ e.1.depth }
    {
        match self.origins.get_index(at as usize) {
            Some((_, origin)) => origin.depth,
            None => 0,
        }
    }
}

// The first state is met.
pub(crate) fn begin<S: System>(
    alloc: Global,
    system: &S,
    most: u32,
) -> Result<Search<S::State>, AllocError>
    requires { 1 ≤ most }
    ensures { IfOk result (IsSearched (S.rules system.now) most 0) }
{
    let first = system.first(alloc)?;
    let key = system.key(alloc, &first)?;
    let mut origins = IndexMap::new(alloc);
    let mut waiting = VecDeque::new(alloc);
    let origin = Origin {
        from: 0,
        by: 0,
        depth: 0,
    };
    origins.insert(key, origin)?;
    waiting.push_back(Waiting::First)?;
    Ok(Search {
        most,
        origins,
        waiting,
    })
}

// Makes a state that waits again.
pub(crate) fn remake<S: System>(
    alloc: Global,
    system: &S,
    waiting: Waiting<S::State>,
) -> Result<Rc<S::State>, AllocError>
    requires { (state : S.State) × (remade (S.rules system.now) waiting ≡ LeadsTo state) }
    ensures { IfOk result (λ state. remade (S.rules system.now) waiting ≡ LeadsTo state.value) }
{
    match waiting {
        Waiting::First => Ok(Rc::new(alloc, system.first(alloc)?)?),
        Waiting::Behind { from, by } => match system.after(alloc, &from, by)? {
            Next::To(state) => Ok(Rc::new(alloc, state)?),
            Next::Nowhere | Next::Bad => unreachable!(),
        },
    }
}

// The moves that came to the state at a place, which are so many.
fn way_back(alloc: Global, origins: &Origins, at: u32, depth: u32) -> Result<Vec<u32>, AllocError>
    ensures { IfOk result (λ way. way.items ≡ way_to origins.now.entries depth at) }
{
    let mut way = Vec::new(alloc);
    let mut place = at;
    for _ in 0..depth {
        let Some((_, origin)) = origins.get_index(place as usize) else {
            break;
        };
        way.push(origin.by)?;
        place = origin.from;
    }
    way.reverse();
    Ok(way)
}

// Meets a state, to which the move of the origin led from this one. An answer comes where no more are to
// be met.
fn meet<S: System>(
    alloc: Global,
    system: &S,
    search: &mut Search<S::State>,
    state: &Rc<S::State>,
    next: S::State,
    origin: Origin,
    measures: &mut Measures,
) -> Result<Option<Answer>, AllocError>
    requires { 0 < origin.depth }
    ensures { IsWithin (S.rules system.now) search.old.most origin state.now.value search.old → move_of (S.rules system.now) state.now.value origin.by ≡ LeadsTo next → IfOk result (λ found. MatchOption found (IsWithin (S.rules system.now) search.old.most (next_origin origin) state.now.value search.new) (IsFound (S.rules system.now) search.old.most)) }
{
    let key = system.key(alloc, &next)?;
    drop(next);
    if search.origins.contains_key(&key) {
        return Ok(None);
    }
    if search.origins.len() == search.most as usize {
        return Ok(Some(Answer::GaveUp {
            states: search.most,
            deep: origin.depth - 1,
        }));
    }
    let waiting = Waiting::Behind {
        from: state.clone()?,
        by: origin.by,
    };
    search.origins.insert(key, origin)?;
    search.waiting.push_back(waiting)?;
    measures.states = measures.states.wrapping_add(1);
    Ok(None)
}

// Makes the move of the origin, which the state has that the move leads to. An answer comes where the
// move is bad, or where no more states are to be met.
fn make<S: System>(
    alloc: Global,
    system: &S,
    search: &mut Search<S::State>,
    state: &Rc<S::State>,
    origin: Origin,
    measures: &mut Measures,
) -> Result<Option<Answer>, AllocError>
    requires width { origin.by < (S.rules system.now).width }
    requires within { IsWithin (S.rules system.now) search.old.most origin state.now.value search.old }
    ensures { IfOk result (λ found. MatchOption found (IsWithin (S.rules system.now) search.old.most (next_origin origin) state.now.value search.new) (IsFound (S.rules system.now) search.old.most)) }
{
    match system.after(alloc, state, origin.by)? {
        Next::Nowhere => Ok(None),
        Next::Bad => {
            let mut path = way_back(alloc, &search.origins, origin.from, origin.depth - 1)?;
            path.push(origin.by)?;
            measures.steps = measures.steps.wrapping_add(1);
            Ok(Some(Answer::Bad(path)))
        }
        Next::To(next) => {
            measures.steps = measures.steps.wrapping_add(1);
            meet(alloc, system, search, state, next, origin, measures)
        }
    }
}

// Makes all moves of a state, which is at a place and was met by so many moves. An answer comes where
// one of them is bad, or where no more states are to be met.
pub(crate) fn expand<S: System>(
    alloc: Global,
    system: &S,
    search: &mut Search<S::State>,
    state: &Rc<S::State>,
    at: u32,
    depth: u32,
    measures: &mut Measures,
) -> Result<Option<Answer>, AllocError>
    requires deep { depth + 1 < 2 ^ 32 }
    requires within { IsWithin (S.rules system.now) search.old.most (origin_of at 0 (depth + 1)) state.now.value search.old }
    ensures { IfOk result (λ found. MatchOption found (IsSearched (S.rules system.now) search.old.most (at + 1) search.new) (IsFound (S.rules system.now) search.old.most)) }
{
    for by in 0..system.width() {
        let origin = Origin {
            from: at,
            by,
            depth: depth + 1,
        };
        if let Some(answer) = make(alloc, system, search, state, origin, measures)? {
            return Ok(Some(answer));
        }
    }
    Ok(None)
}
