//! The least of the values that the keys of a heap have: only those that are due below it, and the ones
//! right below them, are looked at.

ghost use Rattle.std.specs.Prelude.{◌≡◌, ℕ, ◌+◌, ◌≤◌, length};
ghost use Rattle.timer_heap.specs.Counting.{under};
ghost use Rattle.timer_heap.specs.Dues.{Entry};
ghost use Rattle.timer_heap.specs.Heap.{IsHeap, rank_at};
ghost use Rattle.timer_heap.specs.Least.{lesser, falls_below, is_passed as passed, IsFound, IsNoEarlier, TellsValues};

use crate::places::Places;

// The lesser of a value and another, if there is another.
fn lesser_of(value: u64, other: Option<u64>) -> u64
    ensures { result ≡ lesser value other }
{
    match other {
        Some(other) => value.min(other),
        None => value,
    }
}

// Whether what has such a due time has no value below the least so far.
fn is_passed(due: u64, so_far: Option<u64>) -> bool
    ensures { result ≡ passed due so_far }
{
    match so_far {
        Some(so_far) => so_far <= due,
        None => false,
    }
}

// The least of what there is so far and of the values of the keys at this place and below it.
pub(crate) fn least_under<F: Fn(u32, u64) -> u64>(
    places: &Places,
    dues: &[u64],
    place: u64,
    so_far: Option<u64>,
    value: &F,
) -> Option<u64>
    requires callable { F.IsAlwaysCallable value.now }
    requires sized { places.now.keys ≡ length dues.now }
    requires heap { IsHeap (rank_at dues.now places.now.held) (length places.now.held) }
    ensures { (worth : Entry → ℕ) → IsNoEarlier worth → TellsValues (F.post value.now) places.now.keys worth → (depth : ℕ) → length places.now.held ≤ place + depth → IsFound (λ bound. under (falls_below dues.now places.now.held worth bound) depth place) so_far result }
{
    if place >= places.len() as u64 {
        return so_far;
    }
    let key = places.key_at(place as u32);
    let due = dues[key as usize];
    if is_passed(due, so_far) {
        return so_far;
    }
    let here = lesser_of(value(key, due), so_far);
    let left = least_under(places, dues, 2 * place + 1, Some(here), value);
    least_under(places, dues, 2 * place + 2, left, value)
}
