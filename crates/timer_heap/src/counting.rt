//! How many keys of a heap are due: only those, and the ones right below them, are looked at.

ghost use Rattle.std.specs.Prelude.{◌≡◌, ℕ, ◌+◌, ◌≤◌, Bool, true, length};
ghost use Rattle.timer_heap.specs.Counting.{Tests, counts, under};
ghost use Rattle.timer_heap.specs.Heap.{IsHeap, rank_at};
ghost use Rattle.timer_heap.specs.Held.{tally};

use crate::places::Places;

fn one_if(holds: bool) -> u32
    ensures { result ≡ tally holds }
{
    if holds { 1 } else { 0 }
}

// How many of the keys at this place and below it are due and pass the test.
pub(crate) fn due_under<F: Fn(u32) -> bool>(
    places: &Places,
    dues: &[u64],
    t: u64,
    place: u64,
    test: &F,
) -> u32
    requires callable { F.IsAlwaysCallable test.now }
    requires sized { places.now.keys ≡ length dues.now }
    requires heap { IsHeap (rank_at dues.now places.now.held) (length places.now.held) }
    ensures counted { (passes : ℕ → Bool) → Tests (F.post test.now) places.now.keys passes → (depth : ℕ) → length places.now.held ≤ place + depth → result ≡ under (counts dues.now places.now.held t passes) depth place }
    ensures most { (depth : ℕ) → length places.now.held ≤ place + depth → result ≤ under (counts dues.now places.now.held t (λ _. true)) depth place }
{
    if place >= places.len() as u64 {
        return 0;
    }
    let key = places.key_at(place as u32);
    if dues[key as usize] > t {
        return 0;
    }
    one_if(test(key))
        + due_under(places, dues, t, 2 * place + 1, test)
        + due_under(places, dues, t, 2 * place + 2, test)
}
