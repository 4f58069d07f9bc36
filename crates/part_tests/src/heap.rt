//! Keys with due times, set and taken out.

ghost use Rattle.std.specs.Prelude.{◌≡◌};

use crate::checks::{expect_eq, expect_ok};
use steps::Steps;
use timer_heap::DueHeap;

const KEYS: u32 = 1_000_000;

fn due_at(key: u32) -> u64 {
    u64::from(key) * 7919 % 1_000_000
}

// Gives each key its due time.
fn set_all(heap: &mut DueHeap, keys: u32)
    requires { heap.old.keys ≡ keys }
{
    for key in 0..keys {
        heap.set(key, due_at(key), &mut Steps::new());
    }
}

// Takes the due time of every third key away.
fn unset_thirds(heap: &mut DueHeap, keys: u32) {
    for key in 0..keys {
        if key % 3 == 0 {
            heap.unset(key, &mut Steps::new());
        }
    }
}

// Whether a key has its due time, is none of those whose due time was taken away, and comes behind the one that was
// taken out before it.
fn is_next(last: Option<(u64, u32)>, next: Option<(u64, u32)>) -> bool {
    let Some((due, key)) = next else {
        return false;
    };
    let follows = match last {
        Some((before, other)) => before < due || (before == due && other < key),
        None => true,
    };
    follows && due == due_at(key) && key % 3 > 0
}

// Takes out so many keys, and says whether they came in order.
fn pop_in_order(heap: &mut DueHeap, count: u32) -> bool {
    let mut last = None;
    for _ in 0..count {
        let next = heap.pop_due(u64::MAX, &mut Steps::new());
        if !is_next(last, next) {
            return false;
        }
        last = next;
    }
    true
}

#[test]
fn million_keys(rt: HostRuntime) {
    let mut heap = expect_ok(&rt, DueHeap::open(rt.alloc(), KEYS));
    set_all(&mut heap, KEYS);
    unset_thirds(&mut heap, KEYS);
    let left = heap.len();
    let ordered = pop_in_order(&mut heap, left);
    expect_eq(&rt, (left, ordered, heap.len()), (666_666, true, 0));
    drop(heap);
}
