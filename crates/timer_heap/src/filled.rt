//! Lists that are filled as far as they are needed.

ghost use Rattle.std.specs.Prelude.{◌≡◌, ℕ, ◌+◌, ◌<◌, length, max, slice_index_or, vec_capacity};

/// Appends a value to a list until it has this place. There is memory for it, and what is there stays.
#[inline(always)]
pub fn fill_to<T: Copy>(items: &mut Vec<T>, place: u32, value: T)
    requires { place < vec_capacity items.old }
    ensures many { length items.new.items ≡ max (length items.old.items) (place + 1) }
    ensures same { (k : ℕ) → slice_index_or items.new.items k value ≡ slice_index_or items.old.items k value }
    ensures capacity { vec_capacity items.new ≡ vec_capacity items.old }
{
    while items.len() <= place as usize {
        items.push_reserved(value);
    }
}
