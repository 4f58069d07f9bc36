//! A key of a list that is near to where a number belongs in it: that of a number next to it. It is a guess,
//! so nothing is told of it but that it is a key of the list.

ghost use Rattle.std.specs.Prelude.{◌≡◌, ◌<◌, IfSome, length};
ghost use Rattle.linked_lists.specs.Linked.{owner_of};

use crate::places::Entry;
use linked_lists::LinkedLists;

// How many entries are looked at before a number, and how many behind it, at most.
const MOST_AWAY: u32 = 256;

// An entry's key, if there is such an entry, its row is there and its key is in this list.
#[inline(always)]
fn key_at(entries: &[Entry], at: usize, lists: &LinkedLists, list: u32) -> Option<u32>
    ensures { IfSome result (λ key. owner_of lists.now key ≡ list) }
{
    let entry = entries.get(at)?;
    if entry.there && lists.owner(entry.key) == list {
        Some(entry.key)
    } else {
        None
    }
}

// Of the entries next to this one, the nearest whose key is in this list, and that key. No more of them are
// looked at to either side than the list has keys, since to go along all of it costs no more.
pub(crate) fn key_beside(
    entries: &[Entry],
    at: usize,
    lists: &LinkedLists,
    list: u32,
) -> Option<u32>
    requires { list < length lists.now.lists }
    ensures { IfSome result (λ key. owner_of lists.now key ≡ list) }
{
    let most = lists.len(list).min(MOST_AWAY) as usize;
    for away in 1..=most {
        // Where there are fewer entries before it, this wraps to where there is none.
        let before = key_at(entries, at.wrapping_sub(away), lists, list);
        if before.is_some() {
            return before;
        }
        let behind = key_at(entries, at.wrapping_add(away), lists, list);
        if behind.is_some() {
            return behind;
        }
    }
    None
}
