//! The places of numbers among entries that rise by number, and the entries whose rows left.
//!
//! An entry leads from a number to the key of its row. One whose row left is only marked, so that no entry
//! moves; those that left are dropped together by a push that finds many of them, so that an entry moves
//! less than once for one that left. Numbers mostly follow one another, and then the place of a number is
//! told by its distance from the last; any other is found by halving.

ghost use Rattle.std.specs.Prelude.{◌≡◌, ◌≢◌, ◌*◌, ◌<◌, ◌≤◌, ◌==◌, ◌&&◌, All, IfSome, MatchOption, None, drop, find, length, nat_lt, option_map, slice_get, true, vec_capacity};
ghost use Rattle.slab.specs.Slab.{ContainsKey};
ghost use Rattle.std.specs.Bool.{OnTrue};
ghost use Rattle.std.specs.Option.{option_copied};
ghost use Rattle.std.specs.List.Sorted.{IsPartitionPoint};
ghost use Rattle.live_callbacks.specs.Places.{EntriesRise, IsPlaceOf, IsPlaceOfRow, live, row_at};

use slab::Slab;
use tp_base::ids::GroupId;
use tp_base::rows::CallbackRow;

// A number, the key of its row, and whether that row is there. One that left stays until the memory is
// needed.
#[derive(Clone, Copy)]
pub(crate) struct Entry {
    pub number: u64,
    pub key: u32,
    pub there: bool,
}

// How many entries have a number below this one.
fn first_from(entries: &[Entry], number: u64) -> usize
    requires { EntriesRise entries.now }
    ensures bound { result ≤ length entries.now }
    ensures parted { IsPartitionPoint (λ e. e.number < number) (λ e. number ≤ e.number) entries.now result }
{
    entries.partition_point(|entry| entry.number < number)
}

// How many entries have a number up to this one, found by halving.
#[inline(never)]
fn first_above(entries: &[Entry], number: u64) -> usize
    requires { EntriesRise entries.now }
    ensures bound { result ≤ length entries.now }
    ensures parted { IsPartitionPoint (λ e. e.number ≤ number) (λ e. number < e.number) entries.now result }
{
    entries.partition_point(|entry| entry.number <= number)
}

// A row is there, and of this group.
#[inline(always)]
fn is_of_group(entry: &Entry, rows: &Slab<CallbackRow>, group: GroupId) -> bool
    ensures { result ≡ (entry.now.there && ((row_at rows.now entry.now.key).group.0 == group.0)) }
{
    let found = match rows.get(entry.key as usize) {
        Some(row) => row.group.0,
        None => 0,
    };
    entry.there && found == group.0
}

// The first entry from this place on whose row is there.
#[inline(always)]
pub(crate) fn first_entry(entries: &[Entry], from: usize) -> Option<Entry>
    requires { from ≤ length entries.now }
    ensures { result ≡ slice_get (live (drop from entries.now)) 0 }
{
    let mut place = from;
    while place < entries.len() {
        if entries[place].there {
            return Some(entries[place]);
        }
        place += 1;
    }
    None
}

// The first entry from this place on whose row is there and of this group.
pub(crate) fn first_of_group_from(
    entries: &[Entry],
    rows: &Slab<CallbackRow>,
    from: usize,
    group: GroupId,
) -> Option<Entry>
    requires { from ≤ length entries.now }
    ensures { result ≡ find (λ e. (row_at rows.now e.key).group.0 == group.0) (live (drop from entries.now)) }
{
    let mut place = from;
    while place < entries.len() {
        if is_of_group(&entries[place], rows, group) {
            return Some(entries[place]);
        }
        place += 1;
    }
    None
}

// The place that is as far from the last one as the number is from the last number, if there is one.
#[inline(always)]
fn place_from_last(entries: &[Entry], number: u64) -> Option<usize>
    ensures { IfSome result (λ place. place < length entries.now) }
{
    let last = entries.len().checked_sub(1)?;
    let distance = entries[last].number.checked_sub(number)?;
    if distance <= last as u64 {
        Some(last - distance as usize)
    } else {
        None
    }
}

// Where the entry of this number stands, found by halving.
#[inline(never)]
fn halved_place(entries: &[Entry], number: u64) -> Option<usize>
    requires { EntriesRise entries.now }
    ensures { MatchOption result (All (λ e. e.number ≢ number) entries.now) (IsPlaceOf entries.now number) }
{
    let place = first_from(entries, number);
    if place < entries.len() && entries[place].number == number {
        Some(place)
    } else {
        None
    }
}

// Where the entry of this number stands, whether its row left or not. Where no number was left out
// behind it, its distance from the last tells the place.
#[inline(always)]
fn entry_place(entries: &[Entry], number: u64) -> Option<usize>
    requires { EntriesRise entries.now }
    ensures { MatchOption result (All (λ e. e.number ≢ number) entries.now) (IsPlaceOf entries.now number) }
{
    match place_from_last(entries, number) {
        Some(place) if entries[place].number == number => Some(place),
        _ => halved_place(entries, number),
    }
}

// Whether all entries have a number above this one.
#[inline(always)]
fn is_below_all(entries: &[Entry], number: u64) -> bool
    requires { EntriesRise entries.now }
    ensures { OnTrue result (All (λ e. number < e.number) entries.now) }
{
    entries.len() == 0 || number < entries[0].number
}

// How many entries have a number up to this one. There is no halving where an entry of the number is
// told by its distance from the last, nor where all numbers are above it.
#[inline(always)]
pub(crate) fn place_behind(entries: &[Entry], number: u64) -> usize
    requires { EntriesRise entries.now }
    ensures bound { result ≤ length entries.now }
    ensures parted { IsPartitionPoint (λ e. e.number ≤ number) (λ e. number < e.number) entries.now result }
{
    match place_from_last(entries, number) {
        Some(place) if entries[place].number == number => place + 1,
        _ if is_below_all(entries, number) => 0,
        _ => first_above(entries, number),
    }
}

// Where the entry of this number stands, whose row is there.
#[inline(always)]
pub(crate) fn place_of(entries: &[Entry], number: u64) -> Option<usize>
    requires { EntriesRise entries.now }
    ensures { MatchOption result (find (λ e. e.number == number) (live entries.now) ≡ None) (IsPlaceOfRow entries.now number) }
{
    match entry_place(entries, number) {
        Some(place) => {
            if entries[place].there {
                Some(place)
            } else {
                None
            }
        }
        None => None,
    }
}

// How many entries there may be, where so many rows are there: few that left, so that what is there stays
// close together, and enough of them that they are seldom dropped.
#[inline(always)]
pub(crate) fn most_entries(slots: u32, count: u32) -> usize
    requires { count < slots }
    ensures above { count < result }
    ensures within { result ≤ 2 * slots }
{
    let all = 2 * slots as usize;
    let some = 8 * count as usize + 2048;
    if some < all { some } else { all }
}

// Whether there is memory for one more entry, and its number is above all others.
#[inline(always)]
fn is_next(entries: &[Entry], most: usize, number: u64) -> bool
    requires { EntriesRise entries.now }
    ensures memory { OnTrue result (length entries.now < most) }
    ensures last { OnTrue result (All (λ e. e.number < number) entries.now) }
{
    let len = entries.len();
    len < most && (len == 0 || entries[len - 1].number < number)
}

// Drops the entries whose rows left.
#[inline(never)]
fn drop_left(entries: &mut Vec<Entry>)
    requires { EntriesRise entries.old.items }
    ensures rises { EntriesRise entries.new.items }
    ensures there { All (λ e. e.there ≡ true) entries.new.items }
    ensures kept { live entries.new.items ≡ live entries.old.items }
    ensures capacity { vec_capacity entries.new ≡ vec_capacity entries.old }
{
    entries.retain(|entry| entry.there);
}

// Makes a place for one more entry, if need be by dropping those whose rows left.
#[inline(always)]
pub(crate) fn make_place(entries: &mut Vec<Entry>, most: usize, number: u64)
    requires rises { EntriesRise entries.old.items }
    requires room { length (live entries.old.items) < most }
    requires last { All (λ e. e.number < number) (live entries.old.items) }
    ensures rises { EntriesRise entries.new.items }
    ensures kept { live entries.new.items ≡ live entries.old.items }
    ensures memory { length entries.new.items < most }
    ensures last { All (λ e. e.number < number) entries.new.items }
    ensures capacity { vec_capacity entries.new ≡ vec_capacity entries.old }
{
    if !is_next(entries, most, number) {
        drop_left(entries);
    }
}

// The entry of this number, if its row is there.
#[inline(always)]
pub(crate) fn entry_of(entries: &[Entry], number: u64) -> Option<Entry>
    requires { EntriesRise entries.now }
    ensures { result ≡ find (λ e. e.number == number) (live entries.now) }
{
    match place_of(entries, number) {
        Some(place) => Some(entries[place]),
        None => None,
    }
}

// The first entry with a number above this one whose row is there.
#[inline(always)]
pub(crate) fn entry_behind(entries: &[Entry], number: u64) -> Option<Entry>
    requires { EntriesRise entries.now }
    ensures { result ≡ find (λ e. nat_lt number e.number) (live entries.now) }
{
    first_entry(entries, place_behind(entries, number))
}

// The row of an entry, lent.
#[inline(always)]
pub(crate) fn lent_row(rows: &Slab<CallbackRow>, entry: Option<Entry>) -> Option<&CallbackRow>
    requires { IfSome entry (λ e. ContainsKey rows.now e.key) }
    ensures { option_copied result ≡ option_map (λ e. row_at rows.now e.key) entry }
{
    match entry {
        Some(entry) => Some(&rows[entry.key as usize]),
        None => None,
    }
}
