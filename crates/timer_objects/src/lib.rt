//! The timer objects of a machine, seen as a list that tells of each number whether there is such an
//! object, and the list of the settings of those timers that are set, in the order in which they
//! expire: by due time, and at the same due time by object number. The timeout of an armed wait is a
//! setting too, of a wait object that is entered here; it has no period.
//!
//! `open` takes the memory for all objects, writes to none of it, and no other call takes any: `create`
//! fills the list of objects as far as its number, and `set` that of periods as far as the object that it
//! sets, so numbers that are never used cost nothing. `create` enters an object and `close` strikes it
//! out; `set` does what SetThreadpoolTimer does to the settings, and `unset` ends one; `expire` lets the
//! first timer expire, if it is due; `is_set`, `count_due` and `len` read, and `note_due` is for a count
//! that is asked for again.
//! What the numbers mean is defined in tp_base (`specs/Timers`): times are in units of 100 ns since the
//! clock began, periods and windows in milliseconds.
//!
//! ```text
//! let mut timers = TimerObjects::open(alloc, 2)?;
//! timers.create(ObjectId(1));
//! timers.create(ObjectId(2));
//! timers.set(ObjectId(1), 100, Some(150), 0, 0);      // once, at 150
//! timers.set(ObjectId(2), 100, Some(-30), 1, 0);      // at 130, and from then on each 10,000 units
//! timers.count_due(200)       // 2
//! timers.expire(200)          // Some((130, ObjectId(2))): it is set anew, to 10,130
//! timers.expire(200)          // Some((150, ObjectId(1))): it is no longer set
//! timers.expire(200)          // None
//! ```
//!
//! What a call costs: `create` and `is_set` look at one object, and `expire` where nothing is due at
//! one setting. `set`, `unset`, `close` and an `expire` that takes one out move settings along one way
//! through a heap (timer_heap). `count_due` and `note_due` look at those that are due and at those
//! right below them; for the moment that was noted last, until a setting begins or ends, at none.

#![tactic(auto)]

ghost use Rattle.std.specs.Prelude.{◌≡◌, ℕ, ◌+◌, ◌^◌, ◌<◌, ◌≤◌, All, Bool, IfOk, [], ◌∷◌, MatchOption, IfNone, filter, length, map, replicate, slice_set, true, false};
ghost use Rattle.tp_base.specs.Timers.{after_expiry, clock_end, deadline as last_moment, expired, expires_at_once, is_due, next_deadline, set_or_expire, set_timer, without_setting};
ghost use Rattle.timer_heap.specs.Dues.{entry};
ghost use Rattle.timer_objects.specs.Kept.{setting_of};
ghost use Rattle.timer_objects.specs.Settings.{HasDistinctObjects, IsInOrder, after_first, first_expired, is_set, is_there, told, TestsObjects};

mod moments;

pub use moments::{deadline, moment_of, next_due};
use std::alloc::{AllocError, Global};
use std::marker::Model;
use steps::Steps;
use timer_heap::{DueHeap, fill_to};
use tp_base::ids::ObjectId;
use tp_base::rows::TimerSetting;

/// The timer objects and their settings.
#[derive(Drop)]
pub struct TimerObjects {
    // At the place of an object's number whether it is there. Filled by `create`, as far as the greatest
    // number that was entered; past that none is there. There is no object 0.
    there: Vec<bool>,
    // The due time of each timer that is set, under the key of its object.
    dues: DueHeap,
    // What is to be after that, at the place of the key. Filled as a setting begins, as far as the greatest
    // key that was set.
    paces: Vec<Pace>,
}

// The period and the window of a timer, in milliseconds.
#[derive(Clone, Copy)]
struct Pace {
    period: u32,
    window: u32,
}

// That of a timer that was never set.
const NO_PACE: Pace = Pace {
    period: 0,
    window: 0,
};

/// What `TimerObjects::set` tells: whether the timer was set before, and whether it expires at once.
#[derive(Clone, Copy)]
pub struct TimerSet {
    pub was: bool,
    pub fires: bool,
}

impl Model for TimerObjects {
    ghost use Rattle.timer_objects.specs.Settings.{Timers};

    ghost Value = { Timers };

    ghost use Rattle.std.specs.Prelude.{◌+◌};
    ghost use Rattle.std.specs.Vec.{vec_capacity};
    ghost use Rattle.timer_objects.specs.Kept.{IsKept, padded, settings_of};

    ghost view = { λ a. record { limit = a.dues.keys; there = padded (a.dues.keys + 1) a.there.items; settings = settings_of a.paces.items a.dues.entries } };

    ghost invariant = { λ a. IsKept (vec_capacity a.there) (vec_capacity a.paces) a.there.items a.dues a.paces.items };
}

// The key of an object: its number, counted from 0.
fn key_of(object: ObjectId) -> u32
    requires { 1 ≤ object.0 }
    ensures { object.0 ≡ result + 1 }
{
    object.0 - 1
}

impl TimerObjects {
    /// No objects, with the memory for those of the numbers from 1 to `limit`.
    ///
    /// An `AllocError` comes where that memory can't be had.
    pub fn open(alloc: Global, limit: u32) -> Result<TimerObjects, AllocError>
        ensures { IfOk result (λ timers. timers ≡ record { limit = limit; there = replicate (limit + 1) false; settings = [] }) }
    {
        Ok(TimerObjects {
            there: Vec::with_capacity(alloc, limit as usize + 1)?,
            dues: DueHeap::open(alloc, limit)?,
            paces: Vec::with_capacity(alloc, limit as usize)?,
        })
    }

    /// How many timers are set. There are never more than there can be objects, each is one that is
    /// there, and none is set twice.
    pub fn len(&self) -> u32
        ensures value { result ≡ length self.now.settings }
        ensures limited { length self.now.settings ≤ self.now.limit }
        ensures in_order { IsInOrder self.now.settings }
        ensures distinct { HasDistinctObjects self.now.settings }
        ensures alive { All (λ s. is_there self.now s.object.0 ≡ true) self.now.settings }
        ensures least { All (λ s. 1 ≤ s.object.0) self.now.settings }
        ensures most { All (λ s. s.object.0 ≤ self.now.limit) self.now.settings }
        ensures places { length self.now.there ≡ self.now.limit + 1 }
    {
        self.dues.len()
    }

    /// Enters an object that isn't set, under a number that none has.
    pub fn create(&mut self, object: ObjectId)
        requires least { 1 ≤ object.0 }
        requires most { object.0 ≤ self.old.limit }
        requires free { is_there self.old object.0 ≡ false }
        ensures { self.new ≡ record self.old { there = slice_set self.old.there object.0 true } }
    {
        fill_to(&mut self.there, object.0, false);
        self.there[object.0 as usize] = true;
    }

    /// Whether there is an object of this number.
    #[tactic(auto, using(crate::proofs::Padding::get_or_padded))]
    pub fn is_there(&self, object: ObjectId) -> bool
        ensures { result ≡ is_there self.now object.0 }
    {
        self.there.get(object.0 as usize).copied().unwrap_or(false)
    }

    /// Strikes out an object, and says whether there was one. If it is set, that ends.
    pub fn close(&mut self, object: ObjectId) -> bool
        ensures was { result ≡ is_there self.old object.0 }
        ensures after { self.new ≡ record self.old { there = slice_set self.old.there object.0 false; settings = without_setting object self.old.settings } }
    {
        if !self.is_there(object) {
            return false;
        }
        self.dues.unset(key_of(object), &mut Steps::new());
        self.there[object.0 as usize] = false;
        true
    }

    /// Sets a timer, as SetThreadpoolTimer does: its old setting ends, and with a due time a new one
    /// begins. A timer that is due at once expires, and then it is set again if it has a period.
    ///
    /// `now` is the moment at which this happens. `due` counts from now where it is negative, is a
    /// moment of the clock where it is positive, and is now where it is 0. `period` and `window` are
    /// in milliseconds; the period is 0 for a timer that expires once.
    pub fn set(
        &mut self,
        object: ObjectId,
        now: u64,
        due: Option<i64>,
        period: u32,
        window: u32,
    ) -> TimerSet
        requires there { is_there self.old object.0 ≡ true }
        requires clock { now ≤ clock_end }
        ensures was { result.was ≡ is_set object.0 self.old.settings }
        ensures fires { result.fires ≡ expires_at_once now due }
        ensures after { self.new ≡ record self.old { settings = set_timer now object due period window self.old.settings } }
    {
        let was = self.unset(object);
        let fires = match due {
            Some(due) => self.begin(
                now,
                TimerSetting {
                    object,
                    due: moment_of(now, due),
                    period,
                    window,
                },
            ),
            None => false,
        };
        TimerSet { was, fires }
    }

    /// Ends the setting of an object that is there, if it has one, and says whether it had.
    pub fn unset(&mut self, object: ObjectId) -> bool
        requires { is_there self.old object.0 ≡ true }
        ensures least { 1 ≤ object.0 }
        ensures was { result ≡ is_set object.0 self.old.settings }
        ensures after { self.new ≡ record self.old { settings = without_setting object self.old.settings } }
    {
        self.dues.unset(key_of(object), &mut Steps::new())
    }

    // Begins a setting of a timer that isn't set. Says whether it expires at once.
    fn begin(&mut self, now: u64, setting: TimerSetting) -> bool
        requires there { is_there self.old setting.object.0 ≡ true }
        requires least { 1 ≤ setting.object.0 }
        requires unset { is_set setting.object.0 self.old.settings ≡ false }
        requires clock { now ≤ clock_end }
        ensures fires { result ≡ is_due now setting }
        ensures after { self.new ≡ record self.old { settings = set_or_expire now setting self.old.settings } }
    {
        let TimerSetting {
            object,
            due,
            period,
            window,
        } = setting;
        let key = key_of(object);
        fill_to(&mut self.paces, key, NO_PACE);
        self.paces[key as usize] = Pace { period, window };
        let fires = due <= now;
        if !fires {
            self.dues.set(key, due, &mut Steps::new());
        } else if period > 0 {
            self.dues
                .set(key, next_due(due, period, now), &mut Steps::new());
        }
        fires
    }

    /// Whether a timer is set. One that isn't there is not.
    pub fn is_set(&self, object: ObjectId) -> bool
        ensures { result ≡ is_set object.0 self.now.settings }
    {
        object.0 > 0 && self.dues.due_of(key_of(object)).is_some()
    }

    /// How many timers are due at the moment `now`: their due times aren't above it.
    pub fn count_due(&self, now: u64) -> u32
        ensures { result ≡ length (expired now self.now.settings) }
    {
        self.dues.count_due(now)
    }

    /// Notes how many timers are due at the moment `now`, for `count_due`: until a setting begins or
    /// ends, or another moment is noted, that answers for this moment at once.
    pub fn note_due(&mut self, now: u64)
        ensures { self.new ≡ self.old }
    {
        self.dues.note_due(now);
    }

    /// How many of the timers that are due at the moment `now` pass a test.
    pub fn count_due_where<F: Fn(ObjectId) -> bool>(&self, now: u64, test: &F) -> u32
        requires { F.IsAlwaysCallable test.now }
        ensures { (passes : ℕ → Bool) → TestsObjects (F.post test.now) self.now.limit passes → result ≡ length (filter (λ s. passes s.object.0) (expired now self.now.settings)) }
    {
        // A key is below the limit, so its object has a number.
        let of_key = |key: u32| -> bool
            requires { F.IsAlwaysCallable test.now }
            ensures { key + 1 < 2 ^ 32 → F.post test.entry.now (record { 0 = key + 1 }) result }
        { test(ObjectId(key.saturating_add(1))) };
        self.dues.count_due_where(now, &of_key)
    }

    /// The least of the deadlines of the timers that are set, and None where none is set: the last
    /// moment to which the next expirations may be put off.
    pub fn next_deadline(&self) -> Option<u64>
        ensures { result ≡ next_deadline self.now.settings }
    {
        let paces = &self.paces;
        let deadline_of = |key: u32, due: u64| -> u64
            ensures { result ≡ last_moment (setting_of paces.entry.now.items (entry key due)) }
        {
            let Pace { period, window } = paces.get(key as usize).copied().unwrap_or(NO_PACE);
            deadline(&TimerSetting {
                object: ObjectId(key.saturating_add(1)),
                due,
                period,
                window,
            })
        };
        self.dues.least_by(&deadline_of)
    }

    /// Lets the first timer expire, if it is due at the moment `now`, and answers when it was due,
    /// and which it is. With a period it is set anew, to a moment above `now`, and else it is no
    /// longer set. None exactly where no timer is due, and then nothing changes.
    pub fn expire(&mut self, now: u64) -> Option<(u64, ObjectId)>
        requires { now ≤ clock_end }
        ensures first { result ≡ first_expired now self.old.settings }
        ensures after { self.new ≡ record self.old { settings = after_first now self.old.settings } }
        ensures fired { MatchOption result (expired now self.old.settings ≡ []) (λ first. map told (expired now self.old.settings) ≡ first ∷ map told (expired now self.new.settings)) }
        ensures left { after_expiry now self.new.settings ≡ after_expiry now self.old.settings }
        ensures done { IfNone result (after_expiry now self.new.settings ≡ self.new.settings) }
    {
        let (due, key) = self.dues.pop_due(now, &mut Steps::new())?;
        let pace = self.paces[key as usize];
        if pace.period > 0 {
            self.dues
                .set(key, next_due(due, pace.period, now), &mut Steps::new());
        }
        Some((due, ObjectId(key + 1)))
    }
}
