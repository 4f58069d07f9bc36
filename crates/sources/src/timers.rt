//! Timers, timeouts and the clock.

ghost use Rattle.std.specs.Prelude.{◌≡◌, ◌≤◌, false, filter, length, not, slice_set, true};
ghost use Rattle.tp_base.specs.Armings.{is_armed, is_set as is_object_set};
ghost use Rattle.tp_base.specs.Timers.{clock_end, expired, expires_at_once as expires_at_once_by, next_deadline, set_timer};
ghost use Rattle.sources.specs.Rows.{is_there, with_sources, without_object};

use crate::LiveSources;
use timer_objects::moment_of;
use tp_base::ids::ObjectId;

impl LiveSources {
    /// The moment of the clock, in units of 100 ns.
    pub fn now(&self) -> u64
        ensures now { result ≡ self.now.sources.now }
        ensures within { result ≤ clock_end }
    {
        self.clock
    }

    /// The clock comes to a moment. What is due then hasn't fired yet.
    pub fn set_clock(&mut self, now: u64)
        requires later { self.old.sources.now ≤ now }
        requires within { now ≤ clock_end }
        ensures { self.new ≡ with_sources self.old (record self.old.sources { now = now }) }
    {
        self.clock = now;
    }

    /// Enters a timer or a wait object, under a number that none has. It isn't set.
    pub fn enter(&mut self, object: ObjectId)
        requires least { 1 ≤ object.0 }
        requires most { object.0 ≤ self.old.objects }
        requires free { is_there self.old object.0 ≡ false }
        ensures { self.new ≡ record self.old { there = slice_set self.old.there object.0 true } }
    {
        self.timers.create(object);
    }

    /// Strikes out an object that is released. If it is set or armed, that ends; of one that isn't there
    /// nothing changes.
    pub fn strike(&mut self, object: ObjectId)
        ensures { self.new ≡ without_object self.old object }
    {
        self.timers.close(object);
        if self.kernels.disarm(object) {
            self.armed -= 1;
        }
    }

    /// Sets a timer, as SetThreadpoolTimer does, and says whether it expires at once.
    ///
    /// `due` counts from now where it is negative, is a moment of the clock where it is positive, is now
    /// where it is 0, and with None the setting ends. `period` and `window` are in milliseconds; the
    /// period is 0 for a timer that expires once.
    pub fn set_timer(
        &mut self,
        object: ObjectId,
        due: Option<i64>,
        period: u32,
        window: u32,
    ) -> bool
        requires { is_there self.old object.0 ≡ true }
        ensures fires { result ≡ expires_at_once_by self.old.sources.now due }
        ensures after { self.new ≡ with_sources self.old (record self.old.sources { settings = set_timer self.old.sources.now object due period window self.old.sources.settings }) }
    {
        self.timers
            .set(object, self.clock, due, period, window)
            .fires
    }

    /// Whether a timer has a setting, or a wait object a timeout.
    pub fn is_set(&self, object: ObjectId) -> bool
        ensures { result ≡ is_object_set object.0 self.now.sources.settings }
    {
        self.timers.is_set(object)
    }

    // Whether what is set now expires at once.
    pub(crate) fn expires_at_once(&self, due: Option<i64>) -> bool
        ensures { result ≡ expires_at_once_by self.now.sources.now due }
    {
        match due {
            None => false,
            Some(due) => moment_of(self.clock, due) <= self.clock,
        }
    }

    /// How many timers and timeouts are due at a moment. Walks those, if they aren't noted.
    pub fn count_due(&self, now: u64) -> u32
        ensures { result ≡ length (expired now self.now.sources.settings) }
    {
        self.timers.count_due(now)
    }

    /// The last moment to which the next expirations may be put off, and None where neither a timer nor a
    /// timeout is set. Walks what is due before it.
    pub fn next_deadline(&self) -> Option<u64>
        ensures { result ≡ next_deadline self.now.sources.settings }
    {
        self.timers.next_deadline()
    }

    /// How many timers are due at a moment, timeouts of armed waits left out. Walks what is due.
    pub fn count_expiring(&self, now: u64) -> u32
        ensures { result ≡ length (filter (λ s. not (is_armed s.object.0 self.now.sources.armings)) (expired now self.now.sources.settings)) }
    {
        self.timers
            .count_due_where(now, &|object: ObjectId| !self.kernels.is_armed(object))
    }

    /// Notes how many timers and timeouts are due at a moment, for `count_due`: until one is set or
    /// ends, that counts them for this moment at once.
    pub fn note_due(&mut self, now: u64)
        ensures { self.new ≡ self.old }
    {
        self.timers.note_due(now);
    }
}
