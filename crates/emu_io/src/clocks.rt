// What gives a moment, and a clock that stands still.
ghost use Rattle.std.specs.Prelude.{◌≡◌, ◌==◌, ℕ, Bool, IsTrue};
ghost use Rattle.emu_io.specs.Ends.{SourceEnd};

use crate::Source;
use std::marker::Model;

/// What gives a moment, in milliseconds. Nothing is promised of the order of moments.
pub trait Clock {
    /// Whether the clock may give this number.
    ghost may_give: { Self → ℕ → Bool };
    /// Whether it may give this number while a source stands there.
    ghost may_give_behind: { Self → SourceEnd → ℕ → Bool };

    /// A number that the clock may give.
    fn now(&self) -> u64
        ensures { IsTrue (may_give self.now result) };

    /// A number that the clock may give while this source stands where it does. Code that is proved for every clock and every
    /// source can have such a number only by reading the clock then: behind the last read of the source, and before the next.
    fn now_behind<S: Source>(&self, source: &S) -> u64
        ensures any { IsTrue (may_give self.now result) }
        ensures behind { IsTrue (may_give_behind self.now (S.end source.now) result) };
}

/// A clock that always gives the same moment. A contract sees that number.
#[derive(Drop)]
pub struct FixedClock {
    moment: u64,
}

impl Model for FixedClock {
    ghost use Rattle.std.specs.Prelude.{ℕ};

    ghost Value = { ℕ };

    ghost view = { λ c. c.moment };
}

impl FixedClock {
    /// A clock that always gives `now`, in milliseconds.
    pub fn new(now: u64) -> FixedClock
        ensures { result ≡ now }
    {
        FixedClock { moment: now }
    }
}

impl Clock for FixedClock {
    ghost may_give = { λ c n. n == c };

    ghost may_give_behind = { λ c end n. n == c };

    fn now(&self) -> u64 {
        self.moment
    }

    fn now_behind<S: Source>(&self, _source: &S) -> u64 {
        self.moment
    }
}
