// A clock that gives moments from memory.
ghost use Rattle.std.specs.Prelude.{◌≡◌, [], ◌∷◌, All};
ghost use Rattle.lei_outside.specs.Clock.{Gave, IsClockMoment};
ghost use Rattle.memory_devices.specs.Clock.{ClockState, given_by, moment_after};
ghost use Rattle.lei_values.specs.Count.{count_up};

use lei_outside::Clock;
use lei_values::List;
use std::marker::Model;

/// A clock that gives the moments of a list in order, and after them the last one again, or 0 if the list is empty. It
/// counts its calls, and tells what it gave until the count reaches `u64::MAX`.
#[derive(Drop)]
pub struct ListClock {
    moments: List<i64>,
    calls: u64,
}

impl Model for ListClock {
    ghost use Rattle.std.specs.Prelude.{All};
    ghost use Rattle.lei_outside.specs.Clock.{IsClockMoment};
    ghost use Rattle.memory_devices.specs.Clock.{ClockState};

    ghost Value = { ClockState };

    ghost view = { λ c. record { moments = c.moments; calls = c.calls } };

    ghost invariant = { λ c. All IsClockMoment c.moments };
}

impl ListClock {
    /// A clock that gives these moments.
    pub fn new(moments: List<i64>) -> Self
        requires { All IsClockMoment moments }
        ensures { result ≡ record { moments = moments; calls = 0 } }
    {
        ListClock { moments, calls: 0 }
    }

    /// The number of calls so far. It stops at `u64::MAX`.
    pub fn calls(&self) -> u64
        ensures { result ≡ self.now.calls }
    {
        self.calls
    }
}

impl Clock for ListClock {
    ghost given = { λ c. given_by c };

    #[tactic(auto, using(crate::proofs::Clocks::gave_one))]
    fn now(&mut self) -> i64
        ensures range { IsClockMoment result }
        ensures given { Gave (given_by self.old) (given_by self.new) (result ∷ []) }
        ensures moment { result ≡ moment_after self.old.moments self.old.calls }
        ensures counts { self.new ≡ record self.old { calls = count_up self.old.calls } }
    {
        let moment = moment_after(self.moments.as_slice(), self.calls);
        self.calls = self.calls.saturating_add(1);
        moment
    }
}

// The moment that follows this many calls.
fn moment_after(moments: &[i64], calls: u64) -> i64
    ensures { result ≡ moment_after moments.now calls }
{
    match moments.get(calls as usize).or(moments.last()) {
        Some(moment) => *moment,
        None => 0,
    }
}
