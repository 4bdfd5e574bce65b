//! The machine's clock.
ghost use Rattle.std.specs.Prelude.{None, IfSome};
ghost use Rattle.lei_outside.specs.Clock.{IsClockMoment};

use lei_outside::Clock;
use std::rt::Clock as MachineClock;
use std::time::{SystemTime, UNIX_EPOCH};

// 9998-12-31T23:59:59Z.
const LAST: u64 = 253_370_764_799;

/// The clock of the machine, in whole seconds. If it can't be read, or is set before 1970 or after the range of clocks,
/// it gives its last moment again. If there is no last moment yet, it gives 0 in this case. It tells nothing of what it
/// gave.
#[derive(Drop)]
pub struct SystemClock<'a, R> {
    rt: &'a R,
    last: i64,

    ghost in_range: { IsClockMoment last },
}

impl<'a, R> SystemClock<'a, R> {
    /// A clock that gave no moment yet.
    pub fn new(rt: &'a R) -> Self {
        SystemClock { rt, last: 0 }
    }
}

impl<'a, R: MachineClock> Clock for SystemClock<'a, R> {
    ghost given = { λ _. None };

    fn now(&mut self) -> i64 {
        if let Some(moment) = machine_moment(self.rt) {
            self.last = moment;
        }
        self.last
    }
}

// The time of the machine's clock, if it is within the range of clocks.
fn machine_moment<R: MachineClock>(rt: &R) -> Option<i64>
    ensures { IfSome result IsClockMoment }
{
    let now = SystemTime::now(rt).ok()?;
    let seconds = now.duration_since(UNIX_EPOCH).ok()?.as_secs();
    if seconds <= LAST {
        Some(seconds as i64)
    } else {
        None
    }
}
