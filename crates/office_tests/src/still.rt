//! The clock of these tests.
use crate::limits::MOMENT;
use lei_outside::Clock;

/// A clock that stands still. It tells nothing of its moments.
#[derive(Drop)]
pub struct Still;

impl Clock for Still {
    ghost use Rattle.std.specs.Prelude.{None};

    ghost given = { λ _. None };

    fn now(&mut self) -> i64 {
        MOMENT
    }
}
