// The device that gives the time.
ghost use Rattle.std.specs.Prelude.{ℤ, List, [], ◌∷◌, Option};
ghost use Rattle.lei_outside.specs.Clock.{Gave, IsClockMoment};

/// A device that gives the time.
pub trait Clock {
    /// The moments that were given, if the clock tells them.
    ghost given: { Self → Option (List ℤ) };

    /// The current moment, in seconds since 1970 in UTC. It may be earlier than the previous one.
    fn now(&mut self) -> i64
        ensures range { IsClockMoment result }
        ensures given { Gave (given self.old) (given self.new) (result ∷ []) };
}
