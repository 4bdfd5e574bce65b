//! The trait of an answerer.
ghost use Rattle.std.specs.Prelude.{ℤ, List};
ghost use Rattle.request_loop.specs.Sessions.{Replies};

use lei_outside::Clock;

/// An answerer, which answers what is asked on a runtime of type `R`. A function that is generic over an answerer has
/// no bound of its own on `R`, so it returns if the answerer does.
pub trait Answers<R> {
    type Asked: Drop;

    type Reply: Drop;

    /// What may be asked.
    ghost takes: { Self.Asked → Type 0 };

    /// What was asked got this reply, at these moments, and changed the answerer from the first state to the second.
    ghost step: { Self → Self.Asked → List ℤ → Self.Reply → Self → Type 0 };

    /// Answers what is asked, by one step, at moments that the clock gives.
    fn answer<C: Clock>(&mut self, rt: &R, asked: &Self::Asked, clock: &mut C) -> Self::Reply
        requires { takes asked.now }
        ensures { Replies step self.old (C.given clock.old) asked.now result self.new (C.given clock.new) };
}
