//! An office as the answerer of a session.
ghost use Rattle.std.specs.Prelude.{[], ◌∷◌};
ghost use Rattle.lei_outside.specs.Clock.{Gave, IsClockMoment};

use crate::Office;
use lei_keeper::Keeper;
use lei_outside::Clock;
use lei_shapes::Moment;
use register_words::{Asked, Reply};
use request_loop::Answers;
use std::thread::Threads;

impl<R: Threads + Sync, K: Keeper> Answers<R> for Office<K> {
    ghost use denote.Param.Send.{IsSync};
    ghost use Rattle.lei_office.specs.Answering.{MayBeAsked, StepsBy, with_count};

    type Asked = Asked;

    type Reply = Reply;

    // inside an `impl` it isn't known that `R` is `Sync`, so the caller has to say it
    ghost takes = { λ asked. MayBeAsked asked × IsSync R.row };

    ghost step = { StepsBy (with_count K.tables K.faults) };

    fn answer<C: Clock>(&mut self, rt: &R, asked: &Asked, clock: &mut C) -> Reply {
        match asked {
            Asked::Ask(request) => self.answer(rt, request, moment_of(clock)),
            Asked::Refuse(refusal) => Reply::Words(*refusal),
        }
    }
}

/// The moment that the clock gives.
pub fn moment_of<C: Clock>(clock: &mut C) -> Moment
    ensures range { IsClockMoment result }
    ensures given { Gave (C.given clock.old) (C.given clock.new) (result ∷ []) }
{
    match Moment::of(clock.now()) {
        Some(moment) => moment,
        None => unreachable!(),
    }
}
