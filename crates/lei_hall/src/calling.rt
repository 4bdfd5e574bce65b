//! One caller of a hall, as the one who answers in a session.
ghost use Rattle.std.specs.Prelude.{◌≡◌};
ghost use Rattle.register_words.specs.Requests.{HasNumberInRange};
ghost use Rattle.lei_hall.specs.Turns.{Turn};

use crate::hall::{Hall, Pass};
use lei_keeper::Keeper;
use lei_office::{Asked, Reply, Request, moment_of};
use lei_outside::{Clock, Gate};
use lei_shapes::Moment;
use request_loop::Answers;
use std::marker::Model;
use std::sync::Wait;
use std::thread::Threads;

/// A caller with its pass, who puts requests to the office of a hall. Contracts see the caller as its pass.
#[derive(Drop)]
pub struct Caller<'h, K: Keeper, G> {
    hall: &'h Hall<K>,
    gate: &'h G,
    // removed only during a turn
    pass: Option<Pass>,
}

impl<'h, K: Keeper, G> Model for Caller<'h, K, G> {
    ghost use Rattle.std.specs.Prelude.{◌≡◌, IsSomeAnd};
    ghost use Rattle.lei_hall.specs.Calling.{pass_in};
    ghost use Rattle.lei_hall.specs.Passes.{HallPass};

    ghost Value = { HallPass };

    ghost view = { λ c. pass_in c.hall.now.table c.pass };

    ghost invariant = { λ c. IsSomeAnd c.pass (λ p. p.table ≡ c.hall.now.table) };
}

impl<'h, K: Keeper, G: Gate> Caller<'h, K, G> {
    /// A caller with this pass. Uploads pass this gate before their turns.
    pub fn new(hall: &'h Hall<K>, gate: &'h G, pass: Pass) -> Self
        requires { pass.table ≡ hall.now.table }
        ensures { result ≡ pass }
    {
        Caller {
            hall,
            gate,
            pass: Some(pass),
        }
    }

    /// The pass.
    pub fn into_pass(self) -> Pass
        ensures { result ≡ self.entry }
    {
        match self.pass {
            Some(pass) => pass,
            None => unreachable!(),
        }
    }

    // Puts a request to the office, in one turn.
    fn put<R: Threads + Wait + Sync>(&mut self, rt: &R, request: &Request, moment: Moment) -> Reply
        requires { HasNumberInRange request.now }
        ensures { Turn self.old request.now moment result self.new }
    {
        let Some(pass) = self.pass.take() else {
            unreachable!()
        };
        let (pass, reply) = self.hall.put(rt, pass, request, moment, self.gate);
        self.pass = Some(pass);
        reply
    }
}

impl<'h, R: Threads + Wait + Sync, K: Keeper, G: Gate> Answers<R> for Caller<'h, K, G> {
    ghost use denote.Param.Send.{IsSync};
    ghost use Rattle.lei_office.specs.Answering.{MayBeAsked};
    ghost use Rattle.lei_hall.specs.Calling.{AskTurn};

    type Asked = Asked;

    type Reply = Reply;

    // an `impl` doesn't know that `R` is `Sync`, so the code that asks has to say it
    ghost takes = { λ asked. MayBeAsked asked × IsSync R.row };

    ghost step = { AskTurn };

    fn answer<C: Clock>(&mut self, rt: &R, asked: &Asked, clock: &mut C) -> Reply {
        match asked {
            Asked::Ask(request) => self.put(rt, request, moment_of(clock)),
            Asked::Refuse(refusal) => Reply::Words(*refusal),
        }
    }
}
