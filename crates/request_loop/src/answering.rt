//! How frames are answered.
ghost use Rattle.std.specs.Prelude.{◌≡◌, ℕ, List, IfSome, IsErrOf};
ghost use Rattle.lei_outside.specs.Faults.{FailsLast};
ghost use Rattle.lei_outside.specs.Links.{link_told};
ghost use Rattle.request_loop.specs.Serving.{AnswersFrame, AnswersLast, AnswersWant, ended_unsent, progress};
ghost use Rattle.request_loop.specs.declared.frames.Ended.{Ended};

use crate::answers::Answers;
use crate::frames::{Ended, Want};
use crate::framing::Framing;
use crate::wire::Wire;
use lei_outside::{Clock, SinkFault};

// Answers what is wanted, and writes the reply.
fn answer<R, A: Answers<R>, F: Framing<Asked = A::Asked, Reply = A::Reply>, L: Wire, C: Clock>(
    rt: &R,
    want: &Want<A::Asked, F::End>,
    who: &mut A,
    framing: &mut F,
    link: &mut L,
    clock: &mut C,
) -> Result<(), SinkFault>
    requires { A.takes want.now.asked }
    ensures answered { AnswersWant A.step F.rules
        (progress who.old (C.given clock.old) (L.written link.old)) want.now result
        (progress who.new (C.given clock.new) (L.written link.new)) }
    ensures kept { ¬ (IsErrOf result SinkFault.Failed) → L.write_faults link.new ≡ L.write_faults link.old }
    ensures failed { IsErrOf result SinkFault.Failed →
        FailsLast (link_told L.left L.written) L.write_faults link.old link.new }
    ensures left { L.left link.new ≡ L.left link.old }
    ensures read_count { L.read_faults link.new ≡ L.read_faults link.old }
    ensures wire { L.lends_same link.old link.new }
    ensures holds { (held bytes : List ℕ) → F.holds framing.old held bytes → F.holds framing.new held bytes }
    ensures waiting { F.waiting framing.new ≡ F.waiting framing.old }
{
    let reply = who.answer(rt, &want.asked, clock);
    framing.send(want, &reply, link)
}

/// Answers what a whole frame wants, if anything. If the session ends, the error says how.
pub fn answer_frame<
    R,
    A: Answers<R>,
    F: Framing<Asked = A::Asked, Reply = A::Reply>,
    L: Wire,
    C: Clock,
>(
    rt: &R,
    frame: Option<Want<A::Asked, F::End>>,
    who: &mut A,
    framing: &mut F,
    link: &mut L,
    clock: &mut C,
) -> Result<(), Ended<F::End>>
    requires { IfSome frame (λ want. A.takes want.asked) }
    ensures answered { AnswersFrame A.step F.rules
        (progress who.old (C.given clock.old) (L.written link.old)) frame result
        (progress who.new (C.given clock.new) (L.written link.new)) }
    ensures kept { ¬ (IsErrOf result Ended.WriteFault) → L.write_faults link.new ≡ L.write_faults link.old }
    ensures failed { IsErrOf result Ended.WriteFault →
        FailsLast (link_told L.left L.written) L.write_faults link.old link.new }
    ensures left { L.left link.new ≡ L.left link.old }
    ensures read_count { L.read_faults link.new ≡ L.read_faults link.old }
    ensures wire { L.lends_same link.old link.new }
    ensures holds { (held bytes : List ℕ) → F.holds framing.old held bytes → F.holds framing.new held bytes }
    ensures waiting { F.waiting framing.new ≡ F.waiting framing.old }
{
    let Some(want) = frame else {
        return Ok(());
    };
    match answer(rt, &want, who, framing, link, clock) {
        Ok(()) => match end_of(want) {
            None => Ok(()),
            Some(end) => Err(Ended::By(end)),
        },
        Err(fault) => Err(ended_unsent(fault)),
    }
}

/// Answers what is left when the input ends, if anything, and returns how serving ends.
pub fn answer_last<
    R,
    A: Answers<R>,
    F: Framing<Asked = A::Asked, Reply = A::Reply>,
    L: Wire,
    C: Clock,
>(
    rt: &R,
    frame: Option<Want<A::Asked, F::End>>,
    who: &mut A,
    framing: &mut F,
    link: &mut L,
    clock: &mut C,
) -> Ended<F::End>
    requires { IfSome frame (λ want. A.takes want.asked) }
    ensures answered { AnswersLast A.step F.rules
        (progress who.old (C.given clock.old) (L.written link.old)) frame result
        (progress who.new (C.given clock.new) (L.written link.new)) }
    ensures kept { ¬ (result ≡ Ended.WriteFault) → L.write_faults link.new ≡ L.write_faults link.old }
    ensures failed { result ≡ Ended.WriteFault
        → FailsLast (link_told L.left L.written) L.write_faults link.old link.new }
    ensures left { L.left link.new ≡ L.left link.old }
    ensures read_count { L.read_faults link.new ≡ L.read_faults link.old }
    ensures wire { L.lends_same link.old link.new }
{
    let Some(want) = frame else {
        return Ended::AtEnd;
    };
    match answer(rt, &want, who, framing, link, clock) {
        Ok(()) => Ended::AtEnd,
        Err(fault) => ended_unsent(fault),
    }
}

// How the session ends after the reply, if it does.
fn end_of<W: Drop, E: Drop>(want: Want<W, E>) -> Option<E>
    ensures { result ≡ want.ends }
{
    want.ends
}

/// How serving ends if a reply couldn't be written.
pub fn ended_unsent<E>(fault: SinkFault) -> Ended<E>
    ensures { result ≡ ended_unsent fault }
{
    match fault {
        SinkFault::Failed => Ended::WriteFault,
        SinkFault::NoMemory => Ended::NoMemory,
    }
}
