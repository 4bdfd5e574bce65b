//! The loop that serves a session.
ghost use Rattle.std.specs.Prelude.{◌≡◌, ◌<◌, ℕ, List, [], Some};
ghost use Rattle.lei_values.specs.Count.{Rose};
ghost use Rattle.lei_outside.specs.Links.{link_told};
ghost use Rattle.request_loop.specs.Devices.{FailsIf};
ghost use Rattle.request_loop.specs.Frames.{Fits};
ghost use Rattle.request_loop.specs.Serving.{Completes, Serves, ended_unread, progress};
ghost use Rattle.request_loop.specs.declared.frames.Ended.{Ended};

use crate::answering::{answer_frame, answer_last, ended_unsent};
use crate::answers::Answers;
use crate::frames::{Ended, Front};
use crate::framing::Framing;
use crate::read_buffer::{ReadBuffer, ReadFault};
use crate::wire::Wire;
use lei_outside::Clock;
use std::alloc::Global;

/// How the input of a session is taken: its memory and its limit.
#[derive(Clone, Copy)]
pub struct Intake {
    /// Where the memory for the input comes from.
    pub alloc: Global,
    /// The number of bytes at which the session ends.
    pub most: usize,
}

/// Serves one session: reads frames from the wire, puts what each asks to the answerer, and writes the reply before the
/// next is asked. Only the replies to frames that the framing itself refuses are written together.
pub fn serve<R, A: Answers<R>, F: Framing<Asked = A::Asked, Reply = A::Reply>, L: Wire, C: Clock>(
    rt: &R,
    intake: Intake,
    who: &mut A,
    framing: &mut F,
    link: &mut L,
    clock: &mut C,
) -> Ended<F::End>
    requires some { 0 < intake.most }
    requires holds { F.holds framing.old [] [] }
    requires none_waits { F.waiting framing.old ≡ [] }
    requires fits { Fits A.takes A.step F.rules }
    ensures serves { Serves A.step F.rules intake.most
        (progress who.old (C.given clock.old) (L.written link.old)) (L.left link.old)
        (progress who.new (C.given clock.new) (L.written link.new)) (L.left link.new) result }
    ensures reads { FailsIf (result ≡ Ended.ReadFault) (link_told L.left L.written)
        L.read_faults link.old link.new }
    ensures writes { FailsIf (result ≡ Ended.WriteFault) (link_told L.left L.written)
        L.write_faults link.old link.new }
    ensures wire { L.lends_same link.old link.new }
    ensures complete { (bytes : List ℕ) → L.left link.old ≡ Some bytes → ¬ (result ≡ Ended.NoMemory)
        → ¬ (Rose (L.read_faults link.old) (L.read_faults link.new))
        → ¬ (Rose (L.write_faults link.old) (L.write_faults link.new))
        → Completes A.step F.rules intake.most result
        (progress who.old (C.given clock.old) (L.written link.old)) bytes
        (progress who.new (C.given clock.new) (L.written link.new)) }
{
    serve_on(rt, intake, who, framing, link, clock)
}

// The same, without the clause about a wire that doesn't fail.
fn serve_on<R, A: Answers<R>, F: Framing<Asked = A::Asked, Reply = A::Reply>, L: Wire, C: Clock>(
    rt: &R,
    intake: Intake,
    who: &mut A,
    framing: &mut F,
    link: &mut L,
    clock: &mut C,
) -> Ended<F::End>
    requires some { 0 < intake.most }
    requires holds { F.holds framing.old [] [] }
    requires none_waits { F.waiting framing.old ≡ [] }
    requires fits { Fits A.takes A.step F.rules }
    ensures serves { Serves A.step F.rules intake.most
        (progress who.old (C.given clock.old) (L.written link.old)) (L.left link.old)
        (progress who.new (C.given clock.new) (L.written link.new)) (L.left link.new) result }
    ensures reads { FailsIf (result ≡ Ended.ReadFault) (link_told L.left L.written)
        L.read_faults link.old link.new }
    ensures writes { FailsIf (result ≡ Ended.WriteFault) (link_told L.left L.written)
        L.write_faults link.old link.new }
    ensures wire { L.lends_same link.old link.new }
{
    let mut buffer = ReadBuffer::new(intake.alloc);
    let mut taken = 0;
    loop {
        match framing.front(buffer.bytes()) {
            Front::More(count) => {
                buffer.use_up(count);
                let count = match buffer.read_from(link, intake.most - taken) {
                    Ok(count) => count,
                    Err(fault) => return ended_unread(fault),
                };
                if count == 0 {
                    let frame = framing.last(buffer.bytes());
                    return answer_last(rt, frame, who, framing, link, clock);
                }
                taken += count;
                if taken == intake.most {
                    return Ended::InputLimit;
                }
            }
            Front::Refused(count) => {
                match framing.send_refused(link) {
                    Ok(()) => buffer.use_up(count),
                    Err(fault) => return ended_unsent(fault),
                }
            }
            Front::Whole(frame, count) => {
                match answer_frame(rt, frame, who, framing, link, clock) {
                    Ok(()) => buffer.use_up(count),
                    Err(ended) => return ended,
                }
            }
        }
    }
}

// How serving ends if nothing could be read.
fn ended_unread<E>(fault: ReadFault) -> Ended<E>
    ensures { result ≡ ended_unread fault }
{
    match fault {
        ReadFault::Failed => Ended::ReadFault,
        ReadFault::NoMemory => Ended::NoMemory,
    }
}
