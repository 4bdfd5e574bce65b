//! The writing of replies.
ghost use Rattle.std.specs.Prelude.{◌≡◌, [], ◌∷◌, ◌++◌, decimal, IsErrOf};
ghost use Rattle.lei_outside.specs.Faults.{FailsLast};
ghost use Rattle.lei_outside.specs.Links.{link_told};
ghost use Rattle.request_loop.specs.Wires.{IsSent};
ghost use Rattle.line_reading.specs.WriteBuffer.{Puts};
ghost use Rattle.query_reading.specs.Refusals.{query_code, query_words};
ghost use Rattle.query_reading.specs.Replies.{query_bytes};

use crate::refusal::QueryRefusal;
use crate::reply::QueryReply;
use lei_outside::SinkFault;
use line_reading::{WriteBuffer, put_all};
use request_loop::Wire;

/// Writes a reply, in one write if it fits into a block.
pub fn send_query_reply<L: Wire>(
    buffer: &mut WriteBuffer,
    link: &mut L,
    reply: &QueryReply,
) -> Result<(), SinkFault>
    requires none { buffer.old ≡ [] }
    ensures sent { IsSent (L.written link.old) (L.written link.new) (query_bytes reply.now) result }
    ensures kept { ¬ (IsErrOf result SinkFault.Failed) → L.write_faults link.new ≡ L.write_faults link.old }
    ensures failed { IsErrOf result SinkFault.Failed →
        FailsLast (link_told L.left L.written) L.write_faults link.old link.new }
    ensures left { L.left link.new ≡ L.left link.old }
    ensures read_count { L.read_faults link.new ≡ L.read_faults link.old }
    ensures wire { L.lends_same link.old link.new }
{
    put_reply(buffer, link, reply)?;
    buffer.flush(link)
}

// Appends a reply: its status code, a space, its text or its refusal in words, and the end of the line.
#[tactic(auto, unfolding(crate::specs::Replies::query_bytes))]
fn put_reply<L: Wire>(
    buffer: &mut WriteBuffer,
    link: &mut L,
    reply: &QueryReply,
) -> Result<(), SinkFault>
    ensures puts { Puts (L.written link.old) (L.written link.new)
        (buffer.old ++ query_bytes reply.now) result buffer.new }
    ensures kept { ¬ (IsErrOf result SinkFault.Failed) → L.write_faults link.new ≡ L.write_faults link.old }
    ensures failed { IsErrOf result SinkFault.Failed →
        FailsLast (link_told L.left L.written) L.write_faults link.old link.new }
    ensures left { L.left link.new ≡ L.left link.old }
    ensures read_count { L.read_faults link.new ≡ L.read_faults link.old }
    ensures wire { L.lends_same link.old link.new }
{
    match reply {
        QueryReply::Text(text) => put_all(buffer, link, &[b"200 ", text.as_slice(), b"\n"]),
        QueryReply::File(text) => {
            let mut digits = itoa::Buffer::new();
            let digits = digits.format(text.len()).as_bytes();
            put_all(
                buffer,
                link,
                &[b"200 ", digits, b"\n", text.as_slice(), b"\n"],
            )
        }
        QueryReply::Refused(refusal) => put_refusal(buffer, link, *refusal),
    }
}

// Appends a refusal in words, with its status code before it.
fn put_refusal<L: Wire>(
    buffer: &mut WriteBuffer,
    link: &mut L,
    refusal: QueryRefusal,
) -> Result<(), SinkFault>
    ensures puts { Puts (L.written link.old) (L.written link.new)
        (buffer.old ++ (decimal (query_code refusal) ++ 32 ∷ (query_words refusal ++ 10 ∷ [])))
        result buffer.new }
    ensures kept { ¬ (IsErrOf result SinkFault.Failed) → L.write_faults link.new ≡ L.write_faults link.old }
    ensures failed { IsErrOf result SinkFault.Failed →
        FailsLast (link_told L.left L.written) L.write_faults link.old link.new }
    ensures left { L.left link.new ≡ L.left link.old }
    ensures read_count { L.read_faults link.new ≡ L.read_faults link.old }
    ensures wire { L.lends_same link.old link.new }
{
    let mut code = itoa::Buffer::new();
    let code = code.format(refusal.status_code()).as_bytes();
    let name = refusal.name().as_bytes();
    match refusal {
        QueryRefusal::WrongBase(publication, from) => {
            let mut held = itoa::Buffer::new();
            let held = held.format(publication).as_bytes();
            let mut base = itoa::Buffer::new();
            let base = base.format(from).as_bytes();
            put_all(
                buffer,
                link,
                &[code, b" ", name, b" ", held, b" ", base, b"\n"],
            )
        }
        _ => put_all(buffer, link, &[code, b" ", name, b"\n"]),
    }
}
