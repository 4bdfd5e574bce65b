//! Writes replies.
ghost use Rattle.std.specs.Prelude.{◌≡◌, [], ◌++◌, flat_map, false, IfSome, IsErrOf};
ghost use Rattle.lei_outside.specs.Faults.{FailsLast};
ghost use Rattle.lei_outside.specs.Links.{link_told};
ghost use Rattle.register_words.specs.declared.reply.Reply.{Reply};
ghost use Rattle.request_loop.specs.Wires.{IsSent};
ghost use Rattle.line_reading.specs.WriteBuffer.{Puts};
ghost use Rattle.line_reading.specs.Replies.{asks_file, reply_bytes, wants_file};

use crate::write_buffer::WriteBuffer;
use lei_outside::SinkFault;
use register_words::{Asked, Refusal, Reply, Request};
use request_loop::Wire;

/// The whole reply that refuses a line's words. There is none for any other refusal.
#[tactic(auto, unfolding(crate::specs::Replies::reply_bytes))]
pub fn refusal_line(refusal: Refusal) -> Option<&'static [u8]>
    ensures { IfSome result (λ line. line.now ≡ reply_bytes (Reply.Words refusal) false) }
{
    match refusal {
        Refusal::TooLong => Some(b"413 TOO_LONG\n"),
        Refusal::NoRoute => Some(b"404 NO_ROUTE\n"),
        Refusal::Path => Some(b"400 PATH\n"),
        _ => None,
    }
}

/// Writes a reply, in one piece if it fits in a block. If its text is a file, the number of the text's bytes follows
/// the status code, and the text starts in the next line.
pub fn send_reply<L: Wire>(
    buffer: &mut WriteBuffer,
    link: &mut L,
    reply: &Reply,
    is_file: bool,
) -> Result<(), SinkFault>
    requires none { buffer.old ≡ [] }
    ensures sent { IsSent (L.written link.old) (L.written link.new) (reply_bytes reply.now is_file) result }
    ensures kept { ¬ (IsErrOf result SinkFault.Failed) → L.write_faults link.new ≡ L.write_faults link.old }
    ensures failed { IsErrOf result SinkFault.Failed →
        FailsLast (link_told L.left L.written) L.write_faults link.old link.new }
    ensures left { L.left link.new ≡ L.left link.old }
    ensures read_count { L.read_faults link.new ≡ L.read_faults link.old }
    ensures wire { L.lends_same link.old link.new }
{
    put_reply(buffer, link, reply, is_file)?;
    buffer.flush(link)
}

/// Whether what is asked is a file.
pub fn asks_file(asked: &Asked) -> bool
    ensures { result ≡ asks_file asked.now }
{
    match asked {
        Asked::Ask(request) => wants_file(request),
        Asked::Refuse(_) => false,
    }
}

// Whether a request is one for a file.
fn wants_file(request: &Request) -> bool
    ensures { result ≡ wants_file request.now }
{
    matches!(request, Request::Copy(_, _) | Request::Delta(_, _, _))
}

// Puts a reply: its status code, a space, its text and the end of the line. If its text is a file, the number of the
// text's bytes and the end of a line come before the text.
#[tactic(auto, unfolding(crate::specs::Replies::reply_bytes))]
fn put_reply<L: Wire>(
    buffer: &mut WriteBuffer,
    link: &mut L,
    reply: &Reply,
    is_file: bool,
) -> Result<(), SinkFault>
    ensures puts { Puts (L.written link.old) (L.written link.new)
        (buffer.old ++ reply_bytes reply.now is_file) result buffer.new }
    ensures kept { ¬ (IsErrOf result SinkFault.Failed) → L.write_faults link.new ≡ L.write_faults link.old }
    ensures failed { IsErrOf result SinkFault.Failed →
        FailsLast (link_told L.left L.written) L.write_faults link.old link.new }
    ensures left { L.left link.new ≡ L.left link.old }
    ensures read_count { L.read_faults link.new ≡ L.read_faults link.old }
    ensures wire { L.lends_same link.old link.new }
{
    let mut code = itoa::Buffer::new();
    let code = code.format(reply.status_code()).as_bytes();
    match reply {
        Reply::Text { text, .. } if is_file => {
            let mut digits = itoa::Buffer::new();
            let digits = digits.format(text.len()).as_bytes();
            let pieces = &[code, b" ", digits, b"\n", text.as_slice(), b"\n"];
            put_all(buffer, link, pieces)
        }
        Reply::Text { text, .. } => put_all(buffer, link, &[code, b" ", text.as_slice(), b"\n"]),
        Reply::Words(refusal) => match refusal.number() {
            None => put_all(
                buffer,
                link,
                &[code, b" ", refusal.name().as_bytes(), b"\n"],
            ),
            Some(number) => {
                let mut digits = itoa::Buffer::new();
                let digits = digits.format(number).as_bytes();
                let name = refusal.name().as_bytes();
                put_all(buffer, link, &[code, b" ", name, b" ", digits, b"\n"])
            }
        },
    }
}

/// Appends pieces to what waits, one after the other, and sends what has no room.
pub fn put_all<L: Wire>(
    buffer: &mut WriteBuffer,
    link: &mut L,
    pieces: &[&[u8]],
) -> Result<(), SinkFault>
    ensures puts { Puts (L.written link.old) (L.written link.new)
        (buffer.old ++ flat_map (λ piece. piece.now) pieces.now) result buffer.new }
    ensures kept { ¬ (IsErrOf result SinkFault.Failed) → L.write_faults link.new ≡ L.write_faults link.old }
    ensures failed { IsErrOf result SinkFault.Failed →
        FailsLast (link_told L.left L.written) L.write_faults link.old link.new }
    ensures left { L.left link.new ≡ L.left link.old }
    ensures read_count { L.read_faults link.new ≡ L.read_faults link.old }
    ensures wire { L.lends_same link.old link.new }
{
    for piece in pieces {
        buffer.put(link, piece)?;
    }
    Ok(())
}
