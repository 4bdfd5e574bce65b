//! Replies as HTTP responses, sent to a link.
ghost use Rattle.std.specs.Prelude.{◌≡◌, ◌++◌, OnOk, IsErrOf};
ghost use Rattle.http_heads.specs.Responses.{response_head};
ghost use Rattle.lei_values.specs.Count.{Rose};
ghost use Rattle.register_words.specs.Refusals.{refusal_words};
ghost use Rattle.lei_outside.specs.Faults.{FailsLast};
ghost use Rattle.lei_outside.specs.Links.{link_told};
ghost use Rattle.request_loop.specs.Wires.{IsSent};
ghost use Rattle.issuer_http.specs.Responses.{content_kind, methods_in, response_bytes};

use http_heads::{Content, Response, put_head};
use lei_office::{Allowed, Kind, Refusal, Reply};
use lei_outside::{Link, SinkFault};
use lei_values::NoMemory;
use request_loop::{Wire, send_piece};
use std::alloc::Global;

/// A text with more bytes is sent from its place in memory. A text with at most this many is sent together with its
/// head.
const COPY: usize = 16_384;

/// Memory in which responses are assembled, one after another.
#[derive(Drop)]
pub struct Scratch {
    head: Vec<u8>,
    words: Vec<u8>,
}

impl Scratch {
    /// No memory is taken yet.
    pub fn new(alloc: Global) -> Self {
        Scratch {
            head: Vec::new(alloc),
            words: Vec::new(alloc),
        }
    }
}

/// Sends the response to a reply, which says whether the connection is closed after it.
pub fn send_response<L: Link>(
    link: &mut L,
    scratch: &mut Scratch,
    last: bool,
    reply: &Reply,
) -> Result<(), SinkFault>
    ensures sent { IsSent (L.written link.old) (L.written link.new) (response_bytes last reply.now) result }
    ensures kept { ¬ (IsErrOf result SinkFault.Failed) → L.write_faults link.new ≡ L.write_faults link.old }
    ensures failed { IsErrOf result SinkFault.Failed
        → Rose (L.write_faults link.old) (L.write_faults link.new) }
    ensures left { L.left link.new ≡ L.left link.old }
    ensures read_count { L.read_faults link.new ≡ L.read_faults link.old }
{
    send_reply(link, scratch, last, reply)
}

/// The same to any wire.
#[tactic(auto, unfolding(crate::specs::Responses::response_bytes))]
pub fn send_reply<L: Wire>(
    link: &mut L,
    scratch: &mut Scratch,
    last: bool,
    reply: &Reply,
) -> Result<(), SinkFault>
    ensures sent { IsSent (L.written link.old) (L.written link.new) (response_bytes last reply.now) result }
    ensures kept { ¬ (IsErrOf result SinkFault.Failed) → L.write_faults link.new ≡ L.write_faults link.old }
    ensures failed { IsErrOf result SinkFault.Failed →
        FailsLast (link_told L.left L.written) L.write_faults link.old link.new }
    ensures left { L.left link.new ≡ L.left link.old }
    ensures read_count { L.read_faults link.new ≡ L.read_faults link.old }
    ensures wire { L.lends_same link.old link.new }
{
    match reply {
        Reply::Text { code, kind, text } => {
            let response = Response {
                code: *code,
                content: content_of(*kind),
                size: text.len(),
                allow: None,
                closes: last,
            };
            send(link, &mut scratch.head, &response, text.as_slice())
        }
        Reply::Words(refusal) => send_refusal(link, scratch, last, *refusal),
    }
}

// Sends the response to a refusal.
#[tactic(auto, unfolding(crate::specs::Responses::response_bytes))]
fn send_refusal<L: Wire>(
    link: &mut L,
    scratch: &mut Scratch,
    last: bool,
    refusal: Refusal,
) -> Result<(), SinkFault>
    ensures sent { IsSent (L.written link.old) (L.written link.new)
        (response_bytes last (Reply.Words refusal)) result }
    ensures kept { ¬ (IsErrOf result SinkFault.Failed) → L.write_faults link.new ≡ L.write_faults link.old }
    ensures failed { IsErrOf result SinkFault.Failed →
        FailsLast (link_told L.left L.written) L.write_faults link.old link.new }
    ensures left { L.left link.new ≡ L.left link.old }
    ensures read_count { L.read_faults link.new ≡ L.read_faults link.old }
    ensures wire { L.lends_same link.old link.new }
{
    if write_words(&mut scratch.words, refusal).is_err() {
        return Err(SinkFault::NoMemory);
    }
    let response = Response {
        code: refusal.status_code(),
        content: Content::Plain,
        size: scratch.words.len(),
        allow: methods_in(refusal),
        closes: last,
    };
    send(link, &mut scratch.head, &response, &scratch.words)
}

// Sends the head of a response and its text.
fn send<L: Wire>(
    link: &mut L,
    head: &mut Vec<u8>,
    response: &Response,
    text: &[u8],
) -> Result<(), SinkFault>
    ensures sent { IsSent (L.written link.old) (L.written link.new)
        (response_head response.now ++ text.now) result }
    ensures kept { ¬ (IsErrOf result SinkFault.Failed) → L.write_faults link.new ≡ L.write_faults link.old }
    ensures failed { IsErrOf result SinkFault.Failed →
        FailsLast (link_told L.left L.written) L.write_faults link.old link.new }
    ensures left { L.left link.new ≡ L.left link.old }
    ensures read_count { L.read_faults link.new ≡ L.read_faults link.old }
    ensures wire { L.lends_same link.old link.new }
{
    if text.len() > COPY {
        if write_head(head, response, b"").is_err() {
            return Err(SinkFault::NoMemory);
        }
        send_both(link, head, text)
    } else {
        if write_head(head, response, text).is_err() {
            return Err(SinkFault::NoMemory);
        }
        send_piece(link, head)
    }
}

// Writes the head of a response and this much of its text.
fn write_head(out: &mut Vec<u8>, response: &Response, text: &[u8]) -> Result<(), NoMemory>
    ensures { OnOk result (out.new.items ≡ response_head response.now ++ text.now) }
{
    out.clear();
    put_head(out, response)?;
    out.extend_from_slice(text)?;
    Ok(())
}

fn send_both<L: Wire>(link: &mut L, first: &[u8], second: &[u8]) -> Result<(), SinkFault>
    ensures sent { IsSent (L.written link.old) (L.written link.new) (first.now ++ second.now) result }
    ensures kept { ¬ (IsErrOf result SinkFault.Failed) → L.write_faults link.new ≡ L.write_faults link.old }
    ensures failed { IsErrOf result SinkFault.Failed →
        FailsLast (link_told L.left L.written) L.write_faults link.old link.new }
    ensures left { L.left link.new ≡ L.left link.old }
    ensures read_count { L.read_faults link.new ≡ L.read_faults link.old }
    ensures wire { L.lends_same link.old link.new }
{
    match send_piece(link, first) {
        Ok(()) => send_piece(link, second),
        Err(fault) => Err(fault),
    }
}

// Writes a refusal in words.
fn write_words(out: &mut Vec<u8>, refusal: Refusal) -> Result<(), NoMemory>
    ensures { OnOk result (out.new.items ≡ refusal_words refusal) }
{
    out.clear();
    out.extend_from_slice(refusal.name().as_bytes())?;
    if let Some(number) = refusal.number() {
        let mut digits = itoa::Buffer::new();
        out.extend_from_slice(b" ")?;
        out.extend_from_slice(digits.format(number).as_bytes())?;
    }
    Ok(())
}

fn content_of(kind: Kind) -> Content
    ensures { result ≡ content_kind kind }
{
    match kind {
        Kind::Json => Content::Json,
        Kind::Csv => Content::Csv,
    }
}

fn methods_in(refusal: Refusal) -> Option<Allowed>
    ensures { result ≡ methods_in refusal }
{
    match refusal {
        Refusal::Method(allowed) => Some(allowed),
        _ => None,
    }
}
