//! The requests of a connection, as the frames of its bytes.
ghost use Rattle.std.specs.Prelude.{◌≡◌, ◌⊎◌, [], None, nat_le};
ghost use Rattle.http_heads.specs.Heads.{IsHeadRead};
ghost use Rattle.http_heads.specs.Requests.{IsRequestRead, asked_by_request, request_size};
ghost use Rattle.http_heads.specs.Routes.{routes};
ghost use Rattle.http_heads.specs.declared.head.HeadRead.{HeadRead};
ghost use Rattle.register_words.specs.Readings.{ReadsAs};
ghost use Rattle.request_loop.specs.Frames.{ReadsFront};
ghost use Rattle.issuer_http.specs.Frames.{IsAwaited, end_if_last, holds_so, http_rules, refusal_want};

use crate::ended::HttpEnd;
use crate::requests::{RequestReader, asked_in};
use crate::responses::{Scratch, send_reply};
use http_heads::{Head, HeadRead, Place, read_head};
use lei_office::{Asked, Refusal, Reply};
use lei_outside::SinkFault;
use lei_values::NoMemory;
use matchit::Router;
use request_loop::{Framing, Front, Want, Wire};
use std::alloc::Global;

/// Reads the requests of a connection, and writes the responses. It keeps the head of a request whose body isn't
/// complete yet.
#[derive(Drop)]
pub struct HttpFraming<'r> {
    reader: RequestReader<'r>,
    scratch: Scratch,
    awaited: Option<Head>,
    ghost knows_routes: { reader.router.now ≡ routes },
}

impl<'r> HttpFraming<'r> {
    /// No head has been read yet.
    pub fn new(alloc: Global, router: &'r Router<Place>) -> Self
        requires { router.now ≡ routes }
        ensures { result.awaited ≡ None }
    {
        HttpFraming {
            reader: RequestReader { alloc, router },
            scratch: Scratch::new(alloc),
            awaited: None,
        }
    }

    // What the head at the front of the bytes says.
    fn head_of(&self, held: &[u8]) -> HeadRead
        requires { IsAwaited held.now self.now.awaited }
        ensures { IsHeadRead held.now result }
    {
        match &self.awaited {
            Some(head) => HeadRead::Whole(*head),
            None => read_head(self.reader.router, held),
        }
    }

    // What the request at the front of the bytes wants, if its head says this. It waits for its body.
    fn request_of(&mut self, held: &[u8], head: Head) -> Front<Asked, HttpEnd>
        requires { IsHeadRead held.now (HeadRead.Whole head) }
        ensures { ReadsFront http_rules (holds_so self.new.awaited) [] held.now held.now result }
    {
        if !is_there(&head, held.len()) {
            self.awaited = Some(head);
            return Front::More(0);
        }
        self.awaited = None;
        let asked = read_or_refused(self.reader, held, &head);
        let ends = end_of(head.last);
        Front::Whole(Some(Want { asked, ends }), head.size + head.body)
    }
}

// Whether this many bytes contain the complete request.
fn is_there(head: &Head, size: usize) -> bool
    ensures { result ≡ nat_le (request_size head.now) size }
{
    head.size <= size && head.body <= size - head.size
}

// What the complete request at the front of the bytes asks. Its body is copied once. If memory for that runs out, the
// refusal.
fn read_or_refused(reader: RequestReader<'_>, bytes: &[u8], head: &Head) -> Asked
    requires routes { reader.router.now ≡ routes }
    requires read { IsRequestRead bytes.now (HeadRead.Whole head.now) }
    ensures { (result ≡ asked_by_request bytes.now head.now)
        ⊎ ReadsAs (asked_by_request bytes.now head.now) result }
{
    match asked_in(reader, bytes, head) {
        Ok(asked) => asked,
        Err(NoMemory) => Asked::Refuse(Refusal::NoMemory),
    }
}

fn end_of(last: bool) -> Option<HttpEnd>
    ensures { result ≡ end_if_last last }
{
    if last { Some(HttpEnd::Closed) } else { None }
}

fn refusal_want(fault: Refusal) -> Want<Asked, HttpEnd>
    ensures { result ≡ refusal_want fault }
{
    Want {
        asked: Asked::Refuse(fault),
        ends: Some(HttpEnd::BadHead),
    }
}

impl<'r> Framing for HttpFraming<'r> {
    ghost use Rattle.std.specs.Prelude.{[]};
    ghost use Rattle.issuer_http.specs.Frames.{holds_so, http_rules};
    ghost use Rattle.issuer_http.specs.FramesStay.{frame_more};

    type Asked = Asked;

    type Reply = Reply;

    type End = HttpEnd;

    ghost rules = { http_rules };

    ghost holds = { λ framing. holds_so framing.awaited };

    ghost waiting = { λ _. [] };

    fn front(&mut self, held: &[u8]) -> Front<Asked, HttpEnd> {
        match self.head_of(held) {
            HeadRead::More => Front::More(0),
            HeadRead::Bad(fault) => Front::Whole(Some(refusal_want(fault)), 0),
            HeadRead::Whole(head) => self.request_of(held, head),
        }
    }

    fn last(&mut self, _held: &[u8]) -> Option<Want<Asked, HttpEnd>> {
        None
    }

    fn send<L: Wire>(
        &mut self,
        want: &Want<Asked, HttpEnd>,
        reply: &Reply,
        link: &mut L,
    ) -> Result<(), SinkFault> {
        send_reply(link, &mut self.scratch, want.ends.is_some(), reply)
    }

    fn send_refused<L: Wire>(&mut self, _link: &mut L) -> Result<(), SinkFault> {
        Ok(())
    }

    ghost whole_on = { frame_more };
}
