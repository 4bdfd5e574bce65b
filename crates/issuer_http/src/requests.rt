//! The requests at the start of bytes.
ghost use Rattle.std.specs.Prelude.{◌≡◌, ◌≤◌, length, IfOk, OnErr};
ghost use Rattle.register_words.specs.Readings.{MayWantMemory};
ghost use Rattle.http_heads.specs.Requests.{IsRequestRead, asked_by_request, body_in, request_size};
ghost use Rattle.http_heads.specs.Routes.{routes};
ghost use Rattle.http_heads.specs.declared.head.HeadRead.{HeadRead};
ghost use Rattle.issuer_http.specs.Requests.{IsNextRequest, WantsBody, answer_of};
ghost use Rattle.issuer_http.specs.declared.requests.HttpRead.TheVariants.{NoMemory as OutOfMemory};

use http_heads::{Head, HeadRead, Place, asked_of, read_whole, router, text_of};
use lei_office::{Asked, Refusal};
use lei_values::NoMemory;
use matchit::Router;
use std::alloc::Global;

/// What is read at the front of bytes.
#[derive(Debug, PartialEq, Eq, Drop)]
pub enum HttpRead {
    /// No request is complete yet.
    More,
    /// A complete request: what it asks, or the refusal that is its reply, and the number of its bytes. `last` says
    /// whether the connection is to be closed after the answer.
    One {
        asked: Asked,
        used: usize,
        last: bool,
    },
    /// A head is refused. The refusal is answered, and nothing after it is read.
    Bad(Refusal),
    /// Memory to read the request ran out.
    NoMemory,
}

/// Reads the request at the front of the bytes.
pub fn next_request(alloc: Global, bytes: &[u8]) -> HttpRead
    ensures { ¬ (result ≡ OutOfMemory) → IsNextRequest bytes.now result }
{
    match router(alloc) {
        Ok(router) => next_head(alloc, &router, bytes),
        Err(NoMemory) => HttpRead::NoMemory,
    }
}

/// The same with a router that was made before. Only the body of an upload takes memory.
pub fn next_head(alloc: Global, router: &Router<Place>, bytes: &[u8]) -> HttpRead
    requires { router.now ≡ routes }
    ensures read { ¬ (result ≡ OutOfMemory) → IsNextRequest bytes.now result }
    ensures no_memory { result ≡ OutOfMemory → WantsBody bytes.now }
{
    match read_whole(router, bytes) {
        HeadRead::More => HttpRead::More,
        HeadRead::Bad(fault) => HttpRead::Bad(fault),
        HeadRead::Whole(head) => whole(RequestReader { alloc, router }, bytes, &head),
    }
}

// What is read of bytes with this complete request at their front.
fn whole(reader: RequestReader<'_>, bytes: &[u8], head: &Head) -> HttpRead
    requires routes { reader.router.now ≡ routes }
    requires read { IsRequestRead bytes.now (HeadRead.Whole head.now) }
    ensures read { ¬ (result ≡ OutOfMemory) → result ≡ answer_of bytes.now (HeadRead.Whole head.now) }
    ensures no_memory { result ≡ OutOfMemory → MayWantMemory (asked_by_request bytes.now head.now) }
{
    match asked_in(reader, bytes, head) {
        Ok(asked) => HttpRead::One {
            asked,
            used: head.size + head.body,
            last: head.last,
        },
        Err(NoMemory) => HttpRead::NoMemory,
    }
}

/// What requests are read with: memory for the bodies of uploads, and the router of all routes.
#[derive(Clone, Copy)]
pub struct RequestReader<'r> {
    pub alloc: Global,
    pub router: &'r Router<Place>,
}

/// What the complete request at the front of the bytes asks. The only error is lack of memory for the body of an
/// upload, which is copied once.
pub fn asked_in(reader: RequestReader<'_>, bytes: &[u8], head: &Head) -> Result<Asked, NoMemory>
    requires routes { reader.router.now ≡ routes }
    requires read { IsRequestRead bytes.now (HeadRead.Whole head.now) }
    ensures ok { IfOk result (λ asked. asked ≡ asked_by_request bytes.now head.now) }
    ensures err { OnErr result (MayWantMemory (asked_by_request bytes.now head.now)) }
{
    let target = text_of(head.target.of(bytes));
    let body = body_in(bytes, head);
    asked_of(reader.alloc, reader.router, head.method, target, body)
}

// The body of the complete request at the front of the bytes.
fn body_in<'a>(bytes: &'a [u8], head: &Head) -> &'a [u8]
    requires { request_size head.now ≤ length bytes.now }
    ensures { result.now ≡ body_in bytes.now head.now }
{
    let (_, rest) = bytes.split_at(head.size);
    let (body, _) = rest.split_at(head.body);
    body
}
