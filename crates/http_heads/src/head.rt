//! The head of a request, read from the front of some bytes.
ghost use Rattle.std.specs.Prelude.{◌≡◌, ◌≤◌, length, slice_range, take};
ghost use Rattle.std.specs.Str.{IsUtf8};
ghost use Rattle.httparse.specs.Grammar.{RequestHead};
ghost use Rattle.httparse.specs.Spans.{IsRequestAt, IsRequestWithin, RequestOverflows};
ghost use Rattle.http_heads.specs.Heads.{IsFrontRead, IsHeadRead, ReportsHead, body_length, fault_by, fault_of_headers, fault_of_length, lacks_length, method_of, unfinished_read};
ghost use Rattle.http_heads.specs.Requests.{IsRequestRead, with_body};
ghost use Rattle.http_heads.specs.Routes.{path_of, route_place, routes};

use crate::headers::{ContentLength, HeaderFacts, read_headers};
use crate::routes::{Method, Place, path_of, place_of};
use httparse::spans::{EMPTY_HEADER_SPAN, HeaderSpan, RequestSpans, Span, parse_request};
use httparse::{Error, Status};
use matchit::Router;
use register_words::Refusal;

/// A head must be complete within this many bytes. This project's profile.
pub const MAX_HEAD: usize = 8_192;

/// A head has at most this many headers. This project's profile.
const MAX_HEADERS: usize = 32;

/// A body has at most this many bytes. This project's profile.
const MAX_BODY: usize = 4_194_304;

// Room for the headers of any head, since a header has at least three bytes.
const ROOM: usize = 2_731;

/// What a head says that isn't refused.
#[derive(Clone, Copy, Debug, PartialEq, Eq)]
pub struct Head {
    pub method: Method,
    /// The position of the target.
    pub target: Span,
    /// The length of the head, and so the offset of the body.
    pub size: usize,
    /// The length of the body, at most 4,194,304.
    pub body: usize,
    /// Whether the connection is to be closed after the answer.
    pub last: bool,
}

/// What is read at the front of the bytes.
#[derive(Clone, Copy, Debug, PartialEq, Eq)]
pub enum HeadRead {
    /// The head isn't complete yet.
    More,
    /// The head is refused, and nothing after it is read.
    Bad(Refusal),
    Whole(Head),
}

/// Reads the head at the front of the bytes. It takes no memory.
pub fn read_head(router: &Router<Place>, bytes: &[u8]) -> HeadRead
    requires { router.now ≡ routes }
    ensures { IsHeadRead bytes.now result }
{
    let front = front_of(bytes);
    let mut spans = [EMPTY_HEADER_SPAN; MAX_HEADERS];
    match parse_request(front, &mut spans) {
        Ok(Status::Complete(found)) => head_found(router, front, &spans, found),
        Ok(Status::Partial) => unfinished_read(bytes.len()),
        Err(Error::TooManyHeaders) => overfull_front(front, bytes),
        Err(_) => HeadRead::Bad(Refusal::Head),
    }
}

/// Reads the request at the front of the bytes: `Whole` means that its body is there. It takes no memory.
pub fn read_whole(router: &Router<Place>, bytes: &[u8]) -> HeadRead
    requires { router.now ≡ routes }
    ensures { IsRequestRead bytes.now result }
{
    let head = read_head(router, bytes);
    with_body(bytes.len(), head)
}

/// What is read of this many bytes whose head says this.
pub fn with_body(size: usize, read: HeadRead) -> HeadRead
    ensures { result ≡ with_body size read }
{
    match read {
        HeadRead::More => HeadRead::More,
        HeadRead::Bad(fault) => HeadRead::Bad(fault),
        HeadRead::Whole(head) => if_there(size, head),
    }
}

fn if_there(size: usize, head: Head) -> HeadRead
    ensures { result ≡ with_body size (HeadRead.Whole head) }
{
    if head.size <= size && head.body <= size - head.size {
        HeadRead::Whole(head)
    } else {
        HeadRead::More
    }
}

// The bytes that must contain the complete head.
fn front_of(bytes: &[u8]) -> &[u8]
    ensures front { result.now ≡ take 8192 bytes.now }
    ensures few { length result.now ≤ 8192 }
{
    if bytes.len() <= MAX_HEAD {
        return bytes;
    }
    &bytes[..MAX_HEAD]
}

fn unfinished_read(size: usize) -> HeadRead
    ensures { result ≡ unfinished_read size }
{
    if size < MAX_HEAD {
        HeadRead::More
    } else {
        HeadRead::Bad(Refusal::HeadTooLong)
    }
}

// The reading of bytes with this front, whose head, if it has one, has too many headers.
fn overfull_front(front: &[u8], bytes: &[u8]) -> HeadRead
    requires few { length front.now ≤ 8192 }
    requires many { RequestOverflows 32 front.now }
    ensures { IsFrontRead front.now bytes.now result }
{
    let mut spans = [EMPTY_HEADER_SPAN; ROOM];
    match parse_request(front, &mut spans) {
        Ok(Status::Complete(_)) => HeadRead::Bad(Refusal::HeadTooLong),
        Ok(Status::Partial) => unfinished_read(bytes.len()),
        Err(_) => HeadRead::Bad(Refusal::Head),
    }
}

// The reading of a complete head that has room for its headers.
fn head_found(
    router: &Router<Place>,
    front: &[u8],
    spans: &[HeaderSpan],
    found: RequestSpans,
) -> HeadRead
    requires routes { router.now ≡ routes }
    requires room { length spans.now ≤ 32 }
    requires within { IsRequestWithin front.now spans.now found }
    requires text { IsUtf8 (slice_range front.now found.path.start found.path.end) }
    ensures { (head : RequestHead) → IsRequestAt front.now spans.now found head
        → ReportsHead front.now head result }
{
    let facts = read_headers(front, &spans[..found.headers]);
    let method = method_of(found.method.of(front));
    match fault_by(router, facts, method, found.path.of(front)) {
        Some(fault) => HeadRead::Bad(fault),
        None => HeadRead::Whole(Head {
            method,
            target: found.path,
            size: found.len,
            body: body_length(facts.body),
            last: found.version == 0 || facts.closes,
        }),
    }
}

// Why a head that has no more headers than allowed is refused.
fn fault_by(
    router: &Router<Place>,
    facts: HeaderFacts,
    method: Method,
    target: &[u8],
) -> Option<Refusal>
    requires routes { router.now ≡ routes }
    requires text { IsUtf8 target.now }
    ensures { result ≡ fault_by facts method (route_place (path_of target.now)) }
{
    match fault_of_headers(facts) {
        Some(fault) => Some(fault),
        None => {
            if lacks_length(router, facts.body, method, target) {
                Some(Refusal::LengthRequired)
            } else {
                None
            }
        }
    }
}

fn fault_of_headers(facts: HeaderFacts) -> Option<Refusal>
    ensures { result ≡ fault_of_headers facts }
{
    if facts.coded {
        Some(Refusal::LengthRequired)
    } else {
        fault_of_length(facts.body)
    }
}

fn fault_of_length(body: ContentLength) -> Option<Refusal>
    ensures { result ≡ fault_of_length body }
{
    match body {
        ContentLength::Bytes(number) if number > MAX_BODY => Some(Refusal::TooLong),
        ContentLength::Wrong => Some(Refusal::Head),
        _ => None,
    }
}

fn lacks_length(router: &Router<Place>, body: ContentLength, method: Method, target: &[u8]) -> bool
    requires routes { router.now ≡ routes }
    requires text { IsUtf8 target.now }
    ensures { result ≡ lacks_length method (route_place (path_of target.now)) body }
{
    match (method, body) {
        (Method::Put, ContentLength::Absent) => {
            matches!(
                place_of(router, path_of(text_of(target))),
                Some(Place::Upload)
            )
        }
        _ => false,
    }
}

/// Bytes as the text that they are.
pub fn text_of(bytes: &[u8]) -> &str
    requires { IsUtf8 bytes.now }
    ensures { result.now ≡ bytes.now }
{
    match str::from_utf8(bytes) {
        Ok(text) => text,
        Err(_) => unreachable!(),
    }
}

fn body_length(body: ContentLength) -> usize
    ensures { result ≡ body_length body }
{
    match body {
        ContentLength::Bytes(number) => number,
        ContentLength::Absent | ContentLength::Wrong => 0,
    }
}

fn method_of(name: &[u8]) -> Method
    ensures { result ≡ method_of name.now }
{
    if name == b"PUT".as_slice() {
        return Method::Put;
    }
    if name == b"GET".as_slice() {
        return Method::Get;
    }
    Method::Other
}
