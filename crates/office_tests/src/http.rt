// Connections over HTTP: what is sent, what comes back, and how they end.
ghost use Rattle.std.specs.Prelude.{◌≤◌};

use crate::still::Still;
use issuer_http::{Ended, serve_alone, serve_connection};
use lei_hall::{Caller, Hall};
use lei_office::{Limits, Office};
use lei_outside::OpenGate;
use lei_values::{Bytes, List, NoMemory};
use memory_devices::{ByteLink, ByteSink, ByteSource, SureKeeper};
use std::alloc::Global;
use std::mem::forget;
use std::sync::Wait;
use std::test::Fail;
use std::thread::Threads;

/// Each connection, separated by `^`: its title, how it ends, what is sent and what comes back, separated by `~`. A
/// line ends in CR and LF. `@` is the status of an empty register, `$` a text of 8,192 letters, and `%` are 33 headers.
/// `&` is a lone LF and `|` a tab.
pub const CONNECTIONS: &str = r#"a status and a path without a route~Closed~GET /v1/status HTTP/1.1

GET /nothing HTTP/1.1

~HTTP/1.1 200 OK
content-type: application/json
content-length: 101

@HTTP/1.1 404 Not Found
content-type: text/plain
content-length: 8

NO_ROUTE^a header that is none, and nothing behind it~BadHead~GET /v1/status HTTP/1.1
bad header

GET /v1/status HTTP/1.1

~HTTP/1.1 400 Bad Request
content-type: text/plain
content-length: 4
connection: close

HEAD^a head of more than 8,192 bytes~BadHead~GET /$ HTTP/1.1

~HTTP/1.1 431 Request Header Fields Too Large
content-type: text/plain
content-length: 13
connection: close

HEAD_TOO_LONG^33 headers~BadHead~GET /v1/status HTTP/1.1
%
~HTTP/1.1 431 Request Header Fields Too Large
content-type: text/plain
content-length: 13
connection: close

HEAD_TOO_LONG^33 headers, and a coded body~BadHead~GET /v1/status HTTP/1.1
%Transfer-Encoding: chunked

~HTTP/1.1 431 Request Header Fields Too Large
content-type: text/plain
content-length: 13
connection: close

HEAD_TOO_LONG^a coded body~BadHead~GET /v1/status HTTP/1.1
Transfer-Encoding: chunked

~HTTP/1.1 411 Length Required
content-type: text/plain
content-length: 15
connection: close

LENGTH_REQUIRED^a coded body, and a length that is none~BadHead~GET /v1/status HTTP/1.1
Content-Length: x
transfer-encoding: gzip

~HTTP/1.1 411 Length Required
content-type: text/plain
content-length: 15
connection: close

LENGTH_REQUIRED^a length that is none~BadHead~GET /v1/status HTTP/1.1
Content-Length: 1x

~HTTP/1.1 400 Bad Request
content-type: text/plain
content-length: 4
connection: close

HEAD^a length of eleven digits~BadHead~GET /v1/status HTTP/1.1
Content-Length: 00000000001

~HTTP/1.1 400 Bad Request
content-type: text/plain
content-length: 4
connection: close

HEAD^two lengths that differ, one of them too great~BadHead~GET /v1/status HTTP/1.1
Content-Length: 4194305
content-length: 1

~HTTP/1.1 400 Bad Request
content-type: text/plain
content-length: 4
connection: close

HEAD^two lengths that differ, the smaller one first~BadHead~GET /v1/status HTTP/1.1
Content-Length: 1
Content-Length: 2

~HTTP/1.1 400 Bad Request
content-type: text/plain
content-length: 4
connection: close

HEAD^two lengths that are alike~Closed~GET /v1/status HTTP/1.1
Content-Length: 5
Content-Length: 05

helloGET /v1/status HTTP/1.1

~HTTP/1.1 200 OK
content-type: application/json
content-length: 101

@HTTP/1.1 200 OK
content-type: application/json
content-length: 101

@^a length that is too great~BadHead~GET /v1/status HTTP/1.1
Content-Length: 4194305

~HTTP/1.1 413 Payload Too Large
content-type: text/plain
content-length: 8
connection: close

TOO_LONG^a length that is too great, at no route~BadHead~PUT /nothing HTTP/1.1
Content-Length: 9999999999

~HTTP/1.1 413 Payload Too Large
content-type: text/plain
content-length: 8
connection: close

TOO_LONG^a body at no route~Closed~PUT /nothing HTTP/1.1
Content-Length: 5

helloGET /v1/status HTTP/1.1

~HTTP/1.1 404 Not Found
content-type: text/plain
content-length: 8

NO_ROUTEHTTP/1.1 200 OK
content-type: application/json
content-length: 101

@^another method at no route~Closed~POST /v1/ HTTP/1.1

~HTTP/1.1 404 Not Found
content-type: text/plain
content-length: 8

NO_ROUTE^other methods than those of the routes~Closed~HEAD /v1/status HTTP/1.1

GET /v1/issuers/506700GE1G29325QX363 HTTP/1.1

POST /v1/issuers/506700GE1G29325QX363/uploads/1 HTTP/1.1

GET /v1/publications/x HTTP/1.1

~HTTP/1.1 405 Method Not Allowed
content-type: text/plain
content-length: 6
allow: GET

METHODHTTP/1.1 405 Method Not Allowed
content-type: text/plain
content-length: 6
allow: PUT

METHODHTTP/1.1 405 Method Not Allowed
content-type: text/plain
content-length: 6
allow: GET, PUT

METHODHTTP/1.1 405 Method Not Allowed
content-type: text/plain
content-length: 6
allow: PUT

METHOD^an upload without a length~BadHead~PUT /v1/issuers/506700GE1G29325QX363/uploads/1 HTTP/1.1

GET /v1/status HTTP/1.1

~HTTP/1.1 411 Length Required
content-type: text/plain
content-length: 15
connection: close

LENGTH_REQUIRED^an upload of no number and no length~BadHead~PUT /v1/issuers/506700GE1G29325QX363/uploads/01 HTTP/1.1

~HTTP/1.1 411 Length Required
content-type: text/plain
content-length: 15
connection: close

LENGTH_REQUIRED^words of a path that are none~Closed~GET /v1/records/195 HTTP/1.1

PUT /v1/issuers/506700GE1G29325QX363/uploads/01 HTTP/1.1
Content-Length: 2

{}GET /v1/copies/lei/xml HTTP/1.1

GET /v1/deltas/last-year/lei/csv HTTP/1.1

PUT /v1/publications/1000001 HTTP/1.1

~HTTP/1.1 400 Bad Request
content-type: text/plain
content-length: 4

PATHHTTP/1.1 400 Bad Request
content-type: text/plain
content-length: 4

PATHHTTP/1.1 400 Bad Request
content-type: text/plain
content-length: 4

PATHHTTP/1.1 400 Bad Request
content-type: text/plain
content-length: 4

PATHHTTP/1.1 400 Bad Request
content-type: text/plain
content-length: 4

PATH^a request that asks to close, and one behind it~Closed~GET /v1/status HTTP/1.1
Connection: keep-alive ,|CLOSE 

GET /v1/status HTTP/1.1

~HTTP/1.1 200 OK
content-type: application/json
content-length: 101
connection: close

@^a connection that isn't to be closed~Closed~GET /v1/status HTTP/1.1
Connection: closed, keep-alive

GET /v1/status HTTP/1.1

~HTTP/1.1 200 OK
content-type: application/json
content-length: 101

@HTTP/1.1 200 OK
content-type: application/json
content-length: 101

@^a request of HTTP/1.0, and one behind it~Closed~GET /v1/status HTTP/1.0

GET /v1/status HTTP/1.1

~HTTP/1.1 200 OK
content-type: application/json
content-length: 101
connection: close

@^a refusal that closes~Closed~GET /nothing HTTP/1.1
connection: close

GET /v1/status HTTP/1.1

~HTTP/1.1 404 Not Found
content-type: text/plain
content-length: 8
connection: close

NO_ROUTE^a query~Closed~GET /v1/status?entries=1 HTTP/1.1

~HTTP/1.1 200 OK
content-type: application/json
content-length: 101

@^an expectation~Closed~GET /v1/status HTTP/1.1
Expect: 100-continue

~HTTP/1.1 200 OK
content-type: application/json
content-length: 101

@^an input that ends in a body~Closed~PUT /v1/issuers/506700GE1G29325QX363 HTTP/1.1
Content-Length: 5

hell~^an input that ends in a head~Closed~GET /v1/status HTTP/1.1

GET /v1/status HTTP/1.1
Host: a~HTTP/1.1 200 OK
content-type: application/json
content-length: 101

@^an input without a byte~Closed~~^uploads and a publication~Closed~PUT /v1/issuers/506700GE1G29325QX363 HTTP/1.1

PUT /v1/issuers/506700GE1G29325QX363/uploads/1 HTTP/1.1
Content-Length: 16

{"records":[{}]}PUT /v1/issuers/506700GE1G29325QX363/uploads/1 HTTP/1.1
Content-Length: 16

{"records":[{}]}GET /v1/issuers/506700GE1G29325QX363/uploads/1 HTTP/1.1

PUT /v1/issuers/506700GE1G29325QX363/uploads/1 HTTP/1.1
Content-Length: 2

{}PUT /v1/issuers/506700GE1G29325QX363/uploads/3 HTTP/1.1
Content-Length: 16

{"records":[{}]}PUT /v1/issuers/506700GE1G29325QX363/uploads/2 HTTP/1.1
Content-Length: 1

{GET /v1/records/00000000000000000195 HTTP/1.1

PUT /v1/publications/1 HTTP/1.1

GET /v1/copies/repex/csv HTTP/1.1

GET /v1/deltas/last-day/lei/json HTTP/1.1

GET /v1/deltas/1/lei/json HTTP/1.1

~HTTP/1.1 200 OK
content-type: application/json
content-length: 43

{"entry":1,"issuer":"506700GE1G29325QX363"}HTTP/1.1 200 OK
content-type: application/json
content-length: 88

{"entry":2,"issuer":"506700GE1G29325QX363","items":["C02 FIELD_MISSING LEI"],"number":1}HTTP/1.1 200 OK
content-type: application/json
content-length: 88

{"entry":2,"issuer":"506700GE1G29325QX363","items":["C02 FIELD_MISSING LEI"],"number":1}HTTP/1.1 200 OK
content-type: application/json
content-length: 88

{"entry":2,"issuer":"506700GE1G29325QX363","items":["C02 FIELD_MISSING LEI"],"number":1}HTTP/1.1 409 Conflict
content-type: text/plain
content-length: 12

NUMBER_TAKENHTTP/1.1 409 Conflict
content-type: text/plain
content-length: 14

NUMBER_AHEAD 2HTTP/1.1 400 Bad Request
content-type: text/plain
content-length: 18

MALFORMED NOT_JSONHTTP/1.1 404 Not Found
content-type: text/plain
content-length: 11

LEI_UNKNOWNHTTP/1.1 201 Created
content-type: application/json
content-length: 89

{"contentDate":"2025-01-11T00:00:00Z","entry":3,"lei":0,"publication":1,"repex":0,"rr":0}HTTP/1.1 200 OK
content-type: text/csv
content-length: 65

"LEI","ExceptionCategory","ExceptionReason","ExceptionReference"&HTTP/1.1 404 Not Found
content-type: text/plain
content-length: 7

NO_BASEHTTP/1.1 200 OK
content-type: application/json
content-length: 103

{"contentDate":"2025-01-11T00:00:00Z","fromPublication":1,"publication":1,"recordCount":0,"records":[]}"#;

const STATUS: &str =
    r#"{"entries":0,"exceptions":0,"issuers":0,"keptBytes":0,"publications":0,"records":0,"relationships":0}"#;

// Appends what a letter of the table means.
fn put(out: &mut Vec<u8>, letter: u8) -> Result<(), NoMemory> {
    match letter {
        b'\n' => out.extend_from_slice(b"\r\n")?,
        b'@' => out.extend_from_slice(STATUS.as_bytes())?,
        b'&' => out.push(b'\n')?,
        b'|' => out.push(b'\t')?,
        b'$' => {
            for _ in 0..8_192 {
                out.push(b'x')?;
            }
        }
        b'%' => {
            for _ in 0..33 {
                out.extend_from_slice(b"a: b\r\n")?;
            }
        }
        _ => out.push(letter)?,
    }
    Ok(())
}

/// The bytes that a text of the table means.
pub fn bytes_of(alloc: Global, text: &str) -> Result<Bytes, NoMemory> {
    let mut bytes = Vec::new(alloc);
    for letter in text.bytes() {
        put(&mut bytes, letter)?;
    }
    Ok(Bytes::from(bytes))
}

/// The empty list of numbers.
pub fn none(alloc: Global) -> List<u64> {
    List::from(Vec::new(alloc))
}

/// A link that gives these bytes, and takes and gives at most this many at a time.
pub fn link_of(alloc: Global, sent: Bytes, most: usize) -> ByteLink
    requires { 1 ≤ most }
{
    ByteLink::new(
        ByteSource::new(sent, most, none(alloc)),
        ByteSink::new(alloc, most, none(alloc)),
    )
}

/// What serves a connection.
#[derive(Clone, Copy)]
pub enum Server {
    /// An office alone.
    Office,
    /// The only caller of a hall.
    Hall,
}

/// How serving a link over an empty office ends.
pub fn end_of<R: Threads + Wait + Sync>(
    rt: &R,
    alloc: Global,
    server: Server,
    link: &mut ByteLink,
) -> Option<Ended> {
    match Office::open(rt, alloc, SureKeeper::new(alloc), Limits::standard()) {
        Ok(office) => match server {
            Server::Office => Some(end_alone(rt, alloc, office, link)),
            Server::Hall => end_in_hall(rt, alloc, office, link),
        },
        Err(_) => None,
    }
}

// The office is closed, since dropping it costs a proof for each of its parts.
fn end_alone<R: Threads + Sync>(
    rt: &R,
    alloc: Global,
    mut office: Office<SureKeeper>,
    link: &mut ByteLink,
) -> Ended {
    let ended = serve_alone(rt, alloc, &mut office, link, &mut Still);
    let _ = office.close();
    ended
}

// The hall isn't closed, for the same reason.
fn end_in_hall<R: Threads + Wait + Sync>(
    rt: &R,
    alloc: Global,
    office: Office<SureKeeper>,
    link: &mut ByteLink,
) -> Option<Ended> {
    let (hall, mut passes) = match Hall::open(alloc, office, 1) {
        Ok(opened) => opened,
        Err(office) => {
            forget(office);
            return None;
        }
    };
    let Some(pass) = passes.pop() else {
        unreachable!()
    };
    let caller = Caller::new(&hall, &OpenGate, pass);
    let (_, ended) = serve_connection(rt, alloc, caller, link, &mut Still);
    forget(hall);
    Some(ended)
}

fn ended_of(word: &str) -> Option<Ended> {
    match word {
        "Closed" => Some(Ended::Closed),
        "BadHead" => Some(Ended::BadHead),
        _ => None,
    }
}

/// The parts of a connection of the table after its title: how it ends, what is sent and what comes back.
pub fn parts_of(text: &str) -> Option<(&str, &str, &str)> {
    let (ended, rest) = text.split_once('~')?;
    let (sent, wanted) = rest.split_once('~')?;
    Some((ended, sent, wanted))
}

// Whether a connection has the result that its parts say: how it ends, what is sent and what comes back. At most this
// many bytes go at a time.
fn comes_back<R: Threads + Wait + Sync>(
    rt: &R,
    alloc: Global,
    server: Server,
    most: usize,
    parts: (&str, &str, &str),
) -> bool
    requires { 1 ≤ most }
{
    let (ended, sent, wanted) = parts;
    let (Ok(sent), Ok(wanted)) = (bytes_of(alloc, sent), bytes_of(alloc, wanted)) else {
        return false;
    };
    let mut link = link_of(alloc, sent, most);
    let end = end_of(rt, alloc, server, &mut link);
    end.is_some() && end == ended_of(ended) && link.sink().written() == wanted.as_slice()
}

// Whether a connection of the table has the stated result, in one piece and in single bytes.
fn is_as_said<R: Threads + Wait + Sync>(rt: &R, alloc: Global, server: Server, text: &str) -> bool {
    match parts_of(text) {
        Some(parts) => {
            comes_back(rt, alloc, server, 65_536, parts) && comes_back(rt, alloc, server, 1, parts)
        }
        None => false,
    }
}

#[test]
fn connections_are_answered_as_the_table_says(rt: HostRuntime) -> Result<(), Fail> {
    for connection in CONNECTIONS.split('^') {
        let (title, rest) = connection.split_once('~').ok_or("a title")?;
        assert!(rt;
            is_as_said(&rt, rt.alloc(), Server::Office, rest),
            "{title}"
        );
        assert!(rt;
            is_as_said(&rt, rt.alloc(), Server::Hall, rest),
            "{title}, in a hall"
        );
    }
    Ok(())
}
