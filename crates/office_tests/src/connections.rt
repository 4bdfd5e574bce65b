//! Connections whose link fails, at each of its calls in turn, and connections that are cut after each byte.
use crate::exchanges::{Exchange, MOST, all_sent, only, reads_of, replies_within};
use crate::http::{Server, end_of, none};
use issuer_http::Ended;
use lei_values::{Bytes, List, NoMemory};
use memory_devices::{ByteLink, ByteSink, ByteSource};
use std::alloc::Global;
use std::sync::Wait;
use std::test::Fail;
use std::thread::Threads;

// A connection, request by request.
const REQUESTS: [Exchange; 5] = [
    (
        "GET /v1/status HTTP/1.1

",
        "HTTP/1.1 200 OK
content-type: application/json
content-length: 101

@",
    ),
    (
        "GET /nothing HTTP/1.1

",
        "HTTP/1.1 404 Not Found
content-type: text/plain
content-length: 8

NO_ROUTE",
    ),
    (
        "PUT /v1/issuers/506700GE1G29325QX363 HTTP/1.1

",
        r#"HTTP/1.1 200 OK
content-type: application/json
content-length: 43

{"entry":1,"issuer":"506700GE1G29325QX363"}"#,
    ),
    (
        r#"PUT /v1/issuers/506700GE1G29325QX363/uploads/1 HTTP/1.1
Content-Length: 16

{"records":[{}]}"#,
        TAKEN,
    ),
    (
        "GET /v1/issuers/506700GE1G29325QX363/uploads/1 HTTP/1.1

",
        TAKEN,
    ),
];

// The reply to the upload.
const TAKEN: &str = r#"HTTP/1.1 200 OK
content-type: application/json
content-length: 88

{"entry":2,"issuer":"506700GE1G29325QX363","items":["C02 FIELD_MISSING LEI"],"number":1}"#;

// What serves a connection.
const SERVERS: [Server; 2] = [Server::Office, Server::Hall];

// A link that sends these bytes, and whose calls with these numbers fail.
#[derive(Drop)]
struct Trial {
    sent: Bytes,
    reads: List<u64>,
    writes: List<u64>,
}

// How a connection ends, if what came back is correct. For each end but one, exactly the replies to the requests that
// were complete must come back. After a failed write, an incomplete front of the replies must come back.
fn end_of_trial<R: Threads + Wait + Sync>(
    rt: &R,
    alloc: Global,
    server: Server,
    trial: Trial,
) -> Result<Option<Ended>, NoMemory> {
    let length = trial.sent.len();
    let mut link = ByteLink::new(
        ByteSource::new(trial.sent, MOST, trial.reads),
        ByteSink::new(alloc, MOST, trial.writes),
    );
    let Some(ended) = end_of(rt, alloc, server, &mut link) else {
        return Ok(None);
    };
    let read = length.saturating_sub(link.source().left().len());
    let replies = replies_within(alloc, &REQUESTS, read)?;
    let written = link.sink().written();
    let is_whole = written == replies.as_slice();
    let is_right = if ended == Ended::WriteFault {
        !is_whole && replies.starts_with(written)
    } else {
        is_whole
    };
    Ok(is_right.then_some(ended))
}

#[test]
fn a_connection_ends_at_the_read_that_fails(rt: HostRuntime) -> Result<(), Fail> {
    let reads = reads_of(all_sent(rt.alloc(), &REQUESTS)?.len(), MOST);
    for server in SERVERS {
        for call in 1..reads.saturating_add(2) {
            let trial = Trial {
                sent: all_sent(rt.alloc(), &REQUESTS)?,
                reads: only(rt.alloc(), call)?,
                writes: none(rt.alloc()),
            };
            let wanted = if call > reads {
                Ended::Closed
            } else {
                Ended::ReadFault
            };
            let ended = end_of_trial(&rt, rt.alloc(), server, trial)?;
            assert!(rt; ended == Some(wanted), "read {call}");
        }
    }
    Ok(())
}

// The first write that isn't made, so that its failure is never met, if each one before it ends the connection.
fn writes_of<R: Threads + Wait + Sync>(
    rt: &R,
    alloc: Global,
    server: Server,
) -> Result<Option<u64>, NoMemory> {
    for call in 1..10_000u64 {
        let trial = Trial {
            sent: all_sent(alloc, &REQUESTS)?,
            reads: none(alloc),
            writes: only(alloc, call)?,
        };
        match end_of_trial(rt, alloc, server, trial)? {
            Some(Ended::WriteFault) => {}
            Some(Ended::Closed) => return Ok(Some(call)),
            _ => return Ok(None),
        }
    }
    Ok(None)
}

#[test]
fn a_connection_ends_at_the_write_that_fails(rt: HostRuntime) -> Result<(), Fail> {
    for server in SERVERS {
        let writes = writes_of(&rt, rt.alloc(), server)?;
        assert!(rt; writes.is_some_and(|writes| writes > 100), "{writes:?}");
    }
    Ok(())
}

#[test]
fn a_connection_that_is_cut_has_its_whole_requests_answered(rt: HostRuntime) -> Result<(), Fail> {
    let sent = all_sent(rt.alloc(), &REQUESTS)?;
    for server in SERVERS {
        for cut in 0..sent.len() {
            let trial = Trial {
                sent: Bytes::copy_of(rt.alloc(), &sent.as_slice()[..cut])?,
                reads: none(rt.alloc()),
                writes: none(rt.alloc()),
            };
            let ended = end_of_trial(&rt, rt.alloc(), server, trial)?;
            assert!(rt; ended == Some(Ended::Closed), "{cut}");
        }
    }
    Ok(())
}
