// Servers: what comes back on the lines of their doors, and on connections over loopback that several workers serve.
ghost use Rattle.std.specs.Prelude.{◌≡◌, false, length, All, IfOk};

use crate::http::{CONNECTIONS, bytes_of, link_of, parts_of};
use crate::still::Still;
use crate::words::words_of;
use lei_outside::{Came, Door, OpenGate};
use lei_values::{Bytes, List, NoMemory};
use leireg_devices::{Deadlines, Operator, TcpDoor};
use leireg_serve::{Desk, serve, server_of};
use memory_devices::{ByteLink, ListDoor, SureKeeper};
use program_words::WantedRun;
use register_words::ExitStatus;
use std::alloc::Global;
use std::io::{self, Read, Write};
use std::mem::forget;
use std::net::{Ipv4Addr, Shutdown, SocketAddr, TcpListener, TcpStream};
use std::sync::Wait;
use std::test::Fail;
use std::thread::Threads;

// A door that one link comes through, which gives these bytes.
fn door_of(alloc: Global, sent: Bytes) -> Result<ListDoor, NoMemory>
    ensures { IfOk result (λ door. door.out ≡ false) }
{
    let mut links = Vec::new(alloc);
    links.push(link_of(alloc, sent, 7))?;
    ListDoor::new(alloc, List::from(links))
}

// A desk with this door, and a clock that stands still.
fn desk_of<D: Door>(door: D) -> Desk<D, Still>
    requires { D.out door ≡ false }
    ensures { D.out result.door ≡ false }
{
    Desk { door, clock: Still }
}

/// A desk for each worker of a server. One link comes through its door, which sends the text at its index, or the first
/// if there is none.
pub fn desks_of(
    alloc: Global,
    server: &WantedRun<'_>,
    sent: &[String],
) -> Result<Vec<Desk<ListDoor, Still>>, NoMemory>
    ensures count { IfOk result (λ desks. length desks.items ≡ server.now.workers) }
    ensures doors { IfOk result (λ desks. All (λ desk. desk.door.out ≡ false) desks.items) }
{
    let mut desks = Vec::new(alloc);
    for number in 0..server.workers {
        let door = door_of(alloc, bytes_of(alloc, text_at(sent, number))?)?;
        desks.push(desk_of(door))?;
    }
    Ok(desks)
}

// The text at an index, or the first if there is none.
fn text_at(texts: &[String], place: u32) -> &str {
    match texts.get(place as usize) {
        Some(text) => text.as_str(),
        None => match texts {
            [first, ..] => first.as_str(),
            [] => "",
        },
    }
}

// Whether this came back on the only link of a door.
fn has_come(door: &ListDoor, wanted: &[u8]) -> bool {
    match door.came_back() {
        [link] => link.sink().written() == wanted,
        _ => false,
    }
}

// Whether a server with these words ends well, and this comes back for what is sent to each of this many workers.
fn is_done<R: Threads + Wait + Sync>(
    rt: &R,
    alloc: Global,
    words: &[String],
    workers: usize,
    sent: &[String],
    wanted: &str,
) -> bool {
    let Ok(server) = server_of(alloc, words) else {
        return false;
    };
    let Ok(wanted) = bytes_of(alloc, wanted) else {
        return false;
    };
    let Ok(desks) = desks_of(alloc, &server, sent) else {
        return false;
    };
    let (status, _, desks) = serve(rt, alloc, words, SureKeeper::new(alloc), desks, &OpenGate);
    status == ExitStatus::Ok.number()
        && desks.len() == workers
        && desks
            .iter()
            .all(|desk| has_come(&desk.door, wanted.as_slice()))
}

#[test]
fn a_server_answers_the_connections_of_its_doors(rt: HostRuntime) -> Result<(), Fail> {
    let one = words_of(rt.alloc(), "serve --port 0 --workers 1")?;
    let two = words_of(rt.alloc(), "serve --port 0 --workers 2")?;
    let (_, rest) = CONNECTIONS.split_once('~').ok_or("a title")?;
    let (first, _) = rest.split_once('^').ok_or("a connection")?;
    let (_, sent, wanted) = parts_of(first).ok_or("its parts")?;
    let sent = [String::from_str(rt.alloc(), sent)?];
    assert!(rt; is_done(&rt, rt.alloc(), &one, 1, &sent, wanted));
    assert!(rt; is_done(&rt, rt.alloc(), &two, 2, &sent, wanted));
    Ok(())
}

// A door with the links of another, whose first call fails if it is broken. It tells nothing of its lines.
#[derive(Drop)]
struct Shaky {
    door: ListDoor,
    is_broken: bool,
    faults: u64,
}

impl Door for Shaky {
    ghost use Rattle.std.specs.Prelude.{None};

    type Line = ByteLink;

    ghost to_come = { λ _. None };

    ghost came_back = { λ _. None };

    ghost out = { λ d. d.door.out };

    ghost faults = { λ d. d.faults };

    fn next(&mut self) -> Came<ByteLink> {
        if self.is_broken {
            self.faults = self.faults.saturating_add(1);
            return Came::Failed;
        }
        self.door.next()
    }

    fn back(&mut self, line: ByteLink) {
        self.door.back(line);
    }
}

// A desk whose door may be broken. Otherwise a link that sends this text comes through it.
fn shaky_desk(alloc: Global, is_broken: bool, sent: &str) -> Result<Desk<Shaky, Still>, NoMemory>
    ensures { IfOk result (λ desk. desk.door.door.out ≡ false) }
{
    let door = door_of(alloc, bytes_of(alloc, sent)?)?;
    Ok(desk_of(Shaky {
        door,
        is_broken,
        faults: 0,
    }))
}

// Two desks. The first one's door is broken.
fn shaky_desks(alloc: Global, sent: &str) -> Result<Vec<Desk<Shaky, Still>>, NoMemory>
    ensures count { IfOk result (λ desks. length desks.items ≡ 2) }
    ensures doors { IfOk result (λ desks. All (λ desk. desk.door.door.out ≡ false) desks.items) }
{
    let mut desks = Vec::new(alloc);
    desks.push(shaky_desk(alloc, true, sent)?)?;
    desks.push(shaky_desk(alloc, false, sent)?)?;
    Ok(desks)
}

// How a server of two workers ends if the door of one is broken. The status is told only if `wanted` comes back for
// what is sent to the other.
fn status_beside_broken<R: Threads + Wait + Sync>(
    rt: &R,
    alloc: Global,
    words: &[String],
    sent: &str,
    wanted: &str,
) -> Option<u8> {
    let server = server_of(alloc, words).ok()?;
    if server.workers != 2 {
        return None;
    }
    let wanted = bytes_of(alloc, wanted).ok()?;
    let desks = shaky_desks(alloc, sent).ok()?;
    let (status, _, desks) = serve(rt, alloc, words, SureKeeper::new(alloc), desks, &OpenGate);
    match desks.as_slice() {
        [_, other] if has_come(&other.door.door, wanted.as_slice()) => Some(status),
        _ => None,
    }
}

#[test]
fn a_worker_is_served_beside_one_whose_door_fails(rt: HostRuntime) -> Result<(), Fail> {
    let words = words_of(rt.alloc(), "serve --port 0 --workers 2")?;
    let (_, rest) = CONNECTIONS.split_once('~').ok_or("a title")?;
    let (first, _) = rest.split_once('^').ok_or("a connection")?;
    let (_, sent, wanted) = parts_of(first).ok_or("its parts")?;
    let status = status_beside_broken(&rt, rt.alloc(), &words, sent, wanted);
    assert!(rt;
        status == Some(ExitStatus::DoorFault.number()),
        "{status:?}"
    );
    Ok(())
}

const ISSUERS: [&str; 4] = [
    "506700GE1G29325QX363",
    "HWUPKR0MPOU8FGXBT394",
    "5493001KJTIIGC8Y1R12",
    "00000000000000000195",
];

// The accreditation of an issuer and three of its uploads.
const UPLOADS: &str = "PUT /v1/issuers/# HTTP/1.1

PUT /v1/issuers/#/uploads/1 HTTP/1.1
Content-Length: 16

{\"records\":[{}]}PUT /v1/issuers/#/uploads/2 HTTP/1.1
Content-Length: 19

{\"records\":[{},{}]}PUT /v1/issuers/#/uploads/3 HTTP/1.1
Content-Length: 16

{\"records\":[{}]}";

// The same accreditation, and what is kept of the three uploads.
const KEPT: &str = "PUT /v1/issuers/# HTTP/1.1

GET /v1/issuers/#/uploads/1 HTTP/1.1

GET /v1/issuers/#/uploads/2 HTTP/1.1

GET /v1/issuers/#/uploads/3 HTTP/1.1

";

// Appends these requests, with an issuer in place of each `#`.
fn put_requests(
    out: &mut Vec<u8>,
    alloc: Global,
    requests: &str,
    issuer: &str,
) -> Result<(), NoMemory> {
    for (number, part) in requests.split('#').enumerate() {
        if number > 0 {
            out.extend_from_slice(issuer.as_bytes())?;
        }
        out.extend_from_slice(bytes_of(alloc, part)?.as_slice())?;
    }
    Ok(())
}

// These requests for each of some issuers.
fn requests_of(alloc: Global, requests: &str, issuers: &[&str]) -> Result<Vec<u8>, NoMemory> {
    let mut out = Vec::new(alloc);
    for issuer in issuers {
        put_requests(&mut out, alloc, requests, issuer)?;
    }
    Ok(out)
}

// A listener at a free port.
fn listen(rt: &HostRuntime) -> io::Result<TcpListener> {
    TcpListener::bind(rt, SocketAddr::from((Ipv4Addr::LOCALHOST, 0)))
}

// A peer that has sent these requests for each of some issuers, and sends nothing more.
fn peer_of(
    rt: &HostRuntime,
    listener: &TcpListener,
    requests: &str,
    issuers: &[&str],
) -> Option<TcpStream> {
    let requests = requests_of(rt.alloc(), requests, issuers).ok()?;
    let mut peer = TcpStream::connect(rt, listener.local_addr().ok()?).ok()?;
    peer.write_all(&requests).ok()?;
    peer.shutdown(Shutdown::Write).ok()?;
    Some(peer)
}

// Sixteen peers, each of which has sent the uploads of an issuer: the first four those of the four issuers in turn, and
// so on.
fn sixteen_peers(rt: &HostRuntime, listener: &TcpListener) -> Option<Vec<TcpStream>> {
    let mut peers = Vec::new(rt.alloc());
    for number in 0..16 {
        let issuer = ISSUERS[number % 4];
        let peer = peer_of(rt, listener, UPLOADS, &[issuer])?;
        peers.push(peer).ok()?;
    }
    Some(peers)
}

// What is sent to a peer, in at most 1,000 pieces.
fn received_bytes(alloc: Global, mut peer: TcpStream) -> io::Result<Vec<u8>> {
    let mut bytes = Vec::new(alloc);
    let mut buffer = [0; 4_096];
    for _ in 0..1_000 {
        let count = peer.read(&mut buffer)?;
        if count == 0 {
            break;
        }
        bytes.extend_from_slice(&buffer[..count])?;
    }
    Ok(bytes)
}

// An operator who ignores all reports.
#[derive(Drop)]
struct Nobody;

impl Operator for Nobody {
    fn note_listening(&mut self, _address: SocketAddr) {}

    fn note_accept_fault(&mut self, _fault: &io::Error) {}
}

// A desk over a listener for each worker of a server.
fn desks_over<'a>(
    host: &'a HostRuntime,
    listener: &'a TcpListener,
    server: &WantedRun<'_>,
) -> Result<Vec<Desk<TcpDoor<'a, HostRuntime, Nobody>, Still>>, NoMemory>
    ensures count { IfOk result (λ desks. length desks.items ≡ server.now.workers) }
    ensures doors { IfOk result (λ desks. All (λ desk. desk.door.out ≡ false) desks.items) }
{
    let mut desks = Vec::new(host.alloc());
    for _number in 0..server.workers {
        let deadlines = Deadlines::standard();
        let door = TcpDoor::new(host, Some(listener), Nobody, deadlines, server.connections);
        desks.push(desk_of(door))?;
    }
    Ok(desks)
}

// The keeper that is left by a server with these words, which serves the connections of a listener.
fn keeper_after_serving<R: Threads + Wait + Sync>(
    rt: &R,
    host: &HostRuntime,
    words: &[String],
    listener: &TcpListener,
    keeper: SureKeeper,
) -> Option<SureKeeper> {
    let Ok(server) = server_of(host.alloc(), words) else {
        forget(keeper);
        return None;
    };
    let Ok(desks) = desks_over(host, listener, &server) else {
        forget(keeper);
        return None;
    };
    let (status, keeper, _) = serve(rt, host.alloc(), words, keeper, desks, &OpenGate);
    if status == ExitStatus::Ok.number() {
        Some(keeper)
    } else {
        forget(keeper);
        None
    }
}

// Whether the entries that the replies report have the numbers from 1 to this one, each once.
fn tell_all_entries(replies: &[u8], count: usize) -> Option<bool> {
    let replies = str::from_utf8(replies).ok()?;
    let mut told = [false; 64];
    let mut found: usize = 0;
    for reply in replies.split("\"entry\":").skip(1) {
        let (entry, _) = reply.split_once(',')?;
        let entry = entry.parse::<usize>().ok()?;
        if entry == 0 || entry > count || *told.get(entry - 1)? {
            return Some(false);
        }
        *told.get_mut(entry - 1)? = true;
        found = found.saturating_add(1);
    }
    Some(found == count)
}

// What is sent to each of these peers.
fn received_by_all(alloc: Global, peers: Vec<TcpStream>) -> io::Result<Vec<Vec<u8>>> {
    let mut all = Vec::new(alloc);
    for peer in peers {
        all.push(received_bytes(alloc, peer)?)?;
    }
    Ok(all)
}

// Whether each issuer's peers were sent the same.
fn are_alike(received: &[Vec<u8>]) -> bool {
    for (number, replies) in received.iter().enumerate() {
        if received.get(number % 4) != Some(replies) {
            return false;
        }
    }
    received.len() == 16
}

// What the first four of sixteen peers were sent, if the others of their issuers were sent the same.
fn told_to_all(alloc: Global, peers: Vec<TcpStream>) -> Option<Vec<u8>> {
    let received = received_by_all(alloc, peers).ok()?;
    if !are_alike(received.as_slice()) {
        return None;
    }
    received.get(..4)?.concat(alloc).ok()
}

// The keeper that is left by four workers, each of which serves four connections of a listener.
fn keeper_after_four<R: Threads + Wait + Sync>(
    rt: &R,
    host: &HostRuntime,
    listener: &TcpListener,
) -> Option<SureKeeper> {
    let words = words_of(host.alloc(), "serve --port 0 --workers 4 --connections 4").ok()?;
    keeper_after_serving(rt, host, &words, listener, SureKeeper::new(host.alloc()))
}

// What one worker over this keeper replies to who asks for what is kept of all issuers.
fn kept_of_all<R: Threads + Wait + Sync>(
    rt: &R,
    host: &HostRuntime,
    listener: &TcpListener,
    keeper: SureKeeper,
) -> Option<Vec<u8>> {
    let (Ok(words), Some(peer)) = (
        words_of(host.alloc(), "serve --port 0 --workers 1 --connections 1"),
        peer_of(host, listener, KEPT, &ISSUERS),
    ) else {
        forget(keeper);
        return None;
    };
    forget(keeper_after_serving(rt, host, &words, listener, keeper)?);
    received_bytes(host.alloc(), peer).ok()
}

#[test]
fn callers_of_four_workers_are_told_one_history(rt: HostRuntime) -> Result<(), Fail> {
    let listener = listen(&rt)?;
    let peers = sixteen_peers(&rt, &listener).ok_or("peers")?;
    let keeper = keeper_after_four(&rt, &rt, &listener).ok_or("a server")?;
    let kept = match told_to_all(rt.alloc(), peers) {
        Some(told) if tell_all_entries(&told, 16) == Some(true) => {
            kept_of_all(&rt, &rt, &listener, keeper) == Some(told)
        }
        _ => {
            forget(keeper);
            false
        }
    };
    assert!(rt; kept);
    Ok(())
}
