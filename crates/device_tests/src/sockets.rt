//! Connections over loopback: what a link transfers, which peers are given up, and when a door is closed.
ghost use Rattle.std.specs.Prelude.{◌≡◌, false, IsTrue};

use lei_outside::{Came, Door, Failed, Link, SinkFault};
use leireg_devices::{Deadlines, Operator, TcpDoor};
use std::io::{self, Read, Write};
use std::net::{Ipv4Addr, SocketAddr, TcpListener, TcpStream};
use std::test::Fail;
use std::time::{Clock, Duration};

// Deadlines that are short enough for a test.
fn short() -> Deadlines {
    Deadlines {
        silence: Duration::from_millis(40),
        request: Duration::from_millis(80),
        reply: Duration::from_secs(10),
        life: Duration::from_secs(10),
        closing: Duration::from_secs(1),
    }
}

// What was reported to an operator: the address of the door, how often, and how many failures there were.
#[derive(Clone, Copy)]
struct Heard {
    address: Option<SocketAddr>,
    notes: u32,
    faults: u32,
}

impl Heard {
    fn nothing() -> Self {
        Heard {
            address: None,
            notes: 0,
            faults: 0,
        }
    }
}

impl<'a> Operator for &'a mut Heard {
    fn note_listening(&mut self, address: SocketAddr) {
        self.address = Some(address);
        self.notes = self.notes.saturating_add(1);
    }

    fn note_accept_fault(&mut self, _fault: &io::Error) {
        self.faults = self.faults.saturating_add(1);
    }
}

// A listener at a free port.
fn listen(rt: &HostRuntime) -> io::Result<TcpListener> {
    TcpListener::bind(rt, SocketAddr::from((Ipv4Addr::LOCALHOST, 0)))
}

// A peer of the listener.
fn peer_of(rt: &HostRuntime, listener: &TcpListener) -> io::Result<TcpStream> {
    TcpStream::connect(rt, listener.local_addr()?)
}

// A peer of the listener that has sent these bytes.
fn peer_with(rt: &HostRuntime, listener: &TcpListener, sent: &[u8]) -> io::Result<TcpStream> {
    let mut peer = peer_of(rt, listener)?;
    peer.write_all(sent)?;
    Ok(peer)
}

#[test]
fn a_door_without_a_listener_fails(rt: HostRuntime) {
    let mut heard = Heard::nothing();
    let mut door = TcpDoor::new(&rt, None, &mut heard, short(), 1);
    assert!(rt; matches!(door.next(), Came::Failed));
    assert!(rt; matches!(door.next(), Came::Failed));
}

// ---- bytes both ways

// Whether a line gives these bytes in one read, and takes the reply in one write.
fn carries<L: Link>(line: &mut L, sent: &[u8], reply: &[u8]) -> bool {
    let mut buffer = [0; 8];
    match line.read(&mut buffer) {
        Ok(count) => {
            buffer.get(..count) == Some(sent)
                && !reply.is_empty()
                && line.write(reply) == Ok(reply.len())
        }
        Err(Failed) => false,
    }
}

// Whether the next line of a door gives these bytes and takes the reply, and is the door's last one.
fn serves_one<D: Door>(door: &mut D, sent: &[u8], reply: &[u8]) -> bool
    requires { D.out door.old ≡ false }
{
    let Came::Line(mut line) = door.next() else {
        return false;
    };
    let has_carried = carries(&mut line, sent, reply);
    door.back(line);
    has_carried && matches!(door.next(), Came::Closed)
}

// Whether exactly this comes to a peer, and then the end.
fn receives(peer: &mut TcpStream, reply: &[u8]) -> bool {
    let mut buffer = [0; 8];
    let Ok(count) = peer.read(&mut buffer) else {
        return false;
    };
    buffer.get(..count) == Some(reply) && matches!(peer.read(&mut buffer), Ok(0))
}

// Whether a peer's bytes and the reply to them are carried.
fn is_answered(rt: &HostRuntime, listener: &TcpListener, peer: &mut TcpStream) -> bool {
    let mut heard = Heard::nothing();
    let mut door = TcpDoor::new(rt, Some(listener), &mut heard, short(), 1);
    serves_one(&mut door, b"ask", b"reply") && receives(peer, b"reply")
}

#[test]
fn a_link_carries_bytes_both_ways_and_its_door_closes_after_the_last(
    rt: HostRuntime,
) -> Result<(), Fail> {
    let listener = listen(&rt)?;
    let mut peer = peer_with(&rt, &listener, b"ask")?;
    assert!(rt; is_answered(&rt, &listener, &mut peer));
    Ok(())
}

// ---- peers that are given up

// The result of the first read of the next line of a door, if a line comes.
fn first_read<D: Door>(door: &mut D) -> Option<Result<usize, Failed>>
    requires { D.out door.old ≡ false }
{
    let Came::Line(mut line) = door.next() else {
        return None;
    };
    let read = line.read(&mut [0; 8]);
    door.back(line);
    Some(read)
}

#[test]
fn a_peer_that_is_silent_is_given_up(rt: HostRuntime) -> Result<(), Fail> {
    let listener = listen(&rt)?;
    let peer = peer_of(&rt, &listener)?;
    let mut heard = Heard::nothing();
    let mut door = TcpDoor::new(&rt, Some(&listener), &mut heard, short(), 1);
    let read = first_read(&mut door);
    drop(peer);
    assert!(rt; read == Some(Err(Failed)));
    Ok(())
}

// How many reads of a line give a byte, if its peer sends one every 20 milliseconds.
fn reads_of_drips<L: Link>(rt: &HostRuntime, line: &mut L, peer: &mut TcpStream) -> Option<u32> {
    for reads in 0..10u32 {
        if peer.write_all(b"x").is_err() {
            return None;
        }
        rt.sleep(Duration::from_millis(20));
        if line.read(&mut [0; 8]) == Err(Failed) {
            return Some(reads);
        }
    }
    None
}

// The same of the next line of a door.
fn reads_until_given_up<D: Door>(
    rt: &HostRuntime,
    door: &mut D,
    peer: &mut TcpStream,
) -> Option<u32>
    requires { D.out door.old ≡ false }
{
    let Came::Line(mut line) = door.next() else {
        return None;
    };
    let reads = reads_of_drips(rt, &mut line, peer);
    door.back(line);
    reads
}

#[test]
fn a_peer_that_drips_is_given_up(rt: HostRuntime) -> Result<(), Fail> {
    let listener = listen(&rt)?;
    let mut peer = peer_of(&rt, &listener)?;
    let mut heard = Heard::nothing();
    let mut door = TcpDoor::new(&rt, Some(&listener), &mut heard, short(), 1);
    let reads = reads_until_given_up(&rt, &mut door, &mut peer);
    assert!(rt; matches!(reads, Some(2..=6)), "{reads:?} reads");
    Ok(())
}

// ---- a peer that is gone

// Whether a write to a line fails at last.
fn fails_at_last<L: Link>(rt: &HostRuntime, line: &mut L) -> bool {
    for _ in 0..20 {
        if line.write(b"reply") == Err(SinkFault::Failed) {
            return true;
        }
        rt.sleep(Duration::from_millis(1));
    }
    false
}

// Whether writes to the next line of a door fail after its peer has gone.
fn fails_after_peer<D: Door>(rt: &HostRuntime, door: &mut D, peer: TcpStream) -> bool
    requires { D.out door.old ≡ false }
    ensures { IsTrue result → D.out door.new ≡ false }
{
    let Came::Line(mut line) = door.next() else {
        return false;
    };
    drop(peer);
    let has_failed = fails_at_last(rt, &mut line);
    door.back(line);
    has_failed
}

#[test]
fn a_door_gives_lines_after_a_peer_that_is_gone(rt: HostRuntime) -> Result<(), Fail> {
    let listener = listen(&rt)?;
    let gone = peer_of(&rt, &listener)?;
    let _peer = peer_of(&rt, &listener)?;
    let mut heard = Heard::nothing();
    let mut door = TcpDoor::new(&rt, Some(&listener), &mut heard, short(), 2);
    let goes_on = fails_after_peer(&rt, &mut door, gone) && matches!(door.next(), Came::Line(_));
    assert!(rt; goes_on);
    Ok(())
}

// ---- bytes that nobody reads

// Whether the next line of a door gives some bytes and takes the reply.
fn replies<D: Door>(door: &mut D, reply: &[u8]) -> bool
    requires { D.out door.old ≡ false }
{
    let Came::Line(mut line) = door.next() else {
        return false;
    };
    let has_replied = line.read(&mut [0; 8]).is_ok()
        && !reply.is_empty()
        && line.write(reply) == Ok(reply.len());
    door.back(line);
    has_replied
}

fn has_replied(rt: &HostRuntime, listener: &TcpListener) -> bool {
    let mut heard = Heard::nothing();
    let mut door = TcpDoor::new(rt, Some(listener), &mut heard, short(), 1);
    replies(&mut door, b"reply")
}

// If the connection were closed at once, the system would reset it for the bytes that nobody read.
#[test]
fn a_reply_arrives_though_the_peer_sent_more_than_was_read(rt: HostRuntime) -> Result<(), Fail> {
    let listener = listen(&rt)?;
    let mut peer = peer_with(&rt, &listener, &[b'x'; 200_000])?;
    assert!(rt; has_replied(&rt, &listener) && receives(&mut peer, b"reply"));
    Ok(())
}

// ---- a connection that is too old

// How many requests of a peer are read from a line, one every 20 milliseconds.
fn requests_of<L: Link>(rt: &HostRuntime, line: &mut L, peer: &mut TcpStream) -> Option<u32> {
    for requests in 0..11u32 {
        if peer.write_all(b"ask").is_err() {
            return None;
        }
        if line.read(&mut [0; 8]) == Err(Failed) {
            return Some(requests);
        }
        if line.write(b"reply").is_err() {
            return None;
        }
        rt.sleep(Duration::from_millis(20));
    }
    None
}

// The same of the next line of a door.
fn requests_until_old<D: Door>(rt: &HostRuntime, door: &mut D, peer: &mut TcpStream) -> Option<u32>
    requires { D.out door.old ≡ false }
{
    let Came::Line(mut line) = door.next() else {
        return None;
    };
    let requests = requests_of(rt, &mut line, peer);
    door.back(line);
    requests
}

#[test]
fn no_further_request_is_read_from_a_connection_that_is_too_old(
    rt: HostRuntime,
) -> Result<(), Fail> {
    let listener = listen(&rt)?;
    let mut peer = peer_of(&rt, &listener)?;
    let mut heard = Heard::nothing();
    let deadlines = Deadlines {
        life: Duration::from_millis(60),
        ..short()
    };
    let mut door = TcpDoor::new(&rt, Some(&listener), &mut heard, deadlines, 1);
    let requests = requests_until_old(&rt, &mut door, &mut peer);
    assert!(rt; matches!(requests, Some(1..=4)), "{requests:?} requests");
    Ok(())
}

// ---- what an operator hears

// Whether a line comes through a door. It is given back.
fn gives_line<D: Door>(door: &mut D) -> bool
    requires { D.out door.old ≡ false }
    ensures { IsTrue result → D.out door.new ≡ false }
{
    let Came::Line(line) = door.next() else {
        return false;
    };
    door.back(line);
    true
}

// Whether two lines come through a door, and no third.
fn gives_two<D: Door>(door: &mut D) -> bool
    requires { D.out door.old ≡ false }
{
    gives_line(door) && gives_line(door) && matches!(door.next(), Came::Closed)
}

// What an operator has heard after two lines came through a door, if they did.
fn heard_of_two(rt: &HostRuntime, listener: &TcpListener) -> Option<Heard> {
    let mut heard = Heard::nothing();
    let mut door = TcpDoor::new(rt, Some(listener), &mut heard, short(), 2);
    let has_given = gives_two(&mut door);
    drop(door);
    has_given.then_some(heard)
}

#[test]
fn the_operator_hears_once_where_the_door_listens(rt: HostRuntime) -> Result<(), Fail> {
    let listener = listen(&rt)?;
    let _first = peer_of(&rt, &listener)?;
    let _second = peer_of(&rt, &listener)?;
    let address = listener.local_addr().ok();
    let heard = heard_of_two(&rt, &listener).ok_or("two lines")?;
    assert!(rt; address.is_some() && heard.address == address);
    assert!(rt; heard.notes == 1 && heard.faults == 0);
    Ok(())
}
