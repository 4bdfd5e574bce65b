//! How long a peer may take, and how much of that time has passed.
use std::io;
use std::net::TcpStream;
use std::time::{Clock, Duration, Instant};

/// How long a peer may take. This project's profile.
#[derive(Clone, Copy)]
pub struct Deadlines {
    /// For the next byte, in either direction: on an idle connection, within a request that has started, and in a
    /// reply.
    pub silence: Duration,
    /// For a whole request, from its first byte to the first write after it.
    pub request: Duration,
    /// For all replies to the requests of one read, from the first write to the next read that gives a byte.
    pub reply: Duration,
    /// For the connection. After this time no further request is read from it.
    pub life: Duration,
    /// For reading what the peer still sends after the last reply.
    pub closing: Duration,
}

impl Deadlines {
    /// The deadlines of a server: 5 seconds for a byte, 30 seconds for a request, 10 minutes for replies, 10 minutes
    /// for a connection, and one second for its end.
    pub fn standard() -> Self {
        Deadlines {
            silence: Duration::from_secs(5),
            request: Duration::from_secs(30),
            reply: Duration::from_secs(600),
            life: Duration::from_secs(600),
            closing: Duration::from_secs(1),
        }
    }

    /// Limits how long each read and write of a stream waits for a byte, to the longest silence.
    pub fn apply(&self, stream: &TcpStream) -> io::Result<()> {
        stream.set_read_timeout(Some(self.silence))?;
        stream.set_write_timeout(Some(self.silence))
    }
}

/// What a connection is doing, and since which moment. `None` is a moment at which the clock couldn't be read.
#[derive(Clone, Copy)]
enum Turn {
    /// No byte has come yet.
    New,
    /// The peer is sending: a byte was read, and nothing has been written since.
    Request(Option<Instant>),
    /// Replies are being sent: a byte was written, and none has been read since.
    Reply(Option<Instant>),
}

/// Whether a connection is late. A request starts with the first byte that is read after the accept or a write, and
/// lasts until the next write. The replies start there, and last until the next byte is read. The connection's life
/// starts with the accept, and is checked only between two requests. If the clock can't be read, all are late.
#[derive(Drop)]
pub struct Watch<'a, R> {
    rt: &'a R,
    deadlines: Deadlines,
    since: Option<Instant>,
    turn: Turn,
}

impl<'a, R: Clock> Watch<'a, R> {
    /// A watch over a connection that has just come.
    pub fn new(rt: &'a R, deadlines: Deadlines) -> Self {
        Watch {
            rt,
            deadlines,
            since: Instant::now(rt).ok(),
            turn: Turn::New,
        }
    }

    /// The clock, and how long closing the connection may take.
    pub fn closing(&self) -> (&'a R, Duration) {
        (self.rt, self.deadlines.closing)
    }

    /// Whether a read comes too late for its request. What is read after a write is another request, and the connection
    /// may be too old for it.
    pub fn is_late_to_read(&self) -> bool {
        match self.turn {
            Turn::New => false,
            Turn::Request(since) => has_passed(self.rt, since, self.deadlines.request),
            Turn::Reply(_) => has_passed(self.rt, self.since, self.deadlines.life),
        }
    }

    /// Notes that a byte was read.
    pub fn note_read(&mut self) {
        match self.turn {
            Turn::Request(_) => {}
            _ => self.turn = Turn::Request(Instant::now(self.rt).ok()),
        }
    }

    /// Whether a write comes too late for the replies that it belongs to. The first write after a read is always in
    /// time.
    pub fn is_late_to_write(&self) -> bool {
        match self.turn {
            Turn::Reply(since) => has_passed(self.rt, since, self.deadlines.reply),
            _ => false,
        }
    }

    /// Notes that a byte was written.
    pub fn note_write(&mut self) {
        match self.turn {
            Turn::Reply(_) => {}
            _ => self.turn = Turn::Reply(Instant::now(self.rt).ok()),
        }
    }
}

// Whether this much time has passed since a moment, or the clock can't be read.
fn has_passed<R: Clock>(rt: &R, since: Option<Instant>, time: Duration) -> bool {
    match since {
        Some(since) => match since.elapsed(rt) {
            Ok(passed) => passed >= time,
            Err(_) => true,
        },
        None => true,
    }
}
