//! A door that the connections of a listener come through.
ghost use Rattle.std.specs.Prelude.{◌≡◌, ◌≤◌, None, true, false, is_some};
ghost use Rattle.lei_values.specs.Count.{Rose};
ghost use Rattle.lei_outside.specs.Doors.{Comes, IsFailed, is_line};
ghost use Rattle.leireg_devices.specs.Sockets.{GivesLine, IsNewStream, ListenerState, Waits};

use crate::sockets::deadlines::Deadlines;
use crate::sockets::link::StreamLink;
use crate::sockets::operator::Operator;
use lei_outside::{Came, Door, Failed};
use std::io;
use std::io::ErrorKind;
use std::marker::Model;
use std::net::{TcpListener, TcpStream};
use std::thread::sleep;
use std::time::{Clock, Duration};

// How long a door waits after a failure that may pass, before it accepts again, in milliseconds.
const PAUSE: u64 = 100;

/// A door over a listener, through which a given number of connections come, one after another. Without a listener each
/// call fails. The operator is informed of the address at the first call, and of failures that may pass. A connection
/// that comes back is closed. The door tells nothing of its lines.
#[derive(Drop)]
pub struct TcpDoor<'a, R, O> {
    rt: &'a R,
    listener: Option<&'a TcpListener>,
    operator: O,
    deadlines: Deadlines,
    to_give: u64,
    out: bool,
    faults: u64,
    // Whether the operator was informed of the address.
    announced: bool,
}

impl<'a, R, O> Model for TcpDoor<'a, R, O> {
    ghost use Rattle.std.specs.Prelude.{is_some};
    ghost use Rattle.leireg_devices.specs.Sockets.{ListenerState};

    ghost Value = { ListenerState };

    ghost view = { λ d. record {
      listens = is_some d.listener;
      to_give = d.to_give;
      out = d.out;
      faults = d.faults;
    } };
}

impl<'a, R, O> TcpDoor<'a, R, O> {
    /// A door through which at most this many connections come, each with these deadlines.
    pub fn new(
        rt: &'a R,
        listener: Option<&'a TcpListener>,
        operator: O,
        deadlines: Deadlines,
        connections: u64,
    ) -> Self
        ensures out { result.out ≡ false }
        ensures faults { result.faults ≡ 0 }
        ensures to_give { result.to_give ≡ connections }
        ensures listens { result.listens ≡ is_some listener.entry }
    {
        TcpDoor {
            rt,
            listener,
            operator,
            deadlines,
            to_give: connections,
            out: false,
            faults: 0,
            announced: false,
        }
    }
}

impl<'a, R: Clock, O: Operator> Door for TcpDoor<'a, R, O> {
    type Line = StreamLink<'a, R, TcpStream>;

    ghost to_come = { λ _. None };

    ghost came_back = { λ _. None };

    ghost out = { λ d. d.out };

    ghost faults = { λ d. d.faults };

    fn next(&mut self) -> Came<StreamLink<'a, R, TcpStream>>
        requires { self.old.out ≡ false }
        ensures lines { Comes None result None }
        ensures out { self.new.out ≡ is_line result }
        ensures count { self.old.faults ≤ self.new.faults }
        ensures kept { ¬ (IsFailed result) → self.new.faults ≡ self.old.faults }
        ensures failed { IsFailed result → Rose self.old.faults self.new.faults }
        ensures gives { GivesLine self.old result self.new }
        ensures new { IsNewStream result }
    {
        match self.wait() {
            Ok(Some(stream)) => {
                self.to_give -= 1;
                self.out = true;
                Came::Line(StreamLink::new(self.rt, self.deadlines, stream))
            }
            Ok(None) => Came::Closed,
            Err(Failed) => {
                self.faults = self.faults.saturating_add(1);
                Came::Failed
            }
        }
    }

    fn back(&mut self, line: StreamLink<'a, R, TcpStream>)
        requires { self.old.out ≡ true }
        ensures { self.new ≡ record self.old { out = false } }
    {
        line.close();
        self.out = false;
    }
}

impl<'a, R: Clock, O: Operator> TcpDoor<'a, R, O> {
    // The next connection, or `None` if all were given.
    fn wait(&mut self) -> Result<Option<TcpStream>, Failed>
        ensures waits { Waits self.new result }
        ensures same { self.new ≡ self.old }
    {
        let Some(listener) = self.listener else {
            return Err(Failed);
        };
        if self.to_give == 0 {
            return Ok(None);
        }
        self.announce(listener);
        let stream = accept(self.rt, listener, &self.deadlines, &mut self.operator)?;
        Ok(Some(stream))
    }

    // Informs the operator, once, of the address that the door listens at.
    fn announce(&mut self, listener: &TcpListener)
        ensures { self.new ≡ self.old }
    {
        if self.announced {
            return;
        }
        self.announced = true;
        if let Ok(address) = listener.local_addr() {
            self.operator.note_listening(address);
        }
    }
}

// The next connection that can be served: its deadlines are set, and what is written to it is sent at once. A
// connection that ends before that is skipped. A failure that may pass is skipped too, after a pause.
fn accept<R: Clock, O: Operator>(
    rt: &R,
    listener: &TcpListener,
    deadlines: &Deadlines,
    operator: &mut O,
) -> Result<TcpStream, Failed> {
    let mut fails = false;
    for _ in 0..u64::MAX {
        match listener.accept() {
            Ok((stream, _)) => {
                fails = false;
                if prepare(&stream, deadlines).is_ok() {
                    return Ok(stream);
                }
            }
            Err(fault) => match Passing::of(&fault) {
                Passing::Never => return Err(Failed),
                Passing::AtOnce => {}
                Passing::Later => {
                    if !fails {
                        operator.note_accept_fault(&fault);
                    }
                    fails = true;
                    sleep(rt, Duration::from_millis(PAUSE));
                }
            },
        }
    }
    Err(Failed)
}

// Whether another call may succeed after a failure to accept a connection.
enum Passing {
    // The connection is gone, or a signal came: try again at once.
    AtOnce,
    // Descriptors or memory ran out, or the network has a fault: try again after a while.
    Later,
    // The listener is invalid.
    Never,
}

impl Passing {
    // On Linux, accept also reports faults of the incoming connection and of the network.
    fn of(fault: &io::Error) -> Passing {
        match fault.kind() {
            ErrorKind::Interrupted | ErrorKind::ConnectionAborted | ErrorKind::ConnectionReset => {
                Passing::AtOnce
            }
            ErrorKind::InvalidInput => Passing::Never,
            _ => match fault.raw_os_error() {
                Some(BAD_DESCRIPTOR | NO_SOCKET) | None => Passing::Never,
                Some(_) => Passing::Later,
            },
        }
    }
}

// Linux's numbers for faults that don't pass: not an open descriptor, or not a socket.
const BAD_DESCRIPTOR: i32 = 9;

const NO_SOCKET: i32 = 88;

fn prepare(stream: &TcpStream, deadlines: &Deadlines) -> io::Result<()> {
    stream.set_nodelay(true)?;
    deadlines.apply(stream)
}
