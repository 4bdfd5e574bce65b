//! Links over streams.
ghost use Rattle.std.specs.Io.KnownBytes.{ReadConsumes, WriteAppends};
ghost use Rattle.std.specs.Prelude.{◌≡◌, ◌≤◌, ◌<◌, None, length, IfOk, IfErr, OnOk, OnErr, IsErrOf};
ghost use Rattle.lei_values.specs.Count.{Rose, count_up};
ghost use Rattle.lei_outside.specs.Told.{Reads, Writes};
ghost use Rattle.leireg_devices.specs.Sockets.{StreamState};

use crate::sockets::closing::close;
use crate::sockets::deadlines::{Deadlines, Watch};
use crate::streams::{read_once, write_once};
use lei_outside::{Failed, Link, SinkFault};
use std::io::{Read, Write};
use std::marker::Model;
use std::net::TcpStream;
use std::time::Clock;

/// A link over a stream, such as a connection, which tells nothing of its own bytes. A read or a write that comes after
/// its deadline fails, and so does one that waited as long as the stream allows. Contracts see the stream and the
/// numbers of reads and of writes that failed, which stop at their greatest value.
#[derive(Drop)]
pub struct StreamLink<'a, R, S> {
    stream: S,
    watch: Watch<'a, R>,
    read_faults: u64,
    write_faults: u64,
}

impl<'a, R, S> Model for StreamLink<'a, R, S> {
    ghost use Rattle.leireg_devices.specs.Sockets.{StreamState};

    ghost Value = { StreamState S };

    ghost view = { λ l. record
        { stream = l.stream; read_faults = l.read_faults; write_faults = l.write_faults } };
}

impl<'a, R: Clock, S> StreamLink<'a, R, S> {
    /// A link over a stream that has just come. The stream itself limits how long a read or a write waits for a byte.
    pub fn new(rt: &'a R, deadlines: Deadlines, stream: S) -> Self
        ensures { result ≡ record { stream = stream; read_faults = 0; write_faults = 0 } }
    {
        StreamLink {
            stream,
            watch: Watch::new(rt, deadlines),
            read_faults: 0,
            write_faults: 0,
        }
    }
}

impl<'a, R: Clock> StreamLink<'a, R, TcpStream> {
    /// Closes the connection. If a read or a write failed, it is closed at once, and otherwise so that the peer gets
    /// what was written.
    pub fn close(self) {
        if self.read_faults == 0 && self.write_faults == 0 {
            let (rt, time) = self.watch.closing();
            close(rt, self.stream, time);
        }
    }
}

impl<'a, R: Clock, S: Read + Write> Link for StreamLink<'a, R, S> {
    ghost left = { λ _. None };

    ghost written = { λ _. None };

    ghost read_faults = { λ l. l.read_faults };

    ghost write_faults = { λ l. l.write_faults };

    fn read(&mut self, buffer: &mut [u8]) -> Result<usize, Failed>
        requires { 0 < length buffer.old }
        ensures bytes { Reads None None result buffer.new }
        ensures count { self.old.read_faults ≤ self.new.read_faults }
        ensures kept { OnOk result (self.new.read_faults ≡ self.old.read_faults) }
        ensures failed { OnErr result (Rose self.old.read_faults self.new.read_faults) }
        ensures exact { OnErr result (self.new.read_faults ≡ count_up self.old.read_faults) }
        ensures writes { self.new.write_faults ≡ self.old.write_faults }
        ensures stream { ReadConsumes (S.remaining self.old.stream) (S.remaining self.new.stream)
            result buffer.new }
    {
        match read_in_time(&mut self.watch, &mut self.stream, buffer) {
            Ok(count) => Ok(count),
            Err(fault) => {
                self.read_faults = self.read_faults.saturating_add(1);
                Err(fault)
            }
        }
    }

    fn write(&mut self, piece: &[u8]) -> Result<usize, SinkFault>
        requires { 0 < length piece.now }
        ensures bytes { Writes None None result piece.now }
        ensures count { self.old.write_faults ≤ self.new.write_faults }
        ensures kept { ¬ (IsErrOf result SinkFault.Failed) → self.new.write_faults ≡ self.old.write_faults }
        ensures failed { IsErrOf result SinkFault.Failed → Rose self.old.write_faults self.new.write_faults }
        ensures exact { IfErr result (λ fault.
            (fault ≡ SinkFault.Failed) × (self.new.write_faults ≡ count_up self.old.write_faults)) }
        ensures reads { self.new.read_faults ≡ self.old.read_faults }
        ensures stream { WriteAppends (S.contents self.old.stream) (S.contents self.new.stream)
            result piece.now }
    {
        match write_in_time(&mut self.watch, &mut self.stream, piece) {
            Ok(count) => Ok(count),
            Err(Failed) => {
                self.write_faults = self.write_faults.saturating_add(1);
                Err(SinkFault::Failed)
            }
        }
    }
}

// One read, unless its request is late.
fn read_in_time<R: Clock, S: Read>(
    watch: &mut Watch<'_, R>,
    stream: &mut S,
    buffer: &mut [u8],
) -> Result<usize, Failed>
    ensures within { IfOk result (λ count. count ≤ length buffer.new) }
    ensures stream { ReadConsumes (S.remaining stream.old) (S.remaining stream.new) result buffer.new }
{
    if watch.is_late_to_read() {
        return Err(Failed);
    }
    let count = read_once(stream, buffer)?;
    if count > 0 {
        watch.note_read();
    }
    Ok(count)
}

// One write, unless its replies are late.
fn write_in_time<R: Clock, S: Write>(
    watch: &mut Watch<'_, R>,
    stream: &mut S,
    piece: &[u8],
) -> Result<usize, Failed>
    ensures within { IfOk result (λ count. (0 < count) × (count ≤ length piece.now)) }
    ensures stream { WriteAppends (S.contents stream.old) (S.contents stream.new) result piece.now }
{
    if watch.is_late_to_write() {
        return Err(Failed);
    }
    let count = write_once(stream, piece)?;
    watch.note_write();
    Ok(count)
}
