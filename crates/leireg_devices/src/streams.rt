//! Any writer of std, such as the standard output, as a sink, and single reads and writes.
ghost use Rattle.std.specs.Io.KnownBytes.{ReadConsumes, WriteAppends};
ghost use Rattle.std.specs.Prelude.{◌≡◌, ◌≤◌, ◌<◌, None, length, IfOk, IsErrOf, MatchResult};
ghost use Rattle.lei_values.specs.Count.{Rose, count_up};
ghost use Rattle.lei_outside.specs.Told.{Writes};

use lei_outside::{Failed, Sink, SinkFault};
use std::io::{ErrorKind, Read, Write};
use std::marker::Model;

/// A sink over a writer. It tells nothing of its own bytes. Contracts see it as the writer and the number of its writes
/// that failed, which stops at its greatest value. A write that takes nothing counts as failed.
#[derive(Drop)]
pub struct StdSink<W> {
    writer: W,
    faults: u64,
}

impl<W> Model for StdSink<W> {
    ghost use Rattle.std.specs.Prelude.{ℕ};

    ghost Value = { W × ℕ };

    ghost view = { λ sink. (sink.writer, sink.faults) };
}

impl<W> StdSink<W> {
    /// A sink over this writer. None of its writes has failed.
    pub fn new(writer: W) -> Self
        ensures { result ≡ (writer, 0) }
    {
        StdSink { writer, faults: 0 }
    }
}

impl<W: Write> Sink for StdSink<W> {
    ghost written = { λ _. None };

    ghost faults = { λ sink. sink.1 };

    fn write(&mut self, piece: &[u8]) -> Result<usize, SinkFault>
        requires { 0 < length piece.now }
        ensures bytes { Writes None None result piece.now }
        ensures count { self.old.1 ≤ self.new.1 }
        ensures failed { IsErrOf result SinkFault.Failed → Rose self.old.1 self.new.1 }
        ensures exact { MatchResult result
            (λ _. self.new.1 ≡ self.old.1)
            (λ fault. (fault ≡ SinkFault.Failed) × (self.new.1 ≡ count_up self.old.1)) }
        ensures writer { WriteAppends (W.contents self.old.0) (W.contents self.new.0) result piece.now }
    {
        match write_once(&mut self.writer, piece) {
            Ok(count) => Ok(count),
            Err(Failed) => {
                self.faults = self.faults.saturating_add(1);
                Err(SinkFault::Failed)
            }
        }
    }
}

/// One read, repeated if a signal stopped it before it took a byte.
pub fn read_once<R: Read>(reader: &mut R, buffer: &mut [u8]) -> Result<usize, Failed>
    ensures within { IfOk result (λ count. count ≤ length buffer.new) }
    ensures reader { ReadConsumes (R.remaining reader.old) (R.remaining reader.new) result buffer.new }
{
    for _ in 0..u64::MAX {
        match reader.read(buffer) {
            Ok(count) => return Ok(count),
            Err(fault) => {
                if fault.kind() != ErrorKind::Interrupted {
                    return Err(Failed);
                }
            }
        }
    }
    Err(Failed)
}

/// One write, repeated if a signal stopped it before it took a byte. A write that takes nothing fails as well.
pub fn write_once<W: Write>(writer: &mut W, piece: &[u8]) -> Result<usize, Failed>
    ensures within { IfOk result (λ count. (0 < count) × (count ≤ length piece.now)) }
    ensures writer { WriteAppends (W.contents writer.old) (W.contents writer.new) result piece.now }
{
    for _ in 0..u64::MAX {
        match writer.write(piece) {
            Ok(0) => return Err(Failed),
            Ok(count) => return Ok(count),
            Err(fault) => {
                if fault.kind() != ErrorKind::Interrupted {
                    return Err(Failed);
                }
            }
        }
    }
    Err(Failed)
}
