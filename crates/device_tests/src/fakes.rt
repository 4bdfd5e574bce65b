//! Readers and writers that tests supply.
use std::io;
use std::io::{Error, ErrorKind, Read, Write};

/// Passes on at most this many bytes per call.
#[derive(Drop)]
pub struct Slow<T> {
    pub inner: T,
    pub most: usize,
}

impl<T: Read> Read for Slow<T> {
    fn read(&mut self, buffer: &mut [u8]) -> io::Result<usize> {
        let most = self.most.min(buffer.len());
        self.inner.read(&mut buffer[..most])
    }
}

impl<T: Write> Write for Slow<T> {
    fn write(&mut self, piece: &[u8]) -> io::Result<usize> {
        let most = self.most.min(piece.len());
        self.inner.write(&piece[..most])
    }

    fn flush(&mut self) -> io::Result<()> {
        self.inner.flush()
    }
}

/// Fails at the call with this number, counted from 1, and passes on all others.
#[derive(Drop)]
pub struct FailsAt<T> {
    pub inner: T,
    pub call: u64,
    pub kind: ErrorKind,
    pub calls: u64,
}

impl<T> FailsAt<T> {
    pub fn new(inner: T, call: u64, kind: ErrorKind) -> Self {
        FailsAt {
            inner,
            call,
            kind,
            calls: 0,
        }
    }

    fn fails_now(&mut self) -> bool {
        self.calls = self.calls.saturating_add(1);
        self.calls == self.call
    }
}

impl<T: Read> Read for FailsAt<T> {
    fn read(&mut self, buffer: &mut [u8]) -> io::Result<usize> {
        if self.fails_now() {
            return Err(Error::from(self.kind));
        }
        self.inner.read(buffer)
    }
}

impl<T: Write> Write for FailsAt<T> {
    fn write(&mut self, piece: &[u8]) -> io::Result<usize> {
        if self.fails_now() {
            return Err(Error::from(self.kind));
        }
        self.inner.write(piece)
    }

    fn flush(&mut self) -> io::Result<()> {
        self.inner.flush()
    }
}
