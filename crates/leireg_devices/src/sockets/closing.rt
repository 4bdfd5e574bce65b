//! The end of a connection.
use std::io::Read;
use std::net::{Shutdown, TcpStream};
use std::time::{Clock, Duration, Instant};

// How many bytes a peer may still send after the last reply: twice the greatest body of an upload. This project's
// profile.
const CLOSING_BYTES: usize = 8_388_608;

// How long a peer may be silent before it counts as sending nothing more, in milliseconds.
const SILENCE: u64 = 200;

// How many bytes are read at a time.
const BLOCK: usize = 16_384;

/// Closes a connection so that its peer gets what was written. If the connection were closed while bytes of the peer
/// are unread, the system would reset it, and the peer would lose the last reply. So nothing more is sent. What the
/// peer still sends is read and dropped until the peer closes or is silent for 200 milliseconds. This ends after `time`
/// or after 8 MiB at the latest.
pub fn close<R: Clock>(rt: &R, mut stream: TcpStream, time: Duration) {
    let Ok(begin) = Instant::now(rt) else {
        return;
    };
    if stream.shutdown(Shutdown::Write).is_err() {
        return;
    }
    let mut buffer = [0; BLOCK];
    let mut dropped = 0;
    for _ in 0..CLOSING_BYTES {
        let Some(wait) = wait_left(rt, begin, time) else {
            return;
        };
        match read_within(&mut stream, &mut buffer, wait) {
            Some(count) if dropped < CLOSING_BYTES => dropped = count.saturating_add(dropped),
            _ => return,
        }
    }
}

// How long the next read may wait within a time that started at this moment. It is `None` if this time has passed or
// the clock can't be read.
fn wait_left<R: Clock>(rt: &R, begin: Instant, time: Duration) -> Option<Duration> {
    let passed = begin.elapsed(rt).ok()?;
    let left = time.checked_sub(passed)?;
    if left.is_zero() {
        None
    } else {
        Some(left.min(Duration::from_millis(SILENCE)))
    }
}

// How many bytes come within a time, or `None` at the end, after the time and after a failure.
fn read_within(stream: &mut TcpStream, buffer: &mut [u8], time: Duration) -> Option<usize> {
    stream.set_read_timeout(Some(time)).ok()?;
    match stream.read(buffer) {
        Ok(0) | Err(_) => None,
        Ok(count) => Some(count),
    }
}
