//! Sources and sinks over readers and writers that fail or are slow, and the clock of the machine.
use crate::fakes::{FailsAt, Slow};
use lei_outside::{Clock, Failed, Sink, SinkFault, Source};
use leireg_devices::{FileSource, StdSink, SystemClock};
use std::alloc::Global;
use std::io::ErrorKind;
use std::test::Fail;

// 2020-01-01T00:00:00Z.
const PAST: i64 = 1_577_836_800;

// 2200-01-01T00:00:00Z.
const AHEAD: i64 = 7_258_118_400;

// The results of the first two reads of a source of two bytes, whose reader fails at its first call in this way.
fn reads_after(kind: ErrorKind) -> [Result<usize, Failed>; 2] {
    let mut reader = FailsAt::new(b"ab".as_slice(), 1, kind);
    let mut source = FileSource::new(Some(&mut reader));
    let mut buffer = [0; 8];
    [source.read(&mut buffer), source.read(&mut buffer)]
}

// The results of two writes of two bytes to a sink, whose writer fails at its first call in this way.
fn writes_after(alloc: Global, kind: ErrorKind) -> [Result<usize, SinkFault>; 2] {
    let mut writer = FailsAt::new(Vec::new(alloc), 1, kind);
    let mut sink = StdSink::new(&mut writer);
    [sink.write(b"ab"), sink.write(b"ab")]
}

#[test]
fn a_read_that_failed_is_reported_and_the_next_gives_bytes(rt: HostRuntime) {
    assert!(rt; reads_after(ErrorKind::TimedOut) == [Err(Failed), Ok(2)]);
}

#[test]
fn a_write_that_failed_is_reported_and_the_next_is_made(rt: HostRuntime) {
    let writes = writes_after(rt.alloc(), ErrorKind::BrokenPipe);
    assert!(rt; writes == [Err(SinkFault::Failed), Ok(2)]);
}

// A call that a signal interrupts is made again.
#[test]
fn a_signal_is_no_fault(rt: HostRuntime) {
    assert!(rt; reads_after(ErrorKind::Interrupted) == [Ok(2), Ok(0)]);
    assert!(rt; writes_after(rt.alloc(), ErrorKind::Interrupted) == [Ok(2), Ok(2)]);
}

#[test]
fn a_write_that_takes_nothing_has_failed(rt: HostRuntime) {
    let mut writer = Slow {
        inner: Vec::new(rt.alloc()),
        most: 0,
    };
    let mut sink = StdSink::new(&mut writer);
    assert!(rt; sink.write(b"ab") == Err(SinkFault::Failed));
}

#[test]
fn the_clock_gives_the_time_of_day(rt: HostRuntime) -> Result<(), Fail> {
    let moment = SystemClock::new(&rt).now();
    assert!(rt; PAST < moment && moment < AHEAD, "{moment}");
    Ok(())
}
