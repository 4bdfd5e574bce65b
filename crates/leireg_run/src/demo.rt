//! The command that makes up a register.
ghost use Rattle.std.specs.Prelude.{◌≤◌, IsErrOf};
ghost use Rattle.request_loop.specs.Devices.{FailsIf};
ghost use Rattle.leireg_run.specs.Ends.{WritesSummary};
ghost use Rattle.line_reading.specs.Status.{end_status};

use file_commands::tell_text;
use lei_outside::Sink;
use line_reading::Stop;
use register_demo::demo;
use std::alloc::Global;
use std::thread::Threads;

/// Makes up a register of this many records, and writes its summary. Until then the output reports the progress.
pub fn tell_demo<R: Threads + Sync, W: Sink>(
    rt: &R,
    alloc: Global,
    records: u32,
    out: &mut W,
) -> Result<(), Stop>
    requires least { 2 ≤ records }
    requires most { records ≤ 100_000 }
    ensures tells { WritesSummary records (W.written out.old) (W.written out.new) (end_status result) }
    ensures writes { FailsIf (IsErrOf result Stop.WriteFault) W.written W.faults out.old out.new }
{
    let summary = demo(rt, alloc, records, out)?;
    tell_text(summary.as_slice(), out)
}
