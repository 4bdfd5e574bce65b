//! The command that reports on groups.
ghost use Rattle.std.specs.Prelude.{Err, IsErrOf};
ghost use Rattle.request_loop.specs.Devices.{FailsIf};
ghost use Rattle.file_commands.specs.Grouping.{IsReport, IsReportOf, Reports, UnlessGroupLacksMemory, group_refusal};
ghost use Rattle.file_commands.specs.TwoFiles.{DoesWithFiles, OneFailsIf, WritesOutcome, WritesResultOf, files};
ghost use Rattle.request_loop.specs.Wires.{IsSent};
ghost use Rattle.line_reading.specs.Status.{end_status};

use crate::files::read_file;
use crate::writing::{tell_text, write_numbers};
use copy_csv::{Form, FormFault, Sheet};
use copy_forms::read_copy;
use group_reports::{GroupFault, Groups, ReportFault};
use lei_outside::{Sink, SinkFault, Source};
use lei_values::{Bytes, NoMemory};
use line_reading::Stop;
use request_loop::write_pieces;
use std::alloc::Global;

/// Why no report is made.
#[derive(Clone, Copy)]
pub enum GroupRefusal {
    /// The first file isn't a golden copy of `lei` in this form.
    LeiCopyNotRead,
    /// The second file isn't a golden copy of `rr` in this form.
    RrCopyNotRead,
    /// In JSON: the numbers of the two publications, which differ.
    OtherPublication(u32, u32),
    /// The first copy has no row for the entity.
    LeiUnknown,
    /// Memory ran out.
    NoMemory,
}

/// Reads a copy of `lei` and one of `rr` to their ends. Then it writes the report on the group of an entity, or why
/// there is none. With `ALL` instead of an LEI, the report is on all starts of relationships.
pub fn group<S: Source, T: Source, W: Sink>(
    alloc: Global,
    who: &str,
    form: Form,
    input: &mut S,
    second: &mut T,
    out: &mut W,
) -> Result<(), Stop>
    ensures reports { DoesWithFiles (Reports who.now form)
        (files (S.left input.old) (T.left second.old) (W.written out.old))
        (files (S.left input.new) (T.left second.new) (W.written out.new))
        (end_status result) }
    ensures reads { OneFailsIf (IsErrOf result Stop.ReadFault) S.left S.faults input.old input.new
        T.left T.faults second.old second.new }
    ensures writes { FailsIf (IsErrOf result Stop.WriteFault) W.written W.faults out.old out.new }
{
    let lei = read_file(alloc, input)?;
    let rr = read_file(alloc, second)?;
    tell(alloc, who, form, &lei, &rr, out)
}

// Writes the result for a copy of `lei` and one of `rr`.
fn tell<W: Sink>(
    alloc: Global,
    who: &str,
    form: Form,
    lei: &[u8],
    rr: &[u8],
    out: &mut W,
) -> Result<(), Stop>
    ensures tells { WritesResultOf (Reports who.now form) lei.now rr.now (W.written out.old)
        (W.written out.new)
        (end_status result) }
    ensures no_read_fault { ¬ (IsErrOf result Stop.ReadFault) }
    ensures writes { FailsIf (IsErrOf result Stop.WriteFault) W.written W.faults out.old out.new }
{
    match report(alloc, who, form, lei, rr) {
        Ok(text) => tell_text(text.as_slice(), out),
        Err(GroupRefusal::NoMemory) => Err(Stop::NoMemory),
        Err(refusal) => refuse(refusal, out),
    }
}

// The report from a copy of `lei` and one of `rr`, or why there is none.
fn report(
    alloc: Global,
    who: &str,
    form: Form,
    lei: &[u8],
    rr: &[u8],
) -> Result<Bytes, GroupRefusal>
    ensures { UnlessGroupLacksMemory result (IsReport who.now form lei.now rr.now result) }
{
    let lei = match read_copy(alloc, lei, Sheet::Lei, form) {
        Ok(copy) => copy,
        Err(FormFault::NotRead) => return Err(GroupRefusal::LeiCopyNotRead),
        Err(FormFault::NoMemory) => return Err(GroupRefusal::NoMemory),
    };
    let rr = match read_copy(alloc, rr, Sheet::Rr, form) {
        Ok(copy) => copy,
        Err(FormFault::NotRead) => return Err(GroupRefusal::RrCopyNotRead),
        Err(FormFault::NoMemory) => return Err(GroupRefusal::NoMemory),
    };
    match Groups::open(alloc, &lei, &rr) {
        Ok(groups) => report_by(&groups, who),
        Err(GroupFault::OtherPublication(p, q)) => Err(GroupRefusal::OtherPublication(p, q)),
        Err(GroupFault::NoMemory) => Err(GroupRefusal::NoMemory),
    }
}

// The report from groups that are known.
fn report_by(groups: &Groups, who: &str) -> Result<Bytes, GroupRefusal>
    ensures { IsReportOf groups.now who.now result }
{
    if who == "ALL" {
        return match groups.disagreements() {
            Ok(text) => Ok(text),
            Err(NoMemory) => Err(GroupRefusal::NoMemory),
        };
    }
    match groups.report(who) {
        Ok(text) => Ok(text),
        Err(ReportFault::LeiUnknown) => Err(GroupRefusal::LeiUnknown),
        Err(ReportFault::NoMemory) => Err(GroupRefusal::NoMemory),
    }
}

// Writes why there is no report.
fn refuse<W: Sink>(refusal: GroupRefusal, out: &mut W) -> Result<(), Stop>
    ensures tells { WritesOutcome (Err (group_refusal refusal)) (W.written out.old) (W.written out.new)
        (end_status result) }
    ensures no_read_fault { ¬ (IsErrOf result Stop.ReadFault) }
    ensures writes { FailsIf (IsErrOf result Stop.WriteFault) W.written W.faults out.old out.new }
{
    write_refusal(refusal, out)?;
    Err(Stop::Refused)
}

fn write_refusal<W: Sink>(refusal: GroupRefusal, out: &mut W) -> Result<(), SinkFault>
    ensures written { IsSent (W.written out.old) (W.written out.new) (group_refusal refusal) result }
    ensures writes { FailsIf (IsErrOf result SinkFault.Failed) W.written W.faults out.old out.new }
{
    match refusal {
        GroupRefusal::LeiCopyNotRead => write_pieces(out, &[b"refused LEI_COPY_NOT_READ\n"]),
        GroupRefusal::RrCopyNotRead => write_pieces(out, &[b"refused RR_COPY_NOT_READ\n"]),
        GroupRefusal::OtherPublication(p, q) => {
            write_numbers(b"refused OTHER_PUBLICATION ", p, q, out)
        }
        GroupRefusal::LeiUnknown => write_pieces(out, &[b"refused LEI_UNKNOWN\n"]),
        GroupRefusal::NoMemory => Ok(()),
    }
}
