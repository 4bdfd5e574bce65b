//! Applying a delta to a copy, in both forms.
ghost use Rattle.std.specs.Prelude.{◌≡◌, IsSome, Result as Results, Some};
ghost use Rattle.lei_code.specs.Texts.{Text};
ghost use Rattle.register_words.specs.declared.sheets.Form.{Form};
ghost use Rattle.copy_csv.specs.declared.heads.Head.{Head as DeclaredHead};
ghost use Rattle.copy_csv.specs.Rows.{AreChanges, AreRows};
ghost use Rattle.delta_apply.specs.declared.fault.ApplyFault.{ApplyFault as Fault};
ghost use Rattle.delta_apply.specs.Applying.{IsAnswer, IsNoDelta, LeadsOn, UnlessApplyLacksMemory};
ghost use Rattle.delta_apply.specs.Walks.{IsPatchedJson};

use crate::csv::patch_csv;
use crate::fault::ApplyFault;
use crate::json::patch_json;
use copy_forms::{CopyRead, DeltaRead, Form, FormFault, Head, Sheet, read_copy, read_delta};
use lei_values::{Bytes, NoMemory};
use std::alloc::Global;

/// The copy after the delta, in the delta's width. Faults are reported in the order of `ApplyFault`. `CopyNotRead` and
/// `DeltaNotRead` are returned if the bytes aren't printed as a copy, or a delta, of this sheet and form. In CSV no
/// heads are printed, so `WrongBase` is returned only in JSON: if the delta starts from another publication than the
/// copy's. `OlderDelta` is returned only in CSV of `lei`: if the copy is wide and the delta isn't. Unless memory runs
/// out, the result is the only right one.
pub fn apply(
    alloc: Global,
    copy: &[u8],
    delta: &[u8],
    sheet: Sheet,
    form: Form,
) -> Result<Bytes, ApplyFault>
    ensures answer { UnlessApplyLacksMemory result (IsAnswer copy.now delta.now sheet form result) }
    ensures only { (other : Results Text Fault) → IsAnswer copy.now delta.now sheet form other
        → UnlessApplyLacksMemory result (result ≡ other) }
    ensures leads_on { LeadsOn copy.now delta.now sheet form result }
{
    match form {
        Form::Csv => apply_in_csv(alloc, copy, delta, sheet),
        Form::Json => apply_in_json(alloc, copy, delta, sheet),
    }
}

fn apply_in_csv(alloc: Global, copy: &[u8], delta: &[u8], sheet: Sheet) -> Result<Bytes, ApplyFault>
    ensures { UnlessApplyLacksMemory result (IsAnswer copy.now delta.now sheet Form.Csv result) }
{
    let read = match read_delta(alloc, delta, sheet, Form::Csv) {
        Ok(read) => read,
        Err(FormFault::NotRead) => return answer_unread(alloc, copy, sheet),
        Err(FormFault::NoMemory) => return Err(ApplyFault::NoMemory),
    };
    let room = copy.len().saturating_add(delta.len());
    patch_csv(alloc, sheet, copy, &read, room)
}

// The result in CSV if the delta isn't one.
fn answer_unread(alloc: Global, copy: &[u8], sheet: Sheet) -> Result<Bytes, ApplyFault>
    ensures { (delta : Text) → IsNoDelta delta sheet Form.Csv
        → UnlessApplyLacksMemory result (IsAnswer copy.now delta sheet Form.Csv result) }
{
    match read_copy(alloc, copy, sheet, Form::Csv) {
        Ok(read) => {
            drop(read);
            Err(ApplyFault::DeltaNotRead)
        }
        Err(FormFault::NotRead) => Err(ApplyFault::CopyNotRead),
        Err(FormFault::NoMemory) => Err(ApplyFault::NoMemory),
    }
}

fn apply_in_json(
    alloc: Global,
    copy: &[u8],
    delta: &[u8],
    sheet: Sheet,
) -> Result<Bytes, ApplyFault>
    ensures { UnlessApplyLacksMemory result (IsAnswer copy.now delta.now sheet Form.Json result) }
{
    let base = match read_copy(alloc, copy, sheet, Form::Json) {
        Ok(read) => read,
        Err(FormFault::NotRead) => return Err(ApplyFault::CopyNotRead),
        Err(FormFault::NoMemory) => return Err(ApplyFault::NoMemory),
    };
    let read = match read_delta(alloc, delta, sheet, Form::Json) {
        Ok(read) => read,
        Err(FormFault::NotRead) => return Err(ApplyFault::DeltaNotRead),
        Err(FormFault::NoMemory) => return Err(ApplyFault::NoMemory),
    };
    let room = copy.len().saturating_add(delta.len());
    patch_read(alloc, sheet, &base, &read, room)
}

// The copy of the base's rows after the changes, if the delta starts from the base's publication.
fn patch_read(
    alloc: Global,
    sheet: Sheet,
    base: &CopyRead,
    delta: &DeltaRead,
    room: usize,
) -> Result<Bytes, ApplyFault>
    requires base { IsSome base.now.head }
    requires delta { IsSome delta.now.head }
    requires rows { AreRows sheet base.now.rows }
    requires changes { AreChanges sheet delta.now.changes }
    ensures { (base_head head : DeclaredHead) → base.now.head ≡ Some base_head → delta.now.head ≡ Some head
        → IsPatchedJson base_head base.now.rows head delta.now.changes result }
{
    let (Some(base_head), Some(head)) = (base.head, delta.head) else {
        unreachable!()
    };
    if base_head.publication != head.from {
        return Err(ApplyFault::WrongBase(base_head.publication, head.from));
    }
    let patched_head = Head { from: 0, ..head };
    let (rows, changes) = (base.rows.as_slice(), delta.changes.as_slice());
    match patch_json(alloc, sheet, &patched_head, rows, changes, room) {
        Ok(bytes) => Ok(bytes),
        Err(NoMemory) => Err(ApplyFault::NoMemory),
    }
}
