//! Copies and deltas in both forms: printing, and reading back exactly what is printed.
ghost use Rattle.std.specs.Prelude.{◌≡◌, Bool, List as Items, map, IfOk, IsErrOf};
ghost use Rattle.copy_csv.specs.declared.faults.FormFault.{FormFault};
ghost use Rattle.copy_csv.specs.declared.heads.Head.{Head as DeclaredHead};
ghost use Rattle.register_words.specs.declared.sheets.Form.{Form};
ghost use Rattle.copy_csv.specs.declared.rows.Change.{Change};
ghost use Rattle.std.specs.List.{All};
ghost use Rattle.copy_csv.specs.Csv.{csv_copy, csv_delta, rendered_in};
ghost use Rattle.copy_forms.specs.Json.{json_copy, json_delta};
ghost use Rattle.copy_forms.specs.Files.{IsCopy, IsCopyRead, IsDelta, IsDeltaRead, copy, delta, rendered_change, row_renderings};
ghost use Rattle.copy_csv.specs.Rows.{IsChangeOf, IsRowOfSheet};
ghost use Rattle.copy_csv.specs.Sheets.{SheetRow};

use crate::json_files::{read_json_copy, read_json_delta};
use crate::json_write::{json_copy_text, json_delta_text};
use copy_csv::{
    CopyRead, DeltaRead, Form, FormFault, Head, RowTexts, Sheet, TextChange, are_changes_rising,
    are_rows_rising, csv_copy_text, csv_delta_text, read_csv_copy, read_csv_delta,
};
use lei_values::{Bytes, List, NoMemory};
use std::alloc::Global;

/// Reads a copy. Unless memory runs out, it succeeds if and only if the bytes are the text of some head and rows of the
/// sheet. The width must be one that the sheet has, the rows must be of UTF-8, and their keys must rise. `NotRead` says
/// that the bytes aren't such a text.
pub fn read_copy(
    alloc: Global,
    bytes: &[u8],
    sheet: Sheet,
    form: Form,
) -> Result<CopyRead, FormFault>
    ensures found { IfOk result (λ read. IsCopyRead bytes.now sheet form read) }
    ensures only { IsErrOf result FormFault.NotRead
        → (head : DeclaredHead) (wide : Bool) (rows : Items SheetRow)
        → IsCopy bytes.now sheet form head wide rows → ⊥ }
{
    match form {
        Form::Csv => read_copy_in_csv(alloc, bytes, sheet),
        Form::Json => read_copy_in_json(alloc, bytes, sheet),
    }
}

fn read_copy_in_csv(alloc: Global, bytes: &[u8], sheet: Sheet) -> Result<CopyRead, FormFault>
    ensures found { IfOk result (λ read. IsCopyRead bytes.now sheet Form.Csv read) }
    ensures only { IsErrOf result FormFault.NotRead
        → (head : DeclaredHead) (wide : Bool) (rows : Items SheetRow)
        → IsCopy bytes.now sheet Form.Csv head wide rows → ⊥ }
{
    read_csv_copy(alloc, bytes, sheet)
}

fn read_copy_in_json(alloc: Global, bytes: &[u8], sheet: Sheet) -> Result<CopyRead, FormFault>
    ensures found { IfOk result (λ read. IsCopyRead bytes.now sheet Form.Json read) }
    ensures only { IsErrOf result FormFault.NotRead
        → (head : DeclaredHead) (wide : Bool) (rows : Items SheetRow)
        → IsCopy bytes.now sheet Form.Json head wide rows → ⊥ }
{
    match read_json_copy(alloc, bytes, sheet) {
        Ok((head, rows)) => {
            if are_rows_rising(sheet, &rows) {
                Ok(CopyRead {
                    head: Some(head),
                    wide: false,
                    rows: List::from(rows),
                })
            } else {
                Err(FormFault::NotRead)
            }
        }
        Err(fault) => Err(fault),
    }
}

/// Reads a delta. Unless memory runs out, it succeeds if and only if the bytes are the text of some head and changes of
/// the sheet. The width must be one that the sheet has, the changes must be of UTF-8, and their keys must rise. The row
/// of a dropped key must have only the key. `NotRead` says that the bytes aren't such a text.
pub fn read_delta(
    alloc: Global,
    bytes: &[u8],
    sheet: Sheet,
    form: Form,
) -> Result<DeltaRead, FormFault>
    ensures found { IfOk result (λ read. IsDeltaRead bytes.now sheet form read) }
    ensures only { IsErrOf result FormFault.NotRead
        → (head : DeclaredHead) (wide : Bool) (changes : Items Change)
        → IsDelta bytes.now sheet form head wide changes → ⊥ }
{
    match form {
        Form::Csv => read_delta_in_csv(alloc, bytes, sheet),
        Form::Json => read_delta_in_json(alloc, bytes, sheet),
    }
}

fn read_delta_in_csv(alloc: Global, bytes: &[u8], sheet: Sheet) -> Result<DeltaRead, FormFault>
    ensures found { IfOk result (λ read. IsDeltaRead bytes.now sheet Form.Csv read) }
    ensures only { IsErrOf result FormFault.NotRead
        → (head : DeclaredHead) (wide : Bool) (changes : Items Change)
        → IsDelta bytes.now sheet Form.Csv head wide changes → ⊥ }
{
    read_csv_delta(alloc, bytes, sheet)
}

fn read_delta_in_json(alloc: Global, bytes: &[u8], sheet: Sheet) -> Result<DeltaRead, FormFault>
    ensures found { IfOk result (λ read. IsDeltaRead bytes.now sheet Form.Json read) }
    ensures only { IsErrOf result FormFault.NotRead
        → (head : DeclaredHead) (wide : Bool) (changes : Items Change)
        → IsDelta bytes.now sheet Form.Json head wide changes → ⊥ }
{
    match read_json_delta(alloc, bytes, sheet) {
        Ok((head, changes)) => {
            if are_changes_rising(sheet, &changes) {
                Ok(DeltaRead {
                    head: Some(head),
                    wide: false,
                    changes: List::from(changes),
                })
            } else {
                Err(FormFault::NotRead)
            }
        }
        Err(fault) => Err(fault),
    }
}

/// The text of a copy with these rendered rows, in this width and with this head. In CSV the head isn't printed. The
/// width matters only in CSV of `lei`.
pub fn copy_text(
    alloc: Global,
    sheet: Sheet,
    form: Form,
    wide: bool,
    head: &Head,
    rows: &[RowTexts],
) -> Result<Bytes, NoMemory>
    ensures { IfOk result (λ bytes. (sheet_rows : Items SheetRow) → rows.now ≡ map row_renderings sheet_rows
        → All (IsRowOfSheet sheet) sheet_rows → bytes ≡ copy sheet form wide head.now sheet_rows) }
{
    match form {
        Form::Csv => copy_in_csv(alloc, sheet, wide, rows),
        Form::Json => copy_in_json(alloc, head, rows),
    }
}

fn copy_in_csv(
    alloc: Global,
    sheet: Sheet,
    wide: bool,
    rows: &[RowTexts],
) -> Result<Bytes, NoMemory>
    ensures { IfOk result (λ bytes. (sheet_rows : Items SheetRow) → rows.now ≡ map row_renderings sheet_rows
        → All (IsRowOfSheet sheet) sheet_rows → bytes ≡ csv_copy sheet wide sheet_rows) }
{
    csv_copy_text(alloc, sheet, wide, rows)
}

fn copy_in_json(alloc: Global, head: &Head, rows: &[RowTexts]) -> Result<Bytes, NoMemory>
    ensures { IfOk result (λ bytes. (sheet_rows : Items SheetRow) → rows.now ≡ map row_renderings sheet_rows
        → bytes ≡ json_copy head.now sheet_rows) }
{
    json_copy_text(alloc, head, rows)
}

/// The text of a delta with these changes, in this width and with this head. Each change must be rendered from one that
/// a delta of the sheet may have. The width matters only in CSV of `lei`.
pub fn delta_text(
    alloc: Global,
    sheet: Sheet,
    form: Form,
    wide: bool,
    head: &Head,
    changes: &[TextChange<'_>],
) -> Result<Bytes, NoMemory>
    ensures { IfOk result (λ bytes. (sheet_changes : Items Change)
        → map rendered_in changes.now ≡ map rendered_change sheet_changes
        → All (IsChangeOf sheet) sheet_changes → bytes ≡ delta sheet form wide head.now sheet_changes) }
{
    match form {
        Form::Csv => delta_in_csv(alloc, sheet, wide, changes),
        Form::Json => delta_in_json(alloc, head, changes),
    }
}

fn delta_in_csv(
    alloc: Global,
    sheet: Sheet,
    wide: bool,
    changes: &[TextChange<'_>],
) -> Result<Bytes, NoMemory>
    ensures { IfOk result (λ bytes. (sheet_changes : Items Change)
        → map rendered_in changes.now ≡ map rendered_change sheet_changes
        → All (IsChangeOf sheet) sheet_changes → bytes ≡ csv_delta sheet wide sheet_changes) }
{
    csv_delta_text(alloc, sheet, wide, changes)
}

fn delta_in_json(alloc: Global, head: &Head, changes: &[TextChange<'_>]) -> Result<Bytes, NoMemory>
    ensures { IfOk result (λ bytes. (sheet_changes : Items Change)
        → map rendered_in changes.now ≡ map rendered_change sheet_changes
        → bytes ≡ json_delta head.now sheet_changes) }
{
    json_delta_text(alloc, head, changes)
}
