// Entries and cells as rows of the tables, and back.
ghost use Rattle.std.specs.Prelude.{◌≡◌, ◌≢◌, ◌↔◌, ◌<◌, ◌≤◌, ◌++◌, ◌^◌, ℕ, ℤ, pos, List, [], ◌∷◌, length, map, Any, IfOk, IsErrOf, IsTrue};
ghost use Rattle.std.specs.List.{AllByRecursion};
ghost use Rattle.sqlite_value.specs.declared.value.Value.TheVariants.{Null, Int, Text, Blob};
ghost use Rattle.sqlite_value.specs.Order.{column};
ghost use Rattle.sqlite_value.specs.Value.{owned};
ghost use Rattle.sqlite.specs.Values.{bound, bound_value, or_null};
ghost use Rattle.store_statements.specs.Names.{AreNameParts, lei_of, rest_of};
ghost use Rattle.store_statements.specs.Rows.{IsCellRow, IsEntryRow, cell_row, entry_row};
ghost use Rattle.store_tables.specs.Calls.{last_id};
ghost use Rattle.store_tables.specs.Stored.{form_1, second_row};

use crate::faults::fault_of;
use lei_keeper::KeepFault;
use lei_values::{Bytes, KeptCell, KeptEntry, List, NoMemory, Shared};
use sqlite::Row;
use sqlite::types::ValueRef;
use std::alloc::Global;

// How many characters an LEI has. They are the first part of a cell's name.
const LEI_LENGTH: usize = 20;

// The values of an entry, for a statement.
pub fn entry_values<'a>(entry: &'a KeptEntry) -> [ValueRef<'a>; 8]
    requires { entry.now.seq ≤ 9223372036854775807 }
    ensures row { bound result ≡ entry_row entry.now }
    ensures kind { entry.now.kind < 2 ^ 8 }
    ensures number { entry.now.number < 2 ^ 32 }
    ensures rules { entry.now.rules < 2 ^ 16 }
{
    [
        ValueRef::Int(entry.seq as i64),
        ValueRef::Int(of_byte(entry.kind)),
        ValueRef::Text(entry.office.as_slice()),
        ValueRef::Int(of_word(entry.number)),
        ValueRef::Int(entry.moment),
        ValueRef::Int(of_short(entry.rules)),
        ValueRef::Blob(entry.body.as_slice()),
        ValueRef::Blob(entry.answer.as_slice()),
    ]
}

// The values of a cell, for a statement.
pub fn cell_values<'a>(cell: &'a KeptCell) -> [ValueRef<'a>; 5]
    requires { cell.now.touched ≤ 9223372036854775807 }
    ensures row { bound result ≡ cell_row cell.now }
    ensures kind { cell.now.kind < 2 ^ 8 }
{
    [
        ValueRef::Int(of_byte(cell.kind)),
        ValueRef::Text(lei_part(cell.name.as_slice())),
        ValueRef::Text(rest_part(cell.name.as_slice())),
        ValueRef::Int(cell.touched as i64),
        row_value(&cell.row),
    ]
}

// The first part of a name, or the whole name if it is shorter.
fn lei_part(name: &[u8]) -> &[u8]
    ensures { result.now ≡ lei_of name.now }
{
    if name.len() < LEI_LENGTH {
        name
    } else {
        name.split_at(LEI_LENGTH).0
    }
}

// What follows that part.
fn rest_part(name: &[u8]) -> &[u8]
    ensures { result.now ≡ rest_of name.now }
{
    if name.len() < LEI_LENGTH {
        name.split_at(name.len()).1
    } else {
        name.split_at(LEI_LENGTH).1
    }
}

// A number as one of 64 bits, within the range of its type.
fn of_byte(number: u8) -> i64
    ensures value { result ≡ pos number }
    ensures range { number < 2 ^ 8 }
{
    i64::from(number)
}

fn of_short(number: u16) -> i64
    ensures value { result ≡ pos number }
    ensures range { number < 2 ^ 16 }
{
    i64::from(number)
}

fn of_word(number: u32) -> i64
    ensures value { result ≡ pos number }
    ensures range { number < 2 ^ 32 }
{
    i64::from(number)
}

fn row_value<'a>(row: &'a Option<Shared>) -> ValueRef<'a>
    ensures { bound_value (owned result) ≡ or_null Blob row.now }
{
    match row {
        Some(row) => ValueRef::Blob(row.as_slice()),
        None => ValueRef::Null,
    }
}

// The entry that a row has. A row without one is a failure, for instance if a kind is above 255 or a number is
// negative.
pub fn entry_of(alloc: Global, row: &Row) -> Result<KeptEntry, KeepFault>
    ensures ok { IfOk result (λ e. row.now ≡ entry_row e) }
    ensures err { IsErrOf result KeepFault.Failed → ¬ (IsEntryRow row.now) }
{
    if row.column_count() != 8 {
        return Err(KeepFault::Failed);
    }
    Ok(KeptEntry {
        seq: u64_at(row, 0)?,
        kind: below_at(row, 1, 1 << 8)? as u8,
        office: text_at(alloc, row, 2)?,
        number: below_at(row, 3, 1 << 32)? as u32,
        moment: i64_at(row, 4)?,
        rules: below_at(row, 5, 1 << 16)? as u16,
        body: Shared::copy_of(alloc, blob_at(row, 6)?)?,
        answer: Bytes::copy_of(alloc, blob_at(row, 7)?)?,
    })
}

// The cell that a row of form 2 has. A row without one is a failure.
pub fn cell_of(alloc: Global, row: &Row) -> Result<KeptCell, KeepFault>
    ensures ok { IfOk result (λ c. row.now ≡ cell_row c) }
    ensures err { IsErrOf result KeepFault.Failed → ¬ (IsCellRow row.now) }
{
    if row.column_count() != 5 {
        return Err(KeepFault::Failed);
    }
    Ok(KeptCell {
        kind: below_at(row, 0, 1 << 8)? as u8,
        name: name_in(alloc, row)?,
        touched: u64_at(row, 3)?,
        row: blob_or_null_at(alloc, row, 4)?,
    })
}

// The name whose two parts are in a row of form 2.
fn name_in(alloc: Global, row: &Row) -> Result<Bytes, KeepFault>
    requires { 2 < length row.now }
    ensures lei { IfOk result (λ name. column row.now 1 ≡ Text (lei_of name)) }
    ensures rest { IfOk result (λ name. column row.now 2 ≡ Text (rest_of name)) }
    ensures err { IsErrOf result KeepFault.Failed → (name : List ℕ) → column row.now 1 ≡ Text (lei_of name)
        → column row.now 2 ≢ Text (rest_of name) }
{
    let lei = text_in(row, 1)?;
    let rest = text_in(row, 2)?;
    if !are_parts(lei, rest) {
        return Err(KeepFault::Failed);
    }
    Ok(join_name(alloc, lei, rest)?)
}

// Whether two texts are the parts of a name: nothing follows a first part that is shorter than an LEI.
fn are_parts(lei: &[u8], rest: &[u8]) -> bool
    ensures { IsTrue result ↔ AreNameParts lei.now rest.now }
{
    lei.len() == LEI_LENGTH || (lei.len() < LEI_LENGTH && rest.is_empty())
}

// Both parts of a name joined.
fn join_name(alloc: Global, lei: &[u8], rest: &[u8]) -> Result<Bytes, NoMemory>
    ensures { IfOk result (λ name. name ≡ lei.now ++ rest.now) }
{
    let mut name = Vec::with_capacity(alloc, lei.len().saturating_add(rest.len()))?;
    name.extend_from_slice(lei)?;
    name.extend_from_slice(rest)?;
    Ok(Bytes::from(name))
}

// The cell that a row of form 1 has, as it is stored, with the row's id first.
fn first_cell_of(alloc: Global, row: &Row) -> Result<KeptCell, KeepFault>
    ensures ok { IfOk result (λ c. c ≡ form_1.read row.now) }
    ensures range { IfOk result (λ c. c.touched ≤ 9223372036854775807) }
{
    if row.column_count() != 5 {
        return Err(KeepFault::Failed);
    }
    Ok(KeptCell {
        kind: below_at(row, 1, 1 << 8)? as u8,
        name: text_at(alloc, row, 2)?,
        touched: u64_at(row, 3)?,
        row: blob_or_null_at(alloc, row, 4)?,
    })
}

// The entries that rows have, or a failure if a row has none.
pub fn entries_of(alloc: Global, rows: &[Row]) -> Result<List<KeptEntry>, KeepFault>
    ensures ok { IfOk result (λ list. rows.now ≡ map entry_row list) }
    ensures err { IsErrOf result KeepFault.Failed → Any (λ row. ¬ (IsEntryRow row)) rows.now }
{
    let mut list = Vec::with_capacity(alloc, rows.len())?;
    for row in rows {
        list.push(entry_of(alloc, row)?)?;
    }
    Ok(List::from(list))
}

// The cells that rows have, or a failure if a row has none.
pub fn cells_of(alloc: Global, rows: &[Row]) -> Result<List<KeptCell>, KeepFault>
    ensures ok { IfOk result (λ list. rows.now ≡ map cell_row list) }
    ensures err { IsErrOf result KeepFault.Failed → Any (λ row. ¬ (IsCellRow row)) rows.now }
{
    let mut list = Vec::with_capacity(alloc, rows.len())?;
    for row in rows {
        list.push(cell_of(alloc, row)?)?;
    }
    Ok(List::from(list))
}

// The cells that rows of form 1 have, or a failure if a row has none.
pub fn first_cells_of(alloc: Global, rows: &[Row]) -> Result<List<KeptCell>, KeepFault>
    ensures ok { IfOk result (λ list. list ≡ map form_1.read rows.now) }
    ensures range { IfOk result (λ list. AllByRecursion (λ c. c.touched ≤ 9223372036854775807) list) }
{
    let mut list = Vec::with_capacity(alloc, rows.len())?;
    for row in rows {
        list.push(first_cell_of(alloc, row)?)?;
    }
    Ok(List::from(list))
}

// The id of the last row of form 1, or `None` if there is no row.
pub fn last_row_id(rows: &[Row]) -> Result<Option<i64>, KeepFault>
    ensures { IfOk result (λ id. id ≡ last_id rows.now) }
{
    match rows.last() {
        Some(row) => Ok(Some(row_id(row)?)),
        None => Ok(None),
    }
}

// The id of a row, which comes first.
fn row_id(row: &Row) -> Result<i64, KeepFault>
    ensures { IfOk result (λ id. column row.now 0 ≡ Int id) }
{
    if row.column_count() == 0 {
        return Err(KeepFault::Failed);
    }
    i64_at(row, 0)
}

// Whether a row says form 2.
pub fn is_second(row: &Row) -> bool
    ensures { IsTrue result ↔ (row.now ≡ second_row) }
{
    row.column_count() == 2 && is_number_at(row, 0, 1) && is_number_at(row, 1, 2)
}

// Whether a column has this number.
fn is_number_at(row: &Row, at: usize, number: i64) -> bool
    requires { at < length row.now }
    ensures { IsTrue result ↔ (column row.now at ≡ Int number) }
{
    match row.get_ref(at) {
        Ok(ValueRef::Int(there)) => there == number,
        _ => false,
    }
}

// The number that a row of one column has.
pub fn number_of(row: &Row) -> Result<u64, KeepFault>
    ensures ok { IfOk result (λ n. row.now ≡ Int (pos n) ∷ []) }
    ensures err { IsErrOf result KeepFault.Failed → (n : ℕ) → row.now ≢ Int (pos n) ∷ [] }
{
    if row.column_count() != 1 {
        return Err(KeepFault::Failed);
    }
    u64_at(row, 0)
}

// The number in a column, if it isn't negative.
fn u64_at(row: &Row, at: usize) -> Result<u64, KeepFault>
    requires { at < length row.now }
    ensures ok { IfOk result (λ n. column row.now at ≡ Int (pos n)) }
    ensures range { IfOk result (λ n. n ≤ 9223372036854775807) }
    ensures err { IsErrOf result KeepFault.Failed → (n : ℕ) → column row.now at ≢ Int (pos n) }
{
    let number = i64_at(row, at)?;
    if number < 0 {
        Err(KeepFault::Failed)
    } else {
        Ok(number as u64)
    }
}

// The number in a column, if it is below this bound.
fn below_at(row: &Row, at: usize, bound: u64) -> Result<u64, KeepFault>
    requires { at < length row.now }
    ensures ok { IfOk result (λ n. column row.now at ≡ Int (pos n)) }
    ensures below { IfOk result (λ n. n < bound) }
    ensures err { IsErrOf result KeepFault.Failed → (n : ℕ) → n < bound → column row.now at ≢ Int (pos n) }
{
    let number = u64_at(row, at)?;
    if number < bound {
        Ok(number)
    } else {
        Err(KeepFault::Failed)
    }
}

// The number in a column, of either sign.
fn i64_at(row: &Row, at: usize) -> Result<i64, KeepFault>
    requires { at < length row.now }
    ensures ok { IfOk result (λ n. column row.now at ≡ Int n) }
    ensures err { IsErrOf result KeepFault.Failed → (n : ℤ) → column row.now at ≢ Int n }
{
    match row.get(at) {
        Ok(number) => Ok(number),
        Err(error) => Err(fault_of(error)),
    }
}

// The bytes of the text in a column.
fn text_at(alloc: Global, row: &Row, at: usize) -> Result<Bytes, KeepFault>
    requires { at < length row.now }
    ensures ok { IfOk result (λ bytes. column row.now at ≡ Text bytes) }
    ensures err { IsErrOf result KeepFault.Failed → (bytes : List ℕ) → column row.now at ≢ Text bytes }
{
    Ok(Bytes::copy_of(alloc, text_in(row, at)?)?)
}

// The bytes of the text in a column, borrowed.
fn text_in(row: &Row, at: usize) -> Result<&[u8], KeepFault>
    requires { at < length row.now }
    ensures ok { IfOk result (λ bytes. column row.now at ≡ Text bytes.now) }
    ensures err { IsErrOf result KeepFault.Failed → (bytes : List ℕ) → column row.now at ≢ Text bytes }
{
    match row.get_ref(at) {
        Ok(ValueRef::Text(bytes)) => Ok(bytes),
        _ => Err(KeepFault::Failed),
    }
}

// The blob in a column.
fn blob_at(row: &Row, at: usize) -> Result<&[u8], KeepFault>
    requires { at < length row.now }
    ensures ok { IfOk result (λ bytes. column row.now at ≡ Blob bytes.now) }
    ensures err { IsErrOf result KeepFault.Failed → (bytes : List ℕ) → column row.now at ≢ Blob bytes }
{
    match row.get_ref(at) {
        Ok(ValueRef::Blob(bytes)) => Ok(bytes),
        _ => Err(KeepFault::Failed),
    }
}

// The blob in a column, or `None` if the column has NULL.
fn blob_or_null_at(alloc: Global, row: &Row, at: usize) -> Result<Option<Shared>, KeepFault>
    requires { at < length row.now }
    ensures ok { IfOk result (λ bytes. column row.now at ≡ or_null Blob bytes) }
    ensures err { IsErrOf result KeepFault.Failed
        → (column row.now at ≢ Null) × ((bytes : List ℕ) → column row.now at ≢ Blob bytes) }
{
    match row.get_ref(at) {
        Ok(ValueRef::Null) => Ok(None),
        Ok(ValueRef::Blob(bytes)) => Ok(Some(Shared::copy_of(alloc, bytes)?)),
        _ => Err(KeepFault::Failed),
    }
}
