// The calls of a keeper, over a connection.
ghost use Rattle.std.specs.Prelude.{◌≡◌, [], ◌∷◌, false, Some, IsTrue, IfOk, OnOk};
ghost use Rattle.sqlite.specs.Held.{state};
ghost use Rattle.sqlite.specs.State.{HasCleanDisk};
ghost use Rattle.lei_values.specs.KeptTables.{IsBatch, KeptTables, cells_between, entries_between, last_number};
ghost use Rattle.store_tables.specs.Calls.{IsFirst, IsNewSchema, IsReadyStore, IsSteady, IsWholeStore, last_rows};
ghost use Rattle.store_tables.specs.Stored.{second_row};
ghost use Rattle.store_tables.specs.Told.{told_in_trees};
ghost use Rattle.keeper_sqlite.specs.Transactions.{EndsCommit, HasForm};

use crate::faults::Cause;
use crate::making::{add_tables, make_tables};
use crate::moving::{Stop, move_cells};
use crate::reading::{read_cells, read_entries, read_form, read_last};
use crate::rows::{cells_of, entries_of, is_second, number_of};
use crate::writing::write;
use lei_keeper::KeepFault;
use lei_values::{Batch, KeptCell, KeptEntry, List};
use sqlite::{Alter, Connection, Row};
use std::alloc::Global;
use store_statements::{Stage, stage_of};

// The form of a store, according to the table of the form.
#[derive(Clone, Copy, Debug, PartialEq, Eq)]
enum Form {
    // No row.
    First,
    // The only row says form 2.
    Second,
    // Anything else.
    Other,
}

// Makes all tables, if there is none but that of the entries.
fn make<S: Alter>(conn: &mut Connection<S>, cause: &mut Cause) -> Result<(), KeepFault>
    requires mode { conn.old.in_transaction ≡ false }
    requires begun { IsNewSchema (state S.Store conn.old).now.schema }
    requires settled { IsTrue (state S.Store conn.old).is_open
        → (state S.Store conn.old).now ≡ (state S.Store conn.old).committed }
    ensures steady { IsSteady (state S.Store conn.old) (state S.Store conn.new) }
    ensures mode { conn.new.in_transaction ≡ false }
{
    match make_tables(conn) {
        Ok(()) => Ok(()),
        Err(error) => Err(cause.note(error)),
    }
}

// Makes the tables added by form 2.
fn add<S: Alter>(conn: &mut Connection<S>, cause: &mut Cause) -> Result<(), KeepFault>
    requires mode { conn.old.in_transaction ≡ false }
    requires first { IsFirst (state S.Store conn.old).now.schema }
    requires settled { IsTrue (state S.Store conn.old).is_open
        → (state S.Store conn.old).now ≡ (state S.Store conn.old).committed }
    ensures steady { IsSteady (state S.Store conn.old) (state S.Store conn.new) }
    ensures mode { conn.new.in_transaction ≡ false }
{
    match add_tables(conn) {
        Ok(()) => Ok(()),
        Err(error) => Err(cause.note(error)),
    }
}

// Makes the tables that are missing. A store with any other schema isn't touched, nor is one inside a transaction.
fn make_missing<S: Alter>(conn: &mut Connection<S>, cause: &mut Cause) -> Result<(), KeepFault>
    ensures steady { IsSteady (state S.Store conn.old) (state S.Store conn.new) }
{
    if !conn.is_autocommit() {
        *cause = Cause::Transaction;
        return Err(KeepFault::Failed);
    }
    match stage_of(conn.schema()) {
        Stage::Whole => Ok(()),
        Stage::Nothing => make(conn, cause),
        Stage::Entries => make(conn, cause),
        Stage::Both => add(conn, cause),
        Stage::Store => add(conn, cause),
        Stage::Other => {
            *cause = Cause::Tables;
            Err(KeepFault::Failed)
        }
    }
}

// The form that is written in the rows of the form's table.
fn form_in(rows: &[Row]) -> Form
    ensures first { (result ≡ Form.First) → (rows.now ≡ []) }
    ensures second { (result ≡ Form.Second) → (rows.now ≡ second_row ∷ []) }
{
    match rows {
        [] => Form::First,
        [row] if is_second(row) => Form::Second,
        _ => Form::Other,
    }
}

// The form of a store that was found to have all four tables.
fn known_form<S: Alter>(conn: &mut Connection<S>, cause: &mut Cause) -> Result<Form, KeepFault>
    requires mode { conn.old.in_transaction ≡ false }
    requires whole { IsWholeStore (state S.Store conn.old) }
    ensures steady { IsSteady (state S.Store conn.old) (state S.Store conn.new) }
    ensures mode { conn.new.in_transaction ≡ false }
    ensures form { HasCleanDisk (state S.Store conn.new)
        → IfOk result (HasForm (state S.Store conn.new)) }
{
    match read_form(conn) {
        Ok(rows) => Ok(form_in(rows.as_slice())),
        Err(error) => Err(cause.note(error)),
    }
}

// The form of a store. One without all four tables is refused.
fn form_of<S: Alter>(conn: &mut Connection<S>, cause: &mut Cause) -> Result<Form, KeepFault>
    ensures steady { IsSteady (state S.Store conn.old) (state S.Store conn.new) }
    ensures mode { OnOk result (conn.new.in_transaction ≡ false) }
    ensures form { HasCleanDisk (state S.Store conn.new)
        → IfOk result (HasForm (state S.Store conn.new)) }
{
    if !conn.is_autocommit() {
        *cause = Cause::Transaction;
        return Err(KeepFault::Failed);
    }
    match stage_of(conn.schema()) {
        Stage::Whole => known_form(conn, cause),
        _ => Err(KeepFault::Failed),
    }
}

// Whether a store has cells of form 2.
fn has_cells<S: Alter>(conn: &mut Connection<S>, cause: &mut Cause) -> Result<bool, KeepFault>
    requires whole { HasCleanDisk (state S.Store conn.old) → IsWholeStore (state S.Store conn.old) }
    ensures steady { IsSteady (state S.Store conn.old) (state S.Store conn.new) }
{
    match read_cells(conn, 0, u64::MAX) {
        Ok(rows) => Ok(!rows.is_empty()),
        Err(error) => Err(cause.note(error)),
    }
}

// Moves a store of form 1 to form 2.
fn move_store<S: Alter>(
    conn: &mut Connection<S>,
    alloc: Global,
    cause: &mut Cause,
) -> Result<(), KeepFault>
    requires mode { conn.old.in_transaction ≡ false }
    requires first { HasCleanDisk (state S.Store conn.old)
        → HasForm (state S.Store conn.old) Form.First }
    ensures steady { IsSteady (state S.Store conn.old) (state S.Store conn.new) }
{
    match move_cells(conn, alloc) {
        Ok(()) => Ok(()),
        Err(Stop::Statement(error)) => Err(cause.note(error)),
        Err(Stop::Row(fault)) => Err(fault),
    }
}

// Moves a store to form 2, if it has form 1 and no cell of form 2.
fn upgrade<S: Alter>(
    conn: &mut Connection<S>,
    alloc: Global,
    cause: &mut Cause,
) -> Result<(), KeepFault>
    requires whole { HasCleanDisk (state S.Store conn.old) → IsWholeStore (state S.Store conn.old) }
    ensures steady { IsSteady (state S.Store conn.old) (state S.Store conn.new) }
{
    if has_cells(conn, cause)? {
        return Err(KeepFault::Failed);
    }
    move_first(conn, alloc, cause)
}

// Moves a store to form 2, if it has form 1.
fn move_first<S: Alter>(
    conn: &mut Connection<S>,
    alloc: Global,
    cause: &mut Cause,
) -> Result<(), KeepFault>
    ensures steady { IsSteady (state S.Store conn.old) (state S.Store conn.new) }
{
    match form_of(conn, cause)? {
        Form::First => move_store(conn, alloc, cause),
        _ => Err(KeepFault::Failed),
    }
}

// Checks that a store has form 2.
fn confirm<S: Alter>(conn: &mut Connection<S>, cause: &mut Cause) -> Result<(), KeepFault>
    ensures steady { IsSteady (state S.Store conn.old) (state S.Store conn.new) }
    ensures mode { OnOk result (conn.new.in_transaction ≡ false) }
    ensures ready { HasCleanDisk (state S.Store conn.new)
        → OnOk result (IsReadyStore (state S.Store conn.new)) }
{
    match form_of(conn, cause)? {
        Form::Second => Ok(()),
        _ => Err(KeepFault::Failed),
    }
}

// Moves a store to form 2, and checks that it has form 2.
fn upgrade_fully<S: Alter>(
    conn: &mut Connection<S>,
    alloc: Global,
    cause: &mut Cause,
) -> Result<(), KeepFault>
    requires whole { HasCleanDisk (state S.Store conn.old) → IsWholeStore (state S.Store conn.old) }
    ensures steady { IsSteady (state S.Store conn.old) (state S.Store conn.new) }
    ensures mode { OnOk result (conn.new.in_transaction ≡ false) }
    ensures ready { HasCleanDisk (state S.Store conn.new)
        → OnOk result (IsReadyStore (state S.Store conn.new)) }
{
    upgrade(conn, alloc, cause)?;
    confirm(conn, cause)
}

// Moves a store with all four tables to form 2, if it has form 1.
fn settle<S: Alter>(
    conn: &mut Connection<S>,
    alloc: Global,
    cause: &mut Cause,
) -> Result<(), KeepFault>
    ensures steady { IsSteady (state S.Store conn.old) (state S.Store conn.new) }
    ensures mode { OnOk result (conn.new.in_transaction ≡ false) }
    ensures ready { HasCleanDisk (state S.Store conn.new)
        → OnOk result (IsReadyStore (state S.Store conn.new)) }
{
    match form_of(conn, cause)? {
        Form::Second => Ok(()),
        Form::First => upgrade_fully(conn, alloc, cause),
        Form::Other => Err(KeepFault::Failed),
    }
}

// Makes the tables that are missing, and moves a store of form 1 to form 2.
pub fn prepare<S: Alter>(
    conn: &mut Connection<S>,
    alloc: Global,
    cause: &mut Cause,
) -> Result<(), KeepFault>
    ensures steady { IsSteady (state S.Store conn.old) (state S.Store conn.new) }
    ensures mode { OnOk result (conn.new.in_transaction ≡ false) }
    ensures ready { HasCleanDisk (state S.Store conn.new)
        → OnOk result (IsReadyStore (state S.Store conn.new)) }
{
    // If nothing else is noted of a failure, the cause is a row.
    *cause = Cause::Row;
    make_missing(conn, cause)?;
    settle(conn, alloc, cause)
}

// The number of the last entry, from the rows that were read for it: 0 if there is none.
fn number_in(rows: &[Row]) -> Result<u64, KeepFault>
    ensures { IfOk result (λ number. (t : KeptTables) → rows.now ≡ last_rows t → number ≡ last_number t) }
{
    match rows.first() {
        Some(row) => number_of(row),
        None => Ok(0),
    }
}

// The number of the last entry.
pub fn last<S: Alter>(
    conn: &mut Connection<S>,
    alloc: Global,
    cause: &mut Cause,
) -> Result<u64, KeepFault>
    ensures steady { IsSteady (state S.Store conn.old) (state S.Store conn.new) }
    ensures answer { HasCleanDisk (state S.Store conn.new) → IfOk result (λ number.
        (t : KeptTables) → told_in_trees (state S.Store conn.new).now.schema
        (state S.Store conn.new).now.trees
        ≡ Some t → number ≡ last_number t) }
{
    prepare(conn, alloc, cause)?;
    match read_last(conn) {
        Ok(rows) => number_in(rows.as_slice()),
        Err(error) => Err(cause.note(error)),
    }
}

// The entries whose number is greater than `after` and at most `upto`, in order.
pub fn entries<S: Alter>(
    conn: &mut Connection<S>,
    alloc: Global,
    after: u64,
    upto: u64,
    cause: &mut Cause,
) -> Result<List<KeptEntry>, KeepFault>
    ensures steady { IsSteady (state S.Store conn.old) (state S.Store conn.new) }
    ensures answer { HasCleanDisk (state S.Store conn.new) → IfOk result (λ list.
        (t : KeptTables) → told_in_trees (state S.Store conn.new).now.schema
        (state S.Store conn.new).now.trees
        ≡ Some t → list ≡ entries_between after upto t) }
{
    prepare(conn, alloc, cause)?;
    match read_entries(conn, after, upto) {
        Ok(rows) => entries_of(alloc, rows.as_slice()),
        Err(error) => Err(cause.note(error)),
    }
}

// The cells whose last entry has a number greater than `after` and at most `upto`, in the order of kinds and names.
pub fn cells<S: Alter>(
    conn: &mut Connection<S>,
    alloc: Global,
    after: u64,
    upto: u64,
    cause: &mut Cause,
) -> Result<List<KeptCell>, KeepFault>
    ensures steady { IsSteady (state S.Store conn.old) (state S.Store conn.new) }
    ensures answer { HasCleanDisk (state S.Store conn.new) → IfOk result (λ list.
        (t : KeptTables) → told_in_trees (state S.Store conn.new).now.schema
        (state S.Store conn.new).now.trees
        ≡ Some t → list ≡ cells_between after upto t) }
{
    prepare(conn, alloc, cause)?;
    match read_cells(conn, after, upto) {
        Ok(rows) => cells_of(alloc, rows.as_slice()),
        Err(error) => Err(cause.note(error)),
    }
}

// Keeps a batch in a store that is ready.
fn keep<S: Alter>(
    conn: &mut Connection<S>,
    batch: &Batch,
    cause: &mut Cause,
) -> Result<(), KeepFault>
    requires batch { IsBatch batch.now }
    requires mode { conn.old.in_transaction ≡ false }
    requires ready { HasCleanDisk (state S.Store conn.old) → IsReadyStore (state S.Store conn.old) }
    ensures { EndsCommit batch.now result (state S.Store conn.old) (state S.Store conn.new) }
{
    match write(conn, batch) {
        Ok(()) => Ok(()),
        Err(error) => Err(cause.note(error)),
    }
}

// Keeps a batch: its entry after the others, and its cells in their places.
pub fn commit<S: Alter>(
    conn: &mut Connection<S>,
    alloc: Global,
    batch: &Batch,
    cause: &mut Cause,
) -> Result<(), KeepFault>
    requires { IsBatch batch.now }
    ensures { EndsCommit batch.now result (state S.Store conn.old) (state S.Store conn.new) }
{
    match prepare(conn, alloc, cause) {
        Ok(()) => keep(conn, batch, cause),
        Err(fault) => Err(fault),
    }
}
