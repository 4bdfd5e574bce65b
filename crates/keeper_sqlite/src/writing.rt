// What is written into the tables, inside a transaction.
ghost use Rattle.std.specs.Prelude.{◌≡◌, ◌≤◌, false, IsTrue, OnOk, OnErr};
ghost use Rattle.std.specs.List.{AllByRecursion};
ghost use Rattle.sqlite.specs.Held.{state};
ghost use Rattle.sqlite.specs.State.{HasCleanDisk, KeepsCommit, Survives};
ghost use Rattle.lei_values.specs.KeptTables.{IsBatch, with_batch};
ghost use Rattle.store_tables.specs.Calls.{ChangesTables, HasNextNumber, IsUndone, KeepsBatch, tables_with_cell, tables_with_entry, with_cells};
ghost use Rattle.keeper_sqlite.specs.Transactions.{HasKept};

use crate::rows::{cell_values, entry_values};
use lei_values::{Batch, KeptCell, KeptEntry};
use sqlite::{Alter, Connection, Error, Transaction};

const INSERT: &'static str =
    "INSERT INTO entry (seq, kind, office, number, moment, rules, body, answer)
VALUES (?1, ?2, ?3, ?4, ?5, ?6, ?7, ?8)";

const PUT: &'static str =
    "INSERT INTO cell2 (kind, lei, rest, touched, row) VALUES (?1, ?2, ?3, ?4, ?5)
ON CONFLICT (kind, lei, rest) DO UPDATE SET touched = excluded.touched, row = excluded.row";

// Adds an entry after the others. It is refused if there is one with its number.
pub fn insert_entry<S: Alter>(
    tx: &mut Transaction<'_, S>,
    entry: &KeptEntry,
) -> Result<usize, Error>
    requires { entry.now.seq ≤ 9223372036854775807 }
    ensures same_reference { tx.new.conn.ghost_name ≡ tx.old.conn.ghost_name }
    ensures adds { HasCleanDisk (state S.Store tx.new.conn.now)
        → IsTrue (state S.Store tx.old.conn.now).in_transaction
        → OnOk result (ChangesTables (tables_with_entry entry.now) (HasNextNumber entry.now)
        (state S.Store tx.old.conn.now)
        (state S.Store tx.new.conn.now)) }
    ensures keeps { HasCleanDisk (state S.Store tx.new.conn.now)
        → IsTrue (state S.Store tx.old.conn.now).in_transaction
        → KeepsCommit (state S.Store tx.old.conn.now) (state S.Store tx.new.conn.now) }
    ensures survives { Survives (state S.Store tx.old.conn.now) (state S.Store tx.new.conn.now) (λ _. ⊥) }
{
    tx.execute(INSERT, &entry_values(entry))
}

// Puts a cell in its place of form 2, which may already have one.
fn put_cell<S: Alter>(tx: &mut Transaction<'_, S>, cell: &KeptCell) -> Result<usize, Error>
    requires { cell.now.touched ≤ 9223372036854775807 }
    ensures same_reference { tx.new.conn.ghost_name ≡ tx.old.conn.ghost_name }
    ensures puts { HasCleanDisk (state S.Store tx.new.conn.now)
        → IsTrue (state S.Store tx.old.conn.now).in_transaction
        → OnOk result (ChangesTables (tables_with_cell cell.now)
        (λ _. 1 ≤ cell.now.touched) (state S.Store tx.old.conn.now)
        (state S.Store tx.new.conn.now)) }
    ensures keeps { HasCleanDisk (state S.Store tx.new.conn.now)
        → IsTrue (state S.Store tx.old.conn.now).in_transaction
        → KeepsCommit (state S.Store tx.old.conn.now) (state S.Store tx.new.conn.now) }
    ensures survives { Survives (state S.Store tx.old.conn.now) (state S.Store tx.new.conn.now) (λ _. ⊥) }
{
    tx.execute(PUT, &cell_values(cell))
}

// Puts cells in their places, from the first to the last.
pub fn put_cells<S: Alter>(tx: &mut Transaction<'_, S>, cells: &[KeptCell]) -> Result<(), Error>
    requires { AllByRecursion (λ cell. cell.touched ≤ 9223372036854775807) cells.now }
    ensures same_reference { tx.new.conn.ghost_name ≡ tx.old.conn.ghost_name }
    ensures puts { HasCleanDisk (state S.Store tx.new.conn.now)
        → IsTrue (state S.Store tx.old.conn.now).in_transaction
        → IsTrue (state S.Store tx.old.conn.now).is_open
        → OnOk result (ChangesTables (with_cells cells.now)
        (λ _. AllByRecursion (λ cell. 1 ≤ cell.touched) cells.now)
        (state S.Store tx.old.conn.now) (state S.Store tx.new.conn.now)) }
    ensures keeps { HasCleanDisk (state S.Store tx.new.conn.now)
        → IsTrue (state S.Store tx.old.conn.now).in_transaction
        → IsTrue (state S.Store tx.old.conn.now).is_open
        → KeepsCommit (state S.Store tx.old.conn.now) (state S.Store tx.new.conn.now) }
    ensures survives { Survives (state S.Store tx.old.conn.now) (state S.Store tx.new.conn.now) (λ _. ⊥) }
{
    for cell in cells {
        put_cell(tx, cell)?;
    }
    Ok(())
}

// Adds the entry of a batch after the others, and puts its cells in their places.
fn put_batch<S: Alter>(tx: &mut Transaction<'_, S>, batch: &Batch) -> Result<(), Error>
    requires { IsBatch batch.now }
    ensures same_reference { tx.new.conn.ghost_name ≡ tx.old.conn.ghost_name }
    ensures puts { HasCleanDisk (state S.Store tx.new.conn.now)
        → IsTrue (state S.Store tx.old.conn.now).in_transaction
        → OnOk result (ChangesTables (with_batch batch.now) (HasNextNumber batch.now.entry)
        (state S.Store tx.old.conn.now)
        (state S.Store tx.new.conn.now)) }
    ensures keeps { HasCleanDisk (state S.Store tx.new.conn.now)
        → IsTrue (state S.Store tx.old.conn.now).in_transaction
        → KeepsCommit (state S.Store tx.old.conn.now) (state S.Store tx.new.conn.now) }
    ensures survives { Survives (state S.Store tx.old.conn.now) (state S.Store tx.new.conn.now) (λ _. ⊥) }
{
    insert_entry(tx, &batch.entry)?;
    put_cells(tx, batch.cells.as_slice())?;
    Ok(())
}

// Keeps a whole batch in one transaction. If it isn't committed, it is rolled back when it is dropped.
pub fn write<S: Alter>(conn: &mut Connection<S>, batch: &Batch) -> Result<(), Error>
    requires batch { IsBatch batch.now }
    requires mode { conn.old.in_transaction ≡ false }
    ensures mode { conn.new.in_transaction ≡ false }
    ensures kept { HasCleanDisk (state S.Store conn.new)
        → OnOk result (HasKept batch.now (state S.Store conn.old) (state S.Store conn.new)) }
    ensures undone { HasCleanDisk (state S.Store conn.new)
        → OnErr result (IsUndone (state S.Store conn.old) (state S.Store conn.new)) }
    ensures survives { Survives (state S.Store conn.old) (state S.Store conn.new)
        (KeepsBatch batch.now (state S.Store conn.old)) }
{
    let mut tx = conn.transaction();
    put_batch(&mut tx, batch)?;
    tx.commit()?;
    Ok(())
}
