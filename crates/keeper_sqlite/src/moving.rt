// The move of the cells from form 1 to form 2, in one transaction.
ghost use Rattle.std.specs.Prelude.{◌≡◌, [], false, IfOk, IsTrue, OnOk, OnErr, Some};
ghost use Rattle.sqlite_value.specs.declared.value.Value.TheVariants.{Int};
ghost use Rattle.sqlite_value.specs.Value.{owned};
ghost use Rattle.sqlite.specs.Values.{bound_value};
ghost use Rattle.sqlite.specs.Held.{state};
ghost use Rattle.sqlite.specs.State.{HasCleanDisk, KeepsCommit, Survives};
ghost use Rattle.store_tables.specs.Calls.{Carries, Clears, Forms, IsUndone, IsWholeStore, Moves, MovesPage, ReadsPage};
ghost use Rattle.keeper_sqlite.specs.Transactions.{HasMoved, IsMoved};

use crate::rows::{first_cells_of, last_row_id};
use crate::writing::put_cells;
use lei_keeper::KeepFault;
use sqlite::types::ValueRef;
use sqlite::{Alter, Connection, Error, Row, Transaction};
use std::alloc::Global;

// The cells are read in pages, so that memory holds only a few of them at a time.
const PAGE: &'static str =
    "SELECT rowid, kind, name, touched, row FROM cell ORDER BY rowid LIMIT 100";

const CLEAR: &'static str = "DELETE FROM cell WHERE rowid <= ?1";

const SET_FORM: &'static str = "INSERT INTO store (one, form) VALUES (1, 2)";

// Why a move is abandoned.
#[derive(Debug, Drop)]
pub enum Stop {
    // A statement was refused or failed.
    Statement(Error),
    // A row has no cell, or memory ran out while it was read.
    Row(KeepFault),
}

impl From<Error> for Stop {
    fn from(error: Error) -> Self {
        Stop::Statement(error)
    }
}

impl From<KeepFault> for Stop {
    fn from(fault: KeepFault) -> Self {
        Stop::Row(fault)
    }
}

// The first rows of the cells of form 1, as they are stored.
fn read_page<S: Alter>(tx: &mut Transaction<'_, S>) -> Result<Vec<Row>, Error>
    ensures same_reference { tx.new.conn.ghost_name ≡ tx.old.conn.ghost_name }
    ensures page { HasCleanDisk (state S.Store tx.new.conn.now)
        → IsTrue (state S.Store tx.old.conn.now).in_transaction
        → IfOk result (λ rows. ReadsPage (state S.Store tx.old.conn.now) (state S.Store tx.new.conn.now)
        rows.items) }
    ensures keeps { HasCleanDisk (state S.Store tx.new.conn.now)
        → IsTrue (state S.Store tx.old.conn.now).in_transaction
        → KeepsCommit (state S.Store tx.old.conn.now) (state S.Store tx.new.conn.now) }
    ensures survives { Survives (state S.Store tx.old.conn.now) (state S.Store tx.new.conn.now) (λ _. ⊥) }
{
    tx.query_all(PAGE, &[])
}

// The id of a row as a value to compare with.
fn id_value(id: i64) -> ValueRef<'static>
    ensures { bound_value (owned result) ≡ Int id }
{
    ValueRef::Int(id)
}

// Removes the cells of form 1 up to the row with this id.
fn clear_cells<S: Alter>(tx: &mut Transaction<'_, S>, last: i64) -> Result<usize, Error>
    ensures same_reference { tx.new.conn.ghost_name ≡ tx.old.conn.ghost_name }
    ensures clears { HasCleanDisk (state S.Store tx.new.conn.now)
        → IsTrue (state S.Store tx.old.conn.now).in_transaction
        → OnOk result (Clears last (state S.Store tx.old.conn.now) (state S.Store tx.new.conn.now)) }
    ensures keeps { HasCleanDisk (state S.Store tx.new.conn.now)
        → IsTrue (state S.Store tx.old.conn.now).in_transaction
        → KeepsCommit (state S.Store tx.old.conn.now) (state S.Store tx.new.conn.now) }
    ensures survives { Survives (state S.Store tx.old.conn.now) (state S.Store tx.new.conn.now) (λ _. ⊥) }
{
    tx.execute(CLEAR, &[id_value(last)])
}

// Writes form 2.
fn write_form<S: Alter>(tx: &mut Transaction<'_, S>) -> Result<usize, Error>
    ensures same_reference { tx.new.conn.ghost_name ≡ tx.old.conn.ghost_name }
    ensures forms { HasCleanDisk (state S.Store tx.new.conn.now)
        → IsTrue (state S.Store tx.old.conn.now).in_transaction
        → OnOk result (Forms (state S.Store tx.old.conn.now) (state S.Store tx.new.conn.now)) }
    ensures keeps { HasCleanDisk (state S.Store tx.new.conn.now)
        → IsTrue (state S.Store tx.old.conn.now).in_transaction
        → KeepsCommit (state S.Store tx.old.conn.now) (state S.Store tx.new.conn.now) }
    ensures survives { Survives (state S.Store tx.old.conn.now) (state S.Store tx.new.conn.now) (λ _. ⊥) }
{
    tx.execute(SET_FORM, &[])
}

// Puts the cells of a page into form 2, and removes the rows of the page from form 1.
fn copy_page<S: Alter>(
    tx: &mut Transaction<'_, S>,
    alloc: Global,
    page: &[Row],
    last: i64,
) -> Result<(), Stop>
    ensures same_reference { tx.new.conn.ghost_name ≡ tx.old.conn.ghost_name }
    ensures copies { HasCleanDisk (state S.Store tx.new.conn.now)
        → IsTrue (state S.Store tx.old.conn.now).in_transaction
        → IsTrue (state S.Store tx.old.conn.now).is_open
        → OnOk result (MovesPage page.now last (state S.Store tx.old.conn.now)
        (state S.Store tx.new.conn.now)) }
    ensures keeps { HasCleanDisk (state S.Store tx.new.conn.now)
        → IsTrue (state S.Store tx.old.conn.now).in_transaction
        → IsTrue (state S.Store tx.old.conn.now).is_open
        → KeepsCommit (state S.Store tx.old.conn.now) (state S.Store tx.new.conn.now) }
    ensures survives { Survives (state S.Store tx.old.conn.now) (state S.Store tx.new.conn.now) (λ _. ⊥) }
{
    let cells = first_cells_of(alloc, page)?;
    put_cells(tx, cells.as_slice())?;
    clear_cells(tx, last)?;
    Ok(())
}

// Moves a page of cells. Returns false if none was left.
fn move_page<S: Alter>(tx: &mut Transaction<'_, S>, alloc: Global) -> Result<bool, Stop>
    ensures same_reference { tx.new.conn.ghost_name ≡ tx.old.conn.ghost_name }
    ensures carries { HasCleanDisk (state S.Store tx.new.conn.now)
        → IsTrue (state S.Store tx.old.conn.now).in_transaction
        → IfOk result (Carries (state S.Store tx.old.conn.now) (state S.Store tx.new.conn.now)) }
    ensures keeps { HasCleanDisk (state S.Store tx.new.conn.now)
        → IsTrue (state S.Store tx.old.conn.now).in_transaction
        → KeepsCommit (state S.Store tx.old.conn.now) (state S.Store tx.new.conn.now) }
    ensures survives { Survives (state S.Store tx.old.conn.now) (state S.Store tx.new.conn.now) (λ _. ⊥) }
{
    let page = read_page(tx)?;
    match last_row_id(page.as_slice())? {
        Some(last) => {
            copy_page(tx, alloc, page.as_slice(), last)?;
            Ok(true)
        }
        None => Ok(false),
    }
}

// Moves all cells, from the first to the last.
fn move_pages<S: Alter>(tx: &mut Transaction<'_, S>, alloc: Global) -> Result<(), Stop>
    ensures same_reference { tx.new.conn.ghost_name ≡ tx.old.conn.ghost_name }
    ensures carries { HasCleanDisk (state S.Store tx.new.conn.now)
        → IsTrue (state S.Store tx.old.conn.now).in_transaction
        → OnOk result (Carries (state S.Store tx.old.conn.now) (state S.Store tx.new.conn.now) false) }
    ensures keeps { HasCleanDisk (state S.Store tx.new.conn.now)
        → IsTrue (state S.Store tx.old.conn.now).in_transaction
        → KeepsCommit (state S.Store tx.old.conn.now) (state S.Store tx.new.conn.now) }
    ensures survives { Survives (state S.Store tx.old.conn.now) (state S.Store tx.new.conn.now) (λ _. ⊥) }
{
    let mut more = move_page(tx, alloc)?;
    for _ in 0..u64::MAX {
        if !more {
            return Ok(());
        }
        more = move_page(tx, alloc)?;
    }
    Err(Stop::Row(KeepFault::Failed))
}

// Moves all cells, and then writes the form.
fn move_all<S: Alter>(tx: &mut Transaction<'_, S>, alloc: Global) -> Result<(), Stop>
    ensures same_reference { tx.new.conn.ghost_name ≡ tx.old.conn.ghost_name }
    ensures moves { HasCleanDisk (state S.Store tx.new.conn.now)
        → IsTrue (state S.Store tx.old.conn.now).in_transaction
        → OnOk result (Moves (state S.Store tx.old.conn.now) (state S.Store tx.new.conn.now)) }
    ensures keeps { HasCleanDisk (state S.Store tx.new.conn.now)
        → IsTrue (state S.Store tx.old.conn.now).in_transaction
        → KeepsCommit (state S.Store tx.old.conn.now) (state S.Store tx.new.conn.now) }
    ensures survives { Survives (state S.Store tx.old.conn.now) (state S.Store tx.new.conn.now) (λ _. ⊥) }
{
    move_pages(tx, alloc)?;
    write_form(tx)?;
    Ok(())
}

// Moves a store of form 1 with all four tables to form 2. If that isn't committed, it is rolled back.
pub fn move_cells<S: Alter>(conn: &mut Connection<S>, alloc: Global) -> Result<(), Stop>
    requires { conn.old.in_transaction ≡ false }
    ensures mode { conn.new.in_transaction ≡ false }
    ensures moved { HasCleanDisk (state S.Store conn.new) → IsWholeStore (state S.Store conn.old)
        → (state S.Store conn.old).now.trees 4 ≡ []
        → OnOk result (HasMoved (state S.Store conn.old) (state S.Store conn.new)) }
    ensures undone { HasCleanDisk (state S.Store conn.new)
        → OnErr result (IsUndone (state S.Store conn.old) (state S.Store conn.new)) }
    ensures survives { Survives (state S.Store conn.old) (state S.Store conn.new)
        (IsMoved (state S.Store conn.old)) }
{
    let mut tx = conn.transaction();
    move_all(&mut tx, alloc)?;
    tx.commit()?;
    Ok(())
}
