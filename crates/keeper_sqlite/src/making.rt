// The tables, and how they are made if they are missing.
ghost use Rattle.std.specs.Prelude.{◌≡◌, false, IsTrue, OnOk, OnErr};
ghost use Rattle.sqlite.specs.Effect.{IsDatabase};
ghost use Rattle.sqlite.specs.Held.{state};
ghost use Rattle.sqlite.specs.State.{HasCleanDisk, KeepsCommit, Survives};
ghost use Rattle.store_statements.specs.Schemas.{both_schema, entry_schema, store_schema, whole_schema};
ghost use Rattle.store_tables.specs.Calls.{IsFirst, IsInside, IsMade, IsNewSchema, IsUndone, Makes};
ghost use Rattle.keeper_sqlite.specs.Transactions.{HasMade};

use sqlite::{Alter, Connection, Error, Transaction};

// One row per entry, by its number.
const MAKE_ENTRIES: &'static str = "CREATE TABLE IF NOT EXISTS entry (
  seq INTEGER PRIMARY KEY CHECK (seq >= 1),
  kind INTEGER NOT NULL,
  office TEXT NOT NULL,
  number INTEGER NOT NULL,
  moment INTEGER NOT NULL,
  rules INTEGER NOT NULL,
  body BLOB NOT NULL,
  answer BLOB NOT NULL
) STRICT";

// One row per cell of form 1, by its kind and its name. A second index has the cells in the order of the entries that
// touched them last. So the cells of a few entries are found without reading all.
const MAKE_CELLS: &'static str = "CREATE TABLE IF NOT EXISTS cell (
  kind INTEGER NOT NULL,
  name TEXT NOT NULL,
  touched INTEGER NOT NULL CHECK (touched >= 1),
  row BLOB,
  PRIMARY KEY (kind, name),
  UNIQUE (touched, kind, name)
) STRICT";

// One row, if the store has form 2.
const MAKE_STORE: &'static str = "CREATE TABLE IF NOT EXISTS store (
  one INTEGER PRIMARY KEY,
  form INTEGER NOT NULL
) STRICT";

// One row per cell of form 2, by its kind and the two parts of its name. A second index has them in the order of the
// entries, as above.
const MAKE_CELL2: &'static str = "CREATE TABLE IF NOT EXISTS cell2 (
  kind INTEGER NOT NULL,
  lei TEXT NOT NULL,
  rest TEXT NOT NULL,
  touched INTEGER NOT NULL CHECK (touched >= 1),
  row BLOB,
  PRIMARY KEY (kind, lei, rest),
  UNIQUE (touched, kind, lei, rest)
) STRICT";

// Makes the table of entries.
fn make_entries<S: Alter>(tx: &mut Transaction<'_, S>) -> Result<usize, Error>
    ensures same_reference { tx.new.conn.ghost_name ≡ tx.old.conn.ghost_name }
    ensures inside { HasCleanDisk (state S.Store tx.new.conn.now)
        → IsTrue (state S.Store tx.old.conn.now).in_transaction
        → OnOk result (IsInside (state S.Store tx.old.conn.now) (state S.Store tx.new.conn.now)) }
    ensures makes { HasCleanDisk (state S.Store tx.new.conn.now)
        → IsTrue (state S.Store tx.old.conn.now).in_transaction
        → IsNewSchema (state S.Store tx.old.conn.now).now.schema
        → OnOk result (Makes entry_schema (state S.Store tx.old.conn.now) (state S.Store tx.new.conn.now)) }
    ensures keeps { HasCleanDisk (state S.Store tx.new.conn.now)
        → IsTrue (state S.Store tx.old.conn.now).in_transaction
        → KeepsCommit (state S.Store tx.old.conn.now) (state S.Store tx.new.conn.now) }
    ensures survives { Survives (state S.Store tx.old.conn.now) (state S.Store tx.new.conn.now) (λ _. ⊥) }
{
    tx.execute(MAKE_ENTRIES, &[])
}

// Makes the table of the cells of form 1.
fn make_cells<S: Alter>(tx: &mut Transaction<'_, S>) -> Result<usize, Error>
    ensures same_reference { tx.new.conn.ghost_name ≡ tx.old.conn.ghost_name }
    ensures inside { HasCleanDisk (state S.Store tx.new.conn.now)
        → IsTrue (state S.Store tx.old.conn.now).in_transaction
        → OnOk result (IsInside (state S.Store tx.old.conn.now) (state S.Store tx.new.conn.now)) }
    ensures makes { HasCleanDisk (state S.Store tx.new.conn.now)
        → IsTrue (state S.Store tx.old.conn.now).in_transaction
        → (state S.Store tx.old.conn.now).now.schema ≡ entry_schema
        → OnOk result (Makes both_schema (state S.Store tx.old.conn.now) (state S.Store tx.new.conn.now)) }
    ensures keeps { HasCleanDisk (state S.Store tx.new.conn.now)
        → IsTrue (state S.Store tx.old.conn.now).in_transaction
        → KeepsCommit (state S.Store tx.old.conn.now) (state S.Store tx.new.conn.now) }
    ensures survives { Survives (state S.Store tx.old.conn.now) (state S.Store tx.new.conn.now) (λ _. ⊥) }
{
    tx.execute(MAKE_CELLS, &[])
}

// Makes the table of the form.
fn make_store<S: Alter>(tx: &mut Transaction<'_, S>) -> Result<usize, Error>
    ensures same_reference { tx.new.conn.ghost_name ≡ tx.old.conn.ghost_name }
    ensures inside { HasCleanDisk (state S.Store tx.new.conn.now)
        → IsTrue (state S.Store tx.old.conn.now).in_transaction
        → OnOk result (IsInside (state S.Store tx.old.conn.now) (state S.Store tx.new.conn.now)) }
    ensures makes { HasCleanDisk (state S.Store tx.new.conn.now)
        → IsTrue (state S.Store tx.old.conn.now).in_transaction
        → IsFirst (state S.Store tx.old.conn.now).now.schema
        → OnOk result (Makes store_schema (state S.Store tx.old.conn.now) (state S.Store tx.new.conn.now)) }
    ensures keeps { HasCleanDisk (state S.Store tx.new.conn.now)
        → IsTrue (state S.Store tx.old.conn.now).in_transaction
        → KeepsCommit (state S.Store tx.old.conn.now) (state S.Store tx.new.conn.now) }
    ensures survives { Survives (state S.Store tx.old.conn.now) (state S.Store tx.new.conn.now) (λ _. ⊥) }
{
    tx.execute(MAKE_STORE, &[])
}

// Makes the table of the cells of form 2.
fn make_cell2<S: Alter>(tx: &mut Transaction<'_, S>) -> Result<usize, Error>
    ensures same_reference { tx.new.conn.ghost_name ≡ tx.old.conn.ghost_name }
    ensures inside { HasCleanDisk (state S.Store tx.new.conn.now)
        → IsTrue (state S.Store tx.old.conn.now).in_transaction
        → OnOk result (IsInside (state S.Store tx.old.conn.now) (state S.Store tx.new.conn.now)) }
    ensures makes { HasCleanDisk (state S.Store tx.new.conn.now)
        → IsTrue (state S.Store tx.old.conn.now).in_transaction
        → (state S.Store tx.old.conn.now).now.schema ≡ store_schema
        → OnOk result (Makes whole_schema (state S.Store tx.old.conn.now) (state S.Store tx.new.conn.now)
        × IsDatabase (state S.Store tx.new.conn.now).now) }
    ensures keeps { HasCleanDisk (state S.Store tx.new.conn.now)
        → IsTrue (state S.Store tx.old.conn.now).in_transaction
        → KeepsCommit (state S.Store tx.old.conn.now) (state S.Store tx.new.conn.now) }
    ensures survives { Survives (state S.Store tx.old.conn.now) (state S.Store tx.new.conn.now) (λ _. ⊥) }
{
    tx.execute(MAKE_CELL2, &[])
}

// Makes those tables of form 1 that are missing.
fn make_both<S: Alter>(tx: &mut Transaction<'_, S>) -> Result<(), Error>
    ensures same_reference { tx.new.conn.ghost_name ≡ tx.old.conn.ghost_name }
    ensures inside { HasCleanDisk (state S.Store tx.new.conn.now)
        → IsTrue (state S.Store tx.old.conn.now).in_transaction
        → OnOk result (IsInside (state S.Store tx.old.conn.now) (state S.Store tx.new.conn.now)) }
    ensures makes { HasCleanDisk (state S.Store tx.new.conn.now)
        → IsTrue (state S.Store tx.old.conn.now).in_transaction
        → IsNewSchema (state S.Store tx.old.conn.now).now.schema
        → OnOk result (Makes both_schema (state S.Store tx.old.conn.now) (state S.Store tx.new.conn.now)) }
    ensures keeps { HasCleanDisk (state S.Store tx.new.conn.now)
        → IsTrue (state S.Store tx.old.conn.now).in_transaction
        → KeepsCommit (state S.Store tx.old.conn.now) (state S.Store tx.new.conn.now) }
    ensures survives { Survives (state S.Store tx.old.conn.now) (state S.Store tx.new.conn.now) (λ _. ⊥) }
{
    make_entries(tx)?;
    make_cells(tx)?;
    Ok(())
}

// Makes those tables added by form 2 that are missing.
fn make_second<S: Alter>(tx: &mut Transaction<'_, S>) -> Result<(), Error>
    ensures same_reference { tx.new.conn.ghost_name ≡ tx.old.conn.ghost_name }
    ensures inside { HasCleanDisk (state S.Store tx.new.conn.now)
        → IsTrue (state S.Store tx.old.conn.now).in_transaction
        → OnOk result (IsInside (state S.Store tx.old.conn.now) (state S.Store tx.new.conn.now)) }
    ensures makes { HasCleanDisk (state S.Store tx.new.conn.now)
        → IsTrue (state S.Store tx.old.conn.now).in_transaction
        → IsFirst (state S.Store tx.old.conn.now).now.schema
        → OnOk result (Makes whole_schema (state S.Store tx.old.conn.now) (state S.Store tx.new.conn.now)
        × IsDatabase (state S.Store tx.new.conn.now).now) }
    ensures keeps { HasCleanDisk (state S.Store tx.new.conn.now)
        → IsTrue (state S.Store tx.old.conn.now).in_transaction
        → KeepsCommit (state S.Store tx.old.conn.now) (state S.Store tx.new.conn.now) }
    ensures survives { Survives (state S.Store tx.old.conn.now) (state S.Store tx.new.conn.now) (λ _. ⊥) }
{
    make_store(tx)?;
    make_cell2(tx)?;
    Ok(())
}

// Makes those of all four tables that are missing.
fn make_all<S: Alter>(tx: &mut Transaction<'_, S>) -> Result<(), Error>
    ensures same_reference { tx.new.conn.ghost_name ≡ tx.old.conn.ghost_name }
    ensures inside { HasCleanDisk (state S.Store tx.new.conn.now)
        → IsTrue (state S.Store tx.old.conn.now).in_transaction
        → OnOk result (IsInside (state S.Store tx.old.conn.now) (state S.Store tx.new.conn.now)) }
    ensures makes { HasCleanDisk (state S.Store tx.new.conn.now)
        → IsTrue (state S.Store tx.old.conn.now).in_transaction
        → IsNewSchema (state S.Store tx.old.conn.now).now.schema
        → OnOk result (Makes whole_schema (state S.Store tx.old.conn.now) (state S.Store tx.new.conn.now)
        × IsDatabase (state S.Store tx.new.conn.now).now) }
    ensures keeps { HasCleanDisk (state S.Store tx.new.conn.now)
        → IsTrue (state S.Store tx.old.conn.now).in_transaction
        → KeepsCommit (state S.Store tx.old.conn.now) (state S.Store tx.new.conn.now) }
    ensures survives { Survives (state S.Store tx.old.conn.now) (state S.Store tx.new.conn.now) (λ _. ⊥) }
{
    make_both(tx)?;
    make_second(tx)?;
    Ok(())
}

// Makes those of all four tables that are missing, in one transaction.
pub fn make_tables<S: Alter>(conn: &mut Connection<S>) -> Result<(), Error>
    requires { conn.old.in_transaction ≡ false }
    ensures mode { conn.new.in_transaction ≡ false }
    ensures made { HasCleanDisk (state S.Store conn.new) → IsNewSchema (state S.Store conn.old).now.schema
        → OnOk result (HasMade (state S.Store conn.old) (state S.Store conn.new)) }
    ensures undone { HasCleanDisk (state S.Store conn.new)
        → OnErr result (IsUndone (state S.Store conn.old) (state S.Store conn.new)) }
    ensures survives { IsNewSchema (state S.Store conn.old).now.schema
        → Survives (state S.Store conn.old) (state S.Store conn.new) (IsMade (state S.Store conn.old)) }
{
    let mut tx = conn.transaction();
    make_all(&mut tx)?;
    tx.commit()?;
    Ok(())
}

// Makes those tables added by form 2 that are missing, in one transaction.
pub fn add_tables<S: Alter>(conn: &mut Connection<S>) -> Result<(), Error>
    requires { conn.old.in_transaction ≡ false }
    ensures mode { conn.new.in_transaction ≡ false }
    ensures made { HasCleanDisk (state S.Store conn.new) → IsFirst (state S.Store conn.old).now.schema
        → OnOk result (HasMade (state S.Store conn.old) (state S.Store conn.new)) }
    ensures undone { HasCleanDisk (state S.Store conn.new)
        → OnErr result (IsUndone (state S.Store conn.old) (state S.Store conn.new)) }
    ensures survives { IsFirst (state S.Store conn.old).now.schema
        → Survives (state S.Store conn.old) (state S.Store conn.new) (IsMade (state S.Store conn.old)) }
{
    let mut tx = conn.transaction();
    make_second(&mut tx)?;
    tx.commit()?;
    Ok(())
}
