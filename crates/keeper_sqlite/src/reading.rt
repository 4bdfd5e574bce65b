// What is read from the tables.
ghost use Rattle.std.specs.Prelude.{◌≡◌, false, pos, min, map, Some, IfOk};
ghost use Rattle.sqlite_value.specs.declared.value.Value.TheVariants.{Int};
ghost use Rattle.sqlite_value.specs.Value.{owned};
ghost use Rattle.sqlite.specs.Values.{bound_value};
ghost use Rattle.sqlite.specs.Held.{state};
ghost use Rattle.sqlite.specs.State.{HasCleanDisk};
ghost use Rattle.lei_values.specs.KeptTables.{KeptTables, cells_between, entries_between};
ghost use Rattle.store_statements.specs.Rows.{cell_row, entry_row};
ghost use Rattle.store_tables.specs.Calls.{IsReadyStore, IsSteady, IsWholeStore, ReadsForm, last_rows};
ghost use Rattle.store_tables.specs.Told.{told_in_trees};

use sqlite::types::ValueRef;
use sqlite::{Alter, Connection, Error, Row};

// The greatest number that an integer column takes.
const GREATEST: u64 = 9_223_372_036_854_775_807;

const LAST: &'static str = "SELECT seq FROM entry ORDER BY seq DESC LIMIT 1";

const ENTRIES: &'static str = "SELECT seq, kind, office, number, moment, rules, body, answer
FROM entry WHERE seq > ?1 AND seq <= ?2 ORDER BY seq";

const CELLS: &'static str = "SELECT kind, lei, rest, touched, row
FROM cell2 WHERE touched > ?1 AND touched <= ?2 ORDER BY kind, lei, rest";

// Two rows are enough to show that there are too many.
const FORM: &'static str = "SELECT one, form FROM store LIMIT 2";

// The row with the greatest number of an entry, or no row if there is no entry.
pub fn read_last<S: Alter>(conn: &mut Connection<S>) -> Result<Vec<Row>, Error>
    requires ready { HasCleanDisk (state S.Store conn.old) → IsReadyStore (state S.Store conn.old) }
    ensures steady { IsSteady (state S.Store conn.old) (state S.Store conn.new) }
    ensures answer { HasCleanDisk (state S.Store conn.new) → IfOk result (λ rows.
        (t : KeptTables) → told_in_trees (state S.Store conn.new).now.schema
        (state S.Store conn.new).now.trees
        ≡ Some t → rows.items ≡ last_rows t) }
{
    conn.query_all(LAST, &[])
}

// The rows of the entries whose number is greater than `after` and at most `upto`, in order.
pub fn read_entries<S: Alter>(
    conn: &mut Connection<S>,
    after: u64,
    upto: u64,
) -> Result<Vec<Row>, Error>
    requires ready { HasCleanDisk (state S.Store conn.old) → IsReadyStore (state S.Store conn.old) }
    ensures steady { IsSteady (state S.Store conn.old) (state S.Store conn.new) }
    ensures answer { HasCleanDisk (state S.Store conn.new) → IfOk result (λ rows.
        (t : KeptTables) → told_in_trees (state S.Store conn.new).now.schema
        (state S.Store conn.new).now.trees
        ≡ Some t
        → rows.items ≡ map entry_row (entries_between after upto t)) }
{
    conn.query_all(ENTRIES, &[number(after), number(upto)])
}

// The rows of the cells of form 2 whose last entry has a number greater than `after` and at most `upto`. They are in
// the order of kinds and names.
pub fn read_cells<S: Alter>(
    conn: &mut Connection<S>,
    after: u64,
    upto: u64,
) -> Result<Vec<Row>, Error>
    requires whole { HasCleanDisk (state S.Store conn.old) → IsWholeStore (state S.Store conn.old) }
    ensures steady { IsSteady (state S.Store conn.old) (state S.Store conn.new) }
    ensures answer { HasCleanDisk (state S.Store conn.new) → IsReadyStore (state S.Store conn.old)
        → IfOk result (λ rows.
        (t : KeptTables) → told_in_trees (state S.Store conn.new).now.schema
        (state S.Store conn.new).now.trees
        ≡ Some t
        → rows.items ≡ map cell_row (cells_between after upto t)) }
{
    conn.query_all(CELLS, &[number(after), number(upto)])
}

// The rows of the table of the form, two at most.
pub fn read_form<S: Alter>(conn: &mut Connection<S>) -> Result<Vec<Row>, Error>
    requires whole { HasCleanDisk (state S.Store conn.old) → IsWholeStore (state S.Store conn.old) }
    ensures steady { IsSteady (state S.Store conn.old) (state S.Store conn.new) }
    ensures mode { conn.old.in_transaction ≡ false → conn.new.in_transaction ≡ false }
    ensures form { HasCleanDisk (state S.Store conn.new) → IfOk result (λ rows.
        ReadsForm (state S.Store conn.old) (state S.Store conn.new) rows.items) }
{
    conn.query_all(FORM, &[])
}

// A number as a value to compare with. A number greater than all that are kept counts as the greatest of these.
fn number(number: u64) -> ValueRef<'static>
    ensures { bound_value (owned result) ≡ Int (pos (min number 9223372036854775807)) }
{
    ValueRef::Int(number.min(GREATEST) as i64)
}
