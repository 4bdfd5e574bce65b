// Which tables a store has.
ghost use Rattle.std.specs.Prelude.{◌≡◌, ◌↔◌, ◌∷◌, [], pos, true, false, IsTrue, Some};
ghost use Rattle.sqlite_value.specs.declared.value.Value.TheVariants.{Int};
ghost use Rattle.sqlite_value.specs.declared.keys.Collation.TheVariants.{Binary};
ghost use Rattle.sqlite_sql.specs.declared.ops.BinaryOp.TheVariants.{Compare};
ghost use Rattle.sqlite_sql.specs.declared.ops.CompareOp.TheVariants.{Ge};
ghost use Rattle.sqlite_schema.specs.Code.{term_in};
ghost use Rattle.store_statements.specs.Checks.{node_at};
ghost use Rattle.store_statements.specs.Schemas.{at_least_one, both_schema, by_entry, by_entry2, by_name, by_parts, cell_table, cell2_table, column_of, entry_schema, entry_table, key_index, no_schema, no_stamps, store_schema, store_table, whole_schema};

use sqlite_items::Items;
use sqlite_schema::code::{Op, Terms};
use sqlite_schema::schema::{Column, Index, Kind, Schema, Stamps, Table};
use sqlite_sql::ops::{BinaryOp, CompareOp};
use sqlite_value::keys::{Collation, Order};
use sqlite_value::value::Value;

/// How far the tables of a store were made.
#[derive(Clone, Copy, Debug, PartialEq, Eq)]
pub enum Stage {
    /// No table.
    Nothing,
    /// The table of entries.
    Entries,
    /// The tables of entries and of the cells of form 1.
    Both,
    /// These two and the table of the form.
    Store,
    /// These three and the table of the cells of form 2.
    Whole,
    /// Anything else, such as a table of another shape, a further table, or an index.
    Other,
}

// A column with this name and type, which has no default, and which refuses NULL or not.
fn is_column(column: &Column, name: &[u8], kind: Kind, not_null: bool) -> bool
    ensures { IsTrue result ↔ (column.now ≡ column_of name.now kind not_null) }
{
    if column.name.as_slice() != name || column.kind != kind {
        return false;
    }
    if !column.is_strict || column.not_null != not_null {
        return false;
    }
    matches!(column.default, Value::Null) && column.collation == Collation::Binary
}

// The node at this index is the value at the given place of a row.
fn is_place_at(nodes: &[Op], index: usize, place: usize) -> bool
    ensures { IsTrue result ↔ (node_at nodes.now index ≡ Op.Column 1 place) }
{
    match nodes.get(index) {
        Some(Op::Column(1, at)) => *at == place,
        _ => false,
    }
}

// The node at this index is the number 1.
fn is_one_at(nodes: &[Op], index: usize) -> bool
    ensures { IsTrue result ↔ (node_at nodes.now index ≡ Op.Literal (Int (pos 1))) }
{
    matches!(nodes.get(index), Some(Op::Literal(Value::Int(1))))
}

// The node at this index tests that the value at the given place of a row is at least 1.
fn is_test_at(nodes: &[Op], index: usize, place: usize) -> bool
    ensures { IsTrue result ↔ (term_in nodes.now index ≡ at_least_one place) }
{
    match nodes.get(index) {
        Some(Op::Binary(BinaryOp::Compare(CompareOp::Ge, Collation::Binary), value, one)) => {
            is_place_at(nodes, *value, place) && is_one_at(nodes, *one)
        }
        _ => false,
    }
}

// The only check is that the value at this place of a row is at least 1.
fn is_check(checks: &Terms, place: usize) -> bool
    ensures { IsTrue result ↔ (checks.now ≡ at_least_one place ∷ []) }
{
    match checks.roots.as_slice() {
        [root] => is_test_at(checks.nodes.as_slice(), *root, place),
        _ => false,
    }
}

// No default reads the time.
fn is_unstamped(stamps: &Stamps) -> bool
    ensures { IsTrue result ↔ (stamps.now ≡ no_stamps) }
{
    if !stamps.places.is_empty() || !stamps.formats.is_empty() {
        return false;
    }
    stamps.terms.roots.is_empty()
}

// The columns of the table of entries.
fn are_entry_columns(columns: &[Column]) -> bool
    ensures { IsTrue result ↔ (columns.now ≡ entry_table.columns) }
{
    let [seq, kind, office, number, moment, rules, body, answer] = columns else {
        return false;
    };
    if !is_column(seq, b"seq", Kind::Integer, false)
        || !is_column(kind, b"kind", Kind::Integer, true)
    {
        return false;
    }
    if !is_column(office, b"office", Kind::Text, true)
        || !is_column(number, b"number", Kind::Integer, true)
    {
        return false;
    }
    if !is_column(moment, b"moment", Kind::Integer, true)
        || !is_column(rules, b"rules", Kind::Integer, true)
    {
        return false;
    }
    is_column(body, b"body", Kind::Blob, true) && is_column(answer, b"answer", Kind::Blob, true)
}

// The columns of the table of cells.
fn are_cell_columns(columns: &[Column]) -> bool
    ensures { IsTrue result ↔ (columns.now ≡ cell_table.columns) }
{
    let [kind, name, touched, row] = columns else {
        return false;
    };
    if !is_column(kind, b"kind", Kind::Integer, true)
        || !is_column(name, b"name", Kind::Text, true)
    {
        return false;
    }
    is_column(touched, b"touched", Kind::Integer, true) && is_column(row, b"row", Kind::Blob, false)
}

fn is_entry_table(table: &Table) -> bool
    ensures { IsTrue result ↔ (table.now ≡ entry_table) }
{
    if table.name.as_slice() != b"entry".as_slice() || table.tree != 0 || table.key != Some(0) {
        return false;
    }
    if table.primary.as_slice() != [0].as_slice() || !is_check(&table.checks, 0) {
        return false;
    }
    if !are_entry_columns(table.columns.as_slice()) || !is_unstamped(&table.stamps) {
        return false;
    }
    if !table.uniques.is_empty() || !table.orders.is_empty() || !table.references.is_empty() {
        return false;
    }
    table.computed.is_empty() && !table.is_counted
}

// The keys of the table of cells: kind and name, and entry, kind and name.
fn are_cell_keys(keys: &[Items<usize>]) -> bool
    ensures { IsTrue result ↔ (keys.now ≡ cell_table.uniques) }
{
    let [first, second] = keys else {
        return false;
    };
    first.as_slice() == [1, 2].as_slice() && second.as_slice() == [3, 1, 2].as_slice()
}

fn are_plain(orders: &[Order]) -> bool
    ensures { IsTrue result ↔ (orders.now ≡ cell_table.orders) }
{
    let [first, second] = orders else {
        return false;
    };
    first.digits == 0 && second.digits == 0
}

fn is_cell_table(table: &Table) -> bool
    ensures { IsTrue result ↔ (table.now ≡ cell_table) }
{
    if table.name.as_slice() != b"cell".as_slice() || table.tree != 1 || table.key.is_some() {
        return false;
    }
    if table.primary.as_slice() != [1, 2].as_slice() || !is_check(&table.checks, 3) {
        return false;
    }
    if !are_cell_columns(table.columns.as_slice()) || !is_unstamped(&table.stamps) {
        return false;
    }
    if !are_cell_keys(table.uniques.as_slice()) || !are_plain(table.orders.as_slice()) {
        return false;
    }
    if !table.references.is_empty() || !table.computed.is_empty() {
        return false;
    }
    !table.is_counted
}

// The columns of the table of the cells of form 2.
fn are_cell2_columns(columns: &[Column]) -> bool
    ensures { IsTrue result ↔ (columns.now ≡ cell2_table.columns) }
{
    let [kind, lei, rest, touched, row] = columns else {
        return false;
    };
    if !is_column(kind, b"kind", Kind::Integer, true) || !is_column(lei, b"lei", Kind::Text, true) {
        return false;
    }
    if !is_column(rest, b"rest", Kind::Text, true)
        || !is_column(touched, b"touched", Kind::Integer, true)
    {
        return false;
    }
    is_column(row, b"row", Kind::Blob, false)
}

// The keys of the table of the cells of form 2: kind and name, and entry, kind and name.
fn are_cell2_keys(keys: &[Items<usize>]) -> bool
    ensures { IsTrue result ↔ (keys.now ≡ cell2_table.uniques) }
{
    let [first, second] = keys else {
        return false;
    };
    first.as_slice() == [1, 2, 3].as_slice() && second.as_slice() == [4, 1, 2, 3].as_slice()
}

fn is_cell2_table(table: &Table) -> bool
    ensures { IsTrue result ↔ (table.now ≡ cell2_table) }
{
    if table.name.as_slice() != b"cell2".as_slice() || table.tree != 5 || table.key.is_some() {
        return false;
    }
    if table.primary.as_slice() != [1, 2, 3].as_slice() || !is_check(&table.checks, 4) {
        return false;
    }
    if !are_cell2_columns(table.columns.as_slice()) || !is_unstamped(&table.stamps) {
        return false;
    }
    if !are_cell2_keys(table.uniques.as_slice()) || !are_plain(table.orders.as_slice()) {
        return false;
    }
    if !table.references.is_empty() || !table.computed.is_empty() {
        return false;
    }
    !table.is_counted
}

// The columns of the table of the form.
fn are_store_columns(columns: &[Column]) -> bool
    ensures { IsTrue result ↔ (columns.now ≡ store_table.columns) }
{
    let [one, form] = columns else {
        return false;
    };
    is_column(one, b"one", Kind::Integer, false) && is_column(form, b"form", Kind::Integer, true)
}

fn is_store_table(table: &Table) -> bool
    ensures { IsTrue result ↔ (table.now ≡ store_table) }
{
    if table.name.as_slice() != b"store".as_slice() || table.tree != 4 || table.key != Some(0) {
        return false;
    }
    if table.primary.as_slice() != [0].as_slice() || !table.checks.roots.is_empty() {
        return false;
    }
    if !are_store_columns(table.columns.as_slice()) || !is_unstamped(&table.stamps) {
        return false;
    }
    if !table.uniques.is_empty() || !table.orders.is_empty() || !table.references.is_empty() {
        return false;
    }
    table.computed.is_empty() && !table.is_counted
}

// An index of a table, by the table's tree and by the index's name, tree and places.
fn is_index(index: &Index, table: u32, name: &[u8], tree: u32, places: &[usize]) -> bool
    ensures { IsTrue result ↔ (index.now ≡ key_index table name.now tree places.now) }
{
    if index.name.as_slice() != name || index.tree != tree || index.table != table {
        return false;
    }
    index.columns.as_slice() == places && index.order.digits == 0 && index.is_unique
}

// The indexes of the cells of form 1.
fn are_first_indexes(first: &Index, second: &Index) -> bool
    ensures { IsTrue result ↔ (first.now ≡ by_name) × (second.now ≡ by_entry) }
{
    is_index(first, 1, b"sqlite_autoindex_cell_1", 2, [1, 2].as_slice())
        && is_index(
            second,
            1,
            b"sqlite_autoindex_cell_2",
            3,
            [3, 1, 2].as_slice(),
        )
}

// The indexes of the cells of form 2.
fn are_second_indexes(first: &Index, second: &Index) -> bool
    ensures { IsTrue result ↔ (first.now ≡ by_parts) × (second.now ≡ by_entry2) }
{
    is_index(
        first,
        5,
        b"sqlite_autoindex_cell2_1",
        6,
        [1, 2, 3].as_slice(),
    ) && is_index(
        second,
        5,
        b"sqlite_autoindex_cell2_2",
        7,
        [4, 1, 2, 3].as_slice(),
    )
}

// The indexes of a store that has no table of the cells of form 2.
fn are_indexes(indexes: &[Index]) -> bool
    ensures { IsTrue result ↔ (indexes.now ≡ both_schema.indexes) }
{
    let [first, second] = indexes else {
        return false;
    };
    are_first_indexes(first, second)
}

// The indexes of a store that has all four tables.
fn are_all_indexes(indexes: &[Index]) -> bool
    ensures { IsTrue result ↔ (indexes.now ≡ whole_schema.indexes) }
{
    let [first, second, third, fourth] = indexes else {
        return false;
    };
    are_first_indexes(first, second) && are_second_indexes(third, fourth)
}

/// Which tables a store with this schema has. It reads nothing but the schema, and takes no memory.
pub fn stage_of(schema: &Schema) -> Stage
    ensures nothing { (result ≡ Stage.Nothing) ↔ (schema.now ≡ no_schema) }
    ensures entries { (result ≡ Stage.Entries) ↔ (schema.now ≡ entry_schema) }
    ensures both { (result ≡ Stage.Both) ↔ (schema.now ≡ both_schema) }
    ensures store { (result ≡ Stage.Store) ↔ (schema.now ≡ store_schema) }
    ensures whole { (result ≡ Stage.Whole) ↔ (schema.now ≡ whole_schema) }
{
    if !schema.views.is_empty() {
        return Stage::Other;
    }
    match schema.tables.as_slice() {
        [] if schema.indexes.is_empty() => Stage::Nothing,
        [entry] if schema.indexes.is_empty() && is_entry_table(entry) => Stage::Entries,
        [entry, cell] if is_entry_table(entry) && is_cell_table(cell) => {
            if are_indexes(schema.indexes.as_slice()) {
                Stage::Both
            } else {
                Stage::Other
            }
        }
        [entry, cell, store]
            if is_entry_table(entry) && is_cell_table(cell) && is_store_table(store) => {
            if are_indexes(schema.indexes.as_slice()) {
                Stage::Store
            } else {
                Stage::Other
            }
        }
        [entry, cell, store, cell2]
            if is_entry_table(entry)
                && is_cell_table(cell)
                && is_store_table(store)
                && is_cell2_table(cell2) => {
            if are_all_indexes(schema.indexes.as_slice()) {
                Stage::Whole
            } else {
                Stage::Other
            }
        }
        _ => Stage::Other,
    }
}
