//! Laws of relationships and exceptions, each as the contract of an empty function.
ghost use Rattle.std.specs.Prelude.{◌≡◌, Bool, None, false};
ghost use Rattle.lei_code.specs.Texts.{Lei};
ghost use Rattle.lei_records.specs.declared.item.Item.{Item};
ghost use Rattle.lei_records.specs.Checks.{first_failing};
ghost use Rattle.lei_records.specs.Rows.{Row};
ghost use Rattle.lei_records.specs.Spelled.{IsExceptionRow, IsRelationRow};
ghost use Rattle.lei_records.specs.Tables.{IsSoundTable, Table, put};
ghost use Rattle.relation_rules.specs.Checks.{c37, exception_checks, other_end, relation_checks};
ghost use Rattle.relation_rules.specs.Parents.{ExceptionsExcludeParents, ParentChainsEnd};

/// Suppose a relationship isn't active, or no active relationship of its start and type has another end. If it is put
/// into a sound table, the table stays sound.
pub fn fitting_relations_keep_tables_sound()
    ensures { (table : Table) (row : Row) → IsSoundTable table → IsRelationRow row
        → (c37 (other_end table row) row).fails ≡ false → IsSoundTable (put table (Item.Relation row)) }
{}

/// An exception can be put into a sound table and withdrawn from it, and the table stays sound.
pub fn exceptions_keep_tables_sound()
    ensures { (table : Table) (row : Row) (withdraws : Bool) → IsSoundTable table → IsExceptionRow row
        → IsSoundTable (put table (Item.Exception (row, withdraws))) }
{}

/// After a relationship that passes its checks on a sound table, each chain of direct parents still ends.
pub fn accepted_relations_keep_parents()
    ensures { (table : Table) (issuer : Lei) (row : Row) → IsSoundTable table → ParentChainsEnd table
        → first_failing (relation_checks table issuer row) ≡ None
        → ParentChainsEnd (put table (Item.Relation row)) }
{}

/// A record or an exception leaves the chains of direct parents as they are, and a record leaves the exceptions too.
pub fn records_and_exceptions_keep_parents()
    ensures records { (table : Table) (row : Row) → ParentChainsEnd table
        → ParentChainsEnd (put table (Item.Record row)) }
    ensures apart { (table : Table) (row : Row) → ExceptionsExcludeParents table
        → ExceptionsExcludeParents (put table (Item.Record row)) }
    ensures exceptions { (table : Table) (item : Row × Bool)
        → ParentChainsEnd table → ParentChainsEnd (put table (Item.Exception item)) }
{}

/// After items that pass their checks on a sound table, no entity has both an active parent and the exception of its
/// category.
pub fn accepted_items_keep_apart()
    ensures relations { (table : Table) (issuer : Lei) (row : Row) → IsSoundTable table
        → ExceptionsExcludeParents table
        → first_failing (relation_checks table issuer row) ≡ None
        → ExceptionsExcludeParents (put table (Item.Relation row)) }
    ensures exceptions { (table : Table) (issuer : Lei) (item : Row × Bool) → ExceptionsExcludeParents table
        → first_failing (exception_checks table issuer item) ≡ None
        → ExceptionsExcludeParents (put table (Item.Exception item)) }
{}
