//! Laws of authority keys, each as the contract of an empty function.
ghost use Rattle.lei_records.specs.declared.item.Item.{Item};
ghost use Rattle.lei_records.specs.Rows.{Row};
ghost use Rattle.lei_records.specs.Spelled.{IsRecordRow};
ghost use Rattle.lei_records.specs.Tables.{Table, IsSoundTable, put};
ghost use Rattle.authority_rules.specs.Taken.{IsFree};

/// Suppose a record isn't live, or no other live record has its authority key. If it is put into a sound table, the
/// table stays sound.
pub fn free_records_keep_tables_sound()
    ensures { (table : Table) (row : Row) → IsSoundTable table → IsRecordRow row → IsFree table row
        → IsSoundTable (put table (Item.Record row)) }
{}
