//! Laws about what items do to a table, each stated as the contract of an empty function.
ghost use Rattle.std.specs.Prelude.{◌≡◌, ◌≤◌, ◌+◌, ℕ, ℤ, Bool, IsTrue, List, None, Ok};
ghost use Rattle.lei_code.specs.Texts.{Lei};
ghost use Rattle.lei_records.specs.declared.item.Item.{Item};
ghost use Rattle.lei_records.specs.declared.item.Readied.{Readied};
ghost use Rattle.lei_records.specs.Checks.{first_failing};
ghost use Rattle.lei_records.specs.Rows.{Row};
ghost use Rattle.lei_records.specs.Tables.{Table, IsSoundTable, put, put_all, record_count};
ghost use Rattle.relation_rules.specs.Parents.{ExceptionsExcludeParents, ParentChainsEnd};
ghost use Rattle.cell_reads.specs.Reads.{Agrees};
ghost use Rattle.register_judge.specs.declared.outcome.Outcome.{Outcome};
ghost use Rattle.lei_records.specs.RuleNumbers.{newest};
ghost use Rattle.lei_records.specs.declared.rules.Rules.{Rules};
ghost use Rattle.register_judge.specs.declared.sitting.Sitting.{Sitting};
ghost use Rattle.register_judge.specs.Agreement.{IsAgreed};
ghost use Rattle.register_judge.specs.Checks.{successor_checks};
ghost use Rattle.register_judge.specs.Outcomes.{TakesItems};
ghost use Rattle.register_judge.specs.Sittings.{sitting_by};
ghost use Rattle.register_judge.specs.Taking.{take, HaveRows};
ghost use Rattle.register_judge.specs.Fitting.{EachRecord, EachRecordOf, ItemsFit, RowFits, TableFits};
ghost use Rattle.successor_rules.specs.Successors.{SuccessorChainsEnd};

/// Items whose rows are rows of their kinds leave a sound table sound.
pub fn items_keep_tables_sound()
    ensures { (table : Table) (sitting : Sitting) (items : List Readied)
        → IsSoundTable table → HaveRows items → IsSoundTable (take table sitting items).table }
{}

/// The table after items is the one before them, with the writes of the accepted ones put in order.
pub fn writes_make_the_table()
    ensures { (table : Table) (sitting : Sitting) (items : List Readied)
        → (take table sitting items).table ≡ put_all (take table sitting items).writes table }
{}

/// Suppose each successor that a table's records name is held and each chain ends. This still holds after a record is
/// put that passes the checks of its successors. By the first rules, each record must name at most one successor.
pub fn accepted_successors_keep_chains()
    ensures { (rules : Rules) (table : Table) (row : Row) → TableFits rules table → RowFits rules row
        → SuccessorChainsEnd table → first_failing (successor_checks rules table row) ≡ None
        → SuccessorChainsEnd (put table (Item.Record row)) }
{}

/// Suppose each successor that a table's records name is held and each chain ends. This still holds after any items. By
/// the first rules, each record and each item must name at most one successor.
pub fn items_keep_chains()
    ensures { (table : Table) (sitting : Sitting) (items : List Readied) → TableFits sitting.rules table
        → ItemsFit sitting.rules items → SuccessorChainsEnd table
        → SuccessorChainsEnd (take table sitting items).table }
{}

/// By the first rules: if each record and each item names at most one successor, each record still does after the
/// items. By later rules nothing is required.
pub fn items_keep_to_their_rules()
    ensures { (table : Table) (sitting : Sitting) (items : List Readied) → TableFits sitting.rules table
        → ItemsFit sitting.rules items → TableFits sitting.rules (take table sitting items).table }
{}

/// Suppose a test is true for each record of a table and for each record among the items. Then it is true for each
/// record after the items.
pub fn items_keep_what_each_record_has()
    ensures { (test : Row → Bool) (table : Table) (sitting : Sitting) (items : List Readied)
        → EachRecord (λ row. IsTrue (test row)) table → EachRecordOf (λ row. IsTrue (test row)) items
        → EachRecord (λ row. IsTrue (test row)) (take table sitting items).table }
{}

/// If each chain of direct parents of a sound table ends, it still does after items whose rows are rows of their kinds.
pub fn items_keep_parents()
    ensures { (table : Table) (sitting : Sitting) (items : List Readied)
        → IsSoundTable table → ParentChainsEnd table → HaveRows items
        → ParentChainsEnd (take table sitting items).table }
{}

/// Suppose no entity of a sound table has both an exception and an active parent of its category. This still holds
/// after items whose rows are rows of their kinds.
pub fn items_keep_apart()
    ensures { (table : Table) (sitting : Sitting) (items : List Readied)
        → IsSoundTable table → ExceptionsExcludeParents table → HaveRows items
        → ExceptionsExcludeParents (take table sitting items).table }
{}

/// Two limits give the same result on a sound table if its records and the new ones together exceed neither. So suppose
/// an outcome was judged with room for 4,294,967,295 more records. It is then that of the items on each sound table
/// that agrees with its reads. This holds under each limit up to that number that these records don't exceed.
pub fn limits_that_suffice_are_alike()
    ensures taken { (rules : Rules) (today : ℤ) (issuer : Lei) (table : Table) (small big : ℕ)
        (items : List Readied) → IsSoundTable table → small ≤ big
        → record_count table + (take table (sitting_by rules big today issuer) items).new_records ≤ small
        → take table (sitting_by rules small today issuer) items
        ≡ take table (sitting_by rules big today issuer) items }
    ensures agreed { (outcome : Outcome) (limit : ℕ) (today : ℤ) (issuer : Lei) (items : List Readied)
        (table : Table) → IsAgreed outcome 4294967295 today issuer items → IsSoundTable table
        → Agrees outcome.reads table → record_count table + outcome.new_records ≤ limit → limit ≤ 4294967295
        → TakesItems (Ok outcome) (take table (sitting_by newest limit today issuer) items) }
{}
