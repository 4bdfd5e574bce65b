//! Laws on what a store tells.
ghost use Rattle.std.specs.Prelude.{◌≡◌, ◌++◌, ℕ, ℤ, List, ◌∷◌, Some};
ghost use Rattle.std.specs.Cmp.Lexicographic.{slice_cmp};
ghost use Rattle.std.specs.Ordering.{nat_cmp, ordering_then};
ghost use Rattle.sqlite_value.specs.Order.{Row};
ghost use Rattle.sqlite_trees.specs.Tree.{Trees};
ghost use Rattle.sqlite_schema.specs.declared.schema.Schema.{Schema};
ghost use Rattle.lei_values.specs.KeptTables.{AreKept, KeptTables};
ghost use Rattle.lei_values.specs.declared.cell.KeptCell.{KeptCell};
ghost use Rattle.store_statements.specs.Names.{AreNameParts, lei_of, rest_of};
ghost use Rattle.store_tables.specs.Forms.{first_store, second_store};
ghost use Rattle.store_tables.specs.Told.{told_in_rows, told_in_trees};

/// Tables that a store tells are kept tables. The numbers of the entries are at least 1 and rise, and each cell has the
/// number of an entry.
pub fn told_tables_are_kept()
    ensures { (schema : Schema) (trees : Trees) (t : KeptTables) → told_in_trees schema trees ≡ Some t
        → AreKept t }
{}

/// A name is its two parts joined, and no other two texts that fit form it.
pub fn names_are_split_once()
    ensures parts { (name : List ℕ) → AreNameParts (lei_of name) (rest_of name)
        × (lei_of name ++ rest_of name ≡ name) }
    ensures once { (name lei rest : List ℕ) → AreNameParts lei rest → lei ++ rest ≡ name
        → (lei ≡ lei_of name) × (rest ≡ rest_of name) }
{}

/// The order by kind and the two parts of the name is that by kind and name.
pub fn parts_are_in_the_order_of_names()
    ensures { (kind other : ℕ) (name named : List ℕ)
        → ordering_then (nat_cmp kind other)
        (ordering_then (slice_cmp nat_cmp (lei_of name) (lei_of named))
        (slice_cmp nat_cmp (rest_of name) (rest_of named)))
        ≡ slice_cmp nat_cmp (kind ∷ name) (other ∷ named) }
{}

/// Stores with the same entries and cells tell the same tables in both forms, or none.
pub fn both_forms_tell_the_same()
    ensures { (entries : List Row) (cells : List (ℤ × KeptCell))
        → told_in_rows (first_store entries cells) ≡ told_in_rows (second_store entries cells) }
{}
