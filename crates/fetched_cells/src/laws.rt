//! Laws about the cells that are fetched, each as the contract of an empty function.
ghost use Rattle.std.specs.Prelude.{◌≡◌, ◌∷◌, [], ℕ, List};
ghost use Rattle.std.specs.Cmp.Lexicographic.{slice_cmp};
ghost use Rattle.std.specs.List.{Contains, IsDistinct};
ghost use Rattle.std.specs.List.Sorted.{IsStrictlySortedBy};
ghost use Rattle.std.specs.Ordering.{nat_cmp};
ghost use Rattle.std.specs.Set.{is_member};
ghost use Rattle.std.specs.Str.{bytes_eq};
ghost use Rattle.lei_code.specs.Texts.{Lei};
ghost use Rattle.lei_records.specs.declared.item.Readied.{Readied};
ghost use Rattle.lei_records.specs.declared.rules.Rules.{Rules};
ghost use Rattle.lei_records.specs.declared.view.CellKey.{CellKey};
ghost use Rattle.lei_records.specs.Cells.{Cells};
ghost use Rattle.successor_rules.specs.Chains.{Nexts};
ghost use Rattle.successor_rules.specs.Levels.{others};
ghost use Rattle.cell_reads.specs.Needs.{named_cells, needs};
ghost use Rattle.fetched_cells.specs.Fetching.{LevelsEnd, fetched_keys};
ghost use Rattle.fetched_cells.specs.Nearest.{by_levels, distinct_leis};

/// Each cell that an item needs over a view, by whichever rules, is fetched from that view for the cells that the item
/// names. For a record, its walk by levels must end there: it has at most 200 LEIs, and the record's own isn't one of
/// them.
///
/// Fetching starts at each successor that the record names. The levels of a successor have no other LEIs than the walk
/// of the record, so the first 201 are all of them. If that walk returns to the record or is too wide, what is fetched
/// may lack a needed cell. The upload is then judged in its turn.
pub fn needed_cells_are_fetched()
    ensures { (rules : Rules) (cells : Cells) (item : Readied) (key : CellKey) → LevelsEnd cells item
        → Contains (needs rules cells item) key → Contains (fetched_keys cells (named_cells item)) key }
{}

/// The LEIs of n levels from what an entity names are those of the walk by levels, other than its own. Each of them
/// occurs once. Those of a level are in byte order.
pub fn nearest_leis_are_those_of_levels()
    ensures members { (n : ℕ) (nexts : Nexts) (own lei : Lei)
        → is_member bytes_eq (by_levels n nexts (own ∷ []) (own ∷ [])) lei
        ≡ is_member bytes_eq (others n nexts own (nexts own)) lei }
    ensures distinct { (n : ℕ) (nexts : Nexts) (own : Lei)
        → IsDistinct bytes_eq (by_levels n nexts (own ∷ []) (own ∷ [])) }
    ensures ordered { (leis : List Lei) → IsStrictlySortedBy (slice_cmp nat_cmp) (distinct_leis leis) }
{}
