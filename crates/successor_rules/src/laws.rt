//! Laws of chains and of levels, each as the contract of an empty function.
ghost use Rattle.std.specs.Prelude.{◌≡◌, ◌∷◌, [], ◌&&◌, ◌⊎◌, if◌then◌else◌, not, true, false, ℕ, suc, List};
ghost use Rattle.lei_code.specs.Texts.{Lei};
ghost use Rattle.std.specs.Option.{option_to_list};
ghost use Rattle.std.specs.List.{Contains, IsDistinct};
ghost use Rattle.std.specs.Set.{is_member};
ghost use Rattle.std.specs.Str.{bytes_eq};
ghost use Rattle.lei_records.specs.declared.view.CellKey.{CellKey};
ghost use Rattle.lei_records.specs.Walks.{Next, walk_members};
ghost use Rattle.successor_rules.specs.declared.walks.Walked.{Walked};
ghost use Rattle.successor_rules.specs.Chains.{AllEnd, EndsClear, IsTurned, LeadsInSteps, Nexts};
ghost use Rattle.successor_rules.specs.Levels.{Agree, SeenNexts, known_nexts, lacks_nexts, levels, others, reachable, spread_out, spread_over};
ghost use Rattle.successor_rules.specs.Walks.{walk_end};

/// If each way ends, none comes back to where it started.
pub fn ending_ways_never_return()
    ensures { (nexts : Nexts) (n : ℕ) (lei : Lei) → AllEnd nexts → LeadsInSteps (suc n) nexts lei lei → ⊥ }
{}

/// If each way ends and one code is changed to name other next ones, each way still ends. The condition is that each
/// way from these ends without meeting that code.
pub fn clear_ways_keep_ends()
    ensures { (before after : Nexts) (start : Lei) (targets : List Lei) (n : ℕ) → AllEnd before
        → IsTurned before after start targets
        → ((lei : Lei) → Contains targets lei → EndsClear n before start lei) → AllEnd after }
{}

/// The same if a code names one next one, from which the walk ends within 200 members and doesn't meet the code.
pub fn ending_walks_keep_ends()
    ensures { (next : Next) (after : Nexts) (start first : Lei) → AllEnd (λ lei. option_to_list (next lei))
        → IsTurned (λ lei. option_to_list (next lei)) after start (first ∷ [])
        → walk_end next start first ≡ Walked.Ends → AllEnd after }
{}

/// The LEIs that are counted in levels are those in the levels except the entity's own, and each is counted once.
pub fn others_are_counted_once()
    ensures distinct { (n : ℕ) (nexts : Nexts) (own : Lei) (first : List Lei)
        → IsDistinct bytes_eq (others n nexts own first) }
    ensures members { (n : ℕ) (nexts : Nexts) (own : Lei) (first : List Lei) (lei : Lei)
        → is_member bytes_eq (others n nexts own first) lei
        ≡ (is_member bytes_eq (levels n nexts own first) lei && not (bytes_eq lei own)) }
{}

/// If each way ends and an entity is changed to name other next ones, each way still ends. The condition is that the
/// walk by levels from these came to its end. That is, it reached at most 200 LEIs, and the entity was none of them.
pub fn clear_levels_keep_ends()
    ensures { (before after : Nexts) (own : Lei) (targets : List Lei) → AllEnd before
        → IsTurned before after own targets → spread_out before own targets ≡ Walked.Ends → AllEnd after }
{}

/// A view that agrees with what LEIs name reports the result of the walk by levels, or the key of a cell that it lacks.
/// The cell is that of an LEI in the levels that the view knows. A view that lacks nothing reports the result of the
/// walk along its answers.
pub fn agreeing_views_tell_the_levels()
    ensures agreeing { (answers : SeenNexts) (nexts : Nexts) (key : Lei → CellKey) (own : Lei)
        (first : List Lei)
        → Agree answers nexts
        → (spread_over answers key own first ≡ spread_out nexts own first)
        ⊎ ((lei : Lei) × (lacks_nexts (answers lei) ≡ true)
        × (is_member bytes_eq (levels 201 (known_nexts answers) own first) lei ≡ true)
        × (spread_over answers key own first ≡ Walked.Missing (key lei))) }
    ensures whole { (answers : SeenNexts) (key : Lei → CellKey) (own : Lei) (first : List Lei)
        → ((lei : Lei) → lacks_nexts (answers lei) ≡ false)
        → spread_over answers key own first ≡ spread_out (known_nexts answers) own first }
{}

/// Suppose each LEI names at most one next one, and each way ends. Then the walk by levels has the same result as the
/// walk of a chain. The only difference is that it is also `Meets` if the 201st member is the entity itself, which is
/// `Long` for a chain.
pub fn single_levels_are_chains()
    ensures { (next : Next) (own first : Lei) → AllEnd (λ lei. option_to_list (next lei))
        → spread_out (λ lei. option_to_list (next lei)) own (first ∷ [])
        ≡ (if is_member bytes_eq (walk_members 201 next first) own then Walked.Meets
        else walk_end next own first) }
{}

/// Let one view answer as another for the first 200 LEIs that the walk by levels reaches, unless it lacks the cell.
/// Then it reports what the other reports, or the key of such a cell that it lacks.
pub fn levels_go_by_what_is_reached()
    ensures { (answers more : SeenNexts) (key : Lei → CellKey) (own : Lei) (first : List Lei)
        → ((lei : Lei) → is_member bytes_eq (reachable (known_nexts answers) own first) lei ≡ true
        → (lacks_nexts (answers lei) ≡ true) ⊎ (answers lei ≡ more lei))
        → (spread_over answers key own first ≡ spread_over more key own first)
        ⊎ ((lei : Lei) × (lacks_nexts (answers lei) ≡ true)
        × (is_member bytes_eq (reachable (known_nexts answers) own first) lei ≡ true)
        × (spread_over answers key own first ≡ Walked.Missing (key lei))) }
{}
