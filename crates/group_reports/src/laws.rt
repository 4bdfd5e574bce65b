//! A law of groups, as the contract of a function that does nothing.
ghost use Rattle.std.specs.Prelude.{◌≢◌, ◌↔◌, List as Items};
ghost use Rattle.std.specs.List.{Contains, IsDistinct};
ghost use Rattle.std.specs.Str.{bytes_eq};
ghost use Rattle.lei_code.specs.Texts.{Lei};
ghost use Rattle.group_reports.specs.Groups.{LeadsUpTo, members};
ghost use Rattle.group_reports.specs.Links.{Link};

/// An entity other than the root is a member exactly if a chain of direct parents leads from it to the root. The chain
/// may have any length. The root isn't a member, and no entity is a member twice. Walks may come back to an earlier
/// entity.
pub fn members_are_those_with_a_chain()
    ensures chain { (links : Items Link) (root lei : Lei) → lei ≢ root
        → Contains (members links root) lei ↔ LeadsUpTo links lei root }
    ensures root { (links : Items Link) (root : Lei) → ¬ Contains (members links root) root }
    ensures once { (links : Items Link) (root : Lei) → IsDistinct bytes_eq (members links root) }
{}
