//! The members of a group.
ghost use Rattle.std.specs.Prelude.{◌≡◌, ◌<◌, ◌++◌, ◌∷◌, length, map, IfOk, OnOk};
ghost use Rattle.group_reports.specs.Listings.{all_members, member_at, placed_at};
ghost use Rattle.group_reports.specs.Places.{AreBelow, at, places_in_order};

use crate::links::Links;
use crate::tree::{add_place, list_of};
use lei_values::NoMemory;
use std::alloc::Global;
use std::collections::BTreeSet;

/// A member of a group.
#[derive(Clone, Copy, Debug, Drop)]
pub struct Placed {
    /// The least number of steps up from it to the root.
    pub depth: u64,
    pub place: usize,
}

/// The members of the group of the entity at a place, by depth and then in byte order.
pub fn members(alloc: Global, links: &Links, root: usize) -> Result<Vec<Placed>, NoMemory>
    requires { root < length links.now.leis }
    ensures members { IfOk result (λ made. map (member_at links.now.leis) made.items
        ≡ all_members links.now.links (at links.now.leis root)) }
    ensures below { IfOk result
        (λ made. AreBelow (length links.now.leis) (map (λ member. member.place) made.items)) }
{
    let mut made = Vec::new(alloc);
    let mut level = vec![in alloc; root]?;
    for steps in 0..links.len() {
        let next = links.tree().children(level.as_slice(), root)?;
        if next.is_empty() {
            return Ok(made);
        }
        add_level(&mut made, next.as_slice(), steps + 1)?;
        level = next;
    }
    Ok(made)
}

// Adds the members at a depth.
fn add_level(made: &mut Vec<Placed>, level: &[usize], depth: usize) -> Result<(), NoMemory>
    ensures { OnOk result (made.new.items ≡ made.old.items ++ map (placed_at depth) level.now) }
{
    let depth = depth as u64;
    for place in level {
        made.push(Placed {
            depth,
            place: *place,
        })?;
    }
    Ok(())
}

/// The places of a root and of the members of its group, in order.
pub fn group_of(alloc: Global, root: usize, members: &[Placed]) -> Result<Vec<usize>, NoMemory>
    ensures { IfOk result (λ made. made.items
        ≡ places_in_order (root ∷ map (λ member. member.place) members.now)) }
{
    let mut made = BTreeSet::new(alloc);
    add_place(&mut made, root)?;
    for member in members {
        add_place(&mut made, member.place)?;
    }
    list_of(alloc, made)
}
