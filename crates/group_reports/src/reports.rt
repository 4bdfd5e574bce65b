//! The parts of a report.
ghost use Rattle.std.specs.Prelude.{◌≡◌, ◌<◌, ◌++◌, filter, flat_map, length, map, IfOk, OnOk};
ghost use Rattle.group_reports.specs.Groups as groups;
ghost use Rattle.group_reports.specs.Listings.{member_at};
ghost use Rattle.group_reports.specs.Places.{AreBelow, at};
ghost use Rattle.group_reports.specs.Reports as spec;

use crate::lines::put_line;
use crate::links::Links;
use crate::listing::Placed;
use crate::names::{Names, or_hyphen};
use lei_values::NoMemory;

/// Appends the line of a root.
pub fn put_root(out: &mut Vec<u8>, names: &Names, root: &str) -> Result<(), NoMemory>
    ensures { OnOk result (out.new.items ≡ out.old.items ++ spec.root_line names.now root.now) }
{
    put_line(out, "GROUP", &[root, names.or_hyphen(root)])?;
    Ok(())
}

/// Appends the lines of members.
pub fn put_members(
    out: &mut Vec<u8>,
    names: &Names,
    links: &Links,
    members: &[Placed],
) -> Result<(), NoMemory>
    requires { AreBelow (length links.now.leis) (map (λ member. member.place) members.now) }
    ensures { OnOk result (out.new.items ≡ out.old.items
        ++ flat_map (spec.member_line (record { names = names.now; links = links.now.links }))
        (map (member_at links.now.leis) members.now)) }
{
    for member in members {
        put_member(out, names, links, member)?;
    }
    Ok(())
}

// Appends the line of a member.
fn put_member(
    out: &mut Vec<u8>,
    names: &Names,
    links: &Links,
    member: &Placed,
) -> Result<(), NoMemory>
    requires { member.now.place < length links.now.leis }
    ensures { OnOk result (out.new.items ≡ out.old.items
        ++ spec.member_line (record { names = names.now; links = links.now.links })
        (member_at links.now.leis member.now)) }
{
    let lei = links.lei(member.place);
    let mut depth = itoa::Buffer::new();
    let parent = or_hyphen(links.direct(member.place));
    let name = names.or_hyphen(lei);
    put_line(out, depth.format(member.depth), &[lei, parent, name])?;
    Ok(())
}

/// Appends the line with the number of members.
pub fn put_members_line(out: &mut Vec<u8>, count: usize) -> Result<(), NoMemory>
    ensures { OnOk result (out.new.items ≡ out.old.items ++ spec.members_line count) }
{
    let mut number = itoa::Buffer::new();
    put_line(out, "members", &[number.format(count)])?;
    Ok(())
}

/// Appends the lines of those entities that disagree, and the line with their number.
pub fn put_disagreements(out: &mut Vec<u8>, links: &Links, places: &[usize]) -> Result<(), NoMemory>
    requires { AreBelow (length links.now.leis) places.now }
    ensures { OnOk result (out.new.items ≡ out.old.items
        ++ spec.disagreement_lines links.now.links (map (at links.now.leis) places.now)) }
{
    let count = put_disagreeing(out, links, places)?;
    let mut number = itoa::Buffer::new();
    put_line(out, "disagreements", &[number.format(count)])?;
    Ok(())
}

// Appends the lines of those that disagree, and counts them.
fn put_disagreeing(out: &mut Vec<u8>, links: &Links, places: &[usize]) -> Result<usize, NoMemory>
    requires { AreBelow (length links.now.leis) places.now }
    ensures out { OnOk result (out.new.items ≡ out.old.items
        ++ flat_map (spec.disagreement_line links.now.links)
        (filter (groups.disagrees links.now.links) (map (at links.now.leis) places.now))) }
    ensures count { IfOk result (λ count. count
        ≡ length (filter (groups.disagrees links.now.links) (map (at links.now.leis) places.now))) }
{
    let mut count = 0;
    for place in places {
        if !links.disagrees(*place) {
            continue;
        }
        put_disagreement(out, links, *place)?;
        count += 1;
    }
    Ok(count)
}

// Appends the line of an entity that disagrees.
fn put_disagreement(out: &mut Vec<u8>, links: &Links, place: usize) -> Result<(), NoMemory>
    requires { place < length links.now.leis }
    ensures { OnOk result (out.new.items ≡ out.old.items
        ++ spec.disagreement_line links.now.links (at links.now.leis place)) }
{
    let reported = or_hyphen(links.reported(place));
    let top = or_hyphen(links.top(place));
    put_line(out, "DISAGREES", &[links.lei(place), reported, top])?;
    Ok(())
}
