//! Reports on groups.
ghost use Rattle.std.specs.Prelude.{◌≡◌, ◌<◌, false, length, IfOk};
ghost use Rattle.std.specs.Set.{is_member};
ghost use Rattle.std.specs.Str.{bytes_eq};
ghost use Rattle.group_reports.specs.Places.{at, leis_of};
ghost use Rattle.group_reports.specs.Reports as spec;

use crate::links::Links;
use crate::listing::{group_of, members};
use crate::names::Names;
use crate::reports::{put_disagreements, put_members, put_members_line, put_root};
use lei_values::{Bytes, NoMemory};
use std::alloc::Global;

/// The report on the group of the entity at a place.
#[tactic(auto, unfolding(crate::specs::Reports::group_report))]
pub fn group_text(
    alloc: Global,
    names: &Names,
    links: &Links,
    root: usize,
) -> Result<Bytes, NoMemory>
    requires { root < length links.now.leis }
    ensures { IfOk result (λ bytes. bytes
        ≡ spec.group_report (record { names = names.now; links = links.now.links })
        (at links.now.leis root)) }
{
    let members = members(alloc, links, root)?;
    let group = group_of(alloc, root, members.as_slice())?;
    let mut out = Vec::new(alloc);
    put_root(&mut out, names, links.lei(root))?;
    put_members(&mut out, names, links, members.as_slice())?;
    put_members_line(&mut out, members.len())?;
    put_disagreements(&mut out, links, group.as_slice())?;
    Ok(Bytes::from(out))
}

/// The report on an entity that no link starts or ends at.
#[tactic(auto, unfolding(crate::specs::Reports::group_report))]
pub fn lone_text(alloc: Global, names: &Names, links: &Links, who: &str) -> Result<Bytes, NoMemory>
    requires { is_member bytes_eq (leis_of links.now.links) who.now ≡ false }
    ensures { IfOk result (λ bytes. bytes
        ≡ spec.group_report (record { names = names.now; links = links.now.links }) who.now) }
{
    let mut out = Vec::new(alloc);
    put_root(&mut out, names, who)?;
    put_members_line(&mut out, 0)?;
    put_disagreements(&mut out, links, &[])?;
    Ok(Bytes::from(out))
}
