//! Builds the bodies of the uploads.
ghost use Rattle.std.specs.Prelude.{◌≡◌, ◌≤◌, ◌++◌, decimal, flat_map, map, IfOk, OnOk};
ghost use Rattle.register_demo.specs.Bodies.{authority_id, block_body, body_start, demo_item_text, elements, from_to};
ghost use Rattle.register_demo.specs.Plan.{block_count};

use crate::codes::{manager, put_code};
use crate::plan::{Group, first_item, last_item};
use itoa::Buffer;
use lei_values::{NoMemory, Shared};
use std::alloc::Global;

// Roughly how many bytes the body of a block has.
const ROOM: usize = 131_072;

// A record up to the number in its name.
const TO_NAME: &str = concat!(
    "{\"Entity.EntityCategory\":\"GENERAL\",",
    "\"Entity.EntityStatus\":\"ACTIVE\",",
    "\"Entity.HeadquartersAddress.City\":\"Paris\",",
    "\"Entity.HeadquartersAddress.Country\":\"FR\",",
    "\"Entity.HeadquartersAddress.FirstAddressLine\":\"1 Main Street\",",
    "\"Entity.LegalAddress.City\":\"Paris\",",
    "\"Entity.LegalAddress.Country\":\"FR\",",
    "\"Entity.LegalAddress.FirstAddressLine\":\"1 Main Street\",",
    "\"Entity.LegalForm.EntityLegalFormCode\":\"AB12\",",
    "\"Entity.LegalJurisdiction\":\"FR\",",
    "\"Entity.LegalName\":\"Entity "
);

// From there to its number at the authority.
const TO_AUTHORITY_ID: &str =
    "\",\"Entity.RegistrationAuthority.RegistrationAuthorityEntityID\":\"";

// From there to its LEI.
const TO_LEI: &str = concat!(
    "\",\"Entity.RegistrationAuthority.RegistrationAuthorityID\":\"RA000001\",",
    "\"LEI\":\""
);

// From there to its manager.
const TO_RECORD_MANAGER: &str = concat!(
    "\",\"Registration.InitialRegistrationDate\":\"2025-01-01T00:00:00Z\",",
    "\"Registration.LastUpdateDate\":\"2025-01-01T00:00:00Z\",",
    "\"Registration.ManagingLOU\":\""
);

// From there to its end.
const TO_RECORD_END: &str = concat!(
    "\",\"Registration.NextRenewalDate\":\"2026-01-01T00:00:00Z\",",
    "\"Registration.RegistrationStatus\":\"ISSUED\",",
    "\"Registration.ValidationSources\":\"FULLY_CORROBORATED\"}"
);

// A relationship up to its manager.
const TO_MANAGER: &str = concat!(
    "{\"Registration.InitialRegistrationDate\":\"2025-01-01T00:00:00Z\",",
    "\"Registration.LastUpdateDate\":\"2025-01-01T00:00:00Z\",",
    "\"Registration.ManagingLOU\":\""
);

// From there to the parent.
const TO_PARENT: &str = concat!(
    "\",\"Registration.RegistrationStatus\":\"PUBLISHED\",",
    "\"Registration.ValidationSources\":\"FULLY_CORROBORATED\",",
    "\"Relationship.EndNode\":\""
);

// From there to the start.
const TO_START: &str = concat!(
    "\",\"Relationship.RelationshipStatus\":\"ACTIVE\",",
    "\"Relationship.RelationshipType\":\"IS_DIRECTLY_CONSOLIDATED_BY\",",
    "\"Relationship.StartDate\":\"2025-01-01T00:00:00Z\",",
    "\"Relationship.StartNode\":\""
);

// From there to its end.
const TO_END: &str = "\"}";

// Appends the pieces.
fn put_all(out: &mut Vec<u8>, pieces: &[&str]) -> Result<(), NoMemory>
    ensures { OnOk result (out.new.items ≡ out.old.items ++ flat_map (λ piece. piece.now) pieces.now) }
{
    for piece in pieces {
        out.extend_from_slice(piece.as_bytes())?;
    }
    Ok(())
}

// The number of a record at its registration authority. Each tenth record has that of the record before it.
fn authority_id(i: u32) -> u32
    ensures { result ≡ authority_id i }
{
    if i % 10 == 0 { i.saturating_sub(1) } else { i }
}

// Appends the record of a number, up to its LEI.
fn put_names(out: &mut Vec<u8>, i: u32) -> Result<(), NoMemory>
    ensures { OnOk result (out.new.items
        ≡ out.old.items ++ (TO_NAME.now
        ++ (decimal i ++ (TO_AUTHORITY_ID.now ++ (decimal (authority_id i) ++ TO_LEI.now))))) }
{
    let (mut number, mut at_authority) = (Buffer::new(), Buffer::new());
    let number = number.format(i);
    let at_authority = at_authority.format(authority_id(i));
    put_all(
        out,
        &[TO_NAME, number, TO_AUTHORITY_ID, at_authority, TO_LEI],
    )
}

// Appends the record of a number.
fn put_record(out: &mut Vec<u8>, manager: &str, i: u32) -> Result<(), NoMemory>
    ensures { OnOk result (out.new.items ≡ out.old.items ++ demo_item_text Group.Records manager.now i) }
{
    put_names(out, i)?;
    put_code(out, i)?;
    put_all(out, &[TO_RECORD_MANAGER, manager, TO_RECORD_END])?;
    Ok(())
}

// Appends the relationship that starts at the record of a number.
fn put_relationship(out: &mut Vec<u8>, manager: &str, i: u32) -> Result<(), NoMemory>
    ensures { OnOk result (out.new.items ≡ out.old.items
        ++ demo_item_text Group.Relationships manager.now i) }
{
    put_all(out, &[TO_MANAGER, manager, TO_PARENT])?;
    put_code(out, i / 2)?;
    put_all(out, &[TO_START])?;
    put_code(out, i)?;
    put_all(out, &[TO_END])?;
    Ok(())
}

// Appends the item of a number.
fn put_item(out: &mut Vec<u8>, group: Group, manager: &str, i: u32) -> Result<(), NoMemory>
    ensures { OnOk result (out.new.items ≡ out.old.items ++ demo_item_text group manager.now i) }
{
    match group {
        Group::Records => put_record(out, manager, i),
        Group::Relationships => put_relationship(out, manager, i),
    }
}

// Appends the items from one number to another, separated by commas.
fn put_items(
    out: &mut Vec<u8>,
    group: Group,
    manager: &str,
    first: u32,
    last: u32,
) -> Result<(), NoMemory>
    requires { first ≤ last }
    ensures { OnOk result (out.new.items
        ≡ out.old.items ++ elements (map (demo_item_text group manager.now) (from_to first last))) }
{
    for i in first..last {
        put_item(out, group, manager, i)?;
        out.push(b',')?;
    }
    put_item(out, group, manager, last)?;
    Ok(())
}

// The start of a body.
fn body_start(group: Group) -> &'static str
    ensures { result.now ≡ body_start group }
{
    match group {
        Group::Records => "{\"records\":[",
        Group::Relationships => "{\"relationships\":[",
    }
}

/// The body that brings the items of a block.
pub fn block_body(alloc: Global, group: Group, n: u32, block: u32) -> Result<Shared, NoMemory>
    requires least { 2 ≤ n }
    requires most { n ≤ 100_000 }
    requires counted { 1 ≤ block }
    requires within { block ≤ block_count n }
    ensures { IfOk result (λ body. body ≡ block_body group n block) }
{
    let mut out = Vec::with_capacity(alloc, ROOM)?;
    put_all(&mut out, &[body_start(group)])?;
    let (first, last) = (first_item(group, block), last_item(n, block));
    put_items(&mut out, group, manager(block), first, last)?;
    put_all(&mut out, &["]}"])?;
    out.shrink_to_fit();
    let body = Shared::of(alloc, out)?;
    Ok(body)
}
