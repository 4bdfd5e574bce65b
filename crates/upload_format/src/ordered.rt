//! Reads and checks the items of a body from its tokens, without a tree of its values. It reads uploads whose items
//! have their names in byte order.
ghost use Rattle.std.specs.Prelude.{◌≡◌, ◌≤◌, ◌++◌, ◌∷◌, [], ℕ, List as Listed, IfOk, IfSome, IsTrue, None, Some, map, option_and_then, option_map};
ghost use Rattle.std.specs.List.{AllZip};
ghost use Rattle.json.specs.Find.{InMembers};
ghost use Rattle.json.specs.Json as spec;
ghost use Rattle.item_fields.specs.Items.{ready as ready_of};
ghost use Rattle.item_fields.specs.Names.{NamesRise};
ghost use Rattle.lei_records.specs.RuleNumbers.{rules_of};
ghost use Rattle.item_fields.specs.declared.fields.Kind.{Kind};
ghost use Rattle.upload_format.specs.Bodies.{list_name, upload_items, value_of};
ghost use Rattle.upload_format.specs.Ordered.{AddsList, AreFields, AreListed, AreLists, IsReadAs, list_under, list_with};

use crate::items::raw_item;
use crate::threads::map_items;
use item_fields::{Fields, Kind, ready_by};
use json::{Element, Error, Items, Members, Scratch, Tape};
use lei_records::Readied;
use lei_values::NoMemory;
use std::alloc::Global;
use std::thread::Threads;

// The items of a body after the checks of their fields by the rules of this number. The body is an upload that repeats
// no list, and its items have their names in byte order. `None` says nothing about the body.
#[tactic(auto, unfolding(crate::specs::Bodies::value_of))]
pub fn ready_ordered<R: Threads + Sync>(
    rt: &R,
    alloc: Global,
    scratch: &mut Scratch,
    rules: u16,
    body: &[u8],
) -> Result<Option<Vec<Readied>>, NoMemory>
    requires first { 1 ≤ rules }
    requires last { rules ≤ 3 }
    ensures { IfOk result (λ read. IfSome read
        (λ items. option_map (map (ready_of (rules_of rules)))
        (option_and_then upload_items (value_of body.now)) ≡ Some items.items)) }
{
    let Ok(text) = simdutf8::basic::from_utf8(body) else {
        return Ok(None);
    };
    ready_text(rt, alloc, scratch, rules, text)
}

fn ready_text<R: Threads + Sync>(
    rt: &R,
    alloc: Global,
    scratch: &mut Scratch,
    rules: u16,
    text: &str,
) -> Result<Option<Vec<Readied>>, NoMemory>
    requires first { 1 ≤ rules }
    requires last { rules ≤ 3 }
    ensures { IfOk result (λ read. IfSome read
        (λ items. option_map (map (ready_of (rules_of rules)))
        (option_and_then upload_items (value_of text.now)) ≡ Some items.items)) }
{
    let tape = match Tape::parse(text, scratch, Vec::new(alloc)) {
        Ok(tape) => tape,
        Err(Error::OutOfMemory) => return Err(NoMemory),
        Err(_) => return Ok(None),
    };
    let Some(members) = tape.root().members() else {
        return Ok(None);
    };
    let Some(lists) = lists_of(members) else {
        return Ok(None);
    };
    let values = values_of(alloc, lists)?;
    ready_values(rt, alloc, rules, values.as_slice())
}

// The lists of an upload, each of which may be absent.
#[derive(Drop)]
struct Lists<'t, 'a> {
    records: Option<Items<'t, 'a>>,
    relationships: Option<Items<'t, 'a>>,
    exceptions: Option<Items<'t, 'a>>,
}

// The lists of an upload's members, if none is repeated.
fn lists_of<'t, 'a>(members: Members<'t, 'a>) -> Option<Lists<'t, 'a>>
    ensures { IfSome result (λ lists. (ms : spec.Members) → InMembers members.entry ms
        → AreLists ms (list_under lists)) }
{
    let mut members = members;
    let mut lists = Lists {
        records: None,
        relationships: None,
        exceptions: None,
    };
    while let Some((name, value)) = members.next() {
        lists = with_list(lists, kind_of(name)?, value.items()?)?;
    }
    Some(lists)
}

// The kind of the items in the list with this name.
fn kind_of(name: &str) -> Option<Kind>
    ensures { IfSome result (λ kind. name.now ≡ list_name kind) }
{
    match name {
        "records" => Some(Kind::Record),
        "relationships" => Some(Kind::Relation),
        "exceptions" => Some(Kind::Exception),
        _ => None,
    }
}

// The lists with one more. `None` is returned if there is a list of this kind already.
fn with_list<'t, 'a>(
    lists: Lists<'t, 'a>,
    kind: Kind,
    items: Items<'t, 'a>,
) -> Option<Lists<'t, 'a>>
    ensures first { IfSome result (λ made. list_under lists.entry kind ≡ None) }
    ensures lists { IfSome result (λ made. (own : Kind)
        → list_under made own ≡ list_with own kind (Some items.entry) (list_under lists.entry own)) }
{
    match kind {
        Kind::Record if lists.records.is_none() => Some(Lists {
            records: Some(items),
            ..lists
        }),
        Kind::Relation if lists.relationships.is_none() => Some(Lists {
            relationships: Some(items),
            ..lists
        }),
        Kind::Exception if lists.exceptions.is_none() => Some(Lists {
            exceptions: Some(items),
            ..lists
        }),
        _ => None,
    }
}

// A value in the list of a kind.
#[derive(Drop)]
struct ItemValue<'t, 'a> {
    kind: Kind,
    value: Element<'t, 'a>,
}

// The values of the lists, one list after another.
fn values_of<'t, 'a>(
    alloc: Global,
    lists: Lists<'t, 'a>,
) -> Result<Vec<ItemValue<'t, 'a>>, NoMemory>
    ensures { IfOk result (λ values. AreListed (list_under lists.entry) values.items) }
{
    let values = Vec::new(alloc);
    let values = push_list(values, Kind::Record, lists.records)?;
    let values = push_list(values, Kind::Relation, lists.relationships)?;
    push_list(values, Kind::Exception, lists.exceptions)
}

// The values so far, followed by those of a list.
fn push_list<'t, 'a>(
    values: Vec<ItemValue<'t, 'a>>,
    kind: Kind,
    list: Option<Items<'t, 'a>>,
) -> Result<Vec<ItemValue<'t, 'a>>, NoMemory>
    ensures { IfOk result (λ made. AddsList kind list.entry values.entry.items made.items) }
{
    match list {
        Some(items) => push_items(values, kind, items),
        None => Ok(values),
    }
}

fn push_items<'t, 'a>(
    values: Vec<ItemValue<'t, 'a>>,
    kind: Kind,
    items: Items<'t, 'a>,
) -> Result<Vec<ItemValue<'t, 'a>>, NoMemory>
    ensures { IfOk result (λ made. AddsList kind (Some items.entry) values.entry.items made.items) }
{
    let mut items = items;
    let mut values = values;
    while let Some(value) = items.next() {
        values.push(ItemValue { kind, value })?;
    }
    Ok(values)
}

// Reads the items and checks their fields, in several threads if there are many. `None` is returned if one of the
// values isn't an object of texts whose names rise in byte order.
fn ready_values<R: Threads + Sync>(
    rt: &R,
    alloc: Global,
    rules: u16,
    values: &[ItemValue<'_, '_>],
) -> Result<Option<Vec<Readied>>, NoMemory>
    requires first { 1 ≤ rules }
    requires last { rules ≤ 3 }
    ensures { IfOk result (λ read. IfSome read
        (λ items. AllZip (IsReadAs (rules_of rules)) values.now items.items)) }
{
    let read = map_items(
        rt,
        alloc,
        values,
        |value: &ItemValue<'_, '_>| -> Result<Option<Readied>, NoMemory>
            requires { 1 ≤ rules × rules ≤ 3 }
            ensures { IfOk result (λ read. IfSome read (IsReadAs (rules_of rules) value.now)) }
        { ready_value(alloc, rules, value) },
    )?;
    all_some(alloc, read)
}

// The item of a value after the checks of its fields. As it was sent it lives only until then.
fn ready_value(
    alloc: Global,
    rules: u16,
    value: &ItemValue<'_, '_>,
) -> Result<Option<Readied>, NoMemory>
    requires first { 1 ≤ rules }
    requires last { rules ≤ 3 }
    ensures { IfOk result (λ read. IfSome read (IsReadAs (rules_of rules) value.now)) }
{
    let Some(members) = value.value.members() else {
        return Ok(None);
    };
    let Some(fields) = read_fields(alloc, members)? else {
        return Ok(None);
    };
    Ok(Some(ready_by(alloc, rules, &raw_item(value.kind, fields))?))
}

// The items, if each was read.
fn all_some(alloc: Global, read: Vec<Option<Readied>>) -> Result<Option<Vec<Readied>>, NoMemory>
    ensures { IfOk result (λ all. IfSome all (λ items. read.items ≡ map Some items.items)) }
{
    let mut items = Vec::with_capacity(alloc, read.len())?;
    for item in read {
        let Some(item) = item else {
            return Ok(None);
        };
        items.push(item)?;
    }
    Ok(Some(items))
}

// The fields of an item, if their names rise in byte order and their values are texts.
fn read_fields(alloc: Global, members: Members<'_, '_>) -> Result<Option<Fields>, NoMemory>
    ensures { IfOk result (λ read. IfSome read (λ fields. (ms : spec.Members) → InMembers members.entry ms
        → AreFields ms fields)) }
{
    let mut members = members;
    let mut fields = Fields::with_capacity(alloc, FIELDS, BYTES)?;
    while let Some((name, value)) = members.next() {
        let Some(text) = value.as_str() else {
            return Ok(None);
        };
        if !is_next(&fields, name) {
            return Ok(None);
        }
        fields = fields.with(name, text)?;
    }
    Ok(Some(fields))
}

// Most items have at most this many fields.
const FIELDS: usize = 32;

// Many items have at most this many bytes of names and texts together. A piece of up to 1,032 bytes that is given back,
// as this one is for each item, is kept at hand by the C library.
const BYTES: usize = 1_000;

// Whether the name comes after those of the fields in byte order.
fn is_next(fields: &Fields, name: &str) -> bool
    ensures { (text : Listed ℕ) → IsTrue result → NamesRise (fields.now ++ (name.now, text) ∷ []) }
{
    let count = fields.len();
    count == 0 || fields.name(count - 1) < name
}
