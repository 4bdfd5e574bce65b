//! Reads the bodies of uploads as lists of items.
ghost use Rattle.std.specs.Prelude.{◌≡◌, ◌≤◌, ℕ, List, false, Some, option_map};
ghost use Rattle.std.specs.Str.{bytes_eq};
ghost use Rattle.std.specs.List.{list_all};
ghost use Rattle.serde_json.specs.Find.{as_str, get_member};
ghost use Rattle.serde_json.specs.View.{view, members_view, items_view};
ghost use Rattle.lei_records.specs.RuleNumbers.{rules_of};
ghost use Rattle.item_fields.specs.declared.fields.Kind.{Kind};
ghost use Rattle.upload_format.specs.Bodies;
ghost use Rattle.upload_format.specs.Bodies.{BodyGives, append_read, if_countable, items_in_value, items_of_lists, items_under, list_name, list_of, member_names, or_no_json, or_no_upload, raw_item_of, ready_upload, text_members, upload, upload_items, value_of};

use crate::fault::UploadFault;
use crate::items::raw_item;
use crate::ordered::ready_ordered;
use crate::readying::ready_all;
use item_fields::{Fields, Kind, RawItem, Upload};
use json::Scratch;
use lei_records::Readied;
use lei_values::{List, Text};
use register_words::Malformed;
use serde_json::{Map, Value};
use std::alloc::Global;
use std::thread::Threads;

/// The greatest number of items in an upload. This project's profile.
pub const MAX_ITEMS: usize = 5000;

/// Reads the body of an upload: an RFC 8259 text of an object with the lists `records`, `relationships` and
/// `exceptions`, or some of them. Each list has objects whose values are texts. If an object repeats a name, the last
/// value counts. An upload has from 1 to [`MAX_ITEMS`] items in all. The records are returned first, then the
/// relationships, then the exceptions, each in the order in which they were sent. Names and texts are copied into the
/// items.
#[tactic(auto, unfolding(crate::specs::Bodies::upload))]
pub fn read_upload(alloc: Global, body: &[u8]) -> Result<Upload, UploadFault>
    ensures { BodyGives (λ read. read.items) result (upload body.now) }
{
    let items = read_tree(alloc, body)?;
    Ok(Upload {
        items: List::from(countable(items)?),
    })
}

/// Reads bodies one after another, in memory that it keeps: about five bytes for each byte of the longest one. It
/// allocates and clears none of that memory again for a body that is at most as long as an earlier one.
#[derive(Drop)]
pub struct Reader {
    scratch: Scratch,
}

impl Reader {
    /// A reader that holds no memory yet.
    pub fn new(alloc: Global) -> Reader {
        Reader {
            scratch: Scratch::new(alloc),
        }
    }

    /// Reads a body as [`read_upload`] does, and checks the fields of its items as `ready_by` of `lei_records` does, by
    /// the rules of this number. If there are many items, both are done in several threads. If the items have their
    /// names in byte order and no list is repeated, no tree of values is built.
    pub fn read_ready<R: Threads + Sync>(
        &mut self,
        rt: &R,
        alloc: Global,
        rules: u16,
        body: &[u8],
    ) -> Result<Vec<Readied>, UploadFault>
        requires first { 1 ≤ rules }
        requires last { rules ≤ 3 }
        ensures { BodyGives (λ items. items.items) result (ready_upload (rules_of rules) body.now) }
    {
        match ready_ordered(rt, alloc, &mut self.scratch, rules, body)? {
            Some(items) => countable(items),
            None => ready_tree(rt, alloc, rules, body),
        }
    }
}

// The same, by a tree of values.
fn ready_tree<R: Threads + Sync>(
    rt: &R,
    alloc: Global,
    rules: u16,
    body: &[u8],
) -> Result<Vec<Readied>, UploadFault>
    requires first { 1 ≤ rules }
    requires last { rules ≤ 3 }
    ensures { BodyGives (λ items. items.items) result (ready_upload (rules_of rules) body.now) }
{
    let upload = read_upload(alloc, body)?;
    let items = ready_all(rt, alloc, rules, upload.items.as_slice())?;
    Ok(items)
}

// The items, if there are as many as an upload may have.
fn countable<T: Drop>(items: Vec<T>) -> Result<Vec<T>, UploadFault>
    ensures { BodyGives (λ items. items.items) result (if_countable items.items) }
{
    if items.is_empty() {
        return Err(UploadFault::Malformed(Malformed::NoItems));
    }
    if items.len() > MAX_ITEMS {
        return Err(UploadFault::Malformed(Malformed::TooManyItems));
    }
    Ok(items)
}

// The items of a body before they are counted.
fn read_tree(alloc: Global, body: &[u8]) -> Result<Vec<RawItem>, UploadFault>
    ensures { BodyGives (λ items. items.items) result (items_in_value (value_of body.now)) }
{
    let value = read_value(alloc, body)?;
    read_items(alloc, value)
}

fn read_value(alloc: Global, body: &[u8]) -> Result<Value, UploadFault>
    ensures { BodyGives view result (or_no_json (value_of body.now)) }
{
    match Value::from_slice(alloc, body) {
        Ok(value) => Ok(value),
        Err(error) => {
            if error.is_memory() {
                return Err(UploadFault::NoMemory);
            }
            Err(UploadFault::Malformed(Malformed::NotJson))
        }
    }
}

// The items of a value, if it is an object whose members all have the name of an upload's list.
fn read_items(alloc: Global, value: Value) -> Result<Vec<RawItem>, UploadFault>
    ensures { BodyGives (λ items. items.items) result (or_no_upload (upload_items (view value))) }
{
    let Value::Object(members) = value else {
        return Err(UploadFault::Malformed(Malformed::NotAnUpload));
    };
    if !has_known_names(&members) {
        return Err(UploadFault::Malformed(Malformed::NotAnUpload));
    }
    read_lists(alloc, lists_of(members))
}

fn has_known_names(members: &Map<String, Value>) -> bool
    ensures { result ≡ list_all Bodies.is_list_name (member_names (members_view members.now.entries)) }
{
    members.keys().all(|name| is_list_name(name.as_str()))
}

fn is_list_name(name: &str) -> bool
    ensures { result ≡ Bodies.is_list_name name.now }
{
    matches!(name, "records" | "relationships" | "exceptions")
}

// The values of an upload's members, each of which may be absent.
#[derive(Drop)]
struct Lists {
    records: Option<Value>,
    relationships: Option<Value>,
    exceptions: Option<Value>,
}

fn lists_of(mut members: Map<String, Value>) -> Lists
    ensures records { option_map view result.records
        ≡ get_member (list_name Kind.Record) (members_view members.entries) }
    ensures relationships { option_map view result.relationships
        ≡ get_member (list_name Kind.Relation) (members_view members.entries) }
    ensures exceptions { option_map view result.exceptions
        ≡ get_member (list_name Kind.Exception) (members_view members.entries) }
{
    let records = take_member(&mut members, "records");
    let relationships = take_member(&mut members, "relationships");
    let exceptions = take_member(&mut members, "exceptions");
    Lists {
        records,
        relationships,
        exceptions,
    }
}

// The member's value, which is removed from the object.
fn take_member(members: &mut Map<String, Value>, name: &str) -> Option<Value>
    ensures value { option_map view result ≡ get_member name.now (members_view members.old.entries) }
    ensures others { (other : List ℕ) → bytes_eq other name.now ≡ false
        → get_member other (members_view members.new.entries)
        ≡ get_member other (members_view members.old.entries) }
{
    members.remove(name)
}

// The items of the three lists, one list after another.
fn read_lists(alloc: Global, lists: Lists) -> Result<Vec<RawItem>, UploadFault>
    ensures { BodyGives (λ items. items.items) result
        (or_no_upload (items_of_lists (option_map view lists.records) (option_map view lists.relationships)
        (option_map view lists.exceptions))) }
{
    let items = Vec::new(alloc);
    let items = read_list(alloc, items, Kind::Record, lists.records)?;
    let items = read_list(alloc, items, Kind::Relation, lists.relationships)?;
    read_list(alloc, items, Kind::Exception, lists.exceptions)
}

// These items, followed by those of a list.
fn read_list(
    alloc: Global,
    items: Vec<RawItem>,
    kind: Kind,
    list: Option<Value>,
) -> Result<Vec<RawItem>, UploadFault>
    ensures { BodyGives (λ read. read.items) result
        (or_no_upload (append_read (Some items.items) (items_under kind (option_map view list)))) }
{
    match list {
        None => Ok(items),
        Some(Value::Array(values)) => read_values(alloc, items, kind, values),
        Some(_) => Err(UploadFault::Malformed(Malformed::NotAnUpload)),
    }
}

fn read_values(
    alloc: Global,
    mut items: Vec<RawItem>,
    kind: Kind,
    values: Vec<Value>,
) -> Result<Vec<RawItem>, UploadFault>
    ensures { BodyGives (λ read. read.items) result
        (or_no_upload (append_read (Some items.items) (list_of kind (items_view values.items)))) }
{
    items.reserve(values.len())?;
    for value in values {
        items.push(read_item(alloc, kind, value)?)?;
    }
    Ok(items)
}

fn read_item(alloc: Global, kind: Kind, value: Value) -> Result<RawItem, UploadFault>
    ensures { BodyGives (λ item. item) result (or_no_upload (raw_item_of kind (view value))) }
{
    let Value::Object(members) = value else {
        return Err(UploadFault::Malformed(Malformed::NotAnUpload));
    };
    Ok(raw_item(kind, read_fields(alloc, members)?))
}

fn read_fields(alloc: Global, members: Map<String, Value>) -> Result<Fields, UploadFault>
    ensures { BodyGives (λ fields. fields) result
        (or_no_upload (text_members (members_view members.entries))) }
{
    let mut fields = Fields::with_capacity(alloc, members.len(), 0)?;
    for (name, value) in members {
        let text = read_text(value)?;
        fields = fields.with(name.as_str(), text.as_str())?;
    }
    Ok(fields)
}

fn read_text(value: Value) -> Result<Text, UploadFault>
    ensures { BodyGives (λ text. text) result (or_no_upload (as_str (view value))) }
{
    match value {
        Value::String(text) => Ok(Text::from(text)),
        _ => Err(UploadFault::Malformed(Malformed::NotAnUpload)),
    }
}
