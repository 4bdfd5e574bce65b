//! A view with accepted items put over it.
ghost use Rattle.std.specs.Prelude.{◌≡◌, ◌&&◌, ℕ, List, Some, None, OnOk, if◌then◌else◌, not};
ghost use Rattle.std.specs.Option.{option_copied};
ghost use Rattle.std.specs.Str.{bytes_eq};
ghost use Rattle.lei_shapes.specs.declared.lists.ExceptionCategory.{ExceptionCategory};
ghost use Rattle.lei_shapes.specs.declared.lists.RelationType.{RelationType};
ghost use Rattle.lei_records.specs.Cells;
ghost use Rattle.lei_records.specs.Cells.{lei_in};
ghost use Rattle.lei_records.specs.Exceptions.{exception_category_in, is_same_category, subject_in};
ghost use Rattle.lei_records.specs.Relations.{end_in};
ghost use Rattle.lei_records.specs.Relations as Spelled;
ghost use Rattle.lei_records.specs.Tables.{row_key};
ghost use Rattle.relation_rules.specs.Checks.{is_from};
ghost use Rattle.register_judge.specs.Overlays;
ghost use Rattle.register_judge.specs.Overlays.{overlay_view};
ghost use Rattle.register_judge.specs.Taking.{item_after};

use crate::takers::Takers;
use authority_rules::{holds, is_live, key_of};
use lei_code::Lei;
use lei_records::{ExceptionItem, Item, RecCell, Record, RelCell, Relation, Seen, View};
use lei_shapes::{ExceptionCategory, RelationType};
use lei_values::NoMemory;
use std::alloc::Global;
use std::collections::BTreeMap;

// Relationships by start, type and end. Types and categories have no order of their own, so their texts are used.
type Relations<'a> = BTreeMap<(Lei, &'static str, Lei), &'a Relation>;

// The end of a relationship, by start and type.
type Ends = BTreeMap<(Lei, &'static str), Lei>;

// Whether the exception is held, by LEI and category.
type Standing = BTreeMap<(Lei, &'static str), bool>;

// A view with accepted items over it. Each item is found by the keys of its cells.
#[derive(Drop)]
pub struct Overlay<'a, V> {
    view: &'a V,
    // The accepted record of each LEI. If two have the same LEI, it is the later one.
    records: BTreeMap<Lei, &'a Record>,
    // The record that took each key last. It may no longer hold the key.
    takers: Takers<'a>,
    // The accepted relationship of each key. If two have the same key, it is the later one.
    relations: Relations<'a>,
    // The end of the relationship that was last put as an active one. It may no longer be active.
    ends: Ends,
    // For each exception that was put or withdrawn, whether it is held.
    standing: Standing,
}

impl<'a, V: View> View for Overlay<'a, V> {
    ghost cells = { overlay_view V.cells };

    fn record_cell(&self, lei: &Lei) -> Seen<RecCell> {
        match self.accepted_record(lei) {
            Some(item) => Seen::Held(item.cell()),
            None => self.view.record_cell(lei),
        }
    }

    fn holder(&self, authority: &str, id: &str) -> Seen<Lei> {
        match self.takers.get(authority, id) {
            Some(lei) => self.if_held(authority, id, lei),
            None => self.unless_replaced(self.view.holder(authority, id)),
        }
    }

    fn relation(&self, start: &Lei, kind: RelationType, end: &Lei) -> Seen<RelCell> {
        match self.accepted_relation(start, kind, end) {
            Some(relation) => Seen::Held(relation.cell()),
            None => self.view.relation(start, kind, end),
        }
    }

    fn active(&self, start: &Lei, kind: RelationType) -> Seen<Lei> {
        match self.last_end(start, kind) {
            Some(end) => self.if_active(start, kind, end),
            None => self.unless_relation_put(start, kind, self.view.active(start, kind)),
        }
    }

    fn exception(&self, lei: &Lei, category: ExceptionCategory) -> Seen<()> {
        match self.exception_put(lei, category) {
            Some(true) => Seen::Held(()),
            Some(false) => Seen::Empty,
            None => self.view.exception(lei, category),
        }
    }
}

impl<'a, V: View> Overlay<'a, V> {
    /// The view with nothing over it.
    pub fn new(alloc: Global, view: &'a V) -> Self
        ensures { overlay_view V.cells result ≡ V.cells view.now }
    {
        Overlay {
            view,
            records: BTreeMap::new(alloc),
            takers: Takers::new(alloc),
            relations: BTreeMap::new(alloc),
            ends: BTreeMap::new(alloc),
            standing: BTreeMap::new(alloc),
        }
    }

    /// Puts an item over what is there. A withdrawal leaves no exception under its key.
    pub fn put(&mut self, alloc: Global, item: &'a Item) -> Result<(), NoMemory>
        ensures { OnOk result (overlay_view V.cells self.new
            ≡ Overlays.put_in_view (overlay_view V.cells self.old) (row_key item.now, item_after item.now)) }
    {
        match item {
            Item::Record(item) => self.put_record(alloc, item),
            Item::Relation(item) => self.put_relation(item),
            Item::Exception(item) => self.put_exception(item),
        }
    }

    fn put_record(&mut self, alloc: Global, item: &'a Record) -> Result<(), NoMemory>
        ensures { OnOk result (overlay_view V.cells self.new
            ≡ Overlays.put_record (overlay_view V.cells self.old) item.now) }
    {
        put_taker(alloc, &mut self.takers, item)?;
        insert_record(&mut self.records, item)
    }

    fn put_relation(&mut self, item: &'a Relation) -> Result<(), NoMemory>
        ensures { OnOk result (overlay_view V.cells self.new
            ≡ Overlays.put_relation (overlay_view V.cells self.old) item.now) }
    {
        put_end(&mut self.ends, item)?;
        insert_relation(&mut self.relations, item)
    }

    fn put_exception(&mut self, item: &ExceptionItem) -> Result<(), NoMemory>
        ensures { OnOk result (overlay_view V.cells self.new
            ≡ Overlays.put_exception (overlay_view V.cells self.old)
            (subject_in item.now.0) (exception_category_in item.now.0) (not item.now.1)) }
    {
        insert_exception(&mut self.standing, item)
    }

    fn accepted_record(&self, lei: &Lei) -> Option<&'a Record>
        ensures { option_copied result ≡ Overlays.record_at self.now.records lei.now }
    {
        self.records.get(lei).copied()
    }

    // The LEI of the record that took a key, if the record still holds it.
    fn if_held(&self, authority: &str, id: &str, lei: Lei) -> Seen<Lei>
        ensures { result ≡ (if Overlays.row_holds authority.now id.now
            (Overlays.record_at self.now.records lei)
            then Seen.Held lei else Seen.Empty) }
    {
        match self.accepted_record(&lei) {
            Some(item) if holds(item, authority, id) => Seen::Held(lei),
            _ => Seen::Empty,
        }
    }

    // The holder below, unless its record was replaced.
    fn unless_replaced(&self, holder: Seen<Lei>) -> Seen<Lei>
        ensures { result ≡ Overlays.unless_replaced self.now.records holder }
    {
        match holder {
            Seen::Held(lei) if self.accepted_record(&lei).is_some() => Seen::Empty,
            holder => holder,
        }
    }

    fn accepted_relation(&self, start: &Lei, kind: RelationType, end: &Lei) -> Option<&'a Relation>
        ensures { option_copied result ≡ Overlays.relation_at self.now.relations start.now kind end.now }
    {
        self.relations.get(&(*start, kind.text(), *end)).copied()
    }

    fn last_end(&self, start: &Lei, kind: RelationType) -> Option<Lei>
        ensures { result ≡ Overlays.end_at self.now.ends start.now kind }
    {
        self.ends.get(&(*start, kind.text())).copied()
    }

    fn exception_put(&self, lei: &Lei, category: ExceptionCategory) -> Option<bool>
        ensures { result ≡ Overlays.exception_put_at self.now.standing lei.now category }
    {
        self.standing.get(&(*lei, category.text())).copied()
    }

    // The end of the relationship that was last put as an active one, if it still is active.
    fn if_active(&self, start: &Lei, kind: RelationType, end: Lei) -> Seen<Lei>
        ensures { result ≡ (if Overlays.is_active_row
            (Overlays.relation_at self.now.relations start.now kind end)
            then Seen.Held end else Seen.Empty) }
    {
        match self.accepted_relation(start, kind, &end) {
            Some(item) if item.is_active() => Seen::Held(end),
            _ => Seen::Empty,
        }
    }

    // The end of the active relationship below, unless that relationship was replaced.
    fn unless_relation_put(&self, start: &Lei, kind: RelationType, below: Seen<Lei>) -> Seen<Lei>
        ensures { result ≡ Overlays.unless_relation_put self.now.relations start.now kind below }
    {
        match below {
            Seen::Held(end) if self.accepted_relation(start, kind, &end).is_some() => Seen::Empty,
            below => below,
        }
    }
}

// Notes a record as the one that took its key last, if it holds one.
fn put_taker<'a>(alloc: Global, takers: &mut Takers<'a>, item: &'a Record) -> Result<(), NoMemory>
    ensures { OnOk result ((authority id : List ℕ) → Overlays.taker_at takers.new authority id
        ≡ (if Cells.holds authority id item.now then Some (lei_in item.now)
        else Overlays.taker_at takers.old authority id)) }
{
    if !is_live(item) {
        return Ok(());
    }
    match key_of(item) {
        Some((authority, id)) => takers.insert(alloc, authority, id, item.lei()),
        None => Ok(()),
    }
}

fn insert_record<'a>(
    records: &mut BTreeMap<Lei, &'a Record>,
    item: &'a Record,
) -> Result<(), NoMemory>
    ensures { OnOk result ((lei : List ℕ) → Overlays.record_at records.new lei
        ≡ (if bytes_eq lei (lei_in item.now) then Some item.now else Overlays.record_at records.old lei)) }
{
    match records.insert(item.lei(), item) {
        Ok(_) => Ok(()),
        Err(_) => Err(NoMemory),
    }
}

// Notes the end of a relationship, if it is active.
fn put_end(ends: &mut Ends, item: &Relation) -> Result<(), NoMemory>
    ensures { OnOk result ((start : List ℕ) (kind : RelationType) → Overlays.end_at ends.new start kind
        ≡ (if Spelled.is_active item.now && is_from start kind item.now then Some (end_in item.now)
        else Overlays.end_at ends.old start kind)) }
{
    if !item.is_active() {
        return Ok(());
    }
    match ends.insert((item.start(), item.kind().text()), item.end()) {
        Ok(_) => Ok(()),
        Err(_) => Err(NoMemory),
    }
}

fn insert_relation<'a>(relations: &mut Relations<'a>, item: &'a Relation) -> Result<(), NoMemory>
    ensures { OnOk result ((start : List ℕ) (kind : RelationType) (end : List ℕ)
        → Overlays.relation_at relations.new start kind end
        ≡ (if Overlays.is_between start kind end item.now then Some item.now
        else Overlays.relation_at relations.old start kind end)) }
{
    match relations.insert((item.start(), item.kind().text(), item.end()), item) {
        Ok(_) => Ok(()),
        Err(_) => Err(NoMemory),
    }
}

// Notes whether the exception is held after this item.
fn insert_exception(standing: &mut Standing, item: &ExceptionItem) -> Result<(), NoMemory>
    ensures { OnOk result ((lei : List ℕ) (category : ExceptionCategory)
        → Overlays.exception_put_at standing.new lei category
        ≡ (if bytes_eq (subject_in item.now.0) lei && is_same_category
        (exception_category_in item.now.0) category
        then Some (not item.now.1) else Overlays.exception_put_at standing.old lei category)) }
{
    match standing.insert((item.lei(), item.category().text()), !item.withdraws()) {
        Ok(_) => Ok(()),
        Err(_) => Err(NoMemory),
    }
}
