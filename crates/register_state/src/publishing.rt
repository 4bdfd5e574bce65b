//! Publications: what changed since the last one goes onto the shelf, which gives copies of the latest publication and
//! deltas to it.
ghost use Rattle.std.specs.Prelude.{◌≡◌, ◌<◌, ◌++◌, ◌∷◌, [], IfOk, IsTrue, None, OnErr, OnOk, Some, false, if◌then◌else◌, length, map};
ghost use Rattle.copy_forms.specs.Items.{sheet_row};
ghost use Rattle.copy_forms.specs.Trails.{Publication, Trail};
ghost use Rattle.golden_shelf.specs.Changes.{AreOwnChanges, ArePlain, IsIssued};
ghost use Rattle.golden_shelf.specs.Shelves.{KeepsTrail as KeepsTrail, MayFollow, latest_rows};
ghost use Rattle.upload_ledger.specs.History.{published};
ghost use Rattle.register_words.specs.declared.request.Request.TheVariants.{Copy, Delta, Publish};
ghost use Rattle.register_words.specs.Requests.{IsUploadNumber};
ghost use Rattle.register_state.specs.Books.{office_with_entry};
ghost use Rattle.register_state.specs.Deciding.{AddsNext, Decides, GivesReply};
ghost use Rattle.register_state.specs.Shelving.{IsShelved, Shelves};
ghost use Rattle.register_history.specs.Legal.{rules_may_follow};
ghost use Rattle.register_history.specs.Publications.{are_wide_rules, last_published};
ghost use Rattle.register_history.specs.Publishing.{AreChangesSince, AreNextChanges, row_change_of, row_published};
ghost use Rattle.register_history.specs.Replies.{copy_outcome, delta_outcome, form_kind, json_reply, next_publication, publication_entry, publish_outcome};

use crate::books::Books;
use crate::decision::{Decision, refuse};
use crate::entries::publication;
use copy_csv::{Form, Sheet};
use copy_forms::{ItemRow, SharedItem};
use golden_shelf::{Base, Shelf, ShelfFault};
use lei_records::{Item, RowKey};
use lei_shapes::RelationRegistration;
use lei_values::{Bytes, KeptEntry, List, NoMemory};
use register_history::EntryTerms;
use register_table::{Table, Touched};
use register_words::{Kind, Refusal, Reply};
use std::alloc::Global;
use std::marker::Brand;
use std::sync::ledger::{Blank, Ledger as Counted};
use std::thread::Threads;
use upload_ledger::PUBLISH;
use worker_pool::Steps;

// The number of the first rules by which publications are wide.
const WIDE_RULES: u16 = 3;

impl Books {
    // Decides a publication of this number. If it is made, its entry has these rules and this moment, and it goes onto
    // the shelf.
    pub fn publish<R: Threads + Sync>(
        &self,
        rt: &R,
        shelf: &mut Shelf,
        number: u32,
        terms: &EntryTerms,
    ) -> Result<Decision, NoMemory>
        requires number { IsUploadNumber number }
        requires follows { IsTrue (rules_may_follow self.now.history terms.now.rules) }
        requires shelf { IsShelved self.now shelf.old.now }
        ensures decides { Decides self.now (Publish number)
            (publish_outcome self.now number terms.now (published self.now.history number)) result }
        ensures next { AddsNext self.now (Publish number) result }
        ensures shelf { Shelves self.now shelf.old result shelf.new }
    {
        if let Some(text) = self.ledger.publication(number) {
            return Ok(Decision::Stays(published_reply(self.alloc, text)?));
        }
        let next = self.ledger.totals().publications + 1;
        if number != next {
            return Ok(refuse(Refusal::NumberAhead(next)));
        }
        if self.is_full() {
            return Ok(refuse(Refusal::LedgerFull));
        }
        let entry = self.publish_next(rt, shelf, number, terms)?;
        Ok(Decision::Adds(entry, List::from(Vec::new(self.alloc))))
    }

    // Puts the next publication onto the shelf, and makes its entry.
    fn publish_next<R: Threads + Sync>(
        &self,
        rt: &R,
        shelf: &mut Shelf,
        number: u32,
        terms: &EntryTerms,
    ) -> Result<KeptEntry, NoMemory>
        requires number { IsUploadNumber number }
        requires next { number ≡ next_publication self.now.history }
        requires follows { IsTrue (rules_may_follow self.now.history terms.now.rules) }
        requires shelf { IsShelved self.now shelf.old.now }
        ensures entry { IfOk result (λ entry. entry ≡ publication_entry self.now number terms.now) }
        ensures shelf { IfOk result (λ entry. IsShelved (office_with_entry self.now entry) shelf.new.now) }
        ensures before { OnOk result (shelf.new.before ≡ Some shelf.old.now) }
        ensures stays { OnErr result (shelf.new.now ≡ shelf.old.now) }
    {
        let changes = self.next_changes()?;
        let entries = self.ledger.entries();
        shelve::<Brand, R>(rt, shelf, terms, changes.as_slice(), Blank::new(1))?;
        match publication(self.alloc, entries, number, terms, shelf.counts()) {
            Ok(entry) => Ok(entry),
            Err(NoMemory) => {
                shelf.undo();
                Err(NoMemory)
            }
        }
    }

    // The changes that the next publication makes.
    fn next_changes(&self) -> Result<Vec<(RowKey, Option<ItemRow>)>, NoMemory>
        ensures changes { IfOk result
            (λ changes. AreNextChanges self.now.limits self.now.history changes.items) }
        ensures own { IfOk result (λ changes. AreOwnChanges changes.items) }
    {
        let entries = self.ledger.entries();
        let (after, upto) = (last_published(entries), entries.len() as u64);
        let changes = changes_since(self.alloc, &self.table, after, upto)?;
        Ok(changes)
    }
}

// The text that is kept for a publication, as a reply.
fn published_reply(alloc: Global, text: &[u8]) -> Result<Reply, NoMemory>
    ensures { IfOk result (λ reply. reply ≡ json_reply 201 text.now) }
{
    Ok(Reply::Text {
        code: 201,
        kind: Kind::Json,
        text: Bytes::copy_of(alloc, text)?,
    })
}

// The number of the entry that made the latest publication, or 0 if there is none. The entries before that one aren't
// looked at.
fn last_published(entries: &[KeptEntry]) -> u64
    ensures { result ≡ last_published entries.now }
{
    for index in (0..entries.len()).rev() {
        let entry = &entries[index];
        if entry.kind == PUBLISH {
            return entry.seq;
        }
    }
    0
}

// Publishes these changes on the shelf, under the terms of the publication's entry. The steps of this are counted in a
// ledger that nobody reads.
fn shelve<L: Counted, R: Threads + Sync>(
    rt: &R,
    shelf: &mut Shelf,
    terms: &EntryTerms,
    changes: &[(RowKey, Option<ItemRow>)],
    blank: Blank,
) -> Result<(), NoMemory>
    requires changes { AreOwnChanges changes.now }
    requires few { length shelf.old.now.issues < 1_000_000 }
    requires follows { MayFollow shelf.old.now.issues (are_wide_rules terms.now.rules) }
    requires plain { are_wide_rules terms.now.rules ≡ false → ArePlain changes.now }
    requires name { blank.name ≡ L.name }
    requires parts { blank.parts ≡ L.parts }
    requires one { blank.parts ≡ 1 }
    ensures next { OnOk result ((trail : Trail) (next : Publication) → KeepsTrail trail shelf.old.now
        → IsIssued (latest_rows trail) terms.now.moment (are_wide_rules terms.now.rules) changes.now next
        → KeepsTrail (trail ++ next ∷ []) shelf.new.now) }
    ensures before { OnOk result (shelf.new.before ≡ Some shelf.old.now) }
    ensures err { OnErr result (shelf.new ≡ shelf.old) }
{
    let mut steps = Steps::<L>::new(blank);
    shelf.publish(rt, terms.moment, is_wide(terms.rules), changes, &mut steps)
}

// Whether a publication is wide, by the rules of its entry. Only some of its files can be wide.
fn is_wide(rules: u16) -> bool
    ensures { result ≡ are_wide_rules rules }
{
    rules >= WIDE_RULES
}

// The keys that were last touched by entries with numbers greater than `after` and at most `upto`. Each key comes with
// the row that is published for it, or with none.
fn changes_since(
    alloc: Global,
    table: &Table,
    after: u64,
    upto: u64,
) -> Result<Vec<(RowKey, Option<ItemRow>)>, NoMemory>
    ensures { IfOk result (λ changes. AreChangesSince after upto table.now.held changes.items) }
{
    let touched = table.touched(after, upto)?;
    changes_of(alloc, touched.as_slice())
}

// The changes of touched keys.
fn changes_of(
    alloc: Global,
    touched: &[Touched],
) -> Result<Vec<(RowKey, Option<ItemRow>)>, NoMemory>
    ensures { IfOk result (λ changes. changes.items ≡ map row_change_of touched.now) }
{
    let mut changes = Vec::with_capacity(alloc, touched.len())?;
    for told in touched {
        changes.push((told.key, row_of(&told.item)?))?;
    }
    Ok(changes)
}

// The row that is published for what is held under a key.
fn row_of(item: &Option<SharedItem>) -> Result<Option<ItemRow>, NoMemory>
    ensures { IfOk result (λ row. row ≡ row_published item.now) }
{
    match item {
        Some(item) => published_row(item),
        None => Ok(None),
    }
}

// The row that is published for an item. A relationship whose registration is annulled has none.
fn published_row(item: &SharedItem) -> Result<Option<ItemRow>, NoMemory>
    ensures { IfOk result (λ row. row ≡ row_published (Some item.now)) }
{
    if is_annulled(item.item()) {
        return Ok(None);
    }
    Ok(Some(ItemRow::of(item.share()?)))
}

// Whether an item is a relationship whose registration is annulled. Of all other items the row is published.
fn is_annulled(item: &Item) -> bool
    ensures { row_published (Some item.now) ≡ (if result then None else Some (sheet_row item.now)) }
{
    match item {
        Item::Relation(relation) => relation.registration() == RelationRegistration::Annulled,
        _ => false,
    }
}

/// Replies with the copy of a sheet in the latest publication, or refuses if nothing was published.
pub fn copy(shelf: &Shelf, sheet: Sheet, form: Form) -> Result<Reply, NoMemory>
    ensures { (trail : Trail) → KeepsTrail trail shelf.now.now
        → GivesReply (Copy sheet form) (copy_outcome sheet form trail) result }
{
    match shelf.latest() {
        Some(_) => latest_copy(shelf, sheet, form),
        None => Ok(Reply::Words(Refusal::NothingPublished)),
    }
}

// Replies with the copy of a sheet in the latest publication, if there is one.
fn latest_copy(shelf: &Shelf, sheet: Sheet, form: Form) -> Result<Reply, NoMemory>
    requires { ¬ (shelf.now.now.issues ≡ []) }
    ensures { (trail : Trail) → KeepsTrail trail shelf.now.now
        → GivesReply (Copy sheet form) (copy_outcome sheet form trail) result }
{
    match shelf.copy(sheet, form) {
        Ok(text) => Ok(file_reply(form, text)),
        Err(_) => Err(NoMemory),
    }
}

/// Replies with the delta of a sheet from its base to the latest publication, or refuses if there is no such base or
/// publication.
pub fn delta(shelf: &Shelf, base: Base, sheet: Sheet, form: Form) -> Result<Reply, NoMemory>
    ensures { (trail : Trail) → KeepsTrail trail shelf.now.now
        → GivesReply (Delta base sheet form) (delta_outcome base sheet form trail) result }
{
    match shelf.delta(base, sheet, form) {
        Ok(text) => Ok(file_reply(form, text)),
        Err(ShelfFault::NothingPublished) => Ok(Reply::Words(Refusal::NothingPublished)),
        Err(ShelfFault::PublicationUnknown) => Ok(Reply::Words(Refusal::PublicationUnknown)),
        Err(ShelfFault::NoBase) => Ok(Reply::Words(Refusal::NoBase)),
        Err(ShelfFault::NoMemory) => Err(NoMemory),
    }
}

// A file in this form, as a reply.
fn file_reply(form: Form, text: Bytes) -> Reply
    ensures { result ≡ Reply.Text 200 (form_kind form) text }
{
    Reply::Text {
        code: 200,
        kind: form_kind(form),
        text,
    }
}

// The kind of text that a file in this form is.
fn form_kind(form: Form) -> Kind
    ensures { result ≡ form_kind form }
{
    match form {
        Form::Csv => Kind::Csv,
        Form::Json => Kind::Json,
    }
}
