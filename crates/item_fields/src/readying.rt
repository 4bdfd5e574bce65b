//! The checks of an item's fields, and the record, relationship or exception that passes them.
ghost use Rattle.std.specs.Prelude.{◌≡◌, ◌≤◌, ◌<◌, ◌++◌, ◌∷◌, ◌&&◌, [], codes, length, not, is_some, IfOk, IfSome, IsAscii, IsTrue, OnOk, None, Some, option_map, unwrap_or, if◌then◌else◌};
ghost use Rattle.std.specs.List.{list_any};
ghost use Rattle.std.specs.Str.{bytes_eq};
ghost use Rattle.std.specs.Option.{option_copied};
ghost use Rattle.lei_shapes.specs.Clock.{moment_text};
ghost use Rattle.lei_shapes.specs.Moment.{read_moment};
ghost use Rattle.lei_records.specs.Checks.{IsCheckNumber};
ghost use Rattle.lei_shapes.specs.Shape.{between_spaces};
ghost use Rattle.item_fields.specs.Fields.{codes_in, field_count, read_field};
ghost use Rattle.item_fields.specs.Items;
ghost use Rattle.lei_records.specs.RuleNumbers.{newest, rules_of};
ghost use Rattle.item_fields.specs.Items.{failed_check, failed_field, ready_as};
ghost use Rattle.lei_records.specs.Places.{record_places};
ghost use Rattle.item_fields.specs.Sheets;
ghost use Rattle.item_fields.specs.Sheets.{failed_at, field_fails, first_at, printed_at, read_texts, readied_by};
ghost use Rattle.item_fields.specs.Items.{IsRowOfKind};
ghost use Rattle.item_fields.specs.declared.readying.FieldCheck.{FieldCheck};

use crate::fields::{Content, Facts, Field, Kind};
use crate::item::{Fields, RawItem};
use crate::sheet::sheet_of;
use lei_code::Lei;
use lei_records::numbers::{CHECK_DIGITS, FIELD_MISSING, FIELD_SHAPE, FIELD_UNKNOWN};
use lei_records::{
    Check, Detail, ExceptionItem, Item, Printed, Readied, Record, Relation, Rules, places,
};
use lei_shapes::{Moment, Shape, cut_at_space, is_code};
use lei_values::{NoMemory, Text};
use std::alloc::Global;

/// Checks an item's fields by the newest rules, as [`ready_by`] does.
pub fn ready(alloc: Global, raw: &RawItem) -> Result<Readied, NoMemory>
    ensures { IfOk result (λ item. item ≡ Items.ready newest raw.now) }
{
    ready_by(alloc, 3, raw)
}

/// Runs the checks of an item's fields by the rules with this number, in order of the checks' numbers, up to the first
/// that fails. Each name is looked up once, and each text of a row is copied once.
pub fn ready_by(alloc: Global, rules: u16, raw: &RawItem) -> Result<Readied, NoMemory>
    requires first { 1 ≤ rules }
    requires last { rules ≤ 3 }
    ensures { IfOk result (λ item. item ≡ Items.ready (rules_of rules) raw.now) }
{
    let rules = Rules::of(rules);
    match raw {
        RawItem::Record(fields) => by_names(alloc, rules, Kind::Record, fields),
        RawItem::Relation(fields) => by_names(alloc, rules, Kind::Relation, fields),
        RawItem::Exception(fields) => by_names(alloc, rules, Kind::Exception, fields),
    }
}

// Runs C01, and then the checks after it.
#[tactic(auto, unfolding(crate::specs::Items::failed_check))]
fn by_names(alloc: Global, rules: Rules, kind: Kind, fields: &Fields) -> Result<Readied, NoMemory>
    ensures { IfOk result (λ item. item ≡ ready_as rules kind fields.now) }
{
    let _rising = fields.len();
    let sheet = sheet_of(rules, kind, fields);
    match sheet.unknown {
        Some(name) => bad(alloc, FIELD_UNKNOWN, name),
        None => by_presence(alloc, rules, kind, &sheet.texts[..kind.field_count()]),
    }
}

// Runs C02, and then the checks after it.
#[tactic(auto, unfolding(crate::specs::Sheets::failed_at))]
fn by_presence(alloc: Global, rules: Rules, kind: Kind, texts: &[&str]) -> Result<Readied, NoMemory>
    requires { length texts.now ≡ field_count kind }
    ensures { let row = read_texts texts.now in IfOk result
        (λ item. item ≡ readied_by kind row (failed_at rules kind row)) }
{
    match first_failing(rules, FieldCheck::Presence, kind, texts) {
        Some(name) => bad(alloc, FIELD_MISSING, name),
        None => by_shapes(alloc, rules, kind, texts),
    }
}

// Runs C03, and then the check after it.
#[tactic(auto, unfolding(crate::specs::Sheets::failed_at))]
fn by_shapes(alloc: Global, rules: Rules, kind: Kind, texts: &[&str]) -> Result<Readied, NoMemory>
    requires places { length texts.now ≡ field_count kind }
    requires present { first_at rules FieldCheck.Presence kind (read_texts texts.now) ≡ None }
    ensures { let row = read_texts texts.now in IfOk result
        (λ item. item ≡ readied_by kind row (failed_at rules kind row)) }
{
    let shaped = shaped_row(alloc, rules, kind, texts)?;
    match shaped.misshapen {
        Some(name) => bad(alloc, FIELD_SHAPE, name),
        None => by_digits(alloc, rules, kind, texts, shaped.row),
    }
}

// Runs C04, and then makes the item.
#[tactic(auto, unfolding(crate::specs::Sheets::failed_at))]
fn by_digits(
    alloc: Global,
    rules: Rules,
    kind: Kind,
    texts: &[&str],
    row: Printed,
) -> Result<Readied, NoMemory>
    requires places { length texts.now ≡ field_count kind }
    requires present { first_at rules FieldCheck.Presence kind (read_texts texts.now) ≡ None }
    requires shaped { first_at rules FieldCheck.Shape kind (read_texts texts.now) ≡ None }
    requires row { row ≡ printed_at kind (read_texts texts.now) }
    ensures { let row = read_texts texts.now in IfOk result
        (λ item. item ≡ readied_by kind row (failed_at rules kind row)) }
{
    match first_failing(rules, FieldCheck::Digits, kind, texts) {
        Some(name) => bad(alloc, CHECK_DIGITS, name),
        None => good(alloc, rules, kind, texts, row),
    }
}

fn bad(alloc: Global, code: u8, name: &str) -> Result<Readied, NoMemory>
    requires { IsCheckNumber code }
    ensures { IfOk result (λ item. item ≡ Readied.Bad (failed_field code name.now)) }
{
    let detail = Detail::Field(Text::copy_of(alloc, name)?);
    Ok(Readied::Bad(Check { code, detail }))
}

fn good(
    alloc: Global,
    rules: Rules,
    kind: Kind,
    texts: &[&str],
    row: Printed,
) -> Result<Readied, NoMemory>
    requires places { length texts.now ≡ field_count kind }
    requires present { first_at rules FieldCheck.Presence kind (read_texts texts.now) ≡ None }
    requires shaped { first_at rules FieldCheck.Shape kind (read_texts texts.now) ≡ None }
    requires checked { first_at rules FieldCheck.Digits kind (read_texts texts.now) ≡ None }
    requires row { row ≡ printed_at kind (read_texts texts.now) }
    ensures { let row = read_texts texts.now in IfOk result (λ item. item ≡ readied_by kind row None) }
{
    let withdraws = facts_at(rules, kind, texts).withdrawal;
    Ok(Readied::Good(item_of(alloc, kind, withdraws, row)?))
}

// The item of a kind with this row. `withdraws` is used only if it is an exception.
fn item_of(alloc: Global, kind: Kind, withdraws: bool, row: Printed) -> Result<Item, NoMemory>
    requires { IsRowOfKind kind row }
    ensures { IfOk result (λ item. item ≡ Items.item_of kind withdraws row) }
{
    match kind {
        Kind::Record => Ok(Item::Record(Record::of(alloc, row)?)),
        Kind::Relation => Ok(Item::Relation(Relation::of(alloc, row)?)),
        Kind::Exception => Ok(Item::Exception(ExceptionItem::of(
            alloc,
            row.into_texts(),
            withdraws,
        )?)),
    }
}

// The checks of single fields, C02 to C04.
#[derive(Clone, Copy)]
pub enum FieldCheck {
    /// A needed field is absent.
    Presence,
    /// A field is present, and has another shape or may not be present.
    Shape,
    /// An LEI has wrong check digits.
    Digits,
}

// The name of the first field that fails the check.
#[tactic(auto, unfolding(crate::specs::Sheets::first_at))]
fn first_failing(
    rules: Rules,
    check: FieldCheck,
    kind: Kind,
    texts: &[&str],
) -> Option<&'static str>
    requires { length texts.now ≡ field_count kind }
    ensures { option_copied result ≡ first_at rules check kind (read_texts texts.now) }
{
    let facts = facts_at(rules, kind, texts);
    let table = kind.fields();
    for (index, field) in table.iter().enumerate() {
        if fails(check, facts, field, texts[index]) {
            return Some(field.0);
        }
    }
    None
}

// What the checks of an item's fields depend on.
fn facts_at(rules: Rules, kind: Kind, texts: &[&str]) -> Facts
    requires { length texts.now ≡ field_count kind }
    ensures { result ≡ Sheets.facts_at rules kind (read_texts texts.now) }
{
    match kind {
        Kind::Record => Facts {
            rules,
            archival: is_archival(texts[places::STATUS - 1]),
            withdrawal: false,
        },
        Kind::Relation => Facts {
            rules,
            archival: is_archival(texts[places::REGISTRATION - 1]),
            withdrawal: false,
        },
        Kind::Exception => Facts {
            rules,
            archival: false,
            withdrawal: texts[places::ACTION - 1] == "WITHDRAW",
        },
    }
}

// Whether a registration status is PENDING_ARCHIVAL.
fn is_archival(status: &str) -> bool
    ensures { result ≡ bytes_eq status.now (codes "PENDING_ARCHIVAL") }
{
    status == "PENDING_ARCHIVAL"
}

fn fails(check: FieldCheck, facts: Facts, field: &Field, text: &str) -> bool
    ensures { result ≡ field_fails check facts (read_field field.now) text.now }
{
    match check {
        FieldCheck::Presence => field.2.is_needed(facts) && text.is_empty(),
        FieldCheck::Shape => !text.is_empty()
            && !(field.1.fits(facts.rules, text) && field.2.may_be_present(facts)),
        FieldCheck::Digits => has_wrong_digits(field.1, text),
    }
}

// Whether an LEI in the text of a field has wrong check digits.
fn has_wrong_digits(content: Content, text: &str) -> bool
    ensures { result ≡ list_any Items.has_other_remainder (codes_in content text.now) }
{
    match content {
        Content::Shaped(Shape::Code) => has_other_remainder(text.as_bytes()),
        Content::Successors => one_has_other_remainder(text.as_bytes()),
        Content::Shaped(_) | Content::Action => false,
    }
}

fn has_other_remainder(text: &[u8]) -> bool
    ensures { result ≡ Items.has_other_remainder text.now }
{
    is_code(text) && Lei::read(text).is_err()
}

// Whether one of the texts between the spaces of a text has wrong check digits.
fn one_has_other_remainder(text: &[u8]) -> bool
    ensures { result ≡ list_any Items.has_other_remainder (between_spaces text.now) }
{
    let mut left = Some(text);
    while let Some(text) = left {
        let (code, rest) = cut_at_space(text);
        if has_other_remainder(code) {
            return true;
        }
        left = rest;
    }
    false
}

// A row up to the first field that lacks its shape, and the name of that field, if there is one.
#[derive(Drop)]
struct Shaped {
    row: Printed,
    misshapen: Option<&'static str>,
}

// Runs C03 for each field, and builds the texts of the row: each is a copy or, for a moment, its printed form. So each
// text is read once.
#[tactic(auto, unfolding(crate::specs::Sheets::first_at, crate::specs::Sheets::printed_at))]
fn shaped_row(alloc: Global, rules: Rules, kind: Kind, texts: &[&str]) -> Result<Shaped, NoMemory>
    requires { length texts.now ≡ field_count kind }
    ensures misshapen { IfOk result
        (λ shaped. option_copied shaped.misshapen ≡ first_at rules FieldCheck.Shape kind
        (read_texts texts.now)) }
    ensures row { IfOk result
        (λ shaped. shaped.misshapen ≡ None → shaped.row ≡ printed_at kind (read_texts texts.now)) }
{
    let facts = facts_at(rules, kind, texts);
    let table = kind.fields();
    let count = kind.row_len();
    let mut row = Printed::with_capacity(alloc, size_of(table, texts))?;
    for (index, field) in table.iter().enumerate() {
        let fits = place_text(&mut row, index < count, facts, field, texts[index])?;
        if !fits {
            let misshapen = Some(field.0);
            return Ok(Shaped { row, misshapen });
        }
    }
    let misshapen = None;
    Ok(Shaped { row, misshapen })
}

// The number of bytes of the texts in a row.
fn size_of(table: &[Field], texts: &[&str]) -> usize {
    table.iter().zip(texts).fold(0usize, |size, (field, text)| {
        size.saturating_add(form_len(field.1, text))
    })
}

// The number of bytes of a field's text in a row, if the text has the field's shape. A moment's printed form has 20.
fn form_len(content: Content, text: &str) -> usize {
    match content {
        Content::Shaped(Shape::Moment) if !text.is_empty() => 20,
        Content::Action => 0,
        _ => text.len(),
    }
}

// Returns whether the text of a field has the field's shape. If it has, and the field is in the row, it is added after
// the others.
fn place_text(
    row: &mut Printed,
    stands: bool,
    facts: Facts,
    field: &Field,
    text: &str,
) -> Result<bool, NoMemory>
    requires { IsTrue stands → length row.old < record_places }
    ensures fits { IfOk result
        (λ fits. not fits ≡ field_fails FieldCheck.Shape facts (read_field field.now) text.now) }
    ensures row { IfOk result (λ fits. IsTrue fits
        → row.new ≡ (if stands then row.old ++ Items.row_text field.now.1 text.now ∷ [] else row.old)) }
{
    if stands {
        return push_fitting(row, facts, field, text);
    }
    Ok(!fails(FieldCheck::Shape, facts, field, text))
}

// Adds the text of a field, in its form for a row, after the others if it has the field's shape. Returns whether it
// has.
fn push_fitting(
    row: &mut Printed,
    facts: Facts,
    field: &Field,
    text: &str,
) -> Result<bool, NoMemory>
    requires { length row.old < record_places }
    ensures fits { IfOk result
        (λ fits. not fits ≡ field_fails FieldCheck.Shape facts (read_field field.now) text.now) }
    ensures row { IfOk result (λ fits. IsTrue fits
        → row.new ≡ row.old ++ Items.row_text field.now.1 text.now ∷ []) }
{
    match field.1 {
        Content::Shaped(Shape::Moment) if !text.is_empty() => {
            push_moment(row, field.2.may_be_present(facts), text)
        }
        _ => {
            if fails(FieldCheck::Shape, facts, field, text) {
                return Ok(false);
            }
            row.push(text, None)?;
            Ok(true)
        }
    }
}

// The same for the text of a moment, which is added only if the item may have the field.
fn push_moment(row: &mut Printed, may_stand: bool, text: &str) -> Result<bool, NoMemory>
    requires { length row.old < record_places }
    ensures fits { IfOk result (λ fits. fits ≡ (is_some (read_moment text.now) && may_stand)) }
    ensures row { IfOk result (λ fits. IsTrue fits
        → row.new ≡ row.old ++ unwrap_or (option_map moment_text (read_moment text.now)) text.now ∷ []) }
{
    let Some((moment, form)) = Moment::read_form(text) else {
        return Ok(false);
    };
    if may_stand {
        push_form(row, moment, text, form)?;
    }
    Ok(may_stand)
}

// Adds the printed form of a moment after the others. It is the text itself if there is no other form.
fn push_form(
    row: &mut Printed,
    moment: Moment,
    text: &str,
    form: Option<[u8; 20]>,
) -> Result<(), NoMemory>
    requires room { length row.old < record_places }
    requires ascii { IfSome form IsAscii }
    requires reads_back { read_moment (unwrap_or form text.now) ≡ Some moment }
    ensures { OnOk result (row.new ≡ row.old ++ unwrap_or form text.now ∷ []) }
{
    match form {
        None => row.push(text, Some(moment)),
        Some(form) => match str::from_utf8(&form) {
            Ok(form) => row.push(form, Some(moment)),
            Err(_) => unreachable!(),
        },
    }
}
