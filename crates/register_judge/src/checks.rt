//! The checks of a record that an upload brings to a table, each as a test. This project's profile.
ghost use Rattle.std.specs.Prelude.{◌≡◌, [], ◌∷◌, false, IfOk, Some, None, option_map};
ghost use Rattle.std.specs.Option.{option_map_or};
ghost use Rattle.std.specs.Str.{bytes_eq};
ghost use Rattle.lei_records.specs.Checks.{first_failing};
ghost use Rattle.lei_records.specs.declared.check.Detail.{Detail as Named};
ghost use Rattle.status_rules.specs.Statuses;
ghost use Rattle.register_judge.specs.Checks;

use crate::sitting::Sitting;
use lei_code::Lei;
use lei_records::numbers::{
    DATE_FUTURE, DATES_ORDER, EVENT_DATES, EVENT_INCOMPLETE, INITIAL_DATE_CHANGED,
    MANAGER_NOT_UPLOADER, NOT_ISSUED, NOT_MANAGER, REGISTER_FULL, RENEWAL_DATE, STATUS_ENTITY,
    SUCCESSOR_SHAPE, TRANSITION, UPDATE_EARLIER,
};
use lei_records::{Check, Detail, RecCell, Record, Rules};
use lei_shapes::{EventStatus, Moment, RecordStatus};
use lei_values::{NoMemory, Text};
use relation_rules::plain;
use status_rules::{Party, entity_fits, renewal_fits, transition};
use std::alloc::Global;

/// C05 to C09: the item alone, and the issuer that uploads it.
pub fn own_check(sitting: &Sitting, item: &Record) -> Option<Check>
    ensures { result ≡ first_failing (Checks.own_checks sitting.now item.now) }
{
    if has_wrong_entity_status(item) {
        return Some(plain(STATUS_ENTITY));
    }
    if has_early_dates(item) {
        return Some(plain(DATES_ORDER));
    }
    if has_late_dates(sitting.today, item) {
        return Some(plain(DATE_FUTURE));
    }
    if has_wrong_successor(item) {
        return Some(plain(SUCCESSOR_SHAPE));
    }
    if item.manager() != sitting.issuer {
        return Some(plain(MANAGER_NOT_UPLOADER));
    }
    None
}

fn has_wrong_entity_status(item: &Record) -> bool
    ensures { result ≡ (Checks.c05 item.now).fails }
{
    !entity_fits(item.status(), item.entity_status())
}

fn has_early_dates(item: &Record) -> bool
    ensures { result ≡ (Checks.c06 item.now).fails }
{
    let initial = item.initial();
    item.updated() < initial || item.renewal() < initial
}

fn has_late_dates(today: i32, item: &Record) -> bool
    ensures { result ≡ (Checks.c07 today item.now).fails }
{
    is_after(today, item.updated()) || is_day_after(today, item.created(), false)
}

// Whether the day of a moment is after today, or `absent` if there is no moment.
fn is_day_after(today: i32, moment: Option<Moment>, absent: bool) -> bool
    ensures { result ≡ option_map_or (Checks.is_after today) moment absent }
{
    match moment {
        Some(moment) => is_after(today, moment),
        None => absent,
    }
}

fn is_after(today: i32, moment: Moment) -> bool
    ensures { result ≡ Checks.is_after today moment }
{
    today < moment.day()
}

fn has_wrong_successor(item: &Record) -> bool
    ensures { result ≡ (Checks.c08 item.now).fails }
{
    misfits(item.status(), item.successor().is_some())
}

fn misfits(status: RecordStatus, stands: bool) -> bool
    ensures { result ≡ Checks.misfits status stands }
{
    match status {
        RecordStatus::Retired => false,
        RecordStatus::Duplicate => !stands,
        _ => stands,
    }
}

/// C10 to C15: the record that is held under the item's LEI, if there is one, and the day.
pub fn held_check(held: &Option<RecCell>, sitting: &Sitting, item: &Record) -> Option<Check>
    ensures { result ≡ first_failing (Checks.held_checks held.now sitting.now item.now) }
{
    match held {
        None => first_check(sitting, item),
        Some(held) => change_check(held, sitting, item),
    }
}

// C10 and C15, if no record is held.
fn first_check(sitting: &Sitting, item: &Record) -> Option<Check>
    ensures { result ≡ first_failing (Checks.held_checks None sitting.now item.now) }
{
    if !is_issued(item.status()) {
        return Some(plain(NOT_ISSUED));
    }
    if has_wrong_renewal(sitting.today, item) {
        return Some(plain(RENEWAL_DATE));
    }
    None
}

// C11 to C15, if a record is held.
fn change_check(held: &RecCell, sitting: &Sitting, item: &Record) -> Option<Check>
    ensures { result ≡ first_failing (Checks.held_checks (Some held.now) sitting.now item.now) }
{
    let party = transition(Some(held.status), item.status());
    if party.is_none() {
        return Some(Check {
            code: TRANSITION,
            detail: Detail::Status(held.status),
        });
    }
    if is_another(held, &sitting.issuer, party) {
        return Some(plain(NOT_MANAGER));
    }
    if held.initial != item.initial() {
        return Some(plain(INITIAL_DATE_CHANGED));
    }
    if item.updated() < held.updated {
        return Some(plain(UPDATE_EARLIER));
    }
    if has_wrong_renewal(sitting.today, item) {
        return Some(plain(RENEWAL_DATE));
    }
    None
}

fn is_issued(status: RecordStatus) -> bool
    ensures { result ≡ Statuses.is_issued status }
{
    status == RecordStatus::Issued
}

// Whether the party to a change of the held record, its manager or its receiver, isn't this issuer.
fn is_another(held: &RecCell, issuer: &Lei, party: Option<Party>) -> bool
    ensures { result ≡ Checks.is_another held.now issuer.now party }
{
    match party {
        Some(Party::Manager) => held.manager != *issuer,
        Some(Party::Receiver) => !is_receiver(&held.transfer_to, issuer),
        _ => false,
    }
}

fn is_receiver(receiver: &Option<Lei>, issuer: &Lei) -> bool
    ensures { result ≡ option_map_or (bytes_eq issuer.now) receiver.now false }
{
    match receiver {
        Some(receiver) => *issuer == *receiver,
        None => false,
    }
}

fn has_wrong_renewal(today: i32, item: &Record) -> bool
    ensures { result ≡ (Checks.c15 today item.now).fails }
{
    !renewal_fits(item.status(), item.renewal().day(), today)
}

/// C20: fails if no record is held under the item's LEI and the table is full.
pub fn room_check(held: &Option<RecCell>, full: bool) -> Option<Check>
    ensures { result ≡ first_failing (Checks.c20 held.now full ∷ []) }
{
    if held.is_none() && full {
        Some(plain(REGISTER_FULL))
    } else {
        None
    }
}

/// C21 and C22: the event that a record reports. Only the third rules have them. The name of an absent field is
/// allocated.
pub fn event_check(
    alloc: Global,
    sitting: &Sitting,
    item: &Record,
) -> Result<Option<Check>, NoMemory>
    ensures { IfOk result (λ check. check
        ≡ first_failing (Checks.event_checks sitting.now.rules sitting.now.today item.now)) }
{
    match sitting.rules {
        Rules::First | Rules::Second => Ok(None),
        Rules::Third => event_failure(alloc, sitting.today, item),
    }
}

fn event_failure(alloc: Global, today: i32, item: &Record) -> Result<Option<Check>, NoMemory>
    ensures { IfOk result (λ check. check
        ≡ first_failing (Checks.c21 item.now ∷ Checks.c22 today item.now ∷ [])) }
{
    match missing_of_event(item) {
        Some(field) => Ok(Some(incomplete(alloc, field)?)),
        None => Ok(dates_failure(today, item)),
    }
}

// C21, with the field that is absent.
fn incomplete(alloc: Global, field: &str) -> Result<Check, NoMemory>
    ensures { IfOk result (λ check. check ≡ record { number = 21; detail = Named.Field field.now }) }
{
    let detail = Detail::Field(Text::copy_of(alloc, field)?);
    Ok(Check {
        code: EVENT_INCOMPLETE,
        detail,
    })
}

// C22.
fn dates_failure(today: i32, item: &Record) -> Option<Check>
    ensures { result ≡ first_failing (Checks.c22 today item.now ∷ []) }
{
    if has_wrong_event_dates(today, item) {
        Some(plain(EVENT_DATES))
    } else {
        None
    }
}

// The field that an event lacks, or `None` if the record reports no event.
fn missing_of_event(item: &Record) -> Option<&'static str>
    ensures { option_map (λ name. name.now) result ≡ Checks.missing_of_event item.now }
{
    if tells_of_event(item) {
        lacking_field(item)
    } else {
        None
    }
}

fn tells_of_event(item: &Record) -> bool
    ensures { result ≡ Checks.tells_of_event item.now }
{
    !(item.field(29).is_empty()
        && item.field(30).is_empty()
        && item.field(31).is_empty()
        && item.field(32).is_empty())
}

// The first absent one of the fields that a record needs if it reports an event.
fn lacking_field(item: &Record) -> Option<&'static str>
    ensures { option_map (λ name. name.now) result ≡ Checks.lacking_field item.now }
{
    if item.field(29).is_empty() {
        return Some("Entity.Event.1.Type");
    }
    if item.field(31).is_empty() {
        return Some("Entity.Event.1.RecordedDate");
    }
    if item.field(32).is_empty() {
        return Some("Entity.Event.1.Status");
    }
    None
}

fn has_wrong_event_dates(today: i32, item: &Record) -> bool
    ensures { result ≡ (Checks.c22 today item.now).fails }
{
    is_day_after(today, item.event_recorded(), false)
        || (item.event_status() == Some(EventStatus::Completed)
            && is_day_after(today, item.event_effective(), true))
}
