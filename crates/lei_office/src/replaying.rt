//! Replays stored entries: each is put again as its own request, by its own rules and at its own moment.
ghost use Rattle.std.specs.Prelude.{◌≡◌, IfOk, IfSome, Some, option_map};
ghost use Rattle.lei_shapes.specs.Moment.{IsMoment};
ghost use Rattle.register_history.specs.Damage.{missing_entry, request_in, stored_accreditation, stored_publication, stored_request, stored_upload};
ghost use Rattle.register_history.specs.Legal.{rules_may_follow};
ghost use Rattle.register_words.specs.Refusals.{reply_words};
ghost use Rattle.register_words.specs.Requests.{HasNumberInRange};
ghost use Rattle.lei_office.specs.Opening.{PageReplays, Replays, decision_text};

use crate::damage::entry_line;
use lei_code::Lei;
use lei_shapes::Moment;
use lei_values::{Bytes, KeptEntry, NoMemory};
use register_history::Damage;
use register_state::{Decision, RULES, Register};
use register_words::{Call, Reply, Request, is_upload_number};
use std::alloc::Global;
use std::thread::Threads;
use upload_ledger::{ACCREDIT, PUBLISH, UPLOAD};

// The number of the first rules.
const FIRST_RULES: u16 = 1;

/// Replays the stored entries of a page, which should be those up to the number `upto`. Returns the first that differs.
pub fn replay_page<R: Threads + Sync>(
    rt: &R,
    alloc: Global,
    register: &mut Register,
    page: &[KeptEntry],
    upto: u64,
) -> Result<Option<Damage>, NoMemory>
    ensures { IfOk result (PageReplays register.old page.now upto register.new) }
{
    for stored in page {
        let number = register.entries().len() as u64 + 1;
        if stored.seq != number {
            return Ok(Some(missing_entry(alloc, number)?));
        }
        match replay(rt, alloc, register, stored)? {
            Some(replayed) => {
                let kept = entry_line(alloc, stored)?;
                return Ok(Some(Damage {
                    entry: number,
                    kept,
                    replayed,
                }));
            }
            None => {}
        }
    }
    let number = register.entries().len() as u64 + 1;
    if number <= upto {
        return Ok(Some(missing_entry(alloc, number)?));
    }
    Ok(None)
}

// The difference if no entry of this number is stored.
fn missing_entry(alloc: Global, number: u64) -> Result<Damage, NoMemory>
    ensures { IfOk result (λ damage. damage ≡ missing_entry number) }
{
    Ok(Damage {
        entry: number,
        kept: Bytes::copy_of(alloc, b"none")?,
        replayed: Bytes::copy_of(alloc, b"NOT_AN_ENTRY")?,
    })
}

// Replays a stored entry. If the replay makes the same entry, it is added. Otherwise a text of what the replay makes is
// returned.
fn replay<R: Threads + Sync>(
    rt: &R,
    alloc: Global,
    register: &mut Register,
    stored: &KeptEntry,
) -> Result<Option<Bytes>, NoMemory>
    ensures { IfOk result (Replays register.old stored.now register.new) }
{
    match asked_by(alloc, register.entries(), stored)? {
        Some((request, moment)) => replay_request(rt, alloc, register, &request, moment, stored),
        None => Ok(Some(Bytes::copy_of(alloc, b"NOT_AN_ENTRY")?)),
    }
}

// Replays a stored entry that was taken for this request, by its rules and at its moment.
fn replay_request<R: Threads + Sync>(
    rt: &R,
    alloc: Global,
    register: &mut Register,
    request: &Request,
    moment: Moment,
    stored: &KeptEntry,
) -> Result<Option<Bytes>, NoMemory>
    requires numbered { HasNumberInRange request.now }
    requires moment { moment ≡ stored.now.moment }
    requires asked { stored_request register.old.history stored.now ≡ Some request.now }
    ensures { IfOk result (Replays register.old stored.now register.new) }
{
    match register.replay(rt, request, moment, stored)? {
        Some(decision) => Ok(Some(decision_text(alloc, decision)?)),
        None => Ok(None),
    }
}

// The text that reports what is decided instead of a stored entry.
fn decision_text(alloc: Global, decision: Decision) -> Result<Bytes, NoMemory>
    ensures { IfOk result (λ text. text ≡ decision_text decision) }
{
    match decision {
        Decision::Stays(reply) => reply_words(alloc, reply),
        Decision::Adds(entry, _) => entry_line(alloc, &entry),
    }
}

// The text of a reply, or the words of a refusal.
fn reply_words(alloc: Global, reply: Reply) -> Result<Bytes, NoMemory>
    ensures { IfOk result (λ text. text ≡ reply_words reply) }
{
    match reply {
        Reply::Text { text, .. } => Ok(text),
        Reply::Words(refusal) => {
            let words = format!(in alloc; "{refusal}")?;
            Bytes::copy_of(alloc, words.as_bytes())
        }
    }
}

// The request that a stored entry was taken for, with its moment. There is none if no request has the entry's values,
// or if its moment is out of range. Nor is there one if its rules may not follow those of the entry before it.
#[tactic(auto, unfolding(register_history::specs::Damage::stored_request))]
fn asked_by(
    alloc: Global,
    before: &[KeptEntry],
    stored: &KeptEntry,
) -> Result<Option<(Request, Moment)>, NoMemory>
    ensures request { IfOk result (λ asked. option_map (λ one. one.0) asked
        ≡ stored_request before.now stored.now) }
    ensures moment { IfOk result (λ asked. IfSome asked (λ one. one.1 ≡ stored.now.moment)) }
    ensures in_range { IfOk result (λ asked. IfSome asked (λ one. IsMoment stored.now.moment)) }
    ensures numbered { IfOk result (λ asked. IfSome asked (λ one. HasNumberInRange one.0)) }
{
    let Some(moment) = Moment::of(stored.moment) else {
        return Ok(None);
    };
    if !may_follow(before, stored.rules) {
        return Ok(None);
    }
    match request_in(alloc, stored)? {
        Some(request) => Ok(Some((request, moment))),
        None => Ok(None),
    }
}

// Whether an entry after these may have the rules of this number: such rules exist, and they aren't lower than those of
// the last entry.
fn may_follow(before: &[KeptEntry], rules: u16) -> bool
    ensures { result ≡ rules_may_follow before.now rules }
{
    let last = match before.last() {
        Some(entry) => entry.rules,
        None => FIRST_RULES,
    };
    FIRST_RULES <= rules && rules <= RULES && last <= rules
}

// The request that an entry was taken for, by the entry's kind.
fn request_in(alloc: Global, stored: &KeptEntry) -> Result<Option<Request>, NoMemory>
    ensures request { IfOk result (λ request. request ≡ request_in stored.now) }
    ensures numbered { IfOk result (λ request. IfSome request HasNumberInRange) }
{
    match stored.kind {
        ACCREDIT => Ok(accreditation_in(stored)),
        UPLOAD => upload_in(alloc, stored),
        PUBLISH => Ok(publication_in(stored)),
        _ => Ok(None),
    }
}

// The accreditation that an entry was taken for. Its entry has neither a number nor a body.
fn accreditation_in(stored: &KeptEntry) -> Option<Request>
    ensures request { result ≡ stored_accreditation stored.now }
    ensures numbered { IfSome result HasNumberInRange }
{
    match Lei::read(stored.office.as_slice()) {
        Ok(issuer) if stored.number == 0 && stored.body.is_empty() => Some(Request::Accredit(
            issuer,
        )),
        _ => None,
    }
}

// The upload that an entry was taken for.
fn upload_in(alloc: Global, stored: &KeptEntry) -> Result<Option<Request>, NoMemory>
    ensures request { IfOk result (λ request. request ≡ stored_upload stored.now) }
    ensures numbered { IfOk result (λ request. IfSome request HasNumberInRange) }
{
    match Lei::read(stored.office.as_slice()) {
        Ok(office) if is_upload_number(stored.number) => {
            let body = stored.body.share()?;
            Ok(Some(Request::Upload(Call {
                office,
                number: stored.number,
                body,
            })))
        }
        _ => Ok(None),
    }
}

// The publication that an entry was taken for. Its entry has neither an office nor a body.
fn publication_in(stored: &KeptEntry) -> Option<Request>
    ensures request { result ≡ stored_publication stored.now }
    ensures numbered { IfSome result HasNumberInRange }
{
    if stored.office.is_empty() && is_upload_number(stored.number) && stored.body.is_empty() {
        Some(Request::Publish(stored.number))
    } else {
        None
    }
}
