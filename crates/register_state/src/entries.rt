//! Builds the entries that are added.
ghost use Rattle.std.specs.Prelude.{◌≡◌, ◌+◌, length, IfOk};
ghost use Rattle.lei_shapes.specs.Moment.{IsMoment};
ghost use Rattle.upload_ledger.specs.History.{stamp};
ghost use Rattle.register_history.specs.Register.{after};
ghost use Rattle.register_history.specs.Replies.{accreditation, publication_entry, published_counts, upload_entry};
ghost use Rattle.register_history.specs.State.{office_of};
ghost use Rattle.register_words.specs.declared.limits.Limits.{Limits};

use answer_texts::{accreditation_text, publication_text, upload_text};
use lei_code::Lei;
use lei_shapes::Moment;
use lei_values::{Bytes, KeptEntry, NoMemory, Shared};
use register_history::EntryTerms;
use register_judge::Verdict;
use register_words::Call;
use std::alloc::Global;
use upload_ledger::{ACCREDIT, PUBLISH, UPLOAD};

/// The number of the rules by which new entries are made.
pub const RULES: u16 = 3;

// The moment of the next entry: the later of the clock's moment and the last entry's.
pub fn stamp(entries: &[KeptEntry], moment: Moment) -> i64
    ensures stamp { result ≡ stamp entries.now moment }
    ensures moment { IsMoment moment }
{
    let seconds = moment.seconds();
    match entries.last() {
        Some(entry) => entry.moment.max(seconds),
        None => seconds,
    }
}

// The entry of the issuer's accreditation.
pub fn accreditation(
    alloc: Global,
    entries: &[KeptEntry],
    issuer: &Lei,
    terms: &EntryTerms,
) -> Result<KeptEntry, NoMemory>
    ensures { IfOk result (λ entry. entry ≡ accreditation entries.now issuer.now terms.now) }
{
    let seq = next_seq(entries)?;
    Ok(KeptEntry {
        seq,
        kind: ACCREDIT,
        office: Bytes::copy_of(alloc, issuer.as_bytes())?,
        number: 0,
        moment: terms.moment.seconds(),
        rules: terms.rules,
        body: Shared::copy_of(alloc, &[])?,
        answer: accreditation_text(alloc, seq, issuer)?,
    })
}

// The entry of an upload of the issuer, with the verdicts on its items.
pub fn taken_upload(
    alloc: Global,
    entries: &[KeptEntry],
    call: &Call,
    terms: &EntryTerms,
    verdicts: &[Verdict],
) -> Result<KeptEntry, NoMemory>
    ensures { IfOk result (λ entry. entry ≡ upload_entry entries.now call.now terms.now verdicts.now) }
{
    let seq = next_seq(entries)?;
    Ok(KeptEntry {
        seq,
        kind: UPLOAD,
        office: Bytes::copy_of(alloc, call.office.as_bytes())?,
        number: call.number,
        moment: terms.moment.seconds(),
        rules: terms.rules,
        body: call.body.share()?,
        answer: upload_text(alloc, seq, &call.office, call.number, verdicts)?,
    })
}

// The entry of the publication of this number, with this many records, relationships and exceptions.
pub fn publication(
    alloc: Global,
    entries: &[KeptEntry],
    number: u32,
    terms: &EntryTerms,
    counts: (u64, u64, u64),
) -> Result<KeptEntry, NoMemory>
    ensures { IfOk result (λ entry. (limits : Limits) → counts ≡ published_counts (after limits entries.now)
        → entry ≡ publication_entry (office_of limits entries.now) number terms.now) }
{
    let seq = next_seq(entries)?;
    Ok(KeptEntry {
        seq,
        kind: PUBLISH,
        office: Bytes::copy_of(alloc, &[])?,
        number,
        moment: terms.moment.seconds(),
        rules: terms.rules,
        body: Shared::copy_of(alloc, &[])?,
        answer: publication_text(alloc, seq, number, terms.moment, counts)?,
    })
}

// The number of the next entry.
fn next_seq(entries: &[KeptEntry]) -> Result<u64, NoMemory>
    ensures { IfOk result (λ seq. seq ≡ length entries.now + 1) }
{
    (entries.len() as u64).checked_add(1).ok_or(NoMemory)
}
