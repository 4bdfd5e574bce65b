//! Builds the texts of answers.
ghost use Rattle.std.specs.Prelude.{◌≡◌, IfOk, IsAscii, map, string_bytes};
ghost use Rattle.serde_json.specs.View.{view, items_view};
ghost use Rattle.answer_texts.specs.Answers.{accreditation_answer, accreditation_text, publication_answer, publication_text, status_answer, status_answer_text, upload_answer, upload_text, verdict_text, strings};

use lei_code::Lei;
use lei_shapes::Moment;
use lei_values::{Bytes, NoMemory};
use register_judge::Verdict;
use serde_json::{Value, json};
use std::alloc::Global;
use std::str;
use upload_ledger::Totals;

// The answer to an accreditation of the issuer by the entry of this number.
pub fn accreditation_text(alloc: Global, entry: u64, issuer: &Lei) -> Result<Bytes, NoMemory>
    ensures { IfOk result (λ text. text ≡ accreditation_text entry issuer.now) }
{
    let answer = accreditation_answer(alloc, entry, issuer)?;
    Ok(Bytes::from(answer.to_vec(alloc)?))
}

fn accreditation_answer(alloc: Global, entry: u64, issuer: &Lei) -> Result<Value, NoMemory>
    ensures { IfOk result (λ answer. view answer ≡ accreditation_answer entry issuer.now) }
{
    Ok(json!(in alloc; {"entry": entry, "issuer": issuer.as_str()})?)
}

// The answer to the issuer's upload of this number, taken by the entry of that number.
pub fn upload_text(
    alloc: Global,
    entry: u64,
    issuer: &Lei,
    number: u32,
    verdicts: &[Verdict],
) -> Result<Bytes, NoMemory>
    ensures { IfOk result (λ text. text ≡ upload_text entry issuer.now number verdicts.now) }
{
    let items = verdict_values(alloc, verdicts)?;
    let answer = upload_answer(alloc, entry, issuer, number, items)?;
    Ok(Bytes::from(answer.to_vec(alloc)?))
}

fn upload_answer(
    alloc: Global,
    entry: u64,
    issuer: &Lei,
    number: u32,
    items: Vec<Value>,
) -> Result<Value, NoMemory>
    ensures { IfOk result
        (λ answer. view answer ≡ upload_answer entry issuer.now (items_view items.items) number) }
{
    Ok(json!(in alloc; {
        "entry": entry,
        "issuer": issuer.as_str(),
        "items": Value::Array(items),
        "number": number
    })?)
}

// The answer to a publication that is made at this moment by the entry of that number. It has the publication's own
// number, and how many records, relationships and exceptions the publication has.
pub fn publication_text(
    alloc: Global,
    entry: u64,
    publication: u32,
    moment: Moment,
    counts: (u64, u64, u64),
) -> Result<Bytes, NoMemory>
    ensures { IfOk result (λ text. text ≡ publication_text entry publication moment counts) }
{
    let answer = publication_answer(alloc, entry, publication, moment, counts)?;
    Ok(Bytes::from(answer.to_vec(alloc)?))
}

fn publication_answer(
    alloc: Global,
    entry: u64,
    publication: u32,
    moment: Moment,
    counts: (u64, u64, u64),
) -> Result<Value, NoMemory>
    ensures { IfOk result (λ answer. view answer ≡ publication_answer entry publication moment counts) }
{
    let (lei, rr, repex) = counts;
    let date = moment.text();
    Ok(json!(in alloc; {
        "contentDate": ascii(date.as_slice()),
        "entry": entry,
        "lei": lei,
        "publication": publication,
        "repex": repex,
        "rr": rr
    })?)
}

// The text of ASCII bytes.
fn ascii(bytes: &[u8]) -> &str
    requires { IsAscii bytes.now }
    ensures { result.now ≡ bytes.now }
{
    match str::from_utf8(bytes) {
        Ok(text) => text,
        Err(_) => unreachable!(),
    }
}

// The answer to a request for the status: the totals of the ledger, and the numbers of records, relationships and
// exceptions that are held.
pub fn status_text(alloc: Global, totals: Totals, held: (u64, u64, u64)) -> Result<Bytes, NoMemory>
    ensures { IfOk result (λ text. text ≡ status_answer_text totals held) }
{
    let answer = status_answer(alloc, totals, held)?;
    Ok(Bytes::from(answer.to_vec(alloc)?))
}

fn status_answer(alloc: Global, totals: Totals, held: (u64, u64, u64)) -> Result<Value, NoMemory>
    ensures { IfOk result (λ answer. view answer ≡ status_answer totals held) }
{
    let (records, relationships, exceptions) = held;
    Ok(json!(in alloc; {
        "entries": totals.entries,
        "exceptions": exceptions,
        "issuers": totals.issuers,
        "keptBytes": totals.kept_bytes,
        "publications": totals.publications,
        "records": records,
        "relationships": relationships
    })?)
}

// `ACCEPTED`, or the name of the check that fails with its detail.
fn verdict_text(alloc: Global, verdict: &Verdict) -> Result<String, NoMemory>
    ensures { IfOk result (λ text. string_bytes text ≡ verdict_text verdict.now) }
{
    match verdict {
        Verdict::Accepted => Ok(String::from_str(alloc, "ACCEPTED")?),
        Verdict::Rejected(check) => {
            // Each check has a name, and so a text.
            let _ = check.name();
            Ok(format!(in alloc; "{check}")?)
        }
    }
}

fn verdict_values(alloc: Global, verdicts: &[Verdict]) -> Result<Vec<Value>, NoMemory>
    ensures { IfOk result
        (λ values. items_view values.items ≡ strings (map verdict_text verdicts.now)) }
{
    let mut values = Vec::with_capacity(alloc, verdicts.len())?;
    for verdict in verdicts {
        values.push(Value::String(verdict_text(alloc, verdict)?))?;
    }
    Ok(values)
}
