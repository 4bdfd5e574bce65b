//! The requests of a session, and what their replies say.
ghost use Rattle.std.specs.Prelude.{◌≡◌, ◌≤◌, ◌+◌, ◌*◌, ◌∷◌, [], cond, IfOk, OnOk};
ghost use Rattle.register_history.specs.Legal.{Legal};
ghost use Rattle.register_words.specs.declared.reply.Reply.{Reply as Answer};
ghost use Rattle.register_demo.specs.Plan.{block_count};
ghost use Rattle.register_demo.specs.Requests.{RepliesFrom, accreditations, deltas, first_publication};
ghost use Rattle.register_demo.specs.Session.{IsPatchedSize, MakesRecords, MakesRegister, MakesRelationships, Repeats, is_created_reply};

use crate::asking::{ask, send_uploads, text_of};
use crate::codes::issuer_of;
use crate::marks::rows_in;
use crate::plan::{Group, Uploads, block_count};
use crate::summary::Told;
use delta_apply::{ApplyFault, apply};
use golden_shelf::Base;
use lei_office::{Form, Office, Reply, Request, Sheet};
use lei_outside::Sink;
use lei_values::{Bytes, NoMemory};
use memory_devices::SureKeeper;
use std::alloc::Global;
use std::thread::Threads;

// Accredits the two issuers.
fn accredit<R: Threads + Sync>(rt: &R, office: &mut Office<SureKeeper>) -> Result<(), NoMemory>
    ensures { OnOk result ((first : Answer) × (second : Answer)
        × RepliesFrom office.old.office 0 accreditations (first ∷ second ∷ []) office.new.office) }
{
    ask(rt, office, &Request::Accredit(issuer_of(1)), 0)?;
    ask(rt, office, &Request::Accredit(issuer_of(2)), 1)?;
    Ok(())
}

// Publishes the records after this many requests, and asks for the copies of records and of relationships. Returns the
// replies to the publication and to the request for the second copy.
fn publish_records<R: Threads + Sync>(
    rt: &R,
    office: &mut Office<SureKeeper>,
    count: u32,
) -> Result<(Reply, Reply), NoMemory>
    requires { count ≤ 10_000 }
    ensures { IfOk result (λ told. (lei : Answer)
        × RepliesFrom office.old.office count first_publication
        (told.0 ∷ lei ∷ told.1 ∷ []) office.new.office) }
{
    let published = ask(rt, office, &Request::Publish(1), count)?;
    ask(rt, office, &Request::Copy(Sheet::Lei, Form::Csv), count + 1)?;
    let copy = ask(rt, office, &Request::Copy(Sheet::Rr, Form::Csv), count + 2)?;
    Ok((published, copy))
}

// Asks for the deltas of records and of relationships, after this many requests.
fn ask_for_deltas<R: Threads + Sync>(
    rt: &R,
    office: &mut Office<SureKeeper>,
    count: u32,
) -> Result<(Reply, Reply), NoMemory>
    requires { count ≤ 10_000 }
    ensures answers { IfOk result
        (λ told. RepliesFrom office.old.office count deltas (told.0 ∷ told.1 ∷ []) office.new.office) }
    ensures legal { OnOk result (Legal office.new.office) }
{
    let base = Base::Number(1);
    let records = ask(
        rt,
        office,
        &Request::Delta(base, Sheet::Lei, Form::Csv),
        count,
    )?;
    let relationships = ask(
        rt,
        office,
        &Request::Delta(base, Sheet::Rr, Form::Csv),
        count + 1,
    )?;
    Ok((records, relationships))
}

// Sends the records, and publishes them.
fn make_records<R: Threads + Sync, W: Sink>(
    rt: &R,
    alloc: Global,
    office: &mut Office<SureKeeper>,
    n: u32,
    answers: &mut Vec<u8>,
    out: &mut W,
) -> Result<(Reply, Reply), NoMemory>
    requires least { 2 ≤ n }
    requires most { n ≤ 100_000 }
    ensures makes { IfOk result (λ told.
        MakesRecords n office.old.office office.new.office
        answers.old.items answers.new.items told.0 told.1) }
    ensures same { out.new ≡ out.old }
{
    accredit(rt, office)?;
    let uploads = Uploads {
        group: Group::Records,
        n,
        count: 2,
    };
    send_uploads(rt, alloc, office, uploads, answers, out)?;
    let told = publish_records(rt, office, block_count(n) + 2)?;
    Ok(told)
}

// Sends the relationships, and publishes them.
fn make_relationships<R: Threads + Sync, W: Sink>(
    rt: &R,
    alloc: Global,
    office: &mut Office<SureKeeper>,
    n: u32,
    answers: &mut Vec<u8>,
    out: &mut W,
) -> Result<Reply, NoMemory>
    requires least { 2 ≤ n }
    requires most { n ≤ 100_000 }
    ensures makes { IfOk result (λ published.
        MakesRelationships n office.old.office office.new.office
        answers.old.items answers.new.items published) }
    ensures same { out.new ≡ out.old }
{
    let blocks = block_count(n);
    let uploads = Uploads {
        group: Group::Relationships,
        n,
        count: blocks + 5,
    };
    send_uploads(rt, alloc, office, uploads, answers, out)?;
    let published = ask(rt, office, &Request::Publish(2), 2 * blocks + 5)?;
    Ok(published)
}

// Sends the records once more, and asks for the deltas.
fn repeat_records<R: Threads + Sync, W: Sink>(
    rt: &R,
    alloc: Global,
    office: &mut Office<SureKeeper>,
    n: u32,
    out: &mut W,
) -> Result<(u32, (Reply, Reply)), NoMemory>
    requires least { 2 ≤ n }
    requires most { n ≤ 100_000 }
    ensures repeats { IfOk result (λ found. Repeats n office.old.office office.new.office found.0
        found.1.0 found.1.1) }
    ensures same { out.new ≡ out.old }
{
    let blocks = block_count(n);
    let uploads = Uploads {
        group: Group::Records,
        n,
        count: 2 * blocks + 6,
    };
    let mut answers = Vec::new(alloc);
    let told = send_uploads(rt, alloc, office, uploads, &mut answers, out)?;
    let deltas = ask_for_deltas(rt, office, 3 * blocks + 6)?;
    Ok((told, deltas))
}

// How many bytes the copy of relationships has after their delta was applied, or 0 if it can't be applied.
fn patched_size(alloc: Global, copy: &[u8], delta: &[u8]) -> Result<usize, NoMemory>
    ensures { IfOk result (IsPatchedSize copy.now delta.now) }
{
    match apply(alloc, copy, delta, Sheet::Rr, Form::Csv) {
        Ok(bytes) => Ok(bytes.len()),
        Err(ApplyFault::NoMemory) => Err(NoMemory),
        Err(_) => Ok(0),
    }
}

// How many publications a reply says were made: 1 or none.
fn publication_count(reply: &Reply) -> u32
    ensures value { result ≡ cond (is_created_reply reply.now) 1 0 }
    ensures most { result ≤ 1 }
{
    u32::from(reply.status_code() == 201)
}

/// Makes a register of this many records with an office, and returns what the replies say about it.
pub fn make<R: Threads + Sync, W: Sink>(
    rt: &R,
    alloc: Global,
    office: &mut Office<SureKeeper>,
    n: u32,
    out: &mut W,
) -> Result<Told, NoMemory>
    requires least { 2 ≤ n }
    requires most { n ≤ 100_000 }
    ensures told { IfOk result (MakesRegister n office.old.office office.new.office) }
    ensures same { out.new ≡ out.old }
{
    let mut answers = Vec::new(alloc);
    let (first, copy) = make_records(rt, alloc, office, n, &mut answers, out)?;
    let second = make_relationships(rt, alloc, office, n, &mut answers, out)?;
    let (repeats, (lei_delta, rr_delta)) = repeat_records(rt, alloc, office, n, out)?;
    let applied = patched_size(alloc, text_of(&copy), text_of(&rr_delta))?;
    Ok(Told {
        answers,
        repeats,
        publications: publication_count(&first) + publication_count(&second),
        published: Bytes::copy_of(alloc, text_of(&second))?,
        records: rows_in(text_of(&lei_delta)),
        relationships: rows_in(text_of(&rr_delta)),
        applied,
    })
}
