//! Puts requests to an office, one after the other.
ghost use Rattle.std.specs.Prelude.{◌≡◌, ◌↔◌, ◌≤◌, ◌+◌, ◌-◌, ◌++◌, count_by, IfOk, IsTrue, OnOk};
ghost use Rattle.register_history.specs.Legal.{Legal};
ghost use Rattle.register_words.specs.Requests.{HasNumberInRange};
ghost use Rattle.register_history.specs.Replies.{next, reply};
ghost use Rattle.register_demo.specs.Plan.{block_count};
ghost use Rattle.register_demo.specs.Requests.{demo_upload, office_from, replies_from, request_moment, uploads_of};
ghost use Rattle.register_demo.specs.Session.{is_ok_reply, text_in_reply, texts_of_replies};

use crate::bodies::block_body;
use crate::codes::issuer_of;
use crate::plan::{Group, Uploads, block_count, request_count, upload_number};
use lei_office::{Call, Office, Refusal, Reply, Request};
use lei_outside::Sink;
use lei_shapes::Moment;
use lei_values::NoMemory;
use memory_devices::SureKeeper;
use std::alloc::Global;
use std::thread::Threads;

// 2025-01-01T00:00:00Z.
const FIRST_MOMENT: i64 = 1_735_689_600;

// The moment of the request that follows this many others.
fn request_moment(count: u32) -> Moment
    ensures { result ≡ request_moment count }
{
    match Moment::of(FIRST_MOMENT + i64::from(count)) {
        Some(moment) => moment,
        None => unreachable!(),
    }
}

/// The text of a reply, which is empty for a refusal.
pub fn text_of(reply: &Reply) -> &[u8]
    ensures { result.now ≡ text_in_reply reply.now }
{
    match reply {
        Reply::Text { text, .. } => text.as_slice(),
        Reply::Words(_) => &[],
    }
}

// The upload of the records of a block, or of the relationships that start at them.
fn upload_of(alloc: Global, group: Group, n: u32, block: u32) -> Result<Request, NoMemory>
    requires least { 2 ≤ n }
    requires most { n ≤ 100_000 }
    requires counted { 1 ≤ block }
    requires within { block ≤ block_count n }
    ensures value { IfOk result (λ request. request ≡ demo_upload group n block) }
    ensures numbered { IfOk result HasNumberInRange }
{
    let body = block_body(alloc, group, n, block)?;
    let number = upload_number(group, n, block);
    Ok(Request::Upload(Call {
        office: issuer_of(block),
        number,
        body,
    }))
}

/// Puts a request to the office, after this many others. It stays unanswered only if memory runs out.
pub fn ask<R: Threads + Sync>(
    rt: &R,
    office: &mut Office<SureKeeper>,
    request: &Request,
    count: u32,
) -> Result<Reply, NoMemory>
    requires { HasNumberInRange request.now }
    ensures reply { IfOk result
        (λ answered. answered ≡ reply office.old.office request.now (request_moment count)) }
    ensures next { OnOk result
        (office.new.office ≡ next office.old.office request.now (request_moment count)) }
    ensures legal { Legal office.new.office }
{
    let reply = office.answer(rt, request, request_moment(count));
    if is_no_memory(&reply) {
        return Err(NoMemory);
    }
    Ok(reply)
}

// Whether a reply says that memory ran out.
fn is_no_memory(reply: &Reply) -> bool
    ensures { IsTrue result ↔ (reply.now ≡ Reply.Words Refusal.NoMemory) }
{
    matches!(reply, Reply::Words(Refusal::NoMemory))
}

// Sends the upload of a block, and appends the text of its answer to the others. Returns whether the reply has the
// status code 200.
fn send_block<R: Threads + Sync>(
    rt: &R,
    alloc: Global,
    office: &mut Office<SureKeeper>,
    uploads: Uploads,
    block: u32,
    answers: &mut Vec<u8>,
) -> Result<bool, NoMemory>
    requires least { 2 ≤ uploads.n }
    requires most { uploads.n ≤ 100_000 }
    requires few { uploads.count ≤ 10_000 }
    requires counted { 1 ≤ block }
    requires within { block ≤ block_count uploads.n }
    ensures answers { OnOk result (answers.new.items ≡ answers.old.items
        ++ text_in_reply (reply office.old.office (demo_upload uploads.group uploads.n block)
        (request_moment (uploads.count + block - 1)))) }
    ensures told { IfOk result (λ told. told ≡ is_ok_reply (reply office.old.office
        (demo_upload uploads.group uploads.n block) (request_moment (uploads.count + block - 1)))) }
    ensures office { OnOk result (office.new.office ≡ next office.old.office
        (demo_upload uploads.group uploads.n block) (request_moment (uploads.count + block - 1))) }
{
    let request = upload_of(alloc, uploads.group, uploads.n, block)?;
    let reply = ask(rt, office, &request, uploads.count + block - 1)?;
    answers.extend_from_slice(text_of(&reply))?;
    Ok(reply.status_code() == 200)
}

/// Sends the uploads of a group, and appends the texts of the answers to the others. Returns how many of the replies
/// have the status code 200. After each upload the sink reports how many of all requests were answered.
pub fn send_uploads<R: Threads + Sync, W: Sink>(
    rt: &R,
    alloc: Global,
    office: &mut Office<SureKeeper>,
    uploads: Uploads,
    answers: &mut Vec<u8>,
    out: &mut W,
) -> Result<u32, NoMemory>
    requires least { 2 ≤ uploads.n }
    requires most { uploads.n ≤ 100_000 }
    requires few { uploads.count ≤ 10_000 }
    ensures answers { OnOk result (answers.new.items ≡ answers.old.items
        ++ texts_of_replies (replies_from office.old.office uploads.count
        (uploads_of uploads.group uploads.n))) }
    ensures told { IfOk result (λ told. told
        ≡ count_by is_ok_reply (replies_from office.old.office uploads.count
        (uploads_of uploads.group uploads.n))) }
    ensures office { OnOk result (office.new.office
        ≡ office_from office.old.office uploads.count (uploads_of uploads.group uploads.n)) }
    ensures same { out.new ≡ out.old }
{
    let mut told = 0;
    for block in 1..block_count(uploads.n) + 1 {
        told += u32::from(send_block(rt, alloc, office, uploads, block, answers)?);
        out.report_progress(uploads.count + block, request_count(uploads.n));
    }
    Ok(told)
}
