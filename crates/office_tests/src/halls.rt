//! Callers of one office: passes of a hall have turns and meet, and the hall is closed.
ghost use Rattle.std.specs.Prelude.{◌≡◌, All, IfOk, IsSomeAnd};
ghost use Rattle.atomic_table.specs.Seated.{TableId};
ghost use Rattle.register_words.specs.Requests.{IsUploadNumber};
ghost use Rattle.turnstile.specs.Passes.{AreOf};

use crate::limits::{MOMENT, ONE_RECORD, call};
use lei_hall::{Hall, Pass};
use lei_keeper::{KeepFault, Keeper};
use lei_office::{Call, Limits, Office, Refusal, Reply, Request};
use lei_outside::OpenGate;
use lei_shapes::Moment;
use memory_devices::SureKeeper;
use std::alloc::{AllocError, Global};
use std::mem::forget;
use std::sync::Wait;
use std::test::Fail;
use std::thread::Threads;

// How many entries a keeper has.
fn last<K: Keeper + Drop>(mut keeper: K) -> Result<u64, KeepFault> {
    keeper.last()
}

/// A caller with its pass, and the replies to its request and to another one after it.
#[derive(Drop)]
pub struct Worker {
    pub pass: Option<Pass>,
    pub reply: Option<Reply>,
    pub shown: Option<Reply>,
}

/// A worker for each of these passes.
pub fn workers_of(alloc: Global, mut passes: Vec<Pass>) -> Result<Vec<Worker>, AllocError>
    ensures { IfOk result (λ workers. (table : TableId) → AreOf table passes.items
        → All (λ w. IsSomeAnd w.pass (λ p. p.table ≡ table)) workers.items) }
{
    let mut workers = Vec::with_capacity(alloc, passes.len())?;
    while let Some(pass) = passes.pop() {
        workers.push(Worker {
            pass: Some(pass),
            reply: None,
            shown: None,
        })?;
    }
    Ok(workers)
}

/// Whether there is a reply with this text.
pub fn is_answered(reply: &Option<Reply>, wanted: &[u8]) -> bool {
    match reply {
        Some(reply) => is_text(reply, wanted),
        None => false,
    }
}

fn is_text(reply: &Reply, wanted: &[u8]) -> bool {
    match reply {
        Reply::Text { text, .. } => text.as_slice() == wanted,
        Reply::Words(_) => false,
    }
}

// The replies to three requests: for what is kept of an upload that wasn't sent yet, and for the upload, sent twice.
#[derive(Drop)]
struct Replies {
    unknown: Reply,
    taken: Reply,
    repeated: Reply,
}

// The calls of two callers, one after another. The first accredits the issuer of an upload, and the second asks what is
// kept of it. They meet. Then the second sends the upload, and the first sends the same. The replies to the last three
// requests are returned with the passes.
fn call_in_turn<K: Keeper, R: Threads + Wait + Sync>(
    rt: &R,
    hall: &Hall<K>,
    first: Pass,
    second: Pass,
    call: &Call,
    moment: Moment,
) -> (Pass, Pass, Replies)
    requires first { first.table ≡ hall.now.table }
    requires second { second.table ≡ hall.now.table }
    requires limits { first.stays ≡ second.stays }
    requires numbered { IsUploadNumber call.now.number }
    ensures first { (result.0.table ≡ first.table) × (result.0.number ≡ first.number) }
    ensures second { (result.1.table ≡ second.table) × (result.1.number ≡ second.number) }
{
    let (first, _) = hall.ask(rt, first, &Request::Accredit(call.office), moment);
    let kept = Request::Kept(call.office, call.number);
    let (second, unknown) = hall.ask(rt, second, &kept, moment);
    let (first, second) = hall.meet(rt, first, second);
    let (second, taken) = hall.submit(rt, second, call, moment, &OpenGate);
    let (first, repeated) = hall.submit(rt, first, call, moment, &OpenGate);
    let replies = Replies {
        unknown,
        taken,
        repeated,
    };
    (first, second, replies)
}

// The keeper of an office after these calls of the two callers of a hall, and the replies.
fn replies_to_two<K: Keeper + Drop, R: Threads + Wait + Sync>(
    rt: &R,
    alloc: Global,
    office: Office<K>,
    call: &Call,
    moment: Moment,
) -> Option<(K, Replies)>
    requires { IsUploadNumber call.now.number }
{
    let (hall, mut passes) = match Hall::open(alloc, office, 2) {
        Ok(opened) => opened,
        Err(office) => {
            forget(office);
            return None;
        }
    };
    let Some(second) = passes.pop() else {
        unreachable!()
    };
    let Some(first) = passes.pop() else {
        unreachable!()
    };
    let (first, second, replies) = call_in_turn(rt, &hall, first, second, call, moment);
    passes.push_reserved(second);
    passes.push_reserved(first);
    Some((hall.close(passes).close(), replies))
}

// Whether the two callers get the correct answers, and the keeper has an entry for the issuer and one for the upload.
fn two_are_answered<R: Threads + Wait + Sync>(
    rt: &R,
    alloc: Global,
    call: &Call,
    moment: Moment,
    wanted: &[u8],
) -> bool
    requires { IsUploadNumber call.now.number }
{
    let office = match Office::open(rt, alloc, SureKeeper::new(alloc), Limits::standard()) {
        Ok(office) => office,
        Err(_) => return false,
    };
    match replies_to_two(rt, alloc, office, call, moment) {
        Some((keeper, replies)) => {
            replies.unknown == Reply::Words(Refusal::NotKept)
                && is_text(&replies.taken, wanted)
                && is_text(&replies.repeated, wanted)
                && last(keeper) == Ok(2)
        }
        None => false,
    }
}

#[test]
fn two_callers_who_meet_are_answered_of_one_history(rt: HostRuntime) -> Result<(), Fail> {
    let call = call(rt.alloc(), 1, ONE_RECORD).ok_or("an upload")?;
    let moment = Moment::of(MOMENT).ok_or("a moment")?;
    let wanted = br#"{"entry":2,"issuer":"506700GE1G29325QX363","items":["ACCEPTED"],"number":1}"#;
    assert!(rt; two_are_answered(&rt, rt.alloc(), &call, moment, wanted));
    Ok(())
}
