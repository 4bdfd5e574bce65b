//! Uploads judged ahead of their turns: a plan that is stale when its turn comes, and callers whose uploads are judged
//! at the same time.
ghost use Rattle.std.specs.Prelude.{◌≡◌, All, IfSome, IsSomeAnd};
ghost use Rattle.std.specs.Thread.{IsSync};
ghost use Rattle.register_state.specs.Planning.{IsPlanOf};
ghost use Rattle.register_words.specs.Requests.{IsUploadNumber};

use crate::halls::{Worker, is_answered, workers_of};
use crate::limits::{
    ACCREDITED, ISSUER, MOMENT, ONE_RECORD, OTHER, OTHER_ACCREDITED, RETIRES_FIRST, RETIRES_SECOND,
    SAME_KEY_OF_OTHER, SECOND_OF_OTHER, SECOND_RECORD, Sent, Step, call, call_of, code, takes_all,
};
use crate::servers::desks_of;
use crate::still::Still;
use crate::words::words_of;
use lei_code::Lei;
use lei_hall::Hall;
use lei_keeper::Keeper;
use lei_office::{Call, Limits, Office, Reply, Request, is_upload_number};
use lei_outside::Gate;
use lei_shapes::Moment;
use leireg_serve::{Desk, serve, server_of};
use memory_devices::{ListDoor, SureKeeper};
use register_judge::{Plan, keys_of};
use register_state::{items_of, plan_of};
use register_words::ExitStatus;
use std::alloc::{AllocError, Global};
use std::mem::forget;
use std::sync::Wait;
use std::sync::atomic::{AtomicU64, Ordering};
use std::test::Fail;
use std::thread;
use std::thread::Threads;

// ---- a plan that is stale

const FIRST_TAKEN: Step = (
    Sent::Upload(1, ONE_RECORD),
    200,
    r#"{"entry":3,"issuer":"506700GE1G29325QX363","items":["ACCEPTED"],"number":1}"#,
);

// The plan of an upload, judged on what an office has now.
fn plan_in<K: Keeper, R: Threads + Sync>(
    rt: &R,
    alloc: Global,
    office: &Office<K>,
    call: &Call,
    moment: Moment,
) -> Option<Plan>
    ensures { IfSome result (IsPlanOf call.now) }
{
    let items = items_of(rt, alloc, call)?;
    let keys = keys_of(alloc, items.as_slice()).ok()?;
    let fetched = office.fetch(keys.as_slice()).ok()?;
    plan_of(alloc, &fetched, call, items.as_slice(), moment)
}

// The reply to an upload whose plan was made before another upload was taken.
fn reply_to_planned<K: Keeper, R: Threads + Sync>(
    rt: &R,
    alloc: Global,
    office: &mut Office<K>,
    planned: &Call,
    between: &Call,
    moment: Moment,
) -> Option<Reply>
    requires planned { IsUploadNumber planned.now.number }
    requires between { IsUploadNumber between.now.number }
{
    let plan = plan_in(rt, alloc, office, planned, moment)?;
    let _ = office.settle(rt, between, None, moment);
    Some(office.settle(rt, planned, Some(plan), moment))
}

// Whether an upload is judged again after another issuer's upload took the authority key of its record. The cell of the
// key was empty when the upload was planned.
fn is_judged_again<R: Threads + Sync>(
    rt: &R,
    alloc: Global,
    planned: &Call,
    between: &Call,
    moment: Moment,
) -> bool
    requires planned { IsUploadNumber planned.now.number }
    requires between { IsUploadNumber between.now.number }
{
    let wanted = concat!(
        r#"{"entry":5,"issuer":"506700GE1G29325QX363","#,
        r#""items":["C19 AUTHORITY_KEY_TAKEN 00000000000000000389"],"number":2}"#,
    )
    .as_bytes();
    match Office::open(rt, alloc, SureKeeper::new(alloc), Limits::standard()) {
        Ok(mut office) => {
            let steps = [ACCREDITED, OTHER_ACCREDITED, FIRST_TAKEN];
            let is_prepared = takes_all(rt, alloc, &mut office, &steps);
            let reply = reply_to_planned(rt, alloc, &mut office, planned, between, moment);
            let _ = office.close();
            is_prepared && is_answered(&reply, wanted)
        }
        Err(_) => false,
    }
}

#[test]
fn a_plan_is_judged_again_after_an_empty_cell_was_filled(rt: HostRuntime) -> Result<(), Fail> {
    let planned = call(rt.alloc(), 2, SECOND_RECORD).ok_or("an upload")?;
    let between = call_of(rt.alloc(), OTHER, 1, SAME_KEY_OF_OTHER).ok_or("another upload")?;
    let moment = Moment::of(MOMENT).ok_or("a moment")?;
    assert!(rt; is_judged_again(&rt, rt.alloc(), &planned, &between, moment));
    Ok(())
}

// ---- gates

// How often a gate checks whether what it waits for has come.
const LOOKS: u64 = 4_000_000_000;

// Waits until a count has reached this value, or gives up.
fn wait_for(count: &AtomicU64, least: u64) {
    for _ in 0..LOOKS {
        if count.load(Ordering::SeqCst) >= least {
            return;
        }
    }
}

// A gate that is informed when an upload was answered.
trait Watch: Gate {
    // An upload of this issuer was answered.
    fn note_reply(&self, issuer: &Lei);
}

// Holds up the uploads of the first issuer until one of another was answered, and those of others until one of the
// first has come. Counts those with one item accepted ahead.
#[derive(Drop)]
struct AfterOther {
    come: AtomicU64,
    answered: AtomicU64,
    ahead: AtomicU64,
}

impl Gate for AfterOther {
    fn between(&self, office: &[u8; 20], _number: u32, ahead: Option<u32>) {
        if ahead == Some(1) {
            self.ahead.fetch_add(1, Ordering::SeqCst);
        }
        if office.as_slice() == ISSUER.as_bytes() {
            self.come.fetch_add(1, Ordering::SeqCst);
            wait_for(&self.answered, 1);
        } else {
            wait_for(&self.come, 1);
        }
    }
}

impl Watch for AfterOther {
    fn note_reply(&self, issuer: &Lei) {
        if issuer.as_bytes() != ISSUER.as_bytes() {
            self.answered.fetch_add(1, Ordering::SeqCst);
        }
    }
}

// Holds up each upload until another one has come, and counts those with one item accepted ahead.
#[derive(Drop)]
struct Together {
    come: AtomicU64,
    ahead: AtomicU64,
}

impl Gate for Together {
    fn between(&self, _office: &[u8; 20], _number: u32, ahead: Option<u32>) {
        if ahead == Some(1) {
            self.ahead.fetch_add(1, Ordering::SeqCst);
        }
        self.come.fetch_add(1, Ordering::SeqCst);
        wait_for(&self.come, 2);
    }
}

// ---- callers of a hall

// A register of two issuers with one record each.
const RECORDS: [Step; 4] = [
    ACCREDITED,
    OTHER_ACCREDITED,
    FIRST_TAKEN,
    (
        Sent::UploadOfOther(1, SECOND_OF_OTHER),
        200,
        r#"{"entry":4,"issuer":"HWUPKR0MPOU8FGXBT394","items":["ACCEPTED"],"number":1}"#,
    ),
];

// Submits an upload, informs the gate that it was answered, and then asks for a record.
fn submit_and_show<K: Keeper, R: Threads + Wait + Sync, G: Watch>(
    rt: &R,
    hall: &Hall<K>,
    worker: &mut Worker,
    upload: Option<&Call>,
    shown: Lei,
    gate: &G,
)
    requires ready { IsSomeAnd worker.old.pass (λ p. p.table ≡ hall.now.table) }
{
    let (Some(call), Some(moment)) = (upload, Moment::of(MOMENT)) else {
        return;
    };
    if !is_upload_number(call.number) {
        return;
    }
    let Some(pass) = worker.pass.take() else {
        unreachable!()
    };
    let (pass, reply) = hall.submit(rt, pass, call, moment, gate);
    gate.note_reply(&call.office);
    let (pass, record) = hall.ask(rt, pass, &Request::Show(shown), moment);
    worker.pass = Some(pass);
    worker.reply = Some(reply);
    worker.shown = Some(record);
}

// All workers at the same time, each with the upload at its index.
fn submit_at_once<K: Keeper + Send, R: Threads + Wait + Sync, G: Watch + Sync>(
    rt: &R,
    hall: &Hall<K>,
    workers: &mut [Worker],
    uploads: &[Call],
    shown: Lei,
    gate: &G,
)
    requires ready { All (λ w. IsSomeAnd w.pass (λ p. p.table ≡ hall.now.table)) workers.old }
{
    thread::for_each_mut(
        rt,
        workers,
        64,
        &|place: usize, worker: &mut Worker|
            requires { IsSync R.row × IsSomeAnd worker.old.pass (λ p. p.table ≡ hall.now.table) }
        { submit_and_show(rt, hall, worker, uploads.get(place), shown, gate) },
    );
}

fn has_text(reply: &Option<Reply>, part: &[u8]) -> bool {
    match reply {
        Some(Reply::Text { text, .. }) => contains(text.as_slice(), part),
        _ => false,
    }
}

fn contains(text: &[u8], part: &[u8]) -> bool {
    match (str::from_utf8(text), str::from_utf8(part)) {
        (Ok(text), Ok(part)) => text.contains(part),
        _ => false,
    }
}

// Whether the first of two uploads is judged again in its turn, after the second one's reply, by what the second left.
fn are_judged_at_once<R: Threads + Wait + Sync>(
    rt: &R,
    alloc: Global,
    uploads: &[Call],
    shown: Lei,
    gate: &AfterOther,
) -> bool {
    let mut office = match Office::open(rt, alloc, SureKeeper::new(alloc), Limits::standard()) {
        Ok(office) => office,
        Err(_) => return false,
    };
    let is_prepared = takes_all(rt, alloc, &mut office, &RECORDS);
    let (hall, passes) = match Hall::open(alloc, office, 2) {
        Ok(opened) => opened,
        Err(office) => {
            forget(office);
            return false;
        }
    };
    let answered = match workers_of(alloc, passes) {
        Ok(mut workers) => {
            submit_at_once(rt, &hall, &mut workers, uploads, shown, gate);
            are_answered(&workers)
        }
        Err(_) => false,
    };
    forget(hall);
    is_prepared && answered
}

fn are_answered(workers: &[Worker]) -> bool {
    let first =
        br#"{"entry":6,"issuer":"506700GE1G29325QX363","items":["C17 SUCCESSOR_CYCLE","C12 NOT_MANAGER"],"number":2}"#;
    let second = br#"{"entry":5,"issuer":"HWUPKR0MPOU8FGXBT394","items":["ACCEPTED"],"number":2}"#;
    match workers {
        [one, other] => {
            is_answered(&one.reply, first)
                && has_text(
                    &one.shown,
                    br#""Registration.RegistrationStatus":"RETIRED""#,
                )
                && is_answered(&other.reply, second)
        }
        _ => false,
    }
}

#[test]
fn an_upload_that_waits_after_it_was_judged_is_judged_again(rt: HostRuntime) -> Result<(), Fail> {
    let gate = AfterOther {
        come: AtomicU64::new(0),
        answered: AtomicU64::new(0),
        ahead: AtomicU64::new(0),
    };
    let first = call(rt.alloc(), 2, RETIRES_FIRST).ok_or("an upload")?;
    let second = call_of(rt.alloc(), OTHER, 2, RETIRES_SECOND).ok_or("another upload")?;
    let shown = code("00000000000000000292").ok_or("a code")?;
    let uploads = [first, second];
    assert!(rt; are_judged_at_once(&rt, rt.alloc(), &uploads, shown, &gate));
    assert!(rt; gate.ahead.load(Ordering::SeqCst) == 2);
    Ok(())
}

// ---- workers of a server

// A keeper with the two records.
fn keeper_of_two<R: Threads + Sync>(rt: &R, alloc: Global) -> Option<SureKeeper> {
    match Office::open(rt, alloc, SureKeeper::new(alloc), Limits::standard()) {
        Ok(mut office) => {
            let is_prepared = takes_all(rt, alloc, &mut office, &RECORDS);
            let keeper = office.close();
            if is_prepared {
                Some(keeper)
            } else {
                forget(keeper);
                None
            }
        }
        Err(_) => None,
    }
}

// An upload of an issuer over HTTP, as written in the table of connections.
fn request_of(alloc: Global, issuer: &str, body: &str) -> Result<String, AllocError> {
    let length = body.len();
    format!(in alloc;
        "PUT /v1/issuers/{issuer}/uploads/2 HTTP/1.1\nContent-Length: {length}\n\n{body}"
    )
}

// Whether this was written to the only link of a desk.
fn has_written(desks: &[Desk<ListDoor, Still>], place: usize, part: &[u8]) -> bool {
    match desks.get(place) {
        Some(desk) => match desk.door.came_back() {
            [link] => contains(link.sink().written(), part),
            _ => false,
        },
        None => false,
    }
}

// Whether exactly one of two uploads is accepted, if two workers have them at the same time. Each upload retires one of
// two records in favour of the other record.
fn one_is_accepted<R: Threads + Wait + Sync>(
    rt: &R,
    alloc: Global,
    words: &[String],
    sent: &[String],
    gate: &Together,
) -> bool {
    let accepted = br#""items":["ACCEPTED""#;
    let rejected = br#""items":["C17 SUCCESSOR_CYCLE""#;
    let Ok(server) = server_of(alloc, words) else {
        return false;
    };
    let Ok(desks) = desks_of(alloc, &server, sent) else {
        return false;
    };
    let Some(keeper) = keeper_of_two(rt, alloc) else {
        forget(desks);
        return false;
    };
    let (status, keeper, desks) = serve(rt, alloc, words, keeper, desks, gate);
    forget(keeper);
    status == ExitStatus::Ok.number()
        && (has_written(&desks, 0, accepted) && has_written(&desks, 1, rejected)
            || has_written(&desks, 0, rejected) && has_written(&desks, 1, accepted))
}

#[test]
fn workers_judge_ahead_of_each_other(rt: HostRuntime) -> Result<(), Fail> {
    let gate = Together {
        come: AtomicU64::new(0),
        ahead: AtomicU64::new(0),
    };
    let words = words_of(rt.alloc(), "serve --port 0 --workers 2")?;
    let first = request_of(rt.alloc(), ISSUER, RETIRES_FIRST)?;
    let second = request_of(rt.alloc(), OTHER, RETIRES_SECOND)?;
    let sent = [first, second];
    assert!(rt; one_is_accepted(&rt, rt.alloc(), &words, &sent, &gate));
    assert!(rt; gate.ahead.load(Ordering::SeqCst) == 2);
    Ok(())
}
