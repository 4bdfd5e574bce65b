//! What passes are told.
ghost use Rattle.std.specs.Prelude.{◌≡◌, IfSome};
ghost use Rattle.register_history.specs.Legal.{Legal};
ghost use Rattle.register_state.specs.Planning.{IsPlanOf};
ghost use Rattle.register_words.specs.Requests.{HasNumberInRange, IsUploadNumber};
ghost use Rattle.register_words.specs.declared.request.Request.TheVariants.{Upload};
ghost use Rattle.lei_hall.specs.Looks.{Fetches};
ghost use Rattle.lei_hall.specs.Turns.{AnswersRequest};

use crate::slot::Slot;
use fetched_cells::Fetched;
use lei_keeper::Keeper;
use lei_office::{Call, Reply, Request};
use lei_records::CellKey;
use lei_shapes::Moment;
use lei_values::NoMemory;
use register_judge::Plan;
use std::thread::Threads;
use turnstile::Said;

/// What a pass is told in a turn: the request, the moment at which it came, and the reply. Only contracts see it: no
/// value of this type is created.
pub struct Told {
    pub request: Request,
    pub moment: Moment,
    pub reply: Reply,
}

// The reply to a request that came at this moment.
#[derive(Drop)]
pub struct Answer<'a> {
    pub request: &'a Request,
    pub moment: Moment,
    pub reply: Reply,
}

impl<'a> Said for Answer<'a> {
    ghost use Rattle.std.specs.Prelude.{Some};
    ghost use Rattle.lei_hall.specs.Passes.{told};

    type Told = Told;

    ghost said = { λ a. Some (told a.request.now a.moment a.reply) };
}

// The reply to an upload that came at this moment.
#[derive(Drop)]
pub struct Settled<'a> {
    pub call: &'a Call,
    pub moment: Moment,
    pub reply: Reply,
}

impl<'a> Said for Settled<'a> {
    ghost use Rattle.std.specs.Prelude.{Some};
    ghost use Rattle.register_words.specs.declared.request.Request.TheVariants.{Upload};
    ghost use Rattle.lei_hall.specs.Passes.{told};

    type Told = Told;

    ghost said = { λ a. Some (told (Upload a.call.now) a.moment a.reply) };
}

// Puts a request to the office.
pub fn put_request<'a, K: Keeper, R: Threads + Sync>(
    rt: &R,
    slot: &mut Slot<K>,
    request: &'a Request,
    moment: Moment,
) -> Answer<'a>
    requires { HasNumberInRange request.now }
    ensures asked { (result.request.now ≡ request.now) × (result.moment ≡ moment) }
    ensures opened { slot.new.opened ≡ slot.old.opened }
    ensures answers { AnswersRequest K.faults slot.old.office request.now moment
        result.reply slot.new.office }
{
    let reply = slot.office.answer(rt, request, moment);
    Answer {
        request,
        moment,
        reply,
    }
}

// The cells that were fetched, or lack of memory. No pass is told of them.
#[derive(Drop)]
pub struct Looked {
    pub fetched: Result<Fetched, NoMemory>,
}

impl Said for Looked {
    ghost use Rattle.std.specs.Prelude.{None};

    type Told = Told;

    ghost said = { λ _. None };
}

// Fetches cells from the office, which stays unchanged.
pub fn fetch_cells<K: Keeper>(slot: &mut Slot<K>, keys: &[CellKey]) -> Looked
    ensures same { slot.new ≡ slot.old }
    ensures legal { Legal slot.old.office.office }
    ensures cells { Fetches slot.old.office.office keys.now result.fetched }
{
    let fetched = slot.office.fetch(keys);
    Looked { fetched }
}

// Settles an upload with the office. The upload may have been judged ahead.
pub fn settle_call<'a, K: Keeper, R: Threads + Sync>(
    rt: &R,
    slot: &mut Slot<K>,
    call: &'a Call,
    plan: Option<Plan>,
    moment: Moment,
) -> Settled<'a>
    requires numbered { IsUploadNumber call.now.number }
    requires plan { IfSome plan (IsPlanOf call.now) }
    ensures asked { (result.call.now ≡ call.now) × (result.moment ≡ moment) }
    ensures opened { slot.new.opened ≡ slot.old.opened }
    ensures answers { AnswersRequest K.faults slot.old.office
        (Upload call.now) moment result.reply slot.new.office }
{
    let reply = slot.office.settle(rt, call, plan, moment);
    Settled {
        call,
        moment,
        reply,
    }
}
