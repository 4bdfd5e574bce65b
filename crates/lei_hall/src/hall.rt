//! The office, and the turns of its callers.
ghost use Rattle.std.specs.Prelude.{◌≡◌, ◌≤◌, length, IfOk, IfErr, IfSome};
ghost use Rattle.std.specs.Thread.{IsSync};
ghost use Rattle.register_history.specs.Kept.{Keeps, StaysUntold};
ghost use Rattle.register_history.specs.Legal.{Legal};
ghost use Rattle.register_words.specs.Requests.{HasNumberInRange, IsUploadNumber};
ghost use Rattle.register_words.specs.declared.request.Request.TheVariants.{Upload};
ghost use Rattle.turnstile.specs.Lists.{longer};
ghost use Rattle.turnstile.specs.Passes.{AreFronts, AreNew, AreOf, HaveAll, with_seen};
ghost use Rattle.register_state.specs.Planning.{IsPlanOf};
ghost use Rattle.lei_hall.specs.Closing.{Closes};
ghost use Rattle.lei_hall.specs.Looks.{Fetches, Looks, SeesMore};
ghost use Rattle.lei_hall.specs.Passes.{numbers_of, seen_by};
ghost use Rattle.lei_hall.specs.Turns.{AnswersRequest, Turn};

use crate::answers::{Answer, Looked, Settled, Told, fetch_cells, put_request, settle_call};
use crate::slot::{Slot, office_in};
use fetched_cells::Fetched;
use lei_keeper::Keeper;
use lei_office::{Call, Office, Reply, Request};
use lei_outside::Gate;
use lei_records::CellKey;
use lei_shapes::Moment;
use lei_values::{KeptEntry, NoMemory};
use register_judge::{Plan, keys_of};
use register_state::{accepted_items, items_of, plan_of};
use std::alloc::Global;
use std::marker::Model;
use std::sync::Wait;
use std::thread::Threads;
use turnstile::Turnstile;

/// The right to put requests to the office of one hall, for one caller at a time. It takes no bytes.
pub type Pass = turnstile::Pass<KeptEntry, Told>;

/// One office for many callers. Contracts see which table its passes are for, the office that it was opened with, and
/// the number of passes.
#[derive(Drop)]
pub struct Hall<K: Keeper> {
    alloc: Global,
    turnstile: Turnstile<Slot<K>>,
}

impl<K: Keeper> Model for Hall<K> {
    ghost use Rattle.std.specs.Prelude.{◌≡◌};
    ghost use Rattle.lei_hall.specs.Passes.{HallView};

    ghost Value = { HallView K };

    ghost view = { λ h. record {
      table = h.turnstile.table;
      office = h.turnstile.value.office;
      passes = h.turnstile.passes;
    } };

    ghost invariant = { λ h. h.turnstile.value.opened ≡ h.turnstile.value.office };
}

impl<K: Keeper> Hall<K> {
    /// A hall over this office, with this many passes. An `Err` means lack of memory, and returns the office. `meet`
    /// and `close` take no memory, and `ask` takes none except what the office takes.
    pub fn open(
        alloc: Global,
        office: Office<K>,
        passes: u32,
    ) -> Result<(Hall<K>, Vec<Pass>), Office<K>>
        requires { (1 ≤ passes) × (passes ≤ 64) }
        ensures office { IfOk result (λ made. made.0.office ≡ office) }
        ensures number { IfOk result (λ made. made.0.passes ≡ passes) }
        ensures count { IfOk result (λ made. length made.1.items ≡ passes) }
        ensures passes { IfOk result (λ made.
            AreNew made.0.table office.office.history
            (numbers_of office.office.limits (K.tables office.keeper)) 0 made.1.items) }
        ensures all { IfOk result (λ made. AreOf made.0.table made.1.items × HaveAll passes made.1.items) }
        ensures legal { IfOk result (λ made. Legal office.office) }
        ensures back { IfErr result (λ back. back ≡ office) }
    {
        // A step of the proof: the history of an office is legal.
        let _limits = office.limits();
        match Turnstile::open(alloc, Slot::new(office), passes) {
            Ok((turnstile, list)) => Ok((Hall { alloc, turnstile }, list)),
            Err(slot) => Err(office_in(slot)),
        }
    }

    /// Puts a request to the office, in one turn.
    pub fn ask<R: Threads + Wait + Sync>(
        &self,
        rt: &R,
        pass: Pass,
        request: &Request,
        moment: Moment,
    ) -> (Pass, Reply)
        requires pass { pass.table ≡ self.now.table }
        requires numbered { HasNumberInRange request.now }
        ensures { Turn pass request.now moment result.1 result.0 }
    {
        let (pass, answer) = self.turnstile.enter(
            rt,
            pass,
            |slot: &mut Slot<K>| -> Answer<'_>
                requires { IsSync R.row × HasNumberInRange request.now }
                ensures asked { (result.request.now ≡ request.entry.now) × (result.moment ≡ moment) }
                ensures opened { slot.new.opened ≡ slot.old.opened }
                ensures answers { AnswersRequest K.faults
                    slot.old.office request.entry.now moment result.reply slot.new.office }
            { put_request(rt, slot, request, moment) },
        );
        (pass, answer.reply)
    }

    /// The cells of these keys and of the walks from the records among them, as `Office::fetch` fetches them, in one
    /// turn.
    pub fn look<R: Threads + Wait + Sync>(
        &self,
        rt: &R,
        pass: Pass,
        keys: &[CellKey],
    ) -> (Pass, Result<Fetched, NoMemory>)
        requires pass { pass.table ≡ self.now.table }
        ensures { Looks pass keys.now result.1 result.0 }
    {
        let (pass, looked) = self.turnstile.enter(
            rt,
            pass,
            |slot: &mut Slot<K>| -> Looked
                ensures same { slot.new ≡ slot.old }
                ensures legal { Legal slot.old.office.office }
                ensures cells { Fetches slot.old.office.office keys.entry.now result.fetched }
            { fetch_cells(slot, keys) },
        );
        (pass, looked.fetched)
    }

    // A plan of an upload, judged outside any turn by the cells of one look. There is none if the body can't be read,
    // if the look lacks a cell, or if memory runs out.
    fn plan<R: Threads + Wait + Sync>(
        &self,
        rt: &R,
        pass: Pass,
        call: &Call,
        moment: Moment,
    ) -> (Pass, Option<Plan>)
        requires pass { pass.table ≡ self.now.table }
        ensures sees { SeesMore pass result.0 }
        ensures plan { IfSome result.1 (IsPlanOf call.now) }
    {
        let Some(items) = items_of(rt, self.alloc, call) else {
            return (pass, None);
        };
        let Ok(keys) = keys_of(self.alloc, items.as_slice()) else {
            return (pass, None);
        };
        let (pass, fetched) = self.look(rt, pass, keys.as_slice());
        let plan = match fetched {
            Ok(fetched) => plan_of(self.alloc, &fetched, call, items.as_slice(), moment),
            Err(NoMemory) => None,
        };
        (pass, plan)
    }

    /// Puts an upload to the office. Its body is read and its items are judged ahead, outside any turn, by the cells of
    /// one look. Then the gate lets it pass, with the number of items that were accepted ahead, and it is settled in
    /// one turn. If the office has changed so that the result is another one, it is judged again in that turn.
    pub fn submit<G: Gate, R: Threads + Wait + Sync>(
        &self,
        rt: &R,
        pass: Pass,
        call: &Call,
        moment: Moment,
        gate: &G,
    ) -> (Pass, Reply)
        requires pass { pass.table ≡ self.now.table }
        requires numbered { IsUploadNumber call.now.number }
        ensures { Turn pass (Upload call.now) moment result.1 result.0 }
    {
        let (pass, plan) = self.plan(rt, pass, call, moment);
        gate.between(&call.office.text(), call.number, accepted_ahead(&plan));
        let (pass, settled) = self.turnstile.enter(
            rt,
            pass,
            |slot: &mut Slot<K>| -> Settled<'_>
                requires { IsSync R.row × IsUploadNumber call.now.number × IfSome plan (IsPlanOf call.now) }
                ensures asked { (result.call.now ≡ call.entry.now) × (result.moment ≡ moment) }
                ensures opened { slot.new.opened ≡ slot.old.opened }
                ensures answers { AnswersRequest K.faults
                    slot.old.office (Upload call.entry.now) moment result.reply slot.new.office }
            { settle_call(rt, slot, call, plan, moment) },
        );
        (pass, settled.reply)
    }

    /// Puts any request to the office: an upload is submitted, and any other request is put by `ask`.
    pub fn put<G: Gate, R: Threads + Wait + Sync>(
        &self,
        rt: &R,
        pass: Pass,
        request: &Request,
        moment: Moment,
        gate: &G,
    ) -> (Pass, Reply)
        requires pass { pass.table ≡ self.now.table }
        requires numbered { HasNumberInRange request.now }
        ensures { Turn pass request.now moment result.1 result.0 }
    {
        match request {
            Request::Upload(call) => self.submit(rt, pass, call, moment, gate),
            _ => self.ask(rt, pass, request, moment),
        }
    }

    /// Two passes meet: what each had seen is a front of the longer of the two histories, which both have seen
    /// afterwards.
    pub fn meet<R: Threads + Wait + Sync>(&self, rt: &R, first: Pass, second: Pass) -> (Pass, Pass)
        requires first { first.table ≡ self.now.table }
        requires second { second.table ≡ self.now.table }
        requires legal { Legal (seen_by first) × Legal (seen_by second) }
        ensures first { result.0 ≡ with_seen first (longer first.seen second.seen) }
        ensures second { result.1 ≡ with_seen second (longer first.seen second.seen) }
        ensures fronts { AreFronts first.seen second.seen (longer first.seen second.seen) }
        ensures legal { Legal (seen_by result.0) × Legal (seen_by result.1) }
    {
        self.turnstile.meet(rt, first, second)
    }

    /// The office, after the last turn. The argument has all passes of the hall.
    pub fn close(self, passes: Vec<Pass>) -> Office<K>
        requires passes { AreOf self.table passes.items }
        requires all { HaveAll self.passes passes.items }
        ensures closes { Closes self.office.office (K.faults self.office.keeper) passes.items
            result.office (K.faults result.keeper) }
        ensures kept { Keeps (K.tables result.keeper) result.office }
        ensures untold { StaysUntold (K.tables self.office.keeper) (K.tables result.keeper) }
    {
        let Hall { turnstile, .. } = self;
        let office = office_in(turnstile.close(passes));
        // A step of the proof: the history of an office is legal, and its keeper has its tables.
        let _limits = office.limits();
        office
    }
}

// How many items of an upload were accepted ahead, if it was judged ahead.
fn accepted_ahead(plan: &Option<Plan>) -> Option<u32> {
    match plan {
        Some(plan) => Some(accepted_items(plan)),
        None => None,
    }
}
