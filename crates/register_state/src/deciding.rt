//! Decides what a request is answered and what it adds. Only the shelf changes, and only if a publication is made.
ghost use Rattle.std.specs.Prelude.{◌≡◌, ◌≤◌, ◌+◌, false, IfOk, IfSome, IsTrue};
ghost use Rattle.lei_shapes.specs.Moment.{day_of};
ghost use Rattle.lei_records.specs.RuleNumbers.{rules_of};
ghost use Rattle.lei_records.specs.Tables.{record_count, row_at};
ghost use Rattle.cell_reads.specs.Reads.{Agrees};
ghost use Rattle.upload_format.specs.Bodies.{upload as items_of};
ghost use Rattle.upload_ledger.specs.History.{accredited};
ghost use Rattle.register_words.specs.declared.request.Request.TheVariants.{Accredit, Kept, Show, Status, Upload};
ghost use Rattle.register_judge.specs.Sittings.{sitting_by};
ghost use Rattle.register_state.specs.Shelving.{IsShelved, Shelves};
ghost use Rattle.register_state.specs.Deciding.{AddsNext, Decides, GivesReply};
ghost use Rattle.register_state.specs.Planning.{IsPlanOf, IsTakenBy};
ghost use Rattle.register_history.specs.Legal.{rules_may_follow};
ghost use Rattle.register_history.specs.Replies.{accredit_outcome, body_outcome, is_full, is_too_much, json_reply, kept_outcome, newest_rules, outcome_at, show_outcome, status_outcome, upload_outcome};
ghost use Rattle.register_words.specs.Requests.{HasNumberInRange, IsUploadNumber};
ghost use Rattle.register_history.specs.Register.{after};

use crate::books::Books;
use crate::decision::{Decision, refuse};
use crate::entries::{accreditation, taken_upload};
use crate::judge::{is_usable, judge};
use crate::publishing::{copy, delta};
use answer_texts::status_text;
use golden_shelf::Shelf;
use lei_code::Lei;
use lei_records::Rules;
use lei_shapes::day_number;
use lei_values::{Bytes, List, NoMemory};
use register_history::EntryTerms;
use register_judge::{Outcome, Plan, Sitting};
use register_words::{Call, Kind, Refusal, Reply, Request};
use std::alloc::Global;
use std::thread::Threads;
use upload_format::{Reader, UploadFault};
use upload_ledger::Place;

impl Books {
    // Decides a request. An entry that is added has these rules and this moment. A publication that is made is on the
    // shelf afterwards, and can be undone.
    pub fn decide<R: Threads + Sync>(
        &self,
        rt: &R,
        shelf: &mut Shelf,
        reader: &mut Reader,
        request: &Request,
        terms: &EntryTerms,
    ) -> Result<Decision, NoMemory>
        requires numbered { HasNumberInRange request.now }
        requires first { 1 ≤ terms.now.rules }
        requires last { terms.now.rules ≤ newest_rules }
        requires follows { IsTrue (rules_may_follow self.now.history terms.now.rules) }
        requires shelf { IsShelved self.now shelf.old.now }
        ensures decides { Decides self.now request.now (outcome_at self.now request.now terms.now) result }
        ensures next { AddsNext self.now request.now result }
        ensures shelf { Shelves self.now shelf.old result shelf.new }
    {
        match request {
            Request::Accredit(issuer) => self.accredit(issuer, terms),
            Request::Upload(call) => self.upload(rt, reader, call, None, terms),
            Request::Kept(issuer, number) => Ok(Decision::Stays(self.kept_reply(issuer, *number)?)),
            Request::Publish(number) => self.publish(rt, shelf, *number, terms),
            Request::Show(lei) => Ok(Decision::Stays(self.show(lei)?)),
            Request::Copy(sheet, form) => Ok(Decision::Stays(copy(shelf, *sheet, *form)?)),
            Request::Delta(base, sheet, form) => {
                Ok(Decision::Stays(delta(shelf, *base, *sheet, *form)?))
            }
            Request::Status => Ok(Decision::Stays(self.status()?)),
        }
    }

    // Replies with the record of this LEI.
    fn show(&self, lei: &Lei) -> Result<Reply, NoMemory>
        ensures { GivesReply (Show lei.now)
            (show_outcome (row_at (after self.now.limits self.now.history) lei.now)) result }
    {
        match self.table.show(lei) {
            Some(item) => kept_reply(self.alloc, item.text(self.alloc)?.as_slice()),
            None => Ok(Reply::Words(Refusal::LeiUnknown)),
        }
    }

    // Replies with the answer that is kept for the issuer's upload of this number.
    fn kept_reply(&self, issuer: &Lei, number: u32) -> Result<Reply, NoMemory>
        ensures { GivesReply (Kept issuer.now number)
            (kept_outcome self.now.history issuer.now number) result }
    {
        if self.ledger.accredited(issuer).is_none() {
            return Ok(Reply::Words(Refusal::IssuerUnknown));
        }
        match self.ledger.kept(issuer, number) {
            Some(text) => kept_reply(self.alloc, text),
            None => Ok(Reply::Words(Refusal::NotKept)),
        }
    }

    // Replies with the numbers of what is kept and held.
    fn status(&self) -> Result<Reply, NoMemory>
        ensures { GivesReply Status (status_outcome self.now.history
            (after self.now.limits self.now.history)) result }
    {
        let text = status_text(self.alloc, self.ledger.totals(), self.table.counts())?;
        Ok(json_reply(text))
    }

    fn accredit(&self, issuer: &Lei, terms: &EntryTerms) -> Result<Decision, NoMemory>
        ensures decides { Decides self.now (Accredit issuer.now)
            (accredit_outcome self.now issuer.now terms.now (accredited self.now.history issuer.now)) result }
        ensures next { AddsNext self.now (Accredit issuer.now) result }
    {
        // A step of the proof: the issuer is named by a valid LEI.
        let _ = issuer.as_bytes();
        if let Some(text) = self.ledger.accredited(issuer) {
            return Ok(Decision::Stays(kept_reply(self.alloc, text)?));
        }
        if self.is_full() {
            return Ok(refuse(Refusal::LedgerFull));
        }
        let entry = accreditation(self.alloc, self.ledger.entries(), issuer, terms)?;
        Ok(Decision::Adds(entry, List::from(Vec::new(self.alloc))))
    }

    // Decides an upload, which may have been judged ahead of its turn.
    #[tactic(auto, unfolding(register_history::specs::Replies::upload_outcome))]
    pub fn upload<R: Threads + Sync>(
        &self,
        rt: &R,
        reader: &mut Reader,
        call: &Call,
        plan: Option<Plan>,
        terms: &EntryTerms,
    ) -> Result<Decision, NoMemory>
        requires numbered { IsUploadNumber call.now.number }
        requires plan { IfSome plan (IsPlanOf call.now) }
        requires newest { IfSome plan (λ plan. terms.now.rules ≡ newest_rules) }
        requires first { 1 ≤ terms.now.rules }
        requires last { terms.now.rules ≤ newest_rules }
        ensures decides { Decides self.now (Upload call.now)
            (upload_outcome self.now call.now terms.now) result }
        ensures next { AddsNext self.now (Upload call.now) result }
    {
        if call.body.len() as u64 > self.limits.body {
            return Ok(refuse(Refusal::TooLong));
        }
        match self
            .ledger
            .place(&call.office, call.number, call.body.as_slice())
        {
            Place::UnknownOffice => Ok(refuse(Refusal::IssuerUnknown)),
            Place::Repeat(answer) => Ok(Decision::Stays(kept_reply(self.alloc, answer)?)),
            Place::Taken => Ok(refuse(Refusal::NumberTaken)),
            Place::Ahead(next) => Ok(refuse(Refusal::NumberAhead(next))),
            Place::Fresh => self.take_fresh(rt, reader, call, plan, terms),
        }
    }

    // Takes an upload of the next number: as planned if the plan is still usable, and otherwise by reading its body.
    fn take_fresh<R: Threads + Sync>(
        &self,
        rt: &R,
        reader: &mut Reader,
        call: &Call,
        plan: Option<Plan>,
        terms: &EntryTerms,
    ) -> Result<Decision, NoMemory>
        requires numbered { IsUploadNumber call.now.number }
        requires plan { IfSome plan (IsPlanOf call.now) }
        requires newest { IfSome plan (λ plan. terms.now.rules ≡ newest_rules) }
        requires first { 1 ≤ terms.now.rules }
        requires last { terms.now.rules ≤ newest_rules }
        ensures decides { Decides self.now (Upload call.now)
            (body_outcome self.now call.now terms.now (items_of call.now.body)) result }
        ensures next { AddsNext self.now (Upload call.now) result }
    {
        if let Some(plan) = plan {
            if is_usable(
                &self.table,
                self.limits.records,
                terms.moment.seconds(),
                &plan,
            ) {
                return self.take_planned(call, plan, terms);
            }
        }
        self.take_upload(rt, reader, call, terms)
    }

    // Takes an upload as planned. Its body isn't read again.
    fn take_planned(
        &self,
        call: &Call,
        plan: Plan,
        terms: &EntryTerms,
    ) -> Result<Decision, NoMemory>
        requires numbered { IsUploadNumber call.now.number }
        requires plan { IsPlanOf call.now plan }
        requires newest { terms.now.rules ≡ newest_rules }
        requires day { plan.today ≡ day_of terms.now.moment }
        requires agrees { Agrees plan.outcome.reads (after self.now.limits self.now.history) }
        requires fits { record_count (after self.now.limits self.now.history) + plan.outcome.new_records
            ≤ self.now.limits.records }
        ensures decides { Decides self.now (Upload call.now)
            (body_outcome self.now call.now terms.now (items_of call.now.body)) result }
        ensures next { AddsNext self.now (Upload call.now) result }
    {
        // A step of the proof: the limits are in their ranges.
        let _limits = self.limits();
        if self.is_full() || self.is_too_much(call.body.as_slice()) {
            return Ok(refuse(Refusal::LedgerFull));
        }
        self.add_judged(call, plan.outcome, terms)
    }

    fn take_upload<R: Threads + Sync>(
        &self,
        rt: &R,
        reader: &mut Reader,
        call: &Call,
        terms: &EntryTerms,
    ) -> Result<Decision, NoMemory>
        requires numbered { IsUploadNumber call.now.number }
        requires first { 1 ≤ terms.now.rules }
        requires last { terms.now.rules ≤ newest_rules }
        ensures decides { Decides self.now (Upload call.now)
            (body_outcome self.now call.now terms.now (items_of call.now.body)) result }
        ensures next { AddsNext self.now (Upload call.now) result }
    {
        let items = match reader.read_ready(rt, self.alloc, terms.rules, call.body.as_slice()) {
            Ok(items) => items,
            Err(UploadFault::Malformed(fault)) => return Ok(refuse(Refusal::Malformed(fault))),
            Err(UploadFault::NoMemory) => return Err(NoMemory),
        };
        if self.is_full() || self.is_too_much(call.body.as_slice()) {
            return Ok(refuse(Refusal::LedgerFull));
        }
        let sitting = sitting(self.limits.records, call, terms);
        let judged = judge(self.alloc, &self.table, &sitting, items.as_slice())?;
        self.add_judged(call, judged, terms)
    }

    // The entry of an upload whose items were judged and for which there is room, with its writes.
    fn add_judged(
        &self,
        call: &Call,
        judged: Outcome,
        terms: &EntryTerms,
    ) -> Result<Decision, NoMemory>
        requires numbered { IsUploadNumber call.now.number }
        requires judged { IsTakenBy self.now call.now terms.now judged }
        requires entry { is_full self.now ≡ false }
        requires bytes { is_too_much self.now call.now.body ≡ false }
        ensures decides { Decides self.now (Upload call.now)
            (body_outcome self.now call.now terms.now (items_of call.now.body)) result }
        ensures next { AddsNext self.now (Upload call.now) result }
    {
        // A step of the proof: the sender is named by a valid LEI.
        let _ = call.office.as_bytes();
        let entry = taken_upload(
            self.alloc,
            self.ledger.entries(),
            call,
            terms,
            judged.verdicts.as_slice(),
        )?;
        Ok(Decision::Adds(entry, judged.writes))
    }
}

// The sitting for an upload by the rules and on the day of its entry, if the table may have this many records.
fn sitting(records: u32, call: &Call, terms: &EntryTerms) -> Sitting
    requires first { 1 ≤ terms.now.rules }
    requires last { terms.now.rules ≤ newest_rules }
    ensures { result ≡ sitting_by (rules_of terms.now.rules) records
        (day_of terms.now.moment) call.now.office }
{
    Sitting {
        rules: Rules::of(terms.rules),
        limit: records,
        today: day_number(terms.moment.seconds()),
        issuer: call.office,
    }
}

fn json_reply(text: Bytes) -> Reply
    ensures { result ≡ json_reply 200 text }
{
    Reply::Text {
        code: 200,
        kind: Kind::Json,
        text,
    }
}

// A text that is kept, as a reply.
fn kept_reply(alloc: Global, text: &[u8]) -> Result<Reply, NoMemory>
    ensures { IfOk result (λ reply. reply ≡ json_reply 200 text.now) }
{
    Ok(json_reply(Bytes::copy_of(alloc, text)?))
}
