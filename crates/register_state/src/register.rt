//! The register: it answers requests, and keeps the entries that it adds.
ghost use Rattle.std.specs.Prelude.{◌≡◌, ◌≤◌, take, IfOk, IfSome, IsErrOf, IsSome, IsTrue, OnErr, Some};
ghost use Rattle.lei_values.specs.Count.{Rose};
ghost use Rattle.lei_records.specs.Tables.{cells_of};
ghost use Rattle.fetched_cells.specs.Fetching.{HasJust, fetched_keys};
ghost use Rattle.fetched_cells.specs.Maps.{fetched_view};
ghost use Rattle.upload_ledger.specs.Limits.{AreFew};
ghost use Rattle.register_words.specs.declared.reply.Refusal.TheVariants.{KeeperFault};
ghost use Rattle.register_words.specs.declared.reply.Reply.TheVariants.{Words};
ghost use Rattle.register_words.specs.Limits.{AreLimits};
ghost use Rattle.register_words.specs.Requests.{HasNumberInRange, IsUploadNumber};
ghost use Rattle.register_words.specs.declared.request.Request.TheVariants.{Upload};
ghost use Rattle.register_history.specs.Kept.{Keeps, StaysUntold};
ghost use Rattle.register_history.specs.Legal.{Legal, rules_may_follow};
ghost use Rattle.register_history.specs.Register.{after, held_after};
ghost use Rattle.register_history.specs.Replies.{Step};
ghost use Rattle.register_history.specs.State.{new_office};
ghost use Rattle.register_history.specs.Touching.{AreCellsTouched};
ghost use Rattle.register_state.specs.Crashes.{CrashStays};
ghost use Rattle.register_state.specs.Deciding.{reply_or};
ghost use Rattle.register_state.specs.Planning.{IsPlanOf};
ghost use Rattle.register_state.specs.Replaying.{ReplaysRequest};
ghost use Rattle.register_state.specs.Shelving.{back_to};

use crate::books::Books;
use crate::decision::Decision;
use crate::entries::RULES;
use fetched_cells::Fetched;
use golden_shelf::Shelf;
use lei_keeper::{KeepFault, Keeper};
use lei_records::CellKey;
use lei_shapes::Moment;
use lei_values::{KeptCell, KeptEntry, List, NoMemory};
use register_judge::Plan;
use register_words::{Call, Limits, Reply, Request};
use std::alloc::Global;
use std::marker::Model;
use std::thread::Threads;
use upload_format::Reader;
use upload_ledger::PUBLISH;

/// A register in memory. Contracts see it as its limits with its history, the list of the entries that it took.
#[derive(Drop)]
pub struct Register {
    books: Books,
    shelf: Shelf,
    reader: Reader,
}

impl Model for Register {
    ghost use Rattle.register_history.specs.State.{OfficeState};
    ghost use Rattle.register_state.specs.Shelving.{IsShelved};

    ghost Value = { OfficeState };

    ghost view = { λ r. r.books };

    ghost invariant = { λ r. IsShelved r.books r.shelf.now };
}

impl Register {
    /// A register without entries.
    pub fn new(alloc: Global, limits: Limits) -> Result<Self, NoMemory>
        requires { AreLimits limits }
        ensures { IfOk result (λ register. register ≡ new_office limits) }
    {
        let books = Books::new(alloc, limits)?;
        let shelf = Shelf::new(alloc)?;
        let reader = Reader::new(alloc);
        Ok(Register {
            books,
            shelf,
            reader,
        })
    }

    /// The limits on what it takes. No call changes them.
    pub fn limits(&self) -> Limits
        ensures value { result ≡ self.now.limits }
        ensures limits { AreLimits result }
        ensures legal { Legal self.now }
    {
        self.books.limits()
    }

    /// The entries that it took, in order.
    pub fn entries(&self) -> &[KeptEntry]
        ensures value { result.now ≡ self.now.history }
        ensures few { AreFew self.now.history }
        ensures legal { Legal self.now }
    {
        self.books.entries()
    }

    /// The cells, as they are kept, that were last touched by entries with numbers greater than `after` and at most
    /// `upto`.
    pub fn touched_cells(&self, after: u64, upto: u64) -> Result<List<KeptCell>, NoMemory>
        ensures { IfOk result (AreCellsTouched after upto (held_after self.now.limits self.now.history)) }
    {
        self.books.touched_cells(after, upto)
    }

    /// The cells of these keys and, for each record among them, those of the walks from it (`Table::fetch`), at most
    /// 50,000 in all. This project's profile.
    pub fn fetch(&self, keys: &[CellKey]) -> Result<Fetched, NoMemory>
        ensures cells { IfOk result (λ fetched. HasJust (fetched_view fetched)
            (cells_of (after self.now.limits self.now.history))
            (take 50_000 (fetched_keys (cells_of (after self.now.limits self.now.history)) keys.now))) }
        ensures legal { Legal self.now }
    {
        self.books.fetch(keys)
    }

    /// Answers a request that came at this moment. An entry that is added is kept before the request is answered. `Err`
    /// says why there is no reply: the keeper failed, or memory ran out.
    pub fn answer<K: Keeper, R: Threads + Sync>(
        &mut self,
        rt: &R,
        keeper: &mut K,
        request: &Request,
        moment: Moment,
    ) -> Result<Reply, KeepFault>
        requires numbered { HasNumberInRange request.now }
        requires kept { Keeps (K.tables keeper.old) self.old }
        ensures step { Step self.old request.now moment (reply_or result) self.new }
        ensures legal { Legal self.new }
        ensures kept { Keeps (K.tables keeper.new) self.new }
        ensures untold { StaysUntold (K.tables keeper.old) (K.tables keeper.new) }
        ensures crash { CrashStays self.old self.new (K.tables keeper.new) (K.leaves keeper.old)
            (K.leaves keeper.new) }
        ensures reply { IfOk result (λ reply. ¬ (reply ≡ Words KeeperFault)) }
        ensures count { K.faults keeper.old ≤ K.faults keeper.new }
        ensures faultless { ¬ (IsErrOf result KeepFault.Failed) → K.faults keeper.new ≡ K.faults keeper.old }
        ensures failed { IsErrOf result KeepFault.Failed → Rose (K.faults keeper.old) (K.faults keeper.new) }
    {
        let terms = self.books.terms(RULES, moment);
        match self
            .books
            .decide(rt, &mut self.shelf, &mut self.reader, request, &terms)
        {
            Ok(Decision::Stays(reply)) => Ok(reply),
            Ok(Decision::Adds(entry, writes)) => {
                let publishes = entry.kind == PUBLISH;
                match self.books.add(keeper, entry, &writes) {
                    Ok(reply) => Ok(reply),
                    Err(fault) => {
                        take_back(&mut self.shelf, publishes);
                        Err(fault)
                    }
                }
            }
            Err(NoMemory) => Err(KeepFault::NoMemory),
        }
    }

    /// Answers an upload that came at this moment, as `answer` answers the same request, with or without a plan of it.
    /// A plan is used if it is for this day, if the table agrees with what it has read, and if its new records fit.
    /// Then the body isn't read and its items aren't judged. Nothing has to be copied for that.
    pub fn settle<K: Keeper, R: Threads + Sync>(
        &mut self,
        rt: &R,
        keeper: &mut K,
        call: &Call,
        plan: Option<Plan>,
        moment: Moment,
    ) -> Result<Reply, KeepFault>
        requires numbered { IsUploadNumber call.now.number }
        requires plan { IfSome plan (IsPlanOf call.now) }
        requires kept { Keeps (K.tables keeper.old) self.old }
        ensures step { Step self.old (Upload call.now) moment (reply_or result) self.new }
        ensures legal { Legal self.new }
        ensures kept { Keeps (K.tables keeper.new) self.new }
        ensures untold { StaysUntold (K.tables keeper.old) (K.tables keeper.new) }
        ensures crash { CrashStays self.old self.new (K.tables keeper.new) (K.leaves keeper.old)
            (K.leaves keeper.new) }
        ensures reply { IfOk result (λ reply. ¬ (reply ≡ Words KeeperFault)) }
        ensures count { K.faults keeper.old ≤ K.faults keeper.new }
        ensures faultless { ¬ (IsErrOf result KeepFault.Failed) → K.faults keeper.new ≡ K.faults keeper.old }
        ensures failed { IsErrOf result KeepFault.Failed → Rose (K.faults keeper.old) (K.faults keeper.new) }
    {
        let terms = self.books.terms(RULES, moment);
        match self.books.upload(rt, &mut self.reader, call, plan, &terms) {
            Ok(Decision::Stays(reply)) => Ok(reply),
            Ok(Decision::Adds(entry, writes)) => match self.books.add(keeper, entry, &writes) {
                Ok(reply) => Ok(reply),
                Err(fault) => Err(fault),
            },
            Err(NoMemory) => Err(KeepFault::NoMemory),
        }
    }

    /// Adds a stored entry, if its request adds the same one by the entry's own rules and at its own moment. Otherwise
    /// it returns what the request leads to instead, and adds nothing.
    pub fn replay<R: Threads + Sync>(
        &mut self,
        rt: &R,
        request: &Request,
        moment: Moment,
        stored: &KeptEntry,
    ) -> Result<Option<Decision>, NoMemory>
        requires numbered { HasNumberInRange request.now }
        requires moment { moment ≡ stored.now.moment }
        requires follows { IsTrue (rules_may_follow self.old.history stored.now.rules) }
        ensures replays { IfOk result (ReplaysRequest self.old request.now stored.now self.new) }
        ensures stays { OnErr result (self.new ≡ self.old) }
    {
        let terms = self.books.terms(stored.rules, moment);
        match self
            .books
            .decide(rt, &mut self.shelf, &mut self.reader, request, &terms)
        {
            Ok(Decision::Stays(reply)) => Ok(Some(Decision::Stays(reply))),
            Ok(Decision::Adds(entry, writes)) => {
                let publishes = entry.kind == PUBLISH;
                if !is_same(&entry, stored) {
                    take_back(&mut self.shelf, publishes);
                    return Ok(Some(Decision::Adds(entry, writes)));
                }
                match self.books.add_kept(entry, &writes) {
                    Ok(()) => Ok(None),
                    Err(NoMemory) => {
                        take_back(&mut self.shelf, publishes);
                        Err(NoMemory)
                    }
                }
            }
            Err(NoMemory) => Err(NoMemory),
        }
    }
}

// Whether two entries are the same.
fn is_same(entry: &KeptEntry, other: &KeptEntry) -> bool
    ensures same { IsTrue result → entry.now ≡ other.now }
    ensures apart { entry.now ≡ other.now → IsTrue result }
{
    entry == other
}

// Undoes a publication on the shelf if it was made for an entry that isn't added.
fn take_back(shelf: &mut Shelf, publishes: bool)
    requires { IsSome (back_to publishes shelf.old) }
    ensures { Some shelf.new.now ≡ back_to publishes shelf.old }
{
    if publishes {
        shelf.undo();
    }
}
