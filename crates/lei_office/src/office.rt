//! An office: a register that serves one caller at a time, with its keeper.
ghost use Rattle.std.specs.Prelude.{◌≡◌, ◌≤◌, Some, take, IfErr, IfOk, IfSome, option_map};
ghost use Rattle.lei_shapes.specs.Moment.{IsMoment};
ghost use Rattle.lei_values.specs.Count.{Rose};
ghost use Rattle.lei_keeper.specs.Keeping.{LeavesNoMore, TablesStay};
ghost use Rattle.lei_records.specs.Tables.{IsSoundTable, cells_of};
ghost use Rattle.fetched_cells.specs.Fetching.{HasJust, fetched_keys};
ghost use Rattle.fetched_cells.specs.Maps.{fetched_view};
ghost use Rattle.successor_rules.specs.Successors.{SuccessorChainsEnd};
ghost use Rattle.relation_rules.specs.Parents.{ExceptionsExcludeParents, ParentChainsEnd};
ghost use Rattle.upload_ledger.specs.History.{last_entry};
ghost use Rattle.register_words.specs.declared.reply.Refusal.TheVariants.{KeeperFault};
ghost use Rattle.register_words.specs.declared.reply.Reply.TheVariants.{Words};
ghost use Rattle.register_words.specs.Requests.{HasNumberInRange, IsUploadNumber};
ghost use Rattle.register_words.specs.declared.request.Request.TheVariants.{Upload};
ghost use Rattle.register_words.specs.Limits.{AreLimits};
ghost use Rattle.register_history.specs.Kept.{Keeps, StaysUntold};
ghost use Rattle.register_history.specs.Legal.{Legal, MomentsNeverFall, UploadsAreNumbered};
ghost use Rattle.register_history.specs.Parties.{ChangesArePermitted};
ghost use Rattle.register_history.specs.Register.{after};
ghost use Rattle.register_history.specs.Replies.{Step};
ghost use Rattle.register_state.specs.Crashes.{CrashStays};
ghost use Rattle.register_state.specs.Deciding.{reply_or};
ghost use Rattle.register_state.specs.Planning.{IsPlanOf};
ghost use Rattle.lei_office.specs.Offices.{FaultRose, IsRefused, keeper_back};

use crate::opening::{Found, OpenFault, read_store};
use fetched_cells::Fetched;
use lei_keeper::{KeepFault, Keeper};
use lei_records::CellKey;
use lei_shapes::Moment;
use lei_values::{KeptEntry, NoMemory};
use register_judge::Plan;
use register_state::Register;
use register_words::{Call, Limits, Refusal, Reply, Request};
use std::alloc::Global;
use std::marker::Model;
use std::thread::Threads;

/// A register that serves one caller at a time, with a keeper of what it takes. Contracts see it as its keeper and its
/// limits with its history, the list of the entries that it took.
#[derive(Drop)]
pub struct Office<K: Keeper> {
    register: Register,
    keeper: K,
}

impl<K: Keeper> Model for Office<K> {
    ghost use Rattle.register_history.specs.Kept.{Keeps};
    ghost use Rattle.register_history.specs.Legal.{Legal};
    ghost use Rattle.lei_office.specs.Offices.{KeptOffice};

    ghost Value = { KeptOffice K };

    ghost view = { λ o. record { office = o.register; keeper = o.keeper } };

    ghost invariant = { λ o. Legal o.register × Keeps (K.tables o.keeper) o.register };
}

impl<K: Keeper> Office<K> {
    /// Opens an office over what a keeper has kept, which has to be what a history leaves under these limits. The
    /// entries are read and replayed, and then the cells are compared, in pages of 16 entries. If the office can't be
    /// opened, the error returns the keeper.
    pub fn open<R: Threads + Sync>(
        rt: &R,
        alloc: Global,
        mut keeper: K,
        limits: Limits,
    ) -> Result<Self, OpenFault<K>>
        requires limits { AreLimits limits }
        ensures limits { IfOk result (λ opened. opened.office.limits ≡ limits) }
        ensures legal { IfOk result (λ opened. Legal opened.office) }
        ensures sound { IfOk result
            (λ opened. IsSoundTable (after opened.office.limits opened.office.history)) }
        ensures chained { IfOk result
            (λ opened. SuccessorChainsEnd (after opened.office.limits opened.office.history)) }
        ensures parents { IfOk result
            (λ opened. ParentChainsEnd (after opened.office.limits opened.office.history)) }
        ensures apart { IfOk result
            (λ opened. ExceptionsExcludeParents (after opened.office.limits opened.office.history)) }
        ensures permitted { IfOk result (λ opened. ChangesArePermitted opened.office) }
        ensures moments { IfOk result (λ opened. MomentsNeverFall opened.office.history) }
        ensures uploads { IfOk result (λ opened. UploadsAreNumbered opened.office.history) }
        ensures kept { IfOk result (λ opened. Keeps (K.tables opened.keeper) opened.office) }
        ensures same { IfOk result (λ opened. TablesStay (K.tables keeper) (K.tables opened.keeper)) }
        ensures crash { IfOk result (λ opened. LeavesNoMore (K.leaves keeper) (K.leaves opened.keeper)) }
        ensures faultless { IfOk result (λ opened. K.faults opened.keeper ≡ K.faults keeper) }
        ensures refused { IfErr result (IsRefused limits K.tables) }
        ensures back { IfErr result (λ fault. TablesStay (K.tables keeper) (K.tables (keeper_back fault))) }
        ensures back_crash { IfErr result
            (λ fault. LeavesNoMore (K.leaves keeper) (K.leaves (keeper_back fault))) }
        ensures failed { IfErr result
            (λ fault. FaultRose (K.faults keeper) (K.faults (keeper_back fault)) fault) }
    {
        match read_store(rt, alloc, limits, &mut keeper) {
            Ok(Found::Sound(register)) => Ok(Office { register, keeper }),
            Ok(Found::Damaged(damage)) => Err(OpenFault::StoreDamaged(keeper, damage)),
            Err(KeepFault::Failed) => Err(OpenFault::KeeperFault(keeper)),
            Err(KeepFault::NoMemory) => Err(OpenFault::NoMemory(keeper)),
        }
    }

    /// The limits on what it takes. No call changes them.
    pub fn limits(&self) -> Limits
        ensures value { result ≡ self.now.office.limits }
        ensures limits { AreLimits result }
        ensures legal { Legal self.now.office }
        ensures kept { Keeps (K.tables self.now.keeper) self.now.office }
    {
        self.register.limits()
    }

    /// The moment of its last entry, if it has one.
    pub fn last_moment(&self) -> Option<Moment>
        ensures { result ≡ option_map (λ e. e.moment) (last_entry self.now.office.history) }
    {
        let entry = self.register.entries().last()?;
        moment_of(entry)
    }

    /// Returns the keeper, with all that was taken.
    pub fn close(self) -> K
        ensures keeper { result ≡ self.keeper }
        ensures kept { Keeps (K.tables result) self.office }
        ensures legal { Legal self.office }
    {
        self.keeper
    }

    /// Answers a request that came at this moment, by one step of the history. An entry that is added has this moment,
    /// or that of the last entry if that is later. It is kept before the request is answered. A repeat of an upload
    /// gets the answer that was kept.
    pub fn answer<R: Threads + Sync>(&mut self, rt: &R, request: &Request, moment: Moment) -> Reply
        requires { HasNumberInRange request.now }
        ensures step { Step self.old.office request.now moment result self.new.office }
        ensures kept { Keeps (K.tables self.new.keeper) self.new.office }
        ensures untold { StaysUntold (K.tables self.old.keeper) (K.tables self.new.keeper) }
        ensures crash { CrashStays self.old.office self.new.office (K.tables self.new.keeper)
            (K.leaves self.old.keeper)
            (K.leaves self.new.keeper) }
        ensures count { K.faults self.old.keeper ≤ K.faults self.new.keeper }
        ensures faultless { ¬ (result ≡ Words KeeperFault)
            → K.faults self.new.keeper ≡ K.faults self.old.keeper }
        ensures fault { result ≡ Words KeeperFault
            → Rose (K.faults self.old.keeper) (K.faults self.new.keeper) }
        ensures legal { Legal self.new.office }
        ensures sound { IsSoundTable (after self.new.office.limits self.new.office.history) }
        ensures chained { SuccessorChainsEnd (after self.new.office.limits self.new.office.history) }
        ensures parents { ParentChainsEnd (after self.new.office.limits self.new.office.history) }
        ensures apart { ExceptionsExcludeParents (after self.new.office.limits self.new.office.history) }
        ensures permitted { ChangesArePermitted self.new.office }
        ensures moments { MomentsNeverFall self.new.office.history }
        ensures uploads { UploadsAreNumbered self.new.office.history }
    {
        reply_or(self.register.answer(rt, &mut self.keeper, request, moment))
    }

    /// The cells of these keys and, for each record among them, those of two walks. The first visits the first 201
    /// different LEIs of its levels of successors, level by level and in byte order within a level. The second visits
    /// the direct parents from the record on, up to 200 members. Of all these cells the first 50,000 are
    /// fetched, and one that comes twice counts twice. This project's profile.
    pub fn fetch(&self, keys: &[CellKey]) -> Result<Fetched, NoMemory>
        ensures cells { IfOk result (λ fetched. HasJust (fetched_view fetched)
            (cells_of (after self.now.office.limits self.now.office.history)) (take 50_000
            (fetched_keys (cells_of (after self.now.office.limits self.now.office.history)) keys.now))) }
        ensures legal { Legal self.now.office }
    {
        self.register.fetch(keys)
    }

    /// Answers an upload that came at this moment, as `answer` answers the same request. There may be a plan of it,
    /// which may be stale. A plan is used if it is for this day, if the register agrees with what it has read, and if
    /// its new records fit. The upload is borrowed, and nothing of it is copied except what is kept.
    pub fn settle<R: Threads + Sync>(
        &mut self,
        rt: &R,
        call: &Call,
        plan: Option<Plan>,
        moment: Moment,
    ) -> Reply
        requires numbered { IsUploadNumber call.now.number }
        requires plan { IfSome plan (IsPlanOf call.now) }
        ensures step { Step self.old.office (Upload call.now) moment result self.new.office }
        ensures kept { Keeps (K.tables self.new.keeper) self.new.office }
        ensures untold { StaysUntold (K.tables self.old.keeper) (K.tables self.new.keeper) }
        ensures crash { CrashStays self.old.office self.new.office (K.tables self.new.keeper)
            (K.leaves self.old.keeper)
            (K.leaves self.new.keeper) }
        ensures count { K.faults self.old.keeper ≤ K.faults self.new.keeper }
        ensures faultless { ¬ (result ≡ Words KeeperFault)
            → K.faults self.new.keeper ≡ K.faults self.old.keeper }
        ensures fault { result ≡ Words KeeperFault
            → Rose (K.faults self.old.keeper) (K.faults self.new.keeper) }
        ensures legal { Legal self.new.office }
    {
        reply_or(
            self.register
                .settle(rt, &mut self.keeper, call, plan, moment),
        )
    }
}

// The moment of an entry, if it is in the range of moments.
fn moment_of(entry: &KeptEntry) -> Option<Moment>
    ensures { IsMoment entry.now.moment → result ≡ Some entry.now.moment }
{
    Moment::of(entry.moment)
}

// The reply, or the refusal that says why there is none.
fn reply_or(answered: Result<Reply, KeepFault>) -> Reply
    ensures { result ≡ reply_or answered }
{
    match answered {
        Ok(reply) => reply,
        Err(KeepFault::NoMemory) => Reply::Words(Refusal::NoMemory),
        Err(KeepFault::Failed) => Reply::Words(Refusal::KeeperFault),
    }
}
