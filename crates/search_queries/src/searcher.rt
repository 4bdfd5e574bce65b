//! The answerer of a search.
ghost use Rattle.std.specs.Prelude.{◌≡◌, ◌⊎◌, ◌≤◌, ◌+◌, List as Items, ℕ, length, IfOk};
ghost use Rattle.register_words.specs.declared.sheets.Sheet.{Sheet as DeclaredSheet};
ghost use Rattle.copy_forms.specs.Files.{IsCopyRead, IsDeltaRead};
ghost use Rattle.query_reading.specs.declared.refusal.QueryRefusal.TheVariants as refusals;
ghost use Rattle.query_reading.specs.declared.reply.QueryReply.TheVariants as replies;
ghost use Rattle.search_queries.specs.Searchers.{CountsDelta, IsStateOf, TakesDeltaSo, TakesSo};
ghost use Rattle.search_queries.specs.Searches.{SearchState, find_reply, state_of, take_refusal};

use crate::grammar::FindQuery;
use crate::texts::{ROWS_ROOM, found_text, rows_text};
use copy_forms::{CopyRead, DeltaRead, Form, FormFault, Sheet, read_delta};
use lei_outside::Clock;
use lei_values::NoMemory;
use name_search::{FindFault, Index, TakeFault};
use query_reading::{QueryAsked, QueryRefusal, QueryReply};
use request_loop::Answers;
use std::alloc::Global;
use std::marker::Model;
use std::sync::ledger::Ledger;
use worker_pool::Steps;

/// The answerer of a search, over an index of the copy that is held. Contracts see the form of the copy and of the
/// deltas, what the index has of the copy, and how many steps were counted.
#[derive(Drop)]
pub struct Searcher<L: Ledger> {
    alloc: Global,
    form: Form,
    index: Index,
    steps: Steps<L>,
}

impl<L: Ledger> Model for Searcher<L> {
    ghost use Rattle.search_queries.specs.Searchers.{IsNumberedIfJson, Searching};

    ghost Value = { Searching };

    ghost view = { λ s. record { form = s.form; table = s.index; steps = s.steps } };

    ghost invariant = { λ s. IsNumberedIfJson s.form s.index };
}

impl<L: Ledger> Searcher<L> {
    /// An answerer over a copy of `lei` that was read in this form. Each name is folded once, which is one step.
    pub fn open(
        alloc: Global,
        copy: &CopyRead,
        form: Form,
        steps: Steps<L>,
    ) -> Result<Self, NoMemory>
        requires read { (bytes : Items ℕ) × IsCopyRead bytes DeclaredSheet.Lei form copy.now }
        ensures state { IfOk result (λ searcher. IsStateOf (state_of copy.now) searcher.table) }
        ensures form { IfOk result (λ searcher. searcher.form ≡ form) }
        ensures steps { IfOk result (λ searcher. searcher.steps ≤ steps + length copy.now.rows) }
        ensures steps_stay { IfOk result (λ searcher. steps ≤ searcher.steps) }
    {
        let mut steps = steps;
        let index = Index::open(alloc, copy, &mut steps)?;
        Ok(Searcher {
            alloc,
            form,
            index,
            steps,
        })
    }

    // Answers FIND.
    fn find(&self, query: &FindQuery) -> QueryReply
        ensures { (state : SearchState) → IsStateOf state self.now.table
            → (result ≡ find_reply state query.now) ⊎ (result ≡ replies.Refused refusals.NoMemory) }
    {
        let page = query.page.number();
        match self.index.find(page, query.text.as_str()) {
            Ok(found) => match found_text(self.alloc, &found, page) {
                Ok(text) => QueryReply::Text(text),
                Err(NoMemory) => QueryReply::Refused(QueryRefusal::NoMemory),
            },
            Err(FindFault::NoWord) => QueryReply::Refused(QueryRefusal::NoWord),
            Err(FindFault::TooManyWords) => QueryReply::Refused(QueryRefusal::TooManyWords),
            Err(FindFault::NoMemory) => QueryReply::Refused(QueryRefusal::NoMemory),
        }
    }

    // Answers TAKE, with these bytes as the packet.
    fn take(&mut self, packet: &[u8]) -> QueryReply
        ensures form { self.new.form ≡ self.old.form }
        ensures counts { CountsDelta self.old.form packet.now self.old.steps self.new.steps }
        ensures takes { TakesSo self.old.form self.old.table packet.now result self.new.table }
    {
        match read_delta(self.alloc, packet, Sheet::Lei, self.form) {
            Ok(delta) => self.take_delta(&delta),
            Err(FormFault::NotRead) => QueryReply::Refused(QueryRefusal::DeltaNotRead),
            Err(FormFault::NoMemory) => QueryReply::Refused(QueryRefusal::NoMemory),
        }
    }

    // Takes a delta that was read. The memory for the reply is allocated first, so nothing changes if there is none.
    fn take_delta(&mut self, delta: &DeltaRead) -> QueryReply
        requires read { (packet : Items ℕ) × IsDeltaRead packet DeclaredSheet.Lei self.old.form delta.now }
        ensures form { self.new.form ≡ self.old.form }
        ensures steps { self.new.steps ≤ self.old.steps + length delta.now.changes }
        ensures steps_stay { self.old.steps ≤ self.new.steps }
        ensures takes { TakesDeltaSo self.old.table delta.now result self.new.table }
    {
        let Ok(text) = Vec::with_capacity(self.alloc, ROWS_ROOM) else {
            return QueryReply::Refused(QueryRefusal::NoMemory);
        };
        if let Err(fault) = self.index.take(delta, &mut self.steps) {
            return QueryReply::Refused(refusal_of(fault));
        }
        QueryReply::Text(rows_text(text, self.index.rows()))
    }
}

// The refusal for a delta that isn't taken.
fn refusal_of(fault: TakeFault) -> QueryRefusal
    ensures { result ≡ take_refusal fault }
{
    match fault {
        TakeFault::WrongBase(publication, from) => QueryRefusal::WrongBase(publication, from),
        TakeFault::OlderDelta => QueryRefusal::OlderDelta,
        TakeFault::NoMemory => QueryRefusal::NoMemory,
    }
}

impl<R, L: Ledger> Answers<R> for Searcher<L> {
    ghost use Rattle.search_queries.specs.Searchers.{AnswersSo};

    type Asked = QueryAsked<FindQuery, ()>;

    type Reply = QueryReply;

    ghost takes = { λ _. Unit {0} };

    ghost step = { AnswersSo };

    fn answer<C: Clock>(&mut self, _rt: &R, asked: &Self::Asked, _clock: &mut C) -> QueryReply {
        match asked {
            QueryAsked::Refuse(refusal) => QueryReply::Refused(*refusal),
            QueryAsked::Query(query) => self.find(query),
            QueryAsked::Packet(_, packet) => self.take(packet.as_slice()),
        }
    }
}
