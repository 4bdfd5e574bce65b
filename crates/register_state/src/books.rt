//! The books of a register: its limits, its ledger and its table. They don't change while a request is decided.
ghost use Rattle.std.specs.Prelude.{◌≡◌, take, IfOk};
ghost use Rattle.lei_shapes.specs.Moment.{IsMoment};
ghost use Rattle.lei_records.specs.Tables.{cells_of};
ghost use Rattle.fetched_cells.specs.Fetching.{HasJust, fetched_keys};
ghost use Rattle.fetched_cells.specs.Maps.{fetched_view};
ghost use Rattle.upload_ledger.specs.Limits.{AreFew};
ghost use Rattle.register_words.specs.Limits.{AreLimits};
ghost use Rattle.register_history.specs.Legal.{Legal};
ghost use Rattle.register_history.specs.Register.{after};
ghost use Rattle.register_history.specs.Replies.{is_full, is_too_much, terms_by};
ghost use Rattle.register_history.specs.State.{new_office};

use crate::entries::stamp;
use fetched_cells::Fetched;
use lei_records::CellKey;
use lei_shapes::Moment;
use lei_values::{KeptEntry, NoMemory};
use register_history::EntryTerms;
use register_table::Table;
use register_words::Limits;
use std::alloc::Global;
use std::marker::Model;
use upload_ledger::Ledger;

// The most cells that one call fetches. This project's profile.
const MOST_FETCHED: u32 = 50_000;

/// The limits and the ledger of a register, and the table that the ledger's entries leave.
#[derive(Drop)]
pub struct Books {
    pub alloc: Global,
    pub limits: Limits,
    pub ledger: Ledger,
    pub table: Table,
}

impl Model for Books {
    ghost use Rattle.register_history.specs.State.{OfficeState, office_of};
    ghost use Rattle.register_state.specs.Books.{AreBooks};

    ghost Value = { OfficeState };

    ghost view = { λ b. office_of b.limits b.ledger.entries };

    ghost invariant = { λ b. AreBooks b.limits b.ledger.entries b.table };
}

impl Books {
    // Books without entries.
    pub fn new(alloc: Global, limits: Limits) -> Result<Self, NoMemory>
        requires { AreLimits limits }
        ensures { IfOk result (λ books. books ≡ new_office limits) }
    {
        let ledger = Ledger::new(alloc)?;
        let table = Table::new(alloc)?;
        Ok(Books {
            alloc,
            limits,
            ledger,
            table,
        })
    }

    // The limits on what is taken.
    pub fn limits(&self) -> Limits
        ensures value { result ≡ self.now.limits }
        ensures limits { AreLimits result }
        ensures legal { Legal self.now }
    {
        self.limits
    }

    // The entries that were taken.
    pub fn entries(&self) -> &[KeptEntry]
        ensures value { result.now ≡ self.now.history }
        ensures few { AreFew self.now.history }
        ensures legal { Legal self.now }
    {
        let _ = self.ledger.totals();
        self.ledger.entries()
    }

    // The terms of the next entry by these rules. Its moment is the later of the clock's moment and the last entry's.
    pub fn terms(&self, rules: u16, moment: Moment) -> EntryTerms
        ensures terms { result ≡ terms_by rules self.now.history moment }
        ensures moment { IsMoment moment }
        ensures legal { Legal self.now }
    {
        EntryTerms {
            rules,
            moment: moment_of(stamp(self.ledger.entries(), moment)),
        }
    }

    // The cells of these keys, and those of the walks from the records among them.
    pub fn fetch(&self, keys: &[CellKey]) -> Result<Fetched, NoMemory>
        ensures cells { IfOk result (λ fetched. HasJust (fetched_view fetched)
            (cells_of (after self.now.limits self.now.history))
            (take 50_000 (fetched_keys (cells_of (after self.now.limits self.now.history)) keys.now))) }
        ensures legal { Legal self.now }
    {
        self.table.fetch(keys, MOST_FETCHED)
    }

    // Whether the number of entries has reached the limit.
    pub fn is_full(&self) -> bool
        ensures value { result ≡ is_full self.now }
        ensures few { AreFew self.now.history }
    {
        self.ledger.totals().entries >= self.limits.entries
    }

    // Whether this body would bring the bodies that are kept to more bytes than the limit.
    pub fn is_too_much(&self, body: &[u8]) -> bool
        ensures { result ≡ is_too_much self.now body.now }
    {
        self.ledger.totals().kept_bytes + body.len() as u64 > self.limits.kept
    }
}

// The moment this many seconds after 1970-01-01T00:00:00Z.
fn moment_of(seconds: i64) -> Moment
    requires { IsMoment seconds }
    ensures { result ≡ seconds }
{
    match Moment::of(seconds) {
        Some(moment) => moment,
        None => unreachable!(),
    }
}
