//! A keeper over an SQLite database.
ghost use Rattle.std.specs.Prelude.{◌≡◌, Option, None, Some, IfSome, IfOk, OnOk, option_map};
ghost use Rattle.lei_values.specs.KeptTables.{AreKept, IsBatch, IsNextOf, cells_between, entries_between, last_number};
ghost use Rattle.lei_keeper.specs.Keeping.{CommitLeaves, Commits, LeavesNoMore, TablesStay};
ghost use Rattle.keeper_sqlite.specs.Keepers.{leaves_from, tables_in};

use crate::faults::{Cause, count_fault};
use crate::store::Store;
use lei_keeper::{KeepFault, Keeper};
use lei_values::{Batch, KeptCell, KeptEntry, List};
use sqlite::{Alter, Connection, File, FileStore};
use std::alloc::Global;
use std::marker::Model;

/// A keeper over an SQLite database, by its tables `entry` and `cell2`. A store of form 1, whose cells are in the table
/// `cell`, is moved to form 2 by the first call. The keeper tells its entries and cells, field by field, between its
/// calls, while the database is open and its disk is clean. It does so only if the connection told them when the keeper
/// adopted it. Then the connection had no table yet, or tables of this keeper and nothing else. The rows in them were
/// entries and cells of one form alone. A call fails if the database couldn't be opened, has any other schema or
/// neither form, or fails or refuses a statement. It also fails if a stored value doesn't fit its field, such as a kind
/// above 255 or a negative number. Contracts see the connection, what it was when it was adopted, and the number of
/// calls that have failed.
#[derive(Drop)]
pub struct SqliteKeeper<S: Alter> {
    // `None` if the file couldn't be opened.
    store: Option<Store<S>>,
    faults: u64,
}

impl<S: Alter> Model for SqliteKeeper<S> {
    ghost use Rattle.keeper_sqlite.specs.Keepers.{SqliteKeeperState, keeper_code};

    ghost Value = { SqliteKeeperState S };

    ghost coded = { keeper_code S.code };

    ghost view = { λ k. record { store = k.store; faults = k.faults } };
}

impl SqliteKeeper<FileStore<File>> {
    /// A keeper over the file at this path, which is made if there is none. SQLite also keeps a second file, with the
    /// same name followed by `-wal`, and the two belong together. No other program may have the file open meanwhile. If
    /// it can't be opened, each call fails. Nothing is known of what a real file holds, so the keeper need not tell it.
    pub fn on_file(rt: &HostRuntime, path: &str) -> SqliteKeeper<FileStore<File>>
        ensures { result.faults ≡ 0 }
    {
        match Connection::open(rt, path) {
            Ok(conn) => SqliteKeeper::over(rt.alloc(), conn),
            Err(_) => SqliteKeeper {
                store: None,
                faults: 0,
            },
        }
    }
}

impl<S: Alter> SqliteKeeper<S> {
    /// A keeper over a connection, which it adopts as it is. Missing tables are made at the first call.
    pub fn over(alloc: Global, connection: Connection<S>) -> SqliteKeeper<S>
        ensures { result ≡ record
            { store = Some (record { conn = connection; adopted = connection }); faults = 0 } }
    {
        SqliteKeeper {
            store: Some(Store::new(alloc, connection)),
            faults: 0,
        }
    }

    /// The connection, returned to the caller, or `None` if the file couldn't be opened.
    pub fn into_connection(self) -> Option<Connection<S>>
        ensures { result ≡ option_map (λ s. s.conn) self.store }
    {
        let SqliteKeeper { store, .. } = self;
        match store {
            Some(store) => Some(store.into_connection()),
            None => None,
        }
    }

    /// Why the last call failed. After a call that didn't fail, and before the first one, it has no meaning.
    pub fn cause(&self) -> Cause
        ensures { self.now.store ≡ None → result ≡ Cause.Unopened }
    {
        match &self.store {
            Some(store) => store.cause(),
            None => Cause::Unopened,
        }
    }

    /// How many calls have failed. It stops at `u64::MAX`.
    pub fn faults(&self) -> u64
        ensures { result ≡ self.now.faults }
    {
        self.faults
    }
}

// The calls on a store that may be absent, in which case each fails.
fn last_of<S: Alter>(store: &mut Option<Store<S>>) -> Result<u64, KeepFault>
    ensures answer { IfSome (tables_in S.Store store.new)
        (λ told. IfOk result (λ number. number ≡ last_number told)) }
    ensures kept { OnOk result (IfSome (tables_in S.Store store.new) AreKept) }
    ensures same { TablesStay (tables_in S.Store store.old) (tables_in S.Store store.new) }
    ensures crash { LeavesNoMore (leaves_from S.Store store.old) (leaves_from S.Store store.new) }
{
    match store {
        Some(store) => store.last(),
        None => Err(KeepFault::Failed),
    }
}

fn entries_of<S: Alter>(
    store: &mut Option<Store<S>>,
    after: u64,
    upto: u64,
) -> Result<List<KeptEntry>, KeepFault>
    ensures answer { IfSome (tables_in S.Store store.new)
        (λ told. IfOk result (λ list. list ≡ entries_between after upto told)) }
    ensures same { TablesStay (tables_in S.Store store.old) (tables_in S.Store store.new) }
    ensures crash { LeavesNoMore (leaves_from S.Store store.old) (leaves_from S.Store store.new) }
{
    match store {
        Some(store) => store.entries(after, upto),
        None => Err(KeepFault::Failed),
    }
}

fn cells_of<S: Alter>(
    store: &mut Option<Store<S>>,
    after: u64,
    upto: u64,
) -> Result<List<KeptCell>, KeepFault>
    ensures answer { IfSome (tables_in S.Store store.new)
        (λ told. IfOk result (λ list. list ≡ cells_between after upto told)) }
    ensures same { TablesStay (tables_in S.Store store.old) (tables_in S.Store store.new) }
    ensures crash { LeavesNoMore (leaves_from S.Store store.old) (leaves_from S.Store store.new) }
{
    match store {
        Some(store) => store.cells(after, upto),
        None => Err(KeepFault::Failed),
    }
}

fn commit_in<S: Alter>(store: &mut Option<Store<S>>, batch: &Batch) -> Result<(), KeepFault>
    requires batch { IsBatch batch.now }
    requires next { IsNextOf (tables_in S.Store store.old) batch.now }
    ensures tables { Commits batch.now result (tables_in S.Store store.old) (tables_in S.Store store.new) }
    ensures crash { CommitLeaves batch.now result (tables_in S.Store store.old) (tables_in S.Store store.new)
        (leaves_from S.Store store.old) (leaves_from S.Store store.new) }
{
    match store {
        Some(store) => store.commit(batch),
        None => Err(KeepFault::Failed),
    }
}

impl<S: Alter> Keeper for SqliteKeeper<S> {
    ghost use Rattle.keeper_sqlite.specs.Keepers.{leaves_from, may_stay, tables_in};

    ghost tables = { λ k. tables_in S.Store k.store };

    ghost faults = { λ k. k.faults };

    ghost leaves = { λ k. leaves_from S.Store k.store };

    ghost may_stay = { λ k. may_stay
        (record {
          view = S.Store.view;
          faults = S.Store.faults;
          recovers = S.Store.recovers;
          is_shielded =
              S.Store.is_shielded;
          is_step = S.Store.is_step;
          blamed = S.Store.blamed;
          names = S.Store.names;
        })
        k.store };

    fn last(&mut self) -> Result<u64, KeepFault> {
        let answer = last_of(&mut self.store);
        count_fault(&mut self.faults, answer)
    }

    fn entries(&mut self, after: u64, upto: u64) -> Result<List<KeptEntry>, KeepFault> {
        let answer = entries_of(&mut self.store, after, upto);
        count_fault(&mut self.faults, answer)
    }

    fn cells(&mut self, after: u64, upto: u64) -> Result<List<KeptCell>, KeepFault> {
        let answer = cells_of(&mut self.store, after, upto);
        count_fault(&mut self.faults, answer)
    }

    fn commit(&mut self, batch: &Batch) -> Result<(), KeepFault> {
        let answer = commit_in(&mut self.store, batch);
        count_fault(&mut self.faults, answer)
    }
}
