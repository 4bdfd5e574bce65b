// A connection that a keeper adopted, and what each call of the keeper does to it.
ghost use Rattle.std.specs.Prelude.{◌≡◌, IfSome, IfOk, OnOk};
ghost use Rattle.lei_values.specs.KeptTables.{AreKept, IsBatch, IsNextOf, cells_between, entries_between, last_number};
ghost use Rattle.lei_keeper.specs.Keeping.{CommitLeaves, Commits, LeavesNoMore, TablesStay};
ghost use Rattle.keeper_sqlite.specs.Keepers.{leaves_of, tables_of};

use crate::faults::Cause;
use crate::over;
use lei_keeper::KeepFault;
use lei_values::{Batch, KeptCell, KeptEntry, List};
use sqlite::{Alter, Connection};
use std::alloc::Global;
use std::marker::Model;
use std::snapshot::Snapshot;

#[derive(Drop)]
pub struct Store<S: Alter> {
    alloc: Global,
    conn: Connection<S>,
    // The state of the connection when it was adopted, for contracts alone.
    adopted: Snapshot<Connection<S>>,
    // Why the last call failed, if it did.
    cause: Cause,
}

impl<S: Alter> Model for Store<S> {
    ghost use Rattle.sqlite.specs.Held.{state};
    ghost use Rattle.keeper_sqlite.specs.Keepers.{KeepsOn, StoreState, store_code};

    ghost Value = { StoreState S };

    ghost coded = { store_code S.code };

    ghost view = { λ s. record { conn = s.conn; adopted = s.adopted.value } };

    ghost invariant = { λ s. KeepsOn (state S.Store s.adopted.value) (state S.Store s.conn) };
}

impl<S: Alter> Store<S> {
    // Adopts a connection.
    pub fn new(alloc: Global, conn: Connection<S>) -> Self
        ensures { result ≡ record { conn = conn; adopted = conn } }
    {
        Store {
            alloc,
            adopted: Snapshot::of(&conn),
            conn,
            cause: Cause::Row,
        }
    }

    // The connection, returned to the caller.
    pub fn into_connection(self) -> Connection<S>
        ensures { result ≡ self.conn }
    {
        let Store { conn, .. } = self;
        conn
    }

    // Why the last call failed, if it did.
    pub fn cause(&self) -> Cause {
        self.cause
    }

    // The greatest number of an entry, or 0 if there is none.
    pub fn last(&mut self) -> Result<u64, KeepFault>
        ensures answer { IfSome (tables_of S.Store self.new)
            (λ told. IfOk result (λ number. number ≡ last_number told)) }
        ensures kept { OnOk result (IfSome (tables_of S.Store self.new) AreKept) }
        ensures same { TablesStay (tables_of S.Store self.old) (tables_of S.Store self.new) }
        ensures crash { LeavesNoMore (leaves_of S.Store self.old) (leaves_of S.Store self.new) }
    {
        over::last(&mut self.conn, self.alloc, &mut self.cause)
    }

    pub fn entries(&mut self, after: u64, upto: u64) -> Result<List<KeptEntry>, KeepFault>
        ensures answer { IfSome (tables_of S.Store self.new)
            (λ told. IfOk result (λ list. list ≡ entries_between after upto told)) }
        ensures same { TablesStay (tables_of S.Store self.old) (tables_of S.Store self.new) }
        ensures crash { LeavesNoMore (leaves_of S.Store self.old) (leaves_of S.Store self.new) }
    {
        over::entries(&mut self.conn, self.alloc, after, upto, &mut self.cause)
    }

    pub fn cells(&mut self, after: u64, upto: u64) -> Result<List<KeptCell>, KeepFault>
        ensures answer { IfSome (tables_of S.Store self.new)
            (λ told. IfOk result (λ list. list ≡ cells_between after upto told)) }
        ensures same { TablesStay (tables_of S.Store self.old) (tables_of S.Store self.new) }
        ensures crash { LeavesNoMore (leaves_of S.Store self.old) (leaves_of S.Store self.new) }
    {
        over::cells(&mut self.conn, self.alloc, after, upto, &mut self.cause)
    }

    // Keeps a batch in one transaction. Whatever is refused, all of it is rolled back.
    pub fn commit(&mut self, batch: &Batch) -> Result<(), KeepFault>
        requires batch { IsBatch batch.now }
        requires next { IsNextOf (tables_of S.Store self.old) batch.now }
        ensures tables { Commits batch.now result (tables_of S.Store self.old) (tables_of S.Store self.new) }
        ensures crash { CommitLeaves batch.now result (tables_of S.Store self.old)
            (tables_of S.Store self.new) (leaves_of S.Store self.old) (leaves_of S.Store self.new) }
    {
        over::commit(&mut self.conn, self.alloc, batch, &mut self.cause)
    }
}
