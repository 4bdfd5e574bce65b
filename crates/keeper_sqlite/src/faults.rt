// How failures of the database are handled.
ghost use Rattle.std.specs.Prelude.{◌≡◌, ◌↔◌, ◌≤◌, IsErrOf};
ghost use Rattle.lei_values.specs.Count.{Rose};

use lei_keeper::KeepFault;
use sqlite::{Error, ErrorCode};
use std::fmt;

/// Why a call of a keeper failed.
#[derive(Clone, Copy, Debug, PartialEq, Eq)]
pub enum Cause {
    /// The file couldn't be opened: it doesn't exist and can't be made, may not be read and written, or another program
    /// has it open.
    Unopened,
    /// The database has tables other than those of a keeper.
    Tables,
    /// A row isn't that of an entry or a cell, or the store has neither form.
    Row,
    /// The connection is inside a transaction that the keeper didn't start.
    Transaction,
    /// The database reports this.
    Database(ErrorCode),
}

impl Cause {
    // Notes an error of the database, and returns the fault that a caller gets for it.
    pub fn note(&mut self, error: Error) -> KeepFault
        ensures { (result ≡ KeepFault.NoMemory) ↔ (error ≡ Error.SqliteFailure ErrorCode.OutOfMemory) }
    {
        *self = match &error {
            Error::SqliteFailure(code) => Cause::Database(*code),
            _ => Cause::Row,
        };
        fault_of(error)
    }
}

impl fmt::Display for Cause {
    fn fmt<W: fmt::Write>(&self, f: &mut fmt::Formatter<W>) -> fmt::Result {
        match self {
            Cause::Unopened => f.write_str(
                "its file can't be opened, or another program has it open",
            ),
            Cause::Tables => f.write_str("it has other tables than those of this program"),
            Cause::Row => f.write_str("it has a row that this program doesn't write"),
            Cause::Transaction => f.write_str("it is inside a transaction of another caller"),
            Cause::Database(code) => write!(f, "{code}"),
        }
    }
}

// Lack of memory, if that is what went wrong. Every other error is a failure of the keeper.
pub fn fault_of(error: Error) -> KeepFault
    ensures { (result ≡ KeepFault.NoMemory) ↔ (error ≡ Error.SqliteFailure ErrorCode.OutOfMemory) }
{
    match error {
        Error::SqliteFailure(ErrorCode::OutOfMemory) => KeepFault::NoMemory,
        _ => KeepFault::Failed,
    }
}

// The result of a call, with a failure counted. The count stops at its greatest value.
pub fn count_fault<T>(faults: &mut u64, answer: Result<T, KeepFault>) -> Result<T, KeepFault>
    ensures same { result ≡ answer }
    ensures count { faults.old ≤ faults.new }
    ensures faultless { ¬ (IsErrOf result KeepFault.Failed) → faults.new ≡ faults.old }
    ensures failed { IsErrOf result KeepFault.Failed → Rose faults.old faults.new }
{
    if let Err(KeepFault::Failed) = &answer {
        *faults = faults.saturating_add(1);
    }
    answer
}
