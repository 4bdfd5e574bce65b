//! The keeper of a run: in memory, or over a file.
use crate::reported::Reported;
use keeper_sqlite::SqliteKeeper;
use leireg_devices::Watched;
use leireg_run::OneOf;
use memory_devices::SureKeeper;
use sqlite::{Alter, File, FileStore};
use std::mem::forget;

/// A keeper in memory, or one over an SQLite store, whose opening and failures are reported to the operator.
pub type StoreKeeper<'a, S> = OneOf<SureKeeper, Watched<'a, Reported<'a, SqliteKeeper<S>>>>;

/// The keeper over the file at this path, or one in memory if there is no path.
pub fn keeper_at<'a>(
    host: &'a HostRuntime,
    path: Option<&str>,
) -> StoreKeeper<'a, FileStore<File>> {
    match path {
        Some(path) => {
            let keeper = Reported::new(host, SqliteKeeper::on_file(host, path));
            OneOf::Second(Watched::new(host, keeper))
        }
        None => OneOf::First(SureKeeper::new(host.alloc())),
    }
}

/// Closes the file of a keeper. A keeper in memory isn't dropped: the program ends, and the system gets its memory
/// back.
pub fn close<S: Alter + Drop>(keeper: StoreKeeper<'_, S>) {
    match keeper {
        OneOf::First(keeper) => forget(keeper),
        OneOf::Second(keeper) => drop(keeper),
    }
}
