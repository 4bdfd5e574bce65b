//! Tests of stores in SQLite files from outside: sessions over them, crashes, and stops in a move.
#![tactic(auto)]

pub mod batches;
#[cfg(test)]
mod file_keeper;
#[cfg(test)]
mod older_store;
#[cfg(test)]
mod runs;
#[cfg(test)]
mod sqlite_keeper;
#[cfg(test)]
mod transfer;
