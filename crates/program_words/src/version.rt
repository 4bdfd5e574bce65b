//! Which program this is.

/// The version of the program, which packages have, too.
pub const VERSION: &'static str = "0.9.0";

/// What this version makes: the rules of new entries, and the form of a new store.
pub const MAKES: &'static str = "new entries have rules 3, and a new store has form 2";
