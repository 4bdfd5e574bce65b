//! The tables of the fields of the three kinds of items.

pub mod exception;
pub mod record;
pub mod relation;
