//! Items after the checks of their fields.
use crate::check::Check;
use crate::exception::ExceptionItem;
use crate::record::Record;
use crate::relation::Relation;

/// An item whose fields passed their checks.
#[derive(Debug, PartialEq, Eq, Drop)]
pub enum Item {
    Record(Record),
    Relation(Relation),
    Exception(ExceptionItem),
}

/// An item after the checks of its fields: the item itself, or the first check that fails.
#[derive(Debug, PartialEq, Eq, Drop)]
pub enum Readied {
    Good(Item),
    Bad(Check),
}
