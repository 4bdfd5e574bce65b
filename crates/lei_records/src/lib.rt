//! The items of an upload after the checks of their fields: records, relationships and exceptions, each with a row of
//! texts. What the rules see of them, and the numbers and names of all checks.
#![tactic(auto)]

mod check;
mod copies;
mod exception;
mod field_texts;
mod item;
pub mod numbers;
pub mod places;
mod printed;
mod record;
mod relation;
mod rules;
mod successors;
mod texts;
mod view;

pub use check::{Check, Detail};
pub use exception::ExceptionItem;
pub use field_texts::FieldTexts;
pub use item::{Item, Readied};
pub use lei_shapes::{EventStatus, EventType};
pub use printed::Printed;
pub use record::Record;
pub use relation::Relation;
pub use rules::Rules;
pub use successors::Successors;
pub use view::{CellKey, CellSeen, Reads, RecCell, RelCell, RowKey, Seen, View, Writes};
