//! The shapes of a register's fields: moments, the lists of values, and a test for each shape.
//! No call takes memory.
#![tactic(auto)]

mod codes;
mod laws;
mod lists;
mod moments;
mod shapes;

pub use codes::cut_at_space;
pub use laws::{moments_are_shown_and_read_back, value_texts_differ, value_texts_read_back};
pub use lists::{
    Category, EntityStatus, EventStatus, EventType, ExceptionCategory, Reason, RecordStatus,
    RelationRegistration, RelationStatus, RelationType, Validation,
};
pub use moments::{Moment, day_number};
pub use shapes::{Shape, fits, is_code};
