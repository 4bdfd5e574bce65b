//! The rules of relationships and of reporting exceptions: their checks against what is held, and that no chain of
//! direct parents comes back. No call takes memory. This project's profile.
#![tactic(auto)]

mod checked;
mod checks;
mod exceptions;
mod laws;
mod parents;
mod relations;
mod statuses;

pub use checked::{Checked, check_failure, check_with_lei, plain};
pub use exceptions::exception_check;
pub use laws::{
    accepted_items_keep_apart, accepted_relations_keep_parents, exceptions_keep_tables_sound,
    fitting_relations_keep_tables_sound, records_and_exceptions_keep_parents,
};
pub use parents::{ParentChain, is_direct, parent_category, parent_type};
pub use relations::relation_check;
