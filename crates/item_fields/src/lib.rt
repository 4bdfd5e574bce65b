//! The fields of the items of an upload: what was sent, the tables of the fields, and their checks, which give the
//! record, the relationship or the exception that an item is.
#![tactic(auto)]

mod fields;
mod item;
mod laws;
mod readying;
mod sheet;
mod tables;

pub use fields::{Content, Facts, Field, Kind, Need};
pub use item::{Fields, RawItem, Upload};
pub use laws::{
    events_come_with_the_third_rules, first_rules_name_one_successor, good_items_have_rows,
    places_have_their_fields,
};
pub use readying::{ready, ready_by};
