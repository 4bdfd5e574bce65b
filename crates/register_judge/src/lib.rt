//! The verdicts on an upload's items. Each item is judged on the table as the accepted ones before it left it. A record
//! is judged by the checks C05 to C22, a relationship by C30 to C40, and an exception by C50 to C53. This project's
//! profile.
#![tactic(auto)]

mod checks;
mod judge;
mod judging;
mod keys;
mod laws;
mod outcome;
mod overlay;
mod records;
mod sitting;
mod takers;

pub use cell_reads::keys_of;
pub use judging::{judge_all, judge_by};
pub use laws::{
    accepted_successors_keep_chains, items_keep_apart, items_keep_chains, items_keep_parents,
    items_keep_tables_sound, items_keep_to_their_rules, items_keep_what_each_record_has,
    limits_that_suffice_are_alike, writes_make_the_table,
};
pub use outcome::{JudgeStop, Outcome, Plan, Verdict};
pub use sitting::Sitting;
