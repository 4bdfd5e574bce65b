//! Histories: the reply to a request over a history, what the request adds, and the register that the entries leave.
//! Laws hold for each legal history.
#![tactic(auto)]

mod damage;
mod laws;
mod terms;

pub use damage::Damage;
pub use laws::{
    cells_have_the_rows, changes_are_permitted, changes_make_records, damage_is_no_history,
    damage_is_one, exceptions_stand_apart, kept_tables_are_one, lines_tell_cells,
    moments_never_fall, parents_are_chained, publications_are_a_sound_trail, publications_are_few,
    registers_are_sound, sessions_are_exact, steps_add_one_entry_or_none, successors_are_chained,
    texts_of_entries_differ, touched_keys_were_accepted, uploads_are_numbered,
};
pub use terms::EntryTerms;
