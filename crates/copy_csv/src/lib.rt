//! Rows of golden copies and changes of deltas, and their texts in CSV: printing and reading.
#![tactic(auto)]

mod csv_files;
mod csv_read;
mod csv_rows;
mod csv_text;
mod ends;
mod faults;
mod heads;
mod laws;
mod rows;
pub mod sheets;
mod texts;

pub use csv_files::{
    copy_head, copy_lines, csv_copy_text, csv_delta_text, read_csv_copy, read_csv_delta,
};
pub use csv_read::Reader;
pub use csv_rows::{are_changes_rising, are_rows_rising, read_row};
pub use csv_text::{line_texts, put_row};
pub use ends::Ends;
pub use faults::FormFault;
pub use heads::{CopyRead, DeltaRead, Head};
pub use laws::csv_readers_see_each_row;
pub use register_words::{Form, Sheet};
pub use rows::{Change, Row, RowTexts, TextChange};
pub use texts::Texts;
