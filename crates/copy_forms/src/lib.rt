//! The texts of golden copies and of deltas, in CSV and in JSON: printing, reading back, and laws of patching.
#![tactic(auto)]

mod copies;
mod items;
mod json_files;
mod json_heads;
mod json_read;
mod json_strings;
mod json_text;
mod json_write;
mod laws;
mod merging;
mod rendering;
mod shared_item;

pub use copies::{copy_text, delta_text, read_copy, read_delta};
pub use copy_csv::{
    Change, CopyRead, DeltaRead, Form, FormFault, Head, Row, RowTexts, Sheet, TextChange, Texts,
};
pub use items::item_text;
pub use json_write::json_rows_text;
pub use laws::{
    csv_tells_its_rows, deltas_lead_from_copy_to_copy, deltas_lead_on_from_between,
    json_names_rise, json_tells_its_heads_and_rows,
};
pub use merging::{HeldChange, place_row};
pub use rendering::row_texts;
pub use shared_item::{ItemRow, SharedItem};
