//! The texts of the register's answers: JSON objects in their compact form.
#![tactic(auto)]

mod laws;
mod texts;

pub use laws::verdicts_are_told;
pub use texts::{accreditation_text, publication_text, status_text, upload_text};
