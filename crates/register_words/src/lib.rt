//! The register's protocol: its requests and answers, the readings of the single words of requests, and the most that
//! the register takes.
#![tactic(auto)]

mod base;
mod exit_status;
mod limits;
mod malformed;
mod reply;
mod request;
mod sheets;
mod words;

pub use base::Base;
pub use exit_status::ExitStatus;
pub use limits::Limits;
pub use malformed::Malformed;
pub use reply::{Allowed, Kind, Refusal, Reply};
pub use request::{Asked, Call, Request, is_upload_number};
pub use sheets::{Form, Sheet};
pub use words::{MAX_NUMBER, base_of, code_of, form_of, number_of, number_within, sheet_of};
