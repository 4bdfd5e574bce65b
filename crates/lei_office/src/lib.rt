//! The office of the register: how it answers requests, and how it is opened over what a keeper has.
#![tactic(auto)]

mod answering;
mod comparing;
mod damage;
mod office;
mod opening;
mod replaying;

pub use answering::moment_of;
pub use office::Office;
pub use opening::OpenFault;
pub use register_history::Damage;
pub use register_state::RULES;
pub use register_words::{
    Allowed, Asked, Base, Call, Form, Kind, Limits, Refusal, Reply, Request, Sheet,
    is_upload_number,
};
pub use upload_ledger::{ACCREDIT, PUBLISH, UPLOAD};
