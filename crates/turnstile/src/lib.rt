//! One value for many callers, who use it in turns. Each caller has a pass, and all passes together know who did what.
#![tactic(auto)]

mod pass;
mod rule;
mod tally;
mod turnstile;
mod view;

pub use pass::Pass;
pub use tally::{Said, Tally};
pub use turnstile::Turnstile;
pub use view::Member;
