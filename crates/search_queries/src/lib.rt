//! The queries of a search by words of names, and the answerer of these queries.
#![tactic(auto)]

mod grammar;
mod laws;
mod page;
mod searcher;
mod serving;
mod texts;

pub use grammar::{FindQuery, MAX_DELTA, SearchGrammar};
pub use laws::queries_have_one_reply;
pub use page::{MAX_PAGE, Page};
pub use searcher::Searcher;
pub use serving::serve_queries;
