//! The replies to queries.
use crate::refusal::QueryRefusal;
use lei_values::Bytes;

/// The reply to a query.
#[derive(Debug, PartialEq, Eq, Drop)]
pub enum QueryReply {
    /// A text of one line.
    Text(Bytes),
    /// A text of many lines, preceded by the number of its bytes.
    File(Bytes),
    Refused(QueryRefusal),
}
