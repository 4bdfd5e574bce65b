//! What queries ask.
use crate::refusal::QueryRefusal;
use lei_values::Shared;

/// What is asked by a line, and by the packet after it if the line announces one.
#[derive(Drop)]
pub enum QueryAsked<Q, H> {
    /// The line was refused when it was read.
    Refuse(QueryRefusal),
    /// A query without a packet.
    Query(Q),
    /// What the line says of its packet, and the packet's bytes.
    Packet(H, Shared),
}
