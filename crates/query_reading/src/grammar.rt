//! The meaning of lines.
ghost use Rattle.std.specs.Prelude.{◌≡◌, ℕ, List, IfOk, OnErr};
ghost use Rattle.query_reading.specs.Meanings.{IsWholeQuery};
ghost use Rattle.query_reading.specs.declared.grammar.LineMeaning.{LineMeaning as Meaning};

use crate::refusal::QueryRefusal;
use lei_values::NoMemory;
use std::alloc::Global;

/// The greatest length of a line, without its end, in bytes. This project's profile.
pub const MAX_QUERY: usize = 4_096;

/// What a line says, with queries of type `Q`, and with `H` for what the line says of its packet.
#[derive(Drop)]
pub enum LineMeaning<Q, H> {
    /// It is refused.
    Refused(QueryRefusal),
    /// A query without a packet.
    Query(Q),
    /// This many bytes follow the line's end.
    Packet(H, usize),
    /// It is refused, and this many bytes after the line's end are skipped.
    Skipped(QueryRefusal, usize),
}

/// A grammar: what a line says, if it isn't empty or too long.
pub trait Grammar: Drop {
    type Query: Drop;

    /// What a line says of the packet that it announces, except for its size.
    type Head: Copy;

    /// What a line says.
    ghost says: { List ℕ → Meaning Self.Query Self.Head };

    /// Reads a line, without its end. The only error is lack of memory for a query without a packet.
    fn read(
        &self,
        alloc: Global,
        line: &[u8],
    ) -> Result<LineMeaning<Self::Query, Self::Head>, NoMemory>
        ensures ok { IfOk result (λ meaning. meaning ≡ says line.now) }
        ensures err { OnErr result (IsWholeQuery (says line.now)) };
}
