//! The server that answers the queries of a mirror.
ghost use Rattle.std.specs.Prelude.{◌≡◌, IfOk};
ghost use Rattle.lei_mirror.specs.Mirrors.{empty_mirror};
ghost use Rattle.mirror_queries.specs.Answering.{PacketStep, ShowStep, packet_refusal};

use crate::grammar::{PacketHead, ShowQuery};
use crate::texts::{STANDING_ROOM, standing_text};
use copy_csv::Sheet;
use lei_mirror::{Mirror, MirrorFault, ShowFault};
use lei_outside::Clock;
use lei_values::NoMemory;
use query_reading::{QueryAsked, QueryRefusal, QueryReply};
use request_loop::Answers;
use std::alloc::Global;
use std::marker::Model;

/// Answers the queries of a mirror. Contracts see the mirror.
#[derive(Drop)]
pub struct MirrorServer {
    alloc: Global,
    mirror: Mirror,
}

impl Model for MirrorServer {
    ghost use Rattle.lei_mirror.specs.Mirrors.{MirrorState};

    ghost Value = { MirrorState };

    ghost view = { λ server. server.mirror };
}

impl MirrorServer {
    /// A server with a mirror that has taken nothing.
    pub fn new(alloc: Global) -> Result<Self, NoMemory>
        ensures { IfOk result (λ server. server ≡ empty_mirror) }
    {
        Ok(MirrorServer {
            alloc,
            mirror: Mirror::new(alloc)?,
        })
    }

    // Answers SHOW.
    fn show(&self, sheet: Sheet) -> QueryReply
        ensures { ShowStep self.now sheet result }
    {
        match self.mirror.show(sheet) {
            Ok(bytes) => QueryReply::File(bytes),
            Err(ShowFault::NothingHeld) => QueryReply::Refused(QueryRefusal::NothingHeld),
            Err(ShowFault::NoMemory) => QueryReply::Refused(QueryRefusal::NoMemory),
        }
    }

    // Answers COPY and DELTA. The memory for the reply is allocated first, so that nothing changes if there is none.
    fn take(&mut self, head: PacketHead, packet: &[u8]) -> QueryReply
        ensures { PacketStep self.old head packet.now result self.new }
    {
        let Ok(text) = Vec::with_capacity(self.alloc, STANDING_ROOM) else {
            return QueryReply::Refused(QueryRefusal::NoMemory);
        };
        match self.mirror.take(head.kind, head.sheet, packet) {
            Ok(standing) => QueryReply::Text(standing_text(text, standing)),
            Err(fault) => QueryReply::Refused(refusal_of(fault)),
        }
    }
}

// The refusal of a packet that isn't taken.
fn refusal_of(fault: MirrorFault) -> QueryRefusal
    ensures { result ≡ packet_refusal fault }
{
    match fault {
        MirrorFault::NotRead => QueryRefusal::NotRead,
        MirrorFault::Full => QueryRefusal::MirrorFull,
        MirrorFault::NoMemory => QueryRefusal::NoMemory,
    }
}

impl<R> Answers<R> for MirrorServer {
    ghost use Rattle.mirror_queries.specs.Answering.{MirrorStep};

    type Asked = QueryAsked<ShowQuery, PacketHead>;

    type Reply = QueryReply;

    ghost takes = { λ _. Unit {0} };

    ghost step = { MirrorStep };

    fn answer<C: Clock>(&mut self, _rt: &R, asked: &Self::Asked, _clock: &mut C) -> QueryReply {
        match asked {
            QueryAsked::Refuse(refusal) => QueryReply::Refused(*refusal),
            QueryAsked::Query(query) => self.show(query.sheet),
            QueryAsked::Packet(head, packet) => self.take(*head, packet.as_slice()),
        }
    }
}
