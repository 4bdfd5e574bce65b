//! Lines of queries as the frames of an input.
ghost use Rattle.std.specs.Prelude.{◌≡◌, ◌⊎◌, ◌≤◌, ◌<◌, ◌+◌, ℕ, List, [], length, take, drop, Option, Some, None};
ghost use Rattle.line_reading.specs.Lines.{HasNoEnd, IsCutAtEnd, line_of};
ghost use Rattle.query_reading.specs.Meanings.{IsMeaning, asked_at_end, line_says};
ghost use Rattle.query_reading.specs.QueryFrames.{EndsAsked, IsFirstLine, query_want};
ghost use Rattle.query_reading.specs.declared.asked.QueryAsked.{QueryAsked as Asking};
ghost use Rattle.query_reading.specs.declared.grammar.LineMeaning.{LineMeaning as Meaning};
ghost use Rattle.query_reading.specs.declared.refusal.QueryRefusal.{QueryRefusal as Refusing};

use crate::asked::QueryAsked;
use crate::grammar::{Grammar, LineMeaning, MAX_QUERY};
use crate::refusal::QueryRefusal;
use crate::reply::QueryReply;
use crate::stage::FrameStage;
use crate::writing::send_query_reply;
use lei_outside::SinkFault;
use lei_values::{NoMemory, Shared};
use line_reading::{NoEnd, WriteBuffer, line_of, next_end};
use request_loop::{Framing, Front, Want, Wire};
use std::alloc::Global;

/// Cuts an input into lines and the packets that they announce, by a grammar. A line that is too long isn't held, nor
/// is a packet that is refused. While the framing waits for a packet it only counts bytes.
#[derive(Drop)]
pub struct QueryFraming<G: Grammar> {
    pub alloc: Global,
    pub grammar: G,
    /// How far the incomplete frame was read.
    pub stage: FrameStage<G::Head>,
    /// The reply that is being written.
    pub reply: WriteBuffer,
}

// What is at the front of bytes, by the queries and the packets of a grammar.
type QueryFront<G> = Front<QueryAsked<<G as Grammar>::Query, <G as Grammar>::Head>, NoEnd>;

impl<G: Grammar> QueryFraming<G> {
    ghost use Rattle.std.specs.Prelude.{◌≡◌, List, ℕ, [], IfOk};
    ghost use Rattle.request_loop.specs.Frames.{ReadsFront};
    ghost use Rattle.query_reading.specs.QueryFrames.{HoldsQuery, query_rules};
    ghost use Rattle.query_reading.specs.declared.stage.FrameStage.{FrameStage as Stages};

    /// A framing that has read nothing.
    pub fn new(alloc: Global, grammar: G) -> Result<Self, NoMemory>
        ensures holds { IfOk result (λ framing. HoldsQuery G.says framing.stage [] []) }
    {
        Ok(QueryFraming {
            alloc,
            grammar,
            stage: FrameStage::Line(0),
            reply: WriteBuffer::new(alloc)?,
        })
    }

    // Continues a line. This many of its bytes were already searched for its end.
    fn read_line(&mut self, held: &[u8], seen: usize) -> QueryFront<G>
        ensures { (bytes : List ℕ) → HoldsQuery G.says (Stages.Line seen) held.now bytes
            → ReadsFront (query_rules G.says) (HoldsQuery G.says self.new.stage) [] bytes held.now result }
    {
        match next_end(held, seen.min(held.len())) {
            None => self.wait(held),
            Some(end) => self.read_query(held, end),
        }
    }

    // Waits for the end of a line that starts with these bytes.
    fn wait(&mut self, held: &[u8]) -> QueryFront<G>
        ensures { HasNoEnd held.now
            → ReadsFront (query_rules G.says) (HoldsQuery G.says self.new.stage) [] held.now held.now result }
    {
        if held.len() > MAX_QUERY + 1 {
            self.stage = FrameStage::LongLine;
            return Front::More(held.len());
        }
        self.stage = FrameStage::Line(held.len());
        Front::More(0)
    }

    // Reads the line that ends there, and its packet if all of it is held.
    fn read_query(&mut self, held: &[u8], end: usize) -> QueryFront<G>
        requires within { end < length held.now }
        ensures { IsCutAtEnd held.now (take end held.now) (drop (end + 1) held.now)
            → ReadsFront (query_rules G.says) (HoldsQuery G.says self.new.stage) [] held.now held.now result }
    {
        self.stage = FrameStage::Line(0);
        match meaning_of(&self.grammar, self.alloc, line_of(&held[..end])) {
            None => Front::Whole(None, end + 1),
            Some(LineMeaning::Refused(refusal)) => {
                Front::Whole(Some(want_of(QueryAsked::Refuse(refusal))), end + 1)
            }
            Some(LineMeaning::Query(query)) => {
                Front::Whole(Some(want_of(QueryAsked::Query(query))), end + 1)
            }
            Some(LineMeaning::Packet(head, size)) => self.begin_packet(held, end, head, size),
            Some(LineMeaning::Skipped(refusal, size)) => {
                self.begin_skipped(held, end, refusal, size)
            }
        }
    }

    // Reads the packet of this many bytes after the line that ends there, or waits for it.
    fn begin_packet(&mut self, held: &[u8], end: usize, head: G::Head, size: usize) -> QueryFront<G>
        requires within { end < length held.now }
        ensures { IsCutAtEnd held.now (take end held.now) (drop (end + 1) held.now)
            → line_says G.says (line_of (take end held.now)) ≡ Some (Meaning.Packet head size)
            → ReadsFront (query_rules G.says) (HoldsQuery G.says self.new.stage) [] held.now held.now result }
    {
        let (_, after) = held.split_at(end + 1);
        if after.len() < size {
            self.stage = FrameStage::Packet(head, size);
            return Front::More(end + 1);
        }
        self.stage = FrameStage::Line(0);
        let asked = packet_of(self.alloc, head, &after[..size]);
        Front::Whole(Some(want_of(asked)), end + 1 + size)
    }

    // Skips the packet of this many bytes after the line that ends there, or the part of it that is held.
    fn begin_skipped(
        &mut self,
        held: &[u8],
        end: usize,
        refusal: QueryRefusal,
        size: usize,
    ) -> QueryFront<G>
        requires within { end < length held.now }
        ensures { IsCutAtEnd held.now (take end held.now) (drop (end + 1) held.now)
            → line_says G.says (line_of (take end held.now)) ≡ Some (Meaning.Skipped refusal size)
            → ReadsFront (query_rules G.says) (HoldsQuery G.says self.new.stage) [] held.now held.now result }
    {
        let (_, after) = held.split_at(end + 1);
        if after.len() < size {
            self.stage = FrameStage::Skipped(refusal, size - after.len());
            return Front::More(held.len());
        }
        self.stage = FrameStage::Line(0);
        Front::Whole(Some(want_of(QueryAsked::Refuse(refusal))), end + 1 + size)
    }

    // Continues a line that is too long.
    fn skip_line(&mut self, held: &[u8]) -> QueryFront<G>
        requires { self.old.stage ≡ Stages.LongLine }
        ensures { (bytes : List ℕ) → HoldsQuery G.says Stages.LongLine held.now bytes
            → ReadsFront (query_rules G.says) (HoldsQuery G.says self.new.stage) [] bytes held.now result }
    {
        match next_end(held, 0) {
            None => Front::More(held.len()),
            Some(end) => {
                self.stage = FrameStage::Line(0);
                Front::Whole(
                    Some(want_of(QueryAsked::Refuse(QueryRefusal::TooLong))),
                    end + 1,
                )
            }
        }
    }

    // Continues a packet of this many bytes.
    fn read_packet(&mut self, held: &[u8], head: G::Head, size: usize) -> QueryFront<G>
        requires { self.old.stage ≡ Stages.Packet head size }
        ensures { (bytes : List ℕ) → HoldsQuery G.says (Stages.Packet head size) held.now bytes
            → ReadsFront (query_rules G.says) (HoldsQuery G.says self.new.stage) [] bytes held.now result }
    {
        if held.len() < size {
            return Front::More(0);
        }
        self.stage = FrameStage::Line(0);
        let asked = packet_of(self.alloc, head, &held[..size]);
        Front::Whole(Some(want_of(asked)), size)
    }

    // Continues a refused packet, with this many bytes left.
    fn skip_packet(&mut self, held: &[u8], refusal: QueryRefusal, left: usize) -> QueryFront<G>
        ensures { (bytes : List ℕ) → HoldsQuery G.says (Stages.Skipped refusal left) held.now bytes
            → ReadsFront (query_rules G.says) (HoldsQuery G.says self.new.stage) [] bytes held.now result }
    {
        if held.len() < left {
            self.stage = FrameStage::Skipped(refusal, left - held.len());
            return Front::More(held.len());
        }
        self.stage = FrameStage::Line(0);
        Front::Whole(Some(want_of(QueryAsked::Refuse(refusal))), left)
    }

    // What the last line asks, if the input ends. Its end isn't among this many first bytes.
    fn last_of(&self, held: &[u8], seen: usize) -> Option<QueryAsked<G::Query, G::Head>>
        ensures { (bytes : List ℕ) → HoldsQuery G.says (Stages.Line seen) held.now bytes
            → EndsAsked G.says bytes result }
    {
        let line = first_line(held, seen.min(held.len()));
        asked_last(meaning_of(&self.grammar, self.alloc, line))
    }
}

// The first line of the bytes. Its end isn't among this many first bytes.
fn first_line(held: &[u8], seen: usize) -> &[u8]
    requires { seen ≤ length held.now }
    ensures { HasNoEnd (take seen held.now) → IsFirstLine held.now result.now }
{
    match next_end(held, seen) {
        None => held,
        Some(end) => line_of(&held[..end]),
    }
}

// What a line says, if it isn't empty. If memory to read it runs out, it is refused.
fn meaning_of<G: Grammar>(
    grammar: &G,
    alloc: Global,
    line: &[u8],
) -> Option<LineMeaning<G::Query, G::Head>>
    ensures { IsMeaning G.says line.now result }
{
    if line.is_empty() {
        return None;
    }
    if line.len() > MAX_QUERY {
        return Some(LineMeaning::Refused(QueryRefusal::TooLong));
    }
    match grammar.read(alloc, line) {
        Ok(meaning) => Some(meaning),
        Err(NoMemory) => Some(LineMeaning::Refused(QueryRefusal::NoMemory)),
    }
}

// What is asked by a line that says this, if the input ends before its packet does.
fn asked_last<Q: Drop, H: Copy>(meaning: Option<LineMeaning<Q, H>>) -> Option<QueryAsked<Q, H>>
    ensures { result ≡ asked_at_end meaning }
{
    match meaning {
        None => None,
        Some(LineMeaning::Refused(refusal)) => Some(QueryAsked::Refuse(refusal)),
        Some(LineMeaning::Query(query)) => Some(QueryAsked::Query(query)),
        Some(LineMeaning::Packet(_, _)) => Some(QueryAsked::Refuse(QueryRefusal::Truncated)),
        Some(LineMeaning::Skipped(refusal, _)) => Some(QueryAsked::Refuse(refusal)),
    }
}

// What is asked by a packet, whose bytes are copied once. If memory for that runs out, its refusal.
fn packet_of<Q: Drop, H: Copy>(alloc: Global, head: H, packet: &[u8]) -> QueryAsked<Q, H>
    ensures { (result ≡ Asking.Packet head packet.now) ⊎ (result ≡ Asking.Refuse Refusing.NoMemory) }
{
    match Shared::copy_of(alloc, packet) {
        Ok(packet) => QueryAsked::Packet(head, packet),
        Err(NoMemory) => QueryAsked::Refuse(QueryRefusal::NoMemory),
    }
}

// What is wanted if this is asked.
fn want_of<Q: Drop, H: Copy>(asked: QueryAsked<Q, H>) -> Want<QueryAsked<Q, H>, NoEnd>
    ensures { result ≡ query_want asked }
{
    Want { asked, ends: None }
}

impl<G: Grammar> Framing for QueryFraming<G> {
    type Asked = QueryAsked<G::Query, G::Head>;

    type Reply = QueryReply;

    type End = NoEnd;

    ghost use Rattle.std.specs.Prelude.{[]};
    ghost use Rattle.query_reading.specs.QueryFrames.{HoldsQuery, query_rules, query_whole_on};

    ghost rules = { query_rules G.says };

    ghost holds = { λ framing held bytes. HoldsQuery G.says framing.stage held bytes };

    ghost waiting = { λ _. [] };

    fn front(&mut self, held: &[u8]) -> QueryFront<G> {
        match self.stage {
            FrameStage::Line(seen) => self.read_line(held, seen),
            FrameStage::LongLine => self.skip_line(held),
            FrameStage::Packet(head, size) => self.read_packet(held, head, size),
            FrameStage::Skipped(refusal, left) => self.skip_packet(held, refusal, left),
        }
    }

    fn last(&mut self, held: &[u8]) -> Option<Want<Self::Asked, NoEnd>> {
        match self.stage {
            FrameStage::Line(seen) => match self.last_of(held, seen) {
                Some(asked) => Some(want_of(asked)),
                None => None,
            },
            FrameStage::LongLine => Some(want_of(QueryAsked::Refuse(QueryRefusal::TooLong))),
            FrameStage::Packet(_, _) => Some(want_of(QueryAsked::Refuse(QueryRefusal::Truncated))),
            FrameStage::Skipped(refusal, _) => Some(want_of(QueryAsked::Refuse(refusal))),
        }
    }

    fn send<L: Wire>(
        &mut self,
        _want: &Want<Self::Asked, NoEnd>,
        reply: &QueryReply,
        link: &mut L,
    ) -> Result<(), SinkFault> {
        self.reply.clear();
        send_query_reply(&mut self.reply, link, reply)
    }

    fn send_refused<L: Wire>(&mut self, _link: &mut L) -> Result<(), SinkFault> {
        Ok(())
    }

    ghost whole_on = { query_whole_on G.says };
}
