//! Lines as the frames of an input.
ghost use Rattle.std.specs.Prelude.{◌≡◌, ◌≤◌, ◌<◌, [], length, take, drop, false, IsTrue};
ghost use Rattle.line_reading.specs.Lines.{HasNoEnd};
ghost use Rattle.line_reading.specs.LineFrames.{GathersRefused, IsReadOf, TakesLine, want_for};

use crate::lines::{line_of, next_end};
use crate::requests::{LineWords, MAX_LINE, line_request, words_of};
use crate::write_buffer::WriteBuffer;
use crate::writing::{asks_file, refusal_line, send_reply};
use lei_outside::SinkFault;
use lei_values::NoMemory;
use register_words::{Asked, Refusal, Reply};
use request_loop::{Framing, Front, Want, Wire};
use std::alloc::Global;

/// No line ends a session.
#[derive(Drop)]
pub enum NoEnd {}

/// Cuts an input into lines. Each line that asks a request is a frame of its own. Lines that ask nothing or are refused
/// are taken together, as far as they are held. The replies to them wait to be sent together. A line that is too long
/// isn't held.
#[derive(Drop)]
pub struct LineFraming {
    pub alloc: Global,
    /// Whether the line that hasn't ended yet is too long, so that its bytes are skipped.
    pub skips: bool,
    /// How many of the held bytes were searched and have no line's end.
    pub seen: usize,
    /// The replies to lines that were refused.
    pub refusals: WriteBuffer,
    /// The reply that is being written.
    pub reply: WriteBuffer,
}

impl LineFraming {
    ghost use Rattle.std.specs.Prelude.{◌≡◌, List, ℕ, [], true, false, IfOk};
    ghost use Rattle.request_loop.specs.Frames.{ReadsFront};
    ghost use Rattle.line_reading.specs.Lines.{HasNoEnd};
    ghost use Rattle.line_reading.specs.LineFrames.{HoldsLines, line_rules};

    /// A framing that has read nothing.
    pub fn new(alloc: Global) -> Result<Self, NoMemory>
        ensures holds { IfOk result (λ framing. HoldsLines framing.skips framing.seen [] []) }
        ensures waiting { IfOk result (λ framing. framing.refusals ≡ []) }
    {
        Ok(LineFraming {
            alloc,
            skips: false,
            seen: 0,
            refusals: WriteBuffer::new(alloc)?,
            reply: WriteBuffer::new(alloc)?,
        })
    }

    // Reads more of a line that is too long.
    fn skip(&mut self, held: &[u8]) -> Front<Asked, NoEnd>
        requires skips { self.old.skips ≡ true }
        requires none { self.old.refusals ≡ [] }
        ensures { (bytes : List ℕ) → HoldsLines true self.old.seen held.now bytes
            → ReadsFront line_rules (HoldsLines self.new.skips self.new.seen) self.new.refusals bytes
            held.now result }
    {
        match next_end(held, 0) {
            None => Front::More(held.len()),
            Some(end) => {
                self.skips = false;
                self.seen = 0;
                Front::Whole(Some(refusal_of(Refusal::TooLong)), end + 1)
            }
        }
    }

    // Waits for the end of the line that these bytes start.
    fn wait(&mut self, held: &[u8]) -> Front<Asked, NoEnd>
        requires skips { self.old.skips ≡ false }
        requires none { self.old.refusals ≡ [] }
        ensures { HasNoEnd held.now
            → ReadsFront line_rules (HoldsLines self.new.skips self.new.seen) self.new.refusals held.now
            held.now result }
    {
        if held.len() > MAX_LINE + 1 {
            self.skips = true;
            return Front::More(held.len());
        }
        self.seen = held.len();
        Front::More(0)
    }
}

impl Framing for LineFraming {
    type Asked = Asked;

    type Reply = Reply;

    type End = NoEnd;

    ghost use Rattle.line_reading.specs.LineFrames.{HoldsLines, line_rules, line_whole_on};

    ghost rules = { line_rules };

    ghost holds = { λ framing held bytes. HoldsLines framing.skips framing.seen held bytes };

    ghost waiting = { λ framing. framing.refusals };

    fn front(&mut self, held: &[u8]) -> Front<Asked, NoEnd> {
        if self.skips {
            return self.skip(held);
        }
        let seen = self.seen.min(held.len());
        let used = gather(&mut self.refusals, held, seen);
        if used > 0 {
            self.seen = 0;
            return Front::Refused(used);
        }
        match next_end(held, seen) {
            None => self.wait(held),
            Some(end) => {
                self.seen = 0;
                Front::Whole(read_line(self.alloc, line_of(&held[..end])), end + 1)
            }
        }
    }

    fn last(&mut self, held: &[u8]) -> Option<Want<Asked, NoEnd>> {
        if self.skips {
            return Some(refusal_of(Refusal::TooLong));
        }
        read_line(self.alloc, held)
    }

    fn send<L: Wire>(
        &mut self,
        want: &Want<Asked, NoEnd>,
        reply: &Reply,
        link: &mut L,
    ) -> Result<(), SinkFault> {
        self.reply.clear();
        send_reply(&mut self.reply, link, reply, asks_file(&want.asked))
    }

    fn send_refused<L: Wire>(&mut self, link: &mut L) -> Result<(), SinkFault> {
        self.refusals.flush(link)
    }

    ghost whole_on = { line_whole_on };
}

// What a refused line wants.
fn refusal_of(refusal: Refusal) -> Want<Asked, NoEnd>
    ensures { result ≡ want_for (Asked.Refuse refusal) }
{
    Want {
        asked: Asked::Refuse(refusal),
        ends: None,
    }
}

// What a line wants, which is nothing if it is empty. If there is no memory for the body of an upload, the line is
// refused.
fn read_line(alloc: Global, line: &[u8]) -> Option<Want<Asked, NoEnd>>
    ensures { IsReadOf line.now result }
{
    if line.is_empty() {
        return None;
    }
    match line_request(alloc, line) {
        Ok(asked) => Some(Want { asked, ends: None }),
        Err(NoMemory) => Some(refusal_of(Refusal::NoMemory)),
    }
}

// Takes the lines at the front of the bytes that ask nothing or are refused, as long as there is room for the replies.
// The first `seen` bytes have no line's end. Returns how many bytes these lines have, with their ends.
fn gather(refusals: &mut WriteBuffer, held: &[u8], mut seen: usize) -> usize
    requires none { refusals.old ≡ [] }
    requires within { seen ≤ length held.now }
    ensures within { result ≤ length held.now }
    ensures gathers { HasNoEnd (take seen held.now)
        → GathersRefused held.now (drop result held.now) refusals.new }
    ensures nothing { result ≡ 0 → refusals.new ≡ [] }
{
    let mut used = 0;
    loop {
        let (_, rest) = held.split_at(used);
        let Some(end) = next_end(rest, seen) else {
            return used;
        };
        if !takes_line(refusals, line_of(&rest[..end])) {
            return used;
        }
        used += end + 1;
        seen = 0;
    }
}

// Takes a line if it asks nothing, or if it is refused and there is room for the reply.
fn takes_line(refusals: &mut WriteBuffer, line: &[u8]) -> bool
    ensures takes { IsTrue result → TakesLine line.now refusals.old refusals.new }
    ensures leaves { result ≡ false → refusals.new ≡ refusals.old }
{
    if line.is_empty() {
        return true;
    }
    let LineWords::Refused(refusal) = words_of(line) else {
        return false;
    };
    match refusal_line(refusal) {
        Some(reply) if reply.len() <= refusals.room() => {
            refusals.append(reply);
            true
        }
        _ => false,
    }
}
