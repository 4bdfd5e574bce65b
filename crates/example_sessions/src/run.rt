//! Runs of the program, as a document requires them.
ghost use Rattle.std.specs.Prelude.{◌≡◌, IfOk};
ghost use Rattle.lei_values.specs.KeptTables.{AreKept};
ghost use Rattle.memory_devices.specs.Memory.{tables_of};

use crate::changes::Change;
use crate::fault::Fault;
use crate::filling::text_parts;
use crate::repeating::{NUMBER_NAMES, Repeated};
use crate::texts::{Named, put_filled};
use lei_shapes::Moment;
use lei_values::{KeptCell, KeptEntry, List, NoMemory};
use memory_devices::{ListClock, MapKeeper};
use std::alloc::{AllocError, Global};
use std::marker::Model;

/// A run of the program: its words, the changes to its store before it, and the moments of its clock. It has the
/// numbers of the calls that its keeper refuses, and of the reads and the writes that fail; and whether it is repeated
/// with each of them failing in turn. It has the bytes that are sent, and those of a second file. It also has the bytes
/// that must come back, and the status that it must end with.
#[derive(Drop)]
pub struct Run {
    words: Vec<String>,
    changes: Vec<Change>,
    moments: Vec<i64>,
    refused: Vec<u64>,
    failing_reads: Vec<u64>,
    failing_writes: Vec<u64>,
    has_each_fault: bool,
    sent: Vec<u8>,
    second: Vec<u8>,
    expected: Vec<u8>,
    status: u8,
}

impl Model for Run {
    ghost use Rattle.std.specs.Prelude.{All};
    ghost use Rattle.lei_outside.specs.Clock.{IsClockMoment};
    ghost use Rattle.example_sessions.specs.Runs.{RunState};

    ghost Value = { RunState };

    ghost view = { λ r. record { expected = r.expected.items; status = r.status } };

    ghost invariant = { λ r. All IsClockMoment r.moments.items };
}

impl Run {
    /// The run of a command, `./leireg WORD ..`.
    pub fn of(alloc: Global, command: &str) -> Result<Self, Fault> {
        Ok(Run {
            words: words_of(alloc, command)?,
            changes: Vec::new(alloc),
            moments: Vec::new(alloc),
            refused: Vec::new(alloc),
            failing_reads: Vec::new(alloc),
            failing_writes: Vec::new(alloc),
            has_each_fault: false,
            sent: Vec::new(alloc),
            second: Vec::new(alloc),
            expected: Vec::new(alloc),
            status: 0,
        })
    }

    /// The words after the program's name.
    pub fn words(&self) -> &[String] {
        self.words.as_slice()
    }

    /// A clock that gives the moments of the run.
    pub fn clock(&self, alloc: Global) -> Result<ListClock, AllocError> {
        Ok(ListClock::new(List::from(self.moments.as_slice().to_vec(alloc)?)))
    }

    /// What is changed of its store before the run, in order.
    pub fn changes(&self) -> &[Change] {
        self.changes.as_slice()
    }

    /// Whether its keeper refuses a call.
    pub fn refuses(&self) -> bool {
        !self.refused.is_empty()
    }

    /// The numbers of the reads of its input that fail.
    pub fn failing_reads(&self) -> &[u64] {
        self.failing_reads.as_slice()
    }

    /// The numbers of its writes that fail.
    pub fn failing_writes(&self) -> &[u64] {
        self.failing_writes.as_slice()
    }

    /// Whether it is repeated with each of its reads and each of its writes failing in turn.
    pub fn has_each_fault(&self) -> bool {
        self.has_each_fault
    }

    /// A keeper that has kept these entries and cells, and refuses some of its calls.
    pub fn keeper(
        &self,
        alloc: Global,
        entries: List<KeptEntry>,
        cells: List<KeptCell>,
    ) -> Result<MapKeeper, AllocError>
        requires { AreKept (tables_of (record { entries = entries; cells = cells })) }
    {
        let refused = List::from(self.refused.as_slice().to_vec(alloc)?);
        Ok(MapKeeper::of(alloc, entries, cells, refused))
    }

    /// The bytes that are sent.
    pub fn sent(&self) -> &[u8] {
        self.sent.as_slice()
    }

    /// The bytes of the second file.
    pub fn second(&self) -> &[u8] {
        self.second.as_slice()
    }

    /// The bytes that must come back.
    pub fn expected(&self) -> &[u8]
        ensures { result.now ≡ self.now.expected }
    {
        self.expected.as_slice()
    }

    /// The status that the run must end with.
    pub fn status(&self) -> u8
        ensures { result ≡ self.now.status }
    {
        self.status
    }

    /// The run after one more line, given as a word and the rest after it.
    pub fn with_line(
        mut self,
        alloc: Global,
        known: &[Named],
        word: &str,
        rest: &str,
    ) -> Result<Self, Fault> {
        match word {
            "changed" | "rules" | "entry" | "cell" => {
                self.changes.push(Change::of(alloc, word, rest)?)?;
                Ok(self)
            }
            "at" => self.with_moment(rest),
            "refuses" => self.with_refused(rest),
            "fails" => self.with_failing(rest),
            "status" => self.with_status(rest),
            "each" => self.with_each(alloc, known, rest),
            _ => self.with_text(alloc, known, word, rest),
        }
    }

    fn with_moment(mut self, text: &str) -> Result<Self, Fault> {
        let Some(moment) = Moment::read(text) else {
            return Err(Fault::Form);
        };
        self.moments.push(moment.seconds())?;
        Ok(self)
    }

    fn with_refused(mut self, text: &str) -> Result<Self, Fault> {
        let Some(number) = text.parse::<u64>().ok() else {
            return Err(Fault::Form);
        };
        self.refused.push(number)?;
        Ok(self)
    }

    // The run with the read or the write that this names failing.
    fn with_failing(mut self, rest: &str) -> Result<Self, Fault> {
        let Some((kind, number)) = rest.split_once(' ') else {
            return Err(Fault::Form);
        };
        match (kind, number.parse::<u64>().ok()) {
            ("read", Some(number)) => self.failing_reads.push(number)?,
            ("write", Some(number)) => self.failing_writes.push(number)?,
            _ => return Err(Fault::Form),
        }
        Ok(self)
    }

    fn with_status(mut self, text: &str) -> Result<Self, Fault> {
        let Some(status) = text.parse::<u8>().ok() else {
            return Err(Fault::Form);
        };
        self.status = status;
        Ok(self)
    }

    // The run with these bytes sent, in the second file or expected.
    fn with_bytes(mut self, sign: &str, bytes: &[u8]) -> Result<Self, Fault> {
        match sign {
            ">" => self.sent.extend_from_slice(bytes)?,
            "+" => self.second.extend_from_slice(bytes)?,
            "<" => self.expected.extend_from_slice(bytes)?,
            _ => return Err(Fault::Form),
        }
        Ok(self)
    }

    fn with_text(
        self,
        alloc: Global,
        known: &[Named],
        sign: &str,
        text: &str,
    ) -> Result<Self, Fault> {
        let parts = text_parts(alloc, known, &[], front_of(text))?;
        let mut bytes = Vec::new(alloc);
        put_filled(&mut bytes, &parts, &[])?;
        bytes.extend_from_slice(end_of(text))?;
        self.with_bytes(sign, &bytes)
    }

    // The run with each fault, or with a line for each number of a range.
    fn with_each(mut self, alloc: Global, known: &[Named], rest: &str) -> Result<Self, Fault> {
        if rest == "fault" {
            self.has_each_fault = true;
            return Ok(self);
        }
        let line = Repeated::read(rest)?;
        let parts = text_parts(alloc, known, &NUMBER_NAMES, front_of(line.text))?;
        let bytes = line.bytes(alloc, &parts, end_of(line.text))?;
        self.with_bytes(line.sign, &bytes)
    }
}

// The words of a command after the program's name. The word `""` is the empty one.
fn words_of(alloc: Global, command: &str) -> Result<Vec<String>, Fault> {
    let mut words = Vec::new(alloc);
    for (place, word) in command.split(' ').enumerate() {
        if place == 0 && word != "./leireg" {
            return Err(Fault::Form);
        }
        if place > 0 {
            let word = if word == "\"\"" { "" } else { word };
            words.push(String::from_str(alloc, word)?)?;
        }
    }
    Ok(words)
}

// A text without the `\` at its end.
fn front_of(text: &str) -> &str {
    text.strip_suffix('\\').unwrap_or(text)
}

// The line end of a text.
fn end_of(text: &str) -> &[u8] {
    match text.as_bytes() {
        [.., b'\\'] => b"",
        _ => b"\n",
    }
}
