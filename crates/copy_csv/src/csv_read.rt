//! Reading lines of CSV.
ghost use Rattle.std.specs.Prelude.{◌≡◌, ◌<◌, ◌==◌, length, IfOk, is_some, unwrap_or, false, IsSome};
ghost use Rattle.std.specs.Str.{IsUtf8};
ghost use Rattle.copy_csv.specs.CsvReading.{after_byte, csv_field_from, csv_text_from, line_from, separator_of, with_front};
ghost use Rattle.copy_csv.specs.Taking.{SkipsAll, TakesPart, read_with_rest, taken_text};

use crate::ends::Ends;
use crate::texts::Texts;
use lei_values::NoMemory;
use memchr::memchr;
use std::alloc::Global;
use std::marker::Model;

/// What is left to read of some bytes. Contracts see it as a list of bytes.
#[derive(Drop)]
pub struct Reader<'a> {
    bytes: &'a [u8],
    at: usize,
}

impl<'a> Model for Reader<'a> {
    ghost use Rattle.std.specs.Prelude.{ℕ, List, ◌≤◌, drop, length};

    ghost Value = { List ℕ };

    ghost view = { λ r. drop r.at r.bytes.now };

    ghost invariant = { λ r. r.at ≤ length r.bytes.now };
}

impl<'a> Reader<'a> {
    /// A reader with all of the bytes left to read.
    pub fn new(bytes: &'a [u8]) -> Self
        ensures { result ≡ bytes.now }
    {
        Reader { bytes, at: 0 }
    }

    /// Whether no byte is left to read.
    pub fn is_done(&self) -> bool
        ensures { result ≡ (length self.now == 0) }
    {
        self.at == self.bytes.len()
    }

    /// The bytes that are left to read.
    pub fn rest(&self) -> &[u8]
        ensures { result.now ≡ self.now }
    {
        &self.bytes[self.at..]
    }

    /// Whether these bytes come next. If they do, it skips them.
    pub fn skip_all(&mut self, bytes: &[u8]) -> bool
        ensures { SkipsAll bytes.now self.old result self.new }
    {
        if self.rest().len() < bytes.len() {
            return false;
        }
        let (front, _) = self.rest().split_at(bytes.len());
        if front != bytes {
            return false;
        }
        self.at += bytes.len();
        true
    }

    // Whether this byte comes next. If it does, it skips the byte.
    fn skip(&mut self, byte: u8) -> bool
        ensures found { result ≡ is_some (after_byte byte self.old) }
        ensures rest { self.new ≡ unwrap_or (after_byte byte self.old) self.old }
    {
        let found = self.at < self.bytes.len() && self.bytes[self.at] == byte;
        if found {
            self.at += 1;
        }
        found
    }

    // Appends the bytes before the next quote to `out`, and skips the quote. False says that no quote is left.
    fn part(&mut self, out: &mut Vec<u8>) -> Result<bool, NoMemory>
        ensures { IfOk result (λ found. TakesPart self.old out.old.items found self.new out.new.items) }
    {
        let rest = &self.bytes[self.at..];
        let Some(len) = memchr(b'"', rest) else {
            return Ok(false);
        };
        out.extend_from_slice(&rest[..len])?;
        self.at += len + 1;
        Ok(true)
    }

    // Appends the text before its closing quote to `out`, with each doubled quote as one. False says that no quote
    // closes it.
    fn text(&mut self, out: &mut Vec<u8>) -> Result<bool, NoMemory>
        ensures { IfOk result (λ found. taken_text found out.new.items self.new
            ≡ with_front out.old.items (csv_text_from self.old false)) }
    {
        while self.part(out)? {
            if !self.skip(b'"') {
                return Ok(true);
            }
            out.push(b'"')?;
        }
        Ok(false)
    }

    // Appends the text of a field to `out`, if this byte follows the field. False says that no such field comes next.
    fn field(&mut self, byte: u8, out: &mut Vec<u8>) -> Result<bool, NoMemory>
        ensures { IfOk result (λ found. taken_text found out.new.items self.new
            ≡ with_front out.old.items (csv_field_from byte self.old)) }
    {
        if !self.skip(b'"') || !self.text(out)? {
            return Ok(false);
        }
        Ok(self.skip(byte))
    }

    // About how many bytes the texts of the next line take: the bytes up to LF, less two quotes and a separator for
    // each field.
    fn line_room(&self, count: usize) -> usize {
        match memchr(b'\n', self.rest()) {
            Some(len) => (len + 1).saturating_sub(count.saturating_mul(3)),
            None => 0,
        }
    }

    /// The texts of the next line, if it has `count` fields.
    pub fn line(&mut self, alloc: Global, count: usize) -> Result<Option<Texts>, NoMemory>
        requires { IsUtf8 self.old }
        ensures read { IfOk result (λ texts. read_with_rest texts self.new ≡ line_from count self.old) }
        ensures utf8 { IfOk result (λ texts. IsSome texts → IsUtf8 self.new) }
    {
        let mut bytes = Vec::with_capacity(alloc, self.line_room(count))?;
        let mut ends = Ends::with_capacity(alloc, count)?;
        for index in 0..count {
            let byte = separator(count - index - 1);
            if !self.field(byte, &mut bytes)? {
                return Ok(None);
            }
            ends.push(bytes.len())?;
        }
        Ok(Some(Texts::of(bytes, ends)))
    }
}

// The byte after a field that this many fields follow in the line.
fn separator(more: usize) -> u8
    ensures { result ≡ separator_of more }
{
    if more == 0 { b'\n' } else { b',' }
}
