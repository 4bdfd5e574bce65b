//! Files and the standard input as sources.
ghost use Rattle.std.specs.Io.KnownBytes.{ReadConsumes};
ghost use Rattle.std.specs.Prelude.{◌≡◌, ◌≤◌, ◌<◌, None, Some, length, IfOk, IfSome, OnErr, OnOk, MatchResult};
ghost use Rattle.lei_values.specs.Count.{Rose, count_up};
ghost use Rattle.lei_outside.specs.Told.{Reads};

use crate::streams::read_once;
use lei_outside::{Failed, Source};
use std::io::Read;
use std::marker::Model;

/// A source over a file or another reader, such as the standard input. If the file couldn't be opened, each read fails.
/// It tells nothing of its own bytes. Contracts see it as the reader, or none, and the number of its reads that failed,
/// which stops at its greatest value.
#[derive(Drop)]
pub struct FileSource<F> {
    file: Option<F>,
    faults: u64,
}

impl<F> Model for FileSource<F> {
    ghost use Rattle.std.specs.Prelude.{ℕ, Option};

    ghost Value = { Option F × ℕ };

    ghost view = { λ source. (source.file, source.faults) };
}

impl<F> FileSource<F> {
    /// A source over this file, or over none. None of its reads has failed.
    pub fn new(file: Option<F>) -> Self
        ensures { result ≡ (file, 0) }
    {
        FileSource { file, faults: 0 }
    }
}

impl<F: Read> Source for FileSource<F> {
    ghost left = { λ _. None };

    ghost faults = { λ source. source.1 };

    fn read(&mut self, buffer: &mut [u8]) -> Result<usize, Failed>
        requires { 0 < length buffer.old }
        ensures bytes { Reads None None result buffer.new }
        ensures count { self.old.1 ≤ self.new.1 }
        ensures failed { OnErr result (Rose self.old.1 self.new.1) }
        ensures exact { MatchResult result
            (λ _. self.new.1 ≡ self.old.1)
            (λ _. self.new.1 ≡ count_up self.old.1) }
        ensures reader { IfSome self.old.0 (λ old. (new : F) × (self.new.0 ≡ Some new)
            × ReadConsumes (F.remaining old) (F.remaining new) result buffer.new) }
        ensures none { self.old.0 ≡ None → (self.new.0 ≡ None) × OnOk result ⊥ }
    {
        match read_from(&mut self.file, buffer) {
            Ok(count) => Ok(count),
            Err(fault) => {
                self.faults = self.faults.saturating_add(1);
                Err(fault)
            }
        }
    }
}

fn read_from<F: Read>(file: &mut Option<F>, buffer: &mut [u8]) -> Result<usize, Failed>
    ensures within { IfOk result (λ count. count ≤ length buffer.new) }
    ensures reader { IfSome file.old (λ old. (new : F) × (file.new ≡ Some new)
        × ReadConsumes (F.remaining old) (F.remaining new) result buffer.new) }
    ensures none { file.old ≡ None → (file.new ≡ None) × OnOk result ⊥ }
{
    match file {
        Some(file) => read_once(file, buffer),
        None => Err(Failed),
    }
}
