//! The index, which is opened on a copy, takes deltas and finds rows by words.
ghost use Rattle.std.specs.Prelude.{◌≡◌, ◌+◌, ◌≤◌, [], List as Items, filter, length, IfErr, IfOk, IsErrOf, OnErr, OnOk, is_some};
ghost use Rattle.register_words.specs.declared.sheets.Sheet.{Sheet as DeclaredSheet};
ghost use Rattle.copy_csv.specs.Rows.{AreChanges, AreRows};
ghost use Rattle.copy_csv.specs.Sheets.{SheetRow};
ghost use Rattle.copy_forms.specs.Patching.{patched};
ghost use Rattle.name_search.specs.declared.faults.FindFault.{FindFault as Finding};
ghost use Rattle.name_search.specs.NameTables.{IsNameTable, IsTakeFault, MayTakeDelta, number_in};
ghost use Rattle.name_search.specs.Gathering.{GathersPage};
ghost use Rattle.name_search.specs.Searching as spec;
ghost use Rattle.name_search.specs.Words.{words};

use crate::faults::{FindFault, TakeFault};
use crate::found::Found;
use crate::gathering::{Gathered, gather_all, gather_under};
use crate::merging::{merge, named_puts, number_of};
use crate::named_row::NamedRow;
use crate::opening::noted_rows;
use crate::postings::Postings;
use crate::word::Word;
use crate::words::words_of;
use copy_csv::{CopyRead, DeltaRead};
use lei_values::{List, NoMemory};
use std::alloc::Global;
use std::marker::Model;
use std::mem;
use std::sync::ledger::Ledger;
use worker_pool::Steps;

/// The rows of a golden copy of `lei`, indexed by the words of their names. Contracts see the number of the copy's
/// publication, its width, and the key and the name of each row.
#[derive(Drop)]
pub struct Index {
    alloc: Global,
    publication: Option<u32>,
    wide: bool,
    // In the order of their keys.
    rows: Vec<NamedRow>,
    postings: Postings,
}

impl Model for Index {
    ghost use Rattle.name_search.specs.NameTables.{NameTable};

    ghost Value = { NameTable };

    ghost view = { λ index. record {
      publication = index.publication;
      wide = index.wide;
      names = index.rows.items;
    } };

    ghost use Rattle.name_search.specs.Walks.{NamesAreIndexed};

    ghost invariant = { λ index. NamesAreIndexed index.rows.items index.postings };
}

impl Index {
    /// An index of a copy of `lei` that was read. Each name is folded once, which is one step.
    pub fn open<L: Ledger>(
        alloc: Global,
        copy: &CopyRead,
        steps: &mut Steps<L>,
    ) -> Result<Self, NoMemory>
        requires rows { AreRows DeclaredSheet.Lei copy.now.rows }
        ensures rows { IfOk result (λ index. IsNameTable copy.now.rows index) }
        ensures publication { IfOk result (λ index. index.publication ≡ number_in copy.now.head) }
        ensures width { IfOk result (λ index. index.wide ≡ copy.now.wide) }
        ensures steps { steps.new ≤ steps.old + length copy.now.rows }
        ensures steps_stay { steps.old ≤ steps.new }
    {
        let mut postings = Postings::new(alloc);
        let rows = noted_rows(alloc, copy.rows.as_slice(), &mut postings, steps)?;
        Ok(Index {
            alloc,
            publication: number_of(&copy.head),
            wide: copy.wide,
            rows,
            postings,
        })
    }

    /// Makes this the index of the copy as it is after a delta that was read, in the form of the copy. Only names of
    /// rows that the delta puts are folded. The faults are reported in the order of `TakeFault`. After a fault the
    /// index is as it was.
    pub fn take<L: Ledger>(
        &mut self,
        delta: &DeltaRead,
        steps: &mut Steps<L>,
    ) -> Result<(), TakeFault>
        requires changes { AreChanges DeclaredSheet.Lei delta.now.changes }
        requires form { is_some delta.now.head ≡ is_some self.old.publication }
        ensures rows { OnOk result ((rows : Items SheetRow) → IsNameTable rows self.old
            → IsNameTable (patched rows delta.now.changes) self.new) }
        ensures publication { OnOk result (self.new.publication ≡ number_in delta.now.head) }
        ensures width { OnOk result (self.new.wide ≡ delta.now.wide) }
        ensures takes { OnOk result (MayTakeDelta self.old delta.now) }
        ensures refusal { IfErr result (IsTakeFault self.old delta.now) }
        ensures err { OnErr result (self.new ≡ self.old) }
        ensures steps { steps.new ≤ steps.old + length delta.now.changes }
        ensures steps_stay { steps.old ≤ steps.new }
    {
        self.check(delta)?;
        let changes = delta.changes.as_slice();
        let puts = named_puts(self.alloc, changes, steps)?;
        self.postings.note_all(puts.as_slice())?;
        let room = self.rows.len().saturating_add(puts.len());
        let mut rows = Vec::with_capacity(self.alloc, room)?;
        let mut gone = Vec::with_capacity(self.alloc, changes.len())?;
        mem::swap(&mut self.rows, &mut rows);
        merge(&mut self.rows, rows, puts, changes, &mut gone);
        self.postings
            .forget_all(gone.as_slice(), self.rows.as_slice());
        self.publication = number_of(&delta.head);
        self.wide = delta.wide;
        Ok(())
    }

    // Whether the index takes a delta, by its base and its width.
    fn check(&self, delta: &DeltaRead) -> Result<(), TakeFault>
        requires { is_some delta.now.head ≡ is_some self.now.publication }
        ensures ok { OnOk result (MayTakeDelta self.now delta.now) }
        ensures refusal { IfErr result (IsTakeFault self.now delta.now) }
    {
        if let (Some(publication), Some(head)) = (self.publication, delta.head) {
            if publication != head.from {
                return Err(TakeFault::WrongBase(publication, head.from));
            }
        }
        if self.wide && !delta.wide {
            return Err(TakeFault::OlderDelta);
        }
        Ok(())
    }

    /// The rows whose names have each word of a text. The result tells how many they are, and has those on a page of
    /// 50, in the order of their keys. After the last page there are none. The faults are reported in the order of
    /// `FindFault`.
    pub fn find(&self, page: u32, text: &str) -> Result<Found, FindFault>
        requires first { 1 ≤ page }
        requires last { page ≤ 1_000_000 }
        ensures matches { IfOk result
            (λ found. found.matches ≡ length (spec.found_names self.now.names text.now)) }
        ensures names { IfOk result
            (λ found. found.names ≡ spec.page_of page (spec.found_names self.now.names text.now)) }
        ensures some_word { OnOk result (1 ≤ length (words text.now)) }
        ensures few_words { OnOk result (length (words text.now) ≤ 8) }
        ensures no_word { IsErrOf result Finding.NoWord → words text.now ≡ [] }
        ensures too_many { IsErrOf result Finding.TooManyWords → 9 ≤ length (words text.now) }
    {
        let wanted = words_of(self.alloc, text)?;
        if wanted.is_empty() {
            return Err(FindFault::NoWord);
        }
        if wanted.len() > 8 {
            return Err(FindFault::TooManyWords);
        }
        let start = 50 * (u64::from(page) - 1);
        let gathered = self.gather(start, wanted.as_slice())?;
        Ok(Found {
            matches: gathered.matches,
            names: List::from(gathered.names),
        })
    }

    // The rows that have each of these words, for a page that starts after the first `start` of them. Only those under
    // the rarest word are looked at.
    fn gather(&self, start: u64, wanted: &[Word]) -> Result<Gathered, NoMemory>
        requires { 1 ≤ length wanted.now }
        ensures { IfOk result (λ gathered. GathersPage start
            (filter (spec.is_match wanted.now) self.now.names)
            gathered.matches gathered.names.items) }
    {
        let word = &wanted[self.postings.rarest(wanted)];
        let rows = self.rows.as_slice();
        if self.postings.count(word) >= rows.len() / 4 {
            return gather_all(self.alloc, start, wanted, rows);
        }
        let first = self.postings.first_keys(word);
        let later = self.postings.later_keys(word);
        gather_under(self.alloc, start, wanted, rows, first, later)
    }

    /// The number of rows.
    pub fn rows(&self) -> u64
        ensures { result ≡ length self.now.names }
    {
        self.rows.len() as u64
    }
}
