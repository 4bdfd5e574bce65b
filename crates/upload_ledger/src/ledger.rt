//! The ledger: the entries of a history, with an index by issuer.
ghost use Rattle.std.specs.Prelude.{◌≡◌, ◌≤◌, ◌<◌, if◌then◌else◌, vec_len, vec_capacity, ◌++◌, ◌∷◌, [], Ok, Some, None, OnOk, OnErr, option_map};
ghost use Rattle.upload_ledger.specs.History.{accredited, entry_numbered, is_accreditation, is_publication, kept, last, next_number, place, publications, published, totals, upload_at};
ghost use Rattle.upload_ledger.specs.Limits.{AreFew};
ghost use Rattle.upload_ledger.specs.Places.{IsPlace};
ghost use Rattle.upload_ledger.specs.State.{empty_ledger};

use crate::index::{Index, accreditation, entry_at, make_room, note, uploads};
use crate::kinds::{ACCREDIT, PUBLISH};
use crate::place::Place;
use crate::totals::Totals;
use lei_code::Lei;
use lei_values::{Bytes, KeptEntry, NoMemory};
use std::alloc::Global;
use std::collections::BTreeMap;
use std::marker::Model;
use std::snapshot::Snapshot;

/// The entries of a history. Contracts see it as the list of them, with the issuer for whose next entry there is room.
/// The time of a lookup depends on the logarithm of the number of issuers, and a lookup doesn't go through the entries.
#[derive(Drop)]
pub struct Ledger {
    alloc: Global,
    entries: Vec<KeptEntry>,
    index: Index,
    publications: Vec<usize>,
    accreditations: u32,
    kept_bytes: u64,
    room: Option<Snapshot<Bytes>>,
}

impl Model for Ledger {
    ghost use Rattle.std.specs.Prelude.{option_map};
    ghost use Rattle.upload_ledger.specs.State.{LedgerState};

    ghost Value = { LedgerState };

    ghost use Rattle.upload_ledger.specs.Ledgers.{IsLedger};

    ghost view = { λ ledger. record
        { entries = ledger.entries.items; room = option_map (λ s. s.value) ledger.room } };

    ghost invariant = { IsLedger };
}

impl Ledger {
    /// A ledger without entries. It takes no memory yet.
    pub fn new(alloc: Global) -> Result<Self, NoMemory>
        ensures { result ≡ Ok empty_ledger }
    {
        Ok(Ledger {
            alloc,
            entries: Vec::new(alloc),
            index: BTreeMap::new(alloc),
            publications: Vec::new(alloc),
            accreditations: 0,
            kept_bytes: 0,
            room: None,
        })
    }

    /// The entries, in the order in which they were taken.
    pub fn entries(&self) -> &[KeptEntry]
        ensures { result.now ≡ self.now.entries }
    {
        self.entries.as_slice()
    }

    /// Where the upload falls: the first case that applies.
    pub fn place(&self, office: &Lei, number: u32, body: &[u8]) -> Place<'_>
        ensures { IsPlace result (place self.now.entries office.now number body.now) }
    {
        if self.accredited(office).is_none() {
            return Place::UnknownOffice;
        }
        let last = self.last(office);
        if number <= last {
            return match self.upload_at(office, number) {
                Some(entry) if entry.body.as_slice() == body => Place::Repeat(
                    entry.answer.as_slice(),
                ),
                _ => Place::Taken,
            };
        }
        if number > last + 1 {
            return Place::Ahead(last + 1);
        }
        Place::Fresh
    }

    /// The answer to the issuer's accreditation.
    pub fn accredited(&self, office: &Lei) -> Option<&[u8]>
        ensures { option_map (λ text. text.now) result ≡ accredited self.now.entries office.now }
    {
        let entry = accreditation(&self.index, self.entries.as_slice(), office)?;
        Some(entry.answer.as_slice())
    }

    /// The answer to the issuer's upload with this number.
    pub fn kept(&self, office: &Lei, number: u32) -> Option<&[u8]>
        ensures { option_map (λ text. text.now) result ≡ kept self.now.entries office.now number }
    {
        let entry = self.upload_at(office, number)?;
        Some(entry.answer.as_slice())
    }

    /// The answer to the publication with this number.
    pub fn publication(&self, number: u32) -> Option<&[u8]>
        ensures { option_map (λ text. text.now) result ≡ published self.now.entries number }
    {
        let entry = self.publication_at(number)?;
        Some(entry.answer.as_slice())
    }

    /// The number of the issuer's next upload.
    pub fn next_number(&self, office: &Lei) -> u32
        ensures { result ≡ next_number self.now.entries office.now }
    {
        self.last(office) + 1
    }

    // The number of the issuer's last upload, or 0 if there is none.
    fn last(&self, office: &Lei) -> u32
        ensures last { result ≡ last self.now.entries office.now }
        ensures few { result ≤ 10000000 }
    {
        uploads(&self.index, office).len() as u32
    }

    fn upload_at(&self, office: &Lei, number: u32) -> Option<&KeptEntry>
        ensures { option_map (λ e. e.now) result ≡ upload_at self.now.entries office.now number }
    {
        let places = uploads(&self.index, office);
        entry_at(self.entries.as_slice(), places, number as usize)
    }

    fn publication_at(&self, number: u32) -> Option<&KeptEntry>
        ensures { option_map (λ e. e.now) result ≡ entry_numbered (publications self.now.entries) number }
    {
        entry_at(
            self.entries.as_slice(),
            self.publications.as_slice(),
            number as usize,
        )
    }

    /// The totals of the entries.
    pub fn totals(&self) -> Totals
        ensures value { result ≡ totals self.now.entries }
        ensures few { AreFew self.now.entries }
    {
        Totals {
            entries: self.entries.len() as u64,
            issuers: self.accreditations,
            kept_bytes: self.kept_bytes,
            publications: self.publications.len() as u32,
        }
    }

    /// Makes room for one entry of this issuer, of any kind.
    pub fn reserve(&mut self, entry: &KeptEntry) -> Result<(), NoMemory>
        ensures entries { self.new.entries ≡ self.old.entries }
        ensures room { OnOk result (self.new.room ≡ Some entry.now.office) }
        ensures unchanged { OnErr result (self.new ≡ self.old) }
    {
        self.entries.reserve(1)?;
        self.publications.reserve(1)?;
        make_room(self.alloc, &mut self.index, entry.office.as_slice())?;
        self.room = Some(Snapshot::of(&entry.office));
        Ok(())
    }

    /// Adds an entry that room was made for. It takes no memory.
    pub fn push_reserved(&mut self, entry: KeptEntry)
        requires room { self.old.room ≡ Some entry.office }
        requires few { AreFew (self.old.entries ++ entry ∷ []) }
        ensures entries { self.new.entries ≡ self.old.entries ++ entry ∷ [] }
        ensures room { self.new.room ≡ None }
    {
        note(&mut self.index, self.entries.as_slice(), &entry);
        note_publication(&mut self.publications, &entry, self.entries.len());
        self.accreditations += accreditations_in(&entry);
        self.kept_bytes += entry.body.len() as u64;
        self.room = None;
        self.entries.push_reserved(entry);
    }
}

// Notes the place of the entry, if it is a publication.
fn note_publication(publications: &mut Vec<usize>, entry: &KeptEntry, place: usize)
    requires spare { vec_len publications.old < vec_capacity publications.old }
    ensures { publications.new.items
        ≡ (if is_publication entry.now then publications.old.items
        ++ place ∷ [] else publications.old.items) }
{
    if entry.kind == PUBLISH {
        publications.push_reserved(place);
    }
}

fn accreditations_in(entry: &KeptEntry) -> u32
    ensures { result ≡ (if is_accreditation entry.now then 1 else 0) }
{
    u32::from(entry.kind == ACCREDIT)
}
