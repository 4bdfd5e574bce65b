// The places of each issuer's entries.
ghost use Rattle.std.specs.Prelude.{◌≡◌, ◌<◌, ◌++◌, ◌∷◌, [], Bool, Some, None, OnOk, if◌then◌else◌, ◌==◌, option_map, find, filter, vec_len, vec_capacity};
ghost use Rattle.std.specs.Option.{option_or};
ghost use Rattle.lei_code.specs.Code.{IsValid};
ghost use Rattle.lei_values.specs.declared.entry.KeptEntry.{KeptEntry};
ghost use Rattle.upload_ledger.specs.History.{entry_numbered, is_accreditation_of};
ghost use Rattle.upload_ledger.specs.Index.{ArePlaces, HasRoomForIssuer, IsIndex, IsSameIndex, accreditation_place, places_of, uploads_in};

use crate::kinds::{ACCREDIT, UPLOAD};
use lei_code::Lei;
use lei_values::{KeptEntry, NoMemory};
use std::alloc::Global;
use std::collections::BTreeMap;

// The places of an issuer's entries, counted from 0.
#[derive(Drop)]
pub struct IssuerPlaces {
    pub accreditation: Option<usize>,
    pub uploads: Vec<usize>,
}

pub type Index = BTreeMap<Lei, IssuerPlaces>;

impl IssuerPlaces {
    fn note(&mut self, kind: u8, place: usize)
        requires spare { vec_len self.old.uploads < vec_capacity self.old.uploads }
        ensures accreditation { self.new.accreditation
            ≡ (if kind == 1 then option_or self.old.accreditation (Some place) else self.old.accreditation) }
        ensures uploads { self.new.uploads.items
            ≡ (if kind == 2 then self.old.uploads.items ++ place ∷ [] else self.old.uploads.items) }
    {
        match kind {
            ACCREDIT => self.accreditation = self.accreditation.or(Some(place)),
            UPLOAD => self.uploads.push_reserved(place),
            _ => {}
        }
    }
}

// The entry that accredits the issuer.
pub fn accreditation<'a>(
    index: &Index,
    entries: &'a [KeptEntry],
    issuer: &Lei,
) -> Option<&'a KeptEntry>
    requires { IsIndex entries.now index.now }
    ensures { option_map (λ e. e.now) result ≡ find (is_accreditation_of issuer.now) entries.now }
{
    // The argument is an LEI.
    let _ = issuer.as_bytes();
    let place = accreditation_place(index, issuer)?;
    entries.get(place)
}

fn accreditation_place(index: &Index, issuer: &Lei) -> Option<usize>
    ensures { result ≡ accreditation_place (places_of index.now issuer.now) }
{
    match index.get(issuer) {
        Some(places) => places.accreditation,
        None => None,
    }
}

// The places of the issuer's uploads.
pub fn uploads<'a>(index: &'a Index, issuer: &Lei) -> &'a [usize]
    ensures places { result.now ≡ uploads_in (places_of index.now issuer.now) }
    ensures lei { IsValid issuer.now }
{
    // The argument is an LEI.
    let _ = issuer.as_bytes();
    match index.get(issuer) {
        Some(places) => places.uploads.as_slice(),
        None => &[],
    }
}

// The entry with this number among those at these places, counted from 1.
pub fn entry_at<'a>(
    entries: &'a [KeptEntry],
    places: &[usize],
    number: usize,
) -> Option<&'a KeptEntry>
    ensures { (test : KeptEntry → Bool) → ArePlaces test entries.now places.now
        → option_map (λ e. e.now) result ≡ entry_numbered (filter test entries.now) number }
{
    let place = places.get(number.checked_sub(1)?)?;
    entries.get(*place)
}

// Makes room for one more entry of an office, if it is an issuer.
pub fn make_room(alloc: Global, index: &mut Index, office: &[u8]) -> Result<(), NoMemory>
    ensures same { IsSameIndex index.old index.new }
    ensures room { OnOk result (IsValid office.now → HasRoomForIssuer index.new office.now) }
{
    match Lei::read(office) {
        Ok(issuer) => make_issuer_room(alloc, index, issuer),
        Err(_) => Ok(()),
    }
}

fn make_issuer_room(alloc: Global, index: &mut Index, issuer: Lei) -> Result<(), NoMemory>
    ensures same { IsSameIndex index.old index.new }
    ensures room { OnOk result (HasRoomForIssuer index.new issuer) }
{
    match index.get_mut(&issuer) {
        Some(places) => places.uploads.reserve(1)?,
        None => add_issuer(alloc, index, issuer)?,
    }
    Ok(())
}

// Adds an issuer without any kept entry.
fn add_issuer(alloc: Global, index: &mut Index, issuer: Lei) -> Result<(), NoMemory>
    requires { places_of index.old issuer ≡ None }
    ensures same { IsSameIndex index.old index.new }
    ensures room { OnOk result (HasRoomForIssuer index.new issuer) }
{
    let uploads = Vec::with_capacity(alloc, 1)?;
    let places = IssuerPlaces {
        accreditation: None,
        uploads,
    };
    index.insert(issuer, places)?;
    Ok(())
}

// Notes the place of the entry, which is after the others.
pub fn note(index: &mut Index, entries: &[KeptEntry], entry: &KeptEntry)
    requires room { IsValid entry.now.office → HasRoomForIssuer index.old entry.now.office }
    requires index { IsIndex entries.now index.old }
    ensures index { IsIndex (entries.now ++ entry.now ∷ []) index.new }
{
    let Ok(issuer) = Lei::read(entry.office.as_slice()) else {
        return;
    };
    if let Some(places) = index.get_mut(&issuer) {
        places.note(entry.kind, entries.len());
    }
}
