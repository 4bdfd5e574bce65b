//! The texts of a row while it is built, with the moments that were already read from them.
ghost use Rattle.std.specs.Prelude.{◌≡◌, ◌<◌, ◌≤◌, ◌++◌, ◌∷◌, [], length, IfOk, IfSome, OnOk, Some, option_and_then};
ghost use Rattle.lei_shapes.specs.Moment.{read_moment};
ghost use Rattle.lei_records.specs.Places.{record_places};
ghost use Rattle.lei_records.specs.Rows.{text_at};
ghost use Rattle.lei_records.specs.Spelled.{IsPrinted, moment_in, present};

use crate::field_texts::FieldTexts;
use crate::places::RECORD_PLACES;
use crate::texts::{moment_at, present_moment_at, text_at};
use lei_shapes::Moment;
use lei_values::NoMemory;
use std::alloc::Global;
use std::marker::Model;

/// The texts of a row. Contracts see the list of them.
#[derive(Drop)]
pub struct Printed {
    texts: FieldTexts,
    // For each text that was read as a moment, that moment.
    moments: [Option<Moment>; RECORD_PLACES],
}

impl Model for Printed {
    ghost use Rattle.lei_records.specs.Rows.{Row};
    ghost use Rattle.lei_records.specs.Parts.{MomentsAreRead};

    ghost Value = { Row };

    ghost view = { λ printed. printed.texts };

    ghost invariant = { λ printed. MomentsAreRead printed.texts printed.moments };
}

impl Printed {
    /// No texts yet, with room for this many bytes in total.
    pub fn with_capacity(alloc: Global, bytes: usize) -> Result<Self, NoMemory>
        ensures { IfOk result (λ printed. printed ≡ []) }
    {
        Ok(Printed {
            texts: FieldTexts::with_capacity(alloc, bytes)?,
            moments: [None; RECORD_PLACES],
        })
    }

    /// Adds a text after the others, with the moment that it reads as, if that is known.
    pub fn push(&mut self, text: &str, moment: Option<Moment>) -> Result<(), NoMemory>
        requires room { length self.old < record_places }
        requires read { IfSome moment (λ m. read_moment text.now ≡ Some m) }
        ensures { OnOk result (self.new ≡ self.old ++ text.now ∷ []) }
    {
        let index = self.texts.len();
        self.texts.push(text)?;
        self.moments[index] = moment;
        Ok(())
    }

    /// The texts, without the moments.
    pub(crate) fn texts(&self) -> &FieldTexts
        ensures { result.now ≡ self.now }
    {
        &self.texts
    }

    /// The same, with the texts moved out.
    pub fn into_texts(self) -> FieldTexts
        ensures { result ≡ self }
    {
        self.texts
    }

    /// The moment that the text at a place, counted from 1, reads as.
    pub(crate) fn moment(&self, place: usize) -> Moment
        requires first { 1 ≤ place }
        requires last { place ≤ length self.now }
        requires printed { IsPrinted (text_at self.now place) }
        ensures { result ≡ moment_in self.now place }
    {
        match self.read_at(place) {
            Some(moment) => moment,
            None => moment_at(&self.texts, place),
        }
    }

    /// The same for a text that may be absent: `None` if it is.
    pub(crate) fn present_moment(&self, place: usize) -> Option<Moment>
        requires first { 1 ≤ place }
        requires last { place ≤ length self.now }
        ensures { result ≡ option_and_then read_moment (present (text_at self.now place)) }
    {
        if text_at(&self.texts, place).is_empty() {
            return None;
        }
        match self.read_at(place) {
            Some(moment) => Some(moment),
            None => present_moment_at(&self.texts, place),
        }
    }

    // The moment of the text at a place, if it was already read.
    fn read_at(&self, place: usize) -> Option<Moment>
        requires first { 1 ≤ place }
        requires last { place ≤ length self.now }
        ensures { IfSome result (λ m. read_moment (text_at self.now place) ≡ Some m) }
    {
        if place > RECORD_PLACES {
            return None;
        }
        self.moments[place - 1]
    }
}
