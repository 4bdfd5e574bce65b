//! The values that the texts of a row read as, by place.
ghost use Rattle.std.specs.Prelude.{◌≡◌, ◌≤◌, length, IfSome, option_and_then};
ghost use Rattle.lei_code.specs.Code.{IsValid};
ghost use Rattle.lei_shapes.specs.Moment.{read_moment};
ghost use Rattle.lei_shapes.specs.Shape.{between_spaces};
ghost use Rattle.lei_records.specs.Cells.{successors_in};
ghost use Rattle.lei_records.specs.Rows.{text_at};
ghost use Rattle.lei_records.specs.Spelled.{AreCodes, IsPrinted, IsRecordRow, moment_in, present};

use crate::field_texts::FieldTexts;
use crate::places;
use crate::successors::Successors;
use lei_code::Lei;
use lei_shapes::{Moment, cut_at_space};

// The text at a place, counted from 1.
pub fn text_at(texts: &FieldTexts, place: usize) -> &str
    requires first { 1 ≤ place }
    requires last { place ≤ length texts.now }
    ensures { result.now ≡ text_at texts.now place }
{
    texts.text(place - 1)
}

// The LEI that the text at a place reads as.
pub fn code_at(texts: &FieldTexts, place: usize) -> Lei
    requires first { 1 ≤ place }
    requires last { place ≤ length texts.now }
    requires valid { IsValid (text_at texts.now place) }
    ensures { result ≡ text_at texts.now place }
{
    Lei::of_valid(text_at(texts, place).as_bytes())
}

// The same for a text that may be absent: `None` if it is.
pub fn present_code_at(texts: &FieldTexts, place: usize) -> Option<Lei>
    requires first { 1 ≤ place }
    requires last { place ≤ length texts.now }
    requires valid { IfSome (present (text_at texts.now place)) IsValid }
    ensures { result ≡ present (text_at texts.now place) }
{
    if text_at(texts, place).is_empty() {
        return None;
    }
    Some(code_at(texts, place))
}

// The LEIs between the spaces of the text of the successor field. There are none if the text is absent.
#[tactic(auto, unfolding(crate::specs::Cells::successors_in))]
pub fn successors_at(texts: &FieldTexts) -> Successors
    requires row { IsRecordRow texts.now }
    ensures { result ≡ successors_in texts.now }
{
    let text = text_at(texts, places::SUCCESSOR);
    if text.is_empty() {
        return Successors::none();
    }
    codes_in(text.as_bytes())
}

// The LEIs between the spaces of a text.
fn codes_in(text: &[u8]) -> Successors
    requires { AreCodes text.now }
    ensures { result ≡ between_spaces text.now }
{
    let mut codes = Successors::none();
    let mut left = Some(text);
    while let Some(text) = left {
        let (code, rest) = cut_at_space(text);
        codes = codes.with(Lei::of_valid(code));
        left = rest;
    }
    codes
}

// The moment that the text at a place reads as, or `None` if the text is absent.
pub fn present_moment_at(texts: &FieldTexts, place: usize) -> Option<Moment>
    requires first { 1 ≤ place }
    requires last { place ≤ length texts.now }
    ensures { result ≡ option_and_then read_moment (present (text_at texts.now place)) }
{
    let text = text_at(texts, place);
    if text.is_empty() {
        return None;
    }
    Moment::read(text)
}

// The moment that the text at a place reads as.
#[tactic(auto, unfolding(crate::specs::Spelled::moment_in))]
pub fn moment_at(texts: &FieldTexts, place: usize) -> Moment
    requires first { 1 ≤ place }
    requires last { place ≤ length texts.now }
    requires printed { IsPrinted (text_at texts.now place) }
    ensures { result ≡ moment_in texts.now place }
{
    match Moment::read(text_at(texts, place)) {
        Some(moment) => moment,
        None => unreachable!(),
    }
}
