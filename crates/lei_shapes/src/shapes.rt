//! The shapes that texts of fields have.
ghost use Rattle.std.specs.Prelude.{◌≡◌, ◌&&◌, length, chars, not};
ghost use Rattle.std.specs.Int.{is_in_range};
ghost use Rattle.std.specs.Char.{is_ascii_digit, is_control};
ghost use Rattle.std.specs.List.{list_all, list_any};
ghost use Rattle.lei_shapes.specs.Shape.{fits_shape, is_capital_or_digit, is_lang_byte, is_code as code, is_free as free, is_lang as lang, is_country as country, is_authority as authority, is_subdivision as subdivision, is_jurisdiction as jurisdiction, is_form as form};

use crate::codes::are_codes;
use crate::{
    Category, EntityStatus, EventStatus, EventType, ExceptionCategory, Moment, Reason,
    RecordStatus, RelationRegistration, RelationStatus, RelationType, Validation,
};

/// The shape of a field's text: one for each way that texts are built, and one for each list of values.
#[derive(Clone, Copy, Debug, PartialEq, Eq, Hash)]
pub enum Shape {
    /// A Legal Entity Identifier, whatever its check digits.
    Code,
    /// One to five Legal Entity Identifiers, whatever their check digits, all different, separated by single spaces.
    Codes,
    /// A text without control characters.
    Free,
    /// A language tag.
    Lang,
    /// A country code.
    Country,
    /// The code of a registration authority.
    Authority,
    /// A country, or a part of it.
    Jurisdiction,
    /// The code of a legal form.
    Form,
    /// A text that [`Moment::read`] accepts.
    Moment,
    RecordStatus,
    EntityStatus,
    Category,
    Validation,
    RelationType,
    RelationStatus,
    RelationRegistration,
    ExceptionCategory,
    Reason,
    EventType,
    EventStatus,
}

/// Whether the text has the shape. This says nothing of the text's meaning, such as its check digits or whether a code
/// is in use.
pub fn fits(shape: Shape, text: &str) -> bool
    ensures { result ≡ fits_shape shape text.now }
{
    match shape {
        Shape::Code => is_code(text.as_bytes()),
        Shape::Codes => are_codes(text.as_bytes()),
        Shape::Free => is_free(text),
        Shape::Lang => is_lang(text.as_bytes()),
        Shape::Country => is_country(text.as_bytes()),
        Shape::Authority => is_authority(text.as_bytes()),
        Shape::Jurisdiction => is_jurisdiction(text.as_bytes()),
        Shape::Form => is_form(text.as_bytes()),
        Shape::Moment => Moment::read(text).is_some(),
        Shape::RecordStatus => RecordStatus::read(text).is_some(),
        Shape::EntityStatus => EntityStatus::read(text).is_some(),
        Shape::Category => Category::read(text).is_some(),
        Shape::Validation => Validation::read(text).is_some(),
        Shape::RelationType => RelationType::read(text).is_some(),
        Shape::RelationStatus => RelationStatus::read(text).is_some(),
        Shape::RelationRegistration => RelationRegistration::read(text).is_some(),
        Shape::ExceptionCategory => ExceptionCategory::read(text).is_some(),
        Shape::Reason => Reason::read(text).is_some(),
        Shape::EventType => EventType::read(text).is_some(),
        Shape::EventStatus => EventStatus::read(text).is_some(),
    }
}

/// Whether the text has the form of a Legal Entity Identifier, whatever its check digits.
pub fn is_code(text: &[u8]) -> bool
    ensures { result ≡ code text.now }
{
    text.len() == 20 && are_capitals_or_digits(&text[..18]) && are_digits(&text[18..])
}

#[tactic(auto, using(crate::proofs::ShapeLemmas::free_ascii))]
fn is_free(text: &str) -> bool
    ensures { result ≡ free text.now }
{
    if text.is_ascii() {
        return are_free(text.as_bytes());
    }
    (1..=500).contains(&char_count(text)) && !has_control(text)
}

// The same for bytes, for a text whose characters they are.
fn are_free(text: &[u8]) -> bool
    ensures { result ≡ (is_in_range 1 500 (length text.now) && not (list_any is_control text.now)) }
{
    (1..=500).contains(&text.len()) && !has_control_byte(text)
}

fn has_control_byte(text: &[u8]) -> bool
    ensures { result ≡ list_any is_control text.now }
{
    text.iter()
        .fold(false, |found, byte| found | is_control_byte(*byte))
}

fn is_control_byte(byte: u8) -> bool
    ensures { result ≡ is_control byte }
{
    byte < 0x20 || (0x7F..=0x9F).contains(&byte)
}

fn char_count(text: &str) -> usize
    ensures { result ≡ length (chars text.now) }
{
    text.chars().count()
}

fn has_control(text: &str) -> bool
    ensures { result ≡ list_any is_control (chars text.now) }
{
    text.chars().any(|c| c.is_control())
}

fn is_lang(text: &[u8]) -> bool
    ensures { result ≡ lang text.now }
{
    (1..=35).contains(&text.len()) && are_lang_bytes(text)
}

fn is_country(text: &[u8]) -> bool
    ensures { result ≡ country text.now }
{
    text.len() == 2 && text.iter().all(|b| b.is_ascii_uppercase())
}

fn is_authority(text: &[u8]) -> bool
    ensures { result ≡ authority text.now }
{
    text.len() == 8 && text.starts_with(b"RA") && are_digits(&text[2..])
}

fn is_jurisdiction(text: &[u8]) -> bool
    ensures { result ≡ jurisdiction text.now }
{
    text.len() >= 2 && is_country(&text[..2]) && is_subdivision(&text[2..])
}

// What may follow the country of a jurisdiction.
fn is_subdivision(text: &[u8]) -> bool
    ensures { result ≡ subdivision text.now }
{
    match text {
        [] => true,
        [b'-', code @ ..] => (1..=3).contains(&code.len()) && are_capitals_or_digits(code),
        _ => false,
    }
}

fn is_form(text: &[u8]) -> bool
    ensures { result ≡ form text.now }
{
    text.len() == 4 && are_capitals_or_digits(text)
}

fn are_digits(text: &[u8]) -> bool
    ensures { result ≡ list_all is_ascii_digit text.now }
{
    text.iter().all(|b| b.is_ascii_digit())
}

fn are_capitals_or_digits(text: &[u8]) -> bool
    ensures { result ≡ list_all is_capital_or_digit text.now }
{
    text.iter()
        .all(|b| b.is_ascii_uppercase() || b.is_ascii_digit())
}

fn are_lang_bytes(text: &[u8]) -> bool
    ensures { result ≡ list_all is_lang_byte text.now }
{
    text.iter().all(|b| b.is_ascii_alphanumeric() || *b == b'-')
}
