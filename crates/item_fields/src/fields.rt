//! The kinds of items, and the tables of their fields.
ghost use Rattle.std.specs.Prelude.{◌≡◌, map};
ghost use Rattle.item_fields.specs.Fields;
ghost use Rattle.item_fields.specs.Fields.{is_needed, may_be_present, read_field};

use crate::tables;
use lei_records::Rules;
use lei_records::places::{
    ACTION, EXCEPTION_PLACES, PLACES_BEFORE_EVENT, RECORD_PLACES, RELATION_PLACES,
};
use lei_shapes::{Shape, fits};

/// The kinds of items. Each kind has its own fields.
#[derive(Clone, Copy, Debug, PartialEq, Eq)]
pub enum Kind {
    /// A legal entity and its registration.
    Record,
    /// A relationship between two entities.
    Relation,
    /// Why an entity reports no parent.
    Exception,
}

/// What a field holds.
#[derive(Clone, Copy, Debug, PartialEq, Eq)]
pub enum Content {
    /// A text of this shape. It is in the row.
    Shaped(Shape),
    /// The LEIs of the entities that succeeded this one: one by the first rules, and one to five by the later ones.
    /// They are in the row.
    Successors,
    /// What is to be done with an exception: `PUT` or `WITHDRAW`. It isn't in the row.
    Action,
}

/// When an item needs a field.
#[derive(Clone, Copy, Debug, PartialEq, Eq)]
pub enum Need {
    /// In every item of the kind.
    Always,
    /// Never: no item needs it.
    Optional,
    /// In a record whose registration status is PENDING_ARCHIVAL. No other record may have the field.
    WherePendingArchival,
    /// In an exception that isn't a withdrawal. A withdrawal may have the field too.
    UnlessWithdrawn,
}

/// What the checks of an item's fields depend on: the rules, and two facts of the item as it was sent.
#[derive(Clone, Copy, Debug, PartialEq, Eq)]
pub struct Facts {
    /// The rules by which the item is read.
    pub rules: Rules,
    /// Its registration status is PENDING_ARCHIVAL.
    pub archival: bool,
    /// Its action is WITHDRAW.
    pub withdrawal: bool,
}

/// A field's name, what it holds, and when it is needed.
pub type Field = (&'static str, Content, Need);

impl Kind {
    /// The fields that an item of this kind may have, in order of place.
    #[tactic(auto, unfolding(crate::specs::Fields::fields, crate::specs::Fields::relation_fields, crate::specs::Fields::exception_fields))]
    pub fn fields(self) -> &'static [Field]
        ensures table { map read_field result.now ≡ Fields.fields_of self }
        ensures names { map (λ field. field.0.now) result.now ≡ Fields.names_of self }
    {
        match self {
            Kind::Record => &tables::record::FIELDS,
            Kind::Relation => &tables::relation::FIELDS,
            Kind::Exception => &tables::exception::FIELDS,
        }
    }

    /// The number of these fields.
    pub fn field_count(self) -> usize
        ensures { result ≡ Fields.field_count self }
    {
        match self {
            Kind::Record => RECORD_PLACES,
            Kind::Relation => RELATION_PLACES,
            Kind::Exception => ACTION,
        }
    }

    /// How many of these fields, counted from the first, the rules have.
    pub fn known_count(self, rules: Rules) -> usize
        ensures { result ≡ Fields.known_count rules self }
    {
        match (self, rules) {
            (Kind::Record, Rules::First | Rules::Second) => PLACES_BEFORE_EVENT,
            (Kind::Record, Rules::Third) => RECORD_PLACES,
            (Kind::Relation, _) => RELATION_PLACES,
            (Kind::Exception, _) => ACTION,
        }
    }

    /// How many of these fields, counted from the first, are in the kind's row.
    pub fn row_len(self) -> usize
        ensures { result ≡ Fields.row_len self }
    {
        match self {
            Kind::Record => RECORD_PLACES,
            Kind::Relation => RELATION_PLACES,
            Kind::Exception => EXCEPTION_PLACES,
        }
    }
}

impl Content {
    /// Whether the text is one that the field may hold by these rules.
    pub fn fits(self, rules: Rules, text: &str) -> bool
        ensures { result ≡ Fields.fits_content rules self text.now }
    {
        match self {
            Content::Shaped(shape) => fits(shape, text),
            Content::Successors => fits(successors_shape(rules), text),
            Content::Action => text == "PUT" || text == "WITHDRAW",
        }
    }
}

impl Need {
    /// Whether an item with these facts needs a field with this need.
    pub fn is_needed(self, facts: Facts) -> bool
        ensures { result ≡ is_needed facts self }
    {
        match self {
            Need::Always => true,
            Need::Optional => false,
            Need::WherePendingArchival => facts.archival,
            Need::UnlessWithdrawn => !facts.withdrawal,
        }
    }

    /// Whether an item with these facts may have a field with this need.
    pub fn may_be_present(self, facts: Facts) -> bool
        ensures { result ≡ may_be_present facts self }
    {
        facts.archival || self != Need::WherePendingArchival
    }
}

// The shape of the text that names successors.
fn successors_shape(rules: Rules) -> Shape
    ensures { result ≡ Fields.successors_shape rules }
{
    match rules {
        Rules::First => Shape::Code,
        Rules::Second | Rules::Third => Shape::Codes,
    }
}
