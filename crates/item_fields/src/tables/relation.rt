//! The fields of a relationship in order of place. The names are those of the columns of a golden copy of level 2 data.
//! Shapes and needs are this project's profile.
use crate::fields::Content::Shaped;
use crate::fields::{Field, Need};
use lei_records::places::RELATION_PLACES;
use lei_shapes::Shape;

pub const FIELDS: [Field; RELATION_PLACES] = [
    ("Relationship.StartNode", Shaped(Shape::Code), Need::Always),
    (
        "Relationship.RelationshipType",
        Shaped(Shape::RelationType),
        Need::Always,
    ),
    ("Relationship.EndNode", Shaped(Shape::Code), Need::Always),
    (
        "Relationship.RelationshipStatus",
        Shaped(Shape::RelationStatus),
        Need::Always,
    ),
    (
        "Relationship.StartDate",
        Shaped(Shape::Moment),
        Need::Always,
    ),
    (
        "Relationship.EndDate",
        Shaped(Shape::Moment),
        Need::Optional,
    ),
    (
        "Registration.InitialRegistrationDate",
        Shaped(Shape::Moment),
        Need::Always,
    ),
    (
        "Registration.LastUpdateDate",
        Shaped(Shape::Moment),
        Need::Always,
    ),
    (
        "Registration.RegistrationStatus",
        Shaped(Shape::RelationRegistration),
        Need::Always,
    ),
    (
        "Registration.ManagingLOU",
        Shaped(Shape::Code),
        Need::Always,
    ),
    (
        "Registration.ValidationSources",
        Shaped(Shape::Validation),
        Need::Always,
    ),
];

/// For each index, the index of the field whose name comes right before in byte order. The entry of the first name is
/// arbitrary.
pub const BEFORE: [u8; RELATION_PLACES] = [4, 3, 5, 2, 1, 10, 0, 6, 9, 7, 8];
