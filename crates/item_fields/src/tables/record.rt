//! The fields of a record in order of place. The names are those of the columns of a golden copy of level 1 data,
//! except for Register.TransferTo and those of an event. Shapes and needs are this project's profile.
use crate::fields::Content::Shaped;
use crate::fields::{Content, Field, Need};
use lei_records::places::RECORD_PLACES;
use lei_shapes::Shape;

pub const FIELDS: [Field; RECORD_PLACES] = [
    ("LEI", Shaped(Shape::Code), Need::Always),
    ("Entity.LegalName", Shaped(Shape::Free), Need::Always),
    (
        "Entity.LegalName.xmllang",
        Shaped(Shape::Lang),
        Need::Optional,
    ),
    (
        "Entity.LegalAddress.FirstAddressLine",
        Shaped(Shape::Free),
        Need::Always,
    ),
    (
        "Entity.LegalAddress.City",
        Shaped(Shape::Free),
        Need::Always,
    ),
    (
        "Entity.LegalAddress.Region",
        Shaped(Shape::Free),
        Need::Optional,
    ),
    (
        "Entity.LegalAddress.Country",
        Shaped(Shape::Country),
        Need::Always,
    ),
    (
        "Entity.LegalAddress.PostalCode",
        Shaped(Shape::Free),
        Need::Optional,
    ),
    (
        "Entity.HeadquartersAddress.FirstAddressLine",
        Shaped(Shape::Free),
        Need::Always,
    ),
    (
        "Entity.HeadquartersAddress.City",
        Shaped(Shape::Free),
        Need::Always,
    ),
    (
        "Entity.HeadquartersAddress.Region",
        Shaped(Shape::Free),
        Need::Optional,
    ),
    (
        "Entity.HeadquartersAddress.Country",
        Shaped(Shape::Country),
        Need::Always,
    ),
    (
        "Entity.HeadquartersAddress.PostalCode",
        Shaped(Shape::Free),
        Need::Optional,
    ),
    (
        "Entity.RegistrationAuthority.RegistrationAuthorityID",
        Shaped(Shape::Authority),
        Need::Always,
    ),
    (
        "Entity.RegistrationAuthority.RegistrationAuthorityEntityID",
        Shaped(Shape::Free),
        Need::Optional,
    ),
    (
        "Entity.LegalJurisdiction",
        Shaped(Shape::Jurisdiction),
        Need::Always,
    ),
    (
        "Entity.EntityCategory",
        Shaped(Shape::Category),
        Need::Always,
    ),
    (
        "Entity.LegalForm.EntityLegalFormCode",
        Shaped(Shape::Form),
        Need::Always,
    ),
    (
        "Entity.EntityStatus",
        Shaped(Shape::EntityStatus),
        Need::Always,
    ),
    (
        "Entity.EntityCreationDate",
        Shaped(Shape::Moment),
        Need::Optional,
    ),
    (
        "Entity.SuccessorEntity.1.SuccessorLEI",
        Content::Successors,
        Need::Optional,
    ),
    (
        "Registration.InitialRegistrationDate",
        Shaped(Shape::Moment),
        Need::Always,
    ),
    (
        "Registration.LastUpdateDate",
        Shaped(Shape::Moment),
        Need::Always,
    ),
    (
        "Registration.RegistrationStatus",
        Shaped(Shape::RecordStatus),
        Need::Always,
    ),
    (
        "Registration.NextRenewalDate",
        Shaped(Shape::Moment),
        Need::Always,
    ),
    (
        "Registration.ManagingLOU",
        Shaped(Shape::Code),
        Need::Always,
    ),
    (
        "Registration.ValidationSources",
        Shaped(Shape::Validation),
        Need::Always,
    ),
    (
        "Register.TransferTo",
        Shaped(Shape::Code),
        Need::WherePendingArchival,
    ),
    (
        "Entity.Event.1.Type",
        Shaped(Shape::EventType),
        Need::Optional,
    ),
    (
        "Entity.Event.1.EffectiveDate",
        Shaped(Shape::Moment),
        Need::Optional,
    ),
    (
        "Entity.Event.1.RecordedDate",
        Shaped(Shape::Moment),
        Need::Optional,
    ),
    (
        "Entity.Event.1.Status",
        Shaped(Shape::EventStatus),
        Need::Optional,
    ),
];

/// For each index, the index of the field whose name comes right before in byte order. The entry of the first name is
/// arbitrary.
pub const BEFORE: [u8; RECORD_PLACES] = [
    20, 15, 1, 6, 10, 7, 4, 3, 11, 28, 12, 9, 8, 14, 2, 17, 0, 5, 19, 16, 13, 27, 21, 24, 25, 22,
    23, 0, 31, 18, 29, 30,
];
