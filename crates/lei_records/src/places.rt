//! The places of fields in a row, counted from 1, and how many fields a row has.

/// The number of fields in the row of a record.
pub const RECORD_PLACES: usize = 32;

/// How many of them come before those of an event.
pub const PLACES_BEFORE_EVENT: usize = 28;

/// The field LEI.
pub const LEI: usize = 1;

/// The field Entity.RegistrationAuthority.RegistrationAuthorityID.
pub const AUTHORITY: usize = 14;

/// The field Entity.RegistrationAuthority.RegistrationAuthorityEntityID.
pub const AUTHORITY_ID: usize = 15;

/// The field Entity.EntityCategory.
pub const CATEGORY: usize = 17;

/// The field Entity.EntityStatus.
pub const ENTITY_STATUS: usize = 19;

/// The field Entity.EntityCreationDate.
pub const CREATED: usize = 20;

/// The field Entity.SuccessorEntity.1.SuccessorLEI.
pub const SUCCESSOR: usize = 21;

/// The field Registration.InitialRegistrationDate.
pub const INITIAL: usize = 22;

/// The field Registration.LastUpdateDate.
pub const UPDATED: usize = 23;

/// The field Registration.RegistrationStatus.
pub const STATUS: usize = 24;

/// The field Registration.NextRenewalDate.
pub const RENEWAL: usize = 25;

/// The field Registration.ManagingLOU.
pub const MANAGER: usize = 26;

/// The field Register.TransferTo.
pub const TRANSFER_TO: usize = 28;

/// The field Entity.Event.1.Type.
pub const EVENT_TYPE: usize = 29;

/// The field Entity.Event.1.EffectiveDate.
pub const EVENT_EFFECTIVE: usize = 30;

/// The field Entity.Event.1.RecordedDate.
pub const EVENT_RECORDED: usize = 31;

/// The field Entity.Event.1.Status.
pub const EVENT_STATUS: usize = 32;

/// The number of fields in the row of a relationship.
pub const RELATION_PLACES: usize = 11;

/// The field Relationship.StartNode.
pub const START: usize = 1;

/// The field Relationship.RelationshipType.
pub const TYPE: usize = 2;

/// The field Relationship.EndNode.
pub const END: usize = 3;

/// The field Relationship.RelationshipStatus.
pub const RELATION_STATUS: usize = 4;

/// The field Relationship.StartDate.
pub const START_DATE: usize = 5;

/// The field Relationship.EndDate.
pub const END_DATE: usize = 6;

/// The field Registration.InitialRegistrationDate.
pub const RELATION_INITIAL: usize = 7;

/// The field Registration.LastUpdateDate.
pub const RELATION_UPDATED: usize = 8;

/// The field Registration.RegistrationStatus.
pub const REGISTRATION: usize = 9;

/// The field Registration.ManagingLOU.
pub const RELATION_MANAGER: usize = 10;

/// The number of fields in the row of an exception. `Action` comes after them.
pub const EXCEPTION_PLACES: usize = 4;

/// The field LEI.
pub const SUBJECT: usize = 1;

/// The field ExceptionCategory.
pub const EXCEPTION_CATEGORY: usize = 2;

/// The field ExceptionReason.
pub const REASON: usize = 3;

/// The field Action.
pub const ACTION: usize = 5;
