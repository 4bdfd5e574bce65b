//! The numbers of the checks, C01 to C53. This project's profile.

/// C01: a name isn't a field's name.
pub const FIELD_UNKNOWN: u8 = 1;

/// C02: a needed field is absent.
pub const FIELD_MISSING: u8 = 2;

/// C03: the text of a field has another shape, or the item may not have the field.
pub const FIELD_SHAPE: u8 = 3;

/// C04: the check digits of an LEI are wrong.
pub const CHECK_DIGITS: u8 = 4;

/// C05: record status and entity status aren't an allowed pair.
pub const STATUS_ENTITY: u8 = 5;

/// C06: the last update or the next renewal is before the first registration.
pub const DATES_ORDER: u8 = 6;

/// C07: the last update or the creation of the entity is on a day after today.
pub const DATE_FUTURE: u8 = 7;

/// C08: the record has a successor but may not have one, or lacks one but needs it.
pub const SUCCESSOR_SHAPE: u8 = 8;

/// C09: the item's manager isn't the uploader.
pub const MANAGER_NOT_UPLOADER: u8 = 9;

/// C10: no record with the item's LEI is held, and the item's status isn't ISSUED.
pub const NOT_ISSUED: u8 = 10;

/// C11: the held status may not change to the item's. The check names the held status.
pub const TRANSITION: u8 = 11;

/// C12: the uploader isn't the issuer that may make this change.
pub const NOT_MANAGER: u8 = 12;

/// C13: the held record has another date of first registration.
pub const INITIAL_DATE_CHANGED: u8 = 13;

/// C14: the held record was updated later than the item.
pub const UPDATE_EARLIER: u8 = 14;

/// C15: the next renewal doesn't fit the status.
pub const RENEWAL_DATE: u8 = 15;

/// C16: no record of a successor is held.
pub const SUCCESSOR_UNKNOWN: u8 = 16;

/// C17: the walk along successors returns to the item.
pub const SUCCESSOR_CYCLE: u8 = 17;

/// C18: the walk along successors has more than 200 members.
pub const SUCCESSOR_CHAIN_LONG: u8 = 18;

/// C19: another live record has the item's authority key. The check names that record's LEI.
pub const AUTHORITY_KEY_TAKEN: u8 = 19;

/// C20: there is no room for another record.
pub const REGISTER_FULL: u8 = 20;

/// C21: an event lacks its type, its recorded date or its status. The check names the first of these fields that is
/// absent.
pub const EVENT_INCOMPLETE: u8 = 21;

/// C22: an event was recorded on a day after today, or it is completed and its effective date is absent or on such a
/// day.
pub const EVENT_DATES: u8 = 22;

/// C30: start and end are equal.
pub const SAME_NODE: u8 = 30;

/// C31: the relationship ended before it started, or was updated before it was registered.
pub const PERIOD_ORDER: u8 = 31;

/// C32: no record of the start is held.
pub const START_UNKNOWN: u8 = 32;

/// C33: no record of the end is held.
pub const END_UNKNOWN: u8 = 33;

/// C34: the manager of the item or of its start's record isn't the uploader.
pub const START_NOT_MANAGED: u8 = 34;

/// C35: the start isn't of the category that the type requires.
pub const START_CATEGORY: u8 = 35;

/// C36: the registration status may not follow the held one, or doesn't fit an active relationship.
pub const RELATION_TRANSITION: u8 = 36;

/// C37: an active relationship with the item's start and type has another end. The check names that end.
pub const ACTIVE_TAKEN: u8 = 37;

/// C38: the walk along direct parents returns to the start.
pub const PARENT_CYCLE: u8 = 38;

/// C39: the walk along direct parents is too long.
pub const PARENT_CHAIN_LONG: u8 = 39;

/// C40: the start has an exception that replaces such a parent.
pub const EXCEPTION_STANDS: u8 = 40;

/// C50: no record with the exception's LEI is held.
pub const LEI_UNKNOWN: u8 = 50;

/// C51: the record's manager isn't the uploader.
pub const NOT_MANAGED: u8 = 51;

/// C52: the entity has an active parent of the category. The check names that parent.
pub const PARENT_STANDS: u8 = 52;

/// C53: the exception to withdraw isn't held.
pub const NOTHING_TO_WITHDRAW: u8 = 53;
