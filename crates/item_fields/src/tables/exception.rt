//! The fields of an exception in order of place: the four of its row, and the action. The names are those of the
//! columns of a golden copy of reporting exceptions, except for the last one. Shapes and needs are this project's
//! profile.
use crate::fields::Content::{Action, Shaped};
use crate::fields::{Field, Need};
use lei_records::places::ACTION;
use lei_shapes::Shape;

pub const FIELDS: [Field; ACTION] = [
    ("LEI", Shaped(Shape::Code), Need::Always),
    (
        "ExceptionCategory",
        Shaped(Shape::ExceptionCategory),
        Need::Always,
    ),
    (
        "ExceptionReason",
        Shaped(Shape::Reason),
        Need::UnlessWithdrawn,
    ),
    ("ExceptionReference", Shaped(Shape::Free), Need::Optional),
    ("Action", Action, Need::Optional),
];

/// For each index, the index of the field whose name comes right before in byte order. The entry of the first name is
/// arbitrary.
pub const BEFORE: [u8; ACTION] = [3, 4, 1, 2, 0];
