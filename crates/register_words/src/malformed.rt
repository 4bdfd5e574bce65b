//! What is wrong with a body that isn't an upload.
ghost use Rattle.std.specs.Prelude.{Some};

use std::error::Error;
use std::fmt;

/// What is wrong with a body: the first of these that applies, in this order. The order and the four faults are this
/// project's profile.
#[derive(Clone, Copy, Debug, PartialEq, Eq)]
pub enum Malformed {
    /// The bytes aren't a JSON text by RFC 8259, or not one that `serde_json` reads. They aren't UTF-8, start with a
    /// byte order mark, or nest deeper than 127 levels. Or they have a number too large for a double or half of a
    /// surrogate pair, even if the value would be dropped.
    NotJson,
    /// The value isn't an object, or has a member other than `records`, `relationships` and `exceptions`. Or one of
    /// these isn't a list of objects, or a value in one of the objects isn't a text.
    NotAnUpload,
    /// The body lists no item: each of its lists is absent or empty.
    NoItems,
    /// The body lists more than 5,000 items in all.
    TooManyItems,
}

impl fmt::Display for Malformed {
    ghost use Rattle.register_words.specs.Faults.{malformed_words};

    ghost output = { λ fault. Some (malformed_words fault) };

    fn fmt<W: fmt::Write>(&self, f: &mut fmt::Formatter<W>) -> fmt::Result {
        f.write_str(match self {
            Malformed::NotJson => "the body is no JSON text",
            Malformed::NotAnUpload => "the body is no upload",
            Malformed::NoItems => "the body lists no item",
            Malformed::TooManyItems => "the body lists too many items",
        })
    }
}

impl Error for Malformed {}
