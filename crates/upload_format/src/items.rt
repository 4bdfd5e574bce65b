//! Raw items of each kind.
ghost use Rattle.std.specs.Prelude.{◌≡◌};
ghost use Rattle.upload_format.specs.Bodies;

use item_fields::{Fields, Kind, RawItem};

// The item of a kind with these fields.
pub fn raw_item(kind: Kind, fields: Fields) -> RawItem
    ensures { result ≡ Bodies.raw_item kind fields }
{
    match kind {
        Kind::Record => RawItem::Record(fields),
        Kind::Relation => RawItem::Relation(fields),
        Kind::Exception => RawItem::Exception(fields),
    }
}
