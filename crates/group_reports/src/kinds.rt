//! What relationships say of the entities at their starts.
ghost use Rattle.std.specs.Prelude.{◌≡◌};
ghost use Rattle.group_reports.specs.Links as spec;

/// What a row says of the entity at its start.
#[derive(Clone, Copy, Debug, PartialEq, Eq)]
pub enum LinkKind {
    /// The end is its direct parent.
    Direct,
    /// The end is its ultimate parent.
    Ultimate,
    /// The relationship isn't ACTIVE, or it has another type.
    Other,
}

/// What a relationship of a type and with a status says of its start.
pub fn kind_of(text: &str, status: &str) -> LinkKind
    ensures { result ≡ spec.kind_by text.now status.now }
{
    if status != "ACTIVE" {
        LinkKind::Other
    } else if text == "IS_DIRECTLY_CONSOLIDATED_BY" {
        LinkKind::Direct
    } else if text == "IS_ULTIMATELY_CONSOLIDATED_BY" {
        LinkKind::Ultimate
    } else {
        LinkKind::Other
    }
}
