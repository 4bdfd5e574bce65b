//! What a shelf keeps for each publication.
use lei_records::RowKey;
use lei_shapes::Moment;
use lei_values::List;

/// What a shelf keeps for each publication: its moment, whether those of its files that may be wide are wide, and the
/// keys that changed.
#[derive(Drop)]
pub struct Issue {
    pub moment: Moment,
    pub wide: bool,
    pub keys: List<RowKey>,
}
