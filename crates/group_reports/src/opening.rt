//! What is kept of two copies.
ghost use Rattle.std.specs.Prelude.{◌≡◌, is_some, IfErr, OnOk};
ghost use Rattle.group_reports.specs.Links as spec;

use crate::faults::GroupFault;
use copy_csv::Head;

/// Whether two copies go together: if both have a head, they must have the same publication.
pub fn check(lei: &Option<Head>, rr: &Option<Head>) -> Result<(), GroupFault>
    requires { is_some lei.now ≡ is_some rr.now }
    ensures ok { OnOk result (spec.head_publication lei.now ≡ spec.head_publication rr.now) }
    ensures refusal { IfErr result (spec.IsGroupFault lei.now rr.now) }
{
    if let (Some(first), Some(second)) = (lei, rr) {
        if first.publication != second.publication {
            return Err(GroupFault::OtherPublication(first.publication, second.publication));
        }
    }
    Ok(())
}
