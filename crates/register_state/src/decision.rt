//! The type of a decision on a request.
ghost use Rattle.std.specs.Prelude.{◌≡◌};

use lei_records::Writes;
use lei_values::KeptEntry;
use register_words::{Refusal, Reply};

/// A decision on a request: the reply, or the entry to add.
#[derive(Drop)]
pub enum Decision {
    /// Nothing is added, and this is the reply.
    Stays(Reply),
    /// This entry is added, with these writes. Its answer is the reply.
    Adds(KeptEntry, Writes),
}

// The refusal of a request that adds nothing.
pub fn refuse(refusal: Refusal) -> Decision
    ensures { result ≡ Decision.Stays (Reply.Words refusal) }
{
    Decision::Stays(Reply::Words(refusal))
}
