// What the register keeps of a request that changed it.
ghost use Rattle.std.specs.Prelude.{◌≡◌, IfOk};

use crate::{Bytes, NoMemory, Shared};
use std::alloc::Global;

/// An entry of the register's history: an answered request, with its answer.
#[derive(Debug, PartialEq, Eq, Drop)]
pub struct KeptEntry {
    /// The entry's number, counted from 1.
    pub seq: u64,
    /// The kind of request: 1 for ACCREDIT, 2 for UPLOAD, 3 for PUBLISH.
    pub kind: u8,
    /// The issuer that sent the request, by the 20 bytes of its LEI. Empty for PUBLISH.
    pub office: Bytes,
    /// The number that the issuer gave its upload, 0 for ACCREDIT.
    pub number: u32,
    /// The entry's moment, in seconds since 1970 in UTC.
    pub moment: i64,
    /// The number of the rules by which it was made: 1, 2 or 3.
    pub rules: u16,
    /// The body of an upload, empty for other requests.
    pub body: Shared,
    /// The text of the answer.
    pub answer: Bytes,
}

impl KeptEntry {
    /// A copy of the entry in its own memory, except for the body, which both share.
    pub fn copy(&self, alloc: Global) -> Result<Self, NoMemory>
        ensures { IfOk result (λ copy. copy ≡ self.now) }
    {
        Ok(KeptEntry {
            seq: self.seq,
            kind: self.kind,
            office: Bytes::copy_of(alloc, self.office.as_slice())?,
            number: self.number,
            moment: self.moment,
            rules: self.rules,
            body: self.body.share()?,
            answer: Bytes::copy_of(alloc, self.answer.as_slice())?,
        })
    }
}
