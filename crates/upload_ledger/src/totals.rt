/// The totals of a ledger.
#[derive(Clone, Copy, Debug, PartialEq, Eq)]
pub struct Totals {
    pub entries: u64,
    /// The number of accredited issuers.
    pub issuers: u32,
    /// The number of bytes of all bodies.
    pub kept_bytes: u64,
    pub publications: u32,
}
