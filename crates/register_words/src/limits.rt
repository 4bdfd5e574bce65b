//! The limits of an office.
ghost use Rattle.std.specs.Prelude.{◌≡◌};
ghost use Rattle.register_words.specs.Limits.{AreLimits, standard};

/// What an office takes at most. Each limit is at least 1 and at most its standard number. This project's profile.
#[derive(Clone, Copy, Debug, PartialEq, Eq)]
pub struct Limits {
    /// The length of an upload's body, in bytes.
    pub body: u64,
    /// The length of all kept bodies together, in bytes.
    pub kept: u64,
    /// The number of entries.
    pub entries: u64,
    /// The number of records that are held.
    pub records: u32,
}

impl Limits {
    /// The limits of an office that is given no other limits.
    pub fn standard() -> Limits
        ensures value { result ≡ standard }
        ensures limits { AreLimits result }
    {
        Limits {
            body: 4_194_304,
            kept: 2_147_483_648,
            entries: 10_000_000,
            records: 500_000,
        }
    }
}
