//! The kinds of entries.

/// The kind of an entry that accredits an issuer.
pub const ACCREDIT: u8 = 1;

/// The kind of an entry that takes an upload.
pub const UPLOAD: u8 = 2;

/// The kind of an entry that is a publication.
pub const PUBLISH: u8 = 3;
