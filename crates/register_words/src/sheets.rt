//! The sheets of golden copies, and the forms that they are written in.

/// A table of a golden copy.
#[derive(Clone, Copy, Debug, PartialEq, Eq)]
pub enum Sheet {
    /// The records of legal entities.
    Lei,
    /// Their relationships.
    Rr,
    /// Their reporting exceptions.
    Repex,
}

/// The form in which a golden copy is written.
#[derive(Clone, Copy, Debug, PartialEq, Eq)]
pub enum Form {
    /// RFC 4180, with every field in quotes and LF at the end of each line.
    Csv,
    /// RFC 8259.
    Json,
}
