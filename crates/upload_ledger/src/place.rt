/// Where an upload falls among those of its issuer.
#[derive(Clone, Copy, Debug, PartialEq, Eq)]
pub enum Place<'a> {
    /// The issuer isn't accredited.
    UnknownOffice,
    /// It was taken before, with this answer.
    Repeat(&'a [u8]),
    /// An earlier upload with another body has its number.
    Taken,
    /// The next upload has this number, and the upload has a later one.
    Ahead(u32),
    Fresh,
}
