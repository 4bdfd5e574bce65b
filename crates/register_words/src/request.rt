//! Requests.
ghost use Rattle.std.specs.Prelude.{◌↔◌, IsTrue};
ghost use Rattle.register_words.specs.Requests.{IsUploadNumber};

use crate::base::Base;
use crate::reply::Refusal;
use crate::sheets::{Form, Sheet};
use crate::words::MAX_NUMBER;
use lei_code::Lei;
use lei_values::Shared;

/// Whether an upload, or a publication, may have this number.
pub fn is_upload_number(number: u32) -> bool
    ensures { IsTrue result ↔ IsUploadNumber number }
{
    number >= 1 && number <= MAX_NUMBER
}

/// A numbered upload of an issuing office.
#[derive(Debug, PartialEq, Eq, Drop)]
pub struct Call {
    pub office: Lei,
    /// From 1 to [`MAX_NUMBER`].
    pub number: u32,
    pub body: Shared,
}

/// What the register is asked to do.
#[derive(Debug, PartialEq, Eq, Drop)]
pub enum Request {
    /// To let an issuing office send uploads.
    Accredit(Lei),
    /// To take an upload.
    Upload(Call),
    /// To show the answer to the issuer's upload with this number.
    Kept(Lei, u32),
    /// To publish what the register holds, as the publication with this number, from 1 to [`MAX_NUMBER`].
    Publish(u32),
    /// To show the record of this LEI.
    Show(Lei),
    /// To give the copy of a sheet in the latest publication.
    Copy(Sheet, Form),
    /// To give the delta of a sheet from an earlier publication to the latest.
    Delta(Base, Sheet, Form),
    /// To report how much is kept and held.
    Status,
}

/// What a reader makes of a request's bytes: the request, or the refusal that is its reply.
#[derive(Debug, PartialEq, Eq, Drop)]
pub enum Asked {
    Ask(Request),
    Refuse(Refusal),
}
