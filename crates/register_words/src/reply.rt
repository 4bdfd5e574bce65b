//! Replies and refusals.
ghost use Rattle.std.specs.Prelude.{◌≡◌, Some};

use crate::malformed::Malformed;
use lei_values::Bytes;
use std::fmt;

/// The form of a reply's text.
#[derive(Clone, Copy, Debug, PartialEq, Eq)]
pub enum Kind {
    Json,
    Csv,
}

/// Why a request is refused. This project's profile.
#[derive(Clone, Copy, Debug, PartialEq, Eq)]
pub enum Refusal {
    /// The line or the body is too long.
    TooLong,
    /// The request's first word isn't a known one.
    NoRoute,
    /// The request has too few or too many words, or a word of another form.
    Path,
    /// The issuer isn't accredited.
    IssuerUnknown,
    /// The issuer has already sent another body under this number.
    NumberTaken,
    /// The number that the issuer's next upload, or the next publication, has to have.
    NumberAhead(u32),
    Malformed(Malformed),
    /// The number of entries is at its limit, or the kept bodies would be too long with this one.
    LedgerFull,
    /// The issuer has sent no upload with this number.
    NotKept,
    /// No record of this LEI is held.
    LeiUnknown,
    /// There is no publication yet.
    NothingPublished,
    /// There is no publication with the number that the delta starts from.
    PublicationUnknown,
    /// No publication is old enough to be the base of the delta.
    NoBase,
    NoMemory,
    /// The entry couldn't be kept.
    KeeperFault,
    /// The head of an HTTP request isn't valid (RFC 9112), or the length of its body can't be read.
    Head,
    /// The head of an HTTP request is too long, or has too many fields.
    HeadTooLong,
    /// The length of an HTTP request's body isn't stated, or the body isn't sent with a stated length.
    LengthRequired,
    /// The route of an HTTP request has only these methods.
    Method(Allowed),
}

/// The methods of an HTTP route (RFC 9110).
#[derive(Clone, Copy, Debug, PartialEq, Eq)]
pub enum Allowed {
    Put,
    Get,
    GetPut,
}

impl Refusal {
    ghost use Rattle.register_words.specs.Refusals.{refusal_status_code, refusal_name, refusal_number};

    /// The status code of its reply, following HTTP (RFC 9110).
    pub fn status_code(self) -> u16
        ensures { result ≡ refusal_status_code self }
    {
        match self {
            Refusal::Path | Refusal::Malformed(_) | Refusal::Head => 400,
            Refusal::NoRoute
            | Refusal::IssuerUnknown
            | Refusal::NotKept
            | Refusal::LeiUnknown
            | Refusal::NothingPublished
            | Refusal::PublicationUnknown
            | Refusal::NoBase => 404,
            Refusal::Method(_) => 405,
            Refusal::NumberTaken | Refusal::NumberAhead(_) => 409,
            Refusal::LengthRequired => 411,
            Refusal::TooLong => 413,
            Refusal::HeadTooLong => 431,
            Refusal::NoMemory => 500,
            Refusal::KeeperFault => 503,
            Refusal::LedgerFull => 507,
        }
    }

    /// Its name in a reply, followed by the fault's name for a body that isn't an upload.
    pub fn name(self) -> &'static str
        ensures { result.now ≡ refusal_name self }
    {
        match self {
            Refusal::TooLong => "TOO_LONG",
            Refusal::NoRoute => "NO_ROUTE",
            Refusal::Path => "PATH",
            Refusal::IssuerUnknown => "ISSUER_UNKNOWN",
            Refusal::NumberTaken => "NUMBER_TAKEN",
            Refusal::NumberAhead(_) => "NUMBER_AHEAD",
            Refusal::Malformed(Malformed::NotJson) => "MALFORMED NOT_JSON",
            Refusal::Malformed(Malformed::NotAnUpload) => "MALFORMED NOT_AN_UPLOAD",
            Refusal::Malformed(Malformed::NoItems) => "MALFORMED NO_ITEMS",
            Refusal::Malformed(Malformed::TooManyItems) => "MALFORMED TOO_MANY_ITEMS",
            Refusal::LedgerFull => "LEDGER_FULL",
            Refusal::NotKept => "NOT_KEPT",
            Refusal::LeiUnknown => "LEI_UNKNOWN",
            Refusal::NothingPublished => "NOTHING_PUBLISHED",
            Refusal::PublicationUnknown => "PUBLICATION_UNKNOWN",
            Refusal::NoBase => "NO_BASE",
            Refusal::NoMemory => "NO_MEMORY",
            Refusal::KeeperFault => "KEEPER_FAULT",
            Refusal::Head => "HEAD",
            Refusal::HeadTooLong => "HEAD_TOO_LONG",
            Refusal::LengthRequired => "LENGTH_REQUIRED",
            Refusal::Method(_) => "METHOD",
        }
    }

    /// The number that follows its name, after a space.
    pub fn number(self) -> Option<u32>
        ensures { result ≡ refusal_number self }
    {
        match self {
            Refusal::NumberAhead(next) => Some(next),
            _ => None,
        }
    }
}

impl fmt::Display for Refusal {
    ghost use Rattle.register_words.specs.Refusals.{refusal_words};

    ghost output = { λ refusal. Some (refusal_words refusal) };

    fn fmt<W: fmt::Write>(&self, f: &mut fmt::Formatter<W>) -> fmt::Result {
        f.write_str(self.name())?;
        match self.number() {
            Some(number) => write!(f, " {number}"),
            None => Ok(()),
        }
    }
}

/// The reply to a request.
#[derive(Debug, PartialEq, Eq, Drop)]
pub enum Reply {
    Text { code: u16, kind: Kind, text: Bytes },
    Words(Refusal),
}

impl Reply {
    ghost use Rattle.register_words.specs.Refusals.{reply_status_code};

    /// Its status code, following HTTP (RFC 9110).
    pub fn status_code(&self) -> u16
        ensures { result ≡ reply_status_code self.now }
    {
        match self {
            Reply::Text { code, .. } => *code,
            Reply::Words(refusal) => refusal.status_code(),
        }
    }
}
