//! Why a query is refused.

/// Why a query is refused. This project's profile.
#[derive(Clone, Copy, Debug, PartialEq, Eq)]
pub enum QueryRefusal {
    /// The line is too long.
    TooLong,
    /// The line's first word isn't a known one.
    NoRoute,
    /// The line has too few or too many words or a word of another form, or it isn't UTF-8.
    Path,
    /// The search text has no word.
    NoWord,
    /// The search text has too many words.
    TooManyWords,
    /// The input ends before the packet does.
    Truncated,
    /// The packet isn't a delta of the required sheet and form.
    DeltaNotRead,
    /// The number of the publication that is held, and the different one that the delta starts from.
    WrongBase(u32, u32),
    /// The delta lacks columns that are held.
    OlderDelta,
    /// Nothing is held yet that could be shown.
    NothingHeld,
    /// The packet isn't a copy or a delta of the table that the line names.
    NotRead,
    /// The packet would have to be kept, and there is no room for it.
    MirrorFull,
    /// Memory ran out.
    NoMemory,
}

impl QueryRefusal {
    ghost use Rattle.std.specs.Prelude.{◌≡◌};
    ghost use Rattle.query_reading.specs.Refusals.{query_code, query_name};

    /// The status code of its reply, following HTTP (RFC 9110).
    pub fn status_code(self) -> u16
        ensures { result ≡ query_code self }
    {
        match self {
            QueryRefusal::Path
            | QueryRefusal::NoWord
            | QueryRefusal::TooManyWords
            | QueryRefusal::Truncated => 400,
            QueryRefusal::NoRoute | QueryRefusal::NothingHeld => 404,
            QueryRefusal::DeltaNotRead
            | QueryRefusal::WrongBase(_, _)
            | QueryRefusal::OlderDelta
            | QueryRefusal::NotRead => 409,
            QueryRefusal::TooLong => 413,
            QueryRefusal::NoMemory => 500,
            QueryRefusal::MirrorFull => 507,
        }
    }

    /// Its name in a reply.
    pub fn name(self) -> &'static str
        ensures { result.now ≡ query_name self }
    {
        match self {
            QueryRefusal::TooLong => "TOO_LONG",
            QueryRefusal::NoRoute => "NO_ROUTE",
            QueryRefusal::Path => "PATH",
            QueryRefusal::NoWord => "NO_WORD",
            QueryRefusal::TooManyWords => "TOO_MANY_WORDS",
            QueryRefusal::Truncated => "TRUNCATED",
            QueryRefusal::DeltaNotRead => "DELTA_NOT_READ",
            QueryRefusal::WrongBase(_, _) => "WRONG_BASE",
            QueryRefusal::OlderDelta => "OLDER_DELTA",
            QueryRefusal::NothingHeld => "NOTHING_HELD",
            QueryRefusal::NotRead => "NOT_READ",
            QueryRefusal::MirrorFull => "MIRROR_FULL",
            QueryRefusal::NoMemory => "NO_MEMORY",
        }
    }
}
