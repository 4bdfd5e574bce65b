//! The heads of responses.
ghost use Rattle.std.specs.Prelude.{◌≡◌, ◌++◌, ◌<◌, flat_map, OnOk};
ghost use Rattle.http_heads.specs.Responses.{allow_header, close_header, phrase_of, response_head, type_of};

use http::StatusCode;
use lei_values::NoMemory;
use register_words::Allowed;

/// The kind of text in a response.
#[derive(Clone, Copy, Debug, PartialEq, Eq)]
pub enum Content {
    Json,
    Csv,
    /// A refusal in words.
    Plain,
}

/// What the head of a response says.
#[derive(Clone, Copy, Debug, PartialEq, Eq)]
pub struct Response {
    /// The status code, following HTTP (RFC 9110).
    pub code: u16,
    pub content: Content,
    /// The number of bytes of the text.
    pub size: usize,
    /// The methods of the route, if the request has another method.
    pub allow: Option<Allowed>,
    /// Whether the connection is closed after the response.
    pub closes: bool,
}

/// Appends the head of a response. After an `Err` a part of it may have been appended.
pub fn put_head(out: &mut Vec<u8>, response: &Response) -> Result<(), NoMemory>
    ensures { OnOk result (out.new.items ≡ out.old.items ++ response_head response.now) }
{
    let mut code = itoa::Buffer::new();
    let mut size = itoa::Buffer::new();
    put_all(
        out,
        &[
            b"HTTP/1.1 ",
            code.format(response.code).as_bytes(),
            b" ",
            phrase_of(response.code).as_bytes(),
            b"\r\ncontent-type: ",
            type_of(response.content).as_bytes(),
            b"\r\ncontent-length: ",
            size.format(response.size).as_bytes(),
            allow_header(response.allow),
            close_header(response.closes),
            b"\r\n\r\n",
        ],
    )?;
    Ok(())
}

fn put_all(out: &mut Vec<u8>, pieces: &[&[u8]]) -> Result<(), NoMemory>
    ensures { OnOk result (out.new.items ≡ out.old.items ++ flat_map (λ piece. piece.now) pieces.now) }
{
    for piece in pieces {
        out.extend_from_slice(piece)?;
    }
    Ok(())
}

fn phrase_of(code: u16) -> &'static str
    ensures { result.now ≡ phrase_of code }
{
    let Ok(status) = StatusCode::from_u16(code) else {
        return "";
    };
    match status.canonical_reason() {
        Some(phrase) => phrase,
        None => "",
    }
}

fn type_of(content: Content) -> &'static str
    ensures { result.now ≡ type_of content }
{
    match content {
        Content::Json => "application/json",
        Content::Csv => "text/csv",
        Content::Plain => "text/plain",
    }
}

fn allow_header(allow: Option<Allowed>) -> &'static [u8]
    ensures { result.now ≡ allow_header allow }
{
    match allow {
        None => b"",
        Some(Allowed::Put) => b"\r\nallow: PUT",
        Some(Allowed::Get) => b"\r\nallow: GET",
        Some(Allowed::GetPut) => b"\r\nallow: GET, PUT",
    }
}

fn close_header(closes: bool) -> &'static [u8]
    ensures { result.now ≡ close_header closes }
{
    if closes {
        b"\r\nconnection: close"
    } else {
        b""
    }
}
