//! Reads what a line asks.
ghost use Rattle.std.specs.Prelude.{◌≡◌, None, Some, option_map, position, length, ◌==◌, ◌<◌, IfOk, IfSome, OnErr};
ghost use Rattle.register_words.specs.Readings.{MayWantMemory};
ghost use Rattle.line_reading.specs.Requests.{cut_at_space, accreditation_request, copy_request, delta_request, kept_request, publication_request, show_request, upload_request, first_word, asked_after_word, line_asks, or_path};
ghost use Rattle.line_reading.specs.LineWords.{asked_by_words};

use lei_code::Lei;
use lei_values::{NoMemory, Shared};
use register_words::{
    Asked, Call, Refusal, Request, base_of, code_of, form_of, number_of, sheet_of,
};
use std::alloc::Global;

/// The greatest length of a line, without its end, in bytes. This project's profile.
pub const MAX_LINE: usize = 4_194_340;

/// What a line asks, with the body of an upload borrowed from the line.
#[derive(Drop)]
pub enum LineWords<'a> {
    Refused(Refusal),
    /// The issuer, the number and the body.
    Upload(Lei, u32, &'a [u8]),
    Other(Request),
}

// The first words of lines that ask something.
#[derive(Clone, Copy)]
enum FirstWord {
    Accredit,
    Upload,
    Kept,
    Publish,
    Show,
    Copy,
    Delta,
    Status,
}

fn first_space(bytes: &[u8]) -> Option<usize>
    ensures first { result ≡ position (λ byte. byte == 32) bytes.now }
    ensures within { IfSome result (λ at. at < length bytes.now) }
{
    bytes.iter().position(|byte| *byte == b' ')
}

/// The bytes before the first space and those after it, if there is a space.
pub fn cut_first_word(bytes: &[u8]) -> Option<(&[u8], &[u8])>
    ensures { option_map (λ parts. (parts.0.now, parts.1.now)) result ≡ cut_at_space bytes.now }
{
    match first_space(bytes) {
        Some(at) => Some((&bytes[..at], &bytes[at + 1..])),
        None => None,
    }
}

// An upload, with its body borrowed from the line.
#[tactic(auto, unfolding(crate::specs::Requests::upload_request))]
fn upload_of(rest: &[u8]) -> LineWords<'_>
    ensures { asked_by_words result ≡ or_path (upload_request rest.now) }
{
    let Some((office, rest)) = cut_first_word(rest) else {
        return LineWords::Refused(Refusal::Path);
    };
    let Some((number, body)) = cut_first_word(rest) else {
        return LineWords::Refused(Refusal::Path);
    };
    let (Some(office), Some(number)) = (code_of(office), number_of(number)) else {
        return LineWords::Refused(Refusal::Path);
    };
    LineWords::Upload(office, number, body)
}

fn accreditation_of(rest: &[u8]) -> Option<Request>
    ensures { result ≡ accreditation_request rest.now }
{
    match code_of(rest) {
        Some(office) => Some(Request::Accredit(office)),
        None => None,
    }
}

#[tactic(auto, unfolding(crate::specs::Requests::kept_request))]
fn kept_of(rest: &[u8]) -> Option<Request>
    ensures { result ≡ kept_request rest.now }
{
    let Some((issuer, number)) = cut_first_word(rest) else {
        return None;
    };
    let (Some(issuer), Some(number)) = (code_of(issuer), number_of(number)) else {
        return None;
    };
    Some(Request::Kept(issuer, number))
}

fn publication_of(rest: &[u8]) -> Option<Request>
    ensures { result ≡ publication_request rest.now }
{
    match number_of(rest) {
        Some(number) => Some(Request::Publish(number)),
        None => None,
    }
}

#[tactic(auto, unfolding(crate::specs::Requests::copy_request))]
fn copy_of(rest: &[u8]) -> Option<Request>
    ensures { result ≡ copy_request rest.now }
{
    let Some((sheet, form)) = cut_first_word(rest) else {
        return None;
    };
    let (Some(sheet), Some(form)) = (sheet_of(sheet), form_of(form)) else {
        return None;
    };
    Some(Request::Copy(sheet, form))
}

#[tactic(auto, unfolding(crate::specs::Requests::delta_request))]
fn delta_of(rest: &[u8]) -> Option<Request>
    ensures { result ≡ delta_request rest.now }
{
    let Some((base, rest)) = cut_first_word(rest) else {
        return None;
    };
    let Some((sheet, form)) = cut_first_word(rest) else {
        return None;
    };
    let (Some(base), Some(sheet), Some(form)) = (base_of(base), sheet_of(sheet), form_of(form))
    else {
        return None;
    };
    Some(Request::Delta(base, sheet, form))
}

fn show_of(rest: &[u8]) -> Option<Request>
    ensures { result ≡ show_request rest.now }
{
    match code_of(rest) {
        Some(code) => Some(Request::Show(code)),
        None => None,
    }
}

fn first_word(word: &[u8]) -> Option<FirstWord>
    ensures { result ≡ first_word word.now }
{
    if word == b"ACCREDIT".as_slice() {
        return Some(FirstWord::Accredit);
    }
    if word == b"UPLOAD".as_slice() {
        return Some(FirstWord::Upload);
    }
    if word == b"KEPT".as_slice() {
        return Some(FirstWord::Kept);
    }
    if word == b"PUBLISH".as_slice() {
        return Some(FirstWord::Publish);
    }
    if word == b"SHOW".as_slice() {
        return Some(FirstWord::Show);
    }
    if word == b"COPY".as_slice() {
        return Some(FirstWord::Copy);
    }
    if word == b"DELTA".as_slice() {
        return Some(FirstWord::Delta);
    }
    if word == b"STATUS".as_slice() {
        return Some(FirstWord::Status);
    }
    None
}

// A request, or the refusal of the words after the first one.
fn or_path(request: Option<Request>) -> LineWords<'static>
    ensures { asked_by_words result ≡ or_path request }
{
    match request {
        Some(request) => LineWords::Other(request),
        None => LineWords::Refused(Refusal::Path),
    }
}

// What a first word asks alone.
fn asked_alone(word: Option<FirstWord>) -> LineWords<'static>
    ensures { asked_by_words result ≡ asked_after_word word None }
{
    match word {
        Some(FirstWord::Status) => LineWords::Other(Request::Status),
        Some(_) => LineWords::Refused(Refusal::Path),
        None => LineWords::Refused(Refusal::NoRoute),
    }
}

// What a first word asks with what follows its space.
fn asked_with(word: Option<FirstWord>, rest: &[u8]) -> LineWords<'_>
    ensures { asked_by_words result ≡ asked_after_word word (Some rest.now) }
{
    match word {
        Some(FirstWord::Accredit) => or_path(accreditation_of(rest)),
        Some(FirstWord::Upload) => upload_of(rest),
        Some(FirstWord::Kept) => or_path(kept_of(rest)),
        Some(FirstWord::Publish) => or_path(publication_of(rest)),
        Some(FirstWord::Show) => or_path(show_of(rest)),
        Some(FirstWord::Copy) => or_path(copy_of(rest)),
        Some(FirstWord::Delta) => or_path(delta_of(rest)),
        Some(FirstWord::Status) => LineWords::Refused(Refusal::Path),
        None => LineWords::Refused(Refusal::NoRoute),
    }
}

/// What the words of a line ask, without the line's end. It allocates nothing.
#[tactic(auto, unfolding(crate::specs::Requests::line_asks))]
pub fn words_of(line: &[u8]) -> LineWords<'_>
    ensures { asked_by_words result ≡ line_asks line.now }
{
    if line.len() > MAX_LINE {
        return LineWords::Refused(Refusal::TooLong);
    }
    match cut_first_word(line) {
        Some((word, rest)) => asked_with(first_word(word), rest),
        None => asked_alone(first_word(line)),
    }
}

/// What a line asks, without its end: a request, or the refusal that is its reply. The only error is that there is no
/// memory for the body of an upload.
pub fn line_request(alloc: Global, line: &[u8]) -> Result<Asked, NoMemory>
    ensures ok { IfOk result (λ found. found ≡ line_asks line.now) }
    ensures err { OnErr result (MayWantMemory (line_asks line.now)) }
{
    match words_of(line) {
        LineWords::Refused(refusal) => Ok(Asked::Refuse(refusal)),
        LineWords::Other(request) => Ok(Asked::Ask(request)),
        LineWords::Upload(office, number, body) => Ok(Asked::Ask(Request::Upload(Call {
            office,
            number,
            body: Shared::copy_of(alloc, body)?,
        }))),
    }
}
