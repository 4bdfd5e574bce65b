//! What a request asks, by its route, its method, the words of its path and its body.
ghost use Rattle.std.specs.Prelude.{◌≡◌, true, option_map, IfOk, OnErr};
ghost use Rattle.std.specs.Char.{is_ascii};
ghost use Rattle.std.specs.List.{list_all};
ghost use Rattle.matchit.specs.Params.{named, walk};
ghost use Rattle.register_words.specs.Readings.{MayWantMemory};
ghost use Rattle.http_heads.specs.Asking.{accredit_in, asked_at, asked_by_method, asks, copy_in, delta_in, key_in, kept_in, publish_in, show_in, upload_with_body};
ghost use Rattle.http_heads.specs.Routes.{routes};

use crate::routes::{Method, Place, path_of};
use lei_code::Lei;
use lei_values::{NoMemory, Shared};
use matchit::{Params, Router};
use register_words::{
    Allowed, Asked, Call, Refusal, Request, base_of, code_of, form_of, number_of, sheet_of,
};
use std::alloc::Global;
use std::marker::Model;

// The words that the parameters of a route took from a path. Contracts see them as pairs of a name and a word.
#[derive(Drop)]
struct Words<'k, 'v> {
    params: Params<'k, 'v>,
}

impl<'k, 'v> Model for Words<'k, 'v> {
    ghost use Rattle.std.specs.Prelude.{ℕ, List};
    ghost use Rattle.matchit.specs.Params.{AllText, walk};

    ghost Value = { List (List ℕ × List ℕ) };

    ghost view = { λ w. walk w.params.pattern.now w.params.text.now w.params.path.now
        w.params.names.now 0 0 };

    ghost invariant = { λ w. AllText
        (walk w.params.pattern.now w.params.text.now w.params.path.now w.params.names.now 0 0) };
}

impl<'k, 'v> Words<'k, 'v> {
    // The words of a route and a path, if the path is ASCII.
    fn of(params: Params<'k, 'v>) -> Words<'k, 'v>
        requires text { list_all is_ascii params.text.now ≡ true }
        requires path { list_all is_ascii params.path.now ≡ true }
        ensures { result ≡ walk params.entry.pattern.now params.entry.text.now params.entry.path.now
            params.entry.names.now 0 0 }
    {
        Words { params }
    }

    // The word that the parameter with this name took.
    fn get(&self, name: &str) -> Option<&'v [u8]>
        ensures { option_map (λ word. word.now) result ≡ named name.now self.now }
    {
        match self.params.get(name) {
            Some(word) => Some(word.as_bytes()),
            None => None,
        }
    }
}

fn is_ascii(text: &str) -> bool
    ensures { result ≡ list_all is_ascii text.now }
{
    text.bytes().all(|byte| byte.is_ascii())
}

/// What a method asks of a target, with this body, which only an upload uses. The only error is lack of memory for the
/// body of an upload.
pub fn asked_of(
    alloc: Global,
    router: &Router<Place>,
    method: Method,
    target: &str,
    body: &[u8],
) -> Result<Asked, NoMemory>
    requires { router.now ≡ routes }
    ensures ok { IfOk result (λ asked. asked ≡ asked_by_method method target.now body.now) }
    ensures err { OnErr result (MayWantMemory (asked_by_method method target.now body.now)) }
{
    let path = path_of(target);
    match router.at(path) {
        Ok(found) => {
            let place = *found.value;
            if !is_ascii(path) {
                let params = Params::new();
                return asked_at(alloc, place, method, &Words { params }, body);
            }
            asked_at(alloc, place, method, &Words::of(found.params), body)
        }
        Err(_) => Ok(Asked::Refuse(Refusal::NoRoute)),
    }
}

// What a method asks at a place.
fn asked_at(
    alloc: Global,
    place: Place,
    method: Method,
    words: &Words<'_, '_>,
    body: &[u8],
) -> Result<Asked, NoMemory>
    ensures ok { IfOk result (λ asked. asked ≡ asked_at place method words.now body.now) }
    ensures err { OnErr result (MayWantMemory (asked_at place method words.now body.now)) }
{
    match (place, method) {
        (Place::Issuer, Method::Put) => Ok(asks(accredit(words))),
        (Place::Upload, Method::Put) => Ok(asks(upload(alloc, words, body)?)),
        (Place::Upload, Method::Get) => Ok(asks(kept_request(words))),
        (Place::Publication, Method::Put) => Ok(asks(publish(words))),
        (Place::Record, Method::Get) => Ok(asks(show(words))),
        (Place::Copy, Method::Get) => Ok(asks(copy(words))),
        (Place::Delta, Method::Get) => Ok(asks(delta(words))),
        (Place::Status, Method::Get) => Ok(Asked::Ask(Request::Status)),
        (Place::Issuer | Place::Publication, _) => Ok(Asked::Refuse(Refusal::Method(Allowed::Put))),
        (Place::Upload, _) => Ok(Asked::Refuse(Refusal::Method(Allowed::GetPut))),
        (Place::Record | Place::Copy | Place::Delta | Place::Status, _) => {
            Ok(Asked::Refuse(Refusal::Method(Allowed::Get)))
        }
    }
}

fn asks(request: Option<Request>) -> Asked
    ensures { result ≡ asks request }
{
    match request {
        Some(request) => Asked::Ask(request),
        None => Asked::Refuse(Refusal::Path),
    }
}

// The issuer and the number of an upload.
fn key_in(words: &Words<'_, '_>) -> Option<(Lei, u32)>
    ensures { result ≡ key_in words.now }
{
    let lou = words.get("lou")?;
    let word = words.get("number")?;
    let issuer = code_of(lou)?;
    let number = number_of(word)?;
    Some((issuer, number))
}

#[tactic(auto, unfolding(crate::specs::Asking::accredit_in))]
fn accredit(words: &Words<'_, '_>) -> Option<Request>
    ensures { result ≡ accredit_in words.now }
{
    let issuer = code_of(words.get("lou")?)?;
    Some(Request::Accredit(issuer))
}

#[tactic(auto, unfolding(crate::specs::Asking::upload_with_body))]
fn upload(alloc: Global, words: &Words<'_, '_>, body: &[u8]) -> Result<Option<Request>, NoMemory>
    ensures ok { IfOk result (λ request. request ≡ upload_with_body words.now body.now) }
    ensures err { OnErr result (MayWantMemory (asks (upload_with_body words.now body.now))) }
{
    match key_in(words) {
        Some((office, number)) => {
            let body = Shared::copy_of(alloc, body)?;
            Ok(Some(Request::Upload(Call {
                office,
                number,
                body,
            })))
        }
        None => Ok(None),
    }
}

#[tactic(auto, unfolding(crate::specs::Asking::kept_in))]
fn kept_request(words: &Words<'_, '_>) -> Option<Request>
    ensures { result ≡ kept_in words.now }
{
    let (issuer, number) = key_in(words)?;
    Some(Request::Kept(issuer, number))
}

#[tactic(auto, unfolding(crate::specs::Asking::publish_in))]
fn publish(words: &Words<'_, '_>) -> Option<Request>
    ensures { result ≡ publish_in words.now }
{
    let number = number_of(words.get("number")?)?;
    Some(Request::Publish(number))
}

#[tactic(auto, unfolding(crate::specs::Asking::show_in))]
fn show(words: &Words<'_, '_>) -> Option<Request>
    ensures { result ≡ show_in words.now }
{
    let lei = code_of(words.get("lei")?)?;
    Some(Request::Show(lei))
}

#[tactic(auto, unfolding(crate::specs::Asking::copy_in))]
fn copy(words: &Words<'_, '_>) -> Option<Request>
    ensures { result ≡ copy_in words.now }
{
    let table = words.get("table")?;
    let word = words.get("form")?;
    let sheet = sheet_of(table)?;
    let form = form_of(word)?;
    Some(Request::Copy(sheet, form))
}

#[tactic(auto, unfolding(crate::specs::Asking::delta_in))]
fn delta(words: &Words<'_, '_>) -> Option<Request>
    ensures { result ≡ delta_in words.now }
{
    let name = words.get("base")?;
    let table = words.get("table")?;
    let word = words.get("form")?;
    let base = base_of(name)?;
    let sheet = sheet_of(table)?;
    let form = form_of(word)?;
    Some(Request::Delta(base, sheet, form))
}
