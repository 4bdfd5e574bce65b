//! Texts of several codes, separated by single spaces.
ghost use Rattle.std.specs.Prelude.{◌≡◌, ◌==◌, ◌<◌, ◌∷◌, length, IfSome};
ghost use Rattle.std.specs.List.{list_any, position};
ghost use Rattle.std.specs.Str.{bytes_eq};
ghost use Rattle.lei_shapes.specs.Shape.{between_spaces, is_codes, texts_at_hand};

use crate::shapes::is_code;

// The most codes that a text may have. This project's profile.
const MOST_CODES: usize = 5;

fn first_space(text: &[u8]) -> Option<usize>
    ensures { result ≡ position (λ byte. byte == 32) text.now }
{
    text.iter().position(|byte| *byte == b' ')
}

/// A text up to its first space, and what follows that space, if there is one.
pub fn cut_at_space(text: &[u8]) -> (&[u8], Option<&[u8]>)
    ensures texts { between_spaces text.now ≡ result.0.now ∷ texts_at_hand result.1 }
    ensures shorter { IfSome result.1 (λ rest. length rest.now < length text.now) }
{
    match first_space(text) {
        Some(at) => (&text[..at], Some(&text[at + 1..])),
        None => (text, None),
    }
}

// Whether the text is one of those between the spaces of another text.
fn is_listed_in(text: &[u8], several: Option<&[u8]>) -> bool
    ensures { result ≡ list_any (bytes_eq text.now) (texts_at_hand several.entry) }
{
    let mut left = several;
    while let Some(several) = left {
        let (first, rest) = cut_at_space(several);
        if text == first {
            return true;
        }
        left = rest;
    }
    false
}

// Whether the text is one to five codes, all different, separated by single spaces.
pub fn are_codes(text: &[u8]) -> bool
    ensures { result ≡ is_codes text.now }
{
    let mut left = text;
    for _ in 0..MOST_CODES {
        let (code, rest) = cut_at_space(left);
        if !is_code(code) || is_listed_in(code, rest) {
            return false;
        }
        match rest {
            Some(rest) => left = rest,
            None => return true,
        }
    }
    false
}
