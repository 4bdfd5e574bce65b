//! Reads numbers from texts.
ghost use Rattle.std.specs.Prelude.{◌≡◌, ◌≤◌, ◌+◌, length};
ghost use Rattle.register_demo.specs.Marks.{digits_after, row_count_in, text_after, times};

use memchr::{memchr_iter, memmem};

/// How often a mark occurs in a text, at places that don't overlap.
pub fn times(mark: &[u8], text: &[u8]) -> usize
    ensures value { result ≡ times mark.now text.now }
    ensures most { result ≤ length text.now + 1 }
{
    memmem::find_iter(text, mark).count()
}

// The text after the first place of a mark, which is empty if the mark doesn't occur.
fn text_after<'a>(mark: &[u8], text: &'a [u8]) -> &'a [u8]
    ensures { result.now ≡ text_after mark.now text.now }
{
    match memmem::find(text, mark) {
        Some(at) => &text[at + mark.len()..],
        None => &[],
    }
}

/// The decimal digits that follow the first place of a mark.
pub fn digits_after<'a>(mark: &[u8], text: &'a [u8]) -> &'a [u8]
    ensures { result.now ≡ digits_after mark.now text.now }
{
    let rest = text_after(mark, text);
    let mut end = 0;
    while end < rest.len() && rest[end].is_ascii_digit() {
        end += 1;
    }
    &rest[..end]
}

/// How many rows a CSV file has, without its head.
pub fn rows_in(text: &[u8]) -> usize
    ensures { result ≡ row_count_in text.now }
{
    memchr_iter(b'\n', text).count().saturating_sub(1)
}
