//! Words of headers, without regard to ASCII case.
ghost use Rattle.std.specs.Prelude.{◌≡◌, reverse};
ghost use Rattle.httparse.specs.Grammar.{skip_ows, trim_ows};
ghost use Rattle.http_heads.specs.Headers.{are_alike, has_close};

// Whether two texts are equal, apart from ASCII case.
pub fn are_alike(first: &[u8], second: &[u8]) -> bool
    ensures { result ≡ are_alike first.now second.now }
{
    first.eq_ignore_ascii_case(second)
}

// The bytes starting with the first that isn't a space or tab.
fn without_front(bytes: &[u8]) -> &[u8]
    ensures { result.now ≡ skip_ows bytes.now }
{
    let mut rest = bytes;
    while let Some((first, behind)) = rest.split_first() {
        if *first != b' ' && *first != b'\t' {
            break;
        }
        rest = behind;
    }
    rest
}

// The bytes up to the last that isn't a space or tab.
fn without_end(bytes: &[u8]) -> &[u8]
    ensures { result.now ≡ reverse (skip_ows (reverse bytes.now)) }
{
    let mut rest = bytes;
    while let Some((last, before)) = rest.split_last() {
        if *last != b' ' && *last != b'\t' {
            break;
        }
        rest = before;
    }
    rest
}

// The bytes without the spaces and tabs at both ends.
#[tactic(auto, unfolding(httparse::specs::Grammar::trim_ows))]
fn without_ends(bytes: &[u8]) -> &[u8]
    ensures { result.now ≡ trim_ows bytes.now }
{
    without_end(without_front(bytes))
}

// Whether one of the parts of a value is `close`.
pub fn has_close(value: &[u8]) -> bool
    ensures { result ≡ has_close value.now }
{
    value
        .split(|byte| *byte == b',')
        .any(|part| are_alike(without_ends(part), b"close"))
}
