//! Finds where lines end.
ghost use Rattle.std.specs.Prelude.{◌≡◌, ◌≤◌, ◌<◌, ◌+◌, length, take, drop, IfSome, IfNone};
ghost use Rattle.line_reading.specs.Lines.{HasNoEnd, IsCutAtEnd, line_of};

use memchr::memchr;

/// The line that has these bytes before its LF: one CR at their end belongs to the end of the line.
pub fn line_of(part: &[u8]) -> &[u8]
    ensures { result.now ≡ line_of part.now }
{
    match part {
        [line @ .., b'\r'] => line,
        _ => part,
    }
}

/// Where the next line ends, if the first `seen` bytes, which aren't searched, have no line's end.
pub fn next_end(rest: &[u8], seen: usize) -> Option<usize>
    requires { seen ≤ length rest.now }
    ensures found { HasNoEnd (take seen rest.now)
        → IfSome result (λ end. IsCutAtEnd rest.now (take end rest.now) (drop (end + 1) rest.now)) }
    ensures within { IfSome result (λ end. end < length rest.now) }
    ensures none { HasNoEnd (take seen rest.now) → IfNone result (HasNoEnd rest.now) }
{
    let (_, unseen) = rest.split_at(seen);
    match memchr(b'\n', unseen) {
        Some(at) => Some(seen + at),
        None => None,
    }
}
