//! Reading strings of JSON, exactly in the form in which they are printed.
ghost use Rattle.std.specs.Prelude.{◌≡◌, ◌<◌, ◌≤◌, ◌++◌, ℕ, true, false, length, slice_index, map, option_map, MatchOption};
ghost use Rattle.json.specs.Print.{escape_byte};
ghost use Rattle.copy_forms.specs.JsonReading as spec;
ghost use Rattle.copy_forms.specs.JsonReading.{JsonGives, escapes, is_escaped, string_from};

use copy_csv::FormFault;
use std::alloc::Global;

/// The bytes after a prefix, if they start with it.
pub fn after<'a>(bytes: &'a [u8], front: &[u8]) -> Option<&'a [u8]>
    ensures { option_map (λ rest. rest.now) result ≡ spec.after_front front.now bytes.now }
{
    match bytes.strip_prefix(front) {
        Some(rest) => Some(rest),
        None => None,
    }
}

// The bytes that are printed as escapes, each with its escape.
const ESCAPES: [(u8, &str); 34] = [
    (b'"', "\\\""),
    (b'\\', "\\\\"),
    (0, "\\u0000"),
    (1, "\\u0001"),
    (2, "\\u0002"),
    (3, "\\u0003"),
    (4, "\\u0004"),
    (5, "\\u0005"),
    (6, "\\u0006"),
    (7, "\\u0007"),
    (8, "\\b"),
    (9, "\\t"),
    (10, "\\n"),
    (11, "\\u000b"),
    (12, "\\f"),
    (13, "\\r"),
    (14, "\\u000e"),
    (15, "\\u000f"),
    (16, "\\u0010"),
    (17, "\\u0011"),
    (18, "\\u0012"),
    (19, "\\u0013"),
    (20, "\\u0014"),
    (21, "\\u0015"),
    (22, "\\u0016"),
    (23, "\\u0017"),
    (24, "\\u0018"),
    (25, "\\u0019"),
    (26, "\\u001a"),
    (27, "\\u001b"),
    (28, "\\u001c"),
    (29, "\\u001d"),
    (30, "\\u001e"),
    (31, "\\u001f"),
];

fn escape_table() -> &'static [(u8, &'static str)]
    ensures { map spec.read_escape result.now ≡ escapes }
{
    &ESCAPES
}

// The byte whose escape comes first, and the bytes after the escape.
fn escape_from(bytes: &[u8]) -> Option<(u8, &[u8])>
    ensures { MatchOption result (spec.HasNoEscape bytes.now)
        (λ found. bytes.now ≡ escape_byte found.0 ++ found.1.now) }
{
    for (byte, escape) in escape_table() {
        if let Some(rest) = after(bytes, escape.as_bytes()) {
            return Some((*byte, rest));
        }
    }
    None
}

/// How many bytes precede the first one that ends a string or is printed as an escape.
pub fn plain_len(bytes: &[u8]) -> usize
    ensures within { result ≤ length bytes.now }
    ensures before { (k : ℕ) → k < result → is_escaped (slice_index bytes.now k) ≡ false }
    ensures stop { result < length bytes.now → is_escaped (slice_index bytes.now result) ≡ true }
{
    for (index, byte) in bytes.iter().enumerate() {
        if *byte == b'"' || *byte == b'\\' || *byte < 0x20 {
            return index;
        }
    }
    bytes.len()
}

/// The text of a string that may have escapes, read from after its opening quote, and the bytes after the string.
pub fn escaped_from<'a>(alloc: Global, bytes: &'a [u8]) -> Result<(Vec<u8>, &'a [u8]), FormFault>
    ensures { JsonGives (λ read. (read.0.items, read.1.now)) result (string_from bytes.now) }
{
    let mut text = Vec::new(alloc);
    let mut rest = bytes;
    loop {
        let (plain, stop) = rest.split_at(plain_len(rest));
        text.extend_from_slice(plain)?;
        if let Some(behind) = after(stop, b"\"") {
            return Ok((text, behind));
        }
        match escape_from(stop) {
            None => return Err(FormFault::NotRead),
            Some((byte, behind)) => {
                text.push(byte)?;
                rest = behind;
            }
        }
    }
}
