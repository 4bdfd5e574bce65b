//! The texts of answers.
ghost use Rattle.std.specs.Prelude.{◌≡◌, ◌≤◌, ◌+◌, ◌++◌, [], length, vec_len, vec_capacity};
ghost use Rattle.mirror_queries.specs.Answering.{progress_text};

use lei_mirror::Standing;
use lei_values::Bytes;

/// A number of bytes that is enough for the text of any standing.
pub const STANDING_ROOM: usize = 128;

/// The answer to a packet that was taken: the number of the publication that is shown afterwards, and the number of
/// packets that are kept. It is written into memory that was allocated before.
pub fn standing_text(mut text: Vec<u8>, standing: Standing) -> Bytes
    requires none { text.items ≡ [] }
    requires room { STANDING_ROOM ≤ vec_capacity text }
    ensures { result ≡ progress_text standing.shown standing.kept }
{
    let mut shown = itoa::Buffer::new();
    let shown = shown.format(standing.shown).as_bytes();
    let mut kept = itoa::Buffer::new();
    let kept = kept.format(standing.kept).as_bytes();
    append(&mut text, shown);
    append(&mut text, b" ");
    append(&mut text, kept);
    Bytes::from(text)
}

// Appends a piece. There must be room for it.
fn append(held: &mut Vec<u8>, piece: &[u8])
    requires { vec_len held.old + length piece.now ≤ vec_capacity held.old }
    ensures items { held.new.items ≡ held.old.items ++ piece.now }
    ensures len { vec_len held.new ≡ vec_len held.old + length piece.now }
    ensures room { vec_capacity held.old ≤ vec_capacity held.new }
{
    match held.extend_from_slice(piece) {
        Ok(()) => {}
        Err(_) => unreachable!(),
    }
}
