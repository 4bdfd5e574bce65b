//! The sizes of packets.
ghost use Rattle.std.specs.Prelude.{◌≡◌, ◌↔◌, decimal, IsTrue};
ghost use Rattle.mirror_queries.specs.Grammar.{large_of, mirror_packet_size};

use register_words::number_within;

/// The most bytes that a packet may have: 512 MiB. This project's profile.
pub const MAX_PACKET: u32 = 536_870_912;

/// The most bytes that can be skipped: the greatest number of 10 digits. This project's profile.
pub const MAX_SKIPPED: usize = 9_999_999_999;

/// The number of a packet's bytes that a word has in decimal, if it is from 1 to [`MAX_PACKET`].
pub fn read_size(word: &[u8]) -> Option<usize>
    ensures { result ≡ mirror_packet_size word.now }
{
    match number_within(word, 1, MAX_PACKET) {
        Some(size) => Some(size as usize),
        None => None,
    }
}

/// The number that a word has in decimal, if it is too large for a packet and at most [`MAX_SKIPPED`].
pub fn read_large(word: &[u8]) -> Option<usize>
    ensures { result ≡ large_of word.now }
{
    match str::from_utf8(word) {
        Ok(text) => large_in(text),
        Err(_) => None,
    }
}

fn large_in(text: &str) -> Option<usize>
    ensures { result ≡ large_of text.now }
{
    let Ok(size) = text.parse::<usize>() else {
        return None;
    };
    if (MAX_PACKET as usize) < size && size <= MAX_SKIPPED && is_decimal(text, size) {
        Some(size)
    } else {
        None
    }
}

fn is_decimal(text: &str, number: usize) -> bool
    ensures { IsTrue result ↔ (text.now ≡ decimal number) }
{
    itoa::Buffer::new().format(number) == text
}
