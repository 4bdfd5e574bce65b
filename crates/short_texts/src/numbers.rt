//! The number of a short text, and those of two.
ghost use Rattle.std.specs.Prelude.{◌≡◌, ◌≤◌, length};
ghost use Rattle.short_texts.specs.Packed;
ghost use Rattle.short_texts.specs.Packed.{number_after};

/// The number of a text of at most 15 bytes. A longer text has none.
#[tactic(auto, unfolding(crate::specs::Packed::packed))]
pub fn packed(text: &str) -> Option<u128>
    ensures { result ≡ Packed.packed text.now }
{
    let bytes = text.as_bytes();
    if bytes.len() > 15 {
        return None;
    }
    Some(number_of_bytes(bytes))
}

/// The numbers of two texts of at most 15 bytes each. If one is longer, there are none.
#[tactic(auto, unfolding(crate::specs::Packed::packed_pair))]
pub fn packed_pair(text: &str, other: &str) -> Option<(u128, u128)>
    ensures { result ≡ Packed.packed_pair text.now other.now }
{
    let number = packed(text)?;
    let other = packed(other)?;
    Some((number, other))
}

// The number whose digits in base 256 are 1 and then these bytes.
fn number_of_bytes(bytes: &[u8]) -> u128
    requires { length bytes.now ≤ 15 }
    ensures { result ≡ number_after 1 bytes.now }
{
    let mut number = 1u128;
    for byte in bytes {
        number = number * 256 + u128::from(*byte);
    }
    number
}
