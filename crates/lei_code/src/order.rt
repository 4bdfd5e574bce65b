// Codes in the order of their texts, byte by byte. As all have 20 bytes, it is the order of the numbers that the bytes
// form, the first byte being the most significant.
ghost use Rattle.std.specs.Prelude.{◌≡◌, Some, take, drop, refl};
ghost use Rattle.std.specs.Cmp.{unsigned_po};
ghost use Rattle.std.specs.Cmp.Lexicographic.{slice_cmp, slice_partial_cmp, lists_po, lists_agrees, nat_list_cmp_total, texts_ties};
ghost use Rattle.std.specs.Int.{w128, w32, from_be_bytes};
ghost use Rattle.std.specs.Ordering.{nat_cmp};

use crate::code::Lei;
use std::cmp::Ordering;

impl PartialOrd for Lei {
    ghost partial_cmp = { slice_partial_cmp (λ x y. Some (nat_cmp x y)) };

    ghost laws = { lists_po unsigned_po };

    fn partial_cmp(&self, other: &Self) -> Option<Ordering> {
        Some(self.cmp(other))
    }
}

impl Ord for Lei {
    ghost cmp = { slice_cmp nat_cmp };

    ghost total = { nat_list_cmp_total };

    ghost matches_partial_cmp = { lists_agrees (λ x y. refl) };

    ghost matches_eq = { texts_ties };

    fn cmp(&self, other: &Self) -> Ordering {
        compare(&self.text(), &other.text())
    }
}

fn compare(text: &[u8; 20], other: &[u8; 20]) -> Ordering
    ensures { result ≡ slice_cmp nat_cmp text.now other.now }
{
    match front(text).cmp(&front(other)) {
        Ordering::Equal => back(text).cmp(&back(other)),
        unequal => unequal,
    }
}

// The number of the first 16 bytes.
fn front(text: &[u8; 20]) -> u128
    ensures { result ≡ from_be_bytes w128 (take 16 text.now) }
{
    match text.first_chunk::<16>() {
        Some(bytes) => u128::from_be_bytes(*bytes),
        None => unreachable!(),
    }
}

// The number of the last 4 bytes.
fn back(text: &[u8; 20]) -> u32
    ensures { result ≡ from_be_bytes w32 (drop 16 text.now) }
{
    match text.last_chunk::<4>() {
        Some(bytes) => u32::from_be_bytes(*bytes),
        None => unreachable!(),
    }
}
