//! The remainder by 97 of a text's number.
ghost use Rattle.std.specs.Prelude.{◌≡◌, ◌%◌, ◌<◌, length, IfOk, IfErr, OnOk};
ghost use Rattle.lei_code.specs.Number.{number};
ghost use Rattle.lei_code.specs.Code.{IsWellFormed};
ghost use Rattle.lei_code.specs.Fault.{IsCharacterFault};

use crate::fault::LeiFault;

/// The remainder of a text's number modulo 97, read byte by byte, or its first wrong character. A division takes longer
/// than all else that is done for a byte, so the number is reduced only before it gets too large.
#[tactic(auto, using(crate::proofs::Remainders::remainder_steps))]
pub fn remainder_of(text: &[u8]) -> Result<u32, LeiFault>
    requires { length text.now < 256 }
    ensures remainder { IfOk result (λ remainder. remainder ≡ number text.now % 97) }
    ensures well_formed { OnOk result (IsWellFormed text.now) }
    ensures fault { IfErr result (IsCharacterFault text.now) }
{
    let mut number = 0;
    for (index, byte) in text.iter().enumerate() {
        let front = reduced(number);
        number = match *byte {
            digit @ b'0'..=b'9' => front * 10 + u64::from(digit - b'0'),
            letter @ b'A'..=b'Z' if index < 18 => front * 100 + u64::from(letter - b'A') + 10,
            _ => return Err(LeiFault::Character(index as u8 + 1)),
        };
    }
    Ok((number % 97) as u32)
}

// A number with the same remainder modulo 97 that is below 10^16. With one more character it fits in 64 bits.
fn reduced(number: u64) -> u64
    ensures same { result % 97 ≡ number % 97 }
    ensures small { result < 10_000_000_000_000_000 }
{
    if number < 10_000_000_000_000_000 {
        number
    } else {
        number % 97
    }
}
