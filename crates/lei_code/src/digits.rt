//! The check digits of a code.
ghost use Rattle.std.specs.Prelude.{◌≡◌, ◌↔◌, ◌++◌, ◌≤◌, IfOk, IsOk};
ghost use Rattle.std.specs.Result.{result_err};
ghost use Rattle.lei_code.specs.declared.fault.LeiFault.{LeiFault};
ghost use Rattle.lei_code.specs.Number.{number};
ghost use Rattle.lei_code.specs.Code.{IsValid, IsWellFormed};
ghost use Rattle.lei_code.specs.Digits.{digits};
ghost use Rattle.lei_code.specs.Fault.{IsCharacterFault, character_fault};

use crate::fault::LeiFault;
use crate::remainder::remainder_of;

/// The two check digits for a code's first 18 characters. Its only fault is `Character`.
#[tactic(auto, using(crate::proofs::Made::made_digits))]
pub fn check_digits(text: &[u8; 18]) -> Result<[u8; 2], LeiFault>
    ensures value { IfOk result (λ made. made ≡ digits text.now) }
    ensures well_formed { IsOk result ↔ IsWellFormed text.now }

    // With them the text is a code, and they are in 02 to 98.
    ensures valid { IfOk result (λ made. IsValid (text.now ++ made)) }
    ensures at_least_2 { IfOk result (λ made. 2 ≤ number made) }
    ensures at_most_98 { IfOk result (λ made. number made ≤ 98) }

    ensures fault { (fault : LeiFault) → (result ≡ Err fault) ↔ IsCharacterFault text.now fault }

    // The same as a function, for definitions that compute.
    ensures computed { result_err result ≡ character_fault text.now }
{
    let check = 98 - remainder_of(text)? * 100 % 97;
    Ok([b'0' + (check / 10) as u8, b'0' + (check % 10) as u8])
}
