//! Codes whose check digits are right.
ghost use Rattle.std.specs.Prelude.{◌≡◌, ◌↔◌, List, ℕ, IfOk, IsOk, Some};
ghost use Rattle.std.specs.Result.{result_err};
ghost use Rattle.lei_code.specs.declared.fault.LeiFault.{LeiFault};
ghost use Rattle.lei_code.specs.Code.{IsValid};
ghost use Rattle.lei_code.specs.Fault.{IsFault, fault_of};

use crate::fault::LeiFault;
use crate::remainder::remainder_of;
use std::fmt;
use std::marker::Model;

/// A Legal Entity Identifier: 20 characters whose check digits are right.
#[derive(Clone, Copy, Debug, PartialEq, Eq, Hash)]
pub struct Lei {
    text: [u8; 20],
}

impl Model for Lei {
    ghost Value = { List ℕ };

    ghost view = { λ code. code.text };

    ghost invariant = { λ code. IsValid code.text };

    ghost inverse = { λ text. record { text = text } };
}

impl Lei {
    /// Reads a code. The faults are checked in the order of `LeiFault`.
    #[tactic(auto, using(crate::proofs::Faults::faults_of_codes))]
    pub fn read(text: &[u8]) -> Result<Lei, LeiFault>
        ensures value { IfOk result (λ code. code ≡ text.now) }
        ensures valid { IsOk result ↔ IsValid text.now }

        ensures fault { (fault : LeiFault) → (result ≡ Err fault) ↔ IsFault text.now fault }

        // The same as a function, for definitions that compute.
        ensures computed { result_err result ≡ fault_of text.now }
    {
        let Ok(own) = <[u8; 20]>::try_from(text) else {
            return Err(LeiFault::Length);
        };
        if remainder_of(text)? != 1 {
            return Err(LeiFault::CheckDigits);
        }
        Ok(Lei { text: own })
    }

    /// The code with these 20 characters. They must be those of a code, and aren't checked again.
    pub fn of_valid(text: &[u8]) -> Lei
        requires { IsValid text.now }
        ensures { result ≡ text.now }
    {
        match <[u8; 20]>::try_from(text) {
            Ok(text) => Lei { text },
            Err(_) => unreachable!(),
        }
    }

    /// The 20 characters, each a byte.
    pub fn text(self) -> [u8; 20]
        ensures value { result ≡ self }
        ensures valid { IsValid self }
    {
        self.text
    }

    /// The 20 characters, borrowed as bytes.
    pub fn as_bytes(&self) -> &[u8]
        ensures value { result.now ≡ self.now }
        ensures valid { IsValid self.now }
    {
        &self.text
    }

    /// The 20 characters, borrowed as text.
    #[tactic(auto, using(crate::proofs::Places::code_is_utf8))]
    pub fn as_str(&self) -> &str
        ensures value { result.now ≡ self.now }
        ensures valid { IsValid self.now }
    {
        match str::from_utf8(&self.text) {
            Ok(text) => text,
            Err(_) => unreachable!(),
        }
    }
}

impl fmt::Display for Lei {
    ghost output = { λ code. Some code };

    fn fmt<W: fmt::Write>(&self, f: &mut fmt::Formatter<W>) -> fmt::Result {
        f.pad(self.as_str())
    }
}
