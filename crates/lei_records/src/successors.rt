//! The successors of a record: up to five LEIs in an array, so that a cell that has them stays `Copy`.
ghost use Rattle.std.specs.Prelude.{◌≡◌, ◌==◌, ◌<◌, ◌++◌, ◌∷◌, [], length, slice_get};
ghost use Rattle.lei_records.specs.SuccessorLists.{filler, most_successors};

use lei_code::Lei;
use std::marker::Model;

// The most successors that a record may name.
const MOST_SUCCESSORS: usize = 5;

/// The entities that succeeded one, in the order in which its record names them: at most five LEIs. Contracts see the
/// list of them.
#[derive(Clone, Copy, Debug, PartialEq, Eq)]
pub struct Successors {
    count: u8,
    // The LEIs past the count aren't read: each is the filler.
    codes: [Lei; MOST_SUCCESSORS],
}

impl Model for Successors {
    ghost use Rattle.std.specs.Prelude.{List, ℕ};

    ghost Value = { List (List ℕ) };

    ghost use Rattle.lei_records.specs.SuccessorLists.{IsFilled, codes_counted, successor_fields, successor_fields-listed};

    ghost view = { codes_counted };

    ghost invariant = { IsFilled };

    ghost inverse = { successor_fields };

    ghost inverse_ok = { successor_fields-listed };
}

impl Successors {
    /// No successors.
    pub fn none() -> Self
        ensures { result ≡ [] }
    {
        Successors {
            count: 0,
            codes: [filler(); MOST_SUCCESSORS],
        }
    }

    /// These LEIs and one more, as the last.
    pub fn with(self, lei: Lei) -> Self
        requires { length self < most_successors }
        ensures { result ≡ self ++ lei ∷ [] }
    {
        let mut codes = self.codes;
        codes[usize::from(self.count)] = lei;
        Successors {
            count: self.count + 1,
            codes,
        }
    }

    /// The number of LEIs.
    pub fn len(&self) -> usize
        ensures { result ≡ length self.now }
    {
        usize::from(self.count)
    }

    /// Whether there are none.
    pub fn is_empty(&self) -> bool
        ensures { result ≡ (length self.now == 0) }
    {
        self.count == 0
    }

    /// The LEIs as a slice, in order.
    pub fn as_slice(&self) -> &[Lei]
        ensures { result.now ≡ self.now }
    {
        &self.codes[..usize::from(self.count)]
    }

    /// The first LEI.
    pub fn first(&self) -> Option<Lei>
        ensures { result ≡ slice_get self.now 0 }
    {
        self.as_slice().first().copied()
    }
}

// The LEI at the indexes past the count.
fn filler() -> Lei
    ensures { result ≡ filler }
{
    Lei::of_valid(b"00000000000000000098")
}
