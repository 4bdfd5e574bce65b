//! Laws of the definitions. Each is the contract of a function that does nothing.
ghost use Rattle.std.specs.Prelude.{◌≡◌, ℕ, List, Some};
ghost use Rattle.short_texts.specs.Packed.{packed, packed_pair};

/// Two lists that have the same number are the same list, and two pairs of lists that have the same numbers are the
/// same pair.
pub fn a_number_is_of_one_list()
    ensures one { (number : ℕ) (text own : List ℕ) → packed text ≡ Some number → packed own ≡ Some number
        → text ≡ own }
    ensures pair { (numbers : ℕ × ℕ) (text other own second : List ℕ) → packed_pair text other ≡ Some numbers
        → packed_pair own second ≡ Some numbers → (text ≡ own) × (other ≡ second) }
{}
