//! Laws of the definitions. Each is the contract of a function that does nothing.
ghost use Rattle.std.specs.Prelude.{◌≡◌, ◌↔◌, ◌++◌, ◌≤◌, length, Some, None};
ghost use Rattle.lei_code.specs.declared.fault.LeiFault.{LeiFault};
ghost use Rattle.lei_code.specs.Number.{number};
ghost use Rattle.lei_code.specs.Code.{IsValid, IsWellFormed};
ghost use Rattle.lei_code.specs.Digits.{digits};
ghost use Rattle.lei_code.specs.Texts.{Text};
ghost use Rattle.lei_code.specs.Fault.{IsFault, IsCharacterFault, fault_of, character_fault};

/// Check digits complete 18 characters that are allowed at their positions to a code. They are in 02 to 98, and no
/// other digits in that range do.
pub fn digits_make_codes()
    ensures valid { (text : Text) → length text ≡ 18 → IsWellFormed text → IsValid (text ++ digits text) }
    ensures at_least_2 { (text : Text) → 2 ≤ number (digits text) }
    ensures at_most_98 { (text : Text) → number (digits text) ≤ 98 }
    ensures only { (text made : Text) → length text ≡ 18 → IsValid (text ++ made)
        → 2 ≤ number made → number made ≤ 98 → made ≡ digits text }
{}

/// The computed fault of a text is the one that the relation states.
pub fn computed_faults_are_faults()
    ensures fault { (text : Text) (fault : LeiFault) → (fault_of text ≡ Some fault) ↔ IsFault text fault }
    ensures valid { (text : Text) → (fault_of text ≡ None) ↔ IsValid text }

    ensures character_fault { (text : Text) (fault : LeiFault) →
        (character_fault text ≡ Some fault) ↔ IsCharacterFault text fault }
    ensures well_formed { (text : Text) → (character_fault text ≡ None) ↔ IsWellFormed text }
{}
