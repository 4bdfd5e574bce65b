//! The result of an item's checks.
ghost use Rattle.std.specs.Prelude.{◌≡◌};
ghost use Rattle.lei_records.specs.declared.check.Detail.{Detail};
ghost use Rattle.lei_records.specs.Checks.{IsCheckNumber};
ghost use Rattle.relation_rules.specs.Checking;

use lei_code::Lei;
use lei_records::{CellKey, Check, Detail};

/// The result of an item's checks over a view.
#[derive(Debug, PartialEq, Eq, Drop)]
pub enum Checked {
    /// None of them fails.
    Passes,
    /// The first one that fails.
    Fails(Check),
    /// No check fails before one that needs this cell, which the view lacks.
    Missing(CellKey),
}

/// A check that reports nothing but its number.
pub fn plain(number: u8) -> Check
    requires { IsCheckNumber number }
    ensures { result ≡ record { number = number; detail = Detail.None } }
{
    Check {
        code: number,
        detail: Detail::None,
    }
}

/// A check that reports the LEI that it conflicts with.
pub fn check_with_lei(number: u8, lei: Lei) -> Check
    requires { IsCheckNumber number }
    ensures { result ≡ record { number = number; detail = Detail.Code lei } }
{
    Check {
        code: number,
        detail: Detail::Code(lei),
    }
}

/// A check that fails and reports nothing but its number.
pub fn check_failure(number: u8) -> Checked
    requires { IsCheckNumber number }
    ensures { result ≡ Checking.check_failure number }
{
    Checked::Fails(plain(number))
}
