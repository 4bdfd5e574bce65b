//! The sets of rules by which items are read and judged.
ghost use Rattle.std.specs.Prelude.{◌≡◌, ◌≤◌};
ghost use Rattle.lei_records.specs.RuleNumbers.{rules_of};

/// The rules by which an entry of the register was made. Each entry names them by their number, and is replayed by
/// them. This project's profile.
#[derive(Clone, Copy, Debug, PartialEq, Eq)]
pub enum Rules {
    /// A record names at most one successor.
    First,
    /// A record names up to five successors.
    Second,
    /// A record names up to five successors, and may have the fields of an event.
    Third,
}

impl Rules {
    /// The rules with this number.
    pub fn of(number: u16) -> Rules
        requires first { 1 ≤ number }
        requires last { number ≤ 3 }
        ensures { result ≡ rules_of number }
    {
        match number {
            1 => Rules::First,
            2 => Rules::Second,
            _ => Rules::Third,
        }
    }
}
