//! Why a text isn't an LEI.
ghost use Rattle.std.specs.Prelude.{Some};
ghost use Rattle.lei_code.specs.Fault.{fault_text};

use std::error::Error;
use std::fmt;

/// Why a text isn't a Legal Entity Identifier.
#[derive(Clone, Copy, Debug, PartialEq, Eq, Hash)]
pub enum LeiFault {
    /// Its length isn't 20 bytes.
    Length,
    /// The first position, counted from 1, with a character that isn't allowed there.
    Character(u8),
    /// Its number doesn't leave the remainder 1 when divided by 97.
    CheckDigits,
}

impl fmt::Display for LeiFault {
    ghost output = { λ fault. Some (fault_text fault) };

    fn fmt<W: fmt::Write>(&self, f: &mut fmt::Formatter<W>) -> fmt::Result {
        match self {
            LeiFault::Length => write!(f, "a code has 20 characters"),
            LeiFault::Character(position) => {
                write!(f, "the character at place {position} may not stand there")
            }
            LeiFault::CheckDigits => write!(f, "the check digits are wrong"),
        }
    }
}

impl Error for LeiFault {}
