//! Walks from code to code, with at most 200 members after the start.
ghost use Rattle.std.specs.Prelude.{◌≡◌, List, ℕ};
ghost use Rattle.lei_records.specs.declared.view.CellKey.{CellKey};
ghost use Rattle.successor_rules.specs.Walks.{SeenNext, walk_over};

use lei_code::Lei;
use lei_records::{CellKey, Seen};

// The most members of a walk that are looked up.
const MOST_MEMBERS: u8 = 200;

/// The result of a walk.
#[derive(Debug, PartialEq, Eq, Drop)]
pub enum Walked {
    /// One of its first 200 members is the code that it has to avoid.
    Meets,
    /// None of them is, and there is a 201st member.
    Long,
    /// The walk ends before that.
    Ends,
    /// The view lacks this cell, and the walk wasn't decided before.
    Missing(CellKey),
}

/// Something in which a code names at most one next code.
pub trait Chain {
    /// What it answers for the next one of each code.
    ghost answers: { Self → SeenNext };

    /// The cell in which a code names the next one.
    ghost cell: { Self → List ℕ → CellKey };

    /// The code that this one names.
    fn next(&self, lei: &Lei) -> Seen<Lei>
        ensures { result ≡ answers self.now lei.now };

    /// The key of the cell in which this code names the next one.
    fn key(&self, lei: Lei) -> CellKey
        ensures { result ≡ cell self.now lei };
}

/// Walks along a chain from the member `from`, for a start that the walk has to avoid.
pub fn follow<C: Chain>(chain: &C, from: &Lei, avoid: &Lei) -> Walked
    ensures { result ≡ walk_over (C.answers chain.now) (C.cell chain.now) avoid.now from.now }
{
    let mut member = *from;
    for _ in 0..MOST_MEMBERS {
        if *avoid == member {
            return Walked::Meets;
        }
        match chain.next(&member) {
            Seen::Held(next) => member = next,
            Seen::Empty => return Walked::Ends,
            Seen::Missing => return Walked::Missing(chain.key(member)),
        }
    }
    Walked::Long
}
