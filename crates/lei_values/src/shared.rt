// Bytes that several holders share.
ghost use Rattle.std.specs.Prelude.{◌≡◌, ◌==◌, ◌↔◌, [], length, IfOk, IsTrue};
ghost use Rattle.std.proofs.Common.{rules};
ghost use Rattle.std.specs.Cmp.Rules.{comparing};
ghost use Rattle.std.specs.Cmp.Lexicographic.{pointwise};

use crate::NoMemory;
use std::alloc::Global;
use std::fmt;
use std::marker::Model;
use std::sync::Arc;

/// Bytes that their holders share: one more holder needs no memory for them. A contract sees them as a list.
#[derive(Drop)]
pub struct Shared {
    bytes: Arc<Vec<u8>, Global>,
}

impl Model for Shared {
    ghost use Rattle.std.specs.Arc.{arc_value};
    ghost use Rattle.std.specs.Prelude.{ℕ, List};

    ghost Value = { List ℕ };

    ghost view = { λ s. (arc_value s.bytes).items };
}

impl Shared {
    /// The bytes, which are moved.
    pub fn of(alloc: Global, bytes: Vec<u8>) -> Result<Self, NoMemory>
        ensures { IfOk result (λ s. s ≡ bytes.items) }
    {
        Ok(Shared {
            bytes: Arc::new(alloc, bytes)?,
        })
    }

    /// A copy of the bytes in its own memory.
    pub fn copy_of(alloc: Global, bytes: &[u8]) -> Result<Self, NoMemory>
        ensures { IfOk result (λ s. s ≡ bytes.now) }
    {
        Shared::of(alloc, bytes.to_vec(alloc)?)
    }

    /// The same bytes for one more holder.
    pub fn share(&self) -> Result<Self, NoMemory>
        ensures { IfOk result (λ s. s ≡ self.now) }
    {
        Ok(Shared {
            bytes: Arc::try_clone(&self.bytes)?,
        })
    }

    /// The bytes, borrowed.
    pub fn as_slice(&self) -> &[u8]
        ensures { result.now ≡ self.now }
    {
        self.bytes.as_slice()
    }

    /// The number of its bytes.
    pub fn len(&self) -> usize
        ensures { result ≡ length self.now }
    {
        self.bytes.len()
    }

    /// Whether its length is 0.
    pub fn is_empty(&self) -> bool
        ensures { IsTrue result ↔ (self.now ≡ []) }
    {
        self.bytes.is_empty()
    }
}

impl PartialEq for Shared {
    ghost eq = { pointwise ◌==◌ };

    ghost laws = { Prim.search (comparing, rules) };

    fn eq(&self, other: &Self) -> bool {
        *self.bytes == *other.bytes
    }
}

impl Eq for Shared {
    ghost laws = { Prim.search (comparing, rules) };
}

impl fmt::Debug for Shared {
    fn fmt<W: fmt::Write>(&self, f: &mut fmt::Formatter<W>) -> fmt::Result {
        fmt::Debug::fmt(self.as_slice(), f)
    }
}
