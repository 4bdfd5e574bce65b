//! The end offsets of texts that follow each other directly.
ghost use Rattle.std.specs.Prelude.{◌≡◌, ◌==◌, ◌<◌, ◌++◌, ◌∷◌, [], length, get_or, IfOk, OnOk, OnErr};
ghost use Rattle.copy_csv.specs.Cuts.{IsSpan};

use lei_values::NoMemory;
use std::alloc::Global;
use std::marker::Model;

/// The end offsets of texts that follow each other directly; the first text starts at 0. An end takes 16 bits if it and
/// all ends before it fit in 16 bits, as those of most rows do. Contracts see the list of the ends.
#[derive(Debug, Drop)]
pub struct Ends {
    near: Vec<u16>,
    far: Vec<usize>,
}

impl Model for Ends {
    ghost use Rattle.std.specs.Prelude.{ℕ, List, ◌++◌};

    ghost Value = { List ℕ };

    ghost view = { λ e. e.near.items ++ e.far.items };
}

impl Ends {
    /// An empty list of ends.
    pub fn new(alloc: Global) -> Self
        ensures { result ≡ [] }
    {
        Ends {
            near: Vec::new(alloc),
            far: Vec::new(alloc),
        }
    }

    /// An empty list with capacity for `count` ends that fit in 16 bits.
    pub fn with_capacity(alloc: Global, count: usize) -> Result<Self, NoMemory>
        ensures { IfOk result (λ ends. ends ≡ []) }
    {
        Ok(Ends {
            near: Vec::with_capacity(alloc, count)?,
            far: Vec::new(alloc),
        })
    }

    /// Appends an end.
    pub fn push(&mut self, end: usize) -> Result<(), NoMemory>
        ensures pushed { OnOk result (self.new ≡ self.old ++ end ∷ []) }
        ensures kept { OnErr result (self.new ≡ self.old) }
    {
        if end <= 0xffff && self.far.is_empty() {
            self.near.push(end as u16)?;
        } else {
            self.far.push(end)?;
        }
        Ok(())
    }

    /// The number of ends.
    pub fn len(&self) -> usize
        ensures { result ≡ length self.now }
    {
        self.near.len() + self.far.len()
    }

    /// Whether there are no ends.
    pub fn is_empty(&self) -> bool
        ensures { result ≡ (length self.now == 0) }
    {
        self.len() == 0
    }

    // The end at an index.
    fn at(&self, index: usize) -> usize
        requires { index < length self.now }
        ensures { result ≡ get_or self.now index 0 }
    {
        if index < self.near.len() {
            usize::from(self.near[index])
        } else {
            self.far[index - self.near.len()]
        }
    }

    /// The start and the end of the text at an index, counted from 0.
    pub fn span(&self, index: usize) -> (usize, usize)
        requires { index < length self.now }
        ensures { IsSpan self.now index result.0 result.1 }
    {
        let end = self.at(index);
        if index == 0 {
            return (0, end);
        }
        (self.at(index - 1), end)
    }
}
