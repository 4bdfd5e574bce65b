// What the value of a turnstile represents, and what an answer represents.
ghost use Rattle.std.specs.Prelude.{ℕ, List, Option};
ghost use Rattle.turnstile.specs.declared.view.Member.{Member};

/// A value that represents a list of numbered entries.
pub trait Tally {
    /// One entry of the list.
    type Entry;

    /// One piece of what a pass is told.
    type Told;

    /// The list.
    ghost entries: { Self → List Self.Entry };

    /// A count of faults. No turn decreases it.
    ghost faults: { Self → ℕ };

    /// Numbers that stay: no turn changes them.
    ghost stays: { Self → List ℕ };

    /// The number of the first entry. The others follow it in order.
    ghost first: { ℕ };

    /// What has to hold for each member that a pass is told. Each turn ensures it, and the end relies on it.
    ghost tells: { Member Self.Told → Type 0 };
}

/// An answer that represents one piece of data, which the pass is told, or nothing.
pub trait Said {
    /// The piece of data.
    type Told;

    /// The piece that the answer represents, if there is one.
    ghost said: { Self → Option Self.Told };
}
