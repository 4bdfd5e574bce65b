// The device that lines come from, one after another.
ghost use Rattle.std.specs.Prelude.{◌≡◌, ℕ, ◌≤◌, List, Bool, false, true, Option};
ghost use Rattle.lei_values.specs.Count.{Rose};
ghost use Rattle.lei_outside.specs.Doors.{Comes, IsFailed, TakesBack, is_line};

use crate::Link;

/// The result of waiting at a door.
#[derive(Drop)]
pub enum Came<L> {
    /// The next line.
    Line(L),
    /// No further line comes.
    Closed,
    /// The door failed.
    Failed,
}

/// A device that gives lines, such as a listener or memory, and takes each back after it was served. At most one line
/// is out at a time.
pub trait Door {
    /// A line: what a caller sends, and what is sent to the caller.
    type Line: Link + Drop;

    /// The lines to come, if the door tells them.
    ghost to_come: { Self → Option (List Self.Line) };

    /// The lines that came back, if the door tells them.
    ghost came_back: { Self → Option (List Self.Line) };

    /// Whether a line is out.
    ghost out: { Self → Bool };

    /// How many calls have failed.
    ghost faults: { Self → ℕ };

    /// The next line, which is out from now on. A call that fails takes none.
    fn next(&mut self) -> Came<Self::Line>
        requires { out self.old ≡ false }
        ensures lines { Comes (to_come self.old) result (to_come self.new) }
        ensures out { out self.new ≡ is_line result }
        ensures back { came_back self.new ≡ came_back self.old }
        ensures count { faults self.old ≤ faults self.new }
        ensures kept { ¬ (IsFailed result) → faults self.new ≡ faults self.old }
        ensures failed { IsFailed result → Rose (faults self.old) (faults self.new) };

    /// Takes back the line that is out. It takes no memory.
    fn back(&mut self, line: Self::Line)
        requires { out self.old ≡ true }
        ensures lines { TakesBack (came_back self.old) (came_back self.new) line }
        ensures out { out self.new ≡ false }
        ensures to_come { to_come self.new ≡ to_come self.old }
        ensures kept { faults self.new ≡ faults self.old };
}
