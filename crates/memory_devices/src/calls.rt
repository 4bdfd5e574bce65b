// The calls of a device in memory, some of which fail by design.
ghost use Rattle.std.specs.Prelude.{◌≡◌, ◌↔◌, ◌≤◌, IsTrue, if◌then◌else◌};
ghost use Rattle.lei_values.specs.Count.{count_up};
ghost use Rattle.memory_devices.specs.Memory.{FailsNext};

use lei_values::List;

#[derive(Drop)]
pub struct Calls {
    pub failing: List<u64>,
    pub count: u64,
    pub faults: u64,
}

impl Calls {
    pub fn new(failing: List<u64>) -> Self
        ensures { result ≡ record { failing = failing; count = 0; faults = 0 } }
    {
        Calls {
            failing,
            count: 0,
            faults: 0,
        }
    }

    // Counts a call, and returns whether it fails.
    pub fn next_fails(&mut self) -> bool
        ensures fails { IsTrue result ↔ FailsNext self.old.failing self.old.count }
        ensures count { self.new.count ≡ count_up self.old.count }
        ensures faults { self.new.faults ≡ (if result then count_up self.old.faults else self.old.faults) }
        ensures rising { self.old.faults ≤ self.new.faults }
        ensures same { self.new.failing ≡ self.old.failing }
    {
        self.count = self.count.saturating_add(1);
        let fails = self.failing.as_slice().contains(&self.count);
        if fails {
            self.faults = self.faults.saturating_add(1);
        }
        fails
    }
}
