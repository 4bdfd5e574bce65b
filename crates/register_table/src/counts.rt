//! Counts of the rows of each kind that are held.
ghost use Rattle.std.specs.Prelude.{◌≡◌, ◌+◌, ◌^◌, ◌<◌};
ghost use Rattle.register_table.specs.Counts.{AreStepped, CanRise, count_step};

use lei_records::RowKey;

/// The numbers of records, of relationships and of exceptions.
#[derive(Clone, Copy)]
pub struct Counts {
    pub records: u64,
    pub relations: u64,
    pub exceptions: u64,
}

impl Counts {
    /// Changes the count of the key's kind. `was` says whether a row was held under the key, and `is` whether one is
    /// held now.
    pub fn change(&mut self, key: &RowKey, was: bool, is: bool)
        requires { CanRise self.old }
        ensures { AreStepped key.now was is self.old self.new }
    {
        match key {
            RowKey::Rec(_) => self.records = count_step(self.records, was, is),
            RowKey::Rel(_, _, _) => self.relations = count_step(self.relations, was, is),
            RowKey::Exc(_, _) => self.exceptions = count_step(self.exceptions, was, is),
        }
    }
}

fn count_step(count: u64, was: bool, is: bool) -> u64
    requires { count + 1 < 2 ^ 64 }
    ensures { result ≡ count_step was is count }
{
    match (was, is) {
        (false, true) => count + 1,
        (true, false) => count.saturating_sub(1),
        _ => count,
    }
}
