//! Checks the fields of items that were read.
ghost use Rattle.std.specs.Prelude.{◌≡◌, ◌≤◌, IfOk, map};
ghost use Rattle.item_fields.specs.Items.{ready as ready_of};
ghost use Rattle.lei_records.specs.RuleNumbers.{rules_of};

use crate::threads::map_items;
use item_fields::{RawItem, ready_by};
use lei_records::Readied;
use lei_values::NoMemory;
use std::alloc::Global;
use std::thread::Threads;

// Checks the fields of each item by the rules of this number, in several threads if there are many items.
pub fn ready_all<R: Threads + Sync>(
    rt: &R,
    alloc: Global,
    rules: u16,
    raws: &[RawItem],
) -> Result<Vec<Readied>, NoMemory>
    requires first { 1 ≤ rules }
    requires last { rules ≤ 3 }
    ensures { IfOk result (λ items. items.items ≡ map (ready_of (rules_of rules)) raws.now) }
{
    map_items(
        rt,
        alloc,
        raws,
        |raw: &RawItem| -> Result<Readied, NoMemory>
            requires { 1 ≤ rules × rules ≤ 3 }
            ensures { IfOk result (λ item. item ≡ ready_of (rules_of rules) raw.now) }
        { ready_by(alloc, rules, raw) },
    )
}
