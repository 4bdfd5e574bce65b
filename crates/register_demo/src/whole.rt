//! A made-up register and its summary.
ghost use Rattle.std.specs.Prelude.{◌≡◌, ◌≤◌, IfOk};
ghost use Rattle.lei_values.specs.KeptTables.{last_number};
ghost use Rattle.memory_devices.specs.Memory.{tables_of};
ghost use Rattle.register_words.specs.Limits.{standard};
ghost use Rattle.register_history.specs.State.{new_office};
ghost use Rattle.register_demo.specs.Session.{IsSummary, summary_with_counts};
ghost use Rattle.register_demo.specs.declared.summary.Told.{Told as Found};

use crate::session::make;
use crate::summary::{Told, summary_of};
use lei_keeper::{KeepFault, Keeper};
use lei_office::{Limits, Office, OpenFault};
use lei_outside::Sink;
use lei_values::{Bytes, NoMemory};
use memory_devices::SureKeeper;
use std::alloc::Global;
use std::thread::Threads;

// How many entries a keeper has.
fn entries_in(mut keeper: SureKeeper) -> Result<u64, NoMemory>
    ensures { IfOk result (λ entries. entries ≡ last_number (tables_of keeper)) }
{
    match keeper.last() {
        Ok(entries) => Ok(entries),
        Err(KeepFault::NoMemory) => Err(NoMemory),
        Err(KeepFault::Failed) => unreachable!(),
    }
}

// The summary of what the replies say about a register, with the keeper that has its entries.
fn summary_with(
    alloc: Global,
    keeper: SureKeeper,
    told: Result<Told, NoMemory>,
) -> Result<Bytes, NoMemory>
    ensures { IfOk result (λ text. (found : Found) × (told ≡ Ok found)
        × (text ≡ summary_with_counts (last_number (tables_of keeper)) found)) }
{
    let told = told?;
    let entries = entries_in(keeper)?;
    let text = summary_of(alloc, entries, &told)?;
    Ok(text)
}

// Makes a register with an office that has no entries, and closes the office.
fn demo_by<R: Threads + Sync, W: Sink>(
    rt: &R,
    alloc: Global,
    mut office: Office<SureKeeper>,
    n: u32,
    out: &mut W,
) -> Result<Bytes, NoMemory>
    requires opened { office.office ≡ new_office standard }
    requires least { 2 ≤ n }
    requires most { n ≤ 100_000 }
    ensures summary { IfOk result (IsSummary n) }
    ensures same { out.new ≡ out.old }
{
    let told = make(rt, alloc, &mut office, n, out);
    let text = summary_with(alloc, office.close(), told)?;
    Ok(text)
}

/// Makes a register of this many records, with an office of its own in memory, and returns the summary. The only error
/// is that memory runs out. Nothing is written to the sink, which only reports the progress.
pub fn demo<R: Threads + Sync, W: Sink>(
    rt: &R,
    alloc: Global,
    n: u32,
    out: &mut W,
) -> Result<Bytes, NoMemory>
    requires least { 2 ≤ n }
    requires most { n ≤ 100_000 }
    ensures summary { IfOk result (IsSummary n) }
    ensures same { out.new ≡ out.old }
{
    match Office::open(rt, alloc, SureKeeper::new(alloc), Limits::standard()) {
        Ok(office) => demo_by(rt, alloc, office, n, out),
        Err(OpenFault::NoMemory(_)) => Err(NoMemory),
        Err(OpenFault::KeeperFault(_)) => unreachable!(),
        Err(OpenFault::StoreDamaged(_, _)) => unreachable!(),
    }
}
