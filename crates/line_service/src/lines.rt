//! A run over lines: it opens the office of what a keeper has, and answers the lines of an input from it.
ghost use Rattle.std.specs.Prelude.{◌≡◌, [], Ok, Option, IfErr, IfOk, IsErrOf};
ghost use Rattle.lei_values.specs.Count.{Rose};
ghost use Rattle.lei_values.specs.KeptTables.{KeptTables};
ghost use Rattle.lei_keeper.specs.Keeping.{TablesStay};
ghost use Rattle.request_loop.specs.Devices.{FailsIf};
ghost use Rattle.register_history.specs.Kept.{Keeps, StaysUntold};
ghost use Rattle.register_words.specs.Limits.{standard};
ghost use Rattle.lei_office.specs.Offices.{FaultRose, IsRefused, keeper_back};
ghost use Rattle.line_reading.specs.LineFrames.{HoldsLines};
ghost use Rattle.line_service.specs.Ends.{RunsFrom, RunsLines, IsUnopened, WritesDamage};
ghost use Rattle.register_history.specs.Opened.{IsOpened, MayTell};
ghost use Rattle.line_service.specs.Outside.{OutputFails, outside};
ghost use Rattle.line_reading.specs.Status.{end_status};

use crate::damage::tell_damage;
use lei_keeper::Keeper;
use lei_office::{Limits, Office, OpenFault};
use lei_outside::{Clock, Sink, Source};
use line_reading::{LineFraming, MAX_INPUT, Stop, ended_as};
use request_loop::{Duplex, Intake, serve};
use std::alloc::Global;
use std::thread::Threads;

/// Opens the office of what a keeper has, under the standard limits, and answers the lines of an input from it. Returns
/// why the run stopped, if it didn't reach the input's end, and the keeper. The clock is asked for one moment for each
/// request in a line, after the line was read.
pub fn run_lines<R: Threads + Sync, S: Source, W: Sink, K: Keeper, C: Clock>(
    rt: &R,
    alloc: Global,
    input: &mut S,
    out: &mut W,
    keeper: K,
    clock: &mut C,
) -> (Result<(), Stop>, K)
    ensures unopened { IsUnopened (end_status result.0) → (input.new ≡ input.old) × (clock.new ≡ clock.old) }
    ensures runs { RunsLines (MayTell K.tables)
        (outside (S.left input.old) (C.given clock.old) (W.written out.old) (K.tables keeper)
        (K.faults keeper))
        (outside (S.left input.new) (C.given clock.new) (W.written out.new) (K.tables result.1)
        (K.faults result.1))
        (end_status result.0) }
    ensures reads { FailsIf (IsErrOf result.0 Stop.ReadFault) S.left S.faults input.old input.new }
    ensures writes { OutputFails (IsErrOf result.0 Stop.WriteFault) (IsErrOf result.0 Stop.StoreDamaged)
        W.written W.faults out.old out.new }
    ensures damage_told { IsErrOf result.0 Stop.StoreDamaged → ¬ (Rose (W.faults out.old) (W.faults out.new))
        → WritesDamage {E = Unit {0}}
        (outside (S.left input.old) (C.given clock.old) (W.written out.old) (K.tables keeper)
        (K.faults keeper))
        (outside (S.left input.new) (C.given clock.new) (W.written out.new) (K.tables result.1)
        (K.faults result.1))
        (Ok (tt {0})) }
{
    let Ok(mut framing) = LineFraming::new(alloc) else {
        return (Err(Stop::NoMemory), keeper);
    };
    match open_office(rt, alloc, keeper) {
        Ok(mut office) => {
            let ended = answer_input(rt, &mut office, &mut framing, input, out, clock);
            (ended, office.close())
        }
        Err(OpenFault::KeeperFault(keeper)) => (Err(Stop::KeeperFault), keeper),
        Err(OpenFault::StoreDamaged(keeper, damage)) => (Err(tell_damage(&damage, out)), keeper),
        Err(OpenFault::NoMemory(keeper)) => (Err(Stop::NoMemory), keeper),
    }
}

// Opens the office of what the keeper has, under the standard limits. If it can't be opened, the error returns the
// keeper.
fn open_office<R: Threads + Sync, K: Keeper>(
    rt: &R,
    alloc: Global,
    keeper: K,
) -> Result<Office<K>, OpenFault<K>>
    ensures opened { IfOk result (λ office. IsOpened (K.tables office.keeper) office.office) }
    ensures told { IfOk result (λ office. TablesStay (K.tables keeper) (K.tables office.keeper)) }
    ensures faultless { IfOk result (λ office. K.faults office.keeper ≡ K.faults keeper) }
    ensures refused { IfErr result (IsRefused standard K.tables) }
    ensures same { IfErr result (λ fault. TablesStay (K.tables keeper) (K.tables (keeper_back fault))) }
    ensures failed { IfErr result
        (λ fault. FaultRose (K.faults keeper) (K.faults (keeper_back fault)) fault) }
{
    Office::open(rt, alloc, keeper, Limits::standard())
}

// Answers the lines of an input, with a framing that has read nothing.
fn answer_input<R: Threads + Sync, S: Source, W: Sink, K: Keeper, C: Clock>(
    rt: &R,
    office: &mut Office<K>,
    framing: &mut LineFraming,
    input: &mut S,
    out: &mut W,
    clock: &mut C,
) -> Result<(), Stop>
    requires holds { HoldsLines framing.old.skips framing.old.seen [] [] }
    requires none_waits { framing.old.refusals ≡ [] }
    ensures runs { (kept : Option KeptTables) → Keeps kept office.new.office → RunsFrom office.old.office
        (outside (S.left input.old) (C.given clock.old) (W.written out.old) (K.tables office.old.keeper)
        (K.faults office.old.keeper))
        (outside (S.left input.new) (C.given clock.new) (W.written out.new) kept (K.faults office.new.keeper))
        (end_status result) }
    ensures untold { StaysUntold (K.tables office.old.keeper) (K.tables office.new.keeper) }
    ensures reads { FailsIf (IsErrOf result Stop.ReadFault) S.left S.faults input.old input.new }
    ensures writes { FailsIf (IsErrOf result Stop.WriteFault) W.written W.faults out.old out.new }
{
    let mut wire = Duplex { input, out };
    serve_lines(rt, office, framing, &mut wire, clock)
}

// Answers the lines that a wire gives, with a framing that has read nothing.
fn serve_lines<R: Threads + Sync, S: Source, W: Sink, K: Keeper, C: Clock>(
    rt: &R,
    office: &mut Office<K>,
    framing: &mut LineFraming,
    wire: &mut Duplex<'_, S, W>,
    clock: &mut C,
) -> Result<(), Stop>
    requires holds { HoldsLines framing.old.skips framing.old.seen [] [] }
    requires none_waits { framing.old.refusals ≡ [] }
    ensures runs { (kept : Option KeptTables) → Keeps kept office.new.office → RunsFrom office.old.office
        (outside (S.left wire.old.input.now) (C.given clock.old) (W.written wire.old.out.now)
        (K.tables office.old.keeper) (K.faults office.old.keeper))
        (outside (S.left wire.new.input.now) (C.given clock.new) (W.written wire.new.out.now) kept
        (K.faults office.new.keeper))
        (end_status result) }
    ensures untold { StaysUntold (K.tables office.old.keeper) (K.tables office.new.keeper) }
    ensures reads { FailsIf (IsErrOf result Stop.ReadFault) S.left S.faults
        wire.old.input.now wire.new.input.now }
    ensures writes { FailsIf (IsErrOf result Stop.WriteFault) W.written W.faults
        wire.old.out.now wire.new.out.now }
    ensures input { wire.new.input.ghost_name ≡ wire.old.input.ghost_name }
    ensures out { wire.new.out.ghost_name ≡ wire.old.out.ghost_name }
{
    let intake = Intake {
        alloc: framing.alloc,
        most: MAX_INPUT,
    };
    ended_as(serve(rt, intake, office, framing, wire, clock))
}
