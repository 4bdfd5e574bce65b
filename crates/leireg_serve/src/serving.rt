//! The command that serves the register, from its words, its keeper and its desks to its status.
ghost use Rattle.std.specs.Prelude.{◌≡◌, ◌≢◌, ◌≤◌, ◌⊎◌, None, false, length, map, string_bytes, All};
ghost use Rattle.lei_office.specs.Offices.{keeper_back};
ghost use Rattle.register_history.specs.Opened.{MayTell};
ghost use Rattle.leireg_serve.specs.Desks.{desk_state, line_tells};
ghost use Rattle.leireg_serve.specs.Ends.{ClosesOffice, EndsServing, IsUnserved, desk_status, desks_outside, fault_status};
ghost use Rattle.leireg_serve.specs.Words.{MeanServing, served_by};
ghost use Rattle.leireg_serve.specs.Workers.{HasRoomForWorkers};
ghost use Rattle.program_words.specs.Words.{Meant};

use crate::desk::{Desk, DeskEnd};
use crate::words::server_of;
use crate::workers::{Supplies, make_workers, serve_all, take_apart};
use http_heads::router;
use lei_hall::Hall;
use lei_keeper::Keeper;
use lei_office::{Limits, Office, OpenFault};
use lei_outside::{Clock, Door, Gate, Link};
use program_words::WordsFault;
use register_words::ExitStatus;
use std::alloc::Global;
use std::sync::Wait;
use std::thread::Threads;

/// Serves the register that a keeper has, if the words ask for it. Each desk has a worker, and all workers serve at the
/// same time. Each worker serves the lines of its door, one after another, until the door is closed or fails. Returns
/// the exit status, and the keeper and the desks, in order. It writes nothing but what goes to the lines. Uploads pass
/// the gate before their turns. All memory that workers need, apart from what requests take, is allocated before they
/// start.
pub fn serve<
    R: Threads + Wait + Sync,
    K: Keeper + Send,
    D: Door + Drop + Send,
    C: Clock + Drop + Send,
    G: Gate + Sync,
>(
    rt: &R,
    alloc: Global,
    words: &[String],
    keeper: K,
    desks: Vec<Desk<D, C>>,
    gate: &G,
) -> (u8, K, Vec<Desk<D, C>>)
where
    D::Line: Send,
    requires desks { (what : Meant) → MeanServing words.now what → length desks.items ≡ what.workers }
    requires doors { (what : Meant) → MeanServing words.now what
        → All (λ desk. D.out desk.door ≡ false) desks.items }
    ensures usage { result.0 ≡ 1 → served_by (map string_bytes words.now) ≡ None }
    ensures refused { served_by (map string_bytes words.now) ≡ None → (result.0 ≡ 1) ⊎ (result.0 ≡ 6) }
    ensures unserved { IsUnserved result.0 → result.2.items ≡ desks.items }
    ensures unkept { served_by (map string_bytes words.now) ≡ None
        → (result.1 ≡ keeper) × (result.2.items ≡ desks.items) }
    ensures serves { (what : Meant) → MeanServing words.now what → EndsServing (MayTell K.tables)
        (line_tells D.Line.left D.Line.written D.Line.read_faults D.Line.write_faults)
        (desks_outside (K.tables keeper) (K.faults keeper)
        (map (desk_state D.to_come D.came_back D.out D.faults C.given) desks.items))
        (desks_outside (K.tables result.1) (K.faults result.1)
        (map (desk_state D.to_come D.came_back D.out D.faults C.given) result.2.items))
        result.0 }
{
    match server_of(alloc, words) {
        Ok(_) => serve_over(rt, alloc, keeper, desks, gate),
        Err(WordsFault::Usage) => (ExitStatus::Usage.number(), keeper, desks),
        Err(WordsFault::NoMemory) => (ExitStatus::NoMemory.number(), keeper, desks),
    }
}

// Allocates what the workers need, opens the register that a keeper has and serves it at the desks.
fn serve_over<
    R: Threads + Wait + Sync,
    K: Keeper + Send,
    D: Door + Drop + Send,
    C: Clock + Drop + Send,
    G: Gate + Sync,
>(rt: &R, alloc: Global, keeper: K, desks: Vec<Desk<D, C>>, gate: &G) -> (u8, K, Vec<Desk<D, C>>)
where
    D::Line: Send,
    requires count { (1 ≤ length desks.items) × (length desks.items ≤ 64) }
    requires doors { All (λ desk. D.out desk.door ≡ false) desks.items }
    ensures ends { EndsServing (MayTell K.tables)
        (line_tells D.Line.left D.Line.written D.Line.read_faults D.Line.write_faults)
        (desks_outside (K.tables keeper) (K.faults keeper)
        (map (desk_state D.to_come D.came_back D.out D.faults C.given) desks.items))
        (desks_outside (K.tables result.1) (K.faults result.1)
        (map (desk_state D.to_come D.came_back D.out D.faults C.given) result.2.items))
        result.0 }
    ensures unserved { IsUnserved result.0 → result.2.items ≡ desks.items }
    ensures meant { result.0 ≢ 1 }
{
    let Ok(router) = router(alloc) else {
        return (ExitStatus::NoMemory.number(), keeper, desks);
    };
    match Supplies::of(alloc, &router, desks.len()) {
        Ok(supplies) => serve_store(rt, alloc, keeper, desks, gate, supplies),
        Err(_) => (ExitStatus::NoMemory.number(), keeper, desks),
    }
}

// The same with what the workers need.
fn serve_store<
    'a,
    R: Threads + Wait + Sync,
    K: Keeper + Send,
    D: Door + Drop + Send,
    C: Clock + Drop + Send,
    G: Gate + Sync,
>(
    rt: &R,
    alloc: Global,
    keeper: K,
    desks: Vec<Desk<D, C>>,
    gate: &G,
    supplies: Supplies<'a, D, C>,
) -> (u8, K, Vec<Desk<D, C>>)
where
    D::Line: Send,
    requires count { (1 ≤ length desks.items) × (length desks.items ≤ 64) }
    requires doors { All (λ desk. D.out desk.door ≡ false) desks.items }
    requires room { HasRoomForWorkers (length desks.items) supplies }
    ensures ends { EndsServing (MayTell K.tables)
        (line_tells D.Line.left D.Line.written D.Line.read_faults D.Line.write_faults)
        (desks_outside (K.tables keeper) (K.faults keeper)
        (map (desk_state D.to_come D.came_back D.out D.faults C.given) desks.items))
        (desks_outside (K.tables result.1) (K.faults result.1)
        (map (desk_state D.to_come D.came_back D.out D.faults C.given) result.2.items))
        result.0 }
    ensures unserved { IsUnserved result.0 → result.2.items ≡ desks.items }
    ensures meant { result.0 ≢ 1 }
{
    match Office::open(rt, alloc, keeper, Limits::standard()) {
        Ok(office) => serve_office(rt, alloc, office, desks, gate, supplies),
        Err(fault) => {
            let (status, keeper) = refusal_end(fault);
            (status, keeper, desks)
        }
    }
}

// The status of a refusal to open a store, and the keeper that is returned.
fn refusal_end<K: Keeper>(fault: OpenFault<K>) -> (u8, K)
    ensures status { result.0 ≡ fault_status fault }
    ensures back { result.1 ≡ keeper_back fault }
{
    match fault {
        OpenFault::KeeperFault(keeper) => (ExitStatus::KeeperFault.number(), keeper),
        OpenFault::StoreDamaged(keeper, _) => (ExitStatus::StoreDamaged.number(), keeper),
        OpenFault::NoMemory(keeper) => (ExitStatus::NoMemory.number(), keeper),
    }
}

// Opens a hall over the office, has the workers serve, and closes the hall and the office. If memory for the hall runs
// out, nothing is served.
fn serve_office<
    'a,
    R: Threads + Wait + Sync,
    K: Keeper + Send,
    D: Door + Drop + Send,
    C: Clock + Drop + Send,
    G: Gate + Sync,
>(
    rt: &R,
    alloc: Global,
    office: Office<K>,
    desks: Vec<Desk<D, C>>,
    gate: &G,
    supplies: Supplies<'a, D, C>,
) -> (u8, K, Vec<Desk<D, C>>)
where
    D::Line: Send,
    requires count { (1 ≤ length desks.items) × (length desks.items ≤ 64) }
    requires doors { All (λ desk. D.out desk.door ≡ false) desks.items }
    requires room { HasRoomForWorkers (length desks.items) supplies }
    ensures { ((result.0 ≡ 6) × (result.1 ≡ office.keeper) × (result.2.items ≡ desks.items))
        ⊎ ClosesOffice K.tables K.faults
        (line_tells D.Line.left D.Line.written D.Line.read_faults D.Line.write_faults) office
        (map (desk_state D.to_come D.came_back D.out D.faults C.given) desks.items) result.1
        (map (desk_state D.to_come D.came_back D.out D.faults C.given) result.2.items) result.0 }
{
    match Hall::open(alloc, office, desks.len() as u32) {
        Ok((hall, passes)) => {
            let workers = make_workers(desks, passes, supplies.router, supplies.workers);
            let workers = serve_all(rt, alloc, &hall, gate, workers);
            let (desks, passes, end) = take_apart(workers, supplies.desks, supplies.passes);
            let keeper = hall.close(passes).close();
            (status_of(end), keeper, desks)
        }
        Err(office) => (ExitStatus::NoMemory.number(), office.close(), desks),
    }
}

fn status_of(end: DeskEnd) -> u8
    ensures { result ≡ desk_status end }
{
    match end {
        DeskEnd::Closed => ExitStatus::Ok.number(),
        DeskEnd::Failed => ExitStatus::DoorFault.number(),
    }
}
