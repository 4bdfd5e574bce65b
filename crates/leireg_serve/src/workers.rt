//! The workers of a server: each has a desk and a pass, and they serve at the same time.
ghost use Rattle.std.specs.List.{AllZip};
ghost use Rattle.std.specs.Prelude.{◌≡◌, ℕ, ◌≤◌, ◌<◌, [], ◌∷◌, length, map, All, Some, IsSome, IfOk, slice_index_or, vec_capacity};
ghost use Rattle.std.specs.Thread.{IsSync};
ghost use Rattle.http_heads.specs.Routes.{routes};
ghost use Rattle.leireg_serve.specs.Desks.{desk_state, line_tells};
ghost use Rattle.leireg_serve.specs.Ends.{joint_end};
ghost use Rattle.leireg_serve.specs.Workers.{HasRoomForWorkers, IsReadyWorker, Works};
ghost use Rattle.leireg_serve.specs.declared.workers.Worker.{Worker};

use crate::desk::{Desk, DeskEnd, serve_desk};
use http_heads::Place;
use lei_hall::{Caller, Hall, Pass};
use lei_keeper::Keeper;
use lei_outside::{Clock, Door, Gate, Link};
use lei_values::NoMemory;
use matchit::Router;
use std::alloc::Global;
use std::sync::Wait;
use std::thread;
use std::thread::Threads;

/// The greatest number of workers. This project's profile.
const MOST_WORKERS: usize = 64;

/// A desk, the pass that its lines are served by, and how that ended. All workers share the router.
#[derive(Drop)]
pub struct Worker<'a, D, C> {
    pub router: &'a Router<Place>,
    pub desk: Desk<D, C>,
    // removed while the desk is served
    pub pass: Option<Pass>,
    pub end: DeskEnd,
}

/// What the workers of a server need: the router of all routes, which they share, and room for them and for what they
/// leave.
#[derive(Drop)]
pub struct Supplies<'a, D, C> {
    pub router: &'a Router<Place>,
    pub workers: Vec<Worker<'a, D, C>>,
    pub desks: Vec<Desk<D, C>>,
    pub passes: Vec<Pass>,
}

impl<'a, D: Drop, C: Drop> Supplies<'a, D, C> {
    /// The supplies of this many workers.
    pub fn of(alloc: Global, router: &'a Router<Place>, count: usize) -> Result<Self, NoMemory>
        requires { router.now ≡ routes }
        ensures { IfOk result (HasRoomForWorkers count) }
    {
        Ok(Supplies {
            router,
            workers: Vec::with_capacity(alloc, count)?,
            desks: Vec::with_capacity(alloc, count)?,
            passes: Vec::with_capacity(alloc, count)?,
        })
    }
}

/// A worker for each of these desks, with the pass at the same index.
pub fn make_workers<'a, D: Drop, C: Drop>(
    desks: Vec<Desk<D, C>>,
    passes: Vec<Pass>,
    router: &'a Router<Place>,
    mut workers: Vec<Worker<'a, D, C>>,
) -> Vec<Worker<'a, D, C>>
    requires even { length desks.items ≡ length passes.items }
    requires empty { workers.items ≡ [] }
    requires room { length desks.items ≤ vec_capacity workers }
    ensures desks { map (λ worker. worker.desk) result.items ≡ desks.items }
    ensures passes { map (λ worker. worker.pass) result.items ≡ map Some passes.items }
    ensures router { All (λ worker. worker.router.now ≡ router.now) result.items }
{
    let mut passes = passes.into_iter();
    for desk in desks {
        let Some(pass) = passes.next() else {
            unreachable!()
        };
        workers.push_reserved(Worker {
            router,
            desk,
            pass: Some(pass),
            end: DeskEnd::Closed,
        });
    }
    workers
}

/// The workers serve at the same time, each the lines of its desk by its pass. If no thread can be started, they serve
/// one after another.
pub fn serve_all<
    'a,
    R: Threads + Wait + Sync,
    K: Keeper + Send,
    D: Door + Drop + Send,
    C: Clock + Drop + Send,
    G: Gate + Sync,
>(
    rt: &R,
    alloc: Global,
    hall: &Hall<K>,
    gate: &G,
    mut workers: Vec<Worker<'a, D, C>>,
) -> Vec<Worker<'a, D, C>>
where
    D::Line: Send,
    requires { All (IsReadyWorker D.out hall.now.table) workers.items }
    ensures { AllZip (Works (line_tells D.Line.left D.Line.written D.Line.read_faults D.Line.write_faults)
        (desk_state D.to_come D.came_back D.out D.faults C.given)) workers.entry.items result.items }
{
    serve_each(rt, alloc, hall, gate, &mut workers);
    workers
}

// The same, with the workers in place.
fn serve_each<
    'a,
    R: Threads + Wait + Sync,
    K: Keeper + Send,
    D: Door + Send,
    C: Clock + Send,
    G: Gate + Sync,
>(rt: &R, alloc: Global, hall: &Hall<K>, gate: &G, workers: &mut [Worker<'a, D, C>])
where
    D::Line: Send,
    requires { All (IsReadyWorker D.out hall.now.table) workers.old }
    ensures count { length workers.new ≡ length workers.old }
    ensures each { (k : ℕ) (d : Worker D C) → k < length workers.old
        → Works (line_tells D.Line.left D.Line.written D.Line.read_faults D.Line.write_faults)
        (desk_state D.to_come D.came_back D.out D.faults C.given)
        (slice_index_or workers.old k d) (slice_index_or workers.new k d) }
{
    thread::for_each_mut(
        rt,
        workers,
        MOST_WORKERS,
        &|_: usize, worker: &mut Worker<'_, D, C>|
            requires { IsSync R.row × IsReadyWorker D.out hall.now.table worker.old }
            ensures { Works (line_tells D.Line.left D.Line.written D.Line.read_faults D.Line.write_faults)
                (desk_state D.to_come D.came_back D.out D.faults C.given) worker.old worker.new }
        { serve_worker(rt, alloc, hall, gate, worker) },
    );
}

// Serves the lines of a worker's desk.
fn serve_worker<R: Threads + Wait + Sync, K: Keeper, D: Door, C: Clock, G: Gate>(
    rt: &R,
    alloc: Global,
    hall: &Hall<K>,
    gate: &G,
    worker: &mut Worker<'_, D, C>,
)
    requires { IsReadyWorker D.out hall.now.table worker.old }
    ensures { Works (line_tells D.Line.left D.Line.written D.Line.read_faults D.Line.write_faults)
        (desk_state D.to_come D.came_back D.out D.faults C.given) worker.old worker.new }
{
    let Some(pass) = worker.pass.take() else {
        unreachable!()
    };
    let caller = Caller::new(hall, gate, pass);
    let (pass, end) = serve_desk(rt, alloc, caller, worker.router, &mut worker.desk);
    worker.pass = Some(pass);
    worker.end = end;
}

/// The desks and the passes of the workers, in order, and how all ended: closed if all are closed, and failed
/// otherwise.
pub fn take_apart<'a, D: Drop, C: Drop>(
    workers: Vec<Worker<'a, D, C>>,
    mut desks: Vec<Desk<D, C>>,
    mut passes: Vec<Pass>,
) -> (Vec<Desk<D, C>>, Vec<Pass>, DeskEnd)
    requires passes { All (λ worker. IsSome worker.pass) workers.items }
    requires no_desks { desks.items ≡ [] }
    requires no_passes { passes.items ≡ [] }
    requires room { (length workers.items ≤ vec_capacity desks)
        × (length workers.items ≤ vec_capacity passes) }
    ensures desks { result.0.items ≡ map (λ worker. worker.desk) workers.entry.items }
    ensures passes { map Some result.1.items ≡ map (λ worker. worker.pass) workers.entry.items }
    ensures end { result.2 ≡ joint_end (map (λ worker. worker.end) workers.entry.items) }
{
    let mut end = DeskEnd::Closed;
    for worker in workers {
        let Worker {
            desk,
            pass,
            end: its_end,
            ..
        } = worker;
        let Some(pass) = pass else { unreachable!() };
        desks.push_reserved(desk);
        passes.push_reserved(pass);
        end = both(end, its_end);
    }
    (desks, passes, end)
}

// How two desks ended.
fn both(first: DeskEnd, second: DeskEnd) -> DeskEnd
    ensures { result ≡ joint_end (first ∷ second ∷ []) }
{
    match (first, second) {
        (DeskEnd::Closed, DeskEnd::Closed) => DeskEnd::Closed,
        _ => DeskEnd::Failed,
    }
}
