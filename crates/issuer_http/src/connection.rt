//! A connection whose requests a caller puts to the office of a hall.
ghost use Rattle.std.specs.Prelude.{◌≡◌, ℕ, List, Some};
ghost use Rattle.http_heads.specs.Routes.{routes};
ghost use Rattle.lei_values.specs.Count.{Rose};
ghost use Rattle.lei_hall.specs.Calling.{AskTurn};
ghost use Rattle.request_loop.specs.Serving.{progress as progress_of};
ghost use Rattle.issuer_http.specs.Callers.{ServesCaller};
ghost use Rattle.issuer_http.specs.Serving.{CompletesBy, ReportsFaults};
ghost use Rattle.issuer_http.specs.declared.ended.Ended.{Ended};

use crate::ended::Ended;
use crate::serving::serve_by;
use http_heads::{Place, router};
use lei_hall::{Caller, Pass};
use lei_keeper::Keeper;
use lei_outside::{Clock, Gate, Link};
use matchit::Router;
use std::alloc::Global;
use std::sync::Wait;
use std::thread::Threads;

/// Serves one connection: reads requests from the link, and has the caller put them to the office of its hall. The
/// caller puts one after another, each in one turn. The response to each is written before the next is put. For each
/// request that is put to the office, the clock gives one moment, after the request's bytes were read. The pass is
/// returned.
pub fn serve_connection<R: Threads + Wait + Sync, K: Keeper, G: Gate, L: Link, C: Clock>(
    rt: &R,
    alloc: Global,
    mut caller: Caller<'_, K, G>,
    link: &mut L,
    clock: &mut C,
) -> (Pass, Ended)
    ensures serves { ServesCaller
        (progress_of caller.entry (C.given clock.old) (L.written link.old)) (L.left link.old)
        (progress_of result.0 (C.given clock.new) (L.written link.new)) (L.left link.new) result.1 }
    ensures faults { ReportsFaults result.1 (L.read_faults link.old) (L.read_faults link.new)
        (L.write_faults link.old) (L.write_faults link.new) }
    ensures complete { (bytes : List ℕ) → L.left link.old ≡ Some bytes → ¬ (result.1 ≡ Ended.NoMemory)
        → ¬ (Rose (L.read_faults link.old) (L.read_faults link.new))
        → ¬ (Rose (L.write_faults link.old) (L.write_faults link.new))
        → CompletesBy AskTurn result.1
        (progress_of caller.entry (C.given clock.old) (L.written link.old)) bytes
        (progress_of result.0 (C.given clock.new) (L.written link.new)) }
{
    match router(alloc) {
        Ok(router) => {
            let ended = serve_caller(rt, alloc, &mut caller, &router, link, clock);
            (caller.into_pass(), ended)
        }
        Err(_) => (caller.into_pass(), Ended::NoMemory),
    }
}

/// The same with a router that was made before, as for all connections of a server, for a borrowed caller.
pub fn serve_caller<R: Threads + Wait + Sync, K: Keeper, G: Gate, L: Link, C: Clock>(
    rt: &R,
    alloc: Global,
    caller: &mut Caller<'_, K, G>,
    router: &Router<Place>,
    link: &mut L,
    clock: &mut C,
) -> Ended
    requires { router.now ≡ routes }
    ensures serves { ServesCaller
        (progress_of caller.old (C.given clock.old) (L.written link.old)) (L.left link.old)
        (progress_of caller.new (C.given clock.new) (L.written link.new)) (L.left link.new) result }
    ensures faults { ReportsFaults result (L.read_faults link.old) (L.read_faults link.new)
        (L.write_faults link.old) (L.write_faults link.new) }
    ensures complete { (bytes : List ℕ) → L.left link.old ≡ Some bytes → ¬ (result ≡ Ended.NoMemory)
        → ¬ (Rose (L.read_faults link.old) (L.read_faults link.new))
        → ¬ (Rose (L.write_faults link.old) (L.write_faults link.new))
        → CompletesBy AskTurn result
        (progress_of caller.old (C.given clock.old) (L.written link.old)) bytes
        (progress_of caller.new (C.given clock.new) (L.written link.new)) }
{
    serve_by(rt, alloc, caller, router, link, clock)
}
