//! A connection that is served alone.
ghost use Rattle.std.specs.Prelude.{◌≡◌, ℕ, List, Some};
ghost use Rattle.http_heads.specs.Routes.{routes};
ghost use Rattle.lei_values.specs.Count.{Rose};
ghost use Rattle.request_loop.specs.Frames.{Fits};
ghost use Rattle.request_loop.specs.Serving.{progress as progress_of};
ghost use Rattle.issuer_http.specs.Frames.{http_rules};
ghost use Rattle.issuer_http.specs.Serving.{CompletesBy, CompletesHttp, ReportsFaults, ServesBy, ServesHttp, ended_of, http_progress};
ghost use Rattle.issuer_http.specs.declared.ended.Ended.{Ended};

use crate::ended::{Ended, HttpEnd};
use crate::framing::HttpFraming;
use http_heads::{Place, router};
use lei_keeper::Keeper;
use lei_office::{Asked, Office, Reply};
use lei_outside::{Clock, Link};
use matchit::Router;
use request_loop::{Answers, Ended as SessionEnd, Intake, serve};
use std::alloc::Global;
use std::thread::Threads;

/// A connection ends when it has taken this many bytes. This project's profile.
pub const MAX_INPUT: usize = 1_073_741_824;

/// Serves one connection: reads requests from the link, and puts them to the office one after another. The response to
/// each is written before the next is put. For each request that is put to the office, the clock gives one moment,
/// after the request's bytes were read.
pub fn serve_alone<R: Threads + Sync, K: Keeper, L: Link, C: Clock>(
    rt: &R,
    alloc: Global,
    office: &mut Office<K>,
    link: &mut L,
    clock: &mut C,
) -> Ended
    ensures serves { ServesHttp
        (http_progress office.old.office (K.tables office.old.keeper) (K.faults office.old.keeper)
        (C.given clock.old)
        (L.written link.old)) (L.left link.old)
        (http_progress office.new.office (K.tables office.new.keeper) (K.faults office.new.keeper)
        (C.given clock.new)
        (L.written link.new)) (L.left link.new)
        result }
    ensures faults { ReportsFaults result (L.read_faults link.old) (L.read_faults link.new)
        (L.write_faults link.old) (L.write_faults link.new) }
    ensures complete { (bytes : List ℕ) → L.left link.old ≡ Some bytes → ¬ (result ≡ Ended.NoMemory)
        → ¬ (Rose (L.read_faults link.old) (L.read_faults link.new))
        → ¬ (Rose (L.write_faults link.old) (L.write_faults link.new))
        → CompletesHttp result
        (http_progress office.old.office (K.tables office.old.keeper) (K.faults office.old.keeper)
        (C.given clock.old)
        (L.written link.old)) bytes
        (http_progress office.new.office (K.tables office.new.keeper) (K.faults office.new.keeper)
        (C.given clock.new)
        (L.written link.new)) }
{
    match router(alloc) {
        Ok(router) => serve_with(rt, alloc, office, &router, link, clock),
        Err(_) => Ended::NoMemory,
    }
}

/// The same with a router that was made before, as for all connections of a server.
pub fn serve_with<R: Threads + Sync, K: Keeper, L: Link, C: Clock>(
    rt: &R,
    alloc: Global,
    office: &mut Office<K>,
    router: &Router<Place>,
    link: &mut L,
    clock: &mut C,
) -> Ended
    requires { router.now ≡ routes }
    ensures serves { ServesHttp
        (http_progress office.old.office (K.tables office.old.keeper) (K.faults office.old.keeper)
        (C.given clock.old)
        (L.written link.old)) (L.left link.old)
        (http_progress office.new.office (K.tables office.new.keeper) (K.faults office.new.keeper)
        (C.given clock.new)
        (L.written link.new)) (L.left link.new)
        result }
    ensures faults { ReportsFaults result (L.read_faults link.old) (L.read_faults link.new)
        (L.write_faults link.old) (L.write_faults link.new) }
    ensures complete { (bytes : List ℕ) → L.left link.old ≡ Some bytes → ¬ (result ≡ Ended.NoMemory)
        → ¬ (Rose (L.read_faults link.old) (L.read_faults link.new))
        → ¬ (Rose (L.write_faults link.old) (L.write_faults link.new))
        → CompletesHttp result
        (http_progress office.old.office (K.tables office.old.keeper) (K.faults office.old.keeper)
        (C.given clock.old)
        (L.written link.old)) bytes
        (http_progress office.new.office (K.tables office.new.keeper) (K.faults office.new.keeper)
        (C.given clock.new)
        (L.written link.new)) }
{
    serve_by(rt, alloc, office, router, link, clock)
}

// The same, whoever answers the requests.
pub fn serve_by<R, A: Answers<R, Asked = Asked, Reply = Reply>, L: Link, C: Clock>(
    rt: &R,
    alloc: Global,
    who: &mut A,
    router: &Router<Place>,
    link: &mut L,
    clock: &mut C,
) -> Ended
    requires routes { router.now ≡ routes }
    requires fits { Fits A.takes A.step http_rules }
    ensures serves { ServesBy A.step
        (progress_of who.old (C.given clock.old) (L.written link.old)) (L.left link.old)
        (progress_of who.new (C.given clock.new) (L.written link.new)) (L.left link.new) result }
    ensures faults { ReportsFaults result (L.read_faults link.old) (L.read_faults link.new)
        (L.write_faults link.old) (L.write_faults link.new) }
    ensures complete { (bytes : List ℕ) → L.left link.old ≡ Some bytes → ¬ (result ≡ Ended.NoMemory)
        → ¬ (Rose (L.read_faults link.old) (L.read_faults link.new))
        → ¬ (Rose (L.write_faults link.old) (L.write_faults link.new))
        → CompletesBy A.step result
        (progress_of who.old (C.given clock.old) (L.written link.old)) bytes
        (progress_of who.new (C.given clock.new) (L.written link.new)) }
{
    let mut framing = HttpFraming::new(alloc, router);
    let most = MAX_INPUT;
    let intake = Intake { alloc, most };
    let end = serve(rt, intake, who, &mut framing, link, clock);
    ended_of(end)
}

// How a connection ends if its session ends like this.
fn ended_of(end: SessionEnd<HttpEnd>) -> Ended
    ensures { result ≡ ended_of end }
{
    match end {
        SessionEnd::AtEnd | SessionEnd::By(HttpEnd::Closed) => Ended::Closed,
        SessionEnd::By(HttpEnd::BadHead) => Ended::BadHead,
        SessionEnd::ReadFault => Ended::ReadFault,
        SessionEnd::WriteFault => Ended::WriteFault,
        SessionEnd::InputLimit => Ended::InputLimit,
        SessionEnd::NoMemory => Ended::NoMemory,
    }
}
