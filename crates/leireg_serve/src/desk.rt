//! A desk: a door whose lines are served one after another, and a clock.
ghost use Rattle.std.specs.Prelude.{◌≡◌, true, false};
ghost use Rattle.http_heads.specs.Routes.{routes};
ghost use Rattle.lei_outside.specs.Doors.{TakesBack};
ghost use Rattle.leireg_serve.specs.Desks.{ServesDesk, ServesLine, desk_state, line_tells, stage};

use http_heads::Place;
use issuer_http::{Ended, serve_caller};
use lei_hall::{Caller, Pass};
use lei_keeper::Keeper;
use lei_outside::{Came, Clock, Door, Gate, Link};
use matchit::Router;
use std::alloc::Global;
use std::sync::Wait;
use std::thread::Threads;

/// A worker's door, which its lines come through, and its clock.
#[derive(Drop)]
pub struct Desk<D, C> {
    pub door: D,
    pub clock: C,
}

/// Why serving a desk ended.
#[derive(Clone, Copy, Debug, PartialEq, Eq)]
pub enum DeskEnd {
    /// The door is closed.
    Closed,
    /// The door failed.
    Failed,
}

/// Serves the lines of a desk's door, one after another, until the door is closed or fails, with the router of all
/// routes. A caller puts the requests on them to the office of its hall, each in one turn. Each line is returned to the
/// door before the next one is requested. How serving a line ends doesn't affect how serving the desk ends. The
/// caller's pass is returned.
pub fn serve_desk<R: Threads + Wait + Sync, K: Keeper, D: Door, C: Clock, G: Gate>(
    rt: &R,
    alloc: Global,
    mut caller: Caller<'_, K, G>,
    router: &Router<Place>,
    desk: &mut Desk<D, C>,
) -> (Pass, DeskEnd)
    requires routes { router.now ≡ routes }
    requires door { D.out desk.old.door ≡ false }
    ensures { ServesDesk
        (line_tells D.Line.left D.Line.written D.Line.read_faults D.Line.write_faults) caller.entry
        (desk_state D.to_come D.came_back D.out D.faults C.given desk.old) result.0
        (desk_state D.to_come D.came_back D.out D.faults C.given desk.new) result.1 }
{
    for _ in rt.forever() {
        match desk.door.next() {
            Came::Line(line) => {
                serve_line(rt, alloc, &mut caller, router, desk, line);
            }
            Came::Closed => return (caller.into_pass(), DeskEnd::Closed),
            Came::Failed => return (caller.into_pass(), DeskEnd::Failed),
        }
    }
    unreachable!()
}

// Serves the line that is out, returns it to its door, and reports how serving it ended.
fn serve_line<R: Threads + Wait + Sync, K: Keeper, D: Door, C: Clock, G: Gate>(
    rt: &R,
    alloc: Global,
    caller: &mut Caller<'_, K, G>,
    router: &Router<Place>,
    desk: &mut Desk<D, C>,
    mut line: D::Line,
) -> Ended
    requires routes { router.now ≡ routes }
    requires out { D.out desk.old.door ≡ true }
    ensures served { (back : D.Line)
        × TakesBack (D.came_back desk.old.door) (D.came_back desk.new.door) back
        × ServesLine (line_tells D.Line.left D.Line.written D.Line.read_faults D.Line.write_faults)
        (stage caller.old (C.given desk.old.clock)) line back result
        (stage caller.new (C.given desk.new.clock)) }
    ensures out { D.out desk.new.door ≡ false }
    ensures to_come { D.to_come desk.new.door ≡ D.to_come desk.old.door }
    ensures kept { D.faults desk.new.door ≡ D.faults desk.old.door }
{
    let ended = serve_caller(rt, alloc, caller, router, &mut line, &mut desk.clock);
    desk.door.back(line);
    ended
}
