//! The register served over HTTP, through connections of the machine.
ghost use Rattle.std.specs.Prelude.{◌≡◌, false, length, All, IfOk};
ghost use Rattle.program_words.specs.Words.{Meant};
ghost use Rattle.leireg_serve.specs.Words.{MeanServing};

use crate::store::{StoreKeeper, close, keeper_at};
use lei_outside::OpenGate;
use leireg_devices::{Deadlines, Operator, SystemClock, TcpDoor};
use leireg_serve::{Desk, serve, server_of};
use program_words::{WantedRun, WordsFault};
use register_words::ExitStatus;
use sqlite::Alter;
use std::alloc::AllocError;
use std::io;
use std::net::{Ipv4Addr, SocketAddr, TcpListener};
use std::sync::Wait;
use std::thread::Threads;

// A desk over a listener of the machine.
type TcpDesk<'a> = Desk<TcpDoor<'a, HostRuntime, Console<'a>>, SystemClock<'a, HostRuntime>>;

/// Serves the register as the words ask for it, and returns the status. The port is requested first: if it can't be
/// had, the store isn't opened, and none is made.
pub fn serve_words<R: Threads + Wait + Sync>(rt: &R, host: &HostRuntime, words: &[String]) -> u8 {
    let wanted = match server_of(host.alloc(), words) {
        Ok(wanted) => wanted,
        Err(WordsFault::Usage) => return ExitStatus::Usage.number(),
        Err(WordsFault::NoMemory) => return ExitStatus::NoMemory.number(),
    };
    let address = SocketAddr::from((Ipv4Addr::LOCALHOST, wanted.port));
    let listener = match TcpListener::bind(host, address) {
        Ok(listener) => listener,
        Err(fault) => {
            let _ = eprintln!(host; "{address} can't be listened on: {fault}");
            return ExitStatus::DoorFault.number();
        }
    };
    let Ok(desks) = desks_of(host, &listener, &wanted) else {
        return ExitStatus::NoMemory.number();
    };
    serve_desks(rt, host, words, keeper_at(host, wanted.store), desks)
}

// Serves the register that a keeper has at these desks. The store may be any store that may move to another thread.
fn serve_desks<R: Threads + Wait + Sync, S: Alter + Drop + Send>(
    rt: &R,
    host: &HostRuntime,
    words: &[String],
    keeper: StoreKeeper<'_, S>,
    desks: Vec<TcpDesk<'_>>,
) -> u8
    requires count { (what : Meant) → MeanServing words.now what → length desks.items ≡ what.workers }
    requires doors { All (λ desk. desk.door.out ≡ false) desks.items }
{
    let (status, keeper, _) = serve(rt, host.alloc(), words, keeper, desks, &OpenGate);
    close(keeper);
    status
}

// A desk for each worker, each with its own door over the shared listener. The first informs the operator of the
// address.
fn desks_of<'a>(
    host: &'a HostRuntime,
    listener: &'a TcpListener,
    wanted: &WantedRun<'_>,
) -> Result<Vec<TcpDesk<'a>>, AllocError>
    ensures count { IfOk result (λ desks. length desks.items ≡ wanted.now.workers) }
    ensures doors { IfOk result (λ desks. All (λ desk. desk.door.out ≡ false) desks.items) }
{
    let mut desks = Vec::with_capacity(host.alloc(), wanted.workers as usize)?;
    for number in 0..wanted.workers {
        let console = Console {
            host,
            announces: number == 0,
        };
        let deadlines = Deadlines::standard();
        let door = TcpDoor::new(host, Some(listener), console, deadlines, wanted.connections);
        desks.push(Desk {
            door,
            clock: SystemClock::new(host),
        })?;
    }
    Ok(desks)
}

// The standard error, where the operator reads what happens to the listener.
#[derive(Drop)]
struct Console<'a> {
    host: &'a HostRuntime,
    // Whether this console reports the address to the operator.
    announces: bool,
}

impl<'a> Operator for Console<'a> {
    fn note_listening(&mut self, address: SocketAddr) {
        if self.announces {
            let _ = eprintln!(self.host; "listening on {address}");
        }
    }

    fn note_accept_fault(&mut self, fault: &io::Error) {
        let _ = eprintln!(self.host; "a connection can't be taken: {fault}; trying again");
    }
}
