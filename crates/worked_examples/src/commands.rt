//! The commands of the register over memory alone.
use leireg_run::run_command;
use memory_devices::SureKeeper;
use program_words::{WordsFault, tell, wanted_run};
use register_words::ExitStatus;
use std::mem::forget;
use std::thread::Threads;

/// Does what the words ask for, and says the status. A store is none of this program's. The runtime is handed on as one
/// that may start threads, and as the host.
pub fn run_words<R: Threads + Sync>(rt: &R, host: &HostRuntime, words: &[String]) -> u8 {
    let status = match wanted_run(host.alloc(), words) {
        Ok(wanted) => match wanted.store {
            None => {
                let keeper = SureKeeper::new(host.alloc());
                let (status, keeper) = run_command(rt, host, words, &wanted, keeper);
                forget(keeper);
                status
            }
            Some(_) => ExitStatus::Usage.number(),
        },
        Err(WordsFault::Usage) => ExitStatus::Usage.number(),
        Err(WordsFault::NoMemory) => ExitStatus::NoMemory.number(),
    };
    tell(host, status, words);
    status
}
