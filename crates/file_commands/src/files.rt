//! Files that are read to their ends.
ghost use Rattle.std.specs.Prelude.{◌≡◌, ◌≤◌, ◌<◌, ◌++◌, [], take, vec_len, IfErr, IfOk, IsErrOf, OnErr, OnOk};
ghost use Rattle.lei_outside.specs.Told.{Loses};
ghost use Rattle.request_loop.specs.ReadBuffers.{Fills};
ghost use Rattle.lei_outside.specs.Faults.{FailsLast};
ghost use Rattle.request_loop.specs.Devices.{FailsIf};
ghost use Rattle.file_commands.specs.Files.{IsFileStop, IsReadWhole};

use lei_outside::{Failed, Source};
use lei_values::{Bytes, NoMemory};
use line_reading::{BLOCK, Stop};
use memory_devices::SureSource;
use std::alloc::Global;

/// Reading a file ends at this number of bytes. This project's profile.
pub const MAX_FILE: usize = 1_073_741_824;

/// A file without bytes, for a command that reads no second file.
pub fn no_file(alloc: Global) -> SureSource
    ensures { result.left ≡ [] }
{
    SureSource::new(Bytes::from(Vec::new(alloc)), 1)
}

/// Reads a file to its end, block by block.
pub fn read_file<S: Source>(alloc: Global, input: &mut S) -> Result<Vec<u8>, Stop>
    ensures whole { IfOk result (λ file. IsReadWhole (S.left input.old) (S.left input.new) file.items) }
    ensures stops { IfErr result (IsFileStop (S.left input.old) (S.left input.new)) }
    ensures reads { FailsIf (IsErrOf result Stop.ReadFault) S.left S.faults input.old input.new }
{
    let mut block = block(alloc)?;
    let mut file = Vec::new(alloc);
    loop {
        let count = read_block(input, &mut block, MAX_FILE - file.len())?;
        if count == 0 {
            return Ok(file);
        }
        if file.len() + count == MAX_FILE {
            return Err(Stop::InputTooLong);
        }
        append(&mut file, &block[..count])?;
    }
}

// Reads once, at most a block and at most this many bytes, into the front of a block.
fn read_block<S: Source>(input: &mut S, block: &mut Vec<u8>, most: usize) -> Result<usize, Failed>
    requires room { vec_len block.old ≡ BLOCK }
    requires some { 0 < most }
    ensures ok { IfOk result (λ count. Fills (S.left input.old) (S.left input.new) []
        (take count block.new.items) count most) }
    ensures block { IfOk result (λ count. count ≤ BLOCK) }
    ensures err { OnErr result (Loses (S.left input.old) (S.left input.new) []) }
    ensures len { vec_len block.new ≡ vec_len block.old }
    ensures kept { OnOk result (S.faults input.new ≡ S.faults input.old) }
    ensures failed { OnErr result (FailsLast S.left S.faults input.old input.new) }
{
    let end = most.min(BLOCK);
    input.read(&mut block[0..end])
}

// The memory that one read fills.
fn block(alloc: Global) -> Result<Vec<u8>, NoMemory>
    ensures { IfOk result (λ block. vec_len block ≡ BLOCK) }
{
    Ok(vec![in alloc; 0u8; BLOCK]?)
}

fn append(file: &mut Vec<u8>, bytes: &[u8]) -> Result<(), NoMemory>
    ensures { OnOk result (file.new.items ≡ file.old.items ++ bytes.now) }
{
    Ok(file.extend_from_slice(bytes)?)
}
