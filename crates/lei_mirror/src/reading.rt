//! Reads packets.
ghost use Rattle.std.specs.Prelude.{◌≡◌, IfOk, IsErrOf};
ghost use Rattle.lei_mirror.specs.declared.faults.MirrorFault.{MirrorFault as Fault};
ghost use Rattle.lei_mirror.specs.declared.packet.Packet.{Packet as Spelled};
ghost use Rattle.lei_mirror.specs.declared.packet.PacketKind.{PacketKind as Kind};
ghost use Rattle.lei_mirror.specs.Packets.{IsNoPacket, IsPacket};
ghost use Rattle.lei_mirror.specs.States.{IsSoundPacket};

use crate::changes::shared_changes;
use crate::faults::MirrorFault;
use crate::packet::{Packet, PacketBody, PacketKind};
use crate::shared::SharedRows;
use copy_forms::{CopyRead, DeltaRead, Form, FormFault, Sheet, read_copy, read_delta};
use lei_values::NoMemory;
use std::alloc::Global;

/// Reads the packet that these bytes are, and builds its rows. `NotRead` is returned if they aren't a packet.
pub fn read_packet(
    alloc: Global,
    kind: PacketKind,
    sheet: Sheet,
    bytes: &[u8],
) -> Result<Packet, MirrorFault>
    ensures found { IfOk result (λ packet. IsPacket kind sheet bytes.now packet) }
    ensures sound { IfOk result (λ packet. IsSoundPacket packet) }
    ensures only { IsErrOf result Fault.NotRead → IsNoPacket kind sheet bytes.now }
    ensures room { IsErrOf result Fault.Full → ⊥ }
{
    match kind {
        PacketKind::Copy => read_copy_packet(alloc, sheet, bytes),
        PacketKind::Delta => read_delta_packet(alloc, sheet, bytes),
    }
}

/// The rows or the changes of the packet that these bytes are, read again. It fails only if memory runs out.
pub fn read_body(
    alloc: Global,
    kind: PacketKind,
    sheet: Sheet,
    bytes: &[u8],
) -> Result<PacketBody, NoMemory>
    requires { IsNoPacket kind sheet bytes.now → ⊥ }
    ensures { IfOk result (λ body. (packet : Spelled) → IsPacket kind sheet bytes.now packet
        → body ≡ packet.body) }
{
    match read_packet(alloc, kind, sheet, bytes) {
        Ok(packet) => Ok(packet.body),
        Err(MirrorFault::NotRead) => unreachable!(),
        Err(MirrorFault::Full) => unreachable!(),
        Err(MirrorFault::NoMemory) => Err(NoMemory),
    }
}

fn read_copy_packet(alloc: Global, sheet: Sheet, bytes: &[u8]) -> Result<Packet, MirrorFault>
    ensures found { IfOk result (λ packet. IsPacket Kind.Copy sheet bytes.now packet) }
    ensures sound { IfOk result (λ packet. IsSoundPacket packet) }
    ensures only { IsErrOf result Fault.NotRead → IsNoPacket Kind.Copy sheet bytes.now }
    ensures room { IsErrOf result Fault.Full → ⊥ }
{
    let read = match read_copy(alloc, bytes, sheet, Form::Json) {
        Ok(read) => read,
        Err(FormFault::NotRead) => return Err(MirrorFault::NotRead),
        Err(FormFault::NoMemory) => return Err(MirrorFault::NoMemory),
    };
    let CopyRead { head, rows, .. } = read;
    let Some(head) = head else { unreachable!() };
    let rows = SharedRows::of_read(alloc, rows)?;
    Ok(Packet {
        sheet,
        head,
        size: bytes.len() as u64,
        body: PacketBody::Copy(rows),
    })
}

fn read_delta_packet(alloc: Global, sheet: Sheet, bytes: &[u8]) -> Result<Packet, MirrorFault>
    ensures found { IfOk result (λ packet. IsPacket Kind.Delta sheet bytes.now packet) }
    ensures sound { IfOk result (λ packet. IsSoundPacket packet) }
    ensures only { IsErrOf result Fault.NotRead → IsNoPacket Kind.Delta sheet bytes.now }
    ensures room { IsErrOf result Fault.Full → ⊥ }
{
    let read = match read_delta(alloc, bytes, sheet, Form::Json) {
        Ok(read) => read,
        Err(FormFault::NotRead) => return Err(MirrorFault::NotRead),
        Err(FormFault::NoMemory) => return Err(MirrorFault::NoMemory),
    };
    let DeltaRead { head, changes, .. } = read;
    let Some(head) = head else { unreachable!() };
    let changes = shared_changes(alloc, changes.into_vec())?;
    Ok(Packet {
        sheet,
        head,
        size: bytes.len() as u64,
        body: PacketBody::Delta(changes),
    })
}
