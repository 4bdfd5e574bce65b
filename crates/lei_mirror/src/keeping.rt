//! Packets that are kept because they are ahead of what is shown.
ghost use Rattle.std.specs.Prelude.{◌≡◌, ◌≤◌, ◌+◌, ◌-◌, ◌∷◌, ◌++◌, ◌||◌, [], filter, length, nat_le, nat_lt, OnErr, OnOk};
ghost use Rattle.std.specs.List.{All, list_any};
ghost use Rattle.lei_mirror.specs.KeptPackets.{IsSpelledBy};
ghost use Rattle.lei_mirror.specs.Mirrors as spec;
ghost use Rattle.lei_mirror.specs.Packets as packets;
ghost use Rattle.lei_mirror.specs.Settling.{SettlesTo};
ghost use Rattle.lei_mirror.specs.States.{AreTables, IsSoundPacket};

use crate::kept_packet::KeptPacket;
use crate::packet::Packet;
use crate::settling::settle;
use crate::tables::Tables;
use lei_values::NoMemory;
use std::alloc::Global;

// The most packets that are kept.
const PACKETS: usize = 64;

// The most bytes that they have in total.
const BYTES: u64 = 536_870_912;

/// Whether a packet changes nothing: its publication isn't after the one that is shown, or one like it is kept.
pub fn is_past(tables: &Tables, kept: &[KeptPacket], packet: &Packet) -> bool
    ensures { result ≡ (nat_le packet.now.head.publication tables.now.publication
        || list_any (packets.is_like packet.now) kept.now) }
{
    packet.head.publication <= tables.publication || is_kept(kept, packet)
}

fn is_kept(kept: &[KeptPacket], packet: &Packet) -> bool
    ensures { result ≡ list_any (packets.is_like packet.now) kept.now }
{
    for other in kept {
        if other.is_like(packet) {
            return true;
        }
    }
    false
}

/// Whether there is no room for one more packet.
pub fn is_full(kept: &[KeptPacket], packet: &Packet) -> bool
    requires { spec.bytes_in kept.now ≤ 536_870_912 }
    ensures { result ≡ (nat_le 64 (length kept.now)
        || nat_lt 536_870_912 (spec.bytes_in kept.now + packet.now.size)) }
{
    kept.len() >= PACKETS || room(kept) < packet.size
}

// The number of bytes that may still be kept.
fn room(kept: &[KeptPacket]) -> u64
    ensures { result ≡ 536_870_912 - spec.bytes_in kept.now }
{
    let mut room = BYTES;
    for packet in kept {
        room = room.saturating_sub(packet.size());
    }
    room
}

/// Keeps a packet after the others, and moves the mirror as far as it then can. During the move the packet is held as
/// what was read from it. If it is still ahead afterwards, only its bytes are kept. If memory runs out, nothing has
/// changed.
pub fn keep(
    alloc: Global,
    tables: &mut Tables,
    kept: &mut Vec<KeptPacket>,
    packet: Packet,
    bytes: &[u8],
) -> Result<(), NoMemory>
    requires tables { AreTables tables.old }
    requires packets { All IsSoundPacket kept.old.items }
    requires packet { IsSoundPacket packet }
    requires bytes { IsSpelledBy bytes.now packet }
    ensures settles { OnOk result (SettlesTo tables.old (kept.old.items ++ packet ∷ []) tables.new) }
    ensures kept { OnOk result (kept.new.items
        ≡ filter (spec.is_ahead tables.new.publication) (kept.old.items ++ packet ∷ [])) }
    ensures tables { OnOk result (AreTables tables.new) }
    ensures rises { tables.old.publication ≤ tables.new.publication }
    ensures tables_stay { OnErr result (tables.new ≡ tables.old) }
    ensures kept_stay { OnErr result (kept.new.items ≡ kept.old.items) }
{
    kept.push(KeptPacket::of(alloc, packet)?)?;
    let settled = settle(alloc, tables, kept.as_slice());
    let Some(last) = kept.pop() else {
        unreachable!()
    };
    let settled = settled?;
    let shown = settled.publication;
    keep_ahead(alloc, shown, kept, last, bytes)?;
    kept.retain(|packet| shown < packet.publication());
    *tables = settled;
    Ok(())
}

// Keeps a packet after the others, as its bytes, if it is ahead of this publication.
fn keep_ahead(
    alloc: Global,
    shown: u32,
    kept: &mut Vec<KeptPacket>,
    packet: KeptPacket,
    bytes: &[u8],
) -> Result<(), NoMemory>
    requires { IsSpelledBy bytes.now packet }
    ensures kept { OnOk result (filter (spec.is_ahead shown) kept.new.items
        ≡ filter (spec.is_ahead shown) (kept.old.items ++ packet ∷ [])) }
    ensures stay { OnErr result (kept.new.items ≡ kept.old.items) }
{
    if packet.publication() <= shown {
        return Ok(());
    }
    kept.push(packet.into_bytes(alloc, bytes)?)?;
    Ok(())
}
