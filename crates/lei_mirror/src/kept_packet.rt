//! Packets that a mirror keeps.
ghost use Rattle.std.specs.Prelude.{◌≡◌, IfOk};
ghost use Rattle.std.specs.Arc.{arc_value};
ghost use Rattle.lei_mirror.specs.KeptPackets.{IsSpelledBy};
ghost use Rattle.lei_mirror.specs.Packets as spec;

use crate::packet::{Packet, PacketBody, PacketKind, is_kind, is_sheet};
use crate::reading::read_body;
use copy_csv::{Head, Sheet};
use lei_values::{Bytes, NoMemory};
use std::alloc::Global;
use std::marker::Model;
use std::snapshot::Snapshot;
use std::sync::Arc;

/// What is held of a packet in addition to its head.
#[derive(Drop)]
pub enum HeldBody {
    /// A copy of its bytes.
    Bytes(Bytes),
    /// What was read from its bytes.
    Read(Arc<PacketBody, Global>),
}

/// A packet that is kept. Until the mirror has moved, it is held as what was read from its bytes. After that it is held
/// as its bytes, which are read again when it is used. Contracts see the packet.
#[derive(Drop)]
pub struct KeptPacket {
    kind: PacketKind,
    sheet: Sheet,
    head: Head,
    // The number of its bytes.
    size: u64,
    body: HeldBody,
    // The packet, for contracts. It takes up no memory.
    packet: Snapshot<Packet>,
}

impl Model for KeptPacket {
    ghost use Rattle.lei_mirror.specs.declared.packet.Packet.{Packet};
    ghost use Rattle.lei_mirror.specs.KeptPackets.{IsKeptAs};

    ghost Value = { Packet };

    ghost view = { λ kept. kept.packet.value };

    ghost invariant = { λ kept. IsKeptAs kept.kind kept.sheet kept.head kept.size kept.body kept.packet.value };
}

impl KeptPacket {
    /// A packet that was read.
    pub fn of(alloc: Global, packet: Packet) -> Result<Self, NoMemory>
        ensures { IfOk result (λ kept. kept ≡ packet) }
    {
        let known = Snapshot::of(&packet);
        let kind = packet.kind();
        let Packet {
            sheet,
            head,
            size,
            body,
        } = packet;
        let body = HeldBody::Read(Arc::new(alloc, body)?);
        Ok(KeptPacket {
            kind,
            sheet,
            head,
            size,
            body,
            packet: known,
        })
    }

    /// The same packet, held as its bytes. What was read from them is dropped first.
    pub fn into_bytes(self, alloc: Global, bytes: &[u8]) -> Result<Self, NoMemory>
        requires { IsSpelledBy bytes.now self }
        ensures { IfOk result (λ kept. kept ≡ self) }
    {
        let KeptPacket {
            kind,
            sheet,
            head,
            size,
            body,
            packet,
        } = self;
        drop(body);
        let body = HeldBody::Bytes(Bytes::copy_of(alloc, bytes)?);
        Ok(KeptPacket {
            kind,
            sheet,
            head,
            size,
            body,
            packet,
        })
    }

    /// Its head.
    pub fn head(&self) -> &Head
        ensures { result.now ≡ self.now.head }
    {
        &self.head
    }

    /// The number of its publication.
    pub fn publication(&self) -> u32
        ensures { result ≡ self.now.head.publication }
    {
        self.head.publication
    }

    /// The number of its bytes.
    pub fn size(&self) -> u64
        ensures { result ≡ self.now.size }
    {
        self.size
    }

    /// Its rows or its changes. If the packet is held as its bytes, they are read here.
    pub fn body(&self, alloc: Global) -> Result<Arc<PacketBody, Global>, NoMemory>
        ensures { IfOk result (λ body. arc_value body ≡ self.now.body) }
    {
        match &self.body {
            HeldBody::Bytes(bytes) => {
                let body = read_body(alloc, self.kind, self.sheet, bytes.as_slice())?;
                Ok(Arc::new(alloc, body)?)
            }
            HeldBody::Read(body) => Ok(Arc::try_clone(body)?),
        }
    }

    // Whether it is of this kind and sheet and of the publication with this number.
    fn is_of(&self, kind: PacketKind, sheet: Sheet, number: u32) -> bool
        ensures { result ≡ spec.is_packet_of kind sheet number self.now }
    {
        is_kind(self.kind, kind) && is_sheet(self.sheet, sheet) && self.head.publication == number
    }

    /// Whether it is the copy of the sheet in the publication with this number.
    pub fn is_copy_of(&self, sheet: Sheet, number: u32) -> bool
        ensures { result ≡ spec.is_copy_of sheet number self.now }
    {
        self.is_of(PacketKind::Copy, sheet, number)
    }

    /// Whether it is a delta of the sheet to this publication, from one with a number from 1 to `shown`.
    pub fn is_delta_to(&self, sheet: Sheet, number: u32, shown: u32) -> bool
        ensures { result ≡ spec.is_delta_to sheet number shown self.now }
    {
        let from = self.head.from;
        self.is_of(PacketKind::Delta, sheet, number) && 1 <= from && from <= shown
    }

    /// Whether it has the kind, the sheet, the publication and the base of a packet that was read.
    pub fn is_like(&self, packet: &Packet) -> bool
        ensures { result ≡ spec.is_like packet.now self.now }
    {
        let number = packet.head.publication;
        self.is_of(packet.kind(), packet.sheet, number) && self.head.from == packet.head.from
    }
}
