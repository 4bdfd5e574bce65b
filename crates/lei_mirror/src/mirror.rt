//! The mirror, which takes packets and shows copies.
ghost use Rattle.std.specs.Prelude.{◌≡◌, ◌≤◌, false, true, length, IfOk, IsErrOf, OnErr, OnOk};
ghost use Rattle.copy_forms.specs.Trails.{IsSoundTrail, Trail};
ghost use Rattle.lei_mirror.specs.declared.faults.MirrorFault.{MirrorFault as Taking};
ghost use Rattle.lei_mirror.specs.declared.faults.ShowFault.{ShowFault as Showing};
ghost use Rattle.lei_mirror.specs.Following.{FollowsTrail, IsCopyAt, IsOfTrail};
ghost use Rattle.lei_mirror.specs.KeptPackets.{IsSpelledBy};
ghost use Rattle.lei_mirror.specs.Mirrors as spec;
ghost use Rattle.lei_mirror.specs.Mirrors.{HasNoRoom, IsSheetShown, TakesPacket, TakesBytes, empty_mirror};
ghost use Rattle.lei_mirror.specs.Packets.{IsNoPacket};
ghost use Rattle.lei_mirror.specs.States.{IsSoundPacket};

use crate::faults::{MirrorFault, ShowFault};
use crate::keeping::{is_full, is_past, keep};
use crate::kept_packet::KeptPacket;
use crate::packet::{Packet, PacketKind};
use crate::reading::read_packet;
use crate::showing::rows_text;
use crate::tables::Tables;
use copy_csv::Sheet;
use lei_values::{Bytes, NoMemory};
use std::alloc::Global;
use std::marker::Model;

/// What a mirror shows and keeps, in numbers.
#[derive(Clone, Copy, Debug, PartialEq, Eq)]
pub struct Standing {
    /// The number of the publication that is shown, or 0 if none is.
    pub shown: u32,
    /// The number of packets that are kept ahead of it.
    pub kept: u32,
}

/// The three tables of one publication, and packets of later ones. Contracts see the number, the heads and the rows of
/// the tables, and the packets in order of arrival.
#[derive(Drop)]
pub struct Mirror {
    alloc: Global,
    tables: Tables,
    kept: Vec<KeptPacket>,
}

impl Model for Mirror {
    ghost use Rattle.lei_mirror.specs.Mirrors.{MirrorState};

    ghost Value = { MirrorState };

    ghost view = { λ mirror. record { tables = mirror.tables; kept = mirror.kept.items } };

    ghost use Rattle.lei_mirror.specs.States.{IsMirror};

    ghost invariant = { λ mirror. IsMirror mirror.tables mirror.kept.items };
}

impl Mirror {
    /// A mirror that has taken nothing.
    pub fn new(alloc: Global) -> Result<Self, NoMemory>
        ensures empty { IfOk result (λ mirror. mirror ≡ empty_mirror) }
        ensures follows { IfOk result (λ mirror. (trail : Trail) → FollowsTrail trail mirror) }
    {
        Ok(Mirror {
            alloc,
            tables: Tables::empty(alloc)?,
            kept: Vec::new(alloc),
        })
    }

    /// Takes a copy or a delta of a sheet in JSON, which is read here. If the mirror can't move to its publication yet,
    /// it is kept as its bytes, and read again when the mirror moves there. The faults are reported in the order of
    /// `MirrorFault`. After a fault the mirror is as it was.
    pub fn take(
        &mut self,
        kind: PacketKind,
        sheet: Sheet,
        bytes: &[u8],
    ) -> Result<Standing, MirrorFault>
        ensures takes { OnOk result (TakesBytes self.old kind sheet bytes.now self.new) }
        ensures shown { IfOk result (λ standing. standing.shown ≡ self.new.tables.publication) }
        ensures kept { IfOk result (λ standing. standing.kept ≡ length self.new.kept) }
        ensures not_read { IsErrOf result Taking.NotRead → IsNoPacket kind sheet bytes.now }
        ensures full { IsErrOf result Taking.Full → HasNoRoom self.old kind sheet bytes.now }
        ensures err { OnErr result (self.new ≡ self.old) }
        ensures rises { self.old.tables.publication ≤ self.new.tables.publication }
        ensures follows { (trail : Trail) → IsSoundTrail trail → length trail ≤ 1_000_000
            → IsOfTrail trail kind sheet bytes.now → FollowsTrail trail self.old
            → FollowsTrail trail self.new }
    {
        let packet = read_packet(self.alloc, kind, sheet, bytes)?;
        self.take_packet(packet, bytes)?;
        Ok(self.standing())
    }

    /// The copy of a sheet in JSON, from the publication that is shown.
    pub fn show(&self, sheet: Sheet) -> Result<Bytes, ShowFault>
        ensures copy { IfOk result (λ bytes. IsSheetShown self.now sheet bytes) }
        ensures shown { OnOk result (1 ≤ self.now.tables.publication) }
        ensures nothing { IsErrOf result Showing.NothingHeld → self.now.tables.publication ≡ 0 }
        ensures follows { IfOk result (λ bytes. (trail : Trail) → FollowsTrail trail self.now
            → IsCopyAt trail self.now.tables.publication sheet bytes) }
    {
        let copy = self.tables.copy_of(sheet);
        let Some(head) = copy.head else {
            return Err(ShowFault::NothingHeld);
        };
        Ok(rows_text(self.alloc, &head, copy.rows.as_slice())?)
    }

    // Takes a packet that was read from these bytes.
    fn take_packet(&mut self, packet: Packet, bytes: &[u8]) -> Result<(), MirrorFault>
        requires sound { IsSoundPacket packet }
        requires bytes { IsSpelledBy bytes.now packet }
        ensures takes { OnOk result (TakesPacket self.old packet self.new) }
        ensures new { IsErrOf result Taking.Full → spec.is_past self.old packet ≡ false }
        ensures full { IsErrOf result Taking.Full → spec.is_mirror_full self.old packet ≡ true }
        ensures read { IsErrOf result Taking.NotRead → ⊥ }
        ensures err { OnErr result (self.new ≡ self.old) }
        ensures rises { self.old.tables.publication ≤ self.new.tables.publication }
    {
        if is_past(&self.tables, self.kept.as_slice(), &packet) {
            return Ok(());
        }
        if is_full(self.kept.as_slice(), &packet) {
            return Err(MirrorFault::Full);
        }
        keep(self.alloc, &mut self.tables, &mut self.kept, packet, bytes)?;
        Ok(())
    }

    // What the mirror shows and keeps, in numbers.
    fn standing(&self) -> Standing
        ensures shown { result.shown ≡ self.now.tables.publication }
        ensures kept { result.kept ≡ length self.now.kept }
    {
        Standing {
            shown: self.tables.publication,
            kept: self.kept.len() as u32,
        }
    }
}
