//! Packets: copies and deltas that were read.
ghost use Rattle.std.specs.Prelude.{◌≡◌};
ghost use Rattle.lei_mirror.specs.Packets as spec;

use crate::changes::SharedChange;
use crate::shared::SharedRows;
use copy_csv::{Head, Sheet};
use lei_values::List;

/// Whether a packet is a copy or a delta.
#[derive(Clone, Copy, Debug, PartialEq, Eq)]
pub enum PacketKind {
    /// A golden copy of a sheet.
    Copy,
    /// The changes of a sheet between two publications.
    Delta,
}

/// What follows the head of a packet.
#[derive(Drop)]
pub enum PacketBody {
    /// The rows of a copy.
    Copy(SharedRows),
    /// The changes of a delta.
    Delta(List<SharedChange>),
}

/// A copy or a delta that was read.
#[derive(Drop)]
pub struct Packet {
    /// Its sheet.
    pub sheet: Sheet,
    /// The moment and the number of its publication, and in a delta the number of the publication that it starts from.
    pub head: Head,
    /// The number of bytes that it was read from.
    pub size: u64,
    /// Its rows or its changes.
    pub body: PacketBody,
}

impl Packet {
    /// Whether it is a copy or a delta.
    pub fn kind(&self) -> PacketKind
        ensures { result ≡ spec.body_kind self.now.body }
    {
        match &self.body {
            PacketBody::Copy(_) => PacketKind::Copy,
            PacketBody::Delta(_) => PacketKind::Delta,
        }
    }
}

/// Whether two sheets are the same.
pub fn is_sheet(sheet: Sheet, other: Sheet) -> bool
    ensures { result ≡ spec.is_sheet sheet other }
{
    match sheet {
        Sheet::Lei => matches!(other, Sheet::Lei),
        Sheet::Rr => matches!(other, Sheet::Rr),
        Sheet::Repex => matches!(other, Sheet::Repex),
    }
}

/// Whether two kinds are the same.
pub fn is_kind(kind: PacketKind, other: PacketKind) -> bool
    ensures { result ≡ spec.is_kind kind other }
{
    match kind {
        PacketKind::Copy => matches!(other, PacketKind::Copy),
        PacketKind::Delta => matches!(other, PacketKind::Delta),
    }
}
