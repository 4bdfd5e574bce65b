//! Moves a mirror as far as it can.
ghost use Rattle.std.specs.Prelude.{◌≡◌, ◌≤◌, IfOk};
ghost use Rattle.std.specs.List.{All};
ghost use Rattle.copy_csv.specs.Rows.{AreRows};
ghost use Rattle.lei_mirror.specs.Mirrors as spec;
ghost use Rattle.lei_mirror.specs.Settling.{IsSoundFor, SettlesTo, packet_now};
ghost use Rattle.lei_mirror.specs.States.{AreTables, IsSoundBody, IsSoundPacket};

use crate::kept_packet::KeptPacket;
use crate::merging::merge;
use crate::packet::PacketBody;
use crate::ready::{greatest_ready, packet_for};
use crate::tables::{SheetCopy, Tables};
use copy_csv::{Head, Sheet};
use lei_values::NoMemory;
use std::alloc::Global;

/// The tables to which these packets bring a mirror with these tables. They are built while the old ones remain, and
/// share the rows that stay. So nothing has to be undone if memory runs out.
pub fn settle(alloc: Global, tables: &Tables, kept: &[KeptPacket]) -> Result<Tables, NoMemory>
    requires tables { AreTables tables.now }
    requires packets { All IsSoundPacket kept.now }
    ensures settles { IfOk result (λ settled. SettlesTo tables.now kept.now settled) }
    ensures tables { IfOk result (λ settled. AreTables settled) }
    ensures rises { IfOk result (λ settled. tables.now.publication ≤ settled.publication) }
{
    let mut now = tables.share()?;
    while let Some(number) = greatest_ready(now.publication, kept) {
        now = tables_at(alloc, &now, kept, number)?;
    }
    Ok(now)
}

// The tables of another publication, each brought there by a packet. What is read again from one packet is dropped
// before the next one is read.
fn tables_at(
    alloc: Global,
    tables: &Tables,
    kept: &[KeptPacket],
    number: u32,
) -> Result<Tables, NoMemory>
    requires tables { AreTables tables.now }
    requires packets { All IsSoundPacket kept.now }
    ensures { IfOk result (λ made. made ≡ spec.tables_at tables.now kept.now number) }
{
    let shown = tables.publication;
    let lei = packet_for(shown, kept, number, Sheet::Lei);
    let rr = packet_for(shown, kept, number, Sheet::Rr);
    let repex = packet_for(shown, kept, number, Sheet::Repex);
    Ok(Tables {
        publication: number,
        lei: copy_after(alloc, Sheet::Lei, &tables.lei, lei)?,
        rr: copy_after(alloc, Sheet::Rr, &tables.rr, rr)?,
        repex: copy_after(alloc, Sheet::Repex, &tables.repex, repex)?,
    })
}

// What is shown of a sheet after a packet of this sheet, if there is one.
fn copy_after(
    alloc: Global,
    sheet: Sheet,
    old: &SheetCopy,
    packet: Option<&KeptPacket>,
) -> Result<SheetCopy, NoMemory>
    requires rows { AreRows sheet old.now.rows }
    requires packet { IsSoundFor sheet (packet_now packet) }
    ensures { IfOk result (λ made. made ≡ spec.copy_after old.now (packet_now packet.entry)) }
{
    let Some(packet) = packet else {
        return old.share();
    };
    let body = packet.body(alloc)?;
    copy_with(alloc, sheet, old, packet.head(), &body)
}

// What is shown of a sheet after a packet with this head and this body.
fn copy_with(
    alloc: Global,
    sheet: Sheet,
    old: &SheetCopy,
    head: &Head,
    body: &PacketBody,
) -> Result<SheetCopy, NoMemory>
    requires rows { AreRows sheet old.now.rows }
    requires body { IsSoundBody sheet head.now body.now }
    ensures { IfOk result (λ made. made ≡ spec.copy_with old.now head.now body.now) }
{
    match body {
        PacketBody::Copy(rows) => Ok(SheetCopy {
            head: Some(*head),
            rows: rows.share()?,
        }),
        PacketBody::Delta(changes) => Ok(SheetCopy {
            head: Some(Head { from: 0, ..*head }),
            rows: merge(alloc, sheet, old.rows.as_slice(), changes.as_slice())?,
        }),
    }
}
