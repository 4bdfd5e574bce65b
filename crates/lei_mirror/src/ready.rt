//! Which publications a mirror can move to.
ghost use Rattle.std.specs.Prelude.{◌≡◌, ◌↔◌, IsTrue};
ghost use Rattle.std.specs.List.{find};
ghost use Rattle.lei_mirror.specs.Mirrors as spec;
ghost use Rattle.lei_mirror.specs.Packets as packets;
ghost use Rattle.lei_mirror.specs.Settling.{FindsGreatest, packet_now};

use crate::kept_packet::KeptPacket;
use copy_csv::Sheet;

/// The packet that brings a sheet to a publication. This is the publication's copy, or else the first delta to it from
/// one that isn't after the one that is shown.
pub fn packet_for(shown: u32, kept: &[KeptPacket], number: u32, sheet: Sheet) -> Option<&KeptPacket>
    ensures { packet_now result ≡ spec.packet_for shown kept.now number sheet }
{
    if let Some(copy) = copy_among(kept, sheet, number) {
        return Some(copy);
    }
    delta_among(kept, sheet, number, shown)
}

fn copy_among(kept: &[KeptPacket], sheet: Sheet, number: u32) -> Option<&KeptPacket>
    ensures { packet_now result ≡ find (packets.is_copy_of sheet number) kept.now }
{
    for packet in kept {
        if packet.is_copy_of(sheet, number) {
            return Some(packet);
        }
    }
    None
}

fn delta_among(kept: &[KeptPacket], sheet: Sheet, number: u32, shown: u32) -> Option<&KeptPacket>
    ensures { packet_now result ≡ find (packets.is_delta_to sheet number shown) kept.now }
{
    for packet in kept {
        if packet.is_delta_to(sheet, number, shown) {
            return Some(packet);
        }
    }
    None
}

// Whether a publication is ready: it is after the one that is shown, and a packet brings each sheet to it.
fn is_ready(shown: u32, kept: &[KeptPacket], number: u32) -> bool
    ensures { IsTrue result ↔ spec.IsReadyToShow shown kept.now number }
{
    shown < number
        && packet_for(shown, kept, number, Sheet::Lei).is_some()
        && packet_for(shown, kept, number, Sheet::Rr).is_some()
        && packet_for(shown, kept, number, Sheet::Repex).is_some()
}

/// The greatest publication that is ready, if there is one.
pub fn greatest_ready(shown: u32, kept: &[KeptPacket]) -> Option<u32>
    ensures { FindsGreatest shown kept.now result }
{
    let mut greatest = shown;
    for packet in kept {
        let number = packet.publication();
        if greatest < number && is_ready(shown, kept, number) {
            greatest = number;
        }
    }
    if shown < greatest {
        Some(greatest)
    } else {
        None
    }
}
